//! Reading the fields of a message, from left to right.
ghost use Rattle.std.specs.Prelude.{◌<◌};
ghost use Rattle.ninep_wire.specs.Reading.{Gives};
ghost use Rattle.net_base.specs.NinepReading.{bytes_at, counted_at, list_at, many_at, number_at, qid_at};

use crate::fault::NinepError;
use byteorder::{ByteOrder, LittleEndian};
use net_base::{Lines, Octets, Qid, Qids};
use std::alloc::Global;

/// No walk has more names, and no answer to one more qids.
const MOST: u16 = 16;

/// A number of one byte, and the bytes after it.
pub(crate) fn byte(bytes: &[u8]) -> Result<(u8, &[u8]), NinepError>
    ensures { Gives (λ x. (x.0, x.1.now)) result (number_at 1 bytes.now) }
{
    match bytes {
        [] => Err(NinepError::Field),
        [number, rest @ ..] => Ok((*number, rest)),
    }
}

/// A number of two bytes.
pub(crate) fn word(bytes: &[u8]) -> Result<(u16, &[u8]), NinepError>
    ensures { Gives (λ x. (x.0, x.1.now)) result (number_at 2 bytes.now) }
{
    if bytes.len() < 2 {
        return Err(NinepError::Field);
    }
    let (_, rest) = bytes.split_at(2);
    Ok((LittleEndian::read_u16(bytes), rest))
}

/// A number of four bytes.
pub(crate) fn long(bytes: &[u8]) -> Result<(u32, &[u8]), NinepError>
    ensures { Gives (λ x. (x.0, x.1.now)) result (number_at 4 bytes.now) }
{
    if bytes.len() < 4 {
        return Err(NinepError::Field);
    }
    let (_, rest) = bytes.split_at(4);
    Ok((LittleEndian::read_u32(bytes), rest))
}

/// A number of eight bytes.
pub(crate) fn vast(bytes: &[u8]) -> Result<(u64, &[u8]), NinepError>
    ensures { Gives (λ x. (x.0, x.1.now)) result (number_at 8 bytes.now) }
{
    if bytes.len() < 8 {
        return Err(NinepError::Field);
    }
    let (_, rest) = bytes.split_at(8);
    Ok((LittleEndian::read_u64(bytes), rest))
}

/// So many bytes.
fn taken(alloc: Global, count: usize, bytes: &[u8]) -> Result<(Octets, &[u8]), NinepError>
    ensures { Gives (λ x. (x.0, x.1.now)) result (bytes_at count bytes.now) }
{
    if bytes.len() < count {
        return Err(NinepError::Field);
    }
    let (front, rest) = bytes.split_at(count);
    Ok((Octets::from_slice(alloc, front)?, rest))
}

/// A text, after its length in two bytes.
#[tactic(auto, unfolding(net_base::specs::NinepReading::counted_at))]
pub(crate) fn string(alloc: Global, bytes: &[u8]) -> Result<(Octets, &[u8]), NinepError>
    ensures { Gives (λ x. (x.0, x.1.now)) result (counted_at 2 bytes.now) }
{
    let (count, rest) = word(bytes)?;
    taken(alloc, usize::from(count), rest)
}

/// Data, after their length in four bytes.
#[tactic(auto, unfolding(net_base::specs::NinepReading::counted_at))]
pub(crate) fn data(alloc: Global, bytes: &[u8]) -> Result<(Octets, &[u8]), NinepError>
    ensures { Gives (λ x. (x.0, x.1.now)) result (counted_at 4 bytes.now) }
{
    let (count, rest) = long(bytes)?;
    taken(alloc, count as usize, rest)
}

/// A qid.
#[tactic(auto, unfolding(net_base::specs::NinepReading::qid_at))]
pub(crate) fn qid(bytes: &[u8]) -> Result<(Qid, &[u8]), NinepError>
    ensures { Gives (λ x. (x.0, x.1.now)) result (qid_at bytes.now) }
{
    let (kind, rest) = byte(bytes)?;
    let (version, rest) = long(rest)?;
    let (path, rest) = vast(rest)?;
    let qid = Qid {
        kind,
        version,
        path,
    };
    Ok((qid, rest))
}

/// At most sixteen texts, after how many they are.
#[tactic(auto, unfolding(net_base::specs::NinepReading::many_at))]
pub(crate) fn strings(alloc: Global, bytes: &[u8]) -> Result<(Lines, &[u8]), NinepError>
    ensures { Gives (λ x. (x.0, x.1.now)) result (many_at (counted_at 2) bytes.now) }
{
    let (count, rest) = word(bytes)?;
    if count > MOST {
        return Err(NinepError::Field);
    }
    strings_in(alloc, count, rest)
}

/// So many texts.
fn strings_in(alloc: Global, count: u16, bytes: &[u8]) -> Result<(Lines, &[u8]), NinepError>
    ensures { Gives (λ x. (x.0, x.1.now)) result (list_at (counted_at 2) count bytes.now) }
{
    let mut texts = Lines::new(alloc);
    let mut rest = bytes;
    for _ in 0..count {
        let (text, after) = string(alloc, rest)?;
        texts.push(text)?;
        rest = after;
    }
    Ok((texts, rest))
}

/// At most sixteen qids, after how many they are.
#[tactic(auto, unfolding(net_base::specs::NinepReading::many_at))]
pub(crate) fn qids(alloc: Global, bytes: &[u8]) -> Result<(Qids, &[u8]), NinepError>
    ensures { Gives (λ x. (x.0, x.1.now)) result (many_at qid_at bytes.now) }
{
    let (count, rest) = word(bytes)?;
    if count > MOST {
        return Err(NinepError::Field);
    }
    qids_in(alloc, count, rest)
}

/// So many qids.
fn qids_in(alloc: Global, count: u16, bytes: &[u8]) -> Result<(Qids, &[u8]), NinepError>
    ensures { Gives (λ x. (x.0, x.1.now)) result (list_at qid_at count bytes.now) }
{
    let mut qids = Qids::new(alloc);
    let mut rest = bytes;
    for _ in 0..count {
        let (one, after) = qid(rest)?;
        qids.push(one)?;
        rest = after;
    }
    Ok((qids, rest))
}
