//! The first lines of a world, and those of its media.
ghost use Rattle.std.specs.Prelude.{◌≡◌, IfOk};
ghost use Rattle.world_text.specs.LineReading as spec;

use crate::arguments::Arguments;
use crate::names::is_name;
use net_base::{Fate, Octets, Timers};
use std::alloc::{AllocError, Global};
use words::{number_in, single, two_parts};
use world_text::{Frames, MediumLine, WorldLine};

/// `networld 1` or `networld 2`
pub(crate) fn read_networld(args: &Arguments<'_>) -> Option<WorldLine>
    ensures { result ≡ spec.networld_of args.now }
{
    let timers = timers_named(args.one()?)?;
    Some(WorldLine::Networld(timers))
}

/// The kind of timers that a number names.
fn timers_named(word: &[u8]) -> Option<Timers>
    ensures { result ≡ spec.timers_named word.now }
{
    if word == b"1".as_slice() {
        Some(Timers::Fixed)
    } else if word == b"2".as_slice() {
        Some(Timers::Measured)
    } else {
        None
    }
}

/// `end M`
pub(crate) fn read_end(args: &Arguments<'_>) -> Option<WorldLine>
    ensures { result ≡ spec.read_end_line args.now }
{
    let moment = number_in(1, 1_000_000_000, args.one()?)?;
    Some(WorldLine::End(moment))
}

/// `seed N`
pub(crate) fn read_seed(args: &Arguments<'_>) -> Option<WorldLine>
    ensures { result ≡ spec.seed_of args.now }
{
    let seed = number_in(0, u64::MAX, args.one()?)?;
    Some(WorldLine::Seed(seed))
}

/// `medium NAME MTU`
pub(crate) fn read_medium(
    alloc: Global,
    args: &Arguments<'_>,
) -> Result<Option<WorldLine>, AllocError>
    ensures { IfOk result (λ read. read ≡ spec.medium_line_of args.now) }
{
    let Some((name, mtu)) = args.two() else {
        return Ok(None);
    };
    if !is_name(name) {
        return Ok(None);
    }
    let Some(mtu) = number_in(576, 16384, mtu) else {
        return Ok(None);
    };
    Ok(Some(WorldLine::OfMedium(MediumLine::Medium {
        name: Octets::from_slice(alloc, name)?,
        mtu: mtu as u32,
    })))
}

/// A rate in thousandths: any number below 2^32, alone or in the sum not above 1000.
fn rate_in(word: &[u8]) -> Option<u32>
    ensures { result ≡ spec.rate_in word.now }
{
    let rate = number_in(0, 4_294_967_295, word)?;
    Some(rate as u32)
}

/// `rates NAME LOSS TWICE LATER`
pub(crate) fn read_rates(
    alloc: Global,
    args: &Arguments<'_>,
) -> Result<Option<WorldLine>, AllocError>
    ensures { IfOk result (λ read. read ≡ spec.rates_of args.now) }
{
    let Some((name, loss, twice, later)) = args.four() else {
        return Ok(None);
    };
    if !is_name(name) {
        return Ok(None);
    }
    let (Some(loss), Some(twice), Some(later)) = (rate_in(loss), rate_in(twice), rate_in(later))
    else {
        return Ok(None);
    };
    Ok(Some(WorldLine::OfMedium(MediumLine::Rates {
        name: Octets::from_slice(alloc, name)?,
        loss,
        twice,
        later,
    })))
}

/// `fate NAME K FATE` or `fate NAME K-L FATE`
pub(crate) fn read_fate(
    alloc: Global,
    args: &Arguments<'_>,
) -> Result<Option<WorldLine>, AllocError>
    ensures { IfOk result (λ read. read ≡ spec.read_fate_line args.now) }
{
    let Some((name, frames, fate)) = args.three() else {
        return Ok(None);
    };
    if !is_name(name) {
        return Ok(None);
    }
    let (Some(frames), Some(fate)) = (frames_in(frames), fate_named(fate)) else {
        return Ok(None);
    };
    Ok(Some(WorldLine::OfMedium(MediumLine::Fate {
        name: Octets::from_slice(alloc, name)?,
        frames,
        fate,
    })))
}

/// K, or K-L where L isn't below K.
#[tactic(auto, using(crate::proofs::Parts::no_frames))]
pub fn frames_in(word: &[u8]) -> Option<Frames>
    ensures { result ≡ spec.frames_in word.now }
{
    if let Some(only) = single(word, b'-') {
        let frame = frame_in(only)?;
        return Some(Frames::One(frame));
    }
    let (first, last) = two_parts(word, b'-')?;
    range_in(first, last)
}

/// The frames from one to another.
fn range_in(first: &[u8], last: &[u8]) -> Option<Frames>
    ensures { result ≡ spec.range_from (spec.frame_in first.now) (spec.frame_in last.now) }
{
    let (Some(first), Some(last)) = (frame_in(first), frame_in(last)) else {
        return None;
    };
    if first <= last {
        Some(Frames::Range(first, last))
    } else {
        None
    }
}

/// The number of a frame, from 1.
fn frame_in(word: &[u8]) -> Option<u64>
    ensures { result ≡ spec.frame_in word.now }
{
    number_in(1, u64::MAX, word)
}

/// What becomes of a frame.
pub fn fate_named(word: &[u8]) -> Option<Fate>
    ensures { result ≡ spec.fate_named word.now }
{
    if word == b"deliver".as_slice() {
        Some(Fate::Deliver)
    } else if word == b"lose".as_slice() {
        Some(Fate::Lose)
    } else if word == b"twice".as_slice() {
        Some(Fate::Twice)
    } else if word == b"later".as_slice() {
        Some(Fate::Later)
    } else {
        None
    }
}
