//! Addresses: four numbers joined by dots.
ghost use Rattle.std.specs.Prelude.{◌≡◌, ◌++◌, OnOk};
ghost use Rattle.net_base.specs.Addresses as spec;
ghost use Rattle.net_base.specs.ControlWords.{place};
ghost use Rattle.net_base.specs.Transcript.{ip_word, addr_word};

use crate::number::{is_padded, put_decimal, read_digits};
use crate::parts::four_parts;
use net_base::{Addr, Octets};
use std::alloc::AllocError;

/// A number of an address, 0 to 255, which may have leading zeros.
fn read_byte(word: &[u8]) -> Option<u32>
    ensures { result ≡ spec.read_byte word.now }
{
    let number = read_digits(3, word)?;
    if number <= 255 {
        Some(number as u32)
    } else {
        None
    }
}

/// A number of an address, 0 to 255.
fn octet_of(word: &[u8]) -> Option<u32>
    ensures { result ≡ spec.octet_of word.now }
{
    if is_padded(word) {
        None
    } else {
        read_byte(word)
    }
}

/// An address whose numbers may have leading zeros.
pub fn read_address(word: &[u8]) -> Option<u32>
    ensures { result ≡ spec.read_address word.now }
{
    let (a, b, c, d) = four_parts(word, b'.')?;
    let a = read_byte(a)?;
    let b = read_byte(b)?;
    let c = read_byte(c)?;
    let d = read_byte(d)?;
    Some(((a * 256 + b) * 256 + c) * 256 + d)
}

/// An address as it is written, without leading zeros.
pub fn address_in(word: &[u8]) -> Option<u32>
    ensures { result ≡ spec.address_in word.now }
{
    let (a, b, c, d) = four_parts(word, b'.')?;
    let a = octet_of(a)?;
    let b = octet_of(b)?;
    let c = octet_of(c)?;
    let d = octet_of(d)?;
    Some(((a * 256 + b) * 256 + c) * 256 + d)
}

// Adds four numbers joined by dots.
fn put_dotted(out: &mut Octets, ip: u32) -> Result<(), AllocError>
    ensures { OnOk result (out.new ≡ out.old ++ ip_word ip) }
{
    put_decimal(out, (ip >> 24) as u64)?;
    out.push(b'.')?;
    put_decimal(out, (ip >> 16 & 255) as u64)?;
    out.push(b'.')?;
    put_decimal(out, (ip >> 8 & 255) as u64)?;
    out.push(b'.')?;
    put_decimal(out, (ip & 255) as u64)?;
    Ok(())
}

/// Adds an address.
#[tactic(auto, using(crate::proofs::Numerals::addresses_alike))]
pub fn put_address(out: &mut Octets, ip: u32) -> Result<(), AllocError>
    ensures numeral { OnOk result (out.new ≡ out.old ++ ip_word ip) }
    ensures decimal { OnOk result (out.new ≡ out.old ++ spec.address_text ip) }
{
    put_dotted(out, ip)
}

/// Adds an address and its port, with a `!` between them.
#[tactic(auto, unfolding(net_base::specs::Transcript::addr_word))]
pub fn put_place(out: &mut Octets, at: Addr) -> Result<(), AllocError>
    ensures numeral { OnOk result (out.new ≡ out.old ++ addr_word at) }
    ensures decimal { OnOk result (out.new ≡ out.old ++ place at) }
{
    put_address(out, at.ip)?;
    out.push(b'!')?;
    put_decimal(out, at.port as u64)?;
    Ok(())
}
