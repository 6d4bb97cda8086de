//! Bytes in lower-case hexadecimal.
ghost use Rattle.std.specs.Prelude.{◌≡◌, ◌<◌, ◌/◌, ◌%◌, ◌∷◌, ◌++◌, [], IfOk, OnOk};
ghost use Rattle.net_base.specs.Hexadecimal as spec;

use net_base::Octets;
use std::alloc::{AllocError, Global};

static DIGITS: [u8; 16] = *b"0123456789abcdef";

// The first digit of a byte.
#[inline(always)]
fn high_digit(byte: u8) -> u8
    ensures { result ≡ spec.hex_digit (byte / 16) }
{
    hex_digit(byte / 16)
}

// The second digit of a byte.
#[inline(always)]
fn low_digit(byte: u8) -> u8
    ensures { result ≡ spec.hex_digit (byte % 16) }
{
    hex_digit(byte % 16)
}

#[inline(always)]
fn hex_digit(n: u8) -> u8
    requires { n < 16 }
    ensures { result ≡ spec.hex_digit n }
{
    DIGITS[n as usize]
}

/// Adds two digits for each byte.
pub fn put_hex_digits(out: &mut Octets, bytes: &[u8]) -> Result<(), AllocError>
    ensures { OnOk result (out.new ≡ out.old ++ spec.hex_digits bytes.now) }
{
    let mut rest = bytes;
    while let [a, b, c, d, others @ ..] = rest {
        put_four_bytes(out, *a, *b, *c, *d)?;
        rest = others;
    }
    put_last_bytes(out, rest)
}

// Adds the digits of four bytes.
#[inline(always)]
fn put_four_bytes(out: &mut Octets, a: u8, b: u8, c: u8, d: u8) -> Result<(), AllocError>
    ensures { OnOk result (out.new ≡ out.old ++ spec.hex_digits (a ∷ b ∷ c ∷ d ∷ [])) }
{
    out.append(&[
        high_digit(a),
        low_digit(a),
        high_digit(b),
        low_digit(b),
        high_digit(c),
        low_digit(c),
        high_digit(d),
        low_digit(d),
    ])
}

// Adds the digits of a few bytes.
fn put_last_bytes(out: &mut Octets, bytes: &[u8]) -> Result<(), AllocError>
    ensures { OnOk result (out.new ≡ out.old ++ spec.hex_digits bytes.now) }
{
    for byte in bytes {
        out.append(&[high_digit(*byte), low_digit(*byte)])?;
    }
    Ok(())
}

/// Adds bytes as a word, `-` where there are none.
pub fn put_hex_word(out: &mut Octets, bytes: &[u8]) -> Result<(), AllocError>
    ensures { OnOk result (out.new ≡ out.old ++ spec.hex_word bytes.now) }
{
    if bytes.is_empty() {
        out.append(b"-")
    } else {
        put_hex_digits(out, bytes)
    }
}

/// The value of a digit.
fn hex_value(byte: u8) -> Option<u8>
    ensures { result ≡ spec.hex_value byte }
{
    match byte {
        b'0'..=b'9' => Some(byte - b'0'),
        b'a'..=b'f' => Some(byte - b'a' + 10),
        _ => None,
    }
}

/// The bytes of an even number of digits.
fn hex_bytes(alloc: Global, word: &[u8]) -> Result<Option<Octets>, AllocError>
    ensures { IfOk result (λ bytes. bytes ≡ spec.hex_bytes word.now) }
{
    let mut bytes = Vec::with_capacity(alloc, word.len() / 2)?;
    let mut rest = word;
    while let [high, low, others @ ..] = rest {
        let (Some(high), Some(low)) = (hex_value(*high), hex_value(*low)) else {
            return Ok(None);
        };
        bytes.push(high * 16 + low)?;
        rest = others;
    }
    if rest.is_empty() {
        Ok(Some(Octets::from_vec(bytes)))
    } else {
        Ok(None)
    }
}

/// The bytes that a word tells, none for `-`.
pub fn read_hex_word(alloc: Global, word: &[u8]) -> Result<Option<Octets>, AllocError>
    ensures { IfOk result (λ bytes. bytes ≡ spec.hex_text word.now) }
{
    if word.is_empty() {
        return Ok(None);
    }
    if word == b"-".as_slice() {
        return Ok(Some(Octets::new(alloc)));
    }
    hex_bytes(alloc, word)
}
