//! Numbers in decimal.
ghost use Rattle.std.specs.Prelude.{◌≡◌, ◌≤◌, ◌<◌, ◌+◌, ◌*◌, ◌/◌, ◌%◌, ◌^◌, ◌++◌, ◌∷◌, [], decimal, min, IfSome, OnOk};
ghost use Rattle.std.specs.Char.{digit_value};
ghost use Rattle.std.specs.Str.Parse.{digits_value};
ghost use Rattle.net_base.specs.Addresses as spec;
ghost use Rattle.net_base.specs.Numeral.{numeral};
ghost use Rattle.words.specs.Digits.{four_digits};

use itoa::Buffer;
use net_base::Octets;
use std::alloc::AllocError;

/// Adds a number's digits.
#[tactic(auto, using(crate::proofs::Numerals::decimal_is_numeral, crate::proofs::Numerals::four_more))]
pub fn put_decimal(out: &mut Octets, n: u64) -> Result<(), AllocError>
    ensures numeral { OnOk result (out.new ≡ out.old ++ numeral n) }
    ensures decimal { OnOk result (out.new ≡ out.old ++ decimal n) }
{
    put_digits(out, n)
}

// Adds the digits, four at a time if there are at most twelve.
#[tactic(auto, using(crate::proofs::Numerals::decimal_is_numeral, crate::proofs::Numerals::four_more))]
fn put_digits(out: &mut Octets, n: u64) -> Result<(), AllocError>
    ensures { OnOk result (out.new ≡ out.old ++ numeral n) }
{
    if n < 10_000 {
        return put_short(out, n);
    }
    if n < 1_000_000_000_000 {
        put_middle(out, n / 10_000)?;
        return put_four(out, n % 10_000);
    }
    let mut buffer = Buffer::new();
    out.append(buffer.format(n).as_bytes())
}

// Adds one digit to eight digits.
#[inline(always)]
#[tactic(auto, using(crate::proofs::Numerals::four_more))]
fn put_middle(out: &mut Octets, n: u64) -> Result<(), AllocError>
    requires { n < 100000000 }
    ensures { OnOk result (out.new ≡ out.old ++ numeral n) }
{
    if n < 10_000 {
        return put_short(out, n);
    }
    put_short(out, n / 10_000)?;
    put_four(out, n % 10_000)
}

// Adds one digit to four digits.
#[inline(always)]
#[tactic(auto, using(crate::proofs::Numerals::numeral_one, crate::proofs::Numerals::numeral_two, crate::proofs::Numerals::numeral_three, crate::proofs::Numerals::numeral_four))]
fn put_short(out: &mut Octets, n: u64) -> Result<(), AllocError>
    requires { n < 10000 }
    ensures { OnOk result (out.new ≡ out.old ++ numeral n) }
{
    if n < 10 {
        return out.push(b'0' + n as u8);
    }
    if n < 100 {
        return out.append(&[b'0' + (n / 10) as u8, b'0' + (n % 10) as u8]);
    }
    if n < 1000 {
        let low = n % 100;
        return out.append(&[
            b'0' + (n / 100) as u8,
            b'0' + (low / 10) as u8,
            b'0' + (low % 10) as u8,
        ]);
    }
    put_four(out, n)
}

// Adds four digits, the first of which can be 0.
#[inline(always)]
fn put_four(out: &mut Octets, n: u64) -> Result<(), AllocError>
    requires { n < 10000 }
    ensures { OnOk result (out.new ≡ out.old ++ four_digits n) }
{
    let high = n / 100;
    let low = n % 100;
    out.append(&[
        b'0' + (high / 10) as u8,
        b'0' + (high % 10) as u8,
        b'0' + (low / 10) as u8,
        b'0' + (low % 10) as u8,
    ])
}

/// Adds the digits of a number of 128 bits.
#[tactic(auto, using(crate::proofs::Numerals::decimal_is_numeral))]
pub fn put_wide_decimal(out: &mut Octets, n: u128) -> Result<(), AllocError>
    ensures { OnOk result (out.new ≡ out.old ++ numeral n) }
{
    let mut buffer = Buffer::new();
    out.append(buffer.format(n).as_bytes())
}

/// The number that one digit to `most` digits spell.
pub fn read_digits(most: usize, word: &[u8]) -> Option<u128>
    requires { most ≤ 20 }
    ensures { result ≡ spec.read_digits most word.now }
{
    if word.is_empty() || most < word.len() {
        return None;
    }
    let mut number: u128 = 0;
    for byte in word {
        if !byte.is_ascii_digit() {
            return None;
        }
        number = number * 10 + u128::from(*byte - b'0');
    }
    Some(number)
}

/// A port, 1 to 65535, which may have leading zeros.
pub fn read_port(word: &[u8]) -> Option<u16>
    ensures { result ≡ spec.read_port word.now }
{
    let number = read_digits(5, word)?;
    if 1 <= number && number <= 65535 {
        Some(number as u16)
    } else {
        None
    }
}

/// Whether a number begins with a zero that it doesn't need.
pub(crate) fn is_padded(word: &[u8]) -> bool
    ensures { result ≡ spec.is_padded word.now }
{
    1 < word.len() && word[0] == b'0'
}

/// A number from `least` to `greatest`, without leading zeros.
pub fn number_in(least: u64, greatest: u64, word: &[u8]) -> Option<u64>
    ensures value { result ≡ spec.number_in least greatest word.now }
    ensures within { IfSome result (λ n. n ≤ greatest) }
{
    if is_padded(word) {
        return None;
    }
    let number = read_digits(20, word)?;
    if u128::from(least) <= number && number <= u128::from(greatest) {
        Some(number as u64)
    } else {
        None
    }
}

// The value of a digit or a letter, and 36 for another byte.
fn digit(byte: u8) -> u64
    ensures value { result ≡ digit_value byte }
    ensures small { result ≤ 36 }
{
    match byte {
        b'0'..=b'9' => (byte - b'0') as u64,
        b'A'..=b'Z' => (byte - b'A') as u64 + 10,
        b'a'..=b'z' => (byte - b'a') as u64 + 10,
        _ => 36,
    }
}

/// The value of any text in decimal, or the cap where it is larger. What isn't a digit counts as std counts it.
pub fn number_up_to(cap: u64, text: &[u8]) -> u64
    requires room { cap < 2 ^ 60 }
    ensures { result ≡ min (digits_value 10 text.now) cap }
{
    let mut number: u64 = 0;
    for byte in text {
        number = (number * 10 + digit(*byte)).min(cap);
    }
    number
}
