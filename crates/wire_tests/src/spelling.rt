//! Worked words, and those that are refused.
use net_base::{Addr, Octets};
use std::alloc::{AllocError, Global};
use words::{
    address_in, number_in, number_up_to, put_hex_word, put_place, read_address, read_hex_word,
    read_port,
};

/// What is read of a word.
#[derive(Clone, Copy)]
enum Told {
    Number(Option<u64>),
    Port(Option<u16>),
    /// A number up to 1,000, with those above it told as 1,000.
    Most(u64),
    /// An address with leading zeros, and one without.
    Address(Option<u32>, Option<u32>),
}

type Row = (&'static [u8], Told);

fn is_told(word: &[u8], told: Told) -> bool {
    match told {
        Told::Number(number) => number_in(0, u64::MAX, word) == number,
        Told::Port(port) => read_port(word) == port,
        Told::Most(number) => number_up_to(1000, word) == number,
        Told::Address(loose, strict) => read_address(word) == loose && address_in(word) == strict,
    }
}

/// The first row that isn't so.
fn first_wrong(rows: &[Row]) -> Option<usize> {
    for (i, row) in rows.iter().enumerate() {
        if !is_told(row.0, row.1) {
            return Some(i);
        }
    }
    None
}

const NUMBERS: &[Row] = &[
    (b"0", Told::Number(Some(0))),
    (b"7", Told::Number(Some(7))),
    (b"00", Told::Number(None)),
    (b"07", Told::Number(None)),
    (b"", Told::Number(None)),
    (b"+1", Told::Number(None)),
    (b"1a", Told::Number(None)),
    (
        b"18446744073709551615",
        Told::Number(Some(18446744073709551615)),
    ),
    (b"18446744073709551616", Told::Number(None)),
    (b"100000000000000000000", Told::Number(None)),
];

const PORTS: &[Row] = &[
    (b"00564", Told::Port(Some(564))),
    (b"000564", Told::Port(None)),
    (b"0", Told::Port(None)),
    (b"65536", Told::Port(None)),
    (b"0999", Told::Most(999)),
    (b"1001", Told::Most(1000)),
];

const ADDRESSES: &[Row] = &[
    (
        b"135.104.9.31",
        Told::Address(Some(0x8768_091f), Some(0x8768_091f)),
    ),
    (
        b"255.255.255.255",
        Told::Address(Some(4294967295), Some(4294967295)),
    ),
    (b"001.02.3.4", Told::Address(Some(0x0102_0304), None)),
    (b"0001.2.3.4", Told::Address(None, None)),
    (b"1.2.3", Told::Address(None, None)),
    (b"1.2.3.4.5", Told::Address(None, None)),
    (b"1..3.4", Told::Address(None, None)),
    (b"1.2.3.256", Told::Address(None, None)),
    (b"", Told::Address(None, None)),
];

#[test]
fn numbers_are_read(rt: HostRuntime) {
    assert!(rt; first_wrong(NUMBERS) == None);
}

#[test]
fn ports_and_numbers_up_to_a_most_are_read(rt: HostRuntime) {
    assert!(rt; first_wrong(PORTS) == None);
}

#[test]
fn addresses_are_read(rt: HostRuntime) {
    assert!(rt; first_wrong(ADDRESSES) == None);
}

/// Whether a place is written so.
fn is_place(alloc: Global, at: Addr, word: &[u8]) -> Result<bool, AllocError> {
    let mut text = Octets::new(alloc);
    put_place(&mut text, at)?;
    Ok(text.as_slice() == word)
}

#[test]
fn places_are_written(rt: HostRuntime) {
    let at = Addr {
        ip: 0x8768_091f,
        port: 17008,
    };
    assert!(rt; is_place(rt.alloc(), at, b"135.104.9.31!17008") == Ok(true));
}

/// Whether bytes are written so in hexadecimal.
fn is_hex(alloc: Global, bytes: &[u8], word: &[u8]) -> Result<bool, AllocError> {
    let mut text = Octets::new(alloc);
    put_hex_word(&mut text, bytes)?;
    Ok(text.as_slice() == word)
}

/// Whether these bytes are read of a word in hexadecimal, or none.
fn is_hex_of(alloc: Global, word: &[u8], bytes: Option<&[u8]>) -> Result<bool, AllocError> {
    let read = read_hex_word(alloc, word)?;
    match (&read, bytes) {
        (Some(read), Some(bytes)) => Ok(read.as_slice() == bytes),
        (None, None) => Ok(true),
        _ => Ok(false),
    }
}

const HEX_WORDS: &[(&[u8], Option<&[u8]>)] = &[
    (b"009f7a", Some(b"\x00\x9fz")),
    (b"9F", None),
    (b"9f7", None),
    (b"0g", None),
    (b"--", None),
    (b"", None),
    (b"-", Some(b"")),
];

/// The first word that isn't read so.
fn first_wrong_hex(alloc: Global) -> Result<Option<usize>, AllocError> {
    for (i, row) in HEX_WORDS.iter().enumerate() {
        if !is_hex_of(alloc, row.0, row.1)? {
            return Ok(Some(i));
        }
    }
    Ok(None)
}

#[test]
fn hexadecimal_is_written_and_read(rt: HostRuntime) {
    assert!(rt; is_hex(rt.alloc(), b"\x00\x9fz", b"009f7a") == Ok(true));
    assert!(rt; first_wrong_hex(rt.alloc()) == Ok(None));
}
