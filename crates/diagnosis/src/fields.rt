//! The kinds of arguments of a line of a world.

use crate::lines::quotable;
use std::fmt;
use words::{address_in, number_in, single, split_first};

/// A kind of argument.
#[derive(Clone, Copy, Debug, PartialEq, Eq)]
pub enum Kind {
    /// A number from the first to the second.
    Number(u64, u64),
    /// The name of a medium, a host or a file of a script.
    Name,
    /// The protocols of a host, up to the end of the line.
    Nets,
    /// An address.
    Address,
    /// A mask that is written as an address.
    Mask,
    /// What becomes of a packet.
    Fate,
    /// The number of a packet, or those of a first and a last one.
    Frames,
    /// Bytes in hexadecimal.
    Hex,
    /// How a file is opened.
    Mode,
    /// The same, or nothing.
    PerhapsMode,
    /// Any word.
    Word,
    /// A path at another host.
    RemotePath,
    /// The rest of the line.
    Text,
    /// The rest of the line, 1 to 488 bytes.
    ShortText,
}

/// Whether an argument takes the rest of its line.
pub fn takes_rest(kind: Kind) -> bool {
    matches!(kind, Kind::Nets | Kind::Text | Kind::ShortText)
}

/// Whether a word can be an argument of this kind.
pub fn accepts(kind: Kind, word: &[u8]) -> bool {
    match kind {
        Kind::Number(least, most) => number_in(least, most, word).is_some(),
        Kind::Name => is_name(word),
        Kind::Nets => matches!(word, b"il" | b"udp" | b"il udp" | b"udp il"),
        Kind::Address | Kind::Mask => address_in(word).is_some(),
        Kind::Fate => matches!(word, b"deliver" | b"lose" | b"twice" | b"later"),
        Kind::Frames => are_frames(word),
        Kind::Hex => are_digits(word),
        Kind::Mode | Kind::PerhapsMode => matches!(word, b"r" | b"w" | b"rw"),
        Kind::Word => !word.is_empty(),
        Kind::RemotePath => is_remote_path(word),
        Kind::Text => true,
        Kind::ShortText => !word.is_empty() && word.len() <= 488,
    }
}

// At most 27 letters, digits and `-`, a letter first.
fn is_name(word: &[u8]) -> bool {
    match word {
        [first, rest @ ..] => {
            first.is_ascii_lowercase() && rest.len() <= 26 && rest.iter().all(is_name_byte)
        }
        [] => false,
    }
}

fn is_name_byte(byte: &u8) -> bool {
    byte.is_ascii_lowercase() || byte.is_ascii_digit() || *byte == b'-'
}

// A number, or two with `-` between them, the second not below the first.
fn are_frames(word: &[u8]) -> bool {
    match split_first(word, b'-') {
        (first, None) => frame_in(first).is_some(),
        (first, Some(last)) => match (frame_in(first), frame_in(last)) {
            (Some(first), Some(last)) => first <= last,
            _ => false,
        },
    }
}

fn frame_in(word: &[u8]) -> Option<u64> {
    number_in(1, u64::MAX, word)
}

// Pairs of digits in lower case, or `-`.
fn are_digits(word: &[u8]) -> bool {
    word == b"-".as_slice()
        || !word.is_empty() && word.len().is_multiple_of(2) && word.iter().all(is_digit)
}

fn is_digit(byte: &u8) -> bool {
    matches!(*byte, b'0'..=b'9' | b'a'..=b'f')
}

// `/net` alone, or with names behind it, none of them empty.
fn is_remote_path(word: &[u8]) -> bool {
    let (root, rest) = split_first(word, b'/');
    match (root, rest) {
        (b"", Some(path)) => is_under_net(path),
        _ => false,
    }
}

fn is_under_net(path: &[u8]) -> bool {
    let (net, mut rest) = split_first(path, b'/');
    if net != b"net".as_slice() {
        return false;
    }
    for _ in 0..17 {
        let Some(names) = rest else {
            return true;
        };
        let (name, behind) = split_first(names, b'/');
        if name.is_empty() || 27 < name.len() {
            return false;
        }
        rest = behind;
    }
    false
}

impl fmt::Display for Kind {
    fn fmt<W: fmt::Write>(&self, f: &mut fmt::Formatter<W>) -> fmt::Result {
        match self {
            Kind::Number(least, most) => {
                write!(f, "a number from {least} to {most} without zeros in front")
            }
            Kind::Name => write!(
                f,
                "1 to 27 lower-case letters, digits and -, a letter first"
            ),
            Kind::Nets => write!(f, "il, udp, il udp or udp il"),
            Kind::Address => write!(f, "an address, as 10.0.0.1"),
            Kind::Mask => write!(f, "a mask with dots, as 255.255.255.0 (not /24)"),
            Kind::Fate => write!(f, "deliver, lose, twice or later"),
            Kind::Frames => write!(f, "a packet number from 1, or two as 3-5"),
            Kind::Hex => write!(
                f,
                "two lower-case hexadecimal digits for each byte, or - for none"
            ),
            Kind::Mode | Kind::PerhapsMode => write!(f, "r, w or rw"),
            Kind::Word => write!(f, "one word"),
            Kind::RemotePath => write!(f, "/net and at most 16 names, as /net/udp/clone"),
            Kind::Text => write!(f, "the rest of the line, after one blank"),
            Kind::ShortText => write!(f, "the rest of the line, 1 to 488 bytes"),
        }
    }
}
