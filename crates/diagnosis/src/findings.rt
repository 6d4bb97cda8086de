//! Questions that have no answer in their input.

use crate::asked::{Input, command_word};
use crate::kept::Kept;
use crate::lines::{first_spoken, quotable};
use std::fmt;
use words::split_first;

/// A reason for which a query has no answer.
#[derive(Clone, Copy, Debug)]
pub enum Finding<'a> {
    /// The input is empty.
    Empty,
    /// The input is a world.
    World,
    /// No tuple has this pair.
    NoTuple(&'a str, &'a str),
    /// No value of the third stands with the pair of the first two.
    NoValue(&'a str, &'a str, &'a str),
    /// No word can be quoted.
    NotFound,
    /// A DNS message without an answer.
    NoReply,
    /// No medium has this name.
    NoMedium(Option<&'a str>),
    /// The connection server refuses with this number; the part of the query at fault.
    Refused(u64, Option<&'a str>),
}

/// Why a command with these words has no answer, or is refused with a number.
pub fn finding_of<'a>(
    input: Input,
    words: &'a [String],
    kept: Kept<'a>,
    number: Option<u64>,
) -> Finding<'a> {
    if input == Input::History {
        return Finding::NoMedium(quotable(command_word(words, 1)));
    }
    if let Some(finding) = other_input(kept) {
        return finding;
    }
    if let Some(number) = number {
        return Finding::Refused(number, part_of(command_word(words, 2), number));
    }
    if command_word(words, 0) == b"dns".as_slice() {
        return Finding::NoReply;
    }
    nothing_found(words)
}

// An input that is no database.
fn other_input<'a>(kept: Kept<'_>) -> Option<Finding<'a>> {
    match first_spoken(kept.text) {
        None => Some(Finding::Empty),
        Some(b"networld 1" | b"networld 2") => Some(Finding::World),
        Some(_) => None,
    }
}

fn nothing_found(words: &[String]) -> Finding<'_> {
    match (
        quotable(command_word(words, 1)),
        quotable(command_word(words, 2)),
        quotable(command_word(words, 3)),
    ) {
        (Some(attr), Some(value), Some(other)) => Finding::NoValue(attr, value, other),
        (Some(attr), Some(value), None) => Finding::NoTuple(attr, value),
        _ => Finding::NotFound,
    }
}

// The part of a query that a refusal is about: the net, the host or the service.
fn part_of(query: &[u8], number: u64) -> Option<&str> {
    let (net, rest) = split_first(query, b'!');
    match number {
        1 => quotable(query),
        2 => quotable(net),
        3 | 5 => quotable(split_first(rest?, b'!').0),
        _ => quotable(split_first(rest?, b'!').1?),
    }
}

impl fmt::Display for Finding<'_> {
    fn fmt<W: fmt::Write>(&self, f: &mut fmt::Formatter<W>) -> fmt::Result {
        match self {
            Finding::Empty => write!(
                f,
                "no answer: the input is empty, or all comments; give a database by < FILE"
            ),
            Finding::World => write!(
                f,
                "no answer: the input is a world; give a network database, such as what follows its line ndb"
            ),
            Finding::NoTuple(attr, value) => write!(
                f,
                "no answer: no tuple of the database has {attr}={value}"
            ),
            Finding::NoValue(attr, value, other) => write!(
                f,
                "no answer: the database has no {other} for {attr}={value}"
            ),
            Finding::NotFound => write!(f, "no answer: nothing in the database has these words"),
            Finding::NoReply => write!(
                f,
                "no answer: the message has less than 12 bytes, or is a response itself"
            ),
            Finding::NoMedium(Some(name)) => write!(
                f,
                "no answer: the world has no medium \"{name}\"; its lines medium name the media"
            ),
            Finding::NoMedium(None) => write!(f, "no answer: the world has no medium of this name"),
            Finding::Refused(number, part) => Refusal(*number, *part).fmt(f),
        }
    }
}

/// The refusal of a query with a number, for this part of the query.
#[derive(Drop)]
struct Refusal<'a>(u64, Option<&'a str>);

impl fmt::Display for Refusal<'_> {
    fn fmt<W: fmt::Write>(&self, f: &mut fmt::Formatter<W>) -> fmt::Result {
        match (self.0, self.1) {
            (1, Some(query)) => write!(
                f,
                "cs: bad query (1): \"{query}\" is not NET!HOST!SERVICE, as net!helix!9fs"
            ),
            (1, None) => write!(
                f,
                "cs: bad query (1): the form is NET!HOST!SERVICE, as net!helix!9fs"
            ),
            (2, Some(net)) => write!(f, "cs: no net (2): \"{net}\" is not net, il or udp"),
            (3, Some(host)) => write!(
                f,
                "cs: no host (3): the database has no address for \"{host}\"; add a line sys={host} ip=ADDRESS"
            ),
            (4, Some(service)) => write!(
                f,
                "cs: no service (4): the database has no port for \"{service}\"; add a line il={service} port=N, or udp={service} port=N"
            ),
            (5, Some(value)) => write!(
                f,
                "cs: no value (5): the database has no value of \"{value}\" for this system"
            ),
            (2, None) => write!(f, "cs: no net (2): a query begins with net, il or udp"),
            (3, None) => write!(
                f,
                "cs: no host (3): the database has no address for the host"
            ),
            (4, None) => write!(
                f,
                "cs: no service (4): the database has no port for the service"
            ),
            _ => write!(
                f,
                "cs: no value (5): the database has no value of the attribute"
            ),
        }
    }
}

/// A note: no line of the database has this system, for which cs was asked.
#[derive(Clone, Copy, Debug)]
pub struct UnknownSystem<'a> {
    pub name: &'a str,
}

impl fmt::Display for UnknownSystem<'_> {
    fn fmt<W: fmt::Write>(&self, f: &mut fmt::Formatter<W>) -> fmt::Result {
        let name = self.name;
        write!(
            f,
            "note: no line of the database has sys={name}, so cs knows no network and no attribute of {name}"
        )
    }
}

/// The system for which `cs` was asked, if the whole input is known, is not empty and has no pair `sys` of it.
pub fn unknown_system<'a>(words: &'a [String], kept: Kept<'_>) -> Option<UnknownSystem<'a>> {
    if command_word(words, 0) != b"cs".as_slice() || words.len() != 3 || !kept.whole {
        return None;
    }
    first_spoken(kept.text)?;
    let name = quotable(command_word(words, 1))?;
    if has_system(kept.text, name.as_bytes()) {
        None
    } else {
        Some(UnknownSystem { name })
    }
}

// Whether a word of a text is `sys=NAME`.
fn has_system(text: &[u8], name: &[u8]) -> bool {
    let mut rest = Some(text);
    for _ in 0..usize::MAX {
        let Some(part) = rest else {
            return false;
        };
        let (word, behind) = split_white(part);
        if is_system(word, name) {
            return true;
        }
        rest = behind;
    }
    false
}

fn split_white(text: &[u8]) -> (&[u8], Option<&[u8]>) {
    for (i, byte) in text.iter().enumerate() {
        if byte.is_ascii_whitespace() {
            return (&text[..i], Some(&text[i + 1..]));
        }
    }
    (text, None)
}

fn is_system(word: &[u8], name: &[u8]) -> bool {
    match word {
        [b's', b'y', b's', b'=', b'"', quoted @ .., b'"'] => quoted == name,
        [b's', b'y', b's', b'=', value @ ..] => value == name,
        _ => false,
    }
}
