//! What is wrong with a line of a world, and what to do.

use crate::asked::Input;
use crate::causes::Cause;
use crate::forms::{ArgumentFault, argument_fault, ends_with_text, form_of};
use crate::hints::Hint;
use crate::kept::Kept;
use crate::lines::{first_spoken, first_word, has_pair, line_at, quotable, word_at};
use crate::unknown_words::{part_at, words_of};
use words::{read_address, read_mask, split_first};

/// The word at fault, if one is and it can be quoted, and what to do.
pub type Advice<'a> = (Option<&'a str>, Hint<'a>);

/// A bad line of a world.
#[derive(Clone, Copy)]
pub struct WorldLine<'a> {
    pub input: Input,
    pub kept: Kept<'a>,
    pub number: u64,
    pub line: &'a [u8],
}

/// What to do about a line of a world that is bad for this cause.
pub fn world_advice(bad: WorldLine<'_>, cause: Cause) -> Advice<'_> {
    match cause {
        Cause::FirstLine => (None, first_hint(bad)),
        Cause::UnknownWord => unknown_word(bad),
        Cause::Argument => argument(bad.line),
        Cause::TakenName => (quoted(bad.line, 1), taken_name(first_word(bad.line))),
        Cause::UnknownName => unknown_name(bad.line),
        Cause::TakenAddress => (
            quoted(bad.line, 2),
            Hint::Do("give each interface its own address"),
        ),
        Cause::TooMany => (None, too_many(first_word(bad.line))),
        Cause::Order => (quotable(first_word(bad.line)), order(first_word(bad.line))),
        Cause::MissingPart => (None, missing_part(bad)),
        Cause::Mask => mask(bad.line),
        Cause::TakenNetwork => taken_network(bad.line),
        Cause::Gateway => (quoted(bad.line, 3), gateway(bad)),
        Cause::Fates => fates(bad.line),
        Cause::Moment => (
            quoted(bad.line, 1),
            Hint::Do("make each %at later than the %at above it"),
        ),
        _ => (
            None,
            Hint::Do("the feed lines of a session, joined, must be whole messages"),
        ),
    }
}

// The word of a line at a place, if it can be quoted.
fn quoted(line: &[u8], place: usize) -> Option<&str> {
    quotable(word_at(line, place)?)
}

// What stands instead of the first line of a world.
fn first_hint(bad: WorldLine<'_>) -> Hint<'_> {
    let Some(line) = first_spoken(bad.kept.text) else {
        return Hint::Do("the input is empty, or all comments: give a world file by < FILE");
    };
    if line == b"%history".as_slice() {
        return Hint::Do("put the world before the line %history");
    }
    if line.ends_with(b"\r") {
        return Hint::Do(CARRIAGE_RETURN);
    }
    if begins_with_digit(line) && has_pair(line, b' ', b'=') {
        return Hint::Do(
            "this is a history: netsh check and netview read the world first, then a line %history",
        );
    }
    if line.contains(&b'=') {
        return Hint::Do("this is a network database: netsh cs, query and dns read it");
    }
    Hint::Do("write networld 1 (or networld 2) as the first line")
}

fn begins_with_digit(line: &[u8]) -> bool {
    match line {
        [first, ..] => first.is_ascii_digit(),
        [] => false,
    }
}

const CARRIAGE_RETURN: &str =
    "the line ends with a carriage return: remove it, as by tr -d '\\r' < FILE";

// White space that may not stand in a line.
fn white_space(line: &[u8]) -> Option<Hint<'static>> {
    if line.ends_with(b"\r") {
        return Some(Hint::Do(CARRIAGE_RETURN));
    }
    if line.starts_with(b" ") || line.starts_with(b"\t") {
        return Some(Hint::Do("the line begins with white space: remove it"));
    }
    if ends_with_text(line) {
        return None;
    }
    if line.ends_with(b" ") || line.ends_with(b"\t") {
        return Some(Hint::Do("the line ends with white space: remove it"));
    }
    if line.contains(&b'\t') {
        return Some(Hint::Do("the line has a tab: write one blank between words"));
    }
    if has_pair(line, b' ', b' ') {
        return Some(Hint::Do("the line has two blanks together: write one"));
    }
    None
}

fn unknown_word(bad: WorldLine<'_>) -> Advice<'_> {
    let word = first_word(bad.line);
    if let Some(hint) = white_space(bad.line) {
        return (quotable(word), hint);
    }
    (quotable(word), unknown_hint(bad, word))
}

fn unknown_hint<'a>(bad: WorldLine<'a>, word: &[u8]) -> Hint<'a> {
    match word {
        b"session" | b"feed" if bad.input != Input::Sessions => {
            Hint::Do("sessions are for netsh export; netsh translate makes scripts of them")
        }
        b"%history" => Hint::Do("a history is for netsh check and netview, after the whole world"),
        _ => unknown_of(bad, word),
    }
}

fn unknown_of<'a>(bad: WorldLine<'a>, word: &[u8]) -> Hint<'a> {
    if word.contains(&b'=') {
        return Hint::Do("write a line ndb before the database");
    }
    Hint::May(words_of(part_at(bad.kept.text, bad.number), bad.input))
}

fn argument(line: &[u8]) -> Advice<'_> {
    if let Some(hint) = white_space(line) {
        return (None, hint);
    }
    let Some(form) = form_of(first_word(line)) else {
        return (None, Hint::Do("docs/WORLDS.md has the form of each line"));
    };
    match argument_fault(form, line) {
        Some(ArgumentFault::Wrong { field, word }) => (
            quotable(word),
            Hint::Argument {
                name: field.0,
                kind: field.1,
                form: form.text,
            },
        ),
        Some(ArgumentFault::Missing { field }) => (
            None,
            Hint::Missing {
                name: field.0,
                kind: field.1,
                form: form.text,
            },
        ),
        Some(ArgumentFault::Extra { word }) => (quotable(word), Hint::Extra(form.text)),
        None => (None, Hint::Form(form.text)),
    }
}

fn taken_name(word: &[u8]) -> Hint<'static> {
    match word {
        b"medium" => Hint::Do("give each medium its own name"),
        b"host" => Hint::Do("give each host its own name"),
        _ => Hint::Do("this host has an if on this medium: a host has at most one on each"),
    }
}

fn unknown_name(line: &[u8]) -> Advice<'_> {
    let name = quoted(line, 1);
    match (first_word(line), name) {
        (b"script" | b"session", Some(host)) => (name, Hint::Host(host)),
        (_, Some(medium)) => (name, Hint::Medium(medium)),
        (_, None) => (None, Hint::Do("write its line medium or host first")),
    }
}

fn too_many(word: &[u8]) -> Hint<'static> {
    match word {
        b"medium" => Hint::Do("a world has at most 4 media"),
        b"host" => Hint::Do("a world has at most 8 hosts"),
        _ => Hint::Do("a world has at most 32 scripts and sessions"),
    }
}

fn order(word: &[u8]) -> Hint<'static> {
    match word {
        b"networld" => Hint::Do("networld stands one time, as the first line"),
        b"end" => Hint::Do("end stands one time, right after networld"),
        b"seed" => Hint::Do("seed stands one time, right after end"),
        b"medium" => Hint::Do("a medium stands after seed, before the first host"),
        b"rates" => Hint::Do(
            "rates stand one time for each medium, after it, before the first host",
        ),
        b"fate" => Hint::Do("a fate stands after its medium, before the first host"),
        b"host" => Hint::Do("a host stands after the media, before the first script"),
        b"if" | b"route" | b"start" => {
            Hint::Do(
                "it stands under its host, before the first script: write a line host above it",
            )
        }
        b"script" | b"session" => Hint::Do("a script stands after all hosts, before ndb"),
        b"feed" => Hint::Do("a feed stands under a session: write a line session HOST above it"),
        b"ndb" => Hint::Do("ndb stands after the scripts"),
        _ => Hint::Do("a step stands under a script: write a line script HOST above it"),
    }
}

// The first part that the lines above have not.
fn missing_part(bad: WorldLine<'_>) -> Hint<'_> {
    for (word, form) in PARTS {
        if !has_part(bad, word.as_bytes()) {
            return Hint::Line(form);
        }
    }
    if bad.input == Input::History {
        return Hint::Do("write a line %history after the world, and then the history");
    }
    Hint::Do("the order is networld, end, seed, media, hosts, scripts, ndb")
}

const PARTS: &[(&str, &str)] = &[
    ("end", "end M (as end 60000)"),
    ("seed", "seed N (as seed 7)"),
    ("medium", "medium NAME MTU (as medium ether0 1500)"),
    ("host", "host NAME NETS (as host anna il udp)"),
    ("ndb", "ndb (the database follows it)"),
];

// Whether a line above this one begins with a word.
fn has_part(bad: WorldLine<'_>, word: &[u8]) -> bool {
    let mut rest = Some(bad.kept.text);
    for _ in 1..bad.number {
        let Some(lines) = rest else {
            return false;
        };
        let (line, behind) = split_first(lines, b'\n');
        if first_word(line) == word {
            return true;
        }
        rest = behind;
    }
    false
}

fn mask(line: &[u8]) -> Advice<'_> {
    let place = match first_word(line) {
        b"route" => 2,
        _ => 3,
    };
    match mask_at(line, place) {
        Some(_) => (
            quoted(line, 1),
            Hint::Do("the network has bits outside its mask: write them as 0"),
        ),
        None => (
            quoted(line, place),
            Hint::Do("the 1 bits of a mask come first, as in 255.255.255.0"),
        ),
    }
}

fn taken_network(line: &[u8]) -> Advice<'_> {
    let hint = Hint::Do("keep one if or route of this host for each network");
    match first_word(line) {
        b"route" => (quoted(line, 1), hint),
        _ => (quoted(line, 2), hint),
    }
}

// Whether the gateway's interface stands below.
fn gateway(bad: WorldLine<'_>) -> Hint<'_> {
    let Some(gateway) = address_at(bad.line, 3) else {
        return Hint::Do("name a gateway on the network of an if line of this host");
    };
    for number in bad.number..u64::MAX {
        let Some(line) = line_at(bad.kept, number.saturating_add(1)) else {
            break;
        };
        match first_word(line) {
            b"if" if is_near(gateway, line) => {
                return Hint::Do("its if line stands below: move it above this route");
            }
            b"host" | b"script" | b"session" | b"ndb" => break,
            _ => {}
        }
    }
    Hint::Do("name a gateway on the network of an if line of this host, or add that if line above")
}

// Whether an interface has an address on its network.
fn is_near(address: u32, line: &[u8]) -> bool {
    match (address_at(line, 2), mask_at(line, 3)) {
        (Some(own), Some(mask)) => own & mask == address & mask,
        _ => false,
    }
}

fn address_at(line: &[u8], place: usize) -> Option<u32> {
    read_address(word_at(line, place)?)
}

fn mask_at(line: &[u8], place: usize) -> Option<u32> {
    let word = word_at(line, place)?;
    read_mask(word)?;
    read_address(word)
}

fn fates(line: &[u8]) -> Advice<'_> {
    match first_word(line) {
        b"rates" => (
            None,
            Hint::Do("rates are per thousand: their sum is at most 1000"),
        ),
        _ => (
            quoted(line, 2),
            Hint::Do(
                "another fate of this medium has one of these packets: give each packet one fate",
            ),
        ),
    }
}
