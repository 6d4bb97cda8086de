//! Events of scripts that are refused, and packets that are lost, at the beginning of a history.

use crate::lines::{rest_at, shown, word_at};
use net_base::Octets;
use std::alloc::Global;
use std::fmt;
use words::split_first;

/// The most bytes of a history that are looked at: to look at more would take too much of the time of a run.
const MOST_BYTES: usize = 16384;

/// The most bytes of an entry that are kept.
const MOST_KEPT: usize = 160;

/// Entries of one kind: how many there are, and the first one, if there was memory for it.
#[derive(Drop)]
struct Entries {
    count: u64,
    first: Octets,
}

/// The failed events and the lost packets that were found at the beginning of a history.
#[derive(Drop)]
pub struct Refusals {
    refused: Entries,
    lost: Entries,
    seen: usize,
}

impl Entries {
    fn new(alloc: Global) -> Entries {
        Entries {
            count: 0,
            first: Octets::new(alloc),
        }
    }

    fn note(&mut self, line: &[u8]) {
        if self.count == 0 && line.len() <= MOST_KEPT {
            let _ = self.first.append(line);
        }
        self.count = self.count.saturating_add(1);
    }
}

impl Refusals {
    /// Nothing was found yet.
    pub fn new(alloc: Global) -> Refusals {
        Refusals {
            refused: Entries::new(alloc),
            lost: Entries::new(alloc),
            seen: 0,
        }
    }

    /// Looks at the next lines of a history.
    pub fn note(&mut self, text: &[u8]) {
        let room = MOST_BYTES.saturating_sub(self.seen);
        let mut rest = &text[..room.min(text.len())];
        self.seen = self.seen.saturating_add(text.len());
        for _ in 0..text.len() {
            let (line, Some(behind)) = split_first(rest, b'\n') else {
                return;
            };
            self.note_line(line);
            rest = behind;
        }
    }

    fn note_line(&mut self, line: &[u8]) {
        match kind_of(line) {
            Some(Kept::Refused) => self.refused.note(line),
            Some(Kept::Lost) => self.lost.note(line),
            None => {}
        }
    }

    /// The events of scripts that were refused, if some were.
    pub fn refused(&self) -> Option<Found<'_>> {
        self.found(&self.refused)
    }

    /// The packets that were lost, if some were.
    pub fn lost(&self) -> Option<Found<'_>> {
        self.found(&self.lost)
    }

    fn found<'a>(&self, entries: &'a Entries) -> Option<Found<'a>> {
        if entries.count == 0 {
            return None;
        }
        Some(Found {
            count: entries.count,
            all: self.seen <= MOST_BYTES,
            first: entries.first.as_slice(),
        })
    }
}

/// Entries of a kind that were found: how many, whether these are all, and the first one.
#[derive(Clone, Copy, Debug)]
pub struct Found<'a> {
    count: u64,
    all: bool,
    first: &'a [u8],
}

/// The kinds of entries that are told of.
enum Kept {
    Refused,
    Lost,
}

// The kind of an entry, if it is told of: an event of a script's own that is refused, or a packet that no station takes.
fn kind_of(line: &[u8]) -> Option<Kept> {
    let (actor, rest) = split_first(rest_at(line, 3)?, b' ');
    if actor.starts_with(b"medium.") {
        return if is_loss(line) {
            Some(Kept::Lost)
        } else {
            None
        };
    }
    let (cited, event) = split_first(rest?, b' ');
    if cited != b"-".as_slice() {
        return None;
    }
    meaning_of(reply_of(event?)?)?;
    Some(Kept::Refused)
}

// What stands behind the `=` of an entry, of which this is the end.
fn reply_of(entry: &[u8]) -> Option<&[u8]> {
    let mut rest = entry;
    for _ in 0..entry.len() {
        let (word, behind) = split_first(rest, b' ');
        rest = behind?;
        if word == b"=".as_slice() {
            return Some(rest);
        }
    }
    None
}

fn is_loss(line: &[u8]) -> bool {
    line.ends_with(b" nostation") || line.ends_with(b" toobig")
}

// What a reply says that refuses, and none for one that doesn't.
fn meaning_of(reply: &[u8]) -> Option<&'static str> {
    match word_at(reply, 0)? {
        b"hungup" => Some(ending_of(reply)),
        b"csrefused" => Some(refusal_of(reply)),
        b"badctl" => Some("not a control word, or a wrong argument of one"),
        b"badfid" => Some("the name is not bound to such a file, or it is bound already"),
        b"badmode" => Some("the file is not open for that"),
        b"nofile" => Some("there is no such file"),
        b"noport" => Some("no port is left"),
        b"noroute" => Some("no if and no route of this host leads to the address"),
        b"noslot" => Some("all 32 conversations are taken"),
        b"notopen" => Some("no file of the conversation is open"),
        b"pairused" => Some("these addresses and ports were used before"),
        b"selfpair" => Some("a call to itself"),
        b"stale" => Some("the conversation is another one now"),
        b"taken" => Some("another conversation has the port"),
        b"toolong" => Some("the message is longer than a packet may be"),
        b"wrong" => Some("the conversation is in another state"),
        b"zerowrite" => Some("a message of no bytes"),
        _ => None,
    }
}

fn ending_of(reply: &[u8]) -> &'static str {
    match word_at(reply, 1) {
        Some(b"1") => "connection refused: nothing listens at the address and port",
        Some(b"2") => "timed out: nothing was heard for 30 s",
        Some(b"3") => "this end hung up",
        _ => "the other end hung up",
    }
}

fn refusal_of(reply: &[u8]) -> &'static str {
    match word_at(reply, 1) {
        Some(b"1") => "bad query: it is not NET!HOST!SERVICE",
        Some(b"2") => "no net: the host has no such protocol",
        Some(b"3") => "no host: the database has no address for it",
        Some(b"4") => "no service: the database has no port for it",
        _ => "no value: the database has no value of the attribute",
    }
}

/// A note on events of scripts that were refused.
#[derive(Clone, Copy, Debug)]
pub struct RefusedNote<'a>(pub Found<'a>);

impl fmt::Display for RefusedNote<'_> {
    fn fmt<W: fmt::Write>(&self, f: &mut fmt::Formatter<W>) -> fmt::Result {
        write!(f, "{} refused", Events(self.0))?;
        put_first(self.0, f)?;
        if let Some(meaning) = reply_of(self.0.first).and_then(meaning_of) {
            write!(f, " ({meaning})")?;
        }
        write!(f, "; netview steps shows each step")
    }
}

/// A note on packets that were lost.
#[derive(Clone, Copy, Debug)]
pub struct LostNote<'a>(pub Found<'a>);

impl fmt::Display for LostNote<'_> {
    fn fmt<W: fmt::Write>(&self, f: &mut fmt::Formatter<W>) -> fmt::Result {
        write!(f, "{} lost", Packets(self.0))?;
        put_first(self.0, f)?;
        match self.0.first.ends_with(b" toobig") {
            true => write!(f, " (it is longer than the mtu of the medium)"),
            false => write!(f, " (no host on the medium has the next address)"),
        }
    }
}

fn put_first<W: fmt::Write>(found: Found<'_>, f: &mut fmt::Formatter<W>) -> fmt::Result {
    match shown(found.first) {
        Some(entry) => write!(f, "; the first is \"{entry}\""),
        None => Ok(()),
    }
}

/// How many events there are, and a verb.
#[derive(Drop)]
struct Events<'a>(Found<'a>);

impl fmt::Display for Events<'_> {
    fn fmt<W: fmt::Write>(&self, f: &mut fmt::Formatter<W>) -> fmt::Result {
        match (self.0.all, self.0.count) {
            (true, 1) => write!(f, "1 event of the scripts was"),
            (true, count) => write!(f, "{count} events of the scripts were"),
            (false, count) => write!(f, "at least {count} events of the scripts were"),
        }
    }
}

/// How many packets there are, and a verb.
#[derive(Drop)]
struct Packets<'a>(Found<'a>);

impl fmt::Display for Packets<'_> {
    fn fmt<W: fmt::Write>(&self, f: &mut fmt::Formatter<W>) -> fmt::Result {
        match (self.0.all, self.0.count) {
            (true, 1) => write!(f, "1 packet was"),
            (true, count) => write!(f, "{count} packets were"),
            (false, count) => write!(f, "at least {count} packets were"),
        }
    }
}
