//! Worked lines, and those that are refused.
use net_base::{Fate, Proto, Step};
use std::alloc::Global;
use std::process::Abort;
use world_text::{Frames, HostLine, MediumLine, WorldLine};
use world_words::{LineFault, is_name, read_line};

const NAMES: &[(&[u8], bool)] = &[
    (b"a", true),
    (b"ether0", true),
    (b"a-z", true),
    (b"abcdefghijklmnopqrstuvwxyz0", true),
    (b"abcdefghijklmnopqrstuvwxyz01", false),
    (b"", false),
    (b"0a", false),
    (b"-a", false),
    (b"aB", false),
    (b"a_b", false),
];

#[test]
fn names_are_told(rt: HostRuntime) {
    for (i, (word, want)) in NAMES.iter().enumerate() {
        let told = is_name(word) == *want;
        assert!(rt; told, "row {i}");
    }
}

fn cause_in(read: &Result<WorldLine, LineFault>) -> u32 {
    match read {
        Ok(_) => 0,
        Err(LineFault::Cause(cause)) => cause.number(),
        Err(LineFault::Memory) => 1,
    }
}

/// The cause of a line, 0 where it is read.
fn cause_of(alloc: Global, line: &[u8]) -> u32 {
    let read = read_line(alloc, line);
    let cause = cause_in(&read);
    drop(read);
    cause
}

/// The first of these lines that has another cause.
fn first_other(alloc: Global, lines: &[&[u8]], cause: u32) -> Option<usize> {
    for (i, line) in lines.iter().enumerate() {
        if cause_of(alloc, line) != cause {
            return Some(i);
        }
    }
    None
}

/// All of these lines have this cause.
fn all_have(rt: &impl Abort, alloc: Global, lines: &[&[u8]], cause: u32) {
    assert_eq!(rt; first_other(alloc, lines, cause), None);
}

const LINES: &[&[u8]] = &[
    b"networld 1",
    b"networld 2",
    b"end 1000000000",
    b"seed 18446744073709551615",
    b"medium ether0 16384",
    b"rates ether0 1001 0 4294967295",
    b"fate ether0 1 deliver",
    b"fate ether0 4-4 lose",
    b"fate ether0 2-18446744073709551615 later",
    b"host anna il",
    b"host anna udp il",
    b"if ether0 10.0.0.255 255.0.255.0",
    b"route 0.0.0.0 0.0.0.0 10.0.0.1",
    b"start 4294967295",
    b"script anna",
    b"ndb",
];

#[test]
fn lines_are_read(rt: HostRuntime) {
    all_have(&rt, rt.alloc(), LINES, 0);
}

const STEPS: &[&[u8]] = &[
    b"open c /net/udp/clone",
    b"open c /net/cs rw",
    b"read c 65536",
    b"write c ",
    b"write c two  words",
    b"writex c -",
    b"writex c 00ff0a",
    b"close c",
    b"ls /net",
    b"cs ",
    b"until 1000000000",
    b"refresh",
    b"dial c il!anna!9fs",
    b"announce a udp!*!7",
    b"listen l a",
    b"accept c l",
    b"reject l",
    b"hangup c",
    b"hread a 65536",
    b"hwrite a 00000000000000000000ffff8768090600000000000000000000ffff8768091f00000000000000000000ffff8768091f13880035",
    b"hwrite a 00000000000000000000ffff8768090600000000000000000000ffff8768091f00000000000000000000ffff8768091f1388003500ff",
    b"dns a 1000",
    b"export e",
    b"import d",
    b"ropen f d /net rw",
    b"ropen f d /net/udp/0/data r",
    b"ropen f d /net/abcdefghijklmnopqrstuvwxyz0/./.. w",
    b"rread f 1",
    b"rread f 488",
    b"rwrite f two  words ",
    b"rclose f",
];

#[test]
fn steps_are_read(rt: HostRuntime) {
    all_have(&rt, rt.alloc(), STEPS, 0);
}

const UNKNOWN: &[&[u8]] = &[b" end 1", b"opens c /net", b"ENDS", b"", b"ndbs"];

#[test]
fn unknown_words_are_told(rt: HostRuntime) {
    all_have(&rt, rt.alloc(), UNKNOWN, 12);
}

const WRONG_LINES: &[&[u8]] = &[
    b"networld 3",
    b"networld",
    b"networld 1 2",
    b"refresh x",
    b"refresh ",
    b"end 0",
    b"end 01",
    b"seed 18446744073709551616",
    b"medium ether0 575",
    b"medium ether0 1500 ",
    b"rates ether0 1 2",
    b"rates ether0 1 2 4294967296",
    b"fate ether0 0 lose",
    b"fate ether0 2-1 lose",
    b"fate ether0 1-2-3 lose",
    b"fate ether0 1 never",
    b"host anna",
    b"host anna il il",
    b"host anna il udp il",
    b"if ether0 1.2.3 255.0.0.0",
    b"route 1.2.3.4 255.0.0.0",
    b"start 0",
    b"script",
    b"ndb ",
];

#[test]
fn wrong_lines_are_told(rt: HostRuntime) {
    all_have(&rt, rt.alloc(), WRONG_LINES, 13);
}

const WRONG_STEPS: &[&[u8]] = &[
    b"open c",
    b"open c ",
    b"open c /net/cs x",
    b"open c /net/cs r w",
    b"read c 0",
    b"read c 65537",
    b"write c",
    b"write C hi",
    b"writex c 0",
    b"writex c 0A",
    b"writex c ",
    b"close",
    b"close c d",
    b"ls ",
    b"cs",
    b"until 0",
    b"dial c",
    b"announce a b c",
    b"listen l A",
    b"hangup C",
    b"hread a",
    b"hread a 0",
    b"hread a 65537",
    b"hwrite a -",
    b"hwrite a 00000000000000000000ffff8768090600000000000000000000ffff8768091f00000000000000000000ffff8768091f138800",
    b"hwrite a 01000000000000000000ffff8768090600000000000000000000ffff8768091f00000000000000000000ffff8768091f13880035",
    b"dns a",
    b"dns a 0",
    b"dns a 1001",
    b"export",
    b"import d e",
    b"ropen f d /net",
    b"ropen f d /net/ r",
    b"ropen f d /net//udp r",
    b"ropen f d /nett r",
    b"ropen f d net/udp r",
    b"ropen f d /net/abcdefghijklmnopqrstuvwxyz01 r",
    b"ropen f d /net/1/2/3/4/5/6/7/8/9/10/11/12/13/14/15/16/17 r",
    b"rread f 0",
    b"rread f 489",
    b"rwrite f",
    b"rwrite f ",
    b"rclose",
];

#[test]
fn wrong_steps_are_told(rt: HostRuntime) {
    all_have(&rt, rt.alloc(), WRONG_STEPS, 13);
}

/// What a line says, as far as rows ask.
#[derive(Clone, Copy, PartialEq, Eq)]
enum Said {
    Loses(Frames),
    /// A host with both networks, UDP first.
    HostOfBoth,
    /// An interface with this address.
    Iface(u32),
    /// A write of `two  words`.
    TwoWords,
    Other,
}

fn said_of_nets(nets: &[Proto]) -> Said {
    match nets {
        [Proto::Udp, Proto::Il] => Said::HostOfBoth,
        _ => Said::Other,
    }
}

fn said_of_text(text: &[u8]) -> Said {
    if text == b"two  words".as_slice() {
        Said::TwoWords
    } else {
        Said::Other
    }
}

fn said_of(line: &WorldLine) -> Said {
    match line {
        WorldLine::OfMedium(
            MediumLine::Fate {
                frames,
                fate: Fate::Lose,
                ..
            },
        ) => Said::Loses(*frames),
        WorldLine::Host { nets, .. } => said_of_nets(nets.as_slice()),
        WorldLine::OfHost(HostLine::If { ip, .. }) => Said::Iface(*ip),
        WorldLine::OfScript(Step::Write { text, .. }) => said_of_text(text.as_slice()),
        _ => Said::Other,
    }
}

fn said_in(read: &Result<WorldLine, LineFault>) -> Said {
    match read {
        Ok(line) => said_of(line),
        Err(_) => Said::Other,
    }
}

fn said_by(alloc: Global, line: &[u8]) -> Said {
    let read = read_line(alloc, line);
    let said = said_in(&read);
    drop(read);
    said
}

const SAID: &[(&[u8], Said)] = &[
    (b"fate a 4 lose", Said::Loses(Frames::One(4))),
    (b"fate a 4-4 lose", Said::Loses(Frames::Range(4, 4))),
    (b"host anna udp il", Said::HostOfBoth),
    (b"if ether0 10.0.0.1 255.0.0.0", Said::Iface(167_772_161)),
    (b"write c two  words", Said::TwoWords),
];

#[test]
fn lines_say_what_they_spell(rt: HostRuntime) {
    for (i, (line, want)) in SAID.iter().enumerate() {
        let said = said_by(rt.alloc(), line) == *want;
        assert!(rt; said, "row {i}");
    }
}
