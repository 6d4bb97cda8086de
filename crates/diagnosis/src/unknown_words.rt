//! The words that may stand in front of a line of a world.

use crate::asked::Input;
use crate::lines::first_word;
use words::split_first;

/// The part of a world that a line is in.
#[derive(Clone, Copy, Debug, PartialEq, Eq)]
pub enum Part {
    Head,
    Media,
    Hosts,
    Script,
    Session,
}

/// The part that a world is in before the line with this number.
pub fn part_at(text: &[u8], number: u64) -> Part {
    let mut part = Part::Head;
    let mut rest = Some(text);
    for _ in 1..number {
        let Some(lines) = rest else {
            return part;
        };
        let (line, behind) = split_first(lines, b'\n');
        part = part_after(part, first_word(line));
        rest = behind;
    }
    part
}

fn part_after(part: Part, word: &[u8]) -> Part {
    match word {
        b"medium" => Part::Media,
        b"host" => Part::Hosts,
        b"script" => Part::Script,
        b"session" => Part::Session,
        _ => part,
    }
}

/// The words that may stand in a part of a world.
pub fn words_of(part: Part, input: Input) -> &'static str {
    match (part, input) {
        (Part::Head, _) => "networld, end, seed, medium",
        (Part::Media, _) => "medium, rates, fate, host",
        (Part::Hosts, Input::Sessions) => "if, route, start, host, script, session, ndb",
        (Part::Hosts, _) => "if, route, start, host, script, ndb",
        (Part::Script, _) => {
            "open, read, write, writex, close, ls, cs, until, refresh, dial, announce, listen, accept, reject, hangup, hread, hwrite, dns, export, import, ropen, rread, rwrite, rclose, script, ndb"
        }
        (Part::Session, _) => "feed, session, script, ndb",
    }
}
