//! Words that are no command.

use crate::asked::{Program, command_word};
use crate::lines::quotable;
use std::fmt;

/// A fault of words that are no command.
#[derive(Clone, Copy, Debug)]
pub enum Usage<'a> {
    /// There is none.
    NoCommand(Program),
    /// The first word is no command.
    Unknown(Program, Option<&'a str>),
    /// The first word is a command of the other program.
    Elsewhere(Program, &'static str),
    /// The words are not those of this form.
    Wrong {
        program: Program,
        form: &'static str,
        /// There is a word too many, and the command reads an input.
        named: bool,
    },
}

/// The form of a command, the most words that it has, and whether it reads an input.
type Form = (&'static str, &'static str, usize, bool);

const NETSH: &[Form] = &[
    ("cs", "cs SYS QUERY < DATABASE", 3, true),
    (
        "query",
        "query ATTR VALUE < DATABASE, or query ATTR VALUE RATTR < DATABASE",
        4,
        true,
    ),
    (
        "dns",
        "dns HEX < DATABASE, HEX is 1 to 1024 bytes in lower-case hexadecimal",
        2,
        true,
    ),
    ("run", "run WORKERS < WORLD, WORKERS is 1 to 16", 2, true),
    ("make", "make N, N is 1 to 9000", 2, false),
    ("big", "big N, N is 1 to 9000", 2, false),
    (
        "export",
        "export WORKERS < WORLD, WORKERS is 1 to 16",
        2,
        true,
    ),
    ("translate", "translate < WORLD", 1, true),
    (
        "check",
        "check < FILE, a world, the line %history and a history",
        1,
        true,
    ),
];

const NETVIEW: &[Form] = &[
    ("pcap", "pcap < FILE, or pcap MEDIUM < FILE", 2, true),
    ("pcapng", "pcapng < FILE", 1, true),
    ("json", "json < FILE", 1, true),
    (
        "chart",
        "chart < FILE, or chart conversations < FILE",
        2,
        true,
    ),
    ("page", "page < FILE", 1, true),
    ("steps", "steps < FILE", 1, true),
    ("words", "words < FILE", 1, true),
    ("lint", "lint < DATABASE", 1, true),
];

/// What is wrong with words that are no command of a program.
pub fn usage_of(program: Program, words: &[String]) -> Usage<'_> {
    if words.is_empty() {
        return Usage::NoCommand(program);
    }
    let name = command_word(words, 0);
    let (own, other) = match program {
        Program::Netsh => (NETSH, NETVIEW),
        Program::Netview => (NETVIEW, NETSH),
    };
    if let Some((_, form, most, reads)) = form_named(own, name) {
        return Usage::Wrong {
            program,
            form,
            named: reads && most < words.len(),
        };
    }
    match form_named(other, name) {
        Some((_, form, _, _)) => Usage::Elsewhere(program, form),
        None => Usage::Unknown(program, quotable(name)),
    }
}

fn form_named(forms: &[Form], name: &[u8]) -> Option<Form> {
    for form in forms {
        if form.0.as_bytes() == name {
            return Some(*form);
        }
    }
    None
}

impl fmt::Display for Usage<'_> {
    fn fmt<W: fmt::Write>(&self, f: &mut fmt::Formatter<W>) -> fmt::Result {
        match self {
            Usage::NoCommand(program) => {
                write!(
                    f,
                    "no command is given, or a word is not UTF-8; {}",
                    Commands(*program)
                )
            }
            Usage::Unknown(program, Some(word)) => {
                write!(f, "\"{word}\" is no command; {}", Commands(*program))
            }
            Usage::Unknown(program, None) => {
                write!(f, "the first word is no command; {}", Commands(*program))
            }
            Usage::Elsewhere(Program::Netsh, form) => write!(
                f,
                "this is a command of netview: netview {form}"
            ),
            Usage::Elsewhere(Program::Netview, form) => write!(
                f,
                "this is a command of netsh: netsh {form}"
            ),
            Usage::Wrong {
                program: Program::Netsh,
                form,
                named,
            } => { write!(f, "usage: netsh {form}{}", ByFile(*named)) }
            Usage::Wrong {
                program: Program::Netview,
                form,
                named,
            } => { write!(f, "usage: netview {form}{}", ByFile(*named)) }
        }
    }
}

/// The commands of a program, as a clause.
#[derive(Drop)]
struct Commands(Program);

impl fmt::Display for Commands {
    fn fmt<W: fmt::Write>(&self, f: &mut fmt::Formatter<W>) -> fmt::Result {
        match self.0 {
            Program::Netsh => write!(
                f,
                "the commands are cs, query, dns, run, make, big, export, translate and check"
            ),
            Program::Netview => write!(
                f,
                "the commands are pcap, pcapng, json, chart, page, steps, words and lint"
            ),
        }
    }
}

/// How a file is given, if a word is too many.
#[derive(Drop)]
struct ByFile(bool);

impl fmt::Display for ByFile {
    fn fmt<W: fmt::Write>(&self, f: &mut fmt::Formatter<W>) -> fmt::Result {
        if self.0 {
            write!(f, "; a file is given by < FILE, not as a word")
        } else {
            Ok(())
        }
    }
}
