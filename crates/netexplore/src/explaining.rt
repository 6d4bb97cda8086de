//! What the program writes on standard error.

use crate::stopped::Stopped;
use diagnosis::{Call, Case, Explanation, Kept, Program, Seen, explain};
use order_search::{Far, Watch};
use std::alloc::{AllocError, Global};
use std::fmt;
use std::io::Eprint;

/// Reports on standard error how far a search is.
#[derive(Drop)]
pub struct OnError<'a, R>(pub &'a R);

impl<R: Eprint> Watch for OnError<'_, R> {
    fn see(&self, far: Far) {
        let _ = eprintln!(self.0; "netexplore: {}", FarNote(far));
    }
}

/// How far a search is, as a line.
#[derive(Drop)]
struct FarNote(Far);

impl fmt::Display for FarNote {
    fn fmt<W: fmt::Write>(&self, f: &mut fmt::Formatter<W>) -> fmt::Result {
        let far = self.0;
        let preemptions = Counted(far.preemptions, "preemption", "preemptions");
        let histories = Counted(far.histories, "history", "histories");
        let outcomes = Counted(far.outcomes as u64, "outcome", "outcomes");
        let Some(losses) = far.losses else {
            return write!(f, "{preemptions}: {histories}, {outcomes}");
        };
        let losses = Counted(losses, "loss", "losses");
        write!(f, "{losses}, {preemptions}: {histories}, {outcomes}")
    }
}

/// A number with what is counted: one, or more.
#[derive(Drop)]
struct Counted(u64, &'static str, &'static str);

impl fmt::Display for Counted {
    fn fmt<W: fmt::Write>(&self, f: &mut fmt::Formatter<W>) -> fmt::Result {
        let Counted(count, one, more) = self;
        let word = if *count == 1 { *one } else { *more };
        let grouped = Grouped(*count);
        write!(f, "{grouped} {word}")
    }
}

/// A number with a comma before each three digits.
#[derive(Drop)]
struct Grouped(u64);

impl fmt::Display for Grouped {
    fn fmt<W: fmt::Write>(&self, f: &mut fmt::Formatter<W>) -> fmt::Result {
        let number = self.0;
        let low = number % 1000;
        let middle = number / 1000 % 1000;
        let high = number / 1_000_000;
        if number < 1000 {
            return write!(f, "{number}");
        }
        if number < 1_000_000 {
            return write!(f, "{middle},{low:03}");
        }
        write!(f, "{high},{middle:03},{low:03}")
    }
}

/// Reports that there was no memory for the words of a call.
pub fn tell_no_memory<R: Eprint>(rt: &R) {
    let _ = eprintln!(rt; "netexplore: out of memory");
}

/// A call that has ended, with what was read and written.
#[derive(Clone, Copy)]
pub struct Ending<'a> {
    pub words: &'a [String],
    pub kept: Kept<'a>,
    pub seen: Seen<'a>,
    pub stopped: Stopped,
    pub status: u8,
}

/// Reports why a call ended as it did, unless all went well.
pub fn tell_end<R: Eprint>(rt: &R, alloc: Global, ending: Ending<'_>) {
    let lists = is_named(ending.words, "outcomes") || is_named(ending.words, "losses");
    match ending.status {
        0 => {}
        1 => {
            let _ = eprintln!(rt; "netexplore: usage: {USAGE}");
        }
        3 if lists => tell_stopped(rt, ending),
        4 if lists => {
            let _ = eprintln!(rt; "netexplore: {}", some_note(ending.stopped));
        }
        5 => {
            let list = if is_named(ending.words, "lost") {
                "losses"
            } else {
                "outcomes"
            };
            let _ = eprintln!(rt;
                "netexplore: there is no outcome of this number; netexplore {list} with the same words lists them"
            );
        }
        _ => tell_as_run(rt, alloc, ending),
    }
}

/// The commands.
const USAGE: &str =
    "netexplore schedule SEED, outcomes P LIMIT, witness P LIMIT N, losses K P LIMIT or lost K P LIMIT N, and PART/PARTS behind the last four; a world is given by < FILE";

// Whether the first word is a name.
fn is_named(words: &[String], name: &str) -> bool {
    match words.first() {
        Some(word) => word.as_bytes() == name.as_bytes(),
        None => false,
    }
}

// Reports which outcome is stopped, and which words print its history.
fn tell_stopped<R: Eprint>(rt: &R, ending: Ending<'_>) {
    let Some(number) = ending.stopped.number else {
        return;
    };
    let words = WitnessWords {
        words: ending.words,
        number,
    };
    let _ = eprintln!(rt;
        "netexplore: outcome {number} reaches the end moment before every step is done; netexplore {words} prints its history"
    );
}

/// The words that print the history of an outcome, by the words that list the outcomes.
#[derive(Drop)]
struct WitnessWords<'a> {
    words: &'a [String],
    number: u64,
}

impl fmt::Display for WitnessWords<'_> {
    fn fmt<W: fmt::Write>(&self, f: &mut fmt::Formatter<W>) -> fmt::Result {
        let number = self.number;
        match self.words {
            [_, preemptions, limit] => write!(f, "witness {preemptions} {limit} {number}"),
            [name, preemptions, limit, part] if name.as_bytes() == b"outcomes".as_slice() => {
                write!(f, "witness {preemptions} {limit} {number} {part}")
            }
            [_, losses, preemptions, limit] => {
                write!(f, "lost {losses} {preemptions} {limit} {number}")
            }
            [_, losses, preemptions, limit, part] => {
                write!(f, "lost {losses} {preemptions} {limit} {number} {part}")
            }
            _ => Ok(()),
        }
    }
}

fn some_note(stopped: Stopped) -> &'static str {
    if stopped.whole {
        "an outcome has a caller with 131072 entries, the most that it may have"
    } else {
        "there are more histories than were looked at; a greater LIMIT looks at more"
    }
}

// Reports what a run over the same input would report.
fn tell_as_run<R: Eprint>(rt: &R, alloc: Global, ending: Ending<'_>) {
    let Ok(words) = run_words(alloc) else {
        return;
    };
    let explanation = explain_run(words.as_slice(), ending);
    if explanation.case != Case::Nothing {
        let _ = eprintln!(rt; "netexplore: {explanation}");
    }
}

fn explain_run<'a>(words: &'a [String], ending: Ending<'a>) -> Explanation<'a> {
    explain(Call {
        program: Program::Netsh,
        words,
        kept: ending.kept,
        seen: ending.seen,
        status: ending.status,
        expected: None,
    })
}

fn run_words(alloc: Global) -> Result<Vec<String>, AllocError> {
    let mut words = Vec::new(alloc);
    words.push(String::from_str(alloc, "run")?)?;
    words.push(String::from_str(alloc, "1")?)?;
    Ok(words)
}
