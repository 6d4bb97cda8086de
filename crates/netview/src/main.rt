//! A run of a world for people: as a capture, a picture, a page, JSON, steps and words; and notes on a database.
#![tactic(auto)]

mod command;
mod notes;
mod top;
mod view;

use diagnosis::{Call, Kept, KeptSource, Program, Seen, SeenSink, tell, tell_no_memory};
use expected_entry::{Expected, expected_in};
use net_model::words_after_path;
use net_page::{head, tail};
use outside::{StdSink, StdSource};
use std::alloc::Global;
use std::process::ExitCode;

/// The status where memory runs out.
const NO_MEMORY: u8 = 8;

/// The status where a history breaks a rule.
const BROKEN: u8 = 5;

/// Takes the words and the standard streams, and tells on standard error what went wrong.
fn main(rt: HostRuntime) -> ExitCode {
    let Ok(words) = words_after_path(&rt, rt.alloc()) else {
        tell_no_memory(&rt, Program::Netview);
        return ExitCode::from(NO_MEMORY);
    };
    let mut source = KeptSource::new(rt.alloc(), StdSource::new(rt.stdin()));
    let mut sink = SeenSink::new(rt.alloc(), StdSink::new(rt.stdout()));
    let status = top::netview(rt.alloc(), &words, head(), tail(), &mut source, &mut sink);
    let found = expected_at(rt.alloc(), status, source.kept());
    let expected = text_of(&found);
    let call = call_of(&words, source.kept(), sink.seen(), status, expected);
    tell(&rt, call);
    ExitCode::from(status)
}

// What was expected in a history, if the status says that it breaks a rule.
fn expected_at(alloc: Global, status: u8, kept: Kept<'_>) -> Option<Expected> {
    if status != BROKEN || !kept.whole {
        return None;
    }
    expected_in(alloc, kept.text).unwrap_or(None)
}

fn text_of(found: &Option<Expected>) -> Option<&[u8]> {
    match found {
        Some(expected) => Some(expected.text()),
        None => None,
    }
}

fn call_of<'a>(
    words: &'a [String],
    kept: Kept<'a>,
    seen: Seen<'a>,
    status: u8,
    expected: Option<&'a [u8]>,
) -> Call<'a> {
    Call {
        program: Program::Netview,
        words,
        kept,
        seen,
        status,
        expected,
    }
}
