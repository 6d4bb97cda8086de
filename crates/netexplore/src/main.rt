//! The other orders in which a world can run, and how they end.
#![tactic(auto)]

mod answers;
mod command;
mod explaining;
mod lines;
mod steps;
mod stopped;
mod top;

use crate::explaining::{Ending, OnError, tell_end, tell_no_memory};
use crate::stopped::StoppedSink;
use diagnosis::{KeptSource, SeenSink};
use net_model::words_after_path;
use outside::{StdSink, StdSource};
use std::process::ExitCode;

/// The status where memory runs out.
const NO_MEMORY: u8 = 8;

/// Takes the words and the standard streams, and reports on standard error how far it is and what went wrong.
fn main(rt: HostRuntime) -> ExitCode {
    let Ok(words) = words_after_path(&rt, rt.alloc()) else {
        tell_no_memory(&rt);
        return ExitCode::from(NO_MEMORY);
    };
    let mut source = KeptSource::new(rt.alloc(), StdSource::new(rt.stdin()));
    let mut sink = StoppedSink::new(
        rt.alloc(),
        SeenSink::new(rt.alloc(), StdSink::new(rt.stdout())),
    );
    let watch = OnError(&rt);
    let status = top::netexplore(rt.alloc(), &words, &watch, &mut source, &mut sink);
    let kept = source.kept();
    let stopped = sink.stopped();
    let below = sink.below();
    let seen = below.seen();
    let ending = Ending {
        words: &words,
        kept,
        seen,
        stopped,
        status,
    };
    tell_end(&rt, rt.alloc(), ending);
    ExitCode::from(status)
}
