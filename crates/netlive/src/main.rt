//! A program in any language drives hosts of a simulated network: `netlive [--schedule SEED] WORLD OUT`.
#![tactic(auto)]

mod command;
mod explaining;
mod top;

use crate::command::read_command;
use crate::explaining::{
    tell_bad_world, tell_end, tell_no_memory, tell_no_out, tell_no_world, tell_same_file,
    tell_unread_world, tell_usage_note,
};
use crate::top::{read_given, serve};
use diagnosis::{KeptSource, SeenSink};
use live_answers::Voice;
use net_model::{tell_answer, tell_usage, words_after_path};
use outside::{ReadSource, StdSink, StdSource, TakeError, WriteSink};
use std::fs::File;
use std::process::ExitCode;

/// The status where memory runs out.
const NO_MEMORY: u8 = 8;

/// The status where OUT cannot be created.
const NOT_WRITTEN: u8 = 7;

/// The status where WORLD cannot be read.
const NOT_READ: u8 = 6;

/// A file that has no bytes. If a standard stream is closed, it takes the place of the stream, so that OUT cannot.
const EMPTY: &str = "/dev/null";

/// Takes the words, opens both files, and reports on standard error what went wrong.
fn main(rt: HostRuntime) -> ExitCode {
    let _streams = [
        File::open(&rt, EMPTY),
        File::open(&rt, EMPTY),
        File::open(&rt, EMPTY),
    ];
    let Ok(words) = words_after_path(&rt, rt.alloc()) else {
        tell_no_memory(&rt);
        return ExitCode::from(NO_MEMORY);
    };
    let mut sink = SeenSink::new(rt.alloc(), StdSink::new(rt.stdout()));
    let Some(command) = read_command(words.as_slice()) else {
        tell_usage_note(&rt);
        return ExitCode::from(tell_usage(&mut sink));
    };
    let Ok(file) = File::open(&rt, command.world) else {
        tell_no_world(&rt, command.world);
        return ExitCode::from(tell_answer(&mut sink, Err(TakeError::Failed)));
    };
    let mut given = KeptSource::new(rt.alloc(), ReadSource::new(file));
    let world = match read_given(rt.alloc(), &mut given, &mut sink) {
        Ok(world) => world,
        Err(NOT_READ) => {
            tell_unread_world(&rt, command.world);
            return ExitCode::from(NOT_READ);
        }
        Err(status) => {
            tell_bad_world(&rt, rt.alloc(), given.kept(), sink.seen(), status);
            return ExitCode::from(status);
        }
    };
    if command.out == command.world {
        tell_same_file(&rt, command.out);
        return ExitCode::from(NOT_WRITTEN);
    }
    let opened = File::options()
        .write(true)
        .create(true)
        .truncate(true)
        .open(&rt, command.out);
    let Ok(file) = opened else {
        tell_no_out(&rt, command.out);
        return ExitCode::from(NOT_WRITTEN);
    };
    let mut out = WriteSink::new(file);
    let mut source = StdSource::new(rt.stdin());
    let mut voice = Voice::new(StdSink::new(rt.stdout()));
    let status = serve(
        rt.alloc(),
        world,
        command.seed,
        &mut source,
        &mut voice,
        &mut out,
    );
    tell_end(&rt, command.out, status);
    ExitCode::from(status)
}
