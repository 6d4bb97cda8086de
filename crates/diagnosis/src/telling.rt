//! Standard error.

use crate::asked::{Input, Program, command_word, input_of};
use crate::cases::Case;
use crate::explaining::{Call, explain};
use crate::findings::unknown_system;
use crate::refusals::{LostNote, RefusedNote};
use std::env::Env;
use std::io::Eprint;

/// Writes on standard error why a call ended as it did, unless all went well. A fault of standard error is not told.
pub fn tell<R: Eprint + Env>(rt: &R, call: Call<'_>) {
    let name = name_of(call.program);
    let explanation = explain(call);
    if explanation.case != Case::Nothing {
        let _ = eprintln!(rt; "{name}: {explanation}");
    }
    if matches!(call.status, 0 | 5)
        && let Some(note) = unknown_system(call.words, call.kept)
    {
        let _ = eprintln!(rt; "{name}: {note}");
    }
    if has_history(call) && !is_quiet(rt) {
        tell_refusals(rt, call);
    }
}

// Whether a run's history was written.
fn has_history(call: Call<'_>) -> bool {
    let input = input_of(call.program, command_word(call.words, 0));
    matches!(input, Input::World | Input::Sessions) && call.seen.end.is_some()
}

// Whether the environment asks for no notes on what a run has refused.
fn is_quiet<R: Env>(rt: &R) -> bool {
    let mut value = [0u8; 1];
    rt.var("NETSH_QUIET", &mut value[..]).is_ok() && value[0] == b'1'
}

fn tell_refusals<R: Eprint>(rt: &R, call: Call<'_>) {
    let name = name_of(call.program);
    if let Some(refused) = call.seen.refusals.refused() {
        let _ = eprintln!(rt; "{name}: {}", RefusedNote(refused));
    }
    if let Some(lost) = call.seen.refusals.lost() {
        let _ = eprintln!(rt; "{name}: {}", LostNote(lost));
    }
}

/// Writes on standard error that there was no memory for the words of a call.
pub fn tell_no_memory<R: Eprint>(rt: &R, program: Program) {
    let name = name_of(program);
    let _ = eprintln!(rt; "{name}: {}", Case::NoMemory);
}

fn name_of(program: Program) -> &'static str {
    match program {
        Program::Netsh => "netsh",
        Program::Netview => "netview",
    }
}
