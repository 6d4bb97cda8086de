//! What the program writes on standard error.

use diagnosis::{Call, Case, Explanation, Kept, Program, Seen, explain};
use std::alloc::{AllocError, Global};
use std::io::Eprint;

/// Reports a call with other words than two paths.
pub fn tell_usage_note<R: Eprint>(rt: &R) {
    let _ = eprintln!(rt;
        "netlive: usage: netlive [--schedule SEED] WORLD OUT, where WORLD is a world file, OUT the file that gets the world and the history, and SEED draws the order of turns"
    );
}

/// Reports a world that cannot be opened.
pub fn tell_no_world<R: Eprint>(rt: &R, path: &str) {
    let _ = eprintln!(rt; "netlive: the world file {path} cannot be opened");
}

/// Reports a world that cannot be read.
pub fn tell_unread_world<R: Eprint>(rt: &R, path: &str) {
    let _ = eprintln!(rt; "netlive: the world file {path} cannot be read");
}

/// Reports a file OUT that is the world file.
pub fn tell_same_file<R: Eprint>(rt: &R, path: &str) {
    let _ = eprintln!(rt; "netlive: OUT would replace the world file {path}: give it another name");
}

/// Reports a file OUT that cannot be created.
pub fn tell_no_out<R: Eprint>(rt: &R, path: &str) {
    let _ = eprintln!(rt; "netlive: the file {path} cannot be created");
}

/// Reports why a world is invalid, as a run over it would.
pub fn tell_bad_world<R: Eprint>(
    rt: &R,
    alloc: Global,
    kept: Kept<'_>,
    seen: Seen<'_>,
    status: u8,
) {
    let Ok(words) = run_words(alloc) else {
        return;
    };
    let explanation = explain_run(words.as_slice(), kept, seen, status);
    if explanation.case != Case::Nothing {
        let _ = eprintln!(rt; "netlive: {explanation}");
    }
}

fn explain_run<'a>(
    words: &'a [String],
    kept: Kept<'a>,
    seen: Seen<'a>,
    status: u8,
) -> Explanation<'a> {
    explain(Call {
        program: Program::Netsh,
        words,
        kept,
        seen,
        status,
        expected: None,
    })
}

fn run_words(alloc: Global) -> Result<Vec<String>, AllocError> {
    let mut words = Vec::new(alloc);
    words.push(String::from_str(alloc, "run")?)?;
    words.push(String::from_str(alloc, "1")?)?;
    Ok(words)
}

/// Reports why a run ended with its status, unless all steps are done.
pub fn tell_end<R: Eprint>(rt: &R, out: &str, status: u8) {
    match status {
        3 => {
            let _ = eprintln!(rt;
                "netlive: the end moment came before every step was done; netview steps < {out} shows each step"
            );
        }
        4 => {
            let _ = eprintln!(rt;
                "netlive: a caller has 131072 entries, the most that it may have"
            );
        }
        6 => {
            let _ = eprintln!(rt;
                "netlive: reading standard input failed; that counts as its end, and {out} has the run"
            );
        }
        7 => {
            let _ = eprintln!(rt; "netlive: writing {out} or standard output failed");
        }
        8 => tell_no_memory(rt),
        _ => {}
    }
}

/// Reports that memory ran out.
pub fn tell_no_memory<R: Eprint>(rt: &R) {
    let _ = eprintln!(rt; "netlive: out of memory");
}
