//! The lines of the answers of sessions.
ghost use Rattle.std.specs.Prelude.{◌≡◌, ◌++◌, flat_map, length, OnOk};
ghost use Rattle.netsh.specs.AnswerLines as spec;

use net_base::{Lines, Octets};
use session_script::Session;
use std::alloc::AllocError;
use words::{put_decimal, put_hex_word};

/// Adds a line `9p CALLER HEX` for each answer, session by session.
pub fn put_sessions(out: &mut Octets, sessions: &[Session], all: &[Lines]) -> Result<(), AllocError>
    requires { length all.now ≡ length sessions.now }
    ensures { OnOk result (out.new ≡ out.old ++ spec.answer_lines sessions.now all.now) }
{
    let mut i = 0;
    for answers in all {
        put_answers(out, sessions[i].place, answers)?;
        i += 1;
    }
    Ok(())
}

fn put_answers(out: &mut Octets, caller: u32, answers: &Lines) -> Result<(), AllocError>
    ensures { OnOk result (out.new ≡ out.old ++ flat_map (spec.answer_line caller) answers.now) }
{
    for answer in answers.as_slice() {
        put_answer(out, caller, answer.as_slice())?;
    }
    Ok(())
}

fn put_answer(out: &mut Octets, caller: u32, answer: &[u8]) -> Result<(), AllocError>
    ensures { OnOk result (out.new ≡ out.old ++ spec.answer_line caller answer.now) }
{
    out.append(b"9p ")?;
    put_decimal(out, caller as u64)?;
    out.append(b" ")?;
    put_hex_word(out, answer)?;
    out.push(b'\n')
}
