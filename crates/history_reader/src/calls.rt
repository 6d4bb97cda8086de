//! Calls that waited.
ghost use Rattle.std.specs.Prelude.{◌≡◌, IfOk};
ghost use Rattle.history_reader.specs.ReplyRows as spec;

use crate::cursor::Words;
use crate::fields::{long, narrow};
use net_base::{Call, CallList};
use std::alloc::{AllocError, Global};

/// The calls that waited, or a dash for none.
#[tactic(auto, using(crate::proofs::Loops::no_calls, crate::proofs::Loops::any_calls))]
pub(crate) fn calls<'a>(
    alloc: Global,
    words: &Words<'a>,
) -> Result<Option<(CallList, Words<'a>)>, AllocError>
    ensures { IfOk result (λ read. read ≡ spec.calls_read words.now) }
{
    let Some((word, rest)) = words.next() else {
        return Ok(None);
    };
    if word == b"-".as_slice() {
        return Ok(Some((CallList::new(alloc), rest)));
    }
    let (calls, rest) = each_call(alloc, words)?;
    if calls.len() == 0 {
        return Ok(None);
    }
    Ok(Some((calls, rest)))
}

/// Calls as long as two numbers come.
#[tactic(auto, using(crate::proofs::Loops::calls_on, crate::proofs::Loops::calls_end, crate::proofs::Loops::calls_shorter))]
fn each_call<'a>(alloc: Global, words: &Words<'a>) -> Result<(CallList, Words<'a>), AllocError>
    ensures { IfOk result (λ read. read ≡ spec.each_call words.now) }
{
    let mut calls = CallList::new(alloc);
    let mut rest = words.again();
    while let Some((call, behind)) = call(&rest) {
        calls.push(call)?;
        rest = behind;
    }
    Ok((calls, rest))
}

fn call<'a>(words: &Words<'a>) -> Option<(Call, Words<'a>)>
    ensures { result ≡ spec.call words.now }
{
    let (slot, words) = narrow(words)?;
    let (generation, words) = long(&words)?;
    Some((Call { slot, generation }, words))
}
