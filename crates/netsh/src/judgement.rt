//! The command `check`.
ghost use Rattle.std.specs.Prelude.{◌≤◌, ◌↔◌, length, IfOk, IsTrue};
ghost use Rattle.net_base.specs.Legal.{IsLegal, IsTimed};
ghost use Rattle.net_base.specs.World.{IsWorld};
ghost use Rattle.net_model.specs.Answers.{input_limit};
ghost use Rattle.net_model.specs.Words.{Check as AnyCheck};
ghost use Rattle.netsh.specs.Built.{IsAnswer};
ghost use Rattle.netsh.specs.Checked.{IsChecked, IsOwn, TellsError};

use crate::answer::all_kept;
use net_base::{History, Octets, World};
use net_model::Answer;
use netcheck::{InputError, a_fault_is_one, check_input};
use plain_runner::summary_of;
use std::alloc::{AllocError, Global};
use std::mem;

/// The number of the rule that a summary is the history's.
const SUMMARY_RULE: u32 = 9;

/// What is answered to a world and a history of it.
pub fn check(alloc: Global, input: &[u8]) -> Result<Answer, AllocError>
    requires { length input.now ≤ input_limit AnyCheck }
    ensures { IfOk result (λ answer. IsAnswer AnyCheck input.now answer) }
{
    a_fault_is_one();
    match check_input(alloc, input) {
        Ok(read) => {
            let answer = judge_summary(alloc, &read.world, &read.history, &read.told);
            // the program ends behind its one answer, and gives back all memory at once
            mem::forget(read);
            answer
        }
        Err(error) => refuse(alloc, error),
    }
}

/// What is answered to an input that hands in no history which keeps the first eight rules.
fn refuse(alloc: Global, error: InputError) -> Result<Answer, AllocError>
    ensures { IfOk result (TellsError error) }
{
    match error {
        InputError::Bad { line, cause } => Answer::bad_input(alloc, line, cause),
        InputError::Fault { stamp, rule } => Answer::rule_broken(alloc, stamp, rule),
        InputError::Memory => Err(AllocError),
    }
}

/// What is answered where all entries keep the first eight rules.
fn judge_summary(
    alloc: Global,
    world: &World,
    history: &History,
    told: &Option<Octets>,
) -> Result<Answer, AllocError>
    requires world { IsWorld world.now }
    requires legal { IsLegal world.now history.now }
    requires timed { IsTimed world.now history.now }
    ensures { IfOk result (λ answer. IsChecked world.now history.now told.now answer) }
{
    let entries = history.len() as u64;
    let own = is_own(alloc, world, history, told)?;
    if own {
        return all_kept(alloc, entries);
    }
    Answer::rule_broken(alloc, entries, SUMMARY_RULE)
}

/// Whether the summary that came with a history, if one did, is its own.
fn is_own(
    alloc: Global,
    world: &World,
    history: &History,
    told: &Option<Octets>,
) -> Result<bool, AllocError>
    requires world { IsWorld world.now }
    requires legal { IsLegal world.now history.now }
    requires timed { IsTimed world.now history.now }
    ensures { IfOk result (λ own. IsTrue own ↔ IsOwn world.now history.now told.now) }
{
    match told {
        Some(text) => {
            let own = summary_of(alloc, world, history)?;
            Ok(text.as_slice() == own.as_slice())
        }
        None => Ok(true),
    }
}
