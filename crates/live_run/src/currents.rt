//! The steps of places that have begun and are not complete, by the numbers of the scripts.
ghost use Rattle.std.specs.Prelude.{◌≡◌, IfOk, OnOk};
ghost use Rattle.live_run.specs.Currents.{AllNone, ChangesAt, IsNotedIn, IsReplaced, TakesAt};

use live_answers::Current;
use live_lines::StepWord;
use net_base::Entry;
use replay_views::StepKind;
use std::alloc::{AllocError, Global};

/// No current step for each of this number of scripts.
pub fn no_currents(alloc: Global, count: usize) -> Result<Vec<Option<Current>>, AllocError>
    ensures { IfOk result (λ currents. AllNone count currents.items) }
{
    let mut currents = Vec::new(alloc);
    for _ in 0..count {
        currents.push(None)?;
    }
    Ok(currents)
}

/// Notes the entry of a script.
pub fn note(
    currents: &mut Vec<Option<Current>>,
    caller: usize,
    stamp: usize,
    entry: &Entry,
) -> Result<(), AllocError>
    ensures { OnOk result (ChangesAt currents.old.items currents.new.items caller (IsNotedIn stamp entry.now)) }
{
    match currents.get_mut(caller) {
        Some(current) => note_in(current, stamp, entry),
        None => Ok(()),
    }
}

fn note_in(current: &mut Option<Current>, stamp: usize, entry: &Entry) -> Result<(), AllocError>
    ensures { OnOk result (IsNotedIn stamp entry.now current.old current.new) }
{
    match current {
        Some(current) => current.note(stamp, entry),
        None => Ok(()),
    }
}

/// Takes the current step of a script, if there is one.
pub fn take(currents: &mut Vec<Option<Current>>, caller: usize) -> Option<Current>
    ensures { TakesAt currents.old.items currents.new.items caller result }
{
    match currents.get_mut(caller) {
        Some(current) => current.take(),
        None => None,
    }
}

/// `until` replaces the current step of a script, for this reason.
pub fn replace(currents: &mut Vec<Option<Current>>, script: usize, word: StepWord)
    ensures { ChangesAt currents.old.items currents.new.items script IsReplaced }
{
    if let Some(current) = currents.get_mut(script) {
        replace_in(current, word);
    }
}

fn replace_in(current: &mut Option<Current>, word: StepWord)
    ensures { IsReplaced current.old current.new }
{
    if let Some(current) = current {
        current.kind = StepKind::Local;
        current.replaced = Some(word);
        current.deadline = None;
    }
}
