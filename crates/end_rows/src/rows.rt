//! The rows of a history.
ghost use Rattle.std.specs.Prelude.{◌≡◌, ◌++◌, ℕ, List, OnOk, IfOk, Some};
ghost use Rattle.net_base.specs.declared.history.Entry.{Entry as AnyEntry};
ghost use Rattle.net_base.specs.declared.world.World.{World as AnyWorld};
ghost use Rattle.net_base.specs.Legal.{IsLegal, IsTimed};
ghost use Rattle.net_base.specs.Net.{owed, with_of};
ghost use Rattle.net_base.specs.World.{IsWorld};
ghost use Rattle.plain_runner.specs.Callers.{IsCallerKept};
ghost use Rattle.end_rows.specs.Ends as ends_spec;
ghost use Rattle.end_rows.specs.EndRows as spec;
ghost use Rattle.end_rows.specs.Following.{AddsRow, CanComeNext};

use crate::count::Count;
use crate::ends::{EndName, Ends, SlotKey, end_named, slot_of, take_entry};
use crate::text::{put_row, put_sight, sight_of};
use indexmap::IndexMap;
use net_base::{Entry, History, Octets, Proto, With, World};
use plain_runner::{Caller, Runner};
use std::alloc::{AllocError, Global};

// What is shown of the conversation of a protocol in a slot, which is due then.
fn shown_in(
    ends: &Ends,
    alloc: Global,
    proto: Proto,
    slot: SlotKey,
    due: Option<u64>,
) -> Result<Octets, AllocError>
    ensures { IfOk result (λ text. text ≡ spec.shown_in ends.now.entries proto slot due) }
{
    let mut text = Octets::new(alloc);
    match ends.get(&slot) {
        Some(count) => {
            put_sight(&mut text, &sight_of(count, due))?;
            Ok(text)
        }
        None => {
            put_fresh(&mut text, alloc, proto, due)?;
            Ok(text)
        }
    }
}

fn shown(ends: &Ends, alloc: Global, name: EndName, due: Option<u64>) -> Result<Octets, AllocError>
    ensures { IfOk result (λ text. text ≡ spec.shown_end ends.now.entries name due) }
{
    shown_in(ends, alloc, name.proto, slot_of(name), due)
}

fn put_fresh(
    out: &mut Octets,
    alloc: Global,
    proto: Proto,
    due: Option<u64>,
) -> Result<(), AllocError>
    ensures { OnOk result (out.new ≡ out.old ++ spec.fresh_sight_text proto due) }
{
    let fresh = Count::fresh(alloc, proto, 0, 0);
    put_sight(out, &sight_of(&fresh, due))
}

// Adds a row, if the words changed.
fn put_change(
    out: &mut Octets,
    stamp: u64,
    name: EndName,
    before: &[u8],
    after: &[u8],
) -> Result<(), AllocError>
    ensures { OnOk result (out.new ≡ out.old ++ spec.change_text stamp name before.now after.now) }
{
    if before == after {
        Ok(())
    } else {
        put_row(out, stamp, name, after)
    }
}

// Takes an entry of a conversation, with what its cause gives.
fn take_given(
    ends: &mut Ends,
    alloc: Global,
    caller: &Caller<'_>,
    name: EndName,
    entry: &Entry,
) -> Result<(), AllocError>
    ensures { OnOk result ((w : AnyWorld) (h : List AnyEntry) (c : ℕ) → IsCallerKept w h c caller.now
        → ends.new.entries ≡ ends_spec.ends_with name entry.now (with_of (owed w h c)) ends.old.entries) }
{
    match caller.owed.first() {
        Some(duty) => take_entry(ends, alloc, name, entry, &duty.work.with),
        None => take_entry(ends, alloc, name, entry, &With::Nothing),
    }
}

// Follows the next entry, and adds the row of the end that it changes.
fn follow_entry(
    out: &mut Octets,
    runner: &mut Runner<'_>,
    ends: &mut Ends,
    stamp: u64,
    entry: &Entry,
) -> Result<(), AllocError>
    requires { CanComeNext runner.old entry.now }
    ensures { OnOk result (AddsRow runner.old runner.new ends.old.entries ends.new.entries stamp entry.now out.old
        out.new) }
{
    match end_named(entry.actor) {
        Some(name) => follow_end(out, runner, ends, stamp, entry, name),
        None => {
            runner.follow(entry.caller, &entry.event)?;
            Ok(())
        }
    }
}

fn follow_end(
    out: &mut Octets,
    runner: &mut Runner<'_>,
    ends: &mut Ends,
    stamp: u64,
    entry: &Entry,
    name: EndName,
) -> Result<(), AllocError>
    requires next { CanComeNext runner.old entry.now }
    requires named { ends_spec.end_named entry.now.actor ≡ Some name }
    ensures { OnOk result (AddsRow runner.old runner.new ends.old.entries ends.new.entries stamp entry.now out.old
        out.new) }
{
    let alloc = runner.alloc;
    let due = runner.net.due(entry.actor);
    let before = shown(ends, alloc, name, due)?;
    let caller = &runner.callers[entry.caller as usize];
    take_given(ends, alloc, caller, name, entry)?;
    runner.follow(entry.caller, &entry.event)?;
    let due_then = runner.net.due(entry.actor);
    let after = shown(ends, alloc, name, due_then)?;
    put_change(out, stamp, name, before.as_slice(), after.as_slice())
}

/// Adds a row for each change of an end in a legal and timed history of a world, sorted by stamps. It follows the history once.
pub fn put_end_rows(
    out: &mut Octets,
    alloc: Global,
    world: &World,
    history: &History,
) -> Result<(), AllocError>
    requires world { IsWorld world.now }
    requires legal { IsLegal world.now history.now }
    requires timed { IsTimed world.now history.now }
    ensures { OnOk result (out.new ≡ out.old ++ spec.end_rows world.now history.now) }
{
    let entries = history.as_slice();
    let mut runner = Runner::new(alloc, world)?;
    let mut ends: Ends = IndexMap::new(alloc);
    for (stamp, entry) in entries.iter().enumerate() {
        follow_entry(out, &mut runner, &mut ends, stamp as u64, entry)?;
    }
    Ok(())
}
