//! A run of a world with its entries, and how often it left a caller early.
ghost use Rattle.std.specs.Prelude.{◌≡◌, ◌<◌, [], ℕ, List, Some, length, slice_get, true, IfOk, OnOk};
ghost use Rattle.net_base.specs.declared.history.Entry.{Entry as AnyEntry};
ghost use Rattle.net_base.specs.declared.world.Script.{Script as AnyScript};
ghost use Rattle.net_base.specs.declared.world.World.{World as AnyWorld};
ghost use Rattle.net_base.specs.Next.{finished_by, own_replies, zone_of};
ghost use Rattle.net_base.specs.World.{IsWorld};
ghost use Rattle.plain_runner.specs.Callers.{IsCallerKept};
ghost use Rattle.plain_runner.specs.Tracks.{Tracks};
ghost use Rattle.order_search.specs.Walks.{IsGoer, IsWalk, WalksOn};

use crate::marks::Marks;
use crate::turn::{cost_of, take_turn};
use net_base::{History, World};
use plain_runner::{Caller, Role, Runner, histories_are_short};
use std::alloc::{AllocError, Global};
use turn_orders::{costs_are, preemptions_grow};

/// A run and its entries, the caller of the last one, how often the run left a caller early, and which entries are those of
/// steps.
#[derive(Drop)]
pub struct Walk<'a> {
    pub runner: Runner<'a>,
    pub history: History,
    pub last: Option<usize>,
    pub preemptions: u64,
    pub marks: Marks,
}

impl<'a> Walk<'a> {
    /// The run of a world before its first entry.
    pub fn new(alloc: Global, world: &'a World) -> Result<Walk<'a>, AllocError>
        requires { IsWorld world.now }
        ensures is { IfOk result (IsWalk world.now) }
        ensures empty { IfOk result (λ walk. walk.runner.history.entries ≡ []) }
    {
        let runner = Runner::new(alloc, world)?;
        let marks = Marks::new(alloc, world)?;
        let history = History::new(alloc);
        Ok(Walk {
            runner,
            history,
            last: None,
            preemptions: 0,
            marks,
        })
    }
}

/// Continues with the turn of a caller that can continue.
pub fn advance(world: &World, walk: &mut Walk<'_>, caller: usize) -> Result<(), AllocError>
    requires walk { IsWalk world.now walk.old }
    requires goes { IsGoer world.now walk.old.runner.history.entries (length walk.old.runner.callers.items) caller }
    ensures is { OnOk result (IsWalk world.now walk.new) }
    ensures grows { OnOk result (WalksOn walk.old walk.new caller) }
{
    preemptions_grow();
    costs_are();
    histories_are_short();
    let early = cost_of(&walk.runner, world, walk.last, caller);
    let stamp = walk.history.len();
    let step = finished_of(&walk.runner, caller);
    let entry = take_turn(&mut walk.runner, world, caller)?;
    walk.marks.note_entry(&entry, caller, step, stamp);
    walk.history.push(entry)?;
    walk.last = Some(caller);
    walk.preemptions += early;
    Ok(())
}

/// How many steps of a script are finished.
pub fn finished_of(runner: &Runner<'_>, script: usize) -> usize
    ensures { (w : AnyWorld) (s : AnyScript) → Tracks w runner.now → slice_get w.scripts script ≡ Some s
        → result ≡ finished_by (zone_of w) (own_replies runner.now.history.entries script) s }
{
    match runner.callers.get(script) {
        Some(caller) => finished_steps(caller),
        None => 0,
    }
}

fn finished_steps(caller: &Caller<'_>) -> usize
    ensures { (w : AnyWorld) (h : List AnyEntry) (c : ℕ) (s : AnyScript) → IsCallerKept w h c caller.now
        → slice_get w.scripts c ≡ Some s → result ≡ finished_by (zone_of w) (own_replies h c) s }
{
    match &caller.role {
        Role::Script(_, player) => player.finished(),
        Role::Courier(_) => 0,
        Role::Clock => 0,
    }
}
