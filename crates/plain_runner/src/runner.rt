//! A run as far as it has come, and the turns of its callers.
ghost use Rattle.std.specs.Prelude.{◌≡◌, ◌<◌, ◌==◌, [], length, IfOk};
ghost use Rattle.std.specs.Arc.{arc_value};
ghost use Rattle.net_base.specs.declared.world.World.{World as AnyWorld};
ghost use Rattle.net_base.specs.Calm.{most_entries};
ghost use Rattle.net_base.specs.Net.{moment_after as spec_moment_after};
ghost use Rattle.net_base.specs.Next.{by};
ghost use Rattle.net_base.specs.World.{IsWorld};
ghost use Rattle.plain_runner.specs.Tracks.{AreCallers, Grows, IsCallerReady, IsReadyRun, MayRecordTurn, Recording};
ghost use Rattle.plain_runner.specs.Tracks.{Tracks};
ghost use Rattle.plain_runner.specs.Turns.{may_turn};

use crate::caller::Caller;
use crate::ghost_history::GhostHistory;
use crate::law::histories_are_short;
use crate::recording::{Coming, record};
use crate::turn::Turn;
use duties::WorldWays;
use ndb_index::IndexedVersions;
use net_actors::Actors;
use net_base::{Entry, Event, World};
use std::alloc::{AllocError, Global};
use std::sync::Arc;

/// How many entries a caller may record.
pub const MOST_ENTRIES: u32 = 131_072;

/// A run of a world: its history and how many entries that has, the moment in ms, the actors, and the callers by number.
#[derive(Drop)]
pub struct Runner<'a> {
    pub alloc: Global,
    pub history: GhostHistory,
    pub count: u64,
    pub moment: u64,
    pub net: Actors,
    pub ways: WorldWays,
    pub callers: Vec<Caller<'a>>,
}

impl<'a> Runner<'a> {
    /// The run of a world before anything is recorded.
    pub fn new(alloc: Global, world: &'a World) -> Result<Runner<'a>, AllocError>
        requires { IsWorld world.now }
        ensures tracks { IfOk result (Tracks world.now) }
        ensures empty { IfOk result (λ r. r.history.entries ≡ []) }
    {
        let dbs = Arc::new(alloc, IndexedVersions::new(alloc, world.dbs.as_slice())?)?;
        let net = Actors::new(alloc, world, &dbs)?;
        let ways = WorldWays::new(alloc, world)?;
        let callers = callers_of(alloc, world, &dbs)?;
        Ok(Runner {
            alloc,
            history: GhostHistory::fresh(),
            count: 0,
            moment: 0,
            net,
            ways,
            callers,
        })
    }
}

// All callers of a world, by number.
fn callers_of<'a>(
    alloc: Global,
    world: &'a World,
    dbs: &Arc<IndexedVersions, Global>,
) -> Result<Vec<Caller<'a>>, AllocError>
    requires is { IsWorld world.now }
    requires dbs { arc_value dbs.now ≡ world.now.dbs }
    ensures { IfOk result (λ callers. AreCallers world.now [] callers.items) }
{
    let mut callers = Vec::new(alloc);
    for script in world.scripts.as_slice() {
        let dbs = Arc::try_clone(dbs)?;
        callers.push(Caller::script(alloc, script, dbs)?)?;
    }
    for medium in 0..world.media.len() {
        callers.push(Caller::courier(alloc, medium as u32))?;
    }
    callers.push(Caller::clock(alloc))?;
    Ok(callers)
}

impl<'a> Runner<'a> {
    /// Records a turn of a caller, which was taken from it and is ready, and gives the entry.
    pub fn record(&mut self, caller: usize, turn: Turn) -> Result<Entry, AllocError>
        requires caller { caller < length self.old.callers.items }
        requires ready { MayRecordTurn self.old caller turn }
        ensures { IfOk result (Recording self.old self.new caller turn) }
    {
        histories_are_short();
        let coming = Coming {
            caller: caller as u32,
            stamp: self.count,
            now: self.moment,
        };
        let taken = &mut self.callers[caller];
        let entry = record(self.alloc, taken, coming, turn, &mut self.net, &self.ways)?;
        self.moment = moment_after(self.moment, &entry.event);
        self.count += 1;
        self.history = self.history.with(&entry);
        Ok(entry)
    }

    /// Records what a caller owes first, or its next event where it owes nothing, and gives the entry.
    pub fn record_next(&mut self, caller: usize) -> Result<Entry, AllocError>
        requires caller { caller < length self.old.callers.items }
        requires ready { IsReadyRun self.old caller }
        ensures { IfOk result (λ entry. (w : AnyWorld) → Tracks w self.old → IsCallerReady w self.old caller
            → Grows w self.old self.new caller entry) }
    {
        let turn = self.callers[caller].take_turn().unwrap();
        self.record(caller, turn)
    }

    /// Whether a caller has as many entries as it may have.
    pub fn is_full(&self, caller: usize) -> bool
        requires { caller < length self.now.callers.items }
        ensures { (w : AnyWorld) → Tracks w self.now
            → result ≡ (length (by self.now.history.entries caller) == most_entries) }
    {
        self.callers[caller].entries == MOST_ENTRIES
    }

    /// Whether what a caller owes first is ready, or its next event where it owes nothing.
    pub fn may_turn(&self, caller: usize) -> bool
        requires { caller < length self.now.callers.items }
        ensures { (w : AnyWorld) → Tracks w self.now → result ≡ may_turn w self.now.history.entries caller }
    {
        self.callers[caller].may_record(&self.net, self.moment)
    }
}

// The moment after an event.
fn moment_after(now: u64, event: &Event) -> u64
    ensures { result ≡ spec_moment_after now event.now }
{
    match event {
        Event::Move { moment } => *moment,
        _ => now,
    }
}
