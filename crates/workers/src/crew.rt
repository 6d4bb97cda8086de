//! What the workers of a crew know of one another: whether anybody may still record something.
ghost use Rattle.std.specs.Prelude.{◌≡◌, ◌≤◌, ◌<◌, ◌⊎◌, ◌↔◌, IsTrue, IsFalse, true};
ghost use Rattle.workers.specs.Shifts.{IsBusy, WaitsMuch, many_rounds, one_more, untold_round};

use std::sync::{Condvar, Mutex, Wait};
use std::thread::yield_now;

/// How often a worker looks at what it waits for before its thread sleeps.
const MOST_LOOKS: u32 = 1000;

/// How often the workers of a crew give way to those that haven't begun.
const MOST_YIELDS: u32 = 200;

/// After how many rounds a worker that needn't rest has those that rest look again.
pub(crate) const MANY_ROUNDS: u32 = 64;

/// After how many waits it is seen whether a worker waits for others most of the time.
pub(crate) const MANY_WAITS: u32 = 8;

/// How many rounds between two waits are enough for a worker to pay.
const FEW_ROUNDS: u64 = 4;

/// A worker rests while none of its players can go on, until all workers rest, one of them alone has gone on for long, or one
/// has waited for the others most of the time.
#[derive(Drop)]
pub struct Crew {
    workers: usize,
    rests: Mutex<Rests>,
    changed: Condvar,
}

/// How many workers have begun, are still there and rest, how often one told that it had recorded something, how many were
/// busy, whether one has waited most of the time, and whether all are to leave.
#[derive(Clone, Copy, Debug, PartialEq, Eq)]
struct Rests {
    begun: usize,
    present: usize,
    resting: usize,
    changes: u64,
    yields: u32,
    busy: usize,
    waited: bool,
    over: bool,
}

impl Rests {
    // Whether who rests since so many changes is to rest on.
    fn lasts(self, changes: u64) -> bool {
        !self.over && self.changes == changes && self.resting < self.present
    }

    // Those that rest are to look again.
    fn change(&mut self) {
        self.changes = self.changes.wrapping_add(1);
        self.resting = 0;
    }
}

/// What a worker has done: its rounds that recorded something, in all and since it last told of one, how often none of its
/// players could go on after such rounds, and how many changes there were when it last told.
#[derive(Clone, Copy, Debug, PartialEq, Eq)]
pub struct Shift {
    all: u32,
    untold: u32,
    waits: u32,
    changes: u64,
}

impl Shift {
    // Whether it waits for others most of the time: then what they do costs more than it saves.
    fn waits_much(self) -> bool
        ensures { IsTrue result ↔ WaitsMuch self }
    {
        self.waits >= MANY_WAITS && u64::from(self.all) < FEW_ROUNDS * u64::from(self.waits)
    }

    // Whether it had many rounds, and several of them between two waits.
    fn is_busy(self) -> bool
        ensures { IsTrue result ↔ IsBusy self }
    {
        self.all >= MANY_ROUNDS && FEW_ROUNDS * u64::from(self.waits) <= u64::from(self.all)
    }
}

impl Crew {
    /// So many workers, of which none has begun.
    pub fn new(workers: usize) -> Crew
        ensures { result.workers ≡ workers }
    {
        Crew {
            workers,
            rests: Mutex::new(Rests {
                begun: 0,
                present: 0,
                resting: 0,
                changes: 0,
                yields: 0,
                busy: 0,
                waited: false,
                over: false,
            }),
            changed: Condvar::new(),
        }
    }

    /// A worker begins.
    pub fn begin<R: Wait>(&self, rt: &R) -> Shift
        ensures all { result.all ≡ 0 }
        ensures untold { result.untold ≡ 0 }
        ensures waits { result.waits ≡ 0 }
    {
        let mut rests = self.rests.lock(rt);
        rests.begun = rests.begun.saturating_add(1);
        rests.present = rests.present.saturating_add(1);
        Shift {
            all: 0,
            untold: 0,
            waits: 0,
            changes: rests.changes,
        }
    }

    /// A round recorded something. The others are told where many did. The answer is whether the worker goes on: it
    /// doesn't where all others have rested meanwhile.
    pub fn record<R: Wait>(&self, rt: &R, shift: &mut Shift) -> bool
        ensures all { shift.new.all ≡ one_more shift.old.all }
        // Few rounds are the worker's own affair; many are told.
        ensures few { one_more shift.old.untold < many_rounds → (result ≡ true) × (shift.new ≡ untold_round shift.old) }
        ensures many { many_rounds ≤ one_more shift.old.untold → shift.new.untold ≡ 0 }
        ensures waits { shift.new.waits ≡ shift.old.waits }
    {
        shift.all = shift.all.saturating_add(1);
        shift.untold = shift.untold.saturating_add(1);
        if shift.untold < MANY_ROUNDS {
            return true;
        }
        let mut rests = self.rests.lock(rt);
        let others_rest = rests.resting.saturating_add(1) == rests.present;
        if others_rest && rests.begun >= self.workers && rests.changes == shift.changes {
            rests.over = true;
        }
        rests.change();
        shift.untold = 0;
        shift.changes = rests.changes;
        self.changed.notify_all();
        !rests.over
    }

    /// None of the worker's players can go on. The others are told of what it recorded. The answer is whether it goes on: all
    /// leave where it has waited for others most of the time.
    pub fn tell<R: Wait>(&self, rt: &R, shift: &mut Shift) -> bool
        ensures all { shift.new.all ≡ shift.old.all }
        ensures told { shift.new.untold ≡ 0 }
        // Where there is nothing to tell nothing changes; else it waits once more.
        ensures same { shift.old.untold ≡ 0 → (result ≡ true) × (shift.new ≡ shift.old) }
        ensures waits { 0 < shift.old.untold → shift.new.waits ≡ one_more shift.old.waits }
        ensures answer { 0 < shift.old.untold → IsFalse result ↔ WaitsMuch shift.new }
    {
        if shift.untold == 0 {
            return true;
        }
        shift.untold = 0;
        shift.waits = shift.waits.saturating_add(1);
        let leaves = shift.waits_much();
        let mut rests = self.rests.lock(rt);
        rests.waited = rests.waited || leaves;
        rests.over = rests.over || leaves;
        rests.change();
        shift.changes = rests.changes;
        self.changed.notify_all();
        !leaves
    }

    /// How many changes there were, and how often a worker that isn't resting then looks before it rests: once where all
    /// others rest.
    pub fn look<R: Wait>(&self, rt: &R) -> (u64, u32)
        ensures looks { (result.1 ≡ 1) ⊎ (result.1 ≡ 1000) }
    {
        let rests = self.rests.lock(rt);
        let others = rests.resting.saturating_add(1) < rests.present;
        (rests.changes, if others { MOST_LOOKS } else { 1 })
    }

    /// The worker rests, where there were so many changes before it saw that none of its players can go on, until there
    /// are more, all workers rest, or all are to leave. The answer is whether it leaves.
    pub fn rest<R: Wait>(&self, rt: &R, changes: u64) -> bool {
        if self.gives_way(rt) {
            return false;
        }
        let mut rests = self.rests.lock(rt);
        if rests.over || rests.changes != changes {
            return rests.over;
        }
        rests.resting = rests.resting.saturating_add(1);
        if !rests.lasts(changes) {
            self.changed.notify_all();
            return true;
        }
        let rests = self
            .changed
            .wait_while(rt, rests, |rests| rests.lasts(changes));
        rests.over || rests.changes == changes
    }

    // Gives way where a worker hasn't begun, a few times: where a thread can't be had, nobody waits for it.
    fn gives_way<R: Wait>(&self, rt: &R) -> bool {
        let gives = {
            let mut rests = self.rests.lock(rt);
            rests.yields = rests.yields.saturating_add(1);
            rests.begun < self.workers && rests.yields <= MOST_YIELDS
        };
        if gives {
            yield_now();
        }
        gives
    }

    /// The worker leaves the crew.
    pub fn leave<R: Wait>(&self, rt: &R, shift: Shift) {
        let mut rests = self.rests.lock(rt);
        rests.present = rests.present.saturating_sub(1);
        rests.resting = rests.resting.min(rests.present);
        if shift.is_busy() {
            rests.busy = rests.busy.saturating_add(1);
        }
        self.changed.notify_all();
    }

    /// Whether several workers were busy: they had many rounds that recorded something, and several between two waits.
    pub fn has_paid<R: Wait>(&self, rt: &R) -> bool {
        self.rests.lock(rt).busy > 1
    }

    /// Whether one waited for others most of the time, so that all left.
    pub fn has_waited<R: Wait>(&self, rt: &R) -> bool {
        self.rests.lock(rt).waited
    }
}
