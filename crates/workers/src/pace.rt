//! Whether the workers of a run are to play, or the caller alone.
ghost use Rattle.std.specs.Prelude.{◌≡◌, ◌≢◌, ◌<◌, ◌≤◌, ◌^◌, ◌+◌, ◌-◌, ◌↔◌, Bool, IsTrue, Some, false, if◌then◌else◌, length, min, nat_lt};
ghost use Rattle.workers.specs.Calling.{IsPaceOf, IsTime, Story, after_asking, after_call, after_round, at_a_phase, nothing_yet, rounds_after};

use std::sync::{Condvar, Mutex, Wait};
use std::thread;
use std::thread::Threads;

/// In how many rounds in a row players of several groups go on before the workers are called, at first.
const FEW_ROUNDS: u32 = 2;

/// How many calls in vain change nothing.
const FREE_CALLS: u32 = 8;

/// How often that number of rounds is doubled at most.
const MOST_DOUBLINGS: u32 = 12;

/// How a run has gone so far. The caller plays alone at first, and calls its workers where players of several groups go on
/// round after round; the more calls are in vain, the later.
///
/// Clauses speak of what the run has seen (`IsPaceOf`).
#[derive(Clone, Copy, Debug, PartialEq, Eq)]
pub struct Pace {
    // in so many rounds in a row players of several groups recorded something
    together: u32,
    // how many calls more were in vain than paid
    vain: u32,
    // whether threads can be had, once that was asked
    threads: Option<bool>,
}

impl Pace {
    /// Of a run that begins.
    pub fn new() -> Pace
        ensures { IsPaceOf nothing_yet result }
    {
        Pace {
            together: 0,
            vain: 0,
            threads: None,
        }
    }

    /// A phase begins.
    pub fn begin(&mut self)
        ensures { (s : Story) → IsPaceOf s self.old → IsPaceOf (at_a_phase s) self.new }
    {
        self.together = 0;
    }

    /// In a round by the caller alone players of so many groups recorded something. Whether the workers are to be called.
    #[tactic(auto, using(crate::proofs::Counting::round_seen, crate::proofs::Counting::time_told))]
    pub fn calls(&mut self, groups: usize) -> bool
        ensures seen { (s : Story) → IsPaceOf s self.old → IsPaceOf (after_round groups s) self.new }
        ensures answer { (s : Story) → IsPaceOf s self.old → length s.calls < 2 ^ 32
            → IsTrue result ↔ IsTime (after_round groups s) }
    {
        self.count(groups);
        self.is_time()
    }

    // A round more in a row, or none where one group alone went on.
    fn count(&mut self, groups: usize)
        ensures { self.new ≡ record self.old {
          together = if nat_lt 1 groups then min (self.old.together + 1)
              4294967295 else 0;
        } }
    {
        if groups > 1 {
            self.together = self.together.saturating_add(1);
        } else {
            self.together = 0;
        }
    }

    // Whether threads may be there, and there were enough rounds in a row.
    fn is_time(&self) -> bool
        ensures { IsTrue result ↔ ((self.now.threads ≢ Some false) × (rounds_after self.now.vain ≤ self.now.together)) }
    {
        self.threads != Some(false) && self.patience() <= self.together
    }

    #[tactic(auto, using(crate::proofs::Counting::doubled))]
    fn patience(&self) -> u32
        ensures { result ≡ rounds_after self.now.vain }
    {
        FEW_ROUNDS << self.vain.saturating_sub(FREE_CALLS).min(MOST_DOUBLINGS)
    }

    /// Whether each of so many workers but the caller has a thread. Where one can't be had none is asked for again.
    pub fn has_threads<R: Threads + Wait + Sync>(&mut self, rt: &R, workers: usize) -> bool
        ensures seen { (s : Story) → IsPaceOf s self.old → IsPaceOf (after_asking result s) self.new }
        // What was answered once is answered from then on.
        ensures once { (s : Story) (told : Bool) → IsPaceOf s self.old → s.threads ≡ Some told → result ≡ told }
    {
        if let Some(there) = self.threads {
            return there;
        }
        let there = are_there(rt, workers.saturating_sub(1));
        self.threads = Some(there);
        there
    }

    /// Whether threads were asked for and one couldn't be had.
    pub fn lacks_threads(&self) -> bool
        ensures { (s : Story) → IsPaceOf s self.now → IsTrue result ↔ (s.threads ≡ Some false) }
    {
        self.threads == Some(false)
    }

    /// The workers have played, and it paid or was in vain.
    pub fn learn(&mut self, paid: bool)
        ensures { (s : Story) → IsPaceOf s self.old → IsPaceOf (after_call paid s) self.new }
    {
        self.together = 0;
        self.vain = vain_after(self.vain, paid);
    }
}

// A call that paid makes up for one in vain.
fn vain_after(vain: u32, paid: bool) -> u32
    ensures { result ≡ if paid then vain - 1 else min (vain + 1) 4294967295 }
{
    if paid {
        vain.saturating_sub(1)
    } else {
        vain.saturating_add(1)
    }
}

// Whether so many threads can be had at once. Each that is started ends when all were asked for.
fn are_there<R: Threads + Wait + Sync>(rt: &R, threads: usize) -> bool {
    let asked = Mutex::new(false);
    let changed = Condvar::new();
    thread::scope(thread::scope_env(), rt, |scope| -> bool {
        let mut all = true;
        for _ in 0..threads {
            all = all && scope.spawn(|| stay(rt, &asked, &changed)).is_ok();
        }
        *asked.lock(rt) = true;
        changed.notify_all();
        all
    })
}

// Waits until all were asked for.
fn stay<R: Wait>(rt: &R, asked: &Mutex<bool>, changed: &Condvar) {
    changed.wait_while(rt, asked.lock(rt), |asked| !*asked);
}
