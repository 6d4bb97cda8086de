//! How a run stands, and where the clock moves.
ghost use Rattle.std.specs.Prelude.{◌≡◌, ◌<◌, IfOk, false, length, option_to_list, Some, slice_get};
ghost use Rattle.std.specs.List.{list_any};
ghost use Rattle.net_base.specs.declared.world.World.{World as AnyWorld};
ghost use Rattle.net_base.specs.declared.world.Script.{Script as AnyScript};
ghost use Rattle.net_base.specs.Calm as calm;
ghost use Rattle.net_base.specs.Net.{after};
ghost use Rattle.net_base.specs.Next.{finished_by, is_unfinished, own_replies, zone_of};
ghost use Rattle.net_base.specs.Summary.{answered_by, answered_steps, end_word};
ghost use Rattle.transcript.specs.RunStatus.{run_end_word};
ghost use Rattle.plain_runner.specs.Waiting.{awaited_moments, could_go, due_moments};
ghost use Rattle.plain_runner.specs.Tracks.{Tracks};
ghost use Rattle.plain_runner.specs.Turns.{asks_of};

use crate::caller::Role;
use crate::runner::Runner;
use crate::turn::Turn;
use duties::Due;
use net_base::{Event, RunEnd, World};
use std::alloc::AllocError;

impl<'a> Runner<'a> {
    /// How the run has ended, if it has.
    pub fn end(&self, world: &World) -> Option<RunEnd>
        requires { Tracks world.now self.now }
        ensures { run_end_word result ≡ end_word world.now (after world.now self.now.history.entries) }
    {
        if self.goes_on() {
            return self.busy_end();
        }
        if !self.is_unfinished(world) {
            return Some(RunEnd::Done);
        }
        if self.moment == world.end {
            return Some(RunEnd::Stopped);
        }
        if self.is_full(world.scripts.len() + world.media.len()) {
            return Some(RunEnd::Limit);
        }
        None
    }

    /// Whether the clock may move: nobody could record, a step of some script isn't finished, and the end moment isn't reached.
    pub fn is_movable(&self, world: &World) -> bool
        requires { Tracks world.now self.now }
        ensures { result ≡ calm.movable world.now (after world.now self.now.history.entries) }
    {
        if self.goes_on() {
            return false;
        }
        if !self.is_unfinished(world) {
            return false;
        }
        self.moment < world.end
    }

    // How a run ends where a caller owes a duty or its next event is ready.
    fn busy_end(&self) -> Option<RunEnd>
        ensures { (w : AnyWorld) → Tracks w self.now → calm.calm w (after w self.now.history.entries) ≡ false
            → run_end_word result ≡ end_word w (after w self.now.history.entries) }
    {
        for caller in 0..self.callers.len() {
            if self.is_full(caller) && self.could(caller) {
                return Some(RunEnd::Limit);
            }
        }
        None
    }

    // Whether a caller owes a duty, or its next event is ready.
    fn could(&self, caller: usize) -> bool
        requires { caller < length self.now.callers.items }
        ensures { (w : AnyWorld) → Tracks w self.now → result ≡ could_go w self.now.history.entries caller }
    {
        !self.callers[caller].owed.is_empty() || self.may_turn(caller)
    }

    // Whether some caller could record.
    fn goes_on(&self) -> bool
        ensures { (w : AnyWorld) → Tracks w self.now
            → result ≡ list_any (could_go w self.now.history.entries) (calm.callers w) }
    {
        for caller in 0..self.callers.len() {
            if self.could(caller) {
                return true;
            }
        }
        false
    }

    // Whether a step of some script isn't finished.
    fn is_unfinished(&self, world: &World) -> bool
        requires { Tracks world.now self.now }
        ensures { result ≡ calm.unfinished world.now (after world.now self.now.history.entries) }
    {
        for caller in 0..world.scripts.len() {
            if self.has_left(caller) {
                return true;
            }
        }
        false
    }

    /// Returns whether a step of a script is unfinished.
    pub fn has_left(&self, caller: usize) -> bool
        requires { caller < length self.now.callers.items }
        ensures { (w : AnyWorld) (s : AnyScript) → Tracks w self.now → slice_get w.scripts caller ≡ Some s
            → result ≡ is_unfinished w self.now.history.entries caller s }
    {
        match &self.callers[caller].role {
            Role::Script(script, player) => player.is_unfinished(script),
            Role::Courier(_) => false,
            Role::Clock => false,
        }
    }

    // How many steps of a script are finished.
    fn finished(&self, caller: usize) -> usize
        requires { caller < length self.now.callers.items }
        ensures { (w : AnyWorld) (s : AnyScript) → Tracks w self.now → slice_get w.scripts caller ≡ Some s
            → result ≡ finished_by (zone_of w) (own_replies self.now.history.entries caller) s }
    {
        match &self.callers[caller].role {
            Role::Script(_, player) => player.finished(),
            Role::Courier(_) => 0,
            Role::Clock => 0,
        }
    }

    /// Returns how many steps of a script are answered. Its follow-up events belong to the step of its last own event.
    pub fn answered_by(&self, caller: usize) -> usize
        requires { caller < length self.now.callers.items }
        ensures { (w : AnyWorld) (s : AnyScript) → Tracks w self.now → slice_get w.scripts caller ≡ Some s
            → result ≡ answered_by w self.now.history.entries (caller, s) }
    {
        let kept = &self.callers[caller];
        if kept.owed.is_empty() {
            return self.finished(caller);
        }
        kept.before
    }

    /// Returns whether a caller has a follow-up event.
    pub fn owes(&self, caller: usize) -> bool
        requires { caller < length self.now.callers.items }
        ensures { (w : AnyWorld) → Tracks w self.now
            → result ≡ calm.owes (after w self.now.history.entries) caller }
    {
        !self.callers[caller].owed.is_empty()
    }

    /// How many steps of all scripts are answered.
    pub fn answered(&self, world: &World) -> u128
        requires { Tracks world.now self.now }
        ensures { result ≡ answered_steps world.now self.now.history.entries }
    {
        let mut answered: u128 = 0;
        for caller in 0..world.scripts.len() {
            answered += self.answered_by(caller) as u128;
        }
        answered
    }

    /// The moment to which the clock moves, in ms: the least at which a conversation is due or for which a script waits, or
    /// the end moment where that is not later.
    pub fn target(&self, world: &World) -> Result<u64, AllocError>
        requires { Tracks world.now self.now }
        ensures { IfOk result (λ moment. moment ≡ calm.target world.now (after world.now self.now.history.entries)) }
    {
        let dues = self.net.dues(self.alloc)?;
        let awaited = self.least_awaited(world.end);
        Ok(least_due(dues.as_slice(), awaited))
    }

    // The least of a moment and those for which callers wait.
    fn least_awaited(&self, last: u64) -> u64
        ensures { (w : AnyWorld) → Tracks w self.now
            → result ≡ calm.least last (awaited_moments w self.now.history.entries) }
    {
        let mut least = last;
        for caller in &self.callers {
            least = earlier(least, &caller.next);
        }
        least
    }
}

// The earlier of a moment and that for which a turn waits, if it does.
fn earlier(least: u64, turn: &Option<Turn>) -> u64
    ensures { result ≡ calm.least least (option_to_list (calm.awaited_moment (asks_of turn.now))) }
{
    let Some(turn) = turn else {
        return least;
    };
    match turn.work.event {
        Event::Until { moment } => least.min(moment),
        _ => least,
    }
}

// The least of a moment and due ones.
fn least_due(dues: &[Due], last: u64) -> u64
    ensures { result ≡ calm.least last (due_moments dues.now) }
{
    let mut least = last;
    for due in dues {
        least = least.min(due.due);
    }
    least
}
