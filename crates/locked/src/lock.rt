//! Actors behind locks.
ghost use Rattle.std.specs.Prelude.{◌≡◌, ℕ, ◌<◌, ◌^◌, List, length, false, is_some, MatchOption};
ghost use Rattle.net_base.specs.declared.noted.Noted.{Noted};
ghost use Rattle.net_base.specs.Stamped.{moment_noted};
ghost use Rattle.journal.specs.Tokens.{HoldsPass, Looked};
ghost use Rattle.locked.specs.Acts.{Acted, IsTimely, Stands, state_at};

use crate::guarded::{Answer, Asked, Guarded, View};
use crate::machine::Machine;
use journal::{Book, Journal, Naming, Pass};
use net_base::{ActorName, Event, Work, same_actor};
use outside::Gate;
use std::hint::spin_loop;
use std::sync::{Mutex, MutexGuard, Wait};

/// How often a lock that is held is looked at before its thread sleeps.
const MOST_LOOKS: u32 = 200;

/// An actor behind its lock.
#[derive(Drop)]
pub struct Locked<J: Naming, M: Machine> {
    actor: ActorName,
    number: u32,
    guarded: Mutex<Guarded<J, M>>,
    ghost few: { number < 2147483648 },
}

impl<J: Naming, M: Machine> Locked<J, M> {
    /// The actor of the book, whose machine stands for the book's entries.
    pub fn new(machine: M, book: Book<J>) -> Locked<J, M>
        requires { Stands M.begin M.answer machine book }
        ensures actor { result.actor ≡ book.actor }
        ensures number { result.number ≡ book.number }
    {
        Locked {
            actor: book.actor(),
            number: book.number(),
            guarded: Mutex::new(Guarded::new(machine, book)),
        }
    }

    /// Which actor.
    pub fn actor(&self) -> ActorName
        ensures { result ≡ self.now.actor }
    {
        self.actor
    }

    /// The actor's place in the list of actors.
    pub fn number(&self) -> u32
        ensures { result ≡ self.now.number }
    {
        self.number
    }

    /// One event at the actor, which isn't the clock, or by a pass that holds every caller's number. Two calls of the gate are
    /// made where it is recorded, inside the lock before the record and after the lock.
    pub fn act<R: Wait, G: Gate>(
        &self,
        rt: &R,
        journal: &Journal<J>,
        gate: &G,
        pass: &mut Pass<J>,
        asked: Asked<'_>,
    ) -> Answer
        requires room { (es : List (ℕ × Noted)) × HoldsPass pass.old asked.caller es × (length es < 131072) }
        requires moment { asked.now ≡ moment_noted pass.old.seen }
        requires now { asked.now < 2 ^ 63 }
        requires timely { IsTimely J.run.roster self.now.actor pass.old }
        ensures { Acted M.begin M.answer J.run.roster self.now.actor asked.entry.caller asked.entry.now
            asked.entry.work.now asked.entry.cites pass.old result pass.new }
    {
        // The copy that the entry keeps is made before the lock is taken.
        let Ok(event) = asked.work.event.clone() else {
            return Answer::Memory;
        };
        let answer = self.act_locked(rt, journal, gate, pass, asked, event);
        self.leave(gate, &answer);
        answer
    }

    // What `act` does within the lock, with the copy that the entry keeps.
    fn act_locked<R: Wait, G: Gate>(
        &self,
        rt: &R,
        journal: &Journal<J>,
        gate: &G,
        pass: &mut Pass<J>,
        asked: Asked<'_>,
        event: Event,
    ) -> Answer
        requires copy { event ≡ asked.work.now.event }
        requires room { (es : List (ℕ × Noted)) × HoldsPass pass.old asked.caller es × (length es < 131072) }
        requires moment { asked.now ≡ moment_noted pass.old.seen }
        requires now { asked.now < 2 ^ 63 }
        requires timely { IsTimely J.run.roster self.now.actor pass.old }
        ensures { Acted M.begin M.answer J.run.roster self.now.actor asked.entry.caller asked.entry.now
            asked.entry.work.now asked.entry.cites pass.old result pass.new }
    {
        let mut guard = self.take(rt);
        let guarded = &mut *guard;
        // Nothing is known of what lies behind a lock but its type, so the actor is compared here. It is always this one.
        if !same_actor(guarded.actor(), self.actor) {
            return Answer::Memory;
        }
        guarded.act(journal, gate, pass, asked, event)
    }

    // The lock. It is held for one step of the actor, so that a thread that sleeps for it mostly loses more than it waits.
    fn take<R: Wait>(&self, rt: &R) -> MutexGuard<'_, Guarded<J, M>> {
        for _ in 0..MOST_LOOKS {
            if let Some(guard) = self.guarded.try_lock() {
                return guard;
            }
            spin_loop();
        }
        self.guarded.lock(rt)
    }

    // Says to the gate that the lock is released, where an entry was recorded.
    fn leave<G: Gate>(&self, gate: &G, answer: &Answer) {
        if let Answer::Done { .. } = answer {
            gate.at(2 * self.number + 1);
        }
    }

    /// What the actor is now, for this work. No list gains an entry.
    pub fn view<R: Wait>(
        &self,
        rt: &R,
        journal: &Journal<J>,
        pass: &mut Pass<J>,
        now: u64,
        work: Option<&Work>,
    ) -> View
        ensures front { Looked J.run.roster pass.old result.front pass.new }
        ensures ready { MatchOption work.entry (result.ready ≡ false)
            (λ w. result.ready
            ≡ is_some (M.answer (state_at M.begin M.answer self.now.actor pass.new.seen) now w.now)) }
        ensures due { result.due ≡ M.due_of (state_at M.begin M.answer self.now.actor pass.new.seen) }
        ensures generation { result.generation
            ≡ M.generation_of (state_at M.begin M.answer self.now.actor pass.new.seen) }
    {
        // The first round ends it, since the lock has this actor.
        for _ in rt.forever() {
            let mut guard = self.take(rt);
            let guarded = &mut *guard;
            if same_actor(guarded.actor(), self.actor) {
                return guarded.view(journal, pass, now, work);
            }
        }
        unreachable!()
    }

    /// The machine and its book. It waits for nobody.
    pub fn into_parts(self) -> (M, Book<J>)
        ensures { Stands M.begin M.answer result.0 result.1 }
    {
        let Locked {
            actor: _,
            number: _,
            guarded,
        } = self;
        guarded.into_inner().into_parts()
    }
}
