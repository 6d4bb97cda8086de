//! What a lock guards: a machine beside the book that says how its state came about.
ghost use Rattle.std.specs.Prelude.{◌≡◌, ℕ, ◌<◌, ◌^◌, List, length, false, Some, is_some, MatchOption};
ghost use Rattle.net_base.specs.declared.noted.Noted.{Noted};
ghost use Rattle.net_base.specs.Stamped.{moment_noted};
ghost use Rattle.journal.specs.Tokens.{HoldsPass, LookedWith, MayBeRecorded, RecordedInBook, noted_work};
ghost use Rattle.locked.specs.Acts.{Acted, IsTimely, LeavesBook, Stands, state_at, made, act_without_copy};

use crate::machine::Machine;
use journal::{Book, Journal, Naming, Pass};
use net_base::{ActorName, Entry, Event, Outcome, Work, same_actor};
use outside::Gate;
use std::alloc::AllocError;
use std::marker::Model;

/// What a call did. `Memory` leaves the pass as it was.
#[derive(Debug, Drop)]
pub enum Answer {
    Done { stamp: u64, outcome: Outcome },
    NotReady { front: u64 },
    Memory,
}

/// What a caller asks of an actor: that it does a work now, for what it cites.
#[derive(Clone, Copy)]
pub struct Asked<'a> {
    pub caller: u32,
    pub now: u64,
    pub work: &'a Work,
    pub cites: Option<u64>,
}

/// What was seen of an actor, at the front that the pass has then seen.
#[derive(Clone, Copy, Debug, PartialEq, Eq)]
pub struct View {
    pub ready: bool,
    pub due: Option<u64>,
    pub generation: u64,
    pub front: u64,
}

/// A machine whose state is that after the entries of its book. Contracts see the book.
#[derive(Drop)]
pub struct Guarded<J: Naming, M: Machine> {
    machine: M,
    book: Book<J>,
}

impl<J: Naming, M: Machine> Model for Guarded<J, M> {
    ghost use Rattle.journal.specs.declared.tokens.Volume.{Volume};
    ghost use Rattle.locked.specs.Acts.{Stands};

    ghost Value = { Volume };

    ghost view = { λ g. g.book };

    ghost invariant = { λ g. Stands M.begin M.answer g.machine g.book };
}

impl<J: Naming, M: Machine> Guarded<J, M> {
    /// A machine beside the book of its actor.
    pub fn new(machine: M, book: Book<J>) -> Guarded<J, M>
        requires { Stands M.begin M.answer machine book }
        ensures { result ≡ book }
    {
        Guarded { machine, book }
    }

    /// Which actor.
    pub fn actor(&self) -> ActorName
        ensures { result ≡ self.now.actor }
    {
        self.book.actor()
    }

    /// One event at the actor by the caller, with a copy of it that the entry keeps. The actor isn't the clock, or the pass
    /// holds every caller's number. The gate is called before the record.
    pub fn act<G: Gate>(
        &mut self,
        journal: &Journal<J>,
        gate: &G,
        pass: &mut Pass<J>,
        asked: Asked<'_>,
        event: Event,
    ) -> Answer
        requires copy { event ≡ asked.work.now.event }
        requires room { (es : List (ℕ × Noted)) × HoldsPass pass.old asked.caller es × (length es < 131072) }
        requires moment { asked.now ≡ moment_noted pass.old.seen }
        requires now { asked.now < 2 ^ 63 }
        requires timely { IsTimely J.run.roster self.old.actor pass.old }
        ensures acted { Acted M.begin M.answer J.run.roster self.old.actor asked.entry.caller asked.entry.now
            asked.entry.work.now asked.entry.cites pass.old result pass.new }
        ensures book { LeavesBook self.old.actor asked.entry.caller asked.entry.now
            asked.entry.work.now asked.entry.cites self.old result pass.new self.new }
        ensures actor { (self.new.actor ≡ self.old.actor) × (self.new.number ≡ self.old.number) }
    {
        if !self.machine.ready(asked.now, asked.work) {
            let front = journal.look_with(&mut self.book, pass);
            return Answer::NotReady { front };
        }
        if self.book.reserve().is_err() {
            return Answer::Memory;
        }
        let Ok(mut outcome) = self.machine.step(asked.now, asked.work) else {
            return Answer::Memory;
        };
        let entry = entry_of(self.book.actor(), asked, event, &mut outcome);
        gate.at(2 * self.book.number());
        let stamp = record(journal, &mut self.book, pass, entry, asked.work);
        // what the step gave is moved here once; each value that bore it on the way would be one copy more
        Answer::Done { stamp, outcome }
    }

    /// What the actor is now, for this work.
    pub fn view(
        &mut self,
        journal: &Journal<J>,
        pass: &mut Pass<J>,
        now: u64,
        work: Option<&Work>,
    ) -> View
        ensures front { LookedWith J.run.roster self.old pass.old result.front self.new pass.new }
        ensures ready { MatchOption work.entry (result.ready ≡ false)
            (λ w. result.ready ≡ is_some (M.answer (state_at M.begin M.answer self.old.actor pass.new.seen) now
            w.now)) }
        ensures due { result.due ≡ M.due_of (state_at M.begin M.answer self.old.actor pass.new.seen) }
        ensures generation { result.generation ≡ M.generation_of
            (state_at M.begin M.answer self.old.actor pass.new.seen) }
    {
        let ready = match work {
            Some(work) => self.machine.ready(now, work),
            None => false,
        };
        let due = self.machine.due();
        let generation = self.machine.generation();
        let front = journal.look_with(&mut self.book, pass);
        View {
            ready,
            due,
            generation,
            front,
        }
    }

    /// The machine and its book.
    pub fn into_parts(self) -> (M, Book<J>)
        ensures stands { Stands M.begin M.answer result.0 result.1 }
        ensures book { result.1 ≡ self }
    {
        let Guarded { machine, book } = self;
        (machine, book)
    }
}

// The entry of a step that was done, which takes the copy of the reply.
fn entry_of(actor: ActorName, asked: Asked<'_>, event: Event, outcome: &mut Outcome) -> Entry
    requires copy { event ≡ asked.work.now.event }
    requires twice { outcome.old.copy ≡ Some outcome.old.reply }
    ensures outcome { outcome.new ≡ act_without_copy outcome.old }
    ensures entry { result ≡ (made actor asked.entry.caller asked.entry.now asked.entry.work.now asked.entry.cites
        outcome.old).entry }
{
    let Some(copy) = outcome.copy.take() else {
        unreachable!()
    };
    let emits = match &outcome.emit {
        Some(packet) => Some(packet.header()),
        None => None,
    };
    Entry {
        actor,
        caller: asked.caller,
        moment: asked.now,
        event,
        cites: asked.cites,
        reply: copy,
        emits,
        ended: outcome.ended,
    }
}

// Records an entry at its actor, which isn't the clock, or by a pass that holds every caller's number.
fn record<J: Naming>(
    journal: &Journal<J>,
    book: &mut Book<J>,
    pass: &mut Pass<J>,
    entry: Entry,
    work: &Work,
) -> u64
    requires room { 0 < book.old.room }
    requires may { MayBeRecorded pass.old book.old (noted_work entry work.now) }
    requires timely { IsTimely J.run.roster entry.actor pass.old }
    ensures { RecordedInBook J.run.roster book.old pass.old (noted_work entry work.now) result book.new pass.new }
{
    if same_actor(entry.actor, ActorName::Clock) {
        journal.record_clock(book, pass, entry, work)
    } else {
        journal.record(book, pass, entry, work)
    }
}
