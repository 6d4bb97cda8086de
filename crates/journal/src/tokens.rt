// What callers and actors hold: passes and books.
ghost use Rattle.std.specs.Prelude.{◌≡◌, ◌+◌, ◌<◌, ◌≤◌, slice_index, max, filter, not, length, vec_len, vec_capacity, false, OnOk, OnErr};
ghost use Rattle.std.specs.Prelude.{ℕ, List};
ghost use Rattle.net_base.specs.declared.noted.Noted.{Noted};
ghost use Rattle.net_base.specs.declared.noted.Number.{Number};
ghost use Rattle.net_base.specs.declared.noted.Number.TheVariants.{Caller};
ghost use Rattle.net_base.specs.Stamped.{matches, clock};
ghost use Rattle.journal.specs.Rule.{Timely, same_number};
ghost use Rattle.journal.specs.Tokens.{noted_work, MayBeRecorded, RecordedInBook, Looked, LookedWith, HoldsPass, HoldsAll, Met};

use crate::law::{Naming, View};
use crate::word::{Journal, Token};
use atomic_table::Badge;
use net_base::{ActorName, Entry, Noted, Number, Work};
use std::alloc::AllocError;
use std::collections::LinkedList;
use std::marker::{Brand, Model, PhantomData};
use std::mem;

/// An entry with its stamp.
#[derive(Debug, Drop)]
pub struct Stamped {
    pub stamp: u64,
    pub entry: Entry,
}

/// What contracts see of a pass. No value of it is made.
pub struct Sight {
    pub seen: LinkedList<Noted>,
    pub held: LinkedList<(Number, LinkedList<(u64, Noted)>)>,
}

/// What contracts see of a book. No value of it is made.
pub struct Volume {
    pub actor: ActorName,
    pub number: u32,
    pub seen: LinkedList<Noted>,
    pub list: LinkedList<(u64, Noted)>,
    pub room: usize,
}

/// What some callers hold: their numbers, and the beginning of the history that they have seen.
#[derive(Drop)]
pub struct Pass<J: Naming> {
    pub(crate) seat: Token,
    pub(crate) counts: [u32; 37],
    pub(crate) of: PhantomData<J>,
}

impl<J: Naming> Model for Pass<J> {
    ghost use Rattle.journal.specs.declared.tokens.Sight.{Sight};
    ghost use Rattle.journal.specs.Tokens.{sight, IsPass};

    ghost Value = { Sight };

    ghost view = { λ p. sight p.seat.me.0 };

    ghost invariant = { λ p. IsPass J.run.table p.seat p.counts };
}

/// What an actor holds: its entries with their stamps.
#[derive(Drop)]
pub struct Book<J: Naming> {
    pub(crate) badge: Badge<View>,
    pub(crate) actor: ActorName,
    pub(crate) number: u32,
    pub(crate) entries: Vec<Stamped>,
    pub(crate) of: PhantomData<J>,
}

impl<J: Naming> Model for Book<J> {
    ghost use Rattle.std.specs.Prelude.{◌-◌, vec_len, vec_capacity};
    ghost use Rattle.journal.specs.declared.tokens.Volume.{Volume};
    ghost use Rattle.journal.specs.Tokens.{volume, IsBook};

    ghost Value = { Volume };

    ghost view = { λ b. volume b.actor b.number b.badge.views (vec_capacity b.entries - vec_len b.entries) };

    ghost invariant = { λ b. IsBook J.run.table b.actor b.number b.badge b.entries.items };
}

impl<J: Naming> Book<J> {
    /// Which actor.
    pub fn actor(&self) -> ActorName
        ensures { result ≡ self.now.actor }
    {
        self.actor
    }

    /// The actor's place in the list of actors.
    pub fn number(&self) -> u32
        ensures value { result ≡ self.now.number }
        ensures few { result < 2147483648 }
    {
        self.number
    }

    /// Room for one entry more.
    pub fn reserve(&mut self) -> Result<(), AllocError>
        ensures same { (self.new.actor ≡ self.old.actor) × (self.new.number ≡ self.old.number)
            × (self.new.seen ≡ self.old.seen) × (self.new.list ≡ self.old.list) }
        ensures room { OnOk result (0 < self.new.room) }
        ensures err { OnErr result (self.old.room < 1) }
        ensures short { length self.new.list ≤ 4849664 }
    {
        self.entries.reserve(1)
    }
}

impl<J: Naming> Journal<J> {
    // The book joins the pass, the entry is recorded, and the actor goes back to the book.
    fn put(&self, book: &mut Book<J>, pass: &mut Pass<J>, entry: Entry, work: &Work) -> u64
        requires room { 0 < book.old.room }
        requires may { MayBeRecorded pass.old book.old (noted_work entry work.now) }
        requires timely { Timely J.run.roster pass.old.held (noted_work entry work.now) }
        ensures { RecordedInBook J.run.roster book.old pass.old (noted_work entry work.now) result book.new pass.new }
    {
        let caller = entry.caller as usize;
        let badge = mem::replace(&mut book.badge, Badge::blank());
        self.take_in(&mut pass.seat, badge.into_seat());
        let stamp = self.add::<Brand>(&mut pass.seat, &entry, work);
        let seat = self.hand::<Brand>(&mut pass.seat, Number::Actor(book.actor));
        book.badge = seat.into_badge();
        book.entries.push_reserved(Stamped { stamp, entry });
        pass.counts[caller] += 1;
        stamp
    }

    /// Records an entry at an actor that isn't the clock.
    pub fn record(&self, book: &mut Book<J>, pass: &mut Pass<J>, entry: Entry, work: &Work) -> u64
        requires room { 0 < book.old.room }
        requires may { MayBeRecorded pass.old book.old (noted_work entry work.now) }
        requires actor { matches clock (noted_work entry work.now) ≡ false }
        ensures { RecordedInBook J.run.roster book.old pass.old (noted_work entry work.now) result book.new pass.new }
    {
        self.put(book, pass, entry, work)
    }

    /// Records an entry by a pass that holds every caller's number. It may be the clock's.
    pub fn record_clock(
        &self,
        book: &mut Book<J>,
        pass: &mut Pass<J>,
        entry: Entry,
        work: &Work,
    ) -> u64
        requires room { 0 < book.old.room }
        requires may { MayBeRecorded pass.old book.old (noted_work entry work.now) }
        requires all { HoldsAll J.run.roster pass.old }
        ensures { RecordedInBook J.run.roster book.old pass.old (noted_work entry work.now) result book.new pass.new }
    {
        self.put(book, pass, entry, work)
    }

    /// The length of the history, all of which the pass has then seen.
    pub fn look(&self, pass: &mut Pass<J>) -> u64
        ensures { Looked J.run.roster pass.old result pass.new }
    {
        self.watch(&mut pass.seat)
    }

    /// Looks while the book is at hand: its list is all of its actor at that front.
    pub fn look_with(&self, book: &mut Book<J>, pass: &mut Pass<J>) -> u64
        ensures { LookedWith J.run.roster book.old pass.old result book.new pass.new }
    {
        let badge = mem::replace(&mut book.badge, Badge::blank());
        self.take_in(&mut pass.seat, badge.into_seat());
        let front = self.watch(&mut pass.seat);
        let seat = self.hand::<Brand>(&mut pass.seat, Number::Actor(book.actor));
        book.badge = seat.into_badge();
        front
    }

    /// A new pass with this caller's number, which the pass then has no more.
    pub fn split_pass(&self, pass: &mut Pass<J>, caller: u32) -> Pass<J>
        requires { (es : List (ℕ × Noted)) × HoldsPass pass.old caller es }
        ensures kept { (pass.new.seen ≡ pass.old.seen)
            × (pass.new.held ≡ filter (λ h. not (same_number h.0 (Caller caller))) pass.old.held) }
        ensures given { (result.seen ≡ pass.old.seen)
            × (result.held ≡ filter (λ h. same_number h.0 (Caller caller)) pass.old.held) }
    {
        let place = caller as usize;
        let seat = self.hand::<Brand>(&mut pass.seat, Number::Caller(caller));
        let mut counts = [0; 37];
        counts[place] = pass.counts[place];
        pass.counts[place] = 0;
        Pass {
            seat,
            counts,
            of: PhantomData,
        }
    }

    /// Takes the other pass in, with its numbers and all that it had seen.
    pub fn meet(&self, pass: &mut Pass<J>, other: Pass<J>)
        ensures { Met J.run.roster pass.old other pass.new }
    {
        let Pass {
            seat,
            counts,
            of: _,
        } = other;
        self.take_in(&mut pass.seat, seat);
        self.watch(&mut pass.seat);
        pass.counts = greater(&pass.counts, &counts);
    }
}

// At each place the greater of two counts.
fn greater(a: &[u32; 37], b: &[u32; 37]) -> [u32; 37]
    ensures length { length result ≡ 37 }
    ensures each { (i : ℕ) → i < 37 → slice_index result i ≡ max (slice_index a.now i) (slice_index b.now i) }
{
    let mut all = [0; 37];
    for i in 0..37 {
        all[i] = a[i].max(b[i]);
    }
    all
}

impl<J: Naming> Pass<J> {
    /// How many entries the caller may still record.
    pub fn room(&self, caller: u32) -> u64
        requires { (es : List (ℕ × Noted)) × HoldsPass self.now caller es }
        ensures { (es : List (ℕ × Noted)) → HoldsPass self.now caller es → result + length es ≡ 131072 }
    {
        131072 - u64::from(self.counts[caller as usize])
    }
}
