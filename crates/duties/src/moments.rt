//! When conversations are due, in the order of these.
ghost use Rattle.std.specs.Prelude.{◌≡◌, ◌+◌, ◌<◌, ◌≤◌, ◌++◌, ◌∷◌, ◌==◌, [], length, take, drop, slice_get, OnErr, OnOk};
ghost use Rattle.duties.specs.Places as spec;
ghost use Rattle.duties.specs.Places.{Moments, before, is_due_at, due_place, put_at, HoldsPut};

use crate::Due;
use net_base::Proto;
use std::alloc::{AllocError, Global};
use std::marker::Model;

/// The conversations that are due, in the order of host, protocol and slot, each with its generation and the moment.
/// Clauses see these, and for how many more there is room.
#[derive(Debug, Drop)]
pub struct DueMoments {
    dues: Vec<Due>,
}

impl Model for DueMoments {
    ghost use Rattle.std.specs.Prelude.{◌-◌, vec_capacity, vec_len};
    ghost use Rattle.duties.specs.Places.{Moments};

    ghost Value = { Moments };

    ghost view = { λ m. record { list = m.dues.items; room = vec_capacity m.dues - vec_len m.dues } };
}

impl DueMoments {
    /// Nothing is due. It takes no memory yet.
    pub fn new(alloc: Global) -> DueMoments
        ensures { result.list ≡ [] }
    {
        DueMoments {
            dues: Vec::new(alloc),
        }
    }

    /// Those that are due, in their order.
    pub fn as_slice(&self) -> &[Due]
        ensures { result.now ≡ self.now.list }
    {
        self.dues.as_slice()
    }

    /// Makes room for so many more.
    pub fn reserve(&mut self, count: usize) -> Result<(), AllocError>
        ensures list { self.new.list ≡ self.old.list }
        ensures ok { OnOk result (count ≤ self.new.room) }
        ensures err { OnErr result (self.old.room < count) }
    {
        self.dues.reserve(count)
    }

    /// A conversation is due then, or not at all. It takes no memory.
    pub fn put(&mut self, host: u32, proto: Proto, slot: u32, due: Option<Due>)
        requires { 0 < self.old.room }
        ensures list { self.new.list ≡ put_at (spec.conversation_place host proto slot) due self.old.list }
        ensures room { self.old.room ≤ self.new.room + 1 }
    {
        let from = self.clear(place(host, proto, slot));
        if let Some(due) = due {
            self.insert(from, due);
        }
    }

    // Nothing is due at this place. The answer is where it would stand.
    fn clear(&mut self, place: u64) -> usize
        ensures within { result ≤ length self.new.list }
        ensures list { HoldsPut place result self.old.list self.new.list }
        ensures room { self.old.room ≤ self.new.room }
    {
        let from = before(self.dues.as_slice(), place);
        if is_at(self.dues.as_slice(), from, place) {
            self.dues.remove(from);
            return from;
        }
        from
    }

    fn insert(&mut self, from: usize, due: Due)
        requires room { 0 < self.old.room }
        requires within { from ≤ length self.old.list }
        ensures list { self.new.list ≡ take from self.old.list ++ due ∷ drop from self.old.list }
        ensures room { self.old.room ≤ self.new.room + 1 }
    {
        let _ = self.dues.insert(from, due);
    }
}

// The number of a conversation in the order of all.
fn place(host: u32, proto: Proto, slot: u32) -> u64
    ensures value { result ≡ spec.conversation_place host proto slot }
{
    let rank = match proto {
        Proto::Il => 0,
        Proto::Udp => 1,
    };
    64 * u64::from(host) + (32 * rank + u64::from(slot))
}

fn place_of(due: &Due) -> u64
    ensures { result ≡ due_place due.now }
{
    place(due.host, due.proto, due.slot)
}

// How many come before this place.
fn before(dues: &[Due], place: u64) -> usize
    ensures { result ≡ before place dues.now }
{
    let mut count = 0;
    while count < dues.len() {
        if place_of(&dues[count]) >= place {
            return count;
        }
        count += 1;
    }
    count
}

// Whether the due moment with this number is the one of the place.
fn is_at(dues: &[Due], number: usize, place: u64) -> bool
    ensures { result ≡ is_due_at place (slice_get dues.now number) }
{
    match dues.get(number) {
        Some(due) => place_of(due) == place,
        None => false,
    }
}
