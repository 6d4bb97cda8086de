//! What a caller owes, in order.
ghost use Rattle.std.specs.Prelude.{◌≡◌, ◌+◌, ◌<◌, ◌≤◌, ◌==◌, [], ◌∷◌, drop, length, option_copied, slice_get, OnErr, OnOk};
ghost use Rattle.net_base.specs.Duties.{one_duty};
ghost use Rattle.duties.specs.Queue.{AddsDuty};

use crate::duty::Duty;
use net_base::{ActorName, Event, With, Work};
use std::alloc::{AllocError, Global};
use std::collections::VecDeque;
use std::marker::Model;

/// What a caller owes, the first to record first. Clauses see the list, and for how many more there is room.
#[derive(Debug, Drop)]
pub struct Duties {
    queue: VecDeque<Duty>,
}

impl Model for Duties {
    ghost use Rattle.std.specs.Prelude.{◌-◌};
    ghost use Rattle.std.specs.VecDeque.{deque_capacity, deque_len};
    ghost use Rattle.duties.specs.Queue.{Queue};

    ghost Value = { Queue };

    ghost view = { λ d. record { list = d.queue.items; room = deque_capacity d.queue - deque_len d.queue } };
}

impl Duties {
    /// Nothing is owed. It takes no memory yet.
    pub fn new(alloc: Global) -> Duties
        ensures { result.list ≡ [] }
    {
        Duties {
            queue: VecDeque::new(alloc),
        }
    }

    /// What must be recorded next.
    pub fn first(&self) -> Option<&Duty>
        ensures { option_copied result ≡ slice_get self.now.list 0 }
    {
        self.queue.front()
    }

    /// Takes the first duty, which leaves room for another.
    pub fn pop(&mut self) -> Option<Duty>
        ensures value { result ≡ slice_get self.old.list 0 }
        ensures rest { self.new.list ≡ drop 1 self.old.list }
        ensures room { self.old.room ≤ self.new.room }
    {
        self.queue.pop_front()
    }

    /// Whether nothing is owed.
    pub fn is_empty(&self) -> bool
        ensures { result ≡ (length self.now.list == 0) }
    {
        self.queue.is_empty()
    }

    /// How much is owed.
    pub fn len(&self) -> usize
        ensures { result ≡ length self.now.list }
    {
        self.queue.len()
    }

    /// Makes room for so many duties more.
    pub fn reserve(&mut self, count: usize) -> Result<(), AllocError>
        ensures list { self.new.list ≡ self.old.list }
        ensures kept { self.old.room ≤ self.new.room }
        ensures ok { OnOk result (count ≤ self.new.room) }
        ensures err { OnErr result (self.old.room < count) }
    {
        self.queue.reserve(count)
    }

    /// A duty is owed after the others. It takes no memory.
    pub fn push(&mut self, duty: Duty)
        requires { 0 < self.old.room }
        ensures list { AddsDuty self.old self.new (duty ∷ []) }
        ensures room { self.new.room + 1 ≡ self.old.room }
    {
        self.queue.push_back_reserved(duty);
    }
    /// An event is owed at an actor after the others. It takes no memory.
    pub fn owe(&mut self, cites: u64, actor: ActorName, event: Event, with: With)
        requires { 0 < self.old.room }
        ensures list { AddsDuty self.old self.new (one_duty cites actor event with) }
        ensures room { self.new.room + 1 ≡ self.old.room }
    {
        self.push(Duty {
            actor,
            work: Work { event, with },
            cites,
        });
    }
}
