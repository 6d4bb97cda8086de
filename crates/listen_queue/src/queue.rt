//! A queue of calls.
ghost use Rattle.std.specs.Prelude.{◌≡◌, ◌<◌, ◌≤◌, ◌↔◌, [], ◌∷◌, ◌++◌, drop, length, slice_get, IsOk, OnOk, IfOk, IfErr};

use circular_buffer::HeapCircularBuffer;
use net_base::{Call, CallList, Sequence};
use std::alloc::{AllocError, Global};
use std::marker::Model;

/// How many calls may wait at a listener.
pub const MOST_CALLS: usize = 10;

/// The calls that wait at a listener. Clauses see the list, oldest first.
#[derive(Drop)]
pub struct CallQueue {
    calls: HeapCircularBuffer<Call>,
}

impl Model for CallQueue {
    ghost use Rattle.std.specs.Prelude.{◌≡◌, List};
    ghost use Rattle.net_base.specs.declared.actor.Call.{Call as AnyCall};

    ghost Value = { List AnyCall };

    ghost view = { λ q. q.calls.items };

    ghost invariant = { λ q. q.calls.capacity ≡ 10 };
}

impl CallQueue {
    /// No calls, with room for as many as may wait.
    pub fn new(alloc: Global) -> Result<CallQueue, AllocError>
        ensures { IfOk result (λ q. q ≡ []) }
    {
        Ok(CallQueue {
            calls: HeapCircularBuffer::with_capacity(alloc, MOST_CALLS)?,
        })
    }

    /// How many calls wait.
    pub fn len(&self) -> usize
        ensures len { result ≡ length self.now }
        ensures within { result ≤ 10 }
    {
        self.calls.len()
    }

    /// The oldest call.
    pub fn first(&self) -> Option<Call>
        ensures { result ≡ slice_get self.now 0 }
    {
        self.calls.front().copied()
    }

    /// Lets a call wait, or hands it back where 10 wait.
    pub fn queue(&mut self, call: Call) -> Result<(), Call>
        ensures room { IsOk result ↔ (length self.old < 10) }
        ensures ok { OnOk result (self.new ≡ self.old ++ call ∷ []) }
        ensures full { IfErr result (λ back. (back ≡ call) × (self.new ≡ self.old)) }
    {
        self.calls.try_push_back(call)
    }

    /// Takes the oldest call.
    pub fn take(&mut self) -> Option<Call>
        ensures value { result ≡ slice_get self.old 0 }
        ensures rest { self.new ≡ drop 1 self.old }
    {
        self.calls.pop_front()
    }

    /// Sends all calls away.
    pub fn clear(&mut self)
        ensures { self.new ≡ [] }
    {
        self.calls.clear();
    }

    /// The calls, oldest first, as a list of its own.
    pub fn list(&self, alloc: Global) -> Result<CallList, AllocError>
        ensures { IfOk result (λ calls. calls ≡ self.now) }
    {
        Ok(Sequence::from_vec(self.calls.to_vec(alloc)?))
    }
}
