//! The messages that wait to be acknowledged.
ghost use Rattle.std.specs.Prelude.{◌≡◌, ◌==◌, ◌<◌, ◌≤◌, ◌↔◌, [], ◌∷◌, ◌++◌, length, drop, slice_get, IsOk, OnOk, IfOk, IfErr, IsSome, IfSome, Some};

use circular_buffer::HeapCircularBuffer;
use net_base::Octets;
use std::alloc::{AllocError, Global};
use std::marker::Model;

/// How many messages an end may have unacknowledged.
pub const MOST_UNACKED: usize = 20;

/// The unacknowledged messages of an end. Clauses see the list of their texts, oldest first.
#[derive(Drop)]
pub struct Unacked {
    texts: HeapCircularBuffer<Octets>,
}

impl Model for Unacked {
    ghost use Rattle.std.specs.Prelude.{◌≡◌, ℕ, List};

    ghost Value = { List (List ℕ) };

    ghost view = { λ u. u.texts.items };

    ghost invariant = { λ u. u.texts.capacity ≡ 20 };
}

impl Unacked {
    /// No messages, with room for as many as there may be.
    pub fn new(alloc: Global) -> Result<Unacked, AllocError>
        ensures { IfOk result (λ u. u ≡ []) }
    {
        Ok(Unacked {
            texts: HeapCircularBuffer::with_capacity(alloc, MOST_UNACKED)?,
        })
    }

    /// How many messages there are.
    pub fn len(&self) -> usize
        ensures len { result ≡ length self.now }
        ensures within { result ≤ 20 }
    {
        self.texts.len()
    }

    /// Whether no message waits.
    pub fn is_empty(&self) -> bool
        ensures { result ≡ (length self.now == 0) }
    {
        self.texts.is_empty()
    }

    /// Whether there is no room for a message.
    pub fn is_full(&self) -> bool
        ensures { result ≡ (length self.now == 20) }
    {
        self.texts.is_full()
    }

    /// Appends a message, or hands it back where 20 stand.
    pub fn push(&mut self, text: Octets) -> Result<(), Octets>
        ensures room { IsOk result ↔ (length self.old < 20) }
        ensures ok { OnOk result (self.new ≡ self.old ++ text ∷ []) }
        ensures full { IfErr result (λ back. (back ≡ text) × (self.new ≡ self.old)) }
    {
        self.texts.try_push_back(text)
    }

    /// Drops the oldest messages, which were acknowledged.
    pub fn drop_first(&mut self, n: usize)
        requires { n ≤ length self.old }
        ensures { self.new ≡ drop n self.old }
    {
        let kept = self.texts.len() - n;
        self.texts.truncate_front(kept);
    }

    /// The oldest message.
    pub fn first(&self) -> Option<&[u8]>
        ensures found { IsSome result ↔ (0 < length self.now) }
        ensures value { IfSome result (λ text. slice_get self.now 0 ≡ Some text.now) }
    {
        match self.texts.front() {
            Some(text) => Some(text.as_slice()),
            None => None,
        }
    }

    /// The message with this place, from 0 for the oldest.
    pub fn get(&self, place: usize) -> Option<&[u8]>
        ensures found { IsSome result ↔ (place < length self.now) }
        ensures value { IfSome result (λ text. slice_get self.now place ≡ Some text.now) }
    {
        match self.texts.get(place) {
            Some(text) => Some(text.as_slice()),
            None => None,
        }
    }
}
