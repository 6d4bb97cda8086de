//! The messages that wait to be read.
ghost use Rattle.std.specs.Prelude.{◌≡◌, ◌==◌, ◌<◌, ◌≤◌, ◌↔◌, [], ◌∷◌, ◌++◌, length, IsOk, OnOk, OnErr, IfOk, IfErr};
ghost use Rattle.il_queues.specs.Reading.{bytes_read, after_read, first_bytes, unread_of};

use circular_buffer::HeapCircularBuffer;
use net_base::Octets;
use std::alloc::{AllocError, Global};
use std::marker::Model;

/// How many messages an end may have unread.
pub const MOST_UNREAD: usize = 64;

/// The unread messages of an end. Clauses see their texts, oldest first, and how many bytes of the first were read.
#[derive(Drop)]
pub struct Unread {
    texts: HeapCircularBuffer<Octets>,
    cut: usize,
}

impl Model for Unread {
    ghost use Rattle.std.specs.Prelude.{◌≡◌};
    ghost use Rattle.il_queues.specs.Reading.{Waiting, IsCut};

    ghost Value = { Waiting };

    ghost view = { λ u. record { texts = u.texts.items; offset = u.cut } };

    ghost invariant = { λ u. (u.texts.capacity ≡ 64) × IsCut u.cut u.texts.items };
}

impl Unread {
    /// No messages, with room for as many as there may be.
    pub fn new(alloc: Global) -> Result<Unread, AllocError>
        ensures { IfOk result (λ u. u ≡ record { texts = []; offset = 0 }) }
    {
        Ok(Unread {
            texts: HeapCircularBuffer::with_capacity(alloc, MOST_UNREAD)?,
            cut: 0,
        })
    }

    /// How many messages there are, one that was read in part included.
    pub fn len(&self) -> usize
        ensures len { result ≡ length self.now.texts }
        ensures within { result ≤ 64 }
    {
        self.texts.len()
    }

    /// Whether no message waits.
    pub fn is_empty(&self) -> bool
        ensures { result ≡ (length self.now.texts == 0) }
    {
        self.texts.is_empty()
    }

    /// Appends a message, or hands it back where 64 stand.
    pub fn push(&mut self, text: Octets) -> Result<(), Octets>
        ensures room { IsOk result ↔ (length self.old.texts < 64) }
        ensures ok { OnOk result (self.new ≡ record self.old { texts = self.old.texts ++ text ∷ [] }) }
        ensures full { IfErr result (λ back. (back ≡ text) × (self.new ≡ self.old)) }
    {
        self.texts.try_push_back(text)
    }

    /// Reads the first bytes of the first message and keeps the rest of it.
    pub fn read(&mut self, count: usize) -> Result<Option<Octets>, AllocError>
        requires { 0 < count }
        ensures value { IfOk result (λ text. text ≡ bytes_read count (unread_of self.old)) }
        ensures rest { OnOk result (self.new ≡ after_read count self.old) }
        ensures err { OnErr result (self.new ≡ self.old) }
        ensures memory { OnErr result (0 < length self.old.texts) }
    {
        let Some(first) = self.texts.front() else {
            return Ok(None);
        };
        if self.cut == 0 && first.len() <= count {
            // a message that is read whole isn't copied
            return Ok(self.texts.pop_front());
        }
        let left = first.len() - self.cut;
        let text = Octets::from_slice(*self.texts.allocator(), self.peek(count))?;
        if count < left {
            self.cut += count;
            Ok(Some(text))
        } else {
            self.texts.pop_front();
            self.cut = 0;
            Ok(Some(text))
        }
    }

    /// The bytes that such a read would give.
    pub fn peek(&self, count: usize) -> &[u8]
        ensures { result.now ≡ first_bytes count (unread_of self.now) }
    {
        match self.texts.front() {
            Some(first) => {
                let left = &first.as_slice()[self.cut..];
                &left[..count.min(left.len())]
            }
            None => &[],
        }
    }
}
