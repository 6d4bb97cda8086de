//! Texts: lists of bytes, and lists of those.
ghost use Rattle.std.specs.Prelude.{◌≡◌, ◌<◌, ◌∷◌, ◌++◌, ◌+◌, ◌≤◌, List, [], length, vec_len, vec_capacity, IfOk, OnOk, OnErr, nat_eq};
ghost use Rattle.std.specs.Cmp.Lexicographic.{pointwise};
ghost use Rattle.std.specs.Cmp.Rules.{comparing};
ghost use Rattle.std.proofs.Common.{rules};

use crate::sequence::Sequence;
use std::alloc::{AllocError, Global};
use std::marker::Model;

/// Texts in order, which contracts see as a list of lists of bytes.
pub type Lines = Sequence<Octets>;

impl Sequence<Octets> {
    /// Adds a copy of these bytes at the end.
    pub fn add(&mut self, bytes: &[u8]) -> Result<(), AllocError>
        ensures ok { OnOk result (self.new ≡ self.old ++ bytes.now ∷ []) }
        ensures err { OnErr result (self.new ≡ self.old) }
    {
        let text = Octets::from_slice(self.allocator(), bytes)?;
        self.push(text)
    }
}

// Up to this many bytes are added one by one.
const MOST_BY_ONE: usize = 16;

/// Bytes, which contracts see as a list.
#[derive(Debug, Drop)]
pub struct Octets {
    bytes: Vec<u8>,
}

// Adds a few bytes, for which there is room. It costs less than a call that copies them.
#[inline(always)]
fn append_few(to: &mut Vec<u8>, bytes: &[u8])
    requires room { vec_len to.old + length bytes.now ≤ vec_capacity to.old }
    ensures { to.new.items ≡ to.old.items ++ bytes.now }
{
    for byte in bytes {
        to.push_reserved(*byte);
    }
}

impl Model for Octets {
    ghost use Rattle.std.specs.Prelude.{ℕ, List};

    ghost Value = { List ℕ };

    ghost view = { λ o. o.bytes.items };
}

impl Octets {
    /// No bytes, which takes no memory yet.
    pub fn new(alloc: Global) -> Octets
        ensures { result ≡ [] }
    {
        Octets {
            bytes: Vec::new(alloc),
        }
    }

    /// These bytes. It takes no memory.
    pub fn from_vec(bytes: Vec<u8>) -> Octets
        ensures { result ≡ bytes.items }
    {
        Octets { bytes }
    }

    /// Its bytes. It takes no memory.
    pub fn into_vec(self) -> Vec<u8>
        ensures { result.items ≡ self }
    {
        let Octets { bytes } = self;
        bytes
    }

    /// A copy of these bytes.
    pub fn from_slice(alloc: Global, bytes: &[u8]) -> Result<Octets, AllocError>
        ensures { IfOk result (λ o. o ≡ bytes.now) }
    {
        Ok(Octets {
            bytes: Vec::from_slice(alloc, bytes)?,
        })
    }

    /// A copy of these bytes. Where there are none it takes no memory.
    pub fn copy_of(alloc: Global, bytes: &[u8]) -> Result<Octets, AllocError>
        ensures ok { IfOk result (λ o. o ≡ bytes.now) }
        ensures memory { OnErr result (0 < length bytes.now) }
    {
        if bytes.is_empty() {
            return Ok(Octets::new(alloc));
        }
        Octets::from_slice(alloc, bytes)
    }

    /// Its bytes, lent.
    pub fn as_slice(&self) -> &[u8]
        ensures { result.now ≡ self.now }
    {
        self.bytes.as_slice()
    }

    /// How many bytes there are.
    pub fn len(&self) -> usize
        ensures { result ≡ length self.now }
    {
        self.bytes.len()
    }

    /// Adds a byte at the end.
    #[inline(always)]
    pub fn push(&mut self, byte: u8) -> Result<(), AllocError>
        ensures ok { OnOk result (self.new ≡ self.old ++ byte ∷ []) }
        ensures err { OnErr result (self.new ≡ self.old) }
    {
        if self.bytes.len() < self.bytes.capacity() {
            self.bytes.push_reserved(byte);
            return Ok(());
        }
        self.bytes.push(byte)?;
        Ok(())
    }

    /// Adds bytes at the end.
    #[inline(always)]
    pub fn append(&mut self, bytes: &[u8]) -> Result<(), AllocError>
        ensures ok { OnOk result (self.new ≡ self.old ++ bytes.now) }
        ensures err { OnErr result (self.new ≡ self.old) }
    {
        if bytes.len() <= MOST_BY_ONE && bytes.len() <= self.bytes.capacity() - self.bytes.len() {
            append_few(&mut self.bytes, bytes);
            return Ok(());
        }
        self.bytes.extend_from_slice(bytes)
    }
}

impl Clone for Octets {
    ghost is_clone = { λ o copy. copy ≡ o };

    fn clone(&self) -> Result<Octets, AllocError> {
        Ok(Octets {
            bytes: self.bytes.clone()?,
        })
    }
}

impl PartialEq for Octets {
    ghost eq = { pointwise nat_eq };

    ghost laws = { Prim.search (comparing, rules) };

    fn eq(&self, other: &Octets) -> bool {
        self.bytes == other.bytes
    }
}

impl Eq for Octets {
    ghost laws = { Prim.search (comparing, rules) };
}
