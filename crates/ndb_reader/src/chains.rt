//! Chains of entries, one for each bucket.
ghost use Rattle.std.specs.Prelude.{◌≡◌, ℕ, List, suc, ◌<◌, ◌≤◌, ◌∷◌, ◌++◌, [], length, IfOk, OnOk, OnErr};
ghost use Rattle.ndb_reader.specs.Chains.{first_in, width_of, AreChains};

use std::alloc::{AllocError, Global};

/// The entries of each bucket, 4 bytes an entry and 4 a bucket. An entry is put before those that there are.
#[derive(Drop)]
pub struct Chains {
    pub(crate) nexts: Vec<u32>,
    pub(crate) heads: Vec<u32>,
}

impl Chains {
    /// No entries, with room for so many, and so many buckets.
    pub fn new(alloc: Global, width: usize, room: usize) -> Result<Chains, AllocError>
        ensures width { IfOk result (λ chains. width_of chains ≡ width) }
        ensures chains { IfOk result (λ chains. AreChains chains []) }
    {
        Ok(Chains {
            nexts: Vec::with_capacity(alloc, room)?,
            heads: vec![in alloc; 0; width]?,
        })
    }

    /// How many buckets there are.
    pub fn width(&self) -> usize
        ensures { result ≡ width_of self.now }
    {
        self.heads.len()
    }

    /// Puts an entry with this bucket before the others.
    pub fn push(&mut self, bucket: usize) -> Result<(), AllocError>
        requires { bucket < width_of self.old }
        ensures width { width_of self.new ≡ width_of self.old }
        ensures chains { OnOk result ((buckets : List ℕ) → AreChains self.old buckets
            → AreChains self.new (bucket ∷ buckets)) }
        ensures err { OnErr result ((buckets : List ℕ) → AreChains self.old buckets → AreChains self.new buckets) }
    {
        let entry = self.nexts.len();
        if entry >= 0xffff_ffff {
            return Err(AllocError);
        }
        self.nexts.push(self.heads[bucket])?;
        self.heads[bucket] = entry as u32 + 1;
        Ok(())
    }

    /// How many entries stand from the first one of a bucket on, 0 where it has none.
    pub fn first(&self, bucket: usize) -> usize
        requires { bucket < width_of self.now }
        ensures { (buckets : List ℕ) → AreChains self.now buckets → result ≡ first_in bucket buckets }
    {
        self.heads[bucket] as usize
    }

    /// How many entries stand from the next one of the same bucket on, 0 where it has none: behind the entry from which on so many stand.
    pub fn next(&self, left: usize) -> usize
        requires some { 0 < left }
        requires within { left ≤ length self.now.nexts.items }
        ensures { (before : List ℕ) (bucket : ℕ) (behind : List ℕ) → AreChains self.now (before ++ bucket ∷ behind)
            → left ≡ suc (length behind) → result ≡ first_in bucket behind }
    {
        self.nexts[left - 1] as usize
    }
}
