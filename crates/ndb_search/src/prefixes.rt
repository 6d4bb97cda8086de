//! The first bits of networks, for addresses to be looked up.
ghost use Rattle.std.specs.Prelude.{◌≡◌, ℕ, ◌||◌, ◌++◌, [], map, IfOk, OnOk};
ghost use Rattle.std.specs.Cmp.Rules.{comparing, hashing};
ghost use Rattle.std.specs.Hash as fed;
ghost use Rattle.std.proofs.Common.{rules};
ghost use Rattle.net_base.specs.Networks as spec;
ghost use Rattle.std.specs.List.{list_any};
ghost use Rattle.ndb_search.specs.Prefixes.{network_seen, prefix_of, same_prefix, is_prefix, is_on_prefix, covers};

use crate::network::{Network, first_bits};
use indexmap::IndexSet;
use std::alloc::{AllocError, Global};
use std::hash::{Hash, Hasher};
use std::marker::Model;

/// The first so many bits of addresses.
#[derive(Clone, Copy, Debug)]
pub struct Prefix {
    /// How many bits, 0 to 32.
    pub bits: u32,
    /// These bits, as a number.
    pub first: u32,
}

impl Prefix {
    /// The first so many bits of an address.
    pub fn of(bits: u32, ip: u32) -> Prefix
        ensures { result ≡ prefix_of bits ip }
    {
        Prefix {
            bits,
            first: first_bits(bits, ip),
        }
    }
}

impl PartialEq for Prefix {
    ghost eq = { same_prefix };

    ghost laws = { Prim.search (comparing, rules) };

    fn eq(&self, other: &Prefix) -> bool {
        self.bits == other.bits && self.first == other.first
    }
}

impl Eq for Prefix {
    ghost laws = { Prim.search (comparing, rules) };
}

impl Hash for Prefix {
    ghost hash_input = { λ p. fed.u32 p.bits ++ fed.u32 p.first };

    ghost respects_eq = { Prim.search (hashing, rules) };

    fn hash<H: Hasher>(&self, state: &mut H) {
        state.write_u32(self.bits);
        state.write_u32(self.first);
    }
}

/// Prefixes, each once, which contracts see as a list.
#[derive(Drop)]
pub struct Prefixes {
    lengths: IndexSet<u32>,
    prefixes: IndexSet<Prefix>,
}

impl Model for Prefixes {
    ghost use Rattle.std.specs.Prelude.{List};
    ghost use Rattle.ndb_search.specs.declared.prefixes.Prefix.{Prefix};
    ghost use Rattle.ndb_search.specs.Prefixes.{HasLengths};

    ghost Value = { List Prefix };

    ghost view = { λ p. p.prefixes.keys };

    ghost invariant = { λ p. HasLengths p.lengths.keys p.prefixes.keys };
}

impl Prefixes {
    /// No prefixes, which take no memory yet.
    pub fn new(alloc: Global) -> Prefixes
        ensures { result ≡ [] }
    {
        Prefixes {
            lengths: IndexSet::new(alloc),
            prefixes: IndexSet::new(alloc),
        }
    }

    /// Adds a prefix.
    pub fn insert(&mut self, prefix: Prefix) -> Result<(), AllocError>
        ensures { OnOk result ((ip : ℕ) → covers self.new ip ≡ (covers self.old ip || is_on_prefix ip prefix)) }
    {
        self.lengths.insert(prefix.bits)?;
        self.prefixes.insert(prefix)?;
        Ok(())
    }

    /// The prefixes of these networks.
    pub fn of(alloc: Global, networks: &[Network<'_>]) -> Result<Prefixes, AllocError>
        ensures { IfOk result (λ prefixes. (ip : ℕ) → covers prefixes ip ≡ spec.is_on (map network_seen networks.now)
            ip) }
    {
        let mut prefixes = Prefixes::new(alloc);
        for network in networks {
            prefixes.insert(Prefix::of(network.bits, network.ip))?;
        }
        Ok(prefixes)
    }

    /// Whether the address has one of the prefixes.
    pub fn covers(&self, ip: u32) -> bool
        ensures { result ≡ covers self.now ip }
    {
        is_among(&self.lengths, &self.prefixes, ip)
    }
}

/// Whether so many first bits of an address, for one of these lengths, are among the prefixes.
fn is_among(lengths: &IndexSet<u32>, prefixes: &IndexSet<Prefix>, ip: u32) -> bool
    ensures { result ≡ list_any (λ bits. list_any (is_prefix bits ip) prefixes.now.keys) lengths.now.keys }
{
    lengths
        .as_slice()
        .iter()
        .any(|bits| has(prefixes, *bits, ip))
}

/// Whether so many first bits of an address are among the prefixes.
fn has(prefixes: &IndexSet<Prefix>, bits: u32, ip: u32) -> bool
    ensures { result ≡ list_any (is_prefix bits ip) prefixes.now.keys }
{
    prefixes.contains(&Prefix::of(bits, ip))
}
