//! A medium as its lines have made it.
ghost use Rattle.std.specs.Prelude.{◌≡◌, ◌≤◌, false, OnOk};
ghost use Rattle.std.specs.List.{list_any};
ghost use Rattle.net_base.specs.World.{overlap};
ghost use Rattle.world_text.specs.WorldLines as spec;

use crate::fates::FateTable;
use net_base::{FateRange, MediumSpec, Octets, Sequence};
use std::alloc::{AllocError, Global};
use std::marker::Model;

/// A medium so far.
#[derive(Drop)]
pub(crate) struct MediumDraft {
    number: u32,
    name: Octets,
    mtu: u32,
    loss: u32,
    twice: u32,
    later: u32,
    fates: FateTable,
}

impl Model for MediumDraft {
    ghost use Rattle.net_base.specs.declared.world.MediumSpec.{MediumSpec};

    ghost Value = { MediumSpec };

    ghost view = { λ m. record {
      number = m.number;
      name = m.name;
      mtu = m.mtu;
      loss = m.loss;
      twice = m.twice;
      later = m.later;
      fates = m.fates;
    } };
}

impl MediumDraft {
    /// A medium that delivers each frame.
    pub(crate) fn new(alloc: Global, number: u32, name: Octets, mtu: u32) -> MediumDraft
        ensures { result ≡ spec.plain_medium number name mtu }
    {
        MediumDraft {
            number,
            name,
            mtu,
            loss: 0,
            twice: 0,
            later: 0,
            fates: FateTable::new(alloc),
        }
    }

    pub(crate) fn is_named(&self, name: &[u8]) -> bool
        ensures { result ≡ spec.is_medium_named name.now self.now }
    {
        name == self.name.as_slice()
    }

    /// Whether it has this name and a fate for one of the same frames.
    pub(crate) fn is_fated(&self, name: &[u8], fate: FateRange) -> bool
        ensures { result ≡ spec.is_fated name.now fate self.now }
    {
        self.is_named(name) && self.fates.has_overlap(fate)
    }

    pub(crate) fn set_rates(&mut self, loss: u32, twice: u32, later: u32)
        ensures { self.new ≡ spec.with_rates loss twice later self.old }
    {
        self.loss = loss;
        self.twice = twice;
        self.later = later;
    }

    /// Adds a fate that overlaps no other.
    pub(crate) fn add_fate(&mut self, fate: FateRange) -> Result<(), AllocError>
        requires apart { list_any (overlap fate) self.old.fates ≡ false }
        requires forward { fate.first ≤ fate.last }
        ensures { OnOk result (self.new ≡ spec.with_fate fate self.old) }
    {
        self.fates.push(fate)
    }

    /// The medium. It takes no memory.
    pub(crate) fn finish(self) -> MediumSpec
        ensures { result ≡ self }
    {
        let MediumDraft {
            number,
            name,
            mtu,
            loss,
            twice,
            later,
            fates,
        } = self;
        MediumSpec {
            number,
            name,
            mtu,
            loss,
            twice,
            later,
            fates: Sequence::from_vec(fates.into_vec()),
        }
    }
}
