//! What is closest to a system, and its own networks.
ghost use Rattle.std.specs.Prelude.{◌≡◌, ℕ, ◌+◌, ◌<◌, ◌≤◌, ◌++◌, length, None, IfOk, OnOk};
ghost use Rattle.net_base.specs.Networks as spec;
ghost use Rattle.ndb_search.specs.Closest.{first_filled};
ghost use Rattle.ndb_search.specs.Prefixes.{covers};
ghost use Rattle.ndb_index.specs.Index.{own_count, near_count};
ghost use Rattle.ndb_index.specs.Near.{AreWithinNear, SpotsWithin, tuples_at, spot_tuples, numbers_of};
ghost use Rattle.ndb_index.specs.Nets.{longest_places};

use crate::index::Index;
use crate::networks::{own_places, prefixes_of};
use ndb_reader::Steps;
use ndb_search::{Kind, Prefixes, add_numbers_in, filled_in};
use net_base::{Lines, Spot};
use std::alloc::{AllocError, Global};
use std::marker::Brand;
use std::sync::ledger::{Blank, Ledger};

impl Index {
    /// The values of the first of a system's tuples that has any, and the addresses of those that were looked at.
    fn closest_of<L: Ledger>(
        &self,
        alloc: Global,
        mine: &[Spot],
        attr: &[u8],
        ips: &mut Vec<u32>,
        steps: &mut Steps<L>,
    ) -> Result<Option<Lines>, AllocError>
        requires { SpotsWithin self.now mine.now }
        ensures values { IfOk result (λ values. values ≡ first_filled attr.now (spot_tuples self.now mine.now)) }
        ensures ips { IfOk result (λ values. values ≡ None
            → ips.new.items ≡ ips.old.items ++ numbers_of (spot_tuples self.now mine.now)) }
        ensures cost { steps.new ≤ steps.old + length mine.now }
    {
        for spot in mine {
            let tuple = self.at(spot.place, steps);
            let values = filled_in(alloc, attr, &tuple)?;
            if values.len() != 0 {
                return Ok(Some(values));
            }
            add_numbers_in(Kind::Address, &tuple, ips)?;
        }
        Ok(None)
    }

    /// The values of the first tuple at these places that has any.
    fn closest_among<L: Ledger>(
        &self,
        alloc: Global,
        places: &[u64],
        attr: &[u8],
        steps: &mut Steps<L>,
    ) -> Result<Option<Lines>, AllocError>
        requires { AreWithinNear self.now places.now }
        ensures values { IfOk result (λ values. values ≡ first_filled attr.now (tuples_at self.now places.now)) }
        ensures cost { steps.new ≤ steps.old + length places.now }
    {
        for place in places {
            let tuple = self.at(*place, steps);
            let values = filled_in(alloc, attr, &tuple)?;
            if values.len() != 0 {
                return Ok(Some(values));
            }
        }
        Ok(None)
    }

    /// The places of the networks that contain one of these addresses: longest mask first, and else in order.
    fn own_places(&self, alloc: Global, ips: &[u32]) -> Result<Vec<u64>, AllocError>
        ensures { IfOk result (λ own. own.items ≡ longest_places ips.now self.now) }
    {
        let own = own_places(alloc, &self.networks, &self.lengths, ips)?;
        Ok(own)
    }

    /// The values of an attribute that are closest to a system, without empty ones, for at most a step for each tuple near it.
    pub fn closest_counted<L: Ledger>(
        &self,
        alloc: Global,
        me: &[u8],
        attr: &[u8],
        steps: &mut Steps<L>,
    ) -> Result<Lines, AllocError>
        ensures values { IfOk result (λ values. values ≡ spec.closest attr.now me.now self.now) }
        ensures cost { steps.new ≤ steps.old + near_count me.now self.now }
    {
        let mut ips = Vec::new(alloc);
        let mine = self.spots(alloc, b"sys", me)?;
        if let Some(values) = self.closest_of(alloc, &mine, attr, &mut ips, steps)? {
            return Ok(values);
        }
        let places = self.own_places(alloc, &ips)?;
        match self.closest_among(alloc, &places, attr, steps)? {
            Some(values) => Ok(values),
            None => Ok(Lines::new(alloc)),
        }
    }

    /// Adds the addresses in the tuples at spots, for a step each.
    fn add_addresses<L: Ledger>(
        &self,
        mine: &[Spot],
        ips: &mut Vec<u32>,
        steps: &mut Steps<L>,
    ) -> Result<(), AllocError>
        requires { SpotsWithin self.now mine.now }
        ensures ips { OnOk result (ips.new.items ≡ ips.old.items ++ numbers_of (spot_tuples self.now mine.now)) }
        ensures cost { steps.new ≤ steps.old + length mine.now }
    {
        for spot in mine {
            let tuple = self.at(spot.place, steps);
            add_numbers_in(Kind::Address, &tuple, ips)?;
        }
        Ok(())
    }

    /// The addresses of a system, for a step for each of its tuples.
    fn addresses_of<L: Ledger>(
        &self,
        alloc: Global,
        me: &[u8],
        steps: &mut Steps<L>,
    ) -> Result<Vec<u32>, AllocError>
        ensures ips { IfOk result (λ ips. ips.items ≡ spec.addresses_of me.now self.now) }
        ensures cost { steps.new ≤ steps.old + own_count me.now self.now }
    {
        let mut ips = Vec::new(alloc);
        let mine = self.spots(alloc, b"sys", me)?;
        self.add_addresses(&mine, &mut ips, steps)?;
        Ok(ips)
    }

    /// The prefixes of a system's own networks, for a step for each of its tuples.
    pub fn own_prefixes_counted<L: Ledger>(
        &self,
        alloc: Global,
        me: &[u8],
        steps: &mut Steps<L>,
    ) -> Result<Prefixes, AllocError>
        ensures prefixes { IfOk result (λ prefixes. (ip : ℕ) → covers prefixes ip
            ≡ spec.is_on (spec.own_networks me.now self.now) ip) }
        ensures cost { steps.new ≤ steps.old + own_count me.now self.now }
    {
        let ips = self.addresses_of(alloc, me, steps)?;
        let prefixes = prefixes_of(alloc, &self.networks, &self.lengths, &ips)?;
        Ok(prefixes)
    }

    /// The values of an attribute that are closest to a system, without empty ones.
    pub fn closest(&self, alloc: Global, me: &[u8], attr: &[u8]) -> Result<Lines, AllocError>
        ensures { IfOk result (λ values. values ≡ spec.closest attr.now me.now self.now) }
    {
        self.closest_by::<Brand>(alloc, me, attr, Blank::new(1))
    }

    /// Finds the closest values by a counter that no other call has.
    fn closest_by<L: Ledger>(
        &self,
        alloc: Global,
        me: &[u8],
        attr: &[u8],
        blank: Blank,
    ) -> Result<Lines, AllocError>
        requires name { blank.name ≡ L.name }
        requires parts { blank.parts ≡ L.parts }
        requires some { 0 < blank.parts }
        ensures { IfOk result (λ values. values ≡ spec.closest attr.now me.now self.now) }
    {
        let mut steps = Steps::<L>::new(blank);
        self.closest_counted(alloc, me, attr, &mut steps)
    }
}
