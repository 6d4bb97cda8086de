//! The index of a database.
ghost use Rattle.std.specs.Prelude.{◌≡◌, ◌+◌, ◌<◌, ◌≤◌, [], filter_map, get_or, length, slice_get, IfOk};
ghost use Rattle.net_base.specs.Search as spec;
ghost use Rattle.ndb_search.specs.Places.{places_with};
ghost use Rattle.ndb_index.specs.Kept.{spots_with};
ghost use Rattle.ndb_index.specs.Near.{FindsPlaces};
ghost use Rattle.ndb_index.specs.Nets.{HasPlaces, HasAllLengths};

use crate::networks::{self, Networks};
use crate::pairs::{chains_of, spots_found};
use crate::scan::places_at;
use indexmap::{IndexMap, IndexSet};
use ndb_reader::{Chains, Steps, Tuples};
use ndb_search::{Places, add_beside};
use net_base::{Db, Lines, Spot, Tuple};
use std::alloc::{AllocError, Global};
use std::marker::{Brand, Model};
use std::sync::ledger::{Blank, Ledger};

/// A database with the places of its pairs and networks. Contracts see the database.
#[derive(Drop)]
pub struct Index {
    pub(crate) tuples: Tuples,
    pub(crate) pairs: Option<Chains>,
    pub(crate) networks: Networks,
    pub(crate) lengths: IndexSet<u32>,
}

impl Model for Index {
    ghost use Rattle.std.specs.Prelude.{List};
    ghost use Rattle.net_base.specs.Ndb.{NdbPair};
    ghost use Rattle.ndb_index.specs.Index.{IsIndex};

    ghost Value = { List (List (List NdbPair)) };

    ghost view = { λ i. i.tuples };

    ghost invariant = { λ i. IsIndex i.tuples i.pairs i.networks.entries i.lengths.keys };
}

/// The places of all networks, and the numbers of bits that they share. Where the attribute `ipnet` stands nowhere, no tuple is looked at.
fn networks_of(alloc: Global, db: &Db) -> Result<(Networks, IndexSet<u32>), AllocError>
    ensures { IfOk result (λ kept. HasPlaces db.now kept.0.entries × HasAllLengths kept.1.keys db.now) }
{
    let mut networks = IndexMap::new(alloc);
    let mut lengths = IndexSet::new(alloc);
    if !db.names(b"ipnet") {
        return Ok((networks, lengths));
    }
    for place in 0..db.len() {
        let tuple = db.tuple(place);
        networks::add_tuple(alloc, &mut networks, &mut lengths, &tuple, place as u64)?;
    }
    Ok((networks, lengths))
}

impl Index {
    /// The index of a database, in one pass over its pairs.
    pub fn new(alloc: Global, db: Db) -> Result<Index, AllocError>
        ensures { IfOk result (λ index. index ≡ db) }
    {
        let pairs = chains_of(alloc, &db)?;
        let (networks, lengths) = networks_of(alloc, &db)?;
        Ok(Index {
            tuples: Tuples::new(db),
            pairs: Some(pairs),
            networks,
            lengths,
        })
    }

    /// An index for one who asks a few times: each search goes once over all pairs.
    pub fn scanned(alloc: Global, db: Db) -> Result<Index, AllocError>
        ensures { IfOk result (λ index. index ≡ db) }
    {
        let (networks, lengths) = networks_of(alloc, &db)?;
        Ok(Index {
            tuples: Tuples::new(db),
            pairs: None,
            networks,
            lengths,
        })
    }

    /// How many tuples there are.
    pub fn len(&self) -> usize
        ensures { result ≡ length self.now }
    {
        self.tuples.len()
    }

    /// The tuple at a place, for one step.
    pub fn at<L: Ledger>(&self, place: u64, steps: &mut Steps<L>) -> Tuple<'_>
        requires { place < length self.now }
        ensures tuple { result ≡ get_or self.now place [] }
        ensures cost { steps.new ≡ steps.old + 1 }
    {
        self.tuples.at(place, steps)
    }

    /// Where a pair stands, in each tuple that contains it. It looks at no tuple.
    pub fn spots(&self, alloc: Global, attr: &[u8], value: &[u8]) -> Result<Vec<Spot>, AllocError>
        ensures { IfOk result (λ spots. spots.items ≡ spots_with attr.now value.now self.now) }
    {
        self.spots_by::<Brand>(alloc, attr, value, Blank::new(1))
    }

    /// Where a pair stands, with looks at pairs on a counter of its own.
    fn spots_by<P: Ledger>(
        &self,
        alloc: Global,
        attr: &[u8],
        value: &[u8],
        blank: Blank,
    ) -> Result<Vec<Spot>, AllocError>
        requires name { blank.name ≡ P.name }
        requires parts { blank.parts ≡ P.parts }
        requires some { 0 < blank.parts }
        ensures { IfOk result (λ spots. spots.items ≡ spots_with attr.now value.now self.now) }
    {
        let mut steps = Steps::<P>::new(blank);
        let spots = spots_found(alloc, &self.tuples, &self.pairs, attr, value, &mut steps)?;
        Ok(spots)
    }

    /// The places of the tuples that contain the pair, in order.
    pub fn search(&self, alloc: Global, attr: &[u8], value: &[u8]) -> Result<Places, AllocError>
        ensures places { IfOk result (λ places. places ≡ places_with attr.now value.now self.now) }
        ensures tuples { IfOk result (λ places. filter_map (slice_get self.now) places
            ≡ spec.tuples_with attr.now value.now self.now) }
        ensures found { IfOk result (FindsPlaces self.now attr.now value.now) }
    {
        let spots = self.spots(alloc, attr, value)?;
        let places = places_at(alloc, &spots)?;
        Ok(places)
    }

    /// The values of an attribute beside the pair, in the tuple at a place that `search` gives, for one step.
    pub fn value_beside_counted<L: Ledger>(
        &self,
        alloc: Global,
        place: u64,
        attr: &[u8],
        value: &[u8],
        other: &[u8],
        steps: &mut Steps<L>,
    ) -> Result<Lines, AllocError>
        requires within { place < length self.now }
        ensures values { IfOk result (λ values. values
            ≡ spec.beside attr.now value.now other.now (get_or self.now place [])) }
        ensures cost { steps.new ≤ steps.old + 1 }
    {
        let mut values = Lines::new(alloc);
        let tuple = self.at(place, steps);
        add_beside(attr, value, other, &tuple, &mut values)?;
        Ok(values)
    }

    /// The values of an attribute beside the pair, in the tuple at a place that `search` gives.
    pub fn value_beside(
        &self,
        alloc: Global,
        place: u64,
        attr: &[u8],
        value: &[u8],
        other: &[u8],
    ) -> Result<Lines, AllocError>
        requires within { place < length self.now }
        ensures values { IfOk result (λ values. values
            ≡ spec.beside attr.now value.now other.now (get_or self.now place [])) }
    {
        self.beside_by::<Brand>(alloc, place, attr, value, other, Blank::new(1))
    }

    /// Finds what stands beside a pair, by a counter that no other call has.
    fn beside_by<L: Ledger>(
        &self,
        alloc: Global,
        place: u64,
        attr: &[u8],
        value: &[u8],
        other: &[u8],
        blank: Blank,
    ) -> Result<Lines, AllocError>
        requires within { place < length self.now }
        requires name { blank.name ≡ L.name }
        requires parts { blank.parts ≡ L.parts }
        requires some { 0 < blank.parts }
        ensures values { IfOk result (λ values. values
            ≡ spec.beside attr.now value.now other.now (get_or self.now place [])) }
    {
        let mut steps = Steps::<L>::new(blank);
        self.value_beside_counted(alloc, place, attr, value, other, &mut steps)
    }
}
