//! Where each pair of a database stands.
ghost use Rattle.std.specs.Prelude.{◌≡◌, ◌+◌, ◌<◌, ◌≤◌, length, get_or, IfOk, OnOk};
ghost use Rattle.net_base.specs.Ndb.{NdbPair};
ghost use Rattle.net_base.specs.Search.{is_pair};
ghost use Rattle.net_base.specs.Spots.{pair_spots};
ghost use Rattle.net_base.specs.Store.{all_pairs};
ghost use Rattle.net_base.specs.declared.ndb.spot.Spot.{Spot as Seen};
ghost use Rattle.ndb_index.specs.Chained.{alike, looks, AreByPair, HasPairs};
ghost use Rattle.ndb_index.specs.Kept as spec;

use crate::hasher::bucket_of;
use ndb_reader::{Chains, Steps, Tuples};
use net_base::{Db, Spot};
use std::alloc::{AllocError, Global};
use std::sync::ledger::Ledger;

/// All pairs by their buckets, of which there are about a quarter as many: a bucket takes memory even where no pair has it.
pub fn chains_of(alloc: Global, db: &Db) -> Result<Chains, AllocError>
    ensures { IfOk result (AreByPair db.now) }
{
    let count = db.pair_count();
    let width = count / 4 + 1;
    let mut chains = Chains::new(alloc, width, count)?;
    for back in 0..count {
        let pair = db.pair(count - 1 - back);
        chains.push(bucket_of(width, pair.attr(), pair.value()))?;
    }
    Ok(chains)
}

/// Whether the last spot is in the tuple at a place.
fn ends_at(spots: &[Spot], place: u64) -> bool
    ensures { result ≡ spec.spot_ends_at place spots.now }
{
    match spots.last() {
        Some(spot) => spot.place == place,
        None => false,
    }
}

/// Adds a spot, where the pair isn't noted for its tuple yet.
fn add_spot(spot: Spot, spots: &mut Vec<Spot>) -> Result<(), AllocError>
    ensures { OnOk result (spots.new.items ≡ spec.with_spot spot spots.old.items) }
{
    if ends_at(spots, spot.place) {
        return Ok(());
    }
    spots.push(spot)?;
    Ok(())
}

/// Adds where the pair with this number stands, if it is the one that is asked for, for one step.
#[inline(always)]
fn add_found<P: Ledger>(
    tuples: &Tuples,
    number: usize,
    attr: &[u8],
    value: &[u8],
    spots: &mut Vec<Spot>,
    steps: &mut Steps<P>,
) -> Result<(), AllocError>
    requires { number < length (all_pairs tuples.now) }
    ensures noted { OnOk result ((p : NdbPair) (s : Seen) → spots.new.items
        ≡ spec.spots_noted (is_pair attr.now value.now (get_or (all_pairs tuples.now) number p))
        (get_or (pair_spots tuples.now) number s) spots.old.items) }
    ensures cost { steps.new ≡ steps.old + 1 }
{
    if !tuples.pair(number, steps).is(attr, value) {
        return Ok(());
    }
    add_spot(tuples.spot(number), spots)?;
    Ok(())
}

/// The spots of a pair by chains, for a step for each pair with its bucket: these are compared in the database itself.
fn spots_of<P: Ledger>(
    alloc: Global,
    tuples: &Tuples,
    chains: &Chains,
    attr: &[u8],
    value: &[u8],
    steps: &mut Steps<P>,
) -> Result<Vec<Spot>, AllocError>
    requires { AreByPair tuples.now chains.now }
    ensures spots { IfOk result (λ spots. spots.items ≡ spec.spots_with attr.now value.now tuples.now) }
    ensures cost { steps.new ≤ steps.old + alike attr.now value.now tuples.now }
{
    let count = tuples.pair_count();
    let mut spots = Vec::new(alloc);
    let mut left = chains.first(bucket_of(chains.width(), attr, value));
    while left != 0 {
        add_found(tuples, count - left, attr, value, &mut spots, steps)?;
        left = chains.next(left);
    }
    Ok(spots)
}

/// The spots of a pair, by one pass over all pairs, for a step for each.
pub fn spots_scanned<P: Ledger>(
    alloc: Global,
    tuples: &Tuples,
    attr: &[u8],
    value: &[u8],
    steps: &mut Steps<P>,
) -> Result<Vec<Spot>, AllocError>
    ensures spots { IfOk result (λ spots. spots.items ≡ spec.spots_with attr.now value.now tuples.now) }
    ensures cost { steps.new ≤ steps.old + length (all_pairs tuples.now) }
{
    let mut spots = Vec::new(alloc);
    for number in 0..tuples.pair_count() {
        add_found(tuples, number, attr, value, &mut spots, steps)?;
    }
    Ok(spots)
}

/// The spots of a pair: by chains, or where there are none by one pass over all pairs.
pub fn spots_found<P: Ledger>(
    alloc: Global,
    tuples: &Tuples,
    chains: &Option<Chains>,
    attr: &[u8],
    value: &[u8],
    steps: &mut Steps<P>,
) -> Result<Vec<Spot>, AllocError>
    requires { HasPairs tuples.now chains.now }
    ensures spots { IfOk result (λ spots. spots.items ≡ spec.spots_with attr.now value.now tuples.now) }
    ensures cost { steps.new ≤ steps.old + looks attr.now value.now tuples.now chains.now }
{
    match chains {
        Some(chains) => spots_of(alloc, tuples, chains, attr, value, steps),
        None => spots_scanned(alloc, tuples, attr, value, steps),
    }
}
