//! The tuples with a pair, by its spots.
ghost use Rattle.std.specs.Prelude.{◌≡◌, ◌+◌, ◌<◌, ◌≤◌, length, map, IfOk};
ghost use Rattle.net_base.specs.Store.{all_pairs};
ghost use Rattle.ndb_index.specs.Near.{FindsPlaces};

use crate::pairs::spots_scanned;
use ndb_reader::{Steps, Tuples};
use ndb_search::Places;
use net_base::Spot;
use std::alloc::{AllocError, Global};
use std::marker::Brand;
use std::sync::ledger::{Blank, Ledger};

/// The places of the tuples of spots, in order.
pub fn places_at(alloc: Global, spots: &[Spot]) -> Result<Places, AllocError>
    ensures { IfOk result (λ places. places ≡ map (λ spot. spot.place) spots.now) }
{
    let mut places = Places::new(alloc);
    for spot in spots {
        places.push(spot.place)?;
    }
    Ok(places)
}

/// The places of the tuples that contain the pair, in order, by one pass over all pairs: for one who asks once. It looks at no tuple.
pub fn search_scanned(
    alloc: Global,
    tuples: &Tuples,
    attr: &[u8],
    value: &[u8],
) -> Result<Places, AllocError>
    ensures { IfOk result (FindsPlaces tuples.now attr.now value.now) }
{
    search_by::<Brand>(alloc, tuples, attr, value, Blank::new(1))
}

/// One pass over all pairs, with the looks at them on a counter of its own.
fn search_by<P: Ledger>(
    alloc: Global,
    tuples: &Tuples,
    attr: &[u8],
    value: &[u8],
    blank: Blank,
) -> Result<Places, AllocError>
    requires name { blank.name ≡ P.name }
    requires parts { blank.parts ≡ P.parts }
    requires some { 0 < blank.parts }
    ensures { IfOk result (FindsPlaces tuples.now attr.now value.now) }
{
    let mut steps = Steps::<P>::new(blank);
    let places = search_counted(alloc, tuples, attr, value, &mut steps)?;
    Ok(places)
}

/// The places of the tuples that contain the pair, in order, by one pass over all pairs, for a step for each.
fn search_counted<P: Ledger>(
    alloc: Global,
    tuples: &Tuples,
    attr: &[u8],
    value: &[u8],
    steps: &mut Steps<P>,
) -> Result<Places, AllocError>
    ensures found { IfOk result (FindsPlaces tuples.now attr.now value.now) }
    ensures cost { steps.new ≤ steps.old + length (all_pairs tuples.now) }
{
    let spots = spots_scanned(alloc, tuples, attr, value, steps)?;
    let places = places_at(alloc, &spots)?;
    Ok(places)
}
