//! Numbers beside pairs of an index.
ghost use Rattle.std.specs.Prelude.{◌≡◌, ◌+◌, ◌≤◌, ◌++◌, flat_map, length, IfOk, OnOk};
ghost use Rattle.ndb_search.specs.Numbers.{numbers_found};
ghost use Rattle.ndb_index.specs.Index.{found};
ghost use Rattle.cs_resolver.specs.Probes.{IsSpot, AreSpots, numbers_at};

use ndb_index::{Index, Spot, Steps};
use ndb_search::{Kind, add_numbers_beside};
use std::alloc::{AllocError, Global};
use std::sync::ledger::Ledger;

/// Adds the numbers of a kind beside the pair that stands at a spot, for one step.
fn add_at<L: Ledger>(
    index: &Index,
    kind: Kind,
    spot: Spot,
    numbers: &mut Vec<u32>,
    steps: &mut Steps<L>,
) -> Result<(), AllocError>
    requires { IsSpot index.now spot }
    ensures numbers { OnOk result (numbers.new.items ≡ numbers.old.items ++ numbers_at index.now kind spot) }
    ensures cost { steps.new ≤ steps.old + 1 }
{
    let tuple = index.at(spot.place, steps);
    let line = tuple.line(spot.line as usize);
    add_numbers_beside(kind, &line, &tuple, numbers)?;
    Ok(())
}

/// Adds the numbers of a kind at spots, for a step each.
fn add_all<L: Ledger>(
    index: &Index,
    kind: Kind,
    spots: &[Spot],
    numbers: &mut Vec<u32>,
    steps: &mut Steps<L>,
) -> Result<(), AllocError>
    requires { AreSpots index.now spots.now }
    ensures numbers { OnOk result (numbers.new.items
        ≡ numbers.old.items ++ flat_map (numbers_at index.now kind) spots.now) }
    ensures cost { steps.new ≤ steps.old + length spots.now }
{
    for spot in spots {
        add_at(index, kind, *spot, numbers, steps)?;
    }
    Ok(())
}

/// The numbers of a kind beside the pair, in all tuples that contain it, for a step each.
pub fn numbers_beside<L: Ledger>(
    alloc: Global,
    index: &Index,
    attr: &[u8],
    value: &[u8],
    kind: Kind,
    steps: &mut Steps<L>,
) -> Result<Vec<u32>, AllocError>
    ensures numbers { IfOk result (λ numbers. numbers.items ≡ numbers_found attr.now value.now kind index.now) }
    ensures cost { steps.new ≤ steps.old + found attr.now value.now index.now }
{
    let mut numbers = Vec::new(alloc);
    let spots = index.spots(alloc, attr, value)?;
    add_all(index, kind, &spots, &mut numbers, steps)?;
    Ok(numbers)
}
