//! The tuples with a pair, and the values beside it, by one pass over the pairs.
ghost use Rattle.std.specs.Prelude.{◌≡◌, ◌+◌, ◌<◌, ◌≤◌, flat_map, length, map, IfOk};
ghost use Rattle.net_base.specs.Search.{tuples_with, beside, all_beside};
ghost use Rattle.ndb_index.specs.Index.{found};
ghost use Rattle.ndb_index.specs.Near.{AreWithinNear, tuples_at};
ghost use Rattle.ndb_index.specs.Told.{tuple_as_line};

use crate::search_scanned;
use ndb_reader::{Steps, Tuples, put_line};
use ndb_search::add_beside;
use net_base::{Db, Lines, Octets, Tuple};
use std::alloc::{AllocError, Global};
use std::marker::Brand;
use std::sync::ledger::{Blank, Ledger};

/// The pairs of a tuple in order, as the text of a database spells them, with a blank between them.
fn tuple_line(alloc: Global, tuple: &Tuple<'_>) -> Result<Octets, AllocError>
    ensures { IfOk result (λ text. text ≡ tuple_as_line tuple.now) }
{
    let mut out = Octets::new(alloc);
    for number in 0..tuple.len() {
        put_line(&mut out, &tuple.line(number))?;
    }
    Ok(out)
}

/// The tuples at places, a line each, for a step each.
fn place_lines<L: Ledger>(
    alloc: Global,
    tuples: &Tuples,
    places: &[u64],
    steps: &mut Steps<L>,
) -> Result<Lines, AllocError>
    requires { AreWithinNear tuples.now places.now }
    ensures lines { IfOk result (λ lines. lines ≡ map tuple_as_line (tuples_at tuples.now places.now)) }
    ensures cost { steps.new ≤ steps.old + length places.now }
{
    let mut lines = Lines::new(alloc);
    for place in places {
        let line = tuple_line(alloc, &tuples.at(*place, steps))?;
        lines.push(line)?;
    }
    Ok(lines)
}

/// The values beside the pair in the tuples at places, for a step each.
fn place_values<L: Ledger>(
    alloc: Global,
    tuples: &Tuples,
    places: &[u64],
    attr: &[u8],
    value: &[u8],
    other: &[u8],
    steps: &mut Steps<L>,
) -> Result<Lines, AllocError>
    requires { AreWithinNear tuples.now places.now }
    ensures values { IfOk result (λ values. values
        ≡ flat_map (beside attr.now value.now other.now) (tuples_at tuples.now places.now)) }
    ensures cost { steps.new ≤ steps.old + length places.now }
{
    let mut values = Lines::new(alloc);
    for place in places {
        let tuple = tuples.at(*place, steps);
        add_beside(attr, value, other, &tuple, &mut values)?;
    }
    Ok(values)
}

/// The tuples with the pair, a line each, for a step each.
fn tuples_counted<L: Ledger>(
    alloc: Global,
    tuples: &Tuples,
    attr: &[u8],
    value: &[u8],
    steps: &mut Steps<L>,
) -> Result<Lines, AllocError>
    ensures lines { IfOk result (λ lines. lines ≡ map tuple_as_line (tuples_with attr.now value.now tuples.now)) }
    ensures cost { steps.new ≤ steps.old + found attr.now value.now tuples.now }
{
    let places = search_scanned(alloc, tuples, attr, value)?;
    let lines = place_lines(alloc, tuples, places.as_slice(), steps)?;
    Ok(lines)
}

/// The values beside the pair in all tuples that contain it, for a step for each of these.
fn beside_counted<L: Ledger>(
    alloc: Global,
    tuples: &Tuples,
    attr: &[u8],
    value: &[u8],
    other: &[u8],
    steps: &mut Steps<L>,
) -> Result<Lines, AllocError>
    ensures values { IfOk result (λ values. values ≡ all_beside attr.now value.now other.now tuples.now) }
    ensures cost { steps.new ≤ steps.old + found attr.now value.now tuples.now }
{
    let places = search_scanned(alloc, tuples, attr, value)?;
    let values = place_values(alloc, tuples, places.as_slice(), attr, value, other, steps)?;
    Ok(values)
}

/// The tuples with the pair, by one counter of looks at tuples.
fn tuple_lines<L: Ledger>(
    alloc: Global,
    db: Db,
    attr: &[u8],
    value: &[u8],
    blank: Blank,
) -> Result<Lines, AllocError>
    requires name { blank.name ≡ L.name }
    requires parts { blank.parts ≡ L.parts }
    requires some { 0 < blank.parts }
    ensures { IfOk result (λ lines. lines ≡ map tuple_as_line (tuples_with attr.now value.now db)) }
{
    let tuples = Tuples::new(db);
    let mut steps = Steps::<L>::new(blank);
    let lines = tuples_counted(alloc, &tuples, attr, value, &mut steps)?;
    Ok(lines)
}

/// The values beside the pair, by one counter of looks at tuples.
fn beside_values<L: Ledger>(
    alloc: Global,
    db: Db,
    attr: &[u8],
    value: &[u8],
    other: &[u8],
    blank: Blank,
) -> Result<Lines, AllocError>
    requires name { blank.name ≡ L.name }
    requires parts { blank.parts ≡ L.parts }
    requires some { 0 < blank.parts }
    ensures { IfOk result (λ values. values ≡ all_beside attr.now value.now other.now db) }
{
    let tuples = Tuples::new(db);
    let mut steps = Steps::<L>::new(blank);
    let values = beside_counted(alloc, &tuples, attr, value, other, &mut steps)?;
    Ok(values)
}

/// The tuples with a pair, a line each: its pairs in order, with a blank between them.
pub fn tuples_found(alloc: Global, db: Db, attr: &[u8], value: &[u8]) -> Result<Lines, AllocError>
    ensures { IfOk result (λ lines. lines ≡ map tuple_as_line (tuples_with attr.now value.now db)) }
{
    let lines = tuple_lines::<Brand>(alloc, db, attr, value, Blank::new(1))?;
    Ok(lines)
}

/// The values of an attribute beside a pair, in all tuples that contain it.
pub fn values_found(
    alloc: Global,
    db: Db,
    attr: &[u8],
    value: &[u8],
    other: &[u8],
) -> Result<Lines, AllocError>
    ensures { IfOk result (λ values. values ≡ all_beside attr.now value.now other.now db) }
{
    let values = beside_values::<Brand>(alloc, db, attr, value, other, Blank::new(1))?;
    Ok(values)
}
