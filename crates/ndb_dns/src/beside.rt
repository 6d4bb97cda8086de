//! What the database says beside a pair.
ghost use Rattle.std.specs.Prelude.{◌≡◌, ◌+◌, ◌≤◌, ◌++◌, true, codes, flat_map, filter_map, length, IfOk, OnOk};
ghost use Rattle.std.specs.List.{list_all};
ghost use Rattle.net_base.specs.Addresses.{read_address};
ghost use Rattle.net_base.specs.Cs.{once_each};
ghost use Rattle.net_base.specs.NdbBundle.{each_once};
ghost use Rattle.net_base.specs.Search as spec;
ghost use Rattle.ndb_reader.specs.Names.{names_seen};
ghost use Rattle.ndb_index.specs.Index.{found};
ghost use Rattle.ndb_index.specs.Near.{SpotsWithin, spot_tuples};
ghost use Rattle.net_base.specs.DomainNames as labels;
ghost use Rattle.net_base.specs.DomainAnswers as answers;

use crate::value::name_in;
use indexmap::IndexSet;
use ndb_index::{Index, Spot, Steps};
use ndb_search::add_beside;
use net_base::{Lines, Octets};
use std::alloc::{AllocError, Global};
use std::sync::ledger::Ledger;
use words::read_address;

// Adds the values of an attribute beside a pair, in the tuples at these spots, for a step each.
fn add_at_spots<L: Ledger>(
    index: &Index,
    attr: &[u8],
    value: &[u8],
    other: &[u8],
    spots: &[Spot],
    values: &mut Lines,
    steps: &mut Steps<L>,
) -> Result<(), AllocError>
    requires { SpotsWithin index.now spots.now }
    ensures values { OnOk result (values.new ≡ values.old ++ flat_map (spec.beside attr.now value.now other.now)
        (spot_tuples index.now spots.now)) }
    ensures cost { steps.new ≤ steps.old + length spots.now }
{
    for spot in spots {
        let tuple = index.at(spot.place, steps);
        add_beside(attr, value, other, &tuple, values)?;
    }
    Ok(())
}

// The values of an attribute beside a pair, in all tuples that contain it, for a step each.
fn values_beside<L: Ledger>(
    alloc: Global,
    index: &Index,
    attr: &[u8],
    value: &[u8],
    other: &[u8],
    steps: &mut Steps<L>,
) -> Result<Lines, AllocError>
    ensures values { IfOk result (λ values. values ≡ spec.all_beside attr.now value.now other.now index.now) }
    ensures cost { steps.new ≤ steps.old + found attr.now value.now index.now }
{
    let spots = index.spots(alloc, attr, value)?;
    let mut values = Lines::new(alloc);
    add_at_spots(index, attr, value, other, &spots, &mut values, steps)?;
    Ok(values)
}

/// The addresses of a name, each once, for a step a tuple.
pub fn addresses_named<L: Ledger>(
    alloc: Global,
    index: &Index,
    name: &[u8],
    steps: &mut Steps<L>,
) -> Result<Vec<u32>, AllocError>
    ensures ips { IfOk result (λ ips. ips.items ≡ answers.addresses_named name.now index.now) }
    ensures cost { steps.new ≤ steps.old + found (codes "dom") name.now index.now }
{
    let values = values_beside(alloc, index, b"dom", name, b"ip", steps)?;
    let ips = addresses_in(alloc, values.as_slice())?;
    Ok(ips)
}

// The addresses that values are, each once.
fn addresses_in(alloc: Global, values: &[Octets]) -> Result<Vec<u32>, AllocError>
    ensures { IfOk result (λ ips. ips.items ≡ once_each (filter_map read_address values.now)) }
{
    let mut ips = IndexSet::new(alloc);
    for value in values {
        if let Some(ip) = read_address(value.as_slice()) {
            ips.insert(ip)?;
        }
    }
    Vec::from_slice(alloc, ips.as_slice())
}

/// The names beside a pair in lower case, each once, for a step a tuple.
pub fn names_beside<L: Ledger>(
    alloc: Global,
    index: &Index,
    attr: &[u8],
    value: &[u8],
    other: &[u8],
    steps: &mut Steps<L>,
) -> Result<IndexSet<Vec<u8>>, AllocError>
    ensures names { IfOk result (λ names. names_seen names.keys ≡ answers.names_beside attr.now value.now other.now
        index.now) }
    ensures valid { IfOk result (λ names. list_all (λ name. labels.is_domain_name (labels.labels_of name))
        (names_seen names.keys) ≡ true) }
    ensures cost { steps.new ≤ steps.old + found attr.now value.now index.now }
{
    let values = values_beside(alloc, index, attr, value, other, steps)?;
    let names = names_in(alloc, values.as_slice())?;
    Ok(names)
}

// The names that values are, in lower case, each once.
fn names_in(alloc: Global, values: &[Octets]) -> Result<IndexSet<Vec<u8>>, AllocError>
    ensures { IfOk result (λ names. names_seen names.keys ≡ each_once (filter_map labels.name_in values.now)) }
{
    let mut names = IndexSet::new(alloc);
    for value in values {
        if let Some(name) = name_in(alloc, value.as_slice())? {
            names.insert(name.into_vec())?;
        }
    }
    Ok(names)
}
