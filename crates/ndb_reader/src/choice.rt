//! The choice of a bundle's files.
ghost use Rattle.std.specs.Prelude.{◌≡◌, ◌≤◌, ◌<◌, ◌∷◌, ◌++◌, ◌+◌, [], List, Some, None, true, length, take, flat_map, get_or, codes, bytes_eq, MatchOption, IfOk, OnOk, IfSome};
ghost use Rattle.net_base.specs.NdbBundle as spec;
ghost use Rattle.net_base.specs.Search.{has_attr, values_in, values_on};
ghost use Rattle.net_base.specs.Store.{all_pairs, with_tuples};
ghost use Rattle.std.specs.List.{list_any};
ghost use Rattle.ndb_reader.specs.Filed.{files_of, tuples_of, AreBundled};
ghost use Rattle.ndb_reader.specs.Names.{with_one_name, with_names, names_seen, name_bucket, AreByName};

use crate::Chains;
use crate::bundle::Bundle;
use indexmap::IndexSet;
use net_base::{Db, Growing, Line, NdbPair, Tuple};
use std::alloc::{AllocError, Global};

/// Adds the names of files on a line to those so far, each once.
fn add_names_on(
    alloc: Global,
    line: &Line<'_>,
    names: &mut IndexSet<Vec<u8>>,
) -> Result<(), AllocError>
    ensures { OnOk result (names_seen names.new.keys
        ≡ with_names (names_seen names.old.keys) (values_on (codes "file") line.now)) }
{
    for number in 0..line.len() {
        add_name_of(alloc, &line.pair(number), names)?;
    }
    Ok(())
}

/// Adds the name of a file that a pair gives, if it does.
fn add_name_of(
    alloc: Global,
    pair: &NdbPair<'_>,
    names: &mut IndexSet<Vec<u8>>,
) -> Result<(), AllocError>
    ensures { OnOk result (names_seen names.new.keys
        ≡ with_names (names_seen names.old.keys) (values_on (codes "file") (pair.now ∷ []))) }
{
    if !pair.has_attr(b"file") {
        return Ok(());
    }
    add_name(alloc, pair.value(), names)
}

/// Adds a name that doesn't stand among these.
fn add_name(alloc: Global, name: &[u8], names: &mut IndexSet<Vec<u8>>) -> Result<(), AllocError>
    ensures { OnOk result (names_seen names.new.keys ≡ with_one_name (names_seen names.old.keys) name.now) }
{
    let name = Vec::from_slice(alloc, name)?;
    names.insert(name)?;
    Ok(())
}

/// The names that a tuple gives by its `file` values, each once.
fn names_in(alloc: Global, tuple: &Tuple<'_>) -> Result<IndexSet<Vec<u8>>, AllocError>
    ensures { IfOk result (λ names. names_seen names.keys ≡ spec.each_once (values_in (codes "file") tuple.now)) }
{
    let mut names = IndexSet::new(alloc);
    for number in 0..tuple.len() {
        add_names_on(alloc, &tuple.line(number), &mut names)?;
    }
    Ok(names)
}

/// Whether the attribute `database` stands anywhere. Few texts have it, and one pass over all pairs is cheaper than one over their tuples.
fn has_database(db: &Db) -> bool
    ensures { result ≡ list_any (has_attr (codes "database")) (all_pairs db.now) }
{
    db.names(b"database")
}

/// The place of the first of so many tuples that has the attribute `database`.
fn choosing(db: &Db, end: usize) -> Option<usize>
    requires { end ≤ length db.now }
    ensures { MatchOption result (spec.choosing (take end db.now) ≡ None)
        (λ place. (place < length db.now) × (spec.choosing (take end db.now) ≡ Some (get_or db.now place []))) }
{
    if !has_database(db) {
        return None;
    }
    for place in 0..end {
        if db.tuple(place).names(b"database") {
            return Some(place);
        }
    }
    None
}

/// The names of the files that the first of so many tuples choose.
fn names_of(alloc: Global, db: &Db, end: usize) -> Result<IndexSet<Vec<u8>>, AllocError>
    requires { end ≤ length db.now }
    ensures { IfOk result (λ names. names_seen names.keys ≡ spec.names_of (spec.choosing (take end db.now))) }
{
    let Some(place) = choosing(db, end) else {
        return Ok(IndexSet::new(alloc));
    };
    names_in(alloc, &db.tuple(place))
}

/// The number of a name among the names, or how many they are.
fn bucket_of(names: &IndexSet<Vec<u8>>, name: &[u8]) -> usize
    ensures value { result ≡ name_bucket (names_seen names.now.keys) name.now }
    ensures within { result < length (names_seen names.now.keys) + 1 }
{
    names.get_index_of(name).unwrap_or(names.len())
}

/// The files by the numbers of their names.
fn chains_of(
    alloc: Global,
    bundle: &Bundle,
    names: &IndexSet<Vec<u8>>,
) -> Result<Chains, AllocError>
    requires { AreBundled bundle.now }
    ensures { IfOk result (AreByName (names_seen names.now.keys) (files_of bundle.now)) }
{
    let count = bundle.len();
    let mut chains = Chains::new(alloc, names.len() + 1, count)?;
    for back in 0..count {
        chains.push(bucket_of(names, bundle.name(count - 1 - back)))?;
    }
    Ok(chains)
}

/// Adds the tuples of the files with one of the names.
fn add_named(
    bundle: &Bundle,
    names: &IndexSet<Vec<u8>>,
    chains: &Chains,
    name: &[u8],
    out: &mut Growing,
) -> Result<(), AllocError>
    requires sound { AreBundled bundle.now }
    requires files { AreByName (names_seen names.now.keys) (files_of bundle.now) chains.now }
    requires one { list_any (bytes_eq name.now) (names_seen names.now.keys) ≡ true }
    requires lines { out.old.lines ≡ [] }
    requires pairs { out.old.pairs ≡ [] }
    ensures { OnOk result (out.new ≡ with_tuples (spec.tuples_named (files_of bundle.now) name.now) out.old) }
{
    let count = bundle.len();
    let mut left = chains.first(bucket_of(names, name));
    while left != 0 {
        bundle.add(count - left, out)?;
        left = chains.next(left);
    }
    Ok(())
}

/// Where the files with one of the names end, if they stand in a row from this one on.
fn row_of(
    bundle: &Bundle,
    names: &IndexSet<Vec<u8>>,
    chains: &Chains,
    name: &[u8],
    first: usize,
) -> Option<usize>
    requires files { AreByName (names_seen names.now.keys) (files_of bundle.now) chains.now }
    requires one { list_any (bytes_eq name.now) (names_seen names.now.keys) ≡ true }
    requires within { first ≤ length (files_of bundle.now) }
    ensures tuples { IfSome result (λ end. tuples_of (take end (files_of bundle.now))
        ≡ tuples_of (take first (files_of bundle.now)) ++ spec.tuples_named (files_of bundle.now) name.now) }
    ensures rise { IfSome result (λ end. first ≤ end) }
    ensures within { IfSome result (λ end. end ≤ length (files_of bundle.now)) }
{
    let count = bundle.len();
    let mut end = first;
    let mut left = chains.first(bucket_of(names, name));
    while left != 0 {
        if count - left != end {
            return None;
        }
        end += 1;
        left = chains.next(left);
    }
    Some(end)
}

/// The number of the first file that has any of the names.
fn first_of(bundle: &Bundle, names: &IndexSet<Vec<u8>>, chains: &Chains) -> usize
    requires { AreByName (names_seen names.now.keys) (files_of bundle.now) chains.now }
    ensures { result ≤ length (files_of bundle.now) }
{
    let mut most: usize = 0;
    for name in names.as_slice() {
        most = most.max(chains.first(bucket_of(names, name)));
    }
    bundle.len().saturating_sub(most)
}

/// Where the files with these names end, if they stand in a row from this one on, in the order of the names.
fn rows_of(
    bundle: &Bundle,
    names: &IndexSet<Vec<u8>>,
    chains: &Chains,
    first: usize,
) -> Option<usize>
    requires files { AreByName (names_seen names.now.keys) (files_of bundle.now) chains.now }
    requires within { first ≤ length (files_of bundle.now) }
    ensures tuples { IfSome result (λ end. tuples_of (take end (files_of bundle.now))
        ≡ tuples_of (take first (files_of bundle.now)) ++ flat_map (spec.tuples_named (files_of bundle.now))
        (names_seen names.now.keys)) }
    ensures rise { IfSome result (λ end. first ≤ end) }
    ensures within { IfSome result (λ end. end ≤ length (files_of bundle.now)) }
{
    let mut end = first;
    for name in names.as_slice() {
        end = row_of(bundle, names, chains, name, end)?;
    }
    Some(end)
}

/// Copies of the tuples of all files with these names.
fn copies_of(
    alloc: Global,
    bundle: &Bundle,
    names: &IndexSet<Vec<u8>>,
    chains: &Chains,
) -> Result<Db, AllocError>
    requires sound { AreBundled bundle.now }
    requires files { AreByName (names_seen names.now.keys) (files_of bundle.now) chains.now }
    ensures { IfOk result (λ db. db ≡ flat_map (spec.tuples_named (files_of bundle.now)) (names_seen names.now.keys)) }
{
    let mut out = Growing::new(alloc);
    for name in names.as_slice() {
        add_named(bundle, names, chains, name, &mut out)?;
    }
    Ok(out.finish())
}

/// The tuples of all files with these names. Where they stand in a row, in the order of the names, nothing is copied.
#[tactic(auto, using(crate::proofs::InRow::row_found))]
fn all_named(alloc: Global, bundle: Bundle, names: &IndexSet<Vec<u8>>) -> Result<Db, AllocError>
    requires { AreBundled bundle }
    ensures { IfOk result (λ db. db ≡ flat_map (spec.tuples_named (files_of bundle)) (names_seen names.now.keys)) }
{
    let chains = chains_of(alloc, &bundle, names)?;
    let first = first_of(&bundle, names, &chains);
    if let Some(end) = rows_of(&bundle, names, &chains, first) {
        return Ok(bundle.into_row(first, end));
    }
    let db = copies_of(alloc, &bundle, names, &chains)?;
    Ok(db)
}

/// The tuples of the files that the first one chooses, or its own.
pub(crate) fn choose(alloc: Global, bundle: Bundle) -> Result<Db, AllocError>
    requires some { 0 < length bundle.ends.items }
    requires sound { AreBundled bundle }
    ensures { IfOk result (λ db. (local : spec.File) (others : List spec.File)
        → files_of bundle ≡ local ∷ others → db ≡ spec.chosen local others) }
{
    let end = bundle.ends[0].tuple as usize;
    let names = names_of(alloc, &bundle.db, end)?;
    if names.len() == 0 {
        return Ok(bundle.into_row(0, 1));
    }
    let db = all_named(alloc, bundle, &names)?;
    Ok(db)
}
