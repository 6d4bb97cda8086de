//! The addresses of many words, for which each line and each tuple is read once.
ghost use Rattle.std.specs.Prelude.{◌≡◌, ℕ, ◌+◌, ◌≤◌, List, flat_map, length, IfOk, OnOk};
ghost use Rattle.std.specs.List.{sum_by};
ghost use Rattle.net_base.specs.Cs as spec;
ghost use Rattle.ndb_search.specs.declared.tuple_numbers.Kind.TheVariants.{Address};
ghost use Rattle.cs_resolver.specs.Gathering.{Gathers, TuplesRead, SpotsRead, words_seen};
ghost use Rattle.cs_resolver.specs.Probes.{IsSpot, AreSpots, numbers_at, word_found};

use crate::query::{is_numeric, name_attr};
use indexmap::IndexSet;
use ndb_index::{Index, Spot, Steps};
use ndb_search::{Kind, add_numbers_in, add_numbers_on};
use net_base::Octets;
use std::alloc::{AllocError, Global};
use std::sync::ledger::Ledger;
use words::read_address;

/// The spots and the tuples whose addresses were gathered.
#[derive(Drop)]
struct Read {
    spots: IndexSet<Spot>,
    tuples: IndexSet<u64>,
}

/// Each word once.
fn words_once<'a>(alloc: Global, words: &'a [Octets]) -> Result<IndexSet<&'a [u8]>, AllocError>
    ensures numbers { IfOk result (λ once. (numbers : List ℕ → List ℕ)
        → spec.once_each (flat_map numbers (words_seen once.keys)) ≡ spec.once_each (flat_map numbers words.now)) }
    ensures count { IfOk result (λ once. (count : List ℕ → ℕ)
        → sum_by count (words_seen once.keys) ≤ sum_by count words.now) }
{
    let mut once = IndexSet::new(alloc);
    for word in words {
        once.insert(word.as_slice())?;
    }
    Ok(once)
}

/// Adds the addresses beside the pair that stands at a spot, for one step.
fn read_spot<L: Ledger>(
    index: &Index,
    spot: Spot,
    tuples: &mut IndexSet<u64>,
    ips: &mut Vec<u32>,
    steps: &mut Steps<L>,
) -> Result<(), AllocError>
    requires spot { IsSpot index.now spot }
    requires read { TuplesRead index.now tuples.old.keys ips.old.items }
    ensures ips { OnOk result (Gathers (numbers_at index.now Address spot) ips.old.items ips.new.items) }
    ensures read { OnOk result (TuplesRead index.now tuples.new.keys ips.new.items) }
    ensures cost { steps.new ≤ steps.old + 1 }
{
    let tuple = index.at(spot.place, steps);
    let line = tuple.line(spot.line as usize);
    if line.names(Kind::Address.attr()) {
        add_numbers_on(Kind::Address, &line, ips)?;
        return Ok(());
    }
    if !tuples.insert(spot.place)? {
        return Ok(());
    }
    add_numbers_in(Kind::Address, &tuple, ips)?;
    Ok(())
}

/// Adds the addresses beside the pair that stands at a spot, where they weren't added yet, for at most one step.
fn add_spot<L: Ledger>(
    index: &Index,
    spot: Spot,
    read: &mut Read,
    ips: &mut Vec<u32>,
    steps: &mut Steps<L>,
) -> Result<(), AllocError>
    requires spot { IsSpot index.now spot }
    requires tuples { TuplesRead index.now read.old.tuples.keys ips.old.items }
    requires spots { SpotsRead index.now read.old.spots.keys ips.old.items }
    ensures ips { OnOk result (Gathers (numbers_at index.now Address spot) ips.old.items ips.new.items) }
    ensures tuples { OnOk result (TuplesRead index.now read.new.tuples.keys ips.new.items) }
    ensures spots { OnOk result (SpotsRead index.now read.new.spots.keys ips.new.items) }
    ensures cost { steps.new ≤ steps.old + 1 }
{
    if !read.spots.insert(spot)? {
        return Ok(());
    }
    read_spot(index, spot, &mut read.tuples, ips, steps)?;
    Ok(())
}

/// Adds the addresses of a word, for at most a step for each tuple that is found.
fn add_word<L: Ledger>(
    alloc: Global,
    index: &Index,
    word: &[u8],
    read: &mut Read,
    ips: &mut Vec<u32>,
    steps: &mut Steps<L>,
) -> Result<(), AllocError>
    requires tuples { TuplesRead index.now read.old.tuples.keys ips.old.items }
    requires spots { SpotsRead index.now read.old.spots.keys ips.old.items }
    ensures ips { OnOk result (Gathers (spec.word_addresses index.now word.now) ips.old.items ips.new.items) }
    ensures tuples { OnOk result (TuplesRead index.now read.new.tuples.keys ips.new.items) }
    ensures spots { OnOk result (SpotsRead index.now read.new.spots.keys ips.new.items) }
    ensures cost { steps.new ≤ steps.old + word_found index.now word.now }
{
    if !is_numeric(word) {
        let spots = index.spots(alloc, name_attr(word), word)?;
        add_spots(index, &spots, read, ips, steps)?;
        return Ok(());
    }
    if let Some(ip) = read_address(word) {
        ips.push(ip)?;
    }
    Ok(())
}

/// Adds the addresses beside a pair at its spots, for at most a step each.
fn add_spots<L: Ledger>(
    index: &Index,
    spots: &[Spot],
    read: &mut Read,
    ips: &mut Vec<u32>,
    steps: &mut Steps<L>,
) -> Result<(), AllocError>
    requires each { AreSpots index.now spots.now }
    requires tuples { TuplesRead index.now read.old.tuples.keys ips.old.items }
    requires spots { SpotsRead index.now read.old.spots.keys ips.old.items }
    ensures ips { OnOk result (Gathers (flat_map (numbers_at index.now Address) spots.now) ips.old.items
        ips.new.items) }
    ensures tuples { OnOk result (TuplesRead index.now read.new.tuples.keys ips.new.items) }
    ensures spots { OnOk result (SpotsRead index.now read.new.spots.keys ips.new.items) }
    ensures cost { steps.new ≤ steps.old + length spots.now }
{
    for spot in spots {
        add_spot(index, *spot, read, ips, steps)?;
    }
    Ok(())
}

/// The addresses of all words together, without some that stand again, for at most a step for each tuple that is found.
pub fn words_addresses<L: Ledger>(
    alloc: Global,
    index: &Index,
    words: &[Octets],
    steps: &mut Steps<L>,
) -> Result<Vec<u32>, AllocError>
    ensures ips { IfOk result (λ ips. spec.once_each ips.items
        ≡ spec.once_each (flat_map (spec.word_addresses index.now) words.now)) }
    ensures cost { steps.new ≤ steps.old + sum_by (word_found index.now) words.now }
{
    let once = words_once(alloc, words)?;
    let mut read = Read {
        spots: IndexSet::new(alloc),
        tuples: IndexSet::new(alloc),
    };
    let mut ips = Vec::new(alloc);
    for word in once.as_slice() {
        add_word(alloc, index, *word, &mut read, &mut ips, steps)?;
    }
    Ok(ips)
}
