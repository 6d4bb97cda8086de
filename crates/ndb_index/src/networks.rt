//! The networks of a database by their first bits.
ghost use Rattle.std.specs.Prelude.{◌≡◌, ℕ, ◌||◌, ◌++◌, List, None, nat_eq, IfOk, OnOk};
ghost use Rattle.std.specs.List.{list_any};
ghost use Rattle.net_base.specs.Ndb.{NdbPair};
ghost use Rattle.ndb_search.specs.declared.prefixes.Prefix.{Prefix as Seen};
ghost use Rattle.ndb_search.specs.Prefixes.{covers, same_prefix};
ghost use Rattle.ndb_index.specs.Nets.{places_kept, places_found, place_noted, has_prefix, has_length, is_covered, is_place_among, prefix, HasPlaces, HasAllLengths, own_places, longest_places};

use indexmap::{IndexMap, IndexSet};
use ndb_search::{Places, Prefix, Prefixes, firsts_of, network_of};
use net_base::Tuple;
use std::alloc::{AllocError, Global};
use std::collections::BTreeSet;

/// The places of the networks with each prefix.
pub type Networks = IndexMap<Prefix, Places>;

/// The places of the networks with a prefix.
pub fn places_of(networks: &Networks, prefix: Prefix) -> &[u64]
    ensures { result.now ≡ places_kept prefix networks.now.entries }
{
    match networks.get(&prefix) {
        Some(places) => places.as_slice(),
        None => &[],
    }
}

/// Notes that a network with this prefix stands at a place.
fn add_place(
    alloc: Global,
    networks: &mut Networks,
    prefix: Prefix,
    place: u64,
) -> Result<(), AllocError>
    ensures { OnOk result ((asked : Seen) → places_kept asked networks.new.entries
        ≡ place_noted (same_prefix prefix asked) place (places_kept asked networks.old.entries)) }
{
    let Some(places) = networks.get_mut(&prefix) else {
        return add_first(alloc, networks, prefix, place);
    };
    places.push(place)?;
    Ok(())
}

/// Notes the first network with this prefix.
fn add_first(
    alloc: Global,
    networks: &mut Networks,
    prefix: Prefix,
    place: u64,
) -> Result<(), AllocError>
    requires { places_found prefix networks.old.entries ≡ None }
    ensures { OnOk result ((asked : Seen) → places_kept asked networks.new.entries
        ≡ place_noted (same_prefix prefix asked) place (places_kept asked networks.old.entries)) }
{
    let mut places = Places::new(alloc);
    places.push(place)?;
    networks.insert(prefix, places)?;
    Ok(())
}

/// Notes the network of the tuple at a place, if it describes one.
pub fn add_tuple(
    alloc: Global,
    networks: &mut Networks,
    lengths: &mut IndexSet<u32>,
    tuple: &Tuple<'_>,
    place: u64,
) -> Result<(), AllocError>
    ensures places { OnOk result ((asked : Seen) → places_kept asked networks.new.entries
        ≡ place_noted (has_prefix asked tuple.now) place (places_kept asked networks.old.entries)) }
    ensures lengths { OnOk result ((bits : ℕ) → list_any (nat_eq bits) lengths.new.keys
        ≡ (has_length bits tuple.now || list_any (nat_eq bits) lengths.old.keys)) }
{
    let Some(network) = network_of(tuple) else {
        return Ok(());
    };
    lengths.insert(network.bits)?;
    add_place(alloc, networks, Prefix::of(network.bits, network.ip), place)
}

/// Adds the prefixes with so many bits of the networks that contain one of these addresses.
fn add_prefixes(
    networks: &Networks,
    bits: u32,
    ips: &[u32],
    prefixes: &mut Prefixes,
) -> Result<(), AllocError>
    ensures { OnOk result ((ip : ℕ) → covers prefixes.new ip
        ≡ (covers prefixes.old ip || is_covered networks.now.entries bits ips.now ip)) }
{
    for ip in ips {
        let prefix = Prefix::of(bits, *ip);
        if !places_of(networks, prefix).is_empty() {
            prefixes.insert(prefix)?;
        }
    }
    Ok(())
}

/// The prefixes of the networks that contain one of these addresses.
pub fn prefixes_of(
    alloc: Global,
    networks: &Networks,
    lengths: &IndexSet<u32>,
    ips: &[u32],
) -> Result<Prefixes, AllocError>
    ensures { IfOk result (λ prefixes. (ip : ℕ) → covers prefixes ip
        ≡ list_any (λ bits. is_covered networks.now.entries bits ips.now ip) lengths.now.keys) }
{
    let mut prefixes = Prefixes::new(alloc);
    for bits in lengths.as_slice() {
        add_prefixes(networks, *bits, ips, &mut prefixes)?;
    }
    Ok(prefixes)
}

/// Adds places to a set of them.
fn add_places(places: &[u64], set: &mut BTreeSet<u64>) -> Result<(), AllocError>
    ensures { OnOk result ((place : ℕ) → is_place_among place set.new.keys
        ≡ (is_place_among place set.old.keys || is_place_among place places.now)) }
{
    for place in places {
        set.insert(*place)?;
    }
    Ok(())
}

/// The places of the networks with so many bits that have one of these first bits.
fn places_with(
    alloc: Global,
    networks: &Networks,
    bits: u32,
    firsts: &[u32],
) -> Result<BTreeSet<u64>, AllocError>
    ensures { IfOk result (λ set. (place : ℕ) → is_place_among place set.keys
        ≡ list_any (λ first. is_place_among place (places_kept (prefix bits first) networks.now.entries)) firsts.now) }
{
    let mut set = BTreeSet::new(alloc);
    for first in firsts {
        let prefix = Prefix {
            bits,
            first: *first,
        };
        add_places(places_of(networks, prefix), &mut set)?;
    }
    Ok(set)
}

/// Moves a set's places behind others, in order.
fn append_places(set: BTreeSet<u64>, own: &mut Vec<u64>) -> Result<(), AllocError>
    ensures { OnOk result (own.new.items ≡ own.old.items ++ set.keys) }
{
    let mut set = set;
    while let Some(place) = set.pop_first() {
        own.push(place)?;
    }
    Ok(())
}

/// Adds the places of the networks with so many bits that contain one of these addresses, in order.
fn add_own(
    alloc: Global,
    networks: &Networks,
    bits: u32,
    ips: &[u32],
    own: &mut Vec<u64>,
) -> Result<(), AllocError>
    ensures { OnOk result ((db : List (List (List NdbPair))) → HasPlaces db networks.now.entries
        → own.new.items ≡ own.old.items ++ own_places bits ips.now db) }
{
    let firsts = firsts_of(alloc, bits, ips)?;
    let set = places_with(alloc, networks, bits, firsts.as_slice())?;
    own.reserve(set.len())?;
    append_places(set, own)?;
    Ok(())
}

/// The places of the networks that contain one of these addresses: longest mask first, and else in order.
pub fn own_places(
    alloc: Global,
    networks: &Networks,
    lengths: &IndexSet<u32>,
    ips: &[u32],
) -> Result<Vec<u64>, AllocError>
    ensures { IfOk result (λ own. (db : List (List (List NdbPair))) → HasPlaces db networks.now.entries
        → HasAllLengths lengths.now.keys db → own.items ≡ longest_places ips.now db) }
{
    let mut own = Vec::new(alloc);
    for ones in 0..33 {
        let bits = 32 - ones;
        if !lengths.contains(&bits) {
            continue;
        }
        add_own(alloc, networks, bits, ips, &mut own)?;
    }
    Ok(own)
}
