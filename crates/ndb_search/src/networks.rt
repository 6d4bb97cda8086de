//! The networks that the database describes, and which of them are a system's own.
ghost use Rattle.std.specs.Prelude.{◌≡◌, ◌+◌, ◌-◌, ◌==◌, ◌++◌, map, filter_map, IfOk, OnOk};
ghost use Rattle.std.specs.List.{list_any};
ghost use Rattle.net_base.specs.Networks as spec;
ghost use Rattle.ndb_search.specs.Prefixes.{network_seen, first_bits};
ghost use Rattle.ndb_search.specs.Own.{own_at};

use crate::{Kind, Network, add_numbers_in, first_bits, firsts_of, network_of};
use net_base::Db;
use std::alloc::{AllocError, Global};

/// The networks that the database describes, in order.
pub fn all_networks(alloc: Global, db: &Db) -> Result<Vec<Network<'_>>, AllocError>
    ensures { IfOk result (λ networks. map network_seen networks.items ≡ filter_map spec.network_of db.now) }
{
    let mut networks = Vec::new(alloc);
    for place in 0..db.len() {
        let Some(network) = network_of(&db.tuple(place)) else {
            continue;
        };
        networks.push(network)?;
    }
    Ok(networks)
}

/// The addresses of a system.
pub fn addresses_of(alloc: Global, me: &[u8], db: &Db) -> Result<Vec<u32>, AllocError>
    ensures { IfOk result (λ ips. ips.items ≡ spec.addresses_of me.now db.now) }
{
    let mut ips = Vec::new(alloc);
    for place in 0..db.len() {
        let tuple = db.tuple(place);
        if !tuple.has(b"sys", me) {
            continue;
        }
        add_numbers_in(Kind::Address, &tuple, &mut ips)?;
    }
    Ok(ips)
}

/// Whether one of the networks shares so many bits.
fn has_length(bits: u32, networks: &[Network<'_>]) -> bool
    ensures { result ≡ list_any (λ network. network.bits == bits) networks.now }
{
    networks.iter().any(|network| network.bits == bits)
}

/// Adds the networks with so many bits that contain one of the addresses.
#[tactic(auto, using(crate::proofs::Owned::none_at, crate::proofs::Owned::own_other, crate::proofs::Owned::own_more, crate::proofs::Owned::own_less))]
fn add_own<'a>(
    alloc: Global,
    bits: u32,
    networks: &[Network<'a>],
    ips: &[u32],
    own: &mut Vec<Network<'a>>,
) -> Result<(), AllocError>
    ensures { OnOk result (map network_seen own.new.items
        ≡ map network_seen own.old.items ++ own_at bits ips.now (map network_seen networks.now)) }
{
    if !has_length(bits, networks) {
        return Ok(());
    }
    let firsts = firsts_of(alloc, bits, ips)?;
    for network in networks {
        if network.bits != bits {
            continue;
        }
        if !firsts.contains(&first_bits(bits, network.ip)) {
            continue;
        }
        own.push(network.again())?;
    }
    Ok(())
}

/// The networks that contain one of a system's addresses: longest mask first, and else in order.
pub fn own_networks<'a>(
    alloc: Global,
    me: &[u8],
    db: &'a Db,
) -> Result<Vec<Network<'a>>, AllocError>
    ensures { IfOk result (λ own. map network_seen own.items
        ≡ spec.longest_first (spec.own_networks me.now db.now)) }
{
    let ips = addresses_of(alloc, me, db)?;
    let networks = all_networks(alloc, db)?;
    let mut own = Vec::new(alloc);
    for ones in 0..33 {
        add_own(alloc, 32 - ones, &networks, &ips, &mut own)?;
    }
    Ok(own)
}
