//! The values that are closest to a system.
ghost use Rattle.std.specs.Prelude.{◌≡◌, codes, map, IfOk};
ghost use Rattle.net_base.specs.Networks as spec;
ghost use Rattle.net_base.specs.Search.{tuples_with};
ghost use Rattle.ndb_search.specs.Prefixes.{network_seen};
ghost use Rattle.ndb_search.specs.Closest.{first_filled};

use crate::networks::own_networks;
use crate::{Network, filled_in};
use net_base::{Db, Lines};
use std::alloc::{AllocError, Global};

/// The values of the first of a system's tuples that has any.
fn closest_of(alloc: Global, db: &Db, me: &[u8], attr: &[u8]) -> Result<Option<Lines>, AllocError>
    ensures { IfOk result (λ values. values ≡ first_filled attr.now (tuples_with (codes "sys") me.now db.now)) }
{
    for place in 0..db.len() {
        let tuple = db.tuple(place);
        if !tuple.has(b"sys", me) {
            continue;
        }
        let values = filled_in(alloc, attr, &tuple)?;
        if values.len() != 0 {
            return Ok(Some(values));
        }
    }
    Ok(None)
}

/// The values of the first of these networks that has any.
#[tactic(auto, using(crate::proofs::Nearest::among_first, crate::proofs::Nearest::among_less))]
fn closest_among(
    alloc: Global,
    networks: &[Network<'_>],
    attr: &[u8],
) -> Result<Option<Lines>, AllocError>
    ensures { IfOk result (λ values. values
        ≡ first_filled attr.now (map (λ network. network.tuple) (map network_seen networks.now))) }
{
    for network in networks {
        let values = filled_in(alloc, attr, &network.tuple)?;
        if values.len() != 0 {
            return Ok(Some(values));
        }
    }
    Ok(None)
}

/// The values of an attribute that are closest to a system, without empty ones.
pub fn closest(alloc: Global, db: &Db, me: &[u8], attr: &[u8]) -> Result<Lines, AllocError>
    ensures { IfOk result (λ values. values ≡ spec.closest attr.now me.now db.now) }
{
    if let Some(values) = closest_of(alloc, db, me, attr)? {
        return Ok(values);
    }
    let networks = own_networks(alloc, me, db)?;
    match closest_among(alloc, &networks, attr)? {
        Some(values) => Ok(values),
        None => Ok(Lines::new(alloc)),
    }
}
