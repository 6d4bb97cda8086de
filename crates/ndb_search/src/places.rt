//! The tuples that contain a pair.
ghost use Rattle.std.specs.Prelude.{◌≡◌, filter_map, slice_get, IfOk};
ghost use Rattle.net_base.specs.Search as spec;
ghost use Rattle.ndb_search.specs.Places.{places_with};

use crate::Places;
use net_base::Db;
use std::alloc::{AllocError, Global};

/// The places of the tuples that contain the pair, in order.
pub fn search(alloc: Global, db: &Db, attr: &[u8], value: &[u8]) -> Result<Places, AllocError>
    ensures places { IfOk result (λ places. places ≡ places_with attr.now value.now db.now) }
    ensures tuples { IfOk result (λ places. filter_map (slice_get db.now) places
        ≡ spec.tuples_with attr.now value.now db.now) }
{
    let mut places = Places::new(alloc);
    for place in 0..db.len() {
        if db.tuple(place).has(attr, value) {
            places.push(place as u64)?;
        }
    }
    Ok(places)
}
