//! The values of an attribute beside a pair, in a tuple of the database.
ghost use Rattle.std.specs.Prelude.{◌≡◌, ◌<◌, length, get_or, [], IfOk};
ghost use Rattle.net_base.specs.Search as spec;

use crate::add_beside;
use net_base::{Db, Lines};
use std::alloc::{AllocError, Global};

/// The values of an attribute beside the pair, in the tuple at a place that `search` gives.
pub fn value_beside(
    alloc: Global,
    db: &Db,
    place: u64,
    attr: &[u8],
    value: &[u8],
    other: &[u8],
) -> Result<Lines, AllocError>
    requires within { place < length db.now }
    ensures { IfOk result (λ values. values ≡ spec.beside attr.now value.now other.now (get_or db.now place [])) }
{
    let tuple = db.tuple(place as usize);
    let mut values = Lines::new(alloc);
    add_beside(attr, value, other, &tuple, &mut values)?;
    Ok(values)
}
