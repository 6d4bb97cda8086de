//! The numbers that values beside a pair spell, in all tuples.
ghost use Rattle.std.specs.Prelude.{◌≡◌, IfOk};
ghost use Rattle.ndb_search.specs.Numbers as spec;

use crate::{Kind, add_numbers_beside, line_with};
use net_base::Db;
use std::alloc::{AllocError, Global};

/// The numbers of a kind beside the pair, in all tuples that contain it.
pub fn numbers_found(
    alloc: Global,
    attr: &[u8],
    value: &[u8],
    kind: Kind,
    db: &Db,
) -> Result<Vec<u32>, AllocError>
    ensures { IfOk result (λ numbers. numbers.items
        ≡ spec.numbers_found attr.now value.now kind db.now) }
{
    let mut numbers = Vec::new(alloc);
    for place in 0..db.len() {
        let tuple = db.tuple(place);
        let Some(line) = line_with(attr, value, &tuple) else {
            continue;
        };
        add_numbers_beside(kind, &line, &tuple, &mut numbers)?;
    }
    Ok(numbers)
}
