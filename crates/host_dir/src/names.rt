//! The names in a directory.
ghost use Rattle.std.specs.Prelude.{◌≡◌, ◌∷◌, codes, decimal, map, IfOk};
ghost use Rattle.net_base.specs.Directory.{taken_from};

use crate::slot::Slot;
use itoa::Buffer;
use net_base::{Lines, Octets, Sequence};
use std::alloc::{AllocError, Global};

/// A number in decimal.
fn number_text(alloc: Global, n: usize) -> Result<Octets, AllocError>
    ensures { IfOk result (λ text. text ≡ decimal n) }
{
    let mut buffer = Buffer::new();
    Octets::from_slice(alloc, buffer.format(n).as_bytes())
}

/// `clone`, and the numbers of the slots that are taken.
pub fn names_of(alloc: Global, slots: &[Slot]) -> Result<Lines, AllocError>
    ensures { IfOk result (λ names. names ≡ codes "clone" ∷ map decimal (taken_from 0 slots.now)) }
{
    let mut names = Sequence::new(alloc);
    let first = Octets::from_slice(alloc, b"clone")?;
    names.push(first)?;
    for (n, slot) in slots.iter().enumerate() {
        if !slot.is_free() {
            let name = number_text(alloc, n)?;
            names.push(name)?;
        }
    }
    Ok(names)
}
