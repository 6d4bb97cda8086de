//! Addresses each once, and those that go first.
ghost use Rattle.std.specs.Prelude.{◌≡◌, map, IfOk};
ghost use Rattle.net_base.specs.Addresses.{address_text};
ghost use Rattle.net_base.specs.Cs as spec;
ghost use Rattle.cs_resolver.specs.Targets.{target_texts, covered_first};

use crate::line::Target;
use indexmap::IndexSet;
use ndb_search::Prefixes;
use std::alloc::{AllocError, Global};

/// Each number once, where it stands first. Fewer than two stay as they are.
#[tactic(auto, using(ndb_search::proofs::Shared::few_once))]
pub fn once_each(alloc: Global, numbers: Vec<u32>) -> Result<Vec<u32>, AllocError>
    ensures { IfOk result (λ once. once.items ≡ spec.once_each numbers.items) }
{
    if numbers.len() < 2 {
        return Ok(numbers);
    }
    many_once(alloc, &numbers)
}

/// Two numbers and more, each once.
fn many_once(alloc: Global, numbers: &[u32]) -> Result<Vec<u32>, AllocError>
    ensures { IfOk result (λ once. once.items ≡ spec.once_each numbers.now) }
{
    let mut once = IndexSet::new(alloc);
    for number in numbers {
        once.insert(*number)?;
    }
    Vec::from_slice(alloc, once.as_slice())
}

/// Addresses that the prefixes cover, and then the others, each in order.
pub fn covered_first(
    alloc: Global,
    prefixes: &Prefixes,
    ips: &[u32],
) -> Result<Vec<u32>, AllocError>
    ensures { IfOk result (λ sorted. sorted.items ≡ covered_first prefixes.now ips.now) }
{
    let mut sorted = Vec::new(alloc);
    for ip in ips {
        if prefixes.covers(*ip) {
            sorted.push(*ip)?;
        }
    }
    for ip in ips {
        if !prefixes.covers(*ip) {
            sorted.push(*ip)?;
        }
    }
    Ok(sorted)
}

/// Addresses to connect to.
pub fn ip_targets(alloc: Global, ips: &[u32]) -> Result<Vec<Target>, AllocError>
    ensures { IfOk result (λ targets. target_texts targets.items ≡ map address_text ips.now) }
{
    let mut targets = Vec::new(alloc);
    for ip in ips {
        targets.push(Target::Ip(*ip))?;
    }
    Ok(targets)
}
