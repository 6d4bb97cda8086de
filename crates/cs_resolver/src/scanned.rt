//! The addresses of a query's host.
ghost use Rattle.std.specs.Prelude.{◌≡◌, ◌∷◌, [], flat_map, IfOk};
ghost use Rattle.net_base.specs.Cs as spec;
ghost use Rattle.cs_resolver.specs.Targets.{target_texts};

use crate::{
    Target, covered_first, ip_targets, is_any, is_attribute, is_numeric, name_attr, once_each,
};
use ndb_search::{Kind, Prefixes, closest, numbers_found, own_networks};
use net_base::{Db, Lines, Octets};
use std::alloc::{AllocError, Global};
use words::read_address;

/// The words that name the host: for `$attr` the values closest to the asker, else the host itself.
pub fn host_words(alloc: Global, db: &Db, me: &[u8], host: &[u8]) -> Result<Lines, AllocError>
    ensures { IfOk result (λ words. words ≡ spec.host_words db.now me.now host.now) }
{
    if is_attribute(host) {
        return closest(alloc, db, me, &host[1..]);
    }
    one_word(alloc, host)
}

/// One word alone.
fn one_word(alloc: Global, word: &[u8]) -> Result<Lines, AllocError>
    ensures { IfOk result (λ words. words ≡ word.now ∷ []) }
{
    let mut words = Lines::new(alloc);
    words.push(Octets::from_slice(alloc, word)?)?;
    Ok(words)
}

/// The addresses of a word: the one that it spells, or those beside it in the database.
fn word_addresses(alloc: Global, db: &Db, word: &[u8]) -> Result<Vec<u32>, AllocError>
    ensures { IfOk result (λ ips. ips.items ≡ spec.word_addresses db.now word.now) }
{
    if !is_numeric(word) {
        return numbers_found(alloc, name_attr(word), word, Kind::Address, db);
    }
    let mut ips = Vec::new(alloc);
    if let Some(ip) = read_address(word) {
        ips.push(ip)?;
    }
    Ok(ips)
}

/// The addresses of all words together.
fn all_addresses(alloc: Global, db: &Db, words: &[Octets]) -> Result<Vec<u32>, AllocError>
    ensures { IfOk result (λ ips. ips.items ≡ flat_map (spec.word_addresses db.now) words.now) }
{
    let mut ips = Vec::new(alloc);
    for word in words {
        let found = word_addresses(alloc, db, word.as_slice())?;
        ips.extend_from_slice(&found)?;
    }
    Ok(ips)
}

/// The addresses of the words, each once, those on the asker's own networks first.
fn found_addresses(
    alloc: Global,
    db: &Db,
    me: &[u8],
    words: &[Octets],
) -> Result<Vec<u32>, AllocError>
    ensures { IfOk result (λ ips. ips.items
        ≡ spec.own_first me.now db.now (spec.once_each (flat_map (spec.word_addresses db.now) words.now))) }
{
    let networks = own_networks(alloc, me, db)?;
    let prefixes = Prefixes::of(alloc, &networks)?;
    let found = all_addresses(alloc, db, words)?;
    let once = once_each(alloc, found)?;
    let sorted = covered_first(alloc, &prefixes, &once)?;
    Ok(sorted)
}

/// What a host stands for, by the words that name it: any address, or theirs.
pub fn targets(
    alloc: Global,
    db: &Db,
    me: &[u8],
    host: &[u8],
    words: &[Octets],
) -> Result<Vec<Target>, AllocError>
    requires { words.now ≡ spec.host_words db.now me.now host.now }
    ensures { IfOk result (λ targets. target_texts targets.items ≡ spec.address_texts db.now me.now host.now) }
{
    if is_any(host) {
        return Ok(vec![in alloc; Target::Any]?);
    }
    let ips = found_addresses(alloc, db, me, words)?;
    ip_targets(alloc, &ips)
}
