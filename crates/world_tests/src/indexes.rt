//! Worked searches by an index.
ghost use Rattle.std.specs.Prelude.{◌<◌, length};

use crate::reading::{database, put_found};
use ndb_index::Index;
use std::alloc::{AllocError, Global};

/// A network, a system on it, and a system that has a pair twice and stands in two tuples.
const WORKED: &[u8] = b"ipnet=astro9 ip=135.104.9.0 ipmask=255.255.255.0 auth=helix auth=helix\n\
    sys=anna ip=135.104.9.6\n\
    sys=helix dom=helix.example.com\n\tip=10.0.0.31\n\tsys=helix ip=135.104.9.31\n\
    dom=two\n\tsys=helix\n\tip=7.7.7.7\n\
    dom=five\n";

/// Whether a pair is found in each of its tuples.
fn finds_places(alloc: Global, index: &Index) -> Result<bool, AllocError> {
    let places = index.search(alloc, b"sys", b"helix")?;
    Ok(places.as_slice() == [2, 3].as_slice())
}

/// Whether the values beside a pair are those of its line.
fn finds_beside(alloc: Global, index: &Index) -> Result<bool, AllocError>
    requires { 3 < length index.now }
{
    let values = index.value_beside(alloc, 2, b"sys", b"helix", b"ip")?;
    let mut text = Vec::new(alloc);
    put_found(values, &mut text)?;
    Ok(text.as_slice() == b"10.0.0.31\n135.104.9.31\n".as_slice())
}

/// Whether both are found, where there are all five tuples.
fn finds_both(alloc: Global, index: &Index) -> Result<bool, AllocError> {
    if index.len() != 5 {
        return Ok(false);
    }
    let places = finds_places(alloc, index)?;
    let beside = finds_beside(alloc, index)?;
    Ok(places && beside)
}

fn finds_all(alloc: Global) -> Result<bool, AllocError> {
    let index = Index::new(alloc, database(alloc, WORKED)?)?;
    let both = finds_both(alloc, &index);
    drop(index);
    both
}

#[test]
fn pairs_are_found(rt: HostRuntime) {
    assert!(rt; finds_all(rt.alloc()) == Ok(true));
}
