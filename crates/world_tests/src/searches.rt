//! Worked searches by scan.
ghost use Rattle.std.specs.Prelude.{◌<◌, length};

use crate::reading::{database, put_found};
use ndb_search::{closest, search, value_beside};
use net_base::Db;
use std::alloc::{AllocError, Global};

/// Two networks, a system of one of them, and a system with two addresses.
const WORKED: &[u8] = b"ipnet=astro ip=135.104.0.0 ipmask=255.255.0.0\n\tauth=bootes\n\
ipnet=astro9 ip=135.104.9.0 ipmask=255.255.255.0\n\tauth= auth=helix auth=helix\n\
sys=anna ip=135.104.9.6\n\tdom=anna.example.com\n\
sys=helix dom=helix.example.com\n\tip=10.0.0.31\n\tip=135.104.9.31\n";

fn finds_place(alloc: Global, db: &Db) -> Result<bool, AllocError> {
    let places = search(alloc, db, b"sys", b"helix")?;
    Ok(places.as_slice() == [3].as_slice())
}

/// Whether the addresses beside a pair of the last tuple are these.
fn are_beside(
    alloc: Global,
    db: &Db,
    attr: &str,
    value: &str,
    wanted: &[u8],
) -> Result<bool, AllocError>
    requires { 3 < length db.now }
{
    let values = value_beside(alloc, db, 3, attr.as_bytes(), value.as_bytes(), b"ip")?;
    let mut text = Vec::new(alloc);
    put_found(values, &mut text)?;
    Ok(text.as_slice() == wanted)
}

/// Whether the addresses of a system are found, where there are all four tuples.
fn finds_addresses(alloc: Global, db: &Db) -> Result<bool, AllocError> {
    if db.len() != 4 {
        return Ok(false);
    }
    let of_system = are_beside(alloc, db, "sys", "helix", b"10.0.0.31\n135.104.9.31\n")?;
    let of_address = are_beside(alloc, db, "ip", "10.0.0.31", b"10.0.0.31\n")?;
    Ok(of_system && of_address)
}

fn finds_all(alloc: Global) -> Result<bool, AllocError> {
    let db = database(alloc, WORKED)?;
    let place = finds_place(alloc, &db);
    let addresses = finds_addresses(alloc, &db);
    drop(db);
    Ok(place? && addresses?)
}

#[test]
fn addresses_stand_beside_a_system(rt: HostRuntime) {
    assert!(rt; finds_all(rt.alloc()) == Ok(true));
}

/// A system, an attribute, and its values that are closest to the system.
const CLOSEST: &[(&str, &str, &str)] = &[
    ("anna", "auth", "helix\nhelix\n"),
    ("anna", "dom", "anna.example.com\n"),
    ("helix", "ipmask", "255.255.255.0\n"),
];

fn is_closest(
    alloc: Global,
    db: &Db,
    me: &str,
    attr: &str,
    wanted: &str,
) -> Result<bool, AllocError> {
    let values = closest(alloc, db, me.as_bytes(), attr.as_bytes())?;
    let mut text = Vec::new(alloc);
    put_found(values, &mut text)?;
    Ok(text.as_slice() == wanted.as_bytes())
}

fn are_closest(alloc: Global, db: &Db) -> Result<bool, AllocError> {
    for (me, attr, wanted) in CLOSEST {
        if !is_closest(alloc, db, me, attr, wanted)? {
            return Ok(false);
        }
    }
    Ok(true)
}

fn finds_closest(alloc: Global) -> Result<bool, AllocError> {
    let db = database(alloc, WORKED)?;
    let closest = are_closest(alloc, &db);
    drop(db);
    closest
}

#[test]
fn the_longest_mask_is_closest(rt: HostRuntime) {
    assert!(rt; finds_closest(rt.alloc()) == Ok(true));
}
