//! The plain program and the index over many databases.
use crate::answers::WORKED;
use crate::reading::{database, put_found};
use cs_resolver::{CsError, answer, answer_indexed};
use ndb_index::Index;
use ndb_search::{closest, search};
use net_base::{Db, Lines, Proto};
use std::alloc::{AllocError, Global};

const ATTRS: &[&str] = &[
    "sys", "ip", "dom", "ipnet", "ipmask", "auth", "il", "udp", "port", "sys", "ip", "auth",
];

const VALUES: &[&str] = &[
    "a",
    "b",
    "c.d",
    "",
    "10.1.0.1",
    "10.1.0.2",
    "10.1.2.0",
    "10.9.0.0",
    "255.255.0.0",
    "255.255.255.0",
    "7",
    "*",
];

const QUERIES: &[&str] = &[
    "net!a!a",
    "net!$auth!a",
    "net!$auth!7",
    "il!b!b",
    "udp!c.d!a",
    "net!*!a",
    "net!$ip!b",
    "net!10.1.0.1!7",
    "tcp!a!a",
    "net!$nosuch!7",
    "net!a",
    "net!$sys!a",
];

/// The next of a row of numbers without a pattern.
fn next(seed: &mut u32) -> u32 {
    *seed = seed.wrapping_mul(1_664_525).wrapping_add(1_013_904_223);
    *seed >> 16
}

/// One of these.
fn one_of<'a>(words: &'a [&'a str], seed: &mut u32) -> &'a str {
    match words.get(next(seed) as usize % 12) {
        Some(word) => *word,
        None => "",
    }
}

fn put_pair(seed: &mut u32, text: &mut Vec<u8>) -> Result<(), AllocError> {
    text.extend_from_slice(one_of(ATTRS, seed).as_bytes())?;
    text.push(b'=')?;
    text.extend_from_slice(one_of(VALUES, seed).as_bytes())?;
    text.push(b' ')?;
    Ok(())
}

fn put_line(seed: &mut u32, text: &mut Vec<u8>) -> Result<(), AllocError> {
    for _ in 0..1 + next(seed) % 4 {
        put_pair(seed, text)?;
    }
    text.push(b'\n')?;
    Ok(())
}

fn put_tuple(seed: &mut u32, text: &mut Vec<u8>) -> Result<(), AllocError> {
    let more = next(seed) % 3;
    put_line(seed, text)?;
    for _ in 0..more {
        text.push(b'\t')?;
        put_line(seed, text)?;
    }
    Ok(())
}

/// Adds the text of the database of a seed.
fn put_tuples(seed: u32, text: &mut Vec<u8>) -> Result<(), AllocError> {
    let mut seed = seed;
    for _ in 0..next(&mut seed) % 12 {
        put_tuple(&mut seed, text)?;
    }
    Ok(())
}

/// Adds the lines with a newline after each, or the error's number.
fn put_answer(answer: Result<Lines, CsError>, text: &mut Vec<u8>) -> Result<(), AllocError> {
    match answer {
        Ok(lines) => put_found(lines, text),
        Err(error) => {
            text.push(error.number() as u8)?;
            Ok(())
        }
    }
}

fn put_plain(alloc: Global, db: &Db, query: &str, text: &mut Vec<u8>) -> Result<(), AllocError> {
    let nets = [Proto::Il, Proto::Udp];
    put_answer(answer(alloc, db, b"a", &nets, query.as_bytes()), text)
}

fn put_indexed(
    alloc: Global,
    index: &Index,
    me: &str,
    query: &str,
    text: &mut Vec<u8>,
) -> Result<(), AllocError> {
    let nets = [Proto::Il, Proto::Udp];
    put_answer(
        answer_indexed(alloc, index, me.as_bytes(), &nets, query.as_bytes()),
        text,
    )
}

fn put_closest(alloc: Global, db: &Db, attr: &str, text: &mut Vec<u8>) -> Result<(), AllocError> {
    put_found(closest(alloc, db, b"a", attr.as_bytes())?, text)
}

fn put_closest_indexed(
    alloc: Global,
    index: &Index,
    me: &str,
    attr: &str,
    text: &mut Vec<u8>,
) -> Result<(), AllocError> {
    put_found(index.closest(alloc, me.as_bytes(), attr.as_bytes())?, text)
}

/// Whether both find a pair in the same tuples.
fn finds_alike(alloc: Global, db: &Db, index: &Index, attr: &str) -> Result<bool, AllocError> {
    let places = search(alloc, db, attr.as_bytes(), b"a")?;
    let same = index.search(alloc, attr.as_bytes(), b"a")?;
    Ok(places.as_slice() == same.as_slice())
}

/// Adds what the plain program answers to each query and finds of each attribute, with an empty line behind each.
fn put_all(alloc: Global, db: &Db, text: &mut Vec<u8>) -> Result<(), AllocError> {
    for query in QUERIES {
        put_plain(alloc, db, query, text)?;
        text.push(b'\n')?;
    }
    for attr in ATTRS {
        put_closest(alloc, db, attr, text)?;
        text.push(b'\n')?;
    }
    Ok(())
}

/// Adds the same by the index.
fn put_all_indexed(alloc: Global, index: &Index, text: &mut Vec<u8>) -> Result<(), AllocError> {
    for query in QUERIES {
        put_indexed(alloc, index, "a", query, text)?;
        text.push(b'\n')?;
    }
    for attr in ATTRS {
        put_closest_indexed(alloc, index, "a", attr, text)?;
        text.push(b'\n')?;
    }
    Ok(())
}

/// Whether both give the same text.
fn tells_alike(alloc: Global, db: &Db, index: &Index) -> Result<bool, AllocError> {
    let mut plain = Vec::new(alloc);
    let mut indexed = Vec::new(alloc);
    put_all(alloc, db, &mut plain)?;
    put_all_indexed(alloc, index, &mut indexed)?;
    Ok(plain == indexed)
}

/// Whether both find the pairs of all attributes in the same tuples.
fn all_found_alike(alloc: Global, db: &Db, index: &Index) -> Result<bool, AllocError> {
    for attr in ATTRS {
        if !finds_alike(alloc, db, index, attr)? {
            return Ok(false);
        }
    }
    Ok(true)
}

/// Whether the index of a text is like its database.
fn is_indexed_alike(alloc: Global, text: &[u8], db: &Db) -> Result<bool, AllocError> {
    let index = Index::new(alloc, database(alloc, text)?)?;
    let told = tells_alike(alloc, db, &index);
    let found = all_found_alike(alloc, db, &index);
    drop(index);
    Ok(told? && found?)
}

/// Whether both are alike over the database of a text.
fn are_alike(alloc: Global, text: &[u8]) -> Result<bool, AllocError> {
    let db = database(alloc, text)?;
    let alike = is_indexed_alike(alloc, text, &db);
    drop(db);
    alike
}

/// Whether both are alike over the database of a seed.
fn are_alike_over(alloc: Global, seed: u32) -> Result<bool, AllocError> {
    let mut text = Vec::new(alloc);
    put_tuples(seed, &mut text)?;
    are_alike(alloc, text.as_slice())
}

#[test]
fn both_answer_alike(rt: HostRuntime) -> Result<(), AllocError> {
    for seed in 0..40_u32 {
        let alike = are_alike_over(rt.alloc(), seed)?;
        assert!(rt; alike, "{seed}");
    }
    Ok(())
}

/// Adds ten thousand systems to the text of a database.
fn put_systems(text: &mut String) -> Result<(), AllocError> {
    for number in 1..10_001_u32 {
        write!(text, "sys=h{number} ip=10.1.0.1\n")?;
    }
    Ok(())
}

/// The text of the worked database with ten thousand systems more.
fn text_of_many(alloc: Global) -> Result<String, AllocError> {
    let mut text = String::from_str(alloc, WORKED)?;
    put_systems(&mut text)?;
    Ok(text)
}

/// The index of the worked database with ten thousand systems more.
fn index_of_many(alloc: Global) -> Result<Index, AllocError> {
    let text = text_of_many(alloc)?;
    Index::new(alloc, database(alloc, text.as_bytes())?)
}

/// Adds what anna is answered among many systems, and the `auth` value that is closest to it.
fn put_among_many(alloc: Global, text: &mut Vec<u8>) -> Result<(), AllocError> {
    let index = index_of_many(alloc)?;
    let put = put_indexed(alloc, &index, "anna", "net!helix!9fs", text);
    let put_more = put_closest_indexed(alloc, &index, "anna", "auth", text);
    drop(index);
    put?;
    put_more
}

#[test]
fn the_worked_query_beside_ten_thousand_systems(rt: HostRuntime) -> Result<(), AllocError> {
    let mut text = Vec::new(rt.alloc());
    put_among_many(rt.alloc(), &mut text)?;
    let wanted = b"/net/il/clone 135.104.9.31!17008\n/net/il/clone 10.0.0.31!17008\nhelix\n";
    assert!(rt; text.as_slice() == wanted.as_slice());
    Ok(())
}
