//! Worked queries and their answers.
use crate::reading::{database, none_wrong, put_found};
use cs_resolver::{CsError, answer};
use net_base::{Db, Proto};
use std::alloc::{AllocError, Global};

/// A query, and the lines of its answer or the error's line.
type Row = (&'static str, &'static str);

pub(crate) const WORKED: &str = "ipnet=astro ip=135.104.0.0 ipmask=255.255.0.0\n\tauth=bootes\n\
ipnet=astro9 ip=135.104.9.0 ipmask=255.255.255.0\n\tauth=helix\n\
sys=anna ip=135.104.9.6\n\tdom=anna.example.com\n\
sys=helix dom=helix.example.com\n\tip=10.0.0.31\n\tip=135.104.9.31\n\
sys=bootes\n\tip=135.104.50.2\nil=9fs port=17008\nudp=echo port=7\n";

fn put_error(alloc: Global, error: CsError, text: &mut Vec<u8>) -> Result<(), AllocError> {
    let number = error.number();
    let line = format!(in alloc; "! {number} {error}\n")?;
    text.extend_from_slice(line.as_bytes())
}

/// Adds the lines of the answer with a newline after each, or the error's line.
fn put_answer(alloc: Global, db: &Db, query: &str, text: &mut Vec<u8>) -> Result<(), AllocError> {
    let nets = [Proto::Il, Proto::Udp];
    match answer(alloc, db, b"anna", &nets, query.as_bytes()) {
        Ok(lines) => put_found(lines, text),
        Err(error) => put_error(alloc, error, text),
    }
}

fn is_answered(alloc: Global, db: &Db, query: &str, wanted: &str) -> Result<bool, AllocError> {
    let mut text = Vec::new(alloc);
    put_answer(alloc, db, query, &mut text)?;
    Ok(text.as_slice() == wanted.as_bytes())
}

fn first_wrong(alloc: Global, db: &Db, rows: &[Row]) -> Result<Option<usize>, AllocError> {
    for (i, (query, wanted)) in rows.iter().enumerate() {
        if !is_answered(alloc, db, query, wanted)? {
            return Ok(Some(i));
        }
    }
    Ok(None)
}

/// The first row whose query isn't answered so over a database.
fn wrong_over(alloc: Global, text: &str, rows: &[Row]) -> Result<Option<usize>, AllocError> {
    let db = database(alloc, text.as_bytes())?;
    let wrong = first_wrong(alloc, &db, rows);
    drop(db);
    wrong
}

const QUERIES: &[Row] = &[
    (
        "net!helix!9fs",
        "/net/il/clone 135.104.9.31!17008\n/net/il/clone 10.0.0.31!17008\n",
    ),
    ("net!helix!nosuch", "! 4 no service\n"),
    (
        "net!helix!echo",
        "/net/udp/clone 135.104.9.31!7\n/net/udp/clone 10.0.0.31!7\n",
    ),
    (
        "net!bootes!00564",
        "/net/il/clone 135.104.50.2!564\n/net/udp/clone 135.104.50.2!564\n",
    ),
    ("net!nobody!9fs", "! 3 no host\n"),
    ("net!nobody!nosuch", "! 3 no host\n"),
    (
        "net!$auth!9fs",
        "/net/il/clone 135.104.9.31!17008\n/net/il/clone 10.0.0.31!17008\n",
    ),
    ("net!$fs!nosuch", "! 5 no value\n"),
    ("net!$!9fs", "! 5 no value\n"),
    ("tcp!$fs!9fs", "! 2 no net\n"),
    (
        "udp!helix.example.com!echo",
        "/net/udp/clone 135.104.9.31!7\n/net/udp/clone 10.0.0.31!7\n",
    ),
    ("il!*!9fs", "/net/il/clone *!17008\n"),
    ("net!...!9fs", "! 3 no host\n"),
    (
        "net!135.104.050.9!564",
        "/net/il/clone 135.104.50.9!564\n/net/udp/clone 135.104.50.9!564\n",
    ),
];

#[test]
fn the_worked_queries(rt: HostRuntime) {
    none_wrong(&rt, wrong_over(rt.alloc(), WORKED, QUERIES));
}

const OF_NOTHING: &[Row] = &[("net!helix!9fs", "! 3 no host\n")];

#[test]
fn an_empty_database_has_no_host(rt: HostRuntime) {
    none_wrong(&rt, wrong_over(rt.alloc(), "", OF_NOTHING));
}

const NO_QUERIES: &[Row] = &[
    ("", "! 1 bad query\n"),
    ("net", "! 1 bad query\n"),
    ("net!helix", "! 1 bad query\n"),
    ("net!helix!", "! 1 bad query\n"),
    ("!helix!9fs", "! 1 bad query\n"),
    ("net!!9fs", "! 1 bad query\n"),
    ("net!a!b!c", "! 1 bad query\n"),
    ("!!", "! 1 bad query\n"),
];

#[test]
fn what_is_no_query(rt: HostRuntime) {
    none_wrong(&rt, wrong_over(rt.alloc(), WORKED, NO_QUERIES));
}

/// The line of the name hides the lines after it, also where its value is no address (`hidden`); a tuple and an address
/// stand again (`h1`).
const NAMES: &str = "sys=anna ip=10.1.0.1\n\
ipnet=near ip=bogus ip=10.1.0.0\n\tipmask=255.0.255.0 ipmask=255.255.0.0\n\
sys=hidden ip=bogus\n\tip=10.1.0.9\n\
sys=h1 ip=192.168.0.7 ip=010.001.0.003\n\tip=10.1.0.2\n\
sys=h1\n\tip=10.1.0.3\n\tip=10.1.9.9\n\
sys=1_2.3 ip=1.2.3.4\n\
il=0 port=7\n\
il=many port=7 port=007 port=0 port=65535\n";

const NAMED: &[Row] = &[
    ("net!hidden!9", "! 3 no host\n"),
    (
        "net!h1!many",
        "/net/il/clone 10.1.0.3!7\n/net/il/clone 10.1.0.3!65535\n\
         /net/il/clone 10.1.9.9!7\n/net/il/clone 10.1.9.9!65535\n\
         /net/il/clone 192.168.0.7!7\n/net/il/clone 192.168.0.7!65535\n",
    ),
    ("net!1_2.3!0", "/net/il/clone 1.2.3.4!7\n"),
    ("net!1_2.3!99999", "! 4 no service\n"),
    ("net!H1!9", "! 3 no host\n"),
];

#[test]
fn a_name_beside_other_words(rt: HostRuntime) {
    none_wrong(&rt, wrong_over(rt.alloc(), NAMES, NAMED));
}

const ERRORS: &[(CsError, &str)] = &[
    (CsError::Memory, "! 0 out of memory\n"),
    (CsError::BadQuery, "! 1 bad query\n"),
    (CsError::NoNet, "! 2 no net\n"),
    (CsError::NoHost, "! 3 no host\n"),
    (CsError::NoService, "! 4 no service\n"),
    (CsError::NoValue, "! 5 no value\n"),
];

/// Whether an error has this line.
fn is_told(alloc: Global, error: CsError, line: &str) -> Result<bool, AllocError> {
    let mut text = Vec::new(alloc);
    put_error(alloc, error, &mut text)?;
    Ok(text.as_slice() == line.as_bytes())
}

#[test]
fn each_error_has_its_number_and_text(rt: HostRuntime) -> Result<(), AllocError> {
    for (i, (error, line)) in ERRORS.iter().enumerate() {
        let told = is_told(rt.alloc(), *error, line)?;
        assert!(rt; told, "row {i}");
    }
    Ok(())
}
