//! Worked texts, read and written.
use crate::reading::database;
use ndb_reader::{NdbError, read_ndb, write_ndb};
use net_base::{Db, Line, Tuple};
use std::alloc::{AllocError, Global};

const LOCAL: &[u8] = b"# local network\n\
ipnet=astro ip=135.104.0.0 ipmask=255.255.0.0\n\
\tauth=bootes\n\
ipnet=astro9 ip=135.104.9.0 ipmask=255.255.255.0\n\
\tauth=helix\n\
sys=anna ip=135.104.9.6\n\
\tdom=anna.example.com\n\
sys=helix dom=helix.example.com\n\
\tip=10.0.0.31\n\
\tip=135.104.9.31\n\
sys=bootes\n\
\tip=135.104.50.2\n\
il=9fs port=17008\n\
udp=echo port=7\n";

/// Adds the pairs of a line with `;` behind each.
fn put_line(line: &Line<'_>, out: &mut Vec<u8>) -> Result<(), AllocError> {
    for number in 0..line.len() {
        let pair = line.pair(number);
        out.extend_from_slice(pair.attr())?;
        out.push(b'=')?;
        out.extend_from_slice(pair.value())?;
        out.push(b';')?;
    }
    Ok(())
}

/// Adds the lines of a tuple in brackets.
fn put_tuple(tuple: &Tuple<'_>, out: &mut Vec<u8>) -> Result<(), AllocError> {
    for number in 0..tuple.len() {
        out.push(b'[')?;
        put_line(&tuple.line(number), out)?;
        out.push(b']')?;
    }
    Ok(())
}

fn put_tuples(db: &Db, out: &mut Vec<u8>) -> Result<(), AllocError> {
    for place in 0..db.len() {
        out.push(b'<')?;
        put_tuple(&db.tuple(place), out)?;
        out.push(b'>')?;
    }
    Ok(())
}

/// Whether a database is shown so.
fn shows(alloc: Global, db: &Db, want: &[u8]) -> Result<bool, AllocError> {
    let mut shown = Vec::new(alloc);
    put_tuples(db, &mut shown)?;
    Ok(shown.as_slice() == want)
}

/// Whether a text is shown so.
fn is_shown(alloc: Global, text: &[u8], want: &[u8]) -> Result<bool, AllocError> {
    let db = database(alloc, text)?;
    let shown = shows(alloc, &db, want);
    drop(db);
    shown
}

const SHOWN: &[u8] = b"<[ipnet=astro;ip=135.104.0.0;ipmask=255.255.0.0;][auth=bootes;]>\
<[ipnet=astro9;ip=135.104.9.0;ipmask=255.255.255.0;][auth=helix;]>\
<[sys=anna;ip=135.104.9.6;][dom=anna.example.com;]>\
<[sys=helix;dom=helix.example.com;][ip=10.0.0.31;][ip=135.104.9.31;]>\
<[sys=bootes;][ip=135.104.50.2;]>\
<[il=9fs;port=17008;]>\
<[udp=echo;port=7;]>";

#[test]
fn the_worked_text_is_read(rt: HostRuntime) {
    assert!(rt; is_shown(rt.alloc(), LOCAL, SHOWN) == Ok(true));
}

const WORDS: &[(&[u8], &[u8])] = &[
    (b"", b""),
    (b"\n \t\r\n #a\n", b""),
    (b"a=b=c\td #e=f\n", b"<[a=b=c;d=;]>"),
    (b"a=#b  c=\r\n\r d#e", b"<[a=#b;c=;][d#e=;]>"),
    (b"a=b\n\n# c\n\td=e\n", b"<[a=b;][d=e;]>"),
    (b"a=\"b c=d\"\te=b\"c\n", b"<[a=b c=d;e=b\"c;]>"),
    (
        b"database=\n\tfile=y\n\tfile=x file=y\na=1\n%file x\nb=2\n%file y\nc=3\ndatabase= file=z\n%file z\nd=4\n%file y\ne=5",
        b"<[c=3;]><[database=;file=z;]><[e=5;]><[b=2;]>",
    ),
    (b"%file x\na=b\n", b""),
    (b"database file=\n", b""),
];

#[test]
fn words_are_split(rt: HostRuntime) -> Result<(), AllocError> {
    for (i, (text, want)) in WORDS.iter().enumerate() {
        let shown = is_shown(rt.alloc(), text, want)?;
        assert!(rt; shown, "row {i}");
    }
    Ok(())
}

/// Adds a number of two digits between these texts.
fn add_numbered(out: &mut Vec<u8>, before: &[u8], n: u8, after: &[u8]) -> Result<(), AllocError> {
    out.extend_from_slice(before)?;
    out.push(b'0' + n / 10)?;
    out.push(b'0' + n % 10)?;
    out.extend_from_slice(after)
}

/// Puts down a database of seventy files, and what it is shown as.
fn put_files(text: &mut Vec<u8>, want: &mut Vec<u8>) -> Result<(), AllocError> {
    text.extend_from_slice(b"database=\n")?;
    for range in [35..70_u8, 0..35_u8] {
        for n in range {
            add_numbered(text, b"\tfile=f", n, b"\n")?;
            add_numbered(want, b"<[n=", n, b";]>")?;
        }
    }
    for n in 0..70_u8 {
        add_numbered(text, b"%file f", n, b"\n")?;
        add_numbered(text, b"n=", n, b"\n")?;
    }
    Ok(())
}

/// Whether seventy files are shown in the order in which they are named.
fn are_chosen(alloc: Global) -> Result<bool, AllocError> {
    let mut text = Vec::new(alloc);
    let mut want = Vec::new(alloc);
    put_files(&mut text, &mut want)?;
    is_shown(alloc, text.as_slice(), want.as_slice())
}

#[test]
fn seventy_files_are_chosen(rt: HostRuntime) {
    assert!(rt; are_chosen(rt.alloc()) == Ok(true));
}

/// Whether a database is written so.
fn is_written(alloc: Global, text: &[u8], want: &[u8]) -> Result<bool, AllocError> {
    let db = database(alloc, text)?;
    let written = write_ndb(alloc, &db);
    drop(db);
    Ok(written?.as_slice() == want)
}

#[test]
fn values_with_white_space_are_quoted(rt: HostRuntime) {
    let text = b"a=\"b c\"  d\n e=\"f\" #\n g=\"#\"\nh=";
    let want = b"a=\"b c\" d=\n\te=f\n\tg=#\nh=\n";
    assert!(rt; is_written(rt.alloc(), text, want) == Ok(true));
}

const BAD: &[(&[u8], u64, u32)] = &[
    (b"\n\ta=b\n", 2, 1),
    (b"\t=b\0\"\n", 1, 1),
    (b"a=b\nc =d\0\"\n", 2, 3),
    (b"# a\0\"\n", 1, 5),
    (b"a\n%file\tb\n%", 2, 6),
    (b"%x \"=\n", 1, 6),
    (b"a=b\n%file  c d\n", 2, 6),
    (b"%file c\0\n", 1, 5),
    (b"a=b\n%file c\n\td=e\n", 3, 1),
    (b"=\"a", 1, 2),
    (b"a=\"b\"c =d", 1, 3),
    (b"a=\"b\"c x=\"d\ne=\"", 1, 2),
    (b"a=\"b\"#c", 1, 4),
];

fn told_in(read: &Result<Db, NdbError>) -> Option<(u64, u32)> {
    match read {
        Err(NdbError::Bad { line, cause }) => Some((*line, *cause)),
        _ => None,
    }
}

/// The line and the cause that are told of a text, where it is bad.
fn told(alloc: Global, text: &[u8]) -> Option<(u64, u32)> {
    let read = read_ndb(alloc, text);
    let told = told_in(&read);
    drop(read);
    told
}

#[test]
fn the_first_bad_line_is_told(rt: HostRuntime) {
    for (i, (text, line, cause)) in BAD.iter().enumerate() {
        let told = told(rt.alloc(), text) == Some((*line, *cause));
        assert!(rt; told, "row {i}");
    }
}
