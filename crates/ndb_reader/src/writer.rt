//! A database as it is written.
ghost use Rattle.std.specs.Prelude.{◌≡◌, ◌++◌, ◌∷◌, [], List, drop, IfOk, OnOk};
ghost use Rattle.std.specs.List.{list_any};
ghost use Rattle.net_base.specs.Ndb.{NdbPair as Seen};
ghost use Rattle.net_base.specs.NdbText.{is_white};
ghost use Rattle.ndb_reader.specs.Written as spec;

use crate::words::is_white;
use net_base::{Db, Line, NdbPair, Octets, Tuple};
use std::alloc::{AllocError, Global};

/// Whether a value has white space.
fn has_white(value: &[u8]) -> bool
    ensures { result ≡ list_any is_white value.now }
{
    value.iter().any(|byte| is_white(*byte))
}

/// Adds a pair, whose value stands in quotes where it has white space.
fn put_pair(out: &mut Octets, pair: &NdbPair<'_>) -> Result<(), AllocError>
    ensures { OnOk result (out.new ≡ out.old ++ spec.one_pair_text pair.now) }
{
    out.append(pair.attr())?;
    out.append(b"=")?;
    if !has_white(pair.value()) {
        return out.append(pair.value());
    }
    out.append(b"\"")?;
    out.append(pair.value())?;
    out.append(b"\"")
}

/// Adds the pairs of a line from the second one on, with a blank before each.
fn put_more(out: &mut Octets, line: &Line<'_>) -> Result<(), AllocError>
    ensures { OnOk result (out.new ≡ out.old ++ spec.more_pairs (drop 1 line.now)) }
{
    for number in 1..line.len() {
        out.append(b" ")?;
        put_pair(out, &line.pair(number))?;
    }
    Ok(())
}

/// Adds the pairs of a line with a blank between them.
fn put_pairs(out: &mut Octets, line: &Line<'_>) -> Result<(), AllocError>
    ensures { OnOk result (out.new ≡ out.old ++ spec.pairs_text line.now) }
{
    if line.len() == 0 {
        return Ok(());
    }
    put_pair(out, &line.pair(0))?;
    put_more(out, line)?;
    Ok(())
}

/// Adds a pair behind others, with a blank between them.
fn put_next(out: &mut Octets, pair: &NdbPair<'_>) -> Result<(), AllocError>
    ensures { OnOk result ((pairs : List Seen) → out.old ≡ spec.pairs_text pairs
        → out.new ≡ spec.pairs_text (pairs ++ pair.now ∷ [])) }
{
    if out.len() == 0 {
        put_pair(out, pair)?;
        return Ok(());
    }
    out.append(b" ")?;
    put_pair(out, pair)?;
    Ok(())
}

/// Adds the pairs of a line behind others, with a blank between them.
pub fn put_line(out: &mut Octets, line: &Line<'_>) -> Result<(), AllocError>
    ensures { OnOk result ((pairs : List Seen) → out.old ≡ spec.pairs_text pairs
        → out.new ≡ spec.pairs_text (pairs ++ line.now)) }
{
    for number in 0..line.len() {
        put_next(out, &line.pair(number))?;
    }
    Ok(())
}

/// Adds the lines of a tuple behind its first one.
fn put_lines(out: &mut Octets, tuple: &Tuple<'_>) -> Result<(), AllocError>
    ensures { OnOk result (out.new ≡ out.old ++ spec.more_lines (drop 1 tuple.now)) }
{
    for number in 1..tuple.len() {
        out.append(b"\t")?;
        put_pairs(out, &tuple.line(number))?;
        out.append(b"\n")?;
    }
    Ok(())
}

/// Adds a tuple.
fn put_tuple(out: &mut Octets, tuple: &Tuple<'_>) -> Result<(), AllocError>
    ensures { OnOk result (out.new ≡ out.old ++ spec.tuple_text tuple.now) }
{
    if tuple.len() == 0 {
        return Ok(());
    }
    put_pairs(out, &tuple.line(0))?;
    out.append(b"\n")?;
    put_lines(out, tuple)?;
    Ok(())
}

/// The text of a database.
pub fn write_ndb(alloc: Global, db: &Db) -> Result<Octets, AllocError>
    ensures { IfOk result (λ text. text ≡ spec.db_text db.now) }
{
    let mut out = Octets::new(alloc);
    for place in 0..db.len() {
        put_tuple(&mut out, &db.tuple(place))?;
    }
    Ok(out)
}
