//! Databases by their texts, and texts of lines.
use ndb_reader::read_ndb;
use net_base::{Db, Lines};
use std::alloc::{AllocError, Global};
use std::process::Abort;

/// The database of a text that is known to be good.
pub(crate) fn database(alloc: Global, text: &[u8]) -> Result<Db, AllocError> {
    match read_ndb(alloc, text) {
        Ok(db) => Ok(db),
        Err(_) => Err(AllocError),
    }
}

/// Adds lines with a newline after each.
pub(crate) fn put_lines(lines: &Lines, text: &mut Vec<u8>) -> Result<(), AllocError> {
    for line in lines.as_slice() {
        text.extend_from_slice(line.as_slice())?;
        text.push(b'\n')?;
    }
    Ok(())
}

/// Puts lines that nobody else reads into a text.
pub(crate) fn put_found(lines: Lines, text: &mut Vec<u8>) -> Result<(), AllocError> {
    let put = put_lines(&lines, text);
    drop(lines);
    put
}

/// No row is wrong.
pub(crate) fn none_wrong(rt: &impl Abort, wrong: Result<Option<usize>, AllocError>) {
    assert_eq!(rt; wrong, Ok(None));
}
