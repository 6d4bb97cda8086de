//! The command `query`.
ghost use Rattle.std.specs.Prelude.{◌≡◌, None, Some, IfOk};
ghost use Rattle.netsh.specs.Built.{query_over};

use crate::answer::found;
use ndb_index::{tuples_found, values_found};
use ndb_reader::{NdbError, read_ndb};
use net_model::Answer;
use std::alloc::{AllocError, Global};

/// The tuples with a pair in the database that an input is.
pub fn query_tuples(
    alloc: Global,
    attr: &[u8],
    value: &[u8],
    input: &[u8],
) -> Result<Answer, AllocError>
    ensures { IfOk result (λ answer. answer ≡ query_over attr.now value.now None input.now) }
{
    let db = match read_ndb(alloc, input) {
        Ok(db) => db,
        Err(NdbError::Bad { line, cause }) => return Answer::bad_input(alloc, line, cause),
        Err(NdbError::Memory) => return Err(AllocError),
    };
    let lines = tuples_found(alloc, db, attr, value)?;
    found(alloc, &lines)
}

/// The values beside a pair in the database that an input is.
pub fn query_beside(
    alloc: Global,
    attr: &[u8],
    value: &[u8],
    other: &[u8],
    input: &[u8],
) -> Result<Answer, AllocError>
    ensures { IfOk result (λ answer. answer ≡ query_over attr.now value.now (Some other.now) input.now) }
{
    let db = match read_ndb(alloc, input) {
        Ok(db) => db,
        Err(NdbError::Bad { line, cause }) => return Answer::bad_input(alloc, line, cause),
        Err(NdbError::Memory) => return Err(AllocError),
    };
    let lines = values_found(alloc, db, attr, value, other)?;
    found(alloc, &lines)
}
