//! The command `cs`.
ghost use Rattle.std.specs.Prelude.{◌≡◌, ◌∷◌, [], IfOk, IfErr};
ghost use Rattle.net_base.specs.declared.address.Proto.TheVariants.{Il, Udp};
ghost use Rattle.net_base.specs.Cs.{cs_list, Lines as Found};
ghost use Rattle.cs_resolver.specs.Errors.{Tells};
ghost use Rattle.netsh.specs.Built.{cs_over};

use crate::answer::{listed, refusal};
use cs_resolver::{CsError, answer_indexed, is_attribute, read_query};
use ndb_index::Index;
use ndb_reader::{NdbError, read_ndb};
use net_base::{Db, Lines, Proto};
use net_model::Answer;
use std::alloc::{AllocError, Global};

/// Whether a query may ask for as many words as there are values: those of an attribute that stands somewhere.
fn asks_many(db: &Db, query: &[u8]) -> bool {
    let Some(query) = read_query(query) else {
        return false;
    };
    is_attribute(query.host) && db.names(&query.host[1..])
}

/// The index for a query, with chains of pairs where it may ask for many.
fn index_for(alloc: Global, db: Db, query: &[u8]) -> Result<Index, AllocError>
    ensures { IfOk result (λ index. index ≡ db) }
{
    if asks_many(&db, query) {
        return Index::new(alloc, db);
    }
    Index::scanned(alloc, db)
}

/// What a host is answered to a query over a database, by an index of it.
fn indexed(alloc: Global, db: Db, sys: &[u8], query: &[u8]) -> Result<Lines, CsError>
    ensures ok { IfOk result (λ lines. cs_list db sys.now (Il ∷ Udp ∷ []) query.now ≡ Found lines) }
    ensures err { IfErr result (λ error. Tells error (cs_list db sys.now (Il ∷ Udp ∷ []) query.now)) }
{
    let index = index_for(alloc, db, query)?;
    answer_indexed(alloc, &index, sys, &[Proto::Il, Proto::Udp], query)
}

/// What a host is answered to a query over the database that an input is.
pub fn cs(alloc: Global, sys: &[u8], query: &[u8], input: &[u8]) -> Result<Answer, AllocError>
    ensures { IfOk result (λ answer. answer ≡ cs_over sys.now query.now input.now) }
{
    let db = match read_ndb(alloc, input) {
        Ok(db) => db,
        Err(NdbError::Bad { line, cause }) => return Answer::bad_input(alloc, line, cause),
        Err(NdbError::Memory) => return Err(AllocError),
    };
    match indexed(alloc, db, sys, query) {
        Ok(lines) => listed(alloc, &lines),
        Err(error) => refusal(alloc, error),
    }
}
