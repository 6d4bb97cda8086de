//! The command `dns`.
ghost use Rattle.std.specs.Prelude.{◌≡◌, map, option_to_list, IfOk};
ghost use Rattle.net_base.specs.Hexadecimal.{hex_digits};
ghost use Rattle.net_base.specs.DomainAnswers.{dns_answer};
ghost use Rattle.netsh.specs.Built.{dns_lines, dns_over};

use crate::answer::found;
use ndb_dns::dns_answer;
use ndb_index::Index;
use ndb_reader::{NdbError, read_ndb};
use net_base::{Db, Lines, Octets};
use net_model::Answer;
use std::alloc::{AllocError, Global};
use words::{put_hex_digits, read_hex_word};

/// What a message is answered over a database, by an index of it.
fn indexed(alloc: Global, db: Db, message: &[u8]) -> Result<Option<Octets>, AllocError>
    ensures { IfOk result (λ reply. reply ≡ dns_answer db message.now) }
{
    let index = Index::scanned(alloc, db)?;
    dns_answer(alloc, &index, message)
}

/// A reply in hexadecimal, as the one line, or no line where there is none.
fn line_of(alloc: Global, reply: Option<Octets>) -> Result<Lines, AllocError>
    ensures { IfOk result (λ lines. lines ≡ map hex_digits (option_to_list reply)) }
{
    let mut lines = Lines::new(alloc);
    if let Some(reply) = reply {
        let mut line = Octets::new(alloc);
        put_hex_digits(&mut line, reply.as_slice())?;
        lines.push(line)?;
    }
    Ok(lines)
}

/// What a message in hexadecimal is answered over a database.
fn lines_over(alloc: Global, db: Db, word: &[u8]) -> Result<Lines, AllocError>
    ensures { IfOk result (λ lines. lines ≡ dns_lines word.now db) }
{
    let Some(message) = read_hex_word(alloc, word)? else {
        return Ok(Lines::new(alloc));
    };
    let reply = indexed(alloc, db, message.as_slice())?;
    line_of(alloc, reply)
}

/// What a message in hexadecimal is answered over the database that an input is.
pub fn dns(alloc: Global, word: &[u8], input: &[u8]) -> Result<Answer, AllocError>
    ensures { IfOk result (λ answer. answer ≡ dns_over word.now input.now) }
{
    let db = match read_ndb(alloc, input) {
        Ok(db) => db,
        Err(NdbError::Bad { line, cause }) => return Answer::bad_input(alloc, line, cause),
        Err(NdbError::Memory) => return Err(AllocError),
    };
    let lines = lines_over(alloc, db, word)?;
    found(alloc, &lines)
}
