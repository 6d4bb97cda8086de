//! Replies.
ghost use Rattle.std.specs.Prelude.{◌≡◌, ◌-◌, ◌<◌, ◌≤◌, ◌++◌, ◌∷◌, [], ℕ, List, length, IfOk, OnOk};
ghost use Rattle.net_base.specs.DomainAnswers as spec;
ghost use Rattle.ndb_dns.specs.Taken.{AddsTaken, AreFewTaken, TookRecord};

use crate::field::{put_word, word};
use net_base::{Octets, Question};
use std::alloc::{AllocError, Global};

/// The most bytes of a reply.
const MOST: usize = 512;

/// The bytes of a header.
const HEADER: usize = 12;

/// The flags of a reply: that it is one, that it has authority, that records are left out, and that recursion is desired.
const RESPONSE: u16 = 0x8000;

const AUTHORITY: u16 = 0x0400;

const TRUNCATED: u16 = 0x0200;

const RECURSION: u16 = 0x0100;

/// The first records of a reply, those that fit, and whether one didn't.
#[derive(Drop)]
pub struct Records {
    bytes: Octets,
    count: u16,
    room: usize,
    cut: bool,
}

impl Records {
    /// No records, and room for those that fit behind a question that ends here.
    pub fn behind(alloc: Global, end: u64) -> Records
        requires { end ≤ 512 }
        ensures took { TookRecord (512 - end) [] result }
        ensures few { AreFewTaken result }
    {
        Records {
            bytes: Octets::new(alloc),
            count: 0,
            room: MOST - end as usize,
            cut: false,
        }
    }

    /// Adds a record where it fits, and none before it was left out.
    pub fn offer(&mut self, entry: &[u8]) -> Result<(), AllocError>
        requires some { 0 < length entry.now }
        requires few { AreFewTaken self.old }
        ensures { OnOk result (AddsTaken self.old (entry.now ∷ []) self.new) }
    {
        if self.cut || entry.len() > self.room {
            self.cut = true;
            return Ok(());
        }
        self.bytes.append(entry)?;
        self.room -= entry.len();
        self.count += 1;
        Ok(())
    }
}

// Adds a header.
fn put_header(
    out: &mut Octets,
    id: u16,
    flags: u16,
    questions: u16,
    answers: u16,
) -> Result<(), AllocError>
    ensures { OnOk result (out.new ≡ out.old ++ spec.header_bytes id flags questions answers) }
{
    put_word(out, id)?;
    put_word(out, flags)?;
    put_word(out, questions)?;
    put_word(out, answers)?;
    out.append(&[0, 0, 0, 0])
}

/// The reply to a message that is no question: a header alone.
pub fn format_reply(alloc: Global, message: &[u8]) -> Result<Octets, AllocError>
    requires { 12 ≤ length message.now }
    ensures { IfOk result (λ reply. reply ≡ spec.format_reply message.now) }
{
    let mut out = Octets::new(alloc);
    put_header(&mut out, word(message, 0), RESPONSE + 1, 0, 0)?;
    Ok(out)
}

// The flags of a reply to a question with these.
fn reply_flags(sent: u16, is_cut: bool, rcode: u16) -> u16
    requires { rcode < 16 }
    ensures { result ≡ spec.reply_flags sent is_cut rcode }
{
    let cut = if is_cut { TRUNCATED } else { 0 };
    RESPONSE + sent / 2048 % 16 * 2048 + AUTHORITY + cut + sent / 256 % 2 * RECURSION + rcode
}

/// A reply: a header, the question as it stands, and the records.
pub fn reply(
    alloc: Global,
    message: &[u8],
    question: &Question,
    rcode: u16,
    records: &Records,
) -> Result<Octets, AllocError>
    requires question { (12 ≤ question.now.end) × (question.now.end ≤ length message.now) }
    requires rcode { rcode < 16 }
    ensures { (offered : List (List ℕ)) → TookRecord (512 - question.now.end) offered records.now
        → IfOk result (λ out. out ≡ spec.reply_of message.now question.now rcode offered) }
{
    let flags = reply_flags(question.flags, records.cut, rcode);
    let mut out = Octets::new(alloc);
    put_header(&mut out, question.id, flags, 1, records.count)?;
    out.append(&message[HEADER..question.end as usize])?;
    out.append(records.bytes.as_slice())?;
    Ok(out)
}
