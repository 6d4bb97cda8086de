//! What a message is answered.
ghost use Rattle.std.specs.Prelude.{◌≡◌, ◌+◌, ◌<◌, ◌≤◌, ◌↔◌, ◌⊎◌, List, length, if◌then◌else◌, IfOk, IsTrue};
ghost use Rattle.net_base.specs.Ndb.{NdbPair};
ghost use Rattle.net_base.specs.DomainAnswers as spec;
ghost use Rattle.ndb_dns.specs.Looks.{looks_of, most_looks};
ghost use Rattle.ndb_dns.specs.Refusals.{RefusesMessage};
ghost use Rattle.ndb_dns.specs.Taken.{AddsTaken, AreFewTaken};

use crate::fault::DnsError;
use crate::found::add_found;
use crate::key::key_of;
use crate::question::read_question;
use crate::record::{ADDRESS, ALIAS, INTERNET, POINTER};
use crate::reply::{Records, format_reply, reply};
use ndb_index::{Index, Steps};
use net_base::{Octets, Question};
use std::alloc::{AllocError, Global};
use std::marker::Brand;
use std::sync::ledger::{Blank, Ledger};

/// What a message is answered from a database, if it is: all but a response, and what has no header.
pub fn dns_answer(
    alloc: Global,
    index: &Index,
    message: &[u8],
) -> Result<Option<Octets>, AllocError>
    ensures { IfOk result (λ answer. answer ≡ spec.dns_answer index.now message.now) }
{
    answer_by::<Brand>(alloc, index, message, Blank::new(1))
}

/// Answers by a counter that no other call has.
fn answer_by<L: Ledger>(
    alloc: Global,
    index: &Index,
    message: &[u8],
    blank: Blank,
) -> Result<Option<Octets>, AllocError>
    requires name { blank.name ≡ L.name }
    requires parts { blank.parts ≡ L.parts }
    requires one { 0 < blank.parts }
    ensures { IfOk result (λ answer. answer ≡ spec.dns_answer index.now message.now) }
{
    let mut steps = Steps::<L>::new(blank);
    dns_answer_counted(alloc, index, message, &mut steps)
}

/// What a message is answered from a database, with a step for each look at a tuple.
pub fn dns_answer_counted<L: Ledger>(
    alloc: Global,
    index: &Index,
    message: &[u8],
    steps: &mut Steps<L>,
) -> Result<Option<Octets>, AllocError>
    ensures answer { IfOk result (λ answer. answer ≡ spec.dns_answer index.now message.now) }
    ensures cost { steps.new ≤ steps.old + most_looks index.now message.now }
{
    match read_question(alloc, message) {
        Ok(question) => {
            let reply = answer_question(alloc, index, message, &question, steps)?;
            Ok(Some(reply))
        }
        Err(error) => refuse(alloc, message, error),
    }
}

// The answer to a message whose question isn't read.
fn refuse(alloc: Global, message: &[u8], error: DnsError) -> Result<Option<Octets>, AllocError>
    requires { RefusesMessage error message.now }
    ensures { (db : List (List (List NdbPair))) → IfOk result (λ answer. answer ≡ spec.dns_answer db message.now) }
{
    match error {
        DnsError::Format => Ok(Some(format_reply(alloc, message)?)),
        DnsError::Memory => Err(AllocError),
        DnsError::Short => Ok(None),
        DnsError::Response => Ok(None),
    }
}

// The reply to a question.
fn answer_question<L: Ledger>(
    alloc: Global,
    index: &Index,
    message: &[u8],
    question: &Question,
    steps: &mut Steps<L>,
) -> Result<Octets, AllocError>
    requires { (12 ≤ question.now.end) × (question.now.end ≤ 271) × (question.now.end ≤ length message.now) }
    ensures reply { IfOk result (λ reply. reply ≡ spec.reply_of message.now question.now
        (spec.rcode_of index.now question.now) (spec.records_of index.now question.now)) }
    ensures cost { steps.new ≤ steps.old + looks_of index.now question.now }
{
    let mut records = Records::behind(alloc, question.end);
    let rcode = add_records(alloc, index, question, &mut records, steps)?;
    reply(alloc, message, question, rcode, &records)
}

// Adds the records of a question's answer, and gives the reply's code: 4 where it isn't implemented.
fn add_records<L: Ledger>(
    alloc: Global,
    index: &Index,
    question: &Question,
    records: &mut Records,
    steps: &mut Steps<L>,
) -> Result<u16, AllocError>
    requires { AreFewTaken records.old }
    ensures rcode { IfOk result (λ rcode. rcode ≡ spec.rcode_of index.now question.now) }
    ensures small { IfOk result (λ rcode. rcode < 16) }
    ensures took { IfOk result (λ rcode. AddsTaken records.old (spec.records_of index.now question.now) records.new) }
    ensures cost { steps.new ≤ steps.old + looks_of index.now question.now }
{
    if is_not_implemented(question) {
        return Ok(4);
    }
    add_known(alloc, index, question, records, steps)
}

// Whether its kind of query, its class or its type isn't answered.
fn is_not_implemented(question: &Question) -> bool
    ensures { result ≡ spec.is_not_implemented question.now }
{
    question.flags / 2048 % 16 != 0 || question.class != INTERNET || !is_answered(question.kind)
}

// Whether records of this type are told.
fn is_answered(kind: u16) -> bool
    ensures { IsTrue result ↔ ((kind ≡ 1) ⊎ ((kind ≡ 5) ⊎ (kind ≡ 12))) }
{
    kind == ADDRESS || kind == ALIAS || kind == POINTER
}

// Adds the records that are found, and gives the reply's code: 3 where the name isn't known.
fn add_known<L: Ledger>(
    alloc: Global,
    index: &Index,
    question: &Question,
    records: &mut Records,
    steps: &mut Steps<L>,
) -> Result<u16, AllocError>
    requires { AreFewTaken records.old }
    ensures rcode { IfOk result (λ rcode. rcode ≡ (if spec.is_unknown index.now
        (spec.key_of question.now) then 3 else 0)) }
    ensures small { IfOk result (λ rcode. rcode < 16) }
    ensures took { IfOk result (λ rcode. AddsTaken records.old
        (spec.records_found index.now question.now.kind (spec.key_of question.now)) records.new) }
    ensures cost { steps.new ≤ steps.old + looks_of index.now question.now }
{
    let Some(key) = key_of(alloc, question)? else {
        return Ok(3);
    };
    let spots = index.spots(alloc, key.attr, key.value.as_slice())?;
    if spots.is_empty() {
        return Ok(3);
    }
    add_found(alloc, index, question.kind, &key, records, steps)?;
    Ok(0)
}
