//! Replies as a history prints them.
ghost use Rattle.std.specs.Prelude.{◌≡◌, ◌<◌, ◌≤◌, ◌^◌, true, drop, length, IfOk, OnOk};
ghost use Rattle.net_base.specs.declared.reply.Reply.TheVariants as reply;
ghost use Rattle.session_answers.specs.Told as spec;
ghost use Rattle.net_base.specs.SessionAnswers.{longest_error, printed as whole};

use net_base::{Octets, Pair, Reply};
use std::alloc::{AllocError, Global};
use transcript::put_reply;

/// A brief reply as a history prints it, without the blank before it.
pub fn printed(alloc: Global, reply: &Reply) -> Result<Octets, AllocError>
    ensures text { IfOk result (λ text. text ≡ spec.told_reply_text reply.now) }
    ensures short { OnOk result (length (spec.told_reply_text reply.now) ≤ longest_error) }
{
    let mut words = Octets::new(alloc);
    if is_brief(reply) {
        put_reply(&mut words, reply)?;
    }
    Octets::from_slice(alloc, behind_first(words.as_slice()))
}

/// Whether the reply is brief.
pub fn is_brief(reply: &Reply) -> bool
    ensures is { result ≡ spec.is_brief reply.now }
    ensures short { length (spec.told_reply_text reply.now) ≤ longest_error }
{
    match reply {
        Reply::CsRefused { number } => is_number(*number),
        Reply::Granted { pair, start, limit } => is_grant(pair, *start, *limit),
        Reply::PairUsed { k } => is_count(*k),
        Reply::PortTaken { slot } => is_number(*slot),
        Reply::TooLong { length, limit } => are_numbers(*length, *limit),
        Reply::BadCtl { number } => is_number(*number),
        Reply::NoFile => true,
        Reply::BadMode => true,
        Reply::BadFid => true,
        Reply::NoSlot => true,
        Reply::WrongState { .. } => true,
        Reply::NoRoute => true,
        Reply::NoPort => true,
        Reply::SelfPair => true,
        Reply::Stale => true,
        Reply::Hungup { .. } => true,
        Reply::NotOpen => true,
        Reply::ZeroWrite => true,
        _ => false,
    }
}

// A number of a reply has at most 20 digits.
fn is_number(number: u32) -> bool
    ensures is { result ≡ true }
    ensures few { number < 2 ^ 64 }
{
    true
}

fn is_count(count: u64) -> bool
    ensures is { result ≡ true }
    ensures few { count < 2 ^ 64 }
{
    true
}

fn are_numbers(count: u64, number: u32) -> bool
    ensures is { result ≡ true }
    ensures few { (count < 2 ^ 64) × (number < 2 ^ 64) }
{
    true
}

fn is_address(ip: u32, port: u16) -> bool
    ensures is { result ≡ true }
    ensures few { (ip < 2 ^ 32) × (port < 2 ^ 16) }
{
    true
}

// A grant has two addresses and two numbers.
fn is_grant(pair: &Pair, start: u32, limit: u32) -> bool
    ensures is { result ≡ true }
    ensures short { length (whole (reply.Granted pair.now start limit)) ≤ longest_error }
{
    let local = is_address(pair.local.ip, pair.local.port);
    let remote = is_address(pair.remote.ip, pair.remote.port);
    let first = is_number(start);
    let last = is_number(limit);
    (local == remote) == (first == last)
}

fn behind_first(bytes: &[u8]) -> &[u8]
    ensures { result.now ≡ drop 1 bytes.now }
{
    if bytes.is_empty() {
        return bytes;
    }
    &bytes[1..]
}
