//! Replies as words.
ghost use Rattle.std.specs.Prelude.{◌≡◌, ◌++◌, OnOk};
ghost use Rattle.net_base.specs.Transcript as spec;
ghost use Rattle.net_base.specs.Transcript.{spaced, reply_words, call_words, calls_of};

use crate::line::{
    put_number, put_with_hex, put_with_lines, put_with_number, put_with_numbers, put_word,
};
use crate::names::put_addr;
use net_base::{Call, CallList, Cause, Octets, Reply};
use std::alloc::AllocError;
use words::state_word;

/// A reply: its word and what goes with it.
pub fn put_reply(out: &mut Octets, reply: &Reply) -> Result<(), AllocError>
    ensures { OnOk result (out.new ≡ out.old ++ spaced (reply_words reply.now)) }
{
    match reply {
        Reply::Lines { lines } => put_with_lines(out, b"lines", lines),
        Reply::CsRefused { number } => put_with_number(out, b"csrefused", *number as u64),
        Reply::Names { names } => put_with_lines(out, b"names", names),
        Reply::NoFile => put_word(out, b"nofile"),
        Reply::BadMode => put_word(out, b"badmode"),
        Reply::BadFid => put_word(out, b"badfid"),
        Reply::Ok => put_word(out, b"ok"),
        Reply::Version { version } => put_with_number(out, b"version", *version),
        Reply::Slot { slot, generation } => {
            put_with_numbers(out, b"slot", *slot as u64, *generation)
        }
        Reply::NoSlot => put_word(out, b"noslot"),
        Reply::Granted { pair, start, limit } => {
            put_word(out, b"granted")?;
            put_addr(out, pair.local)?;
            put_addr(out, pair.remote)?;
            put_number(out, *start as u64)?;
            put_number(out, *limit as u64)
        }
        Reply::WrongState { state } => {
            put_word(out, b"wrong")?;
            put_word(out, state_word(*state))
        }
        Reply::NoRoute => put_word(out, b"noroute"),
        Reply::NoPort => put_word(out, b"noport"),
        Reply::SelfPair => put_word(out, b"selfpair"),
        Reply::PairUsed { k } => put_with_number(out, b"pairused", *k),
        Reply::PortTaken { slot } => put_with_number(out, b"taken", *slot as u64),
        Reply::Call { slot, generation } => {
            put_with_numbers(out, b"call", *slot as u64, *generation)
        }
        Reply::Calls { calls } => {
            put_word(out, b"calls")?;
            put_calls(out, calls)
        }
        Reply::To { slot, generation } => put_with_numbers(out, b"to", *slot as u64, *generation),
        Reply::Born {
            slot,
            generation,
            start,
            limit,
        } => {
            put_with_numbers(out, b"born", *slot as u64, *generation)?;
            put_number(out, *start as u64)?;
            put_number(out, *limit as u64)
        }
        Reply::Refused => put_word(out, b"refused"),
        Reply::Dropped => put_word(out, b"dropped"),
        Reply::Stale => put_word(out, b"stale"),
        Reply::Hungup { cause } => put_with_number(out, b"hungup", cause_number(*cause)),
        Reply::Opened { generation } => put_with_number(out, b"opened", *generation),
        Reply::NotOpen => put_word(out, b"notopen"),
        Reply::Bytes { bytes } => put_with_hex(out, b"bytes", bytes.as_slice()),
        Reply::Count { count } => put_with_number(out, b"count", *count as u64),
        Reply::ZeroWrite => put_word(out, b"zerowrite"),
        Reply::TooLong { length, limit } => {
            put_with_numbers(out, b"toolong", *length, *limit as u64)
        }
        Reply::Left => put_word(out, b"left"),
        Reply::BadCtl { number } => put_with_number(out, b"badctl", *number as u64),
        Reply::Took => put_word(out, b"took"),
        Reply::Full => put_word(out, b"full"),
        Reply::Ticked => put_word(out, b"ticked"),
        Reply::NotDue => put_word(out, b"notdue"),
        Reply::Laid { frame } => put_with_number(out, b"laid", *frame),
        Reply::TooBig => put_word(out, b"toobig"),
        Reply::NoStation => put_word(out, b"nostation"),
        Reply::Copy { frame } => put_with_number(out, b"copy", *frame),
    }
}

fn cause_number(cause: Cause) -> u64
    ensures { result ≡ spec.cause_number cause }
{
    match cause {
        Cause::Refused => 1,
        Cause::TimedOut => 2,
        Cause::Hungup => 3,
        Cause::ByPeer => 4,
    }
}

// The calls that waited, or a dash for none.
fn put_calls(out: &mut Octets, calls: &CallList) -> Result<(), AllocError>
    ensures { OnOk result (out.new ≡ out.old ++ spaced (call_words calls.now)) }
{
    if calls.len() == 0 {
        return put_word(out, b"-");
    }
    put_each_call(out, calls.as_slice())
}

fn put_each_call(out: &mut Octets, calls: &[Call]) -> Result<(), AllocError>
    ensures { OnOk result (out.new ≡ out.old ++ spaced (calls_of calls.now)) }
{
    for call in calls {
        put_number(out, call.slot as u64)?;
        put_number(out, call.generation)?;
    }
    Ok(())
}
