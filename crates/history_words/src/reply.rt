//! Replies in words.
ghost use Rattle.std.specs.Prelude.{◌≡◌, ◌∷◌, ◌++◌, [], OnOk};
ghost use Rattle.net_base.specs.Transcript.{spaced};
ghost use Rattle.history_words.specs.HistoryWords.{born_words, calls_shown, each_call_shown, refusal_words, reply_shown};

use crate::put::{
    put_addr, put_beginning, put_named, put_number, put_slot, put_with_generation, put_with_slot,
    put_with_text, put_word,
};
use crate::shown::put_with_lines;
use net_base::{Call, CallList, Octets, Reply};
use std::alloc::AllocError;
use words::{cause_text, state_word};

/// What was answered.
pub fn put_reply(out: &mut Octets, reply: &Reply) -> Result<(), AllocError>
    ensures { OnOk result (out.new ≡ out.old ++ spaced (reply_shown reply.now)) }
{
    match reply {
        Reply::Lines { lines } => put_with_lines(out, b"lines", lines),
        Reply::CsRefused { number } => {
            put_word(out, b"refused:")?;
            put_refusal(out, *number)
        }
        Reply::Names { names } => put_with_lines(out, b"names", names),
        Reply::NoFile => put_word(out, b"no such file"),
        Reply::BadMode => put_word(out, b"bad mode"),
        Reply::BadFid => put_word(out, b"bad fid"),
        Reply::Ok => put_word(out, b"ok"),
        Reply::Version { version } => put_named(out, b"version", *version),
        Reply::Slot { slot, generation } => put_slot(out, *slot, *generation),
        Reply::NoSlot => put_word(out, b"no slot"),
        Reply::Granted { pair, start, limit } => {
            put_word(out, b"granted")?;
            put_addr(out, pair.local)?;
            put_word(out, b"to")?;
            put_addr(out, pair.remote)?;
            put_beginning(out, *start, *limit)
        }
        Reply::WrongState { state } => {
            put_word(out, b"wrong state:")?;
            put_word(out, state_word(*state))
        }
        Reply::NoRoute => put_word(out, b"no route"),
        Reply::NoPort => put_word(out, b"no port"),
        Reply::SelfPair => put_word(out, b"a pair with itself"),
        Reply::PairUsed { k } => put_named(out, b"pair used before, as number", *k),
        Reply::PortTaken { slot } => put_named(out, b"port taken by slot", *slot as u64),
        Reply::Call { slot, generation } => put_with_slot(out, b"call at", *slot, *generation),
        Reply::Calls { calls } => {
            put_word(out, b"calls that waited:")?;
            put_calls(out, calls)
        }
        Reply::To { slot, generation } => put_with_slot(out, b"to", *slot, *generation),
        Reply::Born {
            slot,
            generation,
            start,
            limit,
        } => put_born(out, *slot, *generation, *start, *limit),
        Reply::Refused => put_word(out, b"refused"),
        Reply::Dropped => put_word(out, b"dropped"),
        Reply::Stale => put_word(out, b"stale"),
        Reply::Hungup { cause } => {
            put_word(out, b"hung up:")?;
            put_word(out, cause_text(*cause))
        }
        Reply::Opened { generation } => put_with_generation(out, b"opened", *generation),
        Reply::NotOpen => put_word(out, b"not open"),
        Reply::Bytes { bytes } => put_with_text(out, b"bytes", bytes.as_slice()),
        Reply::Count { count } => put_named(out, b"count", *count as u64),
        Reply::ZeroWrite => put_word(out, b"nothing to write"),
        Reply::TooLong { length, limit } => {
            put_word(out, b"too long:")?;
            put_named(out, b"length", *length)?;
            put_named(out, b"limit", *limit as u64)
        }
        Reply::Left => put_word(out, b"left"),
        Reply::BadCtl { number } => put_named(out, b"bad control, number", *number as u64),
        Reply::Took => put_word(out, b"took"),
        Reply::Full => put_word(out, b"full"),
        Reply::Ticked => put_word(out, b"ticked"),
        Reply::NotDue => put_word(out, b"not due"),
        Reply::Laid { frame } => put_named(out, b"laid as frame", *frame),
        Reply::TooBig => put_word(out, b"too big"),
        Reply::NoStation => put_word(out, b"no station"),
        Reply::Copy { frame } => put_named(out, b"copy of frame", *frame),
    }
}

fn put_born(
    out: &mut Octets,
    slot: u32,
    generation: u64,
    start: u32,
    limit: u32,
) -> Result<(), AllocError>
    ensures { OnOk result (out.new ≡ out.old ++ spaced (born_words slot generation start limit)) }
{
    put_with_slot(out, b"born at", slot, generation)?;
    put_beginning(out, start, limit)
}

// Why cs refuses a query.
fn put_refusal(out: &mut Octets, number: u32) -> Result<(), AllocError>
    ensures { OnOk result (out.new ≡ out.old ++ spaced (refusal_words number ∷ [])) }
{
    match number {
        1 => put_word(out, b"bad query"),
        2 => put_word(out, b"no net"),
        3 => put_word(out, b"no host"),
        4 => put_word(out, b"no service"),
        5 => put_word(out, b"no value"),
        _ => put_number(out, number as u64),
    }
}

// The calls that waited, or that there are none.
fn put_calls(out: &mut Octets, calls: &CallList) -> Result<(), AllocError>
    ensures { OnOk result (out.new ≡ out.old ++ spaced (calls_shown calls.now)) }
{
    if calls.len() == 0 {
        return put_word(out, b"none");
    }
    put_each_call(out, calls.as_slice())
}

fn put_each_call(out: &mut Octets, calls: &[Call]) -> Result<(), AllocError>
    ensures { OnOk result (out.new ≡ out.old ++ spaced (each_call_shown calls.now)) }
{
    for call in calls {
        put_slot(out, call.slot, call.generation)?;
    }
    Ok(())
}
