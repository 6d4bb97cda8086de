//! Replies as members.
ghost use Rattle.std.specs.Prelude.{◌≡◌, ◌++◌, OnOk};
ghost use Rattle.history_json.specs.HistoryJson.{born_members, call_pair, calls_member, granted_members, later_calls, long_members, reply_members, with_word};
ghost use Rattle.history_json.specs.Members.{joined};

use crate::member::{
    put_addr, put_kind, put_label, put_number, put_only, put_with_generation, put_with_number,
    put_with_slot, put_word,
};
use crate::text::{put_lines, put_text};
use net_base::{Addr, Call, Octets, Reply};
use std::alloc::{AllocError, Global};
use words::{cause_text, put_decimal, state_word};

/// What was answered.
pub fn put_reply(out: &mut Octets, alloc: Global, reply: &Reply) -> Result<(), AllocError>
    ensures { OnOk result (out.new ≡ out.old ++ joined (reply_members reply.now)) }
{
    match reply {
        Reply::Lines { lines } => {
            put_kind(out, b"lines")?;
            put_lines(out, alloc, lines.as_slice())
        }
        Reply::CsRefused { number } => {
            put_with_number(out, b"csrefused", b"number", *number as u64)
        }
        Reply::Names { names } => {
            put_kind(out, b"names")?;
            put_lines(out, alloc, names.as_slice())
        }
        Reply::NoFile => put_only(out, b"nofile"),
        Reply::BadMode => put_only(out, b"badmode"),
        Reply::BadFid => put_only(out, b"badfid"),
        Reply::Ok => put_only(out, b"ok"),
        Reply::Version { version } => put_with_number(out, b"version", b"number", *version),
        Reply::Slot { slot, generation } => put_with_slot(out, b"slot", *slot, *generation),
        Reply::NoSlot => put_only(out, b"noslot"),
        Reply::Granted { pair, start, limit } => {
            put_granted(out, pair.local, pair.remote, *start, *limit)
        }
        Reply::WrongState { state } => put_with_word(out, b"wrong", b"state", state_word(*state)),
        Reply::NoRoute => put_only(out, b"noroute"),
        Reply::NoPort => put_only(out, b"noport"),
        Reply::SelfPair => put_only(out, b"selfpair"),
        Reply::PairUsed { k } => put_with_number(out, b"pairused", b"number", *k),
        Reply::PortTaken { slot } => put_with_number(out, b"taken", b"slot", *slot as u64),
        Reply::Call { slot, generation } => put_with_slot(out, b"call", *slot, *generation),
        Reply::Calls { calls } => {
            put_kind(out, b"calls")?;
            put_calls(out, calls.as_slice())
        }
        Reply::To { slot, generation } => put_with_slot(out, b"to", *slot, *generation),
        Reply::Born {
            slot,
            generation,
            start,
            limit,
        } => put_born(out, *slot, *generation, *start, *limit),
        Reply::Refused => put_only(out, b"refused"),
        Reply::Dropped => put_only(out, b"dropped"),
        Reply::Stale => put_only(out, b"stale"),
        Reply::Hungup { cause } => put_with_word(out, b"hungup", b"cause", cause_text(*cause)),
        Reply::Opened { generation } => put_with_generation(out, b"opened", *generation),
        Reply::NotOpen => put_only(out, b"notopen"),
        Reply::Bytes { bytes } => {
            put_kind(out, b"bytes")?;
            put_text(out, bytes.as_slice())
        }
        Reply::Count { count } => put_with_number(out, b"count", b"number", *count as u64),
        Reply::ZeroWrite => put_only(out, b"zerowrite"),
        Reply::TooLong { length, limit } => put_long(out, *length, *limit),
        Reply::Left => put_only(out, b"left"),
        Reply::BadCtl { number } => put_with_number(out, b"badctl", b"number", *number as u64),
        Reply::Took => put_only(out, b"took"),
        Reply::Full => put_only(out, b"full"),
        Reply::Ticked => put_only(out, b"ticked"),
        Reply::NotDue => put_only(out, b"notdue"),
        Reply::Laid { frame } => put_with_number(out, b"laid", b"frame", *frame),
        Reply::TooBig => put_only(out, b"toobig"),
        Reply::NoStation => put_only(out, b"nostation"),
        Reply::Copy { frame } => put_with_number(out, b"copy", b"frame", *frame),
    }
}

// A kind with a word of this name.
fn put_with_word(out: &mut Octets, kind: &[u8], name: &[u8], word: &[u8]) -> Result<(), AllocError>
    ensures { OnOk result (out.new ≡ out.old ++ joined (with_word kind.now name.now word.now)) }
{
    put_kind(out, kind)?;
    put_word(out, name, word)
}

fn put_born(
    out: &mut Octets,
    slot: u32,
    generation: u64,
    start: u32,
    limit: u32,
) -> Result<(), AllocError>
    ensures { OnOk result (out.new ≡ out.old ++ joined (born_members slot generation start limit)) }
{
    put_with_slot(out, b"born", slot, generation)?;
    put_number(out, b"start", start as u64)?;
    put_number(out, b"limit", limit as u64)
}

fn put_granted(
    out: &mut Octets,
    local: Addr,
    remote: Addr,
    start: u32,
    limit: u32,
) -> Result<(), AllocError>
    ensures { OnOk result (out.new ≡ out.old ++ joined (granted_members local remote start limit)) }
{
    put_kind(out, b"granted")?;
    put_addr(out, b"local", local)?;
    put_addr(out, b"remote", remote)?;
    put_number(out, b"start", start as u64)?;
    put_number(out, b"limit", limit as u64)
}

fn put_long(out: &mut Octets, length: u64, limit: u32) -> Result<(), AllocError>
    ensures { OnOk result (out.new ≡ out.old ++ joined (long_members length limit)) }
{
    put_kind(out, b"toolong")?;
    put_number(out, b"length", length)?;
    put_number(out, b"limit", limit as u64)
}

// The calls that wait.
#[tactic(auto, unfolding(crate::specs::HistoryJson::calls_member))]
fn put_calls(out: &mut Octets, calls: &[Call]) -> Result<(), AllocError>
    ensures { OnOk result (out.new ≡ out.old ++ calls_member calls.now) }
{
    put_label(out, b"calls")?;
    out.push(b'[')?;
    if let [first, later @ ..] = calls {
        put_call(out, *first)?;
        put_later_calls(out, later)?;
    }
    out.push(b']')
}

fn put_later_calls(out: &mut Octets, calls: &[Call]) -> Result<(), AllocError>
    ensures { OnOk result (out.new ≡ out.old ++ later_calls calls.now) }
{
    for call in calls {
        out.push(b',')?;
        put_call(out, *call)?;
    }
    Ok(())
}

#[tactic(auto, unfolding(crate::specs::HistoryJson::call_pair))]
fn put_call(out: &mut Octets, call: Call) -> Result<(), AllocError>
    ensures { OnOk result (out.new ≡ out.old ++ call_pair call) }
{
    out.push(b'[')?;
    put_decimal(out, call.slot as u64)?;
    out.push(b',')?;
    put_decimal(out, call.generation)?;
    out.push(b']')
}
