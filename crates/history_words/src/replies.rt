//! Replies.
ghost use Rattle.std.specs.Prelude.{◌≡◌, ◌++◌, OnOk};
ghost use Rattle.history_words.specs.Labels.{reply_label};

use crate::text::{put_beside, put_numbered};
use net_base::{Octets, Reply};
use std::alloc::AllocError;
use words::{cause_text, state_word};

/// Adds a reply: its word, and the number or the word that tells most.
pub fn put_reply(out: &mut Octets, reply: &Reply) -> Result<(), AllocError>
    ensures { OnOk result (out.new ≡ out.old ++ reply_label reply.now) }
{
    match reply {
        Reply::Lines { lines } => put_numbered(out, b"lines", lines.len() as u64),
        Reply::CsRefused { number } => put_numbered(out, b"csrefused", *number as u64),
        Reply::Names { names } => put_numbered(out, b"names", names.len() as u64),
        Reply::Version { version } => put_numbered(out, b"version", *version),
        Reply::Slot { slot, .. } => put_numbered(out, b"slot", *slot as u64),
        Reply::WrongState { state } => put_beside(out, b"wrong", state_word(*state)),
        Reply::PairUsed { k } => put_numbered(out, b"pairused", *k),
        Reply::PortTaken { slot } => put_numbered(out, b"taken", *slot as u64),
        Reply::Call { slot, .. } => put_numbered(out, b"call", *slot as u64),
        Reply::Calls { calls } => put_numbered(out, b"calls", calls.len() as u64),
        Reply::To { slot, .. } => put_numbered(out, b"to", *slot as u64),
        Reply::Born { slot, .. } => put_numbered(out, b"born", *slot as u64),
        Reply::Hungup { cause } => out.append(cause_text(*cause)),
        Reply::Bytes { bytes } => put_numbered(out, b"bytes", bytes.len() as u64),
        Reply::Count { count } => put_numbered(out, b"count", *count as u64),
        Reply::TooLong { length, .. } => put_numbered(out, b"toolong", *length),
        Reply::BadCtl { number } => put_numbered(out, b"badctl", *number as u64),
        Reply::Laid { frame } => put_numbered(out, b"laid", *frame),
        Reply::Copy { frame } => put_numbered(out, b"copy", *frame),
        Reply::NoFile => out.append(b"nofile"),
        Reply::BadMode => out.append(b"badmode"),
        Reply::BadFid => out.append(b"badfid"),
        Reply::Ok => out.append(b"ok"),
        Reply::NoSlot => out.append(b"noslot"),
        Reply::Granted { .. } => out.append(b"granted"),
        Reply::NoRoute => out.append(b"noroute"),
        Reply::NoPort => out.append(b"noport"),
        Reply::SelfPair => out.append(b"selfpair"),
        Reply::Refused => out.append(b"refused"),
        Reply::Dropped => out.append(b"dropped"),
        Reply::Stale => out.append(b"stale"),
        Reply::Opened { .. } => out.append(b"opened"),
        Reply::NotOpen => out.append(b"notopen"),
        Reply::ZeroWrite => out.append(b"zerowrite"),
        Reply::Left => out.append(b"left"),
        Reply::Took => out.append(b"took"),
        Reply::Full => out.append(b"full"),
        Reply::Ticked => out.append(b"ticked"),
        Reply::NotDue => out.append(b"notdue"),
        Reply::TooBig => out.append(b"toobig"),
        Reply::NoStation => out.append(b"nostation"),
    }
}
