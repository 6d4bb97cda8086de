//! Replies by their first words.
ghost use Rattle.std.specs.Prelude.{◌≡◌, IfOk};
ghost use Rattle.history_reader.specs.Fields.{row_of};
ghost use Rattle.history_reader.specs.ReplyRows as spec;

use crate::calls::calls;
use crate::cursor::Words;
use crate::fields::{cause, long, narrow, place, state};
use crate::texts::{text, texts};
use net_base::{Pair, Reply};
use std::alloc::{AllocError, Global};

/// The reply that comes first, and the words behind it.
pub(crate) fn read_reply<'a>(
    alloc: Global,
    words: &Words<'a>,
) -> Result<Option<(Reply, Words<'a>)>, AllocError>
    ensures { IfOk result (λ read. read ≡ spec.reply_read words.now) }
{
    let Some((word, words)) = words.next() else {
        return Ok(None);
    };
    reply_of(alloc, word, &words)
}

/// A reply by its word and those behind it.
fn reply_of<'a>(
    alloc: Global,
    word: &[u8],
    words: &Words<'a>,
) -> Result<Option<(Reply, Words<'a>)>, AllocError>
    ensures { IfOk result (λ read. read ≡ row_of spec.reply_rows word.now words.now) }
{
    if word == b"ok".as_slice() {
        Ok(Some((Reply::Ok, words.again())))
    } else if word == b"count".as_slice() {
        Ok(count(words))
    } else if word == b"slot".as_slice() {
        Ok(slot(words))
    } else if word == b"bytes".as_slice() {
        bytes(alloc, words)
    } else if word == b"lines".as_slice() {
        lines(alloc, words)
    } else if word == b"names".as_slice() {
        names(alloc, words)
    } else if word == b"calls".as_slice() {
        waited(alloc, words)
    } else {
        Ok(number_reply(word, words))
    }
}

fn count<'a>(words: &Words<'a>) -> Option<(Reply, Words<'a>)>
    ensures { result ≡ spec.count words.now }
{
    let (count, words) = narrow(words)?;
    Some((Reply::Count { count }, words))
}

fn slot<'a>(words: &Words<'a>) -> Option<(Reply, Words<'a>)>
    ensures { result ≡ spec.slot_read words.now }
{
    let (slot, words) = narrow(words)?;
    let (generation, words) = long(&words)?;
    Some((Reply::Slot { slot, generation }, words))
}

fn bytes<'a>(alloc: Global, words: &Words<'a>) -> Result<Option<(Reply, Words<'a>)>, AllocError>
    ensures { IfOk result (λ read. read ≡ spec.bytes words.now) }
{
    match text(alloc, words)? {
        Some((bytes, words)) => Ok(Some((Reply::Bytes { bytes }, words))),
        None => Ok(None),
    }
}

fn lines<'a>(alloc: Global, words: &Words<'a>) -> Result<Option<(Reply, Words<'a>)>, AllocError>
    ensures { IfOk result (λ read. read ≡ spec.lines words.now) }
{
    match texts(alloc, words)? {
        Some((lines, words)) => Ok(Some((Reply::Lines { lines }, words))),
        None => Ok(None),
    }
}

fn names<'a>(alloc: Global, words: &Words<'a>) -> Result<Option<(Reply, Words<'a>)>, AllocError>
    ensures { IfOk result (λ read. read ≡ spec.read_names words.now) }
{
    match texts(alloc, words)? {
        Some((names, words)) => Ok(Some((Reply::Names { names }, words))),
        None => Ok(None),
    }
}

fn waited<'a>(alloc: Global, words: &Words<'a>) -> Result<Option<(Reply, Words<'a>)>, AllocError>
    ensures { IfOk result (λ read. read ≡ spec.waited words.now) }
{
    match calls(alloc, words)? {
        Some((calls, words)) => Ok(Some((Reply::Calls { calls }, words))),
        None => Ok(None),
    }
}

/// Rows with a number, and those behind them.
fn number_reply<'a>(word: &[u8], words: &Words<'a>) -> Option<(Reply, Words<'a>)>
    ensures { result ≡ row_of spec.number_rows word.now words.now }
{
    if word == b"csrefused".as_slice() {
        let (number, words) = narrow(words)?;
        Some((Reply::CsRefused { number }, words))
    } else if word == b"pairused".as_slice() {
        let (k, words) = long(words)?;
        Some((Reply::PairUsed { k }, words))
    } else if word == b"taken".as_slice() {
        let (slot, words) = narrow(words)?;
        Some((Reply::PortTaken { slot }, words))
    } else if word == b"opened".as_slice() {
        let (generation, words) = long(words)?;
        Some((Reply::Opened { generation }, words))
    } else if word == b"badctl".as_slice() {
        let (number, words) = narrow(words)?;
        Some((Reply::BadCtl { number }, words))
    } else if word == b"version".as_slice() {
        let (version, words) = long(words)?;
        Some((Reply::Version { version }, words))
    } else if word == b"laid".as_slice() {
        let (frame, words) = long(words)?;
        Some((Reply::Laid { frame }, words))
    } else if word == b"copy".as_slice() {
        let (frame, words) = long(words)?;
        Some((Reply::Copy { frame }, words))
    } else {
        several_reply(word, words)
    }
}

/// Rows with several fields or a name, and those behind them.
fn several_reply<'a>(word: &[u8], words: &Words<'a>) -> Option<(Reply, Words<'a>)>
    ensures { result ≡ row_of spec.several_rows word.now words.now }
{
    if word == b"call".as_slice() {
        let (slot, words) = narrow(words)?;
        let (generation, words) = long(&words)?;
        Some((Reply::Call { slot, generation }, words))
    } else if word == b"to".as_slice() {
        let (slot, words) = narrow(words)?;
        let (generation, words) = long(&words)?;
        Some((Reply::To { slot, generation }, words))
    } else if word == b"toolong".as_slice() {
        let (length, words) = long(words)?;
        let (limit, words) = narrow(&words)?;
        Some((Reply::TooLong { length, limit }, words))
    } else if word == b"granted".as_slice() {
        let (local, words) = place(words)?;
        let (remote, words) = place(&words)?;
        let (start, words) = narrow(&words)?;
        let (limit, words) = narrow(&words)?;
        Some((
            Reply::Granted {
                pair: Pair { local, remote },
                start,
                limit,
            },
            words,
        ))
    } else if word == b"born".as_slice() {
        let (slot, words) = narrow(words)?;
        let (generation, words) = long(&words)?;
        let (start, words) = narrow(&words)?;
        let (limit, words) = narrow(&words)?;
        Some((
            Reply::Born {
                slot,
                generation,
                start,
                limit,
            },
            words,
        ))
    } else if word == b"wrong".as_slice() {
        let (state, words) = state(words)?;
        Some((Reply::WrongState { state }, words))
    } else if word == b"hungup".as_slice() {
        let (cause, words) = cause(words)?;
        Some((Reply::Hungup { cause }, words))
    } else {
        bare_reply(word, words)
    }
}

/// Rows of one word, and those behind them.
fn bare_reply<'a>(word: &[u8], words: &Words<'a>) -> Option<(Reply, Words<'a>)>
    ensures { result ≡ row_of spec.bare_rows word.now words.now }
{
    if word == b"nofile".as_slice() {
        Some((Reply::NoFile, words.again()))
    } else if word == b"badmode".as_slice() {
        Some((Reply::BadMode, words.again()))
    } else if word == b"badfid".as_slice() {
        Some((Reply::BadFid, words.again()))
    } else if word == b"noslot".as_slice() {
        Some((Reply::NoSlot, words.again()))
    } else if word == b"noroute".as_slice() {
        Some((Reply::NoRoute, words.again()))
    } else if word == b"noport".as_slice() {
        Some((Reply::NoPort, words.again()))
    } else if word == b"selfpair".as_slice() {
        Some((Reply::SelfPair, words.again()))
    } else {
        refused_reply(word, words)
    }
}

/// More rows of one word, and those behind them.
fn refused_reply<'a>(word: &[u8], words: &Words<'a>) -> Option<(Reply, Words<'a>)>
    ensures { result ≡ row_of spec.refused_rows word.now words.now }
{
    if word == b"refused".as_slice() {
        Some((Reply::Refused, words.again()))
    } else if word == b"dropped".as_slice() {
        Some((Reply::Dropped, words.again()))
    } else if word == b"stale".as_slice() {
        Some((Reply::Stale, words.again()))
    } else if word == b"notopen".as_slice() {
        Some((Reply::NotOpen, words.again()))
    } else if word == b"zerowrite".as_slice() {
        Some((Reply::ZeroWrite, words.again()))
    } else if word == b"left".as_slice() {
        Some((Reply::Left, words.again()))
    } else {
        last_reply(word, words)
    }
}

/// The last rows of one word.
fn last_reply<'a>(word: &[u8], words: &Words<'a>) -> Option<(Reply, Words<'a>)>
    ensures { result ≡ row_of spec.last_rows word.now words.now }
{
    if word == b"took".as_slice() {
        Some((Reply::Took, words.again()))
    } else if word == b"full".as_slice() {
        Some((Reply::Full, words.again()))
    } else if word == b"ticked".as_slice() {
        Some((Reply::Ticked, words.again()))
    } else if word == b"notdue".as_slice() {
        Some((Reply::NotDue, words.again()))
    } else if word == b"toobig".as_slice() {
        Some((Reply::TooBig, words.again()))
    } else if word == b"nostation".as_slice() {
        Some((Reply::NoStation, words.again()))
    } else {
        None
    }
}
