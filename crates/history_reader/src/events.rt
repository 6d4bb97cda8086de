//! Events by their first words.
ghost use Rattle.std.specs.Prelude.{◌≡◌, IfOk};
ghost use Rattle.history_reader.specs.Fields.{row_of};
ghost use Rattle.history_reader.specs.EventRows as spec;

use crate::cursor::Words;
use crate::fields::{
    file, ip_or_star, long, mode, narrow, narrow_or_dash, octet, place, port, port_or_dash,
    port_or_star,
};
use crate::texts::{name, text};
use net_base::Event;
use std::alloc::{AllocError, Global};

/// The event that comes first, and the words behind it.
pub(crate) fn read_event<'a>(
    alloc: Global,
    words: &Words<'a>,
) -> Result<Option<(Event, Words<'a>)>, AllocError>
    ensures { IfOk result (λ read. read ≡ spec.event_of words.now) }
{
    let Some((word, words)) = words.next() else {
        return Ok(None);
    };
    event_of(alloc, word, &words)
}

/// An event by its word and those behind it.
fn event_of<'a>(
    alloc: Global,
    word: &[u8],
    words: &Words<'a>,
) -> Result<Option<(Event, Words<'a>)>, AllocError>
    ensures { IfOk result (λ read. read ≡ row_of spec.event_rows word.now words.now) }
{
    if word == b"cs".as_slice() {
        cs(alloc, words)
    } else if word == b"ls".as_slice() {
        ls(alloc, words)
    } else if word == b"open".as_slice() {
        open(alloc, words)
    } else if word == b"use".as_slice() {
        use_of(alloc, words)
    } else if word == b"misuse".as_slice() {
        misuse(alloc, words)
    } else if word == b"write".as_slice() {
        write(alloc, words)
    } else if word == b"ctl".as_slice() {
        ctl(alloc, words)
    } else {
        Ok(generation_event(word, words))
    }
}

fn cs<'a>(alloc: Global, words: &Words<'a>) -> Result<Option<(Event, Words<'a>)>, AllocError>
    ensures { IfOk result (λ read. read ≡ spec.cs words.now) }
{
    match text(alloc, words)? {
        Some((query, words)) => Ok(Some((Event::Cs { query }, words))),
        None => Ok(None),
    }
}

/// An `ls` with a path is the desk's.
fn ls<'a>(alloc: Global, words: &Words<'a>) -> Result<Option<(Event, Words<'a>)>, AllocError>
    ensures { IfOk result (λ read. read ≡ spec.ls_read words.now) }
{
    match text(alloc, words)? {
        Some((path, words)) => Ok(Some((Event::LsPath { path }, words))),
        None => Ok(Some((Event::Ls, words.again()))),
    }
}

/// An `open` of a file's name is a conversation's.
fn open<'a>(alloc: Global, words: &Words<'a>) -> Result<Option<(Event, Words<'a>)>, AllocError>
    ensures { IfOk result (λ read. read ≡ spec.read_opening words.now) }
{
    match open_file(words) {
        Some(read) => Ok(Some(read)),
        None => open_path(alloc, words),
    }
}

fn open_file<'a>(words: &Words<'a>) -> Option<(Event, Words<'a>)>
    ensures { result ≡ spec.open_file words.now }
{
    let (file, words) = file(words)?;
    let (mode, words) = mode(&words)?;
    Some((Event::Open { file, mode }, words))
}

fn open_path<'a>(alloc: Global, words: &Words<'a>) -> Result<Option<(Event, Words<'a>)>, AllocError>
    ensures { IfOk result (λ read. read ≡ spec.open_path words.now) }
{
    let Some((path, words)) = text(alloc, words)? else {
        return Ok(None);
    };
    match mode(&words) {
        Some((mode, words)) => Ok(Some((Event::OpenPath { path, mode }, words))),
        None => Ok(None),
    }
}

fn use_of<'a>(alloc: Global, words: &Words<'a>) -> Result<Option<(Event, Words<'a>)>, AllocError>
    ensures { IfOk result (λ read. read ≡ spec.use_of words.now) }
{
    match name(alloc, words)? {
        Some((name, words)) => Ok(Some((Event::Use { name }, words))),
        None => Ok(None),
    }
}

fn misuse<'a>(alloc: Global, words: &Words<'a>) -> Result<Option<(Event, Words<'a>)>, AllocError>
    ensures { IfOk result (λ read. read ≡ spec.read_misuse words.now) }
{
    match name(alloc, words)? {
        Some((name, words)) => Ok(Some((Event::Misuse { name }, words))),
        None => Ok(None),
    }
}

fn write<'a>(alloc: Global, words: &Words<'a>) -> Result<Option<(Event, Words<'a>)>, AllocError>
    ensures { IfOk result (λ read. read ≡ spec.write_read words.now) }
{
    let Some((generation, words)) = long(words) else {
        return Ok(None);
    };
    match text(alloc, &words)? {
        Some((text, words)) => Ok(Some((Event::Write { generation, text }, words))),
        None => Ok(None),
    }
}

fn ctl<'a>(alloc: Global, words: &Words<'a>) -> Result<Option<(Event, Words<'a>)>, AllocError>
    ensures { IfOk result (λ read. read ≡ spec.ctl words.now) }
{
    let Some((generation, words)) = long(words) else {
        return Ok(None);
    };
    match text(alloc, &words)? {
        Some((text, words)) => Ok(Some((Event::Ctl { generation, text }, words))),
        None => Ok(None),
    }
}

/// The first rows of a conversation, and those behind them.
fn generation_event<'a>(word: &[u8], words: &Words<'a>) -> Option<(Event, Words<'a>)>
    ensures { result ≡ row_of spec.generation_rows word.now words.now }
{
    if word == b"begin".as_slice() {
        let (generation, words) = long(words)?;
        Some((Event::Begin { generation }, words))
    } else if word == b"born".as_slice() {
        let (generation, words) = long(words)?;
        Some((Event::Born { generation }, words))
    } else if word == b"claim".as_slice() {
        let (generation, words) = long(words)?;
        Some((Event::Claim { generation }, words))
    } else if word == b"connect".as_slice() {
        let (generation, words) = long(words)?;
        Some((Event::Connect { generation }, words))
    } else if word == b"announced".as_slice() {
        let (generation, words) = long(words)?;
        Some((Event::Announced { generation }, words))
    } else if word == b"bound".as_slice() {
        let (generation, words) = long(words)?;
        Some((Event::Bound { generation }, words))
    } else if word == b"await".as_slice() {
        let (generation, words) = long(words)?;
        Some((Event::Await { generation }, words))
    } else {
        end_event(word, words)
    }
}

/// The other rows of a conversation, and those behind them.
fn end_event<'a>(word: &[u8], words: &Words<'a>) -> Option<(Event, Words<'a>)>
    ensures { result ≡ row_of spec.end_rows word.now words.now }
{
    if word == b"hangup".as_slice() {
        let (generation, words) = long(words)?;
        Some((Event::Hangup { generation }, words))
    } else if word == b"close".as_slice() {
        let (generation, words) = long(words)?;
        Some((Event::Close { generation }, words))
    } else if word == b"tick".as_slice() {
        let (generation, words) = long(words)?;
        Some((Event::Tick { generation }, words))
    } else if word == b"arrive".as_slice() {
        arrive(words)
    } else if word == b"read".as_slice() {
        let (generation, words) = long(words)?;
        let (count, words) = narrow(&words)?;
        Some((Event::Read { generation, count }, words))
    } else if word == b"ttl".as_slice() {
        let (generation, words) = long(words)?;
        let (n, words) = octet(&words)?;
        Some((Event::Ttl { generation, n }, words))
    } else if word == b"tos".as_slice() {
        let (generation, words) = long(words)?;
        let (n, words) = octet(&words)?;
        Some((Event::Tos { generation, n }, words))
    } else {
        slot_event(word, words)
    }
}

/// An `arrive` with a generation is a conversation's, one without a directory's.
fn arrive<'a>(words: &Words<'a>) -> Option<(Event, Words<'a>)>
    ensures { result ≡ spec.arrive words.now }
{
    match long(words) {
        Some((generation, words)) => Some((Event::ArriveAt { generation }, words)),
        None => Some((Event::Arrive, words.again())),
    }
}

/// Rows that name a slot, and those behind them.
fn slot_event<'a>(word: &[u8], words: &Words<'a>) -> Option<(Event, Words<'a>)>
    ensures { result ≡ row_of spec.slot_rows word.now words.now }
{
    if word == b"grant".as_slice() {
        let (slot, words) = narrow(words)?;
        let (generation, words) = long(&words)?;
        let (remote, words) = place(&words)?;
        let (lport, words) = port_or_dash(&words)?;
        Some((
            Event::Grant {
                slot,
                generation,
                remote,
                lport,
            },
            words,
        ))
    } else if word == b"announce".as_slice() {
        let (slot, words) = narrow(words)?;
        let (generation, words) = long(&words)?;
        let (ip, words) = ip_or_star(&words)?;
        let (port, words) = port_or_star(&words)?;
        Some((
            Event::Announce {
                slot,
                generation,
                ip,
                port,
            },
            words,
        ))
    } else if word == b"bind".as_slice() {
        let (slot, words) = narrow(words)?;
        let (generation, words) = long(&words)?;
        let (port, words) = port(&words)?;
        Some((
            Event::Bind {
                slot,
                generation,
                port,
            },
            words,
        ))
    } else if word == b"listen".as_slice() {
        let (slot, words) = narrow(words)?;
        Some((Event::Listen { slot }, words))
    } else if word == b"withdraw".as_slice() {
        let (slot, words) = narrow(words)?;
        let (generation, words) = long(&words)?;
        Some((Event::Withdraw { slot, generation }, words))
    } else if word == b"release".as_slice() {
        let (slot, words) = narrow(words)?;
        let (generation, words) = long(&words)?;
        Some((Event::Release { slot, generation }, words))
    } else if word == b"file".as_slice() {
        let (generation, words) = long(words)?;
        let (file, words) = file(&words)?;
        let (count, words) = narrow(&words)?;
        Some((
            Event::File {
                generation,
                file,
                count,
            },
            words,
        ))
    } else {
        other_event(word, words)
    }
}

/// Rows of a directory, of media and of the clock.
fn other_event<'a>(word: &[u8], words: &Words<'a>) -> Option<(Event, Words<'a>)>
    ensures { result ≡ row_of spec.other_rows word.now words.now }
{
    if word == b"reserve".as_slice() {
        Some((Event::Reserve, words.again()))
    } else if word == b"take".as_slice() {
        Some((Event::Take, words.again()))
    } else if word == b"put".as_slice() {
        let (to, words) = narrow_or_dash(words)?;
        Some((Event::Put { to }, words))
    } else if word == b"move".as_slice() {
        let (moment, words) = long(words)?;
        Some((Event::Move { moment }, words))
    } else if word == b"until".as_slice() {
        let (moment, words) = long(words)?;
        Some((Event::Until { moment }, words))
    } else if word == b"refresh".as_slice() {
        Some((Event::Refresh, words.again()))
    } else {
        None
    }
}
