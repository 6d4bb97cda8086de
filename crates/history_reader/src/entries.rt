//! A line of an entry, by the words behind its stamp.
ghost use Rattle.std.specs.Prelude.{◌≡◌, IfOk};
ghost use Rattle.history_reader.specs.EntryReading as spec;

use crate::cursor::Words;
use crate::events::read_event;
use crate::fields::{actor, kind, long, long_or_dash, narrow, octet, place};
use crate::replies::read_reply;
use net_base::{ActorName, Addr, BodyHeader, Entry, Event, Header, Reply};
use std::alloc::{AllocError, Global};

/// The moment, the caller, the actor and what is cited.
type Who = (u64, u32, ActorName, Option<u64>);

/// The entry that all these words are of.
pub(crate) fn read_entry(alloc: Global, words: &Words<'_>) -> Result<Option<Entry>, AllocError>
    ensures { IfOk result (λ read. read ≡ spec.entry_of words.now) }
{
    let Some((who, words)) = who(words) else {
        return Ok(None);
    };
    let Some((event, words)) = read_event(alloc, &words)? else {
        return Ok(None);
    };
    let Some(words) = behind_word(b"=", &words) else {
        return Ok(None);
    };
    let Some((reply, words)) = read_reply(alloc, &words)? else {
        return Ok(None);
    };
    Ok(tail_of(who, event, reply, &words))
}

fn who<'a>(words: &Words<'a>) -> Option<(Who, Words<'a>)>
    ensures { result ≡ spec.who words.now }
{
    let (moment, words) = long(words)?;
    let (caller, words) = narrow(&words)?;
    let (actor, words) = actor(&words)?;
    let (cites, words) = long_or_dash(&words)?;
    Some(((moment, caller, actor, cites), words))
}

/// The words behind this one, where it comes first.
pub(crate) fn behind_word<'a>(first: &[u8], words: &Words<'a>) -> Option<Words<'a>>
    ensures { result ≡ spec.behind_word first.now words.now }
{
    let (word, words) = words.next()?;
    if word == first { Some(words) } else { None }
}

/// What follows the reply, and so the entry.
fn tail_of(who: Who, event: Event, reply: Reply, words: &Words<'_>) -> Option<Entry>
    ensures { result ≡ spec.tail_of who event reply words.now }
{
    let (emits, words) = emitted(words)?;
    let ended = ended(&words)?;
    let (moment, caller, actor, cites) = who;
    Some(Entry {
        actor,
        caller,
        moment,
        event,
        cites,
        reply,
        emits,
        ended,
    })
}

/// A header behind a `+`, or none.
fn emitted<'a>(words: &Words<'a>) -> Option<(Option<Header>, Words<'a>)>
    ensures { result ≡ spec.emitted words.now }
{
    let Some((word, rest)) = words.next() else {
        return Some((None, words.again()));
    };
    if word == b"+".as_slice() {
        let (header, rest) = header(&rest)?;
        Some((Some(header), rest))
    } else {
        Some((None, words.again()))
    }
}

/// Whether it ended: the last word, or none.
fn ended(words: &Words<'_>) -> Option<bool>
    ensures { result ≡ spec.ended_read words.now }
{
    let Some((word, rest)) = words.next() else {
        return Some(false);
    };
    if rest.is_empty() && word == b"ended".as_slice() {
        Some(true)
    } else {
        None
    }
}

fn header<'a>(words: &Words<'a>) -> Option<(Header, Words<'a>)>
    ensures { result ≡ spec.header_of_words words.now }
{
    let (word, words) = words.next()?;
    if word == b"il".as_slice() {
        let ((src, dst, ttl, tos), words) = way(&words)?;
        let (body, words) = il_body(&words)?;
        Some((
            Header {
                src,
                dst,
                ttl,
                tos,
                body,
            },
            words,
        ))
    } else if word == b"udp".as_slice() {
        let ((src, dst, ttl, tos), words) = way(&words)?;
        let (body, words) = udp_body(&words)?;
        Some((
            Header {
                src,
                dst,
                ttl,
                tos,
                body,
            },
            words,
        ))
    } else {
        None
    }
}

/// The addresses, ttl and tos.
type Way = (Addr, Addr, u8, u8);

fn way<'a>(words: &Words<'a>) -> Option<(Way, Words<'a>)>
    ensures { result ≡ spec.read_way words.now }
{
    let (src, words) = place(words)?;
    let (dst, words) = place(&words)?;
    let (ttl, words) = octet(&words)?;
    let (tos, words) = octet(&words)?;
    Some(((src, dst, ttl, tos), words))
}

fn il_body<'a>(words: &Words<'a>) -> Option<(BodyHeader, Words<'a>)>
    ensures { result ≡ spec.il_body words.now }
{
    let (kind, words) = kind(words)?;
    let (spec, words) = octet(&words)?;
    let (id, words) = narrow(&words)?;
    let (ack, words) = narrow(&words)?;
    let (length, words) = long(&words)?;
    let body = BodyHeader::Il {
        kind,
        spec,
        id,
        ack,
        length,
    };
    Some((body, words))
}

fn udp_body<'a>(words: &Words<'a>) -> Option<(BodyHeader, Words<'a>)>
    ensures { result ≡ spec.udp_body words.now }
{
    let (length, words) = long(words)?;
    Some((BodyHeader::Udp { length }, words))
}
