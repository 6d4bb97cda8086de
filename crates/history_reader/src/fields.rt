//! Numbers, addresses and names that a line begins with.
ghost use Rattle.std.specs.Prelude.{◌≡◌, ◌≤◌, IfSome};
ghost use Rattle.net_base.specs.Addresses.{address_in, number_in};
ghost use Rattle.history_reader.specs.Fields as spec;

use crate::cursor::Words;
use net_base::{ActorName, Addr, Cause, FileName, IlKind, Mode, Proto, StateName};
use words::{address_in, file_named, mode_named, proto_named};

/// A number up to this one.
fn number<'a>(most: u64, words: &Words<'a>) -> Option<(u64, Words<'a>)>
    ensures value { result ≡ spec.one (number_in 0 most) words.now }
    ensures within { IfSome result (λ read. read.0 ≤ most) }
{
    let (word, words) = words.next()?;
    let number = words::number_in(0, most, word)?;
    Some((number, words))
}

pub(crate) fn long<'a>(words: &Words<'a>) -> Option<(u64, Words<'a>)>
    ensures { result ≡ spec.long words.now }
{
    number(u64::MAX, words)
}

pub(crate) fn narrow<'a>(words: &Words<'a>) -> Option<(u32, Words<'a>)>
    ensures { result ≡ spec.narrow words.now }
{
    let (number, words) = number(u32::MAX as u64, words)?;
    Some((number as u32, words))
}

pub(crate) fn port<'a>(words: &Words<'a>) -> Option<(u16, Words<'a>)>
    ensures { result ≡ spec.port words.now }
{
    let (number, words) = number(u16::MAX as u64, words)?;
    Some((number as u16, words))
}

pub(crate) fn octet<'a>(words: &Words<'a>) -> Option<(u8, Words<'a>)>
    ensures { result ≡ spec.octet words.now }
{
    let (number, words) = number(u8::MAX as u64, words)?;
    Some((number as u8, words))
}

/// A number up to this one, or none for a mark.
fn number_or(mark: &[u8], most: u64, word: &[u8]) -> Option<Option<u64>>
    ensures value { result ≡ spec.read_marked mark.now (number_in 0 most) word.now }
    ensures within { IfSome result (λ number. IfSome number (λ n. n ≤ most)) }
{
    if word == mark {
        return Some(None);
    }
    let number = words::number_in(0, most, word)?;
    Some(Some(number))
}

pub(crate) fn long_or_dash<'a>(words: &Words<'a>) -> Option<(Option<u64>, Words<'a>)>
    ensures { result ≡ spec.long_or_dash words.now }
{
    let (word, words) = words.next()?;
    let number = number_or(b"-", u64::MAX, word)?;
    Some((number, words))
}

pub(crate) fn narrow_or_dash<'a>(words: &Words<'a>) -> Option<(Option<u32>, Words<'a>)>
    ensures { result ≡ spec.narrow_or_dash words.now }
{
    let (word, words) = words.next()?;
    match number_or(b"-", u32::MAX as u64, word)? {
        Some(number) => Some((Some(number as u32), words)),
        None => Some((None, words)),
    }
}

/// A port, or none for a mark.
fn port_or<'a>(mark: &[u8], words: &Words<'a>) -> Option<(Option<u16>, Words<'a>)>
    ensures { result ≡ spec.one (spec.read_marked mark.now (number_in 0 65535)) words.now }
{
    let (word, words) = words.next()?;
    match number_or(mark, u16::MAX as u64, word)? {
        Some(number) => Some((Some(number as u16), words)),
        None => Some((None, words)),
    }
}

pub(crate) fn port_or_dash<'a>(words: &Words<'a>) -> Option<(Option<u16>, Words<'a>)>
    ensures { result ≡ spec.port_or_dash words.now }
{
    port_or(b"-", words)
}

pub(crate) fn port_or_star<'a>(words: &Words<'a>) -> Option<(Option<u16>, Words<'a>)>
    ensures { result ≡ spec.port_or_star words.now }
{
    port_or(b"*", words)
}

pub(crate) fn ip_or_star<'a>(words: &Words<'a>) -> Option<(Option<u32>, Words<'a>)>
    ensures { result ≡ spec.read_ip_or_star words.now }
{
    let (word, words) = words.next()?;
    if word == b"*".as_slice() {
        return Some((None, words));
    }
    let ip = address_in(word)?;
    Some((Some(ip), words))
}

pub(crate) fn place<'a>(words: &Words<'a>) -> Option<(Addr, Words<'a>)>
    ensures { result ≡ spec.read_place words.now }
{
    let (word, words) = words.next()?;
    let place = place_in(word)?;
    Some((place, words))
}

/// An address and its port.
fn place_in(word: &[u8]) -> Option<Addr>
    ensures { result ≡ spec.field_place word.now }
{
    let (ip, parts) = ip(&Words::of(word, b'!'))?;
    let (port, parts) = port(&parts)?;
    if parts.is_empty() {
        Some(Addr { ip, port })
    } else {
        None
    }
}

fn ip<'a>(words: &Words<'a>) -> Option<(u32, Words<'a>)>
    ensures { result ≡ spec.one address_in words.now }
{
    let (word, words) = words.next()?;
    let ip = address_in(word)?;
    Some((ip, words))
}

pub(crate) fn file<'a>(words: &Words<'a>) -> Option<(FileName, Words<'a>)>
    ensures { result ≡ spec.file words.now }
{
    let (word, words) = words.next()?;
    let file = file_named(word)?;
    Some((file, words))
}

fn proto<'a>(words: &Words<'a>) -> Option<(Proto, Words<'a>)>
    ensures { result ≡ spec.proto words.now }
{
    let (word, words) = words.next()?;
    let proto = proto_named(word)?;
    Some((proto, words))
}

pub(crate) fn mode<'a>(words: &Words<'a>) -> Option<(Mode, Words<'a>)>
    ensures { result ≡ spec.mode_of words.now }
{
    let (word, words) = words.next()?;
    let mode = mode_named(word)?;
    Some((mode, words))
}

pub(crate) fn kind<'a>(words: &Words<'a>) -> Option<(IlKind, Words<'a>)>
    ensures { result ≡ spec.kind_read words.now }
{
    let (word, words) = words.next()?;
    let kind = kind_in(word)?;
    Some((kind, words))
}

fn kind_in(word: &[u8]) -> Option<IlKind>
    ensures { result ≡ spec.kind_in word.now }
{
    if word == b"sync".as_slice() {
        Some(IlKind::Sync)
    } else if word == b"data".as_slice() {
        Some(IlKind::Data)
    } else if word == b"dataquery".as_slice() {
        Some(IlKind::DataQuery)
    } else if word == b"ack".as_slice() {
        Some(IlKind::Ack)
    } else if word == b"query".as_slice() {
        Some(IlKind::Query)
    } else if word == b"state".as_slice() {
        Some(IlKind::State)
    } else if word == b"close".as_slice() {
        Some(IlKind::Close)
    } else {
        None
    }
}

pub(crate) fn state<'a>(words: &Words<'a>) -> Option<(StateName, Words<'a>)>
    ensures { result ≡ spec.state_read words.now }
{
    let (word, words) = words.next()?;
    let state = state_in(word)?;
    Some((state, words))
}

fn state_in(word: &[u8]) -> Option<StateName>
    ensures { result ≡ spec.state_in word.now }
{
    if word == b"Free".as_slice() {
        Some(StateName::Free)
    } else if word == b"Reserved".as_slice() {
        Some(StateName::Reserved)
    } else if word == b"Announced".as_slice() {
        Some(StateName::Announced)
    } else if word == b"Granted".as_slice() {
        Some(StateName::Granted)
    } else if word == b"Withdrawn".as_slice() {
        Some(StateName::Withdrawn)
    } else if word == b"Closed".as_slice() {
        Some(StateName::Closed)
    } else {
        end_state_in(word)
    }
}

/// A state of an end.
fn end_state_in(word: &[u8]) -> Option<StateName>
    ensures { result ≡ spec.end_state_in word.now }
{
    if word == b"Syncer".as_slice() {
        Some(StateName::Syncer)
    } else if word == b"Syncee".as_slice() {
        Some(StateName::Syncee)
    } else if word == b"Established".as_slice() {
        Some(StateName::Established)
    } else if word == b"Listening".as_slice() {
        Some(StateName::Listening)
    } else if word == b"Closing".as_slice() {
        Some(StateName::Closing)
    } else if word == b"Open".as_slice() {
        Some(StateName::Open)
    } else {
        None
    }
}

pub(crate) fn cause<'a>(words: &Words<'a>) -> Option<(Cause, Words<'a>)>
    ensures { result ≡ spec.read_cause words.now }
{
    let (word, words) = words.next()?;
    let cause = cause_in(word)?;
    Some((cause, words))
}

fn cause_in(word: &[u8]) -> Option<Cause>
    ensures { result ≡ spec.cause_in word.now }
{
    if word == b"1".as_slice() {
        Some(Cause::Refused)
    } else if word == b"2".as_slice() {
        Some(Cause::TimedOut)
    } else if word == b"3".as_slice() {
        Some(Cause::Hungup)
    } else if word == b"4".as_slice() {
        Some(Cause::ByPeer)
    } else {
        None
    }
}

pub(crate) fn actor<'a>(words: &Words<'a>) -> Option<(ActorName, Words<'a>)>
    ensures { result ≡ spec.actor words.now }
{
    let (word, words) = words.next()?;
    let actor = actor_in(word)?;
    Some((actor, words))
}

/// An actor: words joined by dots.
fn actor_in(word: &[u8]) -> Option<ActorName>
    ensures { result ≡ spec.actor_in word.now }
{
    let (actor, parts) = actor_of(&Words::of(word, b'.'))?;
    if parts.is_empty() { Some(actor) } else { None }
}

fn actor_of<'a>(words: &Words<'a>) -> Option<(ActorName, Words<'a>)>
    ensures { result ≡ spec.actor_words words.now }
{
    let (word, words) = words.next()?;
    if word == b"desk".as_slice() {
        let (host, words) = narrow(&words)?;
        Some((ActorName::Desk(host), words))
    } else if word == b"dir".as_slice() {
        let (host, words) = narrow(&words)?;
        let (proto, words) = proto(&words)?;
        Some((ActorName::Dir(host, proto), words))
    } else if word == b"conv".as_slice() {
        let (host, words) = narrow(&words)?;
        let (proto, words) = proto(&words)?;
        let (slot, words) = narrow(&words)?;
        Some((ActorName::Conv(host, proto, slot), words))
    } else if word == b"medium".as_slice() {
        let (medium, words) = narrow(&words)?;
        Some((ActorName::Medium(medium), words))
    } else if word == b"clock".as_slice() {
        Some((ActorName::Clock, words))
    } else {
        None
    }
}
