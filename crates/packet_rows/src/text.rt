//! Rows as words.
ghost use Rattle.std.specs.Prelude.{◌≡◌, ◌∷◌, ◌++◌, [], flat_map, OnOk};
ghost use Rattle.net_base.specs.Transcript.{number_or_dash, spaced};
ghost use Rattle.packet_rows.specs.PacketRows as spec;

use crate::deed::Fate;
use crate::facts::{Facts, Talk};
use crate::past::past_of;
use crate::row::{Row, frame_of};
use net_base::{ActorName, Entry, Event, History, Octets, World};
use std::alloc::{AllocError, Global};
use words::{proto_name, put_decimal, put_number, put_word};

fn fate_word(fate: Fate) -> &'static [u8]
    ensures { result.now ≡ spec.fate_word fate }
{
    match fate {
        Fate::Laid(_) => b"laid",
        Fate::TooBig => b"toobig",
        Fate::NoStation => b"nostation",
        Fate::NoRoute => b"noroute",
        Fate::NoTtl => b"ttl",
    }
}

fn number_in(fate: Fate) -> Option<u64>
    ensures { result ≡ spec.number_in fate }
{
    match fate {
        Fate::Laid(number) => Some(number),
        _ => None,
    }
}

fn wide(n: Option<u32>) -> Option<u64>
    ensures { result ≡ n }
{
    match n {
        Some(n) => Some(n as u64),
        None => None,
    }
}

fn put_number_or_dash(out: &mut Octets, n: Option<u64>) -> Result<(), AllocError>
    ensures { OnOk result (out.new ≡ out.old ++ spaced (number_or_dash n ∷ [])) }
{
    match n {
        Some(n) => put_number(out, n),
        None => put_word(out, b"-"),
    }
}

fn put_talk(out: &mut Octets, talk: Option<Talk>) -> Result<(), AllocError>
    ensures { OnOk result (out.new ≡ out.old ++ spaced (spec.talk_word talk ∷ [])) }
{
    let Some(talk) = talk else {
        return put_word(out, b"-");
    };
    put_number(out, talk.host as u64)?;
    out.append(b".")?;
    out.append(proto_name(talk.proto))?;
    out.append(b".")?;
    put_decimal(out, talk.slot as u64)
}

// The conversation that an actor is.
fn talk_at(actor: ActorName) -> Option<Talk>
    ensures { result ≡ spec.talk_at actor }
{
    match actor {
        ActorName::Conv(host, proto, slot) => Some(Talk { host, proto, slot }),
        _ => None,
    }
}

// The first entry, where it is another one.
fn other_than(by: u64, first: Option<u64>) -> Option<u64>
    ensures { result ≡ spec.other_than by first }
{
    match first {
        Some(first) => { if first == by { None } else { Some(first) } }
        None => None,
    }
}

fn is_write(event: &Event) -> bool
    ensures { result ≡ spec.is_write event.now }
{
    match event {
        Event::Write { .. } => true,
        _ => false,
    }
}

// The write of this stamp, if it is one.
fn write_at(history: &[Entry], stamp: u64) -> Option<u64>
    ensures { result ≡ spec.write_at history.now stamp }
{
    let Some(entry) = history.get(stamp as usize) else {
        return None;
    };
    if is_write(&entry.event) {
        Some(stamp)
    } else {
        None
    }
}

fn put_more(out: &mut Octets, stamps: &[u64]) -> Result<(), AllocError>
    ensures { OnOk result (out.new ≡ out.old ++ flat_map spec.more_stamp stamps.now) }
{
    for stamp in stamps {
        out.append(b",")?;
        put_decimal(out, *stamp)?;
    }
    Ok(())
}

fn put_takes(out: &mut Octets, takes: &[u64]) -> Result<(), AllocError>
    ensures { OnOk result (out.new ≡ out.old ++ spaced (spec.stamps_word takes.now ∷ [])) }
{
    match takes {
        [] => put_word(out, b"-"),
        [first, more @ ..] => {
            put_number(out, *first)?;
            put_more(out, more)
        }
    }
}

// Where the packet is, and who emitted it.
fn put_where(out: &mut Octets, row: &Row) -> Result<(), AllocError>
    ensures { OnOk result (out.new ≡ out.old ++ spec.where_text row.now) }
{
    put_decimal(out, row.stamp)?;
    put_word(out, fate_word(row.fate))?;
    put_number_or_dash(out, wide(row.medium))?;
    put_number_or_dash(out, number_in(row.fate))?;
    put_number(out, row.passage.from as u64)?;
    put_number_or_dash(out, wide(row.to))?;
    put_number(out, row.passage.by)
}

fn end_of(history: &[Entry], by: u64) -> Option<Talk>
    ensures { result ≡ spec.end_of history.now by }
{
    match history.get(by as usize) {
        Some(entry) => talk_at(entry.actor),
        None => None,
    }
}

// Between which ends it goes, with its numbers.
fn put_ends(out: &mut Octets, history: &[Entry], facts: &Facts, row: &Row) -> Result<(), AllocError>
    ensures { OnOk result (out.new ≡ out.old ++ spec.ends_text history.now facts.now row.now) }
{
    let header = &row.passage.header;
    put_talk(out, end_of(history, row.passage.by))?;
    put_talk(out, facts.peer(header))?;
    put_number_or_dash(out, wide(facts.id(header)))?;
    put_number_or_dash(out, wide(facts.ack(header)))
}

// Which entry it repeats, and which wrote its bytes.
fn put_origin(
    out: &mut Octets,
    history: &[Entry],
    facts: &Facts,
    row: &Row,
) -> Result<(), AllocError>
    ensures { OnOk result (out.new ≡ out.old ++ spec.origin_text history.now facts.now row.now) }
{
    let by = row.passage.by;
    let again = other_than(by, facts.first(&row.passage.header));
    put_number_or_dash(out, again)?;
    put_number_or_dash(out, write_at(history, again.unwrap_or(by)))
}

fn put_row(out: &mut Octets, history: &[Entry], facts: &Facts, row: &Row) -> Result<(), AllocError>
    ensures { OnOk result (out.new ≡ out.old ++ spec.packet_line history.now facts.now row.now) }
{
    put_where(out, row)?;
    put_ends(out, history, facts, row)?;
    put_origin(out, history, facts, row)?;
    put_takes(out, facts.copies(frame_of(row)))?;
    out.append(b"\n")
}

fn put_rows(
    out: &mut Octets,
    history: &[Entry],
    facts: &Facts,
    rows: &[Row],
) -> Result<(), AllocError>
    ensures { OnOk result (out.new ≡ out.old ++ flat_map (spec.packet_line history.now facts.now) rows.now) }
{
    for row in rows {
        put_row(out, history, facts, row)?;
    }
    Ok(())
}

/// Adds a row for each packet of a history, sorted by stamps.
pub fn put_packet_rows(
    out: &mut Octets,
    alloc: Global,
    world: &World,
    history: &History,
) -> Result<(), AllocError>
    ensures { OnOk result (out.new ≡ out.old ++ spec.packets_text world.now history.now) }
{
    let entries = history.as_slice();
    let past = past_of(alloc, world, entries)?;
    put_rows(out, entries, &past.facts, past.rows.as_slice())
}
