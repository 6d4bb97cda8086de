//! Entries as lines, and histories as texts.
ghost use Rattle.std.specs.Prelude.{◌≡◌, ◌≤◌, ◌++◌, length, OnOk, IfOk};
ghost use Rattle.net_base.specs.Transcript as spec;
ghost use Rattle.net_base.specs.Transcript.{spaced, line_of, lines_from, history_text, header_words, way_words, body_words, entry_words, who_words, outcome_words, emitted_words, ended_words};
ghost use Rattle.transcript.specs.Part.{part};

use crate::event::put_event;
use crate::line::{put_number, put_with_numbers, put_word};
use crate::names::{put_actor, put_addr, put_number_or_dash};
use crate::reply::put_reply;
use net_base::{BodyHeader, Entries, Entry, Header, History, Octets};
use std::alloc::{AllocError, Global};
use words::{kind_word, put_decimal};

// The room that is taken for a line at first: most are shorter.
const LINE: usize = 64;

/// The text of a history, made in one pass.
pub fn text_of(alloc: Global, history: &History) -> Result<Octets, AllocError>
    ensures { IfOk result (λ text. text ≡ history_text history.now) }
{
    text_from(alloc, history, 0, history.len())
}

/// The text of the entries from a stamp up to another.
pub fn text_from<E: Entries>(
    alloc: Global,
    entries: &E,
    first: usize,
    last: usize,
) -> Result<Octets, AllocError>
    requires order { first ≤ last }
    requires within { last ≤ length (E.list entries.now) }
    ensures { IfOk result (λ text. text ≡ lines_from first (part first last (E.list entries.now))) }
{
    let room = (last - first).saturating_mul(LINE);
    let mut out = Octets::from_vec(Vec::with_capacity(alloc, room)?);
    put_lines(&mut out, entries, first, last)?;
    Ok(out)
}

fn put_lines<E: Entries>(
    out: &mut Octets,
    entries: &E,
    first: usize,
    last: usize,
) -> Result<(), AllocError>
    requires order { first ≤ last }
    requires within { last ≤ length (E.list entries.now) }
    ensures { OnOk result (out.new ≡ out.old ++ lines_from first (part first last (E.list entries.now))) }
{
    for stamp in first..last {
        put_line(out, stamp as u64, entries.entry(stamp))?;
    }
    Ok(())
}

#[tactic(auto, unfolding(net_base::specs::Transcript::line_of))]
fn put_line(out: &mut Octets, stamp: u64, entry: &Entry) -> Result<(), AllocError>
    ensures { OnOk result (out.new ≡ out.old ++ line_of stamp entry.now) }
{
    put_decimal(out, stamp)?;
    put_entry(out, entry)?;
    out.push(b'\n')
}

// What stands behind the stamp.
#[tactic(auto, using(crate::proofs::Spacing::spaced_both))]
fn put_entry(out: &mut Octets, entry: &Entry) -> Result<(), AllocError>
    ensures { OnOk result (out.new ≡ out.old ++ spaced (entry_words entry.now)) }
{
    put_who(out, entry)?;
    put_event(out, &entry.event)?;
    put_outcome(out, entry)
}

fn put_who(out: &mut Octets, entry: &Entry) -> Result<(), AllocError>
    ensures { OnOk result (out.new ≡ out.old ++ spaced (who_words entry.now)) }
{
    put_number(out, entry.moment)?;
    put_number(out, entry.caller as u64)?;
    put_actor(out, entry.actor)?;
    put_number_or_dash(out, entry.cites)
}

#[tactic(auto, using(crate::proofs::Spacing::spaced_both))]
fn put_outcome(out: &mut Octets, entry: &Entry) -> Result<(), AllocError>
    ensures { OnOk result (out.new ≡ out.old ++ spaced (outcome_words entry.now)) }
{
    put_word(out, b"=")?;
    put_reply(out, &entry.reply)?;
    put_emitted(out, entry.emits)?;
    put_ended(out, entry.ended)
}

fn put_emitted(out: &mut Octets, emits: Option<Header>) -> Result<(), AllocError>
    ensures { OnOk result (out.new ≡ out.old ++ spaced (emitted_words emits)) }
{
    match emits {
        Some(header) => {
            put_word(out, b"+")?;
            put_header(out, header)
        }
        None => Ok(()),
    }
}

fn put_ended(out: &mut Octets, ended: bool) -> Result<(), AllocError>
    ensures { OnOk result (out.new ≡ out.old ++ spaced (ended_words ended)) }
{
    if ended {
        put_word(out, b"ended")
    } else {
        Ok(())
    }
}

#[tactic(auto, using(crate::proofs::Spacing::spaced_both))]
fn put_header(out: &mut Octets, header: Header) -> Result<(), AllocError>
    ensures { OnOk result (out.new ≡ out.old ++ spaced (header_words header)) }
{
    put_way(out, header)?;
    put_body(out, header.body)
}

// The protocol's word, the addresses, and what the IP header says beside them.
fn put_way(out: &mut Octets, header: Header) -> Result<(), AllocError>
    ensures { OnOk result (out.new ≡ out.old ++ spaced (way_words (spec.proto_word header.body) header)) }
{
    put_word(out, proto_word(header.body))?;
    put_addr(out, header.src)?;
    put_addr(out, header.dst)?;
    put_number(out, header.ttl as u64)?;
    put_number(out, header.tos as u64)
}

fn proto_word(body: BodyHeader) -> &'static [u8]
    ensures { result.now ≡ spec.proto_word body }
{
    match body {
        BodyHeader::Il { .. } => b"il",
        BodyHeader::Udp { .. } => b"udp",
    }
}

fn put_body(out: &mut Octets, body: BodyHeader) -> Result<(), AllocError>
    ensures { OnOk result (out.new ≡ out.old ++ spaced (body_words body)) }
{
    match body {
        BodyHeader::Il {
            kind,
            spec,
            id,
            ack,
            length,
        } => {
            put_with_numbers(out, kind_word(kind), spec as u64, id as u64)?;
            put_number(out, ack as u64)?;
            put_number(out, length)
        }
        BodyHeader::Udp { length } => put_number(out, length),
    }
}
