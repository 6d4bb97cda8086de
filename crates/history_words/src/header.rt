//! What an entry shows of a packet.
ghost use Rattle.std.specs.Prelude.{◌≡◌, ◌++◌, OnOk};
ghost use Rattle.net_base.specs.Transcript.{spaced};
ghost use Rattle.history_words.specs.HistoryWords.{body_shown, emitted_shown, kind_words, sequence_words, way_shown};

use crate::put::{put_addr, put_named, put_word};
use net_base::{BodyHeader, Header, Octets};
use std::alloc::AllocError;
use words::kind_word;

/// The header of the packet that was emitted, if one was.
#[tactic(auto, using(crate::proofs::Spacing::spaced_both))]
pub fn put_emitted(out: &mut Octets, emits: Option<Header>) -> Result<(), AllocError>
    ensures { OnOk result (out.new ≡ out.old ++ spaced (emitted_shown emits)) }
{
    match emits {
        Some(header) => {
            put_word(out, b"| sends")?;
            put_kind(out, header.body)?;
            put_way(out, header)?;
            put_body(out, header.body)
        }
        None => Ok(()),
    }
}

// The protocol, and the kind of an IL message.
fn put_kind(out: &mut Octets, body: BodyHeader) -> Result<(), AllocError>
    ensures { OnOk result (out.new ≡ out.old ++ spaced (kind_words body)) }
{
    match body {
        BodyHeader::Il { kind, .. } => {
            put_word(out, b"il")?;
            put_word(out, kind_word(kind))
        }
        BodyHeader::Udp { .. } => put_word(out, b"udp"),
    }
}

// The addresses, and what the IP header says beside them.
fn put_way(out: &mut Octets, header: Header) -> Result<(), AllocError>
    ensures { OnOk result (out.new ≡ out.old ++ spaced (way_shown header)) }
{
    put_addr(out, header.src)?;
    put_word(out, b"to")?;
    put_addr(out, header.dst)?;
    put_named(out, b"ttl", header.ttl as u64)?;
    put_named(out, b"tos", header.tos as u64)
}

// What the header behind it says.
#[tactic(auto, using(crate::proofs::Spacing::spaced_both))]
fn put_body(out: &mut Octets, body: BodyHeader) -> Result<(), AllocError>
    ensures { OnOk result (out.new ≡ out.old ++ spaced (body_shown body)) }
{
    match body {
        BodyHeader::Il {
            spec,
            id,
            ack,
            length,
            ..
        } => {
            put_sequence(out, spec, id, ack)?;
            put_named(out, b"length", length)
        }
        BodyHeader::Udp { length } => put_named(out, b"length", length),
    }
}

// What an IL header numbers.
fn put_sequence(out: &mut Octets, spec: u8, id: u32, ack: u32) -> Result<(), AllocError>
    ensures { OnOk result (out.new ≡ out.old ++ spaced (sequence_words spec id ack)) }
{
    put_named(out, b"spec", spec as u64)?;
    put_named(out, b"id", id as u64)?;
    put_named(out, b"ack", ack as u64)
}
