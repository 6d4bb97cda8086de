//! What an entry shows of a packet, as members.
ghost use Rattle.std.specs.Prelude.{◌≡◌, ◌++◌, OnOk};
ghost use Rattle.history_json.specs.HistoryJson.{body_members, packet_member, sequence_members, way_members};
ghost use Rattle.history_json.specs.Members.{joined};

use crate::member::{put_addr, put_first_word, put_label, put_nothing, put_number, put_word};
use net_base::{BodyHeader, Header, Octets};
use std::alloc::AllocError;
use words::kind_word;

/// The member `packet`: the header of the packet that was emitted, or null.
pub fn put_packet(out: &mut Octets, emits: Option<Header>) -> Result<(), AllocError>
    ensures { OnOk result (out.new ≡ out.old ++ packet_member emits) }
{
    match emits {
        Some(header) => {
            put_label(out, b"packet")?;
            put_body(out, header.body)?;
            put_way(out, header)?;
            out.push(b'}')
        }
        None => put_nothing(out, b"packet"),
    }
}

// The addresses, ttl and tos.
fn put_way(out: &mut Octets, header: Header) -> Result<(), AllocError>
    ensures { OnOk result (out.new ≡ out.old ++ joined (way_members header)) }
{
    put_addr(out, b"source", header.src)?;
    put_addr(out, b"destination", header.dst)?;
    put_number(out, b"ttl", header.ttl as u64)?;
    put_number(out, b"tos", header.tos as u64)
}

// The protocol, and what its header says.
fn put_body(out: &mut Octets, body: BodyHeader) -> Result<(), AllocError>
    ensures { OnOk result (out.new ≡ out.old ++ joined (body_members body)) }
{
    match body {
        BodyHeader::Il {
            kind,
            spec,
            id,
            ack,
            length,
        } => {
            put_first_word(out, b"protocol", b"il")?;
            put_word(out, b"type", kind_word(kind))?;
            put_sequence(out, spec, id, ack, length)
        }
        BodyHeader::Udp { length } => {
            put_first_word(out, b"protocol", b"udp")?;
            put_number(out, b"length", length)
        }
    }
}

// What an IL header numbers.
fn put_sequence(
    out: &mut Octets,
    spec: u8,
    id: u32,
    ack: u32,
    length: u64,
) -> Result<(), AllocError>
    ensures { OnOk result (out.new ≡ out.old ++ joined (sequence_members spec id ack length)) }
{
    put_number(out, b"spec", spec as u64)?;
    put_number(out, b"id", id as u64)?;
    put_number(out, b"ack", ack as u64)?;
    put_number(out, b"length", length)
}
