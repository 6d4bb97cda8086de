//! What stands beside arrows and operations.
ghost use Rattle.std.specs.Prelude.{◌≡◌, ◌++◌, OnOk};
ghost use Rattle.net_chart.specs.Drawing as spec;

use crate::frame::{Frame, Source};
use crate::svg::put_quoted;
use history_words::{put_event, put_reply};
use net_base::{BodyHeader, Entry, Event, IlKind, Octets, Reply};
use std::alloc::AllocError;
use words::{kind_word, put_decimal};

fn put_named(out: &mut Octets, name: &[u8], n: u64) -> Result<(), AllocError>
    ensures { OnOk result (out.new ≡ out.old ++ spec.named_number name.now n) }
{
    out.append(name)?;
    put_decimal(out, n)
}

fn put_il(out: &mut Octets, kind: IlKind, id: u32, ack: u32, length: u64) -> Result<(), AllocError>
    ensures { OnOk result (out.new ≡ out.old ++ spec.il_label kind id ack length) }
{
    out.append(kind_word(kind))?;
    put_named(out, b" id ", id as u64)?;
    put_named(out, b" ack ", ack as u64)?;
    put_named(out, b" len ", length)
}

fn put_body(out: &mut Octets, body: BodyHeader) -> Result<(), AllocError>
    ensures { OnOk result (out.new ≡ out.old ++ spec.body_label body) }
{
    match body {
        BodyHeader::Il {
            kind,
            id,
            ack,
            length,
            ..
        } => put_il(out, kind, id, ack, length),
        BodyHeader::Udp { length } => put_named(out, b"udp len ", length),
    }
}

fn put_source(out: &mut Octets, source: Option<Source>) -> Result<(), AllocError>
    ensures { OnOk result (out.new ≡ out.old ++ spec.source_label source) }
{
    match source {
        Some(source) => put_body(out, source.header.body),
        None => out.append(b"?"),
    }
}

/// Adds the frame's number on its medium, and its packet's kind, ids and length.
pub fn put_frame(out: &mut Octets, frame: &Frame) -> Result<(), AllocError>
    ensures { OnOk result (out.new ≡ out.old ++ spec.frame_label frame.now) }
{
    put_decimal(out, frame.number)?;
    out.append(b": ")?;
    put_source(out, frame.source)
}

fn put_written(out: &mut Octets, event: &Event) -> Result<(), AllocError>
    ensures { OnOk result (out.new ≡ out.old ++ spec.written_text event.now) }
{
    match event {
        Event::Write { text, .. } => put_quoted(out, text.as_slice()),
        _ => Ok(()),
    }
}

fn put_read(out: &mut Octets, reply: &Reply) -> Result<(), AllocError>
    ensures { OnOk result (out.new ≡ out.old ++ spec.read_text reply.now) }
{
    match reply {
        Reply::Bytes { bytes } => put_quoted(out, bytes.as_slice()),
        _ => Ok(()),
    }
}

/// Adds an operation and its reply.
pub fn put_operation(out: &mut Octets, entry: &Entry) -> Result<(), AllocError>
    ensures { OnOk result (out.new ≡ out.old ++ spec.operation_label entry.now) }
{
    put_event(out, &entry.event)?;
    put_written(out, &entry.event)?;
    out.append(b" = ")?;
    put_reply(out, &entry.reply)?;
    put_read(out, &entry.reply)
}
