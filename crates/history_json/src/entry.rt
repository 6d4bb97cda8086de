//! Entries as lines.
ghost use Rattle.std.specs.Prelude.{◌≡◌, ◌++◌, length, IfOk, OnOk};
ghost use Rattle.net_base.specs.Summary.{totals};
ghost use Rattle.history_json.specs.HistoryJson.{entry_line, event_member, history_json, lines_from, reply_member, sums_line, who_members};
ghost use Rattle.history_json.specs.Members.{joined};

use crate::event::put_event;
use crate::member::{
    put_actor_name, put_first_number, put_label, put_number, put_number_or_null, put_truth,
    put_wide_number,
};
use crate::packet::put_packet;
use crate::reply::put_reply;
use net_base::{Entry, Event, History, Octets, Reply};
use std::alloc::{AllocError, Global};
use transcript::{Totals, totals_of};

// The room that is taken for a line at first.
const LINE: usize = 256;

/// Writes a history as JSON: an object a line for each entry, in the order of stamps, then one with the sums. Reads the history
/// twice.
pub fn json_of(alloc: Global, history: &History) -> Result<Octets, AllocError>
    ensures { IfOk result (λ text. text ≡ history_json history.now) }
{
    let room = history.len().saturating_mul(LINE);
    let mut out = Octets::from_vec(Vec::with_capacity(alloc, room)?);
    put_lines(&mut out, alloc, history.as_slice())?;
    put_sums(&mut out, history)?;
    Ok(out)
}

fn put_lines(out: &mut Octets, alloc: Global, entries: &[Entry]) -> Result<(), AllocError>
    ensures { OnOk result (out.new ≡ out.old ++ lines_from 0 entries.now) }
{
    for (stamp, entry) in entries.iter().enumerate() {
        put_line(out, alloc, stamp as u64, entry)?;
    }
    Ok(())
}

#[tactic(auto, unfolding(crate::specs::HistoryJson::entry_line))]
fn put_line(out: &mut Octets, alloc: Global, stamp: u64, entry: &Entry) -> Result<(), AllocError>
    ensures { OnOk result (out.new ≡ out.old ++ entry_line stamp entry.now) }
{
    put_who(out, stamp, entry)?;
    put_event_member(out, &entry.event)?;
    put_reply_member(out, alloc, &entry.reply)?;
    put_packet(out, entry.emits)?;
    put_truth(out, b"ended", entry.ended)?;
    out.append(b"}\n")
}

fn put_who(out: &mut Octets, stamp: u64, entry: &Entry) -> Result<(), AllocError>
    ensures { OnOk result (out.new ≡ out.old ++ joined (who_members stamp entry.now)) }
{
    put_first_number(out, b"stamp", stamp)?;
    put_number(out, b"moment", entry.moment)?;
    put_number(out, b"caller", entry.caller as u64)?;
    put_actor_name(out, b"actor", entry.actor)?;
    put_number_or_null(out, b"cause", entry.cites)
}

fn put_event_member(out: &mut Octets, event: &Event) -> Result<(), AllocError>
    ensures { OnOk result (out.new ≡ out.old ++ event_member event.now) }
{
    put_label(out, b"event")?;
    put_event(out, event)?;
    out.push(b'}')
}

fn put_reply_member(out: &mut Octets, alloc: Global, reply: &Reply) -> Result<(), AllocError>
    ensures { OnOk result (out.new ≡ out.old ++ reply_member reply.now) }
{
    put_label(out, b"reply")?;
    put_reply(out, alloc, reply)?;
    out.push(b'}')
}

fn put_sums(out: &mut Octets, history: &History) -> Result<(), AllocError>
    ensures { OnOk result (out.new ≡ out.old ++ sums_line (length history.now) (totals history.now)) }
{
    put_totals(out, history.len() as u64, totals_of(history))
}

#[tactic(auto, unfolding(crate::specs::HistoryJson::sums_line))]
fn put_totals(out: &mut Octets, entries: u64, sums: Totals) -> Result<(), AllocError>
    ensures { OnOk result (out.new ≡ out.old ++ sums_line entries (record {
      written = sums.written;
      read = sums.read;
      bytes_written = sums.bytes_written;
      bytes_read = sums.bytes_read;
    })) }
{
    put_first_number(out, b"entries", entries)?;
    put_number(out, b"messages_written", sums.written)?;
    put_number(out, b"messages_read", sums.read)?;
    put_wide_number(out, b"bytes_written", sums.bytes_written)?;
    put_wide_number(out, b"bytes_read", sums.bytes_read)?;
    out.append(b"}\n")
}
