//! What a history wrote and read, and its moment.
ghost use Rattle.std.specs.Prelude.{◌≡◌, ◌≤◌, length, nat_lt, if◌then◌else◌};
ghost use Rattle.net_base.specs.Net as net;
ghost use Rattle.net_base.specs.Summary.{sum_over, writes_counted, reads_counted, bytes_written_in, bytes_read_in};
ghost use Rattle.transcript.specs.RunStatus.{latest_move};

use net_base::{Entries, Entry, Event, Reply};

/// How many messages were written and read, and how many bytes they have; and the moment of the last move, or 0. A read
/// of no bytes is no message.
#[derive(Clone, Copy, Debug, PartialEq, Eq)]
pub struct Totals {
    pub written: u64,
    pub read: u64,
    pub bytes_written: u128,
    pub bytes_read: u128,
    pub moment: u64,
}

/// The totals of a history, in one pass.
pub fn totals_of<E: Entries>(entries: &E) -> Totals
    ensures written { result.written ≡ sum_over writes_counted (E.list entries.now) }
    ensures read { result.read ≡ sum_over reads_counted (E.list entries.now) }
    ensures bytes_written { result.bytes_written ≡ sum_over bytes_written_in (E.list entries.now) }
    ensures bytes_read { result.bytes_read ≡ sum_over bytes_read_in (E.list entries.now) }
    ensures moment { result.moment ≡ latest_move 0 (E.list entries.now) }
{
    let mut totals = Totals {
        written: 0,
        read: 0,
        bytes_written: 0,
        bytes_read: 0,
        moment: 0,
    };
    for stamp in 0..entries.count() {
        let entry = entries.entry(stamp);
        totals.written += messages_written(entry);
        totals.read += messages_read(entry);
        totals.bytes_written += bytes_written(entry) as u128;
        totals.bytes_read += bytes_read(entry) as u128;
        totals.moment = moment_after(totals.moment, &entry.event);
    }
    totals
}

fn moment_after(now: u64, event: &Event) -> u64
    ensures { result ≡ net.moment_after now event.now }
{
    match event {
        Event::Move { moment } => *moment,
        _ => now,
    }
}

fn messages_written(entry: &Entry) -> u64
    ensures value { result ≡ writes_counted entry.now.event entry.now.reply }
    ensures within { result ≤ 1 }
{
    match &entry.event {
        Event::Write { .. } => match &entry.reply {
            Reply::Count { .. } => 1,
            _ => 0,
        },
        _ => 0,
    }
}

fn bytes_written(entry: &Entry) -> u64
    ensures { result ≡ bytes_written_in entry.now.event entry.now.reply }
{
    match &entry.event {
        Event::Write { text, .. } => match &entry.reply {
            Reply::Count { .. } => text.len() as u64,
            _ => 0,
        },
        _ => 0,
    }
}

fn messages_read(entry: &Entry) -> u64
    ensures value { result ≡ reads_counted entry.now.event entry.now.reply }
    ensures within { result ≤ 1 }
{
    match &entry.event {
        Event::Read { .. } => match &entry.reply {
            Reply::Bytes { bytes } => some(bytes.as_slice()),
            _ => 0,
        },
        _ => 0,
    }
}

// 1 where there are bytes, else 0.
fn some(bytes: &[u8]) -> u64
    ensures value { result ≡ (if nat_lt 0 (length bytes.now) then 1 else 0) }
    ensures within { result ≤ 1 }
{
    if bytes.is_empty() { 0 } else { 1 }
}

fn bytes_read(entry: &Entry) -> u64
    ensures { result ≡ bytes_read_in entry.now.event entry.now.reply }
{
    match &entry.event {
        Event::Read { .. } => match &entry.reply {
            Reply::Bytes { bytes } => bytes.len() as u64,
            _ => 0,
        },
        _ => 0,
    }
}
