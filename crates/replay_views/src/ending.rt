//! How a step ended.
ghost use Rattle.std.specs.Prelude.{◌≡◌, IfOk, option_and_then, option_map, slice_get};
ghost use Rattle.replay_views.specs.Endings as spec;

use crate::recorded::Latest;
use net_base::{Entry, Event, Reply, Step};
use net_import::is_open;
use script_task::{bytes_in, is_accepted};
use std::alloc::{AllocError, Global};

/// The end of a step: whether it was refused, the moment of its last entry in ms, and the stamp of the entry whose reply says so.
#[derive(Clone, Copy)]
pub struct Ending {
    pub refused: bool,
    pub moment: u64,
    pub reply: usize,
}

/// The kind of a step: by what it is answered.
#[derive(Clone, Copy)]
pub enum StepKind {
    /// Each step of the host's own files.
    Local,
    /// A step over a call. The number is the type of its last message.
    Remote(u8),
    /// It opens a remote file.
    Ropen,
}

/// Returns the kind of a step of a script.
pub fn kind_of(steps: &[Step], step: usize) -> StepKind
    ensures { result ≡ spec.kind_of (slice_get steps.now step) }
{
    match steps.get(step) {
        Some(Step::Import { .. }) => StepKind::Remote(104),
        Some(Step::Ropen { .. }) => StepKind::Ropen,
        Some(Step::Rread { .. }) => StepKind::Remote(116),
        Some(Step::Rwrite { .. }) => StepKind::Remote(118),
        Some(Step::Rclose { .. }) => StepKind::Remote(120),
        _ => StepKind::Local,
    }
}

fn entry_at(entries: &[Entry], stamp: Option<usize>) -> Option<&Entry>
    ensures { option_map (λ x. x.now) result ≡ option_and_then (slice_get entries.now) stamp }
{
    entries.get(stamp?)
}

// Whether a text is a message of 9P of this type. Its fifth byte says so.
fn is_message(kind: u8, text: &[u8]) -> bool
    ensures { result ≡ spec.is_message kind text.now }
{
    match text.get(4) {
        Some(byte) => *byte == kind,
        None => false,
    }
}

// Whether an event sends a message of this type.
fn sends_message(kind: u8, event: &Event) -> bool
    ensures { result ≡ spec.sends_message kind event.now }
{
    match event {
        Event::Write { text, .. } => is_message(kind, text.as_slice()),
        _ => false,
    }
}

// Whether the last entry of a step has the answer to the message that the entry before it sent.
fn is_answered(kind: u8, last: &Entry, before: Option<&Entry>) -> bool
    ensures { result ≡ spec.is_answered kind last.now (option_map (λ y. y.now) before.entry) }
{
    match before {
        Some(before) => {
            sends_message(kind, &before.event)
                && is_message(kind.saturating_add(1), bytes_in(&last.reply))
        }
        None => false,
    }
}

// Whether a remote file was opened, by the last entry of its step and the one before it.
fn has_opened(alloc: Global, last: &Entry, before: Option<&Entry>) -> Result<bool, AllocError>
    ensures { IfOk result (λ opened. opened ≡ spec.has_opened last.now (option_map (λ y. y.now) before.entry)) }
{
    let Some(before) = before else {
        return Ok(false);
    };
    if !sends_message(112, &before.event) {
        return Ok(false);
    }
    is_open(alloc, bytes_in(&last.reply))
}

fn is_refused(entry: Option<&Entry>) -> bool
    ensures { result ≡ spec.is_refused (option_map (λ y. y.now) entry.entry) }
{
    match entry {
        Some(entry) => !is_accepted(&entry.reply),
        None => false,
    }
}

// The entry of a step of the host's own files that was refused.
fn refusal_of(entries: &[Entry], latest: Latest) -> Option<usize>
    ensures { result ≡ spec.refusal_of entries.now latest }
{
    if is_refused(entries.get(latest.last)) {
        return Some(latest.last);
    }
    if is_refused(entry_at(entries, latest.before)) {
        return latest.before;
    }
    if is_refused(entry_at(entries, latest.deed)) {
        return latest.deed;
    }
    None
}

fn local_ending(entries: &[Entry], last: &Entry, latest: Latest) -> Ending
    ensures { result ≡ spec.local_ending entries.now last.now latest }
{
    match refusal_of(entries, latest) {
        Some(reply) => Ending {
            refused: true,
            moment: last.moment,
            reply,
        },
        None => Ending {
            refused: false,
            moment: last.moment,
            reply: latest.last,
        },
    }
}

fn remote_ending(answered: bool, last: &Entry, reply: usize) -> Ending
    ensures { result ≡ spec.remote_ending answered last.now reply }
{
    Ending {
        refused: !answered,
        moment: last.moment,
        reply,
    }
}

fn ending_by(
    alloc: Global,
    kind: StepKind,
    entries: &[Entry],
    last: &Entry,
    latest: Latest,
) -> Result<Ending, AllocError>
    ensures { IfOk result (λ ending. ending ≡ spec.ending_by kind entries.now last.now latest) }
{
    match kind {
        StepKind::Local => Ok(local_ending(entries, last, latest)),
        StepKind::Remote(sent) => {
            let answered = is_answered(sent, last, entry_at(entries, latest.before));
            Ok(remote_ending(answered, last, latest.last))
        }
        StepKind::Ropen => {
            let opened = has_opened(alloc, last, entry_at(entries, latest.before))?;
            Ok(remote_ending(opened, last, latest.last))
        }
    }
}

/// Returns how a step of this kind ended, by the entries that it recorded.
pub fn ending_of(
    alloc: Global,
    kind: StepKind,
    entries: &[Entry],
    latest: Option<Latest>,
) -> Result<Option<Ending>, AllocError>
    ensures { IfOk result (λ ending. ending ≡ spec.ending_of kind entries.now latest) }
{
    let Some(latest) = latest else {
        return Ok(None);
    };
    match entries.get(latest.last) {
        Some(last) => {
            let ending = ending_by(alloc, kind, entries, last, latest)?;
            Ok(Some(ending))
        }
        None => Ok(None),
    }
}
