//! Worked calls: an end alone, and two ends with a network between them that loses, repeats and delays.
ghost use Rattle.std.specs.Prelude.{◌<◌, ◌^◌, IsTrue};
ghost use Rattle.il_machine.specs.declared.ask.Ask.TheVariants as ask;
ghost use Rattle.il_machine.specs.Stands.{StandsForSomeEnd, is_asked_ready};

mod alone;
mod closing;
mod limits;
mod talk;

use il_machine::{Ask, HungupError, IlEnd};
use net_base::{Cause, IlKind, IlMsg, IlState, Octets, Timers};
use std::alloc::{AllocError, Global};
use std::process::Abort;
use std::test::*;

/// A message in a row, by its kind, id, ack and text. Its spec is 0, but of `CloseOf`.
#[derive(Clone, Copy)]
enum Said {
    /// No message.
    Quiet,
    /// One without a text.
    Bare(IlKind, u32, u32),
    Data(u32, u32, &'static [u8]),
    Own(IlKind, u32, u32, &'static [u8]),
    /// A close with this spec.
    CloseOf(u8, u32, u32),
}

/// The kind, spec, id, ack and text of a message.
type Parts = (IlKind, u8, u32, u32, &'static [u8]);

const fn parts(said: Said) -> Option<Parts> {
    match said {
        Said::Quiet => None,
        Said::Bare(kind, id, ack) => Some((kind, 0, id, ack, b"")),
        Said::Data(id, ack, text) => Some((IlKind::Data, 0, id, ack, text)),
        Said::Own(kind, id, ack, text) => Some((kind, 0, id, ack, text)),
        Said::CloseOf(spec, id, ack) => Some((IlKind::Close, spec, id, ack, b"")),
    }
}

/// A call at an end.
#[derive(Clone, Copy)]
enum Deed {
    Connect(u32),
    Born(u32, u32),
    Announce,
    Hear(Said),
    Write(&'static [u8]),
    WriteHungup(Cause),
    Read(usize, &'static [u8]),
    ReadHungup(Cause),
    Ask(Ask, bool),
    Hangup,
    Tick,
    /// Its state and what is due are asked for.
    Look(IlState, Option<u64>),
    /// The cause of its end is asked for.
    Ended(Cause),
}

/// Which of two ends: the one that connects, or the only one, and the one that is born.
#[derive(Clone, Copy)]
enum Side {
    Near,
    Far,
}

/// A call at an end with its moment, and what it emits.
type Row = (Side, u64, Deed, Said);

/// Two ends.
#[derive(Drop)]
struct Ends {
    near: IlEnd,
    far: IlEnd,
}

impl Ends {
    fn fresh(alloc: Global, timers: Timers) -> Result<Ends, AllocError> {
        Ok(Ends {
            near: IlEnd::fresh(alloc, timers)?,
            far: IlEnd::fresh(alloc, timers)?,
        })
    }
}

// Whether what is asked for has an answer, as `ready` tells it.
#[tactic(auto, unfolding(il_machine::specs::Stands::StandsFor))]
fn is_ready(end: &IlEnd, ask: Ask) -> bool
    ensures { IsTrue result → StandsForSomeEnd end.now (λ e. IsTrue (is_asked_ready ask e)) }
{
    end.is_short() && end.ready(ask)
}

fn message(alloc: Global, parts: Parts) -> Result<IlMsg, AllocError> {
    let (kind, spec, id, ack, text) = parts;
    Ok(IlMsg {
        kind,
        spec,
        id,
        ack,
        text: Octets::from_slice(alloc, text)?,
    })
}

// Whether what is emitted is what the row says.
fn is_said(emitted: &Option<IlMsg>, said: Said) -> bool {
    match (emitted, parts(said)) {
        (Some(message), Some((kind, spec, id, ack, text))) => {
            (message.kind, message.spec, message.id, message.ack) == (kind, spec, id, ack)
                && message.text.as_slice() == text
        }
        (None, None) => true,
        _ => false,
    }
}

// Whether a message that goes no further was said.
fn says(emitted: Option<IlMsg>, said: Said) -> bool {
    let same = is_said(&emitted, said);
    drop(emitted);
    same
}

// A message comes. Whether the end emits what the row says.
fn hears(
    alloc: Global,
    end: &mut IlEnd,
    now: u64,
    heard: Said,
    said: Said,
) -> Result<bool, AllocError>
    requires { now < 2 ^ 63 }
{
    let Some(parts) = parts(heard) else {
        return Ok(false);
    };
    if !end.is_short() {
        return Ok(false);
    }
    let message = message(alloc, parts)?;
    let emitted = end.arrive(now, &message);
    drop(message);
    Ok(says(emitted?, said))
}

// Whether a text may be written, and the end emits what the row says.
fn writes(end: &mut IlEnd, now: u64, text: &[u8], said: Said) -> Result<bool, AllocError>
    requires { now < 2 ^ 63 }
{
    if !end.is_short() || !is_ready(end, Ask::Write) {
        return Ok(false);
    }
    match end.write(now, text) {
        Ok(message) => Ok(says(Some(message), said)),
        Err(HungupError::Memory) => Err(AllocError),
        Err(HungupError::Hungup(_)) => Ok(false),
    }
}

// Whether an answer is a refusal for this cause.
fn is_hungup<T>(answer: &Result<T, HungupError>, cause: Cause) -> bool {
    match answer {
        Err(HungupError::Hungup(why)) => *why == cause,
        _ => false,
    }
}

// Whether a write has an answer, and is refused for this cause.
fn is_unwritable(end: &mut IlEnd, now: u64, cause: Cause) -> bool
    requires { now < 2 ^ 63 }
{
    if !end.is_short() || !is_ready(end, Ask::Write) {
        return false;
    }
    let written = end.write(now, b"more");
    let hungup = is_hungup(&written, cause);
    drop(written);
    hungup
}

fn is_text(bytes: Octets, text: &[u8]) -> bool {
    let same = bytes.as_slice() == text;
    drop(bytes);
    same
}

// Whether a read of so many bytes gives these, as a look at them does.
fn reads(end: &mut IlEnd, count: usize, text: &[u8]) -> Result<bool, AllocError> {
    if count == 0 || !is_ready(end, Ask::Read) || end.peek(count) != text {
        return Ok(false);
    }
    match end.read(count) {
        Ok(bytes) => Ok(is_text(bytes, text)),
        Err(HungupError::Memory) => Err(AllocError),
        Err(HungupError::Hungup(_)) => Ok(false),
    }
}

// Whether a read has an answer, and is refused for this cause.
fn is_unreadable(end: &mut IlEnd, cause: Cause) -> bool {
    if !is_ready(end, Ask::Read) {
        return false;
    }
    let read = end.read(8192);
    let hungup = is_hungup(&read, cause);
    drop(read);
    hungup
}

// Makes a call that emits nothing. Whether it comes to what it says.
fn is_met_quietly(end: &mut IlEnd, now: u64, deed: Deed) -> Result<bool, AllocError>
    requires { now < 2 ^ 63 }
{
    match deed {
        Deed::Announce => {
            end.announced();
            Ok(true)
        }
        Deed::WriteHungup(cause) => Ok(is_unwritable(end, now, cause)),
        Deed::Read(count, text) => reads(end, count, text),
        Deed::ReadHungup(cause) => Ok(is_unreadable(end, cause)),
        Deed::Ask(ask, answer) => Ok(end.ready(ask) == answer),
        Deed::Look(state, due) => Ok(end.state() == state && end.due() == due),
        Deed::Ended(cause) => Ok(end.cause() == Some(cause)),
        _ => Ok(false),
    }
}

// Makes the call of a row. Whether it comes to what it says, and emits what the row says.
fn is_met(alloc: Global, end: &mut IlEnd, row: &Row) -> Result<bool, AllocError> {
    let (_, now, deed, said) = *row;
    if now >= 1 << 62 {
        return Ok(false);
    }
    match deed {
        Deed::Connect(start) => Ok(says(Some(end.connect(now, start)), said)),
        Deed::Born(start, rstart) => Ok(says(Some(end.born(now, start, rstart)), said)),
        Deed::Hear(heard) => hears(alloc, end, now, heard, said),
        Deed::Write(text) => writes(end, now, text, said),
        Deed::Hangup => Ok(says(end.hangup(now), said)),
        Deed::Tick => Ok(says(end.tick(now), said)),
        _ => Ok(says(None, said) && is_met_quietly(end, now, deed)?),
    }
}

// Whether a row is met at the end that it names.
fn is_met_by(alloc: Global, ends: &mut Ends, row: &Row) -> Result<bool, AllocError> {
    match row.0 {
        Side::Near => is_met(alloc, &mut ends.near, row),
        Side::Far => is_met(alloc, &mut ends.far, row),
    }
}

// Makes the calls of a table, one after another, and compares what each comes to.
fn play<R: Abort>(rt: &R, alloc: Global, ends: &mut Ends, rows: &[Row]) -> Result<(), AllocError> {
    for (i, row) in rows.iter().enumerate() {
        let met = is_met_by(alloc, ends, row)?;
        assert!(rt; met, "row {i}");
    }
    Ok(())
}

fn play_all<R: Abort>(
    rt: &R,
    alloc: Global,
    ends: &mut Ends,
    tables: &[&[Row]],
) -> Result<(), AllocError> {
    for rows in tables {
        play(rt, alloc, ends, rows)?;
    }
    Ok(())
}

// Plays tables at fresh ends.
fn plays<R: Abort>(rt: &R, alloc: Global, tables: &[&[Row]]) -> Result<(), AllocError> {
    plays_with(rt, alloc, Timers::Fixed, tables)
}

// Plays tables at fresh ends with this kind of timers.
fn plays_with<R: Abort>(
    rt: &R,
    alloc: Global,
    timers: Timers,
    tables: &[&[Row]],
) -> Result<(), AllocError> {
    let mut ends = Ends::fresh(alloc, timers)?;
    let played = play_all(rt, alloc, &mut ends, tables);
    drop(ends);
    played
}
