//! The columns of conversations.
ghost use Rattle.std.specs.Prelude.{◌≡◌, position, option_copied, IfOk, OnOk, Option};
ghost use Rattle.std.specs.Option.{option_and_then};
ghost use Rattle.net_base.specs.declared.history.Entry.{Entry as AnyEntry};
ghost use Rattle.net_base.specs.Stamped.{same_actor as is_same};
ghost use Rattle.net_chart.specs.Sights.{sight_of as sight};
ghost use Rattle.net_chart.specs.Talks as spec;

use crate::frame::{Frame, Key, Source};
use crate::past::owner_of;
use crate::place::Place;
use crate::sight::{Sight, sight_of};
use crate::thing::Thing;
use indexmap::IndexMap;
use net_base::{ActorList, ActorName, Entry, same_actor};
use std::alloc::{AllocError, Global};
use std::marker::Model;

/// No column has a greater number.
const LAST_COLUMN: usize = 4_294_967_295;

/// The conversations in the order of their first entries; the columns where frames start, by medium and number; and the columns to
/// which copies were brought, by the stamps of the entries that took them.
#[derive(Drop)]
pub struct Talks {
    columns: ActorList,
    starts: IndexMap<Key, u32>,
    ends: IndexMap<u64, u32>,
}

impl Model for Talks {
    ghost use Rattle.net_chart.specs.Talks.{Talks};

    ghost Value = { Talks };

    ghost view = { λ t. record { columns = t.columns; starts = t.starts.entries; ends = t.ends.entries } };
}

/// The conversations of a history.
pub fn talks_of(alloc: Global, entries: &[Entry]) -> Result<Talks, AllocError>
    ensures { IfOk result (λ talks. talks ≡ spec.talks_of entries.now) }
{
    let mut talks = Talks::new(alloc);
    for entry in entries {
        talks.take(entries, entry)?;
    }
    Ok(talks)
}

fn is_conversation(actor: ActorName) -> bool
    ensures { result ≡ spec.is_talk actor }
{
    match actor {
        ActorName::Conv(_, _, _) => true,
        _ => false,
    }
}

fn place_in(columns: &[ActorName], actor: ActorName) -> Option<usize>
    ensures { result ≡ position (is_same actor) columns.now }
{
    columns.iter().position(|column| same_actor(actor, *column))
}

fn column_number(place: usize) -> u32
    ensures { result ≡ spec.column_number place }
{
    place.min(LAST_COLUMN) as u32
}

/// The column of an actor.
fn column_of(columns: &[ActorName], actor: ActorName) -> Option<u32>
    ensures { result ≡ spec.column_of columns.now actor }
{
    match place_in(columns, actor) {
        Some(place) => Some(column_number(place)),
        None => None,
    }
}

// A conversation that had no entry yet has the next column.
fn note_column(columns: &mut ActorList, actor: ActorName) -> Result<(), AllocError>
    ensures { OnOk result (columns.new ≡ spec.columns_with columns.old actor) }
{
    match column_of(columns.as_slice(), actor) {
        Some(_) => Ok(()),
        None => columns.push(actor),
    }
}

fn note_start(
    starts: &mut IndexMap<Key, u32>,
    key: Key,
    column: Option<u32>,
) -> Result<(), AllocError>
    ensures { OnOk result (starts.new.entries ≡ spec.starts_at starts.old.entries key column) }
{
    match column {
        Some(column) => {
            starts.insert(key, column)?;
            Ok(())
        }
        None => Ok(()),
    }
}

fn note_end(
    ends: &mut IndexMap<u64, u32>,
    stamp: Option<u64>,
    column: Option<u32>,
) -> Result<(), AllocError>
    ensures { OnOk result (ends.new.entries ≡ spec.talk_ends_at ends.old.entries stamp column) }
{
    match stamp {
        Some(stamp) => match column {
            Some(column) => {
                ends.insert(stamp, column)?;
                Ok(())
            }
            None => Ok(()),
        },
        None => Ok(()),
    }
}

fn start_at(starts: &IndexMap<Key, u32>, key: Key) -> Option<u32>
    ensures { result ≡ spec.talk_start starts.now.entries key }
{
    starts.get(&key).copied()
}

fn end_at(ends: &IndexMap<u64, u32>, stamp: u64) -> Option<u32>
    ensures { result ≡ spec.end_at ends.now.entries stamp }
{
    ends.get(&stamp).copied()
}

// The entry that owed this owner, by its stamp.
fn cited_by(owner: Option<&Entry>) -> Option<u64>
    ensures { (owed : Option AnyEntry) → option_copied owner.entry ≡ owed → result ≡ spec.cited_by owed }
{
    match owner {
        Some(owner) => owner.cites,
        None => None,
    }
}

impl Talks {
    fn new(alloc: Global) -> Talks
        ensures { result ≡ spec.no_talks }
    {
        Talks {
            columns: ActorList::new(alloc),
            starts: IndexMap::new(alloc),
            ends: IndexMap::new(alloc),
        }
    }

    /// The conversations, column by column.
    pub fn columns(&self) -> &[ActorName]
        ensures { result.now ≡ self.now.columns }
    {
        self.columns.as_slice()
    }

    // Takes the next entry of a history.
    fn take(&mut self, history: &[Entry], entry: &Entry) -> Result<(), AllocError>
        ensures { OnOk result (self.new ≡ spec.talks_with history.now self.old entry.now) }
    {
        let owner = owner_of(history, entry.cites);
        self.note_laid(owner, sight_of(entry))?;
        if is_conversation(entry.actor) {
            self.enter(cited_by(owner), entry.actor)
        } else {
            Ok(())
        }
    }

    // Takes an entry of a conversation, to which the copy is brought that the entry of this stamp took.
    fn enter(&mut self, stamp: Option<u64>, actor: ActorName) -> Result<(), AllocError>
        ensures { OnOk result (self.new ≡ spec.entered self.old stamp actor) }
    {
        note_column(&mut self.columns, actor)?;
        let column = column_of(self.columns.as_slice(), actor);
        note_end(&mut self.ends, stamp, column)
    }

    // A frame that is laid starts where its packet does.
    fn note_laid(&mut self, owner: Option<&Entry>, sight: Sight) -> Result<(), AllocError>
        ensures { OnOk result ((owed : Option AnyEntry) → option_copied owner.entry ≡ owed
            → self.new ≡ record self.old { starts = spec.starts_by self.old owed sight }) }
    {
        match sight {
            Sight::Laid { medium, number, .. } => {
                let column = self.start_by(owner);
                note_start(&mut self.starts, (medium, number), column)
            }
            _ => Ok(()),
        }
    }

    fn start_by(&self, owner: Option<&Entry>) -> Option<u32>
        ensures { (owed : Option AnyEntry) → option_copied owner.entry ≡ owed
            → result ≡ option_and_then (spec.start_of_entry self.now) owed }
    {
        match owner {
            Some(owner) => self.start_of(owner),
            None => None,
        }
    }

    // Where a packet starts, by the entry that owes its put: where it was emitted, or where the earlier frame started by which it came.
    fn start_of(&self, owner: &Entry) -> Option<u32>
        ensures { result ≡ spec.start_of_entry self.now owner.now }
    {
        match sight_of(owner) {
            Sight::Came { medium, number } => start_at(&self.starts, (medium, number)),
            _ => column_of(self.columns.as_slice(), owner.actor),
        }
    }

    /// A thing of the chart of hosts as it stands between these columns, if it has to do with any.
    pub fn talked(&self, stamp: u64, entry: &Entry, thing: Option<Thing>) -> Option<Thing>
        ensures { result ≡ spec.talked_by self.now stamp entry.now (sight entry.now) thing }
    {
        match thing {
            Some(thing) => self.between(stamp, entry, thing),
            None => None,
        }
    }

    fn between(&self, stamp: u64, entry: &Entry, thing: Thing) -> Option<Thing>
        ensures { result ≡ spec.talked self.now stamp entry.now (sight entry.now) thing }
    {
        match thing {
            Thing::Arrow { frame, at } => self.arrow(stamp, &frame, at, sight_of(entry)),
            Thing::Cross { frame } => self.cross(&frame, sight_of(entry)),
            Thing::Operation { at, .. } => {
                operation_in(at, column_of(self.columns.as_slice(), entry.actor))
            }
        }
    }

    fn arrow(&self, stamp: u64, frame: &Frame, at: Place, sight: Sight) -> Option<Thing>
        ensures { result ≡ spec.arrow_by self.now stamp frame.now at sight }
    {
        match sight {
            Sight::Came { medium, number } => arrow_between(
                frame,
                at,
                start_at(&self.starts, (medium, number)),
                end_at(&self.ends, stamp),
            ),
            _ => None,
        }
    }

    fn cross(&self, frame: &Frame, sight: Sight) -> Option<Thing>
        ensures { result ≡ spec.cross_by self.now frame.now sight }
    {
        match sight {
            Sight::Laid { medium, number, .. } => {
                cross_from(frame, start_at(&self.starts, (medium, number)))
            }
            _ => None,
        }
    }
}

fn source_in(column: u32, source: Option<Source>) -> Option<Source>
    ensures { result ≡ spec.source_in column source }
{
    match source {
        Some(source) => Some(Source {
            host: column,
            header: source.header,
        }),
        None => None,
    }
}

// A frame from one column to another.
fn moved(from: u32, to: u32, frame: &Frame) -> Frame
    ensures { result ≡ spec.talks_moved from to frame.now }
{
    Frame {
        number: frame.number,
        source: source_in(from, frame.source),
        to,
        at: frame.at,
        came: frame.came,
    }
}

fn arrow_between(frame: &Frame, at: Place, from: Option<u32>, to: Option<u32>) -> Option<Thing>
    ensures { result ≡ spec.arrow_between frame.now at from to }
{
    match from {
        Some(from) => match to {
            Some(to) => Some(Thing::Arrow {
                frame: moved(from, to, frame),
                at,
            }),
            None => None,
        },
        None => None,
    }
}

// The column beside one.
fn beside(column: u32) -> u32
    ensures { result ≡ spec.column_beside column }
{
    if column == 0 {
        1
    } else {
        column.saturating_sub(1)
    }
}

// Half an arrow to the column beside.
fn cross_from(frame: &Frame, from: Option<u32>) -> Option<Thing>
    ensures { result ≡ spec.cross_from frame.now from }
{
    match from {
        Some(from) => Some(Thing::Cross {
            frame: moved(from, beside(from), frame),
        }),
        None => None,
    }
}

fn operation_in(at: Place, column: Option<u32>) -> Option<Thing>
    ensures { result ≡ spec.operation_in at column }
{
    match column {
        Some(column) => Some(Thing::Operation { host: column, at }),
        None => None,
    }
}
