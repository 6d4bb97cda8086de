//! A history as far as it is drawn.
ghost use Rattle.std.specs.Prelude.{◌≡◌, ℕ, Option, true, cond, IfOk, OnOk, option_copied};
ghost use Rattle.std.specs.List.{list_any};
ghost use Rattle.std.specs.Option.{option_and_then};
ghost use Rattle.net_base.specs.declared.history.Entry.{Entry as AnyEntry};
ghost use Rattle.net_chart.specs.Frames as frames;
ghost use Rattle.net_chart.specs.Frames.{same_frame};
ghost use Rattle.net_chart.specs.Things as spec;
ghost use Rattle.net_chart.specs.Things.{KnowsFrames, no_past, past_after, thing_at};

use crate::frame::{Frame, Key, Source, frame_at, source_of};
use crate::place::{ABOVE_ALL, Place, place_after};
use crate::sight::{Sight, sight_of};
use crate::thing::Thing;
use indexmap::{IndexMap, IndexSet};
use net_base::Entry;
use std::alloc::{AllocError, Global};
use std::marker::Model;

/// The frames of which a copy arrives, by medium and number.
pub fn arrivals_in(alloc: Global, entries: &[Entry]) -> Result<IndexSet<Key>, AllocError>
    ensures { IfOk result (λ came. KnowsFrames entries.now came.keys) }
{
    let mut came = IndexSet::new(alloc);
    for entry in entries {
        note_copy(&mut came, sight_of(entry))?;
    }
    Ok(came)
}

// The frame of a copy that comes is one of them.
fn note_copy(came: &mut IndexSet<Key>, sight: Sight) -> Result<(), AllocError>
    ensures { OnOk result ((key : ℕ × ℕ) → list_any (same_frame key) came.new.keys
        ≡ cond (spec.is_copy key sight) true (list_any (same_frame key) came.old.keys)) }
{
    match sight {
        Sight::Came { medium, number } => {
            came.insert((medium, number))?;
            Ok(())
        }
        _ => Ok(()),
    }
}

/// The frames so far, by medium and number, and the last row.
#[derive(Drop)]
pub struct Past {
    frames: IndexMap<Key, Frame>,
    place: Place,
}

impl Model for Past {
    ghost use Rattle.net_chart.specs.Things.{Past};

    ghost Value = { Past };

    ghost view = { λ p. record { frames = p.frames.entries; place = p.place } };
}

impl Past {
    /// Nothing is drawn. It takes no memory yet.
    pub fn new(alloc: Global) -> Past
        ensures { result ≡ no_past }
    {
        Past {
            frames: IndexMap::new(alloc),
            place: ABOVE_ALL,
        }
    }

    /// Takes the next entry of a history, and gives what it draws.
    pub fn take(
        &mut self,
        brief: bool,
        history: &[Entry],
        came: &IndexSet<Key>,
        entry: &Entry,
    ) -> Result<Option<Thing>, AllocError>
        requires { KnowsFrames history.now came.now.keys }
        ensures thing { IfOk result (λ thing. thing ≡ thing_at brief history.now self.old entry.now) }
        ensures past { OnOk result (self.new ≡ past_after brief history.now self.old entry.now) }
    {
        self.place = place_after(brief, self.place, entry);
        match sight_of(entry) {
            Sight::Laid { medium, number, to } => {
                self.lay(history, came, entry, (medium, number), to)
            }
            Sight::Came { medium, number } => self.receive((medium, number)),
            Sight::Did { host } => Ok(Some(Thing::Operation {
                host,
                at: self.place,
            })),
            Sight::Nothing => Ok(None),
        }
    }

    // A frame is laid at the last row.
    fn lay(
        &mut self,
        history: &[Entry],
        came: &IndexSet<Key>,
        entry: &Entry,
        key: Key,
        to: u32,
    ) -> Result<Option<Thing>, AllocError>
        requires { KnowsFrames history.now came.now.keys }
        ensures thing { IfOk result (λ thing. thing
            ≡ spec.laid_thing history.now key (spec.laid_by history.now self.old.frames entry.now key.1 to
            self.old.place)) }
        ensures past { OnOk result (self.new
            ≡ spec.with_laid key (spec.laid_by history.now self.old.frames entry.now key.1 to self.old.place)
            self.old) }
    {
        let frame = Frame {
            number: key.1,
            source: self.source_of(owner_of(history, entry.cites)),
            to,
            at: self.place,
            came: false,
        };
        self.frames.insert(key, frame)?;
        if arrives(history, came, key) {
            return Ok(None);
        }
        Ok(Some(Thing::Cross { frame }))
    }

    // Where a packet comes from, by the entry that owed its put.
    fn source_of(&self, owner: Option<&Entry>) -> Option<Source>
        ensures { (owed : Option AnyEntry) → option_copied owner.entry ≡ owed
            → result ≡ option_and_then (frames.source_of self.now.frames) owed }
    {
        match owner {
            Some(owner) => source_of(&self.frames, owner),
            None => None,
        }
    }

    // A copy of a frame comes at the last row.
    fn receive(&mut self, key: Key) -> Result<Option<Thing>, AllocError>
        ensures thing { IfOk result (λ thing. thing ≡ spec.arrow_to self.old.place
            (frames.frame_at self.old.frames key)) }
        ensures past { OnOk result (self.new ≡ spec.with_arrived key self.old) }
    {
        let Some(frame) = frame_at(&self.frames, key) else {
            return Ok(None);
        };
        let mut later = frame;
        later.came = true;
        self.frames.insert(key, later)?;
        Ok(Some(Thing::Arrow {
            frame,
            at: self.place,
        }))
    }
}

// Whether some copy of a frame arrives.
fn arrives(history: &[Entry], came: &IndexSet<Key>, key: Key) -> bool
    requires { KnowsFrames history.now came.now.keys }
    ensures { result ≡ spec.arrives_in history.now key }
{
    let _ = history;
    came.contains(&key)
}

/// The entry that owed one.
pub fn owner_of(history: &[Entry], cites: Option<u64>) -> Option<&Entry>
    ensures { option_copied result ≡ frames.owner_of history.now cites }
{
    match cites {
        Some(stamp) => history.get(stamp as usize),
        None => None,
    }
}
