//! A history as far as its rows are made.
ghost use Rattle.std.specs.Prelude.{◌≡◌, IfOk, OnOk};
ghost use Rattle.net_base.specs.declared.world.World.{World as AnyWorld};
ghost use Rattle.duties.specs.WaysOf.{AreWaysOfWorld};
ghost use Rattle.packet_rows.specs.Past as spec;

use crate::facts::Facts;
use crate::frame::{Frames, LaidPacket, passage_of};
use crate::row::{Row, frame_of, row_of};
use duties::WorldWays;
use indexmap::IndexMap;
use net_base::{Entry, Sequence, World};
use std::alloc::{AllocError, Global};
use std::marker::Model;

/// The frames, the facts and the rows so far.
#[derive(Drop)]
pub struct Past {
    frames: Frames,
    pub facts: Facts,
    pub rows: Sequence<Row>,
}

impl Model for Past {
    ghost use Rattle.packet_rows.specs.Past.{Past};

    ghost Value = { Past };

    ghost view = { λ p. record { frames = p.frames.entries; facts = p.facts; rows = p.rows } };
}

fn note_frame(frames: &mut Frames, row: &Row) -> Result<(), AllocError>
    ensures { OnOk result (frames.new.entries ≡ spec.with_frame frames.old.entries row.now) }
{
    let Some(key) = frame_of(row) else {
        return Ok(());
    };
    let Some(to) = row.to else {
        return Ok(());
    };
    let passage = row.passage;
    frames.insert(key, LaidPacket { passage, to })?;
    Ok(())
}

impl Past {
    fn new(alloc: Global) -> Past
        ensures { result ≡ spec.no_past }
    {
        Past {
            frames: IndexMap::new(alloc),
            facts: Facts::new(alloc),
            rows: Sequence::new(alloc),
        }
    }

    fn note_row(&mut self, row: Option<Row>) -> Result<(), AllocError>
        ensures { OnOk result (self.new ≡ spec.with_row self.old row) }
    {
        let Some(row) = row else {
            return Ok(());
        };
        note_frame(&mut self.frames, &row)?;
        self.rows.push(row)
    }

    // Takes the next entry of a history.
    fn take(
        &mut self,
        alloc: Global,
        ways: &WorldWays,
        history: &[Entry],
        stamp: u64,
        entry: &Entry,
    ) -> Result<(), AllocError>
        ensures { OnOk result ((w : AnyWorld) → AreWaysOfWorld w ways.now
            → self.new ≡ spec.past_after w history.now self.old stamp entry.now) }
    {
        let packet = passage_of(&self.frames, history, entry.cites);
        let row = row_of(&self.frames, ways, history, stamp, entry);
        self.facts.take(alloc, stamp, entry, packet)?;
        self.note_row(row)
    }
}

/// The rows of a history of a world, with what they need of it.
pub fn past_of(alloc: Global, world: &World, entries: &[Entry]) -> Result<Past, AllocError>
    ensures { IfOk result (λ past. past ≡ spec.past_of world.now entries.now) }
{
    let ways = WorldWays::new(alloc, world)?;
    let mut past = Past::new(alloc);
    for (stamp, entry) in entries.iter().enumerate() {
        past.take(alloc, &ways, entries, stamp as u64, entry)?;
    }
    Ok(past)
}
