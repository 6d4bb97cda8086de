//! What happens to an IL end. Moments are in ms.
ghost use Rattle.net_base.specs.IlEnd as spec;
ghost use Rattle.net_base.specs.IlTable as table;
ghost use Rattle.il_machine.specs.Stands.{end_after_read};

use crate::ghost_end::Change;
use net_base::{IlMsg, Timers};

/// A new end that was never connected, with such timers.
#[derive(Drop)]
pub struct IsFresh {
    pub timers: Timers,
}

impl Change for IsFresh {
    ghost after = { λ c _. spec.fresh_end c.timers };
}

/// The end connects.
#[derive(Drop)]
pub struct Connects {
    pub now: u64,
    pub start: u32,
}

impl Change for Connects {
    ghost after = { λ c e. (table.connects c.now c.start e).end };
}

/// The end is born from the sync with the id `rstart`.
#[derive(Drop)]
pub struct IsBorn {
    pub now: u64,
    pub start: u32,
    pub rstart: u32,
}

impl Change for IsBorn {
    ghost after = { λ c e. (table.is_born c.now c.start c.rstart e).end };
}

/// The end listens.
#[derive(Drop)]
pub struct IsAnnounced;

impl Change for IsAnnounced {
    ghost after = { λ _ e. table.announced e };
}

/// The end hangs up.
#[derive(Drop)]
pub struct HangsUp {
    pub now: u64,
}

impl Change for HangsUp {
    ghost after = { λ c e. (table.hangs_up c.now e).end };
}

/// A tick: what is due at this moment is done.
#[derive(Drop)]
pub struct Ticks {
    pub now: u64,
}

impl Change for Ticks {
    ghost after = { λ c e. (table.ticks c.now e).end };
}

/// A message arrives.
#[derive(Drop)]
pub struct Arrives<'a> {
    pub now: u64,
    pub message: &'a IlMsg,
}

impl<'a> Change for Arrives<'a> {
    ghost after = { λ c e. (table.arrives c.now c.message.now e).end };
}

/// A message is written.
#[derive(Drop)]
pub struct Writes<'a> {
    pub now: u64,
    pub text: &'a [u8],
}

impl<'a> Change for Writes<'a> {
    ghost after = { λ c e. (table.writes c.now c.text.now e).end };
}

/// At most so many bytes are read.
#[derive(Drop)]
pub struct Reads {
    pub count: usize,
}

impl Change for Reads {
    ghost after = { λ c e. end_after_read c.count e };
}
