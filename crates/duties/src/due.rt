//! When conversations are due, and the ticks of a move.
ghost use Rattle.std.specs.Prelude.{◌+◌, ◌≤◌, length};
ghost use Rattle.duties.specs.Queue.{AddsDuty};
ghost use Rattle.duties.specs.Ticking.{AddsTicks, tick_of, ticks_of};

use crate::queue::Duties;
use net_base::{ActorName, Event, Proto, With};

/// A conversation's generation, and the moment in ms at which it is due.
#[derive(Clone, Copy, Debug, PartialEq, Eq)]
pub struct Due {
    pub host: u32,
    pub proto: Proto,
    pub slot: u32,
    pub generation: u64,
    pub due: u64,
}

impl Duties {
    /// The move of this stamp, to this moment in ms, owes a tick to each conversation whose due moment has come.
    pub fn owe_ticks(&mut self, stamp: u64, now: u64, dues: &[Due])
        requires { length dues.now ≤ self.old.room }
        ensures list { AddsDuty self.old self.new (ticks_of stamp now dues.now) }
        ensures ticks { AddsTicks stamp now dues.now self.old self.new }
        ensures room { self.old.room ≤ self.new.room + length dues.now }
    {
        for due in dues {
            self.owe_tick(stamp, now, *due);
        }
    }

    // Owes the tick of one conversation, if its moment has come.
    fn owe_tick(&mut self, stamp: u64, now: u64, due: Due)
        requires { 1 ≤ self.old.room }
        ensures list { AddsDuty self.old self.new (tick_of stamp now due) }
        ensures room { self.old.room ≤ self.new.room + 1 }
    {
        if due.due <= now {
            self.owe(
                stamp,
                ActorName::Conv(due.host, due.proto, due.slot),
                Event::Tick {
                    generation: due.generation,
                },
                With::Nothing,
            );
        }
    }
}
