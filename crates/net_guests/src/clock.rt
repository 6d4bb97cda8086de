//! The calm clock: whether it may move, and where to.
ghost use Rattle.std.specs.Prelude.{◌≡◌};
ghost use Rattle.net_base.specs.Callers.{IsClock, caller_of};
ghost use Rattle.net_base.specs.World.{IsWorld};
ghost use Rattle.net_locks.specs.Guests.{IsOfGuests};
ghost use Rattle.net_locks.specs.Standings.{AllStand};
ghost use Rattle.net_guests.specs.Deciding.{LeavesGuest};
ghost use Rattle.net_guests.specs.Visits.{IsComplete};

use crate::bundle::Bundle;
use journal::Naming;
use net_base::World;
use net_locks::{Advance, Locks, Placing, Standing, WorldActor};
use outside::Gate;
use std::sync::Wait;

impl<J: Naming + Placing> Bundle<J> {
    /// What the clock does, where its guest's pass holds the numbers of all callers and they stand so.
    pub fn decide<R: Wait, G: Gate>(
        &mut self,
        rt: &R,
        gate: &G,
        locks: &Locks<J, WorldActor<J>>,
        world: &World,
        standings: &[Standing],
    ) -> Advance
        requires complete { IsComplete J.world J.run.roster self.old }
        requires world { J.world ≡ world.now }
        requires is { IsWorld world.now }
        requires clock { caller_of J.world self.old.visit.caller ≡ IsClock }
        requires all { AllStand J.tasks J.world J.run.roster self.old.visit.sight standings.now }
        ensures complete { IsComplete J.world J.run.roster self.new }
        ensures guests { IsOfGuests J.world J.run.roster self.old.visit.sight.seen }
        ensures leaves { LeavesGuest J.tasks J.world J.run.roster self.old.visit result self.new.visit }
    {
        let halt = locks.halt(rt, world, standings, &mut self.visitor.bearer);
        if let Some(answer) = halt {
            return answer;
        }
        let moved = locks.try_move(rt, gate, world, standings, &mut self.visitor);
        let Some(moment) = moved else {
            return Advance::Memory;
        };
        Advance::Moved(moment)
    }
}
