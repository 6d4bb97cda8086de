//! Callers that are played.
ghost use Rattle.std.specs.Prelude.{◌≡◌, ◌≢◌, ◌<◌, [], None, true, false, IfNone, IfOk, IfSome, OnSome};
ghost use Rattle.net_base.specs.declared.world.Script.{Script as AnyScript};
ghost use Rattle.net_base.specs.Callers.{IsScript, caller_count, caller_of};
ghost use Rattle.net_base.specs.Steps.{no_names};
ghost use Rattle.net_base.specs.World.{IsWorld};
ghost use Rattle.net_base.specs.Next.{zone_of};
ghost use Rattle.host_net.specs.Answering.{CannotTell, CanTell, AreStepsAnswered};
ghost use Rattle.host_net.specs.Playing.{CountsTurn, VisitHasRole, IsGoing, IsVisitPlayed, IsSamePlayer, PlaysOn, Heard, ToldReply, played_by};
ghost use Rattle.net_locks.specs.Rosters.{IsRosterOf};
ghost use Rattle.net_guests.specs.Visits.{IsFresh};
ghost use Rattle.host_net.specs.declared.player.Role.TheVariants as role;

use crate::guest::Guest;
use crate::net::Net;
use journal::Naming;
use net_base::{ActorName, Event, Reply, World};
use net_locks::{Placing, Spot, Turn, WorldActor, guests_begin, locks_keep_actors};
use outside::Gate;
use played_task::WholeTask;
use script_task::replies_fit;
use std::alloc::{AllocError, Global};
use std::marker::Model;
use std::sync::Wait;

/// Who a caller is.
#[derive(Clone, Copy, Debug, PartialEq, Eq)]
pub enum Role {
    Script,
    /// The courier of the medium of this number.
    Courier(u32),
    Clock,
}

/// A caller that is played: its guest, and the task that is played in the place of a script. The task of another caller is never asked.
#[derive(Drop)]
pub struct Player<J: Naming + Placing, T: WholeTask> {
    pub(crate) guest: Guest<J>,
    pub(crate) role: Role,
    pub(crate) task: T,
    // the task wasn't told its last reply, for want of memory
    pub(crate) lost: bool,
    // how many steps were finished before its last own reply
    before: usize,
    // its task plays a whole script, and so tells how many are
    counts: bool,
    // where it waits since its last turn, if it recorded nothing
    spot: Spot,
}

impl<J: Naming + Placing, T: WholeTask> Model for Player<J, T> {
    ghost use Rattle.std.specs.Prelude.{◌≡◌, true};
    ghost use Rattle.host_net.specs.Playing.{IsCounted, IsPlayer, Playing};

    ghost Value = { Playing T };

    ghost view = { λ p. record { visit = p.guest; role = p.role; task = p.task; lost = p.lost; counts = p.counts } };

    ghost invariant = { λ p. IsPlayer T.Goes J.tasks J.world p.guest p.role p.task p.lost
        × (p.counts ≡ true → IsCounted T.Plays J.world p.guest p.task p.lost p.before) };
}

impl<J: Naming + Placing, T: WholeTask> Player<J, T> {
    /// The player of a caller to whom nothing has happened, with what is played in the place of its script. It doesn't tell how many
    /// steps are answered.
    #[tactic(auto, using(crate::proofs::Counting::counts_nothing, crate::proofs::Counting::goes_fresh))]
    pub fn new(world: &World, guest: Guest<J>, task: T) -> Player<J, T>
        requires world { J.world ≡ world.now }
        requires is { IsWorld world.now }
        requires roster { IsRosterOf J.world J.run.roster }
        requires fresh { IsFresh (zone_of J.world) guest.caller guest }
        requires task { (s : AnyScript) → caller_of J.world guest.caller ≡ IsScript s
            → T.Goes (J.tasks guest.caller) (zone_of J.world) s [] (no_names (zone_of J.world)) task }
        ensures visit { result.visit ≡ guest }
        ensures role { VisitHasRole J.world guest.caller result.role }
        ensures task { result.task ≡ task }
        ensures told { result.lost ≡ false }
        ensures counts { result.counts ≡ false }
    {
        guests_begin();
        Player {
            role: role_of(world, guest.caller()),
            guest,
            task,
            lost: false,
            before: 0,
            counts: false,
            spot: Spot::nowhere(),
        }
    }

    /// A player of a task that plays the script from its beginning, where no task is played in its place. It tells how many steps are
    /// answered.
    pub fn counting(world: &World, guest: Guest<J>, task: T) -> Player<J, T>
        requires world { J.world ≡ world.now }
        requires is { IsWorld world.now }
        requires roster { IsRosterOf J.world J.run.roster }
        requires fresh { IsFresh (zone_of J.world) guest.caller guest }
        requires script { J.tasks guest.caller ≡ None }
        requires plays { (s : AnyScript) → caller_of J.world guest.caller ≡ IsScript s
            → T.Plays (zone_of J.world) s [] (no_names (zone_of J.world)) task }
        ensures visit { result.visit ≡ guest }
        ensures role { VisitHasRole J.world guest.caller result.role }
        ensures task { result.task ≡ task }
        ensures told { result.lost ≡ false }
        ensures counts { result.counts ≡ true }
    {
        let before = task.finished();
        let mut player = Player::new(world, guest, task);
        player.before = before;
        player.counts = true;
        player
    }

    // Which caller. Its role is who that is.
    pub(crate) fn caller(&self) -> u32
        ensures same { result ≡ self.now.visit.caller }
        ensures role { VisitHasRole J.world self.now.visit.caller self.now.role }
    {
        self.guest.caller()
    }

    /// The guest.
    pub fn guest(&self) -> &Guest<J>
        ensures { result.now ≡ self.now.visit }
    {
        &self.guest
    }

    /// The task.
    pub fn task(&self) -> &T
        ensures { result.now ≡ self.now.task }
    {
        &self.task
    }

    /// How many steps of its script are answered, where it can tell: one that owes nothing, and whose last reply was lost for
    /// want of memory, can't, and none that `new` made.
    pub fn answered(&self) -> Option<usize>
        ensures count { IfSome result (AreStepsAnswered J.world self.now.visit) }
        ensures tells { OnSome result (CanTell self.now) }
        ensures none { IfNone result (CannotTell self.now) }
    {
        if !self.counts {
            return None;
        }
        // what is owed belongs to the step of its last own event
        if self.guest.owes() {
            return Some(self.before);
        }
        if self.lost {
            return None;
        }
        Some(self.task.finished())
    }
}

impl<J: Naming + Placing, T: WholeTask + Drop> Player<J, T> {
    // The guest alone.
    pub(crate) fn into_guest(self) -> Guest<J>
        ensures same { result ≡ self.visit }
        ensures plays { IsVisitPlayed J.tasks J.world result }
    {
        let Player {
            guest,
            role: _,
            task: _,
            lost: _,
            before: _,
            counts: _,
            spot: _,
        } = self;
        guest
    }
}

impl<J: Naming + Placing, T: WholeTask + Drop> Player<J, T> {
    // The guest, and what was played, unless its last reply was lost for want of memory.
    pub(crate) fn into_part(self) -> Result<(Guest<J>, T), AllocError>
        ensures same { IfOk result (λ part. part ≡ (self.visit, self.task)) }
        ensures plays { IfOk result (λ part. IsVisitPlayed J.tasks J.world part.0) }
        ensures goes { IfOk result (λ part. IsGoing T.Goes J.tasks J.world part) }
    {
        let Player {
            guest,
            role: _,
            task,
            lost,
            before: _,
            counts: _,
            spot: _,
        } = self;
        if lost {
            return Err(AllocError);
        }
        Ok((guest, task))
    }
}

// Who the caller of this number is.
fn role_of(world: &World, caller: u32) -> Role
    requires is { IsWorld world.now }
    requires known { caller < caller_count world.now }
    ensures { VisitHasRole world.now caller result }
{
    let scripts = world.scripts.len() as u32;
    let media = world.media.len() as u32;
    if caller < scripts {
        return Role::Script;
    }
    if caller - scripts < media {
        return Role::Courier(caller - scripts);
    }
    Role::Clock
}

/// What became of a player's turn.
#[derive(Clone, Copy, Debug, PartialEq, Eq)]
pub enum Played {
    /// It recorded an entry.
    Recorded,
    /// Neither its first duty nor its next event is ready, or it has no room.
    Waits,
    Memory,
}

// What a turn came to.
fn played_of(turn: &Turn) -> Played
    ensures { result ≡ played_by turn.now }
{
    match turn {
        Turn::Recorded { .. } => Played::Recorded,
        Turn::NotReady => Played::Waits,
        Turn::Owes => Played::Waits,
        Turn::Limit => Played::Waits,
        Turn::Memory => Played::Memory,
    }
}

// What a script's turn came to. Its task is told the reply.
fn hear<T: WholeTask>(
    task: &mut T,
    lost: &mut bool,
    before: &mut usize,
    alloc: Global,
    turn: Turn,
) -> Played
    ensures heard { Heard T.after task.old lost.old turn result task.new lost.new }
    ensures counts { CountsTurn T.Plays task.old before.old turn before.new }
{
    match turn {
        Turn::Recorded { stamp: _, reply } => {
            *before = task.finished();
            tell(task, lost, alloc, reply)
        }
        Turn::NotReady => Played::Waits,
        Turn::Owes => Played::Waits,
        Turn::Limit => Played::Waits,
        Turn::Memory => Played::Memory,
    }
}

// The task takes the reply to the event that it asked for.
fn tell<T: WholeTask>(task: &mut T, lost: &mut bool, alloc: Global, reply: Reply) -> Played
    ensures { ToldReply T.after task.old lost.old reply result task.new lost.new }
{
    if task.told(alloc, reply).is_err() {
        *lost = true;
        return Played::Memory;
    }
    Played::Recorded
}

impl<J: Naming + Placing> Net<J, WorldActor<J>> {
    /// The turn of a player: its first duty, or, where it owes none, what it records next.
    pub fn play<R: Wait, G: Gate, T: WholeTask>(
        &self,
        rt: &R,
        alloc: Global,
        gate: &G,
        player: &mut Player<J, T>,
    ) -> Played
        ensures same { IsSamePlayer player.old player.new }
        ensures turn { PlaysOn J.tasks J.world player.old result player.new }
    {
        if player.guest.owes() {
            return self.play_duty(rt, gate, player);
        }
        match player.role {
            Role::Script => self.play_script(rt, alloc, gate, player),
            Role::Courier(medium) => self.play_courier(rt, gate, player, medium),
            Role::Clock => Played::Waits,
        }
    }

    // Whether it waited at its last turn and its actor has had no entry since. Then it waits still.
    pub(crate) fn stands_still<T: WholeTask>(&self, player: &Player<J, T>) -> bool {
        if player.role == Role::Clock && !player.guest.owes() {
            return true;
        }
        self.locks.stands(player.spot)
    }

    // The first duty.
    fn play_duty<R: Wait, G: Gate, T: WholeTask>(
        &self,
        rt: &R,
        gate: &G,
        player: &mut Player<J, T>,
    ) -> Played
        requires owes { player.old.visit.owed ≢ [] }
        ensures same { IsSamePlayer player.old player.new }
        ensures turn { PlaysOn J.tasks J.world player.old result player.new }
    {
        player.spot = self.first_spot(&player.guest);
        played_of(&self.serve(rt, gate, &mut player.guest))
    }

    // The copy that a courier that owes nothing takes.
    fn play_courier<R: Wait, G: Gate, T: WholeTask>(
        &self,
        rt: &R,
        gate: &G,
        player: &mut Player<J, T>,
        medium: u32,
    ) -> Played
        requires courier { player.old.role ≡ role.Courier medium }
        requires free { player.old.visit.owed ≡ [] }
        ensures same { IsSamePlayer player.old player.new }
        ensures turn { PlaysOn J.tasks J.world player.old result player.new }
    {
        player.spot = self.locks.spot_of(ActorName::Medium(medium), &Event::Take);
        played_of(&self.courier_turn(rt, gate, &mut player.guest, medium))
    }

    // The next event of a script that owes nothing. Its spot is then that of the event's actor, where it has an event.
    fn play_script<R: Wait, G: Gate, T: WholeTask>(
        &self,
        rt: &R,
        alloc: Global,
        gate: &G,
        player: &mut Player<J, T>,
    ) -> Played
        requires script { player.old.role ≡ role.Script }
        requires free { player.old.visit.owed ≡ [] }
        ensures same { IsSamePlayer player.old player.new }
        ensures turn { PlaysOn J.tasks J.world player.old result player.new }
    {
        let mut spot = Spot::nowhere();
        let played = self.play_task(rt, alloc, gate, player, &mut spot);
        player.spot = spot;
        played
    }

    // Plays on, with the spot beside the player.
    fn play_task<R: Wait, G: Gate, T: WholeTask>(
        &self,
        rt: &R,
        alloc: Global,
        gate: &G,
        player: &mut Player<J, T>,
        spot: &mut Spot,
    ) -> Played
        requires script { player.old.role ≡ role.Script }
        requires free { player.old.visit.owed ≡ [] }
        ensures same { IsSamePlayer player.old player.new }
        ensures turn { PlaysOn J.tasks J.world player.old result player.new }
    {
        locks_keep_actors();
        replies_fit();
        if player.lost {
            return Played::Memory;
        }
        let request = match player.task.next(alloc, player.guest.fids()) {
            Ok(Some(request)) => request,
            Ok(None) => return Played::Waits,
            Err(_) => return Played::Memory,
        };
        let turn = self.operate_at(rt, gate, &mut player.guest, request, spot);
        hear(
            &mut player.task,
            &mut player.lost,
            &mut player.before,
            alloc,
            turn,
        )
    }
}
