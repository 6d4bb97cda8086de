//! The calm clock: it may move where no caller can go on, and for that its guest gets the numbers of all callers.
ghost use Rattle.std.specs.Prelude.{◌≡◌, ◌<◌, ◌++◌, ◌∷◌, Some, None, length, option_map, slice_get, slice_set, IfOk, IfSome, IsNone, OnOk};
ghost use Rattle.net_base.specs.declared.world.Script.{Script as AnyScript};
ghost use Rattle.net_base.specs.Callers.{IsClock, IsScript, caller_of};
ghost use Rattle.net_base.specs.Next.{next_by};
ghost use Rattle.net_base.specs.World.{IsWorld};
ghost use Rattle.net_locks.specs.Guests.{IsGuest};
ghost use Rattle.net_locks.specs.Works.{entries};
ghost use Rattle.host_net.specs.Advancing.{AddsToGroups, Advanced, Advances, AreBack, AreLent, AreStandings, GroupsAreBack, GroupsAreKept};
ghost use Rattle.host_net.specs.Advancing.{IsStanding, IsTaken, StayAtOnce, other_players};
ghost use Rattle.net_locks.specs.Standings.{IsBare, standing_ask};
ghost use Rattle.host_net.specs.Groups.{GroupsApart, Grouped, IsDealt, NotIn, all_members, all_seats, callers_of, members, visits};
ghost use Rattle.net_locks.specs.Turns as turns;
ghost use Rattle.net_guests.specs.Visits.{IsWith, Visit};

use crate::guest::Guest;
use crate::net::Net;
use crate::player::{Player, Role};
use crate::players::{Group, Players};
use history_laws::histories_are_their_callers;
use journal::Naming;
use net_base::{ActorName, Event, With, Work, World};
use net_locks::{Advance, Placing, Standing, WorldActor, histories_of_guests_are_legal};
use outside::Gate;
use played_task::WholeTask;
use script_task::{Planned, plan};
use std::alloc::{AllocError, Global};
use std::sync::Wait;

fn bare(event: Event) -> Work
    ensures { result ≡ turns.bare event }
{
    Work {
        event,
        with: With::Nothing,
    }
}

// How a player's caller stands. A player whose last reply was lost can't tell.
fn standing_of<J: Naming + Placing, T: WholeTask>(
    alloc: Global,
    player: &Player<J, T>,
) -> Result<Standing, AllocError>
    ensures { IfOk result (IsStanding J.tasks J.world player.now.visit) }
{
    let guest = &player.guest;
    Ok(Standing {
        caller: guest.caller(),
        owes: guest.owes(),
        full: guest.is_full(),
        next: next_of(alloc, player)?,
        touched: guest.touched(alloc)?,
    })
}

// What a player's caller records next, where it owes nothing.
fn next_of<J: Naming + Placing, T: WholeTask>(
    alloc: Global,
    player: &Player<J, T>,
) -> Result<Option<(ActorName, Work)>, AllocError>
    ensures next { IfOk result (λ n. option_map standing_ask n
        ≡ next_by J.tasks J.world (entries player.now.visit.sight.seen) player.now.visit.caller) }
    ensures bare { IfOk result (λ n. IsBare n) }
{
    match player.role {
        Role::Script => script_next(alloc, player),
        Role::Courier(medium) => Ok(Some((ActorName::Medium(medium), bare(Event::Take)))),
        Role::Clock => Ok(None),
    }
}

// The next event of a script.
fn script_next<J: Naming + Placing, T: WholeTask>(
    alloc: Global,
    player: &Player<J, T>,
) -> Result<Option<(ActorName, Work)>, AllocError>
    requires script { (s : AnyScript) × (caller_of J.world player.now.visit.caller ≡ IsScript s) }
    ensures next { IfOk result (λ n. option_map standing_ask n
        ≡ next_by J.tasks J.world (entries player.now.visit.sight.seen) player.now.visit.caller) }
    ensures bare { IfOk result (λ n. IsBare n) }
{
    if player.lost {
        return Err(AllocError);
    }
    let guest = &player.guest;
    let Some(request) = player.task.next(alloc, guest.fids())? else {
        return Ok(None);
    };
    let Planned {
        actor,
        event,
        effect: _,
    } = plan(guest.host(), guest.fids(), request);
    Ok(Some((actor, bare(event))))
}

// How all callers stand.
fn standings_of<J: Naming + Placing, T: WholeTask + Drop>(
    alloc: Global,
    players: &Players<J, T>,
) -> Result<Vec<Standing>, AllocError>
    ensures { IfOk result (λ ss. AreStandings J.tasks J.world (visits (all_members players.now.groups)) ss.items) }
{
    let mut standings = Vec::with_capacity(alloc, players.callers as usize)?;
    for group in &players.groups {
        add_standings(alloc, group, &mut standings)?;
    }
    Ok(standings)
}

// How the callers of a group stand.
fn add_standings<J: Naming + Placing, T: WholeTask + Drop>(
    alloc: Global,
    group: &Group<J, T>,
    standings: &mut Vec<Standing>,
) -> Result<(), AllocError>
    ensures { OnOk result (AddsToGroups J.tasks J.world (visits (members group.now))
        standings.old.items standings.new.items) }
{
    for player in &group.players {
        standings.push(standing_of(alloc, player)?)?;
    }
    if let Some(player) = &group.clock {
        standings.push(standing_of(alloc, player)?)?;
    }
    Ok(())
}

// What the clock decides by: the world, and how all callers stand.
#[derive(Clone, Copy)]
struct Grounds<'s> {
    world: &'s World,
    standings: &'s [Standing],
}

// What is known of a guest by itself.
fn guest_keeps<J: Naming + Placing>(guest: &Guest<J>)
    ensures { IsGuest J.world J.run.roster guest.entry.now.caller guest.entry.now.sight guest.entry.now.owed }
{
    let _bundle = &guest.bundle;
}

impl<J: Naming + Placing> Net<J, WorldActor<J>> {
    /// The clock moves to the next moment, in ms, where no caller can go on and some script isn't through, and then that is
    /// the moment of each player. Else it tells why it didn't. A player whose last reply was lost for want of memory can't
    /// tell what comes next: then this finds no memory either. It records nothing but the move.
    pub fn advance<R: Wait, G: Gate, T: WholeTask + Drop>(
        &self,
        rt: &R,
        alloc: Global,
        gate: &G,
        world: &World,
        players: &mut Players<J, T>,
    ) -> Advance
        requires world { J.world ≡ world.now }
        requires is { IsWorld world.now }
        requires all { players.old.callers ≡ J.run.roster.callers }
        ensures callers { players.new.callers ≡ players.old.callers }
        ensures deal { players.new.deal ≡ players.old.deal }
        ensures seats { all_seats players.new.groups ≡ all_seats players.old.groups }
        ensures kept { GroupsAreKept J.tasks J.world players.old.groups result players.new.groups }
        ensures moment { StayAtOnce result (visits (all_members players.old.groups))
            (visits (all_members players.new.groups)) }
        ensures answer { Advanced J.tasks J.world (visits (all_members players.old.groups)) result
            (visits (all_members players.new.groups)) }
    {
        let Ok(standings) = standings_of(alloc, players) else {
            return Advance::Memory;
        };
        let grounds = Grounds {
            world,
            standings: standings.as_slice(),
        };
        self.advance_groups(rt, gate, grounds, players.groups.as_mut_slice())
    }

    // Moves the clock on, where all callers stand so.
    fn advance_groups<R: Wait, G: Gate, T: WholeTask + Drop>(
        &self,
        rt: &R,
        gate: &G,
        grounds: Grounds<'_>,
        groups: &mut [Group<J, T>],
    ) -> Advance
        requires world { J.world ≡ grounds.world.now }
        requires is { IsWorld grounds.world.now }
        requires dealt { IsDealt J.world J.run.roster.callers (all_seats groups.old) }
        requires standings { AreStandings J.tasks J.world (visits (all_members groups.old)) grounds.standings.now }
        ensures seats { all_seats groups.new ≡ all_seats groups.old }
        ensures kept { GroupsAreKept J.tasks J.world groups.old result groups.new }
        ensures moment { StayAtOnce result (visits (all_members groups.old)) (visits (all_members groups.new)) }
        ensures answer { Advanced J.tasks J.world (visits (all_members groups.old)) result
            (visits (all_members groups.new)) }
    {
        histories_are_their_callers();
        histories_of_guests_are_legal();
        let Some((mut clock, place)) = take_clock(groups) else {
            return Advance::Memory;
        };
        guest_keeps(&clock.guest);
        let guest = &mut clock.guest;
        let answer = self.with_all(rt, gate, grounds, &mut [], groups, guest);
        put_clock(groups, place, clock);
        answer
    }

    // The numbers of these players, and of those in the groups, go to the clock's guest, and back when it has decided. Each
    // player keeps its number in its pass, so that none may be left without it between two calls: one is opened, and the
    // others are seen to before it closes. That is at most 37 calls deep.
    fn with_all<'a, R: Wait, G: Gate, T: WholeTask + Drop>(
        &self,
        rt: &R,
        gate: &G,
        grounds: Grounds<'_>,
        players: &'a mut [Player<J, T>],
        groups: &'a mut [Group<J, T>],
        clock: &mut Guest<J>,
    ) -> Advance
        requires world { J.world ≡ grounds.world.now }
        requires is { IsWorld grounds.world.now }
        requires clock { caller_of J.world clock.old.caller ≡ IsClock }
        requires apart { GroupsApart (clock.old.caller ∷ callers_of (players.old ++ other_players groups.old)) }
        requires lent { AreLent J.tasks J.world J.run.roster (visits (players.old ++ other_players groups.old))
            clock.old.sight grounds.standings.now }
        ensures others { (v : Visit)
            → NotIn v.caller (clock.old.caller ∷ callers_of (players.old ++ other_players groups.old))
            → IsWith J.world J.run.roster v clock.old.sight → IsWith J.world J.run.roster v clock.new.sight }
        ensures clock { Advances J.tasks J.world J.run.roster (visits (players.old ++ other_players groups.old))
            clock.old result clock.new }
        ensures players { AreBack J.world clock.new.now players.old players.new }
        ensures groups { GroupsAreBack J.world clock.new.now groups.old groups.new }
    {
        match players.split_first_mut() {
            Some((first, others)) => {
                let journal = self.locks.journal();
                first.guest.bundle.lend(journal, &mut clock.bundle);
                let answer = self.with_all(rt, gate, grounds, others, groups, clock);
                first.guest.bundle.take_back(journal, &mut clock.bundle);
                answer
            }
            None => match groups.split_first_mut() {
                Some((group, rest)) => {
                    let players = group.players.as_mut_slice();
                    self.with_all(rt, gate, grounds, players, rest, clock)
                }
                None => self.decide(rt, gate, grounds.world, grounds.standings, clock),
            },
        }
    }
}

// The clock's player, taken out of its group, and the number of that.
fn take_clock<J: Naming + Placing, T: WholeTask + Drop>(
    groups: &mut [Group<J, T>],
) -> Option<(Player<J, T>, usize)>
    ensures some { IfSome result (λ found. IsTaken groups.old found.0 found.1 groups.new) }
    ensures none { IsNone result → groups.new ≡ groups.old }
{
    let mut place = 0;
    while place < groups.len() {
        if let Some(clock) = take_from(&mut groups[place]) {
            return Some((clock, place));
        }
        place += 1;
    }
    None
}

// The clock's player, taken out of this group, where it has it.
fn take_from<J: Naming + Placing, T: WholeTask + Drop>(
    group: &mut Group<J, T>,
) -> Option<Player<J, T>>
    ensures taken { result ≡ group.old.clock }
    ensures left { group.new ≡ record group.old { clock = None } }
{
    group.clock.take()
}

// The clock's player is in the group of this place again.
fn put_clock<J: Naming + Placing, T: WholeTask + Drop>(
    groups: &mut [Group<J, T>],
    place: usize,
    clock: Player<J, T>,
)
    requires { place < length groups.old }
    ensures { (g : Grouped T) → slice_get groups.old place ≡ Some g
        → groups.new ≡ slice_set groups.old place (record g { clock = Some clock }) }
{
    put_into(&mut groups[place], clock);
}

// The clock's player is in this group.
fn put_into<J: Naming + Placing, T: WholeTask + Drop>(group: &mut Group<J, T>, clock: Player<J, T>)
    ensures { group.new ≡ record group.old { clock = Some clock } }
{
    group.clock = Some(clock);
}
