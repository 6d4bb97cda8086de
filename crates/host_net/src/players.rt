//! Players in groups, one for each worker.
ghost use Rattle.std.specs.Prelude.{◌≡◌, ◌⊎◌, ℕ, ◌<◌, ◌≤◌, ◌++◌, List, [], length, true, false, None, option_map, IfNone, IfOk, IfSome};
ghost use Rattle.std.specs.Prelude.{OnErr, OnOk, slice_index_or};
ghost use Rattle.std.specs.List.{list_any};
ghost use Rattle.net_base.specs.declared.history.Entry.{Entry};
ghost use Rattle.net_base.specs.declared.world.Script.{Script as AnyScript};
ghost use Rattle.net_base.specs.Callers.{IsScript, caller_of};
ghost use Rattle.net_base.specs.Stamped.{In};
ghost use Rattle.net_base.specs.Summary.{answered_steps};
ghost use Rattle.host_net.specs.Answering.{AreAfter, CannotTellOf, IsAnsweredOf, SomeCannotTell};
ghost use Rattle.host_net.specs.Groups.{AreWaiting, all_members, all_seats, caller, callers_of, dealt, joined, members, no_players, seat_of, seats, visits, with_last};
ghost use Rattle.host_net.specs.Playing.{AreGoing, AreVisitsPlayed, IsSamePlayer, IsWaiting, guests_of};
ghost use Rattle.net_guests.specs.Visits.{HasGuest};
ghost use Rattle.host_net.specs.declared.player.Played.TheVariants as played;
ghost use Rattle.host_net.specs.declared.player.Role.TheVariants as role;
ghost use Rattle.host_net.specs.declared.players.Round.TheVariants.{Whole};

use crate::guest::Guest;
use crate::net::Net;
use crate::player::{Played, Player, Role};
use journal::Naming;
use net_base::World;
use net_locks::{Placing, WorldActor};
use outside::Gate;
use played_task::WholeTask as Task;
use std::alloc::{AllocError, Global};
use std::hint::spin_loop;
use std::marker::Model;
use std::sync::Wait;
use std::thread;
use std::thread::Threads;
use workers::{Crew, Pace, Shift};

/// As how many calls in vain one counts whose workers waited for one another most of the time.
const VAIN_CALLS: u32 = 8;

/// The players of one worker. The clock's stands by itself, in one of the groups.
#[derive(Drop)]
pub struct Group<J: Naming + Placing, T: Task> {
    pub(crate) players: Vec<Player<J, T>>,
    pub(crate) clock: Option<Player<J, T>>,
    // memory ran out in a turn
    pub(crate) memory: bool,
}

impl<J: Naming + Placing, T: Task> Model for Group<J, T> {
    ghost use Rattle.host_net.specs.Groups.{Grouped};

    ghost Value = { Grouped T };

    ghost view = { λ g. record { players = g.players.items; clock = g.clock; memory = g.memory } };
}

/// The players of all callers so far. A deal has a number for each caller; where it has none, that is the caller's own. The
/// player stands in the group of this number, modulo the number of groups.
#[derive(Drop)]
pub struct Players<J: Naming + Placing, T: Task> {
    pub(crate) groups: Vec<Group<J, T>>,
    pub(crate) callers: usize,
    deal: Vec<usize>,
    // how the phases went so far
    pace: Pace,
}

impl<J: Naming + Placing, T: Task> Model for Players<J, T> {
    ghost use Rattle.host_net.specs.Groups.{FollowsDeal, Grouping, IsDealt, all_seats};

    ghost Value = { Grouping T };

    ghost view = { λ p. record { groups = p.groups.items; callers = p.callers; deal = p.deal.items } };

    ghost invariant = { λ p. IsDealt J.world p.callers (all_seats p.groups.items)
        × FollowsDeal p.deal.items (all_seats p.groups.items) };
}

impl<J: Naming + Placing, T: Task + Drop> Group<J, T> {
    // No players.
    fn new(alloc: Global) -> Group<J, T>
        ensures { result ≡ no_players }
    {
        Group {
            players: Vec::new(alloc),
            clock: None,
            memory: false,
        }
    }

    // A player more. The clock has one alone.
    fn add(&mut self, player: Player<J, T>) -> Result<(), AllocError>
        requires alone { player.role ≡ role.Clock → self.old.clock ≡ None }
        ensures ok { OnOk result (self.new ≡ joined self.old player) }
        ensures err { OnErr result (self.new ≡ self.old) }
    {
        match player.role {
            Role::Clock => {
                self.clock = Some(player);
                Ok(())
            }
            Role::Script | Role::Courier(_) => Ok(self.players.push(player)?),
        }
    }
}

// The player of this caller, who is one of these.
fn player_of<J: Naming + Placing, T: Task>(players: &[Player<J, T>], caller: usize) -> &Player<J, T>
    requires { In caller (callers_of players.now) }
    ensures there { In result.now players.now }
    ensures caller { result.now.visit.caller ≡ caller }
{
    for player in players {
        if player.caller() as usize == caller {
            return player;
        }
    }
    unreachable!()
}

// The number of a caller's group, of so many, by a deal.
fn place_of(deal: &[usize], caller: usize, groups: usize) -> usize
    requires { 0 < groups }
    ensures { result ≡ seat_of deal.now caller groups }
{
    let number = match deal.get(caller) {
        Some(number) => *number,
        None => caller,
    };
    number % groups
}

impl<J: Naming + Placing, T: Task + Drop> Players<J, T> {
    /// So many groups without players, which are to join them by a deal.
    pub fn new(alloc: Global, groups: usize, deal: Vec<usize>) -> Result<Players<J, T>, AllocError>
        requires { 0 < groups }
        ensures groups { IfOk result (λ p. length p.groups ≡ groups) }
        ensures empty { IfOk result (λ p. p.callers ≡ 0) }
        ensures deal { IfOk result (λ p. p.deal ≡ deal.items) }
    {
        let mut all = Vec::with_capacity(alloc, groups)?;
        for _ in 0..groups {
            all.push(Group::new(alloc))?;
        }
        Ok(Players {
            groups: all,
            callers: 0,
            deal,
            pace: Pace::new(),
        })
    }

    /// The player of the next caller joins its group. Without memory that caller has no player.
    pub fn add(&mut self, player: Player<J, T>) -> Result<(), AllocError>
        requires next { player.visit.caller ≡ self.old.callers }
        ensures ok { OnOk result (self.new ≡ dealt self.old player) }
        ensures err { OnErr result (self.new ≡ self.old) }
    {
        let caller = player.caller() as usize;
        let place = place_of(self.deal.as_slice(), caller, self.groups.len());
        self.groups[place].add(player)?;
        self.callers = caller + 1;
        Ok(())
    }

    /// Whether threads were asked for and one couldn't be had.
    pub fn lacks_threads(&self) -> bool {
        self.pace.lacks_threads()
    }

    /// Whether memory ran out in a turn.
    pub fn is_short(&self) -> bool
        ensures { result ≡ list_any (λ g. g.memory) self.now.groups }
    {
        self.groups.iter().any(|group| group.memory)
    }

    /// How many steps of all scripts are answered, where each player can tell, in a history in which the players' callers
    /// have the entries that they know, and owe what they know.
    pub fn answered(&self, world: &World) -> Option<u128>
        requires world { J.world ≡ world.now }
        requires all { length world.now.scripts ≤ self.now.callers }
        ensures count { IfSome result (λ n. (h : List Entry)
            → AreAfter J.world (visits (all_members self.now.groups)) h → n ≡ answered_steps J.world h) }
        ensures none { IfNone result (SomeCannotTell J.world (all_members self.now.groups)) }
    {
        let mut answered: u128 = 0;
        for script in 0..world.scripts.len() {
            let Some(steps) = self.answered_of(script) else {
                return None;
            };
            answered += steps as u128;
        }
        Some(answered)
    }

    // How many steps of the script of this number are answered.
    fn answered_of(&self, script: usize) -> Option<usize>
        requires known { script < self.now.callers }
        requires script { (s : AnyScript) × (caller_of J.world script ≡ IsScript s) }
        ensures count { IfSome result (λ n. IsAnsweredOf J.world script (all_members self.now.groups) n) }
        ensures none { IfNone result (CannotTellOf script (all_members self.now.groups)) }
    {
        let place = place_of(self.deal.as_slice(), script, self.groups.len());
        let group = &self.groups[place];
        player_of(&group.players, script).answered()
    }

    /// The guests of all callers. What each of these recorded was its duties and what came next, and in time.
    pub fn into_guests(self, alloc: Global) -> Result<Vec<Guest<J>>, AllocError>
        ensures all { IfOk result (λ guests. (c : ℕ) → c < self.callers → HasGuest c guests.items) }
        ensures plays { IfOk result (λ guests. AreVisitsPlayed J.tasks J.world guests.items) }
        ensures same { IfOk result (λ guests. guests.items ≡ visits (all_members self.groups)) }
    {
        let Players {
            mut groups,
            callers,
            deal: _,
            pace: _,
        } = self;
        let mut guests = Vec::with_capacity(alloc, callers)?;
        groups.reverse();
        while let Some(group) = groups.pop() {
            add_guests(group, &mut guests)?;
        }
        Ok(guests)
    }

    /// The guests of all callers, each with what its player played. Where the last reply of one was lost for want of memory, this
    /// finds none either.
    pub fn into_parts(self, alloc: Global) -> Result<Vec<(Guest<J>, T)>, AllocError>
        ensures all { IfOk result (λ parts. (c : ℕ) → c < self.callers → HasGuest c (guests_of parts.items)) }
        ensures plays { IfOk result (λ parts. AreVisitsPlayed J.tasks J.world (guests_of parts.items)) }
        ensures same { IfOk result (λ parts. guests_of parts.items ≡ visits (all_members self.groups)) }
        ensures goes { IfOk result (λ parts. AreGoing T.Goes J.tasks J.world parts.items) }
    {
        let Players {
            mut groups,
            callers,
            deal: _,
            pace: _,
        } = self;
        let mut parts = Vec::with_capacity(alloc, callers)?;
        groups.reverse();
        while let Some(group) = groups.pop() {
            add_parts(group, &mut parts)?;
        }
        Ok(parts)
    }
}

// The players of a group join the others, each as its guest and what it played. One whose last reply was lost has none.
fn add_parts<J: Naming + Placing, T: Task + Drop>(
    group: Group<J, T>,
    parts: &mut Vec<(Guest<J>, T)>,
) -> Result<(), AllocError>
    ensures same { OnOk result (guests_of parts.new.items ≡ guests_of parts.old.items ++ visits (members group)) }
    ensures plays { OnOk result (AreVisitsPlayed J.tasks J.world (guests_of parts.old.items)
        → AreVisitsPlayed J.tasks J.world (guests_of parts.new.items)) }
    ensures goes { OnOk result (AreGoing T.Goes J.tasks J.world parts.old.items
        → AreGoing T.Goes J.tasks J.world parts.new.items) }
{
    let Group {
        players,
        clock,
        memory: _,
    } = group;
    add_player_parts(players, parts)?;
    add_clock_part(clock, parts)?;
    Ok(())
}

fn add_player_parts<J: Naming + Placing, T: Task + Drop>(
    mut players: Vec<Player<J, T>>,
    parts: &mut Vec<(Guest<J>, T)>,
) -> Result<(), AllocError>
    ensures same { OnOk result (guests_of parts.new.items ≡ guests_of parts.old.items ++ visits players.items) }
    ensures plays { OnOk result (AreVisitsPlayed J.tasks J.world (guests_of parts.old.items)
        → AreVisitsPlayed J.tasks J.world (guests_of parts.new.items)) }
    ensures goes { OnOk result (AreGoing T.Goes J.tasks J.world parts.old.items
        → AreGoing T.Goes J.tasks J.world parts.new.items) }
{
    players.reverse();
    while let Some(player) = players.pop() {
        let part = player.into_part()?;
        parts.push(part)?;
    }
    Ok(())
}

fn add_clock_part<J: Naming + Placing, T: Task + Drop>(
    clock: Option<Player<J, T>>,
    parts: &mut Vec<(Guest<J>, T)>,
) -> Result<(), AllocError>
    ensures same { OnOk result (guests_of parts.new.items ≡ guests_of parts.old.items ++ visits (with_last [] clock)) }
    ensures plays { OnOk result (AreVisitsPlayed J.tasks J.world (guests_of parts.old.items)
        → AreVisitsPlayed J.tasks J.world (guests_of parts.new.items)) }
    ensures goes { OnOk result (AreGoing T.Goes J.tasks J.world parts.old.items
        → AreGoing T.Goes J.tasks J.world parts.new.items) }
{
    match clock {
        Some(player) => {
            let part = player.into_part()?;
            parts.push(part)?;
            Ok(())
        }
        None => Ok(()),
    }
}

// The guests of a group join the others.
fn add_guests<J: Naming + Placing, T: Task + Drop>(
    group: Group<J, T>,
    guests: &mut Vec<Guest<J>>,
) -> Result<(), AllocError>
    ensures same { OnOk result (guests.new.items ≡ guests.old.items ++ visits (members group)) }
    ensures plays { OnOk result (AreVisitsPlayed J.tasks J.world guests.old.items
        → AreVisitsPlayed J.tasks J.world guests.new.items) }
{
    let Group {
        players,
        clock,
        memory: _,
    } = group;
    add_players(players, guests)?;
    add_clock(clock, guests)?;
    Ok(())
}

fn add_players<J: Naming + Placing, T: Task + Drop>(
    mut players: Vec<Player<J, T>>,
    guests: &mut Vec<Guest<J>>,
) -> Result<(), AllocError>
    ensures same { OnOk result (guests.new.items ≡ guests.old.items ++ visits players.items) }
    ensures plays { OnOk result (AreVisitsPlayed J.tasks J.world guests.old.items
        → AreVisitsPlayed J.tasks J.world guests.new.items) }
{
    players.reverse();
    while let Some(player) = players.pop() {
        guests.push(player.into_guest())?;
    }
    Ok(())
}

fn add_clock<J: Naming + Placing, T: Task + Drop>(
    clock: Option<Player<J, T>>,
    guests: &mut Vec<Guest<J>>,
) -> Result<(), AllocError>
    ensures same { OnOk result (guests.new.items ≡ guests.old.items ++ visits (with_last [] clock)) }
    ensures plays { OnOk result (AreVisitsPlayed J.tasks J.world guests.old.items
        → AreVisitsPlayed J.tasks J.world guests.new.items) }
{
    match clock {
        Some(player) => {
            guests.push(player.into_guest())?;
            Ok(())
        }
        None => Ok(()),
    }
}

// Who has a turn in a round.
#[derive(Clone, Copy, Debug, PartialEq, Eq)]
enum Round {
    // Each player.
    Whole,
    // Those that aren't sure to wait still.
    Brief,
}

// What two turns, or more, came to.
fn both(one: Played, other: Played) -> Played
    ensures waits { result ≡ played.Waits → (one ≡ played.Waits) × (other ≡ played.Waits) }
    ensures short { result ≡ played.Memory → (one ≡ played.Memory) ⊎ (other ≡ played.Memory) }
{
    match one {
        Played::Memory => Played::Memory,
        Played::Recorded => match other {
            Played::Memory => Played::Memory,
            Played::Recorded | Played::Waits => Played::Recorded,
        },
        Played::Waits => other,
    }
}

// One more goes on, where its turns recorded something.
fn count(going: &mut usize, turns: Played) {
    if turns == Played::Recorded {
        *going = going.saturating_add(1);
    }
}

// Whether a call paid. One whose workers waited for one another counts as several in vain.
fn learn<R: Wait>(rt: &R, pace: &mut Pace, crew: &Crew) {
    let waited = crew.has_waited(rt);
    pace.learn(!waited && crew.has_paid(rt));
    if waited {
        for _ in 1..VAIN_CALLS {
            pace.learn(false);
        }
    }
}

impl<J: Naming + Placing> Net<J, WorldActor<J>> {
    /// The caller plays all players, and where those of several groups go on for long, each group is played by a worker.
    /// Unless memory ran out, each player waits then.
    pub fn play_phase<R: Threads + Wait + Sync, G: Gate + Sync, T: Task + Drop + Send>(
        &self,
        rt: &R,
        alloc: Global,
        gate: &G,
        players: &mut Players<J, T>,
    )
    where
        J: Send + Sync,
        ensures callers { players.new.callers ≡ players.old.callers }
        ensures deal { players.new.deal ≡ players.old.deal }
        ensures seats { all_seats players.new.groups ≡ all_seats players.old.groups }
        ensures rest { list_any (λ g. g.memory) players.new.groups ≡ false
            → AreWaiting J.tasks J.world (all_members players.new.groups) }
    {
        self.play_groups(rt, alloc, gate, &mut players.pace, &mut players.groups);
    }

    // Rounds over all players until one in which none recorded anything, or memory ran out.
    fn play_groups<R: Threads + Wait + Sync, G: Gate + Sync, T: Task + Drop + Send>(
        &self,
        rt: &R,
        alloc: Global,
        gate: &G,
        pace: &mut Pace,
        groups: &mut [Group<J, T>],
    )
    where
        J: Send + Sync,
        ensures seats { all_seats groups.new ≡ all_seats groups.old }
        ensures rest { list_any (λ g. g.memory) groups.new ≡ false
            → AreWaiting J.tasks J.world (all_members groups.new) }
    {
        pace.begin();
        for _ in rt.forever() {
            // All have a turn, since the moment may be another than that at which they waited.
            let mut going = 0;
            match self.play_all(rt, alloc, gate, Round::Whole, groups, &mut going) {
                Played::Recorded => self.play_more(rt, alloc, gate, pace, going, groups),
                Played::Waits | Played::Memory => return,
            }
        }
    }

    // Rounds over those that may go on, after one in which players of so many groups recorded something: by the caller, and
    // then by workers where they are to be called.
    fn play_more<R: Threads + Wait + Sync, G: Gate + Sync, T: Task + Drop + Send>(
        &self,
        rt: &R,
        alloc: Global,
        gate: &G,
        pace: &mut Pace,
        going: usize,
        groups: &mut [Group<J, T>],
    )
    where
        J: Send + Sync,
        ensures seats { all_seats groups.new ≡ all_seats groups.old }
    {
        if pace.calls(going) || self.play_alone(rt, alloc, gate, pace, groups) {
            self.play_beside(rt, alloc, gate, pace, groups);
        }
    }

    // Rounds by the caller over those that may go on, until none does, memory runs out, or workers are to be called. The
    // answer is whether they are.
    fn play_alone<R: Wait, G: Gate, T: Task + Drop>(
        &self,
        rt: &R,
        alloc: Global,
        gate: &G,
        pace: &mut Pace,
        groups: &mut [Group<J, T>],
    ) -> bool
        ensures seats { all_seats groups.new ≡ all_seats groups.old }
    {
        for _ in rt.forever() {
            let mut going = 0;
            match self.play_all(rt, alloc, gate, Round::Brief, groups, &mut going) {
                Played::Recorded => {
                    if pace.calls(going) {
                        return true;
                    }
                }
                Played::Waits | Played::Memory => return false,
            }
        }
        unreachable!()
    }

    // A round of all groups by the caller. So many more of them recorded something.
    fn play_all<R: Wait, G: Gate, T: Task + Drop>(
        &self,
        rt: &R,
        alloc: Global,
        gate: &G,
        round: Round,
        groups: &mut [Group<J, T>],
        going: &mut usize,
    ) -> Played
        ensures seats { all_seats groups.new ≡ all_seats groups.old }
        ensures rest { round ≡ Whole → result ≡ played.Waits → AreWaiting J.tasks J.world (all_members groups.new) }
        ensures short { result ≡ played.Memory → list_any (λ g. g.memory) groups.new ≡ true }
    {
        match groups.split_first_mut() {
            Some((group, others)) => {
                let first = self.play_round(rt, alloc, gate, round, group);
                count(going, first);
                let rest = self.play_all(rt, alloc, gate, round, others, going);
                both(first, rest)
            }
            None => Played::Waits,
        }
    }

    // Each group is played by a worker until none can go on, or one alone goes on, where threads can be had.
    fn play_beside<R: Threads + Wait + Sync, G: Gate + Sync, T: Task + Drop + Send>(
        &self,
        rt: &R,
        alloc: Global,
        gate: &G,
        pace: &mut Pace,
        groups: &mut [Group<J, T>],
    )
    where
        J: Send + Sync,
        ensures seats { all_seats groups.new ≡ all_seats groups.old }
    {
        if !pace.has_threads(rt, groups.len()) {
            return;
        }
        let crew = Crew::new(groups.len());
        self.play_each_beside(rt, alloc, gate, &crew, groups);
        learn(rt, pace, &crew);
    }

    fn play_each_beside<R: Threads + Wait + Sync, G: Gate + Sync, T: Task + Drop + Send>(
        &self,
        rt: &R,
        alloc: Global,
        gate: &G,
        crew: &Crew,
        groups: &mut [Group<J, T>],
    )
    where
        J: Send + Sync,
        ensures many { length groups.new ≡ length groups.old }
        ensures seats { (i : ℕ) (d : _) → i < length groups.old
            → seats (slice_index_or groups.new i d) ≡ seats (slice_index_or groups.old i d) }
    {
        thread::for_each_mut(
            rt,
            groups,
            16,
            &|_, group| self.play_as_worker(rt, alloc, gate, crew, group),
        );
    }

    /// Rounds over the players of a group, each of which has a turn, until one in which none recorded anything, or
    /// memory ran out.
    pub fn play_group<R: Wait, G: Gate, T: Task + Drop>(
        &self,
        rt: &R,
        alloc: Global,
        gate: &G,
        group: &mut Group<J, T>,
    )
        ensures seats { seats group.new ≡ seats group.old }
        ensures rest { group.new.memory ≡ false → AreWaiting J.tasks J.world (members group.new) }
    {
        for _ in rt.forever() {
            match self.play_round(rt, alloc, gate, Round::Whole, group) {
                Played::Recorded => {}
                Played::Waits | Played::Memory => return,
            }
        }
    }

    fn play_as_worker<R: Wait, G: Gate, T: Task + Drop>(
        &self,
        rt: &R,
        alloc: Global,
        gate: &G,
        crew: &Crew,
        group: &mut Group<J, T>,
    )
        ensures seats { seats group.new ≡ seats group.old }
    {
        let mut shift = crew.begin(rt);
        self.play_on(rt, alloc, gate, crew, &mut shift, group);
        crew.leave(rt, shift);
    }

    // Rounds by a worker of a crew over those that may go on, with rests between, until it leaves.
    fn play_on<R: Wait, G: Gate, T: Task + Drop>(
        &self,
        rt: &R,
        alloc: Global,
        gate: &G,
        crew: &Crew,
        shift: &mut Shift,
        group: &mut Group<J, T>,
    )
        ensures seats { seats group.new ≡ seats group.old }
    {
        for _ in rt.forever() {
            let goes_on = match self.play_round(rt, alloc, gate, Round::Brief, group) {
                Played::Recorded => crew.record(rt, shift),
                Played::Waits => self.rest(rt, crew, shift, group),
                Played::Memory => false,
            };
            if !goes_on {
                return;
            }
        }
    }

    // Waits until a player may go on, or the worker is to leave. The answer is whether one may.
    fn rest<R: Wait, T: Task + Drop>(
        &self,
        rt: &R,
        crew: &Crew,
        shift: &mut Shift,
        group: &Group<J, T>,
    ) -> bool {
        if !crew.tell(rt, shift) {
            return false;
        }
        for _ in rt.forever() {
            let (changes, looks) = crew.look(rt);
            if self.goes_on_soon(group, looks) {
                return true;
            }
            if crew.rest(rt, changes) {
                return false;
            }
        }
        unreachable!()
    }

    // Whether a player may go on, by so many looks.
    fn goes_on_soon<T: Task + Drop>(&self, group: &Group<J, T>, looks: u32) -> bool {
        for _ in 0..looks {
            if self.may_go_on(group) {
                return true;
            }
            spin_loop();
        }
        false
    }

    fn may_go_on<T: Task + Drop>(&self, group: &Group<J, T>) -> bool {
        let clock = match &group.clock {
            Some(player) => !self.stands_still(player),
            None => false,
        };
        clock
            || group
                .players
                .iter()
                .any(|player| !self.stands_still(player))
    }

    // A turn of each that the round asks.
    fn play_round<R: Wait, G: Gate, T: Task + Drop>(
        &self,
        rt: &R,
        alloc: Global,
        gate: &G,
        round: Round,
        group: &mut Group<J, T>,
    ) -> Played
        ensures seats { seats group.new ≡ seats group.old }
        ensures rest { round ≡ Whole → result ≡ played.Waits → AreWaiting J.tasks J.world (members group.new) }
        ensures short { result ≡ played.Memory → group.new.memory ≡ true }
    {
        let others = self.play_each(rt, alloc, gate, round, &mut group.players);
        let clock = self.play_clock(rt, alloc, gate, round, &mut group.clock);
        let turns = both(others, clock);
        if turns == Played::Memory {
            group.memory = true;
        }
        turns
    }

    fn play_each<R: Wait, G: Gate, T: Task + Drop>(
        &self,
        rt: &R,
        alloc: Global,
        gate: &G,
        round: Round,
        players: &mut [Player<J, T>],
    ) -> Played
        ensures callers { callers_of players.new ≡ callers_of players.old }
        ensures rest { round ≡ Whole → result ≡ played.Waits → AreWaiting J.tasks J.world players.new }
    {
        let mut turns = Played::Waits;
        let mut i = 0;
        while i < players.len() {
            turns = both(
                turns,
                self.play_one(rt, alloc, gate, round, &mut players[i]),
            );
            i += 1;
        }
        turns
    }

    fn play_clock<R: Wait, G: Gate, T: Task + Drop>(
        &self,
        rt: &R,
        alloc: Global,
        gate: &G,
        round: Round,
        clock: &mut Option<Player<J, T>>,
    ) -> Played
        ensures caller { option_map caller clock.new ≡ option_map caller clock.old }
        ensures rest { round ≡ Whole → result ≡ played.Waits
            → IfSome clock.new (λ p. IsWaiting J.tasks J.world p.visit) }
    {
        match clock {
            Some(player) => self.play_one(rt, alloc, gate, round, player),
            None => Played::Waits,
        }
    }

    // A turn, unless the round passes over those that wait still.
    fn play_one<R: Wait, G: Gate, T: Task>(
        &self,
        rt: &R,
        alloc: Global,
        gate: &G,
        round: Round,
        player: &mut Player<J, T>,
    ) -> Played
        ensures same { IsSamePlayer player.old player.new }
        ensures rest { round ≡ Whole → result ≡ played.Waits → IsWaiting J.tasks J.world player.new.visit }
    {
        if round == Round::Brief && self.stands_still(player) {
            return Played::Waits;
        }
        self.play(rt, alloc, gate, player)
    }
}
