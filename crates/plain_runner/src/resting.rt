//! A run that borrows no world, so that its scripts can get more steps before it resumes.
ghost use Rattle.std.specs.Prelude.{◌≡◌, ◌<◌, ℕ, List, IsSome, IfOk, length, map};
ghost use Rattle.net_base.specs.declared.history.Entry.{Entry as AnyEntry};
ghost use Rattle.net_base.specs.declared.reply.Reply.{Reply};
ghost use Rattle.net_base.specs.declared.world.Step.{Step};
ghost use Rattle.net_base.specs.declared.world.World.{World as AnyWorld};
ghost use Rattle.net_base.specs.Legal.{IsTimed};
ghost use Rattle.net_base.specs.Versions.{Tuples};
ghost use Rattle.net_base.specs.World.{IsWorld};
ghost use Rattle.grown_laws.specs.Grown.{grown};
ghost use Rattle.script_player.specs.Players.{IsAt, next_after};
ghost use Rattle.plain_runner.specs.Resting as spec;
ghost use Rattle.plain_runner.specs.Resting.{AreCallersResting, AreResting, Forgets, HasItsScript, IsScriptFinished, Rests, Resumes};
ghost use Rattle.plain_runner.specs.Resting.{resting_caller};
ghost use Rattle.plain_runner.specs.Tracks.{AreCallers, Tracks};
ghost use Rattle.plain_runner.specs.Turns.{AreOwn, asks_of};

use crate::caller::{Caller, Role, asked};
use crate::ghost_history::GhostHistory;
use crate::runner::Runner;
use crate::turn::Turn;
use duties::{Duties, WorldWays};
use grown_laws::{
    finished_steps_stay, grown_is_legal, nets_are_alike, unbegun_steps_can_go,
    unfinished_scripts_ask,
};
use net_actors::Actors;
use net_base::{Script, World};
use script_player::{Player, players_fit_longer_scripts};
use std::alloc::{AllocError, Global};

/// A caller's role in a resting run.
#[derive(Drop)]
pub enum RestingRole {
    /// A script, without its steps: only the player.
    Script(Player),
    /// The courier of the medium of this number.
    Courier(u32),
    Clock,
}

/// A caller of a resting run. If its script had no next event, it can get one.
#[derive(Drop)]
pub struct RestingCaller {
    pub role: RestingRole,
    pub owed: Duties,
    pub next: Option<Turn>,
    pub entries: u32,
    pub before: usize,
}

/// A run between two steps of a program that adds steps to its scripts.
#[derive(Drop)]
pub struct Resting {
    pub alloc: Global,
    pub history: GhostHistory,
    pub count: u64,
    pub moment: u64,
    pub net: Actors,
    pub ways: WorldWays,
    pub callers: Vec<RestingCaller>,
}

impl<'a> Runner<'a> {
    /// Returns the run without its world.
    pub fn rest(self) -> Result<Resting, AllocError>
        ensures rests { (w : AnyWorld) → Tracks w self.entry → IfOk result (Rests w) }
        ensures history { IfOk result (λ r. r.history.entries ≡ self.entry.history.entries) }
    {
        let Runner {
            alloc,
            history,
            count,
            moment,
            net,
            ways,
            callers,
        } = self;
        let callers = resting_callers(alloc, callers)?;
        Ok(Resting {
            alloc,
            history,
            count,
            moment,
            net,
            ways,
            callers,
        })
    }
}

impl Resting {
    /// Returns the run in a world that it rests in. A script that got its first unfinished step has its next event again.
    pub fn resume<'a>(self, world: &'a World) -> Result<Runner<'a>, AllocError>
        requires { Rests world.now self }
        ensures tracks { IfOk result (Tracks world.now) }
        ensures history { IfOk result (λ r. r.history.entries ≡ self.history.entries) }
    {
        let Resting {
            alloc,
            history,
            count,
            moment,
            net,
            ways,
            callers,
        } = self;
        let callers = resumed_callers(alloc, world, callers)?;
        Ok(Runner {
            alloc,
            history,
            count,
            moment,
            net,
            ways,
            callers,
        })
    }
}

impl Resting {
    /// Forgets the step that the script of a caller is at, of which the history has no event.
    ///
    /// The run then also rests in the world with other steps in place of this step, or with none, if the history is timed there.
    pub fn forget(&mut self, caller: usize)
        requires { caller < length self.old.callers.items }
        ensures rests { (w : AnyWorld) (later others : List Step) → Rests (grown w caller later) self.old
            → IsScriptFinished w caller self.old.history.entries → IsWorld (grown w caller others)
            → IsTimed (grown w caller others) self.old.history.entries → Rests (grown w caller others) self.new }
        ensures history { self.new.history.entries ≡ self.old.history.entries }
    {
        nets_are_alike();
        grown_is_legal();
        finished_steps_stay();
        unbegun_steps_can_go();
        unfinished_scripts_ask();
        players_fit_longer_scripts();
        self.callers[caller].forget();
    }
}

impl RestingCaller {
    // Forgets the step that its script is at.
    fn forget(&mut self)
        ensures { Forgets self.old self.new }
    {
        let RestingRole::Script(player) = &mut self.role else {
            return;
        };
        player.forget();
        self.next = None;
    }
}

// The callers without their scripts.
fn resting_callers(
    alloc: Global,
    callers: Vec<Caller<'_>>,
) -> Result<Vec<RestingCaller>, AllocError>
    ensures { IfOk result (λ resting. resting.items ≡ map resting_caller callers.entry.items) }
{
    let mut resting = Vec::with_capacity(alloc, callers.len())?;
    for caller in callers {
        resting.push(caller.rest())?;
    }
    Ok(resting)
}

impl<'a> Caller<'a> {
    // The caller without its script.
    fn rest(self) -> RestingCaller
        ensures { result ≡ resting_caller self.entry }
    {
        RestingCaller {
            role: resting_role(self.role),
            owed: self.owed,
            next: self.next,
            entries: self.entries,
            before: self.before,
        }
    }
}

// The role without the script.
fn resting_role(role: Role<'_>) -> RestingRole
    ensures { result ≡ spec.resting_role role.entry }
{
    match role {
        Role::Script(_, player) => RestingRole::Script(player),
        Role::Courier(medium) => RestingRole::Courier(medium),
        Role::Clock => RestingRole::Clock,
    }
}

// The callers with the scripts of a world.
fn resumed_callers<'a>(
    alloc: Global,
    world: &'a World,
    resting: Vec<RestingCaller>,
) -> Result<Vec<Caller<'a>>, AllocError>
    requires { AreResting world.now resting.items }
    ensures { IfOk result (λ callers. (h : List AnyEntry) → AreCallersResting world.now h resting.items
        → AreCallers world.now h callers.items) }
{
    let mut callers = Vec::with_capacity(alloc, resting.len())?;
    for caller in resting {
        let number = callers.len();
        callers.push(caller.resume(world, number)?)?;
    }
    Ok(callers)
}

impl RestingCaller {
    // The caller of this number of a world, with its script.
    fn resume<'a>(self, world: &'a World, number: usize) -> Result<Caller<'a>, AllocError>
        requires { HasItsScript world.now number self.role }
        ensures { IfOk result (Resumes world.now number self) }
    {
        let RestingCaller {
            role,
            owed,
            next,
            entries,
            before,
        } = self;
        match role {
            RestingRole::Script(player) => {
                let mut player = player;
                let script = &world.scripts.as_slice()[number];
                let next = next_or_asked(next, &mut player, script)?;
                Ok(Caller {
                    role: Role::Script(script, player),
                    owed,
                    next,
                    entries,
                    before,
                })
            }
            RestingRole::Courier(medium) => Ok(Caller {
                role: Role::Courier(medium),
                owed,
                next,
                entries,
                before,
            }),
            RestingRole::Clock => Ok(Caller {
                role: Role::Clock,
                owed,
                next,
                entries,
                before,
            }),
        }
    }
}

// The next event of a script: the known one, or the one that its player asks for.
fn next_or_asked(
    next: Option<Turn>,
    player: &mut Player,
    script: &Script,
) -> Result<Option<Turn>, AllocError>
    ensures event { (zone : Tuples) (rs : List Reply) → IsAt zone script.now rs player.old
        → (IsSome next → asks_of next ≡ next_after zone script.now rs)
        → IfOk result (λ o. asks_of o ≡ next_after zone script.now rs) }
    ensures own { AreOwn next → IfOk result AreOwn }
    ensures same { (zone : Tuples) (rs : List Reply) → IsAt zone script.now rs player.old
        → IsAt zone script.now rs player.new }
{
    match next {
        Some(turn) => Ok(Some(turn)),
        None => Ok(asked(player.next(script)?)),
    }
}
