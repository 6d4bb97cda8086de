//! A run: phases of players on workers, and the clock between them.
ghost use Rattle.std.specs.Prelude.{◌≡◌, ◌<◌, ◌≤◌, ℕ, [], None, length, IfOk, OnOk};
ghost use Rattle.net_base.specs.declared.world.Script.{Script as AnyScript};
ghost use Rattle.net_base.specs.Callers.{IsScript, caller_of};
ghost use Rattle.net_base.specs.Legal.{IsLegal, IsLegalBy, IsTimed, IsTimedBy};
ghost use Rattle.net_base.specs.Net.{after};
ghost use Rattle.net_base.specs.Summary.{answered_steps};
ghost use Rattle.net_base.specs.World.{IsWorld};
ghost use Rattle.net_base.specs.Next.{zone_of};
ghost use Rattle.net_base.specs.Steps.{no_names};
ghost use Rattle.net_model.specs.Headline.{Headline};
ghost use Rattle.played_task.specs.ScriptTasks.{Plays};
ghost use Rattle.host_net.specs.Groups.{all_members, visits};
ghost use Rattle.net_locks.specs.Rosters.{IsRosterOf};
ghost use Rattle.net_guests.specs.Visits.{AreFresh};
ghost use Rattle.net_base.specs.Ends.{EndsBy, EndsSo};
ghost use Rattle.agenda.specs.Ending.{EndAllSo};

use crate::deal::{Deal, deal_of};
use crate::outcome::{BookedRun, Run, RunError};
use host_net::{Advance, Guest, Net, NetOpened, Player, Players};
use journal::Naming;
use net_base::{RunEnd, World};
use net_locks::{Placing, WorldActor};
use net_model::legal_histories_keep_it;
use outside::Gate;
use played_task::{ScriptTask, WholeTask};
use std::alloc::{AllocError, Global};
use std::marker::Brand;
use std::sync::Wait;
use std::thread::Threads;

/// Runs the scripts of a world on so many workers. Where a thread can't be had, the caller does its work.
pub fn run<R: Threads + Wait + Sync, G: Gate + Sync>(
    rt: &R,
    alloc: Global,
    world: &World,
    workers: u32,
    gate: &G,
) -> Result<Run, RunError>
    requires world { IsWorld world.now }
    requires some { 0 < workers }
    requires few { workers ≤ 16 }
    ensures legal { IfOk result (λ run. IsLegal world.now run.history) }
    ensures timed { IfOk result (λ run. IsTimed world.now run.history) }
    ensures answered { IfOk result (λ run. run.answered ≡ answered_steps world.now run.history) }
    ensures end { IfOk result (λ run. EndsSo world.now (after world.now run.history) run.end) }
    ensures headline { IfOk result (λ run. Headline world.now run.history) }
{
    let BookedRun {
        books,
        answered,
        end,
        lacks_threads: _,
    } = run_in_books(rt, alloc, world, workers, gate)?;
    let history = books.into_history(alloc)?;
    Ok(Run {
        history,
        answered,
        end,
    })
}

/// Runs a world, and leaves each entry where its actor's book has it.
pub fn run_in_books<R: Threads + Wait + Sync, G: Gate + Sync>(
    rt: &R,
    alloc: Global,
    world: &World,
    workers: u32,
    gate: &G,
) -> Result<BookedRun, RunError>
    requires world { IsWorld world.now }
    requires some { 0 < workers }
    requires few { workers ≤ 16 }
    ensures legal { IfOk result (λ run. IsLegal world.now run.books) }
    ensures timed { IfOk result (λ run. IsTimed world.now run.books) }
    ensures answered { IfOk result (λ run. run.answered ≡ answered_steps world.now run.books) }
    ensures end { IfOk result (λ run. EndsSo world.now (after world.now run.books) run.end) }
    ensures headline { IfOk result (λ run. Headline world.now run.books) }
{
    legal_histories_keep_it();
    let opened = NetOpened::new(alloc, world)?;
    let run = run_named::<Brand, R, G>(rt, alloc, world, workers, gate, opened)?;
    Ok(run)
}

// The run, which has a name.
fn run_named<J: Naming + Placing + Send + Sync, R: Threads + Wait + Sync, G: Gate + Sync>(
    rt: &R,
    alloc: Global,
    world: &World,
    workers: u32,
    gate: &G,
    opened: NetOpened,
) -> Result<BookedRun, AllocError>
    requires name { opened ≡ J.run }
    requires world { J.world ≡ world.now }
    requires scripts { (c : ℕ) → J.tasks c ≡ None }
    requires is { IsWorld world.now }
    requires roster { IsRosterOf J.world J.run.roster }
    requires some { 0 < workers }
    ensures legal { IfOk result (λ run. IsLegalBy J.tasks J.world run.books) }
    ensures timed { IfOk result (λ run. IsTimedBy J.tasks J.world run.books) }
    ensures answered { IfOk result (λ run. run.answered ≡ answered_steps J.world run.books) }
    ensures end { IfOk result (λ run. EndsBy J.tasks J.world (after J.world run.books) run.end) }
{
    let (net, guests) = Net::<J, WorldActor<J>>::named(alloc, world, opened)?;
    let deal = deal_of(rt, alloc, world, workers)?;
    let mut players = players_of(alloc, world, guests, deal)?;
    let end = phases(rt, alloc, world, gate, &net, &mut players)?;
    let Some(answered) = players.answered(world) else {
        return Err(AllocError);
    };
    let lacks_threads = players.lacks_threads();
    let played = players.into_guests(alloc)?;
    let books = net.finish_in_books(alloc, played)?;
    Ok(BookedRun {
        books,
        answered,
        end,
        lacks_threads,
    })
}

// A player for each guest, in its group.
fn players_of<'a, J: Naming + Placing>(
    alloc: Global,
    world: &'a World,
    guests: Vec<Guest<J>>,
    deal: Deal,
) -> Result<Players<J, ScriptTask<'a>>, AllocError>
    requires world { J.world ≡ world.now }
    requires is { IsWorld world.now }
    requires scripts { (c : ℕ) → J.tasks c ≡ None }
    requires roster { IsRosterOf J.world J.run.roster }
    requires some { 0 < deal.groups }
    requires fresh { AreFresh (zone_of J.world) 0 guests.items }
    ensures { IfOk result (λ players. players.callers ≡ length guests.items) }
{
    let Deal { groups, numbers } = deal;
    let mut players = Players::new(alloc, groups, numbers)?;
    for guest in guests {
        let task = task_of(alloc, world, guest.caller());
        players.add(Player::counting(world, guest, task))?;
    }
    Ok(players)
}

// The task of a script, or one without steps for another caller.
pub(crate) fn task_of<'a>(alloc: Global, world: &'a World, caller: u32) -> ScriptTask<'a>
    ensures { (s : AnyScript) → caller_of world.now caller ≡ IsScript s
        → Plays (zone_of world.now) s [] (no_names (zone_of world.now)) result }
{
    match world.scripts.as_slice().get(caller as usize) {
        Some(script) => ScriptTask::new(alloc, script),
        None => ScriptTask::idle(alloc),
    }
}

// The players go on until each of them waits, and then the clock moves, until the run ends.
pub(crate) fn phases<J, R: Threads + Wait + Sync, G: Gate + Sync, T: WholeTask + Drop + Send>(
    rt: &R,
    alloc: Global,
    world: &World,
    gate: &G,
    net: &Net<J, WorldActor<J>>,
    players: &mut Players<J, T>,
) -> Result<RunEnd, AllocError>
where
    J: Naming + Placing + Send + Sync,
    requires world { J.world ≡ world.now }
    requires is { IsWorld world.now }
    requires all { players.old.callers ≡ J.run.roster.callers }
    ensures all { OnOk result (players.new.callers ≡ J.run.roster.callers) }
    ensures ended { IfOk result (EndAllSo J.tasks J.world (visits (all_members players.new.groups))) }
{
    for _ in rt.forever() {
        net.play_phase(rt, alloc, gate, players);
        if players.is_short() {
            return Err(AllocError);
        }
        match net.advance(rt, alloc, gate, world, players) {
            Advance::Moved(_) | Advance::NotCalm(_) => {}
            Advance::Done => return Ok(RunEnd::Done),
            Advance::Stopped => return Ok(RunEnd::Stopped),
            Advance::Limit => return Ok(RunEnd::Limit),
            Advance::Memory => return Err(AllocError),
        }
    }
    unreachable!()
}
