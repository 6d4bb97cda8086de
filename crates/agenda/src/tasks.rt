//! A run with tasks of one's own in the places of scripts.
ghost use Rattle.std.specs.Prelude.{◌≡◌, ◌≢◌, ◌<◌, ◌≤◌, ℕ, [], None, Some, length, option_map, IfNone, IfOk, IfSome};
ghost use Rattle.net_base.specs.declared.world.Script.{Script as AnyScript};
ghost use Rattle.net_base.specs.Callers.{IsScript, caller_of};
ghost use Rattle.net_base.specs.Legal.{IsLegalBy, IsTimedBy};
ghost use Rattle.net_base.specs.Net.{after};
ghost use Rattle.net_base.specs.Next.{zone_of};
ghost use Rattle.net_base.specs.Steps.{no_names};
ghost use Rattle.net_base.specs.Tasks.{asking_of};
ghost use Rattle.net_base.specs.World.{IsWorld};
ghost use Rattle.agenda.specs.Given.{AreBack, AreBegun, AreTheirs, AskInOrder, NoneElse, WereTold, own_task, task_at, tasks_of};
ghost use Rattle.host_net.specs.Groups.{all_members, visits};
ghost use Rattle.host_net.specs.Playing.{AreVisitsPlayed};
ghost use Rattle.net_guests.specs.Visits.{AreFresh, HasGuest};
ghost use Rattle.net_locks.specs.Rosters.{IsRosterOf};
ghost use Rattle.prefix_law.specs.PrefixLaw.{KeepsPrefixes};
ghost use Rattle.net_base.specs.Ends.{EndsBy};
ghost use Rattle.played_task.specs.Places as places;

use crate::deal::{Deal, deal_of};
use crate::outcome::{RunError, TaskRun};
use crate::phases::{phases, task_of};
use history_laws::tasks_ask_in_order;
use host_net::{Guest, Net, NetOpened, Player, Players};
use journal::Naming;
use net_base::World;
use net_locks::{Placing, WorldActor};
use outside::Gate;
use played_task::{OwnTask, PlaceTask};
use prefix_law::tasks_keep_prefixes;
use std::alloc::{AllocError, Global};
use std::marker::Brand;
use std::sync::Wait;
use std::thread::Threads;

/// Runs a world on so many workers, with tasks of one's own in the places of scripts: the task of number `c` is played on the host of
/// the script of number `c`, whose steps aren't. Where there is none the script is played.
///
/// What a task asks is what is recorded in its place, in order, and it comes back as it is in the end: it was told the replies to that, in
/// order, and nothing else. Where a thread can't be had, the caller does its work.
pub fn run_tasks<R: Threads + Wait + Sync, G: Gate + Sync, T: OwnTask + Drop + Send>(
    rt: &R,
    alloc: Global,
    world: &World,
    tasks: Vec<Option<T>>,
    workers: u32,
    gate: &G,
) -> Result<TaskRun<T>, RunError>
    requires world { IsWorld world.now }
    requires some { 0 < workers }
    requires few { workers ≤ 16 }
    requires begun { AreBegun T.Keeps tasks.items }
    ensures legal { IfOk result (λ run. IsLegalBy (tasks_of T.asks T.after tasks.items) world.now run.history) }
    ensures timed { IfOk result (λ run. IsTimedBy (tasks_of T.asks T.after tasks.items) world.now run.history) }
    ensures end { IfOk result (λ run. EndsBy (tasks_of T.asks T.after tasks.items) world.now
        (after world.now run.history) run.end) }
    ensures asked { IfOk result (λ run. AskInOrder T.asks T.after world.now tasks.items run.history) }
    ensures told { IfOk result (λ run. WereTold T.asks T.after T.Keeps world.now tasks.items run.history
        run.tasks.items) }
    ensures places { IfOk result (λ run. length run.tasks.items ≡ length world.now.scripts) }
    ensures none { IfOk result (λ run. NoneElse tasks.items run.tasks.items) }
    ensures prefixes { IfOk result (λ run. KeepsPrefixes world.now run.history) }
{
    tasks_ask_in_order();
    tasks_keep_prefixes();
    let opened = NetOpened::new(alloc, world)?;
    let run = run_named::<Brand, R, G, T>(rt, alloc, world, tasks, workers, gate, opened)?;
    Ok(run)
}

// The run, which has a name.
fn run_named<J, R: Threads + Wait + Sync, G: Gate + Sync, T: OwnTask + Drop + Send>(
    rt: &R,
    alloc: Global,
    world: &World,
    tasks: Vec<Option<T>>,
    workers: u32,
    gate: &G,
    opened: NetOpened,
) -> Result<TaskRun<T>, AllocError>
where
    J: Naming + Placing + Send + Sync,
    requires name { opened ≡ J.run }
    requires world { J.world ≡ world.now }
    requires given { (c : ℕ) → J.tasks c ≡ tasks_of T.asks T.after tasks.items c }
    requires begun { AreBegun T.Keeps tasks.items }
    requires is { IsWorld world.now }
    requires roster { IsRosterOf J.world J.run.roster }
    requires some { 0 < workers }
    ensures legal { IfOk result (λ run. IsLegalBy J.tasks J.world run.history) }
    ensures timed { IfOk result (λ run. IsTimedBy J.tasks J.world run.history) }
    ensures end { IfOk result (λ run. EndsBy J.tasks J.world (after J.world run.history) run.end) }
    ensures told { IfOk result (λ run. WereTold T.asks T.after T.Keeps J.world tasks.items run.history
        run.tasks.items) }
    ensures places { IfOk result (λ run. length run.tasks.items ≡ length J.world.scripts) }
    ensures none { IfOk result (λ run. NoneElse tasks.items run.tasks.items) }
{
    let (net, guests) = Net::<J, WorldActor<J>>::named(alloc, world, opened)?;
    let deal = deal_of(rt, alloc, world, workers)?;
    let mut players = players_of(alloc, world, tasks, guests, deal)?;
    let end = phases(rt, alloc, world, gate, &net, &mut players)?;
    let Ended { guests, tasks } = ended_of(alloc, world.scripts.len(), players)?;
    let history = net.finish(alloc, guests)?;
    Ok(TaskRun {
        history,
        tasks,
        end,
    })
}

// A player for each guest, in its group.
fn players_of<'a, J: Naming + Placing, T: OwnTask + Drop>(
    alloc: Global,
    world: &'a World,
    mut tasks: Vec<Option<T>>,
    guests: Vec<Guest<J>>,
    deal: Deal,
) -> Result<Players<J, PlaceTask<'a, T>>, AllocError>
    requires world { J.world ≡ world.now }
    requires given { (c : ℕ) → J.tasks c ≡ tasks_of T.asks T.after tasks.items c }
    requires begun { AreBegun T.Keeps tasks.items }
    requires is { IsWorld world.now }
    requires roster { IsRosterOf J.world J.run.roster }
    requires some { 0 < deal.groups }
    requires fresh { AreFresh (zone_of J.world) 0 guests.items }
    ensures { IfOk result (λ players. players.callers ≡ length guests.items) }
{
    let Deal { groups, numbers } = deal;
    let mut players = Players::new(alloc, groups, numbers)?;
    for guest in guests {
        let caller = guest.caller();
        let own = take(&mut tasks, caller as usize);
        let task = place_task(alloc, world, caller, own);
        let player = Player::new(world, guest, task);
        players.add(player)?;
    }
    Ok(players)
}

// The task that was given for this place, which has none then.
fn take<T>(tasks: &mut Vec<Option<T>>, place: usize) -> Option<T>
    ensures there { result ≡ task_at tasks.old.items place }
    ensures rest { (c : ℕ) → place < c → task_at tasks.new.items c ≡ task_at tasks.old.items c }
{
    match tasks.get_mut(place) {
        Some(task) => task.take(),
        None => None,
    }
}

// What a caller plays.
fn place_task<'a, T: OwnTask>(
    alloc: Global,
    world: &'a World,
    caller: u32,
    own: Option<T>,
) -> PlaceTask<'a, T>
    requires begun { IfSome own (λ t. T.Keeps t []) }
    ensures { (s : AnyScript) → caller_of world.now caller ≡ IsScript s
        → places.Goes T.asks T.after T.Keeps (option_map (asking_of T.after T.asks) own) (zone_of world.now) s []
        (no_names (zone_of world.now)) result }
{
    match own {
        Some(task) => PlaceTask::Own(task),
        None => PlaceTask::Script(task_of(alloc, world, caller)),
    }
}

// The guests, and the task of each place, as it is in the end.
#[derive(Drop)]
struct Ended<J: Naming + Placing, T> {
    guests: Vec<Guest<J>>,
    tasks: Vec<Option<T>>,
}

// The players of so many places are taken apart.
fn ended_of<'a, J: Naming + Placing, T: OwnTask + Drop>(
    alloc: Global,
    places: usize,
    players: Players<J, PlaceTask<'a, T>>,
) -> Result<Ended<J, T>, AllocError>
    requires places { places ≡ length J.world.scripts }
    ensures all { IfOk result (λ back. (c : ℕ) → c < players.entry.callers → HasGuest c back.guests.items) }
    ensures plays { IfOk result (λ back. AreVisitsPlayed J.tasks J.world back.guests.items) }
    ensures same { IfOk result (λ back. back.guests.items ≡ visits (all_members players.entry.groups)) }
    ensures tasks { IfOk result (λ back. AreBack T.asks T.after T.Keeps J.tasks J.world back.guests.items
        back.tasks.items) }
    ensures many { IfOk result (λ back. length back.tasks.items ≡ length J.world.scripts) }
    ensures theirs { IfOk result (λ back. AreTheirs J.tasks back.tasks.items) }
{
    let mut tasks = rows(alloc, places)?;
    let parts = players.into_parts(alloc)?;
    let mut guests = Vec::with_capacity(alloc, parts.len())?;
    for part in parts {
        let (guest, task) = part;
        put_back(&mut tasks, guest.caller() as usize, task);
        guests.push(guest)?;
    }
    Ok(Ended { guests, tasks })
}

// No task for each of so many places.
fn rows<T: OwnTask + Drop>(alloc: Global, places: usize) -> Result<Vec<Option<T>>, AllocError>
    ensures many { IfOk result (λ tasks. length tasks.items ≡ places) }
    ensures none { IfOk result (λ tasks. (c : ℕ) → task_at tasks.items c ≡ None) }
{
    let mut tasks = Vec::with_capacity(alloc, places)?;
    for _ in 0..places {
        tasks.push(None)?;
    }
    Ok(tasks)
}

// The task of a place is there again.
fn put_back<T: OwnTask + Drop>(tasks: &mut Vec<Option<T>>, place: usize, played: PlaceTask<'_, T>)
    ensures many { length tasks.new.items ≡ length tasks.old.items }
    ensures own { IfSome (own_task played.entry)
        (λ t. place < length tasks.old.items → task_at tasks.new.items place ≡ Some t) }
    ensures script { IfNone (own_task played.entry) (tasks.new.items ≡ tasks.old.items) }
    ensures rest { (c : ℕ) → c ≢ place → task_at tasks.new.items c ≡ task_at tasks.old.items c }
{
    if let PlaceTask::Own(task) = played {
        if let Some(at) = tasks.get_mut(place) {
            *at = Some(task);
        }
    }
}
