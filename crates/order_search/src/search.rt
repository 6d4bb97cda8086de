//! The search, pass by pass: the histories with a number of losses and of preemptions, in the order of their choices.
ghost use Rattle.std.specs.Prelude.{◌≡◌, ◌≤◌, ◌<◌, ◌+◌, ◌-◌, ◌∷◌, ◌++◌, ◌^◌, [], List, None, Some, ℕ};
ghost use Rattle.std.specs.Prelude.{false, not, slice_get, true, length, IfOk, IfSome, IfNone, OnOk};
ghost use Rattle.std.specs.List.{list_all};
ghost use Rattle.net_base.specs.declared.history.Entry.{Entry as AnyEntry};
ghost use Rattle.net_base.specs.declared.world.World.{World as AnyWorld};
ghost use Rattle.net_base.specs.World.{IsWorld};
ghost use Rattle.net_base.specs.Net.{after};
ghost use Rattle.turn_orders.specs.Turns.{IsEnded, goes as is_going};
ghost use Rattle.order_search.specs.Choices.{IsForkAt, IsFree, IsPath, NoForkGoes};
ghost use Rattle.order_search.specs.Exact.{ChosenBy, EndsPath, HasFound, IsAtPlace, IsExact, IsPlain, IsWhole, Looks, Takes};
ghost use Rattle.order_search.specs.Known.{is_among, texts_in, with_text};
ghost use Rattle.order_search.specs.Losses.{AreFrames, is_laid};
ghost use Rattle.order_search.specs.Walks.{GoesAlone, IsBound, IsGoer, IsPlayed, IsWalk, NextGoes, NoneGoes};
ghost use Rattle.order_search.specs.Tellings.{IsKin, IsLastPass, IsPassOf, IsSound, IsWorldOf, NextPass, most_losses as spec_most_losses, told_losses};

use crate::ended::{Ended, ended_of};
use crate::going::{can_go, first_goer, next_goer};
use crate::losses::{Frame, are_laid, frame_of, lose};
use crate::path::Path;
use crate::tellings::{Telling, telling_of};
use crate::trail::{Losing, Part, Trail};
use crate::walk::{Walk, advance};
use indexmap::IndexSet;
use net_base::World;
use std::alloc::{AllocError, Global};

/// The progress of a search: the losses and the preemptions of its pass, how many histories it has looked at, and how many outcomes they have.
#[derive(Clone, Copy, Debug)]
pub struct Far {
    pub losses: Option<u64>,
    pub preemptions: u64,
    pub histories: u64,
    pub outcomes: usize,
}

/// A receiver of the progress, when a pass begins and at each five million entries.
pub trait Watch {
    /// Receives the progress of a search.
    fn see(&self, far: Far);
}

/// The histories to look at: those with at most these numbers of losses and preemptions, the first ones up to a limit, of one part; and the
/// outcome at which the search ends, if it is a number of one. Without a number of losses, the fates of the world hold.
#[derive(Clone, Copy, Debug)]
pub struct Sought {
    pub losses: Option<u32>,
    pub preemptions: u32,
    pub limit: u64,
    pub part: Part,
    pub until: Option<usize>,
}

/// A pass: the histories with exactly these numbers of losses and preemptions.
#[derive(Clone, Copy, Debug)]
pub struct Pass {
    pub losses: u64,
    pub preemptions: u64,
}

/// The result of a search: the outcomes in the order in which they first come, how many histories were looked at, how many entries
/// these have, whether there is no other history, and the history with the outcome that was sought.
#[derive(Drop)]
pub struct Found {
    pub told: Vec<Telling>,
    pub histories: u64,
    pub entries: u128,
    pub whole: bool,
    pub witness: Option<Ended>,
    pub known: IndexSet<Vec<u8>>,
    played: u64,
    sight: u64,
}

/// How many entries are played between two sights.
const SIGHT: u64 = 5_000_000;

impl Found {
    fn new(alloc: Global) -> Found
        ensures empty { result.told.items ≡ [] }
        ensures none { result.witness ≡ None }
        ensures known { texts_in result.known.keys ≡ [] }
        ensures histories { result.histories ≡ 0 }
        ensures entries { result.entries ≡ 0 }
        ensures whole { result.whole ≡ true }
    {
        Found {
            told: Vec::new(alloc),
            histories: 0,
            entries: 0,
            whole: true,
            witness: None,
            known: IndexSet::new(alloc),
            played: 0,
            sight: SIGHT,
        }
    }
}

/// Looks at the histories of a world. If losses are sought, the world then loses other frames than before.
///
/// Without losses, parts and a sought outcome, the result is exactly that of the first histories of the list.
pub fn explore<W: Watch>(
    alloc: Global,
    world: &mut World,
    sought: Sought,
    watch: &W,
) -> Result<Found, AllocError>
    requires { IsWorld world.old }
    ensures sound { IfOk result (IsSound world.old sought.losses sought.preemptions) }
    ensures exact { IsPlain sought → IfOk result (IsExact world.old sought.preemptions sought.limit) }
    ensures kin { OnOk result (IsKin world.old sought.losses world.new) }
{
    let mut found = Found::new(alloc);
    let mut trail = Trail::new(alloc, sought.part);
    let mut pass = Pass {
        losses: 0,
        preemptions: 0,
    };
    see(watch, sought, pass, &found);
    for _ in 0..u64::MAX {
        if !look(alloc, world, sought, pass, &mut trail, &mut found)? {
            return Ok(found);
        }
        found.sight = sight_after(watch, sought, pass, &found);
        if trail.path.go_back()? {
            continue;
        }
        let Some(next) = pass_after(sought, pass, &trail) else {
            return Ok(found);
        };
        pass = next;
        trail.begin();
        see(watch, sought, pass, &found);
    }
    Err(AllocError)
}

// The next pass, if it can have a history: with one preemption more, or with one loss more and no preemption.
fn pass_after(sought: Sought, pass: Pass, trail: &Trail) -> Option<Pass>
    requires { IsPassOf sought pass }
    ensures some { IfSome result (IsPassOf sought) }
    ensures next { sought.losses ≡ None → IfSome result (NextPass sought pass) }
    ensures none { IfNone result (IsLastPass sought pass trail.now.refused) }
{
    let more = trail.refused || trail.deal.cut;
    if more && pass.preemptions < u64::from(sought.preemptions) {
        return Some(Pass {
            losses: pass.losses,
            preemptions: pass.preemptions.saturating_add(1),
        });
    }
    let more = trail.losing.refused || trail.deal.cut;
    if more && pass.losses < most_losses(sought.losses) {
        return Some(Pass {
            losses: pass.losses.saturating_add(1),
            preemptions: 0,
        });
    }
    None
}

fn most_losses(losses: Option<u32>) -> u64
    ensures { result ≡ spec_most_losses losses }
{
    match losses {
        Some(most) => u64::from(most),
        None => 0,
    }
}

fn see<W: Watch>(watch: &W, sought: Sought, pass: Pass, found: &Found) {
    watch.see(Far {
        losses: match sought.losses {
            Some(_) => Some(pass.losses),
            None => None,
        },
        preemptions: pass.preemptions,
        histories: found.histories,
        outcomes: found.told.len(),
    });
}

// Reports how far the search is, if it is time. Returns when it is time next.
fn sight_after<W: Watch>(watch: &W, sought: Sought, pass: Pass, found: &Found) -> u64 {
    if found.played < found.sight {
        return found.sight;
    }
    see(watch, sought, pass, found);
    found.played.saturating_add(SIGHT)
}

// Counts the entries of a history.
fn count_entries(all: &mut u128, entries: u64)
    ensures { all.old + entries < 2 ^ 128 → all.new ≡ all.old + entries }
{
    *all = all.saturating_add(entries as u128);
}

// Keeps an outcome, and gives its number.
fn keep(told: &mut Vec<Telling>, telling: Telling) -> Result<usize, AllocError>
    ensures { OnOk result (told.new.items ≡ told.old.items ++ telling ∷ []) }
{
    let number = told.len();
    told.push(telling)?;
    Ok(number)
}

// Keeps the history that was sought.
fn keep_witness(witness: &mut Option<Ended>, ended: Ended)
    ensures { witness.new ≡ Some ended }
{
    *witness = Some(ended);
}

// Plays the path to the end of its run, in the world that loses the frames of the path, and looks at the history.
fn look(
    alloc: Global,
    world: &mut World,
    sought: Sought,
    pass: Pass,
    trail: &mut Trail,
    found: &mut Found,
) -> Result<bool, AllocError>
    requires world { IsWorld world.old }
    requires pass { IsPassOf sought pass }
    ensures world { OnOk result (IsWorld world.new) }
    ensures kin { OnOk result ((w : AnyWorld) → IsKin w sought.losses world.old → IsKin w sought.losses world.new) }
    ensures sound { OnOk result ((w : AnyWorld) → IsKin w sought.losses world.old
        → IsSound w sought.losses sought.preemptions found.old → IsSound w sought.losses sought.preemptions found.new) }
    ensures part { OnOk result (trail.new.deal.part ≡ trail.old.deal.part) }
    ensures exact { IfOk result (λ more. IsPlain sought → pass.losses ≡ 0 → IsWhole trail.old.deal.part
        → IsPath world.old pass.preemptions trail.old.refused trail.old.path → (seen : List (List AnyEntry))
        → HasFound world.old sought.limit seen found.old
        → Looks world.old pass.preemptions sought.limit seen trail.old trail.new found.new more) }
{
    let lost = trail.path.lost(alloc)?;
    lose_sought(alloc, world, sought.losses, lost.as_slice())?;
    look_in(alloc, world, sought, pass, lost.as_slice(), trail, found)
}

// Makes a world lose these frames, if losses are sought.
fn lose_sought(
    alloc: Global,
    world: &mut World,
    losses: Option<u32>,
    lost: &[Frame],
) -> Result<(), AllocError>
    requires world { IsWorld world.old }
    requires frames { AreFrames lost.now }
    ensures world { OnOk result (IsWorld world.new) }
    ensures kin { OnOk result ((w : AnyWorld) → IsKin w losses world.old → IsKin w losses world.new) }
    ensures is { OnOk result ((w : AnyWorld) → IsKin w losses world.old → IsWorldOf w losses lost.now world.new) }
{
    match losses {
        Some(_) => lose(alloc, world, lost),
        None => Ok(()),
    }
}

// Plays the path in a world, and looks at the history, if it is one of the pass.
fn look_in(
    alloc: Global,
    world: &World,
    sought: Sought,
    pass: Pass,
    lost: &[Frame],
    trail: &mut Trail,
    found: &mut Found,
) -> Result<bool, AllocError>
    requires world { IsWorld world.now }
    requires pass { IsPassOf sought pass }
    requires frames { AreFrames lost.now }
    ensures sound { OnOk result ((w : AnyWorld) → IsWorldOf w sought.losses lost.now world.now
        → IsSound w sought.losses sought.preemptions found.old → IsSound w sought.losses sought.preemptions found.new) }
    ensures part { OnOk result (trail.new.deal.part ≡ trail.old.deal.part) }
    ensures exact { IfOk result (λ more. sought.until ≡ None → pass.losses ≡ 0 → lost.now ≡ [] → IsWhole trail.old.deal.part
        → IsPath world.now pass.preemptions trail.old.refused trail.old.path → (seen : List (List AnyEntry))
        → HasFound world.now sought.limit seen found.old
        → Looks world.now pass.preemptions sought.limit seen trail.old trail.new found.new more) }
{
    let mut walk = Walk::new(alloc, world)?;
    let ended = play(world, &mut walk, trail, pass)?;
    found.played = found.played.saturating_add(walk.runner.count);
    if !ended {
        return Ok(true);
    }
    if walk.preemptions != pass.preemptions {
        return Ok(true);
    }
    if lost.len() as u64 != pass.losses {
        return Ok(true);
    }
    if !are_laid(&walk.history, lost) {
        return Ok(true);
    }
    take(alloc, world, sought, &mut walk, lost, found)
}

// Plays a path, and continues to the end of the run. Returns whether it has ended, and is one of the part.
fn play(
    world: &World,
    walk: &mut Walk<'_>,
    trail: &mut Trail,
    pass: Pass,
) -> Result<bool, AllocError>
    requires { IsWalk world.now walk.old }
    ensures played { IfOk result (IsPlayed world.now walk.new) }
    ensures part { OnOk result (trail.new.deal.part ≡ trail.old.deal.part) }
    ensures whole { IsWhole trail.old.deal.part → IfOk result (λ ended. ended ≡ true) }
    ensures exact { OnOk result (walk.old.runner.history.entries ≡ [] → pass.losses ≡ 0
        → IsPath world.now pass.preemptions trail.old.refused trail.old.path → IsWhole trail.old.deal.part
        → EndsPath world.now pass.preemptions trail.old.refused trail.old.path trail.new.refused trail.new.path walk.new.runner.history.entries) }
{
    trail.losing.begin_run();
    for place in 0..usize::MAX {
        if trail.deal.leaves(place, trail.path.same) {
            return Ok(false);
        }
        let chosen = choose(
            world,
            walk,
            &mut trail.path,
            &mut trail.refused,
            place,
            pass.preemptions,
        )?;
        let Some(caller) = chosen else {
            return Ok(trail.deal.keeps(place));
        };
        advance(world, walk, caller)?;
        lay_newest(walk, &mut trail.losing, &mut trail.path, place, pass.losses);
    }
    Err(AllocError)
}

// The last entry, at a place of the path, lays a frame or none, in a pass with so many losses.
fn lay_newest(walk: &Walk<'_>, losing: &mut Losing, path: &mut Path, place: usize, losses: u64)
    ensures { losses ≡ 0 → path.new ≡ path.old }
{
    match newest_frame(walk) {
        Some(frame) => losing.lay(path, place, frame, losses),
        None => {}
    }
}

// The frame of the last entry, if that lays one.
fn newest_frame(walk: &Walk<'_>) -> Option<Frame> {
    frame_of(walk.history.as_slice().last()?)
}

// The caller of the next entry: that of the path, or the first one after it.
fn choose(
    world: &World,
    walk: &Walk<'_>,
    path: &mut Path,
    refused: &mut bool,
    place: usize,
    most: u64,
) -> Result<Option<usize>, AllocError>
    requires { IsWalk world.now walk.now }
    ensures some { IfOk result (λ o. IfSome o (IsGoer world.now walk.now.runner.history.entries (length walk.now.runner.callers.items))) }
    ensures none { IfOk result (λ o. IfNone o (IsEnded world.now walk.now.runner.history.entries)) }
    ensures exact { IfOk result (λ o. IsPath world.now most refused.old path.old
        → IsAtPlace world.now most path.old place walk.now.runner.history.entries
        → ChosenBy world.now most refused.old path.old refused.new path.new place walk.now.runner.history.entries o) }
{
    if let Some(caller) = played(world, walk, path, place) {
        return Ok(Some(caller));
    }
    if let Some(caller) = pending(world, walk, path, place) {
        let next = behind(world, walk, caller);
        path.set(place, caller, next)?;
        return Ok(Some(caller));
    }
    if let Some(last) = bound_to(world, walk, most) {
        refuse(world, walk, refused, last);
        path.set(place, last, None)?;
        return Ok(Some(last));
    }
    let Some(caller) = first_goer(&walk.runner, world) else {
        return Ok(None);
    };
    let next = behind(world, walk, caller);
    path.set(place, caller, next)?;
    Ok(Some(caller))
}

// The choice of the path, if it has one here.
fn played(world: &World, walk: &Walk<'_>, path: &Path, place: usize) -> Option<usize>
    requires { IsWalk world.now walk.now }
    ensures some { IfSome result (IsGoer world.now walk.now.runner.history.entries (length walk.now.runner.callers.items)) }
    ensures found { IfSome result (IsForkAt path.now.forks.items place) }
    ensures none { IfNone result (NoForkGoes world.now walk.now.runner.history.entries (length walk.now.runner.callers.items)
        (slice_get path.now.forks.items place)) }
{
    let fork = path.at(place)?;
    if !goes(world, walk, fork.caller) {
        return None;
    }
    Some(fork.caller)
}

// The caller that is chosen for the place after the path.
fn pending(world: &World, walk: &Walk<'_>, path: &Path, place: usize) -> Option<usize>
    requires { IsWalk world.now walk.now }
    ensures some { IfSome result (IsGoer world.now walk.now.runner.history.entries (length walk.now.runner.callers.items)) }
    ensures found { IfSome result (λ c. path.now.pending ≡ Some c) }
    ensures none { IfNone result (length path.now.forks.items ≡ place → NoneGoes world.now walk.now.runner.history.entries
        (length walk.now.runner.callers.items) path.now.pending) }
{
    if path.forks.len() != place {
        return None;
    }
    let caller = path.pending?;
    if !goes(world, walk, caller) {
        return None;
    }
    Some(caller)
}

// Whether a number is that of a caller that can continue.
fn goes(world: &World, walk: &Walk<'_>, caller: usize) -> bool
    requires { IsWalk world.now walk.now }
    ensures yes { result ≡ true → IsGoer world.now walk.now.runner.history.entries (length walk.now.runner.callers.items) caller }
    ensures no { result ≡ false → IsGoer world.now walk.now.runner.history.entries (length walk.now.runner.callers.items) caller → ⊥ }
{
    if walk.runner.callers.len() <= caller {
        return false;
    }
    can_go(&walk.runner, world, caller)
}

// The last caller, where it can continue and no preemption is left.
fn bound_to(world: &World, walk: &Walk<'_>, most: u64) -> Option<usize>
    requires { IsWalk world.now walk.now }
    ensures some { IfSome result (IsGoer world.now walk.now.runner.history.entries (length walk.now.runner.callers.items)) }
    ensures bound { IfSome result (IsBound world.now walk.now.runner.history.entries most) }
    ensures none { IfNone result (IsFree world.now walk.now.runner.history.entries (most - walk.now.preemptions)) }
{
    let last = walk.last?;
    if walk.preemptions < most {
        return None;
    }
    if !can_go(&walk.runner, world, last) {
        return None;
    }
    Some(last)
}

// Notes that a choice is refused, if another caller can continue.
fn refuse(world: &World, walk: &Walk<'_>, refused: &mut bool, last: usize)
    requires { IsWalk world.now walk.now }
    ensures before { refused.new ≡ false → refused.old ≡ false }
    ensures alone { refused.new ≡ false → GoesAlone world.now walk.now.runner.history.entries (length walk.now.runner.callers.items) last }
{
    if *refused {
        return;
    }
    *refused = has_other(world, walk, last);
}

// Whether another caller can continue.
fn has_other(world: &World, walk: &Walk<'_>, last: usize) -> bool
    requires { IsWalk world.now walk.now }
    ensures { result ≡ false → GoesAlone world.now walk.now.runner.history.entries (length walk.now.runner.callers.items) last }
{
    for caller in 0..walk.runner.callers.len() {
        if is_other(world, walk, last, caller) {
            return true;
        }
    }
    false
}

fn is_other(world: &World, walk: &Walk<'_>, last: usize, caller: usize) -> bool
    requires walk { IsWalk world.now walk.now }
    requires caller { caller < length walk.now.runner.callers.items }
    ensures { result ≡ false → is_going world.now (after world.now walk.now.runner.history.entries) caller ≡ true → caller ≡ last }
{
    if caller == last {
        return false;
    }
    can_go(&walk.runner, world, caller)
}

// The lowest caller after this one that can continue.
fn behind(world: &World, walk: &Walk<'_>, caller: usize) -> Option<usize>
    requires { IsWalk world.now walk.now }
    ensures { caller < length walk.now.runner.callers.items
        → NextGoes world.now walk.now.runner.history.entries (length walk.now.runner.callers.items) (caller + 1) result }
{
    next_goer(&walk.runner, world, caller.saturating_add(1))
}

// Looks at a history, and returns whether the search continues.
fn take(
    alloc: Global,
    world: &World,
    sought: Sought,
    walk: &mut Walk<'_>,
    lost: &[Frame],
    found: &mut Found,
) -> Result<bool, AllocError>
    requires walk { IsWalk world.now walk.old }
    requires ended { IsEnded world.now walk.old.history }
    requires bound { walk.old.preemptions ≤ sought.preemptions }
    requires frames { AreFrames lost.now }
    requires few { length lost.now ≤ spec_most_losses sought.losses }
    requires laid { list_all (is_laid walk.old.history) lost.now ≡ true }
    ensures sound { OnOk result ((w : AnyWorld) → IsWorldOf w sought.losses lost.now world.now
        → IsSound w sought.losses sought.preemptions found.old → IsSound w sought.losses sought.preemptions found.new) }
    ensures exact { IfOk result (λ more. sought.until ≡ None → (seen : List (List AnyEntry)) → HasFound world.now sought.limit seen found.old
        → Takes world.now sought.limit seen walk.old.history found.new more) }
{
    if sought.limit <= found.histories {
        found.whole = false;
        return Ok(false);
    }
    let telling = telling_of(alloc, world, walk, losses_in(sought.losses, lost))?;
    found.histories += 1;
    count_entries(&mut found.entries, walk.runner.count);
    let fresh = is_new(alloc, &mut found.known, &telling)?;
    if !fresh {
        return Ok(true);
    }
    let number = keep(&mut found.told, telling)?;
    if sought.until != Some(number) {
        return Ok(true);
    }
    let ended = ended_of(alloc, world, walk, lost)?;
    keep_witness(&mut found.witness, ended);
    Ok(false)
}

// Whether an outcome comes for the first time. It is known from then on.
fn is_new(
    alloc: Global,
    known: &mut IndexSet<Vec<u8>>,
    telling: &Telling,
) -> Result<bool, AllocError>
    ensures texts { OnOk result (texts_in known.new.keys ≡ with_text (texts_in known.old.keys) (telling.now.results ++ telling.now.summary)) }
    ensures fresh { IfOk result (λ fresh. fresh ≡ not (is_among (texts_in known.old.keys) (telling.now.results ++ telling.now.summary))) }
{
    let mut key = Vec::from_slice(alloc, telling.results.as_slice())?;
    key.extend_from_slice(telling.summary.as_slice())?;
    Ok(known.insert(key)?)
}

// How many frames a history loses, if losses are sought.
fn losses_in(losses: Option<u32>, lost: &[Frame]) -> Option<u64>
    ensures { result ≡ told_losses losses lost.now }
{
    match losses {
        Some(_) => Some(lost.len() as u64),
        None => None,
    }
}
