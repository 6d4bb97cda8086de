//! The actors of a world behind their locks.
ghost use Rattle.std.specs.Prelude.{◌≡◌, ◌<◌, [], None, Some, map, true, false, IfOk, IfSome, IsNone, IsSome};
ghost use Rattle.net_base.specs.declared.actor.ActorName.{ActorName as Name};
ghost use Rattle.net_base.specs.declared.actor.ActorName.TheVariants as name;
ghost use Rattle.net_base.specs.Actors.{has_actor};
ghost use Rattle.net_base.specs.Callers.{caller_count as callers_in};
ghost use Rattle.net_base.specs.Stamped.{In};
ghost use Rattle.net_base.specs.World.{IsWorld};
ghost use Rattle.std.specs.Arc.{arc_value};
ghost use Rattle.journal.specs.declared.tokens.Volume.{Volume};
ghost use Rattle.journal.specs.Rule.{caller_numbers};
ghost use Rattle.net_locks.specs.Rosters.{AreUnused, IsNetOf, IsRosterOf, AreReplayed};
ghost use Rattle.net_locks.specs.Facts.{net_prop};

use crate::finishing::books_of;
use crate::machine::{WorldActor, locked};
use crate::no_duty_is_the_clocks;
use crate::opening::NetOpened;
use crate::placing::Placing;
use duties::{Duties, Touched, WorldWays};
use journal::{Book, Journal, Naming, Pass};
use locked::{Locked, Machine};
use net_actors::{Actor, IndexedVersions, is_among, number_of, numbers_are_apart};
use net_base::{ActorName, Event, With, Work, World};
use outside::Gate;
use std::alloc::{AllocError, Global};
use std::sync::{Arc, Wait};
use workers::{Awaited, Marks, Spot};

/// Every actor of a world behind its lock, each at its number, with the journal of the run.
#[derive(Drop)]
pub struct Locks<J: Naming + Placing, M: Machine> {
    pub(crate) journal: Journal<J>,
    locks: Vec<Locked<J, M>>,
    pub(crate) ways: WorldWays,
    // who waits for an actor sees here whether it has had an entry
    pub(crate) marks: Marks,
    hosts: u32,
    media: u32,
    ghost of: { IsNetOf J.world J.run.roster hosts media ways (map (λ l. l.actor) locks.items) } by { net_prop },
}

impl<J: Naming + Placing> Locks<J, WorldActor<J>> {
    /// The actors of a world behind their locks, and the pass that holds the numbers of all callers.
    pub fn named(
        alloc: Global,
        world: &World,
        dbs: &Arc<IndexedVersions, Global>,
        opened: NetOpened,
    ) -> Result<(Locks<J, WorldActor<J>>, Pass<J>), AllocError>
        requires name { opened ≡ J.run }
        requires world { J.world ≡ world.now }
        requires is { IsWorld world.now }
        requires dbs { arc_value dbs.now ≡ world.now.dbs }
        requires roster { IsRosterOf J.world J.run.roster }
        ensures seen { IfOk result (λ r. r.1.seen ≡ []) }
        ensures held { IfOk result (λ r. r.1.held ≡ caller_numbers J.run.roster.callers) }
    {
        let NetOpened { opened } = opened;
        let (journal, pass, books) = opened.named::<J>(alloc)?;
        let ways = WorldWays::new(alloc, world)?;
        let locks = locks_of(alloc, world, dbs, books)?;
        let marks = Marks::new(alloc, locks.len())?;
        let net = Locks {
            journal,
            locks,
            ways,
            marks,
            hosts: world.hosts.len() as u32,
            media: world.media.len() as u32,
        };
        Ok((net, pass))
    }

    /// The journal, by which passes are split and meet.
    pub fn journal(&self) -> &Journal<J> {
        &self.journal
    }

    // The lock of an actor, where the world has it.
    pub(crate) fn lock_of(&self, actor: ActorName) -> Option<&Locked<J, WorldActor<J>>>
        ensures some { IfSome result (λ l. l.now.actor ≡ actor) }
        ensures has { IsSome result → has_actor J.world actor ≡ true }
        ensures none { IsNone result → has_actor J.world actor ≡ false }
    {
        numbers_are_apart();
        if !is_among(self.hosts, self.media, actor) {
            return None;
        }
        Some(&self.locks[number_of(self.hosts, self.media, actor)])
    }

    /// How many entries an actor has had of those after which this event may be ready, to be looked at again.
    pub fn spot_of(&self, actor: ActorName, event: &Event) -> Spot {
        let awaited = match event {
            Event::Read { .. } => Awaited::Text,
            _ => Awaited::Entry,
        };
        self.marks
            .spot(number_of(self.hosts, self.media, actor), awaited)
    }

    /// Whether the actor has had none of them since.
    pub fn stands(&self, spot: Spot) -> bool {
        self.marks.stands(spot)
    }

    /// The journal, and the books of all actors, in the order of their numbers. Each entry was a step of its actor.
    pub fn into_parts(self, alloc: Global) -> Result<(Journal<J>, Vec<Book<J>>), AllocError>
        ensures actors { IfOk result (λ r. map (λ b. b.actor) r.1.items ≡ J.run.roster.actors) }
        ensures replayed { IfOk result (λ r. AreReplayed J.world r.1.items) }
        ensures each { IfOk result (λ r. (a : Name) → has_actor J.world a ≡ true
            → (b : Volume) × In b r.1.items × (b.actor ≡ a)) }
        ensures known { (a : Name) → In a J.run.roster.actors → has_actor J.world a ≡ true }
        ensures callers { J.run.roster.callers ≡ callers_in J.world }
    {
        numbers_are_apart();
        let Locks {
            journal,
            locks,
            ways: _,
            marks: _,
            hosts: _,
            media: _,
        } = self;
        let books = books_of(alloc, locks)?;
        Ok((journal, books))
    }
}

// The actors of these books behind their locks.
fn locks_of<J: Naming + Placing>(
    alloc: Global,
    world: &World,
    dbs: &Arc<IndexedVersions, Global>,
    mut books: Vec<Book<J>>,
) -> Result<Vec<Locked<J, WorldActor<J>>>, AllocError>
    requires world { J.world ≡ world.now }
    requires is { IsWorld world.now }
    requires dbs { arc_value dbs.now ≡ world.now.dbs }
    requires actors { (a : Name) → In a (map (λ b. b.actor) books.items) → has_actor J.world a ≡ true }
    requires blank { AreUnused books.items }
    ensures { IfOk result (λ locks. map (λ l. l.actor) locks.items ≡ map (λ b. b.actor) books.items) }
{
    let mut locks = Vec::with_capacity(alloc, books.len())?;
    books.reverse();
    while let Some(book) = books.pop() {
        let lock = lock_for(alloc, world, dbs, book)?;
        locks.push(lock)?;
    }
    Ok(locks)
}

// The actor of a book behind its lock.
fn lock_for<J: Naming + Placing>(
    alloc: Global,
    world: &World,
    dbs: &Arc<IndexedVersions, Global>,
    book: Book<J>,
) -> Result<Locked<J, WorldActor<J>>, AllocError>
    requires world { J.world ≡ world.now }
    requires is { IsWorld world.now }
    requires dbs { arc_value dbs.now ≡ world.now.dbs }
    requires has { has_actor J.world book.actor ≡ true }
    requires blank { book.list ≡ [] }
    ensures { IfOk result (λ l. l.actor ≡ book.actor) }
{
    let actor = Actor::new(alloc, world, dbs, book.actor())?;
    Ok(locked(actor, book))
}
