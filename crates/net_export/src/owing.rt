//! Whether a caller owes something after a history, by its entries alone.
ghost use Rattle.std.specs.Prelude.{◌≡◌, ◌<◌, ◌+◌, ◌^◌, length, IfOk};
ghost use Rattle.duties.specs.WaysOf.{AreWaysOfWorld};
ghost use Rattle.net_base.specs.declared.world.World.{World as AnyWorld};
ghost use Rattle.net_base.specs.Calm.{owes};
ghost use Rattle.net_base.specs.Legal.{IsLegal};
ghost use Rattle.net_base.specs.Net.{after};
ghost use Rattle.net_base.specs.Routes.{way};
ghost use Rattle.net_export.specs.Counted as spec;

use crate::law::what_is_owed_is_counted;
use duties::WorldWays;
use net_base::{ActorName, Entries, Entry, Event, Reply, World};
use std::alloc::{AllocError, Global};

/// Whether a script owes an event after a history.
pub fn owes_after<E: Entries>(
    alloc: Global,
    world: &World,
    history: &E,
    caller: u32,
) -> Result<bool, AllocError>
    requires caller { caller < length world.now.scripts }
    requires legal { IsLegal world.now (E.list history.now) }
    ensures { IfOk result (λ b. b ≡ owes (after world.now (E.list history.now)) caller) }
{
    what_is_owed_is_counted();
    let ways = WorldWays::new(alloc, world)?;
    Ok(0 < owed_count(&ways, history, caller))
}

// How many events a script owes: an entry does the first of them, and brings its own.
#[tactic(auto, using(crate::proofs::Counting::counted_all))]
fn owed_count<E: Entries>(ways: &WorldWays, history: &E, caller: u32) -> u128
    ensures { (w : AnyWorld) → AreWaysOfWorld w ways.now → result ≡ spec.count_after w caller 0 (E.list history.now) }
{
    let mut owed: u128 = 0;
    for stamp in 0..history.count() {
        let entry = history.entry(stamp);
        if entry.caller == caller {
            owed = owed.saturating_sub(1) + brought(ways, entry);
        }
    }
    owed
}

// How many events an entry of a script owes: the put of what it emits, what follows its reply, and the release of what ended.
fn brought(ways: &WorldWays, entry: &Entry) -> u128
    ensures counted { (w : AnyWorld) → AreWaysOfWorld w ways.now → result ≡ spec.brought w entry.now }
    ensures few { result < 2 ^ 63 + 510 }
{
    puts(ways, entry) as u128 + follow_ups(entry) as u128 + releases(entry) as u128
}

fn puts(ways: &WorldWays, entry: &Entry) -> u8
    ensures { (w : AnyWorld) → AreWaysOfWorld w ways.now → result ≡ spec.counts_put w entry.now.actor entry.now.emits }
{
    let Some(header) = entry.emits else {
        return 0;
    };
    match entry.actor {
        ActorName::Dir(host, _) => count_way(ways, host, header.dst.ip),
        ActorName::Conv(host, _, _) => count_way(ways, host, header.dst.ip),
        _ => 0,
    }
}

fn count_way(ways: &WorldWays, host: u32, ip: u32) -> u8
    ensures { (w : AnyWorld) → AreWaysOfWorld w ways.now → result ≡ spec.if_way (way w host ip) }
{
    match ways.way(host, ip) {
        Some(_) => 1,
        None => 0,
    }
}

fn follow_ups(entry: &Entry) -> usize
    ensures counted { result ≡ spec.follow_ups entry.now.actor entry.now.event entry.now.reply }
    ensures few { result < 2 ^ 63 }
{
    match entry.actor {
        ActorName::Dir(_, _) => at_directory(&entry.event, &entry.reply),
        ActorName::Conv(_, _, _) => at_conversation(&entry.event, &entry.reply),
        _ => 0,
    }
}

fn at_directory(event: &Event, reply: &Reply) -> usize
    ensures counted { result ≡ spec.due_at_directory event.now reply.now }
    ensures few { result < 2 ^ 63 }
{
    match (event, reply) {
        (Event::Reserve, Reply::Slot { .. }) => 1,
        (Event::Grant { .. }, Reply::Granted { .. }) => 1,
        (Event::Announce { .. }, Reply::Ok) => 1,
        (Event::Bind { .. }, Reply::Ok) => 1,
        (Event::Listen { .. }, Reply::Call { .. }) => 1,
        (Event::Withdraw { .. }, Reply::Calls { calls }) => calls.as_slice().len(),
        (Event::Release { .. }, Reply::Calls { calls }) => calls.as_slice().len(),
        (Event::Arrive, Reply::To { .. }) => 1,
        (Event::Arrive, Reply::Born { .. }) => 1,
        _ => 0,
    }
}

fn at_conversation(event: &Event, reply: &Reply) -> usize
    ensures { result ≡ spec.at_conversation event.now reply.now }
{
    match (event, reply) {
        (Event::Hangup { .. }, Reply::Left) => 1,
        _ => 0,
    }
}

fn releases(entry: &Entry) -> u8
    ensures { result ≡ spec.releases entry.now.actor entry.now.ended }
{
    match entry.actor {
        ActorName::Conv(_, _, _) => { if entry.ended { 1 } else { 0 } }
        _ => 0,
    }
}
