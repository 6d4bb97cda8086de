//! Hosts, media, callers and actors.
ghost use Rattle.std.specs.Prelude.{◌≡◌, ◌≤◌, ◌∷◌, ◌++◌, [], OnOk, Some, length, slice_get};
ghost use Rattle.net_base.specs.Callers as callers;
ghost use Rattle.net_base.specs.Transcript.{spaced};
ghost use Rattle.history_words.specs.HistoryWords.{actor_shown, caller_words, host_word, medium_word, numbered_words, station_word};

use crate::put::{put_named, put_number, put_word};
use net_base::{ActorName, Octets, Script, World};
use std::alloc::AllocError;
use words::proto_name;

/// A host by its name.
#[tactic(auto, unfolding(crate::specs::HistoryWords::host_word))]
pub fn put_host(out: &mut Octets, world: &World, host: u32) -> Result<(), AllocError>
    ensures { OnOk result (out.new ≡ out.old ++ spaced (host_word world.now host ∷ [])) }
{
    match world.hosts.as_slice().get(host as usize) {
        Some(spec) => put_word(out, spec.name.as_slice()),
        None => put_number(out, host as u64),
    }
}

/// A medium by its name.
#[tactic(auto, unfolding(crate::specs::HistoryWords::medium_word))]
pub fn put_medium(out: &mut Octets, world: &World, medium: u32) -> Result<(), AllocError>
    ensures { OnOk result (out.new ≡ out.old ++ spaced (medium_word world.now medium ∷ [])) }
{
    match world.media.as_slice().get(medium as usize) {
        Some(spec) => put_word(out, spec.name.as_slice()),
        None => put_number(out, medium as u64),
    }
}

// A word, and a host by its name.
fn put_with_host(out: &mut Octets, world: &World, word: &[u8], host: u32) -> Result<(), AllocError>
    ensures { OnOk result (out.new ≡ out.old ++ spaced (word.now ∷ host_word world.now host ∷ [])) }
{
    put_word(out, word)?;
    put_host(out, world, host)
}

// A word, and a medium by its name.
fn put_with_medium(
    out: &mut Octets,
    world: &World,
    word: &[u8],
    medium: u32,
) -> Result<(), AllocError>
    ensures { OnOk result (out.new ≡ out.old ++ spaced (word.now ∷ medium_word world.now medium ∷ [])) }
{
    put_word(out, word)?;
    put_medium(out, world, medium)
}

// A word with a number, of a host.
fn put_numbered(
    out: &mut Octets,
    world: &World,
    word: &[u8],
    n: u64,
    host: u32,
) -> Result<(), AllocError>
    ensures { OnOk result (out.new ≡ out.old ++ spaced (numbered_words world.now word.now n host)) }
{
    put_named(out, word, n)?;
    put_with_host(out, world, b"of", host)
}

/// The station that a packet is for.
pub fn put_station(out: &mut Octets, world: &World, to: Option<u32>) -> Result<(), AllocError>
    ensures { OnOk result (out.new ≡ out.old ++ spaced (station_word world.now to ∷ [])) }
{
    match to {
        Some(host) => put_host(out, world, host),
        None => put_word(out, b"nobody"),
    }
}

/// A caller by its number: a script, the courier of a medium, or the clock.
pub fn put_caller(out: &mut Octets, world: &World, caller: u32) -> Result<(), AllocError>
    ensures { OnOk result (out.new ≡ out.old ++ spaced
        (caller_words world.now caller (callers.caller_of world.now caller))) }
{
    match world.scripts.as_slice().get(caller as usize) {
        Some(script) => put_script(out, world, caller, script),
        None => put_other_caller(out, world, caller),
    }
}

// The script of this number.
fn put_script(
    out: &mut Octets,
    world: &World,
    caller: u32,
    script: &Script,
) -> Result<(), AllocError>
    requires { slice_get world.now.scripts caller ≡ Some script.now }
    ensures { OnOk result (out.new ≡ out.old ++ spaced
        (caller_words world.now caller (callers.caller_of world.now caller))) }
{
    put_numbered(out, world, b"script", caller as u64, script.host)
}

// A caller that is no script.
fn put_other_caller(out: &mut Octets, world: &World, caller: u32) -> Result<(), AllocError>
    requires { length world.now.scripts ≤ caller }
    ensures { OnOk result (out.new ≡ out.old ++ spaced
        (caller_words world.now caller (callers.other_caller world.now caller))) }
{
    let place = caller as usize - world.scripts.len();
    let media = world.media.len();
    if place < media {
        return put_with_medium(out, world, b"courier of", place as u32);
    }
    if place > media {
        return put_named(out, b"nobody,", caller as u64);
    }
    put_word(out, b"clock")
}

/// An actor.
pub fn put_actor(out: &mut Octets, world: &World, actor: ActorName) -> Result<(), AllocError>
    ensures { OnOk result (out.new ≡ out.old ++ spaced (actor_shown world.now actor)) }
{
    match actor {
        ActorName::Desk(host) => put_with_host(out, world, b"desk of", host),
        ActorName::Dir(host, proto) => {
            put_word(out, proto_name(proto))?;
            put_with_host(out, world, b"directory of", host)
        }
        ActorName::Conv(host, proto, slot) => {
            put_word(out, proto_name(proto))?;
            put_numbered(out, world, b"conversation", slot as u64, host)
        }
        ActorName::Medium(medium) => put_with_medium(out, world, b"medium", medium),
        ActorName::Clock => put_word(out, b"clock"),
    }
}
