//! The frames that a history laid, as they are found by following it.
ghost use Rattle.std.specs.Prelude.{◌≡◌, ◌<◌, ◌≤◌, ◌^◌, ◌++◌, ℕ, List, Some, true, IfOk, OnOk, option_copied, slice_get};
ghost use Rattle.std.specs.List.{AllByRecursion};
ghost use Rattle.net_base.specs.declared.history.Entry.{Entry as AnyEntry};
ghost use Rattle.net_base.specs.declared.world.World.{World as AnyWorld};
ghost use Rattle.net_base.specs.Legal.{IsLegal, IsTimed};
ghost use Rattle.net_base.specs.Medium.{datagram_length};
ghost use Rattle.net_base.specs.Net.{owed, with_of};
ghost use Rattle.net_base.specs.World.{IsWorld};
ghost use Rattle.plain_runner.specs.Callers.{IsCallerKept};
ghost use Rattle.formats.specs.Datagram.{IsPacket, datagram_packet, packet_spelling};
ghost use Rattle.replay_views.specs.Capture.{IsReadBack, capture, medium_of, given_packet, shown_frames};
ghost use Rattle.replay_views.specs.Following.{AddsFrame, CanFollow, is_medium_shown};
ghost use Rattle.replay_views.specs.Savefile.{packet_record, seen_at_moment};

use crate::savefile::{file_header, put_packet};
use formats::packets_are_read;
use medium::datagram_of;
use net_base::{ActorName, Entry, History, Octets, Packet, Reply, With, World};
use plain_runner::{Caller, Runner};
use std::alloc::{AllocError, Global};

/// The capture file of the frames that a legal and timed history laid on all media, or on the medium of this number. It follows the
/// history in one pass, and spells each frame once.
pub fn capture_of(
    alloc: Global,
    world: &World,
    history: &History,
    medium: Option<u32>,
) -> Result<Octets, AllocError>
    requires world { IsWorld world.now }
    requires legal { IsLegal world.now history.now }
    requires timed { IsTimed world.now history.now }
    ensures bytes { IfOk result (λ bytes. bytes ≡ capture world.now history.now medium) }
    // Each packet in it decodes to the one that was sent.
    ensures read { OnOk result (AllByRecursion IsReadBack (shown_frames world.now history.now medium)) }
{
    let mut out = Octets::from_slice(alloc, &file_header())?;
    let mut runner = Runner::new(alloc, world)?;
    for entry in history.as_slice() {
        put_frame(&mut out, &runner, entry, medium)?;
        runner.follow(entry.caller, &entry.event)?;
    }
    Ok(out)
}

// Adds the record of the frame that an entry lays, if it lays one that is shown.
fn put_frame(
    out: &mut Octets,
    runner: &Runner<'_>,
    entry: &Entry,
    medium: Option<u32>,
) -> Result<(), AllocError>
    requires { CanFollow runner.now entry.now }
    ensures { OnOk result (AddsFrame runner.now entry.now medium out.old out.new) }
{
    if !is_on(medium, medium_of(entry)) {
        return Ok(());
    }
    let Some(caller) = runner.callers.as_slice().get(entry.caller as usize) else {
        return Ok(());
    };
    put_given(out, runner, caller, entry, medium)
}

// Adds the record of the packet that an entry was given, if it was given one, where its medium is shown.
fn put_given(
    out: &mut Octets,
    runner: &Runner<'_>,
    caller: &Caller<'_>,
    entry: &Entry,
    medium: Option<u32>,
) -> Result<(), AllocError>
    requires follow { CanFollow runner.now entry.now }
    requires caller { slice_get runner.now.callers.items entry.now.caller ≡ Some caller.now }
    requires on { is_medium_shown medium (medium_of entry.now.actor entry.now.reply) ≡ true }
    ensures { OnOk result (AddsFrame runner.now entry.now medium out.old out.new) }
{
    let Some(packet) = packet_given(caller) else {
        return Ok(());
    };
    put_spelled(out, runner.alloc, entry.moment, packet)?;
    Ok(())
}

// The medium that laid a frame by an entry.
fn medium_of(entry: &Entry) -> Option<u32>
    ensures { result ≡ medium_of entry.now.actor entry.now.reply }
{
    match (entry.actor, &entry.reply) {
        (ActorName::Medium(number), Reply::Laid { .. }) => Some(number),
        _ => None,
    }
}

// Whether there is such a medium, and it is shown.
fn is_on(shown: Option<u32>, medium: Option<u32>) -> bool
    ensures { result ≡ is_medium_shown shown medium }
{
    match (shown, medium) {
        (_, None) => false,
        (None, Some(_)) => true,
        (Some(wanted), Some(number)) => number == wanted,
    }
}

// The packet that a caller's first duty gives.
fn packet_given<'a>(caller: &'a Caller<'_>) -> Option<&'a Packet>
    ensures { (w : AnyWorld) (h : List AnyEntry) (c : ℕ) → IsCallerKept w h c caller.now
        → option_copied result ≡ given_packet (with_of (owed w h c)) }
{
    match caller.owed.first() {
        Some(duty) => packet_in(&duty.work.with),
        None => None,
    }
}

// The packet that is given.
fn packet_in(with: &With) -> Option<&Packet>
    ensures { option_copied result ≡ given_packet with.now }
{
    match with {
        With::Packet(packet) => Some(packet),
        _ => None,
    }
}

// Adds the record of a packet.
fn put_spelled(
    out: &mut Octets,
    alloc: Global,
    moment: u64,
    packet: &Packet,
) -> Result<(), AllocError>
    requires early { moment ≤ 1000000000 }
    requires fits { datagram_length packet.now.body < 2 ^ 16 }
    ensures record { OnOk result (out.new ≡ out.old ++ packet_record
        (seen_at_moment moment (packet_spelling packet.now))) }
    ensures fits { OnOk result (IsPacket packet.now) }
    ensures read { OnOk result (datagram_packet (packet_spelling packet.now) ≡ packet.now) }
{
    packets_are_read();
    let bytes = datagram_of(alloc, packet)?;
    put_packet(out, moment, bytes.as_slice())
}
