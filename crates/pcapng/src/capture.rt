//! The frames that links accepted in a history, as they are found by following it.
ghost use Rattle.std.specs.Prelude.{◌≡◌, ◌<◌, ◌≤◌, ◌^◌, ◌++◌, ℕ, List, Some, IfOk, OnOk, flat_map, option_copied, option_map, slice_get};
ghost use Rattle.net_base.specs.declared.history.Entry.{Entry as AnyEntry};
ghost use Rattle.net_base.specs.declared.world.World.{World as AnyWorld};
ghost use Rattle.net_base.specs.Legal.{IsLegal, IsTimed};
ghost use Rattle.net_base.specs.Medium.{datagram_length};
ghost use Rattle.net_base.specs.Net.{owed, with_of};
ghost use Rattle.net_base.specs.World.{IsWorld};
ghost use Rattle.formats.specs.Datagram.{packet_spelling};
ghost use Rattle.plain_runner.specs.Callers.{IsCallerKept};
ghost use Rattle.replay_views.specs.Capture as captured;
ghost use Rattle.pcapng.specs.Blocks.{packet_block};
ghost use Rattle.pcapng.specs.Following.{AddsBlock, CanFollow};
ghost use Rattle.pcapng.specs.Frames as spec;

use crate::copies::{Copies, Key, copies_in, put_fate};
use crate::packet::{put_interface, put_packet, put_section};
use medium::datagram_of;
use net_base::{ActorName, Entry, History, MediumSpec, Octets, Packet, Reply, With, World};
use plain_runner::{Caller, Runner};
use std::alloc::{AllocError, Global};
use words::put_decimal;

/// Returns the capture file of the frames that links accepted in a legal and timed history: an interface for each link, and a block for each frame
/// with the stamp of its entry. It follows the history in one pass, and encodes each frame one time.
#[tactic(auto, unfolding(crate::specs::Frames::pcapng))]
pub fn pcapng_of(alloc: Global, world: &World, history: &History) -> Result<Octets, AllocError>
    requires world { IsWorld world.now }
    requires legal { IsLegal world.now history.now }
    requires timed { IsTimed world.now history.now }
    ensures { IfOk result (λ bytes. bytes ≡ spec.pcapng world.now history.now) }
{
    let mut out = Octets::new(alloc);
    put_section(&mut out)?;
    put_interfaces(&mut out, alloc, world.media.as_slice())?;
    let copies = copies_in(alloc, history.as_slice())?;
    put_frames(&mut out, &copies, alloc, world, history)?;
    Ok(out)
}

fn put_interfaces(out: &mut Octets, alloc: Global, media: &[MediumSpec]) -> Result<(), AllocError>
    ensures { OnOk result (out.new ≡ out.old ++ flat_map spec.medium_block media.now) }
{
    for medium in media {
        put_interface(out, alloc, medium.name.as_slice())?;
    }
    Ok(())
}

fn put_frames(
    out: &mut Octets,
    copies: &Copies,
    alloc: Global,
    world: &World,
    history: &History,
) -> Result<(), AllocError>
    requires world { IsWorld world.now }
    requires legal { IsLegal world.now history.now }
    requires timed { IsTimed world.now history.now }
    ensures { OnOk result (out.new ≡ out.old ++ flat_map (spec.frame_block copies.now.entries)
        (spec.stamped_frames world.now history.now)) }
{
    let entries = history.as_slice();
    let mut runner = Runner::new(alloc, world)?;
    for (stamp, entry) in entries.iter().enumerate() {
        put_frame(out, copies, &runner, stamp as u64, entry)?;
        runner.follow(entry.caller, &entry.event)?;
    }
    Ok(())
}

// Adds the block of the frame that an entry lays, if it lays one.
fn put_frame(
    out: &mut Octets,
    copies: &Copies,
    runner: &Runner<'_>,
    stamp: u64,
    entry: &Entry,
) -> Result<(), AllocError>
    requires { CanFollow runner.now entry.now }
    ensures { OnOk result (AddsBlock copies.now.entries runner.now stamp entry.now out.old out.new) }
{
    let Some(key) = frame_of(entry) else {
        return Ok(());
    };
    let Some(caller) = runner.callers.as_slice().get(entry.caller as usize) else {
        return Ok(());
    };
    put_given(out, copies, runner, caller, stamp, key, entry)
}

// Adds the block of the packet that an entry was given, if it was given one.
fn put_given(
    out: &mut Octets,
    copies: &Copies,
    runner: &Runner<'_>,
    caller: &Caller<'_>,
    stamp: u64,
    key: Key,
    entry: &Entry,
) -> Result<(), AllocError>
    requires follow { CanFollow runner.now entry.now }
    requires caller { slice_get runner.now.callers.items entry.now.caller ≡ Some caller.now }
    requires on { captured.medium_of entry.now.actor entry.now.reply ≡ Some key.0 }
    requires number { spec.number_in entry.now.reply ≡ key.1 }
    ensures { OnOk result (AddsBlock copies.now.entries runner.now stamp entry.now out.old out.new) }
{
    let Some(packet) = packet_given(caller) else {
        return Ok(());
    };
    let comment = comment_of(runner.alloc, copies, stamp, key)?;
    put_spelled(
        out,
        runner.alloc,
        key.0,
        entry.moment,
        packet,
        comment.as_slice(),
    )?;
    Ok(())
}

// The link that accepted a frame by an entry, and the number of the frame.
fn frame_of(entry: &Entry) -> Option<Key>
    ensures { result ≡ option_map (λ (m : ℕ). (m, spec.number_in entry.now.reply))
        (captured.medium_of entry.now.actor entry.now.reply) }
{
    match (entry.actor, &entry.reply) {
        (ActorName::Medium(medium), Reply::Laid { frame }) => Some((medium, *frame)),
        _ => None,
    }
}

// The packet that a caller's first follow-up event gives.
fn packet_given<'a>(caller: &'a Caller<'_>) -> Option<&'a Packet>
    ensures { (w : AnyWorld) (h : List AnyEntry) (c : ℕ) → IsCallerKept w h c caller.now
        → option_copied result ≡ captured.given_packet (with_of (owed w h c)) }
{
    match caller.owed.first() {
        Some(duty) => packet_in(&duty.work.with),
        None => None,
    }
}

// The packet that is given.
fn packet_in(with: &With) -> Option<&Packet>
    ensures { option_copied result ≡ captured.given_packet with.now }
{
    match with {
        With::Packet(packet) => Some(packet),
        _ => None,
    }
}

// The comment on the frame that an entry accepted.
#[tactic(auto, unfolding(crate::specs::Frames::comment_on))]
fn comment_of(alloc: Global, copies: &Copies, stamp: u64, key: Key) -> Result<Octets, AllocError>
    ensures { IfOk result (λ text. text ≡ spec.comment_on copies.now.entries stamp key.0 key.1) }
{
    let mut text = Octets::from_slice(alloc, b"stamp ")?;
    put_decimal(&mut text, stamp)?;
    put_fate(&mut text, copies, key)?;
    Ok(text)
}

// Adds the block of a packet.
fn put_spelled(
    out: &mut Octets,
    alloc: Global,
    medium: u32,
    moment: u64,
    packet: &Packet,
    comment: &[u8],
) -> Result<(), AllocError>
    requires early { moment ≤ 1000000000 }
    requires fits { datagram_length packet.now.body < 2 ^ 16 }
    ensures { OnOk result (out.new ≡ out.old ++ packet_block
        (record { interface = medium; moment = moment; bytes = packet_spelling packet.now; comment = comment.now })) }
{
    let bytes = datagram_of(alloc, packet)?;
    put_packet(out, alloc, medium, moment, bytes.as_slice(), comment)
}
