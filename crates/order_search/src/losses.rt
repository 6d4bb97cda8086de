//! Worlds that lose chosen frames and no other.
ghost use Rattle.std.specs.Prelude.{◌≡◌, [], map, IfOk, OnOk};
ghost use Rattle.std.specs.List.{list_all, list_any};
ghost use Rattle.order_search.specs.Losses as spec;
ghost use Rattle.order_search.specs.Losses.{AreFrames};

use net_base::{
    ActorName, Entry, Fate, FateRange, Fates, History, Media, MediumSpec, Reply, World,
};
use std::alloc::{AllocError, Global};

/// A frame: its medium, and its number on that medium, from 1.
#[derive(Clone, Copy, Debug)]
pub struct Frame {
    pub medium: u32,
    pub number: u64,
}

/// The frame that an entry puts on a medium, if the medium accepts it.
pub fn frame_of(entry: &Entry) -> Option<Frame>
    ensures { result ≡ spec.frame_of entry.now }
{
    let ActorName::Medium(medium) = entry.actor else {
        return None;
    };
    match &entry.reply {
        Reply::Laid { frame } => Some(Frame {
            medium,
            number: *frame,
        }),
        _ => None,
    }
}

/// Makes a world lose these frames, and no other.
pub fn lose(alloc: Global, world: &mut World, lost: &[Frame]) -> Result<(), AllocError>
    ensures { OnOk result (world.new ≡ spec.without world.old lost.now) }
{
    let media = media_without(alloc, world.media.as_slice(), lost)?;
    world.media = media;
    Ok(())
}

// The media, without these frames.
fn media_without(alloc: Global, media: &[MediumSpec], lost: &[Frame]) -> Result<Media, AllocError>
    ensures { IfOk result (λ kept. kept ≡ map (spec.medium_without lost.now) media.now) }
{
    let mut kept = Media::new(alloc);
    for medium in media {
        kept.push(medium_without(alloc, medium, lost)?)?;
    }
    Ok(kept)
}

// A medium without these frames: no rates, and no other fates.
fn medium_without(
    alloc: Global,
    medium: &MediumSpec,
    lost: &[Frame],
) -> Result<MediumSpec, AllocError>
    ensures { IfOk result (λ kept. kept ≡ spec.medium_without lost.now medium.now) }
{
    Ok(MediumSpec {
        number: medium.number,
        name: medium.name.clone()?,
        mtu: medium.mtu,
        loss: 0,
        twice: 0,
        later: 0,
        fates: fates_without(alloc, medium.number, lost)?,
    })
}

// The fates of the lost frames of a medium.
fn fates_without(alloc: Global, medium: u32, lost: &[Frame]) -> Result<Fates, AllocError>
    ensures { IfOk result (λ fates. fates ≡ spec.fates_without lost.now medium) }
{
    let mut fates = Fates::new(alloc);
    for frame in lost {
        if frame.medium != medium {
            continue;
        }
        fates.push(FateRange {
            first: frame.number,
            last: frame.number,
            fate: Fate::Lose,
        })?;
    }
    Ok(fates)
}

/// Adds a frame that has a number, and is not among these frames.
pub fn add_frame(lost: &mut Vec<Frame>, frame: Frame) -> Result<(), AllocError>
    requires { AreFrames lost.old.items }
    ensures { OnOk result (AreFrames lost.new.items) }
{
    if frame.number == 0 {
        return Ok(());
    }
    if has_frame(lost.as_slice(), frame) {
        return Ok(());
    }
    lost.push(frame)?;
    Ok(())
}

// Whether a frame is among others.
fn has_frame(frames: &[Frame], frame: Frame) -> bool
    ensures { result ≡ list_any (spec.same_frame frame) frames.now }
{
    frames.iter().any(|other| same_frame(frame, *other))
}

fn same_frame(one: Frame, other: Frame) -> bool
    ensures { result ≡ spec.same_frame one other }
{
    one.medium == other.medium && one.number == other.number
}

/// Whether a history has an entry that lays each of these frames.
pub fn are_laid(history: &History, lost: &[Frame]) -> bool
    ensures { result ≡ list_all (spec.is_laid history.now) lost.now }
{
    lost.iter().all(|frame| is_laid(history, *frame))
}

fn is_laid(history: &History, frame: Frame) -> bool
    ensures { result ≡ spec.is_laid history.now frame }
{
    history.as_slice().iter().any(|entry| lays(entry, frame))
}

fn lays(entry: &Entry, frame: Frame) -> bool
    ensures { result ≡ spec.lays frame entry.now }
{
    match frame_of(entry) {
        Some(other) => same_frame(frame, other),
        None => false,
    }
}
