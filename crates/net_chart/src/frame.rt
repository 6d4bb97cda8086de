//! Frames as they were laid.
ghost use Rattle.std.specs.Prelude.{◌≡◌};
ghost use Rattle.net_chart.specs.Drawing as drawing;
ghost use Rattle.net_chart.specs.Frames as spec;

use crate::place::Place;
use crate::sight::{Sight, host_of, sight_of};
use indexmap::IndexMap;
use net_base::{Entry, Header};

/// The medium of a frame, and its number there.
pub type Key = (u32, u64);

/// The host from which a packet comes, and the packet's header.
#[derive(Clone, Copy)]
pub struct Source {
    pub host: u32,
    pub header: Header,
}

/// A frame with the station for which it was laid, and whether a copy of it came.
#[derive(Clone, Copy)]
pub struct Frame {
    pub number: u64,
    pub source: Option<Source>,
    pub to: u32,
    pub at: Place,
    pub came: bool,
}

impl Frame {
    /// The host from which it comes; where none is known, the one that it goes to.
    pub fn start(&self) -> u32
        ensures { result ≡ drawing.frame_start self.now }
    {
        match self.source {
            Some(source) => source.host,
            None => self.to,
        }
    }
}

/// The frame of a medium and a number.
pub fn frame_at(frames: &IndexMap<Key, Frame>, key: Key) -> Option<Frame>
    ensures { result ≡ spec.frame_at frames.now.entries key }
{
    frames.get(&key).copied()
}

fn source_from(host: Option<u32>, header: Option<Header>) -> Option<Source>
    ensures { result ≡ spec.source_from host header }
{
    match host {
        Some(host) => match header {
            Some(header) => Some(Source { host, header }),
            None => None,
        },
        None => None,
    }
}

/// Where the packet of a put comes from, which this entry owed.
pub fn source_of(frames: &IndexMap<Key, Frame>, owner: &Entry) -> Option<Source>
    ensures { result ≡ spec.source_of frames.now.entries owner.now }
{
    match emitted_by(owner) {
        Some(source) => Some(source),
        None => passed_by(frames, sight_of(owner)),
    }
}

fn emitted_by(entry: &Entry) -> Option<Source>
    ensures { result ≡ spec.emitted_by entry.now }
{
    source_from(host_of(entry.actor), entry.emits)
}

// The station of an earlier frame sends its packet on.
fn passed_by(frames: &IndexMap<Key, Frame>, sight: Sight) -> Option<Source>
    ensures { result ≡ spec.source_by None sight frames.now.entries }
{
    match sight {
        Sight::Came { medium, number } => sent_on(frame_at(frames, (medium, number))),
        _ => None,
    }
}

fn sent_on(frame: Option<Frame>) -> Option<Source>
    ensures { result ≡ spec.passed_on frame }
{
    match frame {
        Some(frame) => match frame.source {
            Some(source) => Some(Source {
                host: frame.to,
                header: source.header,
            }),
            None => None,
        },
        None => None,
    }
}
