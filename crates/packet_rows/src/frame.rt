//! Packets on their way, and the frames in which they lie.
ghost use Rattle.std.specs.Prelude.{◌≡◌};
ghost use Rattle.packet_rows.specs.Passages as spec;

use crate::deed::{Deed, deed_of};
use indexmap::IndexMap;
use net_base::{Entry, Header};

/// The link of a frame, and its number there.
pub type Key = (u32, u64);

/// A packet where a host sends it: the stamp of the entry that emitted it, its header with the ttl that it has there, and
/// the host.
#[derive(Clone, Copy)]
pub struct Passage {
    pub by: u64,
    pub header: Header,
    pub from: u32,
}

/// A packet in a frame, and the station that the frame is for.
#[derive(Clone, Copy)]
pub struct LaidPacket {
    pub passage: Passage,
    pub to: u32,
}

/// The frames so far.
pub type Frames = IndexMap<Key, LaidPacket>;

/// The packet of a frame.
pub fn packet_in(frames: &Frames, key: Key) -> Option<LaidPacket>
    ensures { result ≡ spec.packet_in frames.now.entries key }
{
    frames.get(&key).copied()
}

/// The packet of a frame where its station sends it on.
pub fn sent_on(packet: LaidPacket) -> Passage
    ensures { result ≡ spec.passage_on packet }
{
    let header = packet.passage.header;
    Passage {
        by: packet.passage.by,
        header: Header {
            src: header.src,
            dst: header.dst,
            ttl: header.ttl.saturating_sub(1),
            tos: header.tos,
            body: header.body,
        },
        from: packet.to,
    }
}

fn passed_on(packet: Option<LaidPacket>) -> Option<Passage>
    ensures { result ≡ spec.passed_packet packet }
{
    match packet {
        Some(packet) => Some(sent_on(packet)),
        None => None,
    }
}

/// The packet of a put, by what the entry of this stamp did, which caused it.
fn passage_by(frames: &Frames, stamp: u64, deed: Deed) -> Option<Passage>
    ensures { result ≡ spec.passage_by frames.now.entries stamp deed }
{
    match deed {
        Deed::Sent { from, header } => Some(Passage {
            by: stamp,
            header,
            from,
        }),
        Deed::Took { medium, number } => passed_on(packet_in(frames, (medium, number))),
        Deed::Put { .. } => None,
        Deed::Nothing => None,
    }
}

/// The packet that an entry was given, which this one caused.
pub fn passage_of(frames: &Frames, history: &[Entry], cites: Option<u64>) -> Option<Passage>
    ensures { result ≡ spec.passage_of history.now frames.now.entries cites }
{
    match cites {
        Some(stamp) => match history.get(stamp as usize) {
            Some(owner) => passage_by(frames, stamp, deed_of(owner)),
            None => None,
        },
        None => None,
    }
}
