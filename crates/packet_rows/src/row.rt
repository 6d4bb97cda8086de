//! The row of a packet.
ghost use Rattle.std.specs.Prelude.{◌≡◌};
ghost use Rattle.net_base.specs.declared.world.World.{World as AnyWorld};
ghost use Rattle.duties.specs.WaysOf.{AreWaysOfWorld};
ghost use Rattle.packet_rows.specs.Rows as spec;

use crate::deed::{Deed, Fate, deed_of};
use crate::frame::{Frames, Key, LaidPacket, Passage, packet_in, passage_of};
use duties::WorldWays;
use net_base::Entry;

/// A packet at the entry of this stamp: what becomes of it, and the link and the station for which it is put, if it is.
#[derive(Clone, Copy)]
pub struct Row {
    pub stamp: u64,
    pub fate: Fate,
    pub medium: Option<u32>,
    pub to: Option<u32>,
    pub passage: Passage,
}

fn put_row(
    stamp: u64,
    medium: u32,
    to: Option<u32>,
    fate: Fate,
    passage: Option<Passage>,
) -> Option<Row>
    ensures { result ≡ spec.put_row stamp medium to fate passage }
{
    match passage {
        Some(passage) => Some(Row {
            stamp,
            fate,
            medium: Some(medium),
            to,
            passage,
        }),
        None => None,
    }
}

// A host without a way drops a packet.
fn fate_by_way(ways: &WorldWays, host: u32, ip: u32) -> Option<Fate>
    ensures { (w : AnyWorld) → AreWaysOfWorld w ways.now → result ≡ spec.fate_by_way w host ip }
{
    match ways.way(host, ip) {
        Some(_) => None,
        None => Some(Fate::NoRoute),
    }
}

// A station drops a packet for another host that it can't send on.
fn fate_at_station(ways: &WorldWays, packet: &LaidPacket) -> Option<Fate>
    ensures { (w : AnyWorld) → AreWaysOfWorld w ways.now → result ≡ spec.fate_at_station w packet.now }
{
    let ip = packet.passage.header.dst.ip;
    if ways.has_address(packet.to, ip) {
        return None;
    }
    if packet.passage.header.ttl <= 1 {
        return Some(Fate::NoTtl);
    }
    fate_by_way(ways, packet.to, ip)
}

fn dropped(stamp: u64, fate: Option<Fate>, passage: Passage) -> Option<Row>
    ensures { result ≡ spec.dropped_row stamp fate passage }
{
    match fate {
        Some(fate) => Some(Row {
            stamp,
            fate,
            medium: None,
            to: None,
            passage,
        }),
        None => None,
    }
}

fn row_at_station(ways: &WorldWays, stamp: u64, packet: Option<LaidPacket>) -> Option<Row>
    ensures { (w : AnyWorld) → AreWaysOfWorld w ways.now → result ≡ spec.row_at_station w stamp packet }
{
    match packet {
        Some(packet) => {
            let fate = fate_at_station(ways, &packet);
            dropped(stamp, fate, held(packet))
        }
        None => None,
    }
}

// The packet at its station.
fn held(packet: LaidPacket) -> Passage
    ensures { result ≡ spec.held_packet packet }
{
    Passage {
        by: packet.passage.by,
        header: packet.passage.header,
        from: packet.to,
    }
}

/// The row of an entry, if it has one.
pub fn row_of(
    frames: &Frames,
    ways: &WorldWays,
    history: &[Entry],
    stamp: u64,
    entry: &Entry,
) -> Option<Row>
    ensures { (w : AnyWorld) → AreWaysOfWorld w ways.now
        → result ≡ spec.row_of w history.now frames.now.entries stamp entry.now }
{
    match deed_of(entry) {
        Deed::Put { medium, to, fate } => put_row(
            stamp,
            medium,
            to,
            fate,
            passage_of(frames, history, entry.cites),
        ),
        Deed::Took { medium, number } => {
            row_at_station(ways, stamp, packet_in(frames, (medium, number)))
        }
        Deed::Sent { from, header } => {
            let fate = fate_by_way(ways, from, header.dst.ip);
            let passage = Passage {
                by: stamp,
                header,
                from,
            };
            dropped(stamp, fate, passage)
        }
        Deed::Nothing => None,
    }
}

fn frame_in(medium: Option<u32>, fate: Fate) -> Option<Key>
    ensures { result ≡ spec.frame_in medium fate }
{
    match fate {
        Fate::Laid(number) => match medium {
            Some(medium) => Some((medium, number)),
            None => None,
        },
        _ => None,
    }
}

/// The frame in which a row's packet lies.
pub fn frame_of(row: &Row) -> Option<Key>
    ensures { result ≡ spec.frame_of row.now }
{
    frame_in(row.medium, row.fate)
}
