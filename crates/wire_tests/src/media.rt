//! Packets on a medium: the order in which they come, the mtu, and the fates of frames.
ghost use Rattle.std.specs.Prelude.{◌+◌, ◌≤◌};
ghost use Rattle.medium.specs.OnFates.{AreFateLines};

use medium::{Laid, Medium};
use net_base::{
    Addr, Body, Fate, FateRange, Fates, IlKind, IlMsg, MediumSpec, Octets, Packet, Proto, Sequence,
    Taken,
};
use std::alloc::{AllocError, Global};
use std::process::Abort;

const ANNA: Addr = Addr {
    ip: 0x8768_0906,
    port: 5000,
};

const HELIX: Addr = Addr {
    ip: 0x8768_091f,
    port: 7,
};

fn ether(alloc: Global) -> Result<Medium, AllocError> {
    fated(alloc, 0, 0, 0, Sequence::new(alloc))
}

/// A medium under seed 1, with these rates and lines.
fn fated(
    alloc: Global,
    loss: u32,
    twice: u32,
    later: u32,
    fates: Fates,
) -> Result<Medium, AllocError>
    requires rates { loss + twice + later ≤ 1000 }
    requires lines { AreFateLines fates }
{
    let spec = MediumSpec {
        number: 0,
        name: Octets::from_slice(alloc, b"ether0")?,
        mtu: 576,
        loss,
        twice,
        later,
        fates,
    };
    let medium = Medium::new(alloc, &spec, 1);
    drop(spec);
    medium
}

fn lay_copies(medium: &mut Medium, packet: &Packet, frames: usize) -> Result<(), AllocError> {
    for _ in 0..frames {
        medium.put(Some(1), packet)?;
    }
    Ok(())
}

/// Lays so many frames.
fn lay(alloc: Global, medium: &mut Medium, frames: usize) -> Result<(), AllocError> {
    let packet = udp(alloc, b"hi")?;
    let laid = lay_copies(medium, &packet, frames);
    drop(packet);
    laid
}

/// The frame of the next copy.
fn next_frame(medium: &mut Medium) -> Result<Option<u64>, AllocError> {
    if !medium.pending() {
        return Ok(None);
    }
    let taken = medium.take()?;
    let frame = taken.frame;
    drop(taken);
    Ok(Some(frame))
}

/// Whether the copies of these frames come, and no others.
fn come(medium: &mut Medium, expected: &[u64]) -> Result<bool, AllocError> {
    for frame in expected {
        if next_frame(medium)? != Some(*frame) {
            return Ok(false);
        }
    }
    Ok(!medium.pending())
}

/// Whether these copies come of so many frames, and no others.
fn gives(
    alloc: Global,
    medium: &mut Medium,
    frames: usize,
    expected: &[u64],
) -> Result<bool, AllocError> {
    lay(alloc, medium, frames)?;
    come(medium, expected)
}

/// Whether these copies come of so many frames on a medium with these lines.
fn lines_give(
    alloc: Global,
    loss: u32,
    lines: &[FateRange],
    frames: usize,
    expected: &[u64],
) -> Result<bool, AllocError>
    requires rates { loss ≤ 1000 }
    requires lines { AreFateLines lines.now }
{
    let lines = Sequence::from_vec(Vec::from_slice(alloc, lines)?);
    let mut medium = fated(alloc, loss, 0, 0, lines)?;
    let given = gives(alloc, &mut medium, frames, expected);
    drop(medium);
    given
}

/// Whether these copies come of two frames under these rates. The first words, modulo 1000, are 86 and 797.
fn rates_give(
    alloc: Global,
    loss: u32,
    twice: u32,
    later: u32,
    expected: &[u64],
) -> Result<bool, AllocError>
    requires { loss + twice + later ≤ 1000 }
{
    let mut medium = fated(alloc, loss, twice, later, Sequence::new(alloc))?;
    let given = gives(alloc, &mut medium, 2, expected);
    drop(medium);
    given
}

const LINES: [FateRange; 3] = [
    FateRange {
        first: 4,
        last: 5,
        fate: Fate::Twice,
    },
    FateRange {
        first: 1,
        last: 1,
        fate: Fate::Lose,
    },
    FateRange {
        first: 2,
        last: 3,
        fate: Fate::Later,
    },
];

fn udp(alloc: Global, text: &[u8]) -> Result<Packet, AllocError> {
    Ok(Packet {
        src: ANNA,
        dst: HELIX,
        ttl: 255,
        tos: 0,
        body: Body::Udp(Octets::from_slice(alloc, text)?),
    })
}

fn il(alloc: Global, text: &[u8]) -> Result<Packet, AllocError> {
    Ok(Packet {
        src: ANNA,
        dst: HELIX,
        ttl: 9,
        tos: 3,
        body: Body::Il(IlMsg {
            kind: IlKind::Data,
            spec: 0,
            id: 2,
            ack: 101,
            text: Octets::from_slice(alloc, text)?,
        }),
    })
}

/// What becomes of a packet of a protocol that is put for a station.
fn lays(
    alloc: Global,
    medium: &mut Medium,
    to: Option<u32>,
    proto: Proto,
    text: &[u8],
) -> Result<Laid, AllocError> {
    let packet = match proto {
        Proto::Udp => udp(alloc, text)?,
        Proto::Il => il(alloc, text)?,
    };
    let laid = medium.put(to, &packet);
    drop(packet);
    laid
}

/// Whether it is the datagram `hi`, of the first frame to station 1.
fn is_first(taken: &Taken) -> bool {
    let packet = &taken.packet;
    let head = (taken.frame, taken.to, packet.src, packet.dst) == (1, 1, ANNA, HELIX);
    match &packet.body {
        Body::Udp(text) => {
            head && (packet.ttl, packet.tos) == (255, 0) && text.as_slice() == b"hi".as_slice()
        }
        Body::Il(_) => false,
    }
}

/// Whether it is the message `hello`, of the second frame to station 0.
fn is_second(taken: &Taken) -> bool {
    let packet = &taken.packet;
    let head = (taken.frame, taken.to, packet.ttl, packet.tos) == (2, 0, 9, 3);
    match &packet.body {
        Body::Il(message) => {
            let told = (message.kind, message.spec, message.id, message.ack);
            head && told == (IlKind::Data, 0, 2, 101)
                && message.text.as_slice() == b"hello".as_slice()
        }
        Body::Udp(_) => false,
    }
}

/// A station, a protocol and a text, and what becomes of the packet.
type Row<'a> = (Option<u32>, Proto, &'a [u8], Laid);

fn lay_rows(
    rt: &impl Abort,
    alloc: Global,
    medium: &mut Medium,
    rows: &[Row<'_>],
) -> Result<(), AllocError> {
    for (i, (to, proto, text, laid)) in rows.iter().enumerate() {
        let met = lays(alloc, medium, *to, *proto, text)? == *laid;
        assert!(rt; met, "row {i}");
    }
    Ok(())
}

/// Whether a copy comes that is the first.
fn first_comes(medium: &mut Medium) -> Result<bool, AllocError> {
    if !medium.pending() {
        return Ok(false);
    }
    let taken = medium.take()?;
    let first = is_first(&taken);
    drop(taken);
    Ok(first)
}

/// Whether a copy comes that is the second.
fn second_comes(medium: &mut Medium) -> Result<bool, AllocError> {
    if !medium.pending() {
        return Ok(false);
    }
    let taken = medium.take()?;
    let second = is_second(&taken);
    drop(taken);
    Ok(second)
}

const IN_ORDER: &[Row<'static>] = &[
    (Some(1), Proto::Udp, b"hi", Laid::Frame(1)),
    (None, Proto::Udp, b"hi", Laid::NoStation),
    (Some(0), Proto::Il, b"hello", Laid::Frame(2)),
];

fn carry(rt: &impl Abort, alloc: Global, medium: &mut Medium) -> Result<(), AllocError> {
    assert!(rt; !medium.pending());
    lay_rows(rt, alloc, medium, IN_ORDER)?;
    let both = first_comes(medium)? && second_comes(medium)?;
    assert!(rt; both && !medium.pending());
    Ok(())
}

#[test]
fn packets_come_in_their_order(rt: HostRuntime) -> Result<(), AllocError> {
    let mut medium = ether(rt.alloc())?;
    let carried = carry(&rt, rt.alloc(), &mut medium);
    drop(medium);
    carried
}

#[test]
fn packets_up_to_the_mtu(rt: HostRuntime) -> Result<(), AllocError> {
    let text = [b'x'; 549];
    let rows = [
        (Some(0), Proto::Udp, &text[..548], Laid::Frame(1)),
        (Some(0), Proto::Udp, &text[..549], Laid::TooBig),
        (None, Proto::Udp, &text[..549], Laid::NoStation),
        (Some(0), Proto::Il, &text[..538], Laid::Frame(2)),
        (Some(0), Proto::Il, &text[..539], Laid::TooBig),
    ];
    let mut medium = ether(rt.alloc())?;
    let laid = lay_rows(&rt, rt.alloc(), &mut medium, &rows);
    drop(medium);
    laid
}

#[test]
fn fates_by_lines(rt: HostRuntime) {
    assert!(rt; lines_give(rt.alloc(), 0, &LINES, 6, &[2, 4, 4, 3, 5, 5, 6]) == Ok(true));
}

/// Whether all rates give what they have to.
fn all_rates_give(alloc: Global) -> Result<bool, AllocError> {
    Ok(
        // 86 below the loss of 87, and at the loss of 86
        rates_give(alloc, 87, 0, 0, &[2])?
            && rates_give(alloc, 86, 0, 0, &[1, 2])?
            // 86 below loss and twice
            && rates_give(alloc, 80, 7, 0, &[1, 1, 2])?
            // 86 at loss and twice, below all three
            && rates_give(alloc, 80, 6, 1, &[2, 1])?
            // 86 at all three
            && rates_give(alloc, 40, 40, 6, &[1, 2])?,
    )
}

#[test]
fn fates_by_rates(rt: HostRuntime) {
    assert!(rt; all_rates_give(rt.alloc()) == Ok(true));
}

#[test]
fn words_are_drawn_for_all_frames(rt: HostRuntime) {
    // 86, 797, 970, 809, 448, 80, 103, 790, 936 and 677
    let lost = lines_give(rt.alloc(), 500, &[], 10, &[2, 3, 4, 8, 9, 10]);
    let lined = lines_give(rt.alloc(), 500, &LINES, 10, &[2, 4, 4, 3, 5, 5, 8, 9, 10]);
    assert!(rt; (lost, lined) == (Ok(true), Ok(true)));
}

#[test]
fn the_last_held_copy_of_an_idle_medium(rt: HostRuntime) {
    assert!(rt; rates_give(rt.alloc(), 0, 0, 1000, &[1, 2]) == Ok(true));
}
