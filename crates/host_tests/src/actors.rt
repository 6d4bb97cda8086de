//! Each kind of actor, with each group of its events, in a world of two hosts on one medium.
ghost use Rattle.std.specs.Prelude.{◌≡◌, true};
ghost use Rattle.net_actors.specs.Numbers.{is_actor_among};

mod asked;
mod trial;

use asked::{Ask, AtConv, AtDesk, AtDir, work_of};
use net_actors::{Due, actor_at, actor_count, number_of};
use net_base::{ActorName, Addr, Mode, Proto};
use std::alloc::{AllocError, Global};
use std::process::Abort;
use std::test::*;
use trial::{ANNA, HELIX, Told, Trial, is_same};

/// The actors that are asked.
#[derive(Clone, Copy)]
enum Who {
    Desk,
    Clock,
    Medium,
    Dir,
    Udp,
    Il,
}

const DESK: ActorName = ActorName::Desk(0);

const CLOCK: ActorName = ActorName::Clock;

const MEDIUM: ActorName = ActorName::Medium(0);

const DIR: ActorName = ActorName::Dir(0, Proto::Udp);

const UDP: ActorName = ActorName::Conv(0, Proto::Udp, 0);

const IL: ActorName = ActorName::Conv(1, Proto::Il, 31);

fn name_of(who: Who) -> ActorName
    ensures { is_actor_among 2 1 result ≡ true }
{
    match who {
        Who::Desk => DESK,
        Who::Clock => CLOCK,
        Who::Medium => MEDIUM,
        Who::Dir => DIR,
        Who::Udp => UDP,
        Who::Il => IL,
    }
}

/// An actor, what it is asked at moment 9, and what it tells.
type Row = (Who, Ask, Told);

/// Whether an actor tells this.
fn tells(
    alloc: Global,
    trial: &mut Trial,
    who: Who,
    ask: Ask,
    want: Told,
) -> Result<bool, AllocError> {
    let work = work_of(alloc, ask)?;
    let told = trial.answer(name_of(who), 9, &work);
    drop(work);
    Ok(is_same(told?, want))
}

/// Asks what stands in a table, and compares what is told.
fn play(rt: &impl Abort, alloc: Global, trial: &mut Trial, rows: &[Row]) -> Result<(), AllocError> {
    for (i, (who, ask, want)) in rows.iter().enumerate() {
        let met = tells(alloc, trial, *who, *ask, *want)?;
        assert!(rt; met, "row {i}");
    }
    Ok(())
}

/// Plays rows at fresh actors.
fn plays(rt: &impl Abort, alloc: Global, rows: &[Row]) -> Result<(), AllocError> {
    let mut trial = Trial::new(alloc)?;
    let played = play(rt, alloc, &mut trial, rows);
    drop(trial);
    played
}

// The desk, the clock and the medium.

const NAMES: &[Row] = &[
    (
        Who::Desk,
        Ask::Desk(AtDesk::Cs(b"net!135.104.9.31!7")),
        Told::Lines(2),
    ),
    (
        Who::Desk,
        Ask::Desk(AtDesk::Cs(b"tcp!135.104.9.31!7")),
        Told::CsRefused(2),
    ),
    (Who::Desk, Ask::Desk(AtDesk::Ls(b"/net")), Told::Names(3)),
    (Who::Desk, Ask::Desk(AtDesk::Ls(b"/net/il")), Told::NoFile),
];

#[test]
fn a_desk_lists_and_resolves(rt: HostRuntime) -> Result<(), AllocError> {
    plays(&rt, rt.alloc(), NAMES)
}

const REFUSALS: &[Row] = &[
    (
        Who::Desk,
        Ask::Desk(AtDesk::Open(b"/net/tcp", Mode::Read)),
        Told::NoFile,
    ),
    (
        Who::Desk,
        Ask::Desk(AtDesk::Open(b"/net", Mode::Read)),
        Told::BadMode,
    ),
    // it is allowed
    (
        Who::Desk,
        Ask::Desk(AtDesk::Open(b"/net/il/clone", Mode::Both)),
        Told::NotReady,
    ),
    (Who::Desk, Ask::Desk(AtDesk::Use(b"d")), Told::BadFid),
    (Who::Desk, Ask::Desk(AtDesk::Misuse(b"d")), Told::BadMode),
    (Who::Desk, Ask::Desk(AtDesk::Until(10)), Told::NotReady),
    (Who::Desk, Ask::Desk(AtDesk::Until(9)), Told::Ok),
];

const REFRESHES: &[Row] = &[
    (Who::Desk, Ask::Desk(AtDesk::Refresh), Told::Version(0)),
    (Who::Clock, Ask::Desk(AtDesk::Refresh), Told::NotReady),
];

#[test]
fn a_desk_reads_again(rt: HostRuntime) -> Result<(), AllocError> {
    plays(&rt, rt.alloc(), REFRESHES)
}

#[test]
fn a_desk_refuses_and_waits(rt: HostRuntime) -> Result<(), AllocError> {
    plays(&rt, rt.alloc(), REFUSALS)
}

const MOVES: &[Row] = &[
    (Who::Clock, Ask::Move(12), Told::Ok),
    (Who::Clock, Ask::Take, Told::NotReady),
];

#[test]
fn a_clock_moves(rt: HostRuntime) -> Result<(), AllocError> {
    plays(&rt, rt.alloc(), MOVES)
}

const CARRIES: &[Row] = &[
    (Who::Medium, Ask::Take, Told::NotReady),
    (Who::Medium, Ask::PutNothing, Told::NotReady),
    (Who::Medium, Ask::Put, Told::Laid(1)),
    (Who::Medium, Ask::Take, Told::Copy(1)),
];

#[test]
fn a_medium_carries(rt: HostRuntime) -> Result<(), AllocError> {
    plays(&rt, rt.alloc(), CARRIES)
}

// A directory.

const ANNOUNCES: &[Row] = &[
    (Who::Dir, Ask::Dir(AtDir::Reserve), Told::Slot(0, 1)),
    (Who::Dir, Ask::Dir(AtDir::Announce), Told::Ok),
    (Who::Dir, Ask::Dir(AtDir::Listen), Told::NotReady),
    (Who::Dir, Ask::Dir(AtDir::Arrive), Told::Born(1, 1)),
    (Who::Dir, Ask::Dir(AtDir::Arrive), Told::To(1, 1)),
    (Who::Dir, Ask::Dir(AtDir::Listen), Told::Call(1, 1)),
    (Who::Dir, Ask::Dir(AtDir::Ls), Told::Names(3)),
];

#[test]
fn a_directory_announces(rt: HostRuntime) -> Result<(), AllocError> {
    plays(&rt, rt.alloc(), ANNOUNCES)
}

const GRANTS: &[Row] = &[
    (Who::Dir, Ask::Dir(AtDir::Reserve), Told::Slot(0, 1)),
    (Who::Dir, Ask::Dir(AtDir::Bind(53)), Told::Ok),
    (Who::Dir, Ask::Dir(AtDir::Grant), Told::Granted(1472)),
    (Who::Dir, Ask::Dir(AtDir::Release), Told::Calls(0)),
    (Who::Dir, Ask::Dir(AtDir::Withdraw(0)), Told::Stale),
];

#[test]
fn a_directory_grants(rt: HostRuntime) -> Result<(), AllocError> {
    plays(&rt, rt.alloc(), GRANTS)
}

// Conversations.

/// A grant from anna to helix.
const BY_UDP: AtConv = AtConv::Connect {
    local: Addr { ip: ANNA, port: 7 },
    remote: Addr {
        ip: HELIX,
        port: 5000,
    },
    start: 0,
};

/// A grant from helix to anna.
const BY_IL: AtConv = AtConv::Connect {
    local: Addr {
        ip: HELIX,
        port: 5000,
    },
    remote: Addr {
        ip: ANNA,
        port: 17008,
    },
    start: 1,
};

const TALKS: &[Row] = &[
    (Who::Udp, Ask::Conv(AtConv::Begin), Told::Ok),
    (Who::Udp, Ask::Conv(BY_UDP), Told::Ok),
    (Who::Udp, Ask::Conv(AtConv::Write(b"hi")), Told::Count(2)),
    (Who::Udp, Ask::Conv(AtConv::ArriveAt), Told::Took),
    (Who::Udp, Ask::Conv(AtConv::Read), Told::Bytes(1)),
    (Who::Udp, Ask::Conv(AtConv::Read), Told::NotReady),
];

fn talk_once(rt: &impl Abort, alloc: Global, trial: &mut Trial) -> Result<(), AllocError> {
    play(rt, alloc, trial, TALKS)?;
    assert!(rt; trial.generation(UDP) == 1);
    Ok(())
}

#[test]
fn a_conversation_talks(rt: HostRuntime) -> Result<(), AllocError> {
    let mut trial = Trial::new(rt.alloc())?;
    let talked = talk_once(&rt, rt.alloc(), &mut trial);
    drop(trial);
    talked
}

const FILES: &[Row] = &[
    (Who::Udp, Ask::Conv(AtConv::Begin), Told::Ok),
    (Who::Udp, Ask::Conv(AtConv::OpenCtl), Told::Opened(1)),
    // its number
    (Who::Udp, Ask::Conv(AtConv::ReadCtl), Told::Bytes(1)),
    (Who::Udp, Ask::Conv(AtConv::Ls), Told::Names(7)),
    (Who::Udp, Ask::Conv(AtConv::Tick), Told::NotDue),
    (Who::Udp, Ask::Conv(AtConv::Close), Told::Ok),
    (Who::Udp, Ask::Conv(AtConv::Hangup(0)), Told::Stale),
];

#[test]
fn a_conversation_has_files(rt: HostRuntime) -> Result<(), AllocError> {
    plays(&rt, rt.alloc(), FILES)
}

const BEGINS: &[Row] = &[(Who::Il, Ask::Conv(AtConv::Begin), Told::Ok)];

const CONNECTS: &[Row] = &[(Who::Il, Ask::Conv(BY_IL), Told::Ok)];

/// Whether the IL end is due later than now, and no other end.
fn is_due(alloc: Global, trial: &Trial) -> Result<bool, AllocError> {
    let due = trial.due(IL).unwrap_or(0);
    let wanted = Due {
        host: 1,
        proto: Proto::Il,
        slot: 31,
        generation: 1,
        due,
    };
    let dues = trial.dues(alloc)?;
    Ok(due > 9 && dues.as_slice() == [wanted].as_slice())
}

fn connect_once(rt: &impl Abort, alloc: Global, trial: &mut Trial) -> Result<(), AllocError> {
    play(rt, alloc, trial, BEGINS)?;
    assert!(rt; trial.due(IL).is_none());
    play(rt, alloc, trial, CONNECTS)?;
    assert!(rt; is_due(alloc, trial) == Ok(true));
    Ok(())
}

#[test]
fn an_end_that_connects_is_due(rt: HostRuntime) -> Result<(), AllocError> {
    let mut trial = Trial::new(rt.alloc())?;
    let connected = connect_once(&rt, rt.alloc(), &mut trial);
    drop(trial);
    connected
}

const BIRTH: &[Row] = &[
    (Who::Il, Ask::Conv(AtConv::Born), Told::Ok),
    (Who::Il, Ask::Conv(AtConv::Read), Told::NotReady),
];

#[test]
fn a_birth_is_answered(rt: HostRuntime) -> Result<(), AllocError> {
    plays(&rt, rt.alloc(), BIRTH)
}

// Numbers.

const NUMBERS: &[(ActorName, usize)] = &[
    (DESK, 0),
    (ActorName::Dir(1, Proto::Il), 4),
    (UDP, 38),
    (IL, 101),
    (MEDIUM, 134),
    (CLOCK, 135),
];

#[test]
fn numbers_follow_the_table(rt: HostRuntime) {
    for (i, (name, number)) in NUMBERS.iter().enumerate() {
        assert!(rt; number_of(2, 1, *name) == *number, "row {i}");
    }
    assert!(rt; actor_count(2, 1) == 136 && actor_at(2, 1, 101) == IL);
}
