//! The steps of a datagram's scripts, in the midst of the history and at its end.
ghost use Rattle.net_base.specs.World.{IsWorld};

use history_reader::read_transcript;
use net_base::{History, Octets, World};
use netcheck::check;
use replay_views::steps_of;
use std::alloc::{AllocError, Global};
use std::process::Abort;
use world_file::read_world;

// A datagram from anna to helix.
const WORLD: &[u8] = b"networld 1
end 60000
seed 7
medium ether0 1500
host anna il udp
if ether0 135.104.9.6 255.255.255.0
host helix il udp
if ether0 135.104.9.31 255.255.255.0
# anna writes
script anna
open c /net/udp/clone
write c connect 135.104.9.31!7 5000
open d /net/udp/0/data
write d hi
script helix
open c /net/udp/clone
write c connect 135.104.9.6!5000 7
open d /net/udp/0/data
read d 8192
ndb
";

// Both are connected.
const BOTH: &[u8] = b"0 0 0 dir.0.udp - reserve = slot 0 1
1 0 1 dir.1.udp - reserve = slot 0 1
2 0 0 conv.0.udp.0 0 begin 1 = ok
3 0 1 conv.1.udp.0 1 begin 1 = ok
4 0 0 dir.0.udp - grant 0 1 135.104.9.31!7 5000 = granted 135.104.9.6!5000 135.104.9.31!7 0 1472
5 0 1 dir.1.udp - grant 0 1 135.104.9.6!5000 7 = granted 135.104.9.31!7 135.104.9.6!5000 0 1472
6 0 0 conv.0.udp.0 4 connect 1 = ok
7 0 1 conv.1.udp.0 5 connect 1 = ok
8 0 0 conv.0.udp.0 - await 1 = ok
";

// Both files are open.
const OPENED: &[u8] = b"9 0 1 conv.1.udp.0 - await 1 = ok
10 0 0 conv.0.udp.0 - open data rw = opened 1
11 0 1 conv.1.udp.0 - open data rw = opened 1
";

const WRITTEN: &[u8] =
    b"12 0 0 conv.0.udp.0 - write 1 6869 = count 2 + udp 135.104.9.6!5000 135.104.9.31!7 255 0 2
";

const AT_BOTH: &[u8] = b"11 0 open c /net/udp/clone: answered at 0, slot 0
12 0 write c connect 135.104.9.31!7 5000: answered at 0, ok
13 0 open d /net/udp/0/data: waits for conv.0.udp.0 open data
14 0 write d hi: ahead
16 1 open c /net/udp/clone: answered at 0, slot 0
17 1 write c connect 135.104.9.6!5000 7: waits for conv.1.udp.0 await
18 1 open d /net/udp/0/data: ahead
19 1 read d 8192: ahead
";

const AT_WRITTEN: &[u8] = b"11 0 open c /net/udp/clone: answered at 0, slot 0
12 0 write c connect 135.104.9.31!7 5000: answered at 0, ok
13 0 open d /net/udp/0/data: answered at 0, opened
14 0 write d hi: owes
16 1 open c /net/udp/clone: answered at 0, slot 0
17 1 write c connect 135.104.9.6!5000 7: answered at 0, ok
18 1 open d /net/udp/0/data: answered at 0, opened
19 1 read d 8192: waits for conv.1.udp.0 read 8192
";

// Anna connects to a host that no route leads to.
const FAR: &[u8] = b"networld 1
end 60000
seed 7
medium ether0 1500
host anna udp
if ether0 135.104.9.6 255.255.255.0
script anna
open c /net/udp/clone
write c connect 10.0.0.1!7 5000
ndb
";

const REFUSED: &[u8] = b"0 0 0 dir.0.udp - reserve = slot 0 1
1 0 0 conv.0.udp.0 0 begin 1 = ok
2 0 0 dir.0.udp - grant 0 1 10.0.0.1!7 5000 = noroute
";

const AT_REFUSED: &[u8] = b"8 0 open c /net/udp/clone: answered at 0, slot 0
9 0 write c connect 10.0.0.1!7 5000: refused at 0, noroute
";

// Anna opens a file of helix, which answers her walk with an error.
const OPENER: &[u8] = b"networld 1
end 60000
seed 7
medium ether0 1500
host anna udp
if ether0 135.104.9.6 255.255.255.0
host helix udp
if ether0 135.104.9.31 255.255.255.0
script anna
open c /net/udp/clone
write c connect 135.104.9.31!7 5000
open d /net/udp/0/data
ropen f d /net/cs rw
script helix
open c /net/udp/clone
write c connect 135.104.9.6!5000 7
open d /net/udp/0/data
read d 8192
writex d 0a0000006b0100010078
ndb
";

const OPENING: &[u8] =
    b"12 0 0 conv.0.udp.0 - write 1 150000006e01000000000001000000010002006373 = count 21 + udp 135.104.9.6!5000 135.104.9.31!7 255 0 21
13 0 0 medium.0 12 put 1 = laid 1
14 0 2 medium.0 - take = copy 1
15 0 2 dir.1.udp 14 arrive = to 0 1
16 0 2 conv.1.udp.0 15 arrive 1 = took
17 0 1 conv.1.udp.0 - read 1 8192 = bytes 150000006e01000000000001000000010002006373
18 0 1 conv.1.udp.0 - write 1 0a0000006b0100010078 = count 10 + udp 135.104.9.31!7 135.104.9.6!5000 255 0 10
19 0 1 medium.0 18 put 0 = laid 2
20 0 2 medium.0 - take = copy 2
21 0 2 dir.0.udp 20 arrive = to 0 1
22 0 2 conv.0.udp.0 21 arrive 1 = took
23 0 0 conv.0.udp.0 - read 1 8192 = bytes 0a0000006b0100010078
";

const AT_OPENING: &[u8] = b"10 0 open c /net/udp/clone: answered at 0, slot 0
11 0 write c connect 135.104.9.31!7 5000: answered at 0, ok
12 0 open d /net/udp/0/data: answered at 0, opened
13 0 ropen f d /net/cs rw: refused at 0, bytes 10
15 1 open c /net/udp/clone: answered at 0, slot 0
16 1 write c connect 135.104.9.6!5000 7: answered at 0, ok
17 1 open d /net/udp/0/data: answered at 0, opened
18 1 read d 8192: answered at 0, bytes 21
19 1 writex d 0a0000006b0100010078: answered at 0, count 10
";

// The steps after a history, if it is legal.
fn checked_steps(
    alloc: Global,
    text: &[u8],
    world: &World,
    history: &History,
) -> Result<Octets, AllocError>
    requires { IsWorld world.now }
{
    match check(alloc, world, history) {
        Ok(()) => steps_of(alloc, text, world, history),
        Err(_) => Err(AllocError),
    }
}

fn read_steps(alloc: Global, text: &[u8], lines: &[u8]) -> Result<Octets, AllocError> {
    let Ok(world) = read_world(alloc, text) else {
        return Err(AllocError);
    };
    let Ok((history, _)) = read_transcript(alloc, lines) else {
        return Err(AllocError);
    };
    checked_steps(alloc, text, &world, &history)
}

// Whether the steps after these lines are told so.
fn tells(alloc: Global, text: &[u8], lines: &[u8], wanted: &[u8]) -> Result<bool, AllocError> {
    let told = read_steps(alloc, text, lines)?;
    Ok(told.as_slice() == wanted)
}

// Whether the steps are told so where these lines come once both files are open.
fn tells_later(
    alloc: Global,
    text: &[u8],
    lines: &[u8],
    wanted: &[u8],
) -> Result<bool, AllocError> {
    let mut all = Octets::from_slice(alloc, BOTH)?;
    all.append(OPENED)?;
    all.append(lines)?;
    tells(alloc, text, all.as_slice(), wanted)
}

#[test]
fn a_script_waits_or_owes(rt: HostRuntime) {
    let alloc = rt.alloc();
    let early = tells(alloc, WORLD, BOTH, AT_BOTH);
    assert_eq!(rt; early, Ok(true));
    let owing = tells_later(alloc, WORLD, WRITTEN, AT_WRITTEN);
    assert_eq!(rt; owing, Ok(true));
}

#[test]
fn a_refused_step_is_told(rt: HostRuntime) {
    let refused = tells(rt.alloc(), FAR, REFUSED, AT_REFUSED);
    assert_eq!(rt; refused, Ok(true));
}

#[test]
fn a_refused_open_of_a_remote_file_is_told(rt: HostRuntime) {
    let refused = tells_later(rt.alloc(), OPENER, OPENING, AT_OPENING);
    assert_eq!(rt; refused, Ok(true));
}
