//! A host sends itself a datagram, by guests in one thread.
ghost use Rattle.std.specs.Prelude.{◌≡◌, ◌∷◌, [], IfOk, map};
ghost use Rattle.net_base.specs.declared.world.Script.{Script as AnyScript};
ghost use Rattle.net_base.specs.Callers.{IsCourier, IsScript, caller_of};
ghost use Rattle.net_base.specs.World.{IsWorld};
ghost use Rattle.net_locks.specs.Rosters.{IsRosterOf};
ghost use Rattle.thread_tests.specs.Worked as worked;

use host_net::*;
use journal::Naming;
use net_base::{
    Db, Fates, History, HostSpec, Hosts, Iface, Ifaces, Media, MediumSpec, Mode, Nets, Octets,
    Proto, RouteLines, Script, Scripts, Starts, Step, StepList, Timers, Version, Versions, World,
};
use net_locks::{Placing, WorldActor};
use outside::OpenGate;
use script_task::Request;
use std::alloc::{AllocError, Global};
use std::marker::Brand;
use std::sync::Wait;
use std::test::*;
use transcript::text_of;

// The world.

fn text(alloc: Global, bytes: &[u8]) -> Result<Octets, AllocError>
    ensures { IfOk result (λ text. text ≡ bytes.now) }
{
    Octets::from_slice(alloc, bytes)
}

fn media(alloc: Global) -> Result<Media, AllocError>
    ensures { IfOk result (λ ms. ms ≡ worked.medium ∷ []) }
{
    let mut media = Media::new(alloc);
    media.push(MediumSpec {
        number: 0,
        name: text(alloc, b"ether0")?,
        mtu: 1500,
        loss: 0,
        twice: 0,
        later: 0,
        fates: Fates::new(alloc),
    })?;
    Ok(media)
}

fn hosts(alloc: Global) -> Result<Hosts, AllocError>
    ensures { IfOk result (λ hs. hs ≡ worked.worked_anna ∷ []) }
{
    let mut nets = Nets::new(alloc);
    nets.push(Proto::Il)?;
    nets.push(Proto::Udp)?;
    let mut ifaces = Ifaces::new(alloc);
    ifaces.push(Iface {
        medium: 0,
        ip: 0x87680906,
        mask: 0xffffff00,
    })?;
    let mut hosts = Hosts::new(alloc);
    hosts.push(HostSpec {
        name: text(alloc, b"anna")?,
        nets,
        ifaces,
        routes: RouteLines::new(alloc),
        starts: Starts::new(alloc),
    })?;
    Ok(hosts)
}

fn scripts(alloc: Global) -> Result<Scripts, AllocError>
    ensures { IfOk result (λ ss. ss ≡ worked.worked_script ∷ []) }
{
    let mut steps = StepList::new(alloc);
    steps.push(Step::Until { moment: 1 })?;
    let mut scripts = Scripts::new(alloc);
    scripts.push(Script { host: 0, steps })?;
    Ok(scripts)
}

/// One version of the database, which is empty.
fn versions(alloc: Global) -> Result<Versions, AllocError>
    ensures { IfOk result (λ versions. versions ≡ record { moment = 0; db = [] } ∷ []) }
{
    let mut versions = Versions::new(alloc);
    versions.push(Version {
        moment: 0,
        db: Db::new(alloc),
    })?;
    Ok(versions)
}

fn world(alloc: Global) -> Result<World, AllocError>
    ensures worked { IfOk result (λ w. w ≡ worked.echo_world) }
    ensures is { IfOk result IsWorld }
{
    Ok(World {
        end: 60000,
        seed: 7,
        timers: Timers::Fixed,
        media: media(alloc)?,
        hosts: hosts(alloc)?,
        scripts: scripts(alloc)?,
        dbs: versions(alloc)?,
    })
}

// The lines of its history.
const LINES: &[u8] = b"\
0 0 0 dir.0.udp - reserve = slot 0 1
1 0 0 conv.0.udp.0 0 begin 1 = ok
2 0 0 dir.0.udp - announce 0 1 * 7 = ok
3 0 0 conv.0.udp.0 2 announced 1 = ok
4 0 0 dir.0.udp - reserve = slot 1 1
5 0 0 conv.0.udp.1 4 begin 1 = ok
6 0 0 dir.0.udp - grant 1 1 135.104.9.6!7 - = granted 135.104.9.6!5000 135.104.9.6!7 0 1472
7 0 0 conv.0.udp.1 6 connect 1 = ok
8 0 0 conv.0.udp.1 - open data rw = opened 1
9 0 0 conv.0.udp.1 - write 1 6869 = count 2 + udp 135.104.9.6!5000 135.104.9.6!7 255 0 2
10 0 0 medium.0 9 put 0 = laid 1
11 0 1 medium.0 - take = copy 1
12 0 1 dir.0.udp 11 arrive = born 2 1 0 1472
13 0 1 conv.0.udp.2 12 born 1 = ok
";

// Requests.

fn opens(alloc: Global, name: &[u8], path: &[u8]) -> Result<Request, AllocError> {
    let name = text(alloc, name)?;
    let path = text(alloc, path)?;
    Ok(Request::Open {
        name,
        path,
        mode: Mode::Both,
    })
}

fn writes(alloc: Global, name: &[u8], bytes: &[u8]) -> Result<Request, AllocError> {
    let name = text(alloc, name)?;
    let text = text(alloc, bytes)?;
    Ok(Request::Write { name, text })
}

// Turns.

// What became of a turn, without its reply.
#[derive(Clone, Copy)]
enum Heard {
    Recorded,
    NotReady,
    Owes,
    Memory,
}

fn hear(turn: &Turn) -> Heard {
    match turn {
        Turn::Recorded { .. } => Heard::Recorded,
        Turn::NotReady => Heard::NotReady,
        Turn::Owes => Heard::Owes,
        Turn::Limit | Turn::Memory => Heard::Memory,
    }
}

fn operated_once<J: Naming + Placing, R: Wait>(
    rt: &R,
    net: &Net<J, WorldActor<J>>,
    script: &mut Guest<J>,
    request: &Request,
) -> Heard
    requires script { (s : AnyScript) × (caller_of J.world script.old.caller ≡ IsScript s) }
    ensures { script.new.caller ≡ script.old.caller }
{
    let turn = net.operate(rt, &OpenGate, script, request);
    let heard = hear(&turn);
    drop(turn);
    heard
}

// The turn of a request, once more where memory ran out.
fn operated<J: Naming + Placing, R: Wait>(
    rt: &R,
    net: &Net<J, WorldActor<J>>,
    script: &mut Guest<J>,
    request: &Request,
) -> Heard
    requires script { (s : AnyScript) × (caller_of J.world script.old.caller ≡ IsScript s) }
    ensures { script.new.caller ≡ script.old.caller }
{
    let first = operated_once(rt, net, script, request);
    if matches!(first, Heard::Memory) {
        return operated_once(rt, net, script, request);
    }
    first
}

fn carried_once<J: Naming + Placing, R: Wait>(
    rt: &R,
    net: &Net<J, WorldActor<J>>,
    courier: &mut Guest<J>,
) -> Heard
    requires courier { caller_of J.world courier.old.caller ≡ IsCourier 0 }
    ensures { courier.new.caller ≡ courier.old.caller }
{
    let turn = net.courier_turn(rt, &OpenGate, courier, 0);
    let heard = hear(&turn);
    drop(turn);
    heard
}

// The courier's turns until nothing is there to carry, which is said. Memory may run out once.
fn carries<J: Naming + Placing, R: Wait>(
    rt: &R,
    net: &Net<J, WorldActor<J>>,
    courier: &mut Guest<J>,
) -> bool
    requires courier { caller_of J.world courier.old.caller ≡ IsCourier 0 }
    ensures { courier.new.caller ≡ courier.old.caller }
{
    for _ in 0..5_u32 {
        if matches!(carried_once(rt, net, courier), Heard::NotReady) {
            return true;
        }
    }
    false
}

// The first duty, if any is owed.
fn serves_once<J: Naming + Placing, R: Wait>(
    rt: &R,
    net: &Net<J, WorldActor<J>>,
    guest: &mut Guest<J>,
)
    ensures { guest.new.caller ≡ guest.old.caller }
{
    if guest.owes() {
        drop(net.serve(rt, &OpenGate, guest));
    }
}

// All duties. Memory may run out once.
fn serves<J: Naming + Placing, R: Wait>(rt: &R, net: &Net<J, WorldActor<J>>, guest: &mut Guest<J>)
    ensures { guest.new.caller ≡ guest.old.caller }
{
    for _ in 0..3_u32 {
        serves_once(rt, net, guest);
    }
}

fn opens_once<J: Naming + Placing, R: Wait>(
    rt: &R,
    alloc: Global,
    net: &Net<J, WorldActor<J>>,
    script: &mut Guest<J>,
    name: &[u8],
    path: &[u8],
) -> Result<(), AllocError>
    requires script { (s : AnyScript) × (caller_of J.world script.old.caller ≡ IsScript s) }
    ensures { script.new.caller ≡ script.old.caller }
{
    let open = opens(alloc, name, path)?;
    operated(rt, net, script, &open);
    drop(open);
    Ok(())
}

// Writes, and says whether a second write is held up by what is owed for the first.
fn writes_twice<J: Naming + Placing, R: Wait>(
    rt: &R,
    alloc: Global,
    net: &Net<J, WorldActor<J>>,
    script: &mut Guest<J>,
    name: &[u8],
    bytes: &[u8],
) -> Result<bool, AllocError>
    requires script { (s : AnyScript) × (caller_of J.world script.old.caller ≡ IsScript s) }
    ensures { script.new.caller ≡ script.old.caller }
{
    let write = writes(alloc, name, bytes)?;
    operated(rt, net, script, &write);
    let again = operated(rt, net, script, &write);
    drop(write);
    Ok(matches!(again, Heard::Owes))
}

// Opens a file and writes to it. Says whether the script was held up by what it owed for the write.
fn speaks<J: Naming + Placing, R: Wait>(
    rt: &R,
    alloc: Global,
    net: &Net<J, WorldActor<J>>,
    script: &mut Guest<J>,
    name: &[u8],
    path: &[u8],
    bytes: &[u8],
) -> Result<bool, AllocError>
    requires script { (s : AnyScript) × (caller_of J.world script.old.caller ≡ IsScript s) }
    ensures { script.new.caller ≡ script.old.caller }
{
    opens_once(rt, alloc, net, script, name, path)?;
    serves(rt, net, script);
    let held = writes_twice(rt, alloc, net, script, name, bytes)?;
    serves(rt, net, script);
    Ok(held)
}

// Three guests: the script's, the courier's and the clock's.

// The script sends itself a datagram. Says whether each write held it up, and its last name is bound.
fn script_speaks<J: Naming + Placing, R: Wait>(
    rt: &R,
    alloc: Global,
    net: &Net<J, WorldActor<J>>,
    script: &mut Guest<J>,
) -> Result<bool, AllocError>
    requires script { (s : AnyScript) × (caller_of J.world script.old.caller ≡ IsScript s) }
    ensures { script.new.caller ≡ script.old.caller }
{
    let a = speaks(
        rt,
        alloc,
        net,
        script,
        b"a",
        b"/net/udp/clone",
        b"announce 7",
    )?;
    let b = speaks(
        rt,
        alloc,
        net,
        script,
        b"b",
        b"/net/udp/clone",
        b"connect 135.104.9.6!7",
    )?;
    let d = speaks(rt, alloc, net, script, b"d", b"/net/udp/1/data", b"hi")?;
    Ok(a && b && d && script.fids().is_bound(b"d") && script.now() == 0)
}

fn first_speaks<J: Naming + Placing, R: Wait>(
    rt: &R,
    alloc: Global,
    net: &Net<J, WorldActor<J>>,
    guests: &mut [Guest<J>],
) -> Result<bool, AllocError>
    requires world { J.world ≡ worked.echo_world }
    requires callers { map (λ g. g.caller) guests.old ≡ 0 ∷ 1 ∷ 2 ∷ [] }
    ensures { map (λ g. g.caller) guests.new ≡ 0 ∷ 1 ∷ 2 ∷ [] }
{
    script_speaks(rt, alloc, net, &mut guests[0])
}

fn second_carries<J: Naming + Placing, R: Wait>(
    rt: &R,
    net: &Net<J, WorldActor<J>>,
    guests: &mut [Guest<J>],
) -> bool
    requires world { J.world ≡ worked.echo_world }
    requires callers { map (λ g. g.caller) guests.old ≡ 0 ∷ 1 ∷ 2 ∷ [] }
    ensures { map (λ g. g.caller) guests.new ≡ 0 ∷ 1 ∷ 2 ∷ [] }
{
    carries(rt, net, &mut guests[1])
}

// The courier carries the datagram that the script sends, and nothing before. Says whether each waited where it had to.
fn play<J: Naming + Placing, R: Wait>(
    rt: &R,
    alloc: Global,
    net: &Net<J, WorldActor<J>>,
    guests: &mut [Guest<J>],
) -> Result<bool, AllocError>
    requires world { J.world ≡ worked.echo_world }
    requires callers { map (λ g. g.caller) guests.old ≡ 0 ∷ 1 ∷ 2 ∷ [] }
    ensures { map (λ g. g.caller) guests.new ≡ 0 ∷ 1 ∷ 2 ∷ [] }
{
    let before = second_carries(rt, net, guests);
    let held = first_speaks(rt, alloc, net, guests)?;
    let after = second_carries(rt, net, guests);
    Ok(before && held && after)
}

fn has_text(alloc: Global, history: &History, lines: &[u8]) -> Result<bool, AllocError> {
    let text = text_of(alloc, history)?;
    let same = text.as_slice() == lines;
    drop(text);
    Ok(same)
}

// Whether all went as it had to, and the history has its lines.
fn echoed<J: Naming + Placing, R: Wait>(
    rt: &R,
    alloc: Global,
    world: &World,
    opened: NetOpened,
) -> Result<bool, AllocError>
    requires name { opened ≡ J.run }
    requires world { J.world ≡ world.now }
    requires worked { world.now ≡ worked.echo_world }
    requires is { IsWorld world.now }
    requires roster { IsRosterOf J.world J.run.roster }
{
    let (net, mut guests) = Net::<J, WorldActor<J>>::named(alloc, world, opened)?;
    let held = play(rt, alloc, &net, &mut guests);
    let history = net.finish(alloc, guests)?;
    let told = has_text(alloc, &history, LINES);
    drop(history);
    Ok(held? && told?)
}

fn echoes<R: Wait>(rt: &R, alloc: Global, world: &World) -> Result<bool, AllocError>
    requires worked { world.now ≡ worked.echo_world }
    requires is { IsWorld world.now }
{
    let opened = NetOpened::new(alloc, world)?;
    echoed::<Brand, _>(rt, alloc, world, opened)
}

#[test]
fn a_host_sends_itself_a_datagram(rt: HostRuntime) -> Result<(), AllocError> {
    let world = world(rt.alloc())?;
    assert!(rt; echoes(&rt, rt.alloc(), &world) == Ok(true));
    drop(world);
    Ok(())
}
