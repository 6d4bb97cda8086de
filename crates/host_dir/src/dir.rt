//! A directory.
ghost use Rattle.std.specs.Prelude.{◌≡◌, ◌<◌, ℕ, length, is_some, slice_get, true, None, Some, IfOk, IfSome, OnErr, IsTrue};
ghost use Rattle.std.specs.Option.{option_map};
ghost use Rattle.net_base.specs.declared.reply.Reply.TheVariants as reply;
ghost use Rattle.net_base.specs.declared.world.World.{World as AnyWorld};
ghost use Rattle.net_base.specs.declared.names.Node.TheVariants as node;
ghost use Rattle.net_base.specs.Actors.{opening_dir};
ghost use Rattle.net_base.specs.ActorStep.{replies};
ghost use Rattle.net_base.specs.Directory as spec;
ghost use Rattle.net_base.specs.Directory.{Dir as AnyDir, dir_step, home_at};
ghost use Rattle.net_base.specs.Paths.{names};
ghost use Rattle.net_base.specs.Routes.{way};
ghost use Rattle.host_dir.specs.Found.{slot_at, taker_at};
ghost use Rattle.host_dir.specs.Kept.{GivesDir, IsDirOf, LeavesDir, StaysDir, StepMayWant, StepsDir, Wants};
ghost use Rattle.host_dir.specs.Ready.{is_row_ready, takes_packet};
ghost use Rattle.host_dir.specs.Taking.{TakesSlot, chosen_port};

use crate::answer::{Answer, outcome};
use crate::names::names_of;
use crate::ports::Ports;
use crate::slot::Key;
use crate::slots::{Slots, TakerAt};
use crate::starts::Starts;
use ip_route::{Way, Ways};
use listen_queue::MOST_CALLS;
use net_base::{
    Addr, Body, Event, IlKind, IlMsg, Octets, Outcome, Packet, Pair, Proto, Reply, StateName, With,
    Work, World, mirror,
};
use std::alloc::{AllocError, Global};
use std::marker::Model;

/// The longest message that a directory allows, in bytes.
const LONGEST_MESSAGE: u32 = 8192;

/// How many bytes of a datagram the headers of IPv4 and IL take.
const IL_HEADERS: u32 = 38;

/// How many bytes of a datagram the headers of IPv4 and UDP take.
const UDP_HEADERS: u32 = 28;

/// The directory of a host and protocol.
///
/// Clauses see its protocol, what it keeps of the world, and the directory of the definitions.
#[derive(Drop)]
pub struct Dir {
    alloc: Global,
    proto: Proto,
    ways: Ways,
    starts: Starts,
    slots: Slots,
    ports: Ports,
}

impl Model for Dir {
    ghost use Rattle.host_dir.specs.Kept.{HostDir};
    ghost use Rattle.host_dir.specs.Starts.{given_with};

    ghost Value = { HostDir };

    ghost view = { λ d. record {
      proto = d.proto;
      ways = d.ways;
      starts = d.starts;
      dir = record {
        slots = d.slots.slots;
        pairs = d.slots.pairs;
        ports = d.ports.used;
        starts = given_with d.proto d.slots.pairs;
      };
    } };
}

impl Dir {
    /// A directory to which nothing has happened.
    pub fn new(alloc: Global, world: &World, host: u32, proto: Proto) -> Result<Dir, AllocError>
        requires { host < length world.now.hosts }
        ensures of { IfOk result (IsDirOf world.now host proto) }
        ensures opening { IfOk result (λ d. d.dir ≡ opening_dir) }
    {
        Ok(Dir {
            alloc,
            proto,
            ways: Ways::new(alloc, world, host)?,
            starts: Starts::new(world, host)?,
            slots: Slots::new(alloc)?,
            ports: Ports::new(alloc),
        })
    }

    /// Whether the directory has an answer, which depends on no world.
    #[tactic(auto, using(crate::proofs::Ready::ready_is))]
    pub fn ready(&self, work: &Work) -> bool
        ensures value { result ≡ is_row_ready self.now.proto work.now.event work.now.with self.now.dir }
        ensures step { (w : AnyWorld) (h : ℕ) → result ≡ is_some (dir_step w h self.now.proto work.now.event
            work.now.with self.now.dir) }
    {
        self.answers(&work.event, &work.with)
    }

    /// Whether the directory has an answer.
    fn answers(&self, event: &Event, with: &With) -> bool
        ensures { result ≡ is_row_ready self.now.proto event.now with.now self.now.dir }
    {
        match event {
            Event::Reserve => true,
            Event::Grant { slot, .. } => self.slots.has(*slot),
            Event::Announce { slot, .. } => self.slots.has(*slot),
            Event::Bind { slot, .. } => self.slots.has(*slot),
            Event::Listen { slot } => self.slots.hears(*slot),
            Event::Withdraw { slot, .. } => self.slots.has(*slot),
            Event::Release { slot, .. } => self.slots.has(*slot),
            Event::Arrive => self.takes(with),
            Event::Ls => true,
            _ => false,
        }
    }

    /// Whether a packet of the directory's protocol is given.
    fn takes(&self, with: &With) -> bool
        ensures { result ≡ takes_packet self.now.proto with.now }
    {
        match with {
            With::Packet(packet) => match packet.body {
                Body::Il(_) => self.proto == Proto::Il,
                Body::Udp(_) => self.proto == Proto::Udp,
            },
            _ => false,
        }
    }

    /// The answer to a work, after which the directory is another.
    pub fn step(&mut self, work: &Work) -> Result<Outcome, AllocError>
        requires { IsTrue (is_row_ready self.old.proto work.now.event work.now.with self.old.dir) }
        ensures ok { IfOk result (StepsDir self.old self.new work.now) }
        ensures stays { StaysDir self.old self.new }
        ensures err { OnErr result (self.new ≡ self.old) }
        ensures memory { OnErr result (Wants self.old (λ at. dir_step at.world at.host at.proto work.now.event
            work.now.with self.old.dir)) }
    {
        self.row(&work.event, &work.with)
    }

    /// The answer of the event's row.
    fn row(&mut self, event: &Event, with: &With) -> Result<Outcome, AllocError>
        requires { IsTrue (is_row_ready self.old.proto event.now with.now self.old.dir) }
        ensures ok { IfOk result (λ o. GivesDir self.old self.new o (λ at. dir_step at.world at.host at.proto
            event.now with.now self.old.dir)) }
        ensures stays { StaysDir self.old self.new }
        ensures err { OnErr result (self.new ≡ self.old) }
        ensures memory { OnErr result (Wants self.old (λ at. dir_step at.world at.host at.proto event.now with.now
            self.old.dir)) }
    {
        match event {
            Event::Reserve => self.reserve(),
            Event::Grant {
                slot,
                generation,
                remote,
                lport,
            } => self.grant(*slot, *generation, *remote, *lport),
            Event::Announce {
                slot,
                generation,
                ip,
                port,
            } => self.announce(*slot, *generation, *ip, *port),
            Event::Bind {
                slot,
                generation,
                port,
            } => self.bind(*slot, *generation, *port),
            Event::Listen { slot } => Ok(self.listen(*slot)),
            Event::Withdraw { slot, generation } => self.withdraw(*slot, *generation),
            Event::Release { slot, generation } => self.release(*slot, *generation),
            Event::Arrive => match with {
                With::Packet(packet) => self.arrive(packet),
                _ => unreachable!(),
            },
            Event::Ls => self.ls(),
            _ => unreachable!(),
        }
    }

    /// Reserves the lowest free slot. A slot that was taken as often as a generation can count isn't taken again, and counts as
    /// want of memory.
    fn reserve(&mut self) -> Result<Outcome, AllocError>
        ensures ok { IfOk result (λ o. LeavesDir self.new o (Some (spec.reserves (spec.first_slot spec.is_free 0
            self.old.dir.slots) self.old.dir))) }
        ensures stays { StaysDir self.old self.new }
        ensures err { OnErr result (self.new ≡ self.old) }
        ensures memory { OnErr result (StepMayWant (Some (spec.reserves (spec.first_slot spec.is_free 0
            self.old.dir.slots) self.old.dir))) }
    {
        let Some(n) = self.slots.first_free() else {
            return Ok(Answer::NoSlot.outcome());
        };
        let Some(generation) = self.slots.at(n).generation().checked_add(1) else {
            return Err(AllocError);
        };
        self.slots.reserve(n, generation);
        Ok(Answer::Slot {
            slot: n,
            generation,
        }
        .outcome())
    }

    /// Grants a pair to a slot.
    fn grant(
        &mut self,
        n: u32,
        generation: u64,
        remote: Addr,
        lport: Option<u16>,
    ) -> Result<Outcome, AllocError>
        requires { n < length self.old.dir.slots }
        ensures ok { IfOk result (λ o. GivesDir self.old self.new o (λ at.
            spec.in_slot n generation self.old.dir (spec.grants at n remote lport self.old.dir))) }
        ensures stays { StaysDir self.old self.new }
        ensures err { OnErr result (self.new ≡ self.old) }
        ensures memory { OnErr result (Wants self.old (λ at.
            spec.in_slot n generation self.old.dir (spec.grants at n remote lport self.old.dir))) }
    {
        let slot = self.slots.at(n);
        if slot.generation() != generation {
            return Ok(Answer::Stale.outcome());
        }
        if !slot.is_reserved() {
            return Ok(Answer::WrongState(slot.kind()).outcome());
        }
        self.grant_reserved(n, remote, lport)
    }

    /// Grants a pair to a reserved slot.
    fn grant_reserved(
        &mut self,
        n: u32,
        remote: Addr,
        lport: Option<u16>,
    ) -> Result<Outcome, AllocError>
        requires { n < length self.old.dir.slots }
        ensures ok { IfOk result (λ o. GivesDir self.old self.new o (λ at. Some (spec.grants_by
            (way at.world at.host remote.ip) (chosen_port lport (slot_at self.old.dir.slots n).bound self.old.dir.ports)
            at n (slot_at self.old.dir.slots n) remote self.old.dir))) }
        ensures stays { StaysDir self.old self.new }
        ensures err { OnErr result (self.new ≡ self.old) }
        ensures memory { OnErr result (Wants self.old (λ at. Some (spec.grants_by
            (way at.world at.host remote.ip) (chosen_port lport (slot_at self.old.dir.slots n).bound self.old.dir.ports)
            at n (slot_at self.old.dir.slots n) remote self.old.dir))) }
    {
        let Some(way) = self.way_to(remote.ip) else {
            return Ok(Answer::NoRoute.outcome());
        };
        let Some(port) = self.port_for(n, lport) else {
            return Ok(Answer::NoPort.outcome());
        };
        let local = Addr {
            ip: way.source,
            port,
        };
        if local == remote {
            return Ok(Answer::SelfPair.outcome());
        }
        self.give(n, Pair { local, remote }, way.mtu)
    }

    /// The way to an address, in each world in which the directory stands.
    #[tactic(auto, unfolding(ip_route::specs::Kept::AreWaysOf))]
    fn way_to(&self, ip: u32) -> Option<Way>
        ensures { (w : AnyWorld) (h : ℕ) → IsDirOf w h self.now.proto self.now → way w h ip ≡ result }
    {
        self.ways.to(ip)
    }

    /// The port that was named, or the slot's bound one, or a drawn one.
    fn port_for(&mut self, n: u32, lport: Option<u16>) -> Option<u16>
        requires { n < length self.old.dir.slots }
        ensures value { result ≡ chosen_port lport (slot_at self.old.dir.slots n).bound self.old.dir.ports }
        ensures same { self.new ≡ self.old }
    {
        match (lport, self.slots.at(n).bound()) {
            (Some(port), _) => Some(port),
            (None, Some(port)) => Some(port),
            (None, None) => self.ports.draw(),
        }
    }

    /// Gives a pair to a slot, where it was never granted or born before.
    fn give(&mut self, n: u32, pair: Pair, mtu: u32) -> Result<Outcome, AllocError>
        requires { n < length self.old.dir.slots }
        ensures ok { IfOk result (λ o. GivesDir self.old self.new o (λ at. Some (spec.grants_pair
            (spec.pair_place pair 1 self.old.dir.pairs) at n (slot_at self.old.dir.slots n) pair mtu self.old.dir))) }
        ensures stays { StaysDir self.old self.new }
        ensures err { OnErr result (self.new ≡ self.old) }
        ensures memory { OnErr result (Wants self.old (λ at. Some (spec.grants_pair
            (spec.pair_place pair 1 self.old.dir.pairs) at n (slot_at self.old.dir.slots n) pair mtu self.old.dir))) }
    {
        if let Some(k) = self.slots.number_of(pair) {
            return Ok(Answer::PairUsed(k).outcome());
        }
        let start = self.next_start();
        let limit = limit_of(self.proto, mtu);
        self.ports.reserve()?;
        self.slots.give(n, pair)?;
        self.ports.add(pair.local.port);
        Ok(Answer::Granted { pair, start, limit }.outcome())
    }

    /// The start that is given out next; 0 for UDP.
    fn next_start(&self) -> u32
        ensures { (w : AnyWorld) (h : ℕ) → IsDirOf w h self.now.proto self.now →
            spec.start_of (home_at w h self.now.proto) self.now.dir ≡ result }
    {
        match self.proto {
            Proto::Il => self.starts.after(self.slots.pairs()),
            Proto::Udp => 0,
        }
    }

    /// A slot announces an address, any where there is none, and a port, any where there is none.
    fn announce(
        &mut self,
        n: u32,
        generation: u64,
        ip: Option<u32>,
        port: Option<u16>,
    ) -> Result<Outcome, AllocError>
        requires { n < length self.old.dir.slots }
        ensures ok { IfOk result (λ o. LeavesDir self.new o (spec.in_slot n generation self.old.dir (
            spec.announces n ip port self.old.dir))) }
        ensures stays { StaysDir self.old self.new }
        ensures err { OnErr result (self.new ≡ self.old) }
        ensures memory { OnErr result (StepMayWant (spec.in_slot n generation self.old.dir (spec.announces n ip port
            self.old.dir))) }
    {
        let slot = self.slots.at(n);
        if slot.generation() != generation {
            return Ok(Answer::Stale.outcome());
        }
        if !slot.is_reserved() {
            return Ok(Answer::WrongState(slot.kind()).outcome());
        }
        let key = Key { ip, port };
        if let Some(holder) = self.slots.announcing(key) {
            return Ok(Answer::PortTaken(holder).outcome());
        }
        if let Some(named) = port {
            self.ports.reserve()?;
            self.slots.announce(n, key);
            self.ports.add(named);
            return Ok(Answer::Ok.outcome());
        }
        self.slots.announce(n, key);
        Ok(Answer::Ok.outcome())
    }

    /// A slot is bound to a port.
    fn bind(&mut self, n: u32, generation: u64, port: u16) -> Result<Outcome, AllocError>
        requires { n < length self.old.dir.slots }
        ensures ok { IfOk result (λ o. LeavesDir self.new o (spec.in_slot n generation self.old.dir (
            spec.slot_binds n port self.old.dir))) }
        ensures stays { StaysDir self.old self.new }
        ensures err { OnErr result (self.new ≡ self.old) }
        ensures memory { OnErr result (StepMayWant (spec.in_slot n generation self.old.dir (spec.slot_binds n port
            self.old.dir))) }
    {
        let slot = self.slots.at(n);
        if slot.generation() != generation {
            return Ok(Answer::Stale.outcome());
        }
        if !slot.is_reserved() {
            return Ok(Answer::WrongState(slot.kind()).outcome());
        }
        if let Some(holder) = self.slots.bound_to(port) {
            return Ok(Answer::PortTaken(holder).outcome());
        }
        self.ports.reserve()?;
        self.slots.bind(n, port);
        self.ports.add(port);
        Ok(Answer::Ok.outcome())
    }

    /// Takes the oldest call of an announcing slot.
    fn listen(&mut self, n: u32) -> Outcome
        requires { IsTrue (is_some (spec.slot_listens (slice_get self.old.dir.slots n) n self.old.dir)) }
        ensures step { LeavesDir self.new result (spec.slot_listens (slice_get self.old.dir.slots n) n self.old.dir) }
        ensures stays { StaysDir self.old self.new }
    {
        match self.slots.at(n).kind() {
            StateName::Announced => {
                let Some(call) = self.slots.take_call(n) else {
                    unreachable!();
                };
                Answer::Call {
                    slot: call.slot,
                    generation: call.generation,
                }
                .outcome()
            }
            StateName::Free => Answer::NoFile.outcome(),
            kind => Answer::WrongState(kind).outcome(),
        }
    }

    /// A slot announces no more, and its calls are sent away.
    fn withdraw(&mut self, n: u32, generation: u64) -> Result<Outcome, AllocError>
        requires { n < length self.old.dir.slots }
        ensures ok { IfOk result (λ o. LeavesDir self.new o (spec.in_slot n generation self.old.dir (spec.withdraws n
            self.old.dir))) }
        ensures stays { StaysDir self.old self.new }
        ensures err { OnErr result (self.new ≡ self.old) }
        ensures memory { OnErr result (StepMayWant (spec.in_slot n generation self.old.dir (spec.withdraws n
            self.old.dir))) }
    {
        if self.slots.at(n).generation() != generation {
            return Ok(Answer::Stale.outcome());
        }
        let calls = self.calls_at(n)?;
        self.slots.withdraw(n);
        Ok(calls)
    }

    /// Frees a slot, and its calls are sent away.
    fn release(&mut self, n: u32, generation: u64) -> Result<Outcome, AllocError>
        requires { n < length self.old.dir.slots }
        ensures ok { IfOk result (λ o. LeavesDir self.new o (spec.in_slot n generation self.old.dir (spec.frees n
            self.old.dir))) }
        ensures stays { StaysDir self.old self.new }
        ensures err { OnErr result (self.new ≡ self.old) }
        ensures memory { OnErr result (StepMayWant (spec.in_slot n generation self.old.dir (spec.frees n
            self.old.dir))) }
    {
        if self.slots.at(n).generation() != generation {
            return Ok(Answer::Stale.outcome());
        }
        let calls = self.calls_at(n)?;
        self.slots.release(n);
        Ok(calls)
    }

    /// Tells the calls that wait at a slot.
    fn calls_at(&self, n: u32) -> Result<Outcome, AllocError>
        requires { n < length self.now.dir.slots }
        ensures { IfOk result (λ o. o ≡ replies (reply.Calls (slot_at self.now.dir.slots n).calls) None) }
    {
        let calls = self.slots.at(n).calls();
        let told = calls.list(self.alloc)?;
        let copy = calls.list(self.alloc)?;
        Ok(outcome(
            Reply::Calls { calls: told },
            Reply::Calls { calls: copy },
            None,
        ))
    }

    /// Tells the names in the directory.
    fn ls(&self) -> Result<Outcome, AllocError>
        ensures { IfOk result (λ o. o ≡ replies (reply.Names (names (node.Proto self.now.proto) (
            spec.taken_from 0 self.now.dir.slots))) None) }
    {
        let told = names_of(self.alloc, self.slots.all())?;
        let copy = names_of(self.alloc, self.slots.all())?;
        Ok(outcome(
            Reply::Names { names: told },
            Reply::Names { names: copy },
            None,
        ))
    }

    /// Where a packet of the protocol goes: to the live slot that has its pair, or to its taker; an IL sync with neither is
    /// refused, and all else is dropped.
    fn arrive(&mut self, packet: &Packet) -> Result<Outcome, AllocError>
        ensures ok { IfOk result (λ o. GivesDir self.old self.new o (λ at. Some (spec.arrives_at
            (spec.first_slot (spec.is_live_with (spec.packet_pair packet.now)) 0 self.old.dir.slots)
            at (spec.packet_pair packet.now) packet.now self.old.dir))) }
        ensures stays { StaysDir self.old self.new }
        ensures err { OnErr result (self.new ≡ self.old) }
        ensures memory { OnErr result (Wants self.old (λ at. Some (spec.arrives_at
            (spec.first_slot (spec.is_live_with (spec.packet_pair packet.now)) 0 self.old.dir.slots)
            at (spec.packet_pair packet.now) packet.now self.old.dir))) }
    {
        let pair = Pair {
            local: packet.dst,
            remote: packet.src,
        };
        if let Some(n) = self.slots.with_pair(pair) {
            let generation = self.slots.at(n).generation();
            return Ok(Answer::To {
                slot: n,
                generation,
            }
            .outcome());
        }
        match self.taker(pair, packet) {
            Some(taker) => self.bear(pair, taker),
            None => Ok(refused_or_dropped(self.alloc, packet)),
        }
    }

    /// Who takes a packet that no slot has.
    #[tactic(auto, using(crate::proofs::Takers::takes_is))]
    fn taker(&self, pair: Pair, packet: &Packet) -> Option<TakerAt>
        ensures value { spec.taker_of pair packet.now self.now.dir ≡ option_map (taker_at self.now.dir.slots) result }
        ensures takes { IfSome result (TakesSlot self.now.dir pair) }
    {
        let Some(free) = self.slots.first_free() else {
            return None;
        };
        let Some(listener) = self.slots.listener(packet.dst) else {
            return None;
        };
        if self.may_take(pair, packet, listener) {
            Some(TakerAt { free, listener })
        } else {
            None
        }
    }

    /// Whether the pair is new and isn't its own mirror, the packet may bear, and there is room at the listener.
    fn may_take(&self, pair: Pair, packet: &Packet, listener: u32) -> bool
        requires { listener < length self.now.dir.slots }
        ensures { result ≡ spec.may_take pair packet.now (slot_at self.now.dir.slots listener) self.now.dir }
    {
        self.slots.number_of(pair).is_none()
            && pair != mirror(pair)
            && is_first_packet(&packet.body)
            && self.slots.at(listener).calls().len() < MOST_CALLS
    }

    /// Bears a conversation. A slot that was taken as often as a generation can count counts as want of memory.
    #[tactic(auto, using(crate::proofs::Takers::two_slots))]
    fn bear(&mut self, pair: Pair, taker: TakerAt) -> Result<Outcome, AllocError>
        requires { TakesSlot self.old.dir pair taker }
        ensures ok { IfOk result (λ o. GivesDir self.old self.new o (λ at.
            Some (spec.bears at pair (taker_at self.old.dir.slots taker) self.old.dir))) }
        ensures stays { StaysDir self.old self.new }
        ensures err { OnErr result (self.new ≡ self.old) }
        ensures memory { OnErr result (Wants self.old (λ at.
            Some (spec.bears at pair (taker_at self.old.dir.slots taker) self.old.dir))) }
    {
        let Some(generation) = self.slots.at(taker.free).generation().checked_add(1) else {
            return Err(AllocError);
        };
        let start = self.next_start();
        let limit = self.limit_to(pair.remote.ip);
        self.slots.bear(taker, generation, pair)?;
        Ok(Answer::Born {
            slot: taker.free,
            generation,
            start,
            limit,
        }
        .outcome())
    }

    /// The longest message to an address, in bytes; 8,192 without a way.
    fn limit_to(&self, ip: u32) -> u32
        ensures { (w : AnyWorld) (h : ℕ) → IsDirOf w h self.now.proto self.now → spec.limit_to
            (way w h ip) self.now.proto ≡ result }
    {
        match self.way_to(ip) {
            Some(way) => limit_of(self.proto, way.mtu),
            None => LONGEST_MESSAGE,
        }
    }
}

/// The longest message over a way of this mtu, both in bytes.
fn limit_of(proto: Proto, mtu: u32) -> u32
    ensures { result ≡ spec.limit_of proto mtu }
{
    match proto {
        Proto::Il => LONGEST_MESSAGE.min(mtu.saturating_sub(IL_HEADERS)),
        Proto::Udp => LONGEST_MESSAGE.min(mtu.saturating_sub(UDP_HEADERS)),
    }
}

/// Whether the packet with this body may bear a conversation: a datagram of UDP, or a sync of IL with ack 0.
fn is_first_packet(body: &Body) -> bool
    ensures { result ≡ spec.is_first_packet body.now }
{
    match body {
        Body::Il(message) => message.kind == IlKind::Sync && message.ack == 0,
        Body::Udp(_) => true,
    }
}

/// The close that refuses a sync.
fn refusal(alloc: Global, message: &IlMsg, packet: &Packet) -> Packet
    ensures { result ≡ spec.refusal message.now packet.now }
{
    Packet {
        src: packet.dst,
        dst: packet.src,
        ttl: 255,
        tos: 0,
        body: Body::Il(IlMsg {
            kind: IlKind::Close,
            spec: 1,
            id: message.ack,
            ack: message.id,
            text: Octets::new(alloc),
        }),
    }
}

/// What becomes of a packet without a taker: a sync is refused, and all else is dropped.
fn refused_or_dropped(alloc: Global, packet: &Packet) -> Outcome
    ensures { (d : AnyDir) → spec.refused_or_dropped packet.now.body packet.now d
        ≡ record { state = d; outcome = result } }
{
    match &packet.body {
        Body::Il(message) if message.kind == IlKind::Sync => {
            Answer::Refused.emitting(refusal(alloc, message, packet))
        }
        _ => Answer::Dropped.outcome(),
    }
}
