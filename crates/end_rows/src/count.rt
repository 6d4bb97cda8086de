//! A conversation as it is counted.
ghost use Rattle.std.specs.Prelude.{◌≡◌, IfOk, OnOk};
ghost use Rattle.net_base.specs.Conversation.{il_state_name};
ghost use Rattle.net_base.specs.UdpEnd.{udp_state_name};
ghost use Rattle.end_rows.specs.Counts as spec;

use crate::il::IlCount;
use net_base::{
    Addr, Body, Cause, Entry, Event, IlState, Packet, Pair, Proto, Reply, StateName, UdpState, With,
};
use std::alloc::{AllocError, Global};

/// A UDP end: its state, and how many datagrams are unread.
#[derive(Clone, Copy)]
pub struct UdpCount {
    pub state: UdpState,
    pub unread: u64,
}

/// The end of a conversation.
#[derive(Drop)]
pub enum EndCount {
    Il(IlCount),
    Udp(UdpCount),
}

/// A conversation: its generation, how many files of it are open, its addresses, whether it was connected, created by a packet or announced in
/// this generation, and its end.
#[derive(Drop)]
pub struct Count {
    pub generation: u64,
    pub opens: u64,
    pub pair: Pair,
    pub used: bool,
    pub end: EndCount,
}

/// An address that isn't known.
const NOWHERE: Addr = Addr { ip: 0, port: 0 };

fn no_pair() -> Pair
    ensures { result ≡ spec.no_pair }
{
    Pair {
        local: NOWHERE,
        remote: NOWHERE,
    }
}

fn fresh_end(alloc: Global, proto: Proto) -> EndCount
    ensures { result ≡ spec.fresh_end_count proto }
{
    match proto {
        Proto::Il => EndCount::Il(IlCount::fresh(alloc)),
        Proto::Udp => EndCount::Udp(UdpCount {
            state: UdpState::Fresh,
            unread: 0,
        }),
    }
}

impl UdpCount {
    fn hung_up(self) -> UdpCount
        ensures { result ≡ spec.counted_udp_hangup self }
    {
        match self.state {
            UdpState::Fresh => self,
            _ => UdpCount {
                state: UdpState::HungUp,
                unread: self.unread,
            },
        }
    }
}

impl EndCount {
    fn copied(&self) -> Result<EndCount, AllocError>
        ensures { IfOk result (λ copy. copy ≡ self.now) }
    {
        match self {
            EndCount::Il(end) => {
                let copy = end.copied()?;
                Ok(EndCount::Il(copy))
            }
            EndCount::Udp(end) => Ok(EndCount::Udp(*end)),
        }
    }

    fn hang_up(&mut self)
        ensures { self.new ≡ spec.counted_end_hangup self.old }
    {
        match self {
            EndCount::Il(end) => end.hang_up(),
            EndCount::Udp(end) => *end = end.hung_up(),
        }
    }

    fn read(&mut self, count: u64)
        ensures { self.new ≡ spec.counted_end_read count self.old }
    {
        match self {
            EndCount::Il(end) => end.read(count),
            EndCount::Udp(end) => end.unread = end.unread.saturating_sub(1),
        }
    }

    fn write(&mut self)
        ensures { self.new ≡ spec.counted_end_write self.old }
    {
        match self {
            EndCount::Il(end) => end.written = end.written.saturating_add(1),
            EndCount::Udp(_) => {}
        }
    }

    fn time_out(&mut self)
        ensures { self.new ≡ spec.counted_end_timeout self.old }
    {
        match self {
            EndCount::Il(end) => end.close(Cause::TimedOut),
            EndCount::Udp(_) => {}
        }
    }

    fn connect(&mut self, start: u32)
        ensures { self.new ≡ spec.counted_end_connect start self.old }
    {
        match self {
            EndCount::Il(end) => {
                end.state = IlState::Syncer;
                end.start = start;
            }
            EndCount::Udp(end) => end.state = UdpState::Open,
        }
    }

    fn listen(&mut self)
        ensures { self.new ≡ spec.counted_end_listen self.old }
    {
        match self {
            EndCount::Il(end) => end.state = IlState::Listening,
            EndCount::Udp(end) => end.state = UdpState::Listening,
        }
    }

    fn bear(&mut self, start: u32, body: &Body)
        ensures { self.new ≡ spec.counted_end_birth start body.now self.old }
    {
        match self {
            EndCount::Il(end) => bear_il(end, start, body),
            EndCount::Udp(end) => {
                end.state = UdpState::Open;
                end.unread = 1;
            }
        }
    }

    fn arrive(&mut self, body: &Body, reply: &Reply) -> Result<(), AllocError>
        ensures { OnOk result (self.new ≡ spec.counted_end_arrival body.now reply.now self.old) }
    {
        match self {
            EndCount::Il(end) => arrive_il(end, body),
            EndCount::Udp(end) => {
                *end = end.reached(reply);
                Ok(())
            }
        }
    }
}

impl UdpCount {
    fn reached(self, reply: &Reply) -> UdpCount
        ensures { result ≡ spec.counted_udp_arrival reply.now self }
    {
        match reply {
            Reply::Took => UdpCount {
                state: self.state,
                unread: self.unread.saturating_add(1),
            },
            _ => self,
        }
    }
}

fn bear_il(end: &mut IlCount, start: u32, body: &Body)
    ensures { end.new ≡ spec.counted_il_birth start body.now end.old }
{
    match body {
        Body::Il(message) => {
            end.state = IlState::Syncee;
            end.start = start;
            end.rstart = Some(message.id);
        }
        Body::Udp(_) => {}
    }
}

fn arrive_il(end: &mut IlCount, body: &Body) -> Result<(), AllocError>
    ensures { OnOk result (end.new ≡ spec.counted_il_arrival body.now end.old) }
{
    match body {
        Body::Il(message) => end.arrive(message),
        Body::Udp(_) => Ok(()),
    }
}

fn is_bytes(reply: &Reply) -> bool
    ensures { result ≡ spec.is_bytes reply.now }
{
    match reply {
        Reply::Bytes { .. } => true,
        _ => false,
    }
}

fn is_count(reply: &Reply) -> bool
    ensures { result ≡ spec.is_count reply.now }
{
    match reply {
        Reply::Count { .. } => true,
        _ => false,
    }
}

fn is_opened(reply: &Reply) -> bool
    ensures { result ≡ spec.is_opened reply.now }
{
    match reply {
        Reply::Opened { .. } => true,
        _ => false,
    }
}

fn is_stale(reply: &Reply) -> bool
    ensures { result ≡ spec.is_stale reply.now }
{
    match reply {
        Reply::Stale => true,
        _ => false,
    }
}

// A tick that asks once more emits a packet, and one that gives up doesn't.
fn gives_up(entry: &Entry) -> bool
    ensures { result ≡ spec.gives_up entry.now }
{
    match &entry.reply {
        Reply::Ticked => entry.emits.is_none(),
        _ => false,
    }
}

impl Count {
    /// A conversation of this generation to which nothing happened.
    pub fn fresh(alloc: Global, proto: Proto, generation: u64, opens: u64) -> Count
        ensures { result ≡ spec.fresh_conversation proto generation opens }
    {
        Count {
            generation,
            opens,
            pair: no_pair(),
            used: false,
            end: fresh_end(alloc, proto),
        }
    }

    /// A copy of it.
    pub fn copied(&self) -> Result<Count, AllocError>
        ensures { IfOk result (λ copy. copy ≡ self.now) }
    {
        let end = self.end.copied()?;
        Ok(Count {
            generation: self.generation,
            opens: self.opens,
            pair: self.pair,
            used: self.used,
            end,
        })
    }

    fn begin(&mut self, alloc: Global, proto: Proto, generation: u64)
        ensures { self.new ≡ spec.counted_begin proto generation }
    {
        *self = Count::fresh(alloc, proto, generation, 1);
    }

    fn be_born(&mut self, alloc: Global, proto: Proto, generation: u64, with: &With)
        ensures { self.new ≡ spec.counted_birth proto generation with.now self.old }
    {
        match with {
            With::Birth { packet, start, .. } => {
                self.bear(alloc, proto, generation, packet, *start)
            }
            _ => {}
        }
    }

    fn bear(&mut self, alloc: Global, proto: Proto, generation: u64, packet: &Packet, start: u32)
        ensures { self.new ≡ spec.born_of proto generation packet.now start }
    {
        let mut end = fresh_end(alloc, proto);
        end.bear(start, &packet.body);
        *self = Count {
            generation,
            opens: 1,
            pair: Pair {
                local: packet.dst,
                remote: packet.src,
            },
            used: true,
            end,
        };
    }

    fn connect(&mut self, with: &With)
        ensures { self.new ≡ spec.counted_connect with.now self.old }
    {
        match with {
            With::Grant { pair, start, .. } => self.join(*pair, *start),
            _ => {}
        }
    }

    fn join(&mut self, pair: Pair, start: u32)
        ensures { self.new ≡ spec.joined_with pair start self.old }
    {
        if self.used {
            return;
        }
        self.used = true;
        self.pair = pair;
        self.end.connect(start);
    }

    fn announce(&mut self, with: &With)
        ensures { self.new ≡ spec.counted_announce with.now self.old }
    {
        match with {
            With::Key { ip, port } => self.listen(*ip, *port),
            _ => {}
        }
    }

    fn listen(&mut self, ip: u32, port: u16)
        ensures { self.new ≡ spec.listens_at ip port self.old }
    {
        if self.used {
            return;
        }
        self.used = true;
        self.pair.local = Addr { ip, port };
        self.end.listen();
    }

    fn bind(&mut self, with: &With)
        ensures { self.new ≡ spec.counted_bind with.now self.old }
    {
        match with {
            With::Key { port, .. } => self.take_port(*port),
            _ => {}
        }
    }

    fn take_port(&mut self, port: u16)
        ensures { self.new ≡ spec.port_taken port self.old }
    {
        if !self.used {
            self.pair.local.port = port;
        }
    }

    fn close(&mut self)
        ensures { self.new ≡ spec.counted_file_close self.old }
    {
        let last = self.opens == 1;
        self.opens = self.opens.saturating_sub(1);
        if last {
            self.end.hang_up();
        }
    }

    fn arrive(&mut self, with: &With, reply: &Reply) -> Result<(), AllocError>
        ensures { OnOk result (self.new ≡ spec.counted_packet with.now reply.now self.old) }
    {
        match with {
            With::Packet(packet) => self.end.arrive(&packet.body, reply),
            _ => Ok(()),
        }
    }

    /// Takes an entry of the conversation, with what was given to it.
    pub fn take(
        &mut self,
        alloc: Global,
        proto: Proto,
        entry: &Entry,
        with: &With,
    ) -> Result<(), AllocError>
        ensures { OnOk result (self.new ≡ spec.count_after proto entry.now with.now self.old) }
    {
        if is_stale(&entry.reply) {
            return Ok(());
        }
        self.take_event(alloc, proto, entry, with)
    }

    fn take_event(
        &mut self,
        alloc: Global,
        proto: Proto,
        entry: &Entry,
        with: &With,
    ) -> Result<(), AllocError>
        ensures { OnOk result (self.new ≡ spec.count_by proto entry.now.event entry.now with.now self.old) }
    {
        match &entry.event {
            Event::Begin { generation } => {
                self.begin(alloc, proto, *generation);
                Ok(())
            }
            Event::Born { generation } => {
                self.be_born(alloc, proto, *generation, with);
                Ok(())
            }
            Event::Connect { .. } => {
                self.connect(with);
                Ok(())
            }
            Event::Announced { .. } => {
                self.announce(with);
                Ok(())
            }
            Event::Bound { .. } => {
                self.bind(with);
                Ok(())
            }
            Event::Open { .. } => {
                if is_opened(&entry.reply) {
                    self.opens = self.opens.saturating_add(1);
                    return Ok(());
                }
                Ok(())
            }
            Event::Read { count, .. } => {
                if is_bytes(&entry.reply) {
                    self.end.read(*count as u64);
                    return Ok(());
                }
                Ok(())
            }
            Event::Write { .. } => {
                if is_count(&entry.reply) {
                    self.end.write();
                    return Ok(());
                }
                Ok(())
            }
            Event::Hangup { .. } => {
                self.end.hang_up();
                Ok(())
            }
            Event::Close { .. } => {
                self.close();
                Ok(())
            }
            Event::ArriveAt { .. } => self.arrive(with, &entry.reply),
            Event::Tick { .. } => {
                if gives_up(entry) {
                    self.end.time_out();
                    return Ok(());
                }
                Ok(())
            }
            _ => Ok(()),
        }
    }
}

/// The state of an end as it is printed.
pub fn state_of(end: &EndCount) -> StateName
    ensures { result ≡ spec.counted_state end.now }
{
    match end {
        EndCount::Il(end) => il_name(end.state),
        EndCount::Udp(end) => udp_name(end.state),
    }
}

fn il_name(state: IlState) -> StateName
    ensures { result ≡ il_state_name state }
{
    match state {
        IlState::Closed => StateName::Closed,
        IlState::Syncer => StateName::Syncer,
        IlState::Syncee => StateName::Syncee,
        IlState::Established => StateName::Established,
        IlState::Listening => StateName::Listening,
        IlState::Closing => StateName::Closing,
    }
}

fn udp_name(state: UdpState) -> StateName
    ensures { result ≡ udp_state_name state }
{
    match state {
        UdpState::Listening => StateName::Listening,
        UdpState::Open => StateName::Open,
        _ => StateName::Closed,
    }
}

/// Why an end is closed, if it is.
pub fn cause_of(end: &EndCount) -> Option<Cause>
    ensures { result ≡ spec.counted_cause end.now }
{
    match end {
        EndCount::Il(end) => end.cause,
        EndCount::Udp(end) => udp_cause(end.state),
    }
}

fn udp_cause(state: UdpState) -> Option<Cause>
    ensures { result ≡ spec.udp_cause state }
{
    match state {
        UdpState::HungUp => Some(Cause::Hungup),
        _ => None,
    }
}
