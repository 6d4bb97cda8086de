//! What the entry of a step owes.
ghost use Rattle.std.specs.Prelude.{◌≡◌, ◌+◌, ◌<◌, ◌≤◌, ◌^◌};
ghost use Rattle.std.specs.Option.{option_map};
ghost use Rattle.net_base.specs.Duties.{courier_duty, emitted_put, forwarded, put_by, proto_of as spec_proto_of};
ghost use Rattle.net_base.specs.Headers.{header};
ghost use Rattle.net_base.specs.Routes.{way};
ghost use Rattle.duties.specs.Owing.{AddsIn, Owes, if_any, most_following, most_owed as most_owed_of};
ghost use Rattle.duties.specs.Showing.{shows};

use crate::follow_up::owe_follow_up;
use crate::queue::Duties;
use crate::release::owe_release;
use crate::shown::Shown;
use crate::world_ways::WorldWays;
use net_base::{ActorName, Body, Event, Header, Outcome, Packet, Proto, Reply, Taken, With, Work};

/// How many duties an outcome owes at most, the ticks of a move aside.
pub fn most_owed(outcome: &Outcome) -> usize
    ensures { result ≡ most_owed_of outcome.now }
{
    let following = most_following(&outcome.reply);
    let ended = if outcome.ended { 1 } else { 0 };
    if_any(&outcome.emit) + following + if_any(&outcome.taken) + ended
}

// A close for each call that waited, or one duty.
fn most_following(reply: &Reply) -> usize
    ensures value { result ≡ most_following reply.now }
    ensures few { result < 2 ^ 63 }
{
    match reply {
        Reply::Calls { calls } => calls.as_slice().len(),
        _ => 1,
    }
}

// One where there is a value.
fn if_any<T>(value: &Option<T>) -> usize
    ensures { result ≡ if_any value.now }
{
    match value {
        Some(_) => 1,
        None => 0,
    }
}

// What an entry shows of a packet.
fn header_of(emit: &Option<Packet>) -> Option<Header>
    ensures { result ≡ option_map header emit.now }
{
    match emit {
        Some(packet) => Some(packet.header()),
        None => None,
    }
}

// The protocol of a packet.
fn proto_of(body: &Body) -> Proto
    ensures { result ≡ spec_proto_of body.now }
{
    match body {
        Body::Il(_) => Proto::Il,
        Body::Udp(_) => Proto::Udp,
    }
}

impl WorldWays {
    /// What the entry of this stamp owes is owed after the others: the put of the packet that was emitted, the
    /// follow-up of the reply or the copy that was taken, and the release of a conversation that ended. The ticks of
    /// a move are owed apart. The answer is what the entry shows.
    pub fn owe(
        &self,
        actor: ActorName,
        stamp: u64,
        work: Work,
        outcome: Outcome,
        owed: &mut Duties,
    ) -> Shown
        requires { most_owed_of outcome ≤ owed.old.room }
        ensures shown { result ≡ shows work.event outcome }
        ensures owes { Owes self.now actor stamp work outcome owed.old owed.new }
        ensures room { owed.old.room ≤ owed.new.room + most_owed_of outcome }
    {
        let Work { event, with } = work;
        let Outcome {
            reply,
            copy: _,
            emit,
            taken,
            ended,
        } = outcome;
        let emits = header_of(&emit);
        self.owe_put(actor, stamp, emit, owed);
        owe_follow_up(actor, stamp, &event, with, &reply, owed);
        self.owe_copy(actor, stamp, taken, owed);
        owe_release(actor, stamp, &event, ended, owed);
        Shown {
            event,
            reply,
            emits,
            ended,
        }
    }

    // The put of the packet that the actor of a host emits.
    fn owe_put(&self, actor: ActorName, stamp: u64, emit: Option<Packet>, owed: &mut Duties)
        requires { if_any emit ≤ owed.old.room }
        ensures list { AddsIn self.now owed.old owed.new (λ w. emitted_put w actor stamp emit) }
        ensures room { owed.old.room ≤ owed.new.room + if_any emit }
    {
        let Some(packet) = emit else {
            return;
        };
        match actor {
            ActorName::Dir(host, _) => self.put(host, stamp, packet, owed),
            ActorName::Conv(host, _, _) => self.put(host, stamp, packet, owed),
            _ => {}
        }
    }

    // A packet of a host is put by its way, and dropped where there is none.
    fn put(&self, host: u32, stamp: u64, packet: Packet, owed: &mut Duties)
        requires { 1 ≤ owed.old.room }
        ensures list { AddsIn self.now owed.old owed.new (λ w. put_by (way w host packet.dst.ip) stamp packet) }
        ensures room { owed.old.room ≤ owed.new.room + 1 }
    {
        let Some(way) = self.way(host, packet.dst.ip) else {
            return;
        };
        let put = Event::Put { to: way.station };
        owed.owe(
            stamp,
            ActorName::Medium(way.medium),
            put,
            With::Packet(packet),
        );
    }

    // A copy that a courier took arrives where its destination is, or is forwarded.
    fn owe_copy(&self, actor: ActorName, stamp: u64, taken: Option<Taken>, owed: &mut Duties)
        requires { if_any taken ≤ owed.old.room }
        ensures list { AddsIn self.now owed.old owed.new (λ w. courier_duty w actor stamp taken) }
        ensures room { owed.old.room ≤ owed.new.room + if_any taken }
    {
        let Some(
            Taken {
                frame: _,
                to,
                packet,
            },
        ) = taken
        else {
            return;
        };
        let ActorName::Medium(_) = actor else {
            return;
        };
        if self.has_address(to, packet.dst.ip) {
            let directory = ActorName::Dir(to, proto_of(&packet.body));
            owed.owe(stamp, directory, Event::Arrive, With::Packet(packet));
        } else {
            self.forward(to, stamp, packet, owed);
        }
    }

    // A packet goes on with a lower ttl. At ttl 1 or less it is dropped.
    fn forward(&self, host: u32, stamp: u64, packet: Packet, owed: &mut Duties)
        requires { 1 ≤ owed.old.room }
        ensures list { AddsIn self.now owed.old owed.new (λ w. forwarded w host stamp packet) }
        ensures room { owed.old.room ≤ owed.new.room + 1 }
    {
        if packet.ttl <= 1 {
            return;
        }
        let ttl = packet.ttl - 1;
        self.put(host, stamp, Packet { ttl, ..packet }, owed);
    }
}
