//! The follow-up of a reply.
ghost use Rattle.std.specs.Prelude.{ℕ, ◌+◌, ◌≤◌, length, Option};
ghost use Rattle.net_base.specs.declared.address.Addr.{Addr as AnyAddr};
ghost use Rattle.net_base.specs.declared.event.Event.TheVariants as event;
ghost use Rattle.net_base.specs.declared.history.With.{With as AnyWith};
ghost use Rattle.net_base.specs.Duties.{close_calls, follow_up};
ghost use Rattle.duties.specs.Following.{AddsAsked, asks, leaves_slot, owes_at};
ghost use Rattle.duties.specs.Owing.{most_following};
ghost use Rattle.duties.specs.Queue.{AddsDuty};

use crate::queue::Duties;
use net_base::{ActorName, Call, Event, Proto, Reply, With};

/// The follow-up of a reply to an event, at the directory or the conversations of the same host and protocol.
pub fn owe_follow_up(
    actor: ActorName,
    stamp: u64,
    event: &Event,
    with: With,
    reply: &Reply,
    owed: &mut Duties,
)
    requires { most_following reply.now ≤ owed.old.room }
    ensures list { AddsDuty owed.old owed.new (follow_up actor stamp event.now with reply.now) }
    ensures room { owed.old.room ≤ owed.new.room + most_following reply.now }
{
    match actor {
        ActorName::Dir(host, proto) => {
            let home = Home { host, proto, stamp };
            home.follows(event, with, reply, owed);
        }
        ActorName::Conv(host, proto, slot) => {
            let home = Home { host, proto, stamp };
            home.withdraws(slot, event, reply, owed);
        }
        _ => {}
    }
}

// The host and the protocol of an actor, and the stamp of its entry.
#[derive(Clone, Copy)]
struct Home {
    host: u32,
    proto: Proto,
    stamp: u64,
}

impl Home {
    // An event at a conversation is owed.
    fn at_conversation(self, slot: u32, event: Event, with: With, owed: &mut Duties)
        requires { 1 ≤ owed.old.room }
        ensures list { AddsDuty owed.old owed.new (owes_at self slot event with) }
        ensures room { owed.old.room ≤ owed.new.room + 1 }
    {
        let conversation = ActorName::Conv(self.host, self.proto, slot);
        owed.owe(self.stamp, conversation, event, with);
    }

    // A listener that was left withdraws.
    fn withdraws(self, slot: u32, event: &Event, reply: &Reply, owed: &mut Duties)
        requires { most_following reply.now ≤ owed.old.room }
        ensures list { (with : AnyWith) → AddsDuty owed.old owed.new (leaves_slot self slot event.now with reply.now) }
        ensures room { owed.old.room ≤ owed.new.room + most_following reply.now }
    {
        let Event::Hangup { generation } = event else {
            return;
        };
        let Reply::Left = reply else {
            return;
        };
        let withdraw = Event::Withdraw {
            slot,
            generation: *generation,
        };
        let directory = ActorName::Dir(self.host, self.proto);
        owed.owe(self.stamp, directory, withdraw, With::Nothing);
    }

    // What the reply of the directory asks of its conversations.
    fn follows(self, event: &Event, with: With, reply: &Reply, owed: &mut Duties)
        requires { most_following reply.now ≤ owed.old.room }
        ensures list { AddsDuty owed.old owed.new (asks self event.now with reply.now) }
        ensures room { owed.old.room ≤ owed.new.room + most_following reply.now }
    {
        match event {
            Event::Reserve => self.begins(reply, owed),
            Event::Grant {
                slot,
                generation,
                ..
            } => self.connects(*slot, *generation, reply, owed),
            Event::Announce {
                slot,
                generation,
                ip,
                port,
            } => self.announces(*slot, *generation, *ip, *port, reply, owed),
            Event::Bind {
                slot,
                generation,
                port,
            } => self.binds(*slot, *generation, *port, reply, owed),
            Event::Listen { .. } => self.claims(reply, owed),
            Event::Withdraw { .. } => self.closes(reply, owed),
            Event::Release { .. } => self.closes(reply, owed),
            Event::Arrive => self.arrives(with, reply, owed),
            _ => {}
        }
    }

    // A slot that was reserved begins.
    fn begins(self, reply: &Reply, owed: &mut Duties)
        requires { most_following reply.now ≤ owed.old.room }
        ensures list { AddsAsked self event.Reserve reply.now owed.old owed.new }
        ensures room { owed.old.room ≤ owed.new.room + most_following reply.now }
    {
        if let Reply::Slot { slot, generation } = reply {
            let begin = Event::Begin {
                generation: *generation,
            };
            self.at_conversation(*slot, begin, With::Nothing, owed);
        }
    }

    // A conversation connects with the pair that was granted.
    fn connects(self, slot: u32, generation: u64, reply: &Reply, owed: &mut Duties)
        requires { most_following reply.now ≤ owed.old.room }
        ensures list { (r : AnyAddr) (p : Option ℕ) → AddsAsked self (event.Grant slot generation r p) reply.now
            owed.old owed.new }
        ensures room { owed.old.room ≤ owed.new.room + most_following reply.now }
    {
        if let Reply::Granted { pair, start, limit } = reply {
            let grant = With::Grant {
                pair: *pair,
                start: *start,
                limit: *limit,
            };
            self.at_conversation(slot, Event::Connect { generation }, grant, owed);
        }
    }

    // A conversation is announced.
    fn announces(
        self,
        slot: u32,
        generation: u64,
        ip: Option<u32>,
        port: Option<u16>,
        reply: &Reply,
        owed: &mut Duties,
    )
        requires { most_following reply.now ≤ owed.old.room }
        ensures list { AddsAsked self (event.Announce slot generation ip port) reply.now owed.old owed.new }
        ensures room { owed.old.room ≤ owed.new.room + most_following reply.now }
    {
        if let Reply::Ok = reply {
            let key = With::Key {
                ip: ip.unwrap_or(0),
                port: port.unwrap_or(0),
            };
            self.at_conversation(slot, Event::Announced { generation }, key, owed);
        }
    }

    // A conversation is bound to the port.
    fn binds(self, slot: u32, generation: u64, port: u16, reply: &Reply, owed: &mut Duties)
        requires { most_following reply.now ≤ owed.old.room }
        ensures list { AddsAsked self (event.Bind slot generation port) reply.now owed.old owed.new }
        ensures room { owed.old.room ≤ owed.new.room + most_following reply.now }
    {
        if let Reply::Ok = reply {
            let key = With::Key { ip: 0, port };
            self.at_conversation(slot, Event::Bound { generation }, key, owed);
        }
    }

    // The call that was listened for is claimed.
    fn claims(self, reply: &Reply, owed: &mut Duties)
        requires { most_following reply.now ≤ owed.old.room }
        ensures list { (slot : ℕ) → AddsAsked self (event.Listen slot) reply.now owed.old owed.new }
        ensures room { owed.old.room ≤ owed.new.room + most_following reply.now }
    {
        if let Reply::Call { slot, generation } = reply {
            let claim = Event::Claim {
                generation: *generation,
            };
            self.at_conversation(*slot, claim, With::Nothing, owed);
        }
    }

    // A packet arrives at its conversation, or bears one.
    fn arrives(self, with: With, reply: &Reply, owed: &mut Duties)
        requires { most_following reply.now ≤ owed.old.room }
        ensures list { AddsDuty owed.old owed.new (asks self event.Arrive with reply.now) }
        ensures room { owed.old.room ≤ owed.new.room + most_following reply.now }
    {
        let With::Packet(packet) = with else {
            return;
        };
        match reply {
            Reply::To { slot, generation } => {
                let arrive = Event::ArriveAt {
                    generation: *generation,
                };
                self.at_conversation(*slot, arrive, With::Packet(packet), owed);
            }
            Reply::Born {
                slot,
                generation,
                start,
                limit,
            } => {
                let born = Event::Born {
                    generation: *generation,
                };
                let birth = With::Birth {
                    packet,
                    start: *start,
                    limit: *limit,
                };
                self.at_conversation(*slot, born, birth, owed);
            }
            _ => {}
        }
    }

    // The calls that waited are closed.
    fn closes(self, reply: &Reply, owed: &mut Duties)
        requires { most_following reply.now ≤ owed.old.room }
        ensures withdraw { (n g : ℕ) → AddsAsked self (event.Withdraw n g) reply.now owed.old owed.new }
        ensures release { (n g : ℕ) → AddsAsked self (event.Release n g) reply.now owed.old owed.new }
        ensures room { owed.old.room ≤ owed.new.room + most_following reply.now }
    {
        if let Reply::Calls { calls } = reply {
            self.close_calls(calls.as_slice(), owed);
        }
    }

    // Each call is closed.
    fn close_calls(self, calls: &[Call], owed: &mut Duties)
        requires { length calls.now ≤ owed.old.room }
        ensures list { AddsDuty owed.old owed.new (close_calls self.host self.proto self.stamp calls.now) }
        ensures room { owed.old.room ≤ owed.new.room + length calls.now }
    {
        for call in calls {
            let close = Event::Close {
                generation: call.generation,
            };
            self.at_conversation(call.slot, close, With::Nothing, owed);
        }
    }
}
