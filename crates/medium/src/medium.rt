//! A medium.
ghost use Rattle.std.specs.Prelude.{◌≡◌, ◌+◌, ◌^◌, ◌<◌, ◌≤◌, ◌↔◌, ◌++◌, [], true, option_to_list, IfOk, IsFalse, IsSome, IsTrue, OnErr, OnOk, option_copied};
ghost use Rattle.std.specs.VecDeque.{deque_capacity, deque_len};
ghost use Rattle.medium.specs.OnFates.{next_frame_number};
ghost use Rattle.net_base.specs.declared.reply.Reply.TheVariants as reply;
ghost use Rattle.formats.specs.Datagram.{datagram_packet, packet_spelling};
ghost use Rattle.net_base.specs.Medium.{datagram_length, medium_leaves, puts, takes};
ghost use Rattle.net_base.specs.World.{is_medium};
ghost use Rattle.medium.specs.OnMedium.{IsPending, medium_laid, copy_taken, with_frame};
ghost use Rattle.medium.specs.Replies.{NextHasText, PutsBytes, TakesFirst, first_copy, laid_reply_of};
ghost use Rattle.medium.specs.Spelled.{HasText, IsSpelledPacket};

use crate::datagram::{datagram_of, packet_from};
use crate::fates::Fates;
use crate::frame::{Copies, Frame};
use net_base::{Body, MediumSpec, Packet, Taken};
use std::alloc::{AllocError, Global};
use std::collections::VecDeque;
use std::marker::Model;

/// What became of a packet that was put.
#[derive(Clone, Copy, Debug, PartialEq, Eq)]
pub enum Laid {
    /// It is the frame of this number, from 1.
    Frame(u64),
    /// No station was named.
    NoStation,
    /// Its datagram is longer than the mtu.
    TooBig,
}

/// A medium, which holds the bytes of packets until they are taken.
///
/// Clauses see the copies that come next, the oldest first, and the one that is held.
#[derive(Drop)]
pub struct Medium {
    fates: Fates,
    queue: VecDeque<Frame>,
    held: Option<Frame>,
}

impl Model for Medium {
    ghost use Rattle.std.specs.Prelude.{option_to_list};
    ghost use Rattle.medium.specs.OnMedium.{OnMedium, AllSpelled};

    ghost Value = { OnMedium };

    ghost view = { λ m. record {
      spec = m.fates.spec;
      seed = m.fates.seed;
      laid = m.fates.laid;
      queue = m.queue.items;
      held = m.held;
    } };

    ghost invariant = { λ m. AllSpelled m.queue.items × AllSpelled (option_to_list m.held) };
}

impl Medium {
    /// A medium of a world, on which nothing was laid.
    pub fn new(alloc: Global, spec: &MediumSpec, seed: u64) -> Result<Medium, AllocError>
        requires { is_medium spec.now.number spec.now ≡ true }
        ensures { IfOk result (λ m. m ≡ record { spec = spec.now; seed = seed; laid = 0; queue = []; held = None }) }
    {
        Ok(Medium {
            fates: Fates::new(alloc, spec, seed)?,
            queue: VecDeque::new(alloc),
            held: None,
        })
    }

    /// Lays a packet for a station, if one is named and the packet isn't too long.
    pub fn put(&mut self, to: Option<u32>, packet: &Packet) -> Result<Laid, AllocError>
        // It is the step of a medium, while frames can be numbered.
        ensures reply { self.old.laid + 1 < 2 ^ 64 → IfOk result
            (λ laid. laid_reply_of laid ≡ (puts self.old.spec self.old.seed to packet.now
            (medium_laid self.old)).outcome.reply) }
        ensures state { self.old.laid + 1 < 2 ^ 64 → OnOk result
            (medium_laid self.new ≡ (puts self.old.spec self.old.seed to packet.now (medium_laid self.old)).state) }
        // What isn't laid, and why; what is laid is the packet's bytes.
        ensures no_station { IfOk result (λ laid. (laid ≡ Laid.NoStation) ↔ (to ≡ None)) }
        ensures too_big { IfOk result (λ laid. (laid ≡ Laid.TooBig)
            ↔ (IsSome to × (self.old.spec.mtu < datagram_length packet.now.body))) }
        ensures bytes { IfOk result (λ laid. PutsBytes self.old self.new to (packet_spelling packet.now) laid) }
        // Where memory ran out nothing has changed; it is taken for what is laid alone.
        ensures err { OnErr result (self.new ≡ self.old) }
        ensures memory { OnErr result (IsSome to × (datagram_length packet.now.body ≤ self.old.spec.mtu)) }
    {
        let Some(to) = to else {
            return Ok(Laid::NoStation);
        };
        if self.is_too_long(packet) {
            return Ok(Laid::TooBig);
        }
        let bytes = datagram_of(*self.queue.allocator(), packet)?;
        let number = self.fates.number();
        self.lay(Frame { number, to, bytes })?;
        Ok(Laid::Frame(number))
    }

    // Lays a frame with the next number. What may run out of memory comes first.
    fn lay(&mut self, frame: Frame) -> Result<(), AllocError>
        requires number { frame.number ≡ next_frame_number self.old.laid }
        requires spelled { IsSpelledPacket frame.bytes }
        ensures ok { OnOk result (self.new ≡ with_frame frame self.old) }
        ensures err { OnErr result (self.new ≡ self.old) }
    {
        self.queue.reserve(3)?;
        let Copies {
            first,
            second,
            held,
        } = frame.copies(self.fates.ahead())?;
        join(&mut self.queue, first);
        join(&mut self.queue, second);
        join(&mut self.queue, self.held.take());
        self.held = held;
        self.fates.pass();
        Ok(())
    }

    /// The next copy. It stays where memory ran out.
    pub fn take(&mut self) -> Result<Taken, AllocError>
        requires { IsPending self.old }
        // It is the step of a medium, and takes the oldest copy.
        ensures step { IfOk result (λ taken. takes (medium_laid self.old).queue (medium_laid self.old).held
            (medium_laid self.old) ≡ Some (medium_leaves (reply.Copy taken.frame) (Some taken)
            (medium_laid self.new))) }
        ensures first { IfOk result (TakesFirst self.old self.new) }
        ensures err { OnErr result (self.new ≡ self.old) }
        // A packet without a text takes no memory.
        ensures memory { OnErr result (NextHasText self.old) }
    {
        let alloc = *self.queue.allocator();
        let taken = taken_from(alloc, self.first().unwrap())?;
        if self.queue.pop_front().is_none() {
            self.held = None;
        }
        Ok(taken)
    }

    // The copy that comes next.
    fn first(&self) -> Option<&Frame>
        ensures { option_copied result ≡ first_copy self.now.queue self.now.held }
    {
        match self.queue.front() {
            Some(frame) => Some(frame),
            None => self.held.as_ref(),
        }
    }

    // Tells whether the packet's datagram is longer than the mtu.
    fn is_too_long(&self, packet: &Packet) -> bool
        ensures long { IsTrue result ↔ (self.now.spec.mtu < datagram_length packet.now.body) }
        ensures short { IsFalse result → (datagram_length packet.now.body ≤ self.now.spec.mtu)
            × (self.now.spec.mtu ≤ 16384) }
    {
        let mtu = self.fates.mtu() as usize;
        match &packet.body {
            Body::Il(message) => message.text.len() > mtu - 38,
            Body::Udp(text) => text.len() > mtu - 28,
        }
    }

    /// Tells whether there is a copy to take.
    pub fn pending(&self) -> bool
        ensures { IsTrue result ↔ IsPending self.now }
    {
        !self.queue.is_empty() || self.held.is_some()
    }
}

// A copy joins the queue, if there is one.
fn join(queue: &mut VecDeque<Frame>, copy: Option<Frame>)
    requires room { deque_len queue.old < deque_capacity queue.old }
    ensures items { queue.new.items ≡ queue.old.items ++ option_to_list copy }
    ensures len { deque_len queue.new ≤ deque_len queue.old + 1 }
    ensures room { deque_capacity queue.new ≡ deque_capacity queue.old }
{
    if let Some(frame) = copy {
        queue.push_back_reserved(frame);
    }
}

// The frame as the copy that is taken.
fn taken_from(alloc: Global, frame: &Frame) -> Result<Taken, AllocError>
    requires { IsSpelledPacket frame.now.bytes }
    ensures ok { IfOk result (λ taken. taken ≡ copy_taken frame.now) }
    ensures memory { OnErr result (HasText (datagram_packet frame.now.bytes)) }
{
    Ok(Taken {
        frame: frame.number,
        to: frame.to,
        packet: packet_from(alloc, frame.bytes.as_slice())?,
    })
}
