//! Answering questions from the database.
ghost use Rattle.std.specs.Prelude.{◌≡◌, ◌-◌, IfOk};
ghost use Rattle.net_base.specs.DomainAnswers.{is_answered};
ghost use Rattle.net_base.specs.declared.world.Step.TheVariants as step;
ghost use Rattle.dial_lib.specs.Dns as spec;

use crate::call::{CallPhase, asked};
use crate::told::taken_bytes;
use ndb_dns::dns_answer;
use net_base::{Octets, Reply};
use script_task::{Names, Request, Task, bytes_in, is_accepted};
use std::alloc::{AllocError, Global};

/// Takes calls one after the other, and answers what is asked in each from the database.
#[derive(Debug, Drop)]
pub struct Dns {
    name: Octets,
    // how many calls are taken after this one
    more: u32,
    phase: CallPhase,
    // what was read in this one
    message: Octets,
}

impl Dns {
    /// Answers in so many calls at the conversation that the name is bound to, and in one at least.
    #[tactic(auto, using(crate::specs::DnsLaws::fresh))]
    pub fn new(alloc: Global, name: &[u8], times: u32) -> Result<Dns, AllocError>
        ensures value { IfOk result (λ t. t ≡ spec.begun name.now times) }
        ensures stands { IfOk result (λ t. spec.Begins t (step.Dns name.now times)) }
    {
        Ok(Dns {
            name: Octets::from_slice(alloc, name)?,
            more: times.saturating_sub(1),
            phase: CallPhase::Fresh,
            message: Octets::new(alloc),
        })
    }

    // Writes the answer to what was read, or closes the call where there is none.
    fn answer(&self, alloc: Global, fids: &Names) -> Result<Request, AllocError>
        ensures { IfOk result (λ q. q ≡ spec.writes_answer self.now.message fids.now.names) }
    {
        let name = Octets::from_slice(alloc, b".d")?;
        match dns_answer(alloc, fids.zone(), self.message.as_slice())? {
            Some(text) => Ok(Request::Write { name, text }),
            None => Ok(Request::Close { name }),
        }
    }

    // What a phase that isn't the first one's asks for.
    fn request(&self, alloc: Global, fids: &Names) -> Result<Option<Request>, AllocError>
        ensures { IfOk result (λ q. q ≡ spec.own_request self.now.phase self.now.message fids.now.names) }
    {
        match self.phase {
            CallPhase::Answer => Ok(Some(self.answer(alloc, fids)?)),
            _ => Ok(Some(Request::Read {
                name: Octets::from_slice(alloc, b".d")?,
                count: 8192,
            })),
        }
    }

    // The phase after a reply.
    fn phase_after(&self, reply: &Reply) -> CallPhase
        ensures { result ≡ spec.phase_after self.now reply.now }
    {
        if is_last(self.phase) && is_accepted(reply) && 0 < self.more {
            return CallPhase::Fresh;
        }
        self.phase.after(read_phase(bytes_in(reply)), reply)
    }
}

// Whether a call is closed, and nothing else of it is open.
fn is_last(phase: CallPhase) -> bool
    ensures { result ≡ spec.is_last_answer phase }
{
    matches!(phase, CallPhase::LeaveCall)
}

// What is done with what was read.
fn read_phase(message: &[u8]) -> CallPhase
    ensures { result ≡ spec.read_phase message.now }
{
    if is_answered(message) {
        CallPhase::Answer
    } else {
        CallPhase::LeaveData
    }
}

// Whether a message has a header, and is no response.
fn is_answered(message: &[u8]) -> bool
    ensures { result ≡ is_answered message.now }
{
    12 <= message.len() && message[2] < 128
}

impl Task for Dns {
    ghost use Rattle.dial_lib.specs.DnsLaws as laws;

    ghost asks = { spec.asks };

    ghost after = { spec.after };

    ghost Stands = { spec.StandsFor };

    ghost asks_so = { laws.asks_so };

    ghost moves_so = { laws.moves_so };

    fn next(&self, alloc: Global, fids: &Names) -> Result<Option<Request>, AllocError> {
        let request = self.request(alloc, fids)?;
        asked(alloc, self.phase, &self.name, request, fids)
    }

    fn is_through(&self) -> bool {
        self.phase == CallPhase::Through
    }

    fn told(&mut self, alloc: Global, reply: Reply) -> Result<(), AllocError> {
        let phase = self.phase_after(&reply);
        match self.phase {
            CallPhase::Read => self.message = taken_bytes(alloc, reply),
            CallPhase::LeaveCall => self.more = self.more.saturating_sub(1),
            _ => {}
        }
        self.phase = phase;
        Ok(())
    }
}
