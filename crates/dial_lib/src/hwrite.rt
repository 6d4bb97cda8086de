//! Answering the datagram that was heard.
ghost use Rattle.std.specs.Prelude.{◌≡◌, true, false, IfOk, MatchOption};
ghost use Rattle.net_base.specs.DatagramHeaders.{text_behind};
ghost use Rattle.net_base.specs.Steps.{is_answer};
ghost use Rattle.net_base.specs.declared.world.Step.TheVariants as step;
ghost use Rattle.dial_lib.specs.Hwrite as spec;

use crate::call::close;
use crate::reply::is_unopened;
use net_base::{Octets, Reply};
use script_task::{Names, Request, Task};
use std::alloc::{AllocError, Global};
use udp_headers::decode_headers;

/// What an answer does next.
#[derive(Clone, Copy, Debug, PartialEq, Eq)]
pub enum HwritePhase {
    /// It writes the text to the call.
    Write,
    /// It closes the call's data file.
    LeaveData,
    /// It closes the call's ctl file.
    LeaveCall,
    /// It is through.
    Through,
}

impl HwritePhase {
    // The phase after a reply.
    fn after(self, reply: &Reply) -> HwritePhase
        ensures { result ≡ spec.phase_after self reply.now }
    {
        match self {
            HwritePhase::Write if is_unopened(reply) => HwritePhase::Through,
            HwritePhase::Write => HwritePhase::LeaveData,
            HwritePhase::LeaveData => HwritePhase::LeaveCall,
            HwritePhase::LeaveCall => HwritePhase::Through,
            HwritePhase::Through => HwritePhase::Through,
        }
    }
}

/// Answers the call that an `hread` heard on a name, where the headers are those of its datagram, and closes it.
#[derive(Debug, Drop)]
pub struct Hwrite {
    name: Octets,
    bytes: Octets,
    phase: HwritePhase,
}

impl Hwrite {
    /// Answers by these bytes: headers, and a text.
    #[tactic(auto, using(crate::specs::HwriteLaws::fresh))]
    pub fn new(alloc: Global, name: &[u8], bytes: &[u8]) -> Result<Hwrite, AllocError>
        ensures value { IfOk result (λ t. t ≡ spec.begun name.now bytes.now) }
        ensures stands { IfOk result (λ t. spec.Begins t (step.Hwrite name.now bytes.now)) }
    {
        Ok(Hwrite {
            name: Octets::from_slice(alloc, name)?,
            bytes: Octets::from_slice(alloc, bytes)?,
            phase: HwritePhase::Write,
        })
    }

    // Writes the text, where the call is open and the headers are its own.
    fn write(&self, alloc: Global, fids: &Names) -> Result<Request, AllocError>
        ensures { IfOk result (λ q. q ≡ spec.writes_datagram self.now fids.now.names) }
    {
        let name = Octets::from_slice(alloc, b".d")?;
        if fids.open_call(self.name.as_slice()).is_none() {
            return Ok(Request::Unbound { name });
        }
        match answer_in(self.bytes.as_slice(), fids) {
            Some(text) => Ok(Request::Write {
                name,
                text: Octets::from_slice(alloc, text)?,
            }),
            None => Ok(Request::Misuse { name }),
        }
    }
}

// The text behind headers of the datagram that was heard, if they are that.
fn answer_in<'a>(bytes: &'a [u8], fids: &Names) -> Option<&'a [u8]>
    ensures { MatchOption result
        (is_answer bytes.now fids.now.names.heard ≡ false)
        (λ text. (is_answer bytes.now fids.now.names.heard ≡ true) × (text.now ≡ text_behind bytes.now)) }
{
    match decode_headers(bytes) {
        Ok(view) if fids.is_answered_by(view.headers) => Some(view.text),
        _ => None,
    }
}

impl Task for Hwrite {
    ghost use Rattle.dial_lib.specs.HwriteLaws as laws;

    ghost asks = { spec.asks };

    ghost after = { spec.after };

    ghost Stands = { spec.StandsFor };

    ghost asks_so = { laws.asks_so };

    ghost moves_so = { laws.moves_so };

    fn next(&self, alloc: Global, fids: &Names) -> Result<Option<Request>, AllocError> {
        match self.phase {
            HwritePhase::Write => Ok(Some(self.write(alloc, fids)?)),
            HwritePhase::LeaveData => Ok(Some(close(alloc, b".d")?)),
            HwritePhase::LeaveCall => Ok(Some(close(alloc, b".c")?)),
            HwritePhase::Through => Ok(None),
        }
    }

    fn is_through(&self) -> bool {
        self.phase == HwritePhase::Through
    }

    fn told(&mut self, _alloc: Global, reply: Reply) -> Result<(), AllocError> {
        self.phase = self.phase.after(&reply);
        Ok(())
    }
}
