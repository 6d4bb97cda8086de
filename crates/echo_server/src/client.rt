//! A client: it dials the server by name, and compares what it reads with what it wrote.
ghost use Rattle.std.specs.Prelude.{◌≡◌, ◌<◌, ◌+◌, length, IfOk, MatchOption, None, Some};
ghost use Rattle.echo_server.specs.Calling as spec;
ghost use Rattle.echo_server.specs.Echoes as echoes;

use crate::server::{close, read, write};
use agenda::OwnTask;
use dial_lib::Dial;
use net_base::{Lines, Octets, Reply};
use script_task::{Names, Request, Task};
use std::alloc::{AllocError, Global};

/// The moment at which a client calls, in ms: by then the server has announced.
const CALLS_AT: u64 = 10;

/// What a client does next. The data file of its call is `d`.
#[derive(Clone, Copy, Debug, PartialEq, Eq)]
pub enum Stage {
    Wait,
    Dial,
    Write,
    Read,
    Close,
}

/// A client with messages to send, one after the other.
#[derive(Debug, Drop)]
pub struct EchoClient {
    stage: Stage,
    dial: Dial,
    messages: Lines,
    // how many of them came back as they were sent
    echoed: usize,
}

impl EchoClient {
    /// Calls this address, and sends these messages.
    pub fn new(alloc: Global, address: &[u8], messages: Lines) -> Result<EchoClient, AllocError>
        ensures { IfOk result (λ c. c ≡ spec.begun address.now messages) }
    {
        Ok(EchoClient {
            stage: Stage::Wait,
            dial: Dial::new(alloc, b"d", address)?,
            messages,
            echoed: 0,
        })
    }

    /// Whether each message came back as it was sent.
    pub fn is_well(&self) -> bool
        ensures { result ≡ spec.is_well self.now }
    {
        self.messages.len() <= self.echoed
    }

    fn message(&self) -> Option<&Octets>
        ensures { MatchOption result (spec.sent_next self.now ≡ None)
            (λ text. spec.sent_next self.now ≡ Some text.now) }
    {
        self.messages.as_slice().get(self.echoed)
    }

    // Whether the message that was sent last came back.
    fn is_echo(&self, reply: &Reply) -> bool
        ensures { result ≡ spec.is_echo self.now reply.now }
    {
        matches!((self.message(), reply), (Some(text), Reply::Bytes { bytes }) if text == bytes)
    }

    // The stage behind a message that came back.
    fn next_message(&mut self) -> Stage
        requires { self.old.echoed < length self.old.messages }
        ensures { spec.at_stage self.new result ≡ spec.echoed (record self.old { echoed = self.old.echoed + 1 }) }
    {
        self.echoed = self.echoed.saturating_add(1);
        if self.echoed < self.messages.len() {
            Stage::Write
        } else {
            Stage::Close
        }
    }
}

impl OwnTask for EchoClient {
    ghost asks = { spec.asks };

    ghost after = { spec.after };

    ghost Keeps = { echoes.KeepsEchoes };

    ghost keeps_on = { echoes.keeps_on };

    fn next(&self, alloc: Global, names: &Names) -> Result<Option<Request>, AllocError> {
        match (self.stage, self.message()) {
            (Stage::Wait, _) => Ok(Some(Request::Until { moment: CALLS_AT })),
            (Stage::Dial, _) => self.dial.next(alloc, names),
            (Stage::Write, Some(text)) if names.is_bound(b"d") => write(alloc, text),
            (Stage::Read, _) => read(alloc),
            (Stage::Close, _) if names.is_bound(b"d") => close(alloc, b"d"),
            // nobody answered, or all is done
            _ => Ok(None),
        }
    }

    #[tactic(auto, using(crate::proofs::Echoing::echo_within))]
    fn told(&mut self, alloc: Global, reply: Reply) -> Result<(), AllocError> {
        self.stage = match self.stage {
            Stage::Wait => Stage::Dial,
            Stage::Dial => {
                self.dial.told(alloc, reply)?;
                let through = self.dial.is_through();
                through.then_some(Stage::Write).unwrap_or(Stage::Dial)
            }
            Stage::Write if matches!(reply, Reply::Count { .. }) => Stage::Read,
            Stage::Read if self.is_echo(&reply) => self.next_message(),
            Stage::Write | Stage::Read | Stage::Close => Stage::Close,
        };
        Ok(())
    }
}
