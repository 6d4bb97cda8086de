//! The server: it announces, listens, and answers each message of a call with itself.
ghost use Rattle.std.specs.Prelude.{◌≡◌, Some, IfOk, OnErr, unwrap_or};
ghost use Rattle.echo_server.specs.Serving as spec;

use agenda::OwnTask;
use dial_lib::{Announce, Beside};
use net_base::{Octets, Reply};
use script_task::{Names, Request, Task};
use std::alloc::{AllocError, Global};

/// More than any message has, in bytes.
const COUNT: u32 = 8192;

/// A server that takes calls, one after the other, as long as there are any, by what it does next. The file that announces
/// is `a`, that of a call `c`, and its data file `d`.
#[derive(Debug, Drop)]
pub enum EchoServer {
    Announce(Announce),
    Listen(Beside),
    Accept(Beside),
    Read,
    Echo(Octets),
    CloseData,
    CloseCall,
}

impl EchoServer {
    /// Announces this address.
    pub fn new(alloc: Global, address: &[u8]) -> Result<EchoServer, AllocError>
        ensures { IfOk result (λ s. s ≡ spec.begun address.now) }
    {
        Ok(Self::Announce(Announce::new(alloc, b"a", address)?))
    }

    // The stage behind this one, where the reply ends it. Without memory this one is as it was.
    fn behind(&mut self, alloc: Global, reply: Reply) -> Result<Option<EchoServer>, AllocError>
        ensures ok { IfOk result (λ next. unwrap_or next self.new ≡ spec.after self.old reply) }
        ensures err { OnErr result (self.new ≡ self.old) }
    {
        match self {
            Self::Announce(task) => {
                let listen = Beside::listen(alloc, b"c", b"a")?;
                task.told(alloc, reply)?;
                Ok(task.is_through().then_some(Self::Listen(listen)))
            }
            Self::Listen(_) => Ok(Some(Self::Accept(Beside::accept(alloc, b"d", b"c")?))),
            Self::Accept(_) => Ok(Some(Self::Read)),
            Self::Read => Ok(Some(behind_read(reply))),
            Self::Echo(_) if matches!(reply, Reply::Count { .. }) => Ok(Some(Self::Read)),
            Self::Echo(_) => Ok(Some(Self::CloseData)),
            Self::CloseData => Ok(Some(Self::CloseCall)),
            Self::CloseCall => Ok(Some(Self::Listen(Beside::listen(alloc, b"c", b"a")?))),
        }
    }
}

impl OwnTask for EchoServer {
    ghost asks = { spec.asks };

    ghost after = { spec.after };

    ghost Keeps = { λ t rs. Unit {0} };

    ghost keeps_on = { λ t rs r is. tt };

    fn next(&self, alloc: Global, names: &Names) -> Result<Option<Request>, AllocError> {
        match self {
            Self::Announce(task) => task.next(alloc, names),
            Self::Listen(task) if names.is_bound(b"a") => task.next(alloc, names),
            Self::Accept(task) if names.is_bound(b"c") => task.next(alloc, names),
            Self::Read => read(alloc),
            Self::Echo(text) => write(alloc, text),
            Self::CloseData => close(alloc, b"d"),
            Self::CloseCall => close(alloc, b"c"),
            // nothing was announced, or no call was taken
            _ => Ok(None),
        }
    }

    fn told(&mut self, alloc: Global, reply: Reply) -> Result<(), AllocError> {
        if let Some(next) = self.behind(alloc, reply)? {
            *self = next;
        }
        Ok(())
    }
}

// What was read is written. Nothing is read once the caller has hung up.
fn behind_read(reply: Reply) -> EchoServer
    ensures { result ≡ spec.after_read reply }
{
    let Reply::Bytes { bytes } = reply else {
        return EchoServer::CloseData;
    };
    if bytes.len() == 0 {
        return EchoServer::CloseData;
    }
    EchoServer::Echo(bytes)
}

/// Reads a message of the call.
pub fn read(alloc: Global) -> Result<Option<Request>, AllocError>
    ensures { IfOk result (λ asked. asked ≡ Some spec.reads_call) }
{
    let name = Octets::from_slice(alloc, b"d")?;
    Ok(Some(Request::Read { name, count: COUNT }))
}

/// Writes a message to the call.
pub fn write(alloc: Global, text: &Octets) -> Result<Option<Request>, AllocError>
    ensures { IfOk result (λ asked. asked ≡ Some (spec.writes_back text.now)) }
{
    let (name, text) = (Octets::from_slice(alloc, b"d")?, text.clone()?);
    Ok(Some(Request::Write { name, text }))
}

/// Closes the file of this name.
pub fn close(alloc: Global, name: &[u8]) -> Result<Option<Request>, AllocError>
    ensures { IfOk result (λ asked. asked ≡ Some (spec.closes_echo name.now)) }
{
    let name = Octets::from_slice(alloc, name)?;
    Ok(Some(Request::Close { name }))
}
