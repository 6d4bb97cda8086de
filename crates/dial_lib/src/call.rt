//! A call of a datagram, which is taken, read, answered and closed: what comes next by each reply.
ghost use Rattle.std.specs.Prelude.{◌≡◌, IfOk};
ghost use Rattle.net_base.specs.Steps as steps;
ghost use Rattle.dial_lib.specs.Calls as spec;

use crate::beside::open_file;
use net_base::{FileName, Mode, Octets, Reply};
use script_task::{Names, Request, is_accepted, is_opening};
use std::alloc::{AllocError, Global};

/// What is done next with a call.
#[derive(Clone, Copy, Debug, PartialEq, Eq)]
pub enum CallPhase {
    /// It is taken at a conversation that listens.
    Fresh,
    /// Its data file is opened.
    Data,
    /// The file that tells who called is opened, read and closed.
    Remote,
    TellRemote,
    CloseRemote,
    /// The file that tells whom is opened, read and closed.
    Local,
    TellLocal,
    CloseLocal,
    /// Its first datagram is read.
    Read,
    /// It is answered.
    Answer,
    /// Its files are closed, one after the other.
    LeaveData,
    LeaveCall,
    /// Something was refused: what is open is closed, whatever the replies.
    ShutRemote,
    ShutLocal,
    ShutData,
    ShutCall,
    /// All is done.
    Through,
}

impl CallPhase {
    // The phase after a reply, where this one follows one that isn't refused to a read.
    pub(crate) fn after(self, read: CallPhase, reply: &Reply) -> CallPhase
        ensures { result ≡ spec.phase_after self read reply.now }
    {
        match self {
            CallPhase::Fresh => if_so(is_opening(reply), CallPhase::Data, CallPhase::Through),
            CallPhase::Data => if_so(is_opening(reply), CallPhase::Remote, CallPhase::ShutCall),
            CallPhase::Remote => if_so(
                is_opening(reply),
                CallPhase::TellRemote,
                CallPhase::ShutData,
            ),
            CallPhase::TellRemote => if_so(
                is_accepted(reply),
                CallPhase::CloseRemote,
                CallPhase::ShutRemote,
            ),
            CallPhase::CloseRemote => if_so(
                is_accepted(reply),
                CallPhase::Local,
                CallPhase::ShutData,
            ),
            CallPhase::Local => if_so(is_opening(reply), CallPhase::TellLocal, CallPhase::ShutData),
            CallPhase::TellLocal => if_so(
                is_accepted(reply),
                CallPhase::CloseLocal,
                CallPhase::ShutLocal,
            ),
            CallPhase::CloseLocal => if_so(
                is_accepted(reply),
                CallPhase::Read,
                CallPhase::ShutData,
            ),
            CallPhase::Read => if_so(is_accepted(reply), read, CallPhase::ShutData),
            CallPhase::Answer => if_so(
                is_accepted(reply),
                CallPhase::LeaveData,
                CallPhase::ShutData,
            ),
            CallPhase::LeaveData => if_so(
                is_accepted(reply),
                CallPhase::LeaveCall,
                CallPhase::ShutCall,
            ),
            CallPhase::LeaveCall => CallPhase::Through,
            CallPhase::ShutRemote | CallPhase::ShutLocal => CallPhase::ShutData,
            CallPhase::ShutData => CallPhase::ShutCall,
            CallPhase::ShutCall | CallPhase::Through => CallPhase::Through,
        }
    }
}

// The one phase or the other.
fn if_so(is_so: bool, then: CallPhase, otherwise: CallPhase) -> CallPhase
    ensures { result ≡ spec.if_so is_so then otherwise }
{
    if is_so { then } else { otherwise }
}

// What is asked for in a phase, where a read asks for this.
pub(crate) fn asked(
    alloc: Global,
    phase: CallPhase,
    name: &Octets,
    read: Option<Request>,
    fids: &Names,
) -> Result<Option<Request>, AllocError>
    ensures { IfOk result (λ asked. asked ≡ spec.asks_by phase name.now read fids.now.names) }
{
    match phase {
        CallPhase::Read => Ok(read),
        CallPhase::Answer => Ok(read),
        _ => asked_else(alloc, phase, name, fids),
    }
}

// What is asked for in another phase.
fn asked_else(
    alloc: Global,
    phase: CallPhase,
    name: &Octets,
    fids: &Names,
) -> Result<Option<Request>, AllocError>
    ensures { IfOk result (λ asked. asked ≡ spec.asks_by phase name.now None fids.now.names) }
{
    match phase {
        CallPhase::Fresh => Ok(Some(begin(alloc, name, fids)?)),
        CallPhase::Data => Ok(Some(open(alloc, fids, b".d", FileName::Data, Mode::Both)?)),
        CallPhase::Remote => Ok(Some(open(alloc, fids, b".r", FileName::Remote, Mode::Read)?)),
        CallPhase::TellRemote => Ok(Some(tell(alloc, b".r")?)),
        CallPhase::Local => Ok(Some(open(alloc, fids, b".l", FileName::Local, Mode::Read)?)),
        CallPhase::TellLocal => Ok(Some(tell(alloc, b".l")?)),
        _ => closed(alloc, phase),
    }
}

// Takes a call at the conversation of the name, where none is open.
fn begin(alloc: Global, name: &Octets, fids: &Names) -> Result<Request, AllocError>
    ensures { IfOk result (λ q. q ≡ spec.begins name.now fids.now.names) }
{
    if let Some(name) = taken_name(alloc, fids)? {
        return Ok(Request::Unbound { name });
    }
    match fids.get(name.as_slice()) {
        Some(fid) => open_file(
            alloc,
            &Octets::from_slice(alloc, b".c")?,
            fid,
            FileName::Listen,
            Mode::Both,
        ),
        None => Ok(Request::Unbound {
            name: name.clone()?,
        }),
    }
}

// The file that is closed in a phase, in those that close one.
fn closed(alloc: Global, phase: CallPhase) -> Result<Option<Request>, AllocError>
    ensures { IfOk result (λ asked. asked ≡ spec.closes_by phase) }
{
    match phase {
        CallPhase::CloseRemote | CallPhase::ShutRemote => Ok(Some(close(alloc, b".r")?)),
        CallPhase::CloseLocal | CallPhase::ShutLocal => Ok(Some(close(alloc, b".l")?)),
        CallPhase::LeaveData | CallPhase::ShutData => Ok(Some(close(alloc, b".d")?)),
        CallPhase::LeaveCall | CallPhase::ShutCall => Ok(Some(close(alloc, b".c")?)),
        _ => Ok(None),
    }
}

// The name that an open call has bound, if one is open.
fn taken_name(alloc: Global, fids: &Names) -> Result<Option<Octets>, AllocError>
    ensures { IfOk result (λ name. name ≡ steps.taken_name fids.now.names) }
{
    if fids.is_bound(b".d") {
        return Ok(Some(Octets::from_slice(alloc, b".d")?));
    }
    if fids.is_bound(b".c") {
        return Ok(Some(Octets::from_slice(alloc, b".c")?));
    }
    if fids.is_bound(b".r") {
        return Ok(Some(Octets::from_slice(alloc, b".r")?));
    }
    if fids.is_bound(b".l") {
        return Ok(Some(Octets::from_slice(alloc, b".l")?));
    }
    Ok(None)
}

// Opens a file of the open call.
fn open(
    alloc: Global,
    fids: &Names,
    name: &[u8],
    file: FileName,
    mode: Mode,
) -> Result<Request, AllocError>
    ensures { IfOk result (λ q. q ≡ spec.opens_call_file name.now file mode
        (steps.fid_of steps.call_name fids.now.names)) }
{
    match fids.get(b".c") {
        Some(fid) => open_file(alloc, &Octets::from_slice(alloc, name)?, fid, file, mode),
        None => Ok(Request::Unbound {
            name: Octets::from_slice(alloc, b".c")?,
        }),
    }
}

// Reads the address that a file tells.
fn tell(alloc: Global, name: &[u8]) -> Result<Request, AllocError>
    ensures { IfOk result (λ q. q ≡ spec.tells_call name.now) }
{
    Ok(Request::Read {
        name: Octets::from_slice(alloc, name)?,
        count: 64,
    })
}

pub(crate) fn close(alloc: Global, name: &[u8]) -> Result<Request, AllocError>
    ensures { IfOk result (λ q. q ≡ spec.closes_call name.now) }
{
    Ok(Request::Close {
        name: Octets::from_slice(alloc, name)?,
    })
}
