//! The words of protocols, files, modes, kinds, states and causes.
ghost use Rattle.std.specs.Prelude.{◌≡◌};
ghost use Rattle.net_base.specs.Paths as paths;
ghost use Rattle.net_base.specs.StateWords as states;
ghost use Rattle.net_base.specs.Transcript as transcript;

use net_base::{Cause, FileName, IlKind, Mode, Proto, StateName};

/// The name of a protocol.
pub fn proto_name(proto: Proto) -> &'static [u8]
    ensures { result.now ≡ paths.proto_name proto }
{
    match proto {
        Proto::Il => b"il",
        Proto::Udp => b"udp",
    }
}

/// The protocol of a name.
pub fn proto_named(word: &[u8]) -> Option<Proto>
    ensures { result ≡ paths.proto_named word.now }
{
    if word == b"il".as_slice() {
        Some(Proto::Il)
    } else if word == b"udp".as_slice() {
        Some(Proto::Udp)
    } else {
        None
    }
}

/// How a file is opened, by the word for it.
pub fn mode_named(word: &[u8]) -> Option<Mode>
    ensures { result ≡ paths.mode_named word.now }
{
    if word == b"r".as_slice() {
        Some(Mode::Read)
    } else if word == b"w".as_slice() {
        Some(Mode::Write)
    } else if word == b"rw".as_slice() {
        Some(Mode::Both)
    } else {
        None
    }
}

/// The name of a conversation's file.
pub fn file_name(file: FileName) -> &'static [u8]
    ensures { result.now ≡ paths.file_name file }
{
    match file {
        FileName::Ctl => b"ctl",
        FileName::Data => b"data",
        FileName::Err => b"err",
        FileName::Listen => b"listen",
        FileName::Local => b"local",
        FileName::Remote => b"remote",
        FileName::Status => b"status",
    }
}

/// The file of a name.
pub fn file_named(word: &[u8]) -> Option<FileName>
    ensures { result ≡ paths.file_named word.now }
{
    if word == b"ctl".as_slice() {
        Some(FileName::Ctl)
    } else if word == b"data".as_slice() {
        Some(FileName::Data)
    } else if word == b"err".as_slice() {
        Some(FileName::Err)
    } else if word == b"listen".as_slice() {
        Some(FileName::Listen)
    } else if word == b"local".as_slice() {
        Some(FileName::Local)
    } else if word == b"remote".as_slice() {
        Some(FileName::Remote)
    } else if word == b"status".as_slice() {
        Some(FileName::Status)
    } else {
        None
    }
}

/// How a file is opened.
pub fn mode_word(mode: Mode) -> &'static [u8]
    ensures { result.now ≡ transcript.mode_word mode }
{
    match mode {
        Mode::Read => b"r",
        Mode::Write => b"w",
        Mode::Both => b"rw",
    }
}

/// The kind of a message.
pub fn kind_word(kind: IlKind) -> &'static [u8]
    ensures { result.now ≡ transcript.kind_word kind }
{
    match kind {
        IlKind::Sync => b"sync",
        IlKind::Data => b"data",
        IlKind::DataQuery => b"dataquery",
        IlKind::Ack => b"ack",
        IlKind::Query => b"query",
        IlKind::State => b"state",
        IlKind::Close => b"close",
    }
}

/// A state's word.
pub fn state_word(state: StateName) -> &'static [u8]
    ensures { result.now ≡ states.state_word state }
{
    match state {
        StateName::Free => b"Free",
        StateName::Reserved => b"Reserved",
        StateName::Announced => b"Announced",
        StateName::Granted => b"Granted",
        StateName::Withdrawn => b"Withdrawn",
        StateName::Closed => b"Closed",
        StateName::Syncer => b"Syncer",
        StateName::Syncee => b"Syncee",
        StateName::Established => b"Established",
        StateName::Listening => b"Listening",
        StateName::Closing => b"Closing",
        StateName::Open => b"Open",
    }
}

/// A cause's text.
pub fn cause_text(cause: Cause) -> &'static [u8]
    ensures { result.now ≡ states.cause_text cause }
{
    match cause {
        Cause::Refused => b"connection refused",
        Cause::TimedOut => b"timed out",
        Cause::Hungup => b"hungup",
        Cause::ByPeer => b"hungup by peer",
    }
}
