//! The answers to messages without a step.
ghost use Rattle.std.specs.Prelude.{◌≡◌, ◌<◌, ◌≤◌, map, IfOk};
ghost use Rattle.net_base.specs.declared.ninep.Rmsg.TheVariants as r;
ghost use Rattle.session_script.specs.Seen.{seen_table};
ghost use Rattle.session_answers.specs.Found.{found_lines};
ghost use Rattle.net_base.specs.SessionAnswers as spec;
ghost use Rattle.net_base.specs.SessionFiles as files;
ghost use Rattle.net_base.specs.NinepMessages.{IsTmsg, longest, r_bytes};

use crate::found::Found;
use net_base::{FileName, Lines, Node, Octets, Proto, Sequence};
use ninep_wire::{Qid, Qids, Rmsg, Tmsg, encode_r};
use session_script::{Table, can_open, gives_nothing, is_cs, is_directory, step_to};
use std::alloc::{AllocError, Global};

/// No fid.
const NOFID: u32 = 0xffff_ffff;

/// The bytes of the answer to a message without a step.
pub fn said_bytes(
    alloc: Global,
    table: &Table,
    found: &Found,
    message: &Tmsg,
) -> Result<Octets, AllocError>
    requires message { IsTmsg message.now }
    requires short { table.now.msize ≤ longest }
    ensures { IfOk result (λ bytes. bytes ≡ r_bytes
        (spec.said_at_once (seen_table table.now) (found_lines found.now) message.now)) }
{
    let answer = said(alloc, table, found, message)?;
    encode_r(alloc, &answer)
}

// The answer to a message without a step.
fn said(alloc: Global, table: &Table, found: &Found, message: &Tmsg) -> Result<Rmsg, AllocError>
    ensures { IfOk result (λ m. m ≡ spec.said_at_once (seen_table table.now) (found_lines found.now) message.now) }
{
    match message {
        Tmsg::Version {
            tag,
            msize,
            version,
        } => version_answer(alloc, table, *tag, *msize, version),
        Tmsg::Auth { tag, .. } => error(alloc, *tag, b"not served"),
        Tmsg::Attach { tag, fid, afid, .. } => attach_answer(alloc, table, *tag, *fid, *afid),
        Tmsg::Flush { tag, .. } => Ok(Rmsg::Flush { tag: *tag }),
        Tmsg::Walk {
            tag,
            fid,
            newfid,
            names,
        } => walk_answer(alloc, table, *tag, *fid, *newfid, names),
        Tmsg::Open { tag, fid, mode } => open_answer(alloc, table, *tag, *fid, *mode),
        Tmsg::Read {
            tag,
            fid,
            offset,
            count,
        } => read_answer(alloc, table, found, *tag, *fid, *offset, *count),
        Tmsg::Write { tag, fid, .. } => known_error(alloc, table, *tag, *fid, b"bad use"),
        Tmsg::Clunk { tag, fid } => clunk_answer(alloc, table, *tag, *fid),
        Tmsg::Create { tag, fid, .. } => known_error(alloc, table, *tag, *fid, b"not served"),
        Tmsg::Remove { tag, fid } => known_error(alloc, table, *tag, *fid, b"not served"),
        Tmsg::Stat { tag, fid } => known_error(alloc, table, *tag, *fid, b"not served"),
        Tmsg::Wstat { tag, fid, .. } => known_error(alloc, table, *tag, *fid, b"not served"),
    }
}

/// An error with this text.
pub fn error(alloc: Global, tag: u16, text: &[u8]) -> Result<Rmsg, AllocError>
    ensures { IfOk result (λ m. m ≡ r.Error tag text.now) }
{
    let ename = Octets::from_slice(alloc, text)?;
    Ok(Rmsg::Error { tag, ename })
}

// An error with this text, where the fid is known.
fn known_error(
    alloc: Global,
    table: &Table,
    tag: u16,
    fid: u32,
    text: &[u8],
) -> Result<Rmsg, AllocError>
    ensures { IfOk result (λ m. m ≡ spec.of_known tag ((seen_table table.now).fids fid) (λ f. r.Error tag text.now)) }
{
    match table.fids.get(fid) {
        Some(_) => error(alloc, tag, text),
        None => error(alloc, tag, b"bad fid"),
    }
}

fn version_answer(
    alloc: Global,
    table: &Table,
    tag: u16,
    msize: u32,
    version: &Octets,
) -> Result<Rmsg, AllocError>
    ensures { IfOk result (λ m. m ≡ spec.version_answer (seen_table table.now) tag msize version.now) }
{
    if !table.is_first || msize < 256 {
        return error(alloc, tag, b"bad use");
    }
    let version = Octets::from_slice(alloc, spoken(version.as_slice()))?;
    Ok(Rmsg::Version {
        tag,
        msize: msize.min(table.msize),
        version,
    })
}

// `unknown` for another version.
fn spoken(version: &[u8]) -> &'static [u8]
    ensures { result.now ≡ spec.spoken version.now }
{
    if version == b"9P2000".as_slice() {
        b"9P2000"
    } else {
        b"unknown"
    }
}

fn attach_answer(
    alloc: Global,
    table: &Table,
    tag: u16,
    fid: u32,
    afid: u32,
) -> Result<Rmsg, AllocError>
    ensures { IfOk result (λ m. m ≡ spec.attach_answer (seen_table table.now) tag fid afid) }
{
    if afid != NOFID {
        return error(alloc, tag, b"not served");
    }
    if table.fids.get(fid).is_some() {
        return error(alloc, tag, b"bad use");
    }
    let qid = qid_of(Node::Root);
    Ok(Rmsg::Attach { tag, qid })
}

fn walk_answer(
    alloc: Global,
    table: &Table,
    tag: u16,
    fid: u32,
    newfid: u32,
    names: &Lines,
) -> Result<Rmsg, AllocError>
    ensures { IfOk result (λ m. m ≡ spec.of_known tag ((seen_table table.now).fids fid)
        (spec.walk_answer (seen_table table.now) tag fid newfid names.now)) }
{
    let Some(target) = table.fids.get(fid) else {
        return error(alloc, tag, b"bad fid");
    };
    if fid != newfid && table.fids.get(newfid).is_some() {
        return error(alloc, tag, b"bad fid");
    }
    if target.is_used {
        return error(alloc, tag, b"bad use");
    }
    let qids = walked(alloc, target.node, names)?;
    if qids.len() == 0 && names.len() > 0 {
        return error(alloc, tag, b"nofile");
    }
    Ok(Rmsg::Walk { tag, qids })
}

// The qids of what a walk passes, as far as its names are found.
fn walked(alloc: Global, node: Node, names: &Lines) -> Result<Qids, AllocError>
    ensures { IfOk result (λ qids. qids ≡ map files.qid_of (files.walked node names.now)) }
{
    let mut qids = Sequence::new(alloc);
    let mut at = node;
    for name in names.as_slice() {
        let Some(next) = step_to(alloc, at, name.as_slice())? else {
            return Ok(qids);
        };
        qids.push(qid_of(next))?;
        at = next;
    }
    Ok(qids)
}

// Of cs and of a directory.
fn open_answer(
    alloc: Global,
    table: &Table,
    tag: u16,
    fid: u32,
    mode: u8,
) -> Result<Rmsg, AllocError>
    ensures { IfOk result (λ m. m ≡ spec.of_known tag ((seen_table table.now).fids fid) (spec.open_answer tag mode)) }
{
    let Some(target) = table.fids.get(fid) else {
        return error(alloc, tag, b"bad fid");
    };
    if !can_open(target.node, mode) {
        return error(alloc, tag, b"badmode");
    }
    let qid = qid_of(target.node);
    Ok(Rmsg::Open {
        tag,
        qid,
        iounit: 0,
    })
}

fn read_answer(
    alloc: Global,
    table: &Table,
    found: &Found,
    tag: u16,
    fid: u32,
    offset: u64,
    count: u32,
) -> Result<Rmsg, AllocError>
    ensures { IfOk result (λ m. m ≡ spec.of_used tag ((seen_table table.now).fids fid)
        (spec.read_answer (seen_table table.now) (found_lines found.now) tag fid offset count)) }
{
    let Some(target) = table.fids.get(fid) else {
        return error(alloc, tag, b"bad fid");
    };
    if !target.is_used {
        return error(alloc, tag, b"bad use");
    }
    if gives_nothing(target.node, offset, count) {
        let bytes = Octets::new(alloc);
        return Ok(Rmsg::Read { tag, bytes });
    }
    if !is_cs(target.node) {
        return error(alloc, tag, b"not served");
    }
    let lines = piece(found.get(fid), offset, table.room(count));
    let bytes = Octets::from_slice(alloc, lines)?;
    Ok(Rmsg::Read { tag, bytes })
}

/// So many bytes from the offset on.
pub fn piece(bytes: &[u8], offset: u64, most: u32) -> &[u8]
    ensures { result.now ≡ spec.piece offset most bytes.now }
{
    if bytes.len() as u64 <= offset {
        return &[];
    }
    let rest = &bytes[offset as usize..];
    if rest.len() <= most as usize {
        rest
    } else {
        &rest[..most as usize]
    }
}

fn clunk_answer(alloc: Global, table: &Table, tag: u16, fid: u32) -> Result<Rmsg, AllocError>
    ensures { IfOk result (λ m. m ≡ spec.of_known tag ((seen_table table.now).fids fid) (λ f. r.Clunk tag)) }
{
    match table.fids.get(fid) {
        Some(_) => Ok(Rmsg::Clunk { tag }),
        None => error(alloc, tag, b"bad fid"),
    }
}

/// The qid of a node.
pub fn qid_of(node: Node) -> Qid
    ensures { result ≡ files.qid_of node }
{
    let kind = if is_directory(node) { 128 } else { 0 };
    Qid {
        kind,
        version: 0,
        path: qid_number(node),
    }
}

fn qid_number(node: Node) -> u64
    ensures { result ≡ files.qid_number node }
{
    match node {
        Node::Root => 0,
        Node::Cs => 1,
        Node::Proto(proto) => 2 + proto_number(proto),
        Node::Clone(proto) => 4 + proto_number(proto),
        Node::Dir(proto, slot) => dir_number(proto, slot),
        Node::File(proto, slot, file) => dir_number(proto, slot) + file_number(file),
    }
}

fn dir_number(proto: Proto, slot: u32) -> u64
    ensures { result ≡ files.dir_number proto slot }
{
    16 * (1 + 32 * proto_number(proto) + slot as u64)
}

fn proto_number(proto: Proto) -> u64
    ensures { result ≡ files.proto_number proto }
{
    match proto {
        Proto::Il => 0,
        Proto::Udp => 1,
    }
}

fn file_number(file: FileName) -> u64
    ensures { result ≡ files.file_number file }
{
    match file {
        FileName::Ctl => 1,
        FileName::Data => 2,
        FileName::Err => 3,
        FileName::Listen => 4,
        FileName::Local => 5,
        FileName::Remote => 6,
        FileName::Status => 7,
    }
}
