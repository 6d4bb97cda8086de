//! The steps of messages.
ghost use Rattle.std.specs.Prelude.{◌≡◌, ◌==◌, ◌+◌, ℕ, min, IfOk};
ghost use Rattle.std.specs.List.{list_any};
ghost use Rattle.std.specs.Option.{option_and_then};
ghost use Rattle.net_base.specs.Paths as paths;
ghost use Rattle.net_base.specs.SessionScript as spec;
ghost use Rattle.net_base.specs.SessionTable as known;
ghost use Rattle.session_script.specs.Seen.{seen_table};

use crate::files::{access, is_cs, is_data, is_directory, is_plain, put_path};
use crate::table::Table;
use net_base::{FileName, Node, Octets, Step};
use ninep_wire::Tmsg;
use std::alloc::{AllocError, Global};
use words::put_decimal;

/// Where files but data end.
const TEXT_END: u64 = 65536;

/// The step of a message, if it has one.
pub fn step_of(alloc: Global, table: &Table, message: &Tmsg) -> Result<Option<Step>, AllocError>
    ensures { IfOk result (λ step. step ≡ spec.message_step (seen_table table.now) message.now) }
{
    match message {
        Tmsg::Open { fid, mode, .. } => open_step(alloc, table, *fid, *mode),
        Tmsg::Read {
            fid,
            offset,
            count,
            ..
        } => read_step(alloc, table, *fid, *offset, *count),
        Tmsg::Write { fid, bytes, .. } => write_step(alloc, table, *fid, bytes),
        Tmsg::Clunk { fid, .. } => close_step(alloc, table, *fid),
        Tmsg::Remove { fid, .. } => close_step(alloc, table, *fid),
        _ => Ok(None),
    }
}

/// The name of a fid in the script.
fn fid_name(alloc: Global, fid: u32) -> Result<Octets, AllocError>
    ensures { IfOk result (λ name. name ≡ spec.fid_name fid) }
{
    let mut name = Octets::from_slice(alloc, b"f")?;
    put_decimal(&mut name, fid as u64)?;
    Ok(name)
}

fn path_of(alloc: Global, node: Node) -> Result<Octets, AllocError>
    ensures { IfOk result (λ path. path ≡ paths.path_of node) }
{
    let mut path = Octets::new(alloc);
    put_path(&mut path, node)?;
    Ok(path)
}

fn open_step(alloc: Global, table: &Table, fid: u32, mode: u8) -> Result<Option<Step>, AllocError>
    ensures { IfOk result (λ step. step ≡ option_and_then (spec.open_step fid mode) ((seen_table table.now).fids fid)) }
{
    let Some(target) = table.fids.get(fid) else {
        return Ok(None);
    };
    if !is_plain(target.node) {
        return Ok(None);
    }
    let Some(mode) = access(mode) else {
        return Ok(None);
    };
    let name = fid_name(alloc, fid)?;
    let path = path_of(alloc, target.node)?;
    Ok(Some(Step::Open {
        name,
        path,
        mode: Some(mode),
    }))
}

/// Whether a read gives nothing, whatever the file: it asks for nothing, or it is behind the end of a file but data.
pub fn gives_nothing(node: Node, offset: u64, count: u32) -> bool
    ensures { result ≡ spec.gives_nothing node offset count }
{
    count == 0 || TEXT_END <= offset && !(is_data(node) || is_directory(node))
}

// How many bytes the step reads.
fn read_count(offset: u64, most: u32, node: Node) -> Option<u32>
    ensures { result ≡ spec.read_count offset most node }
{
    match node {
        Node::File(_, _, FileName::Data) => Some(most),
        Node::File(..) => Some(from_beginning(offset, most)),
        Node::Clone(_) => Some(from_beginning(offset, most)),
        _ => None,
    }
}

fn from_beginning(offset: u64, most: u32) -> u32
    ensures { result ≡ min spec.text_end (offset + most) }
{
    if TEXT_END <= offset {
        return 65536;
    }
    (offset + most as u64).min(TEXT_END) as u32
}

fn read_step(
    alloc: Global,
    table: &Table,
    fid: u32,
    offset: u64,
    count: u32,
) -> Result<Option<Step>, AllocError>
    ensures { IfOk result (λ step. step ≡ option_and_then (spec.read_step (seen_table table.now) fid offset count)
        (known.used (seen_table table.now) fid)) }
{
    let Some(target) = table.used(fid) else {
        return Ok(None);
    };
    if gives_nothing(target.node, offset, count) {
        return Ok(None);
    }
    let Some(count) = read_count(offset, table.room(count), target.node) else {
        return Ok(None);
    };
    let name = fid_name(alloc, fid)?;
    Ok(Some(Step::Read { name, count }))
}

fn has_newline(bytes: &[u8]) -> bool
    ensures { result ≡ list_any (λ (b : ℕ). b == 10) bytes.now }
{
    bytes.iter().any(|byte| *byte == b'\n')
}

// A query of cs: on one line, and not empty.
fn is_query(bytes: &[u8]) -> bool
    ensures { result ≡ spec.is_query bytes.now }
{
    0 < bytes.len() && !has_newline(bytes)
}

fn cs_step(bytes: &Octets) -> Result<Option<Step>, AllocError>
    ensures { IfOk result (λ step. step ≡ spec.cs_step bytes.now) }
{
    if !is_query(bytes.as_slice()) {
        return Ok(None);
    }
    let query = bytes.clone()?;
    Ok(Some(Step::Cs { query }))
}

fn write_step(
    alloc: Global,
    table: &Table,
    fid: u32,
    bytes: &Octets,
) -> Result<Option<Step>, AllocError>
    ensures { IfOk result (λ step. step ≡ option_and_then (spec.write_step fid bytes.now)
        (known.used (seen_table table.now) fid)) }
{
    let Some(target) = table.used(fid) else {
        return Ok(None);
    };
    if is_cs(target.node) {
        return cs_step(bytes);
    }
    let name = fid_name(alloc, fid)?;
    let text = bytes.clone()?;
    Ok(Some(Step::Writex { name, text }))
}

fn close_step(alloc: Global, table: &Table, fid: u32) -> Result<Option<Step>, AllocError>
    ensures { IfOk result (λ step. step ≡ option_and_then (spec.close_step fid)
        (known.used (seen_table table.now) fid)) }
{
    let Some(target) = table.used(fid) else {
        return Ok(None);
    };
    if !is_plain(target.node) {
        return Ok(None);
    }
    let name = fid_name(alloc, fid)?;
    Ok(Some(Step::Close { name }))
}
