//! The messages of importing steps, as bytes, and what their replies say.
ghost use Rattle.std.specs.Prelude.{◌≡◌, ◌≤◌, IfOk, length, true};
ghost use Rattle.net_base.specs.Addresses.{parts_at};
ghost use Rattle.net_base.specs.Imports as spec;
ghost use Rattle.net_base.specs.NinepMessages.{t_bytes};
ghost use Rattle.net_base.specs.Remotes as remotes;

use net_base::{Lines, Mode, Octets, Rmsg, Tmsg};
use ninep_wire::{answer_in, encode_t};
use std::alloc::{AllocError, Global};
use words::split_first;

/// No fid.
const NOFID: u32 = 0xffff_ffff;

/// The longest message that is agreed on.
const LONGEST: u32 = 512;

/// The tag of a version, and that of all other messages.
const NO_TAG: u16 = 0xffff;

const TAG: u16 = 1;

#[tactic(auto, using(crate::proofs::Lengths::version_short))]
pub(crate) fn version(alloc: Global) -> Result<Octets, AllocError>
    ensures { IfOk result (λ bytes. bytes ≡ t_bytes spec.version_message) }
{
    let version = Octets::from_slice(alloc, b"9P2000")?;
    let message = Tmsg::Version {
        tag: NO_TAG,
        msize: LONGEST,
        version,
    };
    encode_t(alloc, &message)
}

#[tactic(auto, using(crate::proofs::Lengths::attach_short))]
pub(crate) fn attach(alloc: Global) -> Result<Octets, AllocError>
    ensures { IfOk result (λ bytes. bytes ≡ t_bytes spec.attach_message) }
{
    let message = Tmsg::Attach {
        tag: TAG,
        fid: 0,
        afid: NOFID,
        uname: Octets::new(alloc),
        aname: Octets::new(alloc),
    };
    encode_t(alloc, &message)
}

/// A walk from the root by the names of a path.
#[tactic(auto, using(crate::proofs::Lengths::walk_few, crate::proofs::Lengths::walk_short))]
pub(crate) fn walk(alloc: Global, fid: u32, path: &[u8]) -> Result<Octets, AllocError>
    requires { remotes.is_remote_path path.now ≡ true }
    ensures { IfOk result (λ bytes. bytes ≡ t_bytes (spec.walk_message fid path.now)) }
{
    let names = path_names(alloc, path)?;
    let message = Tmsg::Walk {
        tag: TAG,
        fid: 0,
        newfid: fid,
        names,
    };
    encode_t(alloc, &message)
}

#[tactic(auto, using(crate::proofs::Lengths::open_short))]
pub(crate) fn open(alloc: Global, fid: u32, mode: Mode) -> Result<Octets, AllocError>
    ensures { IfOk result (λ bytes. bytes ≡ t_bytes (spec.open_message fid mode)) }
{
    let mode = mode_number(mode);
    encode_t(
        alloc,
        &Tmsg::Open {
            tag: TAG,
            fid,
            mode,
        },
    )
}

#[tactic(auto, using(crate::proofs::Lengths::read_short))]
pub(crate) fn read(alloc: Global, fid: u32, count: u32) -> Result<Octets, AllocError>
    ensures { IfOk result (λ bytes. bytes ≡ t_bytes (spec.read_message fid count)) }
{
    encode_t(
        alloc,
        &Tmsg::Read {
            tag: TAG,
            fid,
            offset: 0,
            count,
        },
    )
}

#[tactic(auto, using(crate::proofs::Lengths::write_short))]
pub(crate) fn write(alloc: Global, fid: u32, text: &[u8]) -> Result<Octets, AllocError>
    requires { length text.now ≤ 488 }
    ensures { IfOk result (λ bytes. bytes ≡ t_bytes (spec.write_message fid text.now)) }
{
    let bytes = Octets::from_slice(alloc, text)?;
    encode_t(
        alloc,
        &Tmsg::Write {
            tag: TAG,
            fid,
            offset: 0,
            bytes,
        },
    )
}

#[tactic(auto, using(crate::proofs::Lengths::clunk_short))]
pub(crate) fn clunk(alloc: Global, fid: u32) -> Result<Octets, AllocError>
    ensures { IfOk result (λ bytes. bytes ≡ t_bytes (spec.clunk_message fid)) }
{
    encode_t(alloc, &Tmsg::Clunk { tag: TAG, fid })
}

fn mode_number(mode: Mode) -> u8
    ensures { result ≡ spec.mode_number mode }
{
    match mode {
        Mode::Read => 0,
        Mode::Write => 1,
        Mode::Both => 2,
    }
}

// The names behind `/net`.
fn path_names(alloc: Global, path: &[u8]) -> Result<Lines, AllocError>
    ensures { IfOk result (λ names. names ≡ remotes.path_names path.now) }
{
    let (_, net) = split_first(path, b'/');
    let Some(net) = net else {
        return Ok(Lines::new(alloc));
    };
    let (_, names) = split_first(net, b'/');
    let Some(names) = names else {
        return Ok(Lines::new(alloc));
    };
    parts(alloc, names)
}

// What stands between the slashes of a text.
fn parts(alloc: Global, text: &[u8]) -> Result<Lines, AllocError>
    ensures { IfOk result (λ names. names ≡ parts_at 47 text.now) }
{
    let mut names = Lines::new(alloc);
    let mut rest = text;
    loop {
        let (name, behind) = split_first(rest, b'/');
        names.push(Octets::from_slice(alloc, name)?)?;
        let Some(behind) = behind else {
            return Ok(names);
        };
        rest = behind;
    }
}

// ---- replies

pub(crate) fn is_version(alloc: Global, text: &[u8]) -> Result<bool, AllocError>
    ensures { IfOk result (λ is. is ≡ spec.is_version text.now) }
{
    match answer_in(alloc, text)? {
        Some(Rmsg::Version { tag, .. }) => Ok(tag == NO_TAG),
        _ => Ok(false),
    }
}

/// Whether all names of the path were walked.
pub(crate) fn is_whole(alloc: Global, path: &[u8], text: &[u8]) -> Result<bool, AllocError>
    ensures { IfOk result (λ is. is ≡ spec.is_whole path.now text.now) }
{
    match answer_in(alloc, text)? {
        Some(Rmsg::Walk { tag, qids }) => {
            Ok(tag == TAG && path_names(alloc, path)?.len() <= qids.len())
        }
        _ => Ok(false),
    }
}

/// Whether it is the answer to an open that isn't refused.
pub fn is_open(alloc: Global, text: &[u8]) -> Result<bool, AllocError>
    ensures { IfOk result (λ is. is ≡ spec.is_open text.now) }
{
    match answer_in(alloc, text)? {
        Some(Rmsg::Open { tag, .. }) => Ok(tag == TAG),
        _ => Ok(false),
    }
}
