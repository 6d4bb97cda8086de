//! What is left of calls: remote names and their fids.
ghost use Rattle.std.specs.Prelude.{◌≡◌, ◌+◌, IfOk, bytes_eq, length, not, option_copied, position};
ghost use Rattle.net_base.specs.Remotes as spec;
ghost use Rattle.net_import.specs.Marks.{remote_marked, marks};

use net_base::{Left, Remote};
use std::alloc::{AllocError, Global};

/// The remote file of a name.
pub(crate) fn remote_of<'a>(left: &'a Left, name: &[u8]) -> Option<&'a Remote>
    ensures { option_copied result ≡ spec.remote_of name.now left.now }
{
    left.remotes
        .as_slice()
        .iter()
        .find(|remote| remote.name.as_slice() == name)
}

/// Whether a remote file has the name.
pub fn is_remote(left: &Left, name: &[u8]) -> bool
    ensures { result ≡ spec.is_remote left.now name.now }
{
    left.remotes
        .as_slice()
        .iter()
        .any(|remote| remote.name.as_slice() == name)
}

/// The lowest fid from 1 that no remote file of the call has: of one number more than there are remote files one is free.
#[tactic(auto, using(crate::proofs::Marks::lowest))]
pub(crate) fn free_fid(alloc: Global, left: &Left, call: &[u8]) -> Result<u32, AllocError>
    ensures { IfOk result (λ fid. fid ≡ spec.free_fid left.now call.now) }
{
    let remotes = left.remotes.as_slice();
    let taken = taken_fids(alloc, remotes, call)?;
    match first_free(taken.as_slice()) {
        Some(place) if place < u32::MAX as usize => Ok(place as u32 + 1),
        _ => Err(AllocError),
    }
}

// Which fids from 1 on remote files of the call have, of one number more than there are remote files.
fn taken_fids(alloc: Global, remotes: &[Remote], call: &[u8]) -> Result<Vec<bool>, AllocError>
    ensures { IfOk result (λ taken. taken.items ≡ marks remotes.now call.now (length remotes.now + 1)) }
{
    let mut taken = Vec::from_elem(alloc, false, remotes.len() + 1)?;
    for remote in remotes {
        mark(&mut taken, remote, call);
    }
    Ok(taken)
}

// Marks the fid of a remote file of the call.
fn mark(taken: &mut Vec<bool>, remote: &Remote, call: &[u8])
    ensures { taken.new.items ≡ remote_marked taken.old.items remote.now call.now }
{
    if call == remote.call.as_slice() && 1 <= remote.fid && remote.fid as usize <= taken.len() {
        taken[remote.fid as usize - 1] = true;
    }
}

fn first_free(taken: &[bool]) -> Option<usize>
    ensures { result ≡ position not taken.now }
{
    taken.iter().position(|is_taken| !*is_taken)
}

/// The name is remote no longer. It takes no memory.
#[tactic(auto, using(crate::proofs::Forgotten::within, crate::proofs::Forgotten::forgets_more, crate::proofs::Forgotten::forgotten))]
pub(crate) fn forget(left: &mut Left, name: &[u8])
    ensures { left.new ≡ spec.without_remote name.now left.old }
{
    while let Some(place) = place_of(left, name) {
        left.remotes.remove(place);
    }
}

// Where a remote file has the name.
fn place_of(left: &Left, name: &[u8]) -> Option<usize>
    ensures { result ≡ position (λ r. bytes_eq name.now r.name) left.now.remotes }
{
    left.remotes
        .as_slice()
        .iter()
        .position(|remote| remote.name.as_slice() == name)
}
