//! The messages of a session's bytes.
ghost use Rattle.std.specs.Prelude.{◌≡◌, ◌<◌, ◌≤◌, ◌++◌, ℕ, true, List, length, option_to_list, IfOk, OnOk, IfSome, IfNone, IsErrOf};
ghost use Rattle.std.specs.List.{list_all};
ghost use Rattle.byteorder.specs.Endian.{little_number};
ghost use Rattle.net_base.specs.World.{is_step};
ghost use Rattle.net_base.specs.declared.ninep.Tmsg.{Tmsg as AnyTmsg};
ghost use Rattle.net_base.specs.NinepMessages.{SpellsT};
ghost use Rattle.net_base.specs.SessionScript as spec;
ghost use Rattle.net_base.specs.SessionScript.{AreMessages, Begins, IsBadStream, IsScript};
ghost use Rattle.session_script.specs.Seen.{seen_table};
ghost use Rattle.session_script.specs.Streams.{TakesBytes};

use crate::fault::ExportError;
use crate::scripts_can_be_said;
use crate::steps::step_of;
use crate::table::Table;
use byteorder::{ByteOrder, LittleEndian};
use net_base::{Sequence, Step, StepList};
use ninep_wire::{NinepError, Tmsg, decode_t};
use std::alloc::{AllocError, Global};
use words::are_bytes;

/// The script of a session with these bytes.
pub fn script_of(alloc: Global, bytes: &[u8]) -> Result<StepList, ExportError>
    ensures found { IfOk result (IsScript bytes.now) }
    ensures only { (ms : List AnyTmsg) → AreMessages bytes.now ms → IfOk result (λ steps. steps ≡ spec.script ms) }
    ensures bad { IsErrOf result ExportError.BadStream → IsBadStream bytes.now }
    ensures sayable { IfOk result (λ steps. list_all is_step steps ≡ true) }
{
    scripts_can_be_said();
    are_bytes(bytes);
    let mut table = Table::new(alloc);
    let mut steps = Sequence::new(alloc);
    let mut rest = bytes;
    while !rest.is_empty() {
        match add_step(alloc, &mut table, &mut steps, rest) {
            Ok(behind) => rest = behind,
            Err(error) => return Err(error),
        }
    }
    Ok(steps)
}

// Takes the first message, and gives the bytes behind it.
fn add_step<'a>(
    alloc: Global,
    table: &mut Table,
    steps: &mut StepList,
    bytes: &'a [u8],
) -> Result<&'a [u8], ExportError>
    ensures found { IfOk result (λ rest. TakesBytes (seen_table table.old) (seen_table table.new) steps.old steps.new
        bytes.now rest.now) }
    ensures shorter { IfOk result (λ rest. length rest.now < length bytes.now) }
    ensures bad { IsErrOf result ExportError.BadStream → (m : AnyTmsg) (rest : List ℕ)
        → Begins table.old.msize m bytes.now rest → ⊥ }
{
    match first_message(alloc, table.msize, bytes) {
        Ok((message, rest)) => match hear_first(alloc, table, steps, &message) {
            Ok(()) => Ok(rest),
            Err(_) => Err(ExportError::Memory),
        },
        Err(error) => Err(error),
    }
}

// Takes a message.
fn hear_first(
    alloc: Global,
    table: &mut Table,
    steps: &mut StepList,
    message: &Tmsg,
) -> Result<(), AllocError>
    ensures table { OnOk result (seen_table table.new ≡ spec.table_next (seen_table table.old) message.now) }
    ensures steps { OnOk result (steps.new ≡ steps.old ++ option_to_list
        (spec.message_step (seen_table table.old) message.now)) }
{
    let step = step_of(alloc, table, message)?;
    add(steps, step)?;
    table.hear(alloc, message)
}

// Adds a step, where there is one.
fn add(steps: &mut StepList, step: Option<Step>) -> Result<(), AllocError>
    ensures { OnOk result (steps.new ≡ steps.old ++ option_to_list step) }
{
    match step {
        Some(step) => steps.push(step),
        None => Ok(()),
    }
}

/// The message that the bytes begin with, which is no longer than this, and the bytes behind it.
pub fn first_message(alloc: Global, msize: u32, bytes: &[u8]) -> Result<(Tmsg, &[u8]), ExportError>
    ensures found { IfOk result (λ x. Begins msize x.0 bytes.now x.1.now) }
    ensures bad { IsErrOf result ExportError.BadStream → (m : AnyTmsg) (rest : List ℕ) → Begins msize m bytes.now rest
        → ⊥ }
{
    let Some(size) = size_of(msize, bytes) else {
        return Err(ExportError::BadStream);
    };
    let (front, rest) = bytes.split_at(size);
    match whole(alloc, front) {
        Ok(message) => Ok((message, rest)),
        Err(error) => Err(error),
    }
}

// How many bytes the first message has, where they are there and no more than this.
fn size_of(msize: u32, bytes: &[u8]) -> Option<usize>
    ensures told { IfSome result (λ size. (size ≡ little_number 4 bytes.now) × (size ≤ msize)
        × (size ≤ length bytes.now)) }
    ensures none { IfNone result (4 ≤ length bytes.now → little_number 4 bytes.now ≤ msize
        → little_number 4 bytes.now ≤ length bytes.now → ⊥) }
{
    if bytes.len() < 4 {
        return None;
    }
    let size = LittleEndian::read_u32(bytes);
    if msize < size || bytes.len() < size as usize {
        return None;
    }
    Some(size as usize)
}

// The message whose bytes these are.
fn whole(alloc: Global, bytes: &[u8]) -> Result<Tmsg, ExportError>
    ensures found { IfOk result (λ m. SpellsT m bytes.now) }
    ensures bad { IsErrOf result ExportError.BadStream → (m : AnyTmsg) → SpellsT m bytes.now → ⊥ }
{
    match decode_t(alloc, bytes) {
        Ok(message) => Ok(message),
        Err(NinepError::Memory) => Err(ExportError::Memory),
        Err(_) => Err(ExportError::BadStream),
    }
}
