//! The message that bytes spell, if they spell one.
ghost use Rattle.std.specs.Prelude.{◌≡◌, false, IfOk, IfSome};
ghost use Rattle.net_base.specs.NinepMessages.{SpellsR, SpellsT};
ghost use Rattle.net_base.specs.NinepReading.{read_r, read_t};
ghost use Rattle.ninep_wire.specs.declared.fault.NinepError.TheVariants as fault;

use crate::fault::NinepError;
use crate::read_answer::decode_r;
use crate::read_request::decode_t;
use net_base::{Rmsg, Tmsg};
use std::alloc::{AllocError, Global};

/// The request that the bytes spell, if they spell one.
pub fn request_in(alloc: Global, bytes: &[u8]) -> Result<Option<Tmsg>, AllocError>
    ensures read { IfOk result (λ found. found ≡ read_t bytes.now) }
    ensures spelled { IfOk result (λ found. IfSome found (λ m. SpellsT m bytes.now)) }
{
    match decode_t(alloc, bytes) {
        Ok(message) => Ok(Some(message)),
        Err(error) => {
            if is_memory(error) {
                return Err(AllocError);
            }
            Ok(None)
        }
    }
}

/// The answer that the bytes spell, if they spell one.
pub fn answer_in(alloc: Global, bytes: &[u8]) -> Result<Option<Rmsg>, AllocError>
    ensures read { IfOk result (λ found. found ≡ read_r bytes.now) }
    ensures spelled { IfOk result (λ found. IfSome found (λ m. SpellsR m bytes.now)) }
{
    match decode_r(alloc, bytes) {
        Ok(message) => Ok(Some(message)),
        Err(error) => {
            if is_memory(error) {
                return Err(AllocError);
            }
            Ok(None)
        }
    }
}

fn is_memory(error: NinepError) -> bool
    ensures { result ≡ false → error ≡ fault.Memory → ⊥ }
{
    match error {
        NinepError::Memory => true,
        _ => false,
    }
}
