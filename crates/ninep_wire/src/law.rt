//! Laws of messages and their spellings.
ghost use Rattle.std.specs.Prelude.{◌≡◌, ◌<◌, ◌≤◌, ◌↔◌, ℕ, List, length, IfErr, IfOk};
ghost use Rattle.net_base.specs.declared.ninep.Rmsg.{Rmsg};
ghost use Rattle.net_base.specs.declared.ninep.Tmsg.{Tmsg};
ghost use Rattle.net_base.specs.NinepMessages.{SpellsR, SpellsT, longest, r_bytes, r_qids, t_bytes, t_names};

use crate::fault::NinepError;
use crate::put_answer::encode_r;
use crate::put_request::encode_t;
use crate::read_answer::decode_r;
use crate::read_request::decode_t;
use net_base::{Rmsg, Tmsg};
use std::alloc::Global;

/// Two requests are one exactly where their spellings are, and so are two answers.
pub fn one_spelling()
    ensures requests { (m n : Tmsg) (a b : List ℕ) → SpellsT m a → SpellsT n b → (m ≡ n) ↔ (a ≡ b) }
    ensures answers { (m n : Rmsg) (a b : List ℕ) → SpellsR m a → SpellsR n b → (m ≡ n) ↔ (a ≡ b) }
{}

/// A request that is written is read as what it was, unless memory runs out.
pub fn a_request_is_read(alloc: Global, message: &Tmsg) -> Result<Tmsg, NinepError>
    requires short { length (t_bytes message.now) ≤ longest }
    requires few { length (t_names message.now) < 17 }
    ensures same { IfOk result (λ m. m ≡ message.now) }
    ensures memory { IfErr result (λ e. e ≡ NinepError.Memory) }
{
    let bytes = encode_t(alloc, message)?;
    decode_t(alloc, bytes.as_slice())
}

/// An answer that is written is read as what it was, unless memory runs out.
pub fn an_answer_is_read(alloc: Global, message: &Rmsg) -> Result<Rmsg, NinepError>
    requires short { length (r_bytes message.now) ≤ longest }
    requires few { length (r_qids message.now) < 17 }
    ensures same { IfOk result (λ m. m ≡ message.now) }
    ensures memory { IfErr result (λ e. e ≡ NinepError.Memory) }
{
    let bytes = encode_r(alloc, message)?;
    decode_r(alloc, bytes.as_slice())
}
