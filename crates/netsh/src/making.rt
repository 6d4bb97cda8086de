//! The command `make`.
ghost use Rattle.std.specs.Prelude.{◌≡◌, IfOk};
ghost use Rattle.netsh.specs.Built.{made};

use net_model::Answer;
use std::alloc::{AllocError, Global};
use world_writer::{make_world, write_world};

/// The text of the made world of so many messages.
pub fn make(alloc: Global, messages: u32) -> Result<Answer, AllocError>
    ensures { IfOk result (λ answer. answer ≡ made messages) }
{
    let world = make_world(alloc, messages)?;
    let text = write_world(alloc, &world)?;
    Ok(Answer::whole(text))
}
