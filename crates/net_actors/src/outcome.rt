//! What a step that emits nothing gives.
ghost use Rattle.std.specs.Prelude.{◌≡◌, None};
ghost use Rattle.net_base.specs.ActorStep.{replies};

use net_base::{Outcome, Reply};

/// The outcome of a reply, with an equal copy of it.
pub fn answered(reply: Reply, copy: Reply) -> Outcome
    requires { copy ≡ reply }
    ensures { result ≡ replies reply None }
{
    Outcome {
        reply,
        copy: Some(copy),
        emit: None,
        taken: None,
        ended: false,
    }
}
