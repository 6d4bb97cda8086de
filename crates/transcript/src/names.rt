//! Actors and optional numbers as words.
ghost use Rattle.std.specs.Prelude.{◌≡◌, ◌∷◌, ◌++◌, [], OnOk};
ghost use Rattle.net_base.specs.Transcript.{spaced, actor_word, number_or_dash};

use crate::line::{put_number, put_word};
use net_base::{ActorName, Octets};
use std::alloc::AllocError;
pub use words::{put_addr, put_ip_or_star, put_port_or_star};

/// A number, or a dash for none.
pub fn put_number_or_dash(out: &mut Octets, number: Option<u64>) -> Result<(), AllocError>
    ensures { OnOk result (out.new ≡ out.old ++ spaced (number_or_dash number ∷ [])) }
{
    match number {
        Some(n) => put_number(out, n),
        None => put_word(out, b"-"),
    }
}

/// The name of an actor.
pub fn put_actor(out: &mut Octets, actor: ActorName) -> Result<(), AllocError>
    ensures { OnOk result (out.new ≡ out.old ++ spaced (actor_word actor ∷ [])) }
{
    out.push(b' ')?;
    words::put_actor(out, actor)
}
