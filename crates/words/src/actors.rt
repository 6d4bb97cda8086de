//! Actors.
ghost use Rattle.std.specs.Prelude.{◌≡◌, ◌++◌, OnOk};
ghost use Rattle.net_base.specs.Transcript.{actor_word};

use crate::names::proto_name;
use crate::number::put_decimal;
use net_base::{ActorName, Octets};
use std::alloc::AllocError;

/// Adds the name of an actor, as a history has it.
pub fn put_actor(out: &mut Octets, actor: ActorName) -> Result<(), AllocError>
    ensures { OnOk result (out.new ≡ out.old ++ actor_word actor) }
{
    match actor {
        ActorName::Desk(host) => {
            out.append(b"desk.")?;
            put_decimal(out, host as u64)
        }
        ActorName::Dir(host, proto) => {
            out.append(b"dir.")?;
            put_decimal(out, host as u64)?;
            out.append(b".")?;
            out.append(proto_name(proto))
        }
        ActorName::Conv(host, proto, slot) => {
            out.append(b"conv.")?;
            put_decimal(out, host as u64)?;
            out.append(b".")?;
            out.append(proto_name(proto))?;
            out.append(b".")?;
            put_decimal(out, slot as u64)
        }
        ActorName::Medium(number) => {
            out.append(b"medium.")?;
            put_decimal(out, number as u64)
        }
        ActorName::Clock => out.append(b"clock"),
    }
}
