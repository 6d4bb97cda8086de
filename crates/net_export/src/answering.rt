//! The answers to the messages of sessions.
ghost use Rattle.std.specs.Prelude.{◌≡◌, ◌<◌, List, Some, IfOk, length, slice_get};
ghost use Rattle.net_base.specs.declared.world.Script.{Script as AnyScript};
ghost use Rattle.net_base.specs.Legal.{IsLegal};
ghost use Rattle.net_export.specs.Answered.{AreAnswersOf, AreAnswersTo, ArePlayed, IsPlayed};
ghost use Rattle.net_base.specs.declared.ninep.Tmsg.{Tmsg as AnyTmsg};
ghost use Rattle.net_base.specs.SessionScript.{AreMessages};
ghost use Rattle.session_script.specs.InHistory as spec;

use crate::owing::owes_after;
use net_base::{Entries, Lines, World};
use session_answers::answers_by;
use session_script::{Session, Sessions};
use std::alloc::{AllocError, Global};

/// The answers to the messages of a session, which is this caller of a translated world, as far as the history has them.
pub fn answers<E: Entries>(
    alloc: Global,
    world: &World,
    bytes: &[u8],
    caller: u32,
    history: &E,
) -> Result<Lines, AllocError>
    requires session { spec.IsSessionOf world.now caller bytes.now }
    requires legal { IsLegal world.now (E.list history.now) }
    ensures { IfOk result (λ lines. (ms : List AnyTmsg) (s : AnyScript) → AreMessages bytes.now ms
        → slice_get world.now.scripts caller ≡ Some s
        → lines ≡ spec.answers_in_history world.now s.host ms caller (E.list history.now)) }
{
    let owes = owes_after(alloc, world, history, caller)?;
    answers_by(alloc, host_of(world, caller), bytes, caller, history, owes)
}

// The host of a script.
fn host_of(world: &World, caller: u32) -> u32
    requires { caller < length world.now.scripts }
    ensures { (s : AnyScript) → slice_get world.now.scripts caller ≡ Some s → result ≡ s.host }
{
    world.scripts.as_slice()[caller as usize].host
}

/// The answers of each session in turn, by a history of the translated world.
pub fn answers_by_caller<E: Entries>(
    alloc: Global,
    world: &World,
    sessions: &Sessions,
    history: &E,
) -> Result<Vec<Lines>, AllocError>
    requires played { ArePlayed world.now sessions.now }
    requires legal { IsLegal world.now (E.list history.now) }
    ensures { IfOk result (λ all. AreAnswersOf world.now (E.list history.now) sessions.now all.items) }
{
    let mut all = Vec::with_capacity(alloc, sessions.len())?;
    for session in sessions.as_slice() {
        let lines = answers_to(alloc, world, session, history)?;
        all.push(lines)?;
    }
    Ok(all)
}

// The answers of a session.
fn answers_to<E: Entries>(
    alloc: Global,
    world: &World,
    session: &Session,
    history: &E,
) -> Result<Lines, AllocError>
    requires played { IsPlayed world.now session.now }
    requires legal { IsLegal world.now (E.list history.now) }
    ensures { IfOk result (λ lines. AreAnswersTo world.now (E.list history.now) session.now lines) }
{
    answers(
        alloc,
        world,
        session.stream.as_slice(),
        session.place,
        history,
    )
}
