//! The world that a world with sessions is translated to.
ghost use Rattle.std.specs.Prelude.{◌≡◌, ◌<◌, List, length, IfOk, OnOk};
ghost use Rattle.net_base.specs.declared.world.Step.{Step as AnyStep};
ghost use Rattle.net_base.specs.World.{IsWorld};
ghost use Rattle.net_export.specs.Placed.{PutsSession};
ghost use Rattle.net_base.specs.SessionScript.{IsScript};
ghost use Rattle.session_script.specs.Worlds.{HaveStreams, IsTranslated};

use net_base::{Script, Sequence};
use session_script::{ExportError, Session, SessionWorld, script_of};
use std::alloc::{AllocError, Global};
use std::mem;

/// The world with the script of each session in its place, and the sessions.
pub fn translate(alloc: Global, told: SessionWorld) -> Result<SessionWorld, AllocError>
    requires world { IsWorld told.world }
    requires streams { HaveStreams told }
    ensures translated { IfOk result (λ now. IsTranslated told now.world) }
    ensures world { IfOk result (λ now. IsWorld now.world) }
    ensures sessions { IfOk result (λ now. now.sessions ≡ told.sessions) }
{
    let mut translated = told;
    put_scripts(alloc, &mut translated)?;
    Ok(translated)
}

// Puts the script of each session in its place.
fn put_scripts(alloc: Global, told: &mut SessionWorld) -> Result<(), AllocError>
    requires world { IsWorld told.old.world }
    requires streams { HaveStreams told.old }
    ensures translated { OnOk result (IsTranslated told.old told.new.world) }
    ensures world { OnOk result (IsWorld told.new.world) }
    ensures sessions { told.new.sessions ≡ told.old.sessions }
{
    let mut scripts = mem::replace(&mut told.world.scripts, Sequence::new(alloc)).into_vec();
    for session in told.sessions.as_slice() {
        put_script(alloc, &mut scripts, session)?;
    }
    told.world.scripts = Sequence::from_vec(scripts);
    Ok(())
}

// Puts a session's script in its place.
fn put_script(alloc: Global, scripts: &mut Vec<Script>, session: &Session) -> Result<(), AllocError>
    requires place { session.now.place < length scripts.old.items }
    requires stream { (steps : List AnyStep) × IsScript session.now.stream steps }
    ensures { OnOk result (PutsSession session.now scripts.old.items scripts.new.items) }
{
    match script_of(alloc, session.stream.as_slice()) {
        Ok(steps) => {
            scripts[session.place as usize].steps = steps;
            Ok(())
        }
        Err(ExportError::Memory) => Err(AllocError),
        Err(ExportError::BadStream) => unreachable!(),
    }
}
