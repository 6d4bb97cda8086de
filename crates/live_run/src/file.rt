//! The text of a run that has ended: its world, `%history`, its history and its summary.
ghost use Rattle.std.specs.Prelude.{◌≡◌, IfOk};
ghost use Rattle.live_run.specs.LiveRuns.{IsStatus, file_text};

use crate::live::Live;
use net_base::Octets;
use std::alloc::{AllocError, Global};
use transcript::{RunStatus, summary_by, text_of};
use world_writer::write_world;

/// Returns the text that `check` reads.
pub fn file_of(alloc: Global, live: &Live) -> Result<Octets, AllocError>
    requires { IsStatus live.now.world live.now.history live.now.end }
    ensures { IfOk result (λ text. text ≡ file_text live.now.world live.now.history) }
{
    let mut text = write_world(alloc, &live.world)?;
    text.append(b"%history\n")?;
    text.append(text_of(alloc, &live.history)?.as_slice())?;
    let status = RunStatus {
        answered: live.end.answered,
        end: Some(live.end.end),
    };
    text.append(summary_by(alloc, &live.world, &live.history, status)?.as_slice())?;
    Ok(text)
}
