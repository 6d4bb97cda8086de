//! What tasks go by in replies.
ghost use Rattle.std.specs.Prelude.{◌≡◌};
ghost use Rattle.net_base.specs.Steps as steps;
ghost use Rattle.script_task.specs.Fitting as fitting;

use net_base::{Lines, Reply};
use std::alloc::Global;

/// Whether the reply is one to an event that names what isn't open, or isn't so.
pub fn is_unopened(reply: &Reply) -> bool
    ensures { result ≡ fitting.is_unopened reply.now }
{
    match reply {
        Reply::BadFid | Reply::BadMode => true,
        _ => false,
    }
}

/// The lines of the reply, or none. It takes no memory.
pub fn lines_in(alloc: Global, reply: Reply) -> Lines
    ensures { result ≡ steps.reply_lines reply }
{
    match reply {
        Reply::Lines { lines } => lines,
        _ => Lines::new(alloc),
    }
}
