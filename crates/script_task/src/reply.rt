//! What tasks go by in replies.
ghost use Rattle.std.specs.Prelude.{◌≡◌};
ghost use Rattle.net_base.specs.Steps as steps;
ghost use Rattle.script_task.specs.Fitting as fitting;

use net_base::Reply;

/// Whether the reply isn't a refusal.
pub fn is_accepted(reply: &Reply) -> bool
    ensures { result ≡ steps.is_accepted reply.now }
{
    match reply {
        Reply::Slot { .. } => true,
        Reply::Granted { .. } => true,
        Reply::Call { .. } => true,
        Reply::Opened { .. } => true,
        Reply::Ok => true,
        Reply::Left => true,
        Reply::Version { .. } => true,
        Reply::Bytes { .. } => true,
        Reply::Count { .. } => true,
        Reply::Lines { .. } => true,
        Reply::Names { .. } => true,
        _ => false,
    }
}

/// The bytes of the reply, or none.
pub fn bytes_in(reply: &Reply) -> &[u8]
    ensures { result.now ≡ steps.bytes_in reply.now }
{
    match reply {
        Reply::Bytes { bytes } => bytes.as_slice(),
        _ => &[],
    }
}

/// Whether the reply opens a file.
pub fn is_opening(reply: &Reply) -> bool
    ensures { result ≡ fitting.is_opening reply.now }
{
    match reply {
        Reply::Slot { .. } => true,
        Reply::Call { .. } => true,
        Reply::Opened { .. } => true,
        _ => false,
    }
}

/// Whether the reply grants a pair.
pub fn is_granted(reply: &Reply) -> bool
    ensures { result ≡ fitting.is_granted reply.now }
{
    match reply {
        Reply::Granted { .. } => true,
        _ => false,
    }
}
