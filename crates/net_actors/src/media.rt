//! What a medium answers.
ghost use Rattle.std.specs.Prelude.{◌≡◌, ◌+◌, ◌^◌, ◌<◌, IfOk, IsTrue, OnErr, None, Some};
ghost use Rattle.net_base.specs.ActorStep.{replies};
ghost use Rattle.medium.specs.OnMedium.{IsPending};
ghost use Rattle.medium.specs.Replies.{NextHasText, laid_reply_of};
ghost use Rattle.net_actors.specs.Stepping.{MediumMayWant, MediumSteps, MediumTakes, medium_ready};

use crate::outcome::answered;
use medium::{Laid, Medium};
use net_base::{Event, Outcome, Reply, With, Work};
use std::alloc::AllocError;

/// Whether the medium has an answer.
pub fn is_ready(medium: &Medium, work: &Work) -> bool
    ensures { result ≡ medium_ready medium.now work.now }
{
    match (&work.event, &work.with) {
        (Event::Put { .. }, With::Packet(_)) => true,
        (Event::Take, _) => medium.pending(),
        _ => false,
    }
}

/// The answer to a put or a take.
pub fn step(medium: &mut Medium, work: &Work) -> Result<Outcome, AllocError>
    requires laid { medium.old.laid + 1 < 2 ^ 64 }
    requires ready { IsTrue (medium_ready medium.old work.now) }
    ensures ok { IfOk result (MediumSteps medium.old medium.new work.now) }
    ensures err { OnErr result (medium.new ≡ medium.old) }
    ensures memory { OnErr result (MediumMayWant medium.old work.now.event work.now.with) }
{
    match (&work.event, &work.with) {
        (Event::Put { to }, With::Packet(packet)) => Ok(laid_outcome(medium.put(*to, packet)?)),
        _ => take(medium),
    }
}

/// The next copy.
fn take(medium: &mut Medium) -> Result<Outcome, AllocError>
    requires { IsPending medium.old }
    ensures ok { IfOk result (MediumTakes medium.old medium.new) }
    ensures err { OnErr result (medium.new ≡ medium.old) }
    ensures memory { OnErr result (NextHasText medium.old) }
{
    let taken = medium.take()?;
    let frame = taken.frame;
    Ok(Outcome {
        reply: Reply::Copy { frame },
        copy: Some(Reply::Copy { frame }),
        emit: None,
        taken: Some(taken),
        ended: false,
    })
}

fn laid_outcome(laid: Laid) -> Outcome
    ensures { result ≡ replies (laid_reply_of laid) None }
{
    answered(reply_to(laid), reply_to(laid))
}

fn reply_to(laid: Laid) -> Reply
    ensures { result ≡ laid_reply_of laid }
{
    match laid {
        Laid::Frame(frame) => Reply::Laid { frame },
        Laid::NoStation => Reply::NoStation,
        Laid::TooBig => Reply::TooBig,
    }
}
