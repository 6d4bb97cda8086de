//! Why a line is invalid at its place.
ghost use Rattle.std.specs.Prelude.{◌≡◌, ◌+◌, ◌≤◌, None};
ghost use Rattle.live_lines.specs.Causes as spec;

use crate::action::Action;
use crate::cause::LiveCause;
use crate::line::LiveLine;

// The largest number of bytes of the accepted step lines, newlines included: 16 MiB.
const MOST: u128 = 16_777_216;

/// The state of a place, as far as it makes a line invalid.
#[derive(Clone, Copy, Debug, PartialEq, Eq)]
pub struct PlaceState {
    /// The place gets no more steps.
    pub ended: bool,
    /// The place has a current step of which the history has no entry.
    pub waits: bool,
}

/// Returns the smallest cause among 15, 17, 18 and 52 for which a line is invalid at its place.
///
/// `place` is `None` if the world has no such place. `accepted` counts the bytes of the accepted step lines with
/// their newlines, and `length` the bytes of this line without its newline.
pub fn cause_at(
    line: &LiveLine,
    place: Option<PlaceState>,
    accepted: u64,
    length: usize,
) -> Option<LiveCause>
    ensures cause { result ≡ spec.cause_at line.now place accepted length }
    ensures room { result ≡ None → spec.IsStep line.now.action → accepted + length + 1 ≤ 16777216 }
{
    let Some(place) = place else {
        return Some(LiveCause::NoPlace);
    };
    match &line.action {
        Action::Step { .. } => step_cause(place, accepted, length),
        Action::Cancel => cancel_cause(place),
        Action::End => end_cause(place),
    }
}

fn step_cause(place: PlaceState, accepted: u64, length: usize) -> Option<LiveCause>
    ensures cause { result ≡ spec.step_cause place accepted length }
    ensures room { result ≡ None → accepted + length + 1 ≤ 16777216 }
{
    if MOST < u128::from(accepted) + length as u128 + 1 {
        return Some(LiveCause::OverLimit);
    }
    end_cause(place)
}

fn end_cause(place: PlaceState) -> Option<LiveCause>
    ensures { result ≡ spec.end_cause place }
{
    if place.ended {
        Some(LiveCause::HasEnded)
    } else {
        None
    }
}

fn cancel_cause(place: PlaceState) -> Option<LiveCause>
    ensures { result ≡ spec.cancel_cause place }
{
    if place.waits {
        None
    } else {
        Some(LiveCause::NoStep)
    }
}
