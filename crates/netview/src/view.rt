//! What is shown of an input.
ghost use Rattle.std.specs.Prelude.{◌≡◌, ◌≤◌, IfOk, length};
ghost use Rattle.net_base.specs.Legal.{IsLegal, IsTimed};
ghost use Rattle.net_base.specs.World.{IsWorld};
ghost use Rattle.netview.specs.Commands.{view_read};
ghost use Rattle.netview.specs.Views.{IsAnswer, input_limit, medium_named, command_view};
ghost use Rattle.netview.specs.Words.{Show};

use crate::command::View;
use history_json::json_of;
use history_laws::a_fault_is_not_legal;
use history_words::words_of;
use net_base::{History, World};
use net_chart::{chart_of, chart_of_talks};
use net_model::Answer;
use net_page::page_of;
use netcheck::{CheckedInput, InputError, a_fault_is_one, check_input};
use pcapng::pcapng_of;
use replay_views::{capture_of, steps_of};
use std::alloc::{AllocError, Global};
use std::mem;

/// What is shown of an input, where a view of it is asked for.
pub fn view_over(alloc: Global, asked: View<'_>, input: &[u8]) -> Result<Answer, AllocError>
    requires { length input.now ≤ input_limit (Show (view_read asked)) }
    ensures { IfOk result (λ answer. IsAnswer (Show (view_read asked.entry)) input.now answer) }
{
    a_fault_is_one();
    a_fault_is_not_legal();
    match check_input(alloc, input) {
        Ok(read) => {
            let answer = show(alloc, asked, input, &read.world, &read.history);
            // the program ends behind its one answer, and gives back all memory at once
            mem::forget(read);
            answer
        }
        Err(InputError::Bad { line, cause }) => Answer::bad_input(alloc, line, cause),
        Err(InputError::Fault { stamp, rule }) => Answer::rule_broken(alloc, stamp, rule),
        Err(InputError::Memory) => Err(AllocError),
    }
}

/// What a view shows of a legal and timed history of a world.
fn show(
    alloc: Global,
    asked: View<'_>,
    input: &[u8],
    world: &World,
    history: &History,
) -> Result<Answer, AllocError>
    requires world { IsWorld world.now }
    requires legal { IsLegal world.now history.now }
    requires timed { IsTimed world.now history.now }
    ensures { IfOk result (λ answer. answer ≡ command_view (view_read asked.entry) input.now world.now history.now) }
{
    match asked {
        View::Capture => Ok(Answer::whole(capture_of(alloc, world, history, None)?)),
        View::CaptureOf(name) => match medium_named(world, name) {
            Some(medium) => Ok(Answer::whole(capture_of(alloc, world, history, Some(medium))?)),
            None => Answer::nothing(alloc),
        },
        View::CaptureInBlocks => Ok(Answer::whole(pcapng_of(alloc, world, history)?)),
        View::Json => Ok(Answer::whole(json_of(alloc, history)?)),
        View::Page { head, tail } => Ok(Answer::whole(page_of(
            alloc, head, tail, input, world, history,
        )?)),
        View::Chart => Ok(Answer::whole(chart_of(alloc, world, history)?)),
        View::ChartOfTalks => Ok(Answer::whole(chart_of_talks(alloc, world, history)?)),
        View::Steps => Ok(Answer::whole(steps_of(alloc, input, world, history)?)),
        View::Words => Ok(Answer::whole(words_of(alloc, world, history)?)),
    }
}

/// The number of the medium with a name.
fn medium_named(world: &World, name: &[u8]) -> Option<u32>
    ensures { result ≡ medium_named name.now world.now.media }
{
    for medium in world.media.as_slice() {
        if medium.name.as_slice() == name {
            return Some(medium.number);
        }
    }
    None
}
