//! A live run from its world to OUT and the status.
ghost use Rattle.std.specs.Prelude.{◌≡◌, ℕ, List, Option, IfOk};
ghost use Rattle.net_base.specs.declared.world.World.{World as AnyWorld};
ghost use Rattle.net_base.specs.World.{IsWorld};
ghost use Rattle.live_answers.specs.Speech.{speech};
ghost use Rattle.live_run.specs.Heard.{AreTold};
ghost use Rattle.live_run.specs.LiveRuns.{IsLive, IsStatus};
ghost use Rattle.netlive.specs.Ends as spec;
ghost use Rattle.netlive.specs.Ends.{Ends, IsFresh};

use live_answers::Voice;
use live_lines::LineReader;
use live_run::{Live, LiveEnd, file_of, run_live};
use net_base::{RunEnd, World};
use net_model::{Answer, tell_answer};
use outside::{Sink, Source, TakeError, read_to_end, write_all};
use std::alloc::{AllocError, Global};
use world_file::{WorldError, read_world};

/// The most bytes of a world, 4 MiB.
const INPUT_LIMIT: usize = 4_194_304;

/// Reads the world, or answers why it is none and gives the status.
pub fn read_given<S: Source, K: Sink>(
    alloc: Global,
    source: &mut S,
    sink: &mut K,
) -> Result<World, u8>
    ensures { IfOk result IsWorld }
{
    let text = match read_to_end(alloc, source, INPUT_LIMIT) {
        Ok(text) => text,
        Err(error) => return Err(tell_answer(sink, Err(error))),
    };
    match read_world(alloc, text.as_slice()) {
        Ok(world) => Ok(world),
        Err(WorldError::Bad { line, cause }) => Err(refuse(alloc, sink, line, cause)),
        Err(WorldError::Memory) => Err(tell_answer(sink, Err(TakeError::Memory))),
    }
}

// Answers that a line of the world is invalid.
fn refuse<K: Sink>(alloc: Global, sink: &mut K, line: u64, cause: u32) -> u8 {
    match Answer::bad_input(alloc, line, cause) {
        Ok(answer) => tell_answer(sink, Ok(answer)),
        Err(AllocError) => tell_answer(sink, Err(TakeError::Memory)),
    }
}

/// Plays a world with the lines of a source, in rounds or in an order of turns that is drawn from a seed. Reports by a voice, writes OUT,
/// and gives the status.
pub fn serve<S: Source, K: Sink, O: Sink>(
    alloc: Global,
    world: World,
    seed: Option<u64>,
    source: &mut S,
    voice: &mut Voice<K>,
    out: &mut O,
) -> u8
    requires world { IsWorld world }
    requires fresh { IsFresh (speech K.held voice.old) }
    ensures { Ends world
        (record {
          held = O.held out.old;
          holds = O.held out.new;
          before = O.faults out.old;
          after = O.faults out.new;
        }) (K.held voice.old.sink) (speech K.held voice.new) result }
{
    let mut reader = LineReader::new(source);
    let Ok(ended) = run_live(alloc, world, seed, &mut reader, voice) else {
        return 8;
    };
    tell_run(alloc, &ended, reader.has_failed(), voice, out)
}

// Writes OUT, and then the last line. Gives the status.
fn tell_run<K: Sink, O: Sink>(
    alloc: Global,
    ended: &Live,
    unread: bool,
    voice: &mut Voice<K>,
    out: &mut O,
) -> u8
    requires { IsStatus ended.now.world ended.now.history ended.now.end }
    ensures { (first : AnyWorld) (before : Option (List ℕ)) → IsLive first ended.now
        → AreTold first before ended.now.history (speech K.held voice.old) → Ends first
        (record {
          held = O.held out.old;
          holds = O.held out.new;
          before = O.faults out.old;
          after = O.faults out.new;
        }) before (speech K.held voice.new) result }
{
    let Ok(text) = file_of(alloc, ended) else {
        return 8;
    };
    if write_all(out, text.as_slice()).is_err() {
        return 7;
    }
    let LiveEnd { end, moment, .. } = ended.end;
    if voice.say_end(alloc, end, moment).is_err() {
        return 8;
    }
    final_status(end, unread, voice.has_failed())
}

fn final_status(end: RunEnd, unread: bool, unwritten: bool) -> u8
    ensures { result ≡ spec.final_status end unread unwritten }
{
    if unwritten {
        return 7;
    }
    if unread {
        return 6;
    }
    end_status(end)
}

fn end_status(end: RunEnd) -> u8
    ensures { result ≡ spec.end_status end }
{
    match end {
        RunEnd::Done => 0,
        RunEnd::Stopped => 3,
        RunEnd::Limit => 4,
    }
}
