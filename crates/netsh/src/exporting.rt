//! The commands over worlds with sessions: `translate` and `export`.
ghost use Rattle.std.specs.Prelude.{◌≡◌, ◌<◌, ◌≤◌, length, IfOk};
ghost use Rattle.netsh.specs.Built.{IsAnswer, IsExported, translation};
ghost use Rattle.net_base.specs.World.{IsWorld};
ghost use Rattle.net_base.specs.declared.world.World.{World as AnyWorld};
ghost use Rattle.net_export.specs.Answered.{ArePlayed};
ghost use Rattle.net_model.specs.Answers.{input_limit};
ghost use Rattle.net_model.specs.Words.{Export, Translate};
ghost use Rattle.session_script.specs.Worlds.{HaveHosts, HaveStreams, IsTranslated};

use crate::answer::of_export;
use agenda::RunError;
use net_base::World;
use net_export::{sessions_are_played, translate as translate_world};
use net_model::Answer;
use outside::Gate;
use session_script::{SessionWorld, Sessions};
use std::alloc::{AllocError, Global};
use std::mem;
use std::sync::Wait;
use std::thread::Threads;
use world_file::{WorldError, read_sessions, texts_of_sessions_say_one};
use world_writer::write_world;

/// The text of the world that a world with sessions is translated to.
pub fn translate(alloc: Global, input: &[u8]) -> Result<Answer, AllocError>
    requires { length input.now ≤ input_limit Translate }
    ensures { IfOk result (λ answer. IsAnswer Translate input.now answer) }
{
    texts_of_sessions_say_one();
    match read_sessions(alloc, input) {
        Ok(told) => translate_told(alloc, told),
        Err(WorldError::Bad { line, cause }) => Answer::bad_input(alloc, line, cause),
        Err(WorldError::Memory) => Err(AllocError),
    }
}

// The text of the world that this one is translated to.
fn translate_told(alloc: Global, told: SessionWorld) -> Result<Answer, AllocError>
    requires world { IsWorld told.world }
    requires streams { HaveStreams told }
    ensures { IfOk result (λ answer. (w : AnyWorld) × IsTranslated told w × (answer ≡ translation w)) }
{
    let translated = translate_world(alloc, told)?;
    let text = write_world(alloc, &translated.world)?;
    // the program ends after its one answer, and gives back all memory at once
    mem::forget(translated);
    Ok(Answer::whole(text))
}

/// What a run on so many workers over a world with sessions prints, with the answers of its sessions.
pub fn export_over<R: Threads + Wait + Sync, G: Gate + Sync>(
    rt: &R,
    alloc: Global,
    workers: u32,
    input: &[u8],
    gate: &G,
) -> Result<Answer, AllocError>
    requires limit { length input.now ≤ input_limit (Export workers) }
    requires some { 0 < workers }
    requires few { workers ≤ 16 }
    ensures { IfOk result (λ answer. IsAnswer (Export workers) input.now answer) }
{
    texts_of_sessions_say_one();
    match read_sessions(alloc, input) {
        Ok(told) => export_told(rt, alloc, workers, told, gate),
        Err(WorldError::Bad { line, cause }) => Answer::bad_input(alloc, line, cause),
        Err(WorldError::Memory) => Err(AllocError),
    }
}

// What a run over the translated world prints.
fn export_told<R: Threads + Wait + Sync, G: Gate + Sync>(
    rt: &R,
    alloc: Global,
    workers: u32,
    told: SessionWorld,
    gate: &G,
) -> Result<Answer, AllocError>
    requires world { IsWorld told.world }
    requires streams { HaveStreams told }
    requires hosts { HaveHosts told }
    requires some { 0 < workers }
    requires few { workers ≤ 16 }
    ensures { IfOk result (λ answer. (w : AnyWorld) × IsTranslated told w × IsExported w told.sessions answer) }
{
    sessions_are_played();
    let translated = translate_world(alloc, told)?;
    let answer = export_world(
        rt,
        alloc,
        workers,
        &translated.world,
        &translated.sessions,
        gate,
    );
    // the program ends after its one answer, and gives back all memory at once
    mem::forget(translated);
    answer
}

// What a run of a world on so many workers prints, with the answers of sessions that are scripts there.
fn export_world<R: Threads + Wait + Sync, G: Gate + Sync>(
    rt: &R,
    alloc: Global,
    workers: u32,
    world: &World,
    sessions: &Sessions,
    gate: &G,
) -> Result<Answer, AllocError>
    requires world { IsWorld world.now }
    requires played { ArePlayed world.now sessions.now }
    requires some { 0 < workers }
    requires few { workers ≤ 16 }
    ensures { IfOk result (λ answer. IsExported world.now sessions.now answer) }
{
    match agenda::run_in_books(rt, alloc, world, workers, gate) {
        Ok(run) => {
            let answer = of_export(rt, alloc, workers, world, sessions, &run);
            // the program ends behind its one answer, and gives back all memory at once
            mem::forget(run);
            answer
        }
        Err(RunError::Memory) => Err(AllocError),
    }
}
