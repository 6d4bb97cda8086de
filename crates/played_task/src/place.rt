//! What is played in the places of scripts, of both kinds.

use crate::own::OwnTask;
use crate::script::ScriptTask;
use crate::whole::WholeTask;
use net_base::{Reply, Request};
use script_task::Names;
use std::alloc::{AllocError, Global};

/// What is played in the place of a script: the script itself, or a task of one's own.
#[derive(Drop)]
pub enum PlaceTask<'a, T> {
    Script(ScriptTask<'a>),
    Own(T),
}

impl<T: OwnTask> WholeTask for PlaceTask<'_, T> {
    ghost use Rattle.played_task.specs.PlaceLaws as laws;
    ghost use Rattle.played_task.specs.Places as spec;

    ghost asks = { spec.asks T.asks };

    ghost after = { spec.after T.after };

    ghost Goes = { spec.Goes T.asks T.after T.Keeps };

    ghost Plays = { spec.PlaysPlace };

    ghost asks_there = { laws.asks_there T.asks T.after T.Keeps T.keeps_on };

    ghost goes_there = { laws.goes_there T.asks T.after T.Keeps T.keeps_on };

    ghost plays_there = { laws.plays_there T.asks T.after T.Keeps T.keeps_on };

    ghost plays_on = { laws.plays_on T.asks T.after T.Keeps T.keeps_on };

    fn next(&self, alloc: Global, fids: &Names) -> Result<Option<Request>, AllocError> {
        match self {
            PlaceTask::Script(task) => WholeTask::next(task, alloc, fids),
            PlaceTask::Own(task) => task.next(alloc, fids),
        }
    }

    fn told(&mut self, alloc: Global, reply: Reply) -> Result<(), AllocError> {
        match self {
            PlaceTask::Script(task) => WholeTask::told(task, alloc, reply),
            PlaceTask::Own(task) => task.told(alloc, reply),
        }
    }

    fn finished(&self) -> usize {
        match self {
            PlaceTask::Script(task) => ScriptTask::finished(task),
            PlaceTask::Own(_) => 0,
        }
    }
}
