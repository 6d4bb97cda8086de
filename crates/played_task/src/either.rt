//! Tasks of two kinds.

use crate::own::OwnTask;
use net_base::{Reply, Request};
use script_task::Names;
use std::alloc::{AllocError, Global};

/// A task of one of two kinds, since the tasks of a run have one type. For more kinds one of the two is such a type again.
#[derive(Debug, Drop)]
pub enum EitherTask<A, B> {
    One(A),
    Other(B),
}

impl<A: OwnTask, B: OwnTask> OwnTask for EitherTask<A, B> {
    ghost use Rattle.played_task.specs.Eithers as spec;

    ghost asks = { spec.asks A.asks B.asks };

    ghost after = { spec.after A.after B.after };

    ghost Keeps = { spec.Keeps A.Keeps B.Keeps };

    ghost keeps_on = { spec.keeps_on A.Keeps B.Keeps A.after B.after A.keeps_on B.keeps_on };

    fn next(&self, alloc: Global, names: &Names) -> Result<Option<Request>, AllocError> {
        match self {
            EitherTask::One(task) => task.next(alloc, names),
            EitherTask::Other(task) => task.next(alloc, names),
        }
    }

    fn told(&mut self, alloc: Global, reply: Reply) -> Result<(), AllocError> {
        match self {
            EitherTask::One(task) => task.told(alloc, reply),
            EitherTask::Other(task) => task.told(alloc, reply),
        }
    }
}
