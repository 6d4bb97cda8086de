//! The steps of a place that have not begun.
ghost use Rattle.std.specs.Prelude.{◌≡◌, ◌∷◌, ◌++◌, [], true, IfSome, OnOk};
ghost use Rattle.net_base.specs.StepWords.{is_step};

use net_base::Step;
use std::alloc::{AllocError, Global};
use std::collections::VecDeque;
use std::marker::Model;

/// Steps in the order of their lines, with their deadlines in ms. Each step is one that a line of a world file can have.
#[derive(Drop)]
pub struct StepQueue {
    steps: VecDeque<Step>,
    deadlines: VecDeque<Option<u64>>,
}

impl Model for StepQueue {
    ghost use Rattle.std.specs.Prelude.{◌≡◌, List, true};
    ghost use Rattle.std.specs.List.{list_all};
    ghost use Rattle.net_base.specs.declared.world.Step.{Step as AnyStep};
    ghost use Rattle.net_base.specs.StepWords.{is_step};

    ghost Value = { List AnyStep };

    ghost view = { λ q. q.steps.items };

    ghost invariant = { λ q. list_all is_step q.steps.items ≡ true };
}

impl StepQueue {
    /// A queue without steps. It takes no memory yet.
    pub fn new(alloc: Global) -> StepQueue
        ensures { result ≡ [] }
    {
        StepQueue {
            steps: VecDeque::new(alloc),
            deadlines: VecDeque::new(alloc),
        }
    }

    /// Whether no step waits.
    pub fn is_empty(&self) -> bool {
        self.steps.is_empty()
    }

    /// How many steps wait.
    pub fn len(&self) -> usize {
        self.steps.len()
    }

    /// Adds a step after the others.
    pub fn push(&mut self, step: Step, by: Option<u64>) -> Result<(), AllocError>
        requires { is_step step ≡ true }
        ensures ok { OnOk result (self.new ≡ self.old ++ step ∷ []) }
    {
        self.steps.reserve(1)?;
        self.deadlines.reserve(1)?;
        self.steps.push_back_reserved(step);
        self.deadlines.push_back_reserved(by);
        Ok(())
    }

    /// Takes the first step, with its deadline.
    pub fn pop(&mut self) -> Option<(Step, Option<u64>)>
        ensures step { IfSome result (λ taken. is_step taken.0 ≡ true) }
    {
        let step = self.steps.pop_front()?;
        let by = self.deadlines.pop_front().unwrap_or(None);
        Some((step, by))
    }
}
