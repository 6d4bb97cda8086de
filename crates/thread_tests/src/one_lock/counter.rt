//! A machine that counts.
use locked::Machine;
use net_base::{Event, Outcome, Reply, Work};
use std::alloc::AllocError;
use std::marker::Model;

/// It counts its events. Clauses see the count.
#[derive(Drop)]
pub struct Counter {
    pub count: u32,
}

impl Model for Counter {
    ghost use Rattle.std.specs.Prelude.{ℕ};

    ghost Value = { ℕ };

    ghost view = { λ c. c.count };
}

impl Machine for Counter {
    ghost use Rattle.std.specs.Prelude.{None};
    ghost use Rattle.thread_tests.specs.Counting.{count_work};

    ghost begin = { λ a. 0 };

    ghost answer = { λ s now work. count_work s work };

    ghost due_of = { λ s. None };

    ghost generation_of = { λ s. 0 };

    fn ready(&self, _now: u64, work: &Work) -> bool {
        match work.event {
            Event::Take => true,
            Event::Move { moment: _ } => true,
            Event::Await { generation } => u64::from(self.count) >= generation,
            _ => false,
        }
    }

    fn step(&mut self, _now: u64, _work: &Work) -> Result<Outcome, AllocError> {
        let count = self.count.wrapping_add(1);
        self.count = count;
        Ok(Outcome {
            reply: Reply::Count { count },
            copy: Some(Reply::Count { count }),
            emit: None,
            taken: None,
            ended: false,
        })
    }

    fn due(&self) -> Option<u64> {
        None
    }

    fn generation(&self) -> u64 {
        0
    }
}
