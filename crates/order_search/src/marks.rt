//! Which entries are those of steps.
ghost use Rattle.std.specs.Prelude.{◌≡◌, map, replicate, None, IfOk};
ghost use Rattle.order_search.specs.Marks as spec;

use net_base::{Entry, World};
use std::alloc::{AllocError, Global};
use std::marker::Model;

/// The stamps of the last entry that a step recorded itself, and of the one before it.
#[derive(Clone, Copy, Debug)]
pub struct Latest {
    pub last: usize,
    pub before: Option<usize>,
}

/// The last entries of each step of a script.
#[derive(Drop)]
pub struct Row {
    steps: Vec<Option<Latest>>,
}

impl Model for Row {
    ghost use Rattle.std.specs.Prelude.{List, Option};
    ghost use Rattle.order_search.specs.declared.marks.Latest.{Latest};

    ghost Value = { List (Option Latest) };

    ghost view = { λ r. r.steps.items };
}

/// The last entries of each step of each script.
#[derive(Drop)]
pub struct Marks {
    rows: Vec<Row>,
}

impl Model for Marks {
    ghost use Rattle.std.specs.Prelude.{List, Option};
    ghost use Rattle.order_search.specs.declared.marks.Latest.{Latest};

    ghost Value = { List (List (Option Latest)) };

    ghost view = { λ m. m.rows.items };
}

impl Row {
    // That of a script with so many steps, which has no entries.
    fn new(alloc: Global, steps: usize) -> Result<Row, AllocError>
        ensures { IfOk result (λ row. row ≡ replicate steps None) }
    {
        Ok(Row {
            steps: vec![in alloc; None; steps]?,
        })
    }

    // A step recorded an entry.
    fn note(&mut self, step: usize, stamp: usize)
        ensures { self.new ≡ spec.row_noted self.old step stamp }
    {
        if self.steps.len() <= step {
            return;
        }
        let before = last_in(self.steps[step]);
        self.steps[step] = Some(Latest {
            last: stamp,
            before,
        });
    }

    fn at(&self, step: usize) -> Option<Latest>
        ensures { result ≡ spec.latest_of self.now step }
    {
        self.steps.get(step).copied()?
    }
}

impl Marks {
    /// Those of a run without entries.
    pub fn new(alloc: Global, world: &World) -> Result<Marks, AllocError>
        ensures { IfOk result (λ rows. rows ≡ map spec.blank_row world.now.scripts) }
    {
        let mut rows = Vec::new(alloc);
        for script in world.scripts.as_slice() {
            rows.push(Row::new(alloc, script.steps.len())?)?;
        }
        Ok(Marks { rows })
    }

    /// A step of a script recorded an entry.
    pub fn note(&mut self, script: usize, step: usize, stamp: usize)
        ensures { self.new ≡ spec.rows_noted self.old script step stamp }
    {
        if self.rows.len() <= script {
            return;
        }
        let row = &mut self.rows[script];
        row.note(step, stamp);
    }

    /// Notes an entry of a caller that is at a step, if nothing caused the entry.
    pub fn note_entry(&mut self, entry: &Entry, caller: usize, step: usize, stamp: usize)
        ensures { self.new ≡ spec.rows_with self.old entry.now.cites caller step stamp }
    {
        match entry.cites {
            Some(_) => {}
            None => self.note(caller, step, stamp),
        }
    }

    /// The last entries of a step of a script.
    pub fn at(&self, script: usize, step: usize) -> Option<Latest>
        ensures { result ≡ spec.latest_at self.now script step }
    {
        match self.rows.get(script) {
            Some(row) => row.at(step),
            None => None,
        }
    }
}

fn last_in(latest: Option<Latest>) -> Option<usize>
    ensures { result ≡ spec.last_in latest }
{
    match latest {
        Some(latest) => Some(latest.last),
        None => None,
    }
}
