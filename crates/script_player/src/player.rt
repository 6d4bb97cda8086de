//! The player of a script.
ghost use Rattle.std.specs.Prelude.{◌≡◌, ◌<◌, ◌⊎◌, ◌++◌, ◌∷◌, List, [], Some, true, IfOk, OnOk, OnErr, length, nat_lt, option_map};
ghost use Rattle.std.specs.Arc.{arc_value};
ghost use Rattle.net_base.specs.declared.reply.Reply.{Reply};
ghost use Rattle.net_base.specs.declared.world.Script.{Script};
ghost use Rattle.net_base.specs.declared.world.Step.{Step};
ghost use Rattle.net_base.specs.Next.{finished_by};
ghost use Rattle.net_base.specs.Steps.{Ask};
ghost use Rattle.net_base.specs.Versions.{Tuples, database_of};
ghost use Rattle.script_task.specs.Fitting.{fits};
ghost use Rattle.script_player.specs.Players as spec;

use ndb_index::IndexedVersions;
use net_base::{ActorName, Event, Left, Reply, Script};
use played_task::StepTask;
use script_task::{Effect, Names, Planned, Task, plan};
use std::alloc::{AllocError, Global};
use std::marker::Model;
use std::sync::Arc;

/// A script that is being played: how many steps are finished, what it is at, and the names that are bound.
///
/// The script is lent to each call, and is always the same one.
#[derive(Drop)]
pub struct Player {
    fids: Names,
    finished: usize,
    // the task of the step behind those, where it has begun
    task: Option<StepTask>,
    // what the reply to its next event does to the names, where it was asked for
    effect: Option<Effect>,
    // what the finished steps leave for later ones
    left: Left,
    alloc: Global,
}

impl Model for Player {
    ghost use Rattle.std.specs.Prelude.{IfSome};
    ghost use Rattle.script_task.specs.Effects.{EffectHasRoom};
    ghost use Rattle.script_player.specs.Players.{Playing};

    ghost Value = { Playing };

    ghost view = { λ p. record {
      holdings = p.fids;
      finished = p.finished;
      task = p.task;
      effect = p.effect;
      left = p.left;
    } };

    ghost invariant = { λ p. IfSome p.effect (λ e. EffectHasRoom e p.fids) };
}

impl Player {
    /// The player of a script of which nothing is recorded. It takes no memory.
    #[tactic(auto, using(crate::proofs::Played::starts))]
    pub fn new(alloc: Global, dbs: Arc<IndexedVersions, Global>) -> Player
        requires some { 0 < length (arc_value dbs) }
        ensures { (s : Script) → spec.IsAt (database_of (arc_value dbs) 0) s [] result }
    {
        Player {
            fids: Names::new(alloc, dbs),
            finished: 0,
            task: None,
            effect: None,
            left: Left::new(alloc),
            alloc,
        }
    }

    /// The names that are bound.
    pub fn fids(&self) -> &Names
        ensures { result.now ≡ self.now.holdings }
    {
        &self.fids
    }

    /// The next event of the script at its actor, or none where each step is finished.
    #[tactic(auto, using(crate::proofs::Played::next_right, crate::proofs::Played::begun_at, crate::proofs::Played::prepared_at))]
    pub fn next(&mut self, script: &Script) -> Result<Option<(ActorName, Event)>, AllocError>
        ensures event { (zone : Tuples) (rs : List Reply) → spec.IsAt zone script.now rs self.old
            → IfOk result (λ o. option_map spec.asked_event o ≡ spec.next_after zone script.now rs) }
        ensures same { (zone : Tuples) (rs : List Reply)
            → spec.IsAt zone script.now rs self.old → spec.IsAt zone script.now rs self.new }
    {
        self.begin(script)?;
        self.ask(script.host)
    }

    /// Takes the reply to the next event. Without memory it is where it was.
    #[tactic(auto, using(crate::proofs::Played::told_right, crate::proofs::Played::begun_at, crate::proofs::Played::expected_at))]
    pub fn told(&mut self, script: &Script, reply: Reply) -> Result<(), AllocError>
        ensures ok { (zone : Tuples) (rs : List Reply) (ask : Ask)
            → spec.IsAt zone script.now rs self.old → spec.next_after zone script.now rs ≡ Some ask
            → fits ask.event reply ≡ true → OnOk result (spec.IsAt zone script.now (rs ++ reply ∷ []) self.new) }
        ensures err { (zone : Tuples) (rs : List Reply) → spec.IsAt zone script.now rs self.old
            → OnErr result (spec.IsAt zone script.now rs self.new) }
    {
        self.expect(script)?;
        self.hear(reply)?;
        self.leave_step(script.steps.len());
        Ok(())
    }

    /// How many steps are finished.
    #[tactic(auto, using(crate::proofs::Played::finished_right))]
    pub fn finished(&self) -> usize
        ensures { (zone : Tuples) (s : Script) (rs : List Reply)
            → spec.IsAt zone s rs self.now → result ≡ finished_by zone rs s }
    {
        self.finished
    }

    /// Whether some step of the script isn't finished.
    #[tactic(auto, using(crate::proofs::Played::unfinished_right))]
    pub fn is_unfinished(&self, script: &Script) -> bool
        ensures { (zone : Tuples) (rs : List Reply) → spec.IsAt zone script.now rs self.now
            → result ≡ nat_lt 0 (length (spec.position_after zone script.now rs).left) }
    {
        self.finished < script.steps.len()
    }

    /// Forgets the step that it is at, of which no event has a reply.
    ///
    /// It is then the player of the script without this step and those that follow it.
    #[tactic(auto, using(crate::proofs::Played::forgotten))]
    pub fn forget(&mut self)
        ensures { (zone : Tuples) (s : Script) (later : List Step) (rs : List Reply)
            → spec.IsAt zone (spec.with_steps s later) rs self.old → spec.AreStepsFinished zone s rs
            → spec.IsAt zone s rs self.new }
    {
        self.task = None;
        self.effect = None;
    }

    // Begins the next step, where none has begun and one is left.
    fn begin(&mut self, script: &Script) -> Result<(), AllocError>
        ensures ok { OnOk result (self.new ≡ spec.begun_in script.now self.old) }
        ensures err { OnErr result (self.new ≡ self.old) }
    {
        if self.task.is_some() {
            return Ok(());
        }
        let Some(step) = script.steps.as_slice().get(self.finished) else {
            return Ok(());
        };
        let task = StepTask::new(self.alloc, step, &self.left)?;
        self.task = Some(task);
        self.effect = None;
        Ok(())
    }

    // The event of the step that it is at. It is then ready for the reply.
    fn ask(&mut self, host: u32) -> Result<Option<(ActorName, Event)>, AllocError>
        ensures event { IfOk result (λ o. option_map spec.asked_event o ≡ spec.asked_at host self.old) }
        ensures ok { OnOk result (self.new ≡ spec.prepared self.old) }
        ensures err { OnErr result (self.new ≡ self.old) }
    {
        let Some(task) = &self.task else {
            return Ok(None);
        };
        let Some(request) = task.next(self.alloc, &self.fids)? else {
            return Ok(None);
        };
        let Planned {
            actor,
            event,
            effect,
        } = plan(host, &self.fids, request);
        make_room(&mut self.fids, &effect)?;
        self.effect = Some(effect);
        Ok(Some((actor, event)))
    }

    // It is ready for the reply to the next event.
    #[tactic(auto, using(crate::proofs::Played::expected_none, crate::proofs::Played::expected_some))]
    fn expect(&mut self, script: &Script) -> Result<(), AllocError>
        ensures ok { OnOk result (self.new ≡ spec.expected_in script.now self.old) }
        ensures err { OnErr result ((self.new ≡ self.old) ⊎ (self.new ≡ spec.begun_in script.now self.old)) }
    {
        match self.effect {
            Some(_) => Ok(()),
            None => self.prepare(script),
        }
    }

    // Begins a step where none has begun, and asks for its next event.
    fn prepare(&mut self, script: &Script) -> Result<(), AllocError>
        ensures ok { OnOk result (self.new ≡ spec.prepared (spec.begun_in script.now self.old)) }
        ensures err { OnErr result ((self.new ≡ self.old) ⊎ (self.new ≡ spec.begun_in script.now self.old)) }
    {
        self.begin(script)?;
        match self.ask(script.host) {
            Ok(_) => Ok(()),
            Err(_) => Err(AllocError),
        }
    }

    // Its task and its names after a reply.
    fn hear(&mut self, reply: Reply) -> Result<(), AllocError>
        ensures ok { OnOk result (self.new ≡ spec.playing_heard self.old reply) }
        ensures err { OnErr result (self.new ≡ self.old) }
    {
        let Some(effect) = &self.effect else {
            return Ok(());
        };
        let Some(task) = &mut self.task else {
            return Ok(());
        };
        let opened = effect.opened(&reply);
        task.hear(self.alloc, reply, &mut self.left)?;
        if let Some(effect) = self.effect.take() {
            // there is room for the name
            let _ = effect.settle(&mut self.fids, opened);
        }
        Ok(())
    }

    // The step is finished, where its task is through.
    fn leave_step(&mut self, count: usize)
        ensures { self.new ≡ spec.left count self.old }
    {
        let Some(task) = &self.task else {
            return;
        };
        if task.is_through() && self.finished < count {
            self.finished += 1;
            self.task = None;
        }
    }
}

// Makes room for the name that is opened.
fn make_room(fids: &mut Names, effect: &Effect) -> Result<(), AllocError>
    ensures ok { OnOk result (fids.new ≡ spec.with_room effect.now fids.old) }
    ensures err { OnErr result (fids.new ≡ fids.old) }
{
    match effect {
        Effect::Opens { name, .. } => fids.reserve(name.as_slice()),
        _ => Ok(()),
    }
}
