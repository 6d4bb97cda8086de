//! A session as far as it was served.
ghost use Rattle.std.specs.Prelude.{◌≡◌, ◌≤◌, ◌&&◌, [], IfOk, OnOk, IfSome, Some, option_copied};
ghost use Rattle.net_base.specs.declared.world.Step.TheVariants as step;
ghost use Rattle.net_base.specs.Steps as steps;
ghost use Rattle.net_base.specs.NinepMessages.{IsTmsg, longest};
ghost use Rattle.script_task.specs.Effects.{opened_file, settles_effect};
ghost use Rattle.session_answers.specs.Found.{found_lines};
ghost use Rattle.session_answers.specs.Served.{IsServed, Reaches, asked_request, is_grant, served, session_state};
ghost use Rattle.session_answers.specs.Told as told;
ghost use Rattle.session_script.specs.Seen.{seen_table};
ghost use Rattle.net_base.specs.SessionAnswers.{found_after, found_by};
ghost use Rattle.net_base.specs.SessionScript.{table_next};
ghost use Rattle.net_base.specs.Server.{Gives, outcome_by};
ghost use Rattle.net_base.specs.Session as spec;

use crate::found::Found;
use crate::replied::replied_bytes;
use crate::replies::Replies;
use crate::said::said_bytes;
use ndb_index::IndexedVersions;
use net_base::{Db, Entries, Event, Mode, Octets, Reply, Step, Version};
use ninep_wire::Tmsg;
use script_task::{Effect, Names, Request, effects_settle, is_accepted, plan};
use session_script::{Table, step_of};
use std::alloc::{AllocError, Global};
use std::sync::Arc;

/// What was heard, the lines of cs, and the names that the script has bound.
#[derive(Drop)]
pub struct Session {
    pub table: Table,
    pub found: Found,
    pub names: Names,
    pub host: u32,
    alloc: Global,
}

impl Session {
    /// A session of a host before its first message.
    pub fn new(alloc: Global, host: u32) -> Result<Session, AllocError>
        ensures state { IfOk result (λ s. session_state s ≡ spec.first) }
        ensures host { IfOk result (λ s. s.host ≡ host) }
    {
        Ok(Session {
            table: Table::new(alloc),
            found: Found::new(alloc),
            names: no_names(alloc)?,
            host,
            alloc,
        })
    }

    /// Serves a message: the bytes of its answer, or none where its step isn't answered.
    pub fn serve<E: Entries>(
        &mut self,
        message: &Tmsg,
        replies: &mut Replies<'_, E>,
    ) -> Result<Option<Octets>, AllocError>
        requires message { IsTmsg message.now }
        requires short { self.old.table.msize ≤ longest }
        ensures served { IfOk result (λ answer.
            outcome_by ((told.session_of self.old.host).serves (session_state self.old) message.now) replies.old
            ≡ served answer (session_state self.new) replies.new) }
        ensures heard { IfOk result (λ answer. IfSome answer
            (λ bytes. seen_table self.new.table ≡ table_next (seen_table self.old.table) message.now)) }
        ensures host { self.new.host ≡ self.old.host }
    {
        match step_of(self.alloc, &self.table, message)? {
            None => Ok(Some(self.tell(message)?)),
            Some(step) => self.play_and_answer(step, message, replies),
        }
    }

    // The answer to a message without a step.
    fn tell(&mut self, message: &Tmsg) -> Result<Octets, AllocError>
        requires message { IsTmsg message.now }
        requires short { self.old.table.msize ≤ longest }
        ensures told { IfOk result (λ answer. spec.told (session_state self.old) message.now
            ≡ Gives answer (session_state self.new)) }
        ensures heard { OnOk result (seen_table self.new.table ≡ table_next (seen_table self.old.table) message.now) }
        ensures host { self.new.host ≡ self.old.host }
    {
        let bytes = said_bytes(self.alloc, &self.table, &self.found, message)?;
        self.hear(message)?;
        Ok(bytes)
    }

    // Plays the step of a message and answers it.
    fn play_and_answer<E: Entries>(
        &mut self,
        step: Step,
        message: &Tmsg,
        replies: &mut Replies<'_, E>,
    ) -> Result<Option<Octets>, AllocError>
        requires message { IsTmsg message.now }
        requires short { self.old.table.msize ≤ longest }
        requires step { IsServed step }
        ensures served { IfOk result (λ answer.
            outcome_by (told.steps_by self.old.host (session_state self.old) message.now (Some step)) replies.old
            ≡ served answer (session_state self.new) replies.new) }
        ensures heard { IfOk result (λ answer. IfSome answer
            (λ bytes. seen_table self.new.table ≡ table_next (seen_table self.old.table) message.now)) }
        ensures host { self.new.host ≡ self.old.host }
    {
        match self.play(step, replies)? {
            None => Ok(None),
            Some(reply) => Ok(Some(self.answer(message, reply)?)),
        }
    }

    // The answer to a message by the last reply of its step.
    fn answer(&mut self, message: &Tmsg, reply: &Reply) -> Result<Octets, AllocError>
        requires message { IsTmsg message.now }
        requires short { self.old.table.msize ≤ longest }
        ensures told { IfOk result (λ answer.
            told.last_by (session_state self.old) message.now self.old.names.names (Some reply.now)
            ≡ Gives answer (session_state self.new)) }
        ensures heard { OnOk result (seen_table self.new.table ≡ table_next (seen_table self.old.table) message.now) }
        ensures host { self.new.host ≡ self.old.host }
    {
        let bytes = replied_bytes(self.alloc, &self.table, message, reply)?;
        self.keep_lines(message, reply)?;
        self.table.hear(self.alloc, message)?;
        Ok(bytes)
    }

    // Takes a message that had no step.
    fn hear(&mut self, message: &Tmsg) -> Result<(), AllocError>
        ensures table { OnOk result (seen_table self.new.table ≡ table_next (seen_table self.old.table) message.now) }
        ensures found { OnOk result (found_lines self.new.found ≡ found_after (found_lines self.old.found)
            message.now) }
        ensures names { self.new.names ≡ self.old.names }
        ensures host { self.new.host ≡ self.old.host }
    {
        self.found.hear(message);
        self.table.hear(self.alloc, message)
    }

    // Plays a step: the reply to its last event.
    fn play<'r, E: Entries>(
        &mut self,
        step: Step,
        replies: &mut Replies<'r, E>,
    ) -> Result<Option<&'r Reply>, AllocError>
        requires { IsServed step }
        ensures plays { IfOk result (λ reply. Reaches self.old.host self.old.names.names step replies.old
            self.new.names.names (option_copied reply) replies.new) }
        ensures table { self.new.table ≡ self.old.table }
        ensures found { self.new.found ≡ self.old.found }
        ensures host { self.new.host ≡ self.old.host }
    {
        effects_settle();
        let request = request_of(step);
        let planned = plan(self.host, &self.names, request);
        let Some(reply) = replies.next() else {
            return Ok(None);
        };
        let more = goes_on(&planned.event, reply);
        settle(&mut self.names, planned.effect, reply)?;
        if more {
            return Ok(replies.next());
        }
        Ok(Some(reply))
    }

    // A write to cs leaves its lines to be read, and they go with their fid.
    fn keep_lines(&mut self, message: &Tmsg, reply: &Reply) -> Result<(), AllocError>
        ensures found { OnOk result (found_lines self.new.found ≡ found_by (seen_table self.old.table)
            (found_lines self.old.found) message.now reply.now) }
        ensures table { self.new.table ≡ self.old.table }
        ensures names { self.new.names ≡ self.old.names }
        ensures host { self.new.host ≡ self.old.host }
    {
        match message {
            Tmsg::Write { fid, .. } => {
                self.found
                    .keep_written(self.alloc, &self.table, *fid, reply)
            }
            _ => {
                self.found.hear(message);
                Ok(())
            }
        }
    }
}

// No name, and a database without a tuple: no message is a step that asks one.
fn no_names(alloc: Global) -> Result<Names, AllocError>
    ensures { IfOk result (λ names. names.names ≡ steps.no_names []) }
{
    let empty = Version {
        moment: 0,
        db: Db::new(alloc),
    };
    let dbs = IndexedVersions::new(alloc, &[empty])?;
    Ok(Names::new(alloc, Arc::new(alloc, dbs)?))
}

/// What a step of a session asks for.
pub fn request_of(step: Step) -> Request
    requires { IsServed step }
    ensures { result ≡ asked_request step }
{
    match step {
        Step::Open { name, path, mode } => open_of(name, path, mode),
        Step::Read { name, count } => Request::Read { name, count },
        Step::Writex { name, text } => Request::Write { name, text },
        Step::Close { name } => Request::Close { name },
        Step::Cs { query } => Request::Cs { query },
        _ => Request::Until { moment: 0 },
    }
}

fn open_of(name: Octets, path: Octets, mode: Option<Mode>) -> Request
    ensures { result ≡ asked_request (step.Open name path mode) }
{
    match mode {
        Some(mode) => Request::Open { name, path, mode },
        None => Request::Until { moment: 0 },
    }
}

// The names after the reply to a request.
fn settle(names: &mut Names, effect: Effect, reply: &Reply) -> Result<(), AllocError>
    ensures { OnOk result (names.new ≡ settles_effect effect (opened_file effect reply.now) names.old) }
{
    let opened = effect.opened(reply);
    effect.settle(names, opened)
}

// After a grant that isn't refused the conversation is awaited.
fn goes_on(event: &Event, reply: &Reply) -> bool
    ensures { result ≡ (is_grant event.now && steps.is_accepted reply.now) }
{
    matches!(event, Event::Grant { .. }) && is_accepted(reply)
}
