//! What an exporting step serves.
ghost use Rattle.std.specs.Prelude.{◌≡◌, Some, not, is_none, false, IfOk, OnErr, OnOk};
ghost use Rattle.net_base.specs.Exports as exports;
ghost use Rattle.net_base.specs.Exports.{open_by};
ghost use Rattle.net_base.specs.NinepMessages.{IsTmsg};
ghost use Rattle.net_base.specs.SessionAnswers.{found_by};
ghost use Rattle.net_export.specs.Rows.{rising};
ghost use Rattle.net_export.specs.Serving as spec;
ghost use Rattle.session_answers.specs.Found.{found_lines};
ghost use Rattle.session_answers.specs.Served.{IsServed};
ghost use Rattle.session_script.specs.Seen.{brings_fid, seen_table as known};

use crate::dotted::{dotted_fid, dotted_request};
use crate::open_fids::OpenFids;
use crate::past::{Past, Replied, Told};
use net_base::{Octets, Reply, Rmsg, Step, Tmsg};
use ninep_wire::{encode_r, request_in};
use script_task::{Request, is_granted, is_opening};
use session_answers::{Found, is_told, replied_bytes, request_of, said_bytes};
use session_script::{Table, step_of};
use std::alloc::{AllocError, Global};
use std::marker::Model;

/// No message over a call is longer.
const LONGEST: u32 = 512;

/// The tag of what isn't answered to a message.
const NO_TAG: u16 = 0xffff;

/// The messages of a call's other end, as far as they were served.
#[derive(Drop)]
pub struct Serving {
    past: Past,
    table: Table,
    found: Found,
    opened: OpenFids,
    // the message that is served, where it has a step
    message: Option<Tmsg>,
    // the next request of that step
    request: Option<Request>,
    // the answer, where there is no request
    answer: Octets,
}

impl Model for Serving {
    ghost use Rattle.net_export.specs.Rows.{rising};
    ghost use Rattle.net_export.specs.Serving as spec;
    ghost use Rattle.session_answers.specs.Found.{found_lines};
    ghost use Rattle.session_script.specs.Seen.{seen_table as known};

    ghost Value = { spec.Serving };

    ghost view = { λ s. record {
      past = s.past.messages;
      opened = rising s.opened;
      message = s.message;
      request = s.request;
      answer = s.answer;
    } };

    ghost invariant = { λ s. spec.IsServing s.past.messages s.message (known s.table) (found_lines s.found) };
}

impl Serving {
    /// Nothing was heard yet.
    pub(crate) fn new(alloc: Global) -> Serving
        ensures { result ≡ spec.fresh_serving }
    {
        Serving {
            past: Past::none(),
            table: Table::shorter(alloc, LONGEST),
            found: Found::new(alloc),
            opened: OpenFids::new(alloc),
            message: None,
            request: None,
            answer: Octets::new(alloc),
        }
    }

    /// Whether it has a request.
    pub(crate) fn is_asking(&self) -> bool
        ensures { result ≡ not (is_none self.now.request) }
    {
        self.request.is_some()
    }

    /// Its request, or else the write of its answer to a name.
    pub(crate) fn next(&self, name: &Octets) -> Result<Request, AllocError>
        ensures { IfOk result (λ q. q ≡ spec.request_next self.now name.now) }
    {
        match &self.request {
            Some(request) => request.clone(),
            None => Ok(Request::Write {
                name: name.clone()?,
                text: self.answer.clone()?,
            }),
        }
    }

    // ---- texts

    /// Begins to serve a text.
    pub(crate) fn hear(&mut self, alloc: Global, text: &[u8]) -> Result<(), AllocError>
        ensures ok { OnOk result (self.new ≡ spec.hears_text self.old text.now) }
        ensures err { OnErr result (self.new ≡ self.old) }
    {
        match request_in(alloc, text)? {
            Some(message) => self.hear_message(alloc, message),
            None => {
                let answer = bad_message(alloc)?;
                self.give(answer);
                Ok(())
            }
        }
    }

    // The answer stands.
    fn give(&mut self, answer: Octets)
        ensures { self.new ≡ spec.given self.old answer }
    {
        self.message = None;
        self.request = None;
        self.answer = answer;
    }

    // Begins to serve a message.
    fn hear_message(&mut self, alloc: Global, message: Tmsg) -> Result<(), AllocError>
        requires message { IsTmsg message }
        ensures ok { OnOk result (self.new ≡ spec.hears_by self.old (Some message)) }
        ensures err { OnErr result (self.new ≡ self.old) }
    {
        match step_of(alloc, &self.table, &message)? {
            None => self.tell(alloc, &message),
            Some(step) => self.begin(alloc, message, step),
        }
    }

    // Answers a message without a step.
    fn tell(&mut self, alloc: Global, message: &Tmsg) -> Result<(), AllocError>
        requires message { IsTmsg message.now }
        ensures ok { OnOk result (self.new ≡ spec.tells self.old message.now) }
        ensures err { OnErr result (self.new ≡ self.old) }
    {
        let answer = said_bytes(alloc, &self.table, &self.found, message)?;
        self.table.hear(alloc, message)?;
        self.found.hear(message);
        self.past = self.past.with(&Told { message });
        self.give(answer);
        Ok(())
    }

    // Begins the step of a message.
    fn begin(&mut self, alloc: Global, message: Tmsg, step: Step) -> Result<(), AllocError>
        requires message { IsTmsg message }
        requires known { brings_fid message ≡ false }
        requires step { IsServed step }
        ensures ok { OnOk result (self.new ≡ spec.begins self.old message step) }
        ensures err { OnErr result (self.new ≡ self.old) }
    {
        let request = dotted_request(alloc, request_of(step))?;
        self.message = Some(message);
        self.request = Some(request);
        Ok(())
    }

    // ---- replies

    /// Takes the reply to the event of its request.
    pub(crate) fn told(&mut self, alloc: Global, reply: &Reply) -> Result<(), AllocError>
        ensures ok { OnOk result (self.new ≡ spec.told_serving self.old reply.now) }
        ensures err { OnErr result (self.new ≡ self.old) }
    {
        match next_request(&self.request, reply)? {
            None => self.finish(alloc, reply),
            Some(request) => {
                self.request = Some(request);
                Ok(())
            }
        }
    }

    // Answers the message that is served, by the last reply of its step.
    fn finish(&mut self, alloc: Global, reply: &Reply) -> Result<(), AllocError>
        ensures ok { OnOk result (self.new ≡ spec.finished self.old reply.now) }
        ensures err { OnErr result (self.new ≡ self.old) }
    {
        // no event of a session has another reply, and a message may have no room for it
        if !is_told(reply) {
            return Err(AllocError);
        }
        let Some(message) = &self.message else {
            return Ok(());
        };
        let answer = replied_bytes(alloc, &self.table, message, reply)?;
        keep(
            alloc,
            &mut self.opened,
            &mut self.found,
            &self.table,
            message,
            reply,
        )?;
        self.table.hear_known(message);
        self.past = self.past.with(&Replied { message, reply });
        self.give(answer);
        Ok(())
    }

    // ---- the end

    /// The file that is closed next, where the step ends.
    pub(crate) fn closes(&self, alloc: Global) -> Result<Option<Request>, AllocError>
        ensures { IfOk result (λ q. q ≡ spec.closes_served self.now) }
    {
        match self.opened.least() {
            Some(fid) => Ok(Some(Request::Close {
                name: dotted_fid(alloc, fid)?,
            })),
            None => Ok(None),
        }
    }

    /// Whether all files are closed.
    pub(crate) fn is_closed(&self) -> bool
        ensures { result ≡ is_none (spec.closes_served self.now) }
    {
        self.opened.least().is_none()
    }

    /// That file was closed, or wasn't there.
    pub(crate) fn close_one(&mut self)
        ensures { self.new ≡ spec.closed_one self.old }
    {
        self.opened.drop_least();
    }
}

// What a message changes by the last reply of its step, beside what the table knows.
fn keep(
    alloc: Global,
    opened: &mut OpenFids,
    found: &mut Found,
    table: &Table,
    message: &Tmsg,
    reply: &Reply,
) -> Result<(), AllocError>
    ensures opened { OnOk result (rising opened.new ≡ open_by (rising opened.old) message.now reply.now) }
    ensures found { OnOk result (found_lines found.new ≡ found_by (known table.now) (found_lines found.old)
        message.now reply.now) }
    ensures err_opened { OnErr result (rising opened.new ≡ rising opened.old) }
    ensures err_found { OnErr result (found_lines found.new ≡ found_lines found.old) }
{
    match message {
        Tmsg::Open { fid, .. } => keep_open(opened, *fid, reply),
        Tmsg::Write { fid, .. } => found.keep_written(alloc, table, *fid, reply),
        Tmsg::Clunk { fid, .. } => {
            opened.remove(*fid);
            found.forget(*fid);
            Ok(())
        }
        Tmsg::Remove { fid, .. } => {
            opened.remove(*fid);
            found.forget(*fid);
            Ok(())
        }
        _ => Ok(()),
    }
}

// A file is open for the fid, where the reply opens one.
fn keep_open(opened: &mut OpenFids, fid: u32, reply: &Reply) -> Result<(), AllocError>
    ensures ok { OnOk result (rising opened.new ≡ spec.opened_by fid (rising opened.old) reply.now) }
    ensures err { OnErr result (rising opened.new ≡ rising opened.old) }
{
    if is_opening(reply) {
        opened.add(fid)?;
    }
    Ok(())
}

// The answer to bytes that are no T-message.
fn bad_message(alloc: Global) -> Result<Octets, AllocError>
    ensures { IfOk result (λ answer. answer ≡ exports.bad_message) }
{
    let ename = Octets::from_slice(alloc, b"bad message")?;
    let answer = Rmsg::Error { tag: NO_TAG, ename };
    encode_r(alloc, &answer)
}

// After a write that is granted a pair the conversation is awaited.
fn next_request(request: &Option<Request>, reply: &Reply) -> Result<Option<Request>, AllocError>
    ensures { IfOk result (λ q. q ≡ spec.awaits_pair request.now reply.now) }
{
    match request {
        Some(Request::Write { name, .. }) if is_granted(reply) => Ok(Some(Request::Wait {
            name: name.clone()?,
        })),
        _ => Ok(None),
    }
}
