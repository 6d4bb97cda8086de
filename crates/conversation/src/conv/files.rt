//! The files of a conversation, and who waits for it.
ghost use Rattle.std.specs.Prelude.{◌≡◌, ◌==◌, nat_lt, take, IfOk, OnErr, Some, None, is_some, true};
ghost use Rattle.net_base.specs.declared.reply.Reply.TheVariants as reply;
ghost use Rattle.net_base.specs.ControlWords as control_words;
ghost use Rattle.net_base.specs.Conversation as spec;
ghost use Rattle.conversation.specs.Kept.{as_step};
ghost use Rattle.conversation.specs.Memory.{most_opens};

use crate::control::fault;
use crate::conv::Conv;
use crate::parts::{Core, Stage};
use crate::reply_and_copy::ReplyAndCopy;
use crate::texts;
use net_base::{Cause, FileName, IlState, Octets, Outcome, StateName};
use std::alloc::AllocError;

impl Conv {
    /// One more open file, where one is open. It answers as if memory ran out where 2^64 - 1 are.
    pub(super) fn open(&mut self) -> Result<Outcome, AllocError>
        ensures ok { IfOk result (λ outcome. spec.opened self.old.conv.opens self.old.conv
            ≡ record { state = self.new.conv; outcome = outcome }) }
        ensures slot { self.new.slot ≡ self.old.slot }
        ensures err { OnErr result (self.new ≡ self.old) }
        ensures memory { OnErr result ((self.old.conv.opens == most_opens) ≡ true) }
    {
        if self.opens == 0 {
            return Ok(self.replies(ReplyAndCopy::not_open()));
        }
        let Some(opens) = self.opens.checked_add(1) else {
            return Err(AllocError);
        };
        self.opens = opens;
        Ok(self.replies(ReplyAndCopy::opened(self.generation)))
    }

    /// The names of the files, where one is open.
    pub(super) fn ls(&self) -> Result<Outcome, AllocError>
        ensures ok { IfOk result (λ outcome. spec.listed self.now.conv.opens self.now.conv
            ≡ record { state = self.now.conv; outcome = outcome }) }
        ensures memory { OnErr result (nat_lt 0 self.now.conv.opens ≡ true) }
    {
        if self.opens == 0 {
            return Ok(self.replies(ReplyAndCopy::not_open()));
        }
        let names = texts::file_names(self.alloc)?;
        Ok(self.replies(ReplyAndCopy::names(names)?))
    }

    /// The first bytes of a file's text.
    pub(super) fn file(
        &self,
        generation: u64,
        file: FileName,
        count: u32,
    ) -> Result<Option<Outcome>, AllocError>
        ensures ok { IfOk result (λ answer. spec.in_generation generation self.now.conv
            (Some (spec.only_replies self.now.conv (reply.Bytes
            (take count (spec.file_text file self.now.slot self.now.conv))))) ≡ as_step self.now.conv answer) }
        ensures memory { OnErr result ((generation == self.now.conv.generation) ≡ true) }
    {
        if generation != self.generation {
            return Ok(self.stale(generation));
        }
        let text = self.file_text(file)?;
        let first = texts::first_bytes(text.as_slice(), count);
        let answer = ReplyAndCopy::bytes(self.alloc, first)?;
        Ok(Some(self.replies(answer)))
    }

    fn file_text(&self, file: FileName) -> Result<Octets, AllocError>
        ensures { IfOk result (λ text. text ≡ spec.file_text file self.now.slot self.now.conv) }
    {
        match file {
            FileName::Ctl => texts::number(self.alloc, self.slot),
            FileName::Local => texts::address_line(self.alloc, self.pair.local),
            FileName::Remote => texts::address_line(self.alloc, self.pair.remote),
            FileName::Status => texts::line(self.alloc, words::state_word(self.core.state_name())),
            FileName::Err => match self.cause() {
                Some(cause) => texts::line(self.alloc, words::cause_text(cause)),
                None => Ok(Octets::new(self.alloc)),
            },
            FileName::Data | FileName::Listen => Ok(Octets::new(self.alloc)),
        }
    }

    /// The last cause.
    fn cause(&self) -> Option<Cause>
        ensures { result ≡ spec.core_cause self.now.conv.core }
    {
        match &self.core {
            Core::Il(end) => end.cause(),
            Core::Udp(end) => {
                // one that is used and Closed was hung up
                if self.stage != Stage::Unused && end.state() == StateName::Closed {
                    Some(Cause::Hungup)
                } else {
                    None
                }
            }
        }
    }

    /// Whether an await is over, in its own generation.
    pub(super) fn may_go_on(&self) -> bool
        ensures { result ≡ is_some (spec.awaited self.now.conv.core self.now.conv) }
    {
        match &self.core {
            Core::Il(end) => end.may_go_on(),
            Core::Udp(_) => true,
        }
    }

    /// The reply to an await: ok, or the cause with which its end was hung up. None while its connect goes on.
    pub(super) fn wait(&self, generation: u64) -> Option<Outcome>
        ensures { spec.in_generation generation self.now.conv (spec.awaited self.now.conv.core self.now.conv)
            ≡ as_step self.now.conv result }
    {
        if generation != self.generation {
            return self.stale(generation);
        }
        match &self.core {
            Core::Il(end) => match end.state() {
                IlState::Syncer => None,
                IlState::Closed => Some(self.told(end.cause())),
                _ => Some(self.replies(ReplyAndCopy::ok())),
            },
            Core::Udp(_) => Some(self.told(self.cause())),
        }
    }

    // The reply to an await that is over: hungup where there is a cause, else ok.
    fn told(&self, cause: Option<Cause>) -> Outcome
        ensures { result ≡ (spec.only_replies self.now.conv (spec.hungup_or_ok cause)).outcome }
    {
        match cause {
            Some(cause) => self.replies(ReplyAndCopy::hungup(cause)),
            None => self.replies(ReplyAndCopy::ok()),
        }
    }

    /// Refuses a control text that has no reading, and in an older generation any.
    pub(super) fn refuse(&self, generation: u64, text: &Octets) -> Option<Outcome>
        ensures { spec.bad_control (spec.refused_control (control_words.read text.now)) generation self.now.conv
            ≡ as_step self.now.conv result }
    {
        if generation != self.generation {
            return self.stale(generation);
        }
        match fault(text) {
            Some(number) => Some(self.replies(ReplyAndCopy::bad_control(number))),
            None => None,
        }
    }
}
