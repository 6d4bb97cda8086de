//! Opening a file of another host.
ghost use Rattle.std.specs.Prelude.{◌≡◌, IfOk, OnOk, OnErr, true};
ghost use Rattle.net_base.specs.declared.world.Step.TheVariants as step;
ghost use Rattle.net_base.specs.Remotes as remotes;
ghost use Rattle.net_import.specs.Ropening as spec;

use crate::messages::{clunk, is_open, is_whole, open, walk};
use crate::remotes::{free_fid, is_remote};
use crate::talk::Talk;
use net_base::{Left, Mode, Octets, Remote, Reply};
use script_task::{Names, Request, Task, bytes_in};
use std::alloc::{AllocError, Global};

/// Which message of the step is sent.
#[derive(Clone, Copy, Debug, PartialEq, Eq)]
pub enum RopenStage {
    Walk,
    Open,
    /// The file wasn't opened, and its fid is given back.
    Clunk,
    /// The file is open.
    Opened,
}

/// Opens a file over a call, and binds a name to it.
#[derive(Debug, Drop)]
pub struct Ropen {
    name: Octets,
    path: Octets,
    mode: Mode,
    fid: u32,
    // a remote file has the name
    is_taken: bool,
    stage: RopenStage,
    talk: Talk,
}

impl Clone for Ropen {
    ghost is_clone = { λ task copy. copy ≡ task };

    fn clone(&self) -> Result<Ropen, AllocError> {
        Ok(Ropen {
            name: self.name.clone()?,
            path: self.path.clone()?,
            mode: self.mode,
            fid: self.fid,
            is_taken: self.is_taken,
            stage: self.stage,
            talk: self.talk.clone()?,
        })
    }
}

impl Ropen {
    /// Opens the file of the path over the call, where this is left by earlier steps.
    #[tactic(auto, using(crate::specs::RopenLaws::fresh))]
    pub fn new(
        alloc: Global,
        name: &[u8],
        call: &[u8],
        path: &[u8],
        mode: Mode,
        left: &Left,
    ) -> Result<Ropen, AllocError>
        requires path { remotes.is_remote_path path.now ≡ true }
        ensures value { IfOk result (λ t. t ≡ spec.begun name.now call.now path.now mode left.now) }
        ensures stands { IfOk result (λ t. spec.Begins t left.now (step.Ropen name.now call.now path.now mode)) }
    {
        let fid = free_fid(alloc, left, call)?;
        Ok(Ropen {
            name: Octets::from_slice(alloc, name)?,
            path: Octets::from_slice(alloc, path)?,
            mode,
            fid,
            is_taken: is_remote(left, name),
            stage: RopenStage::Walk,
            talk: Talk::new(Octets::from_slice(alloc, call)?, walk(alloc, fid, path)?),
        })
    }

    /// What it leaves after its last reply: a file that was opened has its name.
    pub fn leave(&self, left: &mut Left) -> Result<(), AllocError>
        ensures ok { OnOk result (left.new ≡ spec.leaves self.now left.old) }
        ensures err { OnErr result (left.new ≡ left.old) }
    {
        if self.stage != RopenStage::Opened {
            return Ok(());
        }
        let remote = Remote {
            name: self.name.clone()?,
            call: self.talk.call.clone()?,
            fid: self.fid,
        };
        left.remotes.push(remote)
    }

    // Whether it has recorded nothing.
    fn begins(&self) -> bool
        ensures { result ≡ spec.is_beginning self.now }
    {
        self.stage == RopenStage::Walk && self.talk.writes()
    }

    // Whether the name is bound, be it to a remote file. A call that isn't bound is asked for before.
    fn is_bound(&self, fids: &Names) -> bool
        ensures { result ≡ spec.is_name_taken self.now fids.now.names }
    {
        self.is_taken
            || fids.is_bound(self.talk.call.as_slice()) && fids.is_bound(self.name.as_slice())
    }

    // What follows a reply to the message that is sent.
    fn stage_after(&self, alloc: Global, reply: &Reply) -> Result<RopenStage, AllocError>
        ensures { IfOk result (λ stage. stage ≡ spec.stage_after self.now reply.now) }
    {
        let text = bytes_in(reply);
        if !self.talk.reads() || text.is_empty() {
            return Ok(self.stage);
        }
        match self.stage {
            RopenStage::Walk if is_whole(alloc, self.path.as_slice(), text)? => {
                Ok(RopenStage::Open)
            }
            RopenStage::Open if is_open(alloc, text)? => Ok(RopenStage::Opened),
            RopenStage::Open => Ok(RopenStage::Clunk),
            stage => Ok(stage),
        }
    }

    // The message with which another stage begins, if it has one.
    fn message(&self, alloc: Global, stage: RopenStage) -> Result<Option<Octets>, AllocError>
        ensures { IfOk result (λ message. message ≡ spec.message_by self.now.fid self.now.mode self.now.stage stage) }
    {
        match (self.stage, stage) {
            (RopenStage::Walk, RopenStage::Open) => Ok(Some(open(alloc, self.fid, self.mode)?)),
            (RopenStage::Open, RopenStage::Clunk) => Ok(Some(clunk(alloc, self.fid)?)),
            _ => Ok(None),
        }
    }
}

impl Task for Ropen {
    ghost use Rattle.net_import.specs.RopenLaws as laws;

    ghost asks = { spec.asks };

    ghost after = { spec.after };

    ghost Stands = { spec.StandsFor };

    ghost asks_so = { laws.asks_so };

    ghost moves_so = { laws.moves_so };

    fn next(&self, _alloc: Global, fids: &Names) -> Result<Option<Request>, AllocError> {
        if self.talk.is_over() {
            return Ok(None);
        }
        if self.begins() && self.is_bound(fids) {
            return Ok(Some(Request::Unbound {
                name: self.name.clone()?,
            }));
        }
        self.talk.next()
    }

    fn is_through(&self) -> bool {
        self.talk.is_over()
    }

    fn told(&mut self, alloc: Global, reply: Reply) -> Result<(), AllocError> {
        let stage = self.stage_after(alloc, &reply)?;
        let message = self.message(alloc, stage)?;
        self.talk.moves(message, &reply);
        self.stage = stage;
        Ok(())
    }
}
