//! What a session knows after its messages.
ghost use Rattle.std.specs.Prelude.{◌≡◌, OnErr, OnOk, false};
ghost use Rattle.net_base.specs.SessionScript as spec;
ghost use Rattle.net_base.specs.SessionTable as known;
ghost use Rattle.session_script.specs.Seen.{brings_fid, table_kept, seen_table};

use crate::fids::Fids;
use crate::files::{can_open, reached};
use net_base::{Lines, Node, Target, Tmsg};
use std::alloc::{AllocError, Global};

/// No message is longer.
const LONGEST: u32 = 8216;

/// No fid.
const NOFID: u32 = 0xffff_ffff;

/// The longest message, and the fids that are known.
#[derive(Drop)]
pub struct Table {
    pub is_first: bool,
    pub msize: u32,
    pub fids: Fids,
}

impl Table {
    /// Before the first message. It takes no memory yet.
    pub fn new(alloc: Global) -> Table
        ensures { seen_table result ≡ known.opening }
    {
        Table {
            is_first: true,
            msize: LONGEST,
            fids: Fids::new(alloc),
        }
    }

    /// A table at the beginning, where no message is longer than this.
    pub fn shorter(alloc: Global, msize: u32) -> Table
        ensures { seen_table result ≡ record known.opening { msize = msize } }
    {
        Table {
            is_first: true,
            msize,
            fids: Fids::new(alloc),
        }
    }

    /// What a fid stands for that was opened.
    pub fn used(&self, fid: u32) -> Option<Target>
        ensures { result ≡ known.used (seen_table self.now) fid }
    {
        let target = self.fids.get(fid)?;
        if target.is_used { Some(target) } else { None }
    }

    /// The most that a read of so many bytes gives.
    pub fn room(&self, count: u32) -> u32
        ensures { result ≡ spec.room (seen_table self.now) count }
    {
        count.min(self.msize.saturating_sub(24))
    }

    /// Takes a message. Without memory it is as before.
    pub fn hear(&mut self, alloc: Global, message: &Tmsg) -> Result<(), AllocError>
        ensures ok { OnOk result (seen_table self.new ≡ spec.table_next (seen_table self.old) message.now) }
        ensures err { OnErr result (table_kept self.new ≡ table_kept self.old) }
    {
        self.change(alloc, message)?;
        self.is_first = false;
        Ok(())
    }

    /// Takes a message that brings no fid. It takes no memory.
    pub fn hear_known(&mut self, message: &Tmsg)
        requires { brings_fid message.now ≡ false }
        ensures { seen_table self.new ≡ spec.table_next (seen_table self.old) message.now }
    {
        self.change_known(message);
        self.is_first = false;
    }

    // What a message changes, whichever it is.
    fn change(&mut self, alloc: Global, message: &Tmsg) -> Result<(), AllocError>
        ensures ok { OnOk result (seen_table self.new ≡ spec.changed (seen_table self.old) message.now) }
        ensures err { OnErr result (table_kept self.new ≡ table_kept self.old) }
    {
        match message {
            Tmsg::Attach { fid, afid, .. } => self.attach(*fid, *afid),
            Tmsg::Walk {
                fid,
                newfid,
                names,
                ..
            } => self.walk(alloc, *fid, *newfid, names),
            _ => {
                self.change_known(message);
                Ok(())
            }
        }
    }

    // Changes the table by a message that brings no fid.
    fn change_known(&mut self, message: &Tmsg)
        requires { brings_fid message.now ≡ false }
        ensures { seen_table self.new ≡ spec.changed (seen_table self.old) message.now }
    {
        match message {
            Tmsg::Version { msize, .. } => self.hear_version(*msize),
            Tmsg::Open { fid, mode, .. } => self.open(*fid, *mode),
            Tmsg::Clunk { fid, .. } => self.fids.forget(*fid),
            Tmsg::Remove { fid, .. } => self.fids.forget(*fid),
            _ => {}
        }
    }

    fn hear_version(&mut self, msize: u32)
        ensures { seen_table self.new ≡ spec.heard (seen_table self.old) msize }
    {
        if self.is_first && 256 <= msize {
            self.msize = msize.min(self.msize);
        }
    }

    fn attach(&mut self, fid: u32, afid: u32) -> Result<(), AllocError>
        ensures err { OnErr result (table_kept self.new ≡ table_kept self.old) }
        ensures ok { OnOk result (seen_table self.new ≡ spec.attached (seen_table self.old) fid afid) }
    {
        if afid != NOFID || self.fids.get(fid).is_some() {
            return Ok(());
        }
        let target = fresh(Node::Root);
        self.fids.set(fid, target)
    }

    // Where a walk begins, where it may.
    fn source(&self, fid: u32, newfid: u32) -> Option<Node>
        ensures { result ≡ spec.source (seen_table self.now) fid newfid }
    {
        let target = self.fids.get(fid)?;
        if fid != newfid && self.fids.get(newfid).is_some() {
            return None;
        }
        if target.is_used {
            return None;
        }
        Some(target.node)
    }

    fn walk(
        &mut self,
        alloc: Global,
        fid: u32,
        newfid: u32,
        names: &Lines,
    ) -> Result<(), AllocError>
        ensures err { OnErr result (table_kept self.new ≡ table_kept self.old) }
        ensures ok { OnOk result (seen_table self.new ≡ spec.walked_to (seen_table self.old) fid newfid names.now) }
    {
        let Some(node) = self.source(fid, newfid) else {
            return Ok(());
        };
        let Some(end) = reached(alloc, node, names)? else {
            return Ok(());
        };
        self.fids.set(newfid, fresh(end))
    }

    fn open(&mut self, fid: u32, mode: u8)
        ensures { seen_table self.new ≡ spec.used_by (seen_table self.old) fid mode }
    {
        let Some(target) = self.fids.get(fid) else {
            return;
        };
        if can_open(target.node, mode) {
            self.fids.use_it(fid);
        }
    }
}

// A fid that wasn't opened yet.
fn fresh(node: Node) -> Target
    ensures { result ≡ known.fresh node }
{
    Target {
        node,
        is_used: false,
    }
}
