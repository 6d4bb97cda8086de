//! What a script holds from step to step.
ghost use Rattle.std.specs.Prelude.{◌≡◌, ◌≢◌, ◌↔◌, ◌⊎◌, ◌<◌, None, Some, Err, true, length, IsErrOf, IfErr, OnOk, OnErr, option_map};
ghost use Rattle.std.specs.Arc.{arc_value};
ghost use Rattle.net_base.specs.Steps as steps;
ghost use Rattle.net_base.specs.Versions.{database_of};
ghost use Rattle.net_tree.specs.Bindings.{bound_file};
ghost use Rattle.net_tree.specs.declared.fault.TreeError.TheVariants.{BadFid, Memory};
ghost use Rattle.script_task.specs.Holdings.{holdings};

use ndb_index::{Index, IndexedVersions};
use net_base::{FileName, Headers, Heard, Mode};
use net_tree::{Fid, Fids, TreeError};
use std::alloc::{AllocError, Global};
use std::marker::Model;
use std::sync::Arc;

/// What a step of a script finds and leaves: names bound to open files, what the last `hread` was told, and the database
/// from which `dns` answers, the first version.
///
/// Clauses see these, and the name that there is room for.
#[derive(Drop)]
pub struct Names {
    fids: Fids,
    heard: Option<Heard>,
    dbs: Arc<IndexedVersions, Global>,
}

impl Model for Names {
    ghost use Rattle.std.specs.Prelude.{◌<◌, length};
    ghost use Rattle.std.specs.Arc.{arc_value};
    ghost use Rattle.net_base.specs.Versions.{database_of};
    ghost use Rattle.script_task.specs.Holdings.{Holdings};

    ghost Value = { Holdings };

    ghost view = { λ n. record {
      names = record { bound = n.fids.names; heard = n.heard; zone = database_of (arc_value n.dbs) 0 };
      reserved = n.fids.reserved;
    } };

    ghost invariant = { λ n. 0 < length (arc_value n.dbs) };
}

impl Names {
    /// What the first step of a script finds. It takes no memory.
    pub fn new(alloc: Global, dbs: Arc<IndexedVersions, Global>) -> Names
        requires some { 0 < length (arc_value dbs) }
        ensures { result ≡ holdings (steps.no_names (database_of (arc_value dbs) 0)) None }
    {
        Names {
            fids: Fids::new(alloc),
            heard: None,
            dbs,
        }
    }

    /// The file that the name is bound to.
    pub fn get(&self, name: &[u8]) -> Option<Fid>
        ensures { option_map bound_file result ≡ steps.fid_of name.now self.now.names }
    {
        self.fids.get(name)
    }

    /// Whether the name is bound.
    pub fn is_bound(&self, name: &[u8]) -> bool
        ensures { result ≡ steps.is_bound self.now.names name.now }
    {
        self.fids.is_bound(name)
    }

    /// Makes room for this name, so that its binding takes no memory if it is the next one.
    pub fn reserve(&mut self, name: &[u8]) -> Result<(), AllocError>
        ensures ok { OnOk result (self.new ≡ holdings self.old.names (Some name.now)) }
        ensures err { OnErr result (self.new ≡ self.old) }
    {
        self.fids.reserve(name)
    }

    /// Binds a name that isn't bound.
    pub fn bind(&mut self, name: &[u8], fid: Fid) -> Result<(), TreeError>
        ensures ok { OnOk result (self.new ≡ holdings (steps.bind name.now (bound_file fid) self.old.names) None) }
        ensures err { OnErr result (self.new ≡ self.old) }
        ensures bad_fid { IsErrOf result BadFid ↔ (steps.is_bound self.old.names name.now ≡ true) }
        ensures causes { IfErr result (λ e. (e ≡ BadFid) ⊎ (e ≡ Memory)) }
        ensures reserved { self.old.reserved ≡ Some name.now → result ≢ Err Memory }
    {
        self.fids.bind(name, fid)
    }

    /// Unbinds the name, and gives the file that it was bound to.
    pub fn unbind(&mut self, name: &[u8]) -> Option<Fid>
        ensures found { option_map bound_file result ≡ steps.fid_of name.now self.old.names }
        ensures rest { self.new ≡ holdings (steps.unbind name.now self.old.names) self.old.reserved }
    {
        self.fids.unbind(name)
    }

    /// An `hread` was told this.
    pub fn hear(&mut self, heard: Heard)
        ensures { self.new ≡ holdings (steps.hearing heard self.old.names) self.old.reserved }
    {
        self.heard = Some(heard);
    }

    /// The data file of the open call that an `hread` heard on this name.
    pub fn open_call(&self, name: &[u8]) -> Option<Fid>
        ensures { option_map bound_file result ≡ steps.open_call name.now self.now.names }
    {
        if !was_on(&self.heard, name) {
            return None;
        }
        let fid = self.get(b".d")?;
        if fid.file == FileName::Data && fid.mode == Mode::Both {
            Some(fid)
        } else {
            None
        }
    }

    /// Whether the headers are of the datagram that was heard last. The interface isn't compared.
    pub fn is_answered_by(&self, headers: Headers) -> bool
        ensures { result ≡ steps.are_of_heard headers self.now.names.heard }
    {
        match &self.heard {
            Some(heard) => headers.remote == heard.remote && headers.local == heard.local,
            None => false,
        }
    }

    /// The database from which `dns` answers.
    pub fn zone(&self) -> &Index
        ensures { result.now ≡ self.now.names.zone }
    {
        self.dbs.index(0)
    }
}

// Whether a call was heard on this name.
fn was_on(heard: &Option<Heard>, name: &[u8]) -> bool
    ensures { result ≡ steps.was_on name.now heard.now }
{
    match heard {
        Some(heard) => name == heard.name.as_slice(),
        None => false,
    }
}
