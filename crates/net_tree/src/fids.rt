//! Names bound to open files.
ghost use Rattle.std.specs.Prelude.{◌≡◌, ◌≢◌, ◌↔◌, ◌⊎◌, [], None, Some, Err, true, false, IsTrue, IsErrOf, IfErr, OnOk, OnErr, option_map};
ghost use Rattle.net_base.specs.Steps as steps;
ghost use Rattle.net_tree.specs.Bindings.{bound_file, name_in_front};
ghost use Rattle.net_tree.specs.declared.fault.TreeError.TheVariants.{BadFid, Memory};

use crate::fault::TreeError;
use indexmap::IndexMap;
use net_base::{FileName, Mode, Proto};
use std::alloc::{AllocError, Global};
use std::marker::Model;

/// An open file of a conversation.
#[derive(Clone, Copy, Debug, PartialEq, Eq)]
pub struct Fid {
    pub proto: Proto,
    pub slot: u32,
    pub generation: u64,
    pub file: FileName,
    pub mode: Mode,
}

/// Names with the open files that they are bound to.
///
/// Clauses see the bindings, the newest first, and the name that there is room for.
#[derive(Drop)]
pub struct Fids {
    entries: IndexMap<Vec<u8>, Fid>,
    kept: Option<Vec<u8>>,
    alloc: Global,
}

impl Model for Fids {
    ghost use Rattle.std.specs.Prelude.{◌<◌, [], IfSome, vec_items, option_map};
    ghost use Rattle.indexmap.specs.IndexMap.{spare};
    ghost use Rattle.net_tree.specs.Bindings.{Bindings, AreApart, newest_onto};

    ghost Value = { Bindings };

    ghost view = { λ f. record { names = newest_onto [] f.entries.entries; reserved = option_map vec_items f.kept } };

    ghost invariant = { λ f. AreApart f.entries.entries × IfSome f.kept (λ _. 0 < spare f.entries) };
}

impl Fids {
    /// No names, which take no memory yet.
    pub fn new(alloc: Global) -> Fids
        ensures { result ≡ record { names = []; reserved = None } }
    {
        Fids {
            entries: IndexMap::new(alloc),
            kept: None,
            alloc,
        }
    }

    /// The file that the name is bound to.
    pub fn get(&self, name: &[u8]) -> Option<Fid>
        ensures { option_map bound_file result ≡ steps.fid_among name.now self.now.names }
    {
        self.entries.get(name).copied()
    }

    /// Whether the name is bound.
    pub fn is_bound(&self, name: &[u8]) -> bool
        ensures { result ≡ steps.is_among self.now.names name.now }
    {
        self.entries.contains_key(name)
    }

    /// Makes room for this name, so that its binding takes no memory if it is the next one.
    pub fn reserve(&mut self, name: &[u8]) -> Result<(), AllocError>
        ensures ok { OnOk result (self.new ≡ record { names = self.old.names; reserved = Some name.now }) }
        ensures err { OnErr result (self.new ≡ self.old) }
    {
        let text = Vec::from_slice(self.alloc, name)?;
        self.entries.reserve(1)?;
        self.kept = Some(text);
        Ok(())
    }

    /// Binds a name that isn't bound.
    pub fn bind(&mut self, name: &[u8], fid: Fid) -> Result<(), TreeError>
        ensures ok { OnOk result (self.new ≡ record {
          names = name_in_front name.now (bound_file fid) self.old.names;
          reserved = None;
        }) }
        ensures err { OnErr result (self.new ≡ self.old) }
        ensures bad_fid { IsErrOf result BadFid ↔ (steps.is_among self.old.names name.now ≡ true) }
        ensures causes { IfErr result (λ e. (e ≡ BadFid) ⊎ (e ≡ Memory)) }
        ensures reserved { self.old.reserved ≡ Some name.now → result ≢ Err Memory }
    {
        if self.is_bound(name) {
            return Err(TreeError::BadFid);
        }
        if self.is_reserved(name) {
            self.bind_reserved(name, fid);
            return Ok(());
        }
        self.bind_copied(name, fid)?;
        Ok(())
    }

    /// Unbinds the name, and gives the file that it was bound to.
    pub fn unbind(&mut self, name: &[u8]) -> Option<Fid>
        ensures found { option_map bound_file result ≡ steps.fid_among name.now self.old.names }
        ensures rest { self.new ≡ record self.old { names = steps.without name.now self.old.names } }
    {
        self.entries.shift_remove(name)
    }

    // Whether there is room for the name.
    fn is_reserved(&self, name: &[u8]) -> bool
        ensures { IsTrue result ↔ (self.now.reserved ≡ Some name.now) }
    {
        match &self.kept {
            Some(text) => text.as_slice() == name,
            None => false,
        }
    }

    // Binds the name that there is room for.
    fn bind_reserved(&mut self, name: &[u8], fid: Fid)
        requires free { steps.is_among self.old.names name.now ≡ false }
        requires room { self.old.reserved ≡ Some name.now }
        ensures { self.new ≡ record {
          names = name_in_front name.now (bound_file fid) self.old.names;
          reserved = None;
        } }
    {
        if let Some(text) = self.kept.take() {
            // there is room for it
            let _ = self.entries.insert(text, fid);
        }
    }

    // Binds a copy of the name.
    fn bind_copied(&mut self, name: &[u8], fid: Fid) -> Result<(), AllocError>
        requires free { steps.is_among self.old.names name.now ≡ false }
        ensures ok { OnOk result (self.new ≡ record {
          names = name_in_front name.now (bound_file fid) self.old.names;
          reserved = None;
        }) }
        ensures err { OnErr result (self.new ≡ self.old) }
    {
        let text = Vec::from_slice(self.alloc, name)?;
        if self.entries.insert(text, fid).is_err() {
            return Err(AllocError);
        }
        self.kept = None;
        Ok(())
    }
}
