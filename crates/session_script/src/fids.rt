//! Fids and what they stand for.
ghost use Rattle.std.specs.Prelude.{◌≡◌, Some, None, OnErr, OnOk, option_map};
ghost use Rattle.net_base.specs.SessionTable.{with_fid};
ghost use Rattle.session_script.specs.Seen.{target_opened, fid_stands};

use indexmap::IndexMap;
use net_base::Target;
use std::alloc::{AllocError, Global};

/// The fids that are known. Clauses say of it what each number stands for.
#[derive(Drop)]
pub struct Fids {
    entries: IndexMap<u32, Target>,
}

impl Fids {
    /// No fids, which take no memory yet.
    pub fn new(alloc: Global) -> Fids
        ensures { fid_stands result ≡ (λ n. None) }
    {
        Fids {
            entries: IndexMap::new(alloc),
        }
    }

    /// What a fid stands for.
    pub fn get(&self, fid: u32) -> Option<Target>
        ensures { result ≡ fid_stands self.now fid }
    {
        self.entries.get(&fid).copied()
    }

    /// From now on the fid stands for this.
    pub fn set(&mut self, fid: u32, target: Target) -> Result<(), AllocError>
        ensures ok { OnOk result (fid_stands self.new ≡ with_fid fid (Some target) (fid_stands self.old)) }
        ensures err { OnErr result (self.new.entries.entries ≡ self.old.entries.entries) }
    {
        self.entries.insert(fid, target)?;
        Ok(())
    }

    /// The fid was opened, where it stands for something. It takes no memory.
    pub fn use_it(&mut self, fid: u32)
        ensures { fid_stands self.new ≡ with_fid fid (option_map target_opened (fid_stands self.old fid))
            (fid_stands self.old) }
    {
        if let Some(target) = self.entries.get_mut(&fid) {
            target.is_used = true;
        }
    }

    /// The fid stands for nothing any longer.
    pub fn forget(&mut self, fid: u32)
        ensures { fid_stands self.new ≡ with_fid fid None (fid_stands self.old) }
    {
        self.entries.swap_remove(&fid);
    }
}
