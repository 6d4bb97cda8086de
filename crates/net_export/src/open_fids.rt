//! The fids for which a file is open.
ghost use Rattle.std.specs.Prelude.{◌≡◌, ◌≤◌, [], drop, insert, length, OnErr, OnOk};
ghost use Rattle.net_base.specs.Exports.{put_in, without_number};
ghost use Rattle.net_export.specs.Rows as spec;

use std::alloc::{AllocError, Global};

/// Fids in ascending order.
#[derive(Debug, Drop)]
pub struct OpenFids {
    fids: Vec<u32>,
}

impl OpenFids {
    /// None, which take no memory yet.
    pub(crate) fn new(alloc: Global) -> OpenFids
        ensures { spec.rising result ≡ [] }
    {
        OpenFids {
            fids: Vec::new(alloc),
        }
    }

    /// The least of them.
    pub(crate) fn least(&self) -> Option<u32>
        ensures { result ≡ spec.first_number (spec.rising self.now) }
    {
        self.fids.first().copied()
    }

    /// Without the least of them.
    pub(crate) fn drop_least(&mut self)
        ensures { spec.rising self.new ≡ drop 1 (spec.rising self.old) }
    {
        if !self.fids.is_empty() {
            self.fids.remove(0);
        }
    }

    /// A file is open for this one, too.
    pub(crate) fn add(&mut self, fid: u32) -> Result<(), AllocError>
        ensures ok { OnOk result (spec.rising self.new ≡ put_in fid (spec.rising self.old)) }
        ensures err { OnErr result (spec.rising self.new ≡ spec.rising self.old) }
    {
        let place = self.place_of(fid);
        self.fids.insert(place, fid)?;
        Ok(())
    }

    // Where it stands among them.
    fn place_of(&self, fid: u32) -> usize
        ensures within { result ≤ length self.now.fids.items }
        ensures place { insert self.now.fids.items result fid ≡ put_in fid (spec.rising self.now) }
    {
        for (place, other) in self.fids.iter().enumerate() {
            if fid <= *other {
                return place;
            }
        }
        self.fids.len()
    }

    /// No file is open for this one any longer.
    pub(crate) fn remove(&mut self, fid: u32)
        ensures { spec.rising self.new ≡ without_number fid (spec.rising self.old) }
    {
        self.fids.retain(|other| *other != fid);
    }
}
