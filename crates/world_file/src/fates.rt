//! The fates of a medium.
ghost use Rattle.std.specs.Prelude.{◌≡◌, ◌≤◌, ◌∷◌, ◌++◌, [], false, OnOk};
ghost use Rattle.std.specs.List.{list_any};
ghost use Rattle.net_base.specs.World.{overlap};

use net_base::FateRange;
use std::alloc::{AllocError, Global};
use std::collections::BTreeMap;
use std::marker::Model;

/// Fates in the order of their lines, none of which overlap. Contracts see them as a list.
#[derive(Drop)]
pub(crate) struct FateTable {
    fates: Vec<FateRange>,
    /// The first frame of each fate, by its last.
    firsts: BTreeMap<u64, u64>,
}

impl Model for FateTable {
    ghost use Rattle.std.specs.Prelude.{List};
    ghost use Rattle.std.specs.BTreeMap.{get};
    ghost use Rattle.std.specs.Ordering.{nat_cmp};
    ghost use Rattle.net_base.specs.declared.world.FateRange.{FateRange};
    ghost use Rattle.world_file.specs.Indexed.{AreIndexed};

    ghost Value = { List FateRange };

    ghost view = { λ t. t.fates.items };

    ghost invariant = { λ t. AreIndexed (λ last. get nat_cmp t.firsts last) t.fates.items };
}

impl FateTable {
    /// No fates, which take no memory yet.
    pub(crate) fn new(alloc: Global) -> FateTable
        ensures { result ≡ [] }
    {
        FateTable {
            fates: Vec::new(alloc),
            firsts: BTreeMap::new(alloc),
        }
    }

    /// Whether a fate is for one of the same frames. It looks at one of them.
    pub(crate) fn has_overlap(&self, fate: FateRange) -> bool
        ensures { result ≡ list_any (overlap fate) self.now }
    {
        match self.firsts.range(fate.first..).next() {
            Some((_, first)) => *first <= fate.last,
            None => false,
        }
    }

    /// Adds a fate at the end.
    pub(crate) fn push(&mut self, fate: FateRange) -> Result<(), AllocError>
        requires apart { list_any (overlap fate) self.old ≡ false }
        requires forward { fate.first ≤ fate.last }
        ensures { OnOk result (self.new ≡ self.old ++ fate ∷ []) }
    {
        self.fates.reserve(1)?;
        self.firsts.insert(fate.last, fate.first)?;
        self.fates.push(fate)?;
        Ok(())
    }

    /// The fates in order. It takes no memory.
    pub(crate) fn into_vec(self) -> Vec<FateRange>
        ensures { result.items ≡ self }
    {
        let FateTable { fates, .. } = self;
        fates
    }
}
