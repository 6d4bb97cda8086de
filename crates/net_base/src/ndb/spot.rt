//! Where a pair stands.
ghost use Rattle.std.specs.Prelude.{◌++◌};
ghost use Rattle.std.specs.Cmp.Rules.{comparing, hashing};
ghost use Rattle.std.specs.Hash as fed;
ghost use Rattle.std.proofs.Common.{rules};
ghost use Rattle.net_base.specs.Spots.{same_spot};

use std::hash::{Hash, Hasher};

/// Where a pair stands: a tuple, counted in the database, and a line, counted in that tuple. Both count from 0.
#[derive(Clone, Copy, Debug, Default)]
pub struct Spot {
    pub place: u64,
    pub line: u64,
}

impl PartialEq for Spot {
    ghost eq = { same_spot };

    ghost laws = { Prim.search (comparing, rules) };

    fn eq(&self, other: &Spot) -> bool {
        self.place == other.place && self.line == other.line
    }
}

impl Eq for Spot {
    ghost laws = { Prim.search (comparing, rules) };
}

impl Hash for Spot {
    ghost hash_input = { λ s. fed.u64 s.place ++ fed.u64 s.line };

    ghost respects_eq = { Prim.search (hashing, rules) };

    fn hash<H: Hasher>(&self, state: &mut H) {
        state.write_u64(self.place);
        state.write_u64(self.line);
    }
}
