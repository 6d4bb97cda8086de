//! Which world a run is of, and who plays a task in the place of a script.
use std::marker::Brand;

/// Which world it is, and who plays a task in the place of a script. Each run of a program names them, beside its journal.
pub trait Placing {
    ghost use Rattle.net_base.specs.declared.world.World.{World};
    ghost use Rattle.net_base.specs.Tasks.{Tasks};

    ghost world: { World };

    ghost tasks: { Tasks };
}

impl Placing for Brand {
    ghost use Rattle.net_base.specs.Tasks.{nobody};
    ghost use Rattle.net_locks.specs.Placed.{no_world};

    ghost world = { no_world };

    ghost tasks = { nobody };
}
