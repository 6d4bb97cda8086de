//! What a script holds at first, where the database is empty.
ghost use Rattle.std.specs.Prelude.{◌<◌, IfOk, length};
ghost use Rattle.std.specs.Arc.{arc_value};

use ndb_index::IndexedVersions;
use net_base::{Db, Version};
use script_task::Names;
use std::alloc::{AllocError, Global};
use std::sync::Arc;

/// One version of a database without tuples.
pub fn no_tuples(alloc: Global) -> Result<Arc<IndexedVersions, Global>, AllocError>
    ensures { IfOk result (λ dbs. 0 < length (arc_value dbs)) }
{
    let versions = [Version {
        moment: 0,
        db: Db::new(alloc),
    }];
    Ok(Arc::new(alloc, IndexedVersions::new(alloc, &versions)?)?)
}

/// No names.
pub fn no_names(alloc: Global) -> Result<Names, AllocError> {
    Ok(Names::new(alloc, no_tuples(alloc)?))
}
