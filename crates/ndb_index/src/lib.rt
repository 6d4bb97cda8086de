//! An index of a network database: the same answers as scanning, with a bound on how many tuples it looks at.
//! It also answers the command `query`, and keeps one index for each version of a world's database.
#![tactic(auto)]

mod found;
mod hasher;
mod index;
mod near;
mod networks;
mod pairs;
mod scan;
mod versions;

pub use found::{tuples_found, values_found};
pub use index::Index;
pub use ndb_reader::{Steps, Tuples};
pub use ndb_search::{Places, Prefixes};
pub use net_base::Spot;
pub use scan::search_scanned;
pub use versions::IndexedVersions;
