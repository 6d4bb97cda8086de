//! Reads the text of a network database, ndb(6), in one pass, or reports its first bad line. It also writes a database,
//! counts how many tuples a search looks at, and keeps the hash chains that an index is made of.
#![tactic(auto)]

mod bundle;
mod chains;
mod choice;
mod copy;
mod fault;
mod files;
mod line;
mod reader;
mod steps;
mod tuples;
mod words;
mod writer;

pub use chains::Chains;
pub use fault::NdbError;
pub use net_base::{Db, NdbPair};
pub use reader::read_ndb;
pub use steps::Steps;
pub use tuples::Tuples;
pub use writer::{put_line, write_ndb};
