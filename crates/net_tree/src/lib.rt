//! The tree under /net: paths, what may be opened, the names in a directory, and names bound to open files.
#![tactic(auto)]

mod directory;
mod fault;
mod fids;
mod path;

pub use directory::{may_open, names};
pub use fault::TreeError;
pub use fids::{Fid, Fids};
pub use path::{node_named, walk};
