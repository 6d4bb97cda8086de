//! The lines of a world, each by itself.
#![tactic(auto)]

mod arguments;
mod fault;
mod hosts;
mod lines;
mod media;
mod names;
mod remote_paths;
mod steps;
mod values;

pub use fault::LineFault;
pub use lines::read_line;
pub use names::is_name;
pub use remote_paths::is_remote_path;
