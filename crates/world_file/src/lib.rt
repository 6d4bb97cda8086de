//! Reads a world, line by line in one pass, or tells its first bad line.
#![tactic(auto)]

mod causes;
mod changes;
mod draft;
mod fates;
mod fault;
mod host;
mod lines;
mod medium;
mod reader;
mod session_law;
mod session_text;
mod versions;

pub use fault::WorldError;
pub use net_base::World;
pub use reader::{cut_line, read_world};
pub use session_law::{sessions_have_places, texts_of_sessions_say_one};
pub use session_text::read_sessions;
