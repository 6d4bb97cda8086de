//! What is written to a ctl file.
#![tactic(auto)]

mod controls;
mod fault;
mod numbers;
mod parts;
mod spelled;

pub use controls::read_ctl;
pub use fault::CtlError;
pub use parts::without_newline;
pub use spelled::write_ctl;
