//! The routes of a host, and the ways that its packets go.
#![tactic(auto)]

mod error;
mod mask;
mod routes;
mod ways;

pub use error::RouteError;
pub use mask::is_mask;
pub use routes::{Hop, Routes};
pub use ways::{Way, Ways};
