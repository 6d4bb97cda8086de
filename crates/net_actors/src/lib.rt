//! The actors of a world: what each answers, its number, and all of them together.
#![tactic(auto)]

mod actor;
mod actors;
mod desk;
mod kind;
mod law;
mod media;
mod number;
mod outcome;

pub use actor::Actor;
pub use actors::Actors;
pub use duties::Due;
pub use law::few_works_are_small;
pub use ndb_index::IndexedVersions;
pub use number::{actor_at, actor_count, is_among, number_of, numbers_are_apart};
