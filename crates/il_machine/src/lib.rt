//! An IL end: what it answers and emits for every event in every state.
#![tactic(auto)]

mod ask;
mod end;
mod fault;
mod in_turn;

pub use ask::Ask;
pub use end::IlEnd;
pub use fault::HungupError;
