//! The directory of a host and protocol: its slots, its pairs, its ports and its starts.
#![tactic(auto)]

mod answer;
mod dir;
mod names;
mod ports;
mod slot;
mod slots;
mod starts;

pub use dir::Dir;
