//! The frames of a history as a capture file in the format pcapng, with an interface for each link.
//!
//! `netview` uses it. `pcapng_of` makes the file. The law says that a reader who goes from block to block finds the frames that
//! `replay_views` defines. Tests compare files with tshark.
#![tactic(auto)]

mod block;
mod capture;
mod copies;
mod law;
mod packet;

pub use capture::pcapng_of;
pub use law::frames_are_read_back;
