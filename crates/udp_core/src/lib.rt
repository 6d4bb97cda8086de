//! A UDP end: its state and the datagrams that wait to be read.
#![tactic(auto)]

mod end;

pub use end::{HungupError, MOST_UNREAD, UdpEnd};
