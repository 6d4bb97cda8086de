//! Media: the datagrams that were laid and not yet taken.
#![tactic(auto)]

mod datagram;
mod fates;
mod frame;
mod medium;

pub use datagram::datagram_of;
pub use medium::{Laid, Medium};
