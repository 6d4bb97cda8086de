//! IL headers, as bytes and back.
#![tactic(auto)]

mod fault;
mod message;

pub use fault::IlError;
pub use message::{IlView, decode_il, encode_il};
