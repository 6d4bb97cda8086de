//! The payload of a page: the line `page 1`, and four parts. The first part is the input, in characters that a page may have.
//!
//! `net_page` puts rows into the other parts. `put_input` and `put_part` write, and the laws say that a payload can be read back.
#![tactic(auto)]

mod input;
mod law;
mod part;

pub use input::put_input;
pub use law::{inputs_are_plain, inputs_are_read_back, payloads_are_plain, payloads_are_read_back};
pub use part::put_part;
