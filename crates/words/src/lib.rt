//! Words: numbers, addresses, hexadecimal and names, read and written.
#![tactic(auto)]

mod actors;
mod address;
mod bytes;
mod hexadecimal;
mod mask;
mod names;
mod number;
mod parts;
mod spaced;

pub use actors::put_actor;
pub use address::{address_in, put_address, put_place, read_address};
pub use bytes::are_bytes;
pub use hexadecimal::{put_hex_digits, put_hex_word, read_hex_word};
pub use mask::{mask_bits, mask_of, read_mask};
pub use names::{
    cause_text, file_name, file_named, kind_word, mode_named, mode_word, proto_name, proto_named,
    state_word,
};
pub use number::{number_in, number_up_to, put_decimal, put_wide_decimal, read_port};
pub use parts::{four_parts, single, split_first, two_parts};
pub use spaced::{put_addr, put_ip_or_star, put_number, put_port_or_star, put_word};
