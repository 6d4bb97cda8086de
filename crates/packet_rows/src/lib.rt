//! A row for each packet that a history puts on a link, or that a host drops.
#![tactic(auto)]

mod deed;
mod facts;
mod frame;
mod law;
mod past;
mod row;
mod text;

pub use law::packets_are_told;
pub use text::put_packet_rows;
