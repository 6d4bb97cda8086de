//! IPv4 and UDP headers, as bytes and back.
#![tactic(auto)]

mod checksum;
mod fault;
mod field;
mod ip;
mod udp;

pub use checksum::sum;
pub use fault::WireError;
pub use field::{long, word};
pub use ip::{IpHeader, IpView, decode_ip, encode_ip, encode_ip_header};
pub use udp::{UdpView, decode_udp, encode_udp};
