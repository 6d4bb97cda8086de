//! dial(2) and the steps of scripts, as tasks.
#![tactic(auto)]

mod address;
mod announce;
mod beside;
mod call;
mod dial;
mod dns;
mod hread;
mod hwrite;
mod lines;
mod one_request;
mod reject;
mod reply;
mod told;
mod write_text;

pub use address::netmkaddr;
pub use announce::{Announce, AnnouncePhase};
pub use beside::Beside;
pub use call::CallPhase;
pub use dial::{Dial, DialPhase};
pub use dns::Dns;
pub use hread::Hread;
pub use hwrite::{Hwrite, HwritePhase};
pub use one_request::OneRequest;
pub use reject::{Reject, RejectPhase};
pub use write_text::{WritePhase, WriteText};
