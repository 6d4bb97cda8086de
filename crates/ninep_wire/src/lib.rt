//! The messages of 9P2000, as bytes and back.
#![tactic(auto)]

mod fault;
mod fields;
mod header;
mod law;
mod put;
mod put_answer;
mod put_request;
mod read_answer;
mod read_request;
mod spelled;

pub use fault::NinepError;
pub use law::{a_request_is_read, an_answer_is_read, one_spelling};
pub use net_base::{Qid, Qids, Rmsg, Tmsg};
pub use put_answer::encode_r;
pub use put_request::{encode_t, tag_of};
pub use read_answer::decode_r;
pub use read_request::decode_t;
pub use spelled::{answer_in, request_in};
