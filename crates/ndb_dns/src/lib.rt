//! Answers to questions of the domain name system, from a network database.
#![tactic(auto)]

mod answer;
mod beside;
mod fault;
mod field;
mod found;
mod key;
mod label;
mod name;
mod question;
mod record;
mod reply;
mod reverse;
mod value;

pub use answer::{dns_answer, dns_answer_counted};
pub use fault::DnsError;
pub use name::{Name, read_name};
pub use net_base::Question;
pub use question::read_question;
