//! The connection server, cs(8): from a dial string to the files to open and the addresses to connect to.
//! `answer_indexed` uses an index, and `answer` scans; both have the same contract.
#![tactic(auto)]

mod addresses;
mod error;
mod indexed;
mod law;
mod line;
mod named;
mod numbers;
mod query;
mod resolve;
mod scanned;

pub use addresses::{covered_first, ip_targets, once_each};
pub use error::CsError;
pub use indexed::{answer_counted, answer_indexed};
pub use law::worked_bounds;
pub use line::{Target, add_lines_of};
pub use query::{Query, is_any, is_attribute, is_numeric, name_attr, nets_of, read_query};
pub use resolve::answer;
