//! The text of a history, one spelling for each entry, and the summary of a run.
#![tactic(auto)]

mod entry;
mod event;
mod halves;
mod law;
mod line;
mod names;
mod reply;
mod summary;
mod totals;

pub use entry::text_of;
pub use halves::text_by;
pub use law::{plain_texts_tell, printed_runs_tell, texts_tell_words};
pub use net_base::RunEnd;
pub use reply::put_reply;
pub use summary::{RunStatus, summary_by};
pub use totals::{Totals, totals_of};
