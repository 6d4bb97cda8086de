//! The page of a run: one HTML file in which a reader steps through the run, entry by entry.
//!
//! The file is a head, a payload and a tail. The head and the tail are texts of the browser, made from the files in `page/`; proofs
//! don't read them. The payload has the input of the page, and rows for packets, steps and ends. `page_of` is the beginning.
#![tactic(auto)]

mod after;
mod before;
mod law;
mod page;

pub use after::tail;
pub use before::head;
pub use law::pages_are_read_back;
pub use page::page_of;
