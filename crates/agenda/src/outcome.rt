//! What a run leaves.

use journal::ClosedBooks;
use net_base::{History, RunEnd};
use std::alloc::AllocError;

/// A history, how many steps of its scripts are answered, and how it ends.
#[derive(Debug, Drop)]
pub struct Run {
    pub history: History,
    pub answered: u128,
    pub end: RunEnd,
}

/// A run whose history lies in the books, and whether a thread that was asked for couldn't be had.
#[derive(Debug, Drop)]
pub struct BookedRun {
    pub books: ClosedBooks,
    pub answered: u128,
    pub end: RunEnd,
    pub lacks_threads: bool,
}

/// The history of a run with tasks of one's own, the tasks as they are in the end, each in its place, and how it ends.
#[derive(Drop)]
pub struct TaskRun<T> {
    pub history: History,
    pub tasks: Vec<Option<T>>,
    pub end: RunEnd,
}

/// Why there is no run.
#[derive(Clone, Copy, Debug, PartialEq, Eq)]
pub enum RunError {
    Memory,
}

impl From<AllocError> for RunError {
    fn from(_error: AllocError) -> RunError {
        RunError::Memory
    }
}
