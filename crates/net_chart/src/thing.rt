//! What is drawn by an entry.
use crate::frame::Frame;
use crate::place::Place;

/// An arrow for a copy of a frame that arrived, a cross for a frame of which none did, or an operation of a script.
#[derive(Clone, Copy)]
pub enum Thing {
    /// The frame as it was before this copy came, and where it came.
    Arrow { frame: Frame, at: Place },
    Cross { frame: Frame },
    Operation { host: u32, at: Place },
}
