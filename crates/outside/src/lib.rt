//! The world outside: where bytes come from, where they go, and the gate that watches the actors' locks.
#![tactic(auto)]

mod fault;
mod gate;
mod memory;
mod reader;
mod sink;
mod source;
mod sure;
mod writer;

pub use fault::{Failed, TakeError};
pub use gate::{Gate, OpenGate};
pub use memory::{FailList, MemSink, MemSource};
pub use reader::{ReadSource, StdSource};
pub use sink::{Sink, write_all};
pub use source::{Source, read_to_end};
pub use sure::{SureSink, SureSource};
pub use writer::{StdSink, WriteSink};
