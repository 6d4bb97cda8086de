//! A visitor: what a caller has with it at the locks.
use crate::calendar::Calendar;
use duties::{Duties, Touched};
use journal::{Naming, Pass};

/// Who bears a pass: a caller, at the moment of all that the pass has seen, in ms.
#[derive(Drop)]
pub struct Bearer<J: Naming> {
    pub pass: Pass<J>,
    pub caller: u32,
    pub now: u64,
}

/// A caller at the locks, with its pass, what it owes, and the conversations at which it recorded something since the clock
/// last moved. When conversations are due the clock's caller alone keeps.
#[derive(Drop)]
pub struct Visitor<J: Naming> {
    pub bearer: Bearer<J>,
    pub duties: Duties,
    pub touched: Touched,
    pub calendar: Calendar,
}
