//! Why an input line is invalid.
ghost use Rattle.std.specs.Prelude.{◌≡◌};
ghost use Rattle.live_lines.specs.Causes.{cause_number_of};

use std::alloc::AllocError;

/// A reason why an input line is invalid. They are in the order of their numbers.
#[derive(Clone, Copy, Debug, PartialEq, Eq)]
pub enum LiveCause {
    /// The line has more than 65,536 bytes.
    TooLong,
    /// The word after the place, or after the deadline, is unknown.
    UnknownWord,
    /// The place is not a number from 0 to 31, or an argument is invalid.
    WrongArgument,
    /// The world has no place with this number.
    NoPlace,
    /// The accepted step lines would have more than 16 MiB.
    OverLimit,
    /// The place has ended.
    HasEnded,
    /// A `cancel` found no step that it can withdraw.
    NoStep,
}

impl LiveCause {
    /// Returns the number that the invalid line is reported with.
    pub fn number(self) -> u32
        ensures { result ≡ cause_number_of self }
    {
        match self {
            LiveCause::TooLong => 9,
            LiveCause::UnknownWord => 12,
            LiveCause::WrongArgument => 13,
            LiveCause::NoPlace => 15,
            LiveCause::OverLimit => 17,
            LiveCause::HasEnded => 18,
            LiveCause::NoStep => 52,
        }
    }
}

/// A reason why a line was not read.
#[derive(Clone, Copy, Debug, PartialEq, Eq, Drop)]
pub enum LiveFault {
    /// Memory ran out.
    Memory,
    /// The line is invalid, with its smallest cause among 9, 12 and 13.
    Cause(LiveCause),
}

impl From<AllocError> for LiveFault {
    ghost use Rattle.std.specs.Prelude.{◌≡◌};
    ghost use Rattle.live_lines.specs.declared.cause.LiveFault.TheVariants as fault;

    ghost from_gives = { λ _ e. e ≡ fault.Memory };

    fn from(_error: AllocError) -> LiveFault {
        LiveFault::Memory
    }
}
