//! Why an input hands in no legal and timed history.
ghost use Rattle.std.specs.Prelude.{◌≡◌, ◌+◌, ◌<◌, ◌^◌, ℕ};
ghost use Rattle.history_reader.specs.declared.fault.LineError.TheVariants as refused;
ghost use Rattle.netcheck.specs.Told.{of_line as spec_of_line, of_world as spec_of_world};

use history_reader::LineError;
use world_file::WorldError;

/// The first thing that is wrong with an input, or that this isn't known.
#[derive(Clone, Copy, Debug, PartialEq, Eq, Drop)]
pub enum InputError {
    /// The first bad line, over the whole input, and its least cause.
    Bad { line: u64, cause: u32 },
    /// The first entry that breaks a rule has this stamp, and this is the number of the least one, 1 to 8.
    Fault { stamp: u64, rule: u32 },
    Memory,
}

/// The world's bad line.
pub fn of_world(error: WorldError) -> InputError
    ensures { result ≡ spec_of_world error }
{
    match error {
        WorldError::Bad { line, cause } => InputError::Bad { line, cause },
        WorldError::Memory => InputError::Memory,
    }
}

/// The bad line of a history behind so many lines.
pub fn of_line(before: u64, error: LineError) -> InputError
    requires { (line cause : ℕ) → error ≡ refused.Bad line cause → before + line < 2 ^ 64 }
    ensures { result ≡ spec_of_line before error }
{
    match error {
        LineError::Bad { line, cause } => InputError::Bad {
            line: before + line,
            cause,
        },
        LineError::Memory => InputError::Memory,
    }
}
