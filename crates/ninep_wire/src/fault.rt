//! What is wrong with bytes that are no message.
use std::alloc::AllocError;

/// Why no message was read: the first fault, in the order in which faults are told.
#[derive(Clone, Copy, Debug, PartialEq, Eq, Drop)]
pub enum NinepError {
    /// Memory ran out.
    Memory,
    /// There are no bytes for a size, a type and a tag.
    Short,
    /// The size isn't the number of bytes, or is above 8,216.
    Size,
    /// No message of this direction has this type.
    BadType,
    /// The fields don't fill the message, or there are more than sixteen names or qids.
    Field,
}

impl From<AllocError> for NinepError {
    ghost use Rattle.std.specs.Prelude.{◌≡◌};
    ghost use Rattle.ninep_wire.specs.declared.fault.NinepError.TheVariants as error;

    ghost from_gives = { λ _ e. e ≡ error.Memory };

    fn from(_error: AllocError) -> NinepError {
        NinepError::Memory
    }
}
