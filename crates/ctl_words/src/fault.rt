//! Why a text isn't a control.
ghost use Rattle.std.specs.Prelude.{◌≡◌};
ghost use Rattle.ctl_words.specs.Told.{ctl_fault_number};

/// Why a text isn't a control.
#[derive(Clone, Copy, Debug, PartialEq, Eq)]
pub enum CtlError {
    /// Its first word is none of the six.
    BadWord = 1,
    /// What follows the word is none of its arguments.
    BadArgument = 2,
}

impl CtlError {
    /// Its number in a reply.
    pub fn number(self) -> u32
        ensures { result ≡ ctl_fault_number self }
    {
        match self {
            CtlError::BadWord => 1,
            CtlError::BadArgument => 2,
        }
    }
}
