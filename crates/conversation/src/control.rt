//! The faults of texts that are written to a ctl file.
ghost use Rattle.std.specs.Prelude.{◌≡◌, is_some};
ghost use Rattle.net_base.specs.ControlWords as spec;
ghost use Rattle.net_base.specs.Conversation.{refused_control};

use ctl_words::read_ctl;
use net_base::Octets;

/// The number of a control text's fault, where it has no reading.
pub fn fault(text: &Octets) -> Option<u32>
    ensures { result ≡ refused_control (spec.read text.now) }
{
    match read_ctl(text.as_slice()) {
        Ok(_) => None,
        Err(error) => Some(error.number()),
    }
}

/// Whether a control text has no reading.
pub fn is_refused(text: &Octets) -> bool
    ensures { result ≡ is_some (refused_control (spec.read text.now)) }
{
    match fault(text) {
        Some(_) => true,
        None => false,
    }
}
