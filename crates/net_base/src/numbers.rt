//! The numbers of messages, which their ids tell.
ghost use Rattle.std.specs.Prelude.{◌≡◌, ℕ, ◌+◌, ◌^◌, ◌<◌, IfSome, Some};
ghost use Rattle.net_base.specs.Number as spec;
ghost use Rattle.net_base.specs.Number.{IsNumber};

/// The number of the message with this id, at an end that starts at `base` and has messages up to `got`.
#[tactic(auto, unfolding(crate::specs::Number::number))]
pub fn number(base: u32, id: u32, got: u64) -> Option<u64>
    requires few { got < 2 ^ 32 }
    ensures value { result ≡ spec.number base id got }
    ensures found { IfSome result (IsNumber base id got) }
    ensures only { (k : ℕ) → IsNumber base id got k → result ≡ Some k }
{
    let last = base.wrapping_add(got as u32);
    let ahead = id.wrapping_sub(last);
    if 0 < ahead && ahead <= 20 {
        Some(got + ahead as u64)
    } else {
        None
    }
}
