//! The early messages whose turn has come.
ghost use Rattle.std.specs.Prelude.{◌≡◌, ◌+◌, ◌<◌, ◌≤◌, ◌^◌, [], ◌∷◌, ◌++◌, length, None};
ghost use Rattle.net_base.specs.IlEnd.{early_at};
ghost use Rattle.il_machine.specs.InTurn.{in_turn};
ghost use Rattle.il_machine.specs.Windows.{AreWithin};

use il_queues::{Early, Unread};
use net_base::Octets;

/// Moves the early messages that follow message `got` in sequence to the unread ones, and tells how many are got now.
pub fn come_in_turn(unread: &mut Unread, early: &mut Early, got: u64) -> u64
    requires few { got < 2 ^ 32 }
    requires room { length unread.old.texts + length early.old ≤ 64 }
    requires near { AreWithin got (got + 20) early.old }
    ensures moved { unread.new ≡ record unread.old
        { texts = unread.old.texts ++ (in_turn (length early.old) got early.old).texts } }
    ensures left { early.new ≡ (in_turn (length early.old) got early.old).early }
    ensures got { result ≡ got + length (in_turn (length early.old) got early.old).texts }
    ensures near { AreWithin (result + 1) (result + 20) early.new }
    ensures room { length unread.new.texts + length early.new ≤ 64 }
{
    let mut last = got;
    while let Some(text) = early.take(last + 1) {
        append(unread, text);
        last += 1;
    }
    last
}

/// Adds an early message, for which there is room. No early message has its number.
pub fn add_early(early: &mut Early, k: u64, text: Octets)
    requires room { length early.old < 20 }
    requires new { early_at k early.old ≡ None }
    ensures { early.new ≡ record { number = k; text = text } ∷ early.old }
{
    let _ = early.put(k, text);
}

/// Appends a message, for which there is room.
fn append(unread: &mut Unread, text: Octets)
    requires { length unread.old.texts < 64 }
    ensures { unread.new ≡ record unread.old { texts = unread.old.texts ++ text ∷ [] } }
{
    let _ = unread.push(text);
}
