//! Laws of the texts of control words and of paths.
ghost use Rattle.std.specs.Prelude.{◌≡◌, ◌↔◌, List, ℕ, Ok, Err, Some, true, false};
ghost use Rattle.net_base.specs.ControlWords as control;
ghost use Rattle.net_base.specs.Paths as paths;
ghost use Rattle.net_base.specs.declared.names.Ctl.{Ctl};
ghost use Rattle.net_base.specs.declared.names.Node.{Node};

/// The reading of a ctl file's text is its grammar's.
pub fn controls_are_read()
    ensures ok { (text : List ℕ) (c : Ctl) → control.Reads text c ↔ (control.read text ≡ Ok c) }
    ensures bad_word { (text : List ℕ) → (control.read text ≡ Err control.bad_word)
        ↔ (control.is_control_word (control.first_word text) ≡ false) }
    ensures bad_argument { (text : List ℕ) → (control.read text ≡ Err control.bad_argument)
        ↔ ((control.is_control_word (control.first_word text) ≡ true) × ((c : Ctl) → control.Reads text c → ⊥)) }
{}

/// A path has the node that it names, and no other.
pub fn paths_are_walked()
    ensures { (path : List ℕ) (n : Node) → paths.NamesNode path n ↔ (paths.walk path ≡ Some n) }
{}
