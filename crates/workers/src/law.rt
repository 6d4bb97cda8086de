//! How many rounds in a row workers are waited for.
ghost use Rattle.std.specs.Prelude.{◌≡◌, ◌≤◌, ◌<◌, ◌*◌, Bool, List, ◌∷◌, false};
ghost use Rattle.workers.specs.Calling.{in_vain, patience};

/// Two, as long as no more than eight calls were in vain; each further one doubles them, until they are 8,192.
pub fn patience_grows()
    ensures free { (calls : List Bool) → in_vain calls ≤ 8 → patience calls ≡ 2 }
    ensures doubled { (calls : List Bool) → 8 ≤ in_vain calls → in_vain calls < 20
        → patience (false ∷ calls) ≡ 2 * patience calls }
    ensures most { (calls : List Bool) → 20 ≤ in_vain calls → patience calls ≡ 8192 }
{}
