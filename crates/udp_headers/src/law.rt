//! Laws of headers as bytes.
ghost use Rattle.std.specs.Prelude.{◌≡◌, ◌++◌, ℕ, List};
ghost use Rattle.net_base.specs.declared.headers.Headers.{Headers};
ghost use Rattle.net_base.specs.DatagramHeaders.{AreHeaders, SpellsHeaders, headers_bytes, headers_of};

/// The bytes of headers read back as the headers, whatever text follows them.
pub fn headers_are_read()
    ensures { (h : Headers) (text : List ℕ) → AreHeaders h → headers_of (headers_bytes h ++ text) ≡ h }
{}

/// Bytes spell one value alone.
pub fn headers_read_once()
    ensures { (h other : Headers) (text rest bytes : List ℕ) → SpellsHeaders h text bytes
        → SpellsHeaders other rest bytes → (h ≡ other) × (text ≡ rest) }
{}
