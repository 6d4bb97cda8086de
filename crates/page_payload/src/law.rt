//! Laws of inputs on a page.
ghost use Rattle.std.specs.Prelude.{◌≡◌, ◌++◌, List, ℕ, count_by};
ghost use Rattle.page_payload.specs.Encoding.{decoded, encoded};
ghost use Rattle.page_payload.specs.Parts.{ReadsBack, payload_of};
ghost use Rattle.page_payload.specs.PlainText.{AreBytes, IsPlain, first_lines, is_newline};

/// Says that an input on a page has only newlines and the characters from 32 to 126 without `<`.
pub fn inputs_are_plain()
    ensures { (input : List ℕ) → AreBytes input → IsPlain (encoded input) }
{}

/// Says that the lines of an input on a page give the input again, byte by byte, whatever follows them.
pub fn inputs_are_read_back()
    ensures { (input behind : List ℕ)
        → decoded (first_lines (count_by is_newline (encoded input)) (encoded input ++ behind)) ≡ input }
{}

/// Says that a payload is plain, if its input consists of bytes and its rows are plain.
pub fn payloads_are_plain()
    ensures { (input packets steps ends : List ℕ) → AreBytes input → IsPlain packets → IsPlain steps → IsPlain ends
        → IsPlain (payload_of input packets steps ends) }
{}

/// Says that a payload gives its input again, byte by byte, whatever follows the payload.
pub fn payloads_are_read_back()
    ensures { (input packets steps ends behind : List ℕ)
        → ReadsBack (payload_of input packets steps ends ++ behind) input }
{}
