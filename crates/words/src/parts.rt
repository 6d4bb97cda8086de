//! The parts of a text between the occurrences of a byte.
ghost use Rattle.std.specs.Prelude.{◌≡◌, ◌≢◌, ◌∷◌, [], length, MatchOption};
ghost use Rattle.net_base.specs.Addresses.{parts_at};

/// The bytes before the first separator, and those after it, if there is one.
pub fn split_first(text: &[u8], separator: u8) -> (&[u8], Option<&[u8]>)
    ensures { MatchOption result.1
        (parts_at separator text.now ≡ result.0.now ∷ [])
        (λ rest. parts_at separator text.now ≡ result.0.now ∷ parts_at separator rest.now) }
{
    for (i, byte) in text.iter().enumerate() {
        if *byte == separator {
            return (&text[..i], Some(&text[i + 1..]));
        }
    }
    (text, None)
}

/// The whole text, where the separator isn't in it.
pub fn single(text: &[u8], separator: u8) -> Option<&[u8]>
    ensures { MatchOption result
        (length (parts_at separator text.now) ≢ 1)
        (λ only. parts_at separator text.now ≡ only.now ∷ []) }
{
    let (first, rest) = split_first(text, separator);
    match rest {
        None => Some(first),
        Some(_) => None,
    }
}

/// Two parts and no others.
pub fn two_parts(text: &[u8], separator: u8) -> Option<(&[u8], &[u8])>
    ensures { MatchOption result
        (length (parts_at separator text.now) ≢ 2)
        (λ two. parts_at separator text.now ≡ two.0.now ∷ two.1.now ∷ []) }
{
    let (first, rest) = split_first(text, separator);
    let second = single(rest?, separator)?;
    Some((first, second))
}

/// Four parts and no others.
pub fn four_parts(text: &[u8], separator: u8) -> Option<(&[u8], &[u8], &[u8], &[u8])>
    ensures { MatchOption result
        (length (parts_at separator text.now) ≢ 4)
        (λ four. parts_at separator text.now ≡ four.0.now ∷ four.1.now ∷ four.2.now ∷ four.3.now ∷ []) }
{
    let (first, rest) = split_first(text, separator);
    let (second, rest) = split_first(rest?, separator);
    let (third, fourth) = two_parts(rest?, separator)?;
    Some((first, second, third, fourth))
}
