// Texts cut at a byte.

ghost use Rattle.std.specs.Prelude.{◌≡◌, ◌≢◌, ℕ, List, [], ◌∷◌, ◌==◌, MatchOption};
ghost use Rattle.std.specs.List.{AllByRecursion};
ghost use Rattle.fs_job.specs.Pieces.{pieces};
ghost use Rattle.fs_job.specs.Cuts.{IsCut};

// The text before the first separator, and the text after it.
pub fn cut(text: &[u8], separator: u8) -> Option<(&[u8], &[u8])>
    ensures { MatchOption result
        (AllByRecursion (λ b. b ≢ separator) text.now)
        (λ parts. IsCut separator text.now parts.0.now parts.1.now) }
{
    for (i, byte) in text.iter().enumerate() {
        if *byte == separator {
            return Some((&text[..i], &text[i + 1..]));
        }
    }
    None
}

// The texts before and after the only separator, where there is exactly one.
pub fn cut_once(text: &[u8], separator: u8) -> Option<(&[u8], &[u8])>
    ensures { MatchOption result
        ((prefix rest : List ℕ) → pieces (λ b. b == separator) text.now ≢ prefix ∷ rest ∷ [])
        (λ parts. pieces (λ b. b == separator) text.now ≡ parts.0.now ∷ parts.1.now ∷ []) }
{
    let (prefix, rest) = cut(text, separator)?;
    match cut(rest, separator) {
        Some(_) => None,
        None => Some((prefix, rest)),
    }
}
