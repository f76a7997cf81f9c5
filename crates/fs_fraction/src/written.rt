ghost use Rattle.std.specs.Prelude.{◌≡◌, ◌++◌, ℕ, Bool, false, List, MatchOption};
ghost use Rattle.fs_fraction.specs.Number.{Ratio as RatioText, Written as WrittenText, Spells, sign_text};
ghost use Rattle.fs_fraction.specs.Parts.{Begins, SpellsSecond, Stops, ratio_of, written_of};

use crate::digits::split_numeral;

// A ratio without a sign, as it is written: `3`, `3/4`.
#[derive(Clone, Copy)]
pub struct Ratio<'a> {
    pub over: &'a [u8],
    pub under: Option<&'a [u8]>,
}

// A ratio with its sign. True means a minus sign.
#[derive(Clone, Copy)]
pub struct Part<'a> {
    pub minus: bool,
    pub ratio: Ratio<'a>,
}

// A number as it is written: a rational part, an r part, or both.
#[derive(Clone, Copy)]
pub enum Written<'a> {
    Rational(Part<'a>),
    Root(Part<'a>),
    Both(Part<'a>, Part<'a>),
}

// Whether a text begins with a minus sign, and what follows that sign.
fn strip_minus(text: &[u8]) -> (bool, &[u8])
    ensures whole { text.now ≡ sign_text result.0 ++ result.1.now }
    ensures plain { result.0 ≡ false → Stops (λ b. b ≡ 45) result.1.now }
{
    match text.split_first() {
        Some((b'-', rest)) => (true, rest),
        _ => (false, text),
    }
}

// The ratio that a text begins with, and the rest.
fn split_ratio(text: &[u8]) -> Option<(Ratio<'_>, &[u8])>
    ensures { MatchOption result
        ((a : RatioText) (rest : List ℕ) → ¬ Begins text.now a rest)
        (λ parts. Begins text.now (ratio_of parts.0) parts.1.now) }
{
    let (over, rest) = split_numeral(text)?;
    match rest.split_first() {
        Some((b'/', rest)) => {
            let (under, rest) = split_numeral(rest)?;
            let under = Some(under);
            Some((Ratio { over, under }, rest))
        }
        _ => Some((Ratio { over, under: None }, rest)),
    }
}

// A second part: its sign, a ratio, and the letter r.
fn second_part(text: &[u8]) -> Option<Part<'_>>
    ensures { MatchOption result
        ((minus : Bool) (a : RatioText) → ¬ SpellsSecond text.now minus a)
        (λ part. SpellsSecond text.now part.minus (ratio_of part.ratio)) }
{
    let (sign, rest) = text.split_first()?;
    if *sign != b'+' && *sign != b'-' {
        return None;
    }
    let (ratio, tail) = split_ratio(rest)?;
    if tail == b"r".as_slice() {
        let minus = *sign == b'-';
        Some(Part { minus, ratio })
    } else {
        None
    }
}

// The number as a text spells it, where it spells one.
pub fn parse(text: &[u8]) -> Option<Written<'_>>
    ensures { MatchOption result
        ((w : WrittenText) → ¬ Spells text.now w)
        (λ w. Spells text.now (written_of w)) }
{
    let (minus, rest) = strip_minus(text);
    let (ratio, tail) = split_ratio(rest)?;
    let first = Part { minus, ratio };
    if tail.is_empty() {
        return Some(Written::Rational(first));
    }
    if tail == b"r".as_slice() {
        return Some(Written::Root(first));
    }
    Some(Written::Both(first, second_part(tail)?))
}
