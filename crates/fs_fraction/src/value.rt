ghost use Rattle.std.specs.Prelude.{◌≡◌, ◌≤◌, ◌<◌, ◌^◌, ◌*◌, ◌↔◌, ◌*ℤ◌, ℕ, IsTrue, MatchOption, pos};
ghost use Rattle.std.specs.Option.{SomeIff};
ghost use Rattle.std.specs.Str.Parse.{digits_value};
ghost use Rattle.fs_quadratic.specs.Width.{InWidth};
ghost use Rattle.fs_fraction.specs.Fraction.{IsLowest, HasValue};
ghost use Rattle.fs_fraction.specs.Number.{IsNarrow, IsDefined, value, signed, under_value};
ghost use Rattle.fs_fraction.specs.Parts.{IsRatio, IsNarrowRatio, IsDefinedRatio, IsLowestRatio, IsWritten, ratio_of, written_of};

use crate::digits::number;
use crate::divisor::narrow_divisor;
use crate::fraction::Frac;
use crate::written::{Ratio, Written};
use fs_quadratic::Elem;

// The most digits of a run that isn't wide.
const MOST_DIGITS: usize = 18;

// A ratio in lowest terms, of numbers of at most 18 digits.
#[derive(Clone, Copy)]
struct LowestRatio {
    over: u64,
    under: u64,
    ghost lowest: { IsLowestRatio over under },
}

// over/under in lowest terms.
fn reduced_ratio(over: u64, under: u64) -> LowestRatio
    requires positive { 0 < under }
    requires over { over < 10 ^ 18 }
    requires under { under < 10 ^ 18 }
    ensures { over * result.under ≡ under * result.over }
{
    let common = narrow_divisor(over, under);
    LowestRatio {
        over: over / common,
        under: under / common,
    }
}

// A ratio in lowest terms where its denominator isn't 0; it is 1 without a stroke.
fn lowest_ratio(a: Ratio<'_>) -> Option<LowestRatio>
    requires digits { IsRatio (ratio_of a) }
    requires narrow { IsNarrowRatio (ratio_of a) }
    ensures { MatchOption result
        (¬ IsDefinedRatio (ratio_of a.entry))
        (λ r. IsDefinedRatio (ratio_of a.entry)
        × (digits_value 10 (ratio_of a.entry).over * r.under ≡ under_value (ratio_of a.entry).under * r.over)) }
{
    let over = number(a.over);
    match a.under {
        Some(digits) => match number(digits) {
            0 => None,
            under => Some(reduced_ratio(over, under)),
        },
        None => Some(LowestRatio { over, under: 1 }),
    }
}

// The product of two numbers of at most 18 digits.
fn product(a: u64, b: u64) -> u128
    requires a { a < 10 ^ 18 }
    requires b { b < 10 ^ 18 }
    ensures value { result ≡ a * b }
    ensures within { result < 2 ^ 127 }
{
    u128::from(a) * u128::from(b)
}

// A number with its sign.
fn signed(minus: bool, n: u128) -> i128
    requires { n < 2 ^ 127 }
    ensures value { result ≡ signed minus n }
    ensures within { InWidth result }
{
    let n = n as i128;
    if minus { -n } else { n }
}

// A rational part and an r part over the least common multiple of their denominators. It is in
// lowest terms, since both parts are.
fn both(minus: bool, a: LowestRatio, other: bool, b: LowestRatio) -> Frac
    ensures lowest { IsLowest result.num result.den }
    ensures value { (k l m n : ℕ) → k * a.under ≡ l * a.over → m * b.under ≡ n * b.over
        → HasValue result (record { p = signed minus k *ℤ pos n; q = signed other m *ℤ pos l }) (l * n) }
{
    let common = narrow_divisor(a.under, b.under);
    let left = b.under / common;
    let right = a.under / common;
    let p = signed(minus, product(a.over, left));
    let q = signed(other, product(b.over, right));
    Frac::lowest(Elem::new(p, q), product(a.under, left))
}

// A rational part alone.
fn rational(minus: bool, a: LowestRatio) -> Frac
    ensures lowest { IsLowest result.num result.den }
    ensures value { (k l : ℕ) → k * a.under ≡ l * a.over → HasValue result (record { p = signed minus k; q = pos 0 }) l }
{
    let p = signed(minus, u128::from(a.over));
    Frac::lowest(Elem::new(p, 0), u128::from(a.under))
}

// An r part alone.
fn root(minus: bool, a: LowestRatio) -> Frac
    ensures lowest { IsLowest result.num result.den }
    ensures value { (k l : ℕ) → k * a.under ≡ l * a.over → HasValue result (record { p = pos 0; q = signed minus k }) l }
{
    let q = signed(minus, u128::from(a.over));
    Frac::lowest(Elem::new(0, q), u128::from(a.under))
}

// No run of digits has more than 18.
fn is_narrow_ratio(a: Ratio<'_>) -> bool
    ensures { IsTrue result ↔ IsNarrowRatio (ratio_of a.entry) }
{
    a.over.len() <= MOST_DIGITS && a.under.is_none_or(|digits| digits.len() <= MOST_DIGITS)
}

// No run of digits has more than 18.
pub fn is_narrow(written: Written<'_>) -> bool
    ensures { IsTrue result ↔ IsNarrow (written_of written.entry) }
{
    match written {
        Written::Rational(a) | Written::Root(a) => is_narrow_ratio(a.ratio),
        Written::Both(a, b) => is_narrow_ratio(a.ratio) && is_narrow_ratio(b.ratio),
    }
}

// The number, where no denominator is 0.
pub fn value(written: Written<'_>) -> Option<Frac>
    requires digits { IsWritten (written_of written) }
    requires narrow { IsNarrow (written_of written) }
    ensures { SomeIff result (IsDefined (written_of written.entry)) (value (written_of written.entry)) }
{
    match written {
        Written::Rational(a) => {
            let r = lowest_ratio(a.ratio)?;
            Some(rational(a.minus, r))
        }
        Written::Root(a) => {
            let r = lowest_ratio(a.ratio)?;
            Some(root(a.minus, r))
        }
        Written::Both(a, b) => {
            let r = lowest_ratio(a.ratio)?;
            let s = lowest_ratio(b.ratio)?;
            Some(both(a.minus, r, b.minus, s))
        }
    }
}
