ghost use Rattle.std.specs.Prelude.{◌≡◌, ◌<◌, ◌++◌, IfOk, string_bytes};
ghost use Rattle.std.specs.Int.{is_negative};
ghost use Rattle.fs_quadratic.specs.Width.{Fits};
ghost use Rattle.fs_fraction.specs.Fraction.{IsLowest};
ghost use Rattle.fs_fraction.specs.Number.{ratio_spelling, rational_spelling, r_part_spelling, spelling, sign_text, middle_sign_text};

use crate::divisor::greatest_divisor;
use crate::fraction::Frac;
use std::alloc::{AllocError, Global};

// n/m in lowest terms. A denominator of 1 isn't written.
fn ratio_text(alloc: Global, n: u128, m: u128) -> Result<String, AllocError>
    requires { 0 < m }
    ensures { IfOk result (λ text. string_bytes text ≡ ratio_spelling n m) }
{
    let common = greatest_divisor(n, m);
    let (over, under) = (n / common, m / common);
    if under == 1 {
        format!(in alloc; "{over}")
    } else {
        format!(in alloc; "{over}/{under}")
    }
}

// The sign before a first part.
fn sign(z: i128) -> &'static str
    ensures { result.now ≡ sign_text (is_negative z) }
{
    if z < 0 { "-" } else { "" }
}

// The sign between two parts.
fn middle_sign(z: i128) -> &'static str
    ensures { result.now ≡ middle_sign_text (is_negative z) }
{
    if z < 0 { "-" } else { "+" }
}

// The rational part alone.
fn rational_text(alloc: Global, p: i128, den: u128) -> Result<String, AllocError>
    requires { 0 < den }
    ensures { IfOk result (λ text. string_bytes text ≡ rational_spelling p den) }
{
    let quotient = ratio_text(alloc, p.unsigned_abs(), den)?;
    let minus = sign(p);
    format!(in alloc; "{minus}{quotient}")
}

// The r part alone.
fn r_part_text(alloc: Global, q: i128, den: u128) -> Result<String, AllocError>
    requires { 0 < den }
    ensures { IfOk result (λ text. string_bytes text ≡ sign_text (is_negative q) ++ r_part_spelling q den) }
{
    let quotient = ratio_text(alloc, q.unsigned_abs(), den)?;
    let minus = sign(q);
    format!(in alloc; "{minus}{quotient}r")
}

// Both parts, with a sign between them.
fn both_text(alloc: Global, p: i128, q: i128, den: u128) -> Result<String, AllocError>
    requires { 0 < den }
    ensures { IfOk result (λ text. string_bytes text ≡ rational_spelling p den ++ (middle_sign_text (is_negative q) ++ r_part_spelling q den)) }
{
    let rational = rational_text(alloc, p, den)?;
    let middle_sign = middle_sign(q);
    let quotient = ratio_text(alloc, q.unsigned_abs(), den)?;
    format!(in alloc; "{rational}{middle_sign}{quotient}r")
}

// The one spelling of a fraction.
pub fn spelling(alloc: Global, x: Frac) -> Result<String, AllocError>
    ensures spelled { IfOk result (λ text. string_bytes text ≡ spelling x) }
    ensures fits { Fits x.num }
    ensures lowest { IsLowest x.num x.den }
{
    let (p, q, den) = (x.num().p(), x.num().q(), x.denominator());
    if q == 0 {
        rational_text(alloc, p, den)
    } else if p == 0 {
        r_part_text(alloc, q, den)
    } else {
        both_text(alloc, p, q, den)
    }
}
