ghost use Rattle.std.specs.Prelude.{◌≡◌, ◌≢◌, IfOk};
ghost use Rattle.std.specs.Result.{OkIff};
ghost use Rattle.fs_quadratic.specs.Ring.{zero};
ghost use Rattle.fs_fraction.specs.Fraction.{HasSum, HasDifference, HasProduct, one_fraction};
ghost use Rattle.fs_fraction.specs.Arithmetic.{negated, sum, SumFits, product, ProductFits, conjugate, with_sign, reciprocal, ReciprocalFits, quotient, QuotientFits};

use crate::divisor::greatest_divisor;
use crate::fraction::{Frac, FracStop, content, divide, in_lowest_terms};
use crate::width::{checked_norm, checked_scale};
use fs_quadratic::width::checked_natural_product;
use fs_quadratic::{Elem, Field};

/// The exact sum, or `Overflow` exactly where a number of its computation overflows: the least
/// common multiple of the denominators, a part of a numerator over it, or a part of their sum.
pub fn add(_field: Field, x: Frac, y: Frac) -> Result<Frac, FracStop>
    ensures sum { OkIff result (SumFits x y) (sum x y) }
    ensures value { IfOk result (λ z. HasSum x y z) }
{
    checked_sum(x, y)
}

// The sum by its computation alone.
fn checked_sum(x: Frac, y: Frac) -> Result<Frac, FracStop>
    ensures { OkIff result (SumFits x y) (sum x y) }
{
    let m = x.denominator();
    let n = y.denominator();
    let common = greatest_divisor(m, n);
    match (
        checked_natural_product(m, n / common),
        checked_scale(n / common, x.num()),
        checked_scale(m / common, y.num()),
    ) {
        (Some(den), Some(a), Some(b)) => match a.add(b) {
            Ok(num) => Ok(in_lowest_terms(num, den)),
            Err(_) => Err(FracStop::Overflow),
        },
        _ => Err(FracStop::Overflow),
    }
}

/// The exact difference, or `Overflow` exactly where the sum of x and -y overflows.
pub fn sub(field: Field, x: Frac, y: Frac) -> Result<Frac, FracStop>
    ensures difference { OkIff result (SumFits x (negated y)) (sum x (negated y)) }
    ensures value { IfOk result (λ z. HasDifference x y z) }
{
    add(field, x, y.neg())
}

/// The exact product, or `Overflow` exactly where a number of its computation overflows. Each
/// numerator is first divided by what it has in common with the other denominator.
pub fn mul(field: Field, x: Frac, y: Frac) -> Result<Frac, FracStop>
    ensures product { OkIff result (ProductFits field.d x y) (product field.d x y) }
    ensures value { IfOk result (λ z. HasProduct field.d x y z) }
{
    checked_product(field, x, y)
}

// The product by its computation alone.
fn checked_product(field: Field, x: Frac, y: Frac) -> Result<Frac, FracStop>
    ensures { OkIff result (ProductFits field.d x y) (product field.d x y) }
{
    let m = x.denominator();
    let n = y.denominator();
    let left = greatest_divisor(content(x.num()), n);
    let right = greatest_divisor(content(y.num()), m);
    match (
        field.mul(divide(x.num(), left), divide(y.num(), right)),
        checked_natural_product(m / right, n / left),
    ) {
        (Ok(num), Some(den)) => Ok(in_lowest_terms(num, den)),
        _ => Err(FracStop::Overflow),
    }
}

/// The inverse of x, which isn't 0, or `Overflow` exactly where a number of its computation overflows.
/// The numerator is first divided by what its parts have in common.
pub fn inv(field: Field, x: Frac) -> Result<Frac, FracStop>
    requires { x.num ≢ zero }
    ensures reciprocal { OkIff result (ReciprocalFits field.d x) (reciprocal field.d x) }
    ensures value { IfOk result (λ z. HasProduct field.d x z one_fraction) }
{
    checked_inverse(field, x)
}

// The inverse by its computation alone.
fn checked_inverse(field: Field, x: Frac) -> Result<Frac, FracStop>
    requires { x.num ≢ zero }
    ensures { OkIff result (ReciprocalFits field.d x) (reciprocal field.d x) }
{
    let m = x.denominator();
    let common = content(x.num());
    let inner = greatest_divisor(m, common);
    let primitive = divide(x.num(), common);
    match (
        checked_norm(field, primitive),
        checked_scale(m / inner, primitive),
    ) {
        (Some(norm), Some(num)) => {
            match checked_natural_product(common / inner, norm.unsigned_abs()) {
                Some(den) => Ok(in_lowest_terms(with_sign(norm, conjugate(num)), den)),
                None => Err(FracStop::Overflow),
            }
        }
        _ => Err(FracStop::Overflow),
    }
}

/// x times the inverse of y, which isn't 0, or `Overflow` exactly where the inverse or that
/// product overflows.
pub fn div(field: Field, x: Frac, y: Frac) -> Result<Frac, FracStop>
    requires { y.num ≢ zero }
    ensures quotient { OkIff result (QuotientFits field.d x y) (quotient field.d x y) }
    ensures value { IfOk result (λ z. HasProduct field.d z y x) }
{
    checked_quotient(field, x, y)
}

// The quotient by its computation alone.
fn checked_quotient(field: Field, x: Frac, y: Frac) -> Result<Frac, FracStop>
    requires { y.num ≢ zero }
    ensures { OkIff result (QuotientFits field.d x y) (quotient field.d x y) }
{
    match inv(field, y) {
        Ok(inverse) => mul(field, x, inverse),
        Err(stop) => Err(stop),
    }
}

// p - q·√d.
fn conjugate(x: Elem) -> Elem
    ensures { result ≡ conjugate x }
{
    Elem::new(x.p(), -x.q())
}

// x, or its negation where z is below 0.
fn with_sign(z: i128, x: Elem) -> Elem
    ensures { result ≡ with_sign z x }
{
    if z < 0 { x.neg() } else { x }
}
