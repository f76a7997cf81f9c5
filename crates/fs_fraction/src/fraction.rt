ghost use Rattle.std.specs.Prelude.{◌≡◌, ◌≢◌, ◌<ℤ◌, ◌<◌, ◌^◌, pos, unsigned_abs};
ghost use Rattle.fs_quadratic.specs.Ring.{zero};
ghost use Rattle.fs_fraction.specs.Arithmetic.{negated};
ghost use Rattle.fs_fraction.specs.Divisor.{content, divide};
ghost use Rattle.fs_fraction.specs.Fraction.{Fraction, IsLowest, HasValue, reduced};

use crate::divisor::greatest_divisor;
use fs_quadratic::Elem;
use std::marker::Model;

/// Why an operation on fractions has no result.
#[derive(Clone, Copy, Debug, PartialEq, Eq)]
pub enum FracStop {
    /// A number of the computation overflows.
    Overflow,
}

/// A number p + q·√d over a denominator above 0, in lowest terms. Equal fractions are one value.
#[derive(Clone, Copy, Debug, PartialEq, Eq, Hash)]
pub struct Frac {
    num: Elem,
    den: u128,
}

impl Model for Frac {
    ghost use Rattle.fs_fraction.specs.Divisor.{content, divide};
    ghost use Rattle.fs_fraction.specs.Fraction.{Fraction, IsLowest};

    ghost Value = { Fraction };

    ghost view = { λ x. record { num = x.num; den = x.den } };

    ghost invariant = { λ x. IsLowest x.num x.den };

    ghost inverse = { λ x. record { num = x.num; den = x.den } };
}

impl Frac {
    /// The fraction num/den in lowest terms: the only one with this value. The denominator has to be above 0.
    pub fn new(num: Elem, den: i128) -> Frac
        requires { pos 0 <ℤ den }
        ensures reduced { result ≡ reduced num (unsigned_abs den) }
        ensures value { HasValue result num (unsigned_abs den) }
        ensures lowest { IsLowest result.num result.den }
        ensures only { (y : Fraction) → IsLowest y.num y.den → HasValue y num (unsigned_abs den) → y ≡ result }
    {
        in_lowest_terms(num, den.unsigned_abs())
    }

    // The fraction num/den, which is in lowest terms.
    pub(crate) fn lowest(num: Elem, den: u128) -> Frac
        requires { IsLowest num den }
        ensures { result ≡ record { num = num; den = den } }
    {
        Frac { num, den }
    }

    /// The numerator.
    pub fn num(self) -> Elem
        ensures { result ≡ self.num }
    {
        self.num
    }

    /// The denominator as an integer, which is above 0.
    pub fn den(self) -> i128
        ensures value { result ≡ pos self.den }
        ensures lowest { IsLowest self.num self.den }
    {
        self.den as i128
    }

    /// The denominator as a natural number, the type in which it is kept and computed with.
    pub fn denominator(self) -> u128
        ensures value { result ≡ self.den }
        ensures lowest { IsLowest self.num self.den }
    {
        self.den
    }

    /// The negation.
    pub fn neg(self) -> Frac
        ensures { result ≡ negated self }
    {
        Frac {
            num: self.num.neg(),
            den: self.den,
        }
    }
}

// num/den in lowest terms.
pub(crate) fn in_lowest_terms(num: Elem, den: u128) -> Frac
    requires positive { 0 < den }
    requires within { den < 2 ^ 127 }
    ensures { result ≡ reduced num den }
{
    let common = greatest_divisor(content(num), den);
    Frac {
        num: divide(num, common),
        den: den / common,
    }
}

// The greatest common divisor of both parts.
pub(crate) fn content(x: Elem) -> u128
    ensures value { result ≡ content x }
    ensures positive { x ≢ zero → 0 < result }
    ensures within { x ≢ zero → result < 2 ^ 127 }
{
    greatest_divisor(x.p().unsigned_abs(), x.q().unsigned_abs())
}

// Both parts divided by k.
pub(crate) fn divide(x: Elem, k: u128) -> Elem
    requires positive { 0 < k }
    requires within { k < 2 ^ 127 }
    ensures { result ≡ divide x k }
{
    Elem::new(x.p() / k as i128, x.q() / k as i128)
}
