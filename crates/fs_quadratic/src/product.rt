ghost use Rattle.std.specs.Prelude.{◌≡◌, ◌*ℤ◌, ◌<◌, ◌^◌, IfErr, unsigned_abs};
ghost use Rattle.std.specs.Option.{SomeIff};
ghost use Rattle.std.specs.Result.{OkIff};
ghost use Rattle.fs_quadratic.specs.Ring.{mul, rational_part, r_part};
ghost use Rattle.fs_quadratic.specs.Width.{InWidth, RationalPartFits, RPartFits, MulFits, IsSmall, IsNarrow, IsTiny};

use crate::element::{Elem, Op};
use crate::radicand::Field;
use crate::width::{checked_multiple, checked_product, checked_sum};

impl Field {
    /// The exact product, or `Op::Mul` exactly where one of the seven numbers of its computation
    /// overflows: a product of two parts, d times the product of the r parts, or a part of the result.
    /// Numbers that are small take no checks.
    #[tactic(auto, unfolding(crate::specs::Width::MulFits, crate::specs::Ring::mul))]
    pub fn mul(self, x: Elem, y: Elem) -> Result<Elem, Op>
        ensures product { OkIff result (MulFits self.d x y) (mul self.d x y) }
        ensures refused { IfErr result (λ e. e ≡ Op.Mul) }
    {
        if x.is_small() && y.is_small() {
            return Ok(self.mul_small(x, y));
        }
        match (rational_part(self.d, x, y), r_part(x, y)) {
            (Some(p), Some(q)) => Ok(Elem::new(p, q)),
            _ => Err(Op::Mul),
        }
    }

    /// The product of two small numbers, which always fits.
    pub fn mul_small(self, x: Elem, y: Elem) -> Elem
        requires left { IsSmall x }
        requires right { IsSmall y }
        ensures { result ≡ mul self.d x y }
    {
        self.mul_narrow(x, y)
    }

    /// The product of two numbers whose parts have 64 bits, where it is known to fit.
    pub fn mul_narrow(self, x: Elem, y: Elem) -> Elem
        requires left { IsNarrow x }
        requires right { IsNarrow y }
        requires fits { MulFits self.d x y }
        ensures { result ≡ mul self.d x y }
    {
        Elem::new(
            narrow_product(x.p(), y.p()) + i128::from(self.d) * narrow_product(x.q(), y.q()),
            narrow_product(x.p(), y.q()) + narrow_product(x.q(), y.p()),
        )
    }

    /// The product of two tiny numbers, which has 64 bits.
    pub fn mul_tiny(self, x: Elem, y: Elem) -> Elem
        requires left { IsTiny x }
        requires right { IsTiny y }
        ensures { result ≡ mul self.d x y }
    {
        let p = tiny_product(x.p(), y.p()) + i64::from(self.d) * tiny_product(x.q(), y.q());
        let q = tiny_product(x.p(), y.q()) + tiny_product(x.q(), y.p());
        Elem::new(i128::from(p), i128::from(q))
    }
}

// The product of two tiny parts.
fn tiny_product(a: i128, b: i128) -> i64
    requires a { unsigned_abs a < 2 ^ 26 }
    requires b { unsigned_abs b < 2 ^ 26 }
    ensures value { result ≡ a *ℤ b }
    ensures within { unsigned_abs result < 2 ^ 52 }
{
    a as i64 * b as i64
}

// The product of two parts of 64 bits, by one multiplication of 64 bits.
fn narrow_product(a: i128, b: i128) -> i128
    requires a { unsigned_abs a < 2 ^ 63 }
    requires b { unsigned_abs b < 2 ^ 63 }
    ensures value { result ≡ a *ℤ b }
    ensures within { InWidth result }
{
    i128::from(a as i64) * i128::from(b as i64)
}

// The rational part of the product.
fn rational_part(d: u16, x: Elem, y: Elem) -> Option<i128>
    ensures { SomeIff result (RationalPartFits d x y) (rational_part d x y) }
{
    match (
        checked_product(x.p(), y.p()),
        checked_multiple(d, x.q(), y.q()),
    ) {
        (Some(rational), Some(roots)) => checked_sum(rational, roots),
        _ => None,
    }
}

// The r part of the product.
fn r_part(x: Elem, y: Elem) -> Option<i128>
    ensures { SomeIff result (RPartFits x y) (r_part x y) }
{
    match (checked_product(x.p(), y.q()), checked_product(x.q(), y.p())) {
        (Some(left), Some(right)) => checked_sum(left, right),
        _ => None,
    }
}
