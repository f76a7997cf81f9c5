ghost use Rattle.std.specs.Prelude.{◌≡◌, ◌↔◌, ◌<◌, ◌^◌, IfErr, IsTrue, unsigned_abs};
ghost use Rattle.std.specs.Result.{OkIff};
ghost use Rattle.fs_quadratic.specs.Ring.{Quadratic, add, sub, neg};
ghost use Rattle.fs_quadratic.specs.Width.{InWidth, Fits, IsSmall, IsTiny};

use crate::width::{checked_difference, checked_sum};
use std::marker::Model;

/// A number p + q·√d with whole parts p and q, each from -(2^127 - 1) to 2^127 - 1.
///
/// It doesn't know its d: the field that it is used with does. Contracts see the two parts
/// as whole numbers without bounds.
#[derive(Clone, Copy, Debug, PartialEq, Eq, Hash)]
pub struct Elem {
    p: i128,
    q: i128,
}

impl Model for Elem {
    ghost use Rattle.fs_quadratic.specs.Ring.{Quadratic};
    ghost use Rattle.fs_quadratic.specs.Width.{InWidth};

    ghost Value = { Quadratic };

    ghost view = { λ e. record { p = e.p; q = e.q } };

    ghost invariant = { λ e. InWidth e.p × InWidth e.q };

    ghost inverse = { λ x. record { p = x.p; q = x.q } };
}

/// The operation that overflows: its exact result, or a number of its computation, isn't within
/// ±(2^127 - 1).
#[derive(Clone, Copy, Debug, PartialEq, Eq, Hash)]
pub enum Op {
    Add,
    Sub,
    Mul,
}

// Small parts are below it in size.
const SMALL: i128 = 1 << 58;

// Tiny parts are below it in size.
const TINY: i128 = 1 << 26;

// Whether a part is below 2^26 in size.
fn is_tiny_part(part: i128) -> bool
    ensures { IsTrue result ↔ (unsigned_abs part < 2 ^ 26) }
{
    -TINY < part && part < TINY
}

// Whether a part is below 2^58 in size.
fn is_small_part(part: i128) -> bool
    ensures { IsTrue result ↔ (unsigned_abs part < 2 ^ 58) }
{
    -SMALL < part && part < SMALL
}

impl Elem {
    /// 0.
    pub const ZERO: Elem = Elem { p: 0, q: 0 };

    /// The number p + q·√d. Neither part may be `i128::MIN`.
    pub fn new(p: i128, q: i128) -> Elem
        requires p { InWidth p }
        requires q { InWidth q }
        ensures { result ≡ record { p = p; q = q } }
    {
        Elem { p, q }
    }

    /// The rational part.
    pub fn p(self) -> i128
        ensures value { result ≡ self.p }
        ensures within { InWidth self.p }
    {
        self.p
    }

    /// The r part, the factor of √d.
    pub fn q(self) -> i128
        ensures value { result ≡ self.q }
        ensures within { InWidth self.q }
    {
        self.q
    }

    /// Whether both parts are below 2^58 in size. Products of small numbers need no checks.
    pub fn is_small(self) -> bool
        ensures { IsTrue result ↔ IsSmall self }
    {
        is_small_part(self.p) && is_small_part(self.q)
    }

    /// Whether both parts are below 2^26 in size. Products of tiny numbers take 64 bits.
    pub fn is_tiny(self) -> bool
        ensures { IsTrue result ↔ IsTiny self }
    {
        is_tiny_part(self.p) && is_tiny_part(self.q)
    }

    /// The exact sum, or `Op::Add` exactly where one of its parts overflows.
    pub fn add(self, y: Elem) -> Result<Elem, Op>
        ensures sum { OkIff result (Fits (add self y)) (add self y) }
        ensures refused { IfErr result (λ e. e ≡ Op.Add) }
    {
        match (checked_sum(self.p, y.p), checked_sum(self.q, y.q)) {
            (Some(p), Some(q)) => Ok(Elem { p, q }),
            _ => Err(Op::Add),
        }
    }

    /// The exact difference, or `Op::Sub` exactly where one of its parts overflows.
    pub fn sub(self, y: Elem) -> Result<Elem, Op>
        ensures difference { OkIff result (Fits (sub self y)) (sub self y) }
        ensures refused { IfErr result (λ e. e ≡ Op.Sub) }
    {
        match (
            checked_difference(self.p, y.p),
            checked_difference(self.q, y.q),
        ) {
            (Some(p), Some(q)) => Ok(Elem { p, q }),
            _ => Err(Op::Sub),
        }
    }

    /// The sum, without checks, where it is known to fit.
    pub fn add_fitting(self, y: Elem) -> Elem
        requires { Fits (add self y) }
        ensures { result ≡ add self y }
    {
        Elem::new(self.p() + y.p(), self.q() + y.q())
    }

    /// The difference, without checks, where it is known to fit.
    pub fn sub_fitting(self, y: Elem) -> Elem
        requires { Fits (sub self y) }
        ensures { result ≡ sub self y }
    {
        Elem::new(self.p() - y.p(), self.q() - y.q())
    }

    /// The negation. It never overflows.
    pub fn neg(self) -> Elem
        ensures { result ≡ neg self }
    {
        Elem {
            p: -self.p,
            q: -self.q,
        }
    }
}
