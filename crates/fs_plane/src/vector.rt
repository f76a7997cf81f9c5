ghost use Rattle.std.specs.Prelude.{◌≡◌, ◌↔◌, IsTrue};
ghost use Rattle.fs_plane.specs.Vector.{IsSmallVector, IsTinyVector, vector_neg, is_upper, is_raised};

use fs_quadratic::{Elem, Field};
use std::cmp::Ordering;
use std::marker::Model;

/// A vector of the plane. On a surface its coordinates are scaled: multiplied by the surface's
/// denominator. Contracts see it as a vector of fs_ring over the numbers p + q·√d.
#[derive(Clone, Copy, Debug, PartialEq, Eq, Hash)]
pub struct V2 {
    pub x: Elem,
    pub y: Elem,
}

impl Model for V2 {
    ghost use Rattle.fs_plane.specs.Vector.{PlaneVector};

    ghost Value = { PlaneVector };

    ghost view = { λ v. record { x = v.x; y = v.y } };

    ghost inverse = { λ v. record { x = v.x; y = v.y } };
}

impl V2 {
    /// The vector (0, 0).
    pub const ZERO: V2 = V2 {
        x: Elem::ZERO,
        y: Elem::ZERO,
    };

    /// The opposite vector. It never overflows.
    pub fn neg(self) -> V2
        ensures { result ≡ vector_neg self }
    {
        V2 {
            x: self.x.neg(),
            y: self.y.neg(),
        }
    }

    /// Whether all parts of both numbers are below 2^58 in size. The formulas of small vectors need no checks.
    pub fn is_small(self) -> bool
        ensures { IsTrue result ↔ IsSmallVector self }
    {
        self.x.is_small() && self.y.is_small()
    }

    /// Whether all parts of both numbers are below 2^26 in size. Cross products of tiny vectors take 64 bits.
    pub fn is_tiny(self) -> bool
        ensures { IsTrue result ↔ IsTinyVector self }
    {
        self.x.is_tiny() && self.y.is_tiny()
    }

    /// Whether it points into the upper half: y > 0, or y = 0 and x > 0.
    pub fn is_upper(self, field: Field) -> bool
        ensures { result ≡ is_upper field.d self }
    {
        match field.sign(self.y) {
            Ordering::Greater => true,
            Ordering::Less => false,
            Ordering::Equal => field.sign(self.x) == Ordering::Greater,
        }
    }

    /// Whether it is raised: y > 0, or y = 0 and x < 0. Of two opposite vectors one is.
    pub fn is_raised(self, field: Field) -> bool
        ensures { result ≡ is_raised field.d self }
    {
        match field.sign(self.y) {
            Ordering::Greater => true,
            Ordering::Less => false,
            Ordering::Equal => field.sign(self.x) == Ordering::Less,
        }
    }
}
