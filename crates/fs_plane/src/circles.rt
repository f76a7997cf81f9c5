// The circle value of an edge between two triangles.

ghost use Rattle.std.specs.Prelude.{◌≡◌, ◌+◌, ◌<◌, ◌^◌, ◌↔◌, IfOk};
ghost use Rattle.fs_quadratic.specs.Ring.{IsPositive};
ghost use Rattle.fs_plane.specs.Formulas.{circle_after, circle_term_after};
ghost use Rattle.fs_plane.specs.Vector.{IsTinyVector, IsInsideFaceCircle, vector_add, vector_zero, cross, circle};

use crate::formulas::{cross_after, cross_tiny, dot_after, dot_tiny};
use crate::vector::V2;
use fs_quadratic::steps::{product_at, sum_at};
use fs_quadratic::{Elem, Field, Place};

/// The circle value (a×b)·(c·g) + (c×g)·(a·b) of an edge between two counterclockwise triangles, or the first place
/// that overflows. From the end of the edge the one triangle goes on with the sides a and b; from the beginning of the
/// edge the other goes on with c and g. The edge is illegal (not Delaunay) where the value is above 0: then the fourth
/// vertex is strictly inside the circle through the vertices of the first triangle.
///
/// Places 1 to 3 are the cross product of a and b, 4 to 6 the dot product of c and g, 7 the product of both. Places 8 to
/// 10 are the cross product of c and g, 11 to 13 the dot product of a and b, 14 the product of both, and 15 the sum of
/// the two products.
pub fn circle(field: Field, a: V2, b: V2, c: V2, g: V2) -> Result<Elem, Place>
    ensures formula { result ≡ circle_after 0 field.d a b c g }
    ensures value { IfOk result (λ value. value ≡ circle field.d a b c g) }
    ensures inside { vector_add (vector_add a b) (vector_add c g) ≡ vector_zero → IsPositive field.d (cross field.d a b) → IfOk result (λ value. IsPositive field.d value ↔ IsInsideFaceCircle field.d a b c) }
{
    find_circle(field, a, b, c, g)
}

// The circle value by its formula alone.
#[inline]
fn find_circle(field: Field, a: V2, b: V2, c: V2, g: V2) -> Result<Elem, Place>
    ensures { result ≡ circle_after 0 field.d a b c g }
{
    if a.is_tiny() && b.is_tiny() && c.is_tiny() && g.is_tiny() {
        Ok(circle_tiny(field, a, b, c, g))
    } else {
        circle_checked(field, a, b, c, g)
    }
}

// The circle value of vectors of any size: a function of its own, so that the tiny ones take no call.
#[inline(never)]
#[tactic(auto, unfolding(crate::specs::Formulas::circle_after))]
fn circle_checked(field: Field, a: V2, b: V2, c: V2, g: V2) -> Result<Elem, Place>
    ensures { result ≡ circle_after 0 field.d a b c g }
{
    let left = circle_term_after(0, field, a, b, c, g)?;
    let right = circle_term_after(7, field, c, g, a, b)?;
    sum_at(15, left, right)
}

// The cross product of a and b times the dot product of c and g.
#[tactic(auto, unfolding(crate::specs::Formulas::circle_term_after))]
fn circle_term_after(before: u32, field: Field, a: V2, b: V2, c: V2, g: V2) -> Result<Elem, Place>
    requires { before + 7 < 2 ^ 32 }
    ensures { result ≡ circle_term_after before field.d a b c g }
{
    let area = cross_after(before, field, a, b)?;
    let angle = dot_after(before + 3, field, c, g)?;
    product_at(before + 7, field, area, angle)
}

// The circle value of tiny vectors, which always fits: the four cross and dot products have 64 bits.
fn circle_tiny(field: Field, a: V2, b: V2, c: V2, g: V2) -> Elem
    requires a { IsTinyVector a }
    requires b { IsTinyVector b }
    requires c { IsTinyVector c }
    requires g { IsTinyVector g }
    ensures { result ≡ circle field.d a b c g }
{
    let left = field.mul_narrow(cross_tiny(field, a, b), dot_tiny(field, c, g));
    left.add_fitting(field.mul_narrow(cross_tiny(field, c, g), dot_tiny(field, a, b)))
}
