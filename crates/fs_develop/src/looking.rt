// What a straight path finds at a corner of a polygon through which it runs.

ghost use Rattle.std.specs.Prelude.{◌≡◌, ◌≤◌};
ghost use Rattle.fs_quadratic.specs.Ring.{sign, sign_by_parts};
ghost use Rattle.fs_quadratic.specs.Width.{IsSmall};
ghost use Rattle.fs_gluing.specs.Limits.{most_sides};
ghost use Rattle.fs_develop.specs.Looking.{look, look_at_corner, look_at_side};

use fs_plane::steps::{
    cross_after, dot_after, norm_after, vector_difference_after, vector_sum_after,
};
use fs_plane::{Place, V2};
use fs_quadratic::{Elem, Field};
use std::cmp::Ordering;

// What a path finds at a corner: the corner is at this position, right of the path; or it is the last at which the
// path looks in this polygon.
#[derive(Clone, Copy, Debug, PartialEq, Eq)]
pub enum Finding {
    RightOfPath(V2),
    Last(Departure),
}

// How a path leaves a polygon or ends in it: it ends at a corner; it meets a corner before its end; it ends
// before it comes to a corner or a side; or it crosses a side.
#[derive(Clone, Copy, Debug, PartialEq, Eq)]
pub enum Departure {
    EndsAtCorner,
    MeetsCorner,
    EndsBefore,
    Crosses,
}

// What the path along v finds at the corner to which a side leads from a position, where `corners` corners of the
// polygon came before.
#[tactic(auto, unfolding(crate::specs::Looking::look))]
pub fn look(corners: u32, field: Field, v: V2, from: V2, side: V2) -> Result<Finding, Place>
    requires { corners ≤ most_sides }
    ensures { result ≡ look corners field.d v from side }
{
    let corner = vector_sum_after(5 * corners, from, side)?;
    let turn = cross_after(5 * corners + 2, field, v, corner)?;
    match sign(field, turn) {
        Ordering::Less => Ok(Finding::RightOfPath(corner)),
        Ordering::Equal => look_at_corner(field, v, corner),
        Ordering::Greater => look_at_side(field, v, from, side),
    }
}

// The sign of a number. Without an r part it is that of the rational part: most paths have such numbers alone.
#[inline]
fn sign(field: Field, x: Elem) -> Ordering
    ensures { result ≡ sign field.d x }
{
    if x.q() == 0 {
        x.p().cmp(&0)
    } else if x.is_small() {
        small_sign(field, x)
    } else {
        field.sign(x)
    }
}

// The sign of a small number, from its two parts p and q·√d and their squares.
fn small_sign(field: Field, x: Elem) -> Ordering
    requires { IsSmall x }
    ensures { result ≡ sign field.d x }
{
    let (p, q) = (Elem::new(x.p(), 0), Elem::new(0, x.q()));
    let squares = field.mul_small(p, p).p().cmp(&field.mul_small(q, q).p());
    sign_by_parts(x.p().cmp(&0), x.q().cmp(&0), squares)
}

// The sign of a number from those of its parts, and from how their squares compare.
fn sign_by_parts(p: Ordering, q: Ordering, squares: Ordering) -> Ordering
    ensures { result ≡ sign_by_parts p q squares }
{
    match (p, q) {
        (Ordering::Greater, Ordering::Less) => squares,
        (Ordering::Less, Ordering::Greater) => squares.reverse(),
        (Ordering::Equal, _) => q,
        _ => p,
    }
}

// What it finds at a corner on its line.
#[tactic(auto, unfolding(crate::specs::Looking::look_at_corner))]
fn look_at_corner(field: Field, v: V2, corner: V2) -> Result<Finding, Place>
    ensures { result ≡ look_at_corner field.d v corner }
{
    if corner == v {
        return Ok(Finding::Last(Departure::EndsAtCorner));
    }
    let reach = dot_after(6000, field, v, corner)?;
    let length = norm_after(6003, field, v)?;
    if field.cmp(reach, length) == Ordering::Less {
        Ok(Finding::Last(Departure::MeetsCorner))
    } else {
        Ok(Finding::Last(Departure::EndsBefore))
    }
}

// What it finds at the first corner to its left, to which a side leads from its right.
#[tactic(auto, unfolding(crate::specs::Looking::look_at_side))]
fn look_at_side(field: Field, v: V2, from: V2, side: V2) -> Result<Finding, Place>
    ensures { result ≡ look_at_side field.d v from side }
{
    let rest = vector_difference_after(6010, v, from)?;
    let turn = cross_after(6012, field, side, rest)?;
    if sign(field, turn) == Ordering::Less {
        Ok(Finding::Last(Departure::Crosses))
    } else {
        Ok(Finding::Last(Departure::EndsBefore))
    }
}
