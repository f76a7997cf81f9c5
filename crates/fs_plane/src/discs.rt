// Segments that come within a bound of (0,0).

ghost use Rattle.std.specs.Prelude.{◌≡◌, ◌+◌, ◌<◌, ◌^◌, ◌↔◌, IfOk, IsTrue};
ghost use Rattle.fs_plane.specs.Formulas.{comes_within_after, inner_comes_within_after, line_comes_within_after};
ghost use Rattle.fs_plane.specs.Vector.{ComesWithin};

use crate::formulas::{cross_after, dot_after, norm_after};
use crate::steps::vector_difference_after;
use crate::vector::V2;
use fs_quadratic::steps::product_at;
use fs_quadratic::{Elem, Field, Place};

/// Whether the segment from p to q, both ends included, comes within a distance of (0,0): whether some point of it is in
/// the closed disc about (0,0) whose squared radius is `bound`.
///
/// Places 1 to 3 are the squared length of p: where it is at most `bound`, the segment does. Places 4 to 6 are that of q,
/// likewise. Places 7 and 8 are e = q - p, 9 to 11 the dot product of p and e: where it isn't below 0, p is the nearest
/// point, and the segment doesn't. Places 12 to 14 are the dot product of q and e: where it isn't above 0, q is the nearest
/// point, and the segment doesn't. Places 15 to 17 are the cross product of p and e, 18 its square, 19 to 21 the squared
/// length of e, and 22 `bound` times it: the segment does where the square is at most this. A place that isn't needed isn't
/// tried. The error is the first place that overflows, where one does. Constant time.
pub fn comes_within(field: Field, p: V2, q: V2, bound: Elem) -> Result<bool, Place>
    ensures formula { result ≡ comes_within_after 0 field.d p q bound }
    ensures meaning { IfOk result (λ within. IsTrue within ↔ ComesWithin field.d p q bound) }
{
    comes_within_after(0, field, p, q, bound)
}

/// The same as a part of a formula, its places counted on from `before`.
pub fn comes_within_after(
    before: u32,
    field: Field,
    p: V2,
    q: V2,
    bound: Elem,
) -> Result<bool, Place>
    requires { before + 22 < 2 ^ 32 }
    ensures formula { result ≡ comes_within_after before field.d p q bound }
    ensures meaning { IfOk result (λ within. IsTrue within ↔ ComesWithin field.d p q bound) }
{
    test_segment(before, field, p, q, bound)
}

// The test of a segment by its formula alone.
#[tactic(auto, unfolding(crate::specs::Formulas::comes_within_after))]
fn test_segment(before: u32, field: Field, p: V2, q: V2, bound: Elem) -> Result<bool, Place>
    requires { before + 22 < 2 ^ 32 }
    ensures { result ≡ comes_within_after before field.d p q bound }
{
    let start = norm_after(before, field, p)?;
    if field.cmp(start, bound).is_le() {
        return Ok(true);
    }
    let end = norm_after(before + 3, field, q)?;
    if field.cmp(end, bound).is_le() {
        return Ok(true);
    }
    test_inner(before + 6, field, p, q, bound)
}

// The test of a segment whose ends don't come within the bound: only where the nearest point of its line is between them.
#[tactic(auto, unfolding(crate::specs::Formulas::inner_comes_within_after))]
fn test_inner(before: u32, field: Field, p: V2, q: V2, bound: Elem) -> Result<bool, Place>
    requires { before + 16 < 2 ^ 32 }
    ensures { result ≡ inner_comes_within_after before field.d p q bound }
{
    let e = vector_difference_after(before, q, p)?;
    let leaving = dot_after(before + 2, field, p, e)?;
    if field.sign(leaving).is_ge() {
        return Ok(false);
    }
    let arriving = dot_after(before + 5, field, q, e)?;
    if field.sign(arriving).is_le() {
        return Ok(false);
    }
    test_line(before + 8, field, p, e, bound)
}

// The test of the line of p and e.
#[tactic(auto, unfolding(crate::specs::Formulas::line_comes_within_after))]
fn test_line(before: u32, field: Field, p: V2, e: V2, bound: Elem) -> Result<bool, Place>
    requires { before + 8 < 2 ^ 32 }
    ensures { result ≡ line_comes_within_after before field.d p e bound }
{
    let area = cross_after(before, field, p, e)?;
    let square = product_at(before + 4, field, area, area)?;
    let length = norm_after(before + 4, field, e)?;
    let reach = product_at(before + 8, field, bound, length)?;
    Ok(field.cmp(square, reach).is_le())
}
