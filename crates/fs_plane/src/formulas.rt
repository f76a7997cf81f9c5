ghost use Rattle.std.specs.Prelude.{◌≡◌, ◌+◌, ◌<◌, ◌^◌, ◌↔◌, IfOk, IsTrue};
ghost use Rattle.fs_plane.specs.Formulas.{cross_after, dot_after, norm_after, in_sector_after, is_convex_after, is_above_zero};
ghost use Rattle.fs_plane.specs.Vector.{IsSmallVector, IsTinyVector, IsInSector, IsAllowedCorner, cross, dot, norm};

use crate::vector::V2;
use fs_quadratic::steps::{difference_at, product_at, sum_at};
use fs_quadratic::{Elem, Field, Place};
use std::cmp::Ordering;

/// The cross product a.x·b.y - a.y·b.x, or the first place that overflows: place 1 is
/// a.x·b.y, place 2 is a.y·b.x, and place 3 their difference.
pub fn cross(field: Field, a: V2, b: V2) -> Result<Elem, Place>
    ensures formula { result ≡ cross_after 0 field.d a b }
    ensures value { IfOk result (λ value. value ≡ cross field.d a b) }
{
    cross_after(0, field, a, b)
}

/// The cross product as a part of a formula, its places counted on from `before`.
#[inline]
pub fn cross_after(before: u32, field: Field, a: V2, b: V2) -> Result<Elem, Place>
    requires { before + 3 < 2 ^ 32 }
    ensures { result ≡ cross_after before field.d a b }
{
    if a.is_tiny() && b.is_tiny() {
        Ok(cross_tiny(field, a, b))
    } else {
        // Made anew for the call: then tiny vectors need no place in memory.
        let (a, b) = (V2 { x: a.x, y: a.y }, V2 { x: b.x, y: b.y });
        cross_wide(before, field, a, b)
    }
}

// The cross product of vectors that may not be tiny: a function of its own, so that the tiny ones take no call.
#[inline(never)]
fn cross_wide(before: u32, field: Field, a: V2, b: V2) -> Result<Elem, Place>
    requires { before + 3 < 2 ^ 32 }
    ensures { result ≡ cross_after before field.d a b }
{
    if a.is_small() && b.is_small() {
        Ok(cross_small(field, a, b))
    } else {
        cross_checked(before, field, a, b)
    }
}

// The cross product of vectors of any size.
#[tactic(auto, unfolding(crate::specs::Formulas::cross_after))]
fn cross_checked(before: u32, field: Field, a: V2, b: V2) -> Result<Elem, Place>
    requires { before + 3 < 2 ^ 32 }
    ensures { result ≡ cross_after before field.d a b }
{
    let left = product_at(before + 1, field, a.x, b.y)?;
    let right = product_at(before + 2, field, a.y, b.x)?;
    difference_at(before + 3, left, right)
}

/// The dot product a.x·b.x + a.y·b.y, or the first place that overflows: place 1 is
/// a.x·b.x, place 2 is a.y·b.y, and place 3 their sum.
pub fn dot(field: Field, a: V2, b: V2) -> Result<Elem, Place>
    ensures formula { result ≡ dot_after 0 field.d a b }
    ensures value { IfOk result (λ value. value ≡ dot field.d a b) }
{
    dot_after(0, field, a, b)
}

/// The dot product as a part of a formula, its places counted on from `before`.
#[inline]
pub fn dot_after(before: u32, field: Field, a: V2, b: V2) -> Result<Elem, Place>
    requires { before + 3 < 2 ^ 32 }
    ensures { result ≡ dot_after before field.d a b }
{
    if a.is_tiny() && b.is_tiny() {
        Ok(dot_tiny(field, a, b))
    } else {
        // Made anew for the call: then tiny vectors need no place in memory.
        let (a, b) = (V2 { x: a.x, y: a.y }, V2 { x: b.x, y: b.y });
        dot_wide(before, field, a, b)
    }
}

// The dot product of vectors that may not be tiny: a function of its own, so that the tiny ones take no call.
#[inline(never)]
fn dot_wide(before: u32, field: Field, a: V2, b: V2) -> Result<Elem, Place>
    requires { before + 3 < 2 ^ 32 }
    ensures { result ≡ dot_after before field.d a b }
{
    if a.is_small() && b.is_small() {
        Ok(dot_small(field, a, b))
    } else {
        dot_checked(before, field, a, b)
    }
}

// The dot product of vectors of any size.
#[tactic(auto, unfolding(crate::specs::Formulas::dot_after))]
fn dot_checked(before: u32, field: Field, a: V2, b: V2) -> Result<Elem, Place>
    requires { before + 3 < 2 ^ 32 }
    ensures { result ≡ dot_after before field.d a b }
{
    let left = product_at(before + 1, field, a.x, b.x)?;
    let right = product_at(before + 2, field, a.y, b.y)?;
    sum_at(before + 3, left, right)
}

/// The squared length as a part of a formula, its places counted on from `before`.
#[tactic(auto, unfolding(crate::specs::Formulas::norm_after))]
pub fn norm_after(before: u32, field: Field, a: V2) -> Result<Elem, Place>
    requires { before + 3 < 2 ^ 32 }
    ensures { result ≡ norm_after before field.d a }
{
    dot_after(before, field, a, a)
}

/// The squared length, which is the dot product of a with itself, and has its places.
#[tactic(auto, unfolding(crate::specs::Formulas::norm_after))]
pub fn norm(field: Field, a: V2) -> Result<Elem, Place>
    ensures formula { result ≡ norm_after 0 field.d a }
    ensures value { IfOk result (λ value. value ≡ norm field.d a) }
{
    dot(field, a, a)
}

/// Whether v is in the sector of a corner: from the side that begins there, included,
/// counterclockwise to the opposite of the side that ends there, excluded. The sector is less
/// than half a turn.
///
/// Places 1 to 3 are the cross product of the outgoing side and v: where it is below 0, v isn't in
/// the sector. Places 4 to 6 are their dot product, where the cross product is 0: v is in the
/// sector if the dot product is above 0. Places 7 to 9 are the cross product of v and the opposite
/// of the incoming side, where the first one is above 0: v is in the sector if this is above 0
/// too. The error is the first place that overflows, where one does.
pub fn in_sector(field: Field, out: V2, incoming: V2, v: V2) -> Result<bool, Place>
    ensures formula { result ≡ in_sector_after 0 field.d out incoming v }
    ensures sector { IfOk result (λ held. IsTrue held ↔ IsInSector field.d out incoming v) }
{
    test_sector(field, out, incoming, v)
}

// The sector test by its formula alone.
#[tactic(auto, unfolding(crate::specs::Formulas::in_sector_after))]
fn test_sector(field: Field, out: V2, incoming: V2, v: V2) -> Result<bool, Place>
    ensures { result ≡ in_sector_after 0 field.d out incoming v }
{
    let turn = cross_after(0, field, out, v)?;
    match field.sign(turn) {
        Ordering::Less => Ok(false),
        Ordering::Equal => is_along(field, out, v),
        Ordering::Greater => is_left(field, v, incoming.neg()),
    }
}

/// Whether a corner with the sides a, which ends there, and b, which begins there, is strictly
/// convex, or also straight, where straight corners are allowed: then b is along a. A side 0,0 makes
/// no such corner.
///
/// Places 1 to 3 are the cross product of a and b, which is above 0 at a strictly convex corner.
/// Places 4 to 6 are their dot product, where the cross product is 0 and straight corners are
/// allowed. The error is the first place that overflows, where one does.
pub fn is_convex(field: Field, straight: bool, a: V2, b: V2) -> Result<bool, Place>
    ensures formula { result ≡ is_convex_after 0 straight field.d a b }
    ensures convex { IfOk result (λ held. IsTrue held ↔ IsAllowedCorner straight field.d a b) }
{
    test_convex(field, straight, a, b)
}

// The convexity test by its formula alone.
#[tactic(auto, unfolding(crate::specs::Formulas::is_convex_after))]
fn test_convex(field: Field, straight: bool, a: V2, b: V2) -> Result<bool, Place>
    ensures { result ≡ is_convex_after 0 straight field.d a b }
{
    let turn = cross_after(0, field, a, b)?;
    match field.sign(turn) {
        Ordering::Greater => Ok(true),
        Ordering::Less => Ok(false),
        Ordering::Equal => {
            if straight {
                is_along(field, a, b)
            } else {
                Ok(false)
            }
        }
    }
}

// Whether a parallel vector points the same way.
fn is_along(field: Field, a: V2, b: V2) -> Result<bool, Place>
    ensures { result ≡ is_above_zero field.d (dot_after 3 field.d a b) }
{
    let value = dot_after(3, field, a, b)?;
    Ok(field.sign(value) == Ordering::Greater)
}

// Whether a vector is to the left of another.
fn is_left(field: Field, a: V2, b: V2) -> Result<bool, Place>
    ensures { result ≡ is_above_zero field.d (cross_after 6 field.d a b) }
{
    let value = cross_after(6, field, a, b)?;
    Ok(field.sign(value) == Ordering::Greater)
}

// The cross product of small vectors, which always fits.
pub(crate) fn cross_small(field: Field, a: V2, b: V2) -> Elem
    requires left { IsSmallVector a }
    requires right { IsSmallVector b }
    ensures { result ≡ cross field.d a b }
{
    let left = field.mul_small(a.x, b.y);
    left.sub_fitting(field.mul_small(a.y, b.x))
}

// The cross product of tiny vectors, whose two products have 64 bits.
pub(crate) fn cross_tiny(field: Field, a: V2, b: V2) -> Elem
    requires left { IsTinyVector a }
    requires right { IsTinyVector b }
    ensures { result ≡ cross field.d a b }
{
    let left = field.mul_tiny(a.x, b.y);
    left.sub_fitting(field.mul_tiny(a.y, b.x))
}

// The dot product of small vectors, which always fits.
pub(crate) fn dot_small(field: Field, a: V2, b: V2) -> Elem
    requires left { IsSmallVector a }
    requires right { IsSmallVector b }
    ensures { result ≡ dot field.d a b }
{
    let left = field.mul_small(a.x, b.x);
    left.add_fitting(field.mul_small(a.y, b.y))
}

// The dot product of tiny vectors, whose two products have 64 bits.
pub(crate) fn dot_tiny(field: Field, a: V2, b: V2) -> Elem
    requires left { IsTinyVector a }
    requires right { IsTinyVector b }
    ensures { result ≡ dot field.d a b }
{
    let left = field.mul_tiny(a.x, b.x);
    left.add_fitting(field.mul_tiny(a.y, b.y))
}
