// The tests of a polygon, and the positions of its corners.

ghost use Rattle.std.specs.Prelude.{◌≡◌, ℕ, Bool, List, [], ◌∷◌, ◌++◌, ◌≤◌, ◌⊎◌, length, IfOk, OnOk, IfErr, count_by};
ghost use Rattle.std.specs.List.{AllByRecursion};
ghost use Rattle.fs_plane.specs.Vector.{PlaneVector, vector_zero};
ghost use Rattle.fs_gluing.specs.Limits.{most_sides};
ghost use Rattle.fs_gluing.specs.declared.faults.BuildStop.{BuildStop};
ghost use Rattle.fs_gluing.specs.Convex.{corners_of, is_rise, last_side};
ghost use Rattle.fs_gluing.specs.Positions.{positions_from};
ghost use Rattle.fs_gluing.specs.FirstFault.{PassesIn, polygon_tests, position_tests, corner_tests, stop_of};
ghost use Rattle.fs_gluing.specs.FirstFault.PolygonTest.{polygon_closes};
ghost use Rattle.fs_gluing.specs.FirstFault.Test.{of_polygon};
ghost use Rattle.fs_gluing.specs.TestsInOrder.{IsFirstStop};

use crate::faults::{BuildStop, Fault};
use crate::sequence::Sequence;
use fs_plane::{Corner, Place, Site, V2, is_convex};
use fs_quadratic::Field;
use std::alloc::Global;

// The positions of the corners of the polygon with the number i, where it passes its tests.
pub fn check_polygon(
    alloc: Global,
    field: Field,
    straight: bool,
    i: u16,
    sides: &[V2],
) -> Result<Sequence<V2>, BuildStop>
    requires { length sides.now ≤ most_sides }
    ensures passed { OnOk result (AllByRecursion (PassesIn straight field.d sides.now) (polygon_tests sides.now)) }
    ensures positions { IfOk result (λ positions. positions ≡ positions_from vector_zero sides.now) }
    ensures failed { IfErr result (λ e. (e ≡ BuildStop.NoMemory)
        ⊎ IsFirstStop (PassesIn straight field.d sides.now) (polygon_tests sides.now) (λ test. stop_of (of_polygon i sides.now test)) e) }
{
    if sides.len() < 3 {
        return Err(BuildStop::Fault(Fault::FewSides { polygon: i }));
    }
    let positions = find_positions(alloc, i, sides)?;
    check_corners(field, straight, i, sides)?;
    if count_rises(field, sides) != 1 {
        return Err(BuildStop::Fault(Fault::TurnsTwice { polygon: i }));
    }
    Ok(positions)
}

// The positions of the corners, where none overflows and the polygon closes.
fn find_positions(alloc: Global, i: u16, sides: &[V2]) -> Result<Sequence<V2>, BuildStop>
    requires { length sides.now ≤ most_sides }
    ensures passed { OnOk result ((straight : Bool) → (d : ℕ) → AllByRecursion (PassesIn straight d sides.now) (position_tests (length sides.now) ++ polygon_closes ∷ [])) }
    ensures positions { IfOk result (λ positions. positions ≡ positions_from vector_zero sides.now) }
    ensures failed { IfErr result (λ e. (e ≡ BuildStop.NoMemory) ⊎ ((straight : Bool) → (d : ℕ) →
        IsFirstStop (PassesIn straight d sides.now) (position_tests (length sides.now) ++ polygon_closes ∷ []) (λ test. stop_of (of_polygon i sides.now test)) e)) }
{
    let mut positions = Sequence::new(alloc);
    let mut position = V2::ZERO;
    for (j, vector) in sides.iter().enumerate() {
        let corner = Corner::new(i, j as u16);
        positions.push(position)?;
        let Ok(x) = position.x.add(vector.x) else {
            return Err(BuildStop::Overflow(Site::closing(corner, 1)));
        };
        let Ok(y) = position.y.add(vector.y) else {
            return Err(BuildStop::Overflow(Site::closing(corner, 2)));
        };
        position = V2 { x, y };
    }
    if position != V2::ZERO {
        return Err(BuildStop::Fault(Fault::NotClosed { polygon: i }));
    }
    Ok(positions)
}

// That each corner of the polygon with the number i is strictly convex, or also straight, where
// straight corners are allowed.
fn check_corners(field: Field, straight: bool, i: u16, sides: &[V2]) -> Result<(), BuildStop>
    requires { length sides.now ≤ most_sides }
    ensures passed { OnOk result (AllByRecursion (PassesIn straight field.d sides.now) (corner_tests 0 (corners_of sides.now))) }
    ensures failed { IfErr result
        (IsFirstStop (PassesIn straight field.d sides.now) (corner_tests 0 (corners_of sides.now)) (λ test. stop_of (of_polygon i sides.now test))) }
{
    let mut before = last_side(sides);
    for (j, after) in sides.iter().enumerate() {
        check_corner(field, straight, Corner::new(i, j as u16), before, *after)?;
        before = *after;
    }
    Ok(())
}

// That a corner is one of these, by the side before it and the side after it.
fn check_corner(
    field: Field,
    straight: bool,
    corner: Corner,
    before: V2,
    after: V2,
) -> Result<(), BuildStop>
    ensures passed { OnOk result ((sides : List PlaneVector) → AllByRecursion (PassesIn straight field.d sides)
        (corner_tests corner.side (record { before = before; after = after } ∷ []))) }
    ensures failed { IfErr result (λ e. (sides : List PlaneVector) → IsFirstStop (PassesIn straight field.d sides)
        (corner_tests corner.side (record { before = before; after = after } ∷ [])) (λ test. stop_of (of_polygon corner.polygon sides test)) e) }
{
    match is_convex(field, straight, before, after) {
        Ok(true) => Ok(()),
        Ok(false) => Err(BuildStop::Fault(Fault::NotConvex(corner))),
        Err(Place(place)) => Err(BuildStop::Overflow(Site::convexity(corner, place))),
    }
}

// At how many corners the boundary passes from the lower half to the upper.
fn count_rises(field: Field, sides: &[V2]) -> usize
    requires { length sides.now ≤ most_sides }
    ensures { result ≡ count_by (is_rise field.d) (corners_of sides.now) }
{
    let mut before = last_side(sides);
    let mut rises = 0;
    for after in sides {
        if before.neg().is_upper(field) && after.is_upper(field) {
            rises += 1;
        }
        before = *after;
    }
    rises
}

// The last side, or (0,0) where there is none.
fn last_side(sides: &[V2]) -> V2
    ensures { result ≡ last_side sides.now }
{
    sides.last().copied().unwrap_or(V2::ZERO)
}
