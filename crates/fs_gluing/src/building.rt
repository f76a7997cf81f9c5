// `build`: the surface of a shape, or its first fault or overflow.

ghost use Rattle.std.specs.Prelude.{◌≡◌, ◌⊎◌, ◌≤◌, ◌<◌, ℕ, List, Ok, Err, length, map, Some, IsSome, IfOk, OnOk, IfErr};
ghost use Rattle.std.specs.List.{AllByRecursion};
ghost use Rattle.fs_gluing.specs.Limits.{most_polygons, most_sides};
ghost use Rattle.fs_gluing.specs.declared.faults.BuildStop.{BuildStop};
ghost use Rattle.fs_gluing.specs.declared.shapes.Glue.{Glue};
ghost use Rattle.fs_gluing.specs.Polygons.{all_sides};
ghost use Rattle.fs_gluing.specs.Positions.{all_positions};
ghost use Rattle.fs_gluing.specs.Shape.{IsWithinLimits, HasShape};
ghost use Rattle.fs_gluing.specs.FirstFault.{Test, IsFirstFailure, stop_of, IsBuildResult, Passes, PassesOf, tests_from, tests_of};
ghost use Rattle.fs_gluing.specs.FirstFault.Test.{side_glued};
ghost use Rattle.fs_gluing.specs.Surface.{GluedPolygons, IsSurface};
ghost use Rattle.fs_gluing.specs.TestsInOrder.{IsFirstStop};
ghost use Rattle.fs_gluing.specs.Gluing.{sides_between, glued_polygon, glued_polygons};
ghost use Rattle.fs_gluing.specs.PartnerTable.{partner_of};

use crate::faults::{BuildStop, Fault};
use crate::glue_lines::pair_sides;
use crate::partners::Partners;
use crate::polygons::check_polygon;
use crate::reaching::check_reached;
use crate::scaling::scale;
use crate::sequence::Sequence;
use crate::shapes::Shape;
use crate::surfaces::{Side, Surface};
use fs_plane::{Corner, V2};
use fs_quadratic::Field;
use fs_quadratic::width::signed;
use std::alloc::Global;

/// The surface of a shape of 1 to 256 polygons and at most 1,024 sides.
///
/// The vectors of the shape are unscaled. Those of the surface, and the positions of its corners,
/// are scaled: multiplied by its denominator, the least common multiple of all denominators.
///
/// Tested in this order; the first failure is returned. Of all sides: that the common denominator
/// up to each of them doesn't overflow, and then that no part of their vectors overflows, times
/// the denominator (`Overflow` at the site `Scale`). Of each polygon in turn: that it has three
/// sides (`FewSides`), that the positions of its corners, side by side, don't overflow (`Overflow`
/// at the site `Close`), that it closes (`NotClosed`); of each of its corners in turn that the
/// test of the two sides doesn't overflow (`Overflow` at the site `Corner`) and that it is strictly
/// convex, or also straight, where the shape allows straight corners (`NotConvex`); that it has
/// turning number 1 (`TurnsTwice`). Of each glue line in turn:
/// that its sides exist (`NoSuchSide`), that they differ and are on no earlier line
/// (`GluedTwice`), that they are opposite (`NotOpposite`). Of each side in turn, that it is on a
/// glue line (`Unglued`). Of each polygon in turn, that glued sides lead to it from polygon 0
/// (`Apart`). `NoMemory` is returned where memory runs out, at any time.
pub fn build(alloc: Global, field: Field, shape: &Shape) -> Result<Surface, BuildStop>
    requires { IsWithinLimits shape.now }
    ensures outcome { IsBuildResult field.d shape.now result }
    ensures first { (test : Test) → IsFirstFailure field.d shape.now test
        → (result ≡ Err BuildStop.NoMemory) ⊎ (result ≡ Err (stop_of test)) }
    ensures returned { (s : GluedPolygons) → IsSurface s → HasShape field.d shape.now s
        → AllByRecursion (PassesOf field.d shape.now) (tests_of shape.now)
        → (result ≡ Ok s) ⊎ (result ≡ Err BuildStop.NoMemory) }
{
    let scaled = scale(alloc, shape)?;
    let positions = check_polygons(alloc, field, shape.straight, &scaled.polygons)?;
    let partners = pair_sides(alloc, &scaled.polygons, shape.glues.as_slice())?;
    let glued = glue_polygons(alloc, &scaled.polygons, &partners)?;
    check_reached(alloc, &glued)?;
    Ok(Surface::new(field, shape.straight, signed(scaled.den), glued, positions))
}

// The positions of all corners, where each polygon passes its tests.
fn check_polygons(
    alloc: Global,
    field: Field,
    straight: bool,
    polygons: &Sequence<Sequence<V2>>,
) -> Result<Sequence<Sequence<V2>>, BuildStop>
    requires few { length polygons.now ≤ most_polygons }
    requires short { AllByRecursion (λ polygon. length polygon ≤ most_sides) polygons.now }
    ensures passed { OnOk result ((glues : List Glue) → AllByRecursion (Passes straight field.d polygons.now glues) (tests_from 0 polygons.now)) }
    ensures positions { IfOk result (λ positions. positions ≡ all_positions polygons.now) }
    ensures failed { IfErr result (λ e. (e ≡ BuildStop.NoMemory) ⊎ ((glues : List Glue)
        → IsFirstStop (Passes straight field.d polygons.now glues) (tests_from 0 polygons.now) stop_of e)) }
{
    let mut positions = Sequence::new(alloc);
    for (i, polygon) in polygons.as_slice().iter().enumerate() {
        positions.push(check_polygon(alloc, field, straight, i as u16, polygon.as_slice())?)?;
    }
    Ok(positions)
}

// The polygons with the partner of each side, or the first side that has none.
fn glue_polygons(
    alloc: Global,
    polygons: &Sequence<Sequence<V2>>,
    partners: &Partners,
) -> Result<Sequence<Sequence<Side>>, BuildStop>
    requires few { length polygons.now ≤ most_polygons }
    requires short { AllByRecursion (λ polygon. length polygon ≤ most_sides) polygons.now }
    ensures glued { IfOk result (λ rows. rows ≡ glued_polygons (partner_of partners.now) 0 polygons.now) }
    ensures passed { OnOk result (AllByRecursion (λ c. IsSome (partner_of partners.now c)) (all_sides polygons.now)) }
    ensures failed { IfErr result (λ e. (e ≡ BuildStop.NoMemory)
        ⊎ IsFirstStop (λ c. IsSome (partner_of partners.now c)) (all_sides polygons.now) (λ c. stop_of (side_glued c)) e) }
{
    let mut rows = Sequence::new(alloc);
    for (i, polygon) in polygons.as_slice().iter().enumerate() {
        rows.push(glue_polygon(alloc, i as u16, polygon.as_slice(), partners)?)?;
    }
    Ok(rows)
}

// The sides of the polygon with the number i, each with its partner, or the first that has none.
fn glue_polygon(
    alloc: Global,
    i: u16,
    sides: &[V2],
    partners: &Partners,
) -> Result<Sequence<Side>, BuildStop>
    requires { length sides.now ≤ most_sides }
    ensures glued { IfOk result (λ row. row ≡ glued_polygon (partner_of partners.now) i 0 sides.now) }
    ensures passed { OnOk result (AllByRecursion (λ c. IsSome (partner_of partners.now c)) (sides_between i 0 (length sides.now))) }
    ensures failed { IfErr result (λ e. (e ≡ BuildStop.NoMemory)
        ⊎ IsFirstStop (λ c. IsSome (partner_of partners.now c)) (sides_between i 0 (length sides.now)) (λ c. stop_of (side_glued c)) e) }
{
    let mut row = Sequence::new(alloc);
    for (j, vector) in sides.iter().enumerate() {
        let corner = Corner::new(i, j as u16);
        let Some(partner) = partners.get(corner) else {
            return Err(BuildStop::Fault(Fault::Unglued(corner)));
        };
        row.push(Side {
            vector: *vector,
            partner,
        })?;
    }
    Ok(row)
}
