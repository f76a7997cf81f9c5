// The common denominator of a shape, and its polygons times it.

ghost use Rattle.std.specs.Prelude.{◌≡◌, ◌⊎◌, ◌≤◌, ◌<◌, ◌<ℤ◌, ◌+◌, ◌*ℤ◌, ◌/◌, ◌^◌, [], ◌∷◌, Some, length, map, pos, IfOk, IfSome, OnOk, IfErr};
ghost use Rattle.std.specs.List.{AllByRecursion};
ghost use Rattle.std.specs.Option.{SomeIff};
ghost use Rattle.fs_quadratic.specs.Width.{InWidth};
ghost use Rattle.fs_fraction.specs.Fraction.{scale};
ghost use Rattle.fs_gluing.specs.Limits.{most_polygons, most_sides};
ghost use Rattle.fs_gluing.specs.declared.faults.BuildStop.{BuildStop};
ghost use Rattle.fs_gluing.specs.Scaling.{common_den, common_from, common_multiple, common_tests, part_tests, all_numbered, numbered_sides, scaled_vector, scale_tests, PassesScale};
ghost use Rattle.fs_gluing.specs.Scaling.ScaleTest.{part_fits};
ghost use Rattle.fs_gluing.specs.Shape.{IsWithinLimits, polygons_of};
ghost use Rattle.fs_gluing.specs.FirstFault.{stop_of};
ghost use Rattle.fs_gluing.specs.FirstFault.Test.{of_scaling};
ghost use Rattle.fs_gluing.specs.TestsInOrder.{IsFirstStop};

use crate::faults::BuildStop;
use crate::sequence::Sequence;
use crate::shapes::{Point, Shape};
use fs_fraction::{Frac, greatest_divisor};
use fs_plane::{Corner, Site, V2};
use fs_quadratic::Elem;
use fs_quadratic::width::{checked_natural_product, checked_product, signed};
use std::alloc::Global;

// Polygons by their side vectors, which are multiplied by one denominator.
#[derive(Drop)]
pub struct Scaled {
    pub den: u128,
    pub polygons: Sequence<Sequence<V2>>,
}

// The polygons of a shape times the common denominator of all coordinates.
pub fn scale(alloc: Global, shape: &Shape) -> Result<Scaled, BuildStop>
    requires { IsWithinLimits shape.now }
    ensures passed { OnOk result (AllByRecursion PassesScale (scale_tests shape.now.polygons)) }
    ensures den { IfOk result (λ s. s.den ≡ common_den shape.now.polygons) }
    ensures polygons { IfOk result (λ s. s.polygons ≡ polygons_of shape.now) }
    ensures positive { IfOk result (λ s. 0 < s.den) }
    ensures within { IfOk result (λ s. s.den < 2 ^ 127) }
    ensures failed { IfErr result (λ e. (e ≡ BuildStop.NoMemory)
        ⊎ IsFirstStop PassesScale (scale_tests shape.now.polygons) (λ test. stop_of (of_scaling test)) e) }
{
    let den = common_den(&shape.polygons)?;
    let polygons = scale_polygons(alloc, den, &shape.polygons)?;
    Ok(Scaled { den, polygons })
}

// The common denominator of all coordinates of the polygons.
fn common_den(polygons: &Sequence<Sequence<Point>>) -> Result<u128, BuildStop>
    requires few { length polygons.now ≤ most_polygons }
    requires short { AllByRecursion (λ polygon. length polygon ≤ most_sides) polygons.now }
    ensures passed { OnOk result (AllByRecursion PassesScale (common_tests 1 (all_numbered polygons.now))) }
    ensures value { IfOk result (λ den. den ≡ common_den polygons.now) }
    ensures positive { IfOk result (λ den. 0 < den) }
    ensures within { IfOk result (λ den. den < 2 ^ 127) }
    ensures failed { IfErr result (IsFirstStop PassesScale (common_tests 1 (all_numbered polygons.now)) (λ test. stop_of (of_scaling test))) }
{
    let mut den = 1;
    for (i, polygon) in polygons.as_slice().iter().enumerate() {
        den = common_of_polygon(den, i as u16, polygon.as_slice())?;
    }
    Ok(den)
}

// The common multiple of m and the denominators of the polygon with the number i.
fn common_of_polygon(m: u128, i: u16, points: &[Point]) -> Result<u128, BuildStop>
    requires short { length points.now ≤ most_sides }
    requires positive { 0 < m }
    requires within { m < 2 ^ 127 }
    ensures passed { OnOk result (AllByRecursion PassesScale (common_tests m (numbered_sides i 0 points.now))) }
    ensures value { IfOk result (λ den. den ≡ common_from m (numbered_sides i 0 points.now)) }
    ensures positive { IfOk result (λ den. 0 < den) }
    ensures within { IfOk result (λ den. den < 2 ^ 127) }
    ensures failed { IfErr result (IsFirstStop PassesScale (common_tests m (numbered_sides i 0 points.now)) (λ test. stop_of (of_scaling test))) }
{
    let mut den = m;
    for (j, point) in points.iter().enumerate() {
        den = common_of_side(den, Corner::new(i, j as u16), *point)?;
    }
    Ok(den)
}

// The common multiple of m and the two denominators of a side.
fn common_of_side(m: u128, corner: Corner, point: Point) -> Result<u128, BuildStop>
    requires { 0 < m }
    ensures passed { OnOk result (AllByRecursion PassesScale (common_tests m (numbered_sides corner.polygon corner.side (point ∷ [])))) }
    ensures value { IfOk result (λ den. den ≡ common_from m (numbered_sides corner.polygon corner.side (point ∷ []))) }
    ensures positive { IfOk result (λ den. 0 < den) }
    ensures within { IfOk result (λ den. den < 2 ^ 127) }
    ensures failed { IfErr result (IsFirstStop PassesScale (common_tests m (numbered_sides corner.polygon corner.side (point ∷ []))) (λ test. stop_of (of_scaling test))) }
{
    let Some(with_x) = common_multiple(m, point.x) else {
        return Err(overflow(corner, 1));
    };
    let Some(with_y) = common_multiple(with_x, point.y) else {
        return Err(overflow(corner, 2));
    };
    Ok(with_y)
}

// The common multiple of m and a denominator, where it is within the width.
fn common_multiple(m: u128, x: Frac) -> Option<u128>
    requires { 0 < m }
    ensures value { SomeIff result (InWidth (pos (common_multiple m x.den))) (common_multiple m x.den) }
    ensures positive { IfSome result (λ den. 0 < den) }
    ensures within { IfSome result (λ den. den < 2 ^ 127) }
{
    let n = x.denominator();
    if m == n {
        return Some(m);
    }
    checked_natural_product(m, n / greatest_divisor(m, n))
}

// The polygons times den, a multiple of all their denominators.
fn scale_polygons(
    alloc: Global,
    den: u128,
    polygons: &Sequence<Sequence<Point>>,
) -> Result<Sequence<Sequence<V2>>, BuildStop>
    requires within { den < 2 ^ 127 }
    requires few { length polygons.now ≤ most_polygons }
    requires short { AllByRecursion (λ polygon. length polygon ≤ most_sides) polygons.now }
    ensures passed { OnOk result (AllByRecursion PassesScale (part_tests den (all_numbered polygons.now))) }
    ensures scaled { IfOk result (λ rows. rows ≡ map (map (scaled_vector den)) polygons.now) }
    ensures failed { IfErr result (λ e. (e ≡ BuildStop.NoMemory)
        ⊎ IsFirstStop PassesScale (part_tests den (all_numbered polygons.now)) (λ test. stop_of (of_scaling test)) e) }
{
    let mut rows = Sequence::new(alloc);
    for (i, polygon) in polygons.as_slice().iter().enumerate() {
        rows.push(scale_polygon(alloc, den, i as u16, polygon.as_slice())?)?;
    }
    Ok(rows)
}

// The sides of the polygon with the number i times den.
fn scale_polygon(
    alloc: Global,
    den: u128,
    i: u16,
    points: &[Point],
) -> Result<Sequence<V2>, BuildStop>
    requires within { den < 2 ^ 127 }
    requires short { length points.now ≤ most_sides }
    ensures passed { OnOk result (AllByRecursion PassesScale (part_tests den (numbered_sides i 0 points.now))) }
    ensures scaled { IfOk result (λ row. row ≡ map (scaled_vector den) points.now) }
    ensures failed { IfErr result (λ e. (e ≡ BuildStop.NoMemory)
        ⊎ IsFirstStop PassesScale (part_tests den (numbered_sides i 0 points.now)) (λ test. stop_of (of_scaling test)) e) }
{
    let mut row = Sequence::new(alloc);
    for (j, point) in points.iter().enumerate() {
        row.push(scale_side(den, Corner::new(i, j as u16), *point)?)?;
    }
    Ok(row)
}

// The vector of a side times den.
fn scale_side(den: u128, corner: Corner, point: Point) -> Result<V2, BuildStop>
    requires { den < 2 ^ 127 }
    ensures passed { OnOk result (AllByRecursion PassesScale (part_tests den (numbered_sides corner.polygon corner.side (point ∷ [])))) }
    ensures scaled { IfOk result (λ vector. vector ≡ scaled_vector den point) }
    ensures failed { IfErr result (IsFirstStop PassesScale (part_tests den (numbered_sides corner.polygon corner.side (point ∷ []))) (λ test. stop_of (of_scaling test))) }
{
    let x = scale_coordinate(den, point.x, corner, 3)?;
    let y = scale_coordinate(den, point.y, corner, 5)?;
    Ok(V2 { x, y })
}

// A coordinate times den. The places of its two parts are `place` and the next.
fn scale_coordinate(den: u128, x: Frac, corner: Corner, place: u32) -> Result<Elem, BuildStop>
    requires within { den < 2 ^ 127 }
    requires place { place ≤ 5 }
    ensures passed { OnOk result (AllByRecursion PassesScale
        (part_fits corner.polygon corner.side place (den / x.den) x.num.p
        ∷ part_fits corner.polygon corner.side (place + 1) (den / x.den) x.num.q ∷ [])) }
    ensures scaled { IfOk result (λ y. y ≡ scale (den / x.den) x.num) }
    ensures failed { IfErr result (IsFirstStop PassesScale
        (part_fits corner.polygon corner.side place (den / x.den) x.num.p
        ∷ part_fits corner.polygon corner.side (place + 1) (den / x.den) x.num.q ∷ []) (λ test. stop_of (of_scaling test))) }
{
    if den == x.denominator() {
        return Ok(x.num());
    }
    scale_parts(den, x, corner, place)
}

// The parts of a coordinate times den over its denominator.
fn scale_parts(den: u128, x: Frac, corner: Corner, place: u32) -> Result<Elem, BuildStop>
    requires within { den < 2 ^ 127 }
    requires place { place ≤ 5 }
    ensures passed { OnOk result (AllByRecursion PassesScale
        (part_fits corner.polygon corner.side place (den / x.den) x.num.p
        ∷ part_fits corner.polygon corner.side (place + 1) (den / x.den) x.num.q ∷ [])) }
    ensures scaled { IfOk result (λ y. y ≡ scale (den / x.den) x.num) }
    ensures failed { IfErr result (IsFirstStop PassesScale
        (part_fits corner.polygon corner.side place (den / x.den) x.num.p
        ∷ part_fits corner.polygon corner.side (place + 1) (den / x.den) x.num.q ∷ []) (λ test. stop_of (of_scaling test))) }
{
    let factor = factor(den, x);
    let Some(p) = checked_product(factor, x.num().p()) else {
        return Err(overflow(corner, place));
    };
    let Some(q) = checked_product(factor, x.num().q()) else {
        return Err(overflow(corner, place + 1));
    };
    Ok(Elem::new(p, q))
}

// den over a denominator, which divides it.
fn factor(den: u128, x: Frac) -> i128
    requires { den < 2 ^ 127 }
    ensures { result ≡ pos (den / x.den) }
{
    signed(den / x.denominator())
}

// Scaling overflows at this place of a side.
fn overflow(corner: Corner, place: u32) -> BuildStop
    ensures { result ≡ BuildStop.Overflow (Site.Scale corner.polygon corner.side place) }
{
    BuildStop::Overflow(Site::scaling(corner, place))
}
