// Surfaces built from shapes, without straight corners and with them, and the first faults and sites of
// shapes that have none. All expected values were worked out by hand.
ghost use Rattle.std.specs.Prelude.{◌≤◌, IfOk, length};

use crate::common::{MOST, Parts, Vector, field, frac};
use fs_gluing::{BuildStop, Fault, Glue, Point, Sequence, Shape, Surface, build};
use fs_plane::{Corner, Site};
use std::alloc::{AllocError, Global};
use std::process::Abort;
use std::test::Fail;

// A result: `surface`, or the name of the fault or the site, and its numbers.
type Told = (&'static str, u32, u32, u32);

const SURFACE: Told = ("surface", 0, 0, 0);

// 2^64 and 2^65, whose squares overflow; 2^63, of whose square the double overflows, and 2^63 - 1, of
// whose square it doesn't; 2^126, whose double overflows.
const BIG: i128 = 18446744073709551616;

const BIG_TWICE: i128 = 36893488147419103232;

const HALF: i128 = 9223372036854775808;

const LESS: i128 = 9223372036854775807;

const DEEP: i128 = 85070591730234615865843651857942052864;

// The sides of a polygon, the pairs of its sides that are glued, and the result without straight
// corners, and with them. The field is that of √2.
type Row = (&'static [Vector], &'static [(u16, u16)], Told, Told);

static CORNERS: [Row; 21] = [
    // a square
    (
        &[
            ((1, 0), (0, 0)),
            ((0, 0), (1, 0)),
            ((-1, 0), (0, 0)),
            ((0, 0), (-1, 0)),
        ],
        &[(0, 2), (1, 3)],
        SURFACE,
        SURFACE,
    ),
    // two squares in one polygon, with straight corners at 1 and 4
    (
        &[
            ((1, 0), (0, 0)),
            ((1, 0), (0, 0)),
            ((0, 0), (1, 0)),
            ((-1, 0), (0, 0)),
            ((-1, 0), (0, 0)),
            ((0, 0), (-1, 0)),
        ],
        &[(0, 3), (1, 4), (2, 5)],
        ("NotConvex", 0, 1, 0),
        SURFACE,
    ),
    // the same, where one of the sides is √2
    (
        &[
            ((0, 1), (0, 0)),
            ((1, 0), (0, 0)),
            ((0, 0), (1, 0)),
            ((-1, 0), (0, 0)),
            ((0, -1), (0, 0)),
            ((0, 0), (-1, 0)),
        ],
        &[(0, 4), (1, 3), (2, 5)],
        ("NotConvex", 0, 1, 0),
        SURFACE,
    ),
    // corner 0 is straight: the side that ends there is the last
    (
        &[
            ((1, 0), (0, 0)),
            ((0, 0), (1, 0)),
            ((-2, 0), (0, 0)),
            ((0, 0), (-1, 0)),
            ((1, 0), (0, 0)),
        ],
        &[],
        ("NotConvex", 0, 0, 0),
        ("Unglued", 0, 0, 0),
    ),
    // a side 0,0
    (
        &[
            ((1, 0), (0, 0)),
            ((0, 0), (0, 0)),
            ((0, 0), (1, 0)),
            ((-1, 0), (0, 0)),
            ((0, 0), (-1, 0)),
        ],
        &[],
        ("NotConvex", 0, 1, 0),
        ("NotConvex", 0, 1, 0),
    ),
    // the boundary turns back
    (
        &[
            ((2, 0), (0, 0)),
            ((-1, 0), (0, 0)),
            ((0, 0), (1, 0)),
            ((-1, 0), (-1, 0)),
        ],
        &[],
        ("NotConvex", 0, 1, 0),
        ("NotConvex", 0, 1, 0),
    ),
    // it bends right
    (
        &[
            ((0, 0), (1, 0)),
            ((1, 0), (0, 0)),
            ((0, 0), (-1, 0)),
            ((-1, 0), (0, 0)),
        ],
        &[],
        ("NotConvex", 0, 0, 0),
        ("NotConvex", 0, 0, 0),
    ),
    // twice round a square
    (
        &[
            ((1, 0), (0, 0)),
            ((0, 0), (1, 0)),
            ((-1, 0), (0, 0)),
            ((0, 0), (-1, 0)),
            ((1, 0), (0, 0)),
            ((0, 0), (1, 0)),
            ((-1, 0), (0, 0)),
            ((0, 0), (-1, 0)),
        ],
        &[],
        ("TurnsTwice", 0, 0, 0),
        ("TurnsTwice", 0, 0, 0),
    ),
    // places 1 to 3: the two products of the cross product, and their difference
    (
        &[
            ((0, 0), (BIG, 0)),
            ((-BIG, 0), (0, 0)),
            ((0, 0), (-BIG, 0)),
            ((BIG, 0), (0, 0)),
        ],
        &[],
        ("corner", 0, 0, 1),
        ("corner", 0, 0, 1),
    ),
    (
        &[
            ((BIG, 0), (0, 0)),
            ((0, 0), (BIG, 0)),
            ((-BIG, 0), (0, 0)),
            ((0, 0), (-BIG, 0)),
        ],
        &[],
        ("corner", 0, 0, 2),
        ("corner", 0, 0, 2),
    ),
    (
        &[
            ((HALF, 0), (HALF, 0)),
            ((-BIG, 0), (0, 0)),
            ((HALF, 0), (-HALF, 0)),
        ],
        &[],
        ("corner", 0, 0, 3),
        ("corner", 0, 0, 3),
    ),
    // places 4 to 6: the two products of the dot product, and their sum
    (
        &[
            ((BIG, 0), (0, 0)),
            ((BIG, 0), (0, 0)),
            ((0, 0), (1, 0)),
            ((-BIG_TWICE, 0), (0, 0)),
            ((0, 0), (-1, 0)),
        ],
        &[],
        ("NotConvex", 0, 1, 0),
        ("corner", 0, 1, 4),
    ),
    (
        &[
            ((1, 0), (0, 0)),
            ((0, 0), (BIG, 0)),
            ((0, 0), (BIG, 0)),
            ((-1, 0), (0, 0)),
            ((0, 0), (-BIG_TWICE, 0)),
        ],
        &[],
        ("NotConvex", 0, 2, 0),
        ("corner", 0, 2, 5),
    ),
    (
        &[
            ((HALF, 0), (HALF, 0)),
            ((HALF, 0), (HALF, 0)),
            ((-BIG, 0), (1 - BIG, 0)),
            ((0, 0), (-1, 0)),
        ],
        &[],
        ("NotConvex", 0, 1, 0),
        ("corner", 0, 1, 6),
    ),
    // the sum is within the width
    (
        &[
            ((LESS, 0), (LESS, 0)),
            ((LESS, 0), (LESS, 0)),
            ((-LESS - LESS, 0), (1 - LESS - LESS, 0)),
            ((0, 0), (-1, 0)),
        ],
        &[],
        ("NotConvex", 0, 1, 0),
        ("Unglued", 0, 0, 0),
    ),
    // the positions at the ends of the sides, x before y
    (
        &[
            ((MOST, 0), (0, 0)),
            ((1, 0), (1, 0)),
            ((-MOST, 0), (0, 0)),
            ((-1, 0), (-1, 0)),
        ],
        &[],
        ("close", 0, 1, 1),
        ("close", 0, 1, 1),
    ),
    (
        &[
            ((0, 0), (MOST, 0)),
            ((1, 0), (1, 0)),
            ((0, 0), (-MOST, 0)),
            ((-1, 0), (-1, 0)),
        ],
        &[],
        ("close", 0, 1, 2),
        ("close", 0, 1, 2),
    ),
    (
        &[
            ((0, -MOST), (0, 0)),
            ((0, -1), (0, 0)),
            ((0, MOST), (0, 0)),
            ((0, 1), (0, 0)),
        ],
        &[],
        ("close", 0, 1, 1),
        ("close", 0, 1, 1),
    ),
    (
        &[
            ((MOST, 0), (0, 0)),
            ((0, 0), (1, 0)),
            ((-MOST, 0), (1, 0)),
            ((-1, 0), (MOST, 0)),
        ],
        &[],
        ("close", 0, 3, 2),
        ("close", 0, 3, 2),
    ),
    // two sides, and three that don't close
    (
        &[((1, 0), (0, 0)), ((-1, 0), (0, 0))],
        &[],
        ("FewSides", 0, 0, 0),
        ("FewSides", 0, 0, 0),
    ),
    (
        &[((1, 0), (0, 0)), ((0, 0), (1, 0)), ((-1, 0), (0, 0))],
        &[],
        ("NotClosed", 0, 0, 0),
        ("NotClosed", 0, 0, 0),
    ),
];

// The sides of a polygon with fractions, and the result. All denominators are tested before any part,
// and both before the number of sides.
static SCALES: [(&[(Parts, Parts)], Told); 14] = [
    (
        &[((1, 0, DEEP), (0, 0, 1)), ((1, 0, 3), (0, 0, 1))],
        ("scale", 0, 1, 1),
    ),
    (
        &[((1, 0, MOST), (1, 0, MOST)), ((1, 0, 2), (0, 0, 1))],
        ("scale", 0, 1, 1),
    ),
    (&[((1, 0, DEEP), (1, 0, 3))], ("scale", 0, 0, 2)),
    (&[((1, 0, DEEP), (1, 0, BIG))], ("FewSides", 0, 0, 0)),
    (&[((DEEP, 0, 1), (1, 0, 2))], ("scale", 0, 0, 3)),
    (&[((DEEP - 1, 0, 1), (1, 0, 2))], ("FewSides", 0, 0, 0)),
    (&[((-DEEP, 0, 1), (1, 0, 2))], ("scale", 0, 0, 3)),
    (&[((DEEP, DEEP, 1), (1, 0, 2))], ("scale", 0, 0, 3)),
    (&[((1, DEEP, 1), (1, 0, 2))], ("scale", 0, 0, 4)),
    (&[((1, 0, 2), (DEEP, 1, 1))], ("scale", 0, 0, 5)),
    (&[((1, 0, 2), (1, DEEP, 1))], ("scale", 0, 0, 6)),
    (
        &[
            ((1, 0, 2), (0, 0, 1)),
            ((0, 0, 1), (0, 0, 1)),
            ((0, 0, 1), (0, DEEP, 1)),
        ],
        ("scale", 0, 2, 6),
    ),
    (
        &[((DEEP, 0, 1), (1, 0, 2)), ((1, 0, DEEP), (1, 0, 3))],
        ("scale", 0, 1, 2),
    ),
    (
        &[((1, 0, 2), (DEEP, 0, 1)), ((DEEP, 0, 1), (0, 0, 1))],
        ("scale", 0, 0, 5),
    ),
];

// The sides of polygon 1 after a square, and the result without straight corners, and with them.
static SECONDS: [(&[(Parts, Parts)], Told, Told); 3] = [
    (
        &[
            ((1, 0, 1), (0, 0, 1)),
            ((0, 0, 1), (MOST, 0, 1)),
            ((-1, 0, 1), (1, 0, 1)),
        ],
        ("close", 1, 2, 2),
        ("close", 1, 2, 2),
    ),
    (
        &[((0, 0, 1), (0, 0, 1)), ((1, 0, 2), (DEEP, 0, 1))],
        ("scale", 1, 1, 5),
        ("scale", 1, 1, 5),
    ),
    (
        &[
            ((BIG, 0, 1), (0, 0, 1)),
            ((BIG, 0, 1), (0, 0, 1)),
            ((0, 0, 1), (1, 0, 1)),
            ((-BIG_TWICE, 0, 1), (0, 0, 1)),
            ((0, 0, 1), (-1, 0, 1)),
        ],
        ("NotConvex", 1, 1, 0),
        ("corner", 1, 1, 4),
    ),
];

// A square, and a rectangle with the sides 1/4 and 1/6.
static SQUARE: [(Parts, Parts); 4] = [
    ((1, 0, 1), (0, 0, 1)),
    ((0, 0, 1), (1, 0, 1)),
    ((-1, 0, 1), (0, 0, 1)),
    ((0, 0, 1), (-1, 0, 1)),
];

static RECTANGLE: [(Parts, Parts); 4] = [
    ((1, 0, 4), (0, 0, 1)),
    ((0, 0, 1), (1, 0, 6)),
    ((-1, 0, 4), (0, 0, 1)),
    ((0, 0, 1), (-1, 0, 6)),
];

fn of_corner(name: &'static str, corner: Corner) -> Told {
    (name, u32::from(corner.polygon), u32::from(corner.side), 0)
}

fn of_fault(fault: Fault) -> Told {
    match fault {
        Fault::FewSides { polygon } => ("FewSides", u32::from(polygon), 0, 0),
        Fault::NotClosed { polygon } => ("NotClosed", u32::from(polygon), 0, 0),
        Fault::NotConvex(corner) => of_corner("NotConvex", corner),
        Fault::TurnsTwice { polygon } => ("TurnsTwice", u32::from(polygon), 0, 0),
        Fault::Unglued(corner) => of_corner("Unglued", corner),
        _ => ("another fault", 0, 0, 0),
    }
}

fn of_site(site: Site) -> Told {
    match site {
        Site::Scale {
            polygon,
            side,
            place,
        } => ("scale", polygon, side, place),
        Site::Close {
            polygon,
            side,
            place,
        } => ("close", polygon, side, place),
        Site::Corner {
            polygon,
            side,
            place,
        } => ("corner", polygon, side, place),
        _ => ("another site", 0, 0, 0),
    }
}

fn told(built: &Result<Surface, BuildStop>) -> Told {
    match built {
        Ok(_) => SURFACE,
        Err(BuildStop::Fault(fault)) => of_fault(*fault),
        Err(BuildStop::Overflow(site)) => of_site(*site),
        Err(BuildStop::NoMemory) => ("no memory", 0, 0, 0),
    }
}

// The vector of a side.
fn point(rt: &impl Abort, side: &(Parts, Parts)) -> Point {
    Point {
        x: frac(rt, side.0),
        y: frac(rt, side.1),
    }
}

// The same, where it is over 1.
fn whole_point(rt: &impl Abort, side: &Vector) -> Point {
    let ((p, q), (r, s)) = *side;
    point(rt, &((p, q, 1), (r, s, 1)))
}

// The polygon with these sides, of which there are at most 100.
fn polygon(
    rt: &impl Abort,
    alloc: Global,
    sides: &[(Parts, Parts)],
) -> Result<Sequence<Point>, AllocError>
    ensures { IfOk result (λ points. length points ≤ 100) }
{
    let mut points = Sequence::new(alloc);
    for side in sides {
        points.push(point(rt, side))?;
    }
    assert!(rt; points.len() <= 100);
    Ok(points)
}

// The same, where the sides are over 1.
fn whole_polygon(
    rt: &impl Abort,
    alloc: Global,
    sides: &[Vector],
) -> Result<Sequence<Point>, AllocError>
    ensures { IfOk result (λ points. length points ≤ 100) }
{
    let mut points = Sequence::new(alloc);
    for side in sides {
        points.push(whole_point(rt, side))?;
    }
    assert!(rt; points.len() <= 100);
    Ok(points)
}

// The glue lines of these pairs of sides of polygon 0.
fn glue_lines(alloc: Global, pairs: &[(u16, u16)]) -> Result<Sequence<Glue>, AllocError> {
    let mut glues = Sequence::new(alloc);
    for (one, two) in pairs {
        glues.push(Glue {
            line: 0,
            one: Corner::new(0, *one),
            two: Corner::new(0, *two),
        })?;
    }
    Ok(glues)
}

// What is built from one polygon.
fn built(
    rt: &impl Abort,
    alloc: Global,
    points: Sequence<Point>,
    pairs: &[(u16, u16)],
    straight: bool,
) -> Result<Result<Surface, BuildStop>, AllocError>
    requires { length points ≤ 100 }
{
    let mut polygons = Sequence::new(alloc);
    polygons.push(points)?;
    let shape = Shape {
        polygons,
        glues: glue_lines(alloc, pairs)?,
        straight,
    };
    Ok(build(alloc, field(rt, 2), &shape))
}

// What is built from a square and another polygon, without glue lines.
fn built_second(
    rt: &impl Abort,
    alloc: Global,
    points: Sequence<Point>,
    straight: bool,
) -> Result<Result<Surface, BuildStop>, AllocError>
    requires { length points ≤ 100 }
{
    let mut polygons = Sequence::new(alloc);
    polygons.push(polygon(rt, alloc, &SQUARE)?)?;
    polygons.push(points)?;
    let shape = Shape {
        polygons,
        glues: Sequence::new(alloc),
        straight,
    };
    Ok(build(alloc, field(rt, 2), &shape))
}

// That what was built for a row is this.
fn expect(rt: &impl Abort, row: usize, returned: &Result<Surface, BuildStop>, expected: Told) {
    assert!(rt; told(returned) == expected, "row {row}");
}

// That the polygon of a row has its results.
fn expect_corner(rt: &impl Abort, alloc: Global, number: usize, row: &Row) -> Result<(), Fail> {
    let without = built(rt, alloc, whole_polygon(rt, alloc, row.0)?, row.1, false)?;
    expect(rt, number, &without, row.2);
    let with = built(rt, alloc, whole_polygon(rt, alloc, row.0)?, row.1, true)?;
    expect(rt, number, &with, row.3);
    Ok(())
}

#[test]
fn corners_and_positions(rt: HostRuntime) -> Result<(), Fail> {
    for (number, row) in CORNERS.iter().enumerate() {
        expect_corner(&rt, rt.alloc(), number, row)?;
    }
    Ok(())
}

#[test]
fn scaling(rt: HostRuntime) -> Result<(), Fail> {
    for (row, (sides, expected)) in SCALES.iter().enumerate() {
        let points = polygon(&rt, rt.alloc(), sides)?;
        let returned = built(&rt, rt.alloc(), points, &[], false)?;
        expect(&rt, row, &returned, *expected);
    }
    Ok(())
}

// That a square and the polygon of a row have this result.
fn expect_second(
    rt: &impl Abort,
    alloc: Global,
    row: usize,
    sides: &[(Parts, Parts)],
    straight: bool,
    expected: Told,
) -> Result<(), Fail> {
    let returned = built_second(rt, alloc, polygon(rt, alloc, sides)?, straight)?;
    expect(rt, row, &returned, expected);
    Ok(())
}

#[test]
fn second_polygons(rt: HostRuntime) -> Result<(), Fail> {
    for (row, (sides, without, with)) in SECONDS.iter().enumerate() {
        expect_second(&rt, rt.alloc(), row, sides, false, *without)?;
        expect_second(&rt, rt.alloc(), row, sides, true, *with)?;
    }
    Ok(())
}

// That the rectangle's surface has the denominator 12 and this mark.
fn expect_rectangle(rt: &impl Abort, alloc: Global, straight: bool) -> Result<(), Fail> {
    let points = polygon(rt, alloc, &RECTANGLE)?;
    let returned = built(rt, alloc, points, &[(0, 2), (1, 3)], straight)?;
    let surface = returned.expect(rt, "a surface");
    assert!(rt; surface.den() == 12);
    assert!(rt; surface.straight() == straight);
    Ok(())
}

#[test]
fn least_denominator_and_the_mark(rt: HostRuntime) -> Result<(), Fail> {
    expect_rectangle(&rt, rt.alloc(), false)?;
    expect_rectangle(&rt, rt.alloc(), true)
}
