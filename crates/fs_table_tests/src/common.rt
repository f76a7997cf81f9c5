// Tables, and whether what they unfold into is as a row tells.
ghost use Rattle.std.specs.Prelude.{◌≤◌, IfOk, length};
ghost use Rattle.fs_gluing.specs.Shape.{IsWithinLimits};

use fs_fraction::Frac;
use fs_gluing::{BuildStop, Fault, Glue, Point, Sequence, Shape};
use fs_plane::{Corner, Site};
use fs_quadratic::{Elem, Field};
use fs_unfold::unfold;
use std::alloc::{AllocError, Global};
use std::process::Abort;
use std::test::Fail;

// p, q and the denominator of a fraction.
pub type Parts = (i128, i128, i128);

// The vector of a side.
pub type Side = (Parts, Parts);

// The polygon and the side of a corner.
pub type Name = (u16, u16);

// d, a table, and the shape into which it unfolds: the number of copies, some of them with their sides, and all glue lines.
pub struct Unfolding {
    pub d: u16,
    pub table: &'static [Side],
    pub number: usize,
    pub copies: &'static [(usize, &'static [Side])],
    pub glues: &'static [(Name, Name)],
}

// What a call returns: `shape`, or the name of the fault or the site, and its numbers.
pub type Told = (&'static str, u32, u32, u32);

pub const SHAPE: Told = ("shape", 0, 0, 0);

// d, a table, and what its unfolding returns.
pub type Row = (u16, &'static [Side], Told);

// The field of √d.
pub fn field(rt: &impl Abort, d: u16) -> Field {
    Field::new(d).expect(rt, "a squarefree d")
}

// The fraction of these parts.
fn frac(rt: &impl Abort, parts: Parts) -> Frac {
    assert!(rt; parts.0 != i128::MIN);
    assert!(rt; parts.1 != i128::MIN);
    assert!(rt; parts.2 > 0);
    Frac::new(Elem::new(parts.0, parts.1), parts.2)
}

// The vector of a side.
fn point(rt: &impl Abort, side: &Side) -> Point {
    Point {
        x: frac(rt, side.0),
        y: frac(rt, side.1),
    }
}

// The table with these sides, of which there are at most 42.
fn table_of(rt: &impl Abort, alloc: Global, sides: &[Side]) -> Result<Sequence<Point>, AllocError>
    ensures { IfOk result (λ points. length points ≤ 42) }
{
    let mut points = Sequence::new(alloc);
    for side in sides {
        points.push(point(rt, side))?;
    }
    assert!(rt; points.len() <= 42);
    Ok(points)
}

// What the unfolding of a table returns, unless memory runs out. A shape is within the limits.
pub fn unfolded(
    rt: &impl Abort,
    alloc: Global,
    d: u16,
    sides: &[Side],
) -> Result<Result<Shape, BuildStop>, Fail>
    ensures { IfOk result (λ returned. IfOk returned IsWithinLimits) }
{
    let table = table_of(rt, alloc, sides)?;
    match unfold(alloc, field(rt, d), table.as_slice()) {
        Err(BuildStop::NoMemory) => Err("out of memory".into()),
        returned => Ok(returned),
    }
}

// The shape into which a table unfolds.
pub fn shape_of(rt: &impl Abort, alloc: Global, d: u16, sides: &[Side]) -> Result<Shape, Fail>
    ensures { IfOk result IsWithinLimits }
{
    Ok(unfolded(rt, alloc, d, sides)?.expect(rt, "a shape"))
}

// That a copy of a table has these sides.
fn expect_copy(rt: &impl Abort, shape: &Shape, number: usize, sides: &[Side]) {
    let copies = shape.polygons.as_slice();
    assert!(rt; number < copies.len(), "copy {number}");
    let copy = copies[number].as_slice();
    assert!(rt; copy.len() == sides.len(), "sides of copy {number}");
    for (j, (returned, side)) in copy.iter().zip(sides).enumerate() {
        assert!(rt; *returned == point(rt, side), "side {j} of copy {number}");
    }
}

// That these are the glue lines of a shape.
fn expect_lines(rt: &impl Abort, shape: &Shape, lines: &[(Name, Name)]) {
    assert!(rt; shape.glues.len() == lines.len(), "number of lines");
    for (k, (returned, (one, two))) in shape.glues.as_slice().iter().zip(lines).enumerate() {
        let line = Glue {
            line: 0,
            one: Corner::new(one.0, one.1),
            two: Corner::new(two.0, two.1),
        };
        assert!(rt; *returned == line, "line {k}");
    }
}

// That a table unfolds into the shape that is told.
pub fn expect_unfolding(rt: &impl Abort, alloc: Global, told: &Unfolding) -> Result<(), Fail> {
    let shape = shape_of(rt, alloc, told.d, told.table)?;
    assert!(rt; shape.polygons.len() == told.number, "number of copies");
    for (number, sides) in told.copies {
        expect_copy(rt, &shape, *number, sides);
    }
    expect_lines(rt, &shape, told.glues);
    assert!(rt; !shape.straight, "straight corners");
    Ok(())
}

fn of_fault(fault: Fault) -> Told {
    match fault {
        Fault::FewSides { polygon } => ("FewSides", u32::from(polygon), 0, 0),
        Fault::NotClosed { polygon } => ("NotClosed", u32::from(polygon), 0, 0),
        Fault::NotConvex(corner) => (
            "NotConvex",
            u32::from(corner.polygon),
            u32::from(corner.side),
            0,
        ),
        Fault::TurnsTwice { polygon } => ("TurnsTwice", u32::from(polygon), 0, 0),
        Fault::GroupTooLarge => ("GroupTooLarge", 0, 0, 0),
        _ => ("another fault", 0, 0, 0),
    }
}

fn of_site(site: Site) -> Told {
    match site {
        Site::TableScale { side, place } => ("tscale", side, place, 0),
        Site::TableClose { side, place } => ("tclose", side, place, 0),
        Site::TableCorner { side, place } => ("tcorner", side, place, 0),
        Site::Reflect { side, place } => ("reflect", side, place, 0),
        Site::Product {
            product,
            side,
            place,
        } => ("product", product, side, place),
        _ => ("another site", 0, 0, 0),
    }
}

fn told(returned: &Result<Shape, BuildStop>) -> Told {
    match returned {
        Ok(_) => SHAPE,
        Err(BuildStop::Fault(fault)) => of_fault(*fault),
        Err(BuildStop::Overflow(site)) => of_site(*site),
        Err(BuildStop::NoMemory) => ("no memory", 0, 0, 0),
    }
}

// That the unfolding of a table returns what is told.
fn expect_row(rt: &impl Abort, alloc: Global, number: usize, row: &Row) -> Result<(), Fail> {
    let returned = unfolded(rt, alloc, row.0, row.1)?;
    assert!(rt; told(&returned) == row.2, "row {number}");
    Ok(())
}

// That the unfolding of each row's table returns what the row tells.
pub fn expect_rows(rt: &impl Abort, alloc: Global, rows: &[Row]) -> Result<(), Fail> {
    for (number, row) in rows.iter().enumerate() {
        expect_row(rt, alloc, number, row)?;
    }
    Ok(())
}
