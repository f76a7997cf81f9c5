// Tables by the number of products of their reflections, and the surfaces of their shapes. Where n is the least number such
// that all angles are multiples of 180/n degrees, there are 2n products: the symmetries of a regular n-gon.

ghost use Rattle.fs_gluing.specs.Shape.{IsWithinLimits};

use crate::common::{Side, field, shape_of};
use fs_gluing::{BuildStop, Shape, Surface, build};
use std::alloc::Global;
use std::process::Abort;
use std::test::Fail;

// d, a table, and the number of products.
type Group = (u16, &'static [Side], usize);

static GROUPS: [Group; 12] = [
    // a rectangle whose sides are 3,4 and -4,3: the reflections have the denominator 25
    (
        2,
        &[
            ((3, 0, 1), (4, 0, 1)),
            ((-4, 0, 1), (3, 0, 1)),
            ((-3, 0, 1), (-4, 0, 1)),
            ((4, 0, 1), (-3, 0, 1)),
        ],
        4,
    ),
    // an equilateral triangle, and a regular hexagon
    (
        3,
        &[
            ((1, 0, 1), (0, 0, 1)),
            ((-1, 0, 2), (0, 1, 2)),
            ((-1, 0, 2), (0, -1, 2)),
        ],
        6,
    ),
    (
        3,
        &[
            ((1, 0, 1), (0, 0, 1)),
            ((1, 0, 2), (0, 1, 2)),
            ((-1, 0, 2), (0, 1, 2)),
            ((-1, 0, 1), (0, 0, 1)),
            ((-1, 0, 2), (0, -1, 2)),
            ((1, 0, 2), (0, -1, 2)),
        ],
        6,
    ),
    // a half of a square, where d is 7, and turned by an arbitrary angle
    (
        7,
        &[
            ((1, 0, 1), (0, 0, 1)),
            ((0, 0, 1), (1, 0, 1)),
            ((-1, 0, 1), (-1, 0, 1)),
        ],
        8,
    ),
    (
        7,
        &[
            ((2, 0, 1), (0, 1, 1)),
            ((0, -1, 1), (2, 0, 1)),
            ((-2, 1, 1), (-2, -1, 1)),
        ],
        8,
    ),
    // a regular octagon
    (
        2,
        &[
            ((1, 0, 1), (0, 0, 1)),
            ((0, 1, 2), (0, 1, 2)),
            ((0, 0, 1), (1, 0, 1)),
            ((0, -1, 2), (0, 1, 2)),
            ((-1, 0, 1), (0, 0, 1)),
            ((0, -1, 2), (0, -1, 2)),
            ((0, 0, 1), (-1, 0, 1)),
            ((0, 1, 2), (0, -1, 2)),
        ],
        8,
    ),
    // a half of an equilateral triangle, and a regular 12-gon
    (
        3,
        &[
            ((1, 0, 1), (0, 0, 1)),
            ((0, 0, 1), (0, 1, 1)),
            ((-1, 0, 1), (0, -1, 1)),
        ],
        12,
    ),
    (
        3,
        &[
            ((1, 0, 1), (0, 0, 1)),
            ((0, 1, 2), (1, 0, 2)),
            ((1, 0, 2), (0, 1, 2)),
            ((0, 0, 1), (1, 0, 1)),
            ((-1, 0, 2), (0, 1, 2)),
            ((0, -1, 2), (1, 0, 2)),
            ((-1, 0, 1), (0, 0, 1)),
            ((0, -1, 2), (-1, 0, 2)),
            ((-1, 0, 2), (0, -1, 2)),
            ((0, 0, 1), (-1, 0, 1)),
            ((1, 0, 2), (0, -1, 2)),
            ((0, 1, 2), (-1, 0, 2)),
        ],
        12,
    ),
    // a triangle with an angle of 22.5 degrees, and a polygon with 16 angles of 157.5 degrees
    (
        2,
        &[
            ((1, 0, 1), (0, 0, 1)),
            ((0, 0, 1), (-1, 1, 1)),
            ((-1, 0, 1), (1, -1, 1)),
        ],
        16,
    ),
    (
        2,
        &[
            ((1, 0, 1), (0, 0, 1)),
            ((1, 0, 1), (-1, 1, 1)),
            ((1, 0, 1), (1, 0, 1)),
            ((-1, 1, 1), (1, 0, 1)),
            ((0, 0, 1), (1, 0, 1)),
            ((1, -1, 1), (1, 0, 1)),
            ((-1, 0, 1), (1, 0, 1)),
            ((-1, 0, 1), (-1, 1, 1)),
            ((-1, 0, 1), (0, 0, 1)),
            ((-1, 0, 1), (1, -1, 1)),
            ((-1, 0, 1), (-1, 0, 1)),
            ((1, -1, 1), (-1, 0, 1)),
            ((0, 0, 1), (-1, 0, 1)),
            ((-1, 1, 1), (-1, 0, 1)),
            ((1, 0, 1), (-1, 0, 1)),
            ((1, 0, 1), (1, -1, 1)),
        ],
        16,
    ),
    // a triangle with an angle of 15 degrees, and a polygon with 24 angles of 165 degrees
    (
        3,
        &[
            ((1, 0, 1), (0, 0, 1)),
            ((0, 0, 1), (2, -1, 1)),
            ((-1, 0, 1), (-2, 1, 1)),
        ],
        24,
    ),
    (
        3,
        &[
            ((1, 0, 1), (0, 0, 1)),
            ((1, 0, 1), (2, -1, 1)),
            ((0, 1, 1), (1, 0, 1)),
            ((1, 0, 1), (1, 0, 1)),
            ((1, 0, 1), (0, 1, 1)),
            ((2, -1, 1), (1, 0, 1)),
            ((0, 0, 1), (1, 0, 1)),
            ((-2, 1, 1), (1, 0, 1)),
            ((-1, 0, 1), (0, 1, 1)),
            ((-1, 0, 1), (1, 0, 1)),
            ((0, -1, 1), (1, 0, 1)),
            ((-1, 0, 1), (2, -1, 1)),
            ((-1, 0, 1), (0, 0, 1)),
            ((-1, 0, 1), (-2, 1, 1)),
            ((0, -1, 1), (-1, 0, 1)),
            ((-1, 0, 1), (-1, 0, 1)),
            ((-1, 0, 1), (0, -1, 1)),
            ((-2, 1, 1), (-1, 0, 1)),
            ((0, 0, 1), (-1, 0, 1)),
            ((2, -1, 1), (-1, 0, 1)),
            ((1, 0, 1), (0, -1, 1)),
            ((1, 0, 1), (-1, 0, 1)),
            ((0, 1, 1), (-1, 0, 1)),
            ((1, 0, 1), (-2, 1, 1)),
        ],
        24,
    ),
];

// The surface of a shape, which is within the limits.
fn surface_of(rt: &impl Abort, alloc: Global, d: u16, shape: &Shape) -> Result<Surface, Fail>
    requires { IsWithinLimits shape.now }
{
    match build(alloc, field(rt, d), shape) {
        Err(BuildStop::NoMemory) => Err("out of memory".into()),
        returned => Ok(returned.expect(rt, "a surface")),
    }
}

// That a table has so many products, and that its copies are the polygons of a surface.
fn expect_group(rt: &impl Abort, alloc: Global, row: usize, group: &Group) -> Result<(), Fail> {
    let (d, table, number) = *group;
    let shape = shape_of(rt, alloc, d, table)?;
    assert!(rt; shape.polygons.len() == number, "row {row}");
    let surface = surface_of(rt, alloc, d, &shape)?;
    assert!(rt; surface.polygons() as usize == number, "row {row}");
    Ok(())
}

#[test]
fn numbers_of_products(rt: HostRuntime) -> Result<(), Fail> {
    for (row, group) in GROUPS.iter().enumerate() {
        expect_group(&rt, rt.alloc(), row, group)?;
    }
    Ok(())
}
