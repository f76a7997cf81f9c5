// Vectors of a job times the denominator of a surface.

use crate::common::{Parts, Plan, Vector, point, surface_of, vector};
use fs_develop::scale_to_grid;
use fs_plane::{Site, V2};
use std::process::Abort;
use std::test::Fail;

// A rectangle of 1/6 by 1/4: its denominator is 12.
static RECTANGLE: Plan = Plan {
    d: 2,
    polygons: &[&[
        ((1, 0, 6), (0, 0, 1)),
        ((0, 0, 1), (1, 0, 4)),
        ((-1, 0, 6), (0, 0, 1)),
        ((0, 0, 1), (-1, 0, 4)),
    ]],
    glues: &[((0, 0), (0, 2)), ((0, 1), (0, 3))],
    straight: false,
};

// 2^127 - 1, which is a prime; 2^126, and a third of 2^126 - 1.
const MOST: i128 = 170141183460469231731687303715884105727;

const DEEP: i128 = 85070591730234615865843651857942052864;

const THIRD: i128 = 28356863910078205288614550619314017621;

// What becomes of a vector: it is scaled, it is off the grid, or a place overflows.
enum Scaled {
    On(Vector),
    Off,
    Overflow(u32),
}

// Vectors, and what becomes of them.
static ROWS: [((Parts, Parts), Scaled); 22] = [
    (((1, 0, 6), (1, 0, 4)), Scaled::On(((2, 0), (3, 0)))),
    (((1, 0, 12), (0, 0, 1)), Scaled::On(((1, 0), (0, 0)))),
    (((1, 0, 1), (-1, 0, 1)), Scaled::On(((12, 0), (-12, 0)))),
    (((1, 4, 12), (0, -5, 2)), Scaled::On(((1, 4), (0, -30)))),
    (((0, 0, 1), (0, 0, 1)), Scaled::On(((0, 0), (0, 0)))),
    (((2, 0, 8), (3, 0, 9)), Scaled::On(((3, 0), (4, 0)))),
    (((1, 0, 5), (0, 0, 1)), Scaled::Off),
    (((0, 0, 1), (1, 0, 8)), Scaled::Off),
    (((1, 0, 24), (1, 0, 4)), Scaled::Off),
    (((0, 1, 9), (1, 0, 4)), Scaled::Off),
    // off the grid comes first
    (((MOST, 0, 1), (1, 0, 5)), Scaled::Off),
    (((1, 0, 5), (MOST, 0, 1)), Scaled::Off),
    (((MOST, 0, 1), (MOST, 0, 1)), Scaled::Overflow(1)),
    (((1, MOST, 1), (MOST, MOST, 1)), Scaled::Overflow(2)),
    (((1, 1, 1), (MOST, MOST, 1)), Scaled::Overflow(3)),
    (((1, 1, 1), (1, -MOST, 1)), Scaled::Overflow(4)),
    (((DEEP, 0, 6), (0, 0, 1)), Scaled::Overflow(1)),
    (((0, 0, 1), (0, -DEEP, 6)), Scaled::Overflow(4)),
    (
        ((MOST, -MOST, 12), (-MOST, MOST, 12)),
        Scaled::On(((MOST, -MOST), (-MOST, MOST))),
    ),
    (
        ((THIRD, 0, 2), (0, 0, 1)),
        Scaled::On(((170141183460469231731687303715884105726, 0), (0, 0))),
    ),
    (
        ((0, 0, 1), (-THIRD, 0, 2)),
        Scaled::On(((0, 0), (-170141183460469231731687303715884105726, 0))),
    ),
    (((0, 0, 1), (0, MOST, 6)), Scaled::Overflow(4)),
];

// Whether what is returned for a vector is as a row tells.
fn is_scaled(rt: &impl Abort, returned: Result<Option<V2>, Site>, told: &Scaled) -> bool {
    match (returned, told) {
        (Ok(Some(v)), Scaled::On(parts)) => v == vector(rt, *parts),
        (Ok(None), Scaled::Off) => true,
        (Err(Site::Grid { place }), Scaled::Overflow(number)) => place == *number,
        _ => false,
    }
}

#[test]
fn vectors_on_the_grid(rt: HostRuntime) -> Result<(), Fail> {
    let surface = surface_of(&rt, rt.alloc(), &RECTANGLE)?;
    for (number, (parts, told)) in ROWS.iter().enumerate() {
        let returned = scale_to_grid(&surface, point(&rt, parts));
        assert!(rt; is_scaled(&rt, returned, told), "row {number}");
    }
    Ok(())
}
