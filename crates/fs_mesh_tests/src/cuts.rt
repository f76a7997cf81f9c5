// The triangles of first cuts, worked out by hand.

use crate::common::{Plan, Told, expect_triangles, surface_of};
use crate::plans::{L_SHAPE, OCTAGON, PENTAGON, SQUARE, TWO_TRIANGLES};
use fs_triangulate::fan_cut;
use std::alloc::Global;
use std::process::Abort;
use std::test::Fail;

// Two faces: corners 0, 1, 2 and 0, 2, 3.
static SQUARE_CUT: Told = Told {
    vectors: &[
        ((1, 0), (0, 0)),
        ((0, 0), (1, 0)),
        ((-1, 0), (-1, 0)),
        ((1, 0), (1, 0)),
        ((-1, 0), (0, 0)),
        ((0, 0), (-1, 0)),
    ],
    twins: &[4, 5, 3, 2, 0, 1],
    homes: &[(0, 0), (0, 1), (0, 2), (0, 0), (0, 2), (0, 3)],
};

// Each square has two faces.
static L_SHAPE_CUT: Told = Told {
    vectors: &[
        ((1, 0), (0, 0)),
        ((0, 0), (1, 0)),
        ((-1, 0), (-1, 0)),
        ((1, 0), (1, 0)),
        ((-1, 0), (0, 0)),
        ((0, 0), (-1, 0)),
        ((1, 0), (0, 0)),
        ((0, 0), (1, 0)),
        ((-1, 0), (-1, 0)),
        ((1, 0), (1, 0)),
        ((-1, 0), (0, 0)),
        ((0, 0), (-1, 0)),
        ((1, 0), (0, 0)),
        ((0, 0), (1, 0)),
        ((-1, 0), (-1, 0)),
        ((1, 0), (1, 0)),
        ((-1, 0), (0, 0)),
        ((0, 0), (-1, 0)),
    ],
    twins: &[16, 11, 3, 2, 12, 7, 10, 5, 9, 8, 6, 1, 4, 17, 15, 14, 0, 13],
    homes: &[
        (0, 0),
        (0, 1),
        (0, 2),
        (0, 0),
        (0, 2),
        (0, 3),
        (1, 0),
        (1, 1),
        (1, 2),
        (1, 0),
        (1, 2),
        (1, 3),
        (2, 0),
        (2, 1),
        (2, 2),
        (2, 0),
        (2, 2),
        (2, 3),
    ],
};

// Six faces, of the corners 0, t + 1, t + 2.
static OCTAGON_CUT: Told = Told {
    vectors: &[
        ((2, 0), (0, 0)),
        ((0, 1), (0, 1)),
        ((-2, -1), (0, -1)),
        ((2, 1), (0, 1)),
        ((0, 0), (2, 0)),
        ((-2, -1), (-2, -1)),
        ((2, 1), (2, 1)),
        ((0, -1), (0, 1)),
        ((-2, 0), (-2, -2)),
        ((2, 0), (2, 2)),
        ((-2, 0), (0, 0)),
        ((0, 0), (-2, -2)),
        ((0, 0), (2, 2)),
        ((0, -1), (0, -1)),
        ((0, 1), (-2, -1)),
        ((0, -1), (2, 1)),
        ((0, 0), (-2, 0)),
        ((0, 1), (0, -1)),
    ],
    twins: &[10, 13, 3, 2, 16, 6, 5, 17, 9, 8, 0, 12, 11, 1, 15, 14, 4, 7],
    homes: &[
        (0, 0),
        (0, 1),
        (0, 2),
        (0, 0),
        (0, 2),
        (0, 3),
        (0, 0),
        (0, 3),
        (0, 4),
        (0, 0),
        (0, 4),
        (0, 5),
        (0, 0),
        (0, 5),
        (0, 6),
        (0, 0),
        (0, 6),
        (0, 7),
    ],
};

// The polygons are the faces.
static TWO_TRIANGLES_CUT: Told = Told {
    vectors: &[
        ((1, 0), (0, 0)),
        ((0, 0), (1, 0)),
        ((-1, 0), (-1, 0)),
        ((1, 0), (1, 0)),
        ((-1, 0), (0, 0)),
        ((0, 0), (-1, 0)),
    ],
    twins: &[4, 5, 3, 2, 0, 1],
    homes: &[(0, 0), (0, 1), (0, 2), (1, 0), (1, 1), (1, 2)],
};

// The pentagon has the faces 1 to 3.
static PENTAGON_CUT: Told = Told {
    vectors: &[
        ((1, 0), (0, 0)),
        ((0, 0), (1, 0)),
        ((-1, 0), (-1, 0)),
        ((1, 0), (1, 0)),
        ((-1, 0), (1, 0)),
        ((0, 0), (-2, 0)),
        ((0, 0), (2, 0)),
        ((-1, 0), (0, 0)),
        ((1, 0), (-2, 0)),
        ((-1, 0), (2, 0)),
        ((0, 0), (-1, 0)),
        ((1, 0), (-1, 0)),
    ],
    twins: &[7, 10, 3, 2, 11, 6, 5, 0, 9, 8, 1, 4],
    homes: &[
        (0, 0),
        (0, 1),
        (0, 2),
        (1, 0),
        (1, 1),
        (1, 2),
        (1, 0),
        (1, 2),
        (1, 3),
        (1, 0),
        (1, 3),
        (1, 4),
    ],
};

// That the first cut of the surface of a plan is as told.
fn expect_cut(rt: &impl Abort, alloc: Global, plan: &Plan, told: &Told) -> Result<(), Fail> {
    let surface = surface_of(rt, alloc, plan)?;
    assert!(rt; !surface.straight());
    let triangles = fan_cut(alloc, &surface).expect(rt, "memory");
    expect_triangles(rt, &triangles, told);
    Ok(())
}

#[test]
fn square(rt: HostRuntime) -> Result<(), Fail> {
    expect_cut(&rt, rt.alloc(), &SQUARE, &SQUARE_CUT)
}

#[test]
fn l_shape(rt: HostRuntime) -> Result<(), Fail> {
    expect_cut(&rt, rt.alloc(), &L_SHAPE, &L_SHAPE_CUT)
}

#[test]
fn octagon(rt: HostRuntime) -> Result<(), Fail> {
    expect_cut(&rt, rt.alloc(), &OCTAGON, &OCTAGON_CUT)
}

#[test]
fn two_triangles(rt: HostRuntime) -> Result<(), Fail> {
    expect_cut(&rt, rt.alloc(), &TWO_TRIANGLES, &TWO_TRIANGLES_CUT)
}

#[test]
fn triangle_and_pentagon(rt: HostRuntime) -> Result<(), Fail> {
    expect_cut(&rt, rt.alloc(), &PENTAGON, &PENTAGON_CUT)
}
