// The corners that are found round a vertex, worked out by hand.

use crate::common::{Name, Plan, Vector, corner, surface_of, vector};
use crate::plans::{HIGH_TORUS, L_SHAPE};
use fs_mesh::Mesh;
use fs_plane::{Corner, Place, V2};
use fs_triangulate::fan_cut;
use std::alloc::Global;
use std::process::Abort;
use std::test::Fail;

// What `home` finds for these vectors at these half-edges of the first cut.
fn expect_homes(
    rt: &impl Abort,
    alloc: Global,
    plan: &Plan,
    rows: &[(u32, Vector, Result<Name, u32>)],
) -> Result<(), Fail> {
    let surface = surface_of(rt, alloc, plan)?;
    assert!(rt; !surface.straight());
    let triangles = fan_cut(alloc, &surface).expect(rt, "memory");
    let mesh = Mesh::new(alloc, &surface, triangles).expect(rt, "memory");
    for (h, v, told) in rows {
        let v = vector(rt, *v);
        assert!(rt; *h < mesh.half_edges());
        assert!(rt; v != V2::ZERO);
        let found = mesh.home(*h, v);
        assert!(rt; found == home_told(*told), "from half-edge {h}");
    }
    Ok(())
}

// The result of these numbers.
fn home_told(told: Result<Name, u32>) -> Result<Corner, Place> {
    match told {
        Ok(name) => Ok(corner(name)),
        Err(place) => Err(Place(place)),
    }
}

// Its one vertex has twelve corners: counterclockwise 0.0, 1.1, 1.2, 0.3, 2.0, 2.1, 0.2, 1.3, 1.0, 0.1, 2.2 and
// 2.3. Each is a quarter turn: it holds the vectors along its first side, and not those along its end.
#[test]
fn l_shape(rt: HostRuntime) -> Result<(), Fail> {
    expect_homes(
        &rt,
        rt.alloc(),
        &L_SHAPE,
        &[
            (0, ((1, 0), (0, 0)), Ok((0, 0))),
            (0, ((5, 0), (0, 1)), Ok((0, 0))),
            (0, ((0, 0), (1, 0)), Ok((1, 1))),
            (0, ((-1, 0), (3, 0)), Ok((1, 1))),
            (0, ((-1, 0), (0, 0)), Ok((1, 2))),
            (0, ((0, 0), (-1, 0)), Ok((0, 3))),
            (0, ((1, 0), (-1, 0)), Ok((0, 3))),
            (2, ((-1, 0), (-1, 0)), Ok((0, 2))),
            (2, ((0, 0), (-1, 0)), Ok((1, 3))),
            (2, ((1, 0), (0, 0)), Ok((1, 0))),
            (2, ((1, 0), (1, 0)), Ok((1, 0))),
        ],
    )
}

// Place 7 is the product of 2^30 and 2^100 at corner 0.0. Where that corner is passed over, it is place 2 at the
// next one.
#[test]
fn places(rt: HostRuntime) -> Result<(), Fail> {
    expect_homes(
        &rt,
        rt.alloc(),
        &HIGH_TORUS,
        &[
            (0, ((1073741824, 0), (1, 0)), Err(7)),
            (0, ((1073741824, 0), (-1, 0)), Err(11)),
            (0, ((1, 0), (-1, 0)), Ok((0, 3))),
        ],
    )
}
