// Flips of illegal edges, in turn the first one, and the triangles after each.

ghost use Rattle.std.specs.Prelude.{IfSome, IsTrue};
ghost use Rattle.fs_gluing.specs.Triangulation.{IsEdge};
ghost use Rattle.fs_mesh.specs.Meshes.{IsIllegal};

use crate::common::{Plan, State, expect_mesh, surface_of};
use crate::plans::{
    LINEAR_PENTAGON, LONG_SIDES, LONG_SIDES_CUT, LONG_TORUS, SHEARED_OCTAGON, SHEARED_TORUS,
};
use crate::states::{
    OCTAGON_1, OCTAGON_2, OCTAGON_3, OCTAGON_4, OCTAGON_5, OCTAGON_6, PENTAGON_6, TORUS_1, TORUS_2,
};
use fs_mesh::Mesh;
use fs_plane::Place;
use fs_triangulate::fan_cut;
use std::alloc::Global;
use std::cmp::Ordering;
use std::process::Abort;
use std::test::Fail;

// Whether an edge is illegal.
fn is_illegal(rt: &impl Abort, mesh: &Mesh, edge: u32) -> bool
    requires { IsEdge mesh.now.triangles edge }
    ensures { IsTrue result → IsIllegal mesh.now.surface.d mesh.now.triangles edge }
{
    let value = mesh.circle_of(edge).expect(rt, "a circle value");
    match mesh.surface().field().sign(value) {
        Ordering::Greater => true,
        Ordering::Equal | Ordering::Less => false,
    }
}

// The first illegal edge, if there is one.
fn first_illegal(rt: &impl Abort, mesh: &Mesh) -> Option<u32>
    ensures edge { IfSome result (λ edge. IsEdge mesh.now.triangles edge) }
    ensures illegal { IfSome result (λ edge. IsIllegal mesh.now.surface.d mesh.now.triangles edge) }
{
    for edge in 0..mesh.half_edges() {
        if edge < mesh.twin(edge) && is_illegal(rt, mesh, edge) {
            return Some(edge);
        }
    }
    None
}

// Flips the first illegal edge, and returns it.
fn flip_first(rt: &impl Abort, mesh: &mut Mesh) -> Option<u32> {
    let edge = first_illegal(rt, mesh)?;
    mesh.flip(edge).expect(rt, "a flip");
    Some(edge)
}

// That these edges are flipped in turn, with these triangles after each, and then none is illegal.
fn expect_flips(
    rt: &impl Abort,
    alloc: Global,
    plan: &Plan,
    flips: &[(u32, &State)],
) -> Result<(), Fail> {
    let surface = surface_of(rt, alloc, plan)?;
    assert!(rt; !surface.straight());
    let triangles = fan_cut(alloc, &surface).expect(rt, "memory");
    let mut mesh = Mesh::new(alloc, &surface, triangles).expect(rt, "memory");
    for (edge, state) in flips {
        assert!(rt;
            flip_first(rt, &mut mesh) == Some(*edge),
            "flip of edge {edge}"
        );
        expect_mesh(rt, &mesh, state);
    }
    assert!(rt; flip_first(rt, &mut mesh).is_none(), "an edge is illegal");
    Ok(())
}

#[test]
fn sheared_torus(rt: HostRuntime) -> Result<(), Fail> {
    expect_flips(
        &rt,
        rt.alloc(),
        &SHEARED_TORUS,
        &[(2, &TORUS_1), (0, &TORUS_2)],
    )
}

#[test]
fn sheared_octagon(rt: HostRuntime) -> Result<(), Fail> {
    expect_flips(
        &rt,
        rt.alloc(),
        &SHEARED_OCTAGON,
        &[
            (5, &OCTAGON_1),
            (7, &OCTAGON_2),
            (5, &OCTAGON_3),
            (10, &OCTAGON_4),
            (2, &OCTAGON_5),
            (12, &OCTAGON_6),
        ],
    )
}

// The home of a new half-edge isn't always the one where its search begins.
#[test]
fn linear_pentagon(rt: HostRuntime) -> Result<(), Fail> {
    let surface = surface_of(&rt, rt.alloc(), &LINEAR_PENTAGON)?;
    assert!(rt; !surface.straight());
    let triangles = fan_cut(rt.alloc(), &surface).expect(&rt, "memory");
    let mut mesh = Mesh::new(rt.alloc(), &surface, triangles).expect(&rt, "memory");
    for edge in [8, 0, 4, 1, 0, 5] {
        assert!(rt;
            flip_first(&rt, &mut mesh) == Some(edge),
            "flip of edge {edge}"
        );
    }
    expect_mesh(&rt, &mesh, &PENTAGON_6);
    Ok(())
}

// Flips an edge, which has to be illegal.
fn flip_edge(rt: &impl Abort, mesh: &mut Mesh, edge: u32) -> Result<(), Place> {
    assert!(rt; edge < mesh.half_edges());
    assert!(rt; edge < mesh.twin(edge));
    assert!(rt; is_illegal(rt, mesh, edge));
    mesh.flip(edge)
}

// That the flip of edge 4, which is illegal, is refused at this place, and changes nothing there.
fn expect_refused(rt: &impl Abort, alloc: Global, plan: &Plan, place: u32) -> Result<(), Fail> {
    let surface = surface_of(rt, alloc, plan)?;
    assert!(rt; !surface.straight());
    let triangles = fan_cut(alloc, &surface).expect(rt, "memory");
    let mut mesh = Mesh::new(alloc, &surface, triangles).expect(rt, "memory");
    assert!(rt; mesh.half_edges() == 12);
    let (vector, home) = (mesh.vector(4), mesh.home_of(4));
    assert!(rt; flip_edge(rt, &mut mesh, 4) == Err(Place(place)));
    assert!(rt; mesh.half_edges() == 12);
    assert!(rt; mesh.vector(4) == vector && mesh.home_of(4) == home);
    Ok(())
}

// The new edge leads along -2,-3. Both searches begin at a corner at which a side of 2^126 - 1 begins, along the
// x-axis, and its product with 3 overflows: places 2 + 1 and 11 + 1.
#[test]
fn least_place(rt: HostRuntime) -> Result<(), Fail> {
    expect_refused(&rt, rt.alloc(), &LONG_SIDES, 3)
}

// Here the search for the twin's home alone begins at such a corner.
#[test]
fn place_of_the_twin(rt: HostRuntime) -> Result<(), Fail> {
    expect_refused(&rt, rt.alloc(), &LONG_SIDES_CUT, 12)
}

// A parallelogram with the sides 1,0 and 1000,1: it takes 1000 flips.
#[test]
fn long_torus(rt: HostRuntime) -> Result<(), Fail> {
    let surface = surface_of(&rt, rt.alloc(), &LONG_TORUS)?;
    assert!(rt; !surface.straight());
    let triangles = fan_cut(rt.alloc(), &surface).expect(&rt, "memory");
    let mut mesh = Mesh::new(rt.alloc(), &surface, triangles).expect(&rt, "memory");
    for flip in 0..1000 {
        assert!(rt; flip_first(&rt, &mut mesh).is_some(), "flip {flip}");
    }
    assert!(rt; flip_first(&rt, &mut mesh).is_none(), "an edge is illegal");
    Ok(())
}
