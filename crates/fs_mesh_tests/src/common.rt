// Surfaces of the tables, and whether their triangles are as a row tells.
ghost use Rattle.std.specs.Prelude.{◌≤◌, IfOk, length};
ghost use Rattle.fs_gluing.specs.Shape.{IsWithinLimits};

use fs_fraction::Frac;
use fs_gluing::{Glue, Point, Sequence, Shape, Surface, Triangles, build};
use fs_mesh::Mesh;
use fs_plane::{Corner, V2};
use fs_quadratic::{Elem, Field};
use std::alloc::{AllocError, Global};
use std::process::Abort;
use std::test::Fail;

// p and q of a number p + q·√d.
pub type Pair = (i128, i128);

// The coordinates of a vector.
pub type Vector = (Pair, Pair);

// The polygon and the side of a corner.
pub type Name = (u16, u16);

// A surface without straight corners, whose vectors have no denominators: d, the sides of its polygons, of
// which there are one to three, and the pairs of sides that are glued.
pub struct Plan {
    pub d: u16,
    pub polygons: &'static [&'static [Vector]],
    pub glues: &'static [(Name, Name)],
}

// Triangles: the vectors of the half-edges, and for each half-edge its twin and its home.
pub struct Told {
    pub vectors: &'static [Vector],
    pub twins: &'static [u32],
    pub homes: &'static [Name],
}

// A triangulation: the vector, the twin and the home of each half-edge.
pub struct State {
    pub vectors: &'static [Vector],
    pub twins: &'static [u32],
    pub homes: &'static [Name],
}

// The number of these parts.
fn elem(rt: &impl Abort, parts: Pair) -> Elem {
    assert!(rt; parts.0 != i128::MIN);
    assert!(rt; parts.1 != i128::MIN);
    Elem::new(parts.0, parts.1)
}

// The unscaled vector of these coordinates.
fn point(rt: &impl Abort, parts: &Vector) -> Point {
    Point {
        x: Frac::new(elem(rt, parts.0), 1),
        y: Frac::new(elem(rt, parts.1), 1),
    }
}

// The scaled vector of these coordinates.
pub fn vector(rt: &impl Abort, parts: Vector) -> V2 {
    V2 {
        x: elem(rt, parts.0),
        y: elem(rt, parts.1),
    }
}

// The corner of this name.
pub fn corner(name: Name) -> Corner {
    Corner::new(name.0, name.1)
}

// The polygon with these sides, of which there are at most 100.
fn polygon(rt: &impl Abort, alloc: Global, sides: &[Vector]) -> Result<Sequence<Point>, AllocError>
    ensures { IfOk result (λ points. length points ≤ 100) }
{
    let mut points = Sequence::new(alloc);
    for side in sides {
        points.push(point(rt, side))?;
    }
    assert!(rt; points.len() <= 100);
    Ok(points)
}

// The glue lines of these pairs of sides.
fn glue_lines(alloc: Global, pairs: &[(Name, Name)]) -> Result<Sequence<Glue>, AllocError> {
    let mut glues = Sequence::new(alloc);
    for (one, two) in pairs {
        glues.push(Glue {
            line: 0,
            one: corner(*one),
            two: corner(*two),
        })?;
    }
    Ok(glues)
}

// The shape of a plan.
fn shape_of(rt: &impl Abort, alloc: Global, plan: &Plan) -> Result<Shape, Fail>
    ensures { IfOk result (λ shape. IsWithinLimits shape) }
{
    let glues = glue_lines(alloc, plan.glues)?;
    let mut polygons = Sequence::new(alloc);
    match plan.polygons {
        [one] => polygons.push(polygon(rt, alloc, one)?)?,
        [one, two] => {
            polygons.push(polygon(rt, alloc, one)?)?;
            polygons.push(polygon(rt, alloc, two)?)?;
        }
        [one, two, three] => {
            polygons.push(polygon(rt, alloc, one)?)?;
            polygons.push(polygon(rt, alloc, two)?)?;
            polygons.push(polygon(rt, alloc, three)?)?;
        }
        _ => return Err("too many polygons".into()),
    }
    Ok(Shape {
        polygons,
        glues,
        straight: false,
    })
}

// The surface of a plan.
pub fn surface_of(rt: &impl Abort, alloc: Global, plan: &Plan) -> Result<Surface, Fail> {
    let field = Field::new(plan.d).expect(rt, "a squarefree d");
    let shape = shape_of(rt, alloc, plan)?;
    Ok(build(alloc, field, &shape).expect(rt, "a surface"))
}

// That half-edge k of face f, and the twin and the home of this half-edge, are as told.
fn expect_half_edge(rt: &impl Abort, triangles: &Triangles, told: &Told, f: usize, k: usize) {
    assert!(rt; f < 1022);
    assert!(rt; k < 3);
    assert!(rt; f < triangles.faces.len());
    let h = 3 * f + k;
    assert!(rt; h < triangles.twins.len() && h < triangles.homes.len());
    assert!(rt; h < told.vectors.len() && h < told.twins.len() && h < told.homes.len());
    let face = &triangles.faces.as_slice()[f];
    assert!(rt;
        face[k] == vector(rt, told.vectors[h]),
        "vector of half-edge {h}"
    );
    assert!(rt;
        triangles.twins.as_slice()[h] == told.twins[h],
        "twin of half-edge {h}"
    );
    assert!(rt;
        triangles.homes.as_slice()[h] == corner(told.homes[h]),
        "home of half-edge {h}"
    );
}

// That the triangles are as told.
pub fn expect_triangles(rt: &impl Abort, triangles: &Triangles, told: &Told) {
    let faces = triangles.faces.len();
    assert!(rt; faces <= 1022);
    assert!(rt; told.vectors.len() == 3 * faces);
    assert!(rt; triangles.twins.len() == 3 * faces);
    assert!(rt; triangles.homes.len() == 3 * faces);
    for f in 0..faces {
        expect_half_edge(rt, triangles, told, f, 0);
        expect_half_edge(rt, triangles, told, f, 1);
        expect_half_edge(rt, triangles, told, f, 2);
    }
}

// That a half-edge of a mesh, and the one after it, are as told.
fn expect_mesh_half_edge(rt: &impl Abort, mesh: &Mesh, state: &State, h: u32) {
    assert!(rt; h < mesh.half_edges());
    let k = h as usize;
    assert!(rt; k < state.vectors.len());
    assert!(rt; k < state.twins.len());
    assert!(rt; k < state.homes.len());
    assert!(rt;
        mesh.vector(h) == vector(rt, state.vectors[k]),
        "vector of half-edge {h}"
    );
    assert!(rt; mesh.twin(h) == state.twins[k], "twin of half-edge {h}");
    assert!(rt;
        mesh.home_of(h) == corner(state.homes[k]),
        "home of half-edge {h}"
    );
    assert!(rt;
        mesh.next(mesh.next(mesh.next(h))) == h,
        "next half-edges of {h}"
    );
}

// That the triangles of a mesh are as told.
pub fn expect_mesh(rt: &impl Abort, mesh: &Mesh, state: &State) {
    assert!(rt; mesh.half_edges() as usize == state.vectors.len());
    for h in 0..mesh.half_edges() {
        expect_mesh_half_edge(rt, mesh, state, h);
    }
}
