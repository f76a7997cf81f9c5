// The corners of a surface at which half-edges begin, and how the corner of a vector is found.

ghost use Rattle.std.specs.Prelude.{◌≡◌, ◌≢◌, ◌≤◌, IfOk};
ghost use Rattle.fs_plane.specs.Vector.{vector_zero};
ghost use Rattle.fs_gluing.specs.Homes.{IsFirstCorner, FindsCorner, corner_test_after};
ghost use Rattle.fs_gluing.specs.Polygons.{HasSide};
ghost use Rattle.fs_mesh.specs.FlippedMeshes.{with_homes};

use fs_gluing::Surface;
use fs_plane::{Corner, Place, V2, in_sector};
use std::marker::Model;

// What a flip finds: the vector of the half-edge that names the edge, and the homes of it and of its twin.
#[derive(Clone, Copy)]
pub struct NewEdge {
    pub vector: V2,
    pub home: Corner,
    pub twin_home: Corner,
}

impl Model for NewEdge {
    ghost use Rattle.fs_mesh.specs.FlippedMeshes as flipped;

    ghost Value = { flipped.NewEdge };

    ghost view = { λ e. record { vector = e.vector; home = e.home; twin_home = e.twin_home } };

    ghost inverse = { λ e. record { vector = e.vector; home = e.home; twin_home = e.twin_home } };
}

// The first corner whose sector holds v, from a corner on, counterclockwise round its vertex; or the first
// place that overflows: those of test number t, from 0, follow `before` and t strides.
pub fn find_corner(
    surface: &Surface,
    from: Corner,
    v: V2,
    before: u32,
    stride: u32,
) -> Result<Corner, Place>
    requires from { HasSide surface.now.polygons from }
    requires direction { v ≢ vector_zero }
    requires few { before ≤ 100 }
    requires short { stride ≤ 100 }
    ensures found { FindsCorner surface.now from v before stride result }
    ensures first { IfOk result (λ corner. IsFirstCorner surface.now from v corner) }
    ensures there { IfOk result (λ corner. HasSide surface.now.polygons corner) }
{
    // A look at the field makes the invariant of the surface known here.
    let _ = surface.field();
    let mut corner = from;
    let mut tested = 0;
    while !test_corner(surface, corner, v, before + stride * tested)? {
        corner = surface.turn(corner);
        tested += 1;
    }
    Ok(corner)
}

// Whether v is in the sector of a corner. The places follow `before`.
fn test_corner(surface: &Surface, corner: Corner, v: V2, before: u32) -> Result<bool, Place>
    requires corner { HasSide surface.now.polygons corner }
    requires few { before ≤ 1000000 }
    ensures { result ≡ corner_test_after before surface.now corner v }
{
    let ends = surface.side(surface.side_before(corner));
    match in_sector(surface.field(), surface.side(corner), ends, v) {
        Ok(held) => Ok(held),
        Err(Place(place)) => Err(Place(before + place)),
    }
}

// The new edge with both homes, or the least of the places at which the searches for them overflow.
pub fn with_homes(
    vector: V2,
    home: Result<Corner, Place>,
    twin_home: Result<Corner, Place>,
) -> Result<NewEdge, Place>
    ensures { result ≡ with_homes vector home twin_home }
{
    match (home, twin_home) {
        (Ok(home), Ok(twin_home)) => Ok(NewEdge {
            vector,
            home,
            twin_home,
        }),
        (Ok(_), Err(stop)) | (Err(stop), Ok(_)) => Err(stop),
        (Err(one), Err(two)) => Err(if one.0 < two.0 { one } else { two }),
    }
}
