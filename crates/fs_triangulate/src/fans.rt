// Polygons cut into triangles along their diagonals from corner 0.

ghost use Rattle.std.specs.Prelude.{◌≡◌, ◌+◌, ◌<◌, ◌≤◌, ◌∷◌, [], false, length, IfOk, OnOk};
ghost use Rattle.fs_carried.specs.Carried.{AreEqualWithHomes};
ghost use Rattle.fs_gluing.specs.Homes.{HasHomes, home_of};
ghost use Rattle.fs_gluing.specs.Limits.{most_sides};
ghost use Rattle.fs_gluing.specs.NextCorner.{side_count};
ghost use Rattle.fs_gluing.specs.Surface.{IsSurface};
ghost use Rattle.fs_gluing.specs.SurfaceSides.{is_ahead, polygon_sides};
ghost use Rattle.fs_gluing.specs.Triangulation.{IsTriangulation, face_sides, triangulation_of};
ghost use Rattle.fs_gluing.specs.FirstCut.{IsFirstCut, way_vector, glued_way, fan_of, fans_from};
ghost use Rattle.fs_quadratic.specs.Ring.{quadratic, IsPositive};
ghost use Rattle.fs_triangulate.specs.Fans.{IsInFan, IsFanWay, HasTriangles, half_edge_along, face_bases, fan_triangle, AddsTriangles, AddsHalfEdge};

use fs_fraction::NoMemory;
use fs_gluing::{Sequence, Surface, Triangles, Way};
use fs_plane::{Corner, V2};
use std::alloc::{AllocError, Global};

/// Cuts each polygon of a surface, of which no corner is straight, along its diagonals from corner 0. A
/// polygon of n sides gives n - 2 faces, polygon by polygon; face t of it has the corners 0, t + 1 and
/// t + 2 and its half-edges in that order. Each half-edge begins at the corner of the surface that is its
/// home. It is refused only where memory runs out.
///
/// It never overflows: each diagonal is the position of a corner or its opposite. Its cost is linear in
/// the sides.
pub fn fan_cut(alloc: Global, surface: &Surface) -> Result<Triangles, NoMemory>
    requires strict { surface.now.straight ≡ false }
    ensures first_cut { IfOk result (λ triangles. IsFirstCut surface.now triangles) }
    ensures triangulation { IfOk result (λ triangles. IsTriangulation surface.now.d (triangulation_of triangles)) }
    // A list of cuts leads from the surface to its faces, and carries each half-edge from its home.
    ensures cut { IfOk result (λ triangles. AreEqualWithHomes (quadratic surface.now.d) (IsPositive surface.now.d) (is_ahead surface.now.d) (polygon_sides surface.now.polygons) (face_sides (triangulation_of triangles)) (home_of triangles.homes)) }
    // The vector of each half-edge is in the sector of its home.
    ensures homes { IfOk result (λ triangles. HasHomes surface.now (triangulation_of triangles) triangles.homes) }
{
    // A look at the field makes the invariant of the surface known here.
    let _ = surface.field();
    Ok(cut_polygons(alloc, surface)?)
}

// The first cut by its lists alone.
fn cut_polygons(alloc: Global, surface: &Surface) -> Result<Triangles, AllocError>
    requires surface { IsSurface surface.now }
    ensures { IfOk result (λ triangles. HasTriangles surface.now (fans_from 0 surface.now.polygons) triangles) }
{
    let bases = face_bases(alloc, surface)?;
    let mut triangles = Triangles {
        faces: Sequence::new(alloc),
        twins: Sequence::new(alloc),
        homes: Sequence::new(alloc),
    };
    for i in 0..surface.polygons() {
        add_fan(surface, bases.as_slice(), i, &mut triangles)?;
    }
    Ok(triangles)
}

// The number of the first face of each polygon.
fn face_bases(alloc: Global, surface: &Surface) -> Result<Vec<u32>, AllocError>
    requires surface { IsSurface surface.now }
    ensures { IfOk result (λ bases. bases.items ≡ face_bases surface.now.polygons) }
{
    let mut bases = Vec::new(alloc);
    let mut faces = 0;
    for i in 0..surface.polygons() {
        bases.push(faces)?;
        faces += u32::from(surface.sides(i)) - 2;
    }
    Ok(bases)
}

// Adds the faces of polygon i.
fn add_fan(
    surface: &Surface,
    bases: &[u32],
    i: u16,
    triangles: &mut Triangles,
) -> Result<(), AllocError>
    requires surface { IsSurface surface.now }
    requires bases { bases.now ≡ face_bases surface.now.polygons }
    requires polygon { i < length surface.now.polygons }
    ensures { OnOk result (AddsTriangles surface.now (fan_of i (side_count surface.now.polygons i)) triangles.old triangles.new) }
{
    for t in 0..surface.sides(i) - 2 {
        add_face(surface, bases, i, t, triangles)?;
    }
    Ok(())
}

// Adds face t of polygon i.
fn add_face(
    surface: &Surface,
    bases: &[u32],
    i: u16,
    t: u16,
    triangles: &mut Triangles,
) -> Result<(), AllocError>
    requires surface { IsSurface surface.now }
    requires bases { bases.now ≡ face_bases surface.now.polygons }
    requires polygon { i < length surface.now.polygons }
    requires face { t + 2 < side_count surface.now.polygons i }
    ensures { OnOk result (AddsTriangles surface.now (fan_triangle i t ∷ []) triangles.old triangles.new) }
{
    let first = Way {
        polygon: i,
        from: 0,
        to: t + 1,
    };
    let second = Way {
        polygon: i,
        from: t + 1,
        to: t + 2,
    };
    let third = Way {
        polygon: i,
        from: t + 2,
        to: 0,
    };
    triangles.faces.push([
        vector_of(surface, first),
        vector_of(surface, second),
        vector_of(surface, third),
    ])?;
    add_half_edge(surface, bases, first, triangles)?;
    add_half_edge(surface, bases, second, triangles)?;
    add_half_edge(surface, bases, third, triangles)
}

// Adds the home and the twin of the half-edge along a way.
fn add_half_edge(
    surface: &Surface,
    bases: &[u32],
    way: Way,
    triangles: &mut Triangles,
) -> Result<(), AllocError>
    requires surface { IsSurface surface.now }
    requires bases { bases.now ≡ face_bases surface.now.polygons }
    requires way { IsFanWay surface.now.polygons way }
    ensures { OnOk result (AddsHalfEdge surface.now.polygons way triangles.old triangles.new) }
{
    let twin = glued_way(surface, way);
    triangles.homes.push(Corner::new(way.polygon, way.from))?;
    triangles
        .twins
        .push(half_edge_along(bases[twin.polygon as usize], twin))
}

// The vector of a side, or of a diagonal from or to corner 0, which is at (0,0).
fn vector_of(surface: &Surface, way: Way) -> V2
    requires surface { IsSurface surface.now }
    requires way { IsFanWay surface.now.polygons way }
    ensures { result ≡ way_vector surface.now way }
{
    if way.from == 0 {
        surface.place(Corner::new(way.polygon, way.to))
    } else if way.to == 0 {
        surface.place(Corner::new(way.polygon, way.from)).neg()
    } else {
        surface.side(Corner::new(way.polygon, way.from))
    }
}

// The way that is glued to a way: a side to its partner, a diagonal to itself, the other way.
fn glued_way(surface: &Surface, way: Way) -> Way
    requires surface { IsSurface surface.now }
    requires way { IsFanWay surface.now.polygons way }
    ensures { result ≡ glued_way surface.now.polygons way }
{
    let start = Corner::new(way.polygon, way.from);
    if surface.corner_after(start).side == way.to {
        let partner = surface.partner(start);
        Way {
            polygon: partner.polygon,
            from: partner.side,
            to: surface.corner_after(partner).side,
        }
    } else {
        Way {
            polygon: way.polygon,
            from: way.to,
            to: way.from,
        }
    }
}

// The half-edge along a way of a polygon whose first face has the number `base`.
fn half_edge_along(base: u32, way: Way) -> u32
    requires base { base ≤ most_sides }
    requires way { IsInFan most_sides way }
    ensures { result ≡ half_edge_along base way }
{
    let from = u32::from(way.from);
    let to = u32::from(way.to);
    if from == 0 {
        3 * (base + to - 1)
    } else if to == 0 {
        3 * (base + from - 2) + 2
    } else {
        3 * (base + from - 1) + 1
    }
}
