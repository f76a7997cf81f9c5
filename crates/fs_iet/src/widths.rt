// The sides of a surface, and how wide they are across a direction.

ghost use Rattle.std.specs.Prelude.{◌≡◌, ◌↔◌, ◌<◌, ◌++◌, IsTrue, IsOk, length, IfOk, OnOk};
ghost use Rattle.fs_plane.specs.Formulas.{cross_after};
ghost use Rattle.fs_gluing.specs.CrossingMap.{across, side_width, IsIncoming, IsOutgoing};
ghost use Rattle.fs_gluing.specs.Gluing.{sides_between};
ghost use Rattle.fs_gluing.specs.NextCorner.{side_count};
ghost use Rattle.fs_gluing.specs.Polygons.{HasSide, all_sides};
ghost use Rattle.fs_gluing.specs.SurfaceSides.{vector_of};

use fs_gluing::{Sequence, Surface};
use fs_plane::{Corner, V2, cross};
use fs_quadratic::Elem;
use std::alloc::{AllocError, Global};
use std::cmp::Ordering;

// All sides, by polygon, then by side.
pub fn list_sides(alloc: Global, surface: &Surface) -> Result<Sequence<Corner>, AllocError>
    ensures { IfOk result (λ sides. sides ≡ all_sides surface.now.polygons) }
{
    let mut sides = Sequence::new(alloc);
    for i in 0..surface.polygons() {
        push_sides(surface, i, &mut sides)?;
    }
    Ok(sides)
}

// Adds the sides of polygon i.
fn push_sides(surface: &Surface, i: u16, sides: &mut Sequence<Corner>) -> Result<(), AllocError>
    requires { i < length surface.now.polygons }
    ensures { OnOk result (sides.new ≡ sides.old ++ sides_between i 0 (side_count surface.now.polygons i)) }
{
    for j in 0..surface.sides(i) {
        sides.push(Corner::new(i, j))?;
    }
    Ok(())
}

// The width of a side across the direction, where its formula doesn't overflow.
pub fn across(surface: &Surface, v: V2, e: Corner) -> Elem
    requires there { HasSide surface.now.polygons e }
    requires fits { IsOk (cross_after 0 surface.now.d (vector_of surface.now.polygons e) v) }
    ensures { result ≡ across surface.now v e }
{
    match cross(surface.field(), surface.side(e), v) {
        Ok(width) => width,
        Err(_) => unreachable!(),
    }
}

// Whether the flow enters the polygon by that side.
pub fn is_incoming(surface: &Surface, v: V2, e: Corner) -> bool
    requires there { HasSide surface.now.polygons e }
    requires fits { IsOk (cross_after 0 surface.now.d (vector_of surface.now.polygons e) v) }
    ensures { IsTrue result ↔ IsIncoming surface.now v e }
{
    surface.field().sign(across(surface, v, e)) == Ordering::Greater
}

// Whether it leaves the polygon by that side.
pub fn is_outgoing(surface: &Surface, v: V2, e: Corner) -> bool
    requires there { HasSide surface.now.polygons e }
    requires fits { IsOk (cross_after 0 surface.now.d (vector_of surface.now.polygons e) v) }
    ensures { IsTrue result ↔ IsOutgoing surface.now v e }
{
    surface.field().sign(across(surface, v, e)) == Ordering::Less
}

// The size of the width.
pub fn side_width(surface: &Surface, v: V2, e: Corner) -> Elem
    requires there { HasSide surface.now.polygons e }
    requires fits { IsOk (cross_after 0 surface.now.d (vector_of surface.now.polygons e) v) }
    ensures { result ≡ side_width surface.now v e }
{
    let width = across(surface, v, e);
    match surface.field().sign(width) {
        Ordering::Greater => width,
        _ => width.neg(),
    }
}
