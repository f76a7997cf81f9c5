// The list of connections along a direction.

ghost use Rattle.std.specs.Prelude.{◌≡◌, ◌≢◌, ◌↔◌, ◌<◌, ◌^◌, IsTrue, Result, IsOk, List, [], ◌∷◌, ◌++◌, length, IfOk, IfErr, OnOk};
ghost use Rattle.fs_ring.specs.Direction.{IsAlong};
ghost use Rattle.fs_quadratic.specs.Ring.{quadratic, IsPositive, zero, sign};
ghost use Rattle.fs_plane.specs.declared.corners.Corner.{Corner};
ghost use Rattle.fs_plane.specs.declared.listing.Listed.{Listed};
ghost use Rattle.fs_plane.specs.declared.sites.Stop.{Stop};
ghost use Rattle.fs_plane.specs.Formulas.{cross_after};
ghost use Rattle.fs_plane.specs.Vector.{vector_zero, cross as plane_cross};
ghost use Rattle.fs_gluing.specs.Gluing.{sides_between};
ghost use Rattle.fs_gluing.specs.NextCorner.{side_count};
ghost use Rattle.fs_gluing.specs.Polygons.{HasSide};
ghost use Rattle.fs_iet.specs.Rows.{HaveWidths};
ghost use Rattle.fs_rauzy.specs.declared.parts.Run.{Run};
ghost use Rattle.fs_components.specs.Connections.{AreConnections, EndsConnections, ReturnsConnections, IsRunOf};
ghost use Rattle.fs_components.specs.Gathering.{AreSidesAlong, AreKept, IsKeptAfter, StopsKeeping, StopsAtConnection};

use fs_gluing::{Sequence, Surface};
use fs_plane::{Corner, Listed, Place, Site, Stop, V2, cross};
use fs_quadratic::{Elem, Field};
use fs_rauzy::{Found, Run};
use std::alloc::{AllocError, Global};

/// The connections along `v` that are known from the run of its exchange: the sides that are along `v`, by the corners where
/// they begin, and the connections that the run found, but for those whose vector is 0. They ascend, in the order of `Listed`.
///
/// It is refused as `Overflow` only at a site `Keep`: side after side, and then the found ones in order, it is the first one
/// with a part over 2^57 in size; all of them are numbered. It is never undecided. The cost is linear in the sides and the
/// found connections, and sorting takes n·log n comparisons of n entries.
pub fn connections(
    alloc: Global,
    surface: &Surface,
    v: V2,
    run: &Run,
) -> Result<Sequence<Listed>, Stop>
    requires direction { v ≢ vector_zero }
    requires run { IsRunOf surface.now v run.now }
    ensures list { ReturnsConnections (EndsConnections surface.now v run.now.found) result }
    ensures only { (given : Result (List Listed) Stop) → EndsConnections surface.now v run.now.found given → ReturnsConnections (λ returned. returned ≡ given) result }
{
    list_connections(alloc, surface, v, &run.found)
}

// The same, by the connections that the run found.
pub fn list_connections(
    alloc: Global,
    surface: &Surface,
    v: V2,
    found: &Sequence<Found>,
) -> Result<Sequence<Listed>, Stop>
    requires direction { v ≢ vector_zero }
    requires run { (run : Run) × IsRunOf surface.now v run × (run.found ≡ found.now) }
    ensures list { ReturnsConnections (EndsConnections surface.now v found.now) result }
    ensures only { (given : Result (List Listed) Stop) → EndsConnections surface.now v found.now given → ReturnsConnections (λ returned. returned ≡ given) result }
{
    let field = surface.field();
    let connections = gather(alloc, surface, v, found.as_slice())?;
    let mut list = keep_all(alloc, field, connections.as_slice())?;
    list.sort_unstable();
    Ok(Sequence::from_vec(list))
}

// The connections in order: the sides along the direction, and what was found.
fn gather(
    alloc: Global,
    surface: &Surface,
    v: V2,
    found: &[Found],
) -> Result<Vec<Found>, AllocError>
    requires direction { v ≢ vector_zero }
    requires widths { HaveWidths surface.now v }
    ensures { IfOk result (λ connections. AreConnections surface.now v found.now connections.items) }
{
    let mut connections = Vec::new(alloc);
    for i in 0..surface.polygons() {
        push_sides(surface, v, i, &mut connections)?;
    }
    connections.extend_from_slice(found)?;
    Ok(connections)
}

// Adds the sides of polygon i that are along the direction.
fn push_sides(
    surface: &Surface,
    v: V2,
    i: u16,
    connections: &mut Vec<Found>,
) -> Result<(), AllocError>
    requires there { i < length surface.now.polygons }
    requires direction { v ≢ vector_zero }
    requires widths { HaveWidths surface.now v }
    ensures { OnOk result ((sides : List Corner) → AreSidesAlong surface.now v sides connections.old.items
        → AreSidesAlong surface.now v (sides ++ sides_between i 0 (side_count surface.now.polygons i)) connections.new.items) }
{
    for j in 0..surface.sides(i) {
        push_side(surface, v, Corner::new(i, j), connections)?;
    }
    Ok(())
}

// Adds a side where it is along the direction.
fn push_side(
    surface: &Surface,
    v: V2,
    e: Corner,
    connections: &mut Vec<Found>,
) -> Result<(), AllocError>
    requires there { HasSide surface.now.polygons e }
    requires direction { v ≢ vector_zero }
    requires widths { HaveWidths surface.now v }
    ensures { OnOk result ((sides : List Corner) → AreSidesAlong surface.now v sides connections.old.items
        → AreSidesAlong surface.now v (sides ++ e ∷ []) connections.new.items) }
{
    let side = surface.side(e);
    if is_along(surface.field(), v, side) {
        connections.push(Found { start: e, v: side })?;
    }
    Ok(())
}

// Whether a side is along the direction: parallel to it, with coordinates of the same signs. No number is computed but the
// cross product, which was computed for the exchange.
fn is_along(field: Field, v: V2, side: V2) -> bool
    requires direction { v ≢ vector_zero }
    requires fits { IsOk (cross_after 0 field.d side v) }
    ensures { IsTrue result ↔ IsAlong (quadratic field.d) (IsPositive field.d) v side }
{
    is_parallel(field, v, side) && has_signs_of(field, side, v)
}

// Whether the coordinates have the same signs.
fn has_signs_of(field: Field, a: V2, b: V2) -> bool
    ensures { IsTrue result ↔ ((sign field.d a.x ≡ sign field.d b.x) × (sign field.d a.y ≡ sign field.d b.y)) }
{
    is_same_sign(field, a.x, b.x) && is_same_sign(field, a.y, b.y)
}

// Whether two numbers have the same sign.
fn is_same_sign(field: Field, x: Elem, y: Elem) -> bool
    ensures { IsTrue result ↔ (sign field.d x ≡ sign field.d y) }
{
    field.sign(x) == field.sign(y)
}

// Whether it is parallel to the direction.
fn is_parallel(field: Field, v: V2, side: V2) -> bool
    requires { IsOk (cross_after 0 field.d side v) }
    ensures { IsTrue result ↔ (plane_cross field.d side v ≡ zero) }
{
    match cross(field, side, v) {
        Ok(across) => across == Elem::ZERO,
        Err(_) => unreachable!(),
    }
}

// The entries of all connections whose vectors aren't 0, in order.
fn keep_all(alloc: Global, field: Field, connections: &[Found]) -> Result<Vec<Listed>, Stop>
    requires { length connections.now < 2 ^ 32 }
    ensures kept { IfOk result (λ list. AreKept field.d connections.now list.items) }
    ensures stops { IfErr result (StopsKeeping connections.now) }
{
    let mut list = Vec::new(alloc);
    for (n, connection) in connections.iter().enumerate() {
        keep_next(field, *connection, n as u32, &mut list)?;
    }
    Ok(list)
}

// Keeps connection number n, where its vector isn't 0.
fn keep_next(field: Field, connection: Found, n: u32, list: &mut Vec<Listed>) -> Result<(), Stop>
    ensures kept { OnOk result (IsKeptAfter field.d connection list.old.items list.new.items) }
    ensures stops { IfErr result (StopsAtConnection connection n) }
{
    if connection.v == V2::ZERO {
        return Ok(());
    }
    match Listed::keep(field, connection.v, connection.start) {
        Ok(entry) => Ok(push_entry(list, entry)?),
        Err(Place(place)) => Err(Stop::Overflow(Site::Keep { vector: n, place })),
    }
}

// Adds an entry.
fn push_entry(list: &mut Vec<Listed>, entry: Listed) -> Result<(), AllocError>
    ensures { OnOk result (list.new.items ≡ list.old.items ++ entry ∷ []) }
{
    list.push(entry)?;
    Ok(())
}
