// The rows of an exchange: its sides from left to right.

ghost use Rattle.std.specs.Prelude.{◌≡◌, ◌≢◌, ◌↔◌, ◌<◌, ◌++◌, List, IsTrue, length, IfOk, OnOk};
ghost use Rattle.fs_plane.specs.declared.corners.Corner.{Corner};
ghost use Rattle.fs_gluing.specs.Exchanges.{AreChainsIn, IsChainIn};
ghost use Rattle.fs_gluing.specs.Polygons.{HasSide};
ghost use Rattle.fs_gluing.specs.Surface.{IsTranslationSurface};
ghost use Rattle.fs_iet.specs.Rows.{HaveWidths, IsInRow, IsLeftmost, to_right_in, to_left_in};
ghost use Rattle.fs_plane.specs.Vector.{vector_zero};

use crate::widths::{is_incoming, is_outgoing};
use fs_gluing::{Sequence, Surface};
use fs_plane::{Corner, V2};
use std::alloc::{AllocError, Global};

// The rows: the top one has the sides by which the flow leaves its polygons, the bottom one those by which it enters them.
#[derive(Clone, Copy, PartialEq, Eq)]
pub enum Row {
    Top,
    Bottom,
}

// The sides of a row from left to right, polygon by polygon.
pub fn find_row(
    alloc: Global,
    surface: &Surface,
    v: V2,
    row: Row,
) -> Result<Sequence<Corner>, AllocError>
    requires widths { HaveWidths surface.now v }
    requires direction { v ≢ vector_zero }
    ensures { IfOk result (λ sides. AreChainsIn (to_right_in surface.now row) (IsInRow surface.now v row) (length surface.now.polygons) sides) }
{
    let mut sides = Sequence::new(alloc);
    for i in 0..surface.polygons() {
        push_chain(surface, v, row, i, &mut sides)?;
    }
    Ok(sides)
}

// Adds the sides of polygon i.
fn push_chain(
    surface: &Surface,
    v: V2,
    row: Row,
    i: u16,
    sides: &mut Sequence<Corner>,
) -> Result<(), AllocError>
    requires surface { IsTranslationSurface surface.now }
    requires there { i < length surface.now.polygons }
    requires widths { HaveWidths surface.now v }
    requires direction { v ≢ vector_zero }
    ensures { OnOk result ((chain : List Corner) × (sides.new ≡ sides.old ++ chain) × IsChainIn (to_right_in surface.now row) (IsInRow surface.now v row) i chain) }
{
    let mut e = find_leftmost(surface, v, row, i);
    while is_in_row(surface, v, row, e) {
        sides.push(e)?;
        e = to_the_right(surface, row, e);
    }
    Ok(())
}

// The leftmost side of polygon i in a row: the one to its left isn't in the row.
fn find_leftmost(surface: &Surface, v: V2, row: Row, i: u16) -> Corner
    requires surface { IsTranslationSurface surface.now }
    requires there { i < length surface.now.polygons }
    requires widths { HaveWidths surface.now v }
    requires direction { v ≢ vector_zero }
    ensures { IsLeftmost surface.now v row i result }
{
    for j in 0..surface.sides(i) {
        let e = Corner::new(i, j);
        if is_in_row(surface, v, row, e)
            && !is_in_row(surface, v, row, to_the_left(surface, row, e))
        {
            return e;
        }
    }
    unreachable!()
}

// Whether a side is in the row.
fn is_in_row(surface: &Surface, v: V2, row: Row, e: Corner) -> bool
    requires there { HasSide surface.now.polygons e }
    requires widths { HaveWidths surface.now v }
    ensures { IsTrue result ↔ IsInRow surface.now v row e }
{
    match row {
        Row::Top => is_outgoing(surface, v, e),
        Row::Bottom => is_incoming(surface, v, e),
    }
}

// The next side to the right in a row: the top one goes on clockwise round the polygon, the bottom one counterclockwise.
fn to_the_right(surface: &Surface, row: Row, e: Corner) -> Corner
    requires { HasSide surface.now.polygons e }
    ensures { result ≡ to_right_in surface.now row e }
{
    match row {
        Row::Top => surface.side_before(e),
        Row::Bottom => surface.corner_after(e),
    }
}

// The next side to the left.
fn to_the_left(surface: &Surface, row: Row, e: Corner) -> Corner
    requires { HasSide surface.now.polygons e }
    ensures { result ≡ to_left_in surface.now row e }
{
    match row {
        Row::Top => surface.corner_after(e),
        Row::Bottom => surface.side_before(e),
    }
}
