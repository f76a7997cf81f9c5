// Walks along straight paths.

ghost use Rattle.std.specs.Prelude.{◌≡◌, ◌≢◌, ◌≤◌, ◌↔◌, length, IfOk, IsTrue};
ghost use Rattle.fs_plane.specs.declared.corners.Corner.{Corner};
ghost use Rattle.fs_plane.specs.Vector.{vector_zero};
ghost use Rattle.fs_paths.specs.Ends.{PathEnd};
ghost use Rattle.fs_gluing.specs.Polygons.{HasSide};
ghost use Rattle.fs_gluing.specs.Surface.{IsSurface};
ghost use Rattle.fs_develop.specs.Walks.{end_of, IsPathEnd, IsSurfaceSegment, IsOnly, WalksTo, FollowsWord, ReturnsWalk, ReturnsCheck};

use crate::entering::Entry;
use crate::following::{begin, follow, follow_word};
use fs_gluing::{Sequence, Surface};
use fs_plane::{Corner, Site, Stop, V2};
use std::alloc::Global;

/// How the straight path from a corner along a vector ends. The word is the list of the sides by
/// which it leaves its polygons, in order.
#[derive(Drop)]
pub enum Walk {
    /// It ends at a vertex and meets none before; `end` is the corner of the last polygon there.
    Segment { word: Sequence<Corner>, end: Corner },
    /// It meets a vertex before its end.
    Vertex { word: Sequence<Corner> },
    /// It ends in the last polygon or on its boundary, off the vertices, and meets none.
    Inside { word: Sequence<Corner> },
    /// It crosses more sides than it may: the word has as many.
    LongWord { word: Sequence<Corner> },
    /// The vector isn't in the corner's sector.
    OutOfSector,
}

/// Follows the straight path from a corner along v, which isn't (0, 0) and is scaled, across at most `steps`
/// sides. `steps` is at most 1,000,000.
///
/// The error is the first site that overflows, in the order in which the path comes to its corners:
/// `enter` at its start, `walk` in the polygons; or that memory ran out. It is never a spent budget:
/// that is the walk `LongWord`.
///
/// Its cost is linear in the number of corners of the polygons that the path crosses, its memory in the word.
pub fn find_walk(
    alloc: Global,
    surface: &Surface,
    start: Corner,
    v: V2,
    steps: u32,
) -> Result<Walk, Stop>
    requires start { HasSide surface.now.polygons start }
    requires direction { v ≢ vector_zero }
    requires steps { steps ≤ 1000000 }
    // The run along the path ends so, and in no other way.
    ensures run { ReturnsWalk (IsOnly (WalksTo surface.now start v steps)) result }
    // The path ends so, and in no other way.
    ensures end { IfOk result (λ walk. IsOnly (IsPathEnd surface.now start v steps) (end_of walk)) }
{
    // A look at the field makes the invariant of the surface known here.
    let _ = surface.field();
    walk_from(alloc, surface, start, v, steps)
}

// The walk by its run alone.
fn walk_from(
    alloc: Global,
    surface: &Surface,
    start: Corner,
    v: V2,
    steps: u32,
) -> Result<Walk, Stop>
    requires surface { IsSurface surface.now }
    requires start { HasSide surface.now.polygons start }
    requires steps { steps ≤ 1000000 }
    ensures { ReturnsWalk (WalksTo surface.now start v steps) result }
{
    let word = Sequence::new(alloc);
    match begin(surface, start, v)? {
        Entry::Outside => Ok(Walk::OutOfSector),
        Entry::WholeSide => Ok(Walk::Segment {
            word,
            end: surface.corner_after(start),
        }),
        Entry::WithinSide => Ok(Walk::Inside { word }),
        Entry::BeyondSide => Ok(Walk::Vertex { word }),
        Entry::Inside => follow(surface, start, v, steps, word),
    }
}

/// Whether v, which isn't (0, 0) and is scaled, leads from a corner across the sides of this word to
/// a vertex, and meets none before. The word has at most 1,000,000 sides.
///
/// The path is followed as far as it crosses the sides of the word. The error is the first site that
/// overflows on the way. Takes no memory; its cost is linear in the number of corners of the polygons that
/// the path crosses.
pub fn check_segment(surface: &Surface, start: Corner, word: &[Corner], v: V2) -> Result<bool, Site>
    requires start { HasSide surface.now.polygons start }
    requires direction { v ≢ vector_zero }
    requires short { length word.now ≤ 1000000 }
    // The run along the word ends so, and in no other way.
    ensures run { ReturnsCheck (IsOnly (FollowsWord surface.now start v word.now)) word.now result }
    ensures segment { IfOk result (λ held. IsTrue held ↔ ((y : Corner) × IsSurfaceSegment surface.now start word.now v y)) }
{
    // A look at the field makes the invariant of the surface known here.
    let _ = surface.field();
    check_from(surface, start, word, v)
}

// The check by its run alone.
fn check_from(surface: &Surface, start: Corner, word: &[Corner], v: V2) -> Result<bool, Site>
    requires surface { IsSurface surface.now }
    requires start { HasSide surface.now.polygons start }
    requires short { length word.now ≤ 1000000 }
    ensures { ReturnsCheck (FollowsWord surface.now start v word.now) word.now result }
{
    match begin(surface, start, v)? {
        Entry::Outside | Entry::WithinSide | Entry::BeyondSide => Ok(false),
        Entry::WholeSide => Ok(word.is_empty()),
        Entry::Inside => follow_word(surface, start, word, v),
    }
}
