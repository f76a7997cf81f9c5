// Straight paths followed from polygon to polygon.

ghost use Rattle.std.specs.Prelude.{◌≡◌, ◌≤◌, [], length, Ok};
ghost use Rattle.fs_plane.specs.declared.corners.Corner.{Corner};
ghost use Rattle.fs_gluing.specs.Polygons.{HasSide};
ghost use Rattle.fs_gluing.specs.Surface.{IsSurface};
ghost use Rattle.fs_gluing.specs.SurfaceSides.{polygon_sides};
ghost use Rattle.fs_develop.specs.declared.entering.Entry.TheVariants.{Inside};
ghost use Rattle.fs_develop.specs.Following.{first_entry, first_spot, past_side, FollowsTo};
ghost use Rattle.fs_develop.specs.Spots.{BeginsAs};
ghost use Rattle.fs_develop.specs.Walks.{IsWithin, IsNextOf, ReturnsWalk, ReturnsCheck};

use crate::entering::{Entry, enter};
use crate::looking::Departure;
use crate::spots::{Spot, depart};
use crate::walking::Walk;
use fs_gluing::{Sequence, Surface};
use fs_plane::{Corner, Place, Site, Stop, V2};

// How the path along v begins at a corner.
pub fn begin(surface: &Surface, start: Corner, v: V2) -> Result<Entry, Site>
    requires { HasSide surface.now.polygons start }
    ensures { BeginsAs surface.now.d (polygon_sides surface.now.polygons) v start result }
{
    let outgoing = surface.side(start);
    let incoming = surface.side(surface.side_before(start));
    match enter(surface.field(), outgoing, incoming, v) {
        Ok(entry) => Ok(entry),
        Err(Place(place)) => Err(Site::Enter { place }),
    }
}

// The first spot of a path inside the sector of a corner.
fn first_spot(start: Corner) -> Spot
    ensures { result ≡ first_spot start }
{
    Spot {
        corners: 0,
        side: start,
        from: V2::ZERO,
    }
}

// The first spot after the side of a spot is crossed.
fn cross(surface: &Surface, spot: Spot) -> Spot
    requires surface { IsSurface surface.now }
    requires side { HasSide surface.now.polygons spot.side }
    ensures { result ≡ past_side (polygon_sides surface.now.polygons) spot }
{
    Spot {
        corners: 0,
        side: surface.corner_after(surface.partner(spot.side)),
        from: spot.from,
    }
}

// Follows the path along v from a corner, inside the sector of which it begins, across at most `steps` sides.
pub fn follow(
    surface: &Surface,
    start: Corner,
    v: V2,
    steps: u32,
    mut word: Sequence<Corner>,
) -> Result<Walk, Stop>
    requires start { HasSide surface.now.polygons start }
    requires surface { IsSurface surface.now }
    requires inside { first_entry surface.now.d (polygon_sides surface.now.polygons) v start ≡ Ok Inside }
    requires steps { steps ≤ 1000000 }
    requires word { word ≡ [] }
    ensures { ReturnsWalk (FollowsTo surface.now.d (polygon_sides surface.now.polygons) v (IsWithin steps) []
        (first_spot start)) result }
{
    let mut spot = first_spot(start);
    loop {
        let last = depart(surface, v, word.len() as u32, spot)?;
        match last.departure {
            Departure::EndsAtCorner => {
                let end = surface.corner_after(last.spot.side);
                return Ok(Walk::Segment { word, end });
            }
            Departure::MeetsCorner => return Ok(Walk::Vertex { word }),
            Departure::EndsBefore => return Ok(Walk::Inside { word }),
            Departure::Crosses => {}
        }
        if word.len() == steps as usize {
            return Ok(Walk::LongWord { word });
        }
        word.push(last.spot.side)?;
        spot = cross(surface, last.spot);
    }
}

// Whether the path along v from a corner, inside the sector of which it begins, crosses the sides of this word and
// ends at a vertex.
pub fn follow_word(surface: &Surface, start: Corner, word: &[Corner], v: V2) -> Result<bool, Site>
    requires start { HasSide surface.now.polygons start }
    requires surface { IsSurface surface.now }
    requires inside { first_entry surface.now.d (polygon_sides surface.now.polygons) v start ≡ Ok Inside }
    requires short { length word.now ≤ 1000000 }
    ensures { ReturnsCheck (FollowsTo surface.now.d (polygon_sides surface.now.polygons) v (IsNextOf word.now) []
        (first_spot start)) word.now result }
{
    let mut spot = first_spot(start);
    for (n, side) in word.iter().enumerate() {
        let last = depart(surface, v, n as u32, spot)?;
        if !last.crosses(*side) {
            return Ok(false);
        }
        spot = cross(surface, last.spot);
    }
    let last = depart(surface, v, word.len() as u32, spot)?;
    Ok(last.ends_at_corner())
}
