// A straight path in one polygon.

ghost use Rattle.std.specs.Prelude.{◌≡◌, ◌↔◌, IsTrue};
ghost use Rattle.fs_develop.specs.declared.looking.Departure.{Departure};
ghost use Rattle.fs_gluing.specs.Surface.{IsSurface};
ghost use Rattle.fs_gluing.specs.SurfaceSides.{polygon_sides};
ghost use Rattle.fs_develop.specs.Spots.{IsSpot, Departs};

use crate::looking::{Departure, Finding, look};
use fs_gluing::Surface;
use fs_plane::{Corner, Place, Site, V2};

// Where a path is in a polygon: how many of its corners the path was compared with, and the side
// that leads to the next one, with the position where this side begins.
#[derive(Clone, Copy, Debug, PartialEq, Eq)]
pub struct Spot {
    pub corners: u32,
    pub side: Corner,
    pub from: V2,
}

// The last spot of a path in a polygon, and how the path leaves the polygon or ends there.
#[derive(Clone, Copy, Debug, PartialEq, Eq)]
pub struct LastSpot {
    pub spot: Spot,
    pub departure: Departure,
}

impl LastSpot {
    // Whether the path crosses this side.
    pub fn crosses(&self, side: Corner) -> bool
        ensures { IsTrue result ↔ (self.now.departure ≡ Departure.Crosses) × (self.now.spot.side ≡ side) }
    {
        self.departure == Departure::Crosses && self.spot.side == side
    }

    // Whether the path ends at a corner.
    pub fn ends_at_corner(&self) -> bool
        ensures { IsTrue result ↔ (self.now.departure ≡ Departure.EndsAtCorner) }
    {
        self.departure == Departure::EndsAtCorner
    }
}

// Passes the corners to the right of the path along v, after so many crossings.
pub fn depart(surface: &Surface, v: V2, crossings: u32, first: Spot) -> Result<LastSpot, Site>
    requires surface { IsSurface surface.now }
    requires spot { IsSpot surface.now.d (polygon_sides surface.now.polygons) v first }
    ensures { Departs surface.now.d (polygon_sides surface.now.polygons) v first crossings result }
{
    let field = surface.field();
    let Spot {
        mut corners,
        mut side,
        mut from,
    } = first;
    loop {
        let found = look(corners, field, v, from, surface.side(side));
        let finding = match found {
            Ok(finding) => finding,
            Err(Place(place)) => return Err(Site::Walk { crossings, place }),
        };
        match finding {
            Finding::RightOfPath(corner) => {
                corners += 1;
                side = surface.corner_after(side);
                from = corner;
            }
            Finding::Last(departure) => {
                let spot = Spot {
                    corners,
                    side,
                    from,
                };
                return Ok(LastSpot { spot, departure });
            }
        }
    }
}
