ghost use Rattle.std.specs.Prelude.{◌≡◌};

/// A corner of a polygon, and the side that begins there. Polygons are numbered from 0, and the
/// corners of each from 0 counterclockwise; side j leads from corner j to corner j + 1, the last
/// one back to corner 0. Ordered by polygon, then by side.
#[derive(Clone, Copy, Debug, PartialEq, Eq, PartialOrd, Ord, Hash)]
pub struct Corner {
    pub polygon: u16,
    pub side: u16,
}

impl Corner {
    /// The corner at which side `side` of polygon `polygon` begins.
    pub const fn new(polygon: u16, side: u16) -> Corner
        ensures { result ≡ record { polygon = polygon; side = side } }
    {
        Corner { polygon, side }
    }
}
