// Shapes: what a surface is built from.

use crate::sequence::Sequence;
use fs_fraction::Frac;
use fs_plane::Corner;

/// A vector of the plane, unscaled, as a job has it.
#[derive(Clone, Copy, Debug, PartialEq, Eq, Hash)]
pub struct Point {
    pub x: Frac,
    pub y: Frac,
}

/// Two sides that are glued, and the number of the line of the job that glues them.
#[derive(Clone, Copy, Debug, PartialEq, Eq, Hash)]
pub struct Glue {
    pub line: u32,
    pub one: Corner,
    pub two: Corner,
}

/// What a surface is built from: polygons, each the list of its side vectors, counterclockwise,
/// the glued pairs of sides, and whether straight corners are allowed. `build` finds its faults.
#[derive(Drop)]
pub struct Shape {
    pub polygons: Sequence<Sequence<Point>>,
    pub glues: Sequence<Glue>,
    pub straight: bool,
}
