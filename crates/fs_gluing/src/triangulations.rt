// Surfaces that are cut into triangles.

use crate::sequence::Sequence;
use fs_plane::{Corner, V2};

/// The triangles into which the polygons of a surface are cut. A side of a triangle is a half-edge;
/// half-edge k of face f, counterclockwise, has the number 3·f + k.
#[derive(Drop)]
pub struct Triangles {
    /// The scaled vectors of the three half-edges of each face.
    pub faces: Sequence<[V2; 3]>,
    /// The twin of each half-edge: the half-edge that it is glued to.
    pub twins: Sequence<u32>,
    /// The corner of the surface at which each half-edge begins.
    pub homes: Sequence<Corner>,
}

/// The straight way from one corner of a polygon to another: along a side, or along a diagonal.
#[derive(Clone, Copy, Debug, PartialEq, Eq, Hash)]
pub struct Way {
    pub polygon: u16,
    pub from: u16,
    pub to: u16,
}
