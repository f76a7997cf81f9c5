// The limits of a surface and of the shape that it is built from.

/// The most polygons of a surface.
pub const MOST_POLYGONS: usize = 256;
/// The most sides of a surface, those of all its polygons counted.
pub const MOST_SIDES: usize = 1024;
