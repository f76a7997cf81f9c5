// The vertices of a surface, their cone angles, and the genus.
#![tactic(auto)]

mod cones;
mod corner_marks;

pub use cones::{Cone, classes, genus};
