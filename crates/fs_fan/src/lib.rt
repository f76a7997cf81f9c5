// The rays from the corners of a mesh to its corners, within a bound, by the live words of crossed half-edges.
#![tactic(auto)]

mod fans;
mod visits;

pub use fans::{Fans, Ray, find_fans};
