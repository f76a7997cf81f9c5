// The saddle list: the rays of a Delaunay triangulation within a bound, by the corners of the surface at which they begin.
#![tactic(auto)]

mod saddles;

pub use saddles::{Saddles, find_saddles};
