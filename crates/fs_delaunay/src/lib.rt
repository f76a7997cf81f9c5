// Delaunay triangulations by flips of illegal edges, and their cells.
#![tactic(auto)]

mod classes;
mod delaunay;
mod run;
mod suspects;

pub use delaunay::{Delaunay, cells, start};
pub use run::find_delaunay;
