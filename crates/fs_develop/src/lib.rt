// Straight paths across the polygons of a surface: where they end, and which sides they cross.
#![tactic(auto)]

mod entering;
mod following;
mod grid;
mod looking;
mod spots;
mod walking;

pub use grid::scale_to_grid;
pub use walking::{Walk, check_segment, find_walk};
