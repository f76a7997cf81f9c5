// Vectors of the plane over p + q·√d, the corners of polygons, and where a computation stops.
#![tactic(auto)]

mod circles;
mod corners;
mod discs;
mod formulas;
mod listed_order;
mod listing;
mod sites;
pub mod steps;
mod vector;

pub use circles::circle;
pub use corners::Corner;
pub use discs::comes_within;
pub use formulas::{cross, dot, in_sector, is_convex, norm};
pub use fs_quadratic::Place;
pub use listing::Listed;
pub use sites::{Site, Stop};
pub use vector::V2;
