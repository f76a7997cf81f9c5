// Staircases: large valid jobs made from a number.
#![tactic(auto)]

mod draws;
mod gluings;
mod laws;
mod rectangles;
mod staircases;

pub use laws::staircase_builds;
pub use staircases::{MOST_RECTANGLES, staircase};
