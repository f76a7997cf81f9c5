// The first cut of a surface into triangles.
#![tactic(auto)]

mod fans;

pub use fans::fan_cut;
