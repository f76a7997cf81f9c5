// Billiard tables, unfolded into the shapes of surfaces.
#![tactic(auto)]

mod copies;
mod glue_lines;
mod matrices;
mod products;
mod unfolding;

pub use fs_gluing::BuildStop as UnfoldStop;
pub use unfolding::unfold;
