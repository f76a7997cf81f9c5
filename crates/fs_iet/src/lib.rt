// The interval exchange of a flow over a surface.
#![tactic(auto)]

mod exchanges;
mod images;
mod letters;
mod numbers;
mod rows;
mod sites;
mod widths;

pub use exchanges::{Exchange, find_exchange};
pub use letters::Tag;
