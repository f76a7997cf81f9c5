// Exact numbers p + q·√d, with whole p and q of at most 127 bits, for one squarefree d.
#![tactic(auto)]

mod complete_quotient;
mod element;
mod order;
mod product;
mod radicand;
pub mod steps;
pub mod width;

pub use element::{Elem, Op};
pub use radicand::{BadField, Field};
pub use steps::Place;
