// The texts of answers to commands, of faults, and of the sites where building overflows.
#![tactic(auto)]

mod answers;
mod areas;
mod cells;
mod delaunay;
mod flow;
mod lines;
mod saddles;
mod segment;
mod stratum;
mod vectors;

pub use answers::{Answer, find_answer};
pub use lines::{build_line, fault_line};
