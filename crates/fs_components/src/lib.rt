// The decomposition of a flow: its cylinders and its components with loops, their areas, and the connections along it.
#![tactic(auto)]

mod along;
mod flow;
mod measures;

pub use along::connections;
pub use flow::{Flow, Measured, find_flow};
