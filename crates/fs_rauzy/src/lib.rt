// Rauzy induction of an interval exchange: splits, won comparisons, merges and loops.
#![tactic(auto)]

mod checkpoints;
mod comparing;
mod duels;
mod events;
mod letters;
mod numbers;
mod parts;
mod reading;
mod room;
mod rows;
mod runs;
mod splits;
mod splitting;
mod states;

pub use events::{Event, Found};
pub use parts::{Kind, Letter, Logged, Part, Parts, Run};
pub use runs::{find_parts, find_run};
pub use states::State;
