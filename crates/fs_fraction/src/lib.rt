// Fractions of the numbers p + q·√d, exact and in lowest terms.
#![tactic(auto)]

mod arithmetic;
mod digits;
mod divisor;
mod fraction;
mod memory;
mod number;
mod spelling;
pub mod steps;
mod value;
mod width;
mod written;

pub use arithmetic::{add, div, inv, mul, sub};
pub use divisor::greatest_divisor;
pub use fraction::{Frac, FracStop};
pub use memory::NoMemory;
pub use number::{NumberFault, print_number, read_number};
