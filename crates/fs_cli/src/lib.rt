// The call `flat`: words and bytes in, an answer and a status out.
#![tactic(auto)]

mod answering;
mod laws;
mod outcome;
mod run;
mod summary;
mod words;

pub use laws::one_answer;
pub use outcome::Status;
pub use run::flat;
