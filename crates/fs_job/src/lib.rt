// The text of a job: which bytes are which job, and the first fault of all others.
#![tactic(auto)]

mod arguments;
mod draft_job;
mod drafts;
mod job;
mod laws;
mod lines;
mod pieces;
mod points;
mod reading;
mod sites;
mod statements;
mod words;

pub use job::{Command, Form, Job, JobStop, MOST_TABLE_SIDES};
pub use laws::job_or_fault;
pub use reading::read_job;
pub use sites::print_site;
