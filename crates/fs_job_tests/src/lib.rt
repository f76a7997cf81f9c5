// Tests of public calls of fs_job: tables of texts and results.
#![tactic(auto)]

#[cfg(test)]
mod common;
#[cfg(test)]
mod contents;
#[cfg(test)]
mod jobs;
#[cfg(test)]
mod segment_jobs;
#[cfg(test)]
mod table_jobs;
