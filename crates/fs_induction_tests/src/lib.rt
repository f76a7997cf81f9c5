// Tests of public calls of fs_rauzy: runs of the induction, where they overflow, spent budgets, and single events.
#![tactic(auto)]

#[cfg(test)]
mod budgets;
#[cfg(test)]
mod common;
#[cfg(test)]
mod overflows;
#[cfg(test)]
mod plans;
#[cfg(test)]
mod runs;
#[cfg(test)]
mod steps;
#[cfg(test)]
mod wide_plans;
