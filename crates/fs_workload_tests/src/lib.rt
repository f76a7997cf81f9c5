// Tests of public calls of fs_workload: staircases worked out by another program.
#![tactic(auto)]

#[cfg(test)]
mod staircases;
