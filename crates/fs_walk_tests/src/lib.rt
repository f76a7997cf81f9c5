// Tests of public calls of fs_develop: tables of surfaces and vectors, and how their paths end.
#![tactic(auto)]

#[cfg(test)]
mod checks;
#[cfg(test)]
mod common;
#[cfg(test)]
mod grids;
#[cfg(test)]
mod overflows;
#[cfg(test)]
mod plans;
#[cfg(test)]
mod walks;
