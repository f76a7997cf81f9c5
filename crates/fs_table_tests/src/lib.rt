// Tests of public calls of fs_unfold: tables, the shapes into which they unfold, and why some are refused.
#![tactic(auto)]

#[cfg(test)]
mod common;
#[cfg(test)]
mod faults;
#[cfg(test)]
mod groups;
#[cfg(test)]
mod shapes;
#[cfg(test)]
mod sites;
