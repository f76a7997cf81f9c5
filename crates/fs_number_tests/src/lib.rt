// Tests of public calls of fs_quadratic and fs_fraction: tables of arguments and results.
#![tactic(auto)]

#[cfg(test)]
mod common;
#[cfg(test)]
mod fractions;
#[cfg(test)]
mod numbers;
#[cfg(test)]
mod spellings;
#[cfg(test)]
mod widths;
