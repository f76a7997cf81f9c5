// Tests of public calls of fs_plane and fs_gluing: tables of arguments and results.
#![tactic(auto)]

#[cfg(test)]
mod circles;
#[cfg(test)]
mod common;
#[cfg(test)]
mod corners;
#[cfg(test)]
mod listed;
#[cfg(test)]
mod segments;
#[cfg(test)]
mod surfaces;
#[cfg(test)]
mod vectors;
