// Tests of public calls of fs_triangulate and fs_mesh: surfaces, the triangles of their first cuts, flips, and the corners
// of vectors.
#![tactic(auto)]

#[cfg(test)]
mod common;
#[cfg(test)]
mod cuts;
#[cfg(test)]
mod flips;
#[cfg(test)]
mod homes;
#[cfg(test)]
mod plans;
#[cfg(test)]
mod states;
