// Meshes: the triangles of a surface in one arena of half-edges, whose edges are flipped in place.
#![tactic(auto)]

mod arena;
mod homes;
mod meshes;

pub use meshes::Mesh;
