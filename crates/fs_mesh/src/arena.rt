// The arena of half-edges, and the writes of a flip.

ghost use Rattle.std.specs.Prelude.{◌≡◌, ◌+◌, ◌<◌, ◌^◌, ◌≤◌, [], ◌∷◌, ◌++◌, length, slice_set, OnOk};
ghost use Rattle.fs_gluing.specs.Triangulation.{next_in_face};
ghost use Rattle.fs_mesh.specs.Arena.{vectors_of, twins_of, nexts_of, arena_homes, moved_by, IsFilled, IsWithin, vectors_written, homes_written, twins_written};

use crate::homes::NewEdge;
use fs_plane::{Corner, V2};
use std::alloc::AllocError;

// A half-edge: its scaled vector, its twin, the next half-edge of its face, and the corner of the surface at
// which it begins.
#[derive(Clone, Copy)]
pub struct HalfEdge {
    pub vector: V2,
    pub twin: u32,
    pub next: u32,
    pub home: Corner,
}

// The half-edges of a hinge, the two triangles at an edge: the edge's own, the one after it and the one before
// it, and the same for its twin.
#[derive(Clone, Copy)]
pub struct Hinge {
    pub edge: u32,
    pub after: u32,
    pub before: u32,
    pub twin: u32,
    pub after_twin: u32,
    pub before_twin: u32,
}

impl Hinge {
    // The number of a half-edge after the edge is flipped: the sides of the hinge move on by one.
    pub fn moved(&self, h: u32) -> u32
        ensures { result ≡ moved_by self.now h }
    {
        if h == self.before {
            self.after
        } else if h == self.after_twin {
            self.before
        } else if h == self.before_twin {
            self.after_twin
        } else if h == self.after {
            self.before_twin
        } else {
            h
        }
    }
}

// The next half-edge of a face, where half-edge k of face f has the number 3·f + k.
fn next_in_face(h: u32) -> u32
    requires { h + 1 < 2 ^ 32 }
    ensures { result ≡ next_in_face h }
{
    if h % 3 == 2 { h - 2 } else { h + 1 }
}

// Adds a half-edge with this vector.
pub fn push_half_edge(
    half_edges: &mut Vec<HalfEdge>,
    vector: V2,
    twins: &[u32],
    homes: &[Corner],
) -> Result<(), AllocError>
    requires filled { IsFilled twins.now homes.now half_edges.old.items }
    requires as_many { length homes.now ≡ length twins.now }
    requires room { length half_edges.old.items < length twins.now }
    requires few { length twins.now < 2 ^ 32 }
    ensures filled { OnOk result (IsFilled twins.now homes.now half_edges.new.items) }
    ensures vectors { OnOk result (vectors_of half_edges.new.items ≡ vectors_of half_edges.old.items ++ vector ∷ []) }
{
    let h = half_edges.len() as u32;
    let half_edge = HalfEdge {
        vector,
        twin: twins[h as usize],
        next: next_in_face(h),
        home: homes[h as usize],
    };
    half_edges.push(half_edge)?;
    Ok(())
}

// Adds the half-edges of a face with these vectors.
pub fn push_face(
    half_edges: &mut Vec<HalfEdge>,
    face: &[V2; 3],
    twins: &[u32],
    homes: &[Corner],
) -> Result<(), AllocError>
    requires filled { IsFilled twins.now homes.now half_edges.old.items }
    requires as_many { length homes.now ≡ length twins.now }
    requires room { length half_edges.old.items + length face.now ≤ length twins.now }
    requires few { length twins.now < 2 ^ 32 }
    ensures filled { OnOk result (IsFilled twins.now homes.now half_edges.new.items) }
    ensures vectors { OnOk result (vectors_of half_edges.new.items ≡ vectors_of half_edges.old.items ++ face.now) }
{
    for vector in face {
        push_half_edge(half_edges, *vector, twins, homes)?;
    }
    Ok(())
}

// Gives a half-edge this vector, this twin and this home.
fn put(half_edges: &mut [HalfEdge], at: u32, vector: V2, twin: u32, home: Corner)
    requires { at < length half_edges.old }
    ensures vectors { vectors_of half_edges.new ≡ slice_set (vectors_of half_edges.old) at vector }
    ensures twins { twins_of half_edges.new ≡ slice_set (twins_of half_edges.old) at twin }
    ensures homes { arena_homes half_edges.new ≡ slice_set (arena_homes half_edges.old) at home }
    ensures nexts { nexts_of half_edges.new ≡ nexts_of half_edges.old }
{
    let half_edge = &mut half_edges[at as usize];
    half_edge.vector = vector;
    half_edge.twin = twin;
    half_edge.home = home;
}

// Gives a half-edge the vector and the home of another one, and this twin.
fn move_side(half_edges: &mut [HalfEdge], at: u32, side: &HalfEdge, twin: u32)
    requires { at < length half_edges.old }
    ensures vectors { vectors_of half_edges.new ≡ slice_set (vectors_of half_edges.old) at side.now.vector }
    ensures twins { twins_of half_edges.new ≡ slice_set (twins_of half_edges.old) at twin }
    ensures homes { arena_homes half_edges.new ≡ slice_set (arena_homes half_edges.old) at side.now.home }
    ensures nexts { nexts_of half_edges.new ≡ nexts_of half_edges.old }
{
    put(half_edges, at, side.vector, twin, side.home);
}

// Gives a half-edge this twin.
fn link(half_edges: &mut [HalfEdge], at: u32, twin: u32)
    requires { at < length half_edges.old }
    ensures vectors { vectors_of half_edges.new ≡ vectors_of half_edges.old }
    ensures twins { twins_of half_edges.new ≡ slice_set (twins_of half_edges.old) at twin }
    ensures homes { arena_homes half_edges.new ≡ arena_homes half_edges.old }
    ensures nexts { nexts_of half_edges.new ≡ nexts_of half_edges.old }
{
    half_edges[at as usize].twin = twin;
}

// Flips the edge of a hinge: it is this new one then.
pub fn write_flip(half_edges: &mut [HalfEdge], hinge: &Hinge, new: &NewEdge)
    requires { IsWithin (length half_edges.old) (twins_of half_edges.old) hinge.now }
    ensures vectors { vectors_of half_edges.new ≡ vectors_written (vectors_of half_edges.old) hinge.now new.now.vector }
    ensures twins { twins_of half_edges.new ≡ twins_written (twins_of half_edges.old) hinge.now }
    ensures homes { arena_homes half_edges.new ≡ homes_written (arena_homes half_edges.old) hinge.now new.now.home new.now.twin_home }
    ensures nexts { nexts_of half_edges.new ≡ nexts_of half_edges.old }
{
    let after = half_edges[hinge.after as usize];
    let before = half_edges[hinge.before as usize];
    let after_twin = half_edges[hinge.after_twin as usize];
    let before_twin = half_edges[hinge.before_twin as usize];
    let outer_after = hinge.moved(after.twin);
    let outer_before = hinge.moved(before.twin);
    let outer_after_twin = hinge.moved(after_twin.twin);
    let outer_before_twin = hinge.moved(before_twin.twin);
    put(half_edges, hinge.edge, new.vector, hinge.twin, new.home);
    put(
        half_edges,
        hinge.twin,
        new.vector.neg(),
        hinge.edge,
        new.twin_home,
    );
    move_side(half_edges, hinge.after, &before, outer_before);
    move_side(half_edges, hinge.before, &after_twin, outer_after_twin);
    move_side(
        half_edges,
        hinge.after_twin,
        &before_twin,
        outer_before_twin,
    );
    move_side(half_edges, hinge.before_twin, &after, outer_after);
    link(half_edges, outer_after, hinge.before_twin);
    link(half_edges, outer_before, hinge.after);
    link(half_edges, outer_after_twin, hinge.before);
    link(half_edges, outer_before_twin, hinge.after_twin);
}
