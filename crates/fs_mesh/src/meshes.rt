// The mesh of a surface: an arena of half-edges.

ghost use Rattle.std.specs.Prelude.{◌≡◌, ◌≢◌, ◌*◌, ◌<◌, Ok, Err, length, IfOk, OnOk, OnErr, MatchResult, ◌↔◌};
ghost use Rattle.fs_quadratic.specs.Ring.{IsPositive};
ghost use Rattle.fs_plane.specs.Vector.{vector_zero, IsInsideFaceCircle};
ghost use Rattle.fs_gluing.specs.Homes.{HasHomes, home_of, IsInCorner, IsFirstCorner, FindsCorner};
ghost use Rattle.fs_gluing.specs.Polygons.{HasSide};
ghost use Rattle.fs_gluing.specs.Triangulation.{IsTriangulation, IsEdge, triangulation_of, edge_vector, edge_twin, next_in_face};
ghost use Rattle.fs_mesh.specs.Arena.{arena_triangles, arena_homes, HasNexts, hinge_of, IsWithin};
ghost use Rattle.fs_mesh.specs.Meshes.{IsMesh, IsCutWithHomes, IsCarriedFrom, IsIllegal, edge_circle, edge_circle_after, hinge_after, hinge_before, hinge_after_twin};
ghost use Rattle.fs_mesh.specs.FlippedMeshes.{IsMeshFlipped, ArePastedAndCut, NewEdge, FindsNewEdge, AreFirstHomes};

use crate::arena::{HalfEdge, Hinge, push_face, write_flip};
use crate::homes::{NewEdge, find_corner, with_homes};
use fs_fraction::NoMemory;
use fs_gluing::{Surface, Triangles};
use fs_plane::steps::vector_sum_after;
use fs_plane::{Corner, Place, V2, circle};
use fs_quadratic::Elem;
use std::alloc::{AllocError, Global};
use std::marker::Model;

/// The triangles into which a surface is cut, in one arena of half-edges: half-edge k of face f has the
/// number 3·f + k. Each face is a counterclockwise triangle, the half-edges are twins in pairs with opposite
/// vectors, and all faces are connected. A list of cuts, of cuts undone, and of renumberings leads from the
/// polygons of the surface to the faces. Each half-edge has a home, a corner of the surface, in whose sector its
/// vector is, and the list carries it from there.
#[derive(Drop)]
pub struct Mesh<'a> {
    surface: &'a Surface,
    half_edges: Vec<HalfEdge>,
}

impl<'a> Model for Mesh<'a> {
    ghost use Rattle.fs_mesh.specs.Arena.{arena_mesh, HasNexts};
    ghost use Rattle.fs_mesh.specs.Meshes.{MeshValue, IsMesh};

    ghost Value = { MeshValue };

    ghost view = { λ m. arena_mesh m.surface.now m.half_edges.items };

    ghost invariant = { λ m. IsMesh (arena_mesh m.surface.now m.half_edges.items) × HasNexts m.half_edges.items };
}

impl<'a> Mesh<'a> {
    /// The mesh of a surface with these triangles, into which it is cut, and with their homes. It is refused only
    /// where memory runs out. Its cost is linear in the number of triangles.
    pub fn new(
        alloc: Global,
        surface: &'a Surface,
        triangles: Triangles,
    ) -> Result<Mesh<'a>, NoMemory>
        requires triangulation { IsTriangulation surface.now.d (triangulation_of triangles) }
        requires cut { IsCutWithHomes surface.now (triangulation_of triangles) triangles.homes }
        requires homes { HasHomes surface.now (triangulation_of triangles) triangles.homes }
        ensures surface { IfOk result (λ mesh. mesh.surface ≡ surface.now) }
        ensures triangles { IfOk result (λ mesh. mesh.triangles ≡ triangulation_of triangles) }
        ensures homes { IfOk result (λ mesh. mesh.homes ≡ triangles.homes) }
    {
        // A look at a field makes the invariant of the surface known here.
        let _ = surface.field();
        let half_edges = fill(alloc, &triangles)?;
        Ok(Mesh {
            surface,
            half_edges,
        })
    }

    /// The surface that it borrows.
    pub fn surface(&self) -> &'a Surface
        ensures { result.now ≡ self.now.surface }
    {
        self.surface
    }

    /// How many faces there are: 1 to 1,022.
    pub fn faces(&self) -> u32
        ensures faces { 3 * result ≡ length self.now.triangles.vectors }
        ensures mesh { IsMesh self.now }
    {
        self.half_edges() / 3
    }

    /// How many half-edges there are: three for each face.
    pub fn half_edges(&self) -> u32
        ensures half_edges { result ≡ length self.now.triangles.vectors }
        ensures mesh { IsMesh self.now }
    {
        self.half_edges.len() as u32
    }

    /// The scaled vector of a half-edge.
    pub fn vector(&self, h: u32) -> V2
        requires { h < length self.now.triangles.vectors }
        ensures { result ≡ edge_vector self.now.triangles h }
    {
        self.half_edges[h as usize].vector
    }

    /// The twin of a half-edge: the other half-edge of its edge, which leads the other way.
    pub fn twin(&self, h: u32) -> u32
        requires { h < length self.now.triangles.vectors }
        ensures twin { result ≡ edge_twin self.now.triangles h }
        ensures there { result < length self.now.triangles.vectors }
    {
        self.half_edges[h as usize].twin
    }

    /// The next half-edge of a half-edge's face, counterclockwise.
    pub fn next(&self, h: u32) -> u32
        requires { h < length self.now.triangles.vectors }
        ensures next { result ≡ next_in_face h }
        ensures there { result < length self.now.triangles.vectors }
    {
        self.half_edges[h as usize].next
    }

    /// The home of a half-edge: the corner of the surface at which it begins, in whose sector its vector is.
    pub fn home_of(&self, h: u32) -> Corner
        requires { h < length self.now.triangles.vectors }
        ensures home { result ≡ home_of self.now.homes h }
        ensures there { HasSide self.now.surface.polygons result }
        ensures sector { IsInCorner self.now.surface result (edge_vector self.now.triangles h) }
    {
        self.half_edges[h as usize].home
    }

    /// The corner of the surface from which v, which isn't (0,0), leads where it leads from the start of a
    /// half-edge: the first one whose sector holds v, from the home of the half-edge on, counterclockwise round
    /// its vertex. v is scaled.
    ///
    /// The corners are tested in turn, as by `in_sector`. The error is place 9t + q, where place q of the test of
    /// the corner after t others is the first that overflows. Its cost is linear in the number of corners that are
    /// tested. Takes no memory.
    pub fn home(&self, h: u32, v: V2) -> Result<Corner, Place>
        requires half_edge { h < length self.now.triangles.vectors }
        requires direction { v ≢ vector_zero }
        ensures formula { FindsCorner self.now.surface (home_of self.now.homes h) v 0 9 result }
        ensures first { IfOk result (λ corner. IsFirstCorner self.now.surface (home_of self.now.homes h) v corner) }
        ensures there { IfOk result (λ corner. HasSide self.now.surface.polygons corner) }
        // Each list of cuts that carries all half-edges from their homes carries v, from this corner, to the start of the half-edge.
        ensures carried { IfOk result (λ corner. IsCarriedFrom self.now corner v h) }
    {
        find_corner(self.surface, self.home_of(h), v, 0, 9)
    }

    /// The circle value of an edge, or the first place of its formula that overflows. The formula is that of
    /// `circle`, at the sides of the hinge, the two triangles at the edge: those after and before the half-edge
    /// that names the edge, then those after and before its twin. The edge is illegal (not Delaunay) where the
    /// value is above 0: then the fourth vertex is strictly inside the circle through the vertices of the face of
    /// `edge`. Takes constant time and no memory.
    pub fn circle_of(&self, edge: u32) -> Result<Elem, Place>
        requires { IsEdge self.now.triangles edge }
        ensures formula { result ≡ edge_circle_after self.now.surface.d self.now.triangles edge }
        ensures value { IfOk result (λ value. value ≡ edge_circle self.now.surface.d self.now.triangles edge) }
        // It is the value of the edge: that of the twin is the same.
        ensures edge { IfOk result (λ value. value ≡ edge_circle self.now.surface.d self.now.triangles (edge_twin self.now.triangles edge)) }
        ensures inside { IfOk result (λ value. IsPositive self.now.surface.d value ↔ IsInsideFaceCircle self.now.surface.d
            (hinge_after self.now.triangles edge) (hinge_before self.now.triangles edge) (hinge_after_twin self.now.triangles edge)) }
    {
        let hinge = self.hinge(edge);
        circle(
            self.surface.field(),
            self.vector(hinge.after),
            self.vector(hinge.before),
            self.vector(hinge.after_twin),
            self.vector(hinge.before_twin),
        )
    }

    /// Flips an illegal edge: it becomes the other diagonal of its hinge, the two triangles at the edge. The
    /// half-edge that names it then leads from the end of the half-edge after it to the end of the one after its
    /// twin, and keeps its number, as its twin does. The four sides of the hinge move on by one number, round the
    /// hinge.
    ///
    /// Both half-edges of the new edge get their homes: from the home of the half-edge before it on, round the
    /// vertex where it begins, the first corner whose sector holds its vector. The other homes move on with their
    /// half-edges.
    ///
    /// The error is place 1 or 2 where the x or the y of the new edge's vector overflows. Else both searches for
    /// homes are made, each as far as the first test that overflows, if one does, and the error is the least of
    /// their places: place q of the test of the corner after t others is 2 + 18t + q for the half-edge that names
    /// the edge, and 11 + 18t + q for its twin. The mesh is then as it was. Its cost is linear in the number of
    /// corners that are tested. Takes no memory.
    pub fn flip(&mut self, edge: u32) -> Result<(), Place>
        requires edge { IsEdge self.old.triangles edge }
        requires illegal { IsIllegal self.old.surface.d self.old.triangles edge }
        ensures surface { self.new.surface ≡ self.old.surface }
        ensures flipped { OnOk result (IsMeshFlipped self.old edge self.new) }
        // One cut undone and one cut lead to the new faces.
        ensures steps { OnOk result (ArePastedAndCut self.old.surface.d self.old.triangles edge self.new.triangles) }
        // The homes of the new edge are, by their meaning, the first corners that hold its vectors.
        ensures homes { OnOk result ((new : NewEdge) × FindsNewEdge self.old edge (Ok new) × AreFirstHomes self.old edge new) }
        ensures refused { MatchResult result (λ _. (new : NewEdge) × FindsNewEdge self.old edge (Ok new)) (λ place. FindsNewEdge self.old edge (Err place)) }
        ensures unchanged { OnErr result (self.new ≡ self.old) }
    {
        let hinge = self.hinge(edge);
        let new = self.new_edge(edge, &hinge)?;
        write_flip(&mut self.half_edges, &hinge, &new);
        Ok(())
    }

    // The vector and the homes that an illegal edge with this hinge has after its flip, or the place that
    // overflows.
    fn new_edge(&self, edge: u32, hinge: &Hinge) -> Result<NewEdge, Place>
        requires edge { edge < length self.now.triangles.vectors }
        requires illegal { IsIllegal self.now.surface.d self.now.triangles edge }
        requires hinge { hinge.now ≡ hinge_of self.now.triangles edge }
        ensures { FindsNewEdge self.now edge result }
    {
        // A look at a field makes the invariant of the mesh known here.
        let _ = &self.half_edges;
        let vector = vector_sum_after(0, self.vector(hinge.before_twin), self.vector(hinge.after))?;
        let home = find_corner(self.surface, self.home_of(hinge.before_twin), vector, 2, 18);
        let twin_home = find_corner(
            self.surface,
            self.home_of(hinge.before),
            vector.neg(),
            11,
            18,
        );
        with_homes(vector, home, twin_home)
    }

    // The half-edges of the hinge of an edge.
    fn hinge(&self, edge: u32) -> Hinge
        requires { edge < length self.now.triangles.vectors }
        ensures hinge { result ≡ hinge_of self.now.triangles edge }
        ensures within { IsWithin (length self.now.triangles.vectors) self.now.triangles.twins result }
    {
        // A look at a field makes the invariant of the mesh known here.
        let _ = &self.half_edges;
        let after = self.next(edge);
        let twin = self.twin(edge);
        let after_twin = self.next(twin);
        Hinge {
            edge,
            after,
            before: self.next(after),
            twin,
            after_twin,
            before_twin: self.next(after_twin),
        }
    }
}

// The arena of these triangles.
fn fill(alloc: Global, triangles: &Triangles) -> Result<Vec<HalfEdge>, AllocError>
    requires homes { length triangles.now.homes ≡ length (triangulation_of triangles.now).twins }
    requires as_many { length (triangulation_of triangles.now).twins ≡ length (triangulation_of triangles.now).vectors }
    requires few { length (triangulation_of triangles.now).twins < 10000 }
    ensures triangles { IfOk result (λ half_edges. arena_triangles half_edges.items ≡ triangulation_of triangles.now) }
    ensures homes { IfOk result (λ half_edges. arena_homes half_edges.items ≡ triangles.now.homes) }
    ensures nexts { IfOk result (λ half_edges. HasNexts half_edges.items) }
{
    let twins = triangles.twins.as_slice();
    let homes = triangles.homes.as_slice();
    let mut half_edges = Vec::with_capacity(alloc, twins.len())?;
    for face in triangles.faces.as_slice() {
        push_face(&mut half_edges, face, twins, homes)?;
    }
    Ok(half_edges)
}
