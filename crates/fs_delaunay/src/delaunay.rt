// Delaunay triangulations, and the run of flips that leads to one.

ghost use Rattle.std.specs.Prelude.{◌≡◌, false, IfOk};
ghost use Rattle.fs_gluing.specs.Triangulation.{triangulation_of};
ghost use Rattle.fs_delaunay.specs.Runs.{IsFirstMesh};
ghost use Rattle.fs_delaunay.specs.CheckedRuns.{AllPass};
ghost use Rattle.fs_delaunay.specs.Cells.{AreCells};
ghost use Rattle.fs_delaunay.specs.Results.{IsDelaunayValue};

use crate::classes::find_cells;
use fs_fraction::NoMemory;
use fs_gluing::{Sequence, Surface};
use fs_mesh::Mesh;
use fs_triangulate::fan_cut;
use std::alloc::Global;
use std::marker::Model;

/// A Delaunay triangulation of a surface: a mesh, and the edges whose flips led to it. The circle value of each
/// edge of the mesh is computed without overflow and isn't above 0.
#[derive(Drop)]
pub struct Delaunay<'a> {
    mesh: Mesh<'a>,
    edges: Sequence<u32>,
}

impl<'a> Model for Delaunay<'a> {
    ghost use Rattle.fs_delaunay.specs.Results.{DelaunayValue, IsDelaunayValue};

    ghost Value = { DelaunayValue };

    ghost view = { λ v. record { mesh = v.mesh; edges = v.edges } };

    ghost invariant = { λ v. IsDelaunayValue (record { mesh = v.mesh; edges = v.edges }) };
}

impl<'a> Delaunay<'a> {
    // The result of a run.
    pub(crate) fn new(mesh: Mesh<'a>, edges: Sequence<u32>) -> Delaunay<'a>
        requires { AllPass mesh.surface.d mesh.triangles }
        ensures mesh { result.mesh ≡ mesh.entry }
        ensures edges { result.edges ≡ edges }
    {
        Delaunay { mesh, edges }
    }

    /// The mesh, in which each edge is legal.
    pub fn mesh(&self) -> &Mesh<'a>
        ensures mesh { result.now ≡ self.now.mesh }
        ensures legal { IsDelaunayValue self.now }
    {
        &self.mesh
    }

    /// The edges that were flipped, in order, each by the number of its lesser half-edge at its flip.
    pub fn edges(&self) -> &Sequence<u32>
        ensures { result.now ≡ self.now.edges }
    {
        &self.edges
    }
}

/// The mesh of the first cut of a surface, of which no corner is straight: each polygon is cut along its diagonals
/// from corner 0, as by `fan_cut`. It is refused only where memory runs out. Its cost is linear in the sides.
pub fn start<'a>(alloc: Global, surface: &'a Surface) -> Result<Mesh<'a>, NoMemory>
    requires strict { surface.now.straight ≡ false }
    ensures surface { IfOk result (λ mesh. mesh.surface ≡ surface.now) }
    ensures first_cut { IfOk result (IsFirstMesh surface.now) }
{
    let triangles = fan_cut(alloc, surface)?;
    Mesh::new(alloc, surface, triangles)
}

/// The cells of a Delaunay triangulation: the classes of faces that are joined by edges of circle value 0, each
/// ascending, in the order of their first faces. It is refused only where memory runs out. Its cost is linear in the
/// faces.
pub fn cells(alloc: Global, delaunay: &Delaunay<'_>) -> Result<Sequence<Sequence<u32>>, NoMemory>
    ensures cells { IfOk result (λ cells. AreCells delaunay.now.mesh.surface.d delaunay.now.mesh.triangles cells) }
{
    find_cells(alloc, delaunay.mesh())
}
