// The vertices of a surface with their cone numbers, and the genus.

ghost use Rattle.std.specs.Prelude.{◌≡◌, ◌+◌, ◌<◌, ◌^◌, ℕ, List, IfOk, OnOk, length, sum_by, false};
ghost use Rattle.fs_plane.specs.declared.corners.Corner.{Corner};
ghost use Rattle.fs_gluing.specs.Polygons.{HasSide};
ghost use Rattle.fs_gluing.specs.Surface.{GluedPolygons, IsSurface, IsTranslationSurface};
ghost use Rattle.fs_gluing.specs.Vertices.{AreOneVertex, IsConeNumber};
ghost use Rattle.fs_stratum.specs.VertexList.{AreVertices, HasGenus};
ghost use Rattle.fs_stratum.specs.VerticesFound.{AreFoundBefore};
ghost use Rattle.fs_stratum.specs.CornerMarks.{is_marked, Covers, MarksVertex};
ghost use Rattle.fs_stratum.specs.declared.cones.Cone.{Cone};

use crate::corner_marks::CornerMarks;
use fs_fraction::NoMemory;
use fs_gluing::{Sequence, Surface};
use fs_plane::Corner;
use std::alloc::{AllocError, Global};

/// A vertex by its least corner, and its cone number k: the cone angle is 2πk.
#[derive(Clone, Copy, Debug, PartialEq, Eq, Hash)]
pub struct Cone {
    pub first: Corner,
    pub k: u32,
}

/// The vertices of a surface, in the order of their least corners.
///
/// Every k is at least 1, and the sum of k - 1 is 2g - 2 for the genus g.
pub fn classes(alloc: Global, surface: &Surface) -> Result<Sequence<Cone>, NoMemory>
    ensures cones { IfOk result (λ cones. AreVertices surface.now cones) }
    ensures genus { IfOk result (λ cones. (g : ℕ) × HasGenus surface.now cones g) }
    ensures surface { OnOk result (IsSurface surface.now) }
{
    let mut marks = CornerMarks::new(alloc, surface)?;
    let mut cones = Sequence::new(alloc);
    for i in 0..surface.polygons() {
        add_cones(surface, i, &mut marks, &mut cones)?;
    }
    Ok(cones)
}

// Adds the vertices that have their least corner in polygon i.
fn add_cones(
    surface: &Surface,
    i: u16,
    marks: &mut CornerMarks,
    cones: &mut Sequence<Cone>,
) -> Result<(), AllocError>
    requires surface { IsSurface surface.now }
    requires there { i < length surface.now.polygons }
    requires before { AreFoundBefore surface.now (record { polygon = i; side = 0 }) marks.old cones.old }
    ensures { OnOk result (AreFoundBefore surface.now (record { polygon = i + 1; side = 0 }) marks.new cones.new) }
{
    for j in 0..surface.sides(i) {
        let first = Corner::new(i, j);
        if !marks.has(first) {
            let k = mark_vertex(surface, first, marks);
            cones.push(Cone { first, k })?;
        }
    }
    Ok(())
}

// Marks the corners of a vertex, and counts those whose sector holds (1,0): where the side that
// begins there isn't raised and the one that begins at the next corner is.
fn mark_vertex(surface: &Surface, first: Corner, marks: &mut CornerMarks) -> u32
    requires there { HasSide surface.now.polygons first }
    requires covers { Covers surface.now.polygons marks.old }
    requires fresh { (e : Corner) → AreOneVertex surface.now.polygons first e → is_marked marks.old e ≡ false }
    ensures number { IsConeNumber surface.now first result }
    ensures marks { MarksVertex surface.now.polygons first marks.old marks.new }
{
    let field = surface.field();
    let mut k = 0;
    let mut corner = first;
    let mut raised = surface.side(first).is_raised(field);
    while !marks.has(corner) {
        marks.mark(corner);
        let next = surface.turn(corner);
        let next_raised = surface.side(next).is_raised(field);
        if !raised && next_raised {
            k += 1;
        }
        corner = next;
        raised = next_raised;
    }
    k
}

/// The genus of a surface with these vertices: 1 plus half the sum of k - 1. The surface may be larger than
/// a `Surface`, but has fewer than 2^32 sides, which bounds that sum.
pub fn genus(cones: &[Cone]) -> u32
    requires { (s : GluedPolygons) × IsTranslationSurface s × (sum_by length s.polygons < 2 ^ 32) × AreVertices s cones.now }
    ensures { (s : GluedPolygons) → IsTranslationSurface s → AreVertices s cones.now → HasGenus s cones.now result }
{
    let mut twice = 2;
    for cone in cones {
        twice += cone.k - 1;
    }
    twice / 2
}
