// The run of flips: again and again the first edge that fails its test is flipped.

ghost use Rattle.std.specs.Prelude.{◌≡◌, ◌<◌, ◌≤◌, ◌+◌, ◌^◌, true, false, List, Ok, Err, Result, length, IfOk, OnOk, slice_set};
ghost use Rattle.fs_plane.specs.declared.sites.Stop.{Stop};
ghost use Rattle.fs_gluing.specs.Triangulation.{edge_twin};
ghost use Rattle.fs_mesh.specs.Meshes.{IsMesh};
ghost use Rattle.fs_delaunay.specs.Runs.{IsDelaunayRun};
ghost use Rattle.fs_delaunay.specs.CheckedRuns.{Flipped, EndsRun};
ghost use Rattle.fs_delaunay.specs.Results.{ReturnsRun};
ghost use Rattle.fs_delaunay.specs.Steps.{TestsEdge, FindsFailing, Steps};
ghost use Rattle.fs_delaunay.specs.Suspects.{MarksSuspects, edge_name, hinge_edges, with_marks};

use crate::delaunay::Delaunay;
use crate::suspects::Suspects;
use fs_gluing::Sequence;
use fs_mesh::Mesh;
use fs_plane::{Place, Site, Stop};
use std::alloc::Global;
use std::cmp::Ordering;

// Whether a half-edge names an edge that fails.
fn fails(mesh: &Mesh<'_>, h: u32, flips: u32) -> Result<bool, Stop>
    requires { h < length mesh.now.triangles.vectors }
    ensures { TestsEdge mesh.now.surface.d mesh.now.triangles flips h result }
{
    if h >= mesh.twin(h) {
        return Ok(false);
    }
    match mesh.circle_of(h) {
        Ok(value) => Ok(mesh.surface().field().sign(value) == Ordering::Greater),
        Err(Place(place)) => Err(Stop::Overflow(Site::Circle {
            flips,
            edge: h,
            place,
        })),
    }
}

// The first edge that fails. The suspects up to it are tested, and those that pass are no longer suspects.
fn find_failing(mesh: &Mesh<'_>, suspects: &mut Suspects, flips: u32) -> Result<Option<u32>, Stop>
    requires { MarksSuspects mesh.now.surface.d mesh.now.triangles suspects.old }
    ensures found { FindsFailing mesh.now.surface.d mesh.now.triangles flips result }
    ensures suspects { MarksSuspects mesh.now.surface.d mesh.now.triangles suspects.new }
{
    let mut from = 0;
    while let Some(h) = suspects.first(from) {
        if fails(mesh, h, flips)? {
            return Ok(Some(h));
        }
        suspects.remove(h);
        from = h + 1;
    }
    Ok(None)
}

// Marks the edge of a half-edge as a suspect.
fn suspect_edge(mesh: &Mesh<'_>, h: u32, suspects: &mut Suspects)
    requires there { h < length mesh.now.triangles.vectors }
    requires as_many { length suspects.old ≡ length mesh.now.triangles.vectors }
    ensures { suspects.new ≡ slice_set suspects.old (edge_name mesh.now.triangles h) true }
{
    let twin = mesh.twin(h);
    suspects.insert(if h < twin { h } else { twin });
}

// Marks an edge and the four sides of its hinge as suspects.
fn suspect_hinge(mesh: &Mesh<'_>, edge: u32, suspects: &mut Suspects)
    requires mesh { IsMesh mesh.now }
    requires there { edge < length mesh.now.triangles.vectors }
    requires as_many { length suspects.old ≡ length mesh.now.triangles.vectors }
    ensures { suspects.new ≡ with_marks suspects.old (hinge_edges mesh.now.triangles edge) }
{
    let twin = mesh.twin(edge);
    let after = mesh.next(edge);
    let after_twin = mesh.next(twin);
    suspects.insert(edge);
    suspect_edge(mesh, after, suspects);
    suspect_edge(mesh, mesh.next(after), suspects);
    suspect_edge(mesh, after_twin, suspects);
    suspect_edge(mesh, mesh.next(after_twin), suspects);
}

// One step of a run: flips the first edge that fails, and adds it to the list, or tells that each edge passes.
fn flip_next(
    mesh: &mut Mesh<'_>,
    suspects: &mut Suspects,
    edges: &mut Sequence<u32>,
    budget: u32,
) -> Result<bool, Stop>
    requires mesh { IsMesh mesh.old }
    requires suspects { MarksSuspects mesh.old.surface.d mesh.old.triangles suspects.old }
    requires within { length edges.old ≤ budget }
    ensures surface { mesh.new.surface ≡ mesh.old.surface }
    ensures step { Steps mesh.old edges.old budget mesh.new edges.new result }
    ensures mesh { OnOk result (IsMesh mesh.new) }
    ensures suspects { OnOk result (MarksSuspects mesh.new.surface.d mesh.new.triangles suspects.new) }
{
    let flips = edges.len() as u32;
    let Some(edge) = find_failing(mesh, suspects, flips)? else {
        return Ok(false);
    };
    if flips == budget {
        return Err(Stop::Undecided(budget));
    }
    if let Err(Place(place)) = mesh.flip(edge) {
        return Err(Stop::Overflow(Site::Flip { flips, edge, place }));
    }
    suspect_hinge(mesh, edge, suspects);
    edges.push(edge)?;
    Ok(true)
}

/// Flips illegal edges until there is none, each time the first one, and gives the mesh that this leads to, with the
/// edges that were flipped, in order. An edge has the number of its lesser half-edge, and its circle value is computed
/// as by `circle_of`.
///
/// It is refused as `Undecided` where so many flips as the budget leave an illegal edge, and as `Overflow` at the
/// first site: `Circle` where an edge's circle value overflows and each edge before it is legal, also after the last
/// flip, and `Flip` where the vector of a flip does, or the search for a home of the new edge. The cost is linear in the faces and in the flips.
pub fn find_delaunay<'a>(alloc: Global, mesh: Mesh<'a>, budget: u32) -> Result<Delaunay<'a>, Stop>
    requires { budget ≤ 1000000 }
    ensures run { ReturnsRun (EndsRun mesh.entry budget) result }
    // There is no other end: this is the one that the definition gives.
    ensures only { (end : Result Flipped Stop) → EndsRun mesh.entry budget end → ReturnsRun (λ returned. returned ≡ end) result }
    ensures surface { IfOk result (λ delaunay. delaunay.mesh.surface ≡ mesh.entry.surface) }
    ensures delaunay { IfOk result (λ delaunay. IsDelaunayRun mesh.entry.surface.d mesh.entry.triangles delaunay.edges delaunay.mesh.triangles) }
{
    let mut mesh = mesh;
    let mut suspects = Suspects::all(alloc, mesh.half_edges())?;
    let mut edges = Sequence::new(alloc);
    let mut more = true;
    while more {
        more = flip_next(&mut mesh, &mut suspects, &mut edges, budget)?;
    }
    Ok(Delaunay::new(mesh, edges))
}
