// The saddle list.

ghost use Rattle.std.specs.Prelude.{◌≡◌, ◌≢◌, ◌<◌, ◌≤◌, ◌^◌, ◌<ℤ◌, pos, Result, Ok, length, IfOk, IfErr};
ghost use Rattle.fs_plane.specs.declared.sites.Stop.{Stop};
ghost use Rattle.fs_plane.specs.Listing.{keep};
ghost use Rattle.fs_plane.specs.Vector.{vector_zero};
ghost use Rattle.fs_gluing.specs.Homes.{home_of, IsFirstCorner, FindsCorner};
ghost use Rattle.fs_saddles.specs.Saddles.{SaddleList, EndsSaddles, ReturnsSaddles, IsKeptAs, scaled_bound};
ghost use Rattle.fs_saddles.specs.WholeLists.{IsSaddleListOf};
ghost use Rattle.fs_saddles.specs.Keeping.{AreKeepable, AreKeptAs, BoundStops, KeepStops, HomeStops, RayStops, StopsKeeping};

use fs_delaunay::Delaunay;
use fs_fan::{Ray, find_fans};
use fs_gluing::{Sequence, Surface};
use fs_mesh::Mesh;
use fs_plane::{Corner, Listed, Place, Site, Stop};
use fs_quadratic::steps::product_at;
use fs_quadratic::{Elem, Field};
use std::alloc::Global;

/// The saddle list within a bound, ascending, and the number of live words of the search for it.
#[derive(Drop)]
pub struct Saddles {
    pub list: Sequence<Listed>,
    pub live: u32,
}

/// The saddle list of the surface of a Delaunay triangulation: each saddle connection, here a straight path from vertex to
/// vertex that meets none before, with a squared length of at most `limit`, once from each of its two ends. An entry holds
/// the scaled vector, and the corner of the surface at which the path begins, in whose sector the vector is. The entries
/// ascend, in the order of `Listed`. `limit` is unscaled. `live` is the number of live words that `find_fans` visits.
///
/// It is refused as `Overflow` at the first site, in this order: `Bound` where the scaled limit overflows; then where
/// `find_fans` is refused, with its site, or as `Undecided` where more words are live than the budget; then, ray after ray
/// in the order in which they are found, `Keep` where a part of the vector is over 2^57 in size, and `Home` where the search
/// for its corner overflows, as by `Mesh::home`. The cost is linear in the half-edges, in the live words and in the corners
/// that are tested, and sorting takes n·log n comparisons of n entries. The memory is linear in the rays and in the longest
/// live word.
pub fn find_saddles(
    alloc: Global,
    delaunay: &Delaunay<'_>,
    limit: Elem,
    budget: u32,
) -> Result<Saddles, Stop>
    requires { budget ≤ 1000000 }
    ensures saddles { ReturnsSaddles (EndsSaddles delaunay.now.mesh limit budget) result }
    // There is no other end: this is the one that the definition gives.
    ensures only { (end : Result SaddleList Stop) → EndsSaddles delaunay.now.mesh limit budget end → ReturnsSaddles (λ returned. returned ≡ end) result }
    // Its entries are exactly the saddle connections of the polygons within the bound.
    ensures list { IfOk result (λ saddles. IsSaddleListOf delaunay.now.mesh.surface limit saddles.list) }
{
    let mesh = delaunay.mesh();
    // A look at the half-edges makes the invariant of the mesh known here.
    let _ = mesh.half_edges();
    let bound = find_bound(mesh.surface(), limit)?;
    let fans = find_fans(alloc, mesh, bound, budget)?;
    let list = keep_rays(alloc, mesh, fans.found.as_slice())?;
    let mut list = list.into_vec();
    list.sort_unstable();
    Ok(Saddles {
        list: Sequence::from_vec(list),
        live: fans.live,
    })
}

// The bound of the squared scaled lengths.
fn find_bound(surface: &Surface, limit: Elem) -> Result<Elem, Stop>
    ensures bound { IfOk result (λ bound. scaled_bound surface.now.d surface.now.den limit ≡ Ok bound) }
    ensures stops { IfErr result (BoundStops surface.now.d surface.now.den limit) }
{
    match scale_limit(surface.field(), surface.den(), limit) {
        Ok(bound) => Ok(bound),
        Err(Place(place)) => Err(Stop::Overflow(Site::Bound { place })),
    }
}

// The limit times the square of the denominator.
#[tactic(auto, unfolding(crate::specs::Saddles::scaled_bound))]
fn scale_limit(field: Field, den: i128, limit: Elem) -> Result<Elem, Place>
    requires { pos 0 <ℤ den }
    ensures { result ≡ scaled_bound field.d den limit }
{
    let den = Elem::new(den, 0);
    let once = product_at(1, field, limit, den)?;
    product_at(2, field, once, den)
}

// The entries of all rays, in their order.
fn keep_rays(alloc: Global, mesh: &Mesh<'_>, rays: &[Ray]) -> Result<Sequence<Listed>, Stop>
    requires keepable { AreKeepable mesh.now rays.now }
    requires few { length rays.now < 2 ^ 32 }
    ensures kept { IfOk result (λ list. AreKeptAs mesh.now rays.now list) }
    ensures stops { IfErr result (StopsKeeping mesh.now rays.now) }
{
    let mut list = Sequence::new(alloc);
    for ray in rays {
        let n = list.len() as u32;
        list.push(keep_ray(mesh, ray, n)?)?;
    }
    Ok(list)
}

// The entry of a ray: its parts are tested first, then its corner is sought.
fn keep_ray(mesh: &Mesh<'_>, ray: &Ray, n: u32) -> Result<Listed, Stop>
    requires there { ray.now.half_edge < length mesh.now.triangles.vectors }
    requires direction { ray.now.v ≢ vector_zero }
    ensures kept { IfOk result (IsKeptAs mesh.now ray.now) }
    ensures stops { IfErr result (RayStops mesh.now ray.now n) }
{
    keep_from(mesh, ray, n, mesh.home_of(ray.half_edge))?;
    let start = find_start(mesh, ray, n)?;
    keep_from(mesh, ray, n, start)
}

// The entry of a ray from a corner.
fn keep_from(mesh: &Mesh<'_>, ray: &Ray, n: u32, start: Corner) -> Result<Listed, Stop>
    requires { ray.now.v ≢ vector_zero }
    ensures field { IfOk result (λ entry. entry.field.d ≡ mesh.now.surface.d) }
    ensures v { IfOk result (λ entry. entry.v ≡ ray.now.v) }
    ensures start { IfOk result (λ entry. entry.start ≡ start) }
    ensures keepable { IfOk result (λ entry. keep ray.now.v ≡ Ok ray.now.v) }
    ensures stops { IfErr result (KeepStops ray.now n) }
{
    match Listed::keep(mesh.surface().field(), ray.v, start) {
        Ok(entry) => Ok(entry),
        Err(Place(place)) => Err(Stop::Overflow(Site::Keep { vector: n, place })),
    }
}

// The corner at which a ray begins.
fn find_start(mesh: &Mesh<'_>, ray: &Ray, n: u32) -> Result<Corner, Stop>
    requires there { ray.now.half_edge < length mesh.now.triangles.vectors }
    requires direction { ray.now.v ≢ vector_zero }
    ensures first { IfOk result (λ start. IsFirstCorner mesh.now.surface (home_of mesh.now.homes ray.now.half_edge) ray.now.v start) }
    ensures found { IfOk result (λ start. FindsCorner mesh.now.surface (home_of mesh.now.homes ray.now.half_edge) ray.now.v 0 9 (Ok start)) }
    ensures stops { IfErr result (HomeStops mesh.now ray.now n) }
{
    match mesh.home(ray.half_edge, ray.v) {
        Ok(start) => Ok(start),
        Err(Place(place)) => Err(Stop::Overflow(Site::Home { ray: n, place })),
    }
}
