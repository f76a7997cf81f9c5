// The search through all live words.

ghost use Rattle.std.specs.Prelude.{◌≡◌, ◌↔◌, ◌+◌, ◌<◌, ◌≤◌, cond, false, ℕ, Result, [], ◌∷◌, ◌++◌, length, IfOk, OnOk, IfErr};
ghost use Rattle.fs_words.specs.Sectors.{first_view};
ghost use Rattle.fs_quadratic.specs.Ring.{quadratic};
ghost use Rattle.fs_gluing.specs.Triangulation.{face_sides};
ghost use Rattle.fs_lists.specs.Members.{IsIn, IsDistinct};
ghost use Rattle.fs_plane.specs.declared.sites.Stop.{Stop};
ghost use Rattle.fs_plane.specs.Vector.{PlaneVector};
ghost use Rattle.fs_mesh.specs.Meshes.{IsMesh};
ghost use Rattle.fs_fan.specs.Visits.{is_left_of};
ghost use Rattle.fs_fan.specs.Search.{Findings, EndsSearch, ReturnsSearch, IsShortSegment};
ghost use Rattle.fs_fan.specs.Entries.{entry_of, right_entry, left_entry, optional};
ghost use Rattle.fs_fan.specs.Searching.{Searches, StopsSearch};

use crate::visits::{Entry, Sight, Visit, find_opening, find_visit, half_edge_before, is_within};
use fs_gluing::Sequence;
use fs_mesh::Mesh;
use fs_plane::{Place, Site, Stop, V2};
use fs_quadratic::Elem;
use std::alloc::{AllocError, Global};

/// A ray that was found: it leads from the start of a half-edge, along it or into the half-edge's triangle, to a
/// corner, and meets none before.
#[derive(Clone, Copy, Debug, PartialEq, Eq, Hash)]
pub struct Ray {
    /// The half-edge.
    pub half_edge: u32,
    /// The scaled vector.
    pub v: V2,
}

/// The rays within a bound, in the order in which they are found, and the number of live words.
#[derive(Drop)]
pub struct Fans {
    pub found: Sequence<Ray>,
    pub live: u32,
}

/// The rays of a mesh within a bound: from the start of each half-edge those that lead along it or into its triangle, to a
/// corner, with a squared length of at most `bound`, and meet no corner before. They come in the order of their half-edges: of
/// each first the half-edge itself, and then the tips of its live words, a word before those that go on from it, and those
/// that go on with right before those with left. A word of crossed half-edges is live where one straight path crosses them all,
/// and each comes within the bound; `live` is the number of live words.
///
/// It is refused as `Undecided` where as many words as the budget are visited and another is live, and as `Overflow` at the
/// first site: `First` where what is computed at a half-edge overflows, also with the budget spent, and `Fan` where it does at
/// a live word, by the number of live words before it. The cost is linear in the half-edges and in the live words. The memory
/// is linear in the rays and in the longest live word.
pub fn find_fans(alloc: Global, mesh: &Mesh<'_>, bound: Elem, budget: u32) -> Result<Fans, Stop>
    requires { budget ≤ 1000000 }
    ensures search { ReturnsSearch (EndsSearch mesh.now.surface.d mesh.now.triangles bound budget) result }
    // There is no other end: this is the one that the definition gives.
    ensures only { (end : Result Findings Stop) → EndsSearch mesh.now.surface.d mesh.now.triangles bound budget end → ReturnsSearch (λ returned. returned ≡ end) result }
    ensures segments { IfOk result (λ fans. (h : ℕ) (v : PlaneVector) → IsIn (record { half_edge = h; v = v }) fans.found ↔ IsShortSegment mesh.now.surface.d mesh.now.triangles bound h v) }
    // Each is found once.
    ensures once { IfOk result (λ fans. IsDistinct fans.found) }
{
    let mut fans = Fans {
        found: Sequence::new(alloc),
        live: 0,
    };
    let mut stack = Vec::new(alloc);
    for h in 0..mesh.half_edges() {
        find_fan(mesh, bound, budget, h, &mut stack, &mut fans)?;
    }
    Ok(fans)
}

// Opens a half-edge, and visits its live words.
fn find_fan(
    mesh: &Mesh<'_>,
    bound: Elem,
    budget: u32,
    h: u32,
    stack: &mut Vec<Entry>,
    fans: &mut Fans,
) -> Result<(), Stop>
    requires mesh { IsMesh mesh.now }
    requires there { h < length mesh.now.triangles.vectors }
    requires state { Searches mesh.now.surface.d mesh.now.triangles bound h stack.old.items fans.old.found fans.old.live }
    requires empty { stack.old.items ≡ [] }
    requires within { fans.old.live ≤ budget }
    requires small { budget ≤ 1000000 }
    ensures state { OnOk result (Searches mesh.now.surface.d mesh.now.triangles bound (h + 1) stack.new.items fans.new.found fans.new.live) }
    ensures empty { OnOk result (stack.new.items ≡ []) }
    ensures within { OnOk result (fans.new.live ≤ budget) }
    ensures stops { IfErr result (StopsSearch mesh.now.surface.d mesh.now.triangles bound budget) }
{
    open_fan(mesh, bound, h, stack, fans)?;
    match stack.pop() {
        Some(first) => visit_words(mesh, bound, budget, h, first, stack, fans),
        None => Ok(()),
    }
}

// Visits a live word, those that wait on the stack, and all live words that go on from them.
fn visit_words(
    mesh: &Mesh<'_>,
    bound: Elem,
    budget: u32,
    h: u32,
    first: Entry,
    stack: &mut Vec<Entry>,
    fans: &mut Fans,
) -> Result<(), Stop>
    requires mesh { IsMesh mesh.now }
    requires state { Searches mesh.now.surface.d mesh.now.triangles bound (h + 1) (stack.old.items ++ first ∷ []) fans.old.found fans.old.live }
    requires within { fans.old.live ≤ budget }
    requires small { budget ≤ 1000000 }
    ensures state { OnOk result (Searches mesh.now.surface.d mesh.now.triangles bound (h + 1) stack.new.items fans.new.found fans.new.live) }
    ensures empty { OnOk result (stack.new.items ≡ []) }
    ensures within { OnOk result (fans.new.live ≤ budget) }
    ensures stops { IfErr result (StopsSearch mesh.now.surface.d mesh.now.triangles bound budget) }
{
    let mut entry = first;
    let mut goes_on = true;
    while goes_on {
        if fans.live == budget {
            return Err(Stop::Undecided(budget));
        }
        goes_on = visit_word(mesh, bound, h, &mut entry, stack, fans)?;
    }
    Ok(())
}

// Opens the fan of a half-edge: it may be a ray, and its first word may be live.
fn open_fan(
    mesh: &Mesh<'_>,
    bound: Elem,
    h: u32,
    stack: &mut Vec<Entry>,
    fans: &mut Fans,
) -> Result<(), Stop>
    requires mesh { IsMesh mesh.now }
    requires there { h < length mesh.now.triangles.vectors }
    requires state { Searches mesh.now.surface.d mesh.now.triangles bound h stack.old.items fans.old.found fans.old.live }
    requires empty { stack.old.items ≡ [] }
    ensures state { OnOk result (Searches mesh.now.surface.d mesh.now.triangles bound (h + 1) stack.new.items fans.new.found fans.new.live) }
    ensures live { OnOk result (fans.new.live ≡ fans.old.live) }
    ensures stops { IfErr result (λ stop. (budget : ℕ) → fans.old.live ≤ budget → StopsSearch mesh.now.surface.d mesh.now.triangles bound budget stop) }
{
    match find_opening(mesh, bound, h) {
        Err(Place(place)) => Err(Stop::Overflow(Site::First {
            half_edge: h,
            place,
        })),
        Ok(opening) => {
            add_ray(&mut fans.found, h, mesh.vector(h), opening.found)?;
            push_first(mesh, bound, h, opening.live, stack)?;
            Ok(())
        }
    }
}

// Visits a live word: its tip may be a ray, and it goes on with the words with one letter more that are live. The next
// word takes its place, where one waits.
fn visit_word(
    mesh: &Mesh<'_>,
    bound: Elem,
    h: u32,
    entry: &mut Entry,
    stack: &mut Vec<Entry>,
    fans: &mut Fans,
) -> Result<bool, Stop>
    requires mesh { IsMesh mesh.now }
    requires state { Searches mesh.now.surface.d mesh.now.triangles bound (h + 1) (stack.old.items ++ entry.old ∷ []) fans.old.found fans.old.live }
    requires few { fans.old.live < 1000000 }
    ensures state { IfOk result (λ goes_on. Searches mesh.now.surface.d mesh.now.triangles bound (h + 1) (stack.new.items ++ optional goes_on entry.new) fans.new.found fans.new.live) }
    ensures empty { IfOk result (λ goes_on. goes_on ≡ false → stack.new.items ≡ []) }
    ensures live { OnOk result (fans.new.live ≡ fans.old.live + 1) }
    ensures stops { IfErr result (λ stop. (budget : ℕ) → fans.old.live < budget → StopsSearch mesh.now.surface.d mesh.now.triangles bound budget stop) }
{
    match find_visit(mesh, bound, entry) {
        Err(Place(place)) => Err(Stop::Overflow(Site::Fan {
            word: fans.live,
            place,
        })),
        Ok(sight) => {
            add_tip(&mut fans.found, h, &sight.visit)?;
            fans.live += 1;
            Ok(go_on(mesh, entry, &sight, stack)?)
        }
    }
}

// Adds the ray to the tip of a word, where it is found.
fn add_tip(found: &mut Sequence<Ray>, half_edge: u32, visit: &Visit) -> Result<(), AllocError>
    ensures { OnOk result (found.new ≡ found.old ++ optional visit.now.found (record { half_edge = half_edge; v = visit.now.tip })) }
{
    add_ray(found, half_edge, visit.tip, visit.found)
}

// Adds a ray to the list, where it is found.
fn add_ray(
    found: &mut Sequence<Ray>,
    half_edge: u32,
    v: V2,
    is_found: bool,
) -> Result<(), AllocError>
    ensures { OnOk result (found.new ≡ found.old ++ optional is_found (record { half_edge = half_edge; v = v })) }
{
    if !is_found {
        return Ok(());
    }
    found.push(Ray { half_edge, v })
}

// Pushes the first word of a half-edge, where it is live.
fn push_first(
    mesh: &Mesh<'_>,
    bound: Elem,
    h: u32,
    is_live: bool,
    stack: &mut Vec<Entry>,
) -> Result<(), AllocError>
    requires { h < length mesh.now.triangles.vectors }
    ensures { OnOk result (stack.new.items ≡ stack.old.items ++ optional is_live (entry_of mesh.now.surface.d bound (first_view (quadratic mesh.now.surface.d) (is_left_of mesh.now.surface.d) (face_sides mesh.now.triangles) h))) }
{
    if !is_live {
        return Ok(());
    }
    let field = mesh.surface().field();
    let right = mesh.vector(h);
    let left = mesh.vector(half_edge_before(mesh, h)).neg();
    stack.push(Entry {
        side: mesh.next(h),
        right_within: is_within(field, bound, right),
        left_within: is_within(field, bound, left),
        right_end: right,
        left_end: left,
        right_bound: right,
        left_bound: left,
    })?;
    Ok(())
}

// Goes on from a word that was visited: with those of its words with one letter more that are live, that with right
// first, while that with left waits; or with the last word that waits. The next word takes the entry's place, where there
// is one.
fn go_on(
    mesh: &Mesh<'_>,
    entry: &mut Entry,
    sight: &Sight,
    stack: &mut Vec<Entry>,
) -> Result<bool, AllocError>
    requires { entry.old.side < length mesh.now.triangles.vectors }
    ensures next { IfOk result (λ goes_on. stack.new.items ++ optional goes_on entry.new ≡ stack.old.items ++ optional sight.now.visit.left (left_entry mesh.now.triangles entry.old sight.now) ++ optional sight.now.visit.right (right_entry mesh.now.triangles entry.old sight.now)) }
    ensures empty { IfOk result (λ goes_on. goes_on ≡ false → stack.new.items ≡ []) }
{
    if sight.visit.right {
        if sight.visit.left {
            let mut waiting = *entry;
            go_left(mesh, &mut waiting, sight);
            stack.push(waiting)?;
        }
        go_right(mesh, entry, sight);
        return Ok(true);
    }
    if sight.visit.left {
        go_left(mesh, entry, sight);
        return Ok(true);
    }
    Ok(take_last(entry, stack))
}

// Takes the last word that waits, where one does.
fn take_last(entry: &mut Entry, stack: &mut Vec<Entry>) -> bool
    ensures last { stack.old.items ≡ stack.new.items ++ optional result entry.new }
    ensures empty { result ≡ false → stack.new.items ≡ [] }
{
    match stack.pop() {
        Some(last) => {
            *entry = last;
            true
        }
        None => false,
    }
}

// Goes on to the word with the letter right more.
fn go_right(mesh: &Mesh<'_>, entry: &mut Entry, sight: &Sight)
    requires { entry.old.side < length mesh.now.triangles.vectors }
    ensures { entry.new ≡ right_entry mesh.now.triangles entry.old sight.now }
{
    entry.side = mesh.next(mesh.twin(entry.side));
    entry.left_within = sight.within;
    entry.left_end = sight.visit.tip;
    entry.left_bound = choose(sight.visit.past_left, sight.visit.tip, entry.left_bound);
}

// Goes on to the word with the letter left more.
fn go_left(mesh: &Mesh<'_>, entry: &mut Entry, sight: &Sight)
    requires { entry.old.side < length mesh.now.triangles.vectors }
    ensures { entry.new ≡ left_entry mesh.now.triangles entry.old sight.now }
{
    entry.side = half_edge_before(mesh, mesh.twin(entry.side));
    entry.right_within = sight.within;
    entry.right_end = sight.visit.tip;
    entry.right_bound = choose(sight.visit.past_right, sight.visit.tip, entry.right_bound);
}

// The tip where it narrows the sector, else the bound.
fn choose(narrows: bool, tip: V2, bound: V2) -> V2
    ensures { result ≡ cond narrows tip bound }
{
    if narrows { tip } else { bound }
}
