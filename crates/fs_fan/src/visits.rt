// What is computed at a half-edge, and at a live word.

ghost use Rattle.std.specs.Prelude.{◌≡◌, ◌+◌, ◌<◌, ◌^◌, length, IfOk, MatchResult};
ghost use Rattle.fs_gluing.specs.Triangulation.{prev_in_face};
ghost use Rattle.fs_fan.specs.Visits.{opening, tip_within, side_within, visit};
ghost use Rattle.fs_fan.specs.Entries.{view_at, known_within, is_known_near, TellsEnds};

use fs_mesh::Mesh;
use fs_plane::steps::{comes_within_after, cross_after, norm_after, vector_sum_after};
use fs_plane::{Place, V2};
use fs_quadratic::{Elem, Field};
use std::cmp::Ordering;

// A half-edge by which a word begins: whether it is a ray within the bound, and whether the word that crosses the
// half-edge after it alone is live.
#[derive(Clone, Copy)]
pub struct Opening {
    pub found: bool,
    pub live: bool,
}

// The last crossing of a live word, with the bounds of its sector. Of each end it tells whether its squared length is at
// most the bound of the search, where that doesn't overflow.
#[derive(Clone, Copy)]
pub struct Entry {
    pub side: u32,
    pub right_within: Option<bool>,
    pub left_within: Option<bool>,
    pub right_end: V2,
    pub left_end: V2,
    pub right_bound: V2,
    pub left_bound: V2,
}

// A live word's tip, whether it is to the left of the right bound and to the right of the left bound, whether it is a ray
// within the bound, and which of the words with one letter more are live.
#[derive(Clone, Copy)]
pub struct Visit {
    pub tip: V2,
    pub past_right: bool,
    pub past_left: bool,
    pub found: bool,
    pub right: bool,
    pub left: bool,
}

// A visit, and whether the tip's squared length is at most the bound, where that doesn't overflow.
#[derive(Clone, Copy)]
pub struct Sight {
    pub visit: Visit,
    pub within: Option<bool>,
}

// The half-edge before one in its face.
pub fn half_edge_before(mesh: &Mesh<'_>, h: u32) -> u32
    requires { h < length mesh.now.triangles.vectors }
    ensures before { result ≡ prev_in_face h }
    ensures there { result < length mesh.now.triangles.vectors }
{
    // A look at the half-edges makes the invariant of the mesh known here.
    let _ = mesh.half_edges();
    mesh.next(mesh.next(h))
}

// The opening of a half-edge.
#[tactic(auto, unfolding(crate::specs::Visits::opening))]
pub fn find_opening(mesh: &Mesh<'_>, bound: Elem, h: u32) -> Result<Opening, Place>
    requires { h < length mesh.now.triangles.vectors }
    ensures { result ≡ opening mesh.now.surface.d mesh.now.triangles bound h }
{
    let field = mesh.surface().field();
    let v = mesh.vector(h);
    let before = mesh.vector(half_edge_before(mesh, h));
    let length = norm_after(0, field, v)?;
    let live = comes_within_after(3, field, v, before.neg(), bound)?;
    Ok(Opening {
        found: field.cmp(length, bound).is_le(),
        live,
    })
}

// Whether the squared length of v is at most the bound, where it doesn't overflow.
pub fn is_within(field: Field, bound: Elem, v: V2) -> Option<bool>
    ensures { result ≡ known_within field.d bound v }
{
    match norm_after(0, field, v) {
        Ok(length) => Some(field.cmp(length, bound).is_le()),
        Err(_) => None,
    }
}

// The visit of a live word, by its last crossing.
#[tactic(auto, unfolding(crate::specs::Visits::visit))]
pub fn find_visit(mesh: &Mesh<'_>, bound: Elem, entry: &Entry) -> Result<Sight, Place>
    requires there { entry.now.side < length mesh.now.triangles.vectors }
    requires ends { TellsEnds mesh.now.surface.d bound entry.now }
    ensures visit { MatchResult result (λ sight. visit mesh.now.surface.d mesh.now.triangles bound (view_at entry.now) ≡ Ok sight.visit) (λ stop. visit mesh.now.surface.d mesh.now.triangles bound (view_at entry.now) ≡ Err stop) }
    ensures within { IfOk result (λ sight. sight.within ≡ known_within mesh.now.surface.d bound sight.visit.tip) }
{
    let field = mesh.surface().field();
    let beyond = mesh.vector(mesh.next(mesh.twin(entry.side)));
    let tip = vector_sum_after(0, entry.right_end, beyond)?;
    let right_turn = cross_after(2, field, entry.right_bound, tip)?;
    let left_turn = cross_after(5, field, tip, entry.left_bound)?;
    let past_right = field.sign(right_turn) == Ordering::Greater;
    let past_left = field.sign(left_turn) == Ordering::Greater;
    let within = is_within(field, bound, tip);
    let found = is_tip_within(field, bound, tip, within, past_right && past_left)?;
    let right = is_right_live(field, bound, entry, tip, within, past_right)?;
    let left = is_left_live(field, bound, entry, tip, within, past_left)?;
    let visit = Visit {
        tip,
        past_right,
        past_left,
        found,
        right,
        left,
    };
    Ok(Sight { visit, within })
}

// Whether a tip is within the bound, where it is in the sector.
#[tactic(auto, unfolding(crate::specs::Visits::tip_within))]
fn is_tip_within(
    field: Field,
    bound: Elem,
    tip: V2,
    within: Option<bool>,
    in_sector: bool,
) -> Result<bool, Place>
    requires { within ≡ known_within field.d bound tip }
    ensures { result ≡ tip_within field.d bound tip in_sector }
{
    if !in_sector {
        return Ok(false);
    }
    match within {
        Some(is_within) => Ok(is_within),
        None => {
            let length = norm_after(8, field, tip)?;
            Ok(field.cmp(length, bound).is_le())
        }
    }
}

// Whether the word with the letter right more is live: the sector reaches the side from the right end to the tip, and the
// side comes within the bound.
fn is_right_live(
    field: Field,
    bound: Elem,
    entry: &Entry,
    tip: V2,
    within: Option<bool>,
    reached: bool,
) -> Result<bool, Place>
    requires ends { TellsEnds field.d bound entry.now }
    requires within { within ≡ known_within field.d bound tip }
    ensures { result ≡ side_within 11 field.d bound entry.now.right_end tip reached }
{
    let is_near = is_near(entry.right_within, within);
    is_side_within(11, field, bound, entry.right_end, tip, reached, is_near)
}

// Whether the word with the letter left more is live: likewise with the side from the tip to the left end.
fn is_left_live(
    field: Field,
    bound: Elem,
    entry: &Entry,
    tip: V2,
    within: Option<bool>,
    reached: bool,
) -> Result<bool, Place>
    requires ends { TellsEnds field.d bound entry.now }
    requires within { within ≡ known_within field.d bound tip }
    ensures { result ≡ side_within 33 field.d bound tip entry.now.left_end reached }
{
    let is_near = is_near(within, entry.left_within);
    is_side_within(33, field, bound, tip, entry.left_end, reached, is_near)
}

// Whether a side with these ends is known to come within the bound: its first end does, or the second where the first is
// known not to.
fn is_near(start: Option<bool>, end: Option<bool>) -> bool
    ensures { result ≡ is_known_near start end }
{
    match (start, end) {
        (Some(true), _) => true,
        (Some(false), Some(true)) => true,
        _ => false,
    }
}

// Whether a half-edge beyond comes within the bound, where the sector reaches it.
#[tactic(auto, unfolding(crate::specs::Visits::side_within))]
fn is_side_within(
    before: u32,
    field: Field,
    bound: Elem,
    p: V2,
    q: V2,
    reached: bool,
    is_near: bool,
) -> Result<bool, Place>
    requires room { before + 22 < 2 ^ 32 }
    requires near { is_near ≡ is_known_near (known_within field.d bound p) (known_within field.d bound q) }
    ensures { result ≡ side_within before field.d bound p q reached }
{
    if !reached {
        return Ok(false);
    }
    if is_near {
        return Ok(true);
    }
    comes_within_after(before, field, p, q, bound)
}
