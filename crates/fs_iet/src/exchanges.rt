// The exchange of a flow.

ghost use Rattle.std.specs.Prelude.{◌≡◌, ◌≢◌, ◌↔◌, ◌<◌, ◌≤◌, ℕ, Result, Some, length, IfOk, IfSome};
ghost use Rattle.std.specs.List.{slice_get};
ghost use Rattle.fs_plane.specs.declared.corners.Corner.{Corner};
ghost use Rattle.fs_plane.specs.declared.sites.Site.{Site};
ghost use Rattle.fs_plane.specs.Vector.{PlaneVector, vector_zero};
ghost use Rattle.fs_quadratic.specs.Ring.{Quadratic};
ghost use Rattle.fs_gluing.specs.CrossingMap.{Crosses, IsMapOfPositions, block_start};
ghost use Rattle.fs_gluing.specs.Exchanges as exchanges;
ghost use Rattle.fs_gluing.specs.Exchanges.{Component, IsExchange, Takes};
ghost use Rattle.fs_gluing.specs.SurfaceSides.{partner};
ghost use Rattle.fs_iet.specs.ExchangeSites.{GivesExchange};
ghost use Rattle.fs_iet.specs.ExchangeValue.{ReturnsExchange};
ghost use Rattle.fs_iet.specs.Rows.{HaveReturns, HaveWidths};

use crate::images::find_image;
use crate::letters::{Letter, Tag, find_letters};
use crate::numbers::find_bottom;
use crate::rows::{Row, find_row};
use crate::sites::{check_returns, find_total};
use crate::widths::list_sides;
use fs_gluing::{Sequence, Surface};
use fs_plane::{Corner, Place, Stop, V2};
use fs_quadratic::{Elem, Field};
use std::alloc::{AllocError, Global};
use std::marker::Model;

/// The interval exchange of a flow over a surface: where a line along the direction leaves a polygon, and where it enters the
/// next. All lengths and vectors are scaled. It has 1 to 512 letters, which are numbered from 0 in the order of the top row,
/// from left to right; both rows have the same letters, each once. The lengths are positive, and sum to the total.
#[derive(Drop)]
pub struct Exchange {
    field: Field,
    total: Elem,
    letters: Sequence<Letter>,
    bottom: Sequence<u32>,
}

impl Model for Exchange {
    ghost use Rattle.fs_quadratic.specs.Ring.{zero};
    ghost use Rattle.fs_iet.specs.ExchangeValue.{ExchangeValue, IsExchangeValue};

    ghost Value = { ExchangeValue };

    ghost view = { λ x. record { d = x.field.d; component = record { base = zero; total = x.total; top = x.letters; bottom = x.bottom } } };

    ghost invariant = { λ x. IsExchangeValue (record { d = x.field.d; component = record { base = zero; total = x.total; top = x.letters; bottom = x.bottom } }) };
}

/// The exchange of the flow in direction `v` over a surface. Its letters are the pairs of glued sides that aren't parallel to
/// `v`: the flow leaves one polygon by the one side, and enters another by the other. The length of a letter is the absolute
/// value of the cross product of its side and `v`. The top row has the letters by the sides by which the flow leaves, polygon
/// by polygon, in each from left to right, the direction being upwards; the bottom row by those by which it enters.
///
/// It is refused as `Overflow` at the first site, in this order: `Letter` where the cross product of a side and `v` overflows
/// (places 1 to 3), or, for a side by which the flow enters, the sum of the lengths so far (place 4), side after side of all
/// polygons; then `Shift` where the return vector of a letter overflows, by the side by which the flow leaves, in the same
/// order. It is never undecided. The cost is linear in the sides. The exchange holds memory linear in its letters; while it is
/// found, a list of the sides and a number for each are held too.
pub fn find_exchange(alloc: Global, surface: &Surface, v: V2) -> Result<Exchange, Stop>
    requires direction { v ≢ vector_zero }
    ensures exchange { ReturnsExchange (GivesExchange surface.now v) result }
    // There is no other exchange, and no other site: this is the one that the definition gives.
    ensures only { (given : Result Component Site) → GivesExchange surface.now v given → ReturnsExchange (λ returned. returned ≡ given) result }
    ensures field { IfOk result (λ x. x.d ≡ surface.now.d) }
    // The rows are the crossing map: a position is crossed by the side of the letter that holds it in the top row, and comes out at its place in the bottom row.
    ensures crossing { IfOk result (λ x. (y z : Quadratic) (h : PlaneVector) (f : Corner) → Crosses surface.now v y z h f
        ↔ ((letter : exchanges.Letter) × Takes x.d x.component letter y z × (letter.back ≡ h) × (letter.corner ≡ partner surface.now.polygons f))) }
    ensures map { IsMapOfPositions surface.now v }
{
    // The contract of this call says what holds of the surface.
    let _ = surface.field();
    let sides = list_sides(alloc, surface)?;
    let total = match find_total(surface, v, sides.as_slice()) {
        Ok(total) => total,
        Err(site) => return Err(Stop::Overflow(site)),
    };
    if let Err(site) = check_returns(surface, v, sides.as_slice()) {
        return Err(Stop::Overflow(site));
    }
    Ok(build(alloc, surface, v, total)?)
}

// The exchange, where nothing overflows.
fn build(alloc: Global, surface: &Surface, v: V2, total: Elem) -> Result<Exchange, AllocError>
    requires direction { v ≢ vector_zero }
    requires widths { HaveWidths surface.now v }
    requires returns { HaveReturns surface.now v }
    requires total { total ≡ block_start surface.now v (length surface.now.polygons) }
    ensures field { IfOk result (λ x. x.d ≡ surface.now.d) }
    ensures exchange { IfOk result (λ x. IsExchange surface.now v x.component) }
{
    let field = surface.field();
    let outgoing = find_row(alloc, surface, v, Row::Top)?;
    let incoming = find_row(alloc, surface, v, Row::Bottom)?;
    let letters = find_letters(alloc, surface, v, outgoing.as_slice())?;
    let bottom = find_bottom(alloc, surface, outgoing.as_slice(), incoming.as_slice())?;
    Ok(Exchange {
        field,
        total,
        letters,
        bottom: Sequence::from_vec(bottom),
    })
}

impl Exchange {
    ghost use Rattle.fs_quadratic.specs.Ring.{zero, IsPositive, IsLess, quadratic};
    ghost use Rattle.fs_ring.specs.OrderedRing.{IsAtMost};
    ghost use Rattle.fs_gluing.specs.Surface.{GluedPolygons, IsTranslationSurface};
    ghost use Rattle.fs_iet.specs.Images.{image};
    ghost use Rattle.fs_iet.specs.ExchangeValue.{IsExchangeValue};

    /// The field of its numbers.
    pub fn field(&self) -> Field
        ensures { result.d ≡ self.now.d }
    {
        self.field
    }

    /// The sum of all lengths.
    pub fn total(&self) -> Elem
        ensures { result ≡ self.now.component.total }
    {
        self.total
    }

    /// How many letters it has: 1 to 512.
    pub fn letters(&self) -> u32
        ensures letters { result ≡ length self.now.component.top }
        ensures kept { IsExchangeValue self.now }
    {
        self.letters.len() as u32
    }

    /// The length of letter n.
    pub fn length(&self, n: u32) -> Elem
        requires { n < length self.now.component.top }
        ensures { IfSome (slice_get self.now.component.top n) (λ letter. result ≡ letter.length) }
    {
        self.at(n).length
    }

    /// The return vector of letter n: from corner 0 of the polygon that the flow leaves to corner 0 of the one that it enters,
    /// where this is put beyond the side.
    pub fn back(&self, n: u32) -> V2
        requires { n < length self.now.component.top }
        ensures { IfSome (slice_get self.now.component.top n) (λ letter. result ≡ letter.back) }
    {
        self.at(n).back
    }

    /// The corner at the left end of the side by which the flow enters by letter n: the side begins there.
    pub fn start_corner(&self, n: u32) -> Corner
        requires { n < length self.now.component.top }
        ensures { IfSome (slice_get self.now.component.top n) (λ letter. result ≡ letter.corner) }
    {
        self.at(n).corner
    }

    /// The start of letter n: the vector from that corner to corner 0 of its polygon, and whether the side before it is one by
    /// which the flow enters too. Then the direction is strictly inside the corner's sector.
    pub fn start_tag(&self, n: u32) -> Tag
        requires { n < length self.now.component.top }
        ensures { IfSome (slice_get self.now.component.top n) (λ letter. result ≡ letter.start) }
    {
        self.at(n).start
    }

    /// The end of letter n: the vector from corner 0 of the polygon that the flow leaves to the left end of the side by which
    /// it leaves, and whether the side after it is one by which the flow leaves too.
    pub fn end_tag(&self, n: u32) -> Tag
        requires { n < length self.now.component.top }
        ensures { IfSome (slice_get self.now.component.top n) (λ letter. result ≡ letter.end) }
    {
        self.at(n).end
    }

    /// The letter at place n of the bottom row.
    pub fn bottom(&self, n: u32) -> u32
        requires { n < length self.now.component.top }
        ensures { slice_get self.now.component.bottom n ≡ Some result }
    {
        self.bottom.as_slice()[n as usize]
    }

    /// Where the flow is after the next crossing, from position y, which is at least 0 and less than the total. Place 1 + n
    /// is the position in letters n and later of the top row less the length of letter n, for each letter before the one that
    /// holds y; place 513 + n is the sum with the length of the letter at place n of the bottom row, for each one before that
    /// letter there. The cost is linear in the letters. It takes no memory.
    pub fn image(&self, y: Elem) -> Result<Elem, Place>
        requires from_zero { IsAtMost (quadratic self.now.d) (IsPositive self.now.d) zero y }
        requires below_total { IsLess self.now.d y self.now.component.total }
        ensures formula { result ≡ image self.now.d self.now.component y }
        ensures crossing { (s : GluedPolygons) (v : PlaneVector) → IsTranslationSurface s → v ≢ vector_zero → s.d ≡ self.now.d → IsExchange s v self.now.component
            → IfOk result (λ z. (h : PlaneVector) × (f : Corner) × Crosses s v y z h f) }
    {
        find_image(
            self.field,
            self.letters.as_slice(),
            self.bottom.as_slice(),
            y,
        )
    }

    // Letter n.
    fn at(&self, n: u32) -> Letter
        requires { n < length self.now.component.top }
        ensures { slice_get self.now.component.top n ≡ Some result }
    {
        self.letters.as_slice()[n as usize]
    }
}
