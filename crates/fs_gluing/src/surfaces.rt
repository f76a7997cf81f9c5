// Translation surfaces.

ghost use Rattle.std.specs.Prelude.{◌≡◌, Some, length, sum_by, ◌+◌, ◌<◌, ◌↔◌, IsTrue, IfOk, IfSome};
ghost use Rattle.std.specs.List.{slice_get};

use crate::areas::sum_triangles;
use crate::sequence::Sequence;
use fs_plane::{Corner, Site, V2};
use fs_quadratic::{Elem, Field};
use std::marker::Model;

/// A side of a polygon: its scaled vector and the side that it is glued to.
#[derive(Clone, Copy, Debug, PartialEq, Eq, Hash)]
pub struct Side {
    pub vector: V2,
    pub partner: Corner,
}

/// A translation surface: polygons whose sides are glued in pairs by translations. Each polygon
/// has three sides or more, closes, is strictly convex at each corner, or also straight, where
/// straight corners are allowed, and has turning number 1.
/// Each side is glued to exactly one other, which has the opposite vector. The surface is
/// connected: from polygon 0 glued sides lead to every polygon.
///
/// All vectors and positions are scaled: multiplied by one positive denominator.
#[derive(Drop)]
pub struct Surface {
    field: Field,
    straight: bool,
    den: i128,
    polygons: Sequence<Sequence<Side>>,
    positions: Sequence<Sequence<V2>>,
    // Twice its area, which each `stratum` of a job asks for.
    area: Result<Elem, Site>,
}

impl Model for Surface {
    ghost use Rattle.std.specs.Prelude.{◌≡◌, map};
    ghost use Rattle.fs_quadratic.specs.Ring.{zero};
    ghost use Rattle.fs_gluing.specs.Area.{all_triangles, sum_after};
    ghost use Rattle.fs_gluing.specs.Positions.{all_positions};
    ghost use Rattle.fs_gluing.specs.Surface.{GluedPolygons, IsSurface, side_vectors};

    ghost Value = { GluedPolygons };

    ghost view = { λ s. record { d = s.field.d; straight = s.straight; den = s.den; polygons = s.polygons } };

    ghost invariant = { λ s. IsSurface (record { d = s.field.d; straight = s.straight; den = s.den; polygons = s.polygons })
        × (s.positions ≡ all_positions (map side_vectors s.polygons))
        × (s.area ≡ sum_after s.field.d zero (all_triangles 0 (map side_vectors s.polygons))) };
}

impl Surface {
    ghost use Rattle.std.specs.Prelude.{map};
    ghost use Rattle.fs_quadratic.specs.Ring.{zero};
    ghost use Rattle.fs_plane.specs.Vector.{vector_zero, vector_add};
    ghost use Rattle.fs_gluing.specs.Area.{triangles, twice_area, sum_after};
    ghost use Rattle.fs_gluing.specs.Convex.{corner_position};
    ghost use Rattle.fs_gluing.specs.Positions.{all_positions};
    ghost use Rattle.fs_gluing.specs.Polygons.{at_side, HasSide};
    ghost use Rattle.fs_gluing.specs.Surface.{IsSurface, side_vectors};
    ghost use Rattle.fs_gluing.specs.NextCorner.{IsNextCorner, AreOnePoint, side_before, corner_after};

    // The surface of these glued polygons, the corners of which have these positions.
    pub(crate) fn new(
        field: Field,
        straight: bool,
        den: i128,
        polygons: Sequence<Sequence<Side>>,
        positions: Sequence<Sequence<V2>>,
    ) -> Surface
        requires surface { IsSurface (record { d = field.d; straight = straight; den = den; polygons = polygons }) }
        requires positions { positions ≡ all_positions (map side_vectors polygons) }
        ensures { result ≡ record { d = field.d; straight = straight; den = den; polygons = polygons } }
    {
        let area = sum_triangles(field, positions.as_slice());
        Surface {
            field,
            straight,
            den,
            polygons,
            positions,
            area,
        }
    }

    /// The field of its numbers.
    pub fn field(&self) -> Field
        ensures field { result.d ≡ self.now.d }
        ensures surface { IsSurface self.now }
    {
        self.field
    }

    /// Whether straight corners are allowed.
    pub fn straight(&self) -> bool
        ensures { result ≡ self.now.straight }
    {
        self.straight
    }

    /// The positive number by which all unscaled vectors were multiplied.
    pub fn den(&self) -> i128
        ensures den { result ≡ self.now.den }
        ensures surface { IsSurface self.now }
    {
        self.den
    }

    /// How many polygons there are: 1 to 256.
    pub fn polygons(&self) -> u16
        ensures polygons { result ≡ length self.now.polygons }
        ensures surface { IsSurface self.now }
    {
        self.polygons.len() as u16
    }

    /// How many sides polygon i has.
    pub fn sides(&self, i: u16) -> u16
        requires { i < length self.now.polygons }
        ensures { IfSome (slice_get self.now.polygons i) (λ polygon. result ≡ length polygon) }
    {
        self.polygons.as_slice()[i as usize].len() as u16
    }

    /// Whether that corner exists, and so the side that starts there.
    pub fn has(&self, c: Corner) -> bool
        ensures { IsTrue result ↔ HasSide self.now.polygons c }
    {
        match self.polygons.as_slice().get(c.polygon as usize) {
            Some(polygon) => (c.side as usize) < polygon.len(),
            None => false,
        }
    }

    /// The scaled vector of a side.
    pub fn side(&self, c: Corner) -> V2
        requires { HasSide self.now.polygons c }
        ensures { IfSome (at_side self.now.polygons c) (λ side. result ≡ side.vector) }
    {
        self.at(c).vector
    }

    /// The side that a side is glued to.
    pub fn partner(&self, c: Corner) -> Corner
        requires { HasSide self.now.polygons c }
        ensures { IfSome (at_side self.now.polygons c) (λ side. result ≡ side.partner) }
    {
        self.at(c).partner
    }

    /// The scaled position of a corner, where corner 0 of its polygon is at (0,0).
    pub fn place(&self, c: Corner) -> V2
        requires { HasSide self.now.polygons c }
        ensures position { IfSome (slice_get self.now.polygons c.polygon) (λ polygon. result ≡ corner_position (side_vectors polygon) c.side) }
        // Corner 0 is at (0,0), and a side leads from its corner to the next, the last one back to corner 0.
        ensures first { c.side ≡ 0 → result ≡ vector_zero }
        ensures next { IfSome (slice_get self.now.polygons c.polygon) (λ polygon. IfSome (slice_get polygon c.side) (λ side.
            (c.side + 1 < length polygon → vector_add result side.vector ≡ corner_position (side_vectors polygon) (c.side + 1))
            × (c.side + 1 ≡ length polygon → vector_add result side.vector ≡ vector_zero))) }
    {
        let positions = self.positions.as_slice()[c.polygon as usize].as_slice();
        positions[c.side as usize]
    }

    /// Twice the area of the surface, times the square of the denominator. Takes no time: it was
    /// found when the surface was built.
    ///
    /// It is the sum over the triangles into which the diagonals from corner 0 cut each polygon, in
    /// order. The site is that of the first triangle, by its polygon and its second corner, whose
    /// cross product (places 1 to 3) or whose sum with the triangles before (place 4) overflows.
    pub fn twice_area(&self) -> Result<Elem, Site>
        ensures formula { result ≡ sum_after self.now.d zero (triangles self.now) }
        ensures area { IfOk result (λ x. x ≡ twice_area self.now) }
    {
        self.area
    }

    /// The next corner counterclockwise round the vertex of a corner: the start of the side that
    /// the side before the corner is glued to.
    #[tactic(auto, using(crate::proofs::SurfaceCalls::NextCorner::has_before))]
    pub fn turn(&self, c: Corner) -> Corner
        requires { HasSide self.now.polygons c }
        ensures turn { IsNextCorner self.now.polygons c result }
        // This is a permutation of the corners.
        ensures there { HasSide self.now.polygons result }
        ensures one_to_one { (e : Corner) → HasSide self.now.polygons e → IsNextCorner self.now.polygons e result → e ≡ c }
        ensures onto { (e : Corner) → HasSide self.now.polygons e → (b : Corner) × HasSide self.now.polygons b × IsNextCorner self.now.polygons b e }
        // Both corners are of one vertex.
        ensures vertex { AreOnePoint self.now.polygons c result }
    {
        // A look at a field makes the invariant of the type known here.
        let _ = &self.polygons;
        self.partner(self.side_before(c))
    }

    /// The side that ends at a corner: the one before it in its polygon, counterclockwise.
    pub fn side_before(&self, c: Corner) -> Corner
        requires { HasSide self.now.polygons c }
        ensures { result ≡ side_before self.now.polygons c }
    {
        let side = match c.side {
            0 => self.sides(c.polygon) - 1,
            side => side - 1,
        };
        Corner::new(c.polygon, side)
    }

    /// The corner at which a side ends: the next one of its polygon, counterclockwise.
    pub fn corner_after(&self, c: Corner) -> Corner
        requires { HasSide self.now.polygons c }
        ensures { result ≡ corner_after self.now.polygons c }
    {
        let last = self.sides(c.polygon) - 1;
        let side = if c.side == last { 0 } else { c.side + 1 };
        Corner::new(c.polygon, side)
    }

    // The side that starts at a corner.
    fn at(&self, c: Corner) -> Side
        requires { HasSide self.now.polygons c }
        ensures { at_side self.now.polygons c ≡ Some result }
    {
        self.polygons.as_slice()[c.polygon as usize].as_slice()[c.side as usize]
    }
}
