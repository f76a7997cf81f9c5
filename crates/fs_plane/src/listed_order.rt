// The order of listed vectors.

ghost use Rattle.std.specs.Prelude.{◌≡◌, refl};
ghost use Rattle.std.specs.Ordering.{as_partial_cmp};
ghost use Rattle.fs_plane.specs.Vector.{IsSmallVector};
ghost use Rattle.fs_plane.specs.Listing.{direction_cmp, vector_cmp};
ghost use Rattle.fs_plane.specs.ListedOrder.{listed_cmp};
ghost use Rattle.fs_plane.specs.ListedLaws.{listed_partial_order, listed_total, same_listed};

use crate::formulas::{cross_small, dot_small};
use crate::listing::Listed;
use crate::vector::V2;
use fs_quadratic::Field;
use std::cmp::Ordering;

impl PartialOrd for Listed {
    ghost partial_cmp = { as_partial_cmp listed_cmp };

    ghost laws = { listed_partial_order };

    fn partial_cmp(&self, other: &Listed) -> Option<Ordering> {
        Some(self.cmp(other))
    }
}

impl Ord for Listed {
    ghost cmp = { listed_cmp };

    ghost total = { listed_total };

    ghost matches_partial_cmp = { λ x y. refl };

    ghost matches_eq = { same_listed };

    fn cmp(&self, other: &Listed) -> Ordering {
        match self.field.d().cmp(&other.field.d()) {
            Ordering::Equal => match compare_vectors(self.field, self.v, other.v) {
                Ordering::Equal => self.start.cmp(&other.start),
                unequal => unequal,
            },
            unequal => unequal,
        }
    }
}

// By direction, then by length.
fn compare_vectors(field: Field, v: V2, w: V2) -> Ordering
    requires left { IsSmallVector v }
    requires right { IsSmallVector w }
    ensures { result ≡ vector_cmp field.d v w }
{
    match compare_directions(field, v, w) {
        Ordering::Equal => field.cmp(dot_small(field, v, v), dot_small(field, w, w)),
        unequal => unequal,
    }
}

// By direction, counterclockwise from (1,0).
fn compare_directions(field: Field, v: V2, w: V2) -> Ordering
    requires left { IsSmallVector v }
    requires right { IsSmallVector w }
    ensures { result ≡ direction_cmp field.d v w }
{
    match w.is_upper(field).cmp(&v.is_upper(field)) {
        Ordering::Equal => field.sign(cross_small(field, w, v)),
        unequal => unequal,
    }
}
