// The sum of the triangles of a surface.

ghost use Rattle.std.specs.Prelude.{◌≡◌, ◌≤◌, List, [], ◌∷◌, length, map, drop};
ghost use Rattle.std.specs.List.{AllByRecursion};
ghost use Rattle.fs_quadratic.specs.Ring.{zero};
ghost use Rattle.fs_gluing.specs.declared.surfaces.Side.{Side};
ghost use Rattle.fs_gluing.specs.Limits.{most_polygons, most_sides};
ghost use Rattle.fs_gluing.specs.Area.{all_triangles, triangles_from, sum_after};
ghost use Rattle.fs_gluing.specs.Positions.{all_positions};
ghost use Rattle.fs_gluing.specs.Surface.{side_vectors};

use crate::sequence::Sequence;
use fs_plane::{Corner, Place, Site, V2, cross};
use fs_quadratic::{Elem, Field};

// The sum of the triangles of the polygons whose corners have these positions, or the first site where
// it overflows.
pub fn sum_triangles(field: Field, positions: &[Sequence<V2>]) -> Result<Elem, Site>
    requires few { length positions.now ≤ most_polygons }
    requires short { AllByRecursion (λ row. length row ≤ most_sides) positions.now }
    ensures { (polygons : List (List Side)) → positions.now ≡ all_positions (map side_vectors polygons)
        → result ≡ sum_after field.d zero (all_triangles 0 (map side_vectors polygons)) }
{
    let mut sum = Elem::ZERO;
    for (i, row) in positions.iter().enumerate() {
        sum = add_triangles(field, sum, i as u16, row.as_slice())?;
    }
    Ok(sum)
}

// A sum and the triangles of polygon i, whose corners have these positions.
fn add_triangles(field: Field, sum: Elem, i: u16, positions: &[V2]) -> Result<Elem, Site>
    requires { length positions.now ≤ most_sides }
    ensures { result ≡ sum_after field.d sum (triangles_from i 1 (drop 1 positions.now)) }
{
    let mut total = sum;
    for j in 2..positions.len() {
        let corner = Corner::new(i, j as u16 - 1);
        total = add_triangle(field, total, corner, positions[j - 1], positions[j])?;
    }
    Ok(total)
}

// A sum and the triangle of corner 0, a corner, and the next one, by the positions of these two.
fn add_triangle(field: Field, sum: Elem, corner: Corner, one: V2, two: V2) -> Result<Elem, Site>
    ensures { result ≡ sum_after field.d sum (record { polygon = corner.polygon; corner = corner.side; one = one; two = two } ∷ []) }
{
    match cross(field, one, two) {
        Ok(part) => match sum.add(part) {
            Ok(next) => Ok(next),
            Err(_) => Err(Site::triangle(corner, 4)),
        },
        Err(Place(place)) => Err(Site::triangle(corner, place)),
    }
}
