// Matrices of reflections and of their products, and the formulas over them.

ghost use Rattle.std.specs.Prelude.{◌≡◌, ◌≢◌, ◌≤◌};
ghost use Rattle.fs_quadratic.specs.Ring.{zero};
ghost use Rattle.fs_unfold.specs.Matrices.{identity, squared_length, checked_mirror, checked_first, checked_second, checked_times, checked_image};

use fs_fraction::Frac;
use fs_fraction::steps::{
    fraction_difference_at, fraction_product_at, fraction_sum_at, reciprocal_at,
};
use fs_gluing::Point;
use fs_plane::Place;
use fs_quadratic::{Elem, Field};

/// A matrix with the rows (a,b) and (c,e).
#[derive(Clone, Copy, Debug, PartialEq, Eq, Hash)]
pub struct Matrix {
    pub a: Frac,
    pub b: Frac,
    pub c: Frac,
    pub e: Frac,
}

/// A reflection: the matrix with the rows (u,w) and (w,-u).
#[derive(Clone, Copy, Debug, PartialEq, Eq, Hash)]
pub struct Mirror {
    pub u: Frac,
    pub w: Frac,
}

impl Matrix {
    /// The identity.
    pub fn identity() -> Matrix
        ensures { result ≡ identity }
    {
        let one = Frac::new(Elem::new(1, 0), 1);
        let zero = Frac::new(Elem::ZERO, 1);
        Matrix {
            a: one,
            b: zero,
            c: zero,
            e: one,
        }
    }
}

/// The reflection that keeps a vector, which isn't 0, or the place of the first operation that overflows: places 1 to 3 are the
/// products of the coordinates, 4 the squared length, 5 its inverse, 6 and 7 give u, 8 and 9 give w. Constant time.
#[tactic(auto, unfolding(crate::specs::Matrices::checked_mirror))]
pub fn find_mirror(field: Field, p: &Point) -> Result<Mirror, Place>
    requires { (squared_length field.d p.now).num ≢ zero }
    ensures { result ≡ checked_mirror field.d p.now }
{
    let xx = fraction_product_at(1, field, p.x, p.x)?;
    let yy = fraction_product_at(2, field, p.y, p.y)?;
    let xy = fraction_product_at(3, field, p.x, p.y)?;
    let length = fraction_sum_at(4, field, xx, yy)?;
    let inverse = reciprocal_at(5, field, length)?;
    let less = fraction_difference_at(6, field, xx, yy)?;
    let u = fraction_product_at(7, field, less, inverse)?;
    let twice = fraction_sum_at(8, field, xy, xy)?;
    let w = fraction_product_at(9, field, twice, inverse)?;
    Ok(Mirror { u, w })
}

// The sum of the products xu and yw.
#[tactic(auto, unfolding(crate::specs::Matrices::checked_first))]
fn find_first(before: u32, field: Field, x: Frac, u: Frac, y: Frac, w: Frac) -> Result<Frac, Place>
    requires { before ≤ 9 }
    ensures { result ≡ checked_first field.d before x u y w }
{
    let one = fraction_product_at(before + 1, field, x, u)?;
    let two = fraction_product_at(before + 2, field, y, w)?;
    fraction_sum_at(before + 3, field, one, two)
}

// Their difference.
#[tactic(auto, unfolding(crate::specs::Matrices::checked_second))]
fn find_second(before: u32, field: Field, x: Frac, u: Frac, y: Frac, w: Frac) -> Result<Frac, Place>
    requires { before ≤ 9 }
    ensures { result ≡ checked_second field.d before x u y w }
{
    let one = fraction_product_at(before + 1, field, x, u)?;
    let two = fraction_product_at(before + 2, field, y, w)?;
    fraction_difference_at(before + 3, field, one, two)
}

/// A matrix times a reflection, or the place of the first operation that overflows: three places for each entry, row by row.
/// Constant time.
#[tactic(auto, unfolding(crate::specs::Matrices::checked_times))]
pub fn find_times(field: Field, m: &Matrix, r: &Mirror) -> Result<Matrix, Place>
    ensures { result ≡ checked_times field.d m.now r.now }
{
    let a = find_first(0, field, m.a, r.u, m.b, r.w)?;
    let b = find_second(3, field, m.a, r.w, m.b, r.u)?;
    let c = find_first(6, field, m.c, r.u, m.e, r.w)?;
    let e = find_second(9, field, m.c, r.w, m.e, r.u)?;
    Ok(Matrix { a, b, c, e })
}

/// A matrix times a vector, or the place of the first operation that overflows: three places for each coordinate. Constant time.
#[tactic(auto, unfolding(crate::specs::Matrices::checked_image))]
pub fn find_image(field: Field, m: &Matrix, p: &Point) -> Result<Point, Place>
    ensures { result ≡ checked_image field.d m.now p.now }
{
    let x = find_first(0, field, m.a, p.x, m.b, p.y)?;
    let y = find_first(3, field, m.c, p.x, m.e, p.y)?;
    Ok(Point { x, y })
}
