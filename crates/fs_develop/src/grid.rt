// Vectors that a job gives, on the grid of a surface.

ghost use Rattle.std.specs.Prelude.{◌≡◌, ◌+◌, ◌<◌, ◌^◌, ◌↔◌, IsTrue};
ghost use Rattle.std.specs.Int.{◌∣◌};
ghost use Rattle.fs_gluing.specs.Scaling.{IsMultipleOf};
ghost use Rattle.fs_develop.specs.Grid.{multiple_after, scale_to, GivesScaled};

use fs_fraction::Frac;
use fs_gluing::{Point, Surface};
use fs_plane::{Place, Site, V2};
use fs_quadratic::Elem;
use fs_quadratic::width::{checked_product, signed};

/// A vector of a job times the denominator of a surface: `None` where one of its two denominators doesn't
/// divide that, so that the vector is off the grid.
///
/// The error is the first site `grid` that overflows: places 1 and 2 are the parts of x, 3 and 4
/// those of y, each times the denominator over its own. Constant time.
pub fn scale_to_grid(surface: &Surface, v: Point) -> Result<Option<V2>, Site>
    ensures { GivesScaled surface.now v result }
{
    let den = surface.den().unsigned_abs();
    if !is_on_grid(den, &v) {
        return Ok(None);
    }
    match scale_to(den, v) {
        Ok(scaled) => Ok(Some(scaled)),
        Err(Place(place)) => Err(Site::Grid { place }),
    }
}

// Whether both denominators of a vector divide a number.
fn is_on_grid(den: u128, v: &Point) -> bool
    ensures { IsTrue result ↔ IsMultipleOf den v.now }
{
    divides(v.x, den) && divides(v.y, den)
}

// Whether the denominator of a fraction divides a number.
fn divides(x: Frac, n: u128) -> bool
    ensures { IsTrue result ↔ (x.den ∣ n) }
{
    n % x.denominator() == 0
}

// A vector times a multiple of both its denominators.
#[tactic(auto, unfolding(crate::specs::Grid::scale_to))]
fn scale_to(den: u128, v: Point) -> Result<V2, Place>
    requires { den < 2 ^ 127 }
    ensures { result ≡ scale_to den v }
{
    let x = multiple_after(0, den / v.x.denominator(), v.x)?;
    let y = multiple_after(2, den / v.y.denominator(), v.y)?;
    Ok(V2 { x, y })
}

// The numerator of a fraction times a number, part by part.
#[tactic(auto, unfolding(crate::specs::Grid::multiple_after))]
fn multiple_after(before: u32, factor: u128, x: Frac) -> Result<Elem, Place>
    requires factor { factor < 2 ^ 127 }
    requires before { before + 2 < 2 ^ 32 }
    ensures { result ≡ multiple_after before factor x.num }
{
    let factor = signed(factor);
    let Some(p) = checked_product(factor, x.num().p()) else {
        return Err(Place(before + 1));
    };
    let Some(q) = checked_product(factor, x.num().q()) else {
        return Err(Place(before + 2));
    };
    Ok(Elem::new(p, q))
}
