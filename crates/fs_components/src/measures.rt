// The unscaled squares of cylinders, and the areas of parts.

ghost use Rattle.std.specs.Prelude.{◌≡◌, ◌≢◌, ◌<◌, ◌≤◌, ◌<ℤ◌, pos, unsigned_abs, length};
ghost use Rattle.fs_plane.specs.Vector.{vector_zero};
ghost use Rattle.fs_quadratic.specs.Ring.{zero};
ghost use Rattle.fs_iet.specs.ExchangeValue.{most_letters};
ghost use Rattle.fs_components.specs.Measures.{whole, one_over, checked_unscaled, checked_inverse, checked_cylinder, checked_looped, checked_areas};

use fs_fraction::Frac;
use fs_fraction::steps::{fraction_product_at, reciprocal_at};
use fs_plane::steps::{dot_after, norm_after};
use fs_plane::{Place, V2};
use fs_quadratic::steps::{product_at, sum_at};
use fs_quadratic::{Elem, Field};
use fs_rauzy::Letter;
use std::marker::Model;

// The squares of a part and its area, unscaled.
#[derive(Clone, Copy)]
pub struct PartMeasures {
    pub holonomy_square: Frac,
    pub height_square: Frac,
    pub area: Frac,
}

impl Model for PartMeasures {
    ghost use Rattle.fs_components.specs.Measures as measures;

    ghost Value = { measures.PartMeasures };

    ghost view = { λ m. record { holonomy_square = m.holonomy_square; height_square = m.height_square; area = m.area } };

    ghost inverse = { λ m. record { holonomy_square = m.holonomy_square; height_square = m.height_square; area = m.area } };
}

// Those of a cylinder with this width and this return vector.
#[tactic(auto, unfolding(crate::specs::Measures::checked_cylinder))]
pub fn measure_cylinder(
    field: Field,
    den: i128,
    v: V2,
    width: Elem,
    back: V2,
) -> Result<PartMeasures, Place>
    requires den { pos 0 <ℤ den }
    requires direction { v ≢ vector_zero }
    ensures { result ≡ checked_cylinder field.d (unsigned_abs den) v width back }
{
    let norm = norm_after(0, field, back)?;
    let holonomy = unscale(field, den, 4, whole(norm))?;
    let square = product_at(6, field, width, width)?;
    let inverse = find_inverse(field, v)?;
    let part = fraction_product_at(11, field, whole(square), inverse)?;
    let height = unscale(field, den, 12, part)?;
    let along = dot_after(13, field, v, back)?;
    let product = product_at(17, field, width, along)?;
    let share = fraction_product_at(18, field, whole(product), inverse)?;
    let area = unscale(field, den, 19, share)?;
    Ok(PartMeasures {
        holonomy_square: holonomy,
        height_square: height,
        area,
    })
}

// Those of a part with these letters that isn't a cylinder.
#[tactic(auto, unfolding(crate::specs::Measures::checked_looped))]
pub fn measure_looped(
    field: Field,
    den: i128,
    v: V2,
    letters: &[Letter],
) -> Result<PartMeasures, Place>
    requires den { pos 0 <ℤ den }
    requires direction { v ≢ vector_zero }
    requires few { length letters.now ≤ most_letters }
    ensures { result ≡ checked_looped field.d (unsigned_abs den) v letters.now }
{
    let inverse = find_inverse(field, v)?;
    let sum = add_areas(field, v, letters)?;
    let share = fraction_product_at(6018, field, whole(sum), inverse)?;
    let area = unscale(field, den, 6019, share)?;
    Ok(PartMeasures {
        holonomy_square: whole(Elem::ZERO),
        height_square: whole(Elem::ZERO),
        area,
    })
}

// The sum of the areas of letters, scaled by the squared length of the direction.
fn add_areas(field: Field, v: V2, letters: &[Letter]) -> Result<Elem, Place>
    requires { length letters.now ≤ most_letters }
    ensures { result ≡ checked_areas field.d v 0 zero letters.now }
{
    let mut sum = Elem::ZERO;
    for (n, letter) in letters.iter().enumerate() {
        let before = 20 + 5 * n as u32;
        let along = dot_after(before, field, v, letter.back)?;
        let area = product_at(before + 4, field, letter.length, along)?;
        sum = sum_at(before + 5, sum, area)?;
    }
    Ok(sum)
}

// The inverse of the squared length of the direction.
fn find_inverse(field: Field, v: V2) -> Result<Frac, Place>
    requires { v ≢ vector_zero }
    ensures { result ≡ checked_inverse field.d v }
{
    let norm = norm_after(6, field, v)?;
    reciprocal_at(10, field, whole(norm))
}

// A fraction over the square of the denominator.
fn unscale(field: Field, den: i128, place: u32, x: Frac) -> Result<Frac, Place>
    requires den { pos 0 <ℤ den }
    requires place { place ≤ 6019 }
    ensures { result ≡ checked_unscaled field.d (unsigned_abs den) place x }
{
    let inverse = Frac::new(Elem::new(1, 0), den);
    let once = fraction_product_at(place, field, x, inverse)?;
    fraction_product_at(place + 1, field, once, inverse)
}

// The fraction x/1.
fn whole(x: Elem) -> Frac
    ensures { result ≡ whole x }
{
    Frac::new(x, 1)
}
