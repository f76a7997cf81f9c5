//! The steps of a formula over fractions: each is one operation with its place, by which it tells where
//! it overflows. Their cost is that of the operations.
ghost use Rattle.std.specs.Prelude.{◌≡◌, ◌≢◌};
ghost use Rattle.fs_quadratic.specs.Ring.{zero};
ghost use Rattle.fs_fraction.specs.CheckedFractions.{checked_fraction_sum, checked_fraction_difference, checked_fraction_product, checked_reciprocal};

use crate::arithmetic::{add, inv, mul, sub};
use crate::fraction::Frac;
use fs_quadratic::{Field, Place};

/// The sum, or this place where it overflows.
pub fn fraction_sum_at(place: u32, field: Field, x: Frac, y: Frac) -> Result<Frac, Place>
    ensures { result ≡ checked_fraction_sum place x y }
{
    add(field, x, y).map_err(|_| Place(place))
}

/// The difference, or this place where it overflows.
pub fn fraction_difference_at(place: u32, field: Field, x: Frac, y: Frac) -> Result<Frac, Place>
    ensures { result ≡ checked_fraction_difference place x y }
{
    sub(field, x, y).map_err(|_| Place(place))
}

/// The product, or this place where it overflows.
pub fn fraction_product_at(place: u32, field: Field, x: Frac, y: Frac) -> Result<Frac, Place>
    ensures { result ≡ checked_fraction_product field.d place x y }
{
    mul(field, x, y).map_err(|_| Place(place))
}

/// The inverse of x, which isn't 0, or this place where it overflows.
pub fn reciprocal_at(place: u32, field: Field, x: Frac) -> Result<Frac, Place>
    requires { x.num ≢ zero }
    ensures { result ≡ checked_reciprocal field.d place x }
{
    inv(field, x).map_err(|_| Place(place))
}
