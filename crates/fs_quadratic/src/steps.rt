//! The steps of a formula: each is one operation with its place, by which it tells where it overflows.
//! Constant time.
ghost use Rattle.std.specs.Prelude.{◌≡◌};
ghost use Rattle.fs_quadratic.specs.Checked.{checked_product, checked_sum, checked_difference};

use crate::element::Elem;
use crate::radicand::Field;

/// The number, from 1, of the operation of a formula that overflows.
#[derive(Clone, Copy, Debug, PartialEq, Eq, PartialOrd, Ord, Hash)]
pub struct Place(pub u32);

/// The product, or this place where it overflows.
pub fn product_at(place: u32, field: Field, x: Elem, y: Elem) -> Result<Elem, Place>
    ensures { result ≡ checked_product field.d place x y }
{
    field.mul(x, y).map_err(|_| Place(place))
}

/// The sum, or this place where it overflows.
pub fn sum_at(place: u32, x: Elem, y: Elem) -> Result<Elem, Place>
    ensures { result ≡ checked_sum place x y }
{
    x.add(y).map_err(|_| Place(place))
}

/// The difference, or this place where it overflows.
pub fn difference_at(place: u32, x: Elem, y: Elem) -> Result<Elem, Place>
    ensures { result ≡ checked_difference place x y }
{
    x.sub(y).map_err(|_| Place(place))
}
