// Checked operations on numbers that fractions are computed by.
ghost use Rattle.std.specs.Prelude.{◌≡◌, ◌^◌, ◌<◌};
ghost use Rattle.std.specs.Option.{SomeIff};
ghost use Rattle.fs_quadratic.specs.Width.{Fits};
ghost use Rattle.fs_fraction.specs.Arithmetic.{norm, NormFits};
ghost use Rattle.fs_fraction.specs.Fraction.{scale};

use fs_quadratic::width::{checked_difference, checked_multiple, checked_product, signed};
use fs_quadratic::{Elem, Field};

// k times x, where both parts are within the width.
pub fn checked_scale(k: u128, x: Elem) -> Option<Elem>
    requires { k < 2 ^ 127 }
    ensures { SomeIff result (Fits (scale k x)) (scale k x) }
{
    let factor = signed(k);
    match (
        checked_product(factor, x.p()),
        checked_product(factor, x.q()),
    ) {
        (Some(p), Some(q)) => Some(Elem::new(p, q)),
        _ => None,
    }
}

// p² - d·q², where it and the numbers of its computation are within the width.
pub fn checked_norm(field: Field, x: Elem) -> Option<i128>
    ensures { SomeIff result (NormFits field.d x) (norm field.d x) }
{
    match (
        checked_product(x.p(), x.p()),
        checked_multiple(field.d(), x.q(), x.q()),
    ) {
        (Some(square), Some(multiple)) => checked_difference(square, multiple),
        _ => None,
    }
}
