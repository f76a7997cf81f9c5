//! Checked operations on the parts of numbers: each gives the exact result where it is within the
//! width, from -(2^127 - 1) to 2^127 - 1, and `None` exactly where it isn't. Constant time.
ghost use Rattle.std.specs.Prelude.{◌≡◌, ◌+ℤ◌, ◌-ℤ◌, ◌*ℤ◌, ◌*◌, ◌^◌, ◌<◌, pos};
ghost use Rattle.std.specs.Option.{SomeIff};
ghost use Rattle.fs_quadratic.specs.Width.{InWidth, MultipleFits};

/// The greatest number of the width, 2^127 - 1.
pub const GREATEST: u128 = (1 << 127) - 1;

/// The sum.
pub fn checked_sum(a: i128, b: i128) -> Option<i128>
    ensures { SomeIff result (InWidth (a +ℤ b)) (a +ℤ b) }
{
    match a.checked_add(b) {
        Some(sum) if sum != i128::MIN => Some(sum),
        _ => None,
    }
}

/// The difference.
pub fn checked_difference(a: i128, b: i128) -> Option<i128>
    ensures { SomeIff result (InWidth (a -ℤ b)) (a -ℤ b) }
{
    match a.checked_sub(b) {
        Some(difference) if difference != i128::MIN => Some(difference),
        _ => None,
    }
}

/// The product.
pub fn checked_product(a: i128, b: i128) -> Option<i128>
    ensures { SomeIff result (InWidth (a *ℤ b)) (a *ℤ b) }
{
    match a.checked_mul(b) {
        Some(product) if product != i128::MIN => Some(product),
        _ => None,
    }
}

/// d times the product, or `None` also where the product alone isn't within the width.
pub fn checked_multiple(d: u16, a: i128, b: i128) -> Option<i128>
    ensures { SomeIff result (MultipleFits d a b) (pos d *ℤ (a *ℤ b)) }
{
    checked_product(i128::from(d), checked_product(a, b)?)
}

/// The product of two natural numbers.
pub fn checked_natural_product(a: u128, b: u128) -> Option<u128>
    ensures { SomeIff result (InWidth (pos (a * b))) (a * b) }
{
    match a.checked_mul(b) {
        Some(product) if product <= GREATEST => Some(product),
        _ => None,
    }
}

/// A natural number of the width as an integer.
pub fn signed(k: u128) -> i128
    requires { k < 2 ^ 127 }
    ensures { result ≡ pos k }
{
    k as i128
}
