ghost use Rattle.std.specs.Prelude.{◌<◌, ◌^◌, ◌≡◌, ◌≢◌, ◌-ℤ◌, ◌↔◌, pos, neg_ℤ, unsigned_abs};
ghost use Rattle.std.specs.declared.cmp.Ordering.{Ordering};
ghost use Rattle.fs_quadratic.specs.Ring.{neg, sign, compare, IsPositive, IsLess};

use crate::complete_quotient::CompleteQuotient;
use crate::element::Elem;
use crate::radicand::Field;
use std::cmp::Ordering;

// The least size of which the squares aren't compared.
const SMALL: u128 = 1 << 58;

impl Field {
    /// How x compares with 0. It never overflows, even where squares of the parts would.
    pub fn sign(self, x: Elem) -> Ordering
        ensures value { result ≡ sign self.d x }
        ensures greater { result ≡ Ordering.Greater ↔ IsPositive self.d x }
        ensures less { result ≡ Ordering.Less ↔ IsPositive self.d (neg x) }
    {
        self.cmp(x, Elem::ZERO)
    }

    /// How x compares with y. It never overflows, even where the difference would.
    pub fn cmp(self, x: Elem, y: Elem) -> Ordering
        ensures value { result ≡ compare self.d x y }
        ensures greater { result ≡ Ordering.Greater ↔ IsLess self.d y x }
        ensures less { result ≡ Ordering.Less ↔ IsLess self.d x y }
    {
        self.compare(x, y)
    }

    // How x compares with y, by the parts and, where these disagree, by their sizes.
    fn compare(self, x: Elem, y: Elem) -> Ordering
        ensures { result ≡ compare self.d x y }
    {
        let p = x.p().cmp(&y.p());
        let q = x.q().cmp(&y.q());
        match (p, q) {
            (Ordering::Greater, Ordering::Less) => self.compare_sizes(x, y),
            (Ordering::Less, Ordering::Greater) => self.compare_sizes(x, y).reverse(),
            (Ordering::Equal, _) => q,
            _ => p,
        }
    }

    // How the difference of the rational parts compares with √d times that of the r parts, by size.
    fn compare_sizes(self, x: Elem, y: Elem) -> Ordering
        requires { x.p ≢ y.p }
        ensures { result ≡ sign self.d (record { p = pos (unsigned_abs (x.p -ℤ y.p)); q = neg_ℤ (pos (unsigned_abs (x.q -ℤ y.q))) }) }
    {
        let p = x.p().abs_diff(y.p());
        let q = x.q().abs_diff(y.q());
        if p < SMALL && q < SMALL {
            self.compare_squares(p, q)
        } else {
            self.compare_quotients(p, q)
        }
    }

    // How p compares with q·√d, by complete quotients.
    fn compare_quotients(self, p: u128, q: u128) -> Ordering
        requires { 0 < p }
        ensures { result ≡ sign self.d (record { p = pos p; q = neg_ℤ (pos q) }) }
    {
        CompleteQuotient::first(self).compare_fraction(p, q)
    }

    // How p compares with q·√d, by their squares.
    fn compare_squares(self, p: u128, q: u128) -> Ordering
        requires positive { 0 < p }
        requires small_p { p < 2 ^ 58 }
        requires small_q { q < 2 ^ 58 }
        ensures { result ≡ sign self.d (record { p = pos p; q = neg_ℤ (pos q) }) }
    {
        (p * p).cmp(&(u128::from(self.d) * (q * q)))
    }
}
