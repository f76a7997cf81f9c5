ghost use Rattle.std.specs.Prelude.{◌≡◌, ◌<◌, ◌≤◌, ◌^◌};
ghost use Rattle.fs_fraction.specs.Divisor.{IsGreatestDivisor, gcd};

// The greatest number of 64 bits.
const NARROW: u128 = (1 << 64) - 1;

/// The greatest common divisor, by Euclid's remainders. It is 0 where both are.
pub fn greatest_divisor(a: u128, b: u128) -> u128
    ensures value { result ≡ gcd a b }
    ensures greatest { IsGreatestDivisor a b result }
    ensures positive { 0 < b → 0 < result }
    ensures at_most { 0 < b → result ≤ b }
{
    let mut larger = a;
    let mut smaller = b;
    while smaller > NARROW {
        let rest = larger % smaller;
        larger = smaller;
        smaller = rest;
    }
    divisor_of_narrow(larger, smaller as u64)
}

// The same where the second number has 64 bits.
fn divisor_of_narrow(a: u128, b: u64) -> u128
    ensures { result ≡ gcd a b }
{
    if a <= NARROW {
        u128::from(narrow_divisor(a as u64, b))
    } else if b == 0 {
        a
    } else {
        u128::from(narrow_divisor(b, (a % u128::from(b)) as u64))
    }
}

// The same where both numbers have 64 bits, as most remainders do after a step or two.
pub(crate) fn narrow_divisor(a: u64, b: u64) -> u64
    ensures { result ≡ gcd a b }
{
    let mut larger = a;
    let mut smaller = b;
    while smaller != 0 {
        let rest = larger % smaller;
        larger = smaller;
        smaller = rest;
    }
    larger
}
