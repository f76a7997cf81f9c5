// Numbers, fractions and vectors of the tables, from their parts.
use fs_fraction::Frac;
use fs_plane::V2;
use fs_quadratic::{Elem, Field};
use std::process::Abort;

// The greatest number of the width, 2^127 - 1.
pub const MOST: i128 = 170141183460469231731687303715884105727;

// p and q of a number p + q·√d.
pub type Pair = (i128, i128);

// p, q and the denominator of a fraction.
pub type Parts = (i128, i128, i128);

// The coordinates of a vector.
pub type Vector = (Pair, Pair);

// The field of √d.
pub fn field(rt: &impl Abort, d: u16) -> Field {
    Field::new(d).expect(rt, "a squarefree d")
}

// The number of these parts.
pub fn elem(rt: &impl Abort, parts: Pair) -> Elem {
    assert!(rt; parts.0 != i128::MIN);
    assert!(rt; parts.1 != i128::MIN);
    Elem::new(parts.0, parts.1)
}

// The fraction of these parts.
pub fn frac(rt: &impl Abort, parts: Parts) -> Frac {
    assert!(rt; parts.2 > 0);
    Frac::new(elem(rt, (parts.0, parts.1)), parts.2)
}

// The vector of these coordinates.
pub fn vector(rt: &impl Abort, parts: Vector) -> V2 {
    V2 {
        x: elem(rt, parts.0),
        y: elem(rt, parts.1),
    }
}
