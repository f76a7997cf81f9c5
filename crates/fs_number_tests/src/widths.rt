// The checked operations of the width at its edges. Expected values were computed with whole
// numbers of any size.
use crate::common::MOST;
use fs_quadratic::width::{
    GREATEST, checked_difference, checked_multiple, checked_natural_product, checked_product,
    checked_sum, signed,
};

// Two integers, and their sum, difference and product where it is within the width.
type Results = (i128, i128, Option<i128>, Option<i128>, Option<i128>);

static RESULTS: [Results; 17] = [
    (0, 0, Some(0), Some(0), Some(0)),
    (MOST, 0, Some(MOST), Some(MOST), Some(0)),
    (MOST, 1, None, Some(MOST - 1), Some(MOST)),
    (MOST, -1, Some(MOST - 1), None, Some(-MOST)),
    (-MOST, 1, Some(1 - MOST), None, Some(-MOST)),
    (-MOST, -1, None, Some(1 - MOST), Some(MOST)),
    (MOST, MOST, None, Some(0), None),
    (MOST, -MOST, Some(0), None, None),
    (i128::MIN, 1, Some(-MOST), None, None),
    (i128::MIN, -1, None, Some(-MOST), None),
    (
        2,
        85070591730234615865843651857942052863,
        Some(85070591730234615865843651857942052865),
        Some(-85070591730234615865843651857942052861),
        Some(MOST - 1),
    ),
    (
        2,
        -85070591730234615865843651857942052863,
        Some(-85070591730234615865843651857942052861),
        Some(85070591730234615865843651857942052865),
        Some(1 - MOST),
    ),
    (
        2,
        85070591730234615865843651857942052864,
        Some(85070591730234615865843651857942052866),
        Some(-85070591730234615865843651857942052862),
        None,
    ),
    (
        2,
        -85070591730234615865843651857942052864,
        Some(-85070591730234615865843651857942052862),
        Some(85070591730234615865843651857942052866),
        None,
    ),
    (
        18446744073709551616,
        9223372036854775808,
        Some(27670116110564327424),
        Some(9223372036854775808),
        None,
    ),
    (
        18446744073709551616,
        -9223372036854775808,
        Some(9223372036854775808),
        Some(27670116110564327424),
        None,
    ),
    (
        -18446744073709551616,
        -9223372036854775808,
        Some(-27670116110564327424),
        Some(-9223372036854775808),
        None,
    ),
];

// d, two integers, and d times their product where both it and the product are within the width.
static MULTIPLES: [(u16, i128, i128, Option<i128>); 13] = [
    (0, MOST, 1, Some(0)),
    (0, MOST, 2, None),
    (1, MOST, 1, Some(MOST)),
    (1, MOST, -1, Some(-MOST)),
    (2, 85070591730234615865843651857942052863, 1, Some(MOST - 1)),
    (2, 85070591730234615865843651857942052864, 1, None),
    (2, -1, 85070591730234615865843651857942052864, None),
    (
        3,
        56713727820156410577229101238628035242,
        -1,
        Some(1 - MOST),
    ),
    (3, 56713727820156410577229101238628035243, -1, None),
    (
        998,
        170482147755981194119927158031948001,
        1,
        Some(170141183460469231731687303715884104998),
    ),
    (998, 170482147755981194119927158031948002, 1, None),
    (
        65535,
        9223372036854775808,
        281474976710656,
        Some(170138587312039964317873038467719495680),
    ),
    (65535, 9223372036854775808, 562949953421312, None),
];

// 2^127 - 1 as a natural number.
const MOST_NATURAL: u128 = 170141183460469231731687303715884105727;

// Two natural numbers, and their product where it is within the width.
static NATURAL_PRODUCTS: [(u128, u128, Option<u128>); 12] = [
    (0, 0, Some(0)),
    (MOST_NATURAL, 1, Some(MOST_NATURAL)),
    (MOST_NATURAL, 2, None),
    (
        2,
        85070591730234615865843651857942052863,
        Some(MOST_NATURAL - 1),
    ),
    (2, 85070591730234615865843651857942052864, None),
    (
        3,
        56713727820156410577229101238628035242,
        Some(MOST_NATURAL - 1),
    ),
    (3, 56713727820156410577229101238628035243, None),
    (18446744073709551616, 9223372036854775808, None),
    (
        18446744073709551616,
        9223372036854775807,
        Some(170141183460469231713240559642174554112),
    ),
    (18446744073709551616, 18446744073709551616, None),
    (0, u128::MAX, Some(0)),
    (1, u128::MAX, None),
];

#[test]
fn sums_differences_products(rt: HostRuntime) {
    for (row, (a, b, sum, difference, product)) in RESULTS.iter().enumerate() {
        assert!(rt; checked_sum(*a, *b) == *sum, "row {row}");
        assert!(rt; checked_difference(*a, *b) == *difference, "row {row}");
        assert!(rt; checked_product(*a, *b) == *product, "row {row}");
    }
}

#[test]
fn multiples(rt: HostRuntime) {
    for (row, (d, a, b, multiple)) in MULTIPLES.iter().enumerate() {
        assert!(rt; checked_multiple(*d, *a, *b) == *multiple, "row {row}");
    }
}

#[test]
fn natural_products(rt: HostRuntime) {
    for (row, (a, b, product)) in NATURAL_PRODUCTS.iter().enumerate() {
        assert!(rt; checked_natural_product(*a, *b) == *product, "row {row}");
    }
}

#[test]
fn greatest_number(rt: HostRuntime) {
    assert!(rt; GREATEST == MOST_NATURAL);
    assert!(rt; signed(MOST_NATURAL) == MOST);
    assert!(rt; signed(0) == 0);
}
