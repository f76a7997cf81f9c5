// The first place at which a walk overflows: places 1 to 15 of `enter`, and those of `walk`. Places 3 to 5 of
// `walk 0` repeat the products of places 1 to 3 of `enter`, which come first.

use crate::common::{Row, Told, expect_walks};
use crate::plans::{
    FLAT_HEXAGON, HALF_SLANTED, LEANING_HEXAGON, LONG, LONG_64, LONG_ROOT, SLANTED, SQUARE_62,
    STEEP_HEXAGON, TALL, TALL_32, TALL_64, TALL_HEXAGON, TALL_ROOT, UNIT, UNIT_SLANTED,
    WIDE_HEXAGON,
};
use std::test::Fail;

// Walks on a rectangle of 2^126 by 1.
static LONG_WALKS: [Row; 8] = [
    ((0, 0), ((1, 0), (2, 0)), 100, Told::Enter(1)),
    ((0, 0), ((2, 0), (0, 0)), 100, Told::Enter(4)),
    ((0, 1), ((-1, 0), (2, 0)), 100, Told::Enter(8)),
    ((0, 0), ((1, 0), (0, 0)), 100, Told::Enter(13)),
    ((0, 1), ((-1, 0), (-1, 1)), 100, Told::Walk(0, 6013)),
    (
        (0, 0),
        ((170141183460469231731687303715884105727, 0), (1, 0)),
        100,
        Told::Walk(1, 1),
    ),
    (
        (0, 0),
        ((170141183460469231731687303715884105727, 0), (1, 0)),
        0,
        Told::LongWord(&[]),
    ),
    (
        (0, 0),
        ((85070591730234615865843651857942052864, 0), (1, 0)),
        100,
        Told::Segment(&[], (0, 2)),
    ),
];

// Walks on a rectangle of 1 by 2^126.
static TALL_WALKS: [Row; 9] = [
    ((0, 1), ((2, 0), (0, 0)), 100, Told::Enter(2)),
    ((0, 1), ((-2, 0), (1, 0)), 100, Told::Enter(2)),
    ((0, 1), ((0, 0), (2, 0)), 100, Told::Enter(5)),
    ((0, 0), ((2, 0), (1, 0)), 100, Told::Enter(7)),
    ((0, 1), ((0, 0), (1, 0)), 100, Told::Enter(14)),
    ((0, 0), ((-1, 1), (1, 0)), 100, Told::Walk(0, 6014)),
    (
        (0, 0),
        ((1, 0), (170141183460469231731687303715884105727, 0)),
        100,
        Told::Walk(1, 2),
    ),
    (
        (0, 0),
        ((1, 0), (170141183460469231731687303715884105727, 0)),
        0,
        Told::LongWord(&[]),
    ),
    (
        (0, 0),
        ((1, 0), (85070591730234615865843651857942052864, 0)),
        100,
        Told::Segment(&[], (0, 2)),
    ),
];

// Walks on a parallelogram of (2^126, 2^126) and (0, 1).
static SLANTED_WALKS: [Row; 4] = [
    ((0, 0), ((-1, 0), (1, 0)), 100, Told::Enter(3)),
    ((0, 0), ((1, 0), (1, 0)), 100, Told::Enter(6)),
    ((0, 1), ((-1, 0), (1, 0)), 100, Told::Enter(9)),
    ((0, 1), ((1, -1), (0, 0)), 100, Told::Walk(0, 6015)),
];

// Walks on the unit square.
static UNIT_WALKS: [Row; 9] = [
    (
        (0, 0),
        ((18446744073709551616, 0), (0, 0)),
        100,
        Told::Enter(10),
    ),
    (
        (0, 1),
        ((0, 0), (18446744073709551616, 0)),
        100,
        Told::Enter(11),
    ),
    (
        (0, 0),
        ((0, 9223372036854775808), (0, 0)),
        100,
        Told::Enter(10),
    ),
    (
        (0, 0),
        ((0, 9223372036854775807), (0, 0)),
        100,
        Told::Vertex(&[]),
    ),
    (
        (0, 0),
        ((18446744073709551616, 0), (18446744073709551616, 0)),
        100,
        Told::Walk(0, 6004),
    ),
    (
        (0, 0),
        ((9223372036854775808, 0), (9223372036854775808, 0)),
        100,
        Told::Walk(0, 6006),
    ),
    (
        (0, 0),
        (
            (85070591730234615865843651857942052864, 0),
            (170141183460469231731687303715884105727, 0),
        ),
        100,
        Told::Walk(1, 3),
    ),
    (
        (0, 0),
        (
            (170141183460469231731687303715884105727, 0),
            (85070591730234615865843651857942052864, 0),
        ),
        100,
        Told::Walk(1, 4),
    ),
    (
        (0, 0),
        (
            (
                -42535295865117307932921825928971026432,
                42535295865117307932921825928971026432,
            ),
            (85070591730234615865843651857942052864, 0),
        ),
        100,
        Told::Walk(1, 5),
    ),
];

// Walks on a parallelogram of (1, 1) and (0, 1).
static UNIT_SLANTED_WALKS: [Row; 2] = [
    (
        (0, 0),
        ((9223372036854775808, 0), (9223372036854775808, 0)),
        100,
        Told::Enter(12),
    ),
    (
        (0, 0),
        ((9223372036854775807, 0), (9223372036854775807, 0)),
        100,
        Told::Vertex(&[]),
    ),
];

// Walks on a parallelogram of (2^63, 2^63) and (0, 1).
static HALF_SLANTED_WALKS: [Row; 1] = [((0, 0), ((1, 0), (1, 0)), 100, Told::Enter(15))];

// Walks on a hexagon whose width is more than 2^127.
static WIDE_HEXAGON_WALKS: [Row; 2] = [
    ((0, 5), ((1, 0), (1, 0)), 100, Told::Walk(0, 6)),
    ((0, 4), ((1, 0), (0, 0)), 100, Told::Walk(0, 11)),
];

// Walks on the same, turned by a right angle.
static TALL_HEXAGON_WALKS: [Row; 1] = [((0, 5), ((-1, 0), (1, 0)), 100, Told::Walk(0, 7))];

// Walks on a hexagon with a side of (1, 2^126).
static STEEP_HEXAGON_WALKS: [Row; 1] = [((0, 0), ((2, 0), (1, 0)), 100, Told::Walk(0, 8))];

// Walks on a hexagon with a side of (2^126, 1).
static FLAT_HEXAGON_WALKS: [Row; 1] = [((0, 0), ((1, 0), (2, 0)), 100, Told::Walk(0, 9))];

// Walks on a hexagon with a side of (2^125, 2^125).
static LEANING_HEXAGON_WALKS: [Row; 1] = [((0, 0), ((-2, 0), (2, 0)), 100, Told::Walk(0, 10))];

// Walks on a rectangle of 2^64 by 1.
static LONG_64_WALKS: [Row; 1] = [(
    (0, 0),
    ((36893488147419103232, 0), (2, 0)),
    100,
    Told::Walk(0, 6001),
)];

// Walks on a rectangle of 1 by 2^64.
static TALL_64_WALKS: [Row; 1] = [(
    (0, 0),
    ((2, 0), (36893488147419103232, 0)),
    100,
    Told::Walk(0, 6002),
)];

// Walks on a square with sides of 2^62.
static SQUARE_62_WALKS: [Row; 1] = [(
    (0, 0),
    ((18446744073709551616, 0), (18446744073709551616, 0)),
    100,
    Told::Walk(0, 6003),
)];

// Walks on a rectangle of 1 by 2^32.
static TALL_32_WALKS: [Row; 1] = [(
    (0, 0),
    ((4294967296, 0), (18446744073709551616, 0)),
    100,
    Told::Walk(0, 6005),
)];

// Walks on a rectangle whose width is 2^126 - 2^124 √2.
static LONG_ROOT_WALKS: [Row; 1] = [(
    (0, 0),
    (
        (
            -85070591730234615865843651857942052864,
            85070591730234615865843651857942052864,
        ),
        (0, 1),
    ),
    100,
    Told::Walk(0, 6011),
)];

// Walks on a rectangle whose height is 2^126 - 2^124 √2.
static TALL_ROOT_WALKS: [Row; 1] = [(
    (0, 0),
    (
        (-1, 1),
        (
            -85070591730234615865843651857942052864,
            85070591730234615865843651857942052864,
        ),
    ),
    100,
    Told::Walk(0, 6012),
)];

#[test]
fn long(rt: HostRuntime) -> Result<(), Fail> {
    expect_walks(&rt, rt.alloc(), &LONG, &LONG_WALKS)
}

#[test]
fn tall(rt: HostRuntime) -> Result<(), Fail> {
    expect_walks(&rt, rt.alloc(), &TALL, &TALL_WALKS)
}

#[test]
fn slanted(rt: HostRuntime) -> Result<(), Fail> {
    expect_walks(&rt, rt.alloc(), &SLANTED, &SLANTED_WALKS)
}

#[test]
fn unit(rt: HostRuntime) -> Result<(), Fail> {
    expect_walks(&rt, rt.alloc(), &UNIT, &UNIT_WALKS)
}

#[test]
fn unit_slanted(rt: HostRuntime) -> Result<(), Fail> {
    expect_walks(&rt, rt.alloc(), &UNIT_SLANTED, &UNIT_SLANTED_WALKS)
}

#[test]
fn half_slanted(rt: HostRuntime) -> Result<(), Fail> {
    expect_walks(&rt, rt.alloc(), &HALF_SLANTED, &HALF_SLANTED_WALKS)
}

#[test]
fn wide_hexagon(rt: HostRuntime) -> Result<(), Fail> {
    expect_walks(&rt, rt.alloc(), &WIDE_HEXAGON, &WIDE_HEXAGON_WALKS)
}

#[test]
fn tall_hexagon(rt: HostRuntime) -> Result<(), Fail> {
    expect_walks(&rt, rt.alloc(), &TALL_HEXAGON, &TALL_HEXAGON_WALKS)
}

#[test]
fn steep_hexagon(rt: HostRuntime) -> Result<(), Fail> {
    expect_walks(&rt, rt.alloc(), &STEEP_HEXAGON, &STEEP_HEXAGON_WALKS)
}

#[test]
fn flat_hexagon(rt: HostRuntime) -> Result<(), Fail> {
    expect_walks(&rt, rt.alloc(), &FLAT_HEXAGON, &FLAT_HEXAGON_WALKS)
}

#[test]
fn leaning_hexagon(rt: HostRuntime) -> Result<(), Fail> {
    expect_walks(&rt, rt.alloc(), &LEANING_HEXAGON, &LEANING_HEXAGON_WALKS)
}

#[test]
fn long_64(rt: HostRuntime) -> Result<(), Fail> {
    expect_walks(&rt, rt.alloc(), &LONG_64, &LONG_64_WALKS)
}

#[test]
fn tall_64(rt: HostRuntime) -> Result<(), Fail> {
    expect_walks(&rt, rt.alloc(), &TALL_64, &TALL_64_WALKS)
}

#[test]
fn square_62(rt: HostRuntime) -> Result<(), Fail> {
    expect_walks(&rt, rt.alloc(), &SQUARE_62, &SQUARE_62_WALKS)
}

#[test]
fn tall_32(rt: HostRuntime) -> Result<(), Fail> {
    expect_walks(&rt, rt.alloc(), &TALL_32, &TALL_32_WALKS)
}

#[test]
fn long_root(rt: HostRuntime) -> Result<(), Fail> {
    expect_walks(&rt, rt.alloc(), &LONG_ROOT, &LONG_ROOT_WALKS)
}

#[test]
fn tall_root(rt: HostRuntime) -> Result<(), Fail> {
    expect_walks(&rt, rt.alloc(), &TALL_ROOT, &TALL_ROOT_WALKS)
}
