// The first site at which an exchange overflows: those of all letters come before those of all return vectors, and each is
// by polygon, side and place. Totals that just fit come beside them.

use crate::common::{BELOW_HALF, Found, HALF, MOST, Sites, expect_sites};
use crate::plans::{L_THREE, SQUARE, STAIRCASE};
use crate::wide_plans::{
    DOUBLED, LEANING, LONG_FITTING, LONG_PAIR, LONG_SWAPPED, ROOT_PAIR, SLANTED, STEEP_PAIR,
    STEEP_RING, TALL_FITTING, TALL_HEXAGON, TALL_PAIR, WIDE_HEXAGON,
};
use std::test::Fail;

// On the unit square: the running total, at the side after which no other is incoming, and totals that just fit.
static SQUARE_SITES: [Sites; 17] = [
    (((-HALF, 0), (HALF, 0)), Found::Letter(0, 1, 4)),
    (((-HALF, 0), (BELOW_HALF, 0)), Found::Total((MOST, 0))),
    (((-BELOW_HALF, 0), (HALF, 0)), Found::Total((MOST, 0))),
    (((HALF, 0), (HALF, 0)), Found::Letter(0, 3, 4)),
    (((HALF, 0), (-HALF, 0)), Found::Letter(0, 3, 4)),
    (((-HALF, 0), (-HALF, 0)), Found::Letter(0, 2, 4)),
    (((-HALF, 0), (-BELOW_HALF, 0)), Found::Total((MOST, 0))),
    (((0, -HALF), (0, HALF)), Found::Letter(0, 1, 4)),
    (((0, -HALF), (0, BELOW_HALF)), Found::Total((0, MOST))),
    (
        (
            (-HALF, 42535295865117307932921825928971026432),
            (HALF, -42535295865117307932921825928971026432),
        ),
        Found::Letter(0, 1, 4),
    ),
    (
        (
            (-BELOW_HALF, 42535295865117307932921825928971026432),
            (HALF, -42535295865117307932921825928971026432),
        ),
        Found::Total((MOST, -HALF)),
    ),
    (
        (
            (-HALF, HALF),
            (HALF, -42535295865117307932921825928971026432),
        ),
        Found::Total((0, 42535295865117307932921825928971026432)),
    ),
    (((MOST, 0), (0, 0)), Found::Total((MOST, 0))),
    (((0, 0), (-MOST, 0)), Found::Total((MOST, 0))),
    (((0, MOST), (MOST, 0)), Found::Total((MOST, MOST))),
    (((MOST, 0), (1, 0)), Found::Letter(0, 3, 4)),
    (((-1, 0), (MOST, 0)), Found::Letter(0, 1, 4)),
];

// On a square with sides of 2: products of a side and the direction.
static DOUBLED_SITES: [Sites; 13] = [
    (((HALF, 0), (HALF, 0)), Found::Letter(0, 0, 1)),
    (((0, 0), (HALF, 0)), Found::Letter(0, 0, 1)),
    (
        ((0, 0), (BELOW_HALF, 0)),
        Found::Total((170141183460469231731687303715884105726, 0)),
    ),
    (((HALF, 0), (0, 0)), Found::Letter(0, 1, 2)),
    (
        ((BELOW_HALF, 0), (0, 0)),
        Found::Total((170141183460469231731687303715884105726, 0)),
    ),
    (((BELOW_HALF, 0), (HALF, 0)), Found::Letter(0, 0, 1)),
    (((HALF, 0), (BELOW_HALF, 0)), Found::Letter(0, 1, 2)),
    (((BELOW_HALF, 0), (BELOW_HALF, 0)), Found::Letter(0, 3, 4)),
    (((-HALF, 0), (0, 0)), Found::Letter(0, 1, 2)),
    (((0, 0), (-HALF, 0)), Found::Letter(0, 0, 1)),
    (((0, HALF), (1, 0)), Found::Letter(0, 1, 2)),
    (((1, 0), (0, HALF)), Found::Letter(0, 0, 1)),
    (((0, -HALF), (0, HALF)), Found::Letter(0, 0, 1)),
];

// On a parallelogram of (1,1) and (0,1): the difference of the products at its first side.
static SLANTED_SITES: [Sites; 6] = [
    (((-HALF, 0), (HALF, 0)), Found::Letter(0, 0, 3)),
    (((HALF, 0), (-HALF, 0)), Found::Letter(0, 0, 3)),
    (((-BELOW_HALF, 0), (HALF, 0)), Found::Letter(0, 1, 4)),
    (((HALF, 0), (-BELOW_HALF, 0)), Found::Letter(0, 3, 4)),
    (((0, -HALF), (0, HALF)), Found::Letter(0, 0, 3)),
    (((HALF, 0), (MOST, 0)), Found::Total((MOST, 0))),
];

// On a parallelogram of (1,0) and (1,1): the difference at its second side.
static LEANING_SITES: [Sites; 4] = [
    (((-HALF, 0), (HALF, 0)), Found::Letter(0, 1, 3)),
    (((HALF, 0), (-HALF, 0)), Found::Letter(0, 1, 3)),
    (((-BELOW_HALF, 0), (HALF, 0)), Found::Letter(0, 1, 4)),
    (((MOST, 0), (1, 0)), Found::Total((MOST, 0))),
];

// On three squares: the total overflows at the last incoming side, or just fits.
static L_THREE_SITES: [Sites; 5] = [
    (
        (
            (28356863910078205288614550619314017622, 0),
            (-28356863910078205288614550619314017622, 0),
        ),
        Found::Letter(2, 3, 4),
    ),
    (
        (
            (28356863910078205288614550619314017621, 0),
            (-28356863910078205288614550619314017621, 0),
        ),
        Found::Total((170141183460469231731687303715884105726, 0)),
    ),
    (
        (
            (-28356863910078205288614550619314017622, 0),
            (28356863910078205288614550619314017622, 0),
        ),
        Found::Letter(2, 1, 4),
    ),
    (
        (
            (-28356863910078205288614550619314017621, 0),
            (28356863910078205288614550619314017621, 0),
        ),
        Found::Total((170141183460469231731687303715884105726, 0)),
    ),
    (
        (
            (-28356863910078205288614550619314017622, 0),
            (-28356863910078205288614550619314017622, 0),
        ),
        Found::Letter(2, 2, 4),
    ),
];

// On four rectangles: sites of later polygons, and an earlier one at place 4 where later ones are at place 1.
static STAIRCASE_SITES: [Sites; 6] = [
    (((0, 0), (0, HALF)), Found::Letter(1, 0, 1)),
    (((0, -HALF), (0, HALF)), Found::Letter(0, 1, 4)),
    (((0, HALF), (0, 0)), Found::Letter(1, 3, 4)),
    (
        ((0, 0), (0, 10633823966279326983230456482242756608)),
        Found::Total((
            42535295865117307932921825928971026432,
            31901471898837980949691369446728269824,
        )),
    ),
    (
        (
            (0, -42535295865117307932921825928971026432),
            (0, 42535295865117307932921825928971026432),
        ),
        Found::Letter(2, 0, 4),
    ),
    (((0, 0), (0, BELOW_HALF)), Found::Letter(2, 0, 4)),
];

// On two rectangles, which are together too long: return vectors of either polygon, and a letter of the second one, which
// comes first.
static LONG_PAIR_SITES: [Sites; 6] = [
    (((1, 0), (0, 0)), Found::Shift(1, 1, 1)),
    (((-1, 0), (0, 0)), Found::Shift(0, 2, 1)),
    (((MOST, 0), (0, 0)), Found::Letter(1, 3, 4)),
    (((-MOST, 0), (0, 0)), Found::Letter(1, 1, 4)),
    (((0, 0), (1, 0)), Found::Letter(1, 0, 4)),
    (((0, 0), (2, 0)), Found::Letter(0, 1, 1)),
];

// On the same, the polygons swapped: the letter of the second polygon comes before the return vector of the first.
static LONG_SWAPPED_SITES: [Sites; 4] = [
    (((1, 0), (0, 0)), Found::Shift(0, 1, 1)),
    (((-1, 0), (0, 0)), Found::Shift(1, 2, 1)),
    (((MOST, 0), (0, 0)), Found::Letter(1, 2, 4)),
    (((-MOST, 0), (0, 0)), Found::Letter(1, 0, 4)),
];

// On two rectangles that are together as long as a number can be.
static LONG_FITTING_SITES: [Sites; 4] = [
    (((1, 0), (0, 0)), Found::Total((2, 0))),
    (((-1, 0), (0, 0)), Found::Total((2, 0))),
    (((0, 0), (1, 0)), Found::Total((MOST, 0))),
    (((1, 0), (1, 0)), Found::Letter(1, 0, 4)),
];

// On two rectangles that are together too high.
static TALL_PAIR_SITES: [Sites; 4] = [
    (((0, 0), (1, 0)), Found::Shift(1, 1, 2)),
    (((0, 0), (-1, 0)), Found::Shift(0, 2, 2)),
    (((0, 0), (MOST, 0)), Found::Letter(1, 3, 4)),
    (((1, 0), (0, 0)), Found::Letter(1, 2, 4)),
];

// On two rectangles that are together as high as a number can be.
static TALL_FITTING_SITES: [Sites; 2] = [
    (((0, 0), (1, 0)), Found::Total((2, 0))),
    (((0, 0), (-1, 0)), Found::Total((2, 0))),
];

// On two parallelograms that are together too wide and too high.
static STEEP_PAIR_SITES: [Sites; 4] = [
    (((1, 0), (1, 0)), Found::Shift(1, 1, 1)),
    (((-1, 0), (-1, 0)), Found::Shift(0, 2, 1)),
    (((-2, 0), (2, 0)), Found::Letter(0, 1, 1)),
    (((2, 0), (2, 0)), Found::Letter(0, 1, 1)),
];

// On four parallelograms: y of a return vector comes before x of a later one.
static STEEP_RING_SITES: [Sites; 2] = [
    (((1, 0), (1, 0)), Found::Shift(1, 1, 2)),
    (((-1, 0), (-1, 0)), Found::Shift(0, 2, 1)),
];

// On two rectangles whose length is a multiple of √2.
static ROOT_PAIR_SITES: [Sites; 2] = [
    (((1, 0), (0, 0)), Found::Shift(1, 1, 1)),
    (((-1, 0), (0, 0)), Found::Shift(0, 2, 1)),
];

// On a hexagon that is too wide by itself.
static WIDE_HEXAGON_SITES: [Sites; 3] = [
    (((1, 0), (0, 0)), Found::Shift(0, 1, 1)),
    (((-1, 0), (0, 0)), Found::Shift(0, 4, 1)),
    (((0, 0), (1, 0)), Found::Letter(0, 5, 4)),
];

// On a hexagon that is too high by itself.
static TALL_HEXAGON_SITES: [Sites; 2] = [
    (((0, 0), (1, 0)), Found::Shift(0, 1, 2)),
    (((0, 0), (-1, 0)), Found::Shift(0, 4, 2)),
];

#[test]
fn the_unit_square(rt: HostRuntime) -> Result<(), Fail> {
    expect_sites(&rt, rt.alloc(), &SQUARE, &SQUARE_SITES)
}

#[test]
fn a_square_of_sides_2(rt: HostRuntime) -> Result<(), Fail> {
    expect_sites(&rt, rt.alloc(), &DOUBLED, &DOUBLED_SITES)
}

#[test]
fn a_parallelogram_of_1_1_and_0_1(rt: HostRuntime) -> Result<(), Fail> {
    expect_sites(&rt, rt.alloc(), &SLANTED, &SLANTED_SITES)
}

#[test]
fn a_parallelogram_of_1_0_and_1_1(rt: HostRuntime) -> Result<(), Fail> {
    expect_sites(&rt, rt.alloc(), &LEANING, &LEANING_SITES)
}

#[test]
fn the_last_incoming_side_of_three_squares(rt: HostRuntime) -> Result<(), Fail> {
    expect_sites(&rt, rt.alloc(), &L_THREE, &L_THREE_SITES)
}

#[test]
fn a_later_polygon_of_four(rt: HostRuntime) -> Result<(), Fail> {
    expect_sites(&rt, rt.alloc(), &STAIRCASE, &STAIRCASE_SITES)
}

#[test]
fn two_long_rectangles(rt: HostRuntime) -> Result<(), Fail> {
    expect_sites(&rt, rt.alloc(), &LONG_PAIR, &LONG_PAIR_SITES)
}

#[test]
fn two_long_rectangles_swapped(rt: HostRuntime) -> Result<(), Fail> {
    expect_sites(&rt, rt.alloc(), &LONG_SWAPPED, &LONG_SWAPPED_SITES)
}

#[test]
fn two_long_rectangles_that_fit(rt: HostRuntime) -> Result<(), Fail> {
    expect_sites(&rt, rt.alloc(), &LONG_FITTING, &LONG_FITTING_SITES)
}

#[test]
fn two_tall_rectangles(rt: HostRuntime) -> Result<(), Fail> {
    expect_sites(&rt, rt.alloc(), &TALL_PAIR, &TALL_PAIR_SITES)
}

#[test]
fn two_tall_rectangles_that_fit(rt: HostRuntime) -> Result<(), Fail> {
    expect_sites(&rt, rt.alloc(), &TALL_FITTING, &TALL_FITTING_SITES)
}

#[test]
fn two_steep_parallelograms(rt: HostRuntime) -> Result<(), Fail> {
    expect_sites(&rt, rt.alloc(), &STEEP_PAIR, &STEEP_PAIR_SITES)
}

#[test]
fn four_steep_parallelograms(rt: HostRuntime) -> Result<(), Fail> {
    expect_sites(&rt, rt.alloc(), &STEEP_RING, &STEEP_RING_SITES)
}

#[test]
fn two_rectangles_of_root_length(rt: HostRuntime) -> Result<(), Fail> {
    expect_sites(&rt, rt.alloc(), &ROOT_PAIR, &ROOT_PAIR_SITES)
}

#[test]
fn a_wide_hexagon(rt: HostRuntime) -> Result<(), Fail> {
    expect_sites(&rt, rt.alloc(), &WIDE_HEXAGON, &WIDE_HEXAGON_SITES)
}

#[test]
fn a_tall_hexagon(rt: HostRuntime) -> Result<(), Fail> {
    expect_sites(&rt, rt.alloc(), &TALL_HEXAGON, &TALL_HEXAGON_SITES)
}
