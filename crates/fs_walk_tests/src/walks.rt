// Walks, and how they end.

use crate::common::{Row, Told, expect_walks};
use crate::plans::{DOUBLED, HEXAGON, L_SHAPE, OCTAGON, SQUARE, STRAIGHT, TWO_SQUARES};
use std::test::Fail;

// Walks on the unit square.
static SQUARE_WALKS: [Row; 46] = [
    (
        (0, 0),
        ((2, 0), (1, 0)),
        100,
        Told::Segment(&[(0, 1)], (0, 2)),
    ),
    (
        (0, 0),
        ((3, 0), (1, 0)),
        100,
        Told::Segment(&[(0, 1), (0, 1)], (0, 2)),
    ),
    ((0, 0), ((2, 0), (2, 0)), 100, Told::Vertex(&[])),
    ((0, 0), ((0, 0), (1, 0)), 100, Told::OutOfSector),
    ((0, 0), ((1, 0), (0, 0)), 100, Told::Segment(&[], (0, 1))),
    ((0, 0), ((1, 0), (1, 0)), 100, Told::Segment(&[], (0, 2))),
    ((0, 0), ((2, 0), (0, 0)), 100, Told::Vertex(&[])),
    ((0, 0), ((-1, 0), (0, 0)), 100, Told::OutOfSector),
    ((0, 0), ((1, 0), (-1, 0)), 100, Told::OutOfSector),
    ((0, 0), ((-1, 0), (1, 0)), 100, Told::OutOfSector),
    ((0, 0), ((0, 0), (-1, 0)), 100, Told::OutOfSector),
    ((0, 1), ((0, 0), (1, 0)), 100, Told::Segment(&[], (0, 2))),
    ((0, 1), ((-1, 0), (0, 0)), 100, Told::OutOfSector),
    (
        (0, 1),
        ((-1, 0), (2, 0)),
        100,
        Told::Segment(&[(0, 2)], (0, 3)),
    ),
    (
        (0, 1),
        ((-2, 0), (1, 0)),
        100,
        Told::Segment(&[(0, 3)], (0, 3)),
    ),
    (
        (0, 2),
        ((-2, 0), (-1, 0)),
        100,
        Told::Segment(&[(0, 3)], (0, 0)),
    ),
    (
        (0, 2),
        ((-1, 0), (-2, 0)),
        100,
        Told::Segment(&[(0, 0)], (0, 0)),
    ),
    (
        (0, 3),
        ((1, 0), (-2, 0)),
        100,
        Told::Segment(&[(0, 0)], (0, 1)),
    ),
    (
        (0, 3),
        ((2, 0), (-1, 0)),
        100,
        Told::Segment(&[(0, 1)], (0, 1)),
    ),
    (
        (0, 0),
        ((3, 0), (2, 0)),
        100,
        Told::Segment(&[(0, 1), (0, 2), (0, 1)], (0, 2)),
    ),
    (
        (0, 0),
        ((5, 0), (3, 0)),
        100,
        Told::Segment(&[(0, 1), (0, 2), (0, 1), (0, 1), (0, 2), (0, 1)], (0, 2)),
    ),
    (
        (0, 0),
        ((6, 0), (2, 0)),
        100,
        Told::Vertex(&[(0, 1), (0, 1)]),
    ),
    ((0, 0), ((2, 0), (4, 0)), 100, Told::Vertex(&[(0, 2)])),
    ((0, 0), ((0, 1), (0, 0)), 100, Told::Vertex(&[])),
    ((0, 0), ((-1, 1), (0, 0)), 100, Told::Inside(&[])),
    ((0, 0), ((0, 1), (0, 1)), 100, Told::Vertex(&[])),
    ((0, 0), ((-1, 1), (-1, 1)), 100, Told::Inside(&[])),
    ((0, 0), ((-1, 1), (1, 0)), 100, Told::Inside(&[])),
    ((0, 0), ((1, 0), (-1, 1)), 100, Told::Inside(&[])),
    ((0, 0), ((0, 1), (1, 0)), 100, Told::Inside(&[(0, 1)])),
    ((0, 0), ((1, 0), (0, 1)), 100, Told::Inside(&[(0, 2)])),
    ((0, 0), ((3, 0), (1, 0)), 0, Told::LongWord(&[])),
    ((0, 0), ((3, 0), (1, 0)), 1, Told::LongWord(&[(0, 1)])),
    (
        (0, 0),
        ((3, 0), (1, 0)),
        2,
        Told::Segment(&[(0, 1), (0, 1)], (0, 2)),
    ),
    ((0, 0), ((2, 0), (1, 0)), 0, Told::LongWord(&[])),
    (
        (0, 0),
        ((2, 0), (1, 0)),
        1,
        Told::Segment(&[(0, 1)], (0, 2)),
    ),
    ((0, 0), ((1, 0), (1, 0)), 0, Told::Segment(&[], (0, 2))),
    ((0, 0), ((1, 0), (0, 0)), 0, Told::Segment(&[], (0, 1))),
    ((0, 0), ((2, 0), (0, 0)), 0, Told::Vertex(&[])),
    ((0, 0), ((2, 0), (2, 0)), 0, Told::Vertex(&[])),
    ((0, 0), ((0, 0), (1, 0)), 0, Told::OutOfSector),
    ((0, 0), ((0, 1), (1, 0)), 0, Told::LongWord(&[])),
    ((0, 0), ((0, 1), (1, 0)), 1, Told::Inside(&[(0, 1)])),
    ((0, 0), ((6, 0), (2, 0)), 1, Told::LongWord(&[(0, 1)])),
    ((0, 0), ((6, 0), (2, 0)), 2, Told::Vertex(&[(0, 1), (0, 1)])),
    (
        (0, 0),
        ((4, 0), (1, 0)),
        1000000,
        Told::Segment(&[(0, 1), (0, 1), (0, 1)], (0, 2)),
    ),
];

// Walks on a square with sides of 2.
static DOUBLED_WALKS: [Row; 16] = [
    ((0, 0), ((1, 0), (1, 0)), 100, Told::Inside(&[])),
    ((0, 0), ((2, 0), (2, 0)), 100, Told::Segment(&[], (0, 2))),
    (
        (0, 0),
        ((4, 0), (2, 0)),
        100,
        Told::Segment(&[(0, 1)], (0, 2)),
    ),
    ((0, 0), ((3, 0), (1, 0)), 100, Told::Inside(&[(0, 1)])),
    ((0, 0), ((1, 0), (0, 0)), 100, Told::Inside(&[])),
    ((0, 0), ((2, 0), (0, 0)), 100, Told::Segment(&[], (0, 1))),
    ((0, 0), ((3, 0), (0, 0)), 100, Told::Vertex(&[])),
    ((0, 0), ((2, 0), (1, 0)), 100, Told::Inside(&[])),
    ((0, 0), ((1, 0), (2, 0)), 100, Told::Inside(&[])),
    ((0, 0), ((3, 0), (2, 0)), 100, Told::Inside(&[(0, 1)])),
    ((0, 0), ((2, 0), (3, 0)), 100, Told::Inside(&[(0, 2)])),
    ((0, 0), ((4, 0), (4, 0)), 100, Told::Vertex(&[])),
    ((0, 2), ((-1, 0), (0, 0)), 100, Told::Inside(&[])),
    ((0, 2), ((-3, 0), (0, 0)), 100, Told::Vertex(&[])),
    ((0, 0), ((3, 0), (1, 0)), 0, Told::LongWord(&[])),
    ((0, 0), ((3, 0), (1, 0)), 1, Told::Inside(&[(0, 1)])),
];

// Walks on the regular octagon with sides of 2.
static OCTAGON_WALKS: [Row; 14] = [
    ((0, 0), ((2, 1), (0, 1)), 100, Told::Segment(&[], (0, 2))),
    ((0, 0), ((2, 1), (2, 1)), 100, Told::Segment(&[], (0, 3))),
    ((0, 0), ((2, 0), (2, 2)), 100, Told::Segment(&[], (0, 4))),
    ((0, 0), ((0, 0), (2, 2)), 100, Told::Segment(&[], (0, 5))),
    ((0, 0), ((0, -1), (2, 1)), 100, Told::Segment(&[], (0, 6))),
    ((0, 0), ((0, -1), (0, 1)), 100, Told::OutOfSector),
    ((0, 0), ((4, 0), (4, 4)), 100, Told::Vertex(&[])),
    ((0, 0), ((1, 0), (1, 1)), 100, Told::Inside(&[])),
    ((0, 6), ((2, 2), (0, 0)), 100, Told::Segment(&[], (0, 3))),
    ((0, 7), ((2, 2), (0, 0)), 100, Told::Segment(&[], (0, 2))),
    (
        (0, 0),
        ((4, 1), (0, 1)),
        100,
        Told::Segment(&[(0, 1)], (0, 4)),
    ),
    (
        (0, 0),
        ((4, 2), (2, 2)),
        100,
        Told::Segment(&[(0, 2)], (0, 4)),
    ),
    ((0, 0), ((4, 2), (2, 2)), 0, Told::LongWord(&[])),
    ((0, 0), ((4, 1), (2, 1)), 100, Told::Inside(&[(0, 2)])),
];

// Walks on the regular hexagon with sides of 2: its two vertices are marked points.
static HEXAGON_WALKS: [Row; 6] = [
    ((0, 0), ((2, 0), (0, 2)), 100, Told::Segment(&[], (0, 3))),
    ((0, 0), ((4, 0), (0, 4)), 100, Told::Vertex(&[])),
    ((0, 0), ((3, 0), (0, 1)), 100, Told::Segment(&[], (0, 2))),
    ((0, 0), ((6, 0), (0, 2)), 100, Told::Vertex(&[])),
    (
        (0, 0),
        ((5, 0), (0, 1)),
        100,
        Told::Segment(&[(0, 1)], (0, 3)),
    ),
    ((0, 0), ((10, 0), (0, 2)), 100, Told::Vertex(&[(0, 1)])),
];

// Walks on two unit squares side by side, with a marked point between them.
static TWO_SQUARES_WALKS: [Row; 8] = [
    ((0, 0), ((2, 0), (0, 0)), 100, Told::Vertex(&[])),
    (
        (0, 0),
        ((2, 0), (1, 0)),
        100,
        Told::Segment(&[(0, 1)], (1, 2)),
    ),
    (
        (0, 0),
        ((3, 0), (1, 0)),
        100,
        Told::Segment(&[(0, 1), (1, 1)], (0, 2)),
    ),
    (
        (0, 0),
        ((1, 0), (2, 0)),
        100,
        Told::Segment(&[(0, 2)], (0, 2)),
    ),
    (
        (1, 0),
        ((1, 0), (2, 0)),
        100,
        Told::Segment(&[(1, 2)], (1, 2)),
    ),
    (
        (1, 1),
        ((-1, 0), (2, 0)),
        100,
        Told::Segment(&[(1, 2)], (1, 3)),
    ),
    ((0, 0), ((4, 0), (2, 0)), 100, Told::Vertex(&[(0, 1)])),
    ((0, 0), ((3, 0), (1, 0)), 1, Told::LongWord(&[(0, 1)])),
];

// Walks on three unit squares: 1 is to the right of 0, 2 is above it.
static L_SHAPE_WALKS: [Row; 16] = [
    (
        (0, 0),
        ((2, 0), (1, 0)),
        100,
        Told::Segment(&[(0, 1)], (1, 2)),
    ),
    (
        (0, 0),
        ((1, 0), (2, 0)),
        100,
        Told::Segment(&[(0, 2)], (2, 2)),
    ),
    (
        (0, 0),
        ((3, 0), (1, 0)),
        100,
        Told::Segment(&[(0, 1), (1, 1)], (0, 2)),
    ),
    (
        (0, 0),
        ((3, 0), (2, 0)),
        100,
        Told::Segment(&[(0, 1), (1, 2), (1, 1)], (0, 2)),
    ),
    (
        (0, 0),
        ((2, 0), (3, 0)),
        100,
        Told::Segment(&[(0, 2), (2, 1), (2, 2)], (0, 2)),
    ),
    (
        (2, 0),
        ((2, 0), (1, 0)),
        100,
        Told::Segment(&[(2, 1)], (2, 2)),
    ),
    (
        (1, 0),
        ((1, 0), (2, 0)),
        100,
        Told::Segment(&[(1, 2)], (1, 2)),
    ),
    (
        (1, 0),
        ((2, 0), (1, 0)),
        100,
        Told::Segment(&[(1, 1)], (0, 2)),
    ),
    (
        (2, 0),
        ((1, 0), (2, 0)),
        100,
        Told::Segment(&[(2, 2)], (0, 2)),
    ),
    (
        (0, 1),
        ((-1, 0), (2, 0)),
        100,
        Told::Segment(&[(0, 2)], (2, 3)),
    ),
    (
        (0, 3),
        ((2, 0), (-1, 0)),
        100,
        Told::Segment(&[(0, 1)], (1, 1)),
    ),
    (
        (0, 2),
        ((-2, 0), (-1, 0)),
        100,
        Told::Segment(&[(0, 3)], (1, 0)),
    ),
    ((0, 0), ((4, 0), (2, 0)), 100, Told::Vertex(&[(0, 1)])),
    ((0, 0), ((1, 0), (0, 0)), 100, Told::Segment(&[], (0, 1))),
    ((0, 0), ((2, 0), (0, 0)), 100, Told::Vertex(&[])),
    ((1, 2), ((-1, 0), (0, 0)), 100, Told::Segment(&[], (1, 3))),
];

// Walks on a rectangle with a straight corner on its bottom and another on its top.
static STRAIGHT_WALKS: [Row; 13] = [
    ((0, 0), ((1, 0), (0, 0)), 100, Told::Segment(&[], (0, 1))),
    ((0, 0), ((2, 0), (0, 0)), 100, Told::Vertex(&[])),
    ((0, 0), ((2, 0), (1, 0)), 100, Told::Segment(&[], (0, 3))),
    ((0, 0), ((1, 0), (1, 0)), 100, Told::Segment(&[], (0, 4))),
    ((0, 0), ((2, 0), (2, 0)), 100, Told::Vertex(&[])),
    (
        (0, 0),
        ((1, 0), (2, 0)),
        100,
        Told::Segment(&[(0, 4)], (0, 4)),
    ),
    ((0, 1), ((0, 0), (1, 0)), 100, Told::Segment(&[], (0, 4))),
    ((0, 1), ((-1, 0), (1, 0)), 100, Told::Segment(&[], (0, 5))),
    ((0, 1), ((1, 0), (1, 0)), 100, Told::Segment(&[], (0, 3))),
    ((0, 1), ((-1, 0), (0, 0)), 100, Told::OutOfSector),
    ((0, 1), ((0, 0), (-1, 0)), 100, Told::OutOfSector),
    ((0, 4), ((0, 0), (-1, 0)), 100, Told::Segment(&[], (0, 1))),
    ((0, 4), ((0, 0), (-2, 0)), 100, Told::Vertex(&[])),
];

#[test]
fn square(rt: HostRuntime) -> Result<(), Fail> {
    expect_walks(&rt, rt.alloc(), &SQUARE, &SQUARE_WALKS)
}

#[test]
fn doubled(rt: HostRuntime) -> Result<(), Fail> {
    expect_walks(&rt, rt.alloc(), &DOUBLED, &DOUBLED_WALKS)
}

#[test]
fn octagon(rt: HostRuntime) -> Result<(), Fail> {
    expect_walks(&rt, rt.alloc(), &OCTAGON, &OCTAGON_WALKS)
}

#[test]
fn hexagon(rt: HostRuntime) -> Result<(), Fail> {
    expect_walks(&rt, rt.alloc(), &HEXAGON, &HEXAGON_WALKS)
}

#[test]
fn two_squares(rt: HostRuntime) -> Result<(), Fail> {
    expect_walks(&rt, rt.alloc(), &TWO_SQUARES, &TWO_SQUARES_WALKS)
}

#[test]
fn l_shape(rt: HostRuntime) -> Result<(), Fail> {
    expect_walks(&rt, rt.alloc(), &L_SHAPE, &L_SHAPE_WALKS)
}

#[test]
fn straight(rt: HostRuntime) -> Result<(), Fail> {
    expect_walks(&rt, rt.alloc(), &STRAIGHT, &STRAIGHT_WALKS)
}
