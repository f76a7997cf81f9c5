// Exchanges with numbers near ±(2^127 - 1), worked out by another program as those of small numbers.

use crate::common::{BELOW_HALF, HALF, MOST, Told, expect_exchanges};
use crate::plans::SQUARE;
use crate::wide_plans::{LONG_FITTING, TALL_FITTING};
use std::test::Fail;

// On the unit square, with lengths of about 2^127.
static SQUARE_EXCHANGES: [Told; 3] = [
    Told {
        v: ((-BELOW_HALF, 0), (HALF, 0)),
        total: (MOST, 0),
        letters: &[
            (
                (BELOW_HALF, 0),
                ((-1, 0), (0, 0)),
                (0, 1),
                (((-1, 0), (0, 0)), true),
                (((0, 0), (0, 0)), false),
            ),
            (
                (HALF, 0),
                ((0, 0), (1, 0)),
                (0, 0),
                (((0, 0), (0, 0)), false),
                (((0, 0), (1, 0)), true),
            ),
        ],
        bottom: &[1, 0],
    },
    Told {
        v: ((0, MOST), (MOST, 0)),
        total: (MOST, MOST),
        letters: &[
            (
                (MOST, 0),
                ((0, 0), (1, 0)),
                (0, 0),
                (((0, 0), (0, 0)), true),
                (((0, 0), (1, 0)), false),
            ),
            (
                (0, MOST),
                ((1, 0), (0, 0)),
                (0, 3),
                (((0, 0), (-1, 0)), false),
                (((1, 0), (1, 0)), true),
            ),
        ],
        bottom: &[1, 0],
    },
    Told {
        v: (
            (-BELOW_HALF, 42535295865117307932921825928971026432),
            (HALF, -42535295865117307932921825928971026432),
        ),
        total: (MOST, -HALF),
        letters: &[
            (
                (BELOW_HALF, -42535295865117307932921825928971026432),
                ((-1, 0), (0, 0)),
                (0, 1),
                (((-1, 0), (0, 0)), true),
                (((0, 0), (0, 0)), false),
            ),
            (
                (HALF, -42535295865117307932921825928971026432),
                ((0, 0), (1, 0)),
                (0, 0),
                (((0, 0), (0, 0)), false),
                (((0, 0), (1, 0)), true),
            ),
        ],
        bottom: &[1, 0],
    },
];

// On two rectangles that are together as long as a number can be.
static LONG_FITTING_EXCHANGES: [Told; 2] = [
    Told {
        v: ((1, 0), (0, 0)),
        total: (2, 0),
        letters: &[
            (
                (1, 0),
                ((0, 0), (0, 0)),
                (1, 3),
                (((0, 0), (-1, 0)), false),
                (((0, 0), (1, 0)), false),
            ),
            (
                (1, 0),
                ((MOST, 0), (0, 0)),
                (0, 2),
                (((BELOW_HALF, 0), (-1, 0)), false),
                (((HALF, 0), (1, 0)), false),
            ),
        ],
        bottom: &[1, 0],
    },
    Told {
        v: ((-1, 0), (0, 0)),
        total: (2, 0),
        letters: &[
            (
                (1, 0),
                ((-MOST, 0), (0, 0)),
                (1, 1),
                (((-HALF, 0), (0, 0)), false),
                (((-BELOW_HALF, 0), (0, 0)), false),
            ),
            (
                (1, 0),
                ((0, 0), (0, 0)),
                (0, 0),
                (((0, 0), (0, 0)), false),
                (((0, 0), (0, 0)), false),
            ),
        ],
        bottom: &[1, 0],
    },
];

// On two rectangles that are together as high as a number can be.
static TALL_FITTING_EXCHANGES: [Told; 2] = [
    Told {
        v: ((0, 0), (1, 0)),
        total: (2, 0),
        letters: &[
            (
                (1, 0),
                ((0, 0), (0, 0)),
                (1, 3),
                (((1, 0), (0, 0)), false),
                (((-1, 0), (0, 0)), false),
            ),
            (
                (1, 0),
                ((0, 0), (MOST, 0)),
                (0, 2),
                (((1, 0), (BELOW_HALF, 0)), false),
                (((-1, 0), (HALF, 0)), false),
            ),
        ],
        bottom: &[1, 0],
    },
    Told {
        v: ((0, 0), (-1, 0)),
        total: (2, 0),
        letters: &[
            (
                (1, 0),
                ((0, 0), (-MOST, 0)),
                (1, 1),
                (((0, 0), (-HALF, 0)), false),
                (((0, 0), (-BELOW_HALF, 0)), false),
            ),
            (
                (1, 0),
                ((0, 0), (0, 0)),
                (0, 0),
                (((0, 0), (0, 0)), false),
                (((0, 0), (0, 0)), false),
            ),
        ],
        bottom: &[1, 0],
    },
];

#[test]
fn large_lengths(rt: HostRuntime) -> Result<(), Fail> {
    expect_exchanges(&rt, rt.alloc(), &SQUARE, &SQUARE_EXCHANGES)
}

#[test]
fn a_long_return_vector(rt: HostRuntime) -> Result<(), Fail> {
    expect_exchanges(&rt, rt.alloc(), &LONG_FITTING, &LONG_FITTING_EXCHANGES)
}

#[test]
fn a_high_return_vector(rt: HostRuntime) -> Result<(), Fail> {
    expect_exchanges(&rt, rt.alloc(), &TALL_FITTING, &TALL_FITTING_EXCHANGES)
}
