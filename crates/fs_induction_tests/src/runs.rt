// The runs of the induction to their ends, worked out by another program, which follows the definition of each event.

use crate::common::ToldEvent::{Closed, Merged, Split, Won};
use crate::common::{Told, ToldPart, expect_runs};
use crate::plans::{GOLDEN_SQUARE, L_THREE, ROOT_HEXAGON, SLIT, SQUARE, STACK};
use std::test::Fail;

// On the unit square: along a side, along diagonals, and along (1, √2), where the run closes as a loop from state 3 to 7.
pub static SQUARE_RUNS: [Told; 5] = [
    Told {
        plan: &SQUARE,
        v: ((1, 0), (0, 0)),
        steps: 0,
        events: &[Closed],
        parts: &[ToldPart {
            base: (0, 0),
            width: (1, 0),
            letters: &[((1, 0), ((1, 0), (0, 0)))],
            looped: None,
        }],
    },
    Told {
        plan: &SQUARE,
        v: ((0, 0), (1, 0)),
        steps: 0,
        events: &[Closed],
        parts: &[ToldPart {
            base: (0, 0),
            width: (1, 0),
            letters: &[((1, 0), ((0, 0), (1, 0)))],
            looped: None,
        }],
    },
    Told {
        plan: &SQUARE,
        v: ((1, 0), (1, 0)),
        steps: 1,
        events: &[Merged((1, 0), Some(((0, 0), ((1, 0), (1, 0))))), Closed],
        parts: &[ToldPart {
            base: (0, 0),
            width: (1, 0),
            letters: &[((1, 0), ((1, 0), (1, 0)))],
            looped: None,
        }],
    },
    Told {
        plan: &SQUARE,
        v: ((2, 0), (1, 0)),
        steps: 2,
        events: &[
            Won(true, (1, 0)),
            Merged((1, 0), Some(((0, 0), ((2, 0), (1, 0))))),
            Closed,
        ],
        parts: &[ToldPart {
            base: (0, 0),
            width: (1, 0),
            letters: &[((1, 0), ((2, 0), (1, 0)))],
            looped: None,
        }],
    },
    Told {
        plan: &SQUARE,
        v: ((1, 0), (0, 1)),
        steps: 7,
        events: &[
            Won(false, (-1, 1)),
            Won(true, (2, -1)),
            Won(true, (3, -2)),
            Won(false, (-4, 3)),
            Won(false, (-7, 5)),
            Won(true, (10, -7)),
            Won(true, (17, -12)),
            Closed,
        ],
        parts: &[ToldPart {
            base: (0, 0),
            width: (10, -7),
            letters: &[((-7, 5), ((12, 0), (17, 0))), ((17, -12), ((5, 0), (7, 0)))],
            looped: Some((3, 7)),
        }],
    },
];

// On the L of three squares: splits at the beginning, after merges, and before other steps, with connections and without. On a stack of squares, which can be split in two places.
pub static L_RUNS: [Told; 5] = [
    Told {
        plan: &L_THREE,
        v: ((1, 0), (0, 0)),
        steps: 1,
        events: &[Split(2, None), Closed, Merged((1, 0), None), Closed],
        parts: &[
            ToldPart {
                base: (0, 0),
                width: (1, 0),
                letters: &[((1, 0), ((2, 0), (0, 0)))],
                looped: None,
            },
            ToldPart {
                base: (2, 0),
                width: (1, 0),
                letters: &[((1, 0), ((1, 0), (0, 0)))],
                looped: None,
            },
        ],
    },
    Told {
        plan: &L_THREE,
        v: ((0, 0), (1, 0)),
        steps: 1,
        events: &[Merged((1, 0), None), Split(1, None), Closed, Closed],
        parts: &[
            ToldPart {
                base: (0, 0),
                width: (1, 0),
                letters: &[((1, 0), ((0, 0), (2, 0)))],
                looped: None,
            },
            ToldPart {
                base: (1, 0),
                width: (1, 0),
                letters: &[((1, 0), ((0, 0), (1, 0)))],
                looped: None,
            },
        ],
    },
    Told {
        plan: &L_THREE,
        v: ((2, 0), (1, 0)),
        steps: 7,
        events: &[
            Won(true, (1, 0)),
            Merged((1, 0), Some(((2, 0), ((2, 0), (1, 0))))),
            Merged((1, 0), None),
            Won(true, (1, 0)),
            Won(false, (1, 0)),
            Merged((1, 0), None),
            Merged((1, 0), Some(((0, 0), ((2, 0), (1, 0))))),
            Split(1, Some(((1, 0), ((2, 0), (1, 0))))),
            Closed,
            Closed,
        ],
        parts: &[
            ToldPart {
                base: (0, 0),
                width: (1, 0),
                letters: &[((1, 0), ((4, 0), (2, 0)))],
                looped: None,
            },
            ToldPart {
                base: (1, 0),
                width: (1, 0),
                letters: &[((1, 0), ((2, 0), (1, 0)))],
                looped: None,
            },
        ],
    },
    Told {
        plan: &L_THREE,
        v: ((3, 0), (2, 0)),
        steps: 10,
        events: &[
            Won(true, (1, 0)),
            Won(false, (1, 0)),
            Won(true, (1, 0)),
            Merged((1, 0), None),
            Won(true, (1, 0)),
            Won(false, (2, 0)),
            Merged((2, 0), None),
            Merged((1, 0), Some(((2, 0), ((3, 0), (2, 0))))),
            Split(1, Some(((1, 0), ((3, 0), (2, 0))))),
            Won(true, (1, 0)),
            Merged((1, 0), Some(((0, 0), ((3, 0), (2, 0))))),
            Closed,
            Closed,
        ],
        parts: &[
            ToldPart {
                base: (0, 0),
                width: (1, 0),
                letters: &[((1, 0), ((3, 0), (2, 0)))],
                looped: None,
            },
            ToldPart {
                base: (1, 0),
                width: (1, 0),
                letters: &[((1, 0), ((6, 0), (4, 0)))],
                looped: None,
            },
        ],
    },
    Told {
        plan: &STACK,
        v: ((1, 0), (0, 0)),
        steps: 0,
        events: &[Split(2, None), Closed, Split(1, None), Closed, Closed],
        parts: &[
            ToldPart {
                base: (0, 0),
                width: (1, 0),
                letters: &[((1, 0), ((1, 0), (0, 0)))],
                looped: None,
            },
            ToldPart {
                base: (1, 0),
                width: (1, 0),
                letters: &[((1, 0), ((1, 0), (0, 0)))],
                looped: None,
            },
            ToldPart {
                base: (2, 0),
                width: (1, 0),
                letters: &[((1, 0), ((1, 0), (0, 0)))],
                looped: None,
            },
        ],
    },
];

// Loops: of golden lengths, of the left of two tori, of which the right one is a cylinder, and of three letters, whose rows come back several times without the proportion.
static LOOPED_RUNS: [Told; 3] = [
    Told {
        plan: &GOLDEN_SQUARE,
        v: ((2, 0), (1, 1)),
        steps: 3,
        events: &[
            Won(false, (-1, 1)),
            Won(true, (3, -1)),
            Won(false, (-4, 2)),
            Closed,
        ],
        parts: &[ToldPart {
            base: (0, 0),
            width: (-1, 1),
            letters: &[((-4, 2), ((1, 0), (2, 0))), ((3, -1), ((2, 0), (3, 0)))],
            looped: Some((1, 3)),
        }],
    },
    Told {
        plan: &SLIT,
        v: ((1, 0), (0, 0)),
        steps: 8,
        events: &[
            Split(2, None),
            Merged((1, 0), Some(((1, 5), ((2, 0), (0, 0))))),
            Closed,
            Won(false, (-1, 1)),
            Won(true, (2, -1)),
            Won(true, (3, -2)),
            Won(false, (-4, 3)),
            Won(false, (-7, 5)),
            Won(true, (10, -7)),
            Won(true, (17, -12)),
            Closed,
        ],
        parts: &[
            ToldPart {
                base: (0, 0),
                width: (10, -7),
                letters: &[
                    ((-7, 5), ((46, 0), (17, -12))),
                    ((17, -12), ((19, 0), (7, -5))),
                ],
                looped: Some((3, 7)),
            },
            ToldPart {
                base: (1, 1),
                width: (1, 0),
                letters: &[((1, 0), ((3, 0), (0, 0)))],
                looped: None,
            },
        ],
    },
    Told {
        plan: &ROOT_HEXAGON,
        v: ((-2, -1), (-1, 0)),
        steps: 25,
        events: &[
            Won(true, (0, 1)),
            Won(false, (2, 0)),
            Won(false, (2, -1)),
            Won(true, (-2, 2)),
            Won(true, (-3, 2)),
            Won(true, (-5, 3)),
            Won(false, (6, -3)),
            Won(false, (4, -2)),
            Won(false, (9, -5)),
            Won(false, (7, -4)),
            Won(true, (-12, 7)),
            Won(false, (14, -8)),
            Won(false, (26, -15)),
            Won(true, (-38, 22)),
            Won(true, (-45, 26)),
            Won(true, (-71, 41)),
            Won(false, (78, -45)),
            Won(false, (52, -30)),
            Won(false, (123, -71)),
            Won(false, (97, -56)),
            Won(true, (-168, 97)),
            Won(false, (194, -112)),
            Won(false, (362, -209)),
            Won(true, (-530, 306)),
            Won(true, (-627, 362)),
            Closed,
        ],
        parts: &[ToldPart {
            base: (0, 0),
            width: (-168, 97),
            letters: &[
                ((97, -56), ((-1351, 0), (-362, 0))),
                ((362, -209), ((-1351, 0), (-362, 0))),
                ((-627, 362), ((-989, 0), (-265, 0))),
            ],
            looped: Some((15, 25)),
        }],
    },
];

#[test]
fn the_square(rt: HostRuntime) -> Result<(), Fail> {
    expect_runs(&rt, rt.alloc(), &SQUARE_RUNS)
}

#[test]
fn three_squares(rt: HostRuntime) -> Result<(), Fail> {
    expect_runs(&rt, rt.alloc(), &L_RUNS)
}

#[test]
fn loops(rt: HostRuntime) -> Result<(), Fail> {
    expect_runs(&rt, rt.alloc(), &LOOPED_RUNS)
}
