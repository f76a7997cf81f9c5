// Surfaces with sides of about 2^126, and small ones for sites: none of them is refused as it is built.

use crate::common::{BELOW_HALF, HALF, Plan};

// A square with sides of 2.
pub static DOUBLED: Plan = Plan {
    d: 2,
    polygons: &[&[
        ((2, 0, 1), (0, 0, 1)),
        ((0, 0, 1), (2, 0, 1)),
        ((-2, 0, 1), (0, 0, 1)),
        ((0, 0, 1), (-2, 0, 1)),
    ]],
    glues: &[((0, 0), (0, 2)), ((0, 1), (0, 3))],
    straight: false,
};

// A parallelogram of (1,1) and (0,1).
pub static SLANTED: Plan = Plan {
    d: 2,
    polygons: &[&[
        ((1, 0, 1), (1, 0, 1)),
        ((0, 0, 1), (1, 0, 1)),
        ((-1, 0, 1), (-1, 0, 1)),
        ((0, 0, 1), (-1, 0, 1)),
    ]],
    glues: &[((0, 0), (0, 2)), ((0, 1), (0, 3))],
    straight: false,
};

// A parallelogram of (1,0) and (1,1).
pub static LEANING: Plan = Plan {
    d: 2,
    polygons: &[&[
        ((1, 0, 1), (0, 0, 1)),
        ((1, 0, 1), (1, 0, 1)),
        ((-1, 0, 1), (0, 0, 1)),
        ((-1, 0, 1), (-1, 0, 1)),
    ]],
    glues: &[((0, 0), (0, 2)), ((0, 1), (0, 3))],
    straight: false,
};

// Two rectangles of 2^126 by 1: corner 0 of the first one is at its right end, that of the second at its left.
pub static LONG_PAIR: Plan = Plan {
    d: 2,
    polygons: &[
        &[
            ((0, 0, 1), (1, 0, 1)),
            ((-HALF, 0, 1), (0, 0, 1)),
            ((0, 0, 1), (-1, 0, 1)),
            ((HALF, 0, 1), (0, 0, 1)),
        ],
        &[
            ((HALF, 0, 1), (0, 0, 1)),
            ((0, 0, 1), (1, 0, 1)),
            ((-HALF, 0, 1), (0, 0, 1)),
            ((0, 0, 1), (-1, 0, 1)),
        ],
    ],
    glues: &[
        ((1, 0), (1, 2)),
        ((0, 1), (0, 3)),
        ((1, 1), (0, 2)),
        ((0, 0), (1, 3)),
    ],
    straight: false,
};

// The same, the polygons swapped.
pub static LONG_SWAPPED: Plan = Plan {
    d: 2,
    polygons: &[
        &[
            ((HALF, 0, 1), (0, 0, 1)),
            ((0, 0, 1), (1, 0, 1)),
            ((-HALF, 0, 1), (0, 0, 1)),
            ((0, 0, 1), (-1, 0, 1)),
        ],
        &[
            ((0, 0, 1), (1, 0, 1)),
            ((-HALF, 0, 1), (0, 0, 1)),
            ((0, 0, 1), (-1, 0, 1)),
            ((HALF, 0, 1), (0, 0, 1)),
        ],
    ],
    glues: &[
        ((0, 0), (0, 2)),
        ((1, 1), (1, 3)),
        ((0, 1), (1, 2)),
        ((1, 0), (0, 3)),
    ],
    straight: false,
};

// The same, the first one shorter by 1: together they are as long as a number can be.
pub static LONG_FITTING: Plan = Plan {
    d: 2,
    polygons: &[
        &[
            ((0, 0, 1), (1, 0, 1)),
            ((-BELOW_HALF, 0, 1), (0, 0, 1)),
            ((0, 0, 1), (-1, 0, 1)),
            ((BELOW_HALF, 0, 1), (0, 0, 1)),
        ],
        &[
            ((HALF, 0, 1), (0, 0, 1)),
            ((0, 0, 1), (1, 0, 1)),
            ((-HALF, 0, 1), (0, 0, 1)),
            ((0, 0, 1), (-1, 0, 1)),
        ],
    ],
    glues: &[
        ((1, 0), (1, 2)),
        ((0, 1), (0, 3)),
        ((1, 1), (0, 2)),
        ((0, 0), (1, 3)),
    ],
    straight: false,
};

// Two rectangles of 1 by 2^126: corner 0 of the first one is at its upper end, that of the second at its lower.
pub static TALL_PAIR: Plan = Plan {
    d: 2,
    polygons: &[
        &[
            ((-1, 0, 1), (0, 0, 1)),
            ((0, 0, 1), (-HALF, 0, 1)),
            ((1, 0, 1), (0, 0, 1)),
            ((0, 0, 1), (HALF, 0, 1)),
        ],
        &[
            ((0, 0, 1), (HALF, 0, 1)),
            ((-1, 0, 1), (0, 0, 1)),
            ((0, 0, 1), (-HALF, 0, 1)),
            ((1, 0, 1), (0, 0, 1)),
        ],
    ],
    glues: &[
        ((1, 0), (1, 2)),
        ((0, 1), (0, 3)),
        ((1, 1), (0, 2)),
        ((0, 0), (1, 3)),
    ],
    straight: false,
};

// The same, the first one shorter by 1.
pub static TALL_FITTING: Plan = Plan {
    d: 2,
    polygons: &[
        &[
            ((-1, 0, 1), (0, 0, 1)),
            ((0, 0, 1), (-BELOW_HALF, 0, 1)),
            ((1, 0, 1), (0, 0, 1)),
            ((0, 0, 1), (BELOW_HALF, 0, 1)),
        ],
        &[
            ((0, 0, 1), (HALF, 0, 1)),
            ((-1, 0, 1), (0, 0, 1)),
            ((0, 0, 1), (-HALF, 0, 1)),
            ((1, 0, 1), (0, 0, 1)),
        ],
    ],
    glues: &[
        ((1, 0), (1, 2)),
        ((0, 1), (0, 3)),
        ((1, 1), (0, 2)),
        ((0, 0), (1, 3)),
    ],
    straight: false,
};

// Two parallelograms of (2^126, 2^126) and (0,1).
pub static STEEP_PAIR: Plan = Plan {
    d: 2,
    polygons: &[
        &[
            ((0, 0, 1), (1, 0, 1)),
            ((-HALF, 0, 1), (-HALF, 0, 1)),
            ((0, 0, 1), (-1, 0, 1)),
            ((HALF, 0, 1), (HALF, 0, 1)),
        ],
        &[
            ((HALF, 0, 1), (HALF, 0, 1)),
            ((0, 0, 1), (1, 0, 1)),
            ((-HALF, 0, 1), (-HALF, 0, 1)),
            ((0, 0, 1), (-1, 0, 1)),
        ],
    ],
    glues: &[
        ((1, 0), (1, 2)),
        ((0, 1), (0, 3)),
        ((1, 1), (0, 2)),
        ((0, 0), (1, 3)),
    ],
    straight: false,
};

// Two rectangles of 2^126·√2 by 1.
pub static ROOT_PAIR: Plan = Plan {
    d: 2,
    polygons: &[
        &[
            ((0, 0, 1), (1, 0, 1)),
            ((0, -HALF, 1), (0, 0, 1)),
            ((0, 0, 1), (-1, 0, 1)),
            ((0, HALF, 1), (0, 0, 1)),
        ],
        &[
            ((0, HALF, 1), (0, 0, 1)),
            ((0, 0, 1), (1, 0, 1)),
            ((0, -HALF, 1), (0, 0, 1)),
            ((0, 0, 1), (-1, 0, 1)),
        ],
    ],
    glues: &[
        ((1, 0), (1, 2)),
        ((0, 1), (0, 3)),
        ((1, 1), (0, 2)),
        ((0, 0), (1, 3)),
    ],
    straight: false,
};

// A hexagon whose width is more than 2^127.
pub static WIDE_HEXAGON: Plan = Plan {
    d: 2,
    polygons: &[&[
        ((127605887595351923798765477786913079296, 0, 1), (1, 0, 1)),
        ((0, 0, 1), (1, 0, 1)),
        ((-127605887595351923798765477786913079296, 0, 1), (0, 0, 1)),
        ((-127605887595351923798765477786913079296, 0, 1), (-1, 0, 1)),
        ((0, 0, 1), (-1, 0, 1)),
        ((127605887595351923798765477786913079296, 0, 1), (0, 0, 1)),
    ]],
    glues: &[((0, 0), (0, 3)), ((0, 1), (0, 4)), ((0, 2), (0, 5))],
    straight: false,
};

// The same, turned by a right angle.
pub static TALL_HEXAGON: Plan = Plan {
    d: 2,
    polygons: &[&[
        ((-1, 0, 1), (127605887595351923798765477786913079296, 0, 1)),
        ((-1, 0, 1), (0, 0, 1)),
        ((0, 0, 1), (-127605887595351923798765477786913079296, 0, 1)),
        ((1, 0, 1), (-127605887595351923798765477786913079296, 0, 1)),
        ((1, 0, 1), (0, 0, 1)),
        ((0, 0, 1), (127605887595351923798765477786913079296, 0, 1)),
    ]],
    glues: &[((0, 0), (0, 3)), ((0, 1), (0, 4)), ((0, 2), (0, 5))],
    straight: false,
};

// Four parallelograms along (1,1), with sides of about 2^126: the second and the third are together too high, the fourth and the
// first too wide.
pub static STEEP_RING: Plan = Plan {
    d: 2,
    polygons: &[
        &[
            ((0, 0, 1), (1, 0, 1)),
            ((-HALF, 0, 1), (-BELOW_HALF, 0, 1)),
            ((0, 0, 1), (-1, 0, 1)),
            ((HALF, 0, 1), (BELOW_HALF, 0, 1)),
        ],
        &[
            ((HALF, 0, 1), (HALF, 0, 1)),
            ((0, 0, 1), (1, 0, 1)),
            ((-HALF, 0, 1), (-HALF, 0, 1)),
            ((0, 0, 1), (-1, 0, 1)),
        ],
        &[
            ((0, 0, 1), (1, 0, 1)),
            ((-BELOW_HALF, 0, 1), (-HALF, 0, 1)),
            ((0, 0, 1), (-1, 0, 1)),
            ((BELOW_HALF, 0, 1), (HALF, 0, 1)),
        ],
        &[
            ((HALF, 0, 1), (HALF, 0, 1)),
            ((0, 0, 1), (1, 0, 1)),
            ((-HALF, 0, 1), (-HALF, 0, 1)),
            ((0, 0, 1), (-1, 0, 1)),
        ],
    ],
    glues: &[
        ((0, 1), (0, 3)),
        ((1, 0), (1, 2)),
        ((2, 1), (2, 3)),
        ((3, 0), (3, 2)),
        ((0, 0), (1, 3)),
        ((1, 1), (2, 2)),
        ((2, 0), (3, 3)),
        ((3, 1), (0, 2)),
    ],
    straight: false,
};
