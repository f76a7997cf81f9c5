// The places at which the image of a position overflows: a position is the difference of two great numbers, as p + q·√2 is
// where p and q have different signs. Worked out by another program.

use crate::common::{BELOW_HALF, HALF, MOST, Places, Shown, expect_places};
use crate::plans::{L_THREE, SQUARE};
use std::test::Fail;

// On three squares along 1000·(√2 - 1)·(1,2): the first, the middle and the last place of either row, and the last positions
// that just fit.
static L_THREE_PLACES: [Places; 1] = [Places {
    v: ((-1000, 1000), (-2000, 2000)),
    images: &[
        (
            (MOST, -120307984584002255772516886238812527877),
            Shown::Overflow(1),
        ),
        (
            (
                170141183460469231731687303715884102727,
                -120307984584002255772516886238812524877,
            ),
            Shown::Overflow(3),
        ),
        (
            (
                170141183460469231731687303715884099727,
                -120307984584002255772516886238812521877,
            ),
            Shown::Overflow(5),
        ),
        (
            (
                170141183460469231731687303715884097727,
                -120307984584002255772516886238812520462,
            ),
            Shown::At((
                170141183460469231731687303715884099727,
                -120307984584002255772516886238812522462,
            )),
        ),
        (
            (
                170141183460469231731687303715884102727,
                -120307984584002255772516886238812525462,
            ),
            Shown::At((
                170141183460469231731687303715884101727,
                -120307984584002255772516886238812524462,
            )),
        ),
        (
            (-MOST, 120307984584002255772516886238812528463),
            Shown::Overflow(513),
        ),
        (
            (
                -170141183460469231731687303715884102727,
                120307984584002255772516886238812526342,
            ),
            Shown::Overflow(515),
        ),
        (
            (
                -170141183460469231731687303715884099727,
                120307984584002255772516886238812524221,
            ),
            Shown::Overflow(517),
        ),
        (
            (
                -170141183460469231731687303715884098727,
                120307984584002255772516886238812523514,
            ),
            Shown::At((-MOST, 120307984584002255772516886238812530514)),
        ),
        (
            (-MOST, 120307984584002255772516886238812529049),
            Shown::Overflow(514),
        ),
        (
            (
                -170141183460469231731687303715884104727,
                120307984584002255772516886238812528342,
            ),
            Shown::At((-MOST, 120307984584002255772516886238812529342)),
        ),
        (
            (-MOST, 120307984584002255772516886238812529342),
            Shown::Overflow(515),
        ),
        (
            (
                -170141183460469231731687303715884104727,
                120307984584002255772516886238812528635,
            ),
            Shown::At((-MOST, 120307984584002255772516886238812529635)),
        ),
    ],
}];

// On the unit square: p or q overflows, or just fits.
static SQUARE_PLACES: [Places; 2] = [
    Places {
        v: ((0, HALF), (HALF, 0)),
        images: &[
            ((-HALF, HALF), Shown::Overflow(513)),
            ((-HALF, BELOW_HALF), Shown::At((-HALF, MOST))),
            ((0, 0), Shown::At((0, HALF))),
            ((BELOW_HALF, 0), Shown::At((BELOW_HALF, HALF))),
        ],
    },
    Places {
        v: ((0, HALF), (HALF, -42535295865117307932921825928971026432)),
        images: &[
            (
                (-127605887595351923798765477786913079296, MOST),
                Shown::Overflow(1),
            ),
            (
                (-HALF, 127605887595351923798765477786913079295),
                Shown::Overflow(1),
            ),
            (
                (-BELOW_HALF, 127605887595351923798765477786913079295),
                Shown::At((-MOST, MOST)),
            ),
        ],
    },
];

#[test]
fn three_squares(rt: HostRuntime) -> Result<(), Fail> {
    expect_places(&rt, rt.alloc(), &L_THREE, &L_THREE_PLACES)
}

#[test]
fn the_unit_square(rt: HostRuntime) -> Result<(), Fail> {
    expect_places(&rt, rt.alloc(), &SQUARE, &SQUARE_PLACES)
}
