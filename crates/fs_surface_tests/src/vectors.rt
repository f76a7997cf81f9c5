// Vectors: the cross product, the dot product, the squared length, sectors, and which vectors are
// small, upper and raised.
use crate::common::{MOST, Pair, Vector, elem, field, vector};
use fs_plane::{Place, cross, dot, in_sector, norm};
use fs_quadratic::Elem;
use std::process::Abort;

// The parts of a number, or a place.
type Outcome = Result<Pair, u32>;

// d, two vectors, and their cross product, their dot product and the first one's norm, or the
// first place that overflows; computed with whole numbers of any size.
static FORMULAS: [(u16, Vector, Vector, (Outcome, Outcome, Outcome)); 15] = [
    (
        2,
        ((3, 1), (-2, 5)),
        ((7, -4), (1, 2)),
        (Ok((61, -36)), Ok((31, -4)), Ok((65, -14))),
    ),
    (
        998,
        (
            (288230376151711743, 288230376151711743),
            (288230376151711743, -288230376151711743),
        ),
        (
            (288230376151711743, 288230376151711743),
            (288230376151711743, 288230376151711743),
        ),
        (
            Ok((
                165821192474168253994134269172339705804,
                166153499473114482960054377928196098,
            )),
            Ok((
                166153499473114482960054377928196098,
                166153499473114482960054377928196098,
            )),
            Ok((165987345973641368477094323550267901902, 0)),
        ),
    ),
    (
        997,
        (
            (288230376151711743, 288230376151711743),
            (-288230376151711743, -288230376151711743),
        ),
        (
            (288230376151711743, 288230376151711743),
            (288230376151711743, 288230376151711743),
        ),
        (
            Ok((
                165821192474168253994134269172339705804,
                332306998946228965920108755856392196,
            )),
            Ok((0, 0)),
            Ok((
                165821192474168253994134269172339705804,
                332306998946228965920108755856392196,
            )),
        ),
    ),
    (
        2,
        ((18446744073709551616, 0), (0, 0)),
        ((1, 0), (18446744073709551616, 0)),
        (Err(1), Ok((18446744073709551616, 0)), Err(1)),
    ),
    (
        2,
        ((0, 0), (18446744073709551616, 0)),
        ((18446744073709551616, 0), (1, 0)),
        (Err(2), Ok((18446744073709551616, 0)), Err(2)),
    ),
    (
        2,
        ((1, 0), (18446744073709551616, 0)),
        ((1, 0), (18446744073709551616, 0)),
        (Ok((0, 0)), Err(2), Err(2)),
    ),
    (
        2,
        ((18446744073709551616, 0), (18446744073709551616, 0)),
        ((18446744073709551616, 0), (18446744073709551616, 0)),
        (Err(1), Err(1), Err(1)),
    ),
    (
        2,
        ((170141183460469231731687303715884105727, 0), (1, 0)),
        ((1, 0), (1, 0)),
        (
            Ok((170141183460469231731687303715884105726, 0)),
            Err(3),
            Err(1),
        ),
    ),
    (
        2,
        ((170141183460469231731687303715884105727, 0), (1, 0)),
        ((-1, 0), (1, 0)),
        (
            Err(3),
            Ok((-170141183460469231731687303715884105726, 0)),
            Err(1),
        ),
    ),
    (
        2,
        ((0, 170141183460469231731687303715884105727), (0, 0)),
        ((1, 0), (1, 0)),
        (
            Ok((0, 170141183460469231731687303715884105727)),
            Ok((0, 170141183460469231731687303715884105727)),
            Err(1),
        ),
    ),
    (
        2,
        ((1, 0), (1, 0)),
        ((0, 170141183460469231731687303715884105727), (0, -1)),
        (
            Err(3),
            Ok((0, 170141183460469231731687303715884105726)),
            Ok((2, 0)),
        ),
    ),
    (
        2,
        ((0, 0), (0, 0)),
        (
            (
                170141183460469231731687303715884105727,
                170141183460469231731687303715884105727,
            ),
            (
                170141183460469231731687303715884105727,
                -170141183460469231731687303715884105727,
            ),
        ),
        (Ok((0, 0)), Ok((0, 0)), Ok((0, 0))),
    ),
    (
        2,
        ((9223372036854775808, 0), (9223372036854775808, 0)),
        ((9223372036854775808, 0), (9223372036854775808, 0)),
        (Ok((0, 0)), Err(3), Err(3)),
    ),
    (
        3,
        ((9223372036854775808, 0), (9223372036854775807, 0)),
        ((9223372036854775808, 0), (9223372036854775807, 0)),
        (
            Ok((0, 0)),
            Ok((170141183460469231713240559642174554113, 0)),
            Ok((170141183460469231713240559642174554113, 0)),
        ),
    ),
    (
        3,
        (
            (2305843009213693952, 2305843009213693952),
            (2305843009213693952, 2305843009213693952),
        ),
        (
            (2305843009213693952, 2305843009213693952),
            (-2305843009213693952, 2305843009213693952),
        ),
        (
            Ok((
                -10633823966279326983230456482242756608,
                -10633823966279326983230456482242756608,
            )),
            Ok((
                31901471898837980949691369446728269824,
                10633823966279326983230456482242756608,
            )),
            Ok((
                42535295865117307932921825928971026432,
                21267647932558653966460912964485513216,
            )),
        ),
    ),
];

// d, the outgoing and the incoming side of a corner, a vector, and whether it is in the sector, or
// the first place that overflows; computed with whole numbers of any size.
static SECTORS: [(u16, Vector, Vector, Vector, Result<bool, u32>); 25] = [
    (
        2,
        ((1, 0), (0, 0)),
        ((0, 0), (-1, 0)),
        ((1, 0), (0, 0)),
        Ok(true),
    ),
    (
        2,
        ((1, 0), (0, 0)),
        ((0, 0), (-1, 0)),
        ((3, 0), (0, 0)),
        Ok(true),
    ),
    (
        2,
        ((1, 0), (0, 0)),
        ((0, 0), (-1, 0)),
        ((0, 0), (1, 0)),
        Ok(false),
    ),
    (
        2,
        ((1, 0), (0, 0)),
        ((0, 0), (-1, 0)),
        ((1, 0), (1, 0)),
        Ok(true),
    ),
    (
        2,
        ((1, 0), (0, 0)),
        ((0, 0), (-1, 0)),
        ((-1, 0), (0, 0)),
        Ok(false),
    ),
    (
        2,
        ((1, 0), (0, 0)),
        ((0, 0), (-1, 0)),
        ((0, 0), (-1, 0)),
        Ok(false),
    ),
    (
        2,
        ((1, 0), (0, 0)),
        ((0, 0), (-1, 0)),
        ((0, 0), (0, 0)),
        Ok(false),
    ),
    (
        2,
        ((1, 0), (0, 0)),
        ((0, 0), (-1, 0)),
        ((1, 0), (-1, 0)),
        Ok(false),
    ),
    (
        2,
        ((1, 0), (0, 0)),
        ((0, 0), (-1, 0)),
        ((-1, 0), (1, 0)),
        Ok(false),
    ),
    (
        2,
        ((1, 0), (0, 0)),
        ((1, 0), (0, -1)),
        ((-1, 0), (0, 2)),
        Ok(true),
    ),
    (
        2,
        ((1, 0), (0, 0)),
        ((1, 0), (0, -1)),
        ((-3, 0), (0, 2)),
        Ok(false),
    ),
    (
        2,
        ((1, 0), (0, 0)),
        ((1, 0), (0, -1)),
        ((-2, 0), (0, 2)),
        Ok(false),
    ),
    (
        2,
        ((0, 1), (2, 0)),
        ((1, 0), (-1, 0)),
        ((1, 0), (0, 1)),
        Ok(true),
    ),
    (
        2,
        ((0, 1), (2, 0)),
        ((1, 0), (-1, 0)),
        ((-1, 0), (0, -1)),
        Ok(false),
    ),
    (
        2,
        ((18446744073709551616, 0), (0, 0)),
        ((0, 0), (-1, 0)),
        ((0, 0), (18446744073709551616, 0)),
        Err(1),
    ),
    (
        2,
        ((0, 0), (18446744073709551616, 0)),
        ((-1, 0), (0, 0)),
        ((18446744073709551616, 0), (0, 0)),
        Err(2),
    ),
    (
        2,
        ((1, 0), (18446744073709551616, 0)),
        ((-1, 0), (0, 0)),
        ((18446744073709551616, 0), (1, 0)),
        Err(2),
    ),
    (
        2,
        ((170141183460469231731687303715884105727, 0), (1, 0)),
        ((0, 0), (-1, 0)),
        ((-1, 0), (1, 0)),
        Err(3),
    ),
    (
        2,
        ((18446744073709551616, 0), (0, 0)),
        ((0, 0), (-1, 0)),
        ((18446744073709551616, 0), (0, 0)),
        Err(4),
    ),
    (
        2,
        ((0, 0), (18446744073709551616, 0)),
        ((-1, 0), (0, 0)),
        ((0, 0), (18446744073709551616, 0)),
        Err(5),
    ),
    (
        2,
        ((9223372036854775808, 0), (9223372036854775808, 0)),
        ((0, 0), (-1, 0)),
        ((9223372036854775808, 0), (9223372036854775808, 0)),
        Err(6),
    ),
    (
        2,
        ((1, 0), (0, 0)),
        ((0, 0), (-18446744073709551616, 0)),
        ((18446744073709551616, 0), (1, 0)),
        Err(7),
    ),
    (
        2,
        ((1, 0), (0, 0)),
        ((-18446744073709551616, 0), (-1, 0)),
        ((0, 0), (18446744073709551616, 0)),
        Err(8),
    ),
    (
        2,
        ((1, 0), (0, 0)),
        ((-1, 0), (-170141183460469231731687303715884105727, 0)),
        ((1, 0), (1, 0)),
        Ok(true),
    ),
    (
        2,
        ((1, 0), (0, 0)),
        ((1, 0), (-170141183460469231731687303715884105727, 0)),
        ((1, 0), (1, 0)),
        Err(9),
    ),
];

// The greatest part of a small number, 2^58 - 1.
const MOST_SMALL: i128 = 288230376151711743;

// A vector, and whether its first and its second coordinate is small.
static SIZES: [(Vector, bool, bool); 8] = [
    (((0, 0), (0, 0)), true, true),
    (
        ((MOST_SMALL, -MOST_SMALL), (-MOST_SMALL, MOST_SMALL)),
        true,
        true,
    ),
    (((MOST_SMALL + 1, 0), (0, 0)), false, true),
    (((0, -MOST_SMALL - 1), (0, 0)), false, true),
    (((0, 0), (-MOST_SMALL - 1, 0)), true, false),
    (((0, 0), (0, MOST_SMALL + 1)), true, false),
    (((-MOST, 0), (0, MOST)), false, false),
    (((0, MOST), (-MOST, 0)), false, false),
];

// A vector over the field of √2, whether it is upper, and whether it is raised.
static UPPER_AND_RAISED: [(Vector, bool, bool); 7] = [
    (((0, 0), (0, 0)), false, false),
    (((1, 0), (0, 0)), true, false),
    (((-1, 0), (0, 0)), false, true),
    (((3, -2), (0, 0)), true, false),
    (((1, -1), (0, 0)), false, true),
    (((-5, 0), (-1, 1)), true, true),
    (((5, 0), (1, -1)), false, false),
];

// That what a call returned for a row is the number of these parts, or the place of this number.
fn expect(rt: &impl Abort, row: usize, returned: Result<Elem, Place>, outcome: Outcome) {
    let expected = match outcome {
        Ok(parts) => Ok(elem(rt, parts)),
        Err(place) => Err(Place(place)),
    };
    assert_eq!(rt; returned, expected, "row {row}");
}

#[test]
fn formulas_and_their_places(rt: HostRuntime) {
    for (row, (d, a, b, (across, along, length))) in FORMULAS.iter().enumerate() {
        let field = field(&rt, *d);
        let (v, w) = (vector(&rt, *a), vector(&rt, *b));
        expect(&rt, row, cross(field, v, w), *across);
        expect(&rt, row, dot(field, v, w), *along);
        expect(&rt, row, norm(field, v), *length);
    }
}

// That what a call returned for a row is this, or the place of this number.
fn expect_sector(
    rt: &impl Abort,
    row: usize,
    returned: Result<bool, Place>,
    outcome: Result<bool, u32>,
) {
    let expected = match outcome {
        Ok(inside) => Ok(inside),
        Err(place) => Err(Place(place)),
    };
    assert_eq!(rt; returned, expected, "row {row}");
}

#[test]
fn sectors_and_their_places(rt: HostRuntime) {
    for (row, (d, out, incoming, v, expected)) in SECTORS.iter().enumerate() {
        let result = in_sector(
            field(&rt, *d),
            vector(&rt, *out),
            vector(&rt, *incoming),
            vector(&rt, *v),
        );
        expect_sector(&rt, row, result, *expected);
    }
}

#[test]
fn small_vectors(rt: HostRuntime) {
    for (row, (parts, x, y)) in SIZES.iter().enumerate() {
        let v = vector(&rt, *parts);
        assert!(rt; v.x.is_small() == *x && v.y.is_small() == *y, "row {row}");
        assert!(rt; v.is_small() == (*x && *y), "row {row}");
    }
}

#[test]
fn upper_and_raised_vectors(rt: HostRuntime) {
    let field = field(&rt, 2);
    for (row, (parts, upper, raised)) in UPPER_AND_RAISED.iter().enumerate() {
        let v = vector(&rt, *parts);
        assert!(rt; v.is_upper(field) == *upper, "row {row}");
        assert!(rt; v.is_raised(field) == *raised, "row {row}");
    }
}
