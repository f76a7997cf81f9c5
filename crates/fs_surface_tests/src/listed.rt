// Vectors that are kept in lists, and their order.
use crate::common::{MOST, Vector, field, vector};
use fs_plane::{Corner, Listed, Place, V2};
use std::cmp::Ordering;
use std::process::Abort;

// A vector, and whether it is kept, or the place of its first part that is over 2^57 = 144115188075855872 in size.
static KEPT: [(Vector, Result<(), u32>); 13] = [
    (
        (
            (144115188075855872, -144115188075855872),
            (-144115188075855872, 144115188075855872),
        ),
        Ok(()),
    ),
    (((1, 0), (0, 0)), Ok(())),
    (((144115188075855873, 0), (0, 0)), Err(1)),
    (((-144115188075855873, 0), (0, 0)), Err(1)),
    (((0, 144115188075855873), (0, 0)), Err(2)),
    (((0, -144115188075855873), (0, 0)), Err(2)),
    (((0, 0), (144115188075855873, 0)), Err(3)),
    (((0, 0), (-144115188075855873, 0)), Err(3)),
    (((0, 0), (0, 144115188075855873)), Err(4)),
    (((0, 0), (0, -144115188075855873)), Err(4)),
    (
        (
            (144115188075855872, 144115188075855872),
            (144115188075855873, 144115188075855873),
        ),
        Err(3),
    ),
    (
        (
            (144115188075855872, -144115188075855873),
            (-144115188075855873, 0),
        ),
        Err(2),
    ),
    (((-MOST, MOST), (MOST, -MOST)), Err(1)),
];

// d, a vector, and the polygon and side of the corner from which it leads; each before the next in the order: by d, then
// counterclockwise from (1,0), then by length, then by corner.
static ASCENDING: [(u16, Vector, (u16, u16)); 28] = [
    (2, ((1, 0), (0, 0)), (0, 0)),
    (2, ((1, 0), (0, 0)), (0, 1)),
    (2, ((1, 0), (0, 0)), (1, 0)),
    (2, ((0, 1), (0, 0)), (0, 0)),
    (2, ((144115188075855872, 0), (0, 0)), (0, 0)),
    (2, ((144115188075855872, 0), (1, 0)), (0, 0)),
    (2, ((5, 0), (1, 0)), (0, 0)),
    (2, ((17, 0), (12, 0)), (0, 0)),
    (2, ((0, 1), (1, 0)), (0, 0)),
    (2, ((7, 0), (5, 0)), (0, 0)),
    (2, ((-1, 1), (-1, 1)), (3, 5)),
    (2, ((1, 0), (1, 0)), (3, 4)),
    (2, ((1, 0), (1, 0)), (3, 5)),
    (2, ((0, 1), (0, 1)), (0, 0)),
    (2, ((2, 0), (2, 0)), (0, 0)),
    (2, ((0, 0), (1, 0)), (0, 0)),
    (2, ((-1, 0), (1, 0)), (0, 0)),
    (2, ((-144115188075855872, 0), (1, 0)), (0, 0)),
    (2, ((-1, 0), (0, 0)), (65535, 65535)),
    (2, ((-2, 0), (0, 0)), (0, 0)),
    (2, ((-144115188075855872, 0), (-1, 0)), (0, 0)),
    (2, ((-1, 0), (-1, 0)), (0, 0)),
    (2, ((0, 0), (-1, 0)), (0, 0)),
    (2, ((1, 0), (-1, 0)), (0, 0)),
    (2, ((144115188075855872, 0), (-1, 0)), (0, 0)),
    (3, ((1, 0), (0, 0)), (0, 0)),
    (
        3,
        (
            (144115188075855872, 144115188075855872),
            (144115188075855872, 144115188075855872),
        ),
        (0, 0),
    ),
    (5, ((1, 0), (0, 0)), (0, 0)),
];

#[test]
fn parts_that_are_kept(rt: HostRuntime) {
    let (of, start) = (field(&rt, 7), Corner::new(3, 5));
    for (row, (parts, expected)) in KEPT.iter().enumerate() {
        let v = vector(&rt, *parts);
        assert!(rt; v != V2::ZERO);
        let same = match (Listed::keep(of, v, start), *expected) {
            (Ok(listed), Ok(())) => {
                listed.field() == of && listed.v() == v && listed.start() == start
            }
            (Err(Place(place)), Err(number)) => place == number,
            _ => false,
        };
        assert!(rt; same, "row {row}");
    }
}

// The listed vector of a row.
fn listed(rt: &impl Abort, row: &(u16, Vector, (u16, u16))) -> Listed {
    let v = vector(rt, row.1);
    assert!(rt; v != V2::ZERO);
    let start = Corner::new(row.2.0, row.2.1);
    Listed::keep(field(rt, row.0), v, start).expect(rt, "small parts")
}

// That the vector of a row compares with each of the table as their rows do.
fn expect_in_order(rt: &impl Abort, row: usize, a: &Listed) {
    for (other, parts) in ASCENDING.iter().enumerate() {
        let b = listed(rt, parts);
        let expected = row.cmp(&other);
        assert!(rt; a.cmp(&b) == expected, "row {row} with {other}");
        assert!(rt;
            a.partial_cmp(&b) == Some(expected),
            "row {row} with {other}"
        );
        assert!(rt;
            (*a == b) == (expected == Ordering::Equal),
            "row {row} with {other}"
        );
    }
}

#[test]
fn order_of_listed_vectors(rt: HostRuntime) {
    for (row, parts) in ASCENDING.iter().enumerate() {
        expect_in_order(&rt, row, &listed(&rt, parts));
    }
}
