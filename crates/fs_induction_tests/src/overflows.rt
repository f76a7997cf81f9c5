// The first place at which an event overflows: one of each kind, and each on the same surface turned by a right angle too,
// where x and y change places.

use crate::common::{Plan, SHORT, U, Vector, run_of, state_of, step_of};
use crate::plans::{GOLDEN_SQUARE, HEXAGON, SQUARE};
use crate::wide_plans::{
    CHORD, CHORD_BELOW, OCTAGON, REST, SLANTED, SUM, TALL_LEFT, WIDE, WIDE_PAIR,
};
use fs_plane::{Place, Site, Stop};
use fs_rauzy::State;
use std::alloc::Global;
use std::process::Abort;
use std::test::Fail;

// A surface, a direction, the number of an event, the place at which it overflows, and the place on the turned surface.
type Row = (&'static Plan, Vector, u32, u32, u32);

static OVERFLOWS: [Row; 16] = [
    // The winner's new length, where the bottom row wins, and where the top row does.
    (
        &SQUARE,
        ((1024 * U, -512 * U), (-1024 * U, 1024 * U)),
        0,
        1,
        1,
    ),
    (
        &SQUARE,
        ((-1024 * U, 1024 * U), (1024 * U, -512 * U)),
        0,
        1,
        1,
    ),
    // The total less the loser's length.
    (
        &HEXAGON,
        ((608 * U, -430 * U), (1392 * U, -984 * U)),
        0,
        2,
        2,
    ),
    // The loser's return vector.
    (&SLANTED, ((-224 * U, 880 * U), (-1, 1)), 0, 3, 4),
    // The vector of the loser's start, where the top row wins, and of its end, where the bottom row does.
    (&WIDE, ((-224 * U, 880 * U), (-1, 1)), 0, 5, 6),
    (&WIDE, ((224 * U, -880 * U), (-1, 1)), 0, 5, 6),
    // The total less the length that merges.
    (
        &OCTAGON,
        ((280 * U, -198 * U), (-280 * U, 198 * U)),
        0,
        1,
        1,
    ),
    // The sum of the return vectors of letters that merge.
    (&WIDE_PAIR, ((1, 0), (0, 0)), 0, 2, 3),
    // The connection that a merge finds.
    (&CHORD_BELOW, ((1, 0), (0, 0)), 0, 4, 5),
    // The first sum of lengths at a split.
    (&SUM, ((2, 0), (0, 0)), 0, 1, 1),
    // The right part's total.
    (&REST, ((2, 0), (0, 0)), 0, 1, 1),
    // The right part's base.
    (&TALL_LEFT, ((1, 0), (0, 0)), 2, 2, 2),
    // The connection that a split finds.
    (&CHORD, ((1, 0), (0, 0)), 0, 4, 5),
    // The products of a comparison, for the first letter.
    (&SQUARE, ((SHORT, SHORT), (3 * SHORT, 8 * SHORT)), 0, 7, 7),
    (&SQUARE, ((0, SHORT), (SHORT, 8 * SHORT)), 0, 8, 8),
    // For the second letter: the first one is in proportion.
    (
        &GOLDEN_SQUARE,
        ((-2 * SHORT, 2 * SHORT), (6 * SHORT, -2 * SHORT)),
        2,
        9,
        9,
    ),
];

// That the run from a state overflows at an event and a place.
fn expect_site(rt: &impl Abort, alloc: Global, row: usize, state: State, event: u32, place: u32) {
    match run_of(rt, alloc, state, 1000) {
        Err(Stop::Overflow(site)) => {
            assert!(rt; site == Site::Event { event, place }, "site of row {row}");
        }
        _ => panic!(rt; "row {row}: no overflow"),
    }
}

// That single steps of a state stop after so many events, at a place, and then again.
fn expect_stop(rt: &impl Abort, row: usize, state: &mut State, events: u32, place: u32) {
    for _ in 0..events {
        assert!(rt; step_of(rt, state).is_ok(), "an event of row {row}");
    }
    for _ in 0..2 {
        assert!(rt;
            step_of(rt, state) == Err(Place(place)),
            "place of row {row}"
        );
    }
}

// That a row holds, turned or not. The places of comparisons are from 7 on: single steps don't compare.
fn expect_row(
    rt: &impl Abort,
    alloc: Global,
    n: usize,
    row: &Row,
    turned: bool,
) -> Result<(), Fail> {
    let (plan, v, event, straight, across) = *row;
    let place = if turned { across } else { straight };
    let state = state_of(rt, alloc, plan, v, turned)?;
    expect_site(rt, alloc, n, state, event, place);
    if place < 7 {
        let mut state = state_of(rt, alloc, plan, v, turned)?;
        expect_stop(rt, n, &mut state, event, place);
    }
    Ok(())
}

#[test]
fn overflows(rt: HostRuntime) -> Result<(), Fail> {
    for (n, row) in OVERFLOWS.iter().enumerate() {
        expect_row(&rt, rt.alloc(), n, row, false)?;
        expect_row(&rt, rt.alloc(), n, row, true)?;
    }
    Ok(())
}
