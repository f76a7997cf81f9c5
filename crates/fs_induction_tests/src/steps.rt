// Single events of states, and comparisons of states up to scale.

use crate::common::{Plan, SHORT, Told, Vector, logged, state_of, step_of};
use crate::plans::{GOLDEN_SQUARE, HEXAGON, L_THREE, ROOT_HEXAGON, SQUARE};
use crate::runs::{L_RUNS, SQUARE_RUNS};
use fs_plane::Place;
use fs_rauzy::State;
use std::alloc::Global;
use std::process::Abort;
use std::test::Fail;

// A surface, a direction, and how many events are made.
type Made = (&'static Plan, Vector, u32);

// A state that was saved, another one, and whether they are alike, or the place at which the comparison overflows.
type Row = (Made, Made, Result<bool, u32>);

static SHAPES: [Row; 11] = [
    (
        (&SQUARE, ((1, 0), (0, 1)), 3),
        (&SQUARE, ((1, 0), (0, 1)), 7),
        Ok(true),
    ),
    (
        (&SQUARE, ((1, 0), (0, 1)), 7),
        (&SQUARE, ((1, 0), (0, 1)), 3),
        Ok(true),
    ),
    (
        (&SQUARE, ((1, 0), (0, 1)), 0),
        (&SQUARE, ((1, 0), (0, 1)), 1),
        Ok(false),
    ),
    (
        (&SQUARE, ((1, 0), (1, 0)), 0),
        (&SQUARE, ((5, 0), (5, 0)), 0),
        Ok(true),
    ),
    (
        (&SQUARE, ((1, 0), (1, 0)), 0),
        (&SQUARE, ((1, 0), (1, 0)), 1),
        Ok(false),
    ),
    (
        (&HEXAGON, ((1, 0), (0, 1)), 0),
        (&HEXAGON, ((1, 0), (0, 1)), 1),
        Ok(false),
    ),
    (
        (&ROOT_HEXAGON, ((-2, -1), (-1, 0)), 15),
        (&ROOT_HEXAGON, ((-2, -1), (-1, 0)), 25),
        Ok(true),
    ),
    (
        (&L_THREE, ((2, 0), (1, 0)), 0),
        (&SQUARE, ((2, 0), (1, 0)), 0),
        Ok(false),
    ),
    (
        (&SQUARE, ((SHORT, SHORT), (3 * SHORT, 8 * SHORT)), 0),
        (&SQUARE, ((SHORT, SHORT), (3 * SHORT, 8 * SHORT)), 1),
        Err(7),
    ),
    (
        (&SQUARE, ((0, SHORT), (SHORT, 8 * SHORT)), 0),
        (&SQUARE, ((0, SHORT), (SHORT, 8 * SHORT)), 1),
        Err(8),
    ),
    (
        (
            &GOLDEN_SQUARE,
            ((-2 * SHORT, 2 * SHORT), (6 * SHORT, -2 * SHORT)),
            1,
        ),
        (
            &GOLDEN_SQUARE,
            ((-2 * SHORT, 2 * SHORT), (6 * SHORT, -2 * SHORT)),
            3,
        ),
        Err(9),
    ),
];

// That the events of the states of these rows are as told, one by one, and that no component is open after them. A loop is
// no event of a state.
fn expect_steps(rt: &impl Abort, alloc: Global, rows: &[Told]) -> Result<(), Fail> {
    for (row, told) in rows.iter().enumerate() {
        let mut state = state_of(rt, alloc, told.plan, told.v, false)?;
        for event in told.events {
            let expected = logged(rt, event).event;
            assert!(rt;
                step_of(rt, &mut state) == Ok(expected),
                "an event of row {row}"
            );
        }
        assert!(rt; state.is_done(), "the end of row {row}");
    }
    Ok(())
}

// The state after so many events.
fn state_after(rt: &impl Abort, alloc: Global, made: &Made) -> Result<State, Fail> {
    let (plan, v, events) = *made;
    let mut state = state_of(rt, alloc, plan, v, false)?;
    for _ in 0..events {
        let event = step_of(rt, &mut state);
        assert!(rt; event.is_ok(), "an event");
    }
    Ok(state)
}

// Whether a state is alike to one that was saved, or the place at which the comparison overflows.
fn compare(rt: &impl Abort, state: &State, saved: &State) -> Result<bool, Place> {
    assert!(rt; !state.is_done());
    assert!(rt; !saved.is_done());
    state.same_shape(saved)
}

#[test]
fn steps(rt: HostRuntime) -> Result<(), Fail> {
    expect_steps(&rt, rt.alloc(), &SQUARE_RUNS[..4])?;
    expect_steps(&rt, rt.alloc(), &L_RUNS)
}

#[test]
fn shapes(rt: HostRuntime) -> Result<(), Fail> {
    for (row, (one, two, told)) in SHAPES.iter().enumerate() {
        let saved = state_after(&rt, rt.alloc(), one)?;
        let state = state_after(&rt, rt.alloc(), two)?;
        let expected = match told {
            Ok(same) => Ok(*same),
            Err(place) => Err(Place(*place)),
        };
        assert!(rt; compare(&rt, &state, &saved) == expected, "row {row}");
    }
    Ok(())
}
