// Runs within budgets: they are undecided exactly where the budget is spent and the next event is a step.

use crate::common::{Plan, SHORT, Vector, run_of, state_of};
use crate::plans::{GOLDEN_SQUARE, L_THREE, SLIT, SQUARE};
use crate::wide_plans::{REST, TALL_LEFT};
use fs_plane::{Site, Stop};
use fs_rauzy::Run;
use std::alloc::Global;
use std::process::Abort;
use std::test::Fail;

// How a run ends: all components close; the event and the place at which it overflows.
enum End {
    Closed,
    Overflow(u32, u32),
}

// A surface, a direction, the least budget with which its run isn't undecided, and how it ends then.
type Row = (&'static Plan, Vector, u32, End);

// A loop that is found at the last step closes, and so do cylinders, and a split is made or overflows, where the budget is
// spent. A comparison that overflows belongs to its step.
static ENDS: [Row; 6] = [
    (&SQUARE, ((1, 0), (0, 1)), 7, End::Closed),
    (&L_THREE, ((2, 0), (1, 0)), 7, End::Closed),
    (&SLIT, ((1, 0), (0, 0)), 8, End::Closed),
    (&REST, ((2, 0), (0, 0)), 0, End::Overflow(0, 1)),
    (&TALL_LEFT, ((1, 0), (0, 0)), 1, End::Overflow(2, 2)),
    (
        &GOLDEN_SQUARE,
        ((-2 * SHORT, 2 * SHORT), (6 * SHORT, -2 * SHORT)),
        3,
        End::Overflow(2, 9),
    ),
];

// Whether a run ends so.
fn is_end(run: &Result<Run, Stop>, end: &End) -> bool {
    match (run, end) {
        (Ok(_), End::Closed) => true,
        (Err(Stop::Overflow(Site::Event { event, place })), End::Overflow(n, p)) => {
            event == n && place == p
        }
        _ => false,
    }
}

// Whether a run is undecided at this budget.
fn is_undecided(run: &Result<Run, Stop>, budget: u32) -> bool {
    match run {
        Err(Stop::Undecided(steps)) => *steps == budget,
        _ => false,
    }
}

// That the runs of a row are undecided below its budget, and end as it tells from there on.
fn expect_row(rt: &impl Abort, alloc: Global, n: usize, row: &Row) -> Result<(), Fail> {
    let (plan, v, least, end) = row;
    for budget in 0..*least {
        let state = state_of(rt, alloc, plan, *v, false)?;
        let run = run_of(rt, alloc, state, budget);
        assert!(rt; is_undecided(&run, budget), "row {n}, budget {budget}");
    }
    for budget in [*least, 1000000] {
        let state = state_of(rt, alloc, plan, *v, false)?;
        let run = run_of(rt, alloc, state, budget);
        assert!(rt; is_end(&run, end), "row {n}, budget {budget}");
    }
    Ok(())
}

#[test]
fn budgets(rt: HostRuntime) -> Result<(), Fail> {
    for (n, row) in ENDS.iter().enumerate() {
        expect_row(&rt, rt.alloc(), n, row)?;
    }
    Ok(())
}
