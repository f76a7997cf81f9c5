// Surfaces and directions of the tables, the states of the induction that begin with them, and whether runs are as a row
// tells.
ghost use Rattle.std.specs.Prelude.{◌≤◌, IfOk, length};
ghost use Rattle.fs_gluing.specs.Shape.{IsWithinLimits};

use fs_fraction::Frac;
use fs_gluing::{Glue, Point, Sequence, Shape, Surface, build};
use fs_iet::find_exchange;
use fs_plane::{Corner, Place, Stop, V2};
use fs_quadratic::{Elem, Field};
use fs_rauzy::{Event, Found, Kind, Letter, Logged, Part, Run, State, find_run};
use std::alloc::{AllocError, Global};
use std::process::Abort;
use std::test::Fail;

// p and q of a number p + q·√d.
pub type Pair = (i128, i128);

// The coordinates of a vector.
pub type Vector = (Pair, Pair);

// The polygon and the side of a corner.
pub type Name = (u16, u16);

// The corner at which a connection begins and its vector, where one is found.
pub type Joined = Option<(Name, Vector)>;

// A surface whose vectors have no denominators: d, the sides of its polygons, of which there are one to three, and the
// pairs of sides that are glued.
pub struct Plan {
    pub d: u16,
    pub polygons: &'static [&'static [Vector]],
    pub glues: &'static [(Name, Name)],
}

// An event: whether the top row wins, and the winner's new length; the length of the letters that merge, and the
// connection that is found; how many letters are on the left of a split, and the connection that is found.
pub enum ToldEvent {
    Won(bool, Pair),
    Merged(Pair, Joined),
    Split(u32, Joined),
    Closed,
}

// A part: its letters have a length and a return vector each; a looped one has the numbers of two states.
pub struct ToldPart {
    pub base: Pair,
    pub width: Pair,
    pub letters: &'static [(Pair, Vector)],
    pub looped: Option<(u32, u32)>,
}

// The run of a surface and a direction to its end. The connections that it finds are those of its events, in order.
pub struct Told {
    pub plan: &'static Plan,
    pub v: Vector,
    pub steps: u32,
    pub events: &'static [ToldEvent],
    pub parts: &'static [ToldPart],
}

// 2^116, of which 2,048 are just too much, and 2^60.
pub const U: i128 = 1 << 116;

pub const SHORT: i128 = 1 << 60;

// The number of these parts.
fn elem(rt: &impl Abort, parts: Pair) -> Elem {
    assert!(rt; parts.0 != i128::MIN);
    assert!(rt; parts.1 != i128::MIN);
    Elem::new(parts.0, parts.1)
}

// The vector of these coordinates, turned by a right angle or not.
fn vector(rt: &impl Abort, parts: Vector, turned: bool) -> V2 {
    let x = elem(rt, parts.0);
    let y = elem(rt, parts.1);
    if turned {
        V2 { x: y.neg(), y: x }
    } else {
        V2 { x, y }
    }
}

// The unscaled vector of these coordinates.
fn point(rt: &impl Abort, parts: Vector, turned: bool) -> Point {
    let v = vector(rt, parts, turned);
    Point {
        x: Frac::new(v.x, 1),
        y: Frac::new(v.y, 1),
    }
}

// The corner of this name.
fn corner(name: Name) -> Corner {
    Corner::new(name.0, name.1)
}

// The polygon with these sides, of which there are at most 100.
fn polygon(
    rt: &impl Abort,
    alloc: Global,
    sides: &[Vector],
    turned: bool,
) -> Result<Sequence<Point>, AllocError>
    ensures { IfOk result (λ points. length points ≤ 100) }
{
    let mut points = Sequence::new(alloc);
    for side in sides {
        points.push(point(rt, *side, turned))?;
    }
    assert!(rt; points.len() <= 100);
    Ok(points)
}

// The glue lines of these pairs of sides.
fn glue_lines(alloc: Global, pairs: &[(Name, Name)]) -> Result<Sequence<Glue>, AllocError> {
    let mut glues = Sequence::new(alloc);
    for (one, two) in pairs {
        glues.push(Glue {
            line: 0,
            one: corner(*one),
            two: corner(*two),
        })?;
    }
    Ok(glues)
}

// The shape of a plan.
fn shape_of(rt: &impl Abort, alloc: Global, plan: &Plan, turned: bool) -> Result<Shape, Fail>
    ensures { IfOk result (λ shape. IsWithinLimits shape) }
{
    let glues = glue_lines(alloc, plan.glues)?;
    let mut polygons = Sequence::new(alloc);
    match plan.polygons {
        [one] => polygons.push(polygon(rt, alloc, one, turned)?)?,
        [one, two] => {
            polygons.push(polygon(rt, alloc, one, turned)?)?;
            polygons.push(polygon(rt, alloc, two, turned)?)?;
        }
        [one, two, three] => {
            polygons.push(polygon(rt, alloc, one, turned)?)?;
            polygons.push(polygon(rt, alloc, two, turned)?)?;
            polygons.push(polygon(rt, alloc, three, turned)?)?;
        }
        _ => return Err("too many polygons".into()),
    }
    Ok(Shape {
        polygons,
        glues,
        straight: false,
    })
}

// The surface of a plan.
fn surface_of(rt: &impl Abort, alloc: Global, plan: &Plan, turned: bool) -> Result<Surface, Fail> {
    let field = Field::new(plan.d).expect(rt, "a squarefree d");
    let shape = shape_of(rt, alloc, plan, turned)?;
    Ok(build(alloc, field, &shape).expect(rt, "a surface"))
}

// The state with which the induction of a surface and a direction begins, both turned by a right angle or not.
pub fn state_of(
    rt: &impl Abort,
    alloc: Global,
    plan: &Plan,
    v: Vector,
    turned: bool,
) -> Result<State, Fail> {
    let surface = surface_of(rt, alloc, plan, turned)?;
    let direction = vector(rt, v, turned);
    assert!(rt; direction != V2::ZERO);
    let exchange = find_exchange(alloc, &surface, direction).expect(rt, "an exchange");
    Ok(State::new(alloc, exchange).expect(rt, "memory for a state"))
}

// The run from a state within a budget.
pub fn run_of(rt: &impl Abort, alloc: Global, state: State, budget: u32) -> Result<Run, Stop> {
    assert!(rt; budget <= 1000000);
    find_run(alloc, state, budget)
}

// The next event of a state.
pub fn step_of(rt: &impl Abort, state: &mut State) -> Result<Event, Place> {
    assert!(rt; !state.is_done());
    state.step()
}

// The connection that a row tells.
fn found(rt: &impl Abort, joined: &Joined) -> Option<Found> {
    match joined {
        Some((start, v)) => Some(Found {
            start: corner(*start),
            v: vector(rt, *v, false),
        }),
        None => None,
    }
}

// The event that a row tells, with its length.
pub fn logged(rt: &impl Abort, told: &ToldEvent) -> Logged {
    match told {
        ToldEvent::Won(top, length) => Logged {
            event: Event::Won { top: *top },
            length: elem(rt, *length),
        },
        ToldEvent::Merged(length, joined) => Logged {
            event: Event::Merged(found(rt, joined)),
            length: elem(rt, *length),
        },
        ToldEvent::Split(at, joined) => Logged {
            event: Event::Split {
                at: *at,
                found: found(rt, joined),
            },
            length: Elem::ZERO,
        },
        ToldEvent::Closed => Logged {
            event: Event::Closed,
            length: Elem::ZERO,
        },
    }
}

// That the events of a run, and the connections that they find, are as told.
fn expect_events(rt: &impl Abort, row: usize, run: &Run, told: &[ToldEvent]) {
    let events = run.events.as_slice();
    let mut connections = run.found.as_slice().iter();
    assert!(rt; events.len() == told.len(), "events of row {row}");
    for (event, told) in events.iter().zip(told) {
        let expected = logged(rt, told);
        assert!(rt; *event == expected, "an event of row {row}");
        if let Some(found) = expected.event.found() {
            assert!(rt;
                connections.next() == Some(&found),
                "a connection of row {row}"
            );
        }
    }
    assert!(rt; connections.next() == None, "connections of row {row}");
}

// That a part of a run is as told.
fn expect_part(rt: &impl Abort, row: usize, part: &Part, told: &ToldPart) {
    assert!(rt; part.base == elem(rt, told.base), "a base of row {row}");
    assert!(rt; part.width == elem(rt, told.width), "a width of row {row}");
    let kind = match told.looped {
        Some((from, to)) => Kind::Looped { from, to },
        None => Kind::Cylinder,
    };
    assert!(rt; part.kind == kind, "a kind of row {row}");
    let letters = part.letters.as_slice();
    assert!(rt; letters.len() == told.letters.len(), "letters of row {row}");
    for (letter, (length, back)) in letters.iter().zip(told.letters) {
        let expected = Letter {
            length: elem(rt, *length),
            back: vector(rt, *back, false),
        };
        assert!(rt; *letter == expected, "a letter of row {row}");
    }
}

// That the run of each row is as the row tells.
pub fn expect_runs(rt: &impl Abort, alloc: Global, rows: &[Told]) -> Result<(), Fail> {
    for (row, told) in rows.iter().enumerate() {
        let state = state_of(rt, alloc, told.plan, told.v, false)?;
        let run = run_of(rt, alloc, state, 1000).expect(rt, "a run to its end");
        assert!(rt; run.steps == told.steps, "steps of row {row}");
        expect_events(rt, row, &run, told.events);
        let parts = run.parts.as_slice();
        assert!(rt; parts.len() == told.parts.len(), "parts of row {row}");
        for (part, told) in parts.iter().zip(told.parts) {
            expect_part(rt, row, part, told);
        }
    }
    Ok(())
}
