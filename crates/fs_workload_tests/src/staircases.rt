// Staircases, with rectangles and glue lines computed by another program.

use fs_fraction::Frac;
use fs_gluing::{Glue, Point, Sequence};
use fs_job::{Command, Form, Job};
use fs_plane::{Corner, V2};
use fs_quadratic::Elem;
use fs_workload::staircase;
use std::alloc::Global;
use std::process::Abort;
use std::test::Fail;

// p and q of a number p + q·√2.
type Pair = (i128, i128);

// The number of rectangles and the seed, the number of a rectangle, its width and its height.
static RECTANGLES: [(u32, u32, usize, Pair, Pair); 9] = [
    (1, 0, 0, (1, 0), (1, 0)),
    (3, 1, 0, (3, 2), (3, 2)),
    (3, 1, 1, (2, 2), (3, 2)),
    (3, 1, 2, (2, 2), (4, 2)),
    (2, 999_999_999, 0, (2, 2), (3, 0)),
    (2, 999_999_999, 1, (4, 2), (3, 0)),
    (200, 0, 199, (1, 1), (2, 1)),
    (200, 1, 199, (4, 0), (1, 2)),
    (200, 999_999_999, 199, (4, 1), (4, 2)),
];

// The glue lines of 1, 2 and 3 rectangles.
static ONE: [[u16; 4]; 2] = [[0, 0, 0, 2], [0, 1, 0, 3]];

static TWO: [[u16; 4]; 4] = [[0, 0, 0, 2], [0, 1, 1, 3], [0, 3, 1, 1], [1, 0, 1, 2]];

static THREE: [[u16; 4]; 6] = [
    [0, 0, 0, 2],
    [0, 1, 1, 3],
    [0, 3, 1, 1],
    [1, 0, 2, 2],
    [1, 2, 2, 0],
    [2, 1, 2, 3],
];

// The number of these parts.
fn elem(rt: &impl Abort, parts: Pair) -> Elem {
    assert!(rt; parts.0 != i128::MIN);
    assert!(rt; parts.1 != i128::MIN);
    Elem::new(parts.0, parts.1)
}

// The polygons of a job and its glue lines.
fn shape_of<'a>(rt: &impl Abort, job: &'a Job) -> (&'a [Sequence<Point>], &'a [Glue]) {
    let Form::Polygons(shape) = &job.form else {
        panic!(rt; "no polygons");
    };
    assert!(rt; !shape.straight);
    (shape.polygons.as_slice(), shape.glues.as_slice())
}

// That a vector has these coordinates, over 1.
fn expect_side(rt: &impl Abort, side: &Point, x: Elem, y: Elem) {
    assert!(rt; side.x == Frac::new(x, 1));
    assert!(rt; side.y == Frac::new(y, 1));
}

// That these are the sides of a rectangle of this width and height.
fn expect_rectangle(rt: &impl Abort, sides: &[Point], width: Elem, height: Elem) {
    assert!(rt; sides.len() == 4);
    expect_side(rt, &sides[0], width, Elem::ZERO);
    expect_side(rt, &sides[1], Elem::ZERO, height);
    expect_side(rt, &sides[2], width.neg(), Elem::ZERO);
    expect_side(rt, &sides[3], Elem::ZERO, height.neg());
}

// That these are the glue lines, each with the number 0.
fn expect_lines(rt: &impl Abort, lines: &[Glue], expected: &[[u16; 4]]) {
    assert!(rt; lines.len() == expected.len());
    for (line, numbers) in lines.iter().zip(expected) {
        let [i, a, j, b] = *numbers;
        let one = Corner::new(i, a);
        let two = Corner::new(j, b);
        assert!(rt; *line == Glue { line: 0, one, two }, "{i} {a} {j} {b}");
    }
}

#[test]
fn rectangles(rt: HostRuntime) -> Result<(), Fail> {
    for (k, seed, i, width, height) in &RECTANGLES {
        assert!(rt; 1 <= *k && *k <= 200);
        let job = staircase(rt.alloc(), *k, *seed).ok().ok_or("no job")?;
        let (polygons, _) = shape_of(&rt, &job);
        assert!(rt; polygons.len() == *k as usize);
        assert!(rt; *i < polygons.len());
        expect_rectangle(
            &rt,
            polygons[*i].as_slice(),
            elem(&rt, *width),
            elem(&rt, *height),
        );
    }
    Ok(())
}

#[test]
fn glue_lines(rt: HostRuntime) -> Result<(), Fail> {
    let rows = [
        (1, ONE.as_slice()),
        (2, TWO.as_slice()),
        (3, THREE.as_slice()),
    ];
    for (k, expected) in rows {
        assert!(rt; 1 <= k && k <= 200);
        let job = staircase(rt.alloc(), k, 1).ok().ok_or("no job")?;
        expect_lines(&rt, shape_of(&rt, &job).1, expected);
    }
    Ok(())
}

#[test]
fn two_hundred_rectangles(rt: HostRuntime) -> Result<(), Fail> {
    let job = staircase(rt.alloc(), 200, 0).ok().ok_or("no job")?;
    let (polygons, lines) = shape_of(&rt, &job);
    assert!(rt; polygons.len() == 200);
    assert!(rt; lines.len() == 400);
    expect_lines(
        &rt,
        &lines[398..],
        [[198, 3, 199, 1], [199, 0, 199, 2]].as_slice(),
    );
    Ok(())
}

#[test]
fn commands(rt: HostRuntime) -> Result<(), Fail> {
    let job = staircase(rt.alloc(), 1, 0).ok().ok_or("no job")?;
    assert!(rt; job.field.d() == 2);
    let [
        Command::Stratum,
        Command::Delaunay,
        Command::Saddles { limit },
        Command::Flow { v },
        Command::Flow { v: w },
    ] = job.commands.as_slice()
    else {
        panic!(rt; "other commands");
    };
    let one = Elem::new(1, 0);
    assert!(rt; *limit == one);
    assert!(rt;
        *v == V2 {
            x: one,
            y: Elem::ZERO
        }
    );
    assert!(rt;
        *w == V2 {
            x: Elem::ZERO,
            y: one
        }
    );
    Ok(())
}
