// Jobs with the command `saddles`, and their right answers.

use crate::running::{add, expect_answer, expect_by_words, expect_lines, square_with};
use std::alloc::Global;
use std::process::Abort;

// The glue lines of a parallelogram.
const OPPOSITE: &str = "glue 0.0 0.2\nglue 0.1 0.3\n";

const OCTAGON: &str =
    "polygon 1,0 1/2r,1/2r 0,1 -1/2r,1/2r -1,0 -1/2r,-1/2r 0,-1 1/2r,-1/2r\nglue 0.0 0.4\nglue 0.1 0.5\nglue 0.2 0.6\nglue 0.3 0.7\n";

// The job of one parallelogram, with the field of √2.
fn torus(rt: &impl Abort, alloc: Global, polygon: &str, commands: &str) -> Vec<u8> {
    let mut job = Vec::new(alloc);
    for text in [
        "flatsurf 1\nfield 2\n",
        polygon,
        OPPOSITE,
        commands,
        "end\n",
    ] {
        add(rt, &mut job, text);
    }
    job
}

// Commands about the unit square, and their answers: no saddle connection is shorter than its sides. Of squared lengths up
// to 5 all primitive vectors are there: (2,0) isn't one. Squared lengths of exactly 1, 2 and 5 are within the bound.
static SQUARE: [(&str, &str); 7] = [
    ("saddles 0\n", "saddles 0 count 0 live 0 flips 0\n"),
    ("saddles -1\n", "saddles -1 count 0 live 0 flips 0\n"),
    ("saddles 1-1r\n", "saddles 1-1r count 0 live 0 flips 0\n"),
    (
        "saddles 1\n",
        "saddles 1 count 4 live 14 flips 0\nsaddle 0.0 1,0\nsaddle 0.1 0,1\nsaddle 0.2 -1,0\nsaddle 0.3 0,-1\n",
    ),
    (
        "saddles 1+1r\n",
        "saddles 1+1r count 8 live 26 flips 0\nsaddle 0.0 1,0\nsaddle 0.0 1,1\nsaddle 0.1 0,1\nsaddle 0.1 -1,1\nsaddle 0.2 -1,0\nsaddle 0.2 -1,-1\nsaddle 0.3 0,-1\nsaddle 0.3 1,-1\n",
    ),
    (
        "check\nsaddles 2\nstratum\nsaddles 0\n",
        "check polygons 1 sides 4\nsaddles 2 count 8 live 26 flips 0\nsaddle 0.0 1,0\nsaddle 0.0 1,1\nsaddle 0.1 0,1\nsaddle 0.1 -1,1\nsaddle 0.2 -1,0\nsaddle 0.2 -1,-1\nsaddle 0.3 0,-1\nsaddle 0.3 1,-1\nstratum H(0) genus 1 vertices 1 area 1\nvertex 0.0 turns 1\nsaddles 0 count 0 live 0 flips 0\n",
    ),
    (
        "saddles 5\n",
        "saddles 5 count 16 live 66 flips 0\nsaddle 0.0 1,0\nsaddle 0.0 2,1\nsaddle 0.0 1,1\nsaddle 0.0 1,2\nsaddle 0.1 0,1\nsaddle 0.1 -1,2\nsaddle 0.1 -1,1\nsaddle 0.1 -2,1\nsaddle 0.2 -1,0\nsaddle 0.2 -2,-1\nsaddle 0.2 -1,-1\nsaddle 0.2 -1,-2\nsaddle 0.3 0,-1\nsaddle 0.3 1,-2\nsaddle 0.3 1,-1\nsaddle 0.3 2,-1\n",
    ),
];

#[test]
fn unit_square(rt: HostRuntime) {
    for (commands, answer) in SQUARE.iter() {
        expect_answer(
            &rt,
            rt.alloc(),
            square_with(&rt, rt.alloc(), 6, commands),
            answer,
        );
    }
}

// Polygon, command, answer. A square of side 2: from a corner to the diagonal across it the squared length is 2, and each of
// two half-edges crosses it. One of side 3, with a bound of its side and one below it. One of side 1/2. A parallelogram: its
// faces after two flips are those of the unit square.
static TORI: [(&str, &str, &str); 6] = [
    (
        "polygon 2,0 0,2 -2,0 0,-2\n",
        "saddles 1\n",
        "saddles 1 count 0 live 0 flips 0\n",
    ),
    (
        "polygon 2,0 0,2 -2,0 0,-2\n",
        "saddles 2\n",
        "saddles 2 count 0 live 2 flips 0\n",
    ),
    (
        "polygon 3,0 0,3 -3,0 0,-3\n",
        "saddles 8\n",
        "saddles 8 count 0 live 2 flips 0\n",
    ),
    (
        "polygon 3,0 0,3 -3,0 0,-3\n",
        "saddles 9\n",
        "saddles 9 count 4 live 14 flips 0\nsaddle 0.0 3,0\nsaddle 0.1 0,3\nsaddle 0.2 -3,0\nsaddle 0.3 0,-3\n",
    ),
    (
        "polygon 1/2,0 0,1/2 -1/2,0 0,-1/2\n",
        "saddles 1\n",
        "saddles 1 count 8 live 38 flips 0\nsaddle 0.0 1/2,0\nsaddle 0.0 1/2,1/2\nsaddle 0.1 0,1/2\nsaddle 0.1 -1/2,1/2\nsaddle 0.2 -1/2,0\nsaddle 0.2 -1/2,-1/2\nsaddle 0.3 0,-1/2\nsaddle 0.3 1/2,-1/2\n",
    ),
    (
        "polygon 1,0 2,1 -1,0 -2,-1\n",
        "saddles 2\n",
        "saddles 2 count 8 live 26 flips 2\nsaddle 0.0 1,0\nsaddle 0.1 1,1\nsaddle 0.1 0,1\nsaddle 0.1 -1,1\nsaddle 0.2 -1,0\nsaddle 0.3 -1,-1\nsaddle 0.3 0,-1\nsaddle 0.3 1,-1\n",
    ),
];

#[test]
fn tori(rt: HostRuntime) {
    for (polygon, command, answer) in TORI.iter() {
        expect_by_words(
            &rt,
            rt.alloc(),
            &[],
            torus(&rt, rt.alloc(), polygon, command),
            answer,
        );
    }
}

// Field, polygon and glue lines, commands, answers: the octagon, whose sides and short diagonals are within 4, where equal
// vectors from two corners are two entries; two unit squares side by side; and an octagon of genus 2 with parallel sides,
// which takes nine flips.
static SURFACES: [(u16, &str, &str, &str); 4] = [
    (
        2,
        OCTAGON,
        "saddles 1\n",
        "saddles 1 count 8 live 38 flips 0\nsaddle 0.0 1,0\nsaddle 0.1 1/2r,1/2r\nsaddle 0.2 0,1\nsaddle 0.3 -1/2r,1/2r\nsaddle 0.4 -1,0\nsaddle 0.5 -1/2r,-1/2r\nsaddle 0.6 0,-1\nsaddle 0.7 1/2r,-1/2r\n",
    ),
    (
        2,
        OCTAGON,
        "saddles 4\n",
        "saddles 4 count 24 live 116 flips 0\nsaddle 0.0 1,0\nsaddle 0.0 1+1/2r,1/2r\nsaddle 0.6 1+1/2r,1/2r\nsaddle 0.1 1/2r,1/2r\nsaddle 0.1 1/2r,1+1/2r\nsaddle 0.7 1/2r,1+1/2r\nsaddle 0.2 0,1\nsaddle 0.0 -1/2r,1+1/2r\nsaddle 0.2 -1/2r,1+1/2r\nsaddle 0.3 -1/2r,1/2r\nsaddle 0.1 -1-1/2r,1/2r\nsaddle 0.3 -1-1/2r,1/2r\nsaddle 0.4 -1,0\nsaddle 0.2 -1-1/2r,-1/2r\nsaddle 0.4 -1-1/2r,-1/2r\nsaddle 0.5 -1/2r,-1/2r\nsaddle 0.3 -1/2r,-1-1/2r\nsaddle 0.5 -1/2r,-1-1/2r\nsaddle 0.6 0,-1\nsaddle 0.4 1/2r,-1-1/2r\nsaddle 0.6 1/2r,-1-1/2r\nsaddle 0.7 1/2r,-1/2r\nsaddle 0.5 1+1/2r,-1/2r\nsaddle 0.7 1+1/2r,-1/2r\n",
    ),
    (
        2,
        "polygon 1,0 0,1 -1,0 0,-1\npolygon 1,0 0,1 -1,0 0,-1\nglue 0.1 1.3\nglue 1.1 0.3\nglue 0.0 0.2\nglue 1.0 1.2\n",
        "saddles 1\nsegment 0.0 2,0\n",
        "saddles 1 count 8 live 28 flips 0\nsaddle 0.0 1,0\nsaddle 1.0 1,0\nsaddle 0.1 0,1\nsaddle 1.1 0,1\nsaddle 0.2 -1,0\nsaddle 1.2 -1,0\nsaddle 0.3 0,-1\nsaddle 1.3 0,-1\nsegment 0.0 2,0 vertex word -\n",
    ),
    (
        3,
        "polygon 3/4+1/4r,-1/3 3,-2+1r -2+2r,1 0,1/2 -3/4-1/4r,1/3 -3,2-1r 2-2r,-1 0,-1/2\nglue 0.4 0.0\nglue 0.5 0.1\nglue 0.6 0.2\nglue 0.3 0.7\n",
        "saddles 0\nsaddles 5\n",
        "saddles 0 count 0 live 0 flips 9\nsaddles 5 count 20 live 80 flips 9\nsaddle 0.2 -2+2r,1\nsaddle 0.0 -2+2r,3/2\nsaddle 0.2 -2+2r,3/2\nsaddle 0.1 -11/4+7/4r,11/6\nsaddle 0.2 -11/4+7/4r,11/6\nsaddle 0.3 0,1/2\nsaddle 0.3 -3/4-1/4r,4/3\nsaddle 0.1 -3/4-1/4r,5/6\nsaddle 0.3 -3/4-1/4r,5/6\nsaddle 0.4 -3/4-1/4r,1/3\nsaddle 0.6 2-2r,-1\nsaddle 0.4 2-2r,-3/2\nsaddle 0.6 2-2r,-3/2\nsaddle 0.5 11/4-7/4r,-11/6\nsaddle 0.6 11/4-7/4r,-11/6\nsaddle 0.7 0,-1/2\nsaddle 0.7 3/4+1/4r,-4/3\nsaddle 0.5 3/4+1/4r,-5/6\nsaddle 0.7 3/4+1/4r,-5/6\nsaddle 0.0 3/4+1/4r,-1/3\n",
    ),
];

#[test]
fn surfaces(rt: HostRuntime) {
    for (d, lines, commands, answer) in SURFACES.iter() {
        expect_lines(&rt, rt.alloc(), *d, &[lines], commands, answer);
    }
}

// Budgets of live words, of which the list of the unit square within 5 has 66, and of flips, of which a parallelogram takes 2.
static BUDGETS: [(&str, &str, &str, &str); 4] = [
    (
        "65",
        "polygon 1,0 0,1 -1,0 0,-1\n",
        "saddles 5\nsaddles 0\n",
        "saddles 5 undecided live 65\nsaddles 0 count 0 live 0 flips 0\n",
    ),
    (
        "66",
        "polygon 1,0 0,1 -1,0 0,-1\n",
        "saddles 5\n",
        "saddles 5 count 16 live 66 flips 0\nsaddle 0.0 1,0\nsaddle 0.0 2,1\nsaddle 0.0 1,1\nsaddle 0.0 1,2\nsaddle 0.1 0,1\nsaddle 0.1 -1,2\nsaddle 0.1 -1,1\nsaddle 0.1 -2,1\nsaddle 0.2 -1,0\nsaddle 0.2 -2,-1\nsaddle 0.2 -1,-1\nsaddle 0.2 -1,-2\nsaddle 0.3 0,-1\nsaddle 0.3 1,-2\nsaddle 0.3 1,-1\nsaddle 0.3 2,-1\n",
    ),
    (
        "1",
        "polygon 1,0 2,1 -1,0 -2,-1\n",
        "saddles 4\nsaddles 0-1r\n",
        "saddles 4 undecided flips 1\nsaddles -1r undecided flips 1\n",
    ),
    (
        "2",
        "polygon 1,0 2,1 -1,0 -2,-1\n",
        "saddles 4\nsaddles 0\n",
        "saddles 4 undecided live 2\nsaddles 0 count 0 live 0 flips 2\n",
    ),
];

#[test]
fn budgets(rt: HostRuntime) {
    for (steps, polygon, commands, answer) in BUDGETS.iter() {
        expect_by_words(
            &rt,
            rt.alloc(),
            &["--steps", steps],
            torus(&rt, rt.alloc(), polygon, commands),
            answer,
        );
    }
}

// A rectangle of width 1 and height 100,000: four half-edges have a chain of 40,000 live words each.
#[test]
fn long_chains(rt: HostRuntime) {
    expect_by_words(
        &rt,
        rt.alloc(),
        &["--steps", "160000"],
        torus(
            &rt,
            rt.alloc(),
            "polygon 1,0 0,100000 -1,0 0,-100000\n",
            "saddles 400000000\n",
        ),
        "saddles 400000000 count 2 live 160000 flips 0\nsaddle 0.0 1,0\nsaddle 0.2 -1,0\n",
    );
}

// Where the bound overflows: the common denominator D is 199·197·5·10^15, about 2^67.4, and the scaled sides are 197 and 199.
// (10^18 - 1)·D is about 1.96·10^38, and D·D is more.
#[test]
fn wide_bounds(rt: HostRuntime) {
    expect_by_words(
        &rt,
        rt.alloc(),
        &[],
        torus(
            &rt,
            rt.alloc(),
            "polygon 1/995000000000000000,0 0,1/985000000000000000 -1/995000000000000000,0 0,-1/985000000000000000\n",
            "saddles 999999999999999999\nsaddles 1\nsaddles 0\n",
        ),
        "saddles 999999999999999999 overflow bound 1\nsaddles 1 overflow bound 2\nsaddles 0 count 0 live 0 flips 0\n",
    );
}

// A rectangle of width 2·10^10 and height 1, and limits with large parts, of which the first is a little below 1 and the others
// are about 2.4 and 5.2. Where neither end of a long side or of the diagonal is within the bound, and the foot of the
// perpendicular is between them, the limit is multiplied by its squared length, at least 4·10^20. This comes first at
// half-edge 1, of length 1, where the diagonal is crossed; and then at the second live word, or at the fourth.
#[test]
fn wide_searches(rt: HostRuntime) {
    expect_by_words(
        &rt,
        rt.alloc(),
        &[],
        torus(
            &rt,
            rt.alloc(),
            "polygon 20000000000,0 0,1 -20000000000,0 0,-1\n",
            "saddles 999999999999999999-707106781186547523r\nsaddles 999999999999999999-707106781186547522r\nsaddles 999999999999999999-707106781186547520r\n",
        ),
        "saddles 999999999999999999-707106781186547523r overflow first 1 25\nsaddles 999999999999999999-707106781186547522r overflow fan 1 55\nsaddles 999999999999999999-707106781186547520r overflow fan 3 55\n",
    );
}

// Where the run of flips overflows there is no list.
#[test]
fn wide_circle_value(rt: HostRuntime) {
    expect_by_words(
        &rt,
        rt.alloc(),
        &[],
        torus(
            &rt,
            rt.alloc(),
            "polygon 3300000000,0 0,3300000000 -3300000000,0 0,-3300000000\n",
            "saddles 1\n",
        ),
        "saddles 1 overflow circle 0 0 15\n",
    );
}
