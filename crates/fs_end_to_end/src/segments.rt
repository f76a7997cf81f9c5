// Jobs with `segment` lines and their right answers.

use crate::running::{expect_by_words, expect_change, expect_lines, square_with};
use std::alloc::Global;
use std::process::Abort;

// Lines in place of the command of the unit square's job, and its answers.
static SQUARE: [(&str, &str); 22] = [
    (
        "segment 0.0 2,1\n",
        "segment 0.0 2,1 yes end 0.2 word 0.1\n",
    ),
    (
        "segment 0.0 3,1\n",
        "segment 0.0 3,1 yes end 0.2 word 0.1 0.1\n",
    ),
    ("segment 0.0 2,2\n", "segment 0.0 2,2 vertex word -\n"),
    ("segment 0.0 0,1\n", "segment 0.0 0,1 out-of-sector\n"),
    ("segment 0.0 1/2,1/2\n", "segment 0.0 1/2,1/2 off-grid\n"),
    ("segment 0.0 1,0\n", "segment 0.0 1,0 yes end 0.1 word -\n"),
    (
        "segment 0.0 2,1\nsegment 0.0 3,1\nsegment 0.0 2,2\nsegment 0.0 0,1\nsegment 0.0 1/2,1/2\nsegment 0.0 1,0\n",
        "segment 0.0 2,1 yes end 0.2 word 0.1\nsegment 0.0 3,1 yes end 0.2 word 0.1 0.1\nsegment 0.0 2,2 vertex word -\nsegment 0.0 0,1 out-of-sector\nsegment 0.0 1/2,1/2 off-grid\nsegment 0.0 1,0 yes end 0.1 word -\n",
    ),
    ("segment 0.0 0,1/2\n", "segment 0.0 0,1/2 off-grid\n"),
    ("segment 0.0 1/3r,1\n", "segment 0.0 1/3r,1 off-grid\n"),
    // other spellings of the line
    (
        "\tsegment 00.0000  4/2+0r,003/3 \n",
        "segment 0.0 2,1 yes end 0.2 word 0.1\n",
    ),
    (
        "segment 0.2 -2,-1\n",
        "segment 0.2 -2,-1 yes end 0.0 word 0.3\n",
    ),
    // paths that end on a side, off the vertices
    (
        "segment 0.0 -1+1r,1\n",
        "segment 0.0 -1+1r,1 inside word -\n",
    ),
    ("segment 0.0 0+1r,1\n", "segment 0.0 1r,1 inside word 0.1\n"),
    ("segment 0.0 0+1r,0\n", "segment 0.0 1r,0 vertex word -\n"),
    ("segment 0.0 6,2\n", "segment 0.0 6,2 vertex word 0.1 0.1\n"),
    // a corner that doesn't exist: the first line with one, before all commands
    ("segment 0.4 1,0\n", "refused 14 NoSuchSide line 6\n"),
    ("segment 1.0 1,0\n", "refused 14 NoSuchSide line 6\n"),
    (
        "segment 9999.9999 1/2,1/2\n",
        "refused 14 NoSuchSide line 6\n",
    ),
    (
        "check\n\nsegment 0.0 1,0\nsegment 0.4 1,0\nsegment 1.0 1,0\n",
        "refused 14 NoSuchSide line 9\n",
    ),
    // faults of reading come before
    ("segment 0.0 0,0\n", "refused 8 ZeroDirection line 6\n"),
    (
        "segment 0.4 1,0\nsegment 0.4 0/2,0r\n",
        "refused 8 ZeroDirection line 7\n",
    ),
    (
        "segment 0.4 1,0\nsegment 0.4 1\n",
        "refused 3 BadLine line 7\n",
    ),
];

#[test]
fn unit_square(rt: HostRuntime) {
    for (line, answer) in SQUARE.iter() {
        expect_change(&rt, rt.alloc(), 6, line, answer);
    }
}

// A field, the polygons and glue lines of a surface, commands, and their answers.
type Row = (u16, &'static str, &'static str, &'static str);

// That the job of a row has its answers.
fn expect_row(rt: &impl Abort, alloc: Global, row: &Row) {
    let (d, lines, commands, answer) = row;
    expect_lines(rt, alloc, *d, &[lines], commands, answer);
}

// Squares with sides of 2 and of a half, two squares in a row, the L of three, the octagon and the hexagon.
static SURFACES: [Row; 7] = [
    (
        2,
        "polygon 2,0 0,2 -2,0 0,-2\nglue 0.0 0.2\nglue 0.1 0.3\n",
        "segment 0.0 1,1\nsegment 0.0 3,1\nsegment 0.0 2,2\n",
        "segment 0.0 1,1 inside word -\nsegment 0.0 3,1 inside word 0.1\nsegment 0.0 2,2 yes end 0.2 word -\n",
    ),
    (
        2,
        "polygon 1/2,0 0,1/2 -1/2,0 0,-1/2\nglue 0.0 0.2\nglue 0.1 0.3\n",
        "segment 0.0 1,1/2\nsegment 0.0 1/2,1/2\nsegment 0.0 1/4,0\n",
        "segment 0.0 1,1/2 yes end 0.2 word 0.1\nsegment 0.0 1/2,1/2 yes end 0.2 word -\nsegment 0.0 1/4,0 off-grid\n",
    ),
    (
        2,
        "polygon 1,0 0,1 -1,0 0,-1\npolygon 1,0 0,1 -1,0 0,-1\nglue 0.1 1.3\nglue 1.1 0.3\nglue 0.0 0.2\nglue 1.0 1.2\n",
        "segment 0.0 2,0\nsegment 0.0 3,1\nsegment 1.3 1,-2\n",
        "segment 0.0 2,0 vertex word -\nsegment 0.0 3,1 yes end 0.2 word 0.1 1.1\nsegment 1.3 1,-2 yes end 1.1 word 1.0\n",
    ),
    (
        2,
        "polygon 1,0 0,1 -1,0 0,-1\npolygon 1,0 0,1 -1,0 0,-1\npolygon 1,0 0,1 -1,0 0,-1\nglue 0.1 1.3\nglue 1.1 0.3\nglue 0.2 2.0\nglue 2.2 0.0\nglue 1.2 1.0\nglue 2.1 2.3\n",
        "segment 0.0 3,2\nsegment 0.0 2,3\nsegment 0.0 4,2\n",
        "segment 0.0 3,2 yes end 0.2 word 0.1 1.2 1.1\nsegment 0.0 2,3 yes end 0.2 word 0.2 2.1 2.2\nsegment 0.0 4,2 vertex word 0.1\n",
    ),
    (
        2,
        "polygon 1,0 1/2r,1/2r 0,1 -1/2r,1/2r -1,0 -1/2r,-1/2r 0,-1 1/2r,-1/2r\nglue 0.0 0.4\nglue 0.1 0.5\nglue 0.2 0.6\nglue 0.3 0.7\n",
        "segment 0.0 1,1+1r\nsegment 0.0 2,2+2r\nsegment 0.0 1/2,1/2+1/2r\nsegment 0.6 1+1r,0\nsegment 0.0 2+1r,1+1r\n",
        "segment 0.0 1,1+1r yes end 0.4 word -\nsegment 0.0 2,2+2r vertex word -\nsegment 0.0 1/2,1/2+1/2r inside word -\nsegment 0.6 1+1r,0 yes end 0.3 word -\nsegment 0.0 2+1r,1+1r yes end 0.4 word 0.2\n",
    ),
    (
        3,
        "polygon 1,0 1/2,1/2r -1/2,1/2r -1,0 -1/2,-1/2r 1/2,-1/2r\nglue 0.0 0.3\nglue 0.1 0.4\nglue 0.2 0.5\n",
        "segment 0.0 1,1r\nsegment 0.0 2,2r\nsegment 0.0 5/2,1/2r\n",
        "segment 0.0 1,1r yes end 0.3 word -\nsegment 0.0 2,2r vertex word -\nsegment 0.0 5/2,1/2r yes end 0.3 word 0.1\n",
    ),
    // a fault of the surface, or an overflow of its building, comes before a corner that doesn't exist
    (
        2,
        "polygon 1,0 0,1 -1,0 0,-1\nglue 0.0 0.2\n",
        "segment 0.4 1,0\n",
        "refused 17 Unglued 0.1\n",
    ),
];

#[test]
fn surfaces(rt: HostRuntime) {
    for row in SURFACES.iter() {
        expect_row(&rt, rt.alloc(), row);
    }
}

// Where numbers overflow. The commands after it are answered.
static OVERFLOWS: [Row; 4] = [
    (
        2,
        "polygon 1/999999999999999999,0 0,1/999999999999999998 -1/999999999999999999,0 0,-1/999999999999999998\nglue 0.0 0.2\nglue 0.1 0.3\n",
        "segment 0.0 999,0\nsegment 0.0 999r,999\nsegment 0.0 0,999\nsegment 0.0 0,999r\nsegment 0.0 999,1/5\nsegment 0.0 1/999999999999999999,0\n",
        "segment 0.0 999,0 overflow grid 1\nsegment 0.0 999r,999 overflow grid 2\nsegment 0.0 0,999 overflow grid 3\nsegment 0.0 0,999r overflow grid 4\nsegment 0.0 999,1/5 off-grid\nsegment 0.0 1/999999999999999999,0 yes end 0.1 word -\n",
    ),
    (
        998,
        "polygon 999999999999999999r,0 0,1 -999999999999999999r,0 0,-1\nglue 0.0 0.2\nglue 0.1 0.3\n",
        "segment 0.0 1,999999999999999999r\ncheck\nsegment 0.0 999999999999999999r,1\n",
        "segment 0.0 1,999999999999999999r overflow enter 1\ncheck polygons 1 sides 4\nsegment 0.0 999999999999999999r,1 yes end 0.2 word -\n",
    ),
    (
        998,
        "polygon 1,0 0,1 -1,0 0,-1\nglue 0.0 0.2\nglue 0.1 0.3\n",
        "segment 0.0 999999999999999999r,999999999999999999r\nsegment 0.0 1,1\n",
        "segment 0.0 999999999999999999r,999999999999999999r overflow walk 0 6004\nsegment 0.0 1,1 yes end 0.2 word -\n",
    ),
    (
        998,
        "polygon 999999999999999999r,0 0,999999999999999999r -999999999999999999r,0 0,-999999999999999999r\n",
        "segment 0.4 1,0\n",
        "build overflow corner 0 0 2\n",
    ),
];

#[test]
fn overflows(rt: HostRuntime) {
    for row in OVERFLOWS.iter() {
        expect_row(&rt, rt.alloc(), row);
    }
}

// Words, lines in place of the command of the unit square's job, and its answers. Each command has a budget of its
// own; without words it is 100,000.
static BUDGETS: [(&[&str], &str, &str); 6] = [
    (
        &["--steps", "1"],
        "segment 0.0 3,1\n",
        "segment 0.0 3,1 undecided crossings 1\n",
    ),
    (
        &["--steps=1"],
        "segment 0.0 3,1\nsegment 0.0 2,1\nsegment 0.0 3,1\ncheck\n",
        "segment 0.0 3,1 undecided crossings 1\nsegment 0.0 2,1 yes end 0.2 word 0.1\nsegment 0.0 3,1 undecided crossings 1\ncheck polygons 1 sides 4\n",
    ),
    (
        &["--steps", "2"],
        "segment 0.0 3,1\nsegment 0.0 3,1\n",
        "segment 0.0 3,1 yes end 0.2 word 0.1 0.1\nsegment 0.0 3,1 yes end 0.2 word 0.1 0.1\n",
    ),
    (
        &["--steps", "1"],
        "segment 0.0 6,2\nsegment 0.0 2,2\nsegment 0.0 0+1r,1\n",
        "segment 0.0 6,2 undecided crossings 1\nsegment 0.0 2,2 vertex word -\nsegment 0.0 1r,1 inside word 0.1\n",
    ),
    (
        &["--steps", "1"],
        "segment 0.0 3,1\nsegment 0.4 1,0\n",
        "refused 14 NoSuchSide line 7\n",
    ),
    (
        &[],
        "segment 0.0 100002,1\n",
        "segment 0.0 100002,1 undecided crossings 100000\n",
    ),
];

#[test]
fn budgets(rt: HostRuntime) {
    for (words, line, answer) in BUDGETS.iter() {
        let job = square_with(&rt, rt.alloc(), 6, line);
        expect_by_words(&rt, rt.alloc(), words, job, answer);
    }
}
