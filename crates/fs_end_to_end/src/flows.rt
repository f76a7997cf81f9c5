// Jobs with the command `flow`, and their right answers.

use crate::running::{expect_answer, expect_by_words, expect_change, expect_lines, square_with};

// The glue lines of a parallelogram.
const OPPOSITE: &str = "glue 0.0 0.2\nglue 0.1 0.3\n";

const OCTAGON: &str =
    "polygon 1,0 1/2r,1/2r 0,1 -1/2r,1/2r -1,0 -1/2r,-1/2r 0,-1 1/2r,-1/2r\nglue 0.0 0.4\nglue 0.1 0.5\nglue 0.2 0.6\nglue 0.3 0.7\n";

// An L of a square and two rectangles.
const THREE: &str =
    "polygon 1,0 0,1 -1,0 0,-1\npolygon 1r,0 0,1 -1r,0 0,-1\npolygon 1,0 0,1r -1,0 0,-1r\nglue 0.1 1.3\nglue 1.1 0.3\nglue 0.2 2.0\nglue 2.2 0.0\nglue 1.2 1.0\nglue 2.1 2.3\n";

// Directions on the unit square: two that close at once, one that does after three steps and so does twice that vector, the
// opposite of the first, and one of irrational slope, whose flow is minimal.
static SQUARE: [(&str, &str); 7] = [
    (
        "flow 1,0\n",
        "flow 1,0 steps 0 connections 1 components 1\nconnection 0.0 1,0\ncylinder base 0 width 1 holonomy 1,0 square 1 height-square 1 area 1\n",
    ),
    (
        "flow 0,1\n",
        "flow 0,1 steps 0 connections 1 components 1\nconnection 0.1 0,1\ncylinder base 0 width 1 holonomy 0,1 square 1 height-square 1 area 1\n",
    ),
    (
        "flow 3,2\n",
        "flow 3,2 steps 3 connections 1 components 1\nconnection 0.0 3,2\ncylinder base 0 width 1 holonomy 3,2 square 13 height-square 1/13 area 1\n",
    ),
    (
        "flow 006,4+0r\n",
        "flow 6,4 steps 3 connections 1 components 1\nconnection 0.0 3,2\ncylinder base 0 width 2 holonomy 3,2 square 13 height-square 1/13 area 1\n",
    ),
    (
        "flow -1,0\n",
        "flow -1,0 steps 0 connections 1 components 1\nconnection 0.2 -1,0\ncylinder base 0 width 1 holonomy -1,0 square 1 height-square 1 area 1\n",
    ),
    (
        "flow 1,1r\n",
        "flow 1,1r steps 7 connections 0 components 1\nminimal base 0 width 10-7r letters 2 loop 3 7 area 1\n",
    ),
    (
        "check\nflow 1,1r\nsaddles 0\n",
        "check polygons 1 sides 4\nflow 1,1r steps 7 connections 0 components 1\nminimal base 0 width 10-7r letters 2 loop 3 7 area 1\nsaddles 0 count 0 live 0 flips 0\n",
    ),
];

#[test]
fn unit_square(rt: HostRuntime) {
    for (commands, answer) in SQUARE.iter() {
        expect_answer(
            &rt,
            rt.alloc(),
            square_with(&rt, rt.alloc(), 6, commands),
            answer,
        );
    }
}

// Field, lines of the surface, commands, answers: the L, whose only step along (1,0) is a merge that finds no connection, and whose
// flow along (2,1+√2) has a part with a loop beside a cylinder; the octagon, which has sides with denominators; three
// unit squares, of which one cylinder makes the whole surface.
static SURFACES: [(u16, &str, &str, &str); 5] = [
    (
        2,
        THREE,
        "flow 1,0\n",
        "flow 1,0 steps 1 connections 3 components 2\nconnection 0.0 1,0\nconnection 2.0 1,0\nconnection 1.0 1r,0\ncylinder base 0 width 1 holonomy 1+1r,0 square 3+2r height-square 1 area 1+1r\ncylinder base 2 width 1r holonomy 1,0 square 1 height-square 2 area 1r\n",
    ),
    (
        2,
        THREE,
        "flow 2,1+1r\n",
        "flow 2,1+1r steps 17 connections 2 components 2\nconnection 0.0 2,1+1r\nconnection 2.0 2,1+1r\nminimal base 0 width 10-7r letters 2 loop 3 7 area 2+1r\ncylinder base 2 width -1+1r holonomy 2,1+1r square 7+2r height-square 29/41-20/41r area -1+1r\n",
    ),
    (
        2,
        OCTAGON,
        "flow 1,0\n",
        "flow 1,0 steps 1 connections 3 components 2\nconnection 0.0 1,0\nconnection 0.6 1+1r,0\nconnection 0.7 1+1r,0\ncylinder base 0 width 1/2r holonomy 2+1r,0 square 6+4r height-square 1/2 area 1+1r\ncylinder base 1/2r width 1 holonomy 1+1r,0 square 3+2r height-square 1 area 1+1r\n",
    ),
    (
        2,
        OCTAGON,
        "flow 1,2\n",
        "flow 1,2 steps 16 connections 3 components 2\nconnection 0.7 3+2r,6+4r\nconnection 0.0 7+5r,14+10r\nconnection 0.1 7+5r,14+10r\ncylinder base 0 width -2+3/2r holonomy 10+7r,20+14r square 990+700r height-square 17/10-6/5r area 1+1r\ncylinder base -2+3/2r width 3-2r holonomy 7+5r,14+10r square 495+350r height-square 17/5-12/5r area 1+1r\n",
    ),
    (
        2,
        "polygon 1,0 0,1 -1,0 0,-1\npolygon 1,0 0,1 -1,0 0,-1\npolygon 1,0 0,1 -1,0 0,-1\nglue 0.1 1.3\nglue 1.1 0.3\nglue 0.2 2.0\nglue 2.2 0.0\nglue 1.2 1.0\nglue 2.1 2.3\n",
        "flow 1,1\n",
        "flow 1,1 steps 5 connections 3 components 1\nconnection 0.0 1,1\nconnection 1.0 1,1\nconnection 2.0 1,1\ncylinder base 0 width 1 holonomy 3,3 square 18 height-square 1/2 area 3\n",
    ),
];

#[test]
fn surfaces(rt: HostRuntime) {
    for (d, lines, commands, answer) in SURFACES.iter() {
        expect_lines(&rt, rt.alloc(), *d, &[lines], commands, answer);
    }
}

// Budgets, of which the flow along (1,√2) on the unit square takes 7, and the one along (3,2) 3. Each command has its own.
static BUDGETS: [(&str, &str, &str); 9] = [
    ("1", "flow 1,1r\n", "flow 1,1r undecided steps 1\n"),
    ("2", "flow 1,1r\n", "flow 1,1r undecided steps 2\n"),
    ("3", "flow 1,1r\n", "flow 1,1r undecided steps 3\n"),
    ("4", "flow 1,1r\n", "flow 1,1r undecided steps 4\n"),
    ("5", "flow 1,1r\n", "flow 1,1r undecided steps 5\n"),
    ("6", "flow 1,1r\n", "flow 1,1r undecided steps 6\n"),
    (
        "2",
        "flow 3,2\nflow 1,0\nflow 03,2\n",
        "flow 3,2 undecided steps 2\nflow 1,0 steps 0 connections 1 components 1\nconnection 0.0 1,0\ncylinder base 0 width 1 holonomy 1,0 square 1 height-square 1 area 1\nflow 3,2 undecided steps 2\n",
    ),
    (
        "7",
        "flow 1,1r\n",
        "flow 1,1r steps 7 connections 0 components 1\nminimal base 0 width 10-7r letters 2 loop 3 7 area 1\n",
    ),
    (
        "8",
        "flow 1,1r\n",
        "flow 1,1r steps 7 connections 0 components 1\nminimal base 0 width 10-7r letters 2 loop 3 7 area 1\n",
    ),
];

#[test]
fn budgets(rt: HostRuntime) {
    for (steps, commands, answer) in BUDGETS.iter() {
        expect_by_words(
            &rt,
            rt.alloc(),
            &["--steps", steps],
            square_with(&rt, rt.alloc(), 6, commands),
            answer,
        );
    }
}

// Lines in place of `check`, and what is refused.
static REFUSED: [(&str, &str); 8] = [
    ("flow 0,0\n", "refused 8 ZeroDirection line 6\n"),
    ("flow 0r,-0\n", "refused 8 ZeroDirection line 6\n"),
    ("flow 1/2,1\n", "refused 4 BadNumber line 6\n"),
    ("flow 1,4/2\n", "refused 4 BadNumber line 6\n"),
    (
        "flow x,1234567890123456789\n",
        "refused 4 BadNumber line 6\n",
    ),
    ("flow 1/1234567890123456789,x\n", "refused 9 Wide line 6\n"),
    ("flow 1\n", "refused 3 BadLine line 6\n"),
    ("flow 1,0 1,0\n", "refused 3 BadLine line 6\n"),
];

#[test]
fn refused(rt: HostRuntime) {
    for (line, answer) in REFUSED.iter() {
        expect_change(&rt, rt.alloc(), 6, line, answer);
    }
}

// Field, polygon, commands, answers, by the sites. At side 0.1 the r parts of the cross product's second product are multiplied
// to 998·(10^18 - 1)^2. The sides of a square are 2·10^17, which is over 2^57. The square of a width of (10^18 - 1)·√998 is too large.
// In a parallelogram a share of its area overflows, an event, and a connection.
static SITES: [(u16, &str, &str, &str); 3] = [
    (
        998,
        "polygon 1,0 0,999999999999999999r -1,0 0,-999999999999999999r\n",
        "flow 999999999999999999r,0\nflow 0,1\nflow 1,0\n",
        "flow 999999999999999999r,0 overflow letter 0 1 2\nflow 0,1 overflow keep 0 4\nflow 1,0 overflow value 0 6\n",
    ),
    (
        2,
        "polygon 200000000000000000,0 0,200000000000000000 -200000000000000000,0 0,-200000000000000000\n",
        "flow 1,0\n",
        "flow 1,0 overflow keep 0 1\n",
    ),
    (
        3,
        "polygon 100000000000000000,200000000000000000 -200000000000000000,300000000000000000-100000000000000000r -100000000000000000,-200000000000000000 200000000000000000,-300000000000000000+100000000000000000r\n",
        "flow 3+1r,2+1r\nflow 2,3+1r\nflow -1,-2\n",
        "flow 3+1r,2+1r overflow value 0 24\nflow 2,3+1r overflow event 24 7\nflow -1,-2 overflow keep 0 3\n",
    ),
];

#[test]
fn wide_flows(rt: HostRuntime) {
    for (d, polygon, commands, answer) in SITES.iter() {
        expect_lines(&rt, rt.alloc(), *d, &[polygon, OPPOSITE], commands, answer);
    }
}

// Two rectangles of width (10^18 - 1)·1000, scaled, in one row: each measures nearly 10^38, and both together more than 2^127.
#[test]
fn wide_total(rt: HostRuntime) {
    expect_lines(
        &rt,
        rt.alloc(),
        2,
        &[
            "polygon 999999999999999999,0 0,1/1000 -999999999999999999,0 0,-1/1000\n",
            "polygon 999999999999999999,0 0,1/1000 -999999999999999999,0 0,-1/1000\n",
            "glue 0.0 0.2\nglue 1.0 1.2\nglue 0.1 1.3\nglue 1.1 0.3\n",
        ],
        "flow 0,100000000000000000\nflow 0,1\n",
        "flow 0,100000000000000000 overflow letter 1 0 4\nflow 0,1 overflow value 0 6\n",
    );
}
