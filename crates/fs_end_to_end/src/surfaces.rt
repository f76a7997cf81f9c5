// Polygons and gluings with their first faults and overflows.

use crate::running::{expect_change, expect_lines, repeated};
use std::alloc::Global;
use std::process::Abort;

const SQUARE: &str = "polygon 1,0 0,1 -1,0 0,-1\n";

const TWO_SQUARES: &str = "polygon 1,0 0,1 -1,0 0,-1\npolygon 1,0 0,1 -1,0 0,-1\n";

// Polygons of a kind of fault each, and how it is named of polygon 0 and of polygon 1.
static FAULTY: [(&str, &str, &str); 4] = [
    (
        "polygon 1,0 -1,0\n",
        "refused 10 FewSides 0\n",
        "refused 10 FewSides 1\n",
    ),
    (
        "polygon 1,0 0,1 -1,0 0,-2\n",
        "refused 11 NotClosed 0\n",
        "refused 11 NotClosed 1\n",
    ),
    (
        "polygon 1,0 1,0 0,1 -2,0 0,-1\n",
        "refused 12 NotConvex 0.1\n",
        "refused 12 NotConvex 1.1\n",
    ),
    (
        "polygon 3,2 -4,0 3,-2 -1,3 -1,-3\n",
        "refused 13 TurnsTwice 0\n",
        "refused 13 TurnsTwice 1\n",
    ),
];

// Glue lines of the unit square and another polygon: a side that isn't there, one glued twice, two
// that aren't opposite, none at all, and those of the square alone.
static FAULTY_LINES: [&str; 5] = [
    "glue 0.0 0.9\n",
    "glue 0.0 0.0\n",
    "glue 0.0 0.1\n",
    "",
    "glue 0.0 0.2\nglue 0.1 0.3\n",
];

// A square whose corner 0 overflows: 998·999999999999999999² is beyond 2^127.
const WIDE: &str =
    "polygon 999999999999999999r,0 0,999999999999999999r -999999999999999999r,0 0,-999999999999999999r\n";

// That the job which checks these polygon and glue lines is answered with this line.
fn expect(rt: &impl Abort, alloc: Global, d: u16, lines: &[&str], answer: &str) {
    expect_lines(rt, alloc, d, lines, "check\n", answer);
}

// Each row puts a text in place of a line of the unit square's job.
static CHANGES: [(usize, &str, &str); 26] = [
    (0, "", "check polygons 1 sides 4\n"),
    (
        3,
        "polygon 999999999999999999,0 0,1 -999999999999999999,0 0,-1\n",
        "check polygons 1 sides 4\n",
    ),
    (
        3,
        "polygon 1+1r,0 0,2-1r -1-1r,0 0,-2+1r\n",
        "check polygons 1 sides 4\n",
    ),
    (3, "polygon\n", "refused 10 FewSides 0\n"),
    (3, "polygon 1,0\n", "refused 10 FewSides 0\n"),
    (3, "polygon 1,0 -1,0\n", "refused 10 FewSides 0\n"),
    (3, "polygon 1,0 0,1 -1,0 0,-2\n", "refused 11 NotClosed 0\n"),
    (
        3,
        "polygon 1,0 0,1r -1,0 0,-1\n",
        "refused 11 NotClosed 0\n",
    ),
    (
        3,
        "polygon 1,0 1,0 0,1 -2,0 0,-1\n",
        "refused 12 NotConvex 0.1\n",
    ),
    (
        3,
        "polygon 1,0 0,0 0,1 -1,0 0,-1\n",
        "refused 12 NotConvex 0.1\n",
    ),
    (
        3,
        "polygon 0,1 1,0 0,-1 -1,0\n",
        "refused 12 NotConvex 0.0\n",
    ),
    (
        3,
        "polygon 3,2 -4,0 3,-2 -1,3 -1,-3\n",
        "refused 13 TurnsTwice 0\n",
    ),
    (4, "glue 0.0 0.7\n", "refused 14 NoSuchSide line 4\n"),
    (4, "glue 0.4 0.0\n", "refused 14 NoSuchSide line 4\n"),
    (4, "glue 1.0 0.2\n", "refused 14 NoSuchSide line 4\n"),
    (4, "glue 0.2 9999.9999\n", "refused 14 NoSuchSide line 4\n"),
    (4, "glue 0.0 0.0\n", "refused 15 GluedTwice line 4\n"),
    (
        4,
        "glue 0.0 0.0\nglue 0.1 0.0\n",
        "refused 15 GluedTwice line 4\n",
    ),
    (5, "glue 0.1 0.2\n", "refused 15 GluedTwice line 5\n"),
    (5, "glue 0.0 0.3\n", "refused 15 GluedTwice line 5\n"),
    (
        5,
        "glue 0.1 0.3\nglue 0.3 0.1\n",
        "refused 15 GluedTwice line 6\n",
    ),
    (4, "glue 0.0 0.1\n", "refused 16 NotOpposite line 4\n"),
    (4, "", "refused 17 Unglued 0.0\n"),
    (5, "", "refused 17 Unglued 0.1\n"),
    (
        3,
        "polygon 1,0 0,1 -1,0 0,-1\npolygon 1,0 0,1 -1,0 0,-1\n",
        "refused 17 Unglued 1.0\n",
    ),
    (4, "glue 0.0000 00.2\n", "check polygons 1 sides 4\n"),
];

#[test]
fn one_change(rt: HostRuntime) {
    for (number, text, answer) in CHANGES.iter() {
        expect_change(&rt, rt.alloc(), *number, text, answer);
    }
}

// Two faults at once, of each two kinds: the one that is earlier in the order is named. The order
// is: each polygon in turn, with FewSides, NotClosed, NotConvex, TurnsTwice; each glue line in turn,
// with NoSuchSide, GluedTwice, NotOpposite; Unglued; Apart.
static TWO_FAULTS: [(&str, &str, &str); 23] = [
    // In one polygon: sides that are few with each of the others, and so on.
    ("polygon 1,0\n", "", "refused 10 FewSides 0\n"),
    ("polygon 1,0 -1,0\n", "", "refused 10 FewSides 0\n"),
    ("polygon\n", "", "refused 10 FewSides 0\n"),
    ("polygon 1,0 1,0 0,1\n", "", "refused 11 NotClosed 0\n"),
    (
        "polygon 3,2 -4,0 3,-2 -1,3 -1,-4\n",
        "",
        "refused 11 NotClosed 0\n",
    ),
    (
        "polygon 3,2 -4,0 3,-2 -1,3 -1,-3 1,0 -1,0\n",
        "",
        "refused 12 NotConvex 0.0\n",
    ),
    // On one line.
    (SQUARE, "glue 0.9 0.9\n", "refused 14 NoSuchSide line 4\n"),
    (SQUARE, "glue 0.0 0.9\n", "refused 14 NoSuchSide line 4\n"),
    (SQUARE, "glue 0.0 0.0\n", "refused 15 GluedTwice line 4\n"),
    // On two lines, in both orders.
    (
        SQUARE,
        "glue 0.0 0.9\nglue 0.1 0.1\n",
        "refused 14 NoSuchSide line 4\n",
    ),
    (
        SQUARE,
        "glue 0.1 0.1\nglue 0.0 0.9\n",
        "refused 15 GluedTwice line 4\n",
    ),
    (
        SQUARE,
        "glue 0.0 0.9\nglue 0.1 0.2\n",
        "refused 14 NoSuchSide line 4\n",
    ),
    (
        SQUARE,
        "glue 0.1 0.2\nglue 0.0 0.9\n",
        "refused 16 NotOpposite line 4\n",
    ),
    (
        SQUARE,
        "glue 0.1 0.1\nglue 0.2 0.3\n",
        "refused 15 GluedTwice line 4\n",
    ),
    (
        SQUARE,
        "glue 0.2 0.3\nglue 0.1 0.1\n",
        "refused 16 NotOpposite line 4\n",
    ),
    // A line, and a side on no line.
    (
        SQUARE,
        "glue 0.0 0.2\nglue 0.1 0.9\n",
        "refused 14 NoSuchSide line 5\n",
    ),
    (
        SQUARE,
        "glue 0.0 0.2\nglue 0.2 0.1\n",
        "refused 15 GluedTwice line 5\n",
    ),
    (SQUARE, "glue 0.1 0.0\n", "refused 16 NotOpposite line 4\n"),
    // A line, and a polygon that isn't reached.
    (
        TWO_SQUARES,
        "glue 0.0 0.2\nglue 0.1 0.3\nglue 1.0 1.2\nglue 1.1 1.3\nglue 1.0 1.9\n",
        "refused 14 NoSuchSide line 9\n",
    ),
    (
        TWO_SQUARES,
        "glue 0.0 0.2\nglue 0.1 0.3\nglue 1.0 1.2\nglue 1.1 1.3\nglue 1.2 1.0\n",
        "refused 15 GluedTwice line 9\n",
    ),
    (
        TWO_SQUARES,
        "glue 0.0 0.2\nglue 0.1 0.3\nglue 1.0 1.1\nglue 1.2 1.3\n",
        "refused 16 NotOpposite line 7\n",
    ),
    // A side on no line, and a polygon that isn't reached.
    (
        TWO_SQUARES,
        "glue 0.0 0.2\nglue 0.1 0.3\nglue 1.0 1.2\n",
        "refused 17 Unglued 1.1\n",
    ),
    // A second square that is glued to itself alone.
    (
        TWO_SQUARES,
        "glue 0.0 0.2\nglue 0.1 0.3\nglue 1.0 1.2\nglue 1.1 1.3\n",
        "refused 18 Apart 1\n",
    ),
];

#[test]
fn two_faults(rt: HostRuntime) {
    for (polygons, glues, answer) in TWO_FAULTS.iter() {
        expect(&rt, rt.alloc(), 2, &[polygons, glues], answer);
    }
}

// A faulty polygon before each other, and before all that is tested after polygons.
#[test]
fn polygon_and_later_fault(rt: HostRuntime) {
    for (first, at_0, at_1) in FAULTY.iter() {
        for (second, _, _) in FAULTY.iter() {
            expect(&rt, rt.alloc(), 2, &[first, second], at_0);
        }
        for glues in FAULTY_LINES.iter() {
            expect(&rt, rt.alloc(), 2, &[SQUARE, first, glues], at_1);
        }
    }
}

// Corners that overflow. A corner's site comes before its sign, and both before the next
// corner's.
static WIDE_CORNERS: [(&str, &str); 5] = [
    (WIDE, "build overflow corner 0 0 2\n"),
    (
        "polygon 0,999999999999999999r -999999999999999999r,0 0,-999999999999999999r 999999999999999999r,0\n",
        "build overflow corner 0 0 1\n",
    ),
    (
        "polygon 400000000000000000r,400000000000000000r -400000000000000000r,400000000000000000r -400000000000000000r,-400000000000000000r 400000000000000000r,-400000000000000000r\n",
        "build overflow corner 0 0 3\n",
    ),
    (
        "polygon 1,0 1,0 0,999999999999999999r -999999999999999999r,0 -2+999999999999999999r,-999999999999999999r\n",
        "refused 12 NotConvex 0.1\n",
    ),
    (
        "polygon 0,999999999999999999r -999999999999999999r,0 -2+999999999999999999r,-999999999999999999r 1,0 1,0\n",
        "build overflow corner 0 1 2\n",
    ),
];

#[test]
fn wide_corners(rt: HostRuntime) {
    for (polygon, answer) in WIDE_CORNERS.iter() {
        expect(&rt, rt.alloc(), 998, &[polygon], answer);
    }
}

// A polygon with a corner that overflows, after and before one with a fault: the first of both is named.
#[test]
fn wide_corner_and_fault(rt: HostRuntime) {
    let wide = "build overflow corner 0 0 2\n";
    for (faulty, at_0, _) in FAULTY.iter() {
        expect(&rt, rt.alloc(), 998, &[faulty, WIDE], at_0);
        expect(&rt, rt.alloc(), 998, &[WIDE, faulty], wide);
    }
}

// Sides whose common denominator overflows at the third one, before it is tested whether they
// close; one whose parts overflow; and two that are scaled before the first polygon is tested. The
// product of the two denominators is 44·10^18 - 363 less than 10^36: 170 times it fits, and 171 times
// it is greater than 2^127.
static WIDE_SCALES: [(&str, &str, &str); 10] = [
    (
        "polygon 1/999999999999999989,0 0,1/999999999999999967 1/999999999999999877,0 -1,-1\n",
        "",
        "build overflow scale 0 2 1\n",
    ),
    (
        "polygon 1/999999999999999989,0 0,1/999999999999999967 999999999999999999,1/3 -1,-1\n",
        "",
        "build overflow scale 0 2 3\n",
    ),
    (
        "polygon 1,0\n",
        "polygon 1/999999999999999989,1/999999999999999967 1/2,1/999999999999999877\n",
        "build overflow scale 1 1 2\n",
    ),
    (
        "polygon 1/999999999999999989,0 0,1/2 -1/999999999999999989,0 0,-1/2\n",
        "",
        "refused 17 Unglued 0.0\n",
    ),
    (
        "polygon 1/999999999999999989,0 0,1/999999999999999967 171,0 -1,-1\n",
        "",
        "build overflow scale 0 2 3\n",
    ),
    (
        "polygon 1/999999999999999989,0 0,1/999999999999999967 170-171r,171 -1,-1\n",
        "",
        "build overflow scale 0 2 4\n",
    ),
    (
        "polygon 1/999999999999999989,0 0,1/999999999999999967 170-170r,171+171r -1,-1\n",
        "",
        "build overflow scale 0 2 5\n",
    ),
    (
        "polygon 1/999999999999999989,0 0,1/999999999999999967 -170+170r,170-171r -1,-1\n",
        "",
        "build overflow scale 0 2 6\n",
    ),
    (
        "polygon 1/999999999999999989,0 0,1/999999999999999967 170+170r,170+170r -1,-1\n",
        "",
        "refused 11 NotClosed 0\n",
    ),
    (
        "polygon 1/999999999999999989,1/999999999999999967\n",
        "polygon 1,0 0,171r\n",
        "build overflow scale 1 1 6\n",
    ),
];

#[test]
fn wide_scales(rt: HostRuntime) {
    for (first, second, answer) in WIDE_SCALES.iter() {
        expect(&rt, rt.alloc(), 2, &[first, second], answer);
    }
}

// Positions that overflow: 340 times the same product. They are tried after `FewSides` and before
// `NotClosed` and the corners.
static WIDE_POSITIONS: [(&str, &str, &str); 8] = [
    (
        "polygon 1/999999999999999989,0 0,1/999999999999999967 170,0 170,0\n",
        "",
        "build overflow close 0 3 1\n",
    ),
    (
        "polygon 0,-170 170,-170 1/999999999999999989,1/999999999999999967\n",
        "",
        "build overflow close 0 1 2\n",
    ),
    (
        "polygon 1/999999999999999989,1/999999999999999967 -170r,170r -170r,170r 0,1 0,1\n",
        "",
        "build overflow close 0 2 1\n",
    ),
    (
        "polygon 1/999999999999999989,1/999999999999999967 1r,170r 1,1 1r,170r\n",
        "",
        "build overflow close 0 3 2\n",
    ),
    (
        "polygon 1/999999999999999989,0 0,1/999999999999999967 -1/999999999999999989,0 0,-1/999999999999999967\n",
        "polygon 170r,0 170r,0 0,1\n",
        "build overflow close 1 1 1\n",
    ),
    (
        "polygon 1/999999999999999989,0 0,1/999999999999999967 -1/999999999999999989,0 0,-1/999999999999999967\n",
        "polygon 170r,0 170r,0\n",
        "refused 10 FewSides 1\n",
    ),
    (
        "polygon 1/999999999999999989,1/999999999999999967 170,0 170,0 -170,0 -170,0 -1/999999999999999989,-1/999999999999999967\n",
        "",
        "build overflow close 0 2 1\n",
    ),
    (
        "polygon 1/999999999999999989,1/999999999999999967 170,0 -170,0 170,0 -170,0 -1/999999999999999989,-1/999999999999999967\n",
        "",
        "refused 12 NotConvex 0.0\n",
    ),
];

#[test]
fn wide_positions(rt: HostRuntime) {
    for (first, second, answer) in WIDE_POSITIONS.iter() {
        expect(&rt, rt.alloc(), 2, &[first, second], answer);
    }
}

// The glue lines of so many squares in a row, or in two rows of equal length. Each side 1 is glued to
// side 3 of the next square, that of a row's last square to the first one's, and each side 0 to the
// square's own side 2.
fn rings(rt: &impl Abort, alloc: Global, squares: u16, two: bool) -> String {
    let mut glues = String::new(alloc);
    let half = squares / 2;
    for i in 0..squares {
        let next = match i.saturating_add(1) {
            next if two && next == half => 0,
            next if two && next == squares => half,
            next if next == squares => 0,
            next => next,
        };
        writeln!(glues, "glue {i}.1 {next}.3").expect(rt, "memory");
        writeln!(glues, "glue {i}.0 {i}.2").expect(rt, "memory");
    }
    glues
}

// As many polygons and sides as there may be, and one polygon more.
static LIMITS: [(u16, bool, &str); 3] = [
    (256, false, "check polygons 256 sides 1024\n"),
    (256, true, "refused 18 Apart 128\n"),
    (257, false, "refused 6 TooMany line 259\n"),
];

#[test]
fn limits(rt: HostRuntime) {
    for (squares, two, answer) in LIMITS.iter() {
        let polygons = repeated(&rt, rt.alloc(), SQUARE, usize::from(*squares));
        let glues = rings(&rt, rt.alloc(), *squares, *two);
        expect(&rt, rt.alloc(), 2, &[&polygons, &glues], answer);
    }
}
