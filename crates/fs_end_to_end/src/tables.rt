// Jobs of billiard tables and their right answers.

use crate::running::{add, expect_answer, expect_lines, repeated, square_with};

// A field, a table, commands, and their answers.
type Row = (u16, &'static str, &'static str, &'static str);

// The triangle with an angle of 22.5°; a rectangle; a right triangle with two equal sides; one with three equal sides; and one
// with an angle of 15°, whose group has as many products as any.
static TABLES: [Row; 5] = [
    (
        2,
        "table 1,0 0,-1+1r -1,1-1r\n",
        "check\nstratum\n",
        "check polygons 16 sides 48\nstratum H(2,0,0,0,0,0) genus 2 vertices 6 area -8+8r\nvertex 0.0 turns 1\nvertex 0.1 turns 1\nvertex 0.2 turns 3\nvertex 3.2 turns 1\nvertex 5.1 turns 1\nvertex 12.2 turns 1\n",
    ),
    (
        2,
        "table 2,0 0,1 -2,0 0,-1\n",
        "check\nstratum\nflow 1,0\nsegment 0.0 4,2\n",
        "check polygons 4 sides 16\nstratum H(0,0,0,0) genus 1 vertices 4 area 8\nvertex 0.0 turns 1\nvertex 0.1 turns 1\nvertex 0.2 turns 1\nvertex 0.3 turns 1\nflow 1,0 steps 2 connections 4 components 2\nconnection 0.0 2,0\nconnection 1.1 2,0\nconnection 2.3 2,0\nconnection 3.2 2,0\ncylinder base 0 width 1 holonomy 4,0 square 16 height-square 1 area 4\ncylinder base 1 width 1 holonomy 4,0 square 16 height-square 1 area 4\nsegment 0.0 4,2 vertex word -\n",
    ),
    (
        2,
        "table 1,0 0,1 -1,-1\n",
        "check\ndelaunay\ncells\n",
        "check polygons 8 sides 24\ndelaunay flips 0\nface 0 1,0 0,1 -1,-1 twins 5 7 9\nface 1 1,-1 0,1 -1,0 twins 17 13 0\nface 2 -1,1 0,-1 1,0 twins 20 1 12\nface 3 1,1 -1,0 0,-1 twins 2 16 18\nface 4 -1,0 0,-1 1,1 twins 8 4 21\nface 5 0,-1 1,0 -1,1 twins 23 10 3\nface 6 0,1 -1,0 1,-1 twins 11 22 6\nface 7 -1,-1 1,0 0,1 twins 14 19 15\ncells 4 flips 0\ncell 0 faces 0 3\ncell 1 faces 1 5\ncell 2 faces 2 6\ncell 3 faces 4 7\n",
    ),
    (
        3,
        "table 2,0 -1,1r -1,-1r\n",
        "check\nstratum\n",
        "check polygons 6 sides 18\nstratum H(0,0,0) genus 1 vertices 3 area 6r\nvertex 0.0 turns 1\nvertex 0.1 turns 1\nvertex 0.2 turns 1\n",
    ),
    (
        3,
        "table 1,0 0,2-1r -1,-2+1r\n",
        "check\nstratum\n",
        "check polygons 24 sides 72\nstratum H(4,0,0,0,0,0,0,0) genus 3 vertices 8 area 24-12r\nvertex 0.0 turns 1\nvertex 0.1 turns 1\nvertex 0.2 turns 5\nvertex 3.2 turns 1\nvertex 5.1 turns 1\nvertex 12.2 turns 1\nvertex 14.1 turns 1\nvertex 20.2 turns 1\n",
    ),
];

#[test]
fn tables(rt: HostRuntime) {
    for (d, table, commands, answer) in TABLES.iter() {
        expect_lines(&rt, rt.alloc(), *d, &[table], commands, answer);
    }
}

// Tables that are refused, or that overflow: by their tests, by a reflection, by a product, which is listed already, by a group
// that is too large; and a corner that no copy has. No table is known that overflows while it is copied.
static STOPS: [Row; 14] = [
    (2, "table\n", "check\n", "refused 10 FewSides 0\n"),
    (2, "table 1,0 -1,0\n", "check\n", "refused 10 FewSides 0\n"),
    (
        2,
        "table 1,0 0,1 -1,0 0,-2\n",
        "check\n",
        "refused 11 NotClosed 0\n",
    ),
    (
        2,
        "table 1,0 1,0 0,1 -2,0 0,-1\n",
        "check\n",
        "refused 12 NotConvex 0.1\n",
    ),
    (
        2,
        "table 2,0 0,2 -1,0 0,-1 -1,0 0,-1\n",
        "check\n",
        "refused 12 NotConvex 0.4\n",
    ),
    (
        5,
        "table 4,0 -3,3 1,-5 1,5 -3,-3\n",
        "check\n",
        "refused 13 TurnsTwice 0\n",
    ),
    (
        2,
        "table 4,0 0,3 -4,-3\n",
        "check\n",
        "refused 19 GroupTooLarge\n",
    ),
    (
        2,
        "table 1,0 0,-1+1r -1,1-1r\n",
        "segment 15.2 1,0\nsegment 16.0 1,0\n",
        "refused 14 NoSuchSide line 5\n",
    ),
    (
        2,
        "table 1/999999999999999989,0 0,1/999999999999999967 1/999999999999999877,0 -1,-1\n",
        "check\n",
        "build overflow tscale 2 1\n",
    ),
    (
        2,
        "table 999999999999999999,0 999999999999999999,1/10000000019 0,1/10000000033\n",
        "check\n",
        "build overflow tclose 1 1\n",
    ),
    (
        998,
        "table 999999999999999999r,0 0,999999999999999999r -999999999999999999r,0 0,-999999999999999999r\n",
        "check\n",
        "build overflow tcorner 0 2\n",
    ),
    (
        998,
        "table 999999999999999999r,0 0,1 -999999999999999999r,-1\n",
        "check\n",
        "build overflow reflect 0 1\n",
    ),
    (
        2,
        "table 2000000011,5000000021 -5000000021,2000000011 -2000000011,-5000000021 5000000021,-2000000011\n",
        "check\n",
        "build overflow product 1 0 1\n",
    ),
    (
        2,
        "table 1,0 0,1 -1,0 0,-1\nglue 0.0 0.2\n",
        "check\n",
        "refused 3 BadLine line 4\n",
    ),
];

#[test]
fn stops(rt: HostRuntime) {
    for (d, table, commands, answer) in STOPS.iter() {
        expect_lines(&rt, rt.alloc(), *d, &[table], commands, answer);
    }
}

// A table of 43 pairs in place of the polygon of the unit square's job.
#[test]
fn forty_three_sides(rt: HostRuntime) {
    let pairs = repeated(&rt, rt.alloc(), " 1,0", 43);
    let mut line = Vec::new(rt.alloc());
    add(&rt, &mut line, "table");
    add(&rt, &mut line, &pairs);
    add(&rt, &mut line, "\n");
    let text = String::from_utf8(line).expect(&rt, "text");
    let job = square_with(&rt, rt.alloc(), 3, &text);
    expect_answer(&rt, rt.alloc(), job, "refused 6 TooMany line 3\n");
}
