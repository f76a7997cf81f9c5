// Surfaces with their strata, genera, areas and cone angles.

use crate::running::{expect_lines, repeated};
use std::alloc::Global;
use std::process::Abort;

// The line of the unit square.
const SQUARE: &str = "polygon 1,0 0,1 -1,0 0,-1\n";

// That the stratum of these polygon and glue lines is answered with this text.
fn expect(rt: &impl Abort, alloc: Global, d: u16, lines: &[&str], answer: &str) {
    expect_lines(rt, alloc, d, lines, "stratum\n", answer);
}

// The square, two of them in a row, the hexagon, the octagon, the decagon, and the pentagon with
// its opposite.
static REGULAR: [(u16, &str, &str); 6] = [
    (
        2,
        "polygon 1,0 0,1 -1,0 0,-1\nglue 0.0 0.2\nglue 0.1 0.3\n",
        "stratum H(0) genus 1 vertices 1 area 1\nvertex 0.0 turns 1\n",
    ),
    (
        2,
        "polygon 1,0 0,1 -1,0 0,-1\npolygon 1,0 0,1 -1,0 0,-1\nglue 0.1 1.3\nglue 1.1 0.3\nglue 0.0 0.2\nglue 1.0 1.2\n",
        "stratum H(0,0) genus 1 vertices 2 area 2\nvertex 0.0 turns 1\nvertex 0.1 turns 1\n",
    ),
    (
        3,
        "polygon 1,0 1/2,1/2r -1/2,1/2r -1,0 -1/2,-1/2r 1/2,-1/2r\nglue 0.0 0.3\nglue 0.1 0.4\nglue 0.2 0.5\n",
        "stratum H(0,0) genus 1 vertices 2 area 3/2r\nvertex 0.0 turns 1\nvertex 0.1 turns 1\n",
    ),
    (
        2,
        "polygon 1,0 1/2r,1/2r 0,1 -1/2r,1/2r -1,0 -1/2r,-1/2r 0,-1 1/2r,-1/2r\nglue 0.0 0.4\nglue 0.1 0.5\nglue 0.2 0.6\nglue 0.3 0.7\n",
        "stratum H(2) genus 2 vertices 1 area 2+2r\nvertex 0.0 turns 3\n",
    ),
    (
        5,
        "polygon -3/4+1/4r,1 -1/2,-1/2+1/2r 1/2-1/2r,0 -1/2,1/2-1/2r -3/4+1/4r,-1 3/4-1/4r,-1 1/2,1/2-1/2r -1/2+1/2r,0 1/2,-1/2+1/2r 3/4-1/4r,1\nglue 0.0 0.5\nglue 0.1 0.6\nglue 0.2 0.7\nglue 0.3 0.8\nglue 0.4 0.9\n",
        "stratum H(1,1) genus 2 vertices 2 area 5\nvertex 0.0 turns 2\nvertex 0.1 turns 2\n",
    ),
    (
        5,
        "polygon -5/4+1/4r,1 -1/2r,-3/2+1/2r 0,1-1r 1/2r,-3/2+1/2r 5/4-1/4r,1\npolygon 5/4-1/4r,-1 1/2r,3/2-1/2r 0,-1+1r -1/2r,3/2-1/2r -5/4+1/4r,-1\nglue 0.0 1.0\nglue 0.1 1.1\nglue 0.2 1.2\nglue 0.3 1.3\nglue 0.4 1.4\n",
        "stratum H(2) genus 2 vertices 1 area 5\nvertex 0.0 turns 3\n",
    ),
];

#[test]
fn regular_polygons(rt: HostRuntime) {
    for (d, lines, answer) in REGULAR.iter() {
        expect(&rt, rt.alloc(), *d, &[lines], answer);
    }
}

// Squares by number and glue lines: the L of three; six in a row, of which the fourth and the sixth
// exchange their upper sides, so that two vertices are marked points; and eight of genus 3.
static SQUARES: [(usize, &str, &str); 3] = [
    (
        3,
        "glue 0.1 1.3\nglue 1.1 0.3\nglue 0.2 2.0\nglue 2.2 0.0\nglue 1.2 1.0\nglue 2.1 2.3\n",
        "stratum H(2) genus 2 vertices 1 area 3\nvertex 0.0 turns 3\n",
    ),
    (
        6,
        "glue 0.1 1.3\nglue 1.1 2.3\nglue 2.1 3.3\nglue 3.1 4.3\nglue 4.1 5.3\nglue 5.1 0.3\nglue 0.2 0.0\nglue 1.2 1.0\nglue 2.2 2.0\nglue 3.2 5.0\nglue 4.2 4.0\nglue 5.2 3.0\n",
        "stratum H(1,1,0,0) genus 2 vertices 4 area 6\nvertex 0.0 turns 2\nvertex 0.1 turns 1\nvertex 1.1 turns 1\nvertex 2.1 turns 2\n",
    ),
    (
        8,
        "glue 0.1 1.3\nglue 1.1 2.3\nglue 2.1 3.3\nglue 3.1 0.3\nglue 4.1 5.3\nglue 5.1 6.3\nglue 6.1 7.3\nglue 7.1 4.3\nglue 0.2 4.0\nglue 1.2 7.0\nglue 2.2 6.0\nglue 3.2 5.0\nglue 4.2 2.0\nglue 5.2 1.0\nglue 6.2 0.0\nglue 7.2 3.0\n",
        "stratum H(1,1,1,1) genus 3 vertices 4 area 8\nvertex 0.0 turns 2\nvertex 0.1 turns 2\nvertex 0.2 turns 2\nvertex 0.3 turns 2\n",
    ),
];

#[test]
fn squares(rt: HostRuntime) {
    for (count, glues, answer) in SQUARES.iter() {
        let mut lines = repeated(&rt, rt.alloc(), SQUARE, *count);
        lines.push_str(glues).expect(&rt, "memory");
        expect(&rt, rt.alloc(), 2, &[&lines], answer);
    }
}

// A polygon of 512 sides: 256 vectors of width 1, counterclockwise, and their opposites.
fn large_polygon(rt: &impl Abort, alloc: Global) -> String {
    let mut line = String::new(alloc);
    line.push_str("polygon").expect(rt, "memory");
    for rise in -128..128 {
        write!(line, " 1,{rise}").expect(rt, "memory");
    }
    for rise in (-127..129).rev() {
        write!(line, " -1,{rise}").expect(rt, "memory");
    }
    line.push_str("\n").expect(rt, "memory");
    line
}

// Glue lines of each side j of one of two such polygons and the opposite side of the other.
fn opposite_sides(rt: &impl Abort, alloc: Global) -> String {
    let mut glues = String::new(alloc);
    for j in 0..256 {
        let across = j + 256;
        writeln!(glues, "glue 0.{j} 1.{across}").expect(rt, "memory");
        writeln!(glues, "glue 0.{across} 1.{j}").expect(rt, "memory");
    }
    glues
}

// Two polygons of 512 sides. Side j of the one is glued to the opposite side of the other, so the next
// corner round the vertex is two on. Twice the area of both is 2·256·(256² - 1)/3.
#[test]
fn two_large_polygons(rt: HostRuntime) {
    let polygon = large_polygon(&rt, rt.alloc());
    let glues = opposite_sides(&rt, rt.alloc());
    expect(
        &rt,
        rt.alloc(),
        2,
        &[&polygon, &polygon, &glues],
        "stratum H(254,254) genus 255 vertices 2 area 5592320\nvertex 0.0 turns 255\nvertex 0.1 turns 255\n",
    );
}

// Areas that overflow: the second triangle of a side of 13·(10^18 - 1); the third triangle of
// a side of 9·(10^18 - 1), in the second polygon; a first triangle, whose third corner is 22·(10^18 - 1)
// from the first, by either product; the sum of the squares of two numbers without a common
// divisor, over the square of their product; and a second triangle whose corners are at
// (4,4) and (-4,4) times 10^17·√998: each product is 998·16·10^34, and their difference twice that.
static WIDE_AREAS: [(u16, &str, &str); 6] = [
    (
        2,
        "polygon 999999999999999999,0 1/13,999999999999999999 -999999999999999999,0 -1/13,-999999999999999999\nglue 0.0 0.2\nglue 0.1 0.3\n",
        "stratum overflow area 0 2 4\n",
    ),
    (
        2,
        "polygon 999999999999999999,0 1/9,999999999999999999 -999999999999999999,0 -1/9,-999999999999999999\npolygon 999999999999999999,0 1/9,999999999999999999 -999999999999999999,0 -1/9,-999999999999999999\nglue 0.0 1.2\nglue 1.0 0.2\nglue 0.1 1.3\nglue 1.1 0.3\n",
        "stratum overflow area 1 1 4\n",
    ),
    (
        2,
        "polygon 999999999999999999,999999999999999999 1/11,999999999999999999 -999999999999999999,-999999999999999999 -1/11,-999999999999999999\nglue 0.0 0.2\nglue 0.1 0.3\n",
        "stratum overflow area 0 1 1\n",
    ),
    (
        2,
        "polygon -999999999999999999,999999999999999999 -999999999999999999,1/11 999999999999999999,-999999999999999999 999999999999999999,-1/11\nglue 0.0 0.2\nglue 0.1 0.3\n",
        "stratum overflow area 0 1 2\n",
    ),
    (
        2,
        "polygon 1/5000000000,1/4999999999 -1/4999999999,1/5000000000 -1/5000000000,-1/4999999999 1/4999999999,-1/5000000000\nglue 0.0 0.2\nglue 0.1 0.3\n",
        "stratum overflow areascale 2\n",
    ),
    (
        998,
        "polygon 400000000000000000r,200000000000000000r 0,200000000000000000r -800000000000000000r,0 -400000000000000000r,-200000000000000000r 0,-200000000000000000r 800000000000000000r,0\nglue 0.0 0.3\nglue 0.1 0.4\nglue 0.2 0.5\n",
        "stratum overflow area 0 2 3\n",
    ),
];

#[test]
fn wide_areas(rt: HostRuntime) {
    for (d, lines, answer) in WIDE_AREAS.iter() {
        expect(&rt, rt.alloc(), *d, &[lines], answer);
    }
}

// The commands after an area that overflows are answered all the same.
#[test]
fn commands_after_an_area_that_overflows(rt: HostRuntime) {
    expect(
        &rt,
        rt.alloc(),
        2,
        &[
            "polygon 1/5000000000,1/4999999999 -1/4999999999,1/5000000000 -1/5000000000,-1/4999999999 1/4999999999,-1/5000000000\n",
            "glue 0.0 0.2\nglue 0.1 0.3\nstratum\ncheck\n",
        ],
        "stratum overflow areascale 2\ncheck polygons 1 sides 4\nstratum overflow areascale 2\n",
    );
}
