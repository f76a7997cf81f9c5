// Jobs with the commands `delaunay` and `cells`, and their right answers.

use crate::running::{add, expect_by_words, expect_lines, sink, words_of};
use fs_cli::{Status, flat};
use fs_io::MemSource;
use std::alloc::Global;
use std::process::Abort;

// The glue lines of a parallelogram.
const OPPOSITE: &str = "glue 0.0 0.2\nglue 0.1 0.3\n";

// That a job of one parallelogram is answered with these lines under these words.
fn expect_torus(
    rt: &impl Abort,
    alloc: Global,
    words: &[&str],
    polygon: &str,
    commands: &str,
    answer: &str,
) {
    expect_by_words(
        rt,
        alloc,
        words,
        torus(rt, alloc, polygon, commands),
        answer,
    );
}

// The job of one parallelogram, with the field of √2.
fn torus(rt: &impl Abort, alloc: Global, polygon: &str, commands: &str) -> Vec<u8> {
    let mut job = Vec::new(alloc);
    for text in [
        "flatsurf 1\nfield 2\n",
        polygon,
        OPPOSITE,
        commands,
        "end\n",
    ] {
        add(rt, &mut job, text);
    }
    job
}

// Field, polygon and glue lines, commands, answers: the square and the octagon, whose vertices are on one
// circle; the hexagon; an L of squares, of which one is sheared: three cells after three flips.
static SURFACES: [(u16, &str, &str, &str); 5] = [
    (
        2,
        "polygon 1,0 0,1 -1,0 0,-1\nglue 0.0 0.2\nglue 0.1 0.3\n",
        "delaunay\ncells\n",
        "delaunay flips 0\nface 0 1,0 0,1 -1,-1 twins 4 5 3\nface 1 1,1 -1,0 0,-1 twins 2 0 1\ncells 1 flips 0\ncell 0 faces 0 1\n",
    ),
    (
        2,
        "polygon 1,0 1/2r,1/2r 0,1 -1/2r,1/2r -1,0 -1/2r,-1/2r 0,-1 1/2r,-1/2r\nglue 0.0 0.4\nglue 0.1 0.5\nglue 0.2 0.6\nglue 0.3 0.7\n",
        "cells\ndelaunay\n",
        "cells 1 flips 0\ncell 0 faces 0 1 2 3 4 5\ndelaunay flips 0\nface 0 1,0 1/2r,1/2r -1-1/2r,-1/2r twins 10 13 3\nface 1 1+1/2r,1/2r 0,1 -1-1/2r,-1-1/2r twins 2 16 6\nface 2 1+1/2r,1+1/2r -1/2r,1/2r -1,-1-1r twins 5 17 9\nface 3 1,1+1r -1,0 0,-1-1r twins 8 0 12\nface 4 0,1+1r -1/2r,-1/2r 1/2r,-1-1/2r twins 11 1 15\nface 5 -1/2r,1+1/2r 0,-1 1/2r,-1/2r twins 14 4 7\n",
    ),
    (
        3,
        "polygon 1,0 1/2,1/2r -1/2,1/2r -1,0 -1/2,-1/2r 1/2,-1/2r\nglue 0.0 0.3\nglue 0.1 0.4\nglue 0.2 0.5\n",
        "delaunay\n",
        "delaunay flips 0\nface 0 1,0 1/2,1/2r -3/2,-1/2r twins 7 10 3\nface 1 3/2,1/2r -1/2,1/2r -1,-1r twins 2 11 6\nface 2 1,1r -1,0 0,-1r twins 5 0 9\nface 3 0,1r -1/2,-1/2r 1/2,-1/2r twins 8 1 4\n",
    ),
    (
        2,
        "polygon 1,3 0,1 -1,-3 0,-1\npolygon 1,0 0,1 -1,0 0,-1\npolygon 1,0 0,30000000000000 -1,0 0,-30000000000000\nglue 0.1 1.3\nglue 0.3 1.1\nglue 0.0 0.2\nglue 1.2 2.0\nglue 1.0 2.2\nglue 2.1 2.3\n",
        "delaunay\ncells\ncheck\n",
        "delaunay flips 3\nflip 2\nflip 1\nflip 0\nface 0 1,0 0,1 -1,-1 twins 4 11 3\nface 1 1,1 -1,0 0,-1 twins 2 0 7\nface 2 1,0 0,1 -1,-1 twins 16 5 9\nface 3 1,1 -1,0 0,-1 twins 8 12 1\nface 4 1,0 0,30000000000000 -1,-30000000000000 twins 10 17 15\nface 5 1,30000000000000 -1,0 0,-30000000000000 twins 14 6 13\ncells 3 flips 3\ncell 0 faces 0 1\ncell 1 faces 2 3\ncell 2 faces 4 5\ncheck polygons 3 sides 12\n",
    ),
    // a torus of a lattice without a right angle
    (
        2,
        "polygon 1,0 5/2,1 -1,0 -5/2,-1\nglue 0.0 0.2\nglue 0.1 0.3\n",
        "delaunay\ncells\n",
        "delaunay flips 3\nflip 2\nflip 0\nflip 1\nface 0 -1,0 1/2,-1 1/2,1 twins 4 5 3\nface 1 -1/2,-1 1,0 -1/2,1 twins 2 0 1\ncells 2 flips 3\ncell 0 faces 0\ncell 1 faces 1\n",
    ),
];

#[test]
fn surfaces(rt: HostRuntime) {
    for (d, lines, commands, answer) in SURFACES.iter() {
        expect_lines(&rt, rt.alloc(), *d, &[lines], commands, answer);
    }
}

// A parallelogram that takes two flips, within budgets up to that number and one more.
static BUDGETS: [(&str, &str); 3] = [
    (
        "1",
        "delaunay undecided flips 1\ncells undecided flips 1\ncheck polygons 1 sides 4\n",
    ),
    (
        "2",
        "delaunay flips 2\nflip 2\nflip 0\nface 0 0,1 -1,-1 1,0 twins 4 5 3\nface 1 -1,0 0,-1 1,1 twins 2 0 1\ncells 1 flips 2\ncell 0 faces 0 1\ncheck polygons 1 sides 4\n",
    ),
    (
        "3",
        "delaunay flips 2\nflip 2\nflip 0\nface 0 0,1 -1,-1 1,0 twins 4 5 3\nface 1 -1,0 0,-1 1,1 twins 2 0 1\ncells 1 flips 2\ncell 0 faces 0 1\ncheck polygons 1 sides 4\n",
    ),
];

#[test]
fn budgets(rt: HostRuntime) {
    for (steps, answer) in BUDGETS.iter() {
        expect_torus(
            &rt,
            rt.alloc(),
            &["--steps", steps],
            "polygon 1,0 2,1 -1,0 -2,-1\n",
            "delaunay\ncells\ncheck\n",
            answer,
        );
    }
}

// A parallelogram that takes a thousand flips, and the beginning of its answer.
#[test]
fn thousand_flips(rt: HostRuntime) {
    let job = torus(
        &rt,
        rt.alloc(),
        "polygon 1,0 1000,1 -1,0 -1000,-1\n",
        "delaunay\n",
    );
    let words = words_of(&rt, rt.alloc(), &["--steps=1000"]);
    let mut input = MemSource::new(job, 64, Vec::new(rt.alloc()));
    let mut out = sink(&rt, rt.alloc(), 65536, Vec::new(rt.alloc()));
    let status = flat(rt.alloc(), &words, &mut input, &mut out);
    assert!(&rt; status == Status::Done);
    assert!(&rt;
        out.held()
            .starts_with(b"delaunay flips 1000\nflip 2\nflip 0\nflip 1\nflip 2\n")
    );
    expect_torus(
        &rt,
        rt.alloc(),
        &["--steps", "999"],
        "polygon 1,0 1000,1 -1,0 -1000,-1\n",
        "delaunay\n",
        "delaunay undecided flips 999\n",
    );
}

// Parallelograms with the sides u and v, where the test of edge 0 overflows. Its faces are (u, v, -u-v) and
// (-u, -v, u+v), so the two products are (u×v)·(-v·(u+v)) twice. With (u, v) times 20: (1; 18·10^18, 18·10^18), by v.x·(u+v).y;
// one where only v.y·(u+v).x is too large; by v.x·(u+v).x; by v.y·(u+v).y; by their sum; a square of 3·10^17,
// whose product is -81·10^68; one of 33·10^8, where only the sum of both products is too large.
static WIDE: [(&str, &str); 7] = [
    (
        "polygon 1/20,0 900000000000000000,900000000000000000 -1/20,0 -900000000000000000,-900000000000000000\n",
        "circle 0 0 1",
    ),
    (
        "polygon 200000000000000001/20,0 650000000000000000,650000000000000000 -200000000000000001/20,0 -650000000000000000,-650000000000000000\n",
        "circle 0 0 2",
    ),
    (
        "polygon 1/20,0 900000000000000000,1 -1/20,0 -900000000000000000,-1\n",
        "circle 0 0 4",
    ),
    (
        "polygon 1/20,0 1,900000000000000000 -1/20,0 -1,-900000000000000000\n",
        "circle 0 0 5",
    ),
    (
        "polygon 1/20,0 500000000000000000,500000000000000000 -1/20,0 -500000000000000000,-500000000000000000\n",
        "circle 0 0 6",
    ),
    (
        "polygon 300000000000000000,0 0,300000000000000000 -300000000000000000,0 0,-300000000000000000\n",
        "circle 0 0 7",
    ),
    (
        "polygon 3300000000,0 0,3300000000 -3300000000,0 0,-3300000000\n",
        "circle 0 0 15",
    ),
];

#[test]
fn wide_circle_values(rt: HostRuntime) {
    for (polygon, site) in WIDE.iter() {
        let answer = format!(in rt.alloc();
            "delaunay overflow {site}\ncheck polygons 1 sides 4\ncells overflow {site}\n"
        ).expect(&rt, "memory");
        expect_torus(
            &rt,
            rt.alloc(),
            &[],
            polygon,
            "delaunay\ncheck\ncells\n",
            &answer,
        );
    }
}

// An L of a sheared square, a square, and a long parallelogram on it. The first takes four flips; then the test of edge 6,
// between the other two, overflows: times 20, c.x is -18·10^18, and g.x is 20 more than its negation.
#[test]
fn overflow_after_flips(rt: HostRuntime) {
    expect_lines(
        &rt,
        rt.alloc(),
        2,
        &[
            "polygon 1,61/20 0,1 -1,-61/20 0,-1\npolygon 1,0 0,1 -1,0 0,-1\n",
            "polygon 1,0 900000000000000000,900000000000000000 -1,0 -900000000000000000,-900000000000000000\n",
            "glue 0.1 1.3\nglue 0.3 1.1\nglue 0.0 0.2\nglue 1.2 2.0\nglue 1.0 2.2\nglue 2.1 2.3\n",
        ],
        "delaunay\ncells\n",
        "delaunay overflow circle 4 6 4\ncells overflow circle 4 6 4\n",
    );
}
