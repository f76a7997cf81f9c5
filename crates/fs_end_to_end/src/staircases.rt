// Staircases: their summaries, computed by another program, whatever the source holds.

use crate::running::{add, sink, square_with, words_of};
use fs_cli::{Status, flat};
use fs_io::{MemSink, MemSource};
use std::alloc::Global;
use std::process::Abort;

// The number of rectangles, the seed, and the lines of the summary.
static SUMMARIES: [(&str, &str, &[&str]); 12] = [
    (
        "1",
        "0",
        &[
            "staircase 1 seed 0",
            "stratum H(0) genus 1 vertices 1 area 1",
            "delaunay flips 0",
            "saddles 1 count 4 live 14 flips 0",
            "flow 1,0 steps 0 connections 1 components 1",
            "flow 0,1 steps 0 connections 1 components 1",
        ],
    ),
    (
        "1",
        "1",
        &[
            "staircase 1 seed 1",
            "stratum H(0) genus 1 vertices 1 area 17+12r",
            "delaunay flips 0",
            "saddles 1 count 0 live 0 flips 0",
            "flow 1,0 steps 0 connections 1 components 1",
            "flow 0,1 steps 0 connections 1 components 1",
        ],
    ),
    (
        "1",
        "999999999",
        &[
            "staircase 1 seed 999999999",
            "stratum H(0) genus 1 vertices 1 area 6+6r",
            "delaunay flips 0",
            "saddles 1 count 0 live 0 flips 0",
            "flow 1,0 steps 0 connections 1 components 1",
            "flow 0,1 steps 0 connections 1 components 1",
        ],
    ),
    (
        "2",
        "0",
        &[
            "staircase 2 seed 0",
            "stratum H(0,0) genus 1 vertices 2 area 2",
            "delaunay flips 0",
            "saddles 1 count 8 live 28 flips 0",
            "flow 1,0 steps 1 connections 2 components 1",
            "flow 0,1 steps 0 connections 2 components 2",
        ],
    ),
    (
        "2",
        "1",
        &[
            "staircase 2 seed 1",
            "stratum H(0,0) genus 1 vertices 2 area 31+22r",
            "delaunay flips 0",
            "saddles 1 count 0 live 0 flips 0",
            "flow 1,0 steps 1 connections 2 components 1",
            "flow 0,1 steps 0 connections 2 components 2",
        ],
    ),
    (
        "2",
        "999999999",
        &[
            "staircase 2 seed 999999999",
            "stratum H(0,0) genus 1 vertices 2 area 18+12r",
            "delaunay flips 0",
            "saddles 1 count 0 live 0 flips 0",
            "flow 1,0 steps 1 connections 2 components 1",
            "flow 0,1 steps 0 connections 2 components 2",
        ],
    ),
    (
        "3",
        "0",
        &[
            "staircase 3 seed 0",
            "stratum H(2) genus 2 vertices 1 area 4+2r",
            "delaunay flips 0",
            "saddles 1 count 10 live 36 flips 0",
            "flow 1,0 steps 1 connections 3 components 2",
            "flow 0,1 steps 1 connections 3 components 2",
        ],
    ),
    (
        "3",
        "1",
        &[
            "staircase 3 seed 1",
            "stratum H(2) genus 2 vertices 1 area 47+34r",
            "delaunay flips 0",
            "saddles 1 count 0 live 0 flips 0",
            "flow 1,0 steps 1 connections 3 components 2",
            "flow 0,1 steps 1 connections 3 components 2",
        ],
    ),
    (
        "3",
        "999999999",
        &[
            "staircase 3 seed 999999999",
            "stratum H(2) genus 2 vertices 1 area 26+18r",
            "delaunay flips 0",
            "saddles 1 count 0 live 0 flips 0",
            "flow 1,0 steps 1 connections 3 components 2",
            "flow 0,1 steps 1 connections 3 components 2",
        ],
    ),
    (
        "200",
        "0",
        &[
            "staircase 200 seed 0",
            "stratum H(99,99) genus 100 vertices 2 area 1641+1010r",
            "delaunay flips 0",
            "saddles 1 count 74 live 288 flips 0",
            "flow 1,0 steps 100 connections 200 components 100",
            "flow 0,1 steps 99 connections 200 components 101",
        ],
    ),
    (
        "200",
        "1",
        &[
            "staircase 200 seed 1",
            "stratum H(99,99) genus 100 vertices 2 area 1780+1053r",
            "delaunay flips 0",
            "saddles 1 count 60 live 234 flips 0",
            "flow 1,0 steps 100 connections 200 components 100",
            "flow 0,1 steps 99 connections 200 components 101",
        ],
    ),
    (
        "200",
        "999999999",
        &[
            "staircase 200 seed 999999999",
            "stratum H(99,99) genus 100 vertices 2 area 1680+1009r",
            "delaunay flips 0",
            "saddles 1 count 68 live 272 flips 0",
            "flow 1,0 steps 100 connections 200 components 100",
            "flow 0,1 steps 99 connections 200 components 101",
        ],
    ),
];

// The same words in each order and each form.
static FORMS: [&[&str]; 16] = [
    &["--staircase", "1", "--seed", "0"],
    &["--seed", "0", "--staircase", "1"],
    &["--staircase=1", "--seed", "0"],
    &["--staircase", "1", "--seed=0"],
    &["--staircase=1", "--seed=0"],
    &["--seed=0", "--staircase=1"],
    &["--seed=0", "--staircase", "1"],
    &["--staircase", "000000001", "--seed", "000000000"],
    &["--staircase=001", "--seed=00"],
    &["--steps", "99", "--staircase", "1", "--seed", "0"],
    &["--staircase", "1", "--steps", "99", "--seed", "0"],
    &["--staircase", "1", "--seed", "0", "--steps", "99"],
    &["--seed", "0", "--steps=99", "--staircase", "1"],
    &["--steps=1000000", "--seed=0", "--staircase=1"],
    &["--seed=0", "--staircase=1", "--steps=14"],
    &["--staircase=1", "--steps=000000014", "--seed=0"],
];

// How a run with these words ends, over a source that would fail at its first call.
fn run(rt: &impl Abort, alloc: Global, texts: &[&str]) -> (Status, MemSource, MemSink) {
    let words = words_of(rt, alloc, texts);
    let mut failing = Vec::new(alloc);
    failing.push(0).expect(rt, "memory");
    let mut input = MemSource::new(square_with(rt, alloc, 0, ""), 8, failing);
    let mut out = sink(rt, alloc, 1024, Vec::new(alloc));
    let status = flat(alloc, &words, &mut input, &mut out);
    (status, input, out)
}

// That these words are answered with these lines and this status, and that nothing of the source is taken.
fn expect_summary(rt: &impl Abort, alloc: Global, texts: &[&str], lines: &[&str], meant: Status) {
    let (status, input, out) = run(rt, alloc, texts);
    let mut answer = Vec::new(alloc);
    for line in lines.iter() {
        add(rt, &mut answer, line);
        add(rt, &mut answer, "\n");
    }
    assert!(rt; out.held() == answer.as_slice(), "{texts:?}");
    assert!(rt; status == meant, "{texts:?}");
    assert!(rt; input.left() == square_with(rt, alloc, 0, "").as_slice());
    assert!(rt; input.faults() == 0 && out.faults() == 0);
}

#[test]
fn summaries(rt: HostRuntime) {
    for (rectangles, seed, lines) in SUMMARIES.iter() {
        let words = ["--staircase", *rectangles, "--seed", *seed];
        expect_summary(&rt, rt.alloc(), &words, lines, Status::Done);
    }
}

// The words in each order and form have one answer.
#[test]
fn forms(rt: HostRuntime) {
    let (_, _, lines) = SUMMARIES[0];
    for texts in FORMS.iter() {
        expect_summary(&rt, rt.alloc(), texts, lines, Status::Done);
    }
}

// A staircase of 200 rectangles whose flows take more steps than they may.
#[test]
fn undecided(rt: HostRuntime) {
    let words = ["--steps=50", "--seed=1", "--staircase=200"];
    let lines = [
        "staircase 200 seed 1",
        "stratum H(99,99) genus 100 vertices 2 area 1780+1053r",
        "delaunay flips 0",
        "saddles 1 undecided live 50",
        "flow 1,0 undecided steps 50",
        "flow 0,1 undecided steps 50",
    ];
    expect_summary(&rt, rt.alloc(), &words, &lines, Status::Partial);
}

// A sink that fails at its second call has the first line.
#[test]
fn broken(rt: HostRuntime) {
    let words = words_of(&rt, rt.alloc(), &["--staircase", "1", "--seed", "0"]);
    let mut input = MemSource::new(Vec::new(rt.alloc()), 8, Vec::new(rt.alloc()));
    let mut failing = Vec::new(rt.alloc());
    failing.push(1).expect(&rt, "memory");
    let mut out = sink(&rt, rt.alloc(), 64, failing);
    let status = flat(rt.alloc(), &words, &mut input, &mut out);
    assert!(rt; status == Status::WriteFault);
    assert!(rt; out.held() == "staircase 1 seed 0\n".as_bytes());
}
