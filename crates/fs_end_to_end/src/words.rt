// The words after the program's name: which are admitted, and that all others change nothing.

use crate::running::{sink, square_with, words_of};
use fs_cli::{Status, flat};
use fs_io::{MemSink, MemSource};
use std::alloc::Global;
use std::process::Abort;

// Words that are admitted and ask for a job: none, or a budget from 1 to 1,000,000 in one to nine digits.
static ADMITTED: [&[&str]; 11] = [
    &[],
    &["--steps", "1"],
    &["--steps", "5"],
    &["--steps", "1000000"],
    &["--steps", "000000001"],
    &["--steps", "001000000"],
    &["--steps=1"],
    &["--steps=5"],
    &["--steps=1000000"],
    &["--steps=000000001"],
    &["--steps=001000000"],
];

// Words that aren't.
static REFUSED: [&[&str]; 67] = [
    &[""],
    &["", ""],
    &["--"],
    &["--help"],
    &["help"],
    &["check"],
    &["5"],
    &["--steps"],
    &["--steps="],
    &["--steps", ""],
    &["--steps 5"],
    &["--steps", "=5"],
    &["--steps=", "5"],
    &["--steps==5"],
    &["steps", "5"],
    &["-steps", "5"],
    &["--Steps", "5"],
    &["--step", "5"],
    &["--steps:5"],
    &["5", "--steps"],
    &["--steps", "0"],
    &["--steps=0"],
    &["--steps", "000000000"],
    &["--steps", "1000001"],
    &["--steps=1000001"],
    &["--steps", "999999999"],
    &["--steps", "0000000001"],
    &["--steps=0000000001"],
    &["--steps", "4294967297"],
    &["--steps", "-1"],
    &["--steps", "+1"],
    &["--steps=-1"],
    &["--steps=+1"],
    &["--steps", " 1"],
    &["--steps", "1 "],
    &["--steps", "1_000"],
    &["--steps", "1e3"],
    &["--steps", "/:"],
    &["--steps", "5", "--steps", "5"],
    &["--steps=5", "--steps=5"],
    &["--steps", "5", ""],
    &["--staircase", "3"],
    &["--staircase=3"],
    &["--seed", "1"],
    &["--seed=1"],
    &["--steps", "5", "--seed", "1"],
    &["--staircase", "3", "--steps=5"],
    &["--staircase", "--seed", "1"],
    &["--staircase", "3", "--seed"],
    &["--staircase", "3", "1"],
    &["--staircase=", "--seed=1"],
    &["--staircase", "0", "--seed", "1"],
    &["--staircase", "201", "--seed", "1"],
    &["--staircase", "0000000003", "--seed", "1"],
    &["--staircase", "3", "--seed", "0000000001"],
    &["--staircase", "3", "--seed", "1000000000"],
    &["--staircase", "3", "--seed", "-1"],
    &["--staircase", "+3", "--seed", "1"],
    &["--staircase", "3", "--seed", ""],
    &["--staircase", "3", "--staircase", "3", "--seed", "1"],
    &["--staircase", "3", "--seed", "1", "--seed=1"],
    &["--staircase", "3", "--seed", "1", "--steps", "0"],
    &["--staircase", "3", "--seed", "1", "check"],
    &["--staircases", "3", "--seed", "1"],
    &["--staircase", "3", "--seeds", "1"],
    &["--staircase3", "--seed1"],
    &["--staircase==3", "--seed=1"],
];

// How a run over the unit square's job ends, with these words.
fn run(rt: &impl Abort, alloc: Global, texts: &[&str]) -> (Status, MemSource, MemSink) {
    let words = words_of(rt, alloc, texts);
    let mut input = MemSource::new(square_with(rt, alloc, 0, ""), 8, Vec::new(alloc));
    let mut out = sink(rt, alloc, 64, Vec::new(alloc));
    let status = flat(alloc, &words, &mut input, &mut out);
    (status, input, out)
}

// The job is answered as without words: no command of it takes a step.
#[test]
fn admitted(rt: HostRuntime) {
    for texts in ADMITTED.iter() {
        let (status, input, out) = run(&rt, rt.alloc(), texts);
        assert!(rt; status == Status::Done, "{texts:?}");
        assert!(rt; input.left().is_empty());
        assert!(rt; out.held() == "check polygons 1 sides 4\n".as_bytes());
    }
}

// Nothing is read, written or counted.
#[test]
fn refused(rt: HostRuntime) {
    let whole = square_with(&rt, rt.alloc(), 0, "");
    for texts in REFUSED.iter() {
        let (status, input, out) = run(&rt, rt.alloc(), texts);
        assert!(rt; status == Status::Usage, "{texts:?}");
        assert!(rt; input.left() == whole.as_slice());
        assert!(rt; out.held().is_empty());
        assert!(rt; input.faults() == 0 && out.faults() == 0);
    }
}
