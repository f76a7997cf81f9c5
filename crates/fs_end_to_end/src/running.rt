// How a table of jobs is run.

use fs_cli::{Status, flat};
use fs_io::{MemSink, MemSource};
use std::alloc::Global;
use std::process::Abort;

const SQUARE: [&str; 7] = [
    "flatsurf 1",
    "field 2",
    "polygon 1,0 0,1 -1,0 0,-1",
    "glue 0.0 0.2",
    "glue 0.1 0.3",
    "check",
    "end",
];

// Adds a text to the bytes.
pub fn add(rt: &impl Abort, bytes: &mut Vec<u8>, text: &str) {
    bytes
        .extend_from_slice(text.as_bytes())
        .expect(rt, "memory");
}

// The job of the unit square, with this text in place of one of its lines, from 1.
pub fn square_with(rt: &impl Abort, alloc: Global, number: usize, text: &str) -> Vec<u8> {
    let mut job = Vec::new(alloc);
    for (i, line) in SQUARE.iter().enumerate() {
        if i + 1 == number {
            add(rt, &mut job, text);
        } else {
            add(rt, &mut job, line);
            add(rt, &mut job, "\n");
        }
    }
    job
}

// A text so many times over.
pub fn repeated(rt: &impl Abort, alloc: Global, text: &str, times: usize) -> String {
    let mut all = String::new(alloc);
    for _ in 0..times {
        all.push_str(text).expect(rt, "memory");
    }
    all
}

// A sink with room for so many bytes, of which these calls fail.
pub fn sink(rt: &impl Abort, alloc: Global, room: usize, failing: Vec<u64>) -> MemSink {
    MemSink::new(alloc, room, failing).expect(rt, "memory")
}

// The words of a command line.
pub fn words_of(rt: &impl Abort, alloc: Global, texts: &[&str]) -> Vec<String> {
    let mut words = Vec::new(alloc);
    for text in texts.iter() {
        let word = text.to_string(alloc).expect(rt, "memory");
        words.push(word).expect(rt, "memory");
    }
    words
}

// That a job is answered with these lines under these words, and with the status that belongs to the lines.
pub fn expect_by_words(rt: &impl Abort, alloc: Global, texts: &[&str], job: Vec<u8>, answer: &str) {
    let words = words_of(rt, alloc, texts);
    let mut input = MemSource::new(job, 64, Vec::new(alloc));
    let mut out = sink(rt, alloc, 8192, Vec::new(alloc));
    let status = flat(alloc, &words, &mut input, &mut out);
    assert!(rt; out.held() == answer.as_bytes(), "{answer}");
    assert!(rt; status == status_of(answer), "{answer}");
}

// That a job is answered with these lines, and with the status that belongs to them.
pub fn expect_answer(rt: &impl Abort, alloc: Global, job: Vec<u8>, answer: &str) {
    expect_by_words(rt, alloc, &[], job, answer);
}

// That the unit square's job, with this text in place of one of its lines, is answered with
// these lines.
pub fn expect_change(rt: &impl Abort, alloc: Global, number: usize, text: &str, answer: &str) {
    expect_answer(rt, alloc, square_with(rt, alloc, number, text), answer);
}

// That the job with these polygon and glue lines and these commands is answered with these lines.
pub fn expect_lines(
    rt: &impl Abort,
    alloc: Global,
    d: u16,
    lines: &[&str],
    commands: &str,
    answer: &str,
) {
    let header = format!(in alloc; "flatsurf 1\nfield {d}\n").expect(rt, "memory");
    let mut job = Vec::new(alloc);
    add(rt, &mut job, &header);
    for line in lines.iter() {
        add(rt, &mut job, line);
    }
    add(rt, &mut job, commands);
    add(rt, &mut job, "end\n");
    expect_answer(rt, alloc, job, answer);
}

// The status that belongs to an answer of these lines.
fn status_of(answer: &str) -> Status {
    if answer.starts_with("refused ") {
        Status::Refused
    } else if answer.contains(" overflow ") || answer.contains(" undecided ") {
        Status::Partial
    } else {
        Status::Done
    }
}
