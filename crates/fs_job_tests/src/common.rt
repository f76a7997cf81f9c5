// What the tests share: numbers and vectors of a job, from their texts, and why a text is no job.

use fs_fraction::{Frac, read_number};
use fs_gluing::Point;
use fs_job::{JobStop, read_job};
use std::alloc::Global;
use std::process::Abort;

// The fraction that a text spells.
fn number(rt: &impl Abort, text: &str) -> Frac {
    match read_number(text.as_bytes()) {
        Ok(x) => x,
        Err(_) => panic!(rt; "{text}"),
    }
}

// That a vector is spelled by these texts.
pub fn expect_vector(rt: &impl Abort, v: &Point, x: &str, y: &str) {
    assert!(rt; v.x == number(rt, x) && v.y == number(rt, y), "{x},{y}");
}

// Why a text is no job; `None` where it is one.
pub fn stop_of(rt: &impl Abort, alloc: Global, text: &[u8]) -> Option<JobStop> {
    assert!(rt; text.len() <= 1_048_576);
    match read_job(alloc, text) {
        Ok(_) => None,
        Err(stop) => Some(stop),
    }
}
