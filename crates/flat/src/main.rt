// The program `flat`: a job on standard input, its answer on standard output.
#![tactic(auto)]

use fs_cli::{Status, flat};
use fs_io::{StdSink, StdSource};
use std::process::ExitCode;
use std::{env, io};

const USAGE: &str = "usage: flat [--steps N] [--staircase K --seed S]";

fn main(rt: HostRuntime) -> ExitCode {
    let status = match words(&rt) {
        Ok(words) => {
            let mut input = StdSource::new(rt.stdin());
            let mut out = StdSink::new(rt.stdout());
            flat(rt.alloc(), &words, &mut input, &mut out)
        }
        Err(status) => status,
    };
    if status == Status::Usage {
        let _ = eprintln!(rt; "{USAGE}");
    }
    ExitCode::from(status.code())
}

// The words after the program's name. Where one isn't UTF-8 that is `Usage`.
fn words(rt: &HostRuntime) -> Result<Vec<String>, Status> {
    let words = match env::args(rt) {
        Ok(words) => words,
        Err(error) if error.kind() == io::ErrorKind::OutOfMemory => return Err(Status::NoMemory),
        Err(_) => return Err(Status::Usage),
    };
    match words.skip(1).collect(rt.alloc()) {
        Ok(words) => Ok(words),
        Err(_) => Err(Status::NoMemory),
    }
}
