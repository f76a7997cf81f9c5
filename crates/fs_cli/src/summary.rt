// The summary of a staircase.

ghost use Rattle.std.specs.Prelude.{◌≡◌, ◌≤◌, IfOk, string_bytes};
ghost use Rattle.fs_cli.specs.Answer.{staircase_line, AnswersStaircase};
ghost use Rattle.fs_cli.specs.Words.{most_budget, most_rectangles};
ghost use Rattle.fs_cli.specs.Writing.{Writes, IsThisText};

use crate::answering::{Extent, answer_all, write_text};
use crate::outcome::Status;
use crate::run::write_stop;
use crate::words::Staircase;
use fs_gluing::build;
use fs_io::Sink;
use fs_job::Form;
use fs_workload::{staircase, staircase_builds};
use std::alloc::{AllocError, Global};

// Writes the line of a staircase, and the first line of the answer to each of its commands, within the budget.
pub(crate) fn summarize<O: Sink>(alloc: Global, budget: u32, made: Staircase, out: &mut O) -> Status
    requires some { 1 ≤ made.rectangles }
    requires few { made.rectangles ≤ most_rectangles }
    requires least { 1 ≤ budget }
    requires most { budget ≤ most_budget }
    ensures { Writes (AnswersStaircase budget made) result (O.held out.old) (O.held out.new) (O.faults out.old) (O.faults out.new) }
{
    // The surface of a staircase is built, unless memory runs out, and its answer is unique.
    staircase_builds();
    let Ok(job) = staircase(alloc, made.rectangles, made.seed) else {
        return Status::NoMemory;
    };
    let Form::Polygons(shape) = &job.form else {
        return Status::NoMemory;
    };
    let surface = match build(alloc, job.field, shape) {
        Ok(surface) => surface,
        Err(stop) => return write_stop(alloc, stop, out),
    };
    match write_title(alloc, made, out) {
        Status::Done => answer_all(
            alloc,
            &surface,
            budget,
            Extent::FirstLine,
            job.commands.as_slice(),
            out,
        ),
        broken => broken,
    }
}

// Writes the line that names a staircase.
fn write_title<O: Sink>(alloc: Global, made: Staircase, out: &mut O) -> Status
    ensures { Writes (IsThisText (staircase_line made) Status.Done) result (O.held out.old) (O.held out.new) (O.faults out.old) (O.faults out.new) }
{
    let Ok(line) = title(alloc, made) else {
        return Status::NoMemory;
    };
    write_text(line.as_bytes(), Status::Done, out)
}

// The line that names a staircase.
fn title(alloc: Global, made: Staircase) -> Result<String, AllocError>
    ensures { IfOk result (λ line. string_bytes line ≡ staircase_line made) }
{
    let (rectangles, seed) = (made.rectangles, made.seed);
    format!(in alloc; "staircase {rectangles} seed {seed}\n")
}
