// `read_job`: the job that bytes are, or their first fault.

ghost use Rattle.fs_io.specs.Whole.{most_bytes};
ghost use Rattle.std.specs.Prelude.{◌≡◌, ◌≢◌, ◌⊎◌, ◌≤◌, [], length, Ok, Err, IfOk, IfErr, IsTrue};
ghost use Rattle.std.specs.List.{AllByRecursion};
ghost use Rattle.fs_gluing.specs.declared.faults.Fault.{Fault};
ghost use Rattle.fs_job.specs.Pieces.{IsText, words_of};
ghost use Rattle.fs_job.specs.declared.job.Job.{Job};
ghost use Rattle.fs_job.specs.Draft.{Draft, nothing};
ghost use Rattle.fs_job.specs.Grammar.{Leads, IsJob, IsFirstFault};
ghost use Rattle.fs_job.specs.Stage.{ReturnsOutcome, progress_of};
ghost use Rattle.fs_job.specs.Reading.{job_draft, IsFormWithinLimits, HasDirection};

use crate::drafts::{Stage, add_line, begin};
use crate::job::{Job, JobStop};
use crate::lines::next_line;
use crate::statements::{is_header, read_line};
use crate::words::{has_text_lines, is_blank_text, is_text};
use fs_gluing::Fault;
use std::alloc::Global;

// Where a line after the header leads, which isn't blank.
fn after_header(alloc: Global, stage: Stage, number: u32, line: &[u8]) -> Result<Stage, JobStop>
    requires text { IsText line.now }
    requires words { words_of line.now ≢ [] }
    requires header { progress_of stage ≢ nothing }
    ensures { ReturnsOutcome (Leads number (progress_of stage) line.now) result }
{
    let Some(statement) = read_line(line) else {
        return Err(JobStop::Fault(Fault::BadLine { line: number }));
    };
    match stage {
        Stage::Headed => begin(alloc, number, statement),
        Stage::Drafted(draft) => add_line(alloc, draft, number, statement),
        _ => Err(JobStop::Fault(Fault::BadLine { line: number })),
    }
}

// Where a line with this number leads, which may be known to be text.
fn step(
    alloc: Global,
    stage: Stage,
    number: u32,
    line: &[u8],
    known_text: bool,
) -> Result<Stage, JobStop>
    requires { IsTrue known_text → IsText line.now }
    ensures { ReturnsOutcome (Leads number (progress_of stage) line.now) result }
{
    if !(known_text || is_text(line)) {
        return Err(JobStop::Fault(Fault::NotAscii { line: number }));
    }
    if is_blank_text(line) {
        return Ok(stage);
    }
    match stage {
        Stage::Start if is_header(line) => Ok(Stage::Headed),
        Stage::Start => Err(JobStop::Fault(Fault::BadHeader)),
        stage => after_header(alloc, stage, number, line),
    }
}

// The job that the lines say, or the first fault.
fn read_lines(alloc: Global, bytes: &[u8]) -> Result<Job, JobStop>
    requires { length bytes.now ≤ most_bytes }
    ensures job { IfOk result (λ job. IsJob bytes.now (job_draft job)) }
    ensures limits { IfOk result (λ job. IsFormWithinLimits job.form) }
    ensures fault { IfErr result (λ e. (e ≡ JobStop.NoMemory)
        ⊎ ((fault : Fault) × (e ≡ JobStop.Fault fault) × IsFirstFault bytes.now fault)) }
{
    // Mostly one look at all bytes tells that each line is text.
    let known_text = has_text_lines(bytes);
    let mut stage = Stage::Start;
    let mut number = 0;
    let mut rest = Some(bytes);
    while let Some(text) = rest {
        let (line, more) = next_line(text);
        number += 1;
        stage = step(alloc, stage, number, line, known_text)?;
        rest = more;
    }
    match stage {
        Stage::Ended(draft) => Ok(draft.into_job()),
        Stage::Start => Err(JobStop::Fault(Fault::BadHeader)),
        _ => Err(JobStop::Fault(Fault::NoEnd)),
    }
}

/// The job that these bytes are, of which there are at most 1,048,576.
///
/// It fails exactly where they are no job, by the first fault, line by line, and on a line in this
/// order. `NotAscii`, a byte other than a tab and those from the space to the tilde. `BadHeader`, a
/// first line that isn't `flatsurf 1`. `BadLine`, a line that states nothing that is allowed
/// there. `TooMany`, a 257th polygon or command, a 1,025th side, or the 43rd pair of a table.
/// `BadNumber` or `Wide`, the first number that isn't read. `BadField`, a d that isn't squarefree
/// or not in 2 to 999; or `ZeroDirection`, a direction 0,0. `NoEnd` where no line has a fault and
/// `end` doesn't come. `NoMemory` may come at any time.
pub fn read_job(alloc: Global, bytes: &[u8]) -> Result<Job, JobStop>
    requires { length bytes.now ≤ most_bytes }
    ensures job { IfOk result (λ job. IsJob bytes.now (job_draft job)) }
    // Where they are a job, it is the one that is read.
    ensures read { (draft : Draft) → IsJob bytes.now draft
        → ((job : Job) × (result ≡ Ok job) × (job_draft job ≡ draft)) ⊎ (result ≡ Err JobStop.NoMemory) }
    // It is within the limits, and allows no straight corner.
    ensures limits { IfOk result (λ job. IsFormWithinLimits job.form) }
    // No direction is 0,0.
    ensures directions { IfOk result (λ job. AllByRecursion HasDirection job.commands) }
    ensures fault { IfErr result (λ e. (e ≡ JobStop.NoMemory)
        ⊎ ((fault : Fault) × (e ≡ JobStop.Fault fault) × IsFirstFault bytes.now fault)) }
    // Where they have a first fault, it is the one that is returned.
    ensures faulted { (fault : Fault) → IsFirstFault bytes.now fault
        → (result ≡ Err (JobStop.Fault fault)) ⊎ (result ≡ Err JobStop.NoMemory) }
{
    read_lines(alloc, bytes)
}
