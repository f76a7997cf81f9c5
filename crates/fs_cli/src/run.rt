// `flat`: a job read from a source and answered into a sink.

ghost use Rattle.std.specs.Prelude.{◌≡◌, ◌≢◌, ◌↔◌, ◌≤◌, ℕ, List, false, length, map, IfSome, string_bytes};
ghost use Rattle.std.specs.Io.KnownBytes.{Appends, IsAtEnd, Keeps};
ghost use Rattle.std.specs.List.{AllByRecursion};
ghost use Rattle.fs_io.specs.Faults.{Rose};
ghost use Rattle.fs_io.specs.Whole.{most_bytes, TakesPrefix};
ghost use Rattle.fs_gluing.specs.Shape.{IsWithinLimits};
ghost use Rattle.fs_job.specs.Reading.{HasDirection};
ghost use Rattle.fs_cli.specs.Words.{most_budget, GiveRequest, AskForStaircase};
ghost use Rattle.fs_cli.specs.declared.words.Request.{Request};
ghost use Rattle.fs_cli.specs.declared.words.Staircase.{Staircase};
ghost use Rattle.fs_cli.specs.Answer.{stop_line, stop_status, AnswersShape, AnswersJob, AnswersStaircase, IsAnswered, IsWhole, IsBroken, BeginsEach};
ghost use Rattle.fs_cli.specs.Writing.{Writes, IsThisText};

use crate::answering::{answer_commands, refuse, stop_at};
use crate::laws::one_answer;
use crate::outcome::Status;
use crate::summary::summarize;
use crate::words::find_request;
use fs_gluing::{BuildStop, Fault, Shape, build};
use fs_io::{ReadStop, Sink, Source, read_all};
use fs_job::{Command, Form, JobStop, job_or_fault, read_job};
use fs_quadratic::Field;
use fs_unfold::unfold;
use std::alloc::Global;

// Writes the answers to commands about the surface of a shape, or why it isn't built.
fn answer_shape<O: Sink>(
    alloc: Global,
    field: Field,
    shape: &Shape,
    budget: u32,
    commands: &[Command],
    out: &mut O,
) -> Status
    requires limits { IsWithinLimits shape.now }
    requires strict { shape.now.straight ≡ false }
    requires directions { AllByRecursion HasDirection commands.now }
    requires least { 1 ≤ budget }
    requires most { budget ≤ most_budget }
    ensures { Writes (AnswersShape field.d shape.now budget commands.now) result (O.held out.old) (O.held out.new) (O.faults out.old) (O.faults out.new) }
{
    match build(alloc, field, shape) {
        Ok(surface) => answer_commands(alloc, &surface, budget, commands, out),
        Err(stop) => write_stop(alloc, stop, out),
    }
}

// Writes why a shape isn't built, or a table isn't unfolded.
pub(crate) fn write_stop<O: Sink>(alloc: Global, stop: BuildStop, out: &mut O) -> Status
    ensures { Writes (IsThisText (stop_line stop) (stop_status stop)) result (O.held out.old) (O.held out.new) (O.faults out.old) (O.faults out.new) }
{
    match stop {
        BuildStop::Fault(fault) => refuse(alloc, &fault, out),
        BuildStop::Overflow(site) => stop_at(alloc, &site, out),
        BuildStop::NoMemory => Status::NoMemory,
    }
}

// Writes the answer to these bytes, each command within the budget.
fn answer<O: Sink>(alloc: Global, budget: u32, bytes: &[u8], out: &mut O) -> Status
    requires few { length bytes.now ≤ most_bytes }
    requires least { 1 ≤ budget }
    requires most { budget ≤ most_budget }
    ensures { Writes (AnswersJob budget bytes.now) result (O.held out.old) (O.held out.new) (O.faults out.old) (O.faults out.new) }
{
    // Each text is one job or has one first fault, so its answer is unique.
    job_or_fault();
    let job = match read_job(alloc, bytes) {
        Ok(job) => job,
        Err(JobStop::Fault(fault)) => return refuse(alloc, &fault, out),
        Err(JobStop::NoMemory) => return Status::NoMemory,
    };
    let commands = job.commands.as_slice();
    match &job.form {
        Form::Polygons(shape) => answer_shape(alloc, job.field, shape, budget, commands, out),
        Form::Table(table) => match unfold(alloc, job.field, table.as_slice()) {
            Ok(shape) => answer_shape(alloc, job.field, &shape, budget, commands, out),
            Err(stop) => write_stop(alloc, stop, out),
        },
    }
}

/// Reads a job, or makes a staircase, answers it, and says how that went.
///
/// The words are options, each at most once, in any order, and each in two words or joined by = in one: `--steps N`,
/// N being 1 to 1,000,000, lets each command take N steps, and without it N is 100,000; `--staircase K` and `--seed S`,
/// which come together or not at all, K being 1 to 200, ask for a staircase. N, K and S are one to nine decimal digits.
/// `Usage` comes exactly for all other words.
///
/// A table is unfolded into the shape of a surface first. `Refused` writes the line of the first fault: that of the
/// job, of its table, of its surface, or of the first command that names a corner which the surface doesn't have.
/// `Partial` writes the line of the site where unfolding or building overflowed, or the answers to the commands in order, of which at least one isn't whole. `Done`
/// writes the answers to the commands in order: nothing where there are none.
///
/// For a staircase nothing is read. Its line is written, and the first line of the answer to each of its commands; it is `Done`
/// or `Partial` as the answers are.
#[tactic(auto, using(crate::proofs::CallWrites::nothing_begins))]
pub fn flat<I: Source, O: Sink>(
    alloc: Global,
    words: &[String],
    input: &mut I,
    out: &mut O,
) -> Status
    // With words that aren't admitted nothing is read, written or counted.
    ensures usage { (result ≡ Status.Usage) ↔ ((request : Request) → ¬ GiveRequest (map string_bytes words.now) request) }
    ensures untouched { result ≡ Status.Usage → (I.left input.new ≡ I.left input.old)
        × (I.faults input.new ≡ I.faults input.old) × (O.held out.new ≡ O.held out.old)
        × (O.faults out.new ≡ O.faults out.old) }

    // The whole answer was appended to what the sink held.
    ensures whole { IsWhole result → IfSome (I.left input.old) (λ bytes.
        (output : List ℕ) × IsAnswered (map string_bytes words.now) bytes output result × Appends (O.held out.old) (O.held out.new) output) }
    // Each answer that the words and the bytes have is this one.
    ensures only { IsWhole result → IfSome (I.left input.old) (λ bytes.
        (output : List ℕ) → (other : Status) → IsAnswered (map string_bytes words.now) bytes output other → other ≡ result) }
    // For a job, the source was read to its end, except for a text that is too long.
    ensures end { IsWhole result → ((budget : ℕ) (staircase : Staircase) → ¬ AskForStaircase (map string_bytes words.now) budget staircase)
        → IfSome (I.left input.old) (λ bytes. length bytes ≤ most_bytes → IsAtEnd (I.left input.new)) }
    // Where the sink failed or memory ran out, the sink got a prefix of the answer.
    ensures broken { IsBroken result → IfSome (I.left input.old) (λ bytes.
        (prefix : List ℕ) × BeginsEach (IsAnswered (map string_bytes words.now) bytes) prefix × Appends (O.held out.old) (O.held out.new) prefix) }

    // For a staircase nothing of the source was taken, and the answer is the same whatever it holds.
    ensures nothing_taken { (budget : ℕ) (staircase : Staircase) → AskForStaircase (map string_bytes words.now) budget staircase
        → (I.left input.new ≡ I.left input.old) × (I.faults input.new ≡ I.faults input.old) × (result ≢ Status.ReadFault) }
    ensures staircase { (budget : ℕ) (staircase : Staircase) → AskForStaircase (map string_bytes words.now) budget staircase
        → IsWhole result → (output : List ℕ) × AnswersStaircase budget staircase output result × Appends (O.held out.old) (O.held out.new) output }
    ensures staircase_broken { (budget : ℕ) (staircase : Staircase) → AskForStaircase (map string_bytes words.now) budget staircase
        → IsBroken result → (prefix : List ℕ) × BeginsEach (AnswersStaircase budget staircase) prefix × Appends (O.held out.old) (O.held out.new) prefix }

    ensures read_fault { result ≡ Status.ReadFault
        → Keeps (O.held out.old) (O.held out.new) × Rose (I.faults input.old) (I.faults input.new) }
    ensures write_fault { result ≡ Status.WriteFault → Rose (O.faults out.old) (O.faults out.new) }

    // No count rose where the whole answer was given, or where memory ran out.
    ensures kept { IsWhole result → (I.faults input.new ≡ I.faults input.old) × (O.faults out.new ≡ O.faults out.old) }
    ensures no_memory { result ≡ Status.NoMemory
        → (I.faults input.new ≡ I.faults input.old) × (O.faults out.new ≡ O.faults out.old) }

    // In any case a prefix of what was left was taken, and the counts didn't fall.
    ensures taken { TakesPrefix (I.left input.old) (I.left input.new) }
    ensures input_count { I.faults input.old ≤ I.faults input.new }
    ensures out_count { O.faults out.old ≤ O.faults out.new }
{
    let Some(request) = find_request(words) else {
        return Status::Usage;
    };
    // Words and bytes have one answer, with one status.
    one_answer();
    if let Some(staircase) = request.staircase {
        return summarize(alloc, request.budget, staircase, out);
    }
    match read_all(alloc, input) {
        Ok(bytes) => answer(alloc, request.budget, &bytes, out),
        Err(ReadStop::TooLong) => refuse(alloc, &Fault::TooLong, out),
        Err(ReadStop::ReadFault) => Status::ReadFault,
        Err(ReadStop::NoMemory) => Status::NoMemory,
    }
}
