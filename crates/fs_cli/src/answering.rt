// Answers written into a sink.

ghost use Rattle.std.specs.Prelude.{◌≡◌, ◌≤◌, ◌∷◌, [], false, MatchOption};
ghost use Rattle.std.specs.List.{AllByRecursion};
ghost use Rattle.fs_lists.specs.First.{IsFirstWithout};
ghost use Rattle.fs_gluing.specs.Surface.{IsSurface};
ghost use Rattle.fs_job.specs.declared.job.Command.{Command};
ghost use Rattle.fs_job.specs.Reading.{HasDirection};
ghost use Rattle.fs_report.specs.Answers.{HasCorner};
ghost use Rattle.fs_report.specs.Text.{fault_line, build_line};
ghost use Rattle.fs_cli.specs.Answer.{IsWhole, first_line, AnswersAll, AnswersCommands, stated_line};
ghost use Rattle.fs_cli.specs.Words.{most_budget};
ghost use Rattle.fs_cli.specs.Writing.{Writes, IsThisText, AnswersIn, part_of, HasStatus};

use crate::outcome::Status;
use fs_gluing::{Fault, Surface};
use fs_io::{Sink, write_all};
use fs_job::Command;
use fs_plane::Site;
use fs_report::{build_line, fault_line, find_answer};
use std::alloc::Global;

// How much of each answer is written.
#[derive(Clone, Copy)]
pub enum Extent {
    Whole,
    FirstLine,
}

// Writes a text with its status.
pub(crate) fn write_text<O: Sink>(text: &[u8], status: Status, out: &mut O) -> Status
    requires { IsWhole status }
    ensures { Writes (IsThisText text.now status) result (O.held out.old) (O.held out.new) (O.faults out.old) (O.faults out.new) }
{
    match write_all(out, text) {
        Ok(()) => status,
        Err(_) => Status::WriteFault,
    }
}

// Writes the line of a fault.
pub(crate) fn refuse<O: Sink>(alloc: Global, fault: &Fault, out: &mut O) -> Status
    ensures { Writes (IsThisText (fault_line fault.now) Status.Refused) result (O.held out.old) (O.held out.new) (O.faults out.old) (O.faults out.new) }
{
    let Ok(line) = fault_line(alloc, fault) else {
        return Status::NoMemory;
    };
    write_text(line.as_bytes(), Status::Refused, out)
}

// Writes the line of the site where building overflowed.
pub(crate) fn stop_at<O: Sink>(alloc: Global, site: &Site, out: &mut O) -> Status
    ensures { Writes (IsThisText (build_line site.now) Status.Partial) result (O.held out.old) (O.held out.new) (O.faults out.old) (O.faults out.new) }
{
    let Ok(line) = build_line(alloc, site) else {
        return Status::NoMemory;
    };
    write_text(line.as_bytes(), Status::Partial, out)
}

// A text up to its first line feed, which is kept.
fn first_line(text: &[u8]) -> &[u8]
    ensures { result.now ≡ first_line text.now }
{
    for (i, byte) in text.iter().enumerate() {
        if *byte == b'\n' {
            return &text[..=i];
        }
    }
    text
}

// What of a text is written.
fn part_of(text: &[u8], extent: Extent) -> &[u8]
    ensures { result.now ≡ part_of extent text.now }
{
    match extent {
        Extent::Whole => text,
        Extent::FirstLine => first_line(text),
    }
}

// Writes the answer to one command, within the budget.
fn answer_one<O: Sink>(
    alloc: Global,
    surface: &Surface,
    budget: u32,
    extent: Extent,
    command: &Command,
    out: &mut O,
) -> Status
    requires surface { IsSurface surface.now }
    requires strict { surface.now.straight ≡ false }
    requires corner { HasCorner surface.now command.now }
    requires direction { HasDirection command.now }
    requires least { 1 ≤ budget }
    requires most { budget ≤ most_budget }
    ensures { Writes (HasStatus (AnswersIn extent surface.now budget command.now)) result
        (O.held out.old) (O.held out.new) (O.faults out.old) (O.faults out.new) }
{
    let Ok(answer) = find_answer(alloc, surface, command, budget) else {
        return Status::NoMemory;
    };
    let status = if answer.partial {
        Status::Partial
    } else {
        Status::Done
    };
    write_text(part_of(answer.text.as_bytes(), extent), status, out)
}

// The line of the first command that names a corner which the surface doesn't have.
fn missing_corner(surface: &Surface, commands: &[Command]) -> Option<u32>
    ensures { MatchOption result
        (AllByRecursion (HasCorner surface.now) commands.now)
        (λ line. (command : Command) × IsFirstWithout (HasCorner surface.now) commands.now command × (line ≡ stated_line command)) }
{
    for command in commands {
        if let Some(line) = line_without_corner(surface, command) {
            return Some(line);
        }
    }
    None
}

// The line of a command that names a corner which the surface doesn't have.
fn line_without_corner(surface: &Surface, command: &Command) -> Option<u32>
    ensures { MatchOption result
        (HasCorner surface.now command.now)
        (λ line. (¬ HasCorner surface.now command.now) × (line ≡ stated_line command.now)) }
{
    match command {
        Command::Check
        | Command::Stratum
        | Command::Delaunay
        | Command::Cells
        | Command::Saddles { .. }
        | Command::Flow { .. } => None,
        Command::Segment { line, start, .. } => {
            if surface.has(*start) {
                None
            } else {
                Some(*line)
            }
        }
    }
}

// Writes the answers to commands: none of them where one names a corner that the surface doesn't have.
pub(crate) fn answer_commands<O: Sink>(
    alloc: Global,
    surface: &Surface,
    budget: u32,
    commands: &[Command],
    out: &mut O,
) -> Status
    requires surface { IsSurface surface.now }
    requires strict { surface.now.straight ≡ false }
    requires directions { AllByRecursion HasDirection commands.now }
    requires least { 1 ≤ budget }
    requires most { budget ≤ most_budget }
    ensures { Writes (AnswersCommands surface.now budget commands.now) result
        (O.held out.old) (O.held out.new) (O.faults out.old) (O.faults out.new) }
{
    match missing_corner(surface, commands) {
        Some(line) => refuse(alloc, &Fault::NoSuchSide { line }, out),
        None => answer_all(alloc, surface, budget, Extent::Whole, commands, out),
    }
}

// Writes the answers to commands in order, each before the next one is found, and each within the
// budget.
pub(crate) fn answer_all<O: Sink>(
    alloc: Global,
    surface: &Surface,
    budget: u32,
    extent: Extent,
    commands: &[Command],
    out: &mut O,
) -> Status
    requires surface { IsSurface surface.now }
    requires strict { surface.now.straight ≡ false }
    requires corners { AllByRecursion (HasCorner surface.now) commands.now }
    requires directions { AllByRecursion HasDirection commands.now }
    requires least { 1 ≤ budget }
    requires most { budget ≤ most_budget }
    ensures { Writes (HasStatus (AnswersAll (AnswersIn extent surface.now budget) commands.now)) result
        (O.held out.old) (O.held out.new) (O.faults out.old) (O.faults out.new) }
{
    let mut status = Status::Done;
    for command in commands {
        match answer_one(alloc, surface, budget, extent, command, out) {
            Status::Done => {}
            Status::Partial => status = Status::Partial,
            broken => return broken,
        }
    }
    status
}
