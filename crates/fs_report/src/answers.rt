// Answers to commands.

ghost use Rattle.std.specs.Prelude.{◌≡◌, ◌≤◌, false, length, sum_by, IfOk, string_bytes};
ghost use Rattle.fs_job.specs.Reading.{HasDirection};
ghost use Rattle.fs_report.specs.Answers.{Answers, HasCorner};
ghost use Rattle.fs_report.specs.Text.{check_line};

use crate::cells::answer_cells;
use crate::delaunay::answer_delaunay;
use crate::flow::answer_flow;
use crate::saddles::answer_saddles;
use crate::segment::answer_segment;
use crate::stratum::answer_stratum;
use fs_fraction::NoMemory;
use fs_gluing::Surface;
use fs_job::Command;
use std::alloc::{AllocError, Global};

/// The answer to a command.
#[derive(Drop)]
pub struct Answer {
    /// Its lines.
    pub text: String,
    /// Whether it is an overflow or a spent budget in place of the whole answer.
    pub partial: bool,
}

// The number of sides of all polygons.
fn count_sides(surface: &Surface) -> u16
    ensures { result ≡ sum_by length surface.now.polygons }
{
    let mut sides = 0;
    for i in 0..surface.polygons() {
        sides += surface.sides(i);
    }
    sides
}

// The line with these two numbers.
fn counts_line(alloc: Global, polygons: u16, sides: u16) -> Result<String, AllocError>
    ensures { IfOk result (λ line. string_bytes line ≡ check_line polygons sides) }
{
    format!(in alloc; "check polygons {polygons} sides {sides}\n")
}

// The line that counts the polygons and the sides.
fn check_line(alloc: Global, surface: &Surface) -> Result<String, NoMemory>
    ensures { IfOk result (λ line.
        string_bytes line ≡ check_line (length surface.now.polygons) (sum_by length surface.now.polygons)) }
{
    let sides = count_sides(surface);
    let line = counts_line(alloc, surface.polygons(), sides)?;
    Ok(line)
}

/// The answer to a command about a surface without straight corners, within a budget of 1 to 1,000,000 steps: `segment`
/// crosses at most so many sides, `delaunay`, `cells` and `saddles` flip at most so many edges, and then `saddles` visits at
/// most so many live words; `flow` takes at most so many steps of the induction. The corner of a `segment` exists, and its
/// vector isn't 0,0; nor is the direction of a `flow`.
pub fn find_answer(
    alloc: Global,
    surface: &Surface,
    command: &Command,
    budget: u32,
) -> Result<Answer, NoMemory>
    requires least { 1 ≤ budget }
    requires most { budget ≤ 1000000 }
    requires strict { surface.now.straight ≡ false }
    requires corner { HasCorner surface.now command.now }
    requires direction { HasDirection command.now }
    ensures { IfOk result (λ answer. Answers surface.now budget command.now (string_bytes answer.text) answer.partial) }
{
    match command {
        Command::Check => Ok(Answer {
            text: check_line(alloc, surface)?,
            partial: false,
        }),
        Command::Stratum => answer_stratum(alloc, surface),
        Command::Segment { start, v, .. } => answer_segment(alloc, surface, *start, v, budget),
        Command::Delaunay => answer_delaunay(alloc, surface, budget),
        Command::Cells => answer_cells(alloc, surface, budget),
        Command::Saddles { limit } => answer_saddles(alloc, surface, *limit, budget),
        Command::Flow { v } => answer_flow(alloc, surface, *v, budget),
    }
}
