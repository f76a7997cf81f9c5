// What each line adds to the job, or its fault.

ghost use Rattle.std.specs.Prelude.{◌≡◌, length};
ghost use Rattle.fs_job.specs.Pieces.{words_of};
ghost use Rattle.fs_job.specs.Statement.{ArePairs, field_line, polygon_line, table_line, glue_line, command_line, end_line};
ghost use Rattle.fs_job.specs.Draft.{headed, drafted, StatementLeads};
ghost use Rattle.fs_job.specs.Stage.{kept_draft, ReturnsOutcome};
ghost use Rattle.fs_job.specs.Line.{pairs_of, command_of, statement_of, HasPair, HasPairs};

use crate::arguments::read_command;
use crate::draft_job::DraftJob;
use crate::job::{JobStop, MOST_TABLE_SIDES};
use crate::points::read_points;
use crate::statements::{Line, Pairs, Stated};
use fs_gluing::{Fault, Glue, MOST_POLYGONS, MOST_SIDES};
use fs_plane::Corner;
use fs_quadratic::Field;
use std::alloc::Global;

const MOST_COMMANDS: usize = 256;

// What the lines so far said.
#[derive(Drop)]
pub enum Stage {
    Start,
    Headed,
    Drafted(DraftJob),
    Ended(DraftJob),
}

// The line states nothing that is allowed there.
fn bad_line(number: u32) -> JobStop
    ensures { result ≡ JobStop.Fault (Fault.BadLine number) }
{
    JobStop::Fault(Fault::BadLine { line: number })
}

// A limit leaves no room for the line.
fn too_many(number: u32) -> JobStop
    ensures { result ≡ JobStop.Fault (Fault.TooMany number) }
{
    JobStop::Fault(Fault::TooMany { line: number })
}

// The first line after the header: the field.
pub fn begin(alloc: Global, number: u32, line: Line<'_>) -> Result<Stage, JobStop>
    ensures { ReturnsOutcome (StatementLeads number headed (statement_of line.entry)) result }
{
    let Line::Field(d) = line else {
        return Err(bad_line(number));
    };
    match Field::new(d) {
        Ok(field) => Ok(Stage::Drafted(DraftJob::new(alloc, field))),
        Err(_) => Err(JobStop::Fault(Fault::BadField)),
    }
}

// A polygon line, whose words are pairs.
fn add_polygon(
    alloc: Global,
    mut draft: DraftJob,
    number: u32,
    pairs: Pairs<'_>,
) -> Result<Stage, JobStop>
    requires pairs { ArePairs (words_of pairs.words.now) (pairs_of (words_of pairs.words.now)) }
    requires count { pairs.count ≡ length (words_of pairs.words.now) }
    ensures { ReturnsOutcome (StatementLeads number (drafted (kept_draft draft)) (polygon_line (pairs_of (words_of pairs.entry.words.now)))) result }
{
    if !draft.takes_polygons() {
        return Err(bad_line(number));
    }
    if draft.shape.polygons.len() >= MOST_POLYGONS || pairs.count > MOST_SIDES - draft.sides {
        return Err(too_many(number));
    }
    let polygon = read_points(alloc, number, pairs)?;
    draft.shape.polygons.push(polygon)?;
    draft.sides += pairs.count;
    Ok(Stage::Drafted(draft))
}

// A table line, whose words are pairs.
fn add_table(
    alloc: Global,
    mut draft: DraftJob,
    number: u32,
    pairs: Pairs<'_>,
) -> Result<Stage, JobStop>
    requires pairs { ArePairs (words_of pairs.words.now) (pairs_of (words_of pairs.words.now)) }
    requires count { pairs.count ≡ length (words_of pairs.words.now) }
    ensures { ReturnsOutcome (StatementLeads number (drafted (kept_draft draft)) (table_line (pairs_of (words_of pairs.entry.words.now)))) result }
{
    if !draft.takes_table() {
        return Err(bad_line(number));
    }
    if pairs.count > MOST_TABLE_SIDES {
        return Err(too_many(number));
    }
    draft.table = Some(read_points(alloc, number, pairs)?);
    Ok(Stage::Drafted(draft))
}

// A glue line.
fn add_glue(mut draft: DraftJob, number: u32, one: Corner, two: Corner) -> Result<Stage, JobStop>
    ensures { ReturnsOutcome (StatementLeads number (drafted (kept_draft draft)) (glue_line one two)) result }
{
    if !draft.takes_polygons() {
        return Err(bad_line(number));
    }
    draft.shape.glues.push(Glue {
        line: number,
        one,
        two,
    })?;
    Ok(Stage::Drafted(draft))
}

// A command line.
fn add_command(mut draft: DraftJob, number: u32, stated: Stated<'_>) -> Result<Stage, JobStop>
    requires { HasPair stated }
    ensures { ReturnsOutcome (StatementLeads number (drafted (kept_draft draft)) (command_line (command_of stated.entry))) result }
{
    if !draft.describes_surface() {
        return Err(bad_line(number));
    }
    if draft.commands.len() >= MOST_COMMANDS {
        return Err(too_many(number));
    }
    match read_command(number, stated) {
        Ok(command) => draft.commands.push(command)?,
        Err(fault) => return Err(JobStop::Fault(fault)),
    }
    Ok(Stage::Drafted(draft))
}

// The last line.
fn end(draft: DraftJob, number: u32) -> Result<Stage, JobStop>
    ensures { ReturnsOutcome (StatementLeads number (drafted (kept_draft draft)) end_line) result }
{
    if !draft.describes_surface() {
        return Err(bad_line(number));
    }
    Ok(Stage::Ended(draft))
}

// A line after the field.
pub fn add_line(
    alloc: Global,
    draft: DraftJob,
    number: u32,
    line: Line<'_>,
) -> Result<Stage, JobStop>
    requires { HasPairs line }
    ensures { ReturnsOutcome (StatementLeads number (drafted (kept_draft draft)) (statement_of line.entry)) result }
{
    match line {
        Line::Polygon(pairs) => add_polygon(alloc, draft, number, pairs),
        Line::Table(pairs) => add_table(alloc, draft, number, pairs),
        Line::Glue(one, two) => add_glue(draft, number, one, two),
        Line::Command(stated) => add_command(draft, number, stated),
        Line::End => end(draft, number),
        Line::Field(_) => Err(bad_line(number)),
    }
}
