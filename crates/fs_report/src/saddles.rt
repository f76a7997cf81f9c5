// The answer to `saddles`.

ghost use Rattle.std.specs.Prelude.{◌≡◌, ◌≤◌, ◌++◌, false, IfOk, OnOk, codes, string_bytes, unsigned_abs};
ghost use Rattle.std.specs.Fmt.{decimal};
ghost use Rattle.fs_report.specs.Text.{line_of};
ghost use Rattle.fs_report.specs.DelaunayText.{vector_text};
ghost use Rattle.fs_report.specs.SaddlesText.{AnswersSaddles, IsListStopText, saddles_words, saddle_line, saddle_lines, saddles_text, live_line};

use crate::answers::Answer;
use crate::delaunay::stopped;
use crate::lines::overflow_line;
use crate::vectors::unscaled_text;
use fs_delaunay::{Delaunay, find_delaunay, start};
use fs_fraction::{Frac, NoMemory, print_number};
use fs_gluing::Surface;
use fs_plane::{Listed, Stop};
use fs_quadratic::Elem;
use fs_saddles::{Saddles, find_saddles};
use std::alloc::{AllocError, Global};

// The answer to `saddles` with this limit, within a budget of flips, and of as many live words.
pub fn answer_saddles(
    alloc: Global,
    surface: &Surface,
    limit: Elem,
    budget: u32,
) -> Result<Answer, NoMemory>
    requires strict { surface.now.straight ≡ false }
    requires most { budget ≤ 1000000 }
    ensures { IfOk result (λ answer. AnswersSaddles surface.now budget limit (string_bytes answer.text) answer.partial) }
{
    let words = saddles_words(alloc, limit)?;
    let mesh = start(alloc, surface)?;
    let delaunay = match find_delaunay(alloc, mesh, budget) {
        Ok(delaunay) => delaunay,
        Err(stop) => return stopped(alloc, &words, stop),
    };
    // A look at the faces makes the invariant of the mesh known here.
    let _ = delaunay.mesh().faces();
    match find_saddles(alloc, &delaunay, limit, budget) {
        Ok(saddles) => Ok(Answer {
            text: whole_text(alloc, &words, &delaunay, &saddles)?,
            partial: false,
        }),
        Err(stop) => list_stopped(alloc, &words, stop),
    }
}

// The command with its limit.
fn saddles_words(alloc: Global, limit: Elem) -> Result<String, NoMemory>
    ensures { IfOk result (λ words. string_bytes words ≡ saddles_words limit) }
{
    let limit = print_number(alloc, Frac::new(limit, 1))?;
    let words = format!(in alloc; "saddles {limit}")?;
    Ok(words)
}

// The answer, after these words, where there is no list.
fn list_stopped(alloc: Global, words: &str, stop: Stop) -> Result<Answer, NoMemory>
    ensures { IfOk result (λ answer. IsListStopText stop words.now (string_bytes answer.text) answer.partial) }
{
    match stop {
        Stop::Overflow(site) => Ok(Answer {
            text: overflow_line(alloc, words, &site)?,
            partial: true,
        }),
        Stop::Undecided(live) => Ok(Answer {
            text: live_line(alloc, words, live)?,
            partial: true,
        }),
        Stop::NoMemory => Err(NoMemory),
    }
}

// The line of a budget of live words that is spent.
fn live_line(alloc: Global, words: &str, live: u32) -> Result<String, AllocError>
    ensures { IfOk result (λ line. string_bytes line ≡ live_line words.now live) }
{
    format!(in alloc; "{words} undecided live {live}\n")
}

// The lines of a list, after these words.
fn whole_text(
    alloc: Global,
    words: &str,
    delaunay: &Delaunay<'_>,
    saddles: &Saddles,
) -> Result<String, NoMemory>
    ensures { IfOk result (λ text. string_bytes text ≡ saddles_text (unsigned_abs delaunay.now.mesh.surface.den) words.now delaunay.now.edges
        (record { list = saddles.now.list; live = saddles.now.live })) }
{
    let mesh = delaunay.mesh();
    let entries = saddles.list.as_slice();
    let flips = delaunay.edges().as_slice().len();
    let mut text = first_line(alloc, words, entries.len(), saddles.live, flips)?;
    add_entries(alloc, &mut text, mesh.surface(), entries)?;
    Ok(text)
}

// The line that counts the entries, the live words and the flips.
fn first_line(
    alloc: Global,
    words: &str,
    count: usize,
    live: u32,
    flips: usize,
) -> Result<String, AllocError>
    ensures { IfOk result (λ line. string_bytes line ≡ line_of (words.now ++ codes " count " ++ decimal count ++ codes " live " ++ decimal live ++ codes " flips " ++ decimal flips)) }
{
    format!(in alloc; "{words} count {count} live {live} flips {flips}\n")
}

// Adds a line for each entry.
fn add_entries(
    alloc: Global,
    text: &mut String,
    surface: &Surface,
    entries: &[Listed],
) -> Result<(), NoMemory>
    ensures { OnOk result (string_bytes text.new ≡ string_bytes text.old ++ saddle_lines (unsigned_abs surface.now.den) entries.now) }
{
    for entry in entries {
        add_entry(alloc, text, surface, entry)?;
    }
    Ok(())
}

// Adds the line of an entry.
fn add_entry(
    alloc: Global,
    text: &mut String,
    surface: &Surface,
    entry: &Listed,
) -> Result<(), NoMemory>
    ensures { OnOk result (string_bytes text.new ≡ string_bytes text.old ++ saddle_line (unsigned_abs surface.now.den) entry.now) }
{
    let start = entry.start();
    let (polygon, side) = (start.polygon, start.side);
    let v = vector_text(alloc, surface, entry)?;
    write!(text, "saddle {polygon}.{side} {v}\n")?;
    Ok(())
}

// x,y of the unscaled vector of an entry.
fn vector_text(alloc: Global, surface: &Surface, entry: &Listed) -> Result<String, NoMemory>
    ensures { IfOk result (λ text. string_bytes text ≡ vector_text (unsigned_abs surface.now.den) entry.now.v) }
{
    unscaled_text(alloc, entry.v(), surface.den())
}
