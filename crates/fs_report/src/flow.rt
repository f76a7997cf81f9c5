// The answer to `flow`.

ghost use Rattle.std.specs.Prelude.{◌≡◌, ◌≢◌, ◌≤◌, ◌<ℤ◌, ◌++◌, IfOk, OnOk, codes, length, pos, string_bytes, unsigned_abs};
ghost use Rattle.std.specs.Fmt.{decimal};
ghost use Rattle.fs_fraction.specs.Fraction.{reduced};
ghost use Rattle.fs_fraction.specs.Number.{spelling};
ghost use Rattle.fs_plane.specs.Vector.{vector_zero};
ghost use Rattle.fs_report.specs.DelaunayText.{vector_text};
ghost use Rattle.fs_report.specs.Text.{line_of};
ghost use Rattle.fs_report.specs.FlowText.{AnswersFlow, IsFlowStopText, flow_words, flow_line, connection_line, connection_lines, base_words, holonomy_text, cylinder_words, minimal_words, kind_words, part_line, part_lines, flow_text, steps_line};

use crate::answers::Answer;
use crate::lines::overflow_line;
use crate::vectors::unscaled_text;
use fs_components::{Flow, Measured, find_flow};
use fs_fraction::{Frac, NoMemory, print_number};
use fs_gluing::Surface;
use fs_plane::{Listed, Stop, V2};
use fs_quadratic::Elem;
use fs_rauzy::{Kind, Letter, Part};
use std::alloc::{AllocError, Global};

// The answer to `flow` in this direction, within a budget of steps.
pub fn answer_flow(alloc: Global, surface: &Surface, v: V2, budget: u32) -> Result<Answer, NoMemory>
    requires direction { v ≢ vector_zero }
    requires most { budget ≤ 1000000 }
    ensures { IfOk result (λ answer. AnswersFlow surface.now budget v (string_bytes answer.text) answer.partial) }
{
    let words = flow_words(alloc, v)?;
    match find_flow(alloc, surface, v, budget) {
        Ok(flow) => Ok(Answer {
            text: whole_text(alloc, &words, surface, &flow)?,
            partial: false,
        }),
        Err(stop) => flow_stopped(alloc, &words, stop),
    }
}

// The command with its direction.
fn flow_words(alloc: Global, v: V2) -> Result<String, NoMemory>
    ensures { IfOk result (λ words. string_bytes words ≡ flow_words v) }
{
    let v = unscaled_text(alloc, v, 1)?;
    let words = format!(in alloc; "flow {v}")?;
    Ok(words)
}

// The answer, after these words, where the flow isn't decomposed.
fn flow_stopped(alloc: Global, words: &str, stop: Stop) -> Result<Answer, NoMemory>
    ensures { IfOk result (λ answer. IsFlowStopText stop words.now (string_bytes answer.text) answer.partial) }
{
    match stop {
        Stop::Overflow(site) => Ok(Answer {
            text: overflow_line(alloc, words, &site)?,
            partial: true,
        }),
        Stop::Undecided(steps) => Ok(Answer {
            text: steps_line(alloc, words, steps)?,
            partial: true,
        }),
        Stop::NoMemory => Err(NoMemory),
    }
}

// The line of a budget of steps that is spent.
fn steps_line(alloc: Global, words: &str, steps: u32) -> Result<String, AllocError>
    ensures { IfOk result (λ line. string_bytes line ≡ steps_line words.now steps) }
{
    format!(in alloc; "{words} undecided steps {steps}\n")
}

// The lines of a decomposition, after these words.
fn whole_text(
    alloc: Global,
    words: &str,
    surface: &Surface,
    flow: &Flow,
) -> Result<String, NoMemory>
    ensures { IfOk result (λ text. string_bytes text ≡ flow_text (unsigned_abs surface.now.den) words.now flow.now) }
{
    let entries = flow.connections.as_slice();
    let parts = flow.parts.as_slice();
    let mut text = first_line(alloc, words, flow.steps, entries.len(), parts.len())?;
    add_connections(alloc, &mut text, surface, entries)?;
    add_parts(alloc, &mut text, surface, parts)?;
    Ok(text)
}

// The line that counts the steps, the connections and the parts.
fn first_line(
    alloc: Global,
    words: &str,
    steps: u32,
    connections: usize,
    parts: usize,
) -> Result<String, AllocError>
    ensures { IfOk result (λ line. string_bytes line ≡ line_of (words.now ++ codes " steps " ++ decimal steps ++ codes " connections " ++ decimal connections ++ codes " components " ++ decimal parts)) }
{
    format!(in alloc; "{words} steps {steps} connections {connections} components {parts}\n")
}

// Adds a line for each connection.
fn add_connections(
    alloc: Global,
    text: &mut String,
    surface: &Surface,
    entries: &[Listed],
) -> Result<(), NoMemory>
    ensures { OnOk result (string_bytes text.new ≡ string_bytes text.old ++ connection_lines (unsigned_abs surface.now.den) entries.now) }
{
    for entry in entries {
        add_connection(alloc, text, surface, entry)?;
    }
    Ok(())
}

// Adds the line of a connection.
fn add_connection(
    alloc: Global,
    text: &mut String,
    surface: &Surface,
    entry: &Listed,
) -> Result<(), NoMemory>
    ensures { OnOk result (string_bytes text.new ≡ string_bytes text.old ++ connection_line (unsigned_abs surface.now.den) entry.now) }
{
    let start = entry.start();
    let (polygon, side) = (start.polygon, start.side);
    let v = vector_text(alloc, surface, entry.v())?;
    write!(text, "connection {polygon}.{side} {v}\n")?;
    Ok(())
}

// x,y of a vector over the denominator of the surface.
fn vector_text(alloc: Global, surface: &Surface, v: V2) -> Result<String, NoMemory>
    ensures { IfOk result (λ text. string_bytes text ≡ vector_text (unsigned_abs surface.now.den) v) }
{
    unscaled_text(alloc, v, surface.den())
}

// Adds a line for each part.
fn add_parts(
    alloc: Global,
    text: &mut String,
    surface: &Surface,
    parts: &[Measured],
) -> Result<(), NoMemory>
    ensures { OnOk result (string_bytes text.new ≡ string_bytes text.old ++ part_lines (unsigned_abs surface.now.den) parts.now) }
{
    for part in parts {
        let words = part_words(alloc, surface, part)?;
        write!(text, "{words}\n")?;
    }
    Ok(())
}

// The words of a part.
fn part_words(alloc: Global, surface: &Surface, measured: &Measured) -> Result<String, NoMemory>
    ensures { IfOk result (λ words. string_bytes words ≡ kind_words (unsigned_abs surface.now.den) measured.now measured.now.part.kind) }
{
    match measured.part.kind {
        Kind::Cylinder => cylinder_words(alloc, surface, measured),
        Kind::Looped { from, to } => minimal_words(alloc, surface, measured, from, to),
    }
}

// The words of a cylinder.
fn cylinder_words(alloc: Global, surface: &Surface, measured: &Measured) -> Result<String, NoMemory>
    ensures { IfOk result (λ words. string_bytes words ≡ cylinder_words (unsigned_abs surface.now.den) measured.now) }
{
    let base = base_words(alloc, surface, &measured.part)?;
    let holonomy = holonomy_text(alloc, surface, measured.part.letters.as_slice())?;
    let square = print_number(alloc, measured.holonomy_square)?;
    let height = print_number(alloc, measured.height_square)?;
    let area = print_number(alloc, measured.area)?;
    let words = format!(in alloc;
        "cylinder{base} holonomy {holonomy} square {square} height-square {height} area {area}"
    )?;
    Ok(words)
}

// The words of a part with a loop.
fn minimal_words(
    alloc: Global,
    surface: &Surface,
    measured: &Measured,
    from: u32,
    to: u32,
) -> Result<String, NoMemory>
    ensures { IfOk result (λ words. string_bytes words ≡ minimal_words (unsigned_abs surface.now.den) measured.now from to) }
{
    let base = base_words(alloc, surface, &measured.part)?;
    let letters = measured.part.letters.len();
    let area = print_number(alloc, measured.area)?;
    let words = format!(in alloc; "minimal{base} letters {letters} loop {from} {to} area {area}")?;
    Ok(words)
}

// The words of the base of a part.
fn base_words(alloc: Global, surface: &Surface, part: &Part) -> Result<String, NoMemory>
    ensures { IfOk result (λ words. string_bytes words ≡ base_words (unsigned_abs surface.now.den) part.now) }
{
    let base = unscaled_number(alloc, surface, part.base)?;
    let width = unscaled_number(alloc, surface, part.width)?;
    let words = format!(in alloc; " base {base} width {width}")?;
    Ok(words)
}

// A number over the denominator of the surface.
fn unscaled_number(alloc: Global, surface: &Surface, x: Elem) -> Result<String, NoMemory>
    ensures { IfOk result (λ text. string_bytes text ≡ spelling (reduced x (unsigned_abs surface.now.den))) }
{
    quotient_text(alloc, x, surface.den())
}

// A number over another one.
fn quotient_text(alloc: Global, x: Elem, den: i128) -> Result<String, NoMemory>
    requires { pos 0 <ℤ den }
    ensures { IfOk result (λ text. string_bytes text ≡ spelling (reduced x (unsigned_abs den))) }
{
    print_number(alloc, Frac::new(x, den))
}

// The unscaled return vector of the first letter, which is the only one of a cylinder.
fn holonomy_text(alloc: Global, surface: &Surface, letters: &[Letter]) -> Result<String, NoMemory>
    ensures { IfOk result (λ text. string_bytes text ≡ holonomy_text (unsigned_abs surface.now.den) letters.now) }
{
    match letters.first() {
        Some(letter) => vector_text(alloc, surface, letter.back),
        None => Ok(String::new(alloc)),
    }
}
