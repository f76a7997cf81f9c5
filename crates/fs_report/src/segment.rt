// The answer to `segment`.

ghost use Rattle.std.specs.Prelude.{◌≡◌, ◌≢◌, ◌≤◌, ◌++◌, true, codes, IfOk, OnOk, string_bytes};
ghost use Rattle.std.specs.Fmt.{decimal};
ghost use Rattle.fs_plane.specs.Vector.{vector_zero};
ghost use Rattle.fs_gluing.specs.Polygons.{HasSide};
ghost use Rattle.fs_job.specs.Draft.{IsOrigin};
ghost use Rattle.fs_develop.specs.Walks.{end_of};
ghost use Rattle.fs_report.specs.Text.{line_of, corner_text, overflow_line, segment_words, spaced_sides, word_text, end_words, is_undecided, AnswersPath, AnswersSegment};

use crate::answers::Answer;
use crate::lines::overflow_line;
use fs_develop::{Walk, find_walk, scale_to_grid};
use fs_fraction::{NoMemory, print_number};
use fs_gluing::{Point, Surface};
use fs_plane::{Corner, Site, Stop, V2};
use std::alloc::{AllocError, Global};

// The answer to `segment` with this corner and this vector.
pub fn answer_segment(
    alloc: Global,
    surface: &Surface,
    start: Corner,
    v: &Point,
    budget: u32,
) -> Result<Answer, NoMemory>
    requires start { HasSide surface.now.polygons start }
    requires direction { ¬ IsOrigin v.now }
    requires most { budget ≤ 1000000 }
    ensures { IfOk result (λ answer. AnswersSegment surface.now budget start v.now (string_bytes answer.text) answer.partial) }
{
    // A look at the field makes the invariant of the surface known here.
    let _ = surface.field();
    let words = segment_words(alloc, start, v)?;
    match scale_to_grid(surface, *v) {
        Ok(None) => Ok(Answer {
            text: off_grid_line(alloc, &words)?,
            partial: false,
        }),
        Ok(Some(scaled)) => answer_path(alloc, surface, start, scaled, budget, &words),
        Err(site) => overflow(alloc, &words, &site),
    }
}

// The answer where the path has this scaled vector.
fn answer_path(
    alloc: Global,
    surface: &Surface,
    start: Corner,
    scaled: V2,
    budget: u32,
    words: &str,
) -> Result<Answer, NoMemory>
    requires start { HasSide surface.now.polygons start }
    requires direction { scaled ≢ vector_zero }
    requires most { budget ≤ 1000000 }
    ensures { IfOk result (λ answer. AnswersPath surface.now budget start scaled words.now (string_bytes answer.text) answer.partial) }
{
    match find_walk(alloc, surface, start, scaled, budget) {
        Ok(walk) => Ok(Answer {
            text: end_line(alloc, words, budget, &walk)?,
            partial: is_undecided(&walk),
        }),
        Err(Stop::Overflow(site)) => overflow(alloc, words, &site),
        Err(Stop::Undecided(_) | Stop::NoMemory) => Err(NoMemory),
    }
}

// The command with its arguments.
fn segment_words(alloc: Global, start: Corner, v: &Point) -> Result<String, NoMemory>
    ensures { IfOk result (λ words. string_bytes words ≡ segment_words start v.now) }
{
    let x = print_number(alloc, v.x)?;
    let y = print_number(alloc, v.y)?;
    let (polygon, side) = (start.polygon, start.side);
    let words = format!(in alloc; "segment {polygon}.{side} {x},{y}")?;
    Ok(words)
}

// The line of a vector off the grid.
fn off_grid_line(alloc: Global, words: &str) -> Result<String, AllocError>
    ensures { IfOk result (λ line. string_bytes line ≡ line_of (words.now ++ codes " off-grid")) }
{
    format!(in alloc; "{words} off-grid\n")
}

// The answer where the path overflows, or its vector does.
fn overflow(alloc: Global, words: &str, site: &Site) -> Result<Answer, NoMemory>
    ensures { IfOk result (λ answer. (string_bytes answer.text ≡ overflow_line words.now site.now) × (answer.partial ≡ true)) }
{
    Ok(Answer {
        text: overflow_line(alloc, words, site)?,
        partial: true,
    })
}

// Whether the budget is spent before the path ends.
fn is_undecided(walk: &Walk) -> bool
    ensures { result ≡ is_undecided (end_of walk.now) }
{
    matches!(walk, Walk::LongWord { .. })
}

// The line of a path that ends so.
fn end_line(alloc: Global, words: &str, budget: u32, walk: &Walk) -> Result<String, AllocError>
    ensures { IfOk result (λ line. string_bytes line ≡ line_of (words.now ++ codes " " ++ end_words budget (end_of walk.now))) }
{
    let mut line = String::new(alloc);
    match walk {
        Walk::Segment { word, end } => {
            let (polygon, side) = (end.polygon, end.side);
            write!(line, "{words} yes end {polygon}.{side} word ")?;
            add_word(&mut line, word.as_slice())?;
        }
        Walk::Vertex { word } => {
            write!(line, "{words} vertex word ")?;
            add_word(&mut line, word.as_slice())?;
        }
        Walk::Inside { word } => {
            write!(line, "{words} inside word ")?;
            add_word(&mut line, word.as_slice())?;
        }
        Walk::LongWord { .. } => write!(line, "{words} undecided crossings {budget}")?,
        Walk::OutOfSector => write!(line, "{words} out-of-sector")?,
    }
    line.push('\n')?;
    Ok(line)
}

// Adds the crossed sides, or `-` where there are none.
fn add_word(text: &mut String, word: &[Corner]) -> Result<(), AllocError>
    ensures { OnOk result (string_bytes text.new ≡ string_bytes text.old ++ word_text word.now) }
{
    let Some((first, rest)) = word.split_first() else {
        return write!(text, "-");
    };
    let (polygon, side) = (first.polygon, first.side);
    write!(text, "{polygon}.{side}")?;
    add_sides(text, rest)
}

// Adds sides, each after a space.
fn add_sides(text: &mut String, sides: &[Corner]) -> Result<(), AllocError>
    ensures { OnOk result (string_bytes text.new ≡ string_bytes text.old ++ spaced_sides sides.now) }
{
    for side in sides {
        add_side(text, *side)?;
    }
    Ok(())
}

// Adds a side after a space.
fn add_side(text: &mut String, corner: Corner) -> Result<(), AllocError>
    ensures { OnOk result (string_bytes text.new ≡ string_bytes text.old ++ (codes " " ++ corner_text corner)) }
{
    text.push(' ')?;
    add_decimal(text, corner.polygon)?;
    text.push('.')?;
    add_decimal(text, corner.side)
}

// Adds a number in decimal digits. Most numbers of sides have one: it takes no formatting.
#[inline]
fn add_decimal(text: &mut String, n: u16) -> Result<(), AllocError>
    ensures { OnOk result (string_bytes text.new ≡ string_bytes text.old ++ decimal n) }
{
    if n < 10 {
        text.push(char::from(b'0' + n as u8))
    } else {
        write!(text, "{n}")
    }
}
