// What a line states.

ghost use Rattle.std.specs.Prelude.{◌≡◌, ◌≤◌, ◌↔◌, ℕ, List, [], ◌∷◌, codes, Contains, IsTrue, MatchOption, length};
ghost use Rattle.fs_job.specs.Pieces.{words_of};
ghost use Rattle.fs_job.specs.Statement.{Pair, StatedCommand, Statement, command_words, SpellsCommand, SpellsNumeral, SpellsCorner, IsPair, ArePairs, SpellsStatement};
ghost use Rattle.fs_job.specs.Grammar.{header};
ghost use Rattle.fs_job.specs.Line.{Finds, SpellsField, SpellsGlue, SpellsSegment, SpellsFlow, pair_of, pairs_of, command_of, statement_of, HasPair, HasPairs};

use crate::pieces::{cut, cut_once};
use crate::words::{next_word, only_word};
use fs_plane::Corner;

// The most digits of d, and of the two numbers of a corner.
const MOST_DIGITS: usize = 4;

// The words after the first one of a polygon or table line, each of which is a pair, and their number.
#[derive(Clone, Copy)]
pub struct Pairs<'a> {
    pub words: &'a [u8],
    pub count: usize,
}

// A command as its line states it: its numbers are still texts. The word of a vector is a pair.
#[derive(Clone, Copy)]
pub enum Stated<'a> {
    Check,
    Stratum,
    Segment { start: Corner, pair: &'a [u8] },
    Delaunay,
    Cells,
    Saddles { limit: &'a [u8] },
    Flow { pair: &'a [u8] },
}

// What a line states: its numbers are still texts.
#[derive(Clone, Copy)]
pub enum Line<'a> {
    Field(u16),
    Polygon(Pairs<'a>),
    Table(Pairs<'a>),
    Glue(Corner, Corner),
    Command(Stated<'a>),
    End,
}

// The number that 1 to 4 decimal digits stand for.
fn numeral(text: &[u8]) -> Option<u16>
    ensures { Finds (SpellsNumeral 4 text.now) result }
{
    if text.is_empty() || text.len() > MOST_DIGITS {
        return None;
    }
    let mut value = 0u16;
    for byte in text {
        if !byte.is_ascii_digit() {
            return None;
        }
        value = value * 10 + u16::from(*byte - b'0');
    }
    Some(value)
}

// A corner or a side: two numerals with a dot between them.
fn corner(text: &[u8]) -> Option<Corner>
    ensures { Finds (SpellsCorner text.now) result }
{
    // A second dot would be no digit of the side.
    let (polygon, side) = cut(text, b'.')?;
    Some(Corner::new(numeral(polygon)?, numeral(side)?))
}

// The d after the first word of a field line.
fn field_line(words: &[u8]) -> Option<u16>
    ensures { Finds (SpellsField (words_of words.now)) result }
{
    numeral(only_word(words)?)
}

// The pairs after the first word of a polygon or table line.
fn pairs_line(words: &[u8]) -> Option<Pairs<'_>>
    ensures { MatchOption result
        ((pairs : List Pair) → ¬ ArePairs (words_of words.now) pairs)
        (λ pairs. (pairs.words.now ≡ words.now) × ArePairs (words_of words.now) (pairs_of (words_of words.now))
        × (pairs.count ≡ length (words_of words.now))) }
{
    let mut count = 0;
    let mut rest = words;
    while let Some((word, more)) = next_word(rest) {
        cut_once(word, b',')?;
        count += 1;
        rest = more;
    }
    Some(Pairs { words, count })
}

// The two sides after the first word of a glue line.
fn glue_line(words: &[u8]) -> Option<(Corner, Corner)>
    ensures { MatchOption result
        ((one : Corner) → (two : Corner) → ¬ SpellsGlue (words_of words.now) one two)
        (λ sides. SpellsGlue (words_of words.now) sides.0 sides.1) }
{
    let (one, rest) = next_word(words)?;
    let two = only_word(rest)?;
    Some((corner(one)?, corner(two)?))
}

// Whether a line is the header.
pub fn is_header(line: &[u8]) -> bool
    ensures { IsTrue result ↔ (words_of line.now ≡ header) }
{
    match next_word(line) {
        Some((word, rest)) => {
            word == b"flatsurf".as_slice()
                && only_word(rest).is_some_and(|version| version == b"1".as_slice())
        }
        None => false,
    }
}

// The corner and the pair after the first word of a `segment` line.
fn segment_words(words: &[u8]) -> Option<(Corner, &[u8])>
    ensures { MatchOption result
        ((start : Corner) → (pair : Pair) → ¬ SpellsSegment (words_of words.now) start pair)
        (λ parts. SpellsSegment (words_of words.now) parts.0 (pair_of parts.1.now) × IsPair parts.1.now (pair_of parts.1.now)) }
{
    let (start, rest) = next_word(words)?;
    let pair = only_word(rest)?;
    cut_once(pair, b',')?;
    Some((corner(start)?, pair))
}

// The pair after the first word of a `flow` line.
fn flow_word(words: &[u8]) -> Option<&[u8]>
    ensures { MatchOption result
        ((pair : Pair) → ¬ SpellsFlow (words_of words.now) pair)
        (λ word. SpellsFlow (words_of words.now) (pair_of word.now) × IsPair word.now (pair_of word.now)) }
{
    let pair = only_word(words)?;
    cut_once(pair, b',')?;
    Some(pair)
}

// The command without arguments that a word names.
fn bare_command<'a>(word: &[u8]) -> Option<Stated<'a>>
    ensures { MatchOption result
        ((command : StatedCommand) → ¬ SpellsCommand (word.now ∷ []) command)
        (λ stated. Contains command_words word.now × SpellsCommand (word.now ∷ []) (command_of stated) × HasPair stated) }
{
    if word == b"check".as_slice() {
        Some(Stated::Check)
    } else if word == b"stratum".as_slice() {
        Some(Stated::Stratum)
    } else if word == b"delaunay".as_slice() {
        Some(Stated::Delaunay)
    } else if word == b"cells".as_slice() {
        Some(Stated::Cells)
    } else {
        None
    }
}

// The command that a first word names, with the words after it.
fn stated_command<'a>(word: &[u8], words: &'a [u8]) -> Option<Stated<'a>>
    ensures { MatchOption result
        ((command : StatedCommand) → ¬ SpellsCommand (word.now ∷ words_of words.now) command)
        (λ stated. Contains command_words word.now × SpellsCommand (word.now ∷ words_of words.now) (command_of stated) × HasPair stated) }
{
    if word == b"segment".as_slice() {
        let (start, pair) = segment_words(words)?;
        return Some(Stated::Segment { start, pair });
    }
    if word == b"saddles".as_slice() {
        let limit = only_word(words)?;
        return Some(Stated::Saddles { limit });
    }
    if word == b"flow".as_slice() {
        let pair = flow_word(words)?;
        return Some(Stated::Flow { pair });
    }
    if next_word(words).is_some() {
        return None;
    }
    bare_command(word)
}

// What a line states that isn't blank, or `None` where it states nothing.
pub fn read_line(line: &[u8]) -> Option<Line<'_>>
    ensures { MatchOption result
        ((s : Statement) → ¬ SpellsStatement (words_of line.now) s)
        (λ found. SpellsStatement (words_of line.now) (statement_of found) × HasPairs found) }
{
    let (word, rest) = next_word(line)?;
    if word == b"glue".as_slice() {
        let (one, two) = glue_line(rest)?;
        return Some(Line::Glue(one, two));
    }
    if word == b"polygon".as_slice() {
        return Some(Line::Polygon(pairs_line(rest)?));
    }
    if word == b"table".as_slice() {
        return Some(Line::Table(pairs_line(rest)?));
    }
    if word == b"field".as_slice() {
        return Some(Line::Field(field_line(rest)?));
    }
    if word == b"end".as_slice() && next_word(rest).is_none() {
        return Some(Line::End);
    }
    Some(Line::Command(stated_command(word, rest)?))
}
