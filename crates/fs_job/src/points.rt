// Points read from pairs of numbers.

ghost use Rattle.std.specs.Prelude.{◌≡◌, ◌⊎◌, IfOk, IfErr};
ghost use Rattle.fs_fraction.specs.declared.number.NumberFault.{NumberFault};
ghost use Rattle.fs_job.specs.Pieces.{words_of};
ghost use Rattle.fs_job.specs.Statement.{IsPair, ArePairs, pair_texts, polygon_line, number_texts};
ghost use Rattle.fs_job.specs.Draft.{IsPoint, ArePoints, HasBadNumber, number_fault};
ghost use Rattle.fs_job.specs.Line.{pair_of, pairs_of};

use crate::job::JobStop;
use crate::pieces::cut;
use crate::statements::Pairs;
use crate::words::next_word;
use fs_fraction::{NumberFault, read_number};
use fs_gluing::{Fault, Point, Sequence};
use std::alloc::Global;

// The fault of a number on a line.
pub fn number_fault(number: u32, fault: NumberFault) -> Fault
    ensures { result ≡ number_fault number fault }
{
    match fault {
        NumberFault::BadNumber => Fault::BadNumber { line: number },
        NumberFault::Wide => Fault::Wide { line: number },
    }
}

// The texts before and after the comma of a pair.
pub fn split_pair(word: &[u8]) -> (&[u8], &[u8])
    requires { IsPair word.now (pair_of word.now) }
    ensures x { result.0.now ≡ (pair_of word.now).x }
    ensures y { result.1.now ≡ (pair_of word.now).y }
{
    cut(word, b',').unwrap_or((word, &[]))
}

// The point that a pair spells, x first.
pub fn read_point(word: &[u8]) -> Result<Point, NumberFault>
    requires { IsPair word.now (pair_of word.now) }
    ensures point { IfOk result (IsPoint (pair_of word.now)) }
    ensures fault { IfErr result (HasBadNumber (pair_texts (pair_of word.now))) }
{
    let (x, y) = split_pair(word);
    Ok(Point {
        x: read_number(x)?,
        y: read_number(y)?,
    })
}

// The points that the pairs of a line spell, from left to right.
pub fn read_points(alloc: Global, number: u32, pairs: Pairs<'_>) -> Result<Sequence<Point>, JobStop>
    requires { ArePairs (words_of pairs.words.now) (pairs_of (words_of pairs.words.now)) }
    ensures points { IfOk result (ArePoints (pairs_of (words_of pairs.entry.words.now))) }
    ensures fault { IfErr result (λ e. (e ≡ JobStop.NoMemory)
        ⊎ ((fault : NumberFault) × (e ≡ JobStop.Fault (number_fault number fault))
        × HasBadNumber (number_texts (polygon_line (pairs_of (words_of pairs.entry.words.now)))) fault)) }
{
    let mut points = Sequence::new(alloc);
    let mut rest = pairs.words;
    while let Some((word, more)) = next_word(rest) {
        match read_point(word) {
            Ok(point) => points.push(point)?,
            Err(fault) => return Err(JobStop::Fault(number_fault(number, fault))),
        }
        rest = more;
    }
    Ok(points)
}
