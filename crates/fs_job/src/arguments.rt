// The commands that lines state, with their numbers read.

ghost use Rattle.std.specs.Prelude.{◌≢◌, ◌↔◌, IsTrue, IfOk, IfErr};
ghost use Rattle.fs_plane.specs.Vector.{vector_zero};
ghost use Rattle.fs_job.specs.Statement.{IsPair, saddles, argument_texts};
ghost use Rattle.fs_job.specs.Draft.{IsPoint, SpellsWhole, IsVector, IsOrigin, HasZeroDirection, IsCommand};
ghost use Rattle.fs_job.specs.Line.{pair_of, command_of, HasPair, IsNumberFault, IsDirectionFault, IsWholeDirectionFault, IsArgumentFault};

use crate::job::Command;
use crate::points::{number_fault, read_point, split_pair};
use crate::statements::Stated;
use fs_fraction::read_number;
use fs_gluing::{Fault, Point};
use fs_plane::V2;
use fs_quadratic::Elem;

// Whether a point is 0,0.
fn is_origin(point: Point) -> bool
    ensures { IsTrue result ↔ IsOrigin point }
{
    point.x.num() == Elem::ZERO && point.y.num() == Elem::ZERO
}

// The vector that a pair on the line with this number spells. Both numbers are read, x first, before
// it is compared with 0,0.
fn read_direction(number: u32, pair: &[u8]) -> Result<Point, Fault>
    requires { IsPair pair.now (pair_of pair.now) }
    ensures point { IfOk result (IsPoint (pair_of pair.now)) }
    ensures nonzero { IfOk result (λ point. ¬ IsOrigin point) }
    ensures fault { IfErr result (IsDirectionFault number (pair_of pair.now)) }
{
    match read_point(pair) {
        Ok(point) if is_origin(point) => Err(Fault::ZeroDirection { line: number }),
        Ok(point) => Ok(point),
        Err(fault) => Err(number_fault(number, fault)),
    }
}

// The whole number that a text on the line with this number spells.
fn read_whole(number: u32, text: &[u8]) -> Result<Elem, Fault>
    ensures whole { IfOk result (SpellsWhole text.now) }
    ensures fault { IfErr result (IsNumberFault number (argument_texts (saddles text.now))) }
{
    match read_number(text) {
        Ok(_) if text.contains(&b'/') => Err(Fault::BadNumber { line: number }),
        Ok(x) => Ok(x.num()),
        Err(fault) => Err(number_fault(number, fault)),
    }
}

// The vector of whole numbers that a pair on the line with this number spells. Both numbers are read, x first, before it is
// compared with 0,0.
fn read_whole_direction(number: u32, pair: &[u8]) -> Result<V2, Fault>
    requires { IsPair pair.now (pair_of pair.now) }
    ensures vector { IfOk result (IsVector (pair_of pair.now)) }
    ensures nonzero { IfOk result (λ v. v ≢ vector_zero) }
    ensures fault { IfErr result (IsWholeDirectionFault number (pair_of pair.now)) }
{
    let (x, y) = split_pair(pair);
    let v = V2 {
        x: read_whole(number, x)?,
        y: read_whole(number, y)?,
    };
    if v == V2::ZERO {
        return Err(Fault::ZeroDirection { line: number });
    }
    Ok(v)
}

// The command that the line with this number states.
pub fn read_command(number: u32, stated: Stated<'_>) -> Result<Command, Fault>
    requires { HasPair stated }
    ensures command { IfOk result (IsCommand number (command_of stated.entry)) }
    ensures nonzero { IfOk result (λ _. ¬ HasZeroDirection (command_of stated.entry)) }
    ensures fault { IfErr result (IsArgumentFault number (command_of stated.entry)) }
{
    match stated {
        Stated::Check => Ok(Command::Check),
        Stated::Stratum => Ok(Command::Stratum),
        Stated::Segment { start, pair } => Ok(Command::Segment {
            line: number,
            start,
            v: read_direction(number, pair)?,
        }),
        Stated::Delaunay => Ok(Command::Delaunay),
        Stated::Cells => Ok(Command::Cells),
        Stated::Saddles { limit } => Ok(Command::Saddles {
            limit: read_whole(number, limit)?,
        }),
        Stated::Flow { pair } => Ok(Command::Flow {
            v: read_whole_direction(number, pair)?,
        }),
    }
}
