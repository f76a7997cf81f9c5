// The faults of a job, and why a shape has no surface.

ghost use Rattle.std.specs.Prelude.{◌≡◌};
ghost use Rattle.fs_gluing.specs.declared.faults.BuildStop.TheVariants.{NoMemory};

use fs_plane::{Corner, Site};
use std::alloc::{AllocError, AllocFailed};

/// What is wrong with a job. Polygons and sides are numbered from 0, lines from 1.
#[derive(Clone, Copy, Debug, PartialEq, Eq, Hash)]
pub enum Fault {
    /// The line has a byte that is neither a tab nor one of those from the space to the tilde.
    NotAscii { line: u32 },
    /// The first line that isn't blank isn't the header, or there is none.
    BadHeader,
    /// The line isn't allowed there, or has the wrong form.
    BadLine { line: u32 },
    /// A text on the line isn't a number.
    BadNumber { line: u32 },
    /// No field has this d.
    BadField,
    /// The line exceeds a limit.
    TooMany { line: u32 },
    /// The last line is missing.
    NoEnd,
    /// The direction on the line is 0,0.
    ZeroDirection { line: u32 },
    /// A number on the line has a run of more than 18 digits.
    Wide { line: u32 },
    /// The polygon has fewer than three sides.
    FewSides { polygon: u16 },
    /// The sides of the polygon don't sum to (0,0).
    NotClosed { polygon: u16 },
    /// The corner isn't strictly convex, nor straight, where straight corners are allowed.
    NotConvex(Corner),
    /// The turning number of the polygon isn't 1.
    TurnsTwice { polygon: u16 },
    /// A side on the line doesn't exist.
    NoSuchSide { line: u32 },
    /// A side on the line is on an earlier glue line, or the line names one side twice.
    GluedTwice { line: u32 },
    /// The vectors of the two sides on the line don't sum to (0,0).
    NotOpposite { line: u32 },
    /// The side is on no glue line.
    Unglued(Corner),
    /// The polygon isn't connected to polygon 0.
    Apart { polygon: u16 },
    /// A table's reflections have more than 24 products.
    GroupTooLarge,
    /// There are more than 1,048,576 bytes.
    TooLong,
}

/// Why a shape has no surface.
#[derive(Clone, Copy, Debug, PartialEq, Eq, Hash)]
pub enum BuildStop {
    /// The shape isn't that of a surface.
    Fault(Fault),
    /// An exact result overflows.
    Overflow(Site),
    /// Out of memory.
    NoMemory,
}

impl From<AllocError> for BuildStop {
    ghost from_gives = { λ _ e. e ≡ NoMemory };

    fn from(_e: AllocError) -> BuildStop {
        BuildStop::NoMemory
    }
}
