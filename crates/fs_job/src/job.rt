// Jobs, their commands, and why bytes are none.

ghost use Rattle.std.specs.Prelude.{◌≡◌};
ghost use Rattle.fs_job.specs.declared.job.JobStop.TheVariants.{NoMemory};

use fs_gluing::{Fault, Point, Sequence, Shape};
use fs_plane::{Corner, V2};
use fs_quadratic::{Elem, Field};
use std::alloc::AllocError;

/// What a job asks of its surface.
#[derive(Drop)]
pub enum Command {
    /// Count the polygons and the sides.
    Check,
    /// Find the vertices with their cone angles, the stratum, the genus and the area.
    Stratum,
    /// Follow the straight path from a corner along a vector, which is unscaled and not 0,0. The
    /// line is that of the job that asks for it, counted from 1.
    Segment { line: u32, start: Corner, v: Point },
    /// Flip illegal edges of the first cut until it is a Delaunay triangulation.
    Delaunay,
    /// Find the cells of the Delaunay triangulation: its faces, joined where they share a circle.
    Cells,
    /// List the saddle connections of a squared length of at most this number, which is a whole one.
    Saddles { limit: Elem },
    /// Decompose the flow in a direction, whose coordinates are whole numbers and not both 0.
    Flow { v: V2 },
}

/// The most sides of a table.
pub const MOST_TABLE_SIDES: usize = 42;

/// How a job describes its surface.
#[derive(Drop)]
pub enum Form {
    /// By polygons and their glued sides, unscaled.
    Polygons(Shape),
    /// By the sides of a billiard table, in order, unscaled, at most 42 of them: the surface is the
    /// unfolding of the table.
    Table(Sequence<Point>),
}

/// A job: the field of its numbers, its surface, and the commands in order.
#[derive(Drop)]
pub struct Job {
    pub field: Field,
    pub form: Form,
    pub commands: Sequence<Command>,
}

/// Why no job is read.
#[derive(Clone, Copy, Debug, PartialEq, Eq, Hash)]
pub enum JobStop {
    /// The bytes are no job.
    Fault(Fault),
    /// Out of memory.
    NoMemory,
}

impl From<AllocError> for JobStop {
    ghost from_gives = { λ _ e. e ≡ NoMemory };

    fn from(_e: AllocError) -> JobStop {
        JobStop::NoMemory
    }
}
