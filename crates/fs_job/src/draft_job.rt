// The job that is made line by line.

ghost use Rattle.std.specs.Prelude.{◌≡◌, ◌≤◌, false, List, [], Some, length, sum_by};
ghost use Rattle.fs_gluing.specs.Limits.{most_polygons, most_sides};
ghost use Rattle.fs_gluing.specs.declared.shapes.Point.{Point};
ghost use Rattle.fs_job.specs.Draft.{most_table_sides};

use crate::job::{Command, Form, Job};
use fs_gluing::{Point, Sequence, Shape};
use fs_quadratic::Field;
use std::alloc::Global;

// What the lines of a job so far said, and the number of sides of its polygons. Where it has a table it
// has no polygons and no glue lines.
#[derive(Drop)]
pub struct DraftJob {
    pub field: Field,
    pub table: Option<Sequence<Point>>,
    pub shape: Shape,
    pub commands: Sequence<Command>,
    pub sides: usize,
    ghost counted: { sides ≡ sum_by length shape.polygons },
    ghost few_sides: { sides ≤ most_sides },
    ghost few_polygons: { length shape.polygons ≤ most_polygons },
    ghost few_in_table: { (points : List Point) → table ≡ Some points → length points ≤ most_table_sides },
    ghost one_form: { (points : List Point) → table ≡ Some points → (shape.polygons ≡ []) × (shape.glues ≡ []) },
    ghost unmarked: { shape.straight ≡ false },
}

impl DraftJob {
    ghost use Rattle.std.specs.Prelude.{[], None, ◌↔◌, IsTrue};
    ghost use Rattle.fs_job.specs.Draft.{DescribesSurface};
    ghost use Rattle.fs_job.specs.Stage.{kept_draft};
    ghost use Rattle.fs_job.specs.Reading.{job_draft, IsFormWithinLimits};

    // A job of this field, without polygons and without a table.
    pub fn new(alloc: Global, field: Field) -> DraftJob
        ensures { kept_draft result ≡ record { d = field.d; table = None; polygons = []; glues = []; commands = [] } }
    {
        DraftJob {
            field,
            table: None,
            shape: Shape {
                polygons: Sequence::new(alloc),
                glues: Sequence::new(alloc),
                straight: false,
            },
            commands: Sequence::new(alloc),
            sides: 0,
        }
    }

    // Whether it describes a surface, by polygons or by a table.
    pub fn describes_surface(&self) -> bool
        ensures { IsTrue result ↔ DescribesSurface (kept_draft self.now) }
    {
        !self.shape.polygons.is_empty() || self.table.is_some()
    }

    // Whether a polygon or glue line is allowed.
    pub fn takes_polygons(&self) -> bool
        ensures { IsTrue result ↔ ((self.now.table ≡ None) × (self.now.commands ≡ [])) }
    {
        self.table.is_none() && self.commands.is_empty()
    }

    // Whether a table line is allowed.
    pub fn takes_table(&self) -> bool
        ensures { IsTrue result ↔ ((self.now.table ≡ None) × (self.now.shape.polygons ≡ []) × (self.now.shape.glues ≡ [])) }
    {
        self.table.is_none() && self.shape.polygons.is_empty() && self.shape.glues.is_empty()
    }

    // The job, once all its lines are read.
    pub fn into_job(self) -> Job
        requires { DescribesSurface (kept_draft self) }
        ensures draft { job_draft result ≡ kept_draft self }
        ensures limits { IsFormWithinLimits result.form }
    {
        let DraftJob {
            field,
            table,
            shape,
            commands,
            ..
        } = self;
        let form = match table {
            Some(points) => Form::Table(points),
            None => Form::Polygons(shape),
        };
        Job {
            field,
            form,
            commands,
        }
    }
}
