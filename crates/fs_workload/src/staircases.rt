// The job of a staircase.

ghost use Rattle.std.specs.Prelude.{◌≡◌, ◌≤◌, IfOk};
ghost use Rattle.std.specs.List.{AllByRecursion};
ghost use Rattle.fs_job.specs.Reading.{HasDirection, IsFormWithinLimits};
ghost use Rattle.fs_workload.specs.Staircase.{IsStaircase, staircase_commands, north};

use crate::gluings::find_glues;
use crate::rectangles::find_rectangles;
use fs_gluing::{Sequence, Shape};
use fs_job::{Command, Form, Job};
use fs_plane::V2;
use fs_quadratic::{Elem, Field};
use std::alloc::{AllocError, Global};

/// The most rectangles of a staircase.
pub const MOST_RECTANGLES: u32 = 200;

/// The job of a staircase of k rectangles, from 1 to 200, over the numbers p + q·√2, or out of memory. The seed draws the numbers
/// p + q·√2 with p from 1 to 4 and q from 0 to 2, which are in turn a width and a height. Rectangles 0 and 1 have the same height
/// and are side by side, 1 and 2 have the same width and are one above the other, 2 and 3 are side by side, and so on; each side
/// without such a neighbour is glued to the opposite one of its own rectangle. The glue lines have the number 0, and come in the
/// order of the lesser sides. The commands are `stratum`, `delaunay`, `saddles 1`, `flow 1,0` and `flow 0,1`. The job is within
/// the limits of a surface. Time and memory are as k.
pub fn staircase(alloc: Global, k: u32, seed: u32) -> Result<Job, AllocError>
    requires { (1 ≤ k) × (k ≤ 200) }
    ensures means { IfOk result (λ job. IsStaircase k seed job) }
    // As of a job that is read.
    ensures limits { IfOk result (λ job. IsFormWithinLimits job.form) }
    ensures directions { IfOk result (λ job. AllByRecursion HasDirection job.commands) }
{
    let polygons = find_rectangles(alloc, k, seed)?;
    let glues = find_glues(alloc, k)?;
    let commands = commands(alloc)?;
    Ok(Job {
        field: root_two(),
        form: Form::Polygons(Shape {
            polygons,
            glues,
            straight: false,
        }),
        commands,
    })
}

// The field of √2.
fn root_two() -> Field
    ensures { result.d ≡ 2 }
{
    Field { d: 2 }
}

// The commands of a staircase.
fn commands(alloc: Global) -> Result<Sequence<Command>, AllocError>
    ensures { IfOk result (λ commands. commands ≡ staircase_commands) }
{
    let one = Elem::new(1, 0);
    let east = V2 {
        x: one,
        y: Elem::ZERO,
    };
    let north = V2 {
        x: Elem::ZERO,
        y: one,
    };
    let mut commands = Sequence::new(alloc);
    commands.push(Command::Stratum)?;
    commands.push(Command::Delaunay)?;
    commands.push(Command::Saddles { limit: one })?;
    commands.push(Command::Flow { v: east })?;
    commands.push(Command::Flow { v: north })?;
    Ok(commands)
}
