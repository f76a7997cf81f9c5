// Marks on the corners of a surface.

ghost use Rattle.std.specs.Prelude.{◌≡◌, ◌≤◌, ℕ, Some, IfOk, length, List};
ghost use Rattle.std.specs.List.{slice_get};
ghost use Rattle.fs_gluing.specs.declared.surfaces.Side.{Side};
ghost use Rattle.fs_gluing.specs.Polygons.{HasSide};
ghost use Rattle.fs_gluing.specs.Surface.{GluedPolygons};
ghost use Rattle.fs_stratum.specs.CornerMarks.{is_marked, AreUnmarked, MarksCorner};

use fs_gluing::Surface;
use fs_plane::Corner;
use std::alloc::{AllocError, Global};
use std::marker::Model;

/// A mark for each corner of a surface, polygon by polygon: as many for each as the greatest has corners.
#[derive(Drop)]
pub struct CornerMarks {
    marks: Vec<bool>,
    polygons: u16,
    width: u16,
}

impl Model for CornerMarks {
    ghost use Rattle.std.specs.Prelude.{◌≡◌, ◌*◌, List, Bool, length};
    ghost use Rattle.fs_stratum.specs.MarkRows.{rows};

    ghost Value = { List (List Bool) };

    ghost view = { λ m. rows m.polygons m.width m.marks.items };

    ghost invariant = { λ m. length m.marks.items ≡ m.polygons * m.width };
}

impl CornerMarks {
    /// No corner is marked.
    pub fn new(alloc: Global, surface: &Surface) -> Result<CornerMarks, AllocError>
        ensures { IfOk result (λ marks. AreUnmarked surface.now.polygons marks) }
    {
        let polygons = surface.polygons();
        let width = most_sides(surface);
        let marks = vec![in alloc; false; polygons as usize * width as usize]?;
        Ok(CornerMarks {
            marks,
            polygons,
            width,
        })
    }

    /// Whether a corner is marked.
    pub fn has(&self, c: Corner) -> bool
        requires { HasSide self.now c }
        ensures { result ≡ is_marked self.now c }
    {
        let marks = self.marks.as_slice();
        marks[c.polygon as usize * self.width as usize + c.side as usize]
    }

    /// Marks a corner.
    pub fn mark(&mut self, c: Corner)
        requires { HasSide self.old c }
        ensures { MarksCorner c self.old self.new }
    {
        let width = self.width as usize;
        let marks = self.marks.as_mut_slice();
        marks[c.polygon as usize * width + c.side as usize] = true;
    }
}

// The most sides that a polygon has.
fn most_sides(surface: &Surface) -> u16
    ensures { (i : ℕ) (polygon : List Side) → slice_get surface.now.polygons i ≡ Some polygon → length polygon ≤ result }
{
    let mut most = 0;
    for i in 0..surface.polygons() {
        most = most.max(surface.sides(i));
    }
    most
}
