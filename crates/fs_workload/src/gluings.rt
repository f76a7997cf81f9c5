// The glue lines of a staircase.

ghost use Rattle.std.specs.Prelude.{◌≡◌, ◌<◌, ◌≤◌, ◌++◌, List, [], ◌∷◌, IfOk, OnOk};
ghost use Rattle.fs_plane.specs.declared.corners.Corner as corners;
ghost use Rattle.fs_gluing.specs.Gluing.{sides_between};
ghost use Rattle.fs_workload.specs.Staircase.{next_or_same, across, above, partner, lines_of, rectangle_sides};

use fs_gluing::{Glue, Sequence};
use fs_plane::Corner;
use std::alloc::{AllocError, Global};

// The glue lines of k rectangles.
pub fn find_glues(alloc: Global, k: u32) -> Result<Sequence<Glue>, AllocError>
    requires few { k ≤ 200 }
    ensures { IfOk result (λ lines. lines ≡ lines_of k (rectangle_sides k)) }
{
    let mut lines = Sequence::new(alloc);
    for i in 0..k {
        glue_rectangle(&mut lines, k, i)?;
    }
    Ok(lines)
}

// Adds the lines of rectangle i of k.
fn glue_rectangle(lines: &mut Sequence<Glue>, k: u32, i: u32) -> Result<(), AllocError>
    requires few { k ≤ 200 }
    requires there { i < k }
    ensures { OnOk result (lines.new ≡ lines.old ++ lines_of k (sides_between i 0 4)) }
{
    for side in 0..4 {
        glue_side(lines, k, Corner::new(i as u16, side))?;
    }
    Ok(())
}

// Adds the line of a side, where it comes before its partner.
fn glue_side(lines: &mut Sequence<Glue>, k: u32, one: Corner) -> Result<(), AllocError>
    requires few { k ≤ 200 }
    requires there { one.polygon < k }
    requires inside { one.side < 4 }
    ensures { OnOk result (lines.new ≡ lines.old ++ lines_of k (one ∷ [])) }
{
    let two = partner(k, one);
    if one < two {
        lines.push(Glue { line: 0, one, two })?;
    }
    Ok(())
}

// The side that a side is glued to.
fn partner(k: u32, c: Corner) -> Corner
    requires few { k ≤ 200 }
    requires there { c.polygon < k }
    requires inside { c.side < 4 }
    ensures { result ≡ partner k c }
{
    let polygon = if c.side % 2 == 0 {
        above(k, u32::from(c.polygon))
    } else {
        across(k, u32::from(c.polygon))
    };
    Corner::new(polygon as u16, (c.side + 2) % 4)
}

// The rectangle to the right and to the left of rectangle i of k.
fn across(k: u32, i: u32) -> u32
    requires there { i < k }
    ensures value { result ≡ across k i }
    ensures there { result < k }
{
    if i % 2 == 0 {
        next_or_same(k, i)
    } else {
        i - 1
    }
}

// The rectangle above and below rectangle i of k.
fn above(k: u32, i: u32) -> u32
    requires there { i < k }
    ensures value { result ≡ above k i }
    ensures there { result < k }
{
    if i % 2 == 0 {
        i.saturating_sub(1)
    } else {
        next_or_same(k, i)
    }
}

// The rectangle after rectangle i of k, where there is one, else i.
fn next_or_same(k: u32, i: u32) -> u32
    requires there { i < k }
    ensures value { result ≡ next_or_same k i }
    ensures there { result < k }
{
    if i + 1 < k { i + 1 } else { i }
}
