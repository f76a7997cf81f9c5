// The glue lines of the copies of a table.

ghost use Rattle.std.specs.Prelude.{◌<◌, ◌≤◌, ◌++◌, List, [], ◌∷◌, length, IfOk, OnOk};
ghost use Rattle.fs_plane.specs.declared.corners.Corner as corners;
ghost use Rattle.fs_gluing.specs.Gluing.{sides_between};
ghost use Rattle.fs_unfold.specs.InPlace.{AreWhole, HaveLines, IsNeighbour, sides_of_copies};

use crate::products::Products;
use fs_gluing::{Glue, Sequence};
use fs_plane::Corner;
use std::alloc::{AllocError, Global};

// The lines that glue each side of a copy to the same side of the table in the copy under the product times the reflection in
// that side, from the lesser one on. The table has n sides.
pub fn glue_copies(
    alloc: Global,
    n: usize,
    products: &Products,
) -> Result<Sequence<Glue>, AllocError>
    requires few { n ≤ 42 }
    requires whole { AreWhole n products.now.list products.now.neighbours }
    ensures { IfOk result (HaveLines n products.now.list products.now.neighbours (sides_of_copies n 0 (length products.now.list))) }
{
    let mut lines = Sequence::new(alloc);
    for g in 0..products.list.len() {
        glue_copy(&mut lines, n, products, g)?;
    }
    Ok(lines)
}

// Adds the lines of copy g, where they come before their partners.
fn glue_copy(
    lines: &mut Sequence<Glue>,
    n: usize,
    products: &Products,
    g: usize,
) -> Result<(), AllocError>
    requires few { n ≤ 42 }
    requires whole { AreWhole n products.now.list products.now.neighbours }
    requires there { g < length products.now.list }
    ensures { OnOk result ((sides : List corners.Corner) → HaveLines n products.now.list products.now.neighbours sides lines.old
        → HaveLines n products.now.list products.now.neighbours (sides ++ sides_between g 0 n) lines.new) }
{
    for side in 0..n {
        glue_side(lines, n, products, g, side)?;
    }
    Ok(())
}

// Adds the line of a side, where it comes before its partner.
fn glue_side(
    lines: &mut Sequence<Glue>,
    n: usize,
    products: &Products,
    g: usize,
    side: usize,
) -> Result<(), AllocError>
    requires few { n ≤ 42 }
    requires whole { AreWhole n products.now.list products.now.neighbours }
    requires there { g < length products.now.list }
    requires inside { side < n }
    ensures { OnOk result ((sides : List corners.Corner) → HaveLines n products.now.list products.now.neighbours sides lines.old
        → HaveLines n products.now.list products.now.neighbours (sides ++ record { polygon = g; side = side } ∷ []) lines.new) }
{
    let other = neighbour(n, products, g, side);
    if g < other as usize {
        lines.push(Glue {
            line: 0,
            one: Corner::new(g as u16, side as u16),
            two: Corner::new(other as u16, (n - 1 - side) as u16),
        })?;
    }
    Ok(())
}

// The number of the copy to which a side of copy g is glued.
fn neighbour(n: usize, products: &Products, g: usize, side: usize) -> u32
    requires few { n ≤ 42 }
    requires whole { AreWhole n products.now.list products.now.neighbours }
    requires there { g < length products.now.list }
    requires inside { side < n }
    ensures noted { IsNeighbour n products.now.list products.now.neighbours g side result }
    ensures few { result < 24 }
{
    let turned = products.list.as_slice()[g].turned;
    let of_table = if turned { n - 1 - side } else { side };
    products.neighbours.as_slice()[g * n + of_table]
}
