// The unfolding of a billiard table.

ghost use Rattle.std.specs.Prelude.{◌≡◌, ◌≤◌, Result, Err, length, IfOk, IfErr, OnOk};
ghost use Rattle.std.specs.List.{AllByRecursion};
ghost use Rattle.fs_gluing.specs.declared.faults.BuildStop.{BuildStop};
ghost use Rattle.fs_gluing.specs.declared.faults.Fault.TheVariants as faults;
ghost use Rattle.fs_gluing.specs.declared.shapes.Shape.{Shape};
ghost use Rattle.fs_gluing.specs.Shape.{IsWithinLimits};
ghost use Rattle.fs_unfold.specs.InPlace.{OrNoMemory, StopsAtTable, LacksGlue};
ghost use Rattle.fs_unfold.specs.Tables.{HasLowest, IsTable};
ghost use Rattle.fs_unfold.specs.Unfolding.{alone, table_site, table_stop, IsUnfolding, HasTooMany, EndsUnfolding, ReturnsUnfolding};

use crate::copies::find_copies;
use crate::glue_lines::glue_copies;
use crate::products::{find_mirrors, find_products};
use fs_gluing::{BuildStop, Fault, Point, Sequence, Shape, build};
use fs_plane::Site;
use fs_quadratic::Field;
use std::alloc::{AllocError, Global};

/// The shape of the surface into which a billiard table of at most 42 sides unfolds. The table is a polygon, given by its sides,
/// unscaled. There is a copy of it for each product of the reflections in its sides, and side i of the copy under a product is
/// glued to side i of the copy under that product times reflection i. A copy under a product that turns the orientation has the
/// table's sides in the opposite order, with the opposite vectors: side i of the table is its side n - 1 - i.
///
/// The products come in the order in which they are found: the identity first, and then product by product, and reflection by
/// reflection, the one times the other where it is new. The glue lines have the number 0, and come in the order of the lesser
/// sides. The shape has no fault, and as many times the area of the table as there are products.
///
/// It is refused at the first of: the faults of polygon 0 that a table has, with the sites `TableScale`, `TableClose` and
/// `TableCorner`; the site `Reflect` of a reflection; the site `Product` of a product, which is computed where it is listed
/// already too; `GroupTooLarge` where a 25th product would be listed; the site `Copy` of a side. It is refused as out of memory
/// at any time. It takes at most 24·24 comparisons of matrices for each side.
pub fn unfold(alloc: Global, field: Field, table: &[Point]) -> Result<Shape, BuildStop>
    requires { length table.now ≤ 42 }
    ensures ends { ReturnsUnfolding (EndsUnfolding field.d table.now) result }
    // There is no other end.
    ensures only { (given : Result Shape BuildStop) → EndsUnfolding field.d table.now given → ReturnsUnfolding (λ returned. returned ≡ given) result }
    // The shape is the unfolding.
    ensures means { IfOk result (λ shape. IsUnfolding field.d table.now shape) }
    // It is within the limits.
    ensures limits { IfOk result IsWithinLimits }
    // Where the products are too many there are 25.
    ensures too_large { result ≡ Err (BuildStop.Fault faults.GroupTooLarge) → HasTooMany field.d table.now }
{
    find_unfolding(alloc, field, table)
}

// The unfolding of a table: its tests, the reflections, the products, the copies, and the glue lines.
fn find_unfolding(alloc: Global, field: Field, table: &[Point]) -> Result<Shape, BuildStop>
    requires { length table.now ≤ 42 }
    ensures ends { ReturnsUnfolding (EndsUnfolding field.d table.now) result }
    ensures lowest { OnOk result (AllByRecursion HasLowest table.now) }
{
    check_table(alloc, field, table)?;
    let mirrors = find_mirrors(alloc, field, table)?;
    let products = find_products(alloc, field, &mirrors)?;
    let polygons = find_copies(alloc, field, table, products.list.as_slice())?;
    let glues = glue_copies(alloc, table.len(), &products)?;
    Ok(Shape {
        polygons,
        glues,
        straight: false,
    })
}

// Tests the table, as polygon 0 of a shape.
fn check_table(alloc: Global, field: Field, table: &[Point]) -> Result<(), BuildStop>
    requires { length table.now ≤ 42 }
    ensures passes { OnOk result (IsTable field.d table.now) }
    ensures fails { IfErr result (OrNoMemory (StopsAtTable field.d table.now)) }
{
    let shape = alone(alloc, table)?;
    match build(alloc, field, &shape) {
        Ok(_) => Ok(()),
        Err(stop) => check_stop(stop),
    }
}

// The stop of a table that is built as a shape without glue lines. Where only these are missing, the table passes.
fn check_stop(stop: BuildStop) -> Result<(), BuildStop>
    ensures passes { OnOk result (LacksGlue stop) }
    ensures fails { IfErr result (λ e. (e ≡ table_stop stop) × (¬ LacksGlue stop)) }
{
    match stop {
        BuildStop::Fault(Fault::Unglued(_)) => Ok(()),
        BuildStop::Overflow(site) => Err(BuildStop::Overflow(table_site(site))),
        stop => Err(stop),
    }
}

// The shape whose only polygon is the table.
fn alone(alloc: Global, table: &[Point]) -> Result<Shape, AllocError>
    ensures shape { IfOk result (λ shape. shape ≡ alone table.now) }
    ensures lowest { OnOk result (AllByRecursion HasLowest table.now) }
{
    let mut polygons = Sequence::new(alloc);
    polygons.push(copy_sides(alloc, table)?)?;
    Ok(Shape {
        polygons,
        glues: Sequence::new(alloc),
        straight: false,
    })
}

// The sides of the table once more.
fn copy_sides(alloc: Global, table: &[Point]) -> Result<Sequence<Point>, AllocError>
    ensures sides { IfOk result (λ sides. sides ≡ table.now) }
    ensures lowest { OnOk result (AllByRecursion HasLowest table.now) }
{
    let mut sides = Sequence::new(alloc);
    for side in table {
        sides.push(copy_side(side))?;
    }
    Ok(sides)
}

// A side once more.
fn copy_side(side: &Point) -> Point
    ensures same { result ≡ side.now }
    ensures lowest { HasLowest side.now }
{
    // The contract of `denominator` says that a fraction is in lowest terms.
    let _ = (side.x.denominator(), side.y.denominator());
    *side
}

// The site of a table that a site of polygon 0 is.
fn table_site(site: Site) -> Site
    ensures { result ≡ table_site site }
{
    match site {
        Site::Scale { side, place, .. } => Site::TableScale { side, place },
        Site::Close { side, place, .. } => Site::TableClose { side, place },
        Site::Corner { side, place, .. } => Site::TableCorner { side, place },
        site => site,
    }
}
