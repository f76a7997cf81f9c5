// The copies of a table under the products of its reflections.

ghost use Rattle.std.specs.Prelude.{◌≡◌, ◌≤◌, length, map, reverse, IfOk, IfErr, OnOk};
ghost use Rattle.std.specs.List.{AllByRecursion};
ghost use Rattle.fs_unfold.specs.Copies.{is_turned, opposite, copy};
ghost use Rattle.fs_unfold.specs.InPlace.{OrNoMemory, rows_of, copy_by, StopsAtSide, StopsAtCopy};
ghost use Rattle.fs_unfold.specs.Unfolding.{HaveImages};

use crate::matrices::find_image;
use crate::products::TableCopy;
use fs_gluing::{BuildStop, Point, Sequence};
use fs_plane::{Place, Site};
use fs_quadratic::Field;
use std::alloc::Global;

// The copies under these products.
pub fn find_copies(
    alloc: Global,
    field: Field,
    table: &[Point],
    products: &[TableCopy],
) -> Result<Sequence<Sequence<Point>>, BuildStop>
    requires sides { length table.now ≤ 42 }
    requires few { length products.now ≤ 24 }
    requires turned { AllByRecursion (λ c. c.turned ≡ is_turned field.d c.rows) products.now }
    ensures copies { IfOk result (λ copies. copies ≡ map (copy field.d table.now) (rows_of products.now)) }
    ensures images { OnOk result (AllByRecursion (HaveImages field.d table.now) (rows_of products.now)) }
    ensures stops { IfErr result (OrNoMemory (StopsAtCopy field.d table.now (rows_of products.now))) }
{
    let mut copies = Sequence::new(alloc);
    for (k, product) in products.iter().enumerate() {
        copies.push(find_copy(alloc, field, k as u32, product, table)?)?;
    }
    Ok(copies)
}

// The copy of a table under the product with the number k.
fn find_copy(
    alloc: Global,
    field: Field,
    k: u32,
    product: &TableCopy,
    table: &[Point],
) -> Result<Sequence<Point>, BuildStop>
    requires { length table.now ≤ 42 }
    ensures copy { IfOk result (λ sides. sides ≡ copy_by field.d product.now.turned product.now.rows table.now) }
    ensures images { OnOk result (HaveImages field.d table.now product.now.rows) }
    ensures stops { IfErr result (OrNoMemory (StopsAtSide field.d table.now k product.now.rows)) }
{
    let mut sides = Sequence::new(alloc);
    for (i, p) in table.iter().enumerate() {
        match find_image(field, &product.rows, p) {
            Ok(image) => sides.push(if product.turned {
                opposite(&image)
            } else {
                image
            })?,
            Err(Place(place)) => {
                return Err(BuildStop::Overflow(Site::Copy {
                    copy: k,
                    side: i as u32,
                    place,
                }));
            }
        }
    }
    if product.turned {
        return Ok(reversed(sides));
    }
    Ok(sides)
}

// The sides in the opposite order.
fn reversed(sides: Sequence<Point>) -> Sequence<Point>
    ensures { result ≡ reverse sides }
{
    let mut sides = sides.into_vec();
    sides.reverse();
    Sequence::from_vec(sides)
}

// The opposite vector.
fn opposite(p: &Point) -> Point
    ensures { result ≡ opposite p.now }
{
    Point {
        x: p.x.neg(),
        y: p.y.neg(),
    }
}
