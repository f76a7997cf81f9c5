// The products of a table's reflections.

ghost use Rattle.std.specs.Prelude.{◌≡◌, ◌⊎◌, ◌<◌, ◌≤◌, ◌+◌, ◌++◌, ℕ, List, [], ◌∷◌, length, IfOk, IfErr, IfSome, OnOk, Some, None};
ghost use Rattle.std.specs.List.{slice_get};
ghost use Rattle.fs_lists.specs.Members.{IsIn};
ghost use Rattle.fs_gluing.specs.declared.faults.BuildStop.{BuildStop};
ghost use Rattle.fs_gluing.specs.declared.faults.Fault.{Fault};
ghost use Rattle.fs_unfold.specs.declared.matrices.Mirror.{Mirror};
ghost use Rattle.fs_unfold.specs.InPlace.{HaveTable, StopsAtMirror, OrNoMemory, rows_of, IsUnderWay, IsPlaced, StopsAtProduct};
ghost use Rattle.fs_unfold.specs.Tables.{IsTable};
ghost use Rattle.fs_unfold.specs.Unfolding.{AreMirrors};

use crate::matrices::{Matrix, Mirror, find_mirror, find_times};
use fs_gluing::{BuildStop, Fault, Point, Sequence};
use fs_plane::{Place, Site};
use fs_quadratic::Field;
use std::alloc::{AllocError, Global};

/// The most products of a table's reflections.
pub const MOST_PRODUCTS: usize = 24;

/// A product of the reflections in the sides of a table, under which a copy of it is made.
#[derive(Clone, Copy, Debug, PartialEq, Eq, Hash)]
pub struct TableCopy {
    /// The matrix.
    pub rows: Matrix,
    /// Whether the product turns the orientation: it is one of an odd number of reflections.
    pub turned: bool,
}

// The reflections in the sides of a table.
pub fn find_mirrors(alloc: Global, field: Field, table: &[Point]) -> Result<Vec<Mirror>, BuildStop>
    requires { IsTable field.d table.now }
    ensures mirrors { IfOk result (λ mirrors. AreMirrors field.d table.now mirrors.items) }
    ensures stops { IfErr result (OrNoMemory (StopsAtMirror field.d table.now)) }
{
    let mut mirrors = Vec::new(alloc);
    for (i, p) in table.iter().enumerate() {
        match find_mirror(field, p) {
            Ok(mirror) => push_mirror(&mut mirrors, mirror)?,
            Err(Place(place)) => {
                let side = i as u32;
                return Err(BuildStop::Overflow(Site::Reflect { side, place }));
            }
        }
    }
    Ok(mirrors)
}

// Adds a reflection.
fn push_mirror(mirrors: &mut Vec<Mirror>, mirror: Mirror) -> Result<(), AllocError>
    ensures { OnOk result (mirrors.new.items ≡ mirrors.old.items ++ mirror ∷ []) }
{
    mirrors.push(mirror)?;
    Ok(())
}

// The products that are found.
#[derive(Drop)]
pub struct Products {
    pub list: Sequence<TableCopy>,
    // For each product and each side in order, the place of the product times the reflection in the side.
    pub neighbours: Sequence<u32>,
}

// All products of reflections, with their neighbours.
pub fn find_products(alloc: Global, field: Field, mirrors: &[Mirror]) -> Result<Products, BuildStop>
    requires { HaveTable field.d mirrors.now }
    ensures products { IfOk result (λ found. IsUnderWay field.d mirrors.now (length found.list) 0 found.list found.neighbours) }
    ensures stops { IfErr result (OrNoMemory (StopsAtProduct field.d mirrors.now)) }
{
    let mut found = Products::first(alloc, field)?;
    let mut g = 0;
    while g < found.list.len() {
        found.multiply(field, g, mirrors)?;
        g += 1;
    }
    Ok(found)
}

impl Products {
    // The identity alone.
    fn first(alloc: Global, field: Field) -> Result<Products, AllocError>
        ensures { IfOk result (λ found. (rs : List Mirror) → IsUnderWay field.d rs 0 0 found.list found.neighbours) }
    {
        let mut list = Sequence::new(alloc);
        list.push(TableCopy {
            rows: Matrix::identity(),
            turned: false,
        })?;
        Ok(Products {
            list,
            neighbours: Sequence::new(alloc),
        })
    }

    // Multiplies product g by all reflections.
    fn multiply(&mut self, field: Field, g: usize, mirrors: &[Mirror]) -> Result<(), BuildStop>
        requires table { HaveTable field.d mirrors.now }
        requires there { g < length self.old.list }
        requires before { IsUnderWay field.d mirrors.now g 0 self.old.list self.old.neighbours }
        ensures after { OnOk result (IsUnderWay field.d mirrors.now (g + 1) 0 self.new.list self.new.neighbours) }
        ensures stops { IfErr result (OrNoMemory (StopsAtProduct field.d mirrors.now)) }
    {
        let product = self.list.as_slice()[g];
        for (i, mirror) in mirrors.iter().enumerate() {
            match find_times(field, &product.rows, mirror) {
                Ok(rows) => {
                    let place = self.place_of(rows, !product.turned)?;
                    self.neighbours.push(place)?;
                }
                Err(Place(place)) => {
                    return Err(BuildStop::Overflow(Site::Product {
                        product: g as u32,
                        side: i as u32,
                        place,
                    }));
                }
            }
        }
        Ok(())
    }

    // The place of a matrix in the list, where it is put at the end if it isn't there yet.
    fn place_of(&mut self, rows: Matrix, turned: bool) -> Result<u32, BuildStop>
        requires { length self.old.list ≤ 24 }
        ensures there { IfOk result (λ k. slice_get (rows_of self.new.list) k ≡ Some rows) }
        ensures list { OnOk result (IsPlaced rows turned self.old.list self.new.list) }
        ensures stops { IfErr result (OrNoMemory (λ stop. (stop ≡ BuildStop.Fault Fault.GroupTooLarge) × (¬ IsIn rows (rows_of self.old.list)) × (length self.old.list ≡ 24))) }
        ensures kept { self.new.neighbours ≡ self.old.neighbours }
    {
        if let Some(place) = find_rows(self.list.as_slice(), &rows) {
            return Ok(place as u32);
        }
        if self.list.len() == MOST_PRODUCTS {
            return Err(BuildStop::Fault(Fault::GroupTooLarge));
        }
        let place = self.list.len() as u32;
        self.list.push(TableCopy { rows, turned })?;
        Ok(place)
    }
}

// The place of a matrix in a list.
fn find_rows(list: &[TableCopy], rows: &Matrix) -> Option<usize>
    ensures there { IfSome result (λ k. slice_get (rows_of list.now) k ≡ Some rows.now) }
    ensures none { result ≡ None → ¬ IsIn rows.now (rows_of list.now) }
{
    for (k, copy) in list.iter().enumerate() {
        if copy.rows == *rows {
            return Some(k);
        }
    }
    None
}
