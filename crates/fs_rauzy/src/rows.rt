// Rows of names: those of all open components, one after another. The current component's are the last ones.

ghost use Rattle.std.specs.Prelude.{◌≡◌, ◌+◌, ◌<◌, ℕ, List, [], ◌∷◌, ◌++◌, length, IfOk};
ghost use Rattle.std.specs.List.{range_with_len};
ghost use Rattle.fs_lists.specs.Members.{IsIn};

use fs_iet::Exchange;
use fs_quadratic::Elem;
use std::alloc::{AllocError, Global};

// An open component, beside its rows: where they begin in the rows of all, and the component's base and its total.
#[derive(Clone, Copy)]
pub struct Extent {
    pub first: usize,
    pub base: Elem,
    pub total: Elem,
}

// The names of an exchange's top row: the numbers from 0 on.
pub fn read_top(alloc: Global, exchange: &Exchange) -> Result<Vec<u32>, AllocError>
    ensures { IfOk result (λ row. row.items ≡ range_with_len 0 (length exchange.now.component.top)) }
{
    let mut row = Vec::with_capacity(alloc, exchange.letters() as usize)?;
    for n in 0..exchange.letters() {
        row.push(n)?;
    }
    Ok(row)
}

// The names of its bottom row.
pub fn read_bottom(alloc: Global, exchange: &Exchange) -> Result<Vec<u32>, AllocError>
    ensures { IfOk result (λ row. row.items ≡ exchange.now.component.bottom) }
{
    let mut row = Vec::with_capacity(alloc, exchange.letters() as usize)?;
    for n in 0..exchange.letters() {
        row.push(exchange.bottom(n))?;
    }
    Ok(row)
}

// The place of a name in a row: the last one, if there are several.
pub fn find_name(row: &[u32], name: u32) -> usize
    requires { IsIn name row.now }
    ensures { (left : List ℕ) × (right : List ℕ) × (row.now ≡ left ++ name ∷ right) × (length left ≡ result) × ¬ IsIn name right }
{
    let mut place = row.len() - 1;
    while row[place] != name {
        place -= 1;
    }
    place
}

// Moves the last name right behind the one at a place, which isn't the last.
pub fn move_last_behind(row: &mut [u32], place: usize)
    requires { place + 1 < length row.old }
    ensures { (left right : List ℕ) (winner loser : ℕ) → length left ≡ place → row.old ≡ left ++ winner ∷ (right ++ loser ∷ []) → row.new ≡ left ++ winner ∷ (loser ∷ right) }
{
    row[place + 1..].rotate_right(1);
}

// Removes the last name, and puts it in the place of the one at a place, which isn't the last.
pub fn put_last_at(row: &mut Vec<u32>, place: usize)
    requires { place + 1 < length row.old.items }
    ensures { (left right : List ℕ) (x y : ℕ) → length left ≡ place → row.old.items ≡ left ++ x ∷ (right ++ y ∷ []) → row.new.items ≡ left ++ y ∷ right }
{
    if let Some(last) = row.pop() {
        row[place] = last;
    }
}
