// The image of a position under an exchange.

ghost use Rattle.std.specs.Prelude.{◌≡◌, ◌<◌, ◌≤◌, map, length};
ghost use Rattle.std.specs.List.{AllByRecursion, range_with_len};
ghost use Rattle.fs_ring.specs.OrderedRing.{IsAtMost};
ghost use Rattle.fs_quadratic.specs.Ring.{zero, total, quadratic, IsPositive, IsLess};
ghost use Rattle.fs_gluing.specs.Exchanges.{Component, names_of};
ghost use Rattle.fs_iet.specs.ExchangeValue.{most_letters};
ghost use Rattle.fs_iet.specs.Images.{image, letter_at, bottom_position};

use crate::letters::Letter;
use fs_plane::Place;
use fs_quadratic::steps::{difference_at, sum_at};
use fs_quadratic::{Elem, Field};
use std::cmp::Ordering;
use std::marker::Model;

// An offset in a letter, by the letter's name.
#[derive(Clone, Copy)]
pub struct Offset {
    pub name: u32,
    pub offset: Elem,
}

impl Model for Offset {
    ghost use Rattle.fs_iet.specs.Images as images;

    ghost Value = { images.Offset };

    ghost view = { λ o. record { name = o.name; offset = o.offset } };

    ghost inverse = { λ o. record { name = o.name; offset = o.offset } };
}

// The image of y, which is at least 0 and less than the sum of the lengths.
pub fn find_image(field: Field, letters: &[Letter], bottom: &[u32], y: Elem) -> Result<Elem, Place>
    requires from_zero { IsAtMost (quadratic field.d) (IsPositive field.d) zero y }
    requires below_total { IsLess field.d y (total (map (λ letter. letter.length) letters.now)) }
    requires named { names_of letters.now ≡ range_with_len 0 (length letters.now) }
    requires few { length letters.now ≤ most_letters }
    requires within { AllByRecursion (λ name. name < length letters.now) bottom.now }
    requires few_names { length bottom.now ≤ most_letters }
    ensures { (c : Component) → c.top ≡ letters.now → c.bottom ≡ bottom.now → result ≡ image field.d c y }
{
    let at = find_letter(field, letters, y)?;
    find_bottom_position(letters, bottom, at)
}

// The letter that holds y, and how far y is from its left end.
fn find_letter(field: Field, letters: &[Letter], y: Elem) -> Result<Offset, Place>
    requires from_zero { IsAtMost (quadratic field.d) (IsPositive field.d) zero y }
    requires below_total { IsLess field.d y (total (map (λ letter. letter.length) letters.now)) }
    requires few { length letters.now ≤ most_letters }
    ensures { result ≡ letter_at field.d 0 y letters.now }
{
    let mut offset = y;
    for (n, letter) in letters.iter().enumerate() {
        if field.cmp(offset, letter.length) == Ordering::Less {
            return Ok(Offset {
                name: letter.name,
                offset,
            });
        }
        offset = difference_at(1 + n as u32, offset, letter.length)?;
    }
    unreachable!()
}

// The position in the bottom row of an offset in a letter.
fn find_bottom_position(letters: &[Letter], bottom: &[u32], at: Offset) -> Result<Elem, Place>
    requires named { names_of letters.now ≡ range_with_len 0 (length letters.now) }
    requires within { AllByRecursion (λ name. name < length letters.now) bottom.now }
    requires few_names { length bottom.now ≤ most_letters }
    ensures { result ≡ bottom_position letters.now 0 at.name at.offset bottom.now }
{
    let mut y = at.offset;
    for (n, &name) in bottom.iter().enumerate() {
        if name == at.name {
            return Ok(y);
        }
        let letter = letters[name as usize];
        y = sum_at(513 + n as u32, y, letter.length)?;
    }
    Ok(y)
}
