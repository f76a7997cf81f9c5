// The letters of an exchange.

ghost use Rattle.std.specs.Prelude.{◌≡◌, ◌+◌, ◌<◌, ◌≤◌, ◌^◌, ℕ, Some, length, IfOk};
ghost use Rattle.std.specs.List.{slice_get, AllByRecursion};
ghost use Rattle.fs_plane.specs.declared.corners.Corner.{Corner};
ghost use Rattle.fs_gluing.specs.CrossingMap.{IsOutgoing, gluing_vector};
ghost use Rattle.fs_gluing.specs.Exchanges as exchanges;
ghost use Rattle.fs_gluing.specs.Exchanges.{IsLetterOf};
ghost use Rattle.fs_iet.specs.ExchangeValue.{most_letters};
ghost use Rattle.fs_iet.specs.Rows.{HaveWidths, HaveReturns};

use crate::sites::{find_return, partner_of, position_of};
use crate::widths::{is_incoming, is_outgoing, side_width};
use fs_gluing::{Sequence, Surface};
use fs_plane::{Corner, V2};
use fs_quadratic::Elem;
use std::alloc::{AllocError, Global};
use std::marker::Model;

/// The end of a letter as a point of a separatrix: a scaled vector, and whether a separatrix begins or ends there.
#[derive(Clone, Copy, Debug, PartialEq, Eq, Hash)]
pub struct Tag {
    /// At a start: from the vertex to corner 0 of the polygon that the letter is in; at an end: from corner 0 of the
    /// polygon to the vertex.
    pub v: V2,
    /// Whether a separatrix begins or ends there.
    pub real: bool,
}

impl Model for Tag {
    ghost use Rattle.fs_gluing.specs.Exchanges.{EndVector};

    ghost Value = { EndVector };

    ghost view = { λ t. record { vector = t.v; real = t.real } };

    ghost inverse = { λ t. record { v = t.vector; real = t.real } };
}

// A letter of an exchange.
#[derive(Clone, Copy)]
pub struct Letter {
    pub name: u32,
    pub length: Elem,
    pub back: V2,
    pub corner: Corner,
    pub start: Tag,
    pub end: Tag,
}

impl Model for Letter {
    ghost use Rattle.fs_gluing.specs.Exchanges as exchanges;

    ghost Value = { exchanges.Letter };

    ghost view = { λ l. record { name = l.name; length = l.length; back = l.back; corner = l.corner; start = l.start; end = l.end } };

    ghost inverse = { λ l. record { name = l.name; length = l.length; back = l.back; corner = l.corner; start = l.start; end = l.end } };
}

// The letters of these outgoing sides, in their order.
pub fn find_letters(
    alloc: Global,
    surface: &Surface,
    v: V2,
    row: &[Corner],
) -> Result<Sequence<Letter>, AllocError>
    requires outgoing { AllByRecursion (IsOutgoing surface.now v) row.now }
    requires few { length row.now ≤ most_letters }
    requires widths { HaveWidths surface.now v }
    requires returns { HaveReturns surface.now v }
    ensures as_many { IfOk result (λ letters. length letters ≡ length row.now) }
    ensures letters { IfOk result (λ letters. (n : ℕ) (f : Corner) (letter : exchanges.Letter) → slice_get row.now n ≡ Some f → slice_get letters n ≡ Some letter → IsLetterOf surface.now v f n letter) }
{
    let mut letters = Sequence::new(alloc);
    for (n, &f) in row.iter().enumerate() {
        letters.push(letter_of(surface, v, f, n as u32))?;
    }
    Ok(letters)
}

// The letter of an outgoing side.
fn letter_of(surface: &Surface, v: V2, f: Corner, name: u32) -> Letter
    requires outgoing { IsOutgoing surface.now v f }
    requires widths { HaveWidths surface.now v }
    requires returns { HaveReturns surface.now v }
    ensures { IsLetterOf surface.now v f name result }
{
    let partner = partner_of(surface, f);
    let after = surface.corner_after(f);
    Letter {
        name,
        length: side_width(surface, v, f),
        back: return_of(surface, v, f),
        corner: partner,
        start: Tag {
            v: position_of(surface, partner).neg(),
            real: is_incoming(surface, v, surface.side_before(partner)),
        },
        end: Tag {
            v: position_of(surface, after),
            real: is_outgoing(surface, v, after),
        },
    }
}

// The return vector of an outgoing side's letter, where its formula doesn't overflow.
fn return_of(surface: &Surface, v: V2, f: Corner) -> V2
    requires outgoing { IsOutgoing surface.now v f }
    requires returns { HaveReturns surface.now v }
    ensures { result ≡ gluing_vector surface.now v f }
{
    match find_return(surface, f) {
        Ok(back) => back,
        Err(_) => unreachable!(),
    }
}
