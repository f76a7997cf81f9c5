// The letters of a state.

ghost use Rattle.std.specs.Prelude.{◌≡◌, ◌<◌, ◌≤◌, IfOk, length, slice_set, slice_index_or};
ghost use Rattle.fs_gluing.specs.Exchanges as exchanges;
ghost use Rattle.fs_iet.specs.ExchangeValue.{IsExchangeValue};
ghost use Rattle.fs_rauzy.specs.Events.{without_start, without_end, won_over, lost_below, lost_above, merged_of};
ghost use Rattle.fs_rauzy.specs.StatesInPlace.{no_letter};

use fs_iet::{Exchange, Tag};
use fs_plane::{Corner, V2};
use fs_quadratic::Elem;
use std::alloc::{AllocError, Global};
use std::marker::Model;

// A letter: an interval that is exchanged as a whole.
#[derive(Clone, Copy)]
pub struct Interval {
    pub name: u32,
    pub length: Elem,
    pub back: V2,
    pub corner: Corner,
    pub start: Tag,
    pub end: Tag,
}

impl Model for Interval {
    ghost use Rattle.fs_gluing.specs.Exchanges as exchanges;

    ghost Value = { exchanges.Letter };

    ghost view = { λ l. record { name = l.name; length = l.length; back = l.back; corner = l.corner; start = l.start; end = l.end } };

    ghost inverse = { λ l. record { name = l.name; length = l.length; back = l.back; corner = l.corner; start = l.start; end = l.end } };
}

// The letters of an exchange.
pub fn read_letters(alloc: Global, exchange: &Exchange) -> Result<Vec<Interval>, AllocError>
    ensures { IfOk result (λ letters. letters.items ≡ exchange.now.component.top) }
{
    let mut letters = Vec::with_capacity(alloc, exchange.letters() as usize)?;
    for n in 0..exchange.letters() {
        letters.push(read_letter(exchange, n))?;
    }
    Ok(letters)
}

// Letter n of an exchange.
fn read_letter(exchange: &Exchange, n: u32) -> Interval
    requires inside { n < length exchange.now.component.top }
    requires kept { IsExchangeValue exchange.now }
    ensures { result ≡ slice_index_or exchange.now.component.top n no_letter }
{
    Interval {
        name: n,
        length: exchange.length(n),
        back: exchange.back(n),
        corner: exchange.start_corner(n),
        start: exchange.start_tag(n),
        end: exchange.end_tag(n),
    }
}
