// The numbers of events, each with its place.

ghost use Rattle.std.specs.Prelude.{◌≡◌, ◌+◌, ◌<◌, ◌≤◌, ◌^◌, IsTrue, length, unsigned_abs};
ghost use Rattle.std.specs.List.{AllByRecursion};
ghost use Rattle.fs_quadratic.specs.Ring.{sub};
ghost use Rattle.fs_plane.specs.Vector.{vector_add};
ghost use Rattle.fs_iet.specs.ExchangeValue.{most_letters};
ghost use Rattle.fs_rauzy.specs.RoomForSums.{HasRoom, VectorHasRoom};
ghost use Rattle.fs_rauzy.specs.Rule as rule;
ghost use Rattle.fs_rauzy.specs.Rule.{checked_connection, checked_won, checked_merged, checked_prefix, checked_lengths, checked_split};
ghost use Rattle.fs_rauzy.specs.StatesInPlace.{letters_at};

use crate::events::Found;
use crate::letters::Interval;
use fs_plane::steps::vector_sum_after;
use fs_plane::{Place, V2};
use fs_quadratic::Elem;
use fs_quadratic::steps::{difference_at, sum_at};
use std::marker::Model;

// The numbers of a won comparison.
#[derive(Clone, Copy)]
pub struct WonNumbers {
    pub length: Elem,
    pub total: Elem,
    pub back: V2,
    pub vector: V2,
}

impl Model for WonNumbers {
    ghost use Rattle.fs_rauzy.specs.Rule as rule;

    ghost Value = { rule.WonNumbers };

    ghost view = { λ n. record { length = n.length; total = n.total; back = n.back; vector = n.vector } };

    ghost inverse = { λ n. record { length = n.length; total = n.total; back = n.back; vector = n.vector } };
}

// The numbers of a merge.
#[derive(Clone, Copy)]
pub struct MergedNumbers {
    pub total: Elem,
    pub back: V2,
    pub found: Option<Found>,
}

impl Model for MergedNumbers {
    ghost use Rattle.fs_rauzy.specs.Rule as rule;

    ghost Value = { rule.MergedNumbers };

    ghost view = { λ n. record { total = n.total; back = n.back; found = n.found } };

    ghost inverse = { λ n. record { total = n.total; back = n.back; found = n.found } };
}

// The numbers of a split.
#[derive(Clone, Copy)]
pub struct SplitNumbers {
    pub sum: Elem,
    pub rest: Elem,
    pub base: Elem,
    pub found: Option<Found>,
}

impl Model for SplitNumbers {
    ghost use Rattle.fs_rauzy.specs.Rule as rule;

    ghost Value = { rule.SplitNumbers };

    ghost view = { λ n. record { sum = n.sum; rest = n.rest; base = n.base; found = n.found } };

    ghost inverse = { λ n. record { sum = n.sum; rest = n.rest; base = n.base; found = n.found } };
}

// Sums and differences of parts below it in size are within the width.
const ROOM: i128 = 1 << 125;

// The numbers of a won comparison, where the loser's end with this vector moves. They take no checks where all parts have room.
#[inline(always)]
pub fn find_won(
    winner: &Interval,
    loser: &Interval,
    total: Elem,
    vector: V2,
) -> Result<WonNumbers, Place>
    ensures { result ≡ checked_won winner.now loser.now total vector }
{
    if has_room(winner.length)
        && has_room(loser.length)
        && has_room(total)
        && vector_has_room(winner.back)
        && vector_has_room(loser.back)
        && vector_has_room(vector)
    {
        return Ok(WonNumbers {
            length: difference_in_room(winner.length, loser.length),
            total: difference_in_room(total, loser.length),
            back: sum_in_room(loser.back, winner.back),
            vector: sum_in_room(vector, winner.back),
        });
    }
    let WonNumbers {
        length,
        total,
        back,
        vector,
    } = find_won_checked(winner, loser, total, vector)?;
    // Part by part, so that no call writes to the memory of the numbers in the common case.
    Ok(WonNumbers {
        length,
        total,
        back,
        vector,
    })
}

// The same, by checked computations.
#[inline(never)]
#[tactic(auto, unfolding(crate::specs::Rule::checked_won))]
fn find_won_checked(
    winner: &Interval,
    loser: &Interval,
    total: Elem,
    vector: V2,
) -> Result<WonNumbers, Place>
    ensures { result ≡ checked_won winner.now loser.now total vector }
{
    let length = difference_at(1, winner.length, loser.length)?;
    let rest = difference_at(2, total, loser.length)?;
    let back = vector_sum_after(2, loser.back, winner.back)?;
    let moved = vector_sum_after(4, vector, winner.back)?;
    Ok(WonNumbers {
        length,
        total: rest,
        back,
        vector: moved,
    })
}

// Whether a part is at most 2^125 in size.
#[inline(always)]
fn part_has_room(part: i128) -> bool
    ensures { IsTrue result → unsigned_abs part ≤ 2 ^ 125 }
{
    -ROOM <= part && part < ROOM
}

// Whether both parts are.
#[inline(always)]
fn has_room(x: Elem) -> bool
    ensures { IsTrue result → HasRoom x }
{
    part_has_room(x.p()) && part_has_room(x.q())
}

// Whether those of both coordinates are.
#[inline(always)]
fn vector_has_room(a: V2) -> bool
    ensures { IsTrue result → VectorHasRoom a }
{
    has_room(a.x) && has_room(a.y)
}

// The difference of two numbers with room.
#[inline(always)]
fn difference_in_room(x: Elem, y: Elem) -> Elem
    requires left { HasRoom x }
    requires right { HasRoom y }
    ensures { result ≡ sub x y }
{
    x.sub_fitting(y)
}

// The sum of two vectors with room.
#[inline(always)]
fn sum_in_room(a: V2, b: V2) -> V2
    requires left { VectorHasRoom a }
    requires right { VectorHasRoom b }
    ensures { result ≡ vector_add a b }
{
    V2 {
        x: a.x.add_fitting(b.x),
        y: a.y.add_fitting(b.y),
    }
}

// The numbers of a merge of x, last in the top row, and y, last in the bottom row.
#[tactic(auto, unfolding(crate::specs::Rule::checked_merged))]
pub fn find_merged(x: &Interval, y: &Interval, total: Elem) -> Result<MergedNumbers, Place>
    ensures { result ≡ checked_merged x.now y.now total }
{
    let rest = difference_at(1, total, x.length)?;
    let back = vector_sum_after(1, y.back, x.back)?;
    let found = find_connection(3, y, x)?;
    Ok(MergedNumbers {
        total: rest,
        back,
        found,
    })
}

// The numbers of a split of a component with this base and this total after k letters, whose lengths sum to `sum`.
pub fn find_split_numbers(
    base: Elem,
    total: Elem,
    k: u32,
    sum: Elem,
    starting: &Interval,
    ending: &Interval,
) -> Result<SplitNumbers, Place>
    requires { k ≤ most_letters }
    ensures { result ≡ rule.checked_parts base total k sum starting.now ending.now }
{
    let rest = difference_at(k, total, sum)?;
    let right = sum_at(k + 1, base, sum)?;
    let found = find_connection(k + 1, starting, ending)?;
    Ok(SplitNumbers {
        sum,
        rest,
        base: right,
        found,
    })
}

// The connection from the start of a letter to the end of another, if both are real.
fn find_connection(
    before: u32,
    starting: &Interval,
    ending: &Interval,
) -> Result<Option<Found>, Place>
    requires { before + 2 < 2 ^ 32 }
    ensures { result ≡ checked_connection before starting.now ending.now }
{
    if !(starting.start.real && ending.end.real) {
        return Ok(None);
    }
    let v = vector_sum_after(before, starting.start.v, ending.end.v)?;
    Ok(Some(Found {
        start: starting.corner,
        v,
    }))
}

// The sum of the lengths of the letters of these names.
pub fn find_prefix(letters: &[Interval], names: &[u32]) -> Result<Elem, Place>
    requires within { AllByRecursion (λ name. name < length letters.now) names.now }
    requires few { length names.now ≤ most_letters }
    ensures { result ≡ checked_prefix (letters_at letters.now names.now) }
{
    match names.split_first() {
        Some((first, others)) => {
            let letter = letters[*first as usize];
            add_lengths(letters, others, letter.length)
        }
        None => Ok(Elem::ZERO),
    }
}

// That sum, from the first length on: the places are 1 and so on.
fn add_lengths(letters: &[Interval], names: &[u32], first: Elem) -> Result<Elem, Place>
    requires within { AllByRecursion (λ name. name < length letters.now) names.now }
    requires few { length names.now ≤ most_letters }
    ensures { result ≡ checked_lengths 1 first (letters_at letters.now names.now) }
{
    let mut sum = first;
    for (n, &name) in names.iter().enumerate() {
        let letter = &letters[name as usize];
        sum = sum_at(1 + n as u32, sum, letter.length)?;
    }
    Ok(sum)
}
