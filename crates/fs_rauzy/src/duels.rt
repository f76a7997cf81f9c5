// The comparison of the last letters of the current component: the longer one wins, equally long ones merge.

ghost use Rattle.std.specs.Prelude.{◌≡◌, ◌≢◌, ◌↔◌, ◌<◌, ◌≤◌, IsTrue, true, false, IfOk, IfErr, OnOk, OnErr, length, slice_set, slice_index_or};
ghost use Rattle.std.specs.declared.cmp.Ordering.{Ordering};
ghost use Rattle.fs_quadratic.specs.Ring.{IsLess};
ghost use Rattle.fs_gluing.specs.Exchanges.{Letter};
ghost use Rattle.fs_rauzy.specs.declared.events.Event.{Event};
ghost use Rattle.fs_rauzy.specs.FirstReturns.{KeepsReturns};
ghost use Rattle.fs_rauzy.specs.Rule.{is_step};
ghost use Rattle.fs_rauzy.specs.StatesInPlace.{no_letter, AreLastNames};
ghost use Rattle.fs_rauzy.specs.Steps.{AtCurrent, CanCompare, IsMadeBy, IsStoppedBy};

use crate::events::Event;
use crate::letters::Interval;
use crate::numbers::{MergedNumbers, WonNumbers, find_merged, find_won};
use crate::parts::Logged;
use crate::rows::{Extent, find_name, move_last_behind, put_last_at};
use crate::states::State;
use fs_plane::Place;
use fs_quadratic::{Elem, Field};
use std::cmp::Ordering;

impl State {
    // Compares the last letters of the current component: one wins, or both merge.
    #[inline(always)]
    pub fn duel(&mut self) -> Result<Logged, Place>
        requires last { AtCurrent CanCompare self.old.components }
        ensures made { IfOk result (λ logged. IsMadeBy self.old.d (λ event. is_step event ≡ true) self.old.components (record { event = logged.event; length = logged.length; components = self.new.components })) }
        ensures stops { IfErr result (λ stop. IsStoppedBy self.old.d (λ event. is_step event ≡ true) self.old.components stop) }
        ensures unchanged { OnErr result (self.new ≡ self.old) }
        ensures field { self.new.d ≡ self.old.d }
        ensures returns { OnOk result (KeepsReturns self.old.d self.old.components self.new.components) }
    {
        let x = self.top[self.top.len() - 1];
        let y = self.bottom[self.bottom.len() - 1];
        let above = self.letters[x as usize].length;
        let below = self.letters[y as usize].length;
        match compare_lengths(self.field, above, below) {
            Ordering::Greater => self.win_above(x, y),
            Ordering::Less => self.win_below(x, y),
            Ordering::Equal => self.merge(x, y),
        }
    }

    // The top row's last letter x wins over the bottom row's last letter y.
    #[inline(always)]
    fn win_above(&mut self, x: u32, y: u32) -> Result<Logged, Place>
        requires last { AtCurrent (λ c. AreLastNames c x y (λ a b. IsLess self.old.d b.length a.length)) self.old.components }
        ensures made { IfOk result (λ logged. IsMadeBy self.old.d (λ event. is_step event ≡ true) self.old.components (record { event = logged.event; length = logged.length; components = self.new.components })) }
        ensures stops { IfErr result (λ stop. IsStoppedBy self.old.d (λ event. is_step event ≡ true) self.old.components stop) }
        ensures unchanged { OnErr result (self.new ≡ self.old) }
        ensures field { self.new.d ≡ self.old.d }
        ensures returns { OnOk result (KeepsReturns self.old.d self.old.components self.new.components) }
    {
        let extent = self.extents.last();
        let winner = &self.letters[x as usize];
        let loser = &self.letters[y as usize];
        let numbers = find_won(winner, loser, extent.total, loser.start.v)?;
        let place = find_name(&self.bottom, x);
        write_won_above(&mut self.letters, x as usize, y as usize, &numbers);
        move_last_behind(&mut self.bottom, place);
        self.extents.set_total(numbers.total);
        Ok(Logged {
            event: Event::Won { top: true },
            length: numbers.length,
        })
    }

    // The bottom row's last letter y wins over the top row's last letter x.
    #[inline(always)]
    fn win_below(&mut self, x: u32, y: u32) -> Result<Logged, Place>
        requires last { AtCurrent (λ c. AreLastNames c x y (λ a b. IsLess self.old.d a.length b.length)) self.old.components }
        ensures made { IfOk result (λ logged. IsMadeBy self.old.d (λ event. is_step event ≡ true) self.old.components (record { event = logged.event; length = logged.length; components = self.new.components })) }
        ensures stops { IfErr result (λ stop. IsStoppedBy self.old.d (λ event. is_step event ≡ true) self.old.components stop) }
        ensures unchanged { OnErr result (self.new ≡ self.old) }
        ensures field { self.new.d ≡ self.old.d }
        ensures returns { OnOk result (KeepsReturns self.old.d self.old.components self.new.components) }
    {
        let extent = self.extents.last();
        let winner = &self.letters[y as usize];
        let loser = &self.letters[x as usize];
        let numbers = find_won(winner, loser, extent.total, loser.end.v)?;
        let place = find_name(&self.top, y);
        write_won_below(&mut self.letters, y as usize, x as usize, &numbers);
        move_last_behind(&mut self.top, place);
        self.extents.set_total(numbers.total);
        Ok(Logged {
            event: Event::Won { top: false },
            length: numbers.length,
        })
    }

    // The last letters x and y, equally long, become one.
    #[inline(never)]
    fn merge(&mut self, x: u32, y: u32) -> Result<Logged, Place>
        requires last { AtCurrent (λ c. AreLastNames c x y (λ a b. a.length ≡ b.length)) self.old.components }
        ensures made { IfOk result (λ logged. IsMadeBy self.old.d (λ event. is_step event ≡ true) self.old.components (record { event = logged.event; length = logged.length; components = self.new.components })) }
        ensures stops { IfErr result (λ stop. IsStoppedBy self.old.d (λ event. is_step event ≡ true) self.old.components stop) }
        ensures unchanged { OnErr result (self.new ≡ self.old) }
        ensures field { self.new.d ≡ self.old.d }
        ensures returns { OnOk result (KeepsReturns self.old.d self.old.components self.new.components) }
    {
        let extent = self.extents.last();
        let length = self.letters[y as usize].length;
        let numbers = find_merged(
            &self.letters[x as usize],
            &self.letters[y as usize],
            extent.total,
        )?;
        let place = find_name(&self.bottom, x);
        write_merged(&mut self.letters, x as usize, y as usize, &numbers);
        put_last_at(&mut self.bottom, place);
        let _ = self.top.pop();
        self.extents.set_last(Extent {
            total: numbers.total,
            ..extent
        });
        self.searched = false;
        Ok(Logged {
            event: Event::Merged(numbers.found),
            length,
        })
    }
}

// How x compares with y. Where their r parts are equal, the rational parts tell it.
#[inline(always)]
fn compare_lengths(field: Field, x: Elem, y: Elem) -> Ordering
    ensures greater { result ≡ Ordering.Greater ↔ IsLess field.d y x }
    ensures less { result ≡ Ordering.Less ↔ IsLess field.d x y }
{
    match x.q().cmp(&y.q()) {
        Ordering::Equal => x.p().cmp(&y.p()),
        _ => field.cmp(x, y),
    }
}

// The winner, last in the top row, is shorter, and the loser returns later and starts elsewhere.
fn write_won_above(letters: &mut [Interval], winner: usize, loser: usize, numbers: &WonNumbers)
    requires winner { winner < length letters.old }
    requires loser { loser < length letters.old }
    requires differ { winner ≢ loser }
    ensures { let a = slice_index_or letters.old winner no_letter in let b = slice_index_or letters.old loser no_letter in
        letters.new ≡ slice_set (slice_set letters.old winner (record a { length = numbers.now.length })) loser
        (record b { back = numbers.now.back; start = record b.start { vector = numbers.now.vector } }) }
{
    let letter = &mut letters[winner];
    letter.length = numbers.length;
    let letter = &mut letters[loser];
    letter.back = numbers.back;
    letter.start.v = numbers.vector;
}

// The winner, last in the bottom row, is shorter, and the loser returns later and ends elsewhere.
fn write_won_below(letters: &mut [Interval], winner: usize, loser: usize, numbers: &WonNumbers)
    requires winner { winner < length letters.old }
    requires loser { loser < length letters.old }
    requires differ { winner ≢ loser }
    ensures { let a = slice_index_or letters.old winner no_letter in let b = slice_index_or letters.old loser no_letter in
        letters.new ≡ slice_set (slice_set letters.old winner (record a { length = numbers.now.length })) loser
        (record b { back = numbers.now.back; end = record b.end { vector = numbers.now.vector } }) }
{
    let letter = &mut letters[winner];
    letter.length = numbers.length;
    let letter = &mut letters[loser];
    letter.back = numbers.back;
    letter.end.v = numbers.vector;
}

// The letter y returns later, and starts where x did.
fn write_merged(letters: &mut [Interval], x: usize, y: usize, numbers: &MergedNumbers)
    requires x { x < length letters.old }
    requires y { y < length letters.old }
    ensures { let a = slice_index_or letters.old x no_letter in let b = slice_index_or letters.old y no_letter in
        letters.new ≡ slice_set letters.old y (record b { back = numbers.now.back; corner = a.corner; start = a.start }) }
{
    let letter = &letters[x];
    let (corner, start) = (letter.corner, letter.start);
    let letter = &mut letters[y];
    letter.back = numbers.back;
    letter.corner = corner;
    letter.start = start;
}
