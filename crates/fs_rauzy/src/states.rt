// The states of the induction.

ghost use Rattle.std.specs.Prelude.{◌≡◌, ◌≢◌, ◌↔◌, ◌≤◌, ℕ, IsTrue, Ok, Err, Some, None, List, [], ◌∷◌, length, IfOk, OnOk, OnErr, IfErr, IfSome};
ghost use Rattle.std.specs.List.{AllByRecursion};
ghost use Rattle.fs_quadratic.specs.Radicand.{IsRadicand};
ghost use Rattle.fs_quadratic.specs.Ring.{Quadratic};
ghost use Rattle.fs_quadratic.specs.declared.steps.Place.{Place};
ghost use Rattle.fs_plane.specs.Vector.{PlaneVector, vector_zero};
ghost use Rattle.fs_gluing.specs.Exchanges.{Component, IsExchange, IsLawful};
ghost use Rattle.fs_gluing.specs.Surface.{GluedPolygons, IsTranslationSurface};
ghost use Rattle.fs_rauzy.specs.declared.states.Choice.{Choice};
ghost use Rattle.fs_rauzy.specs.Events.{HasSplit, HasEqualPrefixes, Outcome};
ghost use Rattle.fs_rauzy.specs.FirstReturns.{AllGiveReturns, KeepsReturns};
ghost use Rattle.fs_rauzy.specs.Rule.{IsMade, StopsAt};
ghost use Rattle.fs_rauzy.specs.declared.events.Event.TheVariants.{Closed};
ghost use Rattle.fs_rauzy.specs.Steps.{AtCurrent, IsOpen, IsMadeBy};
ghost use Rattle.fs_rauzy.specs.StatesInPlace.{IsChoice};

use crate::events::Event;
use crate::letters::{Interval, read_letters};
use crate::parts::Logged;
use crate::room::Room;
use crate::rows::{Extent, read_bottom, read_top};
use crate::splits::{find_greatest, is_same_prefix};
use fs_fraction::NoMemory;
use fs_iet::Exchange;
use fs_plane::Place;
use fs_quadratic::{Elem, Field};
use std::alloc::{AllocError, Global};
use std::marker::Model;

/// A state of the induction: the open components of an interval exchange, each of at most 512 letters, which have positive
/// lengths that sum to the component's total. Both rows of a component have the same letters, each once. The current
/// component is the one of greatest base. All lengths and vectors are scaled.
#[derive(Drop)]
pub struct State {
    pub(crate) field: Field,
    // All letters, by their names.
    pub(crate) letters: Vec<Interval>,
    // The names in the rows of all components, one component after another: the current one is the last.
    pub(crate) top: Vec<u32>,
    pub(crate) bottom: Vec<u32>,
    pub(crate) extents: Room<Extent>,
    // For each name a place, which is used while a split is looked for.
    pub(crate) places: Vec<u32>,
    // Whether the current component is known to have no split.
    pub(crate) searched: bool,
}

impl Model for State {
    ghost use Rattle.std.specs.Prelude.{◌≡◌, ◌≤◌, length};
    ghost use Rattle.fs_rauzy.specs.States.{StateValue, IsState};
    ghost use Rattle.fs_rauzy.specs.StatesInPlace.{opened, IsInPlace, IsSearched};

    ghost Value = { StateValue };

    ghost view = { λ x. record { d = x.field.d; components = opened x.letters.items x.top.items x.bottom.items x.extents.items } };

    ghost invariant = { λ x. IsState (record { d = x.field.d; components = opened x.letters.items x.top.items x.bottom.items x.extents.items })
        × IsInPlace x.letters.items x.top.items x.bottom.items x.extents.items
        × (length x.letters.items ≤ x.extents.room)
        × (length x.places.items ≡ length x.letters.items)
        × IsSearched x.searched (opened x.letters.items x.top.items x.bottom.items x.extents.items) };
}

// What comes next for a component that isn't alike to an earlier state of it.
#[derive(Clone, Copy)]
pub enum Choice {
    // A split after so many letters.
    Split(u32),
    // It has one letter, and closes.
    Close,
    // The last letters of its rows are compared.
    Compare,
}

impl State {
    /// The state with which the induction of an exchange begins: the exchange is its one open component. It takes all the room
    /// that later events need, linear in the letters. It is refused only where memory runs out.
    pub fn new(alloc: Global, exchange: Exchange) -> Result<State, NoMemory>
        ensures field { IfOk result (λ state. state.d ≡ exchange.d) }
        ensures components { IfOk result (λ state. state.components ≡ exchange.component ∷ []) }
        // The exchange of a surface and a direction gives first returns: each is one crossing.
        ensures returns { IfOk result (λ state. (s : GluedPolygons) (v : PlaneVector) → IsTranslationSurface s → v ≢ vector_zero → s.d ≡ exchange.d
            → IsExchange s v exchange.component → AllGiveReturns s v state.components) }
    {
        let count = exchange.letters() as usize;
        let letters = read_letters(alloc, &exchange)?;
        let top = read_top(alloc, &exchange)?;
        let bottom = read_bottom(alloc, &exchange)?;
        let places = no_places(alloc, count)?;
        let mut extents = Room::new(alloc, count)?;
        extents.push(Extent {
            first: 0,
            base: Elem::ZERO,
            total: exchange.total(),
        });
        Ok(State {
            field: exchange.field(),
            letters,
            top,
            bottom,
            extents,
            places,
            searched: false,
        })
    }

    /// Whether the induction is done: no component is open.
    pub fn is_done(&self) -> bool
        ensures { IsTrue result ↔ (self.now.components ≡ []) }
    {
        self.extents.is_empty()
    }

    /// Makes the next event of a state that isn't done. The current component is split after as many letters as it can be: a
    /// number k, fewer than all, such that the first k letters of both rows are the same ones. If it can't, and has one
    /// letter, it closes. Else the last letters of its rows are compared: the longer one wins, equally long ones merge.
    ///
    /// A split finds a connection where the start of the right part's first letter in the bottom row and the end of its first
    /// letter in the top row are both real, a merge where the start of the bottom row's last letter and the end of the top
    /// row's last letter are.
    ///
    /// The error is the first place that overflows; the state is then as it was. Of a split after k letters the places 1 to
    /// k - 1 are the sums of the first lengths of the top row, place k the total less that sum, place k + 1 the base plus it,
    /// and, where a connection is found, places k + 2 and k + 3 its vector. Of a won comparison place 1 is the winner's
    /// length less the loser's, place 2 the total less the loser's length, places 3 and 4 the loser's return vector plus the
    /// winner's, places 5 and 6 the vector of the loser's start (where the top row wins) or end plus the winner's return
    /// vector. Of a merge place 1 is the total less the length, places 2 and 3 the sum of the return vectors, and, where a
    /// connection is found, places 4 and 5 its vector.
    ///
    /// The cost is linear in the letters of the current component. Takes no memory.
    pub fn step(&mut self) -> Result<Event, Place>
        requires there { IsOpen self.old.components }
        ensures made { IfOk result (λ event. (length : Quadratic) × IsMade self.old.d self.old.components (record { event = event; length = length; components = self.new.components })) }
        ensures stops { IfErr result (λ stop. StopsAt self.old.d self.old.components stop) }
        ensures unchanged { OnErr result (self.new ≡ self.old) }
        ensures field { self.new.d ≡ self.old.d }
        // There is no other next event, and no other place: these are the ones of the rule.
        ensures only_event { (outcome : Outcome) → IsMade self.old.d self.old.components outcome → (result ≡ Ok outcome.event) × (self.new.components ≡ outcome.components) }
        ensures only_place { (stop : Place) → StopsAt self.old.d self.old.components stop → result ≡ Err stop }
        // Where the state gave first returns of a surface and a direction, it still does.
        ensures returns { OnOk result (KeepsReturns self.old.d self.old.components self.new.components) }
    {
        let logged = self.advance()?;
        Ok(logged.event)
    }

    // Makes the next event, as `step`.
    fn advance(&mut self) -> Result<Logged, Place>
        requires there { IsOpen self.old.components }
        ensures made { IfOk result (λ logged. IsMade self.old.d self.old.components (record { event = logged.event; length = logged.length; components = self.new.components })) }
        ensures stops { IfErr result (λ stop. StopsAt self.old.d self.old.components stop) }
        ensures unchanged { OnErr result (self.new ≡ self.old) }
        ensures field { self.new.d ≡ self.old.d }
        ensures returns { OnOk result (KeepsReturns self.old.d self.old.components self.new.components) }
        ensures kept { IsRadicand self.old.d × AllByRecursion (IsLawful self.old.d) self.old.components }
    {
        match self.choose() {
            Choice::Split(k) => self.split_at(k),
            Choice::Close => Ok(self.close()),
            Choice::Compare => self.duel(),
        }
    }

    // What the rule chooses.
    pub(crate) fn choose(&mut self) -> Choice
        requires { IsOpen self.old.components }
        ensures choice { IsChoice self.old.components result }
        ensures unchanged { self.new ≡ self.old }
        ensures kept { IsRadicand self.old.d × AllByRecursion (IsLawful self.old.d) self.old.components }
    {
        match self.find_split() {
            Some(k) => Choice::Split(k),
            None if self.letters_now() == 1 => Choice::Close,
            None => Choice::Compare,
        }
    }

    // The greatest number of letters after which the current component can be split.
    fn find_split(&mut self) -> Option<u32>
        requires { IsOpen self.old.components }
        ensures some { IfSome result (λ k. AtCurrent (λ c. HasSplit c k) self.old.components) }
        ensures greatest { IfSome result (λ k. AtCurrent (λ c. (j : ℕ) → HasSplit c j → j ≤ k) self.old.components) }
        ensures none { result ≡ None → AtCurrent (λ c. (j : ℕ) → ¬ HasSplit c j) self.old.components }
        ensures unchanged { self.new ≡ self.old }
        ensures kept { IsRadicand self.old.d × AllByRecursion (IsLawful self.old.d) self.old.components }
    {
        if self.searched {
            return None;
        }
        let first = self.extents.last().first;
        let greatest = find_greatest(&self.top[first..], &self.bottom[first..], &mut self.places);
        self.searched = greatest.is_none();
        greatest
    }

    // Whether the current component can be split after k letters.
    pub fn prefix_equal(&self, k: u32) -> bool
        requires { IsOpen self.now.components }
        ensures { IsTrue result ↔ AtCurrent (λ c. HasSplit c k) self.now.components }
    {
        if k == 0 || k >= self.letters_now() {
            return false;
        }
        let first = self.extents.last().first;
        is_same_prefix(&self.top[first..], &self.bottom[first..], k as usize)
    }

    // How many letters the current component has.
    pub fn letters_now(&self) -> u32
        requires { IsOpen self.now.components }
        ensures { AtCurrent (λ c. result ≡ length c.top) self.now.components }
    {
        (self.top.len() - self.extents.last().first) as u32
    }

    // Closes the current component, of one letter or alike to an earlier state of it.
    pub fn close(&mut self) -> Logged
        requires { IsOpen self.old.components }
        ensures made { IsMadeBy self.old.d (λ event. event ≡ Closed) self.old.components (record { event = result.event; length = result.length; components = self.new.components }) }
        ensures field { self.new.d ≡ self.old.d }
        ensures returns { KeepsReturns self.old.d self.old.components self.new.components }
    {
        let first = self.extents.last().first;
        self.top.truncate(first);
        self.bottom.truncate(first);
        self.extents.drop_last();
        self.searched = false;
        Logged {
            event: Event::Closed,
            length: Elem::ZERO,
        }
    }
}

// So many places.
fn no_places(alloc: Global, count: usize) -> Result<Vec<u32>, AllocError>
    ensures { IfOk result (λ places. length places.items ≡ count) }
{
    Vec::from_elem(alloc, 0, count)
}
