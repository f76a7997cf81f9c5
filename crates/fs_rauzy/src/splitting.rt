// The split of the current component.

ghost use Rattle.std.specs.Prelude.{◌≡◌, ◌<◌, ◌≤◌, ◌≢◌, IfOk, IfErr, OnOk, OnErr, IsSome, length, slice_set, slice_index_or};
ghost use Rattle.fs_rauzy.specs.Events.{HasSplit, without_start, without_end};
ghost use Rattle.fs_rauzy.specs.FirstReturns.{KeepsReturns};
ghost use Rattle.fs_rauzy.specs.StatesInPlace.{no_letter};
ghost use Rattle.fs_rauzy.specs.Steps.{AtCurrent, SplitsAt, IsMadeBy, IsStoppedBy};

use crate::events::Event;
use crate::letters::Interval;
use crate::numbers::{find_prefix, find_split_numbers};
use crate::parts::Logged;
use crate::rows::Extent;
use crate::states::State;
use fs_plane::Place;
use fs_quadratic::Elem;

impl State {
    // Splits the current component after k letters: the right part is the current component then.
    pub fn split_at(&mut self, k: u32) -> Result<Logged, Place>
        requires split { AtCurrent (λ c. HasSplit c k) self.old.components }
        ensures made { IfOk result (λ logged. IsMadeBy self.old.d (SplitsAt k) self.old.components (record { event = logged.event; length = logged.length; components = self.new.components })) }
        ensures stops { IfErr result (λ stop. IsStoppedBy self.old.d (SplitsAt k) self.old.components stop) }
        ensures unchanged { OnErr result (self.new ≡ self.old) }
        ensures field { self.new.d ≡ self.old.d }
        ensures returns { OnOk result (KeepsReturns self.old.d self.old.components self.new.components) }
    {
        let extent = self.extents.last();
        let middle = extent.first + k as usize;
        let starting = self.bottom[middle] as usize;
        let ending = self.top[middle] as usize;
        let sum = find_prefix(&self.letters, &self.top[extent.first..middle])?;
        let numbers = find_split_numbers(
            extent.base,
            extent.total,
            k,
            sum,
            &self.letters[starting],
            &self.letters[ending],
        )?;
        if numbers.found.is_some() {
            clear_ends(&mut self.letters, starting, ending);
        }
        self.extents.set_last(Extent {
            total: numbers.sum,
            ..extent
        });
        self.extents.push(Extent {
            first: middle,
            base: numbers.base,
            total: numbers.rest,
        });
        self.searched = false;
        Ok(Logged {
            event: Event::Split {
                at: k,
                found: numbers.found,
            },
            length: Elem::ZERO,
        })
    }
}

// The start of the one letter and the end of the other are real no more.
fn clear_ends(letters: &mut [Interval], starting: usize, ending: usize)
    requires starting { starting < length letters.old }
    requires ending { ending < length letters.old }
    requires named_start { (slice_index_or letters.old starting no_letter).name ≡ starting }
    requires named_end { (slice_index_or letters.old ending no_letter).name ≡ ending }
    ensures { let started = slice_set letters.old starting (without_start starting (slice_index_or letters.old starting no_letter)) in
        letters.new ≡ slice_set started ending (without_end ending (slice_index_or started ending no_letter)) }
{
    let letter = &mut letters[starting];
    letter.start.real = false;
    let letter = &mut letters[ending];
    letter.end.real = false;
}
