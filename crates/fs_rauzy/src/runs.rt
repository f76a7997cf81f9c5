// The run of the induction within a budget of steps.

ghost use Rattle.std.specs.Prelude.{◌≡◌, ◌+◌, ◌<◌, ◌≤◌, ◌^◌, ℕ, Result, IfOk, IfErr, OnOk, IsSome, true, false, []};
ghost use Rattle.fs_quadratic.specs.Radicand.{IsRadicand};
ghost use Rattle.fs_plane.specs.declared.sites.Site.TheVariants as sites;
ghost use Rattle.fs_plane.specs.declared.sites.Stop.{Stop};
ghost use Rattle.fs_rauzy.specs.declared.parts.Run.{Run};
ghost use Rattle.fs_rauzy.specs.Runs.{EndsRun, ReturnsRun, EndsParts, ReturnsParts, ArePartsAscending, Goes, start_of, without_events};
ghost use Rattle.fs_rauzy.specs.RunsInPlace.{ClosesTo, LooksBack, IsCompared, OverflowsWhere, StopsFrom, CanGo, Counts, counted, noted, renumbered, saved_now};
ghost use Rattle.fs_rauzy.specs.States.{IsState};
ghost use Rattle.fs_rauzy.specs.StatesInPlace.{IsChoice};
ghost use Rattle.fs_rauzy.specs.Steps.{IsOpen};

use crate::checkpoints::{Checkpoint, is_saved};
use crate::events::{Event, Found};
use crate::parts::{Kind, Logged, Part, Parts, Run};
use crate::states::{Choice, State};
use fs_gluing::Sequence;
use fs_plane::{Place, Site, Stop};
use std::alloc::{AllocError, Global};
use std::marker::Model;

/// The run of the induction from a state until no component is open, with at most `budget` steps, which are won comparisons
/// and merges.
///
/// The states of a component are numbered from 0, anew after each split and each merge and when it becomes current. After a
/// won comparison the component is compared with its checkpoint as by `State::same_shape`, and closes next where both are
/// alike. Checkpoints are the states 0, 1, 3, 7 and so on, each until the next one.
///
/// It is refused as `Undecided(budget)` exactly where so many steps are made and the next event is a step, and as `Overflow`
/// at the first site `Event`: the number of the event, from 0 without closings, and the place, which is one of `State::step`,
/// or of the comparison after a won one. It is refused as out of memory at any time. The cost is that of the events, each
/// linear in the letters of its component; an event takes about 150 bytes.
pub fn find_run(alloc: Global, state: State, budget: u32) -> Result<Run, Stop>
    requires { budget ≤ 1000000 }
    ensures run { ReturnsRun (EndsRun state.d budget state.components) result }
    // There is no other end of the run.
    ensures only { (given : Result Run Stop) → EndsRun state.d budget state.components given → ReturnsRun (λ returned. returned ≡ given) result }
    ensures ascending { IfOk result (λ run. ArePartsAscending state.d run.parts) }
{
    let mut progress = Progress::start(alloc, state)?;
    while !progress.state.is_done() {
        progress.go(alloc, budget)?;
    }
    Ok(progress.finish())
}

/// The run of the induction from a state, as by `find_run`, without its events: they take no memory.
pub fn find_parts(alloc: Global, state: State, budget: u32) -> Result<Parts, Stop>
    requires { budget ≤ 1000000 }
    ensures run { ReturnsParts (EndsParts state.d budget state.components) result }
    // There is no other end of the run.
    ensures only { (given : Result Run Stop) → EndsRun state.d budget state.components given → ReturnsParts (λ returned. returned ≡ without_events given) result }
    ensures ascending { IfOk result (λ parts. ArePartsAscending state.d parts.parts) }
{
    let mut progress = Progress::start(alloc, state)?;
    while !progress.state.is_done() {
        progress.go(alloc, budget)?;
        progress.forget_events();
    }
    Ok(progress.finish_parts())
}

// How far a run is.
#[derive(Drop)]
pub struct Progress {
    state: State,
    // The number of the current component's state.
    number: u32,
    // The checkpoint with which it is compared.
    saved: Option<Checkpoint>,
    // Whether it is alike to its checkpoint, and closes next.
    looped: bool,
    steps: u32,
    // How many events were no closings.
    numbered: u32,
    events: Vec<Logged>,
    // The parts in the order in which they closed.
    parts: Vec<Part>,
    found: Vec<Found>,
}

impl Model for Progress {
    ghost use Rattle.std.specs.Prelude.{◌≡◌, reverse};
    ghost use Rattle.fs_rauzy.specs.RunsInPlace.{ProgressValue};

    ghost Value = { ProgressValue };

    ghost view = { λ x. record {
      d = x.state.d;
      numbered = x.numbered;
      point = record {
        components = x.state.components;
        number = x.number;
        saved = x.saved;
        looped = x.looped;
        steps = x.steps;
        events = x.events.items;
        parts = reverse x.parts.items;
        found = x.found.items;
      };
    } };
}

impl Progress {
    // The beginning of a run.
    fn start(alloc: Global, state: State) -> Result<Progress, AllocError>
        ensures start { IfOk result (λ progress. progress ≡ record { d = state.d; numbered = 0; point = start_of state.components }) }
        ensures state { IsState state }
        ensures radicand { IsRadicand state.d }
    {
        let _ = &state.field;
        let mut progress = Progress {
            state,
            number: 0,
            saved: None,
            looped: false,
            steps: 0,
            numbered: 0,
            events: Vec::new(alloc),
            parts: Vec::new(alloc),
            found: Vec::new(alloc),
        };
        progress.begin(alloc)?;
        Ok(progress)
    }

    // Makes the next event.
    fn go(&mut self, alloc: Global, budget: u32) -> Result<(), Stop>
        requires budget { budget ≤ 1000000 }
        requires ready { CanGo self.old.d budget self.old.numbered self.old.point }
        ensures goes { OnOk result (Goes self.old.d self.old.point self.new.point) }
        ensures counts { OnOk result (Counts self.old self.new) }
        ensures within { OnOk result (self.new.point.steps ≤ budget) }
        ensures field { OnOk result (self.new.d ≡ self.old.d) }
        ensures stops { IfErr result (StopsFrom self.old.d budget self.old.numbered self.old.point) }
    {
        if self.looped {
            return Ok(self.close_loop(alloc)?);
        }
        match self.state.choose() {
            Choice::Close => Ok(self.close(alloc, Kind::Cylinder)?),
            Choice::Split(k) => self.split(alloc, k),
            Choice::Compare if self.steps == budget => Err(Stop::Undecided(budget)),
            Choice::Compare => self.compare(alloc),
        }
    }

    // Closes a component that is alike to its checkpoint.
    fn close_loop(&mut self, alloc: Global) -> Result<(), AllocError>
        requires looped { self.old.point.looped ≡ true }
        requires open { IsOpen self.old.point.components }
        requires saved { IsSome self.old.point.saved }
        requires few { self.old.numbered + 1 < 2 ^ 32 }
        ensures goes { OnOk result (Goes self.old.d self.old.point self.new.point) }
        ensures counts { OnOk result (Counts self.old self.new) }
        ensures steps { OnOk result (self.new.point.steps ≡ self.old.point.steps) }
        ensures field { OnOk result (self.new.d ≡ self.old.d) }
    {
        let to = self.number;
        match &self.saved {
            Some(saved) => {
                let from = saved.number;
                self.close(alloc, Kind::Looped { from, to })
            }
            None => unreachable!(),
        }
    }

    // Closes the current component.
    #[inline(never)]
    fn close(&mut self, alloc: Global, kind: Kind) -> Result<(), AllocError>
        requires open { IsOpen self.old.point.components }
        requires few { self.old.numbered + 1 < 2 ^ 32 }
        ensures closes { OnOk result (ClosesTo kind self.old.point self.new.point) }
        ensures counts { OnOk result (Counts self.old self.new) }
        ensures field { OnOk result (self.new.d ≡ self.old.d) }
    {
        let part = self.state.part(alloc, kind)?;
        self.parts.push(part)?;
        let logged = self.state.close();
        self.note(logged)?;
        self.begin(alloc)
    }

    // Splits it after k letters.
    #[inline(never)]
    fn split(&mut self, alloc: Global, k: u32) -> Result<(), Stop>
        requires going { self.old.point.looped ≡ false }
        requires choice { IsChoice self.old.point.components (Choice.Split k) }
        requires few { self.old.numbered + 1 < 2 ^ 32 }
        ensures goes { OnOk result (Goes self.old.d self.old.point self.new.point) }
        ensures counts { OnOk result (Counts self.old self.new) }
        ensures steps { OnOk result (self.new.point.steps ≡ self.old.point.steps) }
        ensures field { OnOk result (self.new.d ≡ self.old.d) }
        ensures stops { IfErr result (λ stop. (n : ℕ) → self.old.point.steps ≤ n → StopsFrom self.old.d n self.old.numbered self.old.point stop) }
    {
        match self.state.split_at(k) {
            Ok(logged) => {
                self.note(logged)?;
                self.begin(alloc)?;
                Ok(())
            }
            Err(place) => Err(self.stop(place)),
        }
    }

    // Compares its last letters.
    #[inline(always)]
    fn compare(&mut self, alloc: Global) -> Result<(), Stop>
        requires going { self.old.point.looped ≡ false }
        requires choice { IsChoice self.old.point.components Choice.Compare }
        requires saved { IsSome self.old.point.saved }
        requires few { self.old.numbered + 1 < 2 ^ 32 }
        requires steps { self.old.point.steps + 2 < 2 ^ 32 }
        requires number { self.old.point.number ≤ self.old.point.steps }
        ensures goes { OnOk result (Goes self.old.d self.old.point self.new.point) }
        ensures counts { OnOk result (Counts self.old self.new) }
        ensures steps { OnOk result (self.new.point.steps ≡ self.old.point.steps + 1) }
        ensures field { OnOk result (self.new.d ≡ self.old.d) }
        ensures stops { IfErr result (λ stop. (n : ℕ) → self.old.point.steps < n → StopsFrom self.old.d n self.old.numbered self.old.point stop) }
    {
        match self.state.duel() {
            Ok(logged) => {
                self.steps += 1;
                match logged.event {
                    // The event once more, so that nothing else of it is copied.
                    Event::Won { top } => {
                        let length = logged.length;
                        let event = Event::Won { top };
                        self.look_back(alloc, Logged { event, length })
                    }
                    _ => {
                        self.note(logged)?;
                        self.begin(alloc)?;
                        Ok(())
                    }
                }
            }
            Err(place) => Err(self.stop(place)),
        }
    }

    // After a won comparison: compares the component with its checkpoint.
    #[inline(always)]
    fn look_back(&mut self, alloc: Global, logged: Logged) -> Result<(), Stop>
        requires open { IsOpen self.old.point.components }
        requires saved { IsSome self.old.point.saved }
        requires few { self.old.numbered + 1 < 2 ^ 32 }
        requires number { self.old.point.number + 2 < 2 ^ 32 }
        ensures looks { OnOk result (LooksBack self.old.d logged self.old.point self.new.point) }
        ensures number { OnOk result (self.new.numbered ≡ counted logged.event self.old.numbered) }
        ensures field { OnOk result (self.new.d ≡ self.old.d) }
        ensures stops { IfErr result (OverflowsWhere self.old.numbered (λ place. IsCompared self.old.d self.old.point (Err place))) }
    {
        match &self.saved {
            Some(saved) => match self.state.is_like(saved) {
                Ok(same) => self.looped = same,
                Err(place) => return Err(self.stop(place)),
            },
            None => unreachable!(),
        }
        self.note(logged)?;
        self.number += 1;
        if !self.looped && is_saved(self.number) {
            self.save(alloc)?;
        }
        Ok(())
    }

    // Notes an event, and what it found. Each but a closing has a number.
    #[inline(always)]
    fn note(&mut self, logged: Logged) -> Result<(), AllocError>
        requires { self.old.numbered + 1 < 2 ^ 32 }
        ensures { OnOk result (self.new ≡ record self.old { numbered = counted logged.event self.old.numbered; point = noted logged self.old.point }) }
    {
        self.events.push(logged)?;
        if let Event::Closed = logged.event {
            return Ok(());
        }
        self.numbered += 1;
        if let Some(found) = logged.event.found() {
            self.found.push(found)?;
        }
        Ok(())
    }

    // The states of the current component are numbered from 0 again.
    fn begin(&mut self, alloc: Global) -> Result<(), AllocError>
        ensures { OnOk result (self.new ≡ record self.old { point = renumbered self.old.point }) }
    {
        self.number = 0;
        self.looped = false;
        self.saved = None;
        if self.state.is_done() {
            return Ok(());
        }
        self.save(alloc)
    }

    // Saves the state.
    #[inline(never)]
    fn save(&mut self, alloc: Global) -> Result<(), AllocError>
        requires { IsOpen self.old.point.components }
        ensures { OnOk result (self.new ≡ record self.old { point = saved_now self.old.point }) }
    {
        self.saved = Some(self.state.checkpoint(alloc, self.number)?);
        Ok(())
    }

    // The site of a place in the next event.
    fn stop(&self, place: Place) -> Stop
        ensures { result ≡ Stop.Overflow (sites.Event self.now.numbered place.0) }
    {
        Stop::Overflow(Site::Event {
            event: self.numbered,
            place: place.0,
        })
    }

    // The events so far are dropped.
    fn forget_events(&mut self)
        ensures { self.new ≡ record self.old { point = record self.old.point { events = [] } } }
    {
        self.events.clear();
    }

    // The run, where no component is open.
    fn finish(self) -> Run
        ensures { result ≡ record { events = self.point.events; parts = self.point.parts; found = self.point.found; steps = self.point.steps } }
    {
        let Progress {
            events,
            mut parts,
            found,
            steps,
            ..
        } = self;
        parts.reverse();
        Run {
            events: Sequence::from_vec(events),
            parts: Sequence::from_vec(parts),
            found: Sequence::from_vec(found),
            steps,
        }
    }

    // The run without its events.
    fn finish_parts(self) -> Parts
        ensures { result ≡ record { parts = self.point.parts; found = self.point.found; steps = self.point.steps } }
    {
        let Progress {
            mut parts,
            found,
            steps,
            ..
        } = self;
        parts.reverse();
        Parts {
            parts: Sequence::from_vec(parts),
            found: Sequence::from_vec(found),
            steps,
        }
    }
}
