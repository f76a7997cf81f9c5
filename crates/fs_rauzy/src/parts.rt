// Runs of the induction, and the parts of the surface into which they divide the flow.

use crate::events::{Event, Found};
use fs_gluing::Sequence;
use fs_plane::V2;
use fs_quadratic::Elem;

/// A letter of a part.
#[derive(Clone, Copy, Debug, PartialEq, Eq, Hash)]
pub struct Letter {
    /// Its length, scaled.
    pub length: Elem,
    /// Its return vector, scaled.
    pub back: V2,
}

/// How a component closed.
#[derive(Clone, Copy, Debug, PartialEq, Eq, Hash)]
pub enum Kind {
    /// It had one letter.
    Cylinder,
    /// It was alike to an earlier state of it, up to scale.
    Looped {
        /// The number of the earlier state.
        from: u32,
        /// The number of the state in which it closed.
        to: u32,
    },
}

/// A component that closed, as it was then.
#[derive(Drop)]
pub struct Part {
    /// Where its base begins, scaled.
    pub base: Elem,
    /// How long the base is, scaled.
    pub width: Elem,
    /// Its letters, in the order of the top row.
    pub letters: Sequence<Letter>,
    /// How it closed.
    pub kind: Kind,
}

/// An event, and a length.
#[derive(Clone, Copy, Debug, PartialEq, Eq, Hash)]
pub struct Logged {
    /// The event.
    pub event: Event,
    /// The winner's new length, or that of the letters that merge, scaled; else 0.
    pub length: Elem,
}

/// The run of an induction to its end.
#[derive(Drop)]
pub struct Run {
    /// All events, in order.
    pub events: Sequence<Logged>,
    /// The parts, from left to right.
    pub parts: Sequence<Part>,
    /// The connections that were found, in order.
    pub found: Sequence<Found>,
    /// How many of the events are steps: won comparisons and merges.
    pub steps: u32,
}

/// The run of an induction to its end, without its events.
#[derive(Drop)]
pub struct Parts {
    /// The parts, from left to right.
    pub parts: Sequence<Part>,
    /// The connections that were found, in order.
    pub found: Sequence<Found>,
    /// How many events were steps: won comparisons and merges.
    pub steps: u32,
}
