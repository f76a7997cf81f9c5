// The events of the induction.

use fs_plane::{Corner, V2};

/// A connection that the induction finds: a segment along the direction from a vertex to a vertex.
#[derive(Clone, Copy, Debug, PartialEq, Eq, Hash)]
pub struct Found {
    /// The corner of the surface at which it begins.
    pub start: Corner,
    /// Its scaled vector.
    pub v: V2,
}

/// An event of the induction, which changes the current component.
#[derive(Clone, Copy, Debug, PartialEq, Eq, Hash)]
pub enum Event {
    /// The last letter of the one row is longer than that of the other, and wins: it becomes shorter by the other one, which
    /// moves right behind it in the other row.
    Won {
        /// Whether it is the last letter of the top row.
        top: bool,
    },
    /// The last letters of both rows are equally long, and become one. A connection may be found.
    Merged(Option<Found>),
    /// The component is split: the first letters of both rows are the same ones.
    Split {
        /// How many these are.
        at: u32,
        /// The connection that is found, if there is one.
        found: Option<Found>,
    },
    /// The component is closed: it has one letter, or is alike to an earlier state of it.
    Closed,
}

impl Event {
    ghost use Rattle.std.specs.Prelude.{◌≡◌, option_to_list};
    ghost use Rattle.fs_rauzy.specs.Rule.{is_step};
    ghost use Rattle.fs_rauzy.specs.Runs.{found_by};

    /// Whether it is a step of the induction: a won comparison or a merge.
    pub fn is_step(&self) -> bool
        ensures { result ≡ is_step self.now }
    {
        matches!(self, Event::Won { .. } | Event::Merged(_))
    }

    /// The connection that it finds.
    pub fn found(&self) -> Option<Found>
        ensures { option_to_list result ≡ found_by self.now }
    {
        match self {
            Event::Merged(found) => *found,
            Event::Split { found, .. } => *found,
            _ => None,
        }
    }
}
