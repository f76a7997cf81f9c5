// Checkpoints: the saved components with which the states of a component are compared.

ghost use Rattle.std.specs.Prelude.{◌≡◌, ◌↔◌, ◌+◌, ◌<◌, ◌^◌, IsTrue};
ghost use Rattle.fs_rauzy.specs.Runs.{IsSaved};

use crate::letters::Interval;
use fs_quadratic::Elem;
use std::marker::Model;

// A state of the current component, and its number.
#[derive(Drop)]
pub struct Checkpoint {
    pub number: u32,
    pub base: Elem,
    pub total: Elem,
    // The letters in the order of the top row.
    pub letters: Vec<Interval>,
    // The names in the bottom row.
    pub bottom: Vec<u32>,
}

impl Model for Checkpoint {
    ghost use Rattle.fs_rauzy.specs.Runs as runs;

    ghost Value = { runs.Checkpoint };

    ghost view = { λ x. record { number = x.number; component = record { base = x.base; total = x.total; top = x.letters.items; bottom = x.bottom.items } } };
}

// Whether a state of this number is saved: 2^j - 1 for some j.
pub fn is_saved(number: u32) -> bool
    requires { number + 1 < 2 ^ 32 }
    ensures { IsTrue result ↔ IsSaved number }
{
    (number + 1).is_power_of_two()
}
