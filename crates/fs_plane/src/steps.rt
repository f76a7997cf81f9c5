//! The parts of a formula over vectors, each with its places counted on from those before. Constant
//! time.
ghost use Rattle.std.specs.Prelude.{◌≡◌, ◌+◌, ◌<◌, ◌^◌};
ghost use Rattle.fs_plane.specs.Formulas.{vector_sum_after, vector_difference_after};

pub use crate::discs::comes_within_after;
pub use crate::formulas::{cross_after, dot_after, norm_after};
use crate::vector::V2;
use fs_quadratic::Place;
use fs_quadratic::steps::{difference_at, sum_at};

/// The sum a + b, or the first place that overflows: place 1 after `before` is x, place 2 is y.
#[tactic(auto, unfolding(crate::specs::Formulas::vector_sum_after))]
pub fn vector_sum_after(before: u32, a: V2, b: V2) -> Result<V2, Place>
    requires { before + 2 < 2 ^ 32 }
    ensures { result ≡ vector_sum_after before a b }
{
    let x = sum_at(before + 1, a.x, b.x)?;
    let y = sum_at(before + 2, a.y, b.y)?;
    Ok(V2 { x, y })
}

/// The difference a - b, or the first place that overflows: place 1 after `before` is x, place 2
/// is y.
#[tactic(auto, unfolding(crate::specs::Formulas::vector_difference_after))]
pub fn vector_difference_after(before: u32, a: V2, b: V2) -> Result<V2, Place>
    requires { before + 2 < 2 ^ 32 }
    ensures { result ≡ vector_difference_after before a b }
{
    let x = difference_at(before + 1, a.x, b.x)?;
    let y = difference_at(before + 2, a.y, b.y)?;
    Ok(V2 { x, y })
}
