// The texts of unscaled vectors.

ghost use Rattle.std.specs.Prelude.{◌≡◌, ◌<ℤ◌, IfOk, pos, string_bytes, unsigned_abs};
ghost use Rattle.fs_report.specs.DelaunayText.{vector_text};

use fs_fraction::{Frac, NoMemory, print_number};
use fs_plane::V2;
use std::alloc::Global;

// x,y of a vector over a denominator.
pub fn unscaled_text(alloc: Global, v: V2, den: i128) -> Result<String, NoMemory>
    requires { pos 0 <ℤ den }
    ensures { IfOk result (λ text. string_bytes text ≡ vector_text (unsigned_abs den) v) }
{
    let x = print_number(alloc, Frac::new(v.x, den))?;
    let y = print_number(alloc, Frac::new(v.y, den))?;
    let text = format!(in alloc; "{x},{y}")?;
    Ok(text)
}
