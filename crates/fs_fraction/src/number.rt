ghost use Rattle.std.specs.Prelude.{◌≡◌, Ok, Result, IfOk, string_bytes};
ghost use Rattle.fs_fraction.specs.Fraction.{Fraction};
ghost use Rattle.fs_fraction.specs.Number.{Written, Spells, IsNarrow, Reads, value, spelling};
ghost use Rattle.fs_fraction.specs.declared.number.NumberFault.{NumberFault};

use crate::fraction::Frac;
use crate::memory::NoMemory;
use crate::spelling::spelling;
use crate::value::{is_narrow, value};
use crate::written::parse;
use std::alloc::Global;

/// Why a text isn't read as a number.
#[derive(Clone, Copy, Debug, PartialEq, Eq, Hash)]
pub enum NumberFault {
    /// It spells no number, or it has a denominator 0 and no run of more than 18 digits.
    BadNumber,
    /// It spells a number with a run of more than 18 digits.
    Wide,
}

/// The number that a text spells: a rational part, as `-3/4`; an r part, as `1/2r`; or one of
/// each with a sign between them, as `-1+1/2r`. Leading zeros are allowed. A number of at most 18
/// digits a run always fits.
pub fn read_number(text: &[u8]) -> Result<Frac, NumberFault>
    ensures read { Reads text.now result }
    ensures only { (other : Result Fraction NumberFault) → Reads text.now other → other ≡ result }
{
    let Some(written) = parse(text) else {
        return Err(NumberFault::BadNumber);
    };
    if !is_narrow(written) {
        return Err(NumberFault::Wide);
    }
    value(written).ok_or(NumberFault::BadNumber)
}

/// The one spelling of a number: both parts in lowest terms, without a denominator 1 and without a
/// part 0, but for `0` itself. It spells that very number, and is read back where no run of its
/// digits has more than 18.
pub fn print_number(alloc: Global, x: Frac) -> Result<String, NoMemory>
    ensures spelled { IfOk result (λ text. string_bytes text ≡ spelling x) }
    ensures spells { IfOk result (λ text. (w : Written) × Spells (string_bytes text) w × (value w ≡ x)
        × (IsNarrow w → Reads (string_bytes text) (Ok x))) }
{
    Ok(spelling(alloc, x)?)
}
