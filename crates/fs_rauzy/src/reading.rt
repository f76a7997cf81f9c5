// Copies of the current component, and the parts that components become.

ghost use Rattle.std.specs.Prelude.{◌≡◌, ◌<◌, IfOk, length, map};
ghost use Rattle.std.specs.List.{AllByRecursion};
ghost use Rattle.fs_rauzy.specs.Runs.{part_of};
ghost use Rattle.fs_rauzy.specs.StatesInPlace.{letters_at};
ghost use Rattle.fs_rauzy.specs.Steps.{IsOpen, AtCurrent};

use crate::checkpoints::Checkpoint;
use crate::letters::Interval;
use crate::parts::{Kind, Letter, Part};
use crate::states::State;
use fs_gluing::Sequence;
use std::alloc::{AllocError, Global};

impl State {
    // The current component as it is now, with this number.
    pub fn checkpoint(&self, alloc: Global, number: u32) -> Result<Checkpoint, AllocError>
        requires { IsOpen self.now.components }
        ensures { IfOk result (λ saved. AtCurrent (λ c. saved ≡ record { number = number; component = c }) self.now.components) }
    {
        let extent = self.extents.last();
        let letters = copy_letters(alloc, &self.letters, &self.top[extent.first..])?;
        let bottom = Vec::from_slice(alloc, &self.bottom[extent.first..])?;
        Ok(Checkpoint {
            number,
            base: extent.base,
            total: extent.total,
            letters,
            bottom,
        })
    }

    // The part that the current component is, as it is now.
    pub fn part(&self, alloc: Global, kind: Kind) -> Result<Part, AllocError>
        requires { IsOpen self.now.components }
        ensures { IfOk result (λ part. AtCurrent (λ c. part ≡ part_of c kind) self.now.components) }
    {
        let extent = self.extents.last();
        let letters = list_letters(alloc, &self.letters, &self.top[extent.first..])?;
        Ok(Part {
            base: extent.base,
            width: extent.total,
            letters,
            kind,
        })
    }
}

// The letters of these names.
fn copy_letters(
    alloc: Global,
    letters: &[Interval],
    names: &[u32],
) -> Result<Vec<Interval>, AllocError>
    requires { AllByRecursion (λ name. name < length letters.now) names.now }
    ensures { IfOk result (λ list. list.items ≡ letters_at letters.now names.now) }
{
    let mut list = Vec::with_capacity(alloc, names.len())?;
    for &name in names {
        list.push(letters[name as usize])?;
    }
    Ok(list)
}

// The lengths and the return vectors of the letters of these names.
fn list_letters(
    alloc: Global,
    letters: &[Interval],
    names: &[u32],
) -> Result<Sequence<Letter>, AllocError>
    requires { AllByRecursion (λ name. name < length letters.now) names.now }
    ensures { IfOk result (λ list. list ≡ map (λ letter. record { length = letter.length; back = letter.back }) (letters_at letters.now names.now)) }
{
    let mut list = Vec::with_capacity(alloc, names.len())?;
    for &name in names {
        let letter = &letters[name as usize];
        list.push(Letter {
            length: letter.length,
            back: letter.back,
        })?;
    }
    Ok(Sequence::from_vec(list))
}
