// Numbers of half-edges whose edges may fail, as an ordered set.

ghost use Rattle.std.specs.Prelude.{◌≡◌, ◌+◌, ◌<◌, ◌≤◌, ◌^◌, ℕ, true, false, length, IfOk, slice_set};
ghost use Rattle.fs_delaunay.specs.Suspects.{HasNoMark, FindsMark, AreBlocks, mark_of};

use std::alloc::{AllocError, Global};
use std::marker::Model;

// Which numbers are in the set, below a count. A block of 64 numbers that isn't marked has none of them, and is
// passed over.
#[derive(Drop)]
pub struct Suspects {
    marks: Vec<bool>,
    blocks: Vec<bool>,
}

impl Model for Suspects {
    ghost use Rattle.std.specs.Prelude.{List, Bool};
    ghost use Rattle.fs_delaunay.specs.Suspects.{AreBlocks};

    ghost Value = { List Bool };

    ghost view = { λ s. s.marks.items };

    ghost invariant = { λ s. AreBlocks s.marks.items s.blocks.items };
}

impl Suspects {
    // All numbers below a count.
    pub fn all(alloc: Global, count: u32) -> Result<Suspects, AllocError>
        ensures count { IfOk result (λ suspects. length suspects ≡ count) }
        ensures marked { IfOk result (λ suspects. (h : ℕ) → h < count → mark_of suspects h ≡ true) }
    {
        let count = count as usize;
        let marks = vec![in alloc; true; count]?;
        let blocks = vec![in alloc; true; count / 64 + 1]?;
        Ok(Suspects { marks, blocks })
    }

    // Puts a number into the set.
    pub fn insert(&mut self, h: u32)
        requires { h < length self.old }
        ensures { self.new ≡ slice_set self.old h true }
    {
        self.marks[h as usize] = true;
        self.blocks[(h / 64) as usize] = true;
    }

    // Takes a number out of the set.
    pub fn remove(&mut self, h: u32)
        requires { h < length self.old }
        ensures { self.new ≡ slice_set self.old h false }
    {
        self.marks[h as usize] = false;
    }

    // The least number in the set, of which no number below `from` is.
    pub fn first(&mut self, from: u32) -> Option<u32>
        requires before { HasNoMark self.old 0 from }
        ensures kept { self.new ≡ self.old }
        ensures first { FindsMark self.old 0 (length self.old) result }
        ensures few { length self.old < 2 ^ 32 }
    {
        let h = find_first(&self.marks, &mut self.blocks, from as usize)?;
        Some(h as u32)
    }
}

// The first marked number, of which no number below `from` is. Blocks without a mark are unmarked.
fn find_first(marks: &[bool], blocks: &mut [bool], from: usize) -> Option<usize>
    requires blocks { AreBlocks marks.now blocks.old }
    requires before { HasNoMark marks.now 0 from }
    ensures blocks { AreBlocks marks.now blocks.new }
    ensures first { FindsMark marks.now 0 (length marks.now) result }
{
    for b in from / 64..blocks.len() {
        if blocks[b] {
            let end = marks.len().min(64 * b + 64);
            let first = first_between(marks, 64 * b, end);
            if first.is_some() {
                return first;
            }
            blocks[b] = false;
        }
    }
    None
}

// The first marked number from one number up to another.
fn first_between(marks: &[bool], from: usize, to: usize) -> Option<usize>
    requires { to ≤ length marks.now }
    ensures { FindsMark marks.now from to result }
{
    for h in from..to {
        if marks[h] {
            return Some(h);
        }
    }
    None
}
