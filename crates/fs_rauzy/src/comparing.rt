// The comparison of two states of a component up to scale.

ghost use Rattle.std.specs.Prelude.{◌≡◌, ◌≢◌, ◌↔◌, ◌<◌, ◌≤◌, ◌+◌, IsTrue, IfOk, length, pos};
ghost use Rattle.std.specs.List.{AllByRecursion};
ghost use Rattle.fs_quadratic.specs.Checked.{checked_product};
ghost use Rattle.fs_quadratic.specs.Ring.{mul};
ghost use Rattle.fs_quadratic.specs.Width.{IsSmall};
ghost use Rattle.fs_iet.specs.ExchangeValue.{most_letters};
ghost use Rattle.fs_rauzy.specs.Comparisons.{HaveEqualRows, IsComparison, checked_proportion};
ghost use Rattle.fs_rauzy.specs.Loops.{AreAlike};
ghost use Rattle.fs_rauzy.specs.StatesInPlace.{letters_at};
ghost use Rattle.fs_gluing.specs.Exchanges.{names_of};
ghost use Rattle.fs_rauzy.specs.Steps.{IsOpen, AtBoth, AtCurrent};

use crate::checkpoints::Checkpoint;
use crate::letters::Interval;
use crate::states::State;
use fs_plane::Place;
use fs_quadratic::steps::product_at;
use fs_quadratic::{Elem, Field};

impl State {
    /// Whether the current component is alike to that of another state, saved earlier: their rows are equal, and the lengths
    /// are in the proportion of the totals. Neither state may be done.
    ///
    /// Where the rows are equal, the letters are compared in the order of the top row, up to the first that isn't in
    /// proportion: for letter n place 7 + 2n is the product of its length and the saved total, place 8 + 2n that of its saved
    /// length and the total. The error is the first place that overflows. The cost is linear in the letters. Takes no memory.
    pub fn same_shape(&self, other: &State) -> Result<bool, Place>
        requires there { IsOpen self.now.components }
        requires saved { IsOpen other.now.components }
        ensures comparison { AtBoth (λ before after. IsComparison self.now.d before after result) other.now.components self.now.components }
        ensures alike { IfOk result (λ same. AtBoth (λ before after. IsTrue same ↔ AreAlike self.now.d before after) other.now.components self.now.components) }
    {
        let now = self.extents.last();
        let before = other.extents.last();
        let top = &self.top[now.first..];
        if !are_same(top, &other.top[before.first..]) {
            return Ok(false);
        }
        if !are_same(&self.bottom[now.first..], &other.bottom[before.first..]) {
            return Ok(false);
        }
        is_proportional(
            self.field,
            top,
            &other.letters,
            before.total,
            &self.letters,
            now.total,
        )
    }

    // Whether the current component is alike to a checkpoint, as by `same_shape`.
    #[inline(always)]
    pub(crate) fn is_like(&self, saved: &Checkpoint) -> Result<bool, Place>
        requires { IsOpen self.now.components }
        ensures { AtCurrent (λ after. IsComparison self.now.d saved.now.component after result) self.now.components }
    {
        let now = self.extents.last();
        let top = &self.top[now.first..];
        let letters: &[Interval] = &saved.letters;
        if letters.len() != top.len() {
            return Ok(false);
        }
        // Mostly the rows are equal, and the lengths of the first letter tell that they aren't in proportion.
        match is_in_proportion(
            self.field,
            letters,
            saved.total,
            top,
            &self.letters,
            now.total,
        ) {
            Ok(false) => Ok(false),
            Ok(true) => Ok(self.has_rows(saved)),
            Err(place) => {
                if self.has_rows(saved) {
                    Err(place)
                } else {
                    Ok(false)
                }
            }
        }
    }

    // Whether the rows of the current component are those of a checkpoint.
    #[inline(never)]
    fn has_rows(&self, saved: &Checkpoint) -> bool
        requires { IsOpen self.now.components }
        ensures { AtCurrent (λ c. IsTrue result ↔ HaveEqualRows saved.now.component c) self.now.components }
    {
        let first = self.extents.last().first;
        if !are_same(&self.bottom[first..], &saved.bottom) {
            return false;
        }
        are_named(&saved.letters, &self.top[first..])
    }
}

// Whether two rows are the same. They are compared from the end.
#[inline(never)]
fn are_same(row: &[u32], other: &[u32]) -> bool
    ensures { IsTrue result ↔ (row.now ≡ other.now) }
{
    if row.len() != other.len() {
        return false;
    }
    let mut n = row.len();
    while n > 0 {
        n -= 1;
        if row[n] != other[n] {
            return false;
        }
    }
    true
}

// Whether the letters have these names, one after another. They are compared from the end.
#[inline(never)]
fn are_named(letters: &[Interval], names: &[u32]) -> bool
    ensures { IsTrue result ↔ (names_of letters.now ≡ names.now) }
{
    if letters.len() != names.len() {
        return false;
    }
    let mut n = names.len();
    while n > 0 {
        n -= 1;
        let letter = &letters[n];
        if letter.name != names[n] {
            return false;
        }
    }
    true
}

// Whether the lengths of the letters of these names are in the proportion of the totals, where `before` has the earlier letters in
// their order.
#[inline(always)]
fn is_in_proportion(
    field: Field,
    before: &[Interval],
    total_before: Elem,
    names: &[u32],
    after: &[Interval],
    total: Elem,
) -> Result<bool, Place>
    requires as_many { length before.now ≡ length names.now }
    requires after { AllByRecursion (λ name. name < length after.now) names.now }
    requires few { length names.now ≤ most_letters }
    ensures { result ≡ checked_proportion field.d total_before total 0 before.now (letters_at after.now names.now) }
{
    for (n, &name) in names.iter().enumerate() {
        let place = 7 + 2 * n as u32;
        let (now, then) = (&after[name as usize], &before[n]);
        let share = find_product(place, field, now.length, total_before)?;
        let share_before = find_product(place + 1, field, then.length, total)?;
        if share != share_before {
            return Ok(false);
        }
    }
    Ok(true)
}

// Whether the lengths of the letters of these names are in the proportion of the totals.
fn is_proportional(
    field: Field,
    names: &[u32],
    before: &[Interval],
    total_before: Elem,
    after: &[Interval],
    total: Elem,
) -> Result<bool, Place>
    requires before { AllByRecursion (λ name. name < length before.now) names.now }
    requires after { AllByRecursion (λ name. name < length after.now) names.now }
    requires few { length names.now ≤ most_letters }
    ensures { result ≡ checked_proportion field.d total_before total 0 (letters_at before.now names.now) (letters_at after.now names.now) }
{
    for (n, &name) in names.iter().enumerate() {
        let place = 7 + 2 * n as u32;
        let (now, then) = (&after[name as usize], &before[name as usize]);
        let left = find_product(place, field, now.length, total_before)?;
        let right = find_product(place + 1, field, then.length, total)?;
        if left != right {
            return Ok(false);
        }
    }
    Ok(true)
}

// The product, or this place where it overflows.
#[inline(always)]
fn find_product(place: u32, field: Field, x: Elem, y: Elem) -> Result<Elem, Place>
    ensures { result ≡ checked_product field.d place x y }
{
    if x.is_small() && y.is_small() {
        return Ok(small_product(field, x, y));
    }
    product_at(place, field, x, y)
}

// The product of two small numbers. That of rational ones takes one multiplication.
#[inline(always)]
fn small_product(field: Field, x: Elem, y: Elem) -> Elem
    requires left { IsSmall x }
    requires right { IsSmall y }
    ensures { result ≡ mul field.d x y }
{
    if x.q() == 0 && y.q() == 0 {
        return plain_product(field, x, y);
    }
    field.mul_small(x, y)
}

// The product of two small rational numbers.
#[inline(always)]
fn plain_product(field: Field, x: Elem, y: Elem) -> Elem
    requires left { IsSmall x }
    requires right { IsSmall y }
    requires left_rational { x.q ≡ pos 0 }
    requires right_rational { y.q ≡ pos 0 }
    ensures { result ≡ mul field.d x y }
{
    field.mul_small(Elem::new(x.p(), 0), Elem::new(y.p(), 0))
}
