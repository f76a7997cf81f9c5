// Where the rows of a component have equal beginnings.

ghost use Rattle.std.specs.Prelude.{◌≡◌, ◌↔◌, ◌<◌, ◌≤◌, ℕ, IsTrue, IsPermutation, IfSome, None, length, take, slice_get, slice_index_or};
ghost use Rattle.std.specs.List.{AllByRecursion};
ghost use Rattle.fs_lists.specs.Members.{IsIn, IsDistinct};
ghost use Rattle.fs_iet.specs.ExchangeValue.{most_letters};
ghost use Rattle.fs_rauzy.specs.SplitsInPlace.{HaveSamePrefix, ArePlaces};

// The greatest number of names, fewer than all, with which both rows begin in some order. The list of places is used
// meanwhile; it has one for each name.
pub fn find_greatest(top: &[u32], bottom: &[u32], places: &mut [u32]) -> Option<u32>
    requires within { AllByRecursion (λ name. name < length places.old) top.now }
    requires same { IsPermutation top.now bottom.now }
    requires apart { IsDistinct top.now }
    requires few { length top.now ≤ most_letters }
    ensures some { IfSome result (λ k. (0 < k) × (k < length top.now) × HaveSamePrefix top.now bottom.now k) }
    ensures greatest { IfSome result (λ k. (j : ℕ) → 0 < j → j < length top.now → HaveSamePrefix top.now bottom.now j → j ≤ k) }
    ensures none { result ≡ None → (j : ℕ) → 0 < j → j < length top.now → ¬ HaveSamePrefix top.now bottom.now j }
    ensures long { length places.new ≡ length places.old }
{
    note_places(top, places);
    let mut greatest = None;
    let mut end = 0u32;
    for (n, &name) in bottom.iter().enumerate() {
        end = end.max(places[name as usize] + 1);
        let next = n as u32 + 1;
        if end == next && n + 1 < bottom.len() {
            greatest = Some(next);
        }
    }
    greatest
}

// Writes the place of each name of a row.
fn note_places(row: &[u32], places: &mut [u32])
    requires within { AllByRecursion (λ name. name < length places.old) row.now }
    requires apart { IsDistinct row.now }
    requires few { length row.now ≤ most_letters }
    ensures places { ArePlaces row.now places.new }
    ensures long { length places.new ≡ length places.old }
{
    for (n, &name) in row.iter().enumerate() {
        places[name as usize] = n as u32;
    }
}

// Whether both rows begin with the same k names, in some order.
pub fn is_same_prefix(top: &[u32], bottom: &[u32], k: usize) -> bool
    requires top { k ≤ length top.now }
    requires bottom { k ≤ length bottom.now }
    requires apart_top { IsDistinct top.now }
    requires apart_bottom { IsDistinct bottom.now }
    ensures { IsTrue result ↔ HaveSamePrefix top.now bottom.now k }
{
    for name in &bottom[..k] {
        if !top[..k].contains(name) {
            return false;
        }
    }
    true
}
