// Stacks whose room was taken when they were made.

ghost use Rattle.fs_rauzy.specs.declared.rows.Extent.{Extent};
ghost use Rattle.std.specs.Prelude.{◌≡◌, ◌≢◌, ◌↔◌, ◌<◌, ◌≤◌, IsTrue, List, [], ◌∷◌, IfOk, length};

use crate::rows::Extent;
use fs_quadratic::Elem;
use std::alloc::{AllocError, Global};
use std::marker::Model;

// A stack that takes no more memory: it has room for so many items. Contracts see its items from the last one pushed on.
#[derive(Drop)]
pub struct Room<T> {
    items: Vec<T>,
}

impl<T> Model for Room<T> {
    ghost use Rattle.std.specs.Prelude.{reverse, vec_capacity};
    ghost use Rattle.fs_rauzy.specs.Rooms.{RoomValue};

    ghost Value = { RoomValue T };

    ghost view = { λ r. record { items = reverse r.items.items; room = vec_capacity r.items } };
}

impl<T: Copy + Drop> Room<T> {
    // No items, with room for so many.
    pub fn new(alloc: Global, room: usize) -> Result<Room<T>, AllocError>
        ensures items { IfOk result (λ made. made.items ≡ []) }
        ensures room { IfOk result (λ made. made.room ≡ room) }
    {
        Ok(Room {
            items: Vec::with_capacity(alloc, room)?,
        })
    }

    // Whether there are no items.
    pub fn is_empty(&self) -> bool
        ensures { IsTrue result ↔ (self.now.items ≡ []) }
    {
        self.items.is_empty()
    }

    // The last item.
    pub fn last(&self) -> T
        requires { self.now.items ≢ [] }
        ensures { (rest : List T) × (self.now.items ≡ result ∷ rest) }
    {
        self.items[self.items.len() - 1]
    }

    // Adds an item, for which there is room.
    pub fn push(&mut self, item: T)
        requires { length self.old.items < self.old.room }
        ensures items { self.new.items ≡ item ∷ self.old.items }
        ensures room { self.new.room ≡ self.old.room }
    {
        // An insert where there is room keeps it.
        if self.items.insert(self.items.len(), item).is_err() {
            unreachable!()
        }
    }

    // Removes the last item.
    pub fn drop_last(&mut self)
        requires { self.old.items ≢ [] }
        ensures items { (last : T) (rest : List T) → self.old.items ≡ last ∷ rest → self.new.items ≡ rest }
        ensures room { self.new.room ≡ self.old.room }
    {
        let _ = self.items.pop();
    }

    // Puts an item in place of the last one.
    pub fn set_last(&mut self, item: T)
        requires { self.old.items ≢ [] }
        ensures items { (last : T) (rest : List T) → self.old.items ≡ last ∷ rest → self.new.items ≡ item ∷ rest }
        ensures room { self.new.room ≡ self.old.room }
    {
        let last = self.items.len() - 1;
        self.items[last] = item;
    }
}

impl Room<Extent> {
    // Puts another total in the last extent.
    #[inline(always)]
    pub fn set_total(&mut self, total: Elem)
        requires { self.old.items ≢ [] }
        ensures items { (last : Extent) (rest : List Extent) → self.old.items ≡ last ∷ rest → self.new.items ≡ record last { total = total } ∷ rest }
        ensures room { self.new.room ≡ self.old.room }
    {
        let last = self.items.len() - 1;
        let extent = &mut self.items[last];
        extent.total = total;
    }
}
