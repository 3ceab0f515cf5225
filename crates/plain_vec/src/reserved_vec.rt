// A vector of which contracts see the items and the spare capacity.

ghost use Rattle.std.specs.Prelude.{◌≡◌, ◌<◌, ◌≤◌, ◌+◌, ◌-◌, [], ◌∷◌, ◌++◌, length, OnOk, IfSome, IfNone, IsNone, ◌↔◌};
ghost use Rattle.plain_vec.specs.ReservedVecValue.{ReservedVecValue};

use crate::list::Listed;
use std::alloc::{AllocError, Global};
use std::marker::Model;

/// A list that reserves memory in advance: contracts see its items, and how many more can be pushed without fail.
#[derive(Drop)]
pub struct ReservedVec<T> {
    items: Vec<T>,
}

impl<T> Model for ReservedVec<T> {
    ghost use Rattle.std.specs.Prelude.{◌-◌, length};
    ghost use Rattle.std.specs.Vec.{vec_capacity};
    ghost use Rattle.plain_vec.specs.ReservedVecValue.{ReservedVecValue};

    ghost Value = { ReservedVecValue T };

    ghost view = { λ r. record { items = r.items.items; room = vec_capacity r.items - length r.items.items } };
}

impl<T> ReservedVec<T> {
    ghost use Rattle.std.specs.Prelude.{◌≡◌, ◌<◌, ◌≤◌, ◌+◌, ◌-◌, [], ◌∷◌, ◌++◌, length, OnOk, IfSome, IfNone, IsNone, ◌↔◌};

    /// An empty list without spare capacity.
    pub fn new(alloc: Global) -> ReservedVec<T>
        ensures { result.items ≡ [] }
    {
        ReservedVec {
            items: Vec::new(alloc),
        }
    }

    /// Reserves capacity for `count` more items.
    pub fn reserve(&mut self, count: usize) -> Result<(), AllocError>
        ensures items { self.new.items ≡ self.old.items }
        ensures room { OnOk result (count ≤ self.new.room) }
        ensures stays { self.old.room ≤ self.new.room }
    {
        self.items.reserve(count)
    }

    /// Adds an item at the end, within the reserved capacity.
    pub fn push_reserved(&mut self, item: T)
    where
        T: Drop,
        requires { 0 < self.old.room }
        ensures { self.new ≡ record { items = self.old.items ++ item ∷ []; room = self.old.room - 1 } }
    {
        self.items.push_reserved(item);
    }

    /// Removes the last item and returns it, if there is one.
    pub fn pop(&mut self) -> Option<T>
        ensures none { IsNone result ↔ (self.old.items ≡ []) }
        ensures kept { IfNone result (self.new ≡ self.old) }
        ensures some { IfSome result (λ item. self.old.items ≡ self.new.items ++ item ∷ []) }
        ensures room { IfSome result (λ item. self.new.room ≡ self.old.room + 1) }
    {
        self.items.pop()
    }

    /// Drops all items and keeps the capacity.
    pub fn clear(&mut self)
    where
        T: Drop,
        ensures { self.new ≡ record { items = []; room = self.old.room + length self.old.items } }
    {
        self.items.clear();
    }

    /// All items, in order.
    pub fn as_slice(&self) -> &[T]
        ensures { result.now ≡ self.now.items }
    {
        self.items.as_slice()
    }

    /// The items alone.
    pub fn into_listed(self) -> Listed<T>
        ensures { result ≡ self.items }
    {
        let ReservedVec { items } = self;
        Listed::from_vec(items)
    }
}
