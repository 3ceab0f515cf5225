//! A boxed value.

ghost use Rattle.std.specs.Prelude.{◌≡◌, IfErr, IfOk};

use std::alloc::{AllocFailed, Global};
use std::marker::Model;

/// A value in its own heap block. Moving it moves a pointer, and it takes up a pointer's size; contracts see the value.
#[derive(Drop)]
pub struct BoxedSlot<T> {
    inner: Box<T>,
}

impl<T> Model for BoxedSlot<T> {
    ghost Value = { T };

    ghost view = { λ a. a.inner.value };
}

impl<T> BoxedSlot<T> {
    ghost use Rattle.std.specs.Prelude.{◌≡◌, IfErr, IfOk};
    ghost use Rattle.std.specs.Borrow.{sem};
    ghost use Rattle.boxed.specs.Lends.{lends_whole};

    /// Boxes a value, or returns it if the allocation fails.
    pub fn new(alloc: Global, value: T) -> Result<BoxedSlot<T>, AllocFailed<T>>
        ensures ok { IfOk result (λ a. a ≡ value) }
        ensures back { IfErr result (λ e. e.value ≡ value) }
    {
        let inner = Box::new(alloc, value)?;
        Ok(BoxedSlot { inner })
    }

    /// The value; the block is freed.
    pub fn into_inner(self) -> T
        ensures { result ≡ self }
    {
        Box::into_inner(self.inner)
    }

    /// Replaces the value and returns the old one. It doesn't allocate.
    pub fn replace(&mut self, value: T) -> T
        ensures put { self.new ≡ value }
        ensures back { result ≡ self.old }
    {
        Box::replace(&mut self.inner, value)
    }

    /// The same block with this value, so that memory can be allocated before the value is known. It doesn't allocate.
    pub fn put(self, value: T) -> BoxedSlot<T>
    where
        T: Drop,
        ensures { result ≡ value }
    {
        let mut block = self;
        drop(block.replace(value));
        block
    }

    /// A reference to the value.
    pub fn get(&self) -> &T
        ensures { result.now ≡ self.now }
    {
        &self.inner
    }

    /// A mutable reference to the value.
    pub fn get_mut(&mut self) -> &mut T
        ensures* writes_back { sem 𝓛 (lends_whole T.row self.entry result) }
        ensures value { result.now ≡ self.old }
    {
        &mut self.inner
    }
}
