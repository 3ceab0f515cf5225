// Reads and writes of the objects of a space, by their addresses.

ghost use Rattle.std.specs.Prelude.{◌≡◌, ◌^◌, ◌<◌, length, option_copied, option_map, slice_get, is_some, IfSome, Some};
ghost use Rattle.object_layout.specs.declared.word.Addr.{Addr};
ghost use Rattle.object_layout.specs.Cell.{Born, Moved, frozen, header_of, cell_with_int, with_mark, IsBorn, IsObject, BeginsInFirstUnit};
ghost use Rattle.object_layout.specs.Place.{cell_at};
ghost use Rattle.object_layout.specs.Chunks.{cell_of, chunk_at, has_chunk, object_of, place_in, chunk_position, put_object};
ghost use Rattle.leaf_heap.specs.FieldLaws.{with_ref_of};

use super::space::Space;
use object_layout::{Addr, Birth, Chunk, Header};

impl Space {
    /// At which place the chunk of a number stands; None where the heap has none.
    pub fn place_of(&self, number: u32) -> Option<usize>
        ensures { result ≡ place_in self.now.chunks number }
    {
        match &self.contents {
            Some(contents) => contents.get().place_of(number),
            None => None,
        }
    }

    /// The chunk of a number; None where the heap has none.
    pub fn chunk(&self, number: u32) -> Option<&Chunk>
        ensures { option_copied result ≡ option_map (λ i. chunk_at self.now.chunks i) (place_in self.now.chunks number) }
    {
        match &self.contents {
            Some(contents) => contents.get().chunk(number),
            None => None,
        }
    }

    /// The chunk in which an object lies, as all reads of it need it; None where that is not of this heap.
    pub fn own_chunk(&self, object: Addr) -> Option<&Chunk>
        ensures there { is_some result ≡ has_chunk self.now.chunks object.chunk }
        ensures cell { IfSome result (λ k. cell_at k.now.cells object.offset ≡ cell_of self.now.chunks object) }
    {
        match &self.contents {
            Some(contents) => contents.get().own_chunk(object),
            None => None,
        }
    }

    /// The place of the chunk of a number that the heap has.
    pub fn own_place(&self, number: u32) -> usize
        requires { chunk_position self.now.chunks number < length self.now.chunks }
        ensures { result ≡ chunk_position self.now.chunks number }
    {
        match &self.contents {
            Some(contents) => contents.get().own_place(number),
            None => unreachable!(),
        }
    }

    /// The chunk at a place: in it lies each object of this heap whose chunk stands there.
    #[inline(always)]
    pub fn chunk_in(&self, place: usize) -> &Chunk
        requires { place < length self.now.chunks }
        ensures { (object : Addr) → place_in self.now.chunks object.chunk ≡ Some place → cell_at result.now.cells object.offset ≡ cell_of self.now.chunks object }
    {
        match &self.contents {
            Some(contents) => contents.get().chunk_in(place),
            None => unreachable!(),
        }
    }

    /// Whether the address lies in a chunk of this heap.
    pub fn owns(&self, object: Addr) -> bool
        ensures { result ≡ has_chunk self.now.chunks object.chunk }
    {
        match &self.contents {
            Some(contents) => contents.get().owns(object),
            None => false,
        }
    }

    /// The kind of an object.
    pub fn own_header(&self, object: Addr) -> Header
        requires { IsObject (cell_of self.now.chunks object).mark }
        ensures kind { result ≡ header_of (object_of self.now.chunks object) }
        ensures refs { result.nrefs < 2 ^ 20 }
        ensures ints { result.nints < 2 ^ 20 }
    {
        match &self.contents {
            Some(contents) => contents.get().own_header(object),
            None => unreachable!(),
        }
    }

    /// The birth name of an object that bears it.
    pub fn own_birth(&self, object: Addr) -> Birth
        requires { IsBorn (cell_of self.now.chunks object).mark }
        ensures { (cell_of self.now.chunks object).mark ≡ Born result }
    {
        match &self.contents {
            Some(contents) => contents.get().own_birth(object),
            None => unreachable!(),
        }
    }

    /// A reference of an object: None for nil.
    pub fn own_ref(&self, object: Addr, field: u32) -> Option<Addr>
        requires { field < length (object_of self.now.chunks object).refs }
        ensures value { slice_get (object_of self.now.chunks object).refs field ≡ Some result }
        ensures place { BeginsInFirstUnit result }
    {
        match &self.contents {
            Some(contents) => contents.get().own_ref(object, field),
            None => unreachable!(),
        }
    }

    /// A number of an object.
    pub fn own_int(&self, object: Addr, field: u32) -> i64
        requires { field < length (object_of self.now.chunks object).ints }
        ensures { slice_get (object_of self.now.chunks object).ints field ≡ Some result }
    {
        match &self.contents {
            Some(contents) => contents.get().own_int(object, field),
            None => unreachable!(),
        }
    }

    /// Writes a reference of an object.
    pub fn own_set_ref(&mut self, object: Addr, field: u32, value: Option<Addr>)
        requires field { field < length (object_of self.old.chunks object).refs }
        requires place { BeginsInFirstUnit value }
        ensures { self.new ≡ with_ref_of self.old object field value }
    {
        match &mut self.contents {
            Some(contents) => contents.get_mut().own_set_ref(object, field, value),
            None => unreachable!(),
        }
    }

    /// The same, where it is known at which place the object's chunk stands.
    #[inline(always)]
    pub fn set_ref_in(&mut self, place: usize, object: Addr, field: u32, value: Option<Addr>)
        requires place { place_in self.old.chunks object.chunk ≡ Some place }
        requires field { field < length (object_of self.old.chunks object).refs }
        requires value { BeginsInFirstUnit value }
        ensures { self.new ≡ with_ref_of self.old object field value }
    {
        match &mut self.contents {
            Some(contents) => contents.get_mut().set_ref_in(place, object, field, value),
            None => unreachable!(),
        }
    }

    /// Writes a number of an object.
    pub fn own_set_int(&mut self, object: Addr, field: u32, value: i64)
        requires { field < length (object_of self.old.chunks object).ints }
        ensures { self.new ≡ record self.old { chunks = put_object self.old.chunks object (cell_with_int (cell_of self.old.chunks object) field value) } }
    {
        match &mut self.contents {
            Some(contents) => contents.get_mut().own_set_int(object, field, value),
            None => unreachable!(),
        }
    }

    /// The same, where it is known at which place the object's chunk stands.
    #[inline(always)]
    pub fn set_int_in(&mut self, place: usize, object: Addr, field: u32, value: i64)
        requires place { place_in self.old.chunks object.chunk ≡ Some place }
        requires field { field < length (object_of self.old.chunks object).ints }
        ensures { self.new ≡ record self.old { chunks = put_object self.old.chunks object (cell_with_int (cell_of self.old.chunks object) field value) } }
    {
        match &mut self.contents {
            Some(contents) => contents.get_mut().set_int_in(place, object, field, value),
            None => unreachable!(),
        }
    }

    /// Makes an object immutable, and changes nothing else of it.
    pub fn freeze(&mut self, object: Addr)
        requires { IsObject (cell_of self.old.chunks object).mark }
        ensures { self.new ≡ record self.old { chunks = put_object self.old.chunks object (frozen (cell_of self.old.chunks object)) } }
    {
        match &mut self.contents {
            Some(contents) => contents.get_mut().freeze(object),
            None => unreachable!(),
        }
    }

    /// The same, where it is known at which place the object's chunk stands.
    pub fn freeze_in(&mut self, place: usize, object: Addr)
        requires place { place_in self.old.chunks object.chunk ≡ Some place }
        requires object { IsObject (cell_of self.old.chunks object).mark }
        ensures { self.new ≡ record self.old { chunks = put_object self.old.chunks object (frozen (cell_of self.old.chunks object)) } }
    {
        match &mut self.contents {
            Some(contents) => contents.get_mut().freeze_in(place, object),
            None => unreachable!(),
        }
    }

    /// Leaves the address that an object was moved to, in place of its birth name; the object's chunk stands at this
    /// place.
    pub fn forward_in(&mut self, place: usize, object: Addr, to: Addr)
        requires place { place_in self.old.chunks object.chunk ≡ Some place }
        requires object { IsObject (cell_of self.old.chunks object).mark }
        requires to { BeginsInFirstUnit (Some to) }
        ensures { self.new ≡ record self.old { chunks = put_object self.old.chunks object (with_mark (cell_of self.old.chunks object) (Moved to)) } }
    {
        match &mut self.contents {
            Some(contents) => contents.get_mut().forward_in(place, object, to),
            None => unreachable!(),
        }
    }

    /// Names an object, which bears this birth name from then on.
    pub fn own_set_birth(&mut self, object: Addr, birth: Birth)
        requires { IsObject (cell_of self.old.chunks object).mark }
        ensures { self.new ≡ record self.old { chunks = put_object self.old.chunks object (with_mark (cell_of self.old.chunks object) (Born birth)) } }
    {
        match &mut self.contents {
            Some(contents) => contents.get_mut().own_set_birth(object, birth),
            None => unreachable!(),
        }
    }
}
