// Reads and writes of the heap's own objects, by their addresses.

ghost use Rattle.std.specs.Prelude.{◌≡◌, ◌^◌, ◌<◌, length, option_copied, option_map, slice_get, is_some, IfSome, Some};
ghost use Rattle.object_layout.specs.declared.word.Addr.{Addr};
ghost use Rattle.object_layout.specs.Cell.{Born, frozen, header_of, cell_with_int, IsBorn, IsObject, BeginsInFirstUnit};
ghost use Rattle.object_layout.specs.Place.{cell_at};
ghost use Rattle.object_layout.specs.Chunks.{cell_of, chunk_at, has_chunk, object_of, place_in, put_object};
ghost use Rattle.leaf_heap.specs.FieldLaws.{with_ref_of};

use super::heap::LeafHeap;
use object_layout::{Addr, Birth, Chunk, Header, Words};

impl LeafHeap {
    /// Whether the address is in a chunk of this heap.
    pub fn owns(&self, object: Addr) -> bool
        ensures { result ≡ has_chunk self.now.chunks object.chunk }
    {
        self.space.owns(object)
    }

    /// The position of the chunk of a number; None if the heap has none. It looks first at the chunk that is being
    /// filled, and then in the table.
    #[inline(always)]
    pub fn place_of(&self, number: u32) -> Option<usize>
        ensures { result ≡ place_in self.now.chunks number }
    {
        if let Some(filled) = self.space.current() {
            if self.space.chunks()[filled].number() == number {
                return Some(filled);
            }
        }
        self.space.place_of(number)
    }

    /// The chunk of a number, if the heap has it.
    pub fn chunk(&self, number: u32) -> Option<&Chunk>
        ensures { option_copied result ≡ option_map (λ i. chunk_at self.now.chunks i) (place_in self.now.chunks number) }
    {
        self.space.chunk(number)
    }

    /// The chunk of an object, as all reads of it need it; None if it isn't of this heap.
    pub fn own_chunk(&self, object: Addr) -> Option<&Chunk>
        ensures there { is_some result ≡ has_chunk self.now.chunks object.chunk }
        ensures cell { IfSome result (λ k. cell_at k.now.cells object.offset ≡ cell_of self.now.chunks object) }
    {
        self.space.own_chunk(object)
    }

    /// The chunk at a position: it contains each object of this heap whose chunk has that position.
    #[inline(always)]
    pub fn chunk_in(&self, place: usize) -> &Chunk
        requires { place < length self.now.chunks }
        ensures { (object : Addr) → place_in self.now.chunks object.chunk ≡ Some place → cell_at result.now.cells object.offset ≡ cell_of self.now.chunks object }
    {
        self.space.chunk_in(place)
    }

    /// The kind of an object.
    pub fn own_header(&self, object: Addr) -> Header
        requires { IsObject (cell_of self.now.chunks object).mark }
        ensures kind { result ≡ header_of (object_of self.now.chunks object) }
        ensures refs { result.nrefs < 2 ^ 20 }
        ensures ints { result.nints < 2 ^ 20 }
    {
        self.space.own_header(object)
    }

    /// The birth name of an object.
    pub fn own_birth(&self, object: Addr) -> Birth
        requires { IsBorn (cell_of self.now.chunks object).mark }
        ensures { (cell_of self.now.chunks object).mark ≡ Born result }
    {
        self.space.own_birth(object)
    }

    /// A reference of an object; None for nil.
    pub fn own_ref(&self, object: Addr, field: u32) -> Option<Addr>
        requires { field < length (object_of self.now.chunks object).refs }
        ensures value { slice_get (object_of self.now.chunks object).refs field ≡ Some result }
        ensures place { BeginsInFirstUnit result }
    {
        self.space.own_ref(object, field)
    }

    /// A number of an object.
    pub fn own_int(&self, object: Addr, field: u32) -> i64
        requires { field < length (object_of self.now.chunks object).ints }
        ensures { slice_get (object_of self.now.chunks object).ints field ≡ Some result }
    {
        self.space.own_int(object, field)
    }

    /// Writes a reference of an object.
    pub fn own_set_ref(&mut self, object: Addr, field: u32, value: Option<Addr>)
        requires field { field < length (object_of self.old.chunks object).refs }
        requires place { BeginsInFirstUnit value }
        ensures { self.new ≡ with_ref_of self.old object field value }
    {
        self.space.own_set_ref(object, field, value);
    }

    /// Like `own_set_ref`, given the position of the object's chunk.
    #[inline(always)]
    pub fn set_ref_in(&mut self, place: usize, object: Addr, field: u32, value: Option<Addr>)
        requires place { place_in self.old.chunks object.chunk ≡ Some place }
        requires field { field < length (object_of self.old.chunks object).refs }
        requires value { BeginsInFirstUnit value }
        ensures { self.new ≡ with_ref_of self.old object field value }
    {
        self.space.set_ref_in(place, object, field, value);
    }

    /// Writes a number of an object.
    pub fn own_set_int(&mut self, object: Addr, field: u32, value: i64)
        requires { field < length (object_of self.old.chunks object).ints }
        ensures { self.new ≡ record self.old { chunks = put_object self.old.chunks object (cell_with_int (cell_of self.old.chunks object) field value) } }
    {
        self.space.own_set_int(object, field, value);
    }

    /// Like `own_set_int`, given the position of the object's chunk.
    #[inline(always)]
    pub fn set_int_in(&mut self, place: usize, object: Addr, field: u32, value: i64)
        requires place { place_in self.old.chunks object.chunk ≡ Some place }
        requires field { field < length (object_of self.old.chunks object).ints }
        ensures { self.new ≡ record self.old { chunks = put_object self.old.chunks object (cell_with_int (cell_of self.old.chunks object) field value) } }
    {
        self.space.set_int_in(place, object, field, value);
    }

    /// Makes an object immutable, and changes nothing else of it.
    pub fn freeze(&mut self, object: Addr)
        requires { IsObject (cell_of self.old.chunks object).mark }
        ensures { self.new ≡ record self.old { chunks = put_object self.old.chunks object (frozen (cell_of self.old.chunks object)) } }
    {
        self.space.freeze(object);
    }

    /// Like `freeze`, given the position of the object's chunk.
    pub fn freeze_in(&mut self, place: usize, object: Addr)
        requires place { place_in self.old.chunks object.chunk ≡ Some place }
        requires object { IsObject (cell_of self.old.chunks object).mark }
        ensures { self.new ≡ record self.old { chunks = put_object self.old.chunks object (frozen (cell_of self.old.chunks object)) } }
    {
        self.space.freeze_in(place, object);
    }
}

impl Words for LeafHeap {
    ghost use Rattle.object_layout.specs.Chunks.{object_of};
    ghost use Rattle.leaf_heap.specs.FieldLaws.{refs_of_other, refs_of_same, with_ref_of};

    ghost refs_at = { λ h a. (object_of h.chunks a).refs };

    ghost with_ref_at = { with_ref_of };

    fn ref_field(&self, object: Addr, field: u32) -> Option<Addr> {
        self.own_ref(object, field)
    }

    fn set_ref_field(&mut self, object: Addr, field: u32, value: Option<Addr>) {
        self.own_set_ref(object, field, value);
    }

    ghost refs_at_same = { refs_of_same };

    ghost refs_at_other = { refs_of_other };
}
