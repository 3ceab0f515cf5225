// Reads and writes of the objects of a space, by their addresses.

ghost use Rattle.std.specs.Prelude.{◌≡◌, ◌^◌, ◌<◌, length, option_copied, option_map, slice_get, is_some, IfSome, Some};
ghost use Rattle.object_layout.specs.declared.word.Addr.{Addr};
ghost use Rattle.object_layout.specs.Cell.{Born, Moved, frozen, header_of, cell_with_int, with_mark, IsBorn, IsObject, BeginsInFirstUnit};
ghost use Rattle.object_layout.specs.Place.{cell_at};
ghost use Rattle.object_layout.specs.Chunks.{cell_of, chunk_at, has_chunk, object_of, place_in, chunk_position, put_object};
ghost use Rattle.leaf_heap.specs.FieldLaws.{with_ref_of};

use super::contents::Contents;
use object_layout::{
    Addr, Birth, Chunk, Header, birth_at, forward, freeze, header_at, int_at, ref_at, set_birth,
    set_int_behind, set_ref,
};

impl Contents {
    /// The position of the chunk of a number, if the heap has it.
    pub fn place_of(&self, number: u32) -> Option<usize>
        ensures { result ≡ place_in self.now.chunks number }
    {
        let _few = self.chunks.len();
        match self.table.get(&number) {
            None => None,
            Some(before) => Some(self.base - *before),
        }
    }

    /// The chunk of a number, if the heap has it.
    pub fn chunk(&self, number: u32) -> Option<&Chunk>
        ensures { option_copied result ≡ option_map (λ i. chunk_at self.now.chunks i) (place_in self.now.chunks number) }
    {
        match self.place_of(number) {
            None => None,
            Some(i) => Some(self.chunks.at(i)),
        }
    }

    /// The chunk of an object, as all reads of it need it; None if it isn't of this heap.
    pub fn own_chunk(&self, object: Addr) -> Option<&Chunk>
        ensures there { is_some result ≡ has_chunk self.now.chunks object.chunk }
        ensures cell { IfSome result (λ k. cell_at k.now.cells object.offset ≡ cell_of self.now.chunks object) }
    {
        self.chunk(object.chunk)
    }

    /// The position of the chunk of a number that the heap has.
    pub fn own_place(&self, number: u32) -> usize
        requires { chunk_position self.now.chunks number < length self.now.chunks }
        ensures { result ≡ chunk_position self.now.chunks number }
    {
        let _few = self.chunks.len();
        self.base - self.table[&number]
    }

    // The chunk of an object of this heap.
    fn chunk_of(&self, object: Addr) -> &Chunk
        requires { chunk_position self.now.chunks object.chunk < length self.now.chunks }
        ensures { cell_at result.now.cells object.offset ≡ cell_of self.now.chunks object }
    {
        self.chunks.at(self.own_place(object.chunk))
    }

    /// The chunk at a position: it contains each object of this heap whose chunk has that position.
    pub fn chunk_in(&self, place: usize) -> &Chunk
        requires { place < length self.now.chunks }
        ensures { (object : Addr) → place_in self.now.chunks object.chunk ≡ Some place → cell_at result.now.cells object.offset ≡ cell_of self.now.chunks object }
    {
        self.chunks.at(place)
    }

    /// Whether the address is in a chunk of this heap.
    pub fn owns(&self, object: Addr) -> bool
        ensures { result ≡ has_chunk self.now.chunks object.chunk }
    {
        self.table.contains_key(&object.chunk)
    }

    /// The kind of an object.
    pub fn own_header(&self, object: Addr) -> Header
        requires { IsObject (cell_of self.now.chunks object).mark }
        ensures kind { result ≡ header_of (object_of self.now.chunks object) }
        ensures refs { result.nrefs < 2 ^ 20 }
        ensures ints { result.nints < 2 ^ 20 }
    {
        header_at(self.chunk_of(object), object.offset)
    }

    /// The birth name of an object that wasn't moved.
    pub fn own_birth(&self, object: Addr) -> Birth
        requires { IsBorn (cell_of self.now.chunks object).mark }
        ensures { (cell_of self.now.chunks object).mark ≡ Born result }
    {
        birth_at(self.chunk_of(object), object.offset)
    }

    /// A reference of an object; None for nil.
    pub fn own_ref(&self, object: Addr, field: u32) -> Option<Addr>
        requires { field < length (object_of self.now.chunks object).refs }
        ensures value { slice_get (object_of self.now.chunks object).refs field ≡ Some result }
        ensures place { BeginsInFirstUnit result }
    {
        ref_at(self.chunk_of(object), object.offset, field)
    }

    /// A number of an object.
    pub fn own_int(&self, object: Addr, field: u32) -> i64
        requires { field < length (object_of self.now.chunks object).ints }
        ensures { slice_get (object_of self.now.chunks object).ints field ≡ Some result }
    {
        int_at(self.chunk_of(object), object.offset, field)
    }

    /// Writes a reference of an object.
    pub fn own_set_ref(&mut self, object: Addr, field: u32, value: Option<Addr>)
        requires field { field < length (object_of self.old.chunks object).refs }
        requires place { BeginsInFirstUnit value }
        ensures { self.new ≡ with_ref_of self.old object field value }
    {
        let place = self.own_place(object.chunk);
        self.set_ref_in(place, object, field, value);
    }

    /// Like `own_set_ref`, given the position of the object's chunk.
    #[inline(always)]
    pub fn set_ref_in(&mut self, place: usize, object: Addr, field: u32, value: Option<Addr>)
        requires place { place_in self.old.chunks object.chunk ≡ Some place }
        requires field { field < length (object_of self.old.chunks object).refs }
        requires value { BeginsInFirstUnit value }
        ensures { self.new ≡ with_ref_of self.old object field value }
    {
        let chunk = self.chunks.at_mut(place);
        let header = header_at(chunk, object.offset);
        self.pieces.note_write(chunk.number(), header.mutable);
        set_ref(chunk, object.offset, field, value);
    }

    /// Writes a number of an object.
    pub fn own_set_int(&mut self, object: Addr, field: u32, value: i64)
        requires { field < length (object_of self.old.chunks object).ints }
        ensures { self.new ≡ record self.old { chunks = put_object self.old.chunks object (cell_with_int (cell_of self.old.chunks object) field value) } }
    {
        let place = self.own_place(object.chunk);
        self.set_int_in(place, object, field, value);
    }

    /// Like `own_set_int`, given the position of the object's chunk.
    #[inline(always)]
    pub fn set_int_in(&mut self, place: usize, object: Addr, field: u32, value: i64)
        requires place { place_in self.old.chunks object.chunk ≡ Some place }
        requires field { field < length (object_of self.old.chunks object).ints }
        ensures { self.new ≡ record self.old { chunks = put_object self.old.chunks object (cell_with_int (cell_of self.old.chunks object) field value) } }
    {
        let chunk = self.chunks.at_mut(place);
        let header = header_at(chunk, object.offset);
        self.pieces.note_write(chunk.number(), header.mutable);
        set_int_behind(chunk, object.offset, header.nrefs, field, value);
    }

    /// Makes an object immutable, and changes nothing else of it.
    pub fn freeze(&mut self, object: Addr)
        requires { IsObject (cell_of self.old.chunks object).mark }
        ensures { self.new ≡ record self.old { chunks = put_object self.old.chunks object (frozen (cell_of self.old.chunks object)) } }
    {
        let place = self.own_place(object.chunk);
        self.freeze_in(place, object);
    }

    /// Like `freeze`, given the position of the object's chunk.
    pub fn freeze_in(&mut self, place: usize, object: Addr)
        requires place { place_in self.old.chunks object.chunk ≡ Some place }
        requires object { IsObject (cell_of self.old.chunks object).mark }
        ensures { self.new ≡ record self.old { chunks = put_object self.old.chunks object (frozen (cell_of self.old.chunks object)) } }
    {
        let chunk = self.chunks.at_mut(place);
        self.pieces.note_change(chunk.number());
        freeze(chunk, object.offset);
    }

    /// Records the address that an object was moved to, in place of its birth name; the object's chunk is at this
    /// position.
    pub fn forward_in(&mut self, place: usize, object: Addr, to: Addr)
        requires place { place_in self.old.chunks object.chunk ≡ Some place }
        requires object { IsObject (cell_of self.old.chunks object).mark }
        requires to { BeginsInFirstUnit (Some to) }
        ensures { self.new ≡ record self.old { chunks = put_object self.old.chunks object (with_mark (cell_of self.old.chunks object) (Moved to)) } }
    {
        let chunk = self.chunks.at_mut(place);
        self.pieces.note_change(chunk.number());
        forward(chunk, object.offset, to);
    }

    /// Gives an object its birth name.
    pub fn own_set_birth(&mut self, object: Addr, birth: Birth)
        requires { IsObject (cell_of self.old.chunks object).mark }
        ensures { self.new ≡ record self.old { chunks = put_object self.old.chunks object (with_mark (cell_of self.old.chunks object) (Born birth)) } }
    {
        let i = self.own_place(object.chunk);
        let chunk = self.chunks.at_mut(i);
        self.pieces.note_change(chunk.number());
        set_birth(chunk, object.offset, birth);
    }
}
