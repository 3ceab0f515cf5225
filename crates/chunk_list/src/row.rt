// The chunks of a heap in a list that grows at both ends.

ghost use Rattle.std.specs.Prelude.{◌≡◌, ◌+◌, ◌^◌, ◌<◌, ◌≤◌, [], ◌∷◌, ◌++◌, IfOk, OnOk, length, slice_index_or, vec_len};

use object_layout::Chunk;
use std::alloc::{AllocError, Global};
use std::marker::Model;
use std::mem;

/// A list of chunks with spare capacity on both sides; in front of them it consists of empty chunks without words. So
/// chunks can be added at both ends without moving the others.
pub struct ChunkList {
    chunks: Vec<Chunk>,
    // How many of them are only placeholders.
    before: usize,
}

impl Drop for ChunkList {
    fn drop(self) {
        let ChunkList {
            chunks: _,
            before: _,
        } = self;
    }
}

impl Model for ChunkList {
    ghost use Rattle.std.specs.Prelude.{◌+◌, ◌-◌, ◌≤◌, drop, vec_capacity, vec_len};
    ghost use Rattle.chunk_list.specs.ChunkList.{ChunkListValue};

    ghost Value = { ChunkListValue };

    ghost view = { λ r. record { items = drop r.before r.chunks.items; places = r.before + (vec_capacity r.chunks - vec_len r.chunks) } };

    ghost invariant = { λ r. r.before ≤ vec_len r.chunks };
}

impl ChunkList {
    ghost use Rattle.std.specs.Prelude.{◌≡◌, ◌+◌, ◌^◌, ◌<◌, ◌≤◌, [], ◌∷◌, ◌++◌, OnOk, length, slice_index_or, vec_len};
    ghost use Rattle.std.specs.Borrow.{sem};
    ghost use Rattle.chunk_list.specs.RowLends.{lends_chunk};

    /// An empty list.
    pub fn new(alloc: Global) -> ChunkList
        ensures { result.items ≡ [] }
    {
        ChunkList {
            chunks: Vec::new(alloc),
            before: 0,
        }
    }

    /// A list of these chunks.
    pub fn of(chunks: Vec<Chunk>) -> ChunkList
        ensures { result.items ≡ chunks.items }
    {
        ChunkList { chunks, before: 0 }
    }

    /// Its allocator.
    pub fn allocator(&self) -> Global {
        *self.chunks.allocator()
    }

    /// The number of chunks; with the placeholders they are fewer than half of the range of `usize`.
    pub fn len(&self) -> usize
        ensures count { result ≡ length self.now.items }
        ensures few { length self.now.items + self.now.places < 2 ^ 63 }
    {
        self.chunks.len() - self.before
    }

    /// All chunks.
    pub fn as_slice(&self) -> &[Chunk]
        ensures { result.now ≡ self.now.items }
    {
        &self.chunks[self.before..]
    }

    /// The chunk at a position, mutably.
    pub fn at_mut(&mut self, place: usize) -> &mut Chunk
        requires { place < length self.old.items }
        ensures* writes_back { sem 𝓛 (lends_chunk self.entry place result) }
        ensures value { result.now ≡ slice_index_or self.old.items place result.now }
    {
        &mut self.chunks[self.before + place]
    }

    /// The chunk at a position.
    pub fn at(&self, place: usize) -> &Chunk
        requires { place < length self.now.items }
        ensures { result.now ≡ slice_index_or self.now.items place result.now }
    {
        &self.chunks[self.before + place]
    }

    /// Reserves capacity for `more` chunks at the end.
    pub fn reserve(&mut self, more: usize) -> Result<(), AllocError>
        ensures items { self.new.items ≡ self.old.items }
        ensures ok { OnOk result (more ≤ self.new.places) }
        ensures places { self.old.places ≤ self.new.places }
    {
        self.chunks.reserve(more)
    }

    /// Reserves capacity in front for `more` chunks, and, if any has to be made, for at least as many as there are
    /// chunks, so that each chunk added moves at most two chunks on average.
    pub fn reserve_before(&mut self, more: usize) -> Result<(), AllocError>
        ensures items { self.new.items ≡ self.old.items }
        ensures ok { OnOk result (more ≤ self.new.places) }
        ensures places { self.old.places ≤ self.new.places }
    {
        if more <= self.before {
            return Ok(());
        }
        let added = more.max(self.chunks.len());
        let mut empty = empty_chunks(self.allocator(), added)?;
        self.chunks.append(&mut empty)?;
        self.chunks.rotate_right(added);
        self.before += added;
        Ok(())
    }

    /// Appends a chunk within the spare capacity. It doesn't allocate.
    pub fn push_reserved(&mut self, chunk: Chunk)
        requires { 0 < self.old.places }
        ensures items { self.new.items ≡ self.old.items ++ chunk ∷ [] }
        ensures places { self.old.places ≡ self.new.places + 1 }
    {
        if self.chunks.len() == self.chunks.capacity() {
            let _ = self.chunks.remove(0);
            self.before -= 1;
        }
        self.chunks.push_reserved(chunk);
    }

    // Prepends a chunk within the spare capacity. It doesn't allocate.
    fn push_before(&mut self, chunk: Chunk)
        requires { 0 < self.old.places }
        ensures items { self.new.items ≡ chunk ∷ self.old.items }
        ensures places { self.old.places ≤ self.new.places + 1 }
    {
        if self.before > 0 {
            self.before -= 1;
            self.chunks[self.before] = chunk;
        } else {
            let _ = self.chunks.insert(0, chunk);
        }
    }

    /// Prepends these chunks within the spare capacity. It doesn't allocate.
    pub fn put_before(&mut self, mut more: Vec<Chunk>)
        requires { vec_len more ≤ self.old.places }
        ensures items { self.new.items ≡ more.items ++ self.old.items }
        ensures places { self.old.places ≤ self.new.places + vec_len more }
    {
        while let Some(chunk) = more.pop() {
            self.push_before(chunk);
        }
    }

    /// Takes all chunks out.
    pub fn take(&mut self) -> Vec<Chunk>
        ensures taken { result.items ≡ self.old.items }
        ensures left { self.new.items ≡ [] }
    {
        let none = Vec::new(self.allocator());
        let mut chunks = mem::replace(&mut self.chunks, none);
        let before = self.before;
        self.before = 0;
        chunks.rotate_left(before);
        chunks.truncate(chunks.len() - before);
        chunks
    }
}

// A list of `count` empty chunks without words.
fn empty_chunks(alloc: Global, count: usize) -> Result<Vec<Chunk>, AllocError>
    ensures { IfOk result (λ chunks. vec_len chunks ≡ count) }
{
    let mut chunks = Vec::with_capacity(alloc, count)?;
    for _ in 0..count {
        chunks.push(Chunk::new(alloc, 0, 0)?)?;
    }
    Ok(chunks)
}
