// The objects of a chunk, for images.

ghost use Rattle.std.specs.Prelude.{◌≡◌, ◌^◌, ◌<◌, All, IfOk, IfSome, FitsSigned, None, length, map};
ghost use Rattle.std.specs.Int.{w64};
ghost use Rattle.core_invariant.specs.below.object_layout.{IsBorn, IsRef, moved_to, Born as IsBornAs, word_of_ref, cell_at, object_at, Birth as BirthOf, located};
ghost use Rattle.core_invariant.specs.Objects.{chunk_of};
ghost use Rattle.heap_reading.specs.Image.{in_words, AreInWords};

use core_invariant::{
    Addr, Birth, CHUNK_WORDS, Chunk, Listed, birth_at, header_at, int_at, is_object_at, next_at,
    ref_at,
};
use std::alloc::{AllocError, Global};

/// An object as it is read. address = 1024 × chunk + offset + 1; nil is 0.
#[derive(Drop)]
pub struct SeenObject {
    pub at: u64,
    pub birth: Birth,
    pub mutable: bool,
    pub refs: Listed<u64>,
    pub ints: Listed<i64>,
}

/// An address as a number.
pub fn number_of(address: Addr) -> u64
    ensures { result ≡ word_of_ref (Some address) }
{
    address.chunk as u64 * CHUNK_WORDS + address.offset as u64 + 1
}

// A reference as a number.
fn reference_number(reference: Option<Addr>) -> u64
    ensures number { result ≡ word_of_ref reference }
    ensures short { IfSome reference (λ a. a.chunk < 2 ^ 32) }
{
    match reference {
        None => 0,
        Some(address) => number_of(address),
    }
}

// The references of an object.
fn refs_at(alloc: Global, chunk: &Chunk, at: u32, count: u32) -> Result<Listed<u64>, AllocError>
    requires { count ≡ length (object_at chunk.now.cells at).refs }
    ensures refs { IfOk result (λ refs. refs ≡ map word_of_ref (object_at chunk.now.cells at).refs) }
    ensures near { IfOk result (λ refs. All IsRef (object_at chunk.now.cells at).refs) }
{
    let mut refs = Listed::new(alloc);
    for field in 0..count {
        refs.push(reference_number(ref_at(chunk, at, field)))?;
    }
    Ok(refs)
}

// The numbers of an object.
fn ints_at(alloc: Global, chunk: &Chunk, at: u32, count: u32) -> Result<Listed<i64>, AllocError>
    requires { count ≡ length (object_at chunk.now.cells at).ints }
    ensures ints { IfOk result (λ ints. ints ≡ (object_at chunk.now.cells at).ints) }
    ensures fit { IfOk result (λ ints. All (FitsSigned w64) (object_at chunk.now.cells at).ints) }
{
    let mut ints = Listed::new(alloc);
    for field in 0..count {
        ints.push(int_at(chunk, at, field))?;
    }
    Ok(ints)
}

// The object at an offset.
fn seen_at(alloc: Global, chunk: &Chunk, at: u32) -> Result<SeenObject, AllocError>
    requires { IsBorn (cell_at chunk.now.cells at).mark }
    ensures object { IfOk result (λ o. (b : BirthOf) → (cell_at chunk.now.cells at).mark ≡ IsBornAs b → o ≡ in_words (located chunk.now.number at b (cell_at chunk.now.cells at))) }
    ensures refs { IfOk result (λ o. All IsRef (cell_at chunk.now.cells at).refs) }
    ensures ints { IfOk result (λ o. All (FitsSigned w64) (cell_at chunk.now.cells at).ints) }
{
    let header = header_at(chunk, at);
    Ok(SeenObject {
        at: number_of(Addr {
            chunk: chunk.number(),
            offset: at,
        }),
        birth: birth_at(chunk, at),
        mutable: header.mutable,
        refs: refs_at(alloc, chunk, at, header.nrefs)?,
        ints: ints_at(alloc, chunk, at, header.nints)?,
    })
}

/// The objects of a chunk in which none was moved.
pub fn seen_in(alloc: Global, chunk: &Chunk) -> Result<Listed<SeenObject>, AllocError>
    requires { All (λ c. moved_to c.mark ≡ None) chunk.now.cells }
    ensures objects { IfOk result (λ objects. objects ≡ map in_words (chunk_of chunk.now).objects) }
    ensures words { IfOk result (λ objects. AreInWords (chunk_of chunk.now).objects) }
{
    let mut objects = Listed::new(alloc);
    let used = chunk.used();
    let mut at = 0;
    while at < used {
        let next = next_at(chunk, at);
        if is_object_at(chunk, at) {
            objects.push(seen_at(alloc, chunk, at)?)?;
        }
        at = next;
    }
    Ok(objects)
}
