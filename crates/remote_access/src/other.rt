// What the next instruction of a part does with an object that another task owns.

ghost use Rattle.std.specs.Prelude.{◌≡◌, ◌<◌, pos, length, slice_get, unwrap_or, Some, None};
ghost use Rattle.step_commit.specs.below.hh_model.{place_in};
ghost use Rattle.step_commit.specs.below.object_layout.{IsObject, cell_of, object_of};
ghost use Rattle.step_commit.specs.below.write_barrier.{PointsIntoOwned};
ghost use Rattle.step_commit.specs.below.task_frames.{int_of, ref_of};
ghost use Rattle.remote_access.specs.Other.{object_named, or_frozen, or_range, other_step, reads_into, swaps, IsReadable};

use step_commit::{
    Addr, Instr, IntReg, LeafHeap, Pool, Private, RefReg, Trap, Tree, field_index,
    is_same_reference,
};

/// What a step does with an object that another task owns.
#[derive(Clone, Copy)]
pub enum OtherStep {
    /// A number register gets a value.
    SetsNumber(IntReg, i64),
    /// A reference register gets a value.
    SetsReference(RefReg, Option<Addr>),
    /// The read is stopped: this task owns what it would yield.
    Stops(u32),
    /// It traps.
    Traps(Trap),
    /// A reference field of the object gets a value.
    StoresReference(Addr, u32, Option<Addr>),
    /// A reference field of the object, which holds the expected value, gets a new one, and a number register 1.
    Swaps(IntReg, Addr, u32, Option<Addr>),
    /// A number field of the object gets a value.
    StoresNumber(Addr, u32, i64),
}

/// The address of the object that an instruction works on.
pub fn named(part: &Private, instr: Instr) -> Option<Addr>
    ensures { result ≡ object_named part.now.frames.top instr }
{
    match instr {
        Instr::Getr(_, object, _) => part.reference(object),
        Instr::Geti(_, object, _) => part.reference(object),
        Instr::Putr(object, _, _) => part.reference(object),
        Instr::Puti(object, _, _) => part.reference(object),
        Instr::Cntr(_, object) => part.reference(object),
        Instr::Cnti(_, object) => part.reference(object),
        Instr::Freeze(object) => part.reference(object),
        Instr::Cas(_, object, _, _, _) => part.reference(object),
        _ => None,
    }
}

// The result of a read of a reference.
fn yielded(tree: &Tree, pool: &Pool, reader: u32, register: RefReg, held: Option<Addr>) -> OtherStep
    requires reader { reader < length tree.now }
    requires owned { PointsIntoOwned (length tree.now) pool.now held }
    ensures { result ≡ reads_into tree.now pool.now reader register held }
{
    let Some(to) = held else {
        return OtherStep::SetsReference(register, None);
    };
    match read_barrier::check(tree, pool, reader, to) {
        Ok(to) => OtherStep::SetsReference(register, Some(to)),
        Err(stop) => OtherStep::Stops(stop.owner),
    }
}

fn reading_reference(
    tree: &Tree,
    pool: &Pool,
    part: &Private,
    heap: &LeafHeap,
    object: Addr,
    register: RefReg,
    index: IntReg,
) -> OtherStep
    requires { IsReadable (length tree.now) pool.now part.now.task heap.now.chunks object }
    ensures { result ≡ or_range (place_in (length (object_of heap.now.chunks object).refs) (int_of part.now.frames.top index)) (λ i. reads_into tree.now pool.now part.now.task register (unwrap_or (slice_get (object_of heap.now.chunks object).refs i) None)) }
{
    let count = heap.own_header(object).nrefs;
    let Some(field) = field_index(count, part.int(index)) else {
        return OtherStep::Traps(Trap::Range);
    };
    let held = heap.own_ref(object, field);
    yielded(tree, pool, part.task, register, held)
}

fn reading_number(
    part: &Private,
    heap: &LeafHeap,
    object: Addr,
    register: IntReg,
    index: IntReg,
) -> OtherStep
    requires { IsObject (cell_of heap.now.chunks object).mark }
    ensures { result ≡ or_range (place_in (length (object_of heap.now.chunks object).ints) (int_of part.now.frames.top index)) (λ i. OtherStep.SetsNumber register (unwrap_or (slice_get (object_of heap.now.chunks object).ints i) (pos 0))) }
{
    let count = heap.own_header(object).nints;
    match field_index(count, part.int(index)) {
        None => OtherStep::Traps(Trap::Range),
        Some(field) => OtherStep::SetsNumber(register, heap.own_int(object, field)),
    }
}

fn writing_reference(
    part: &Private,
    heap: &LeafHeap,
    object: Addr,
    index: IntReg,
    value: RefReg,
) -> OtherStep
    requires { IsObject (cell_of heap.now.chunks object).mark }
    ensures { result ≡ or_range (place_in (length (object_of heap.now.chunks object).refs) (int_of part.now.frames.top index)) (λ i. or_frozen (object_of heap.now.chunks object) (OtherStep.StoresReference object i (ref_of part.now.frames.top value))) }
{
    let header = heap.own_header(object);
    let Some(field) = field_index(header.nrefs, part.int(index)) else {
        return OtherStep::Traps(Trap::Range);
    };
    if !header.mutable {
        return OtherStep::Traps(Trap::Frozen);
    }
    OtherStep::StoresReference(object, field, part.reference(value))
}

fn writing_number(
    part: &Private,
    heap: &LeafHeap,
    object: Addr,
    index: IntReg,
    value: IntReg,
) -> OtherStep
    requires { IsObject (cell_of heap.now.chunks object).mark }
    ensures { result ≡ or_range (place_in (length (object_of heap.now.chunks object).ints) (int_of part.now.frames.top index)) (λ i. or_frozen (object_of heap.now.chunks object) (OtherStep.StoresNumber object i (int_of part.now.frames.top value))) }
{
    let header = heap.own_header(object);
    let Some(field) = field_index(header.nints, part.int(index)) else {
        return OtherStep::Traps(Trap::Range);
    };
    if !header.mutable {
        return OtherStep::Traps(Trap::Frozen);
    }
    OtherStep::StoresNumber(object, field, part.int(value))
}

// The step of a compare and swap, if the field holds this.
fn swapping(
    register: IntReg,
    object: Addr,
    held: Option<Addr>,
    expected: Option<Addr>,
    field: u32,
    value: Option<Addr>,
) -> OtherStep
    ensures { result ≡ swaps register object held expected field value }
{
    if is_same_reference(held, expected) {
        OtherStep::Swaps(register, object, field, value)
    } else {
        OtherStep::SetsNumber(register, 0)
    }
}

fn comparing(
    part: &Private,
    heap: &LeafHeap,
    object: Addr,
    register: IntReg,
    index: IntReg,
    expected: RefReg,
    value: RefReg,
) -> OtherStep
    requires { IsObject (cell_of heap.now.chunks object).mark }
    ensures { result ≡ or_range (place_in (length (object_of heap.now.chunks object).refs) (int_of part.now.frames.top index)) (λ i. or_frozen (object_of heap.now.chunks object) (swaps register object (unwrap_or (slice_get (object_of heap.now.chunks object).refs i) None) (ref_of part.now.frames.top expected) i (ref_of part.now.frames.top value))) }
{
    let header = heap.own_header(object);
    let Some(field) = field_index(header.nrefs, part.int(index)) else {
        return OtherStep::Traps(Trap::Range);
    };
    if !header.mutable {
        return OtherStep::Traps(Trap::Frozen);
    }
    let held = heap.own_ref(object, field);
    let expected = part.reference(expected);
    swapping(
        register,
        object,
        held,
        expected,
        field,
        part.reference(value),
    )
}

/// What an instruction does with the object of another task at an address, in that task's heap.
pub fn step_on(
    tree: &Tree,
    pool: &Pool,
    part: &Private,
    heap: &LeafHeap,
    object: Addr,
    instr: Instr,
) -> OtherStep
    requires { IsReadable (length tree.now) pool.now part.now.task heap.now.chunks object }
    ensures { result ≡ other_step tree.now pool.now part.now object (object_of heap.now.chunks object) instr }
{
    match instr {
        Instr::Getr(d, _, index) => reading_reference(tree, pool, part, heap, object, d, index),
        Instr::Geti(d, _, index) => reading_number(part, heap, object, d, index),
        Instr::Cntr(d, _) => OtherStep::SetsNumber(d, heap.own_header(object).nrefs as i64),
        Instr::Cnti(d, _) => OtherStep::SetsNumber(d, heap.own_header(object).nints as i64),
        Instr::Freeze(_) => OtherStep::Traps(Trap::Frozen),
        Instr::Putr(_, index, value) => writing_reference(part, heap, object, index, value),
        Instr::Puti(_, index, value) => writing_number(part, heap, object, index, value),
        Instr::Cas(d, _, index, expected, value) => {
            comparing(part, heap, object, d, index, expected, value)
        }
        _ => OtherStep::Traps(Trap::Nil),
    }
}
