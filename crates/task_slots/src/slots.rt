// The slots of all tasks, by number: one for each task, in a block, which is kept for another task after the join.

ghost use Rattle.std.specs.Prelude.{◌≡◌, ◌≢◌, ◌<◌, ◌≤◌, ◌+◌, ◌-◌, ◌++◌, ◌∷◌, [], ℕ, IfOk, IfSome, IsSome, OnErr, OnOk, None, Some, false, true, length, option_copied, option_map, slice_get, slice_set};
ghost use Rattle.object_layout.specs.Cell.{cell_with_int, BeginsInFirstUnit};
ghost use Rattle.object_layout.specs.Chunks.{cell_of, object_of, put_object};
ghost use Rattle.leaf_heap.specs.FieldLaws.{with_ref_of};
ghost use Rattle.remembered_set.specs.Sources.{StandOnce};
ghost use Rattle.write_barrier.specs.Forms.{bare_noted};
ghost use Rattle.write_barrier.specs.Stored.{content_at, with_source, IsRoomy};
ghost use Rattle.task_slots.specs.declared.task_at_rest.ParkedTask.{ParkedTask as RestOf};
ghost use Rattle.task_slots.specs.TaskSlotsValue.{kept_of, keeping, keeps_of, marking_in, marks_at, refs_of_rest, rest_at, rest_in, set_in, sources_of, IsSameRest};

use crate::spare_blocks::SpareBlocks;
use crate::task_at_rest::ParkedTask;
use boxed::BoxedSlot;
use mark_sweep_gc::Marking;
use object_layout::Addr;
use remembered_set::RefField;
use std::alloc::{AllocError, Global};
use std::marker::Model;
use std::mem;
use write_barrier::{HoldsSets, SetOf};

/// The slot of a task.
#[derive(Drop)]
pub struct TaskSlot {
    /// Its frames or its result, and its heap, while no worker holds it.
    pub rest: Option<ParkedTask>,
    /// What is noted for the collections of its heap.
    pub set: SetOf,
    /// The marking of its heap, while that is being marked.
    pub marking: Option<BoxedSlot<Marking>>,
}

// An empty slot.
pub(crate) fn nothing(alloc: Global) -> TaskSlot
    ensures { result ≡ record { rest = None; set = bare_noted false; marking = None } }
{
    TaskSlot {
        rest: None,
        set: SetOf::new(alloc),
        marking: None,
    }
}

// A block with an empty slot.
pub(crate) fn slot_block(alloc: Global) -> Result<BoxedSlot<TaskSlot>, AllocError>
    ensures { IfOk result (λ slot. slot ≡ record { rest = None; set = bare_noted false; marking = None }) }
{
    Ok(BoxedSlot::new(alloc, nothing(alloc))?)
}

/// The slots of all tasks, by number.
pub struct TaskSlots {
    list: Vec<Option<BoxedSlot<TaskSlot>>>,
    spare: SpareBlocks,
}

impl Drop for TaskSlots {
    fn drop(self) {
        let TaskSlots { list: _, spare: _ } = self;
    }
}

impl Model for TaskSlots {
    ghost use Rattle.std.specs.Prelude.{◌-◌, length};
    ghost use Rattle.std.specs.Vec.{vec_capacity};
    ghost use Rattle.task_slots.specs.TaskSlotsValue.{TaskSlotsValue, task_slots_value};

    ghost Value = { TaskSlotsValue };

    ghost view = { λ h. task_slots_value h.list.items (vec_capacity h.list - length h.list.items) };
}

impl TaskSlots {
    ghost use Rattle.std.specs.Prelude.{◌≡◌, ◌≢◌, ◌<◌, ◌≤◌, ◌+◌, ◌-◌, ◌++◌, ◌∷◌, [], ℕ, IfOk, IfSome, IsSome, OnErr, OnOk, None, Some, false, true, length, option_copied, option_map, slice_get, slice_set};
    ghost use Rattle.object_layout.specs.Cell.{cell_with_int, BeginsInFirstUnit};
    ghost use Rattle.object_layout.specs.Chunks.{cell_of, object_of, put_object};
    ghost use Rattle.leaf_heap.specs.FieldLaws.{with_ref_of};
    ghost use Rattle.remembered_set.specs.Sources.{StandOnce};
    ghost use Rattle.write_barrier.specs.Forms.{bare_noted};
    ghost use Rattle.write_barrier.specs.Stored.{content_at, with_source, IsRoomy};
    ghost use Rattle.task_slots.specs.declared.task_at_rest.ParkedTask.{ParkedTask as RestOf};
    ghost use Rattle.task_slots.specs.TaskSlotsValue.{kept_of, keeping, keeps_of, marking_in, marks_at, refs_of_rest, rest_at, rest_in, set_in, sources_of, IsSameRest};

    /// The slot of the root, which no worker holds yet.
    pub fn new(alloc: Global, root: ParkedTask) -> Result<TaskSlots, AllocError>
        ensures rests { IfOk result (λ h. h.rests ≡ Some root ∷ []) }
        ensures sets { IfOk result (λ h. h.sets ≡ bare_noted false ∷ []) }
        ensures marks { IfOk result (λ h. h.marks ≡ None ∷ []) }
    {
        let mut slot = nothing(alloc);
        slot.rest = Some(root);
        let mut list = Vec::new(alloc);
        list.push(Some(BoxedSlot::new(alloc, slot)?))?;
        let spare = SpareBlocks::new(alloc)?;
        Ok(TaskSlots { list, spare })
    }

    /// Its allocator.
    pub fn allocator(&self) -> Global {
        *self.list.allocator()
    }

    /// How many tasks have been made.
    pub fn len(&self) -> usize
        ensures { result ≡ length self.now.rests }
    {
        self.list.len()
    }

    // The slot of a task, if it has a block.
    pub(crate) fn slot(&self, t: u32) -> Option<&TaskSlot>
        ensures rest { rest_in (option_copied result) ≡ rest_at self.now.rests t }
        ensures marking { marking_in (option_copied result) ≡ marks_at self.now.marks t }
        ensures sources { sources_of (Some (set_in (option_copied result))) ≡ sources_of (slice_get self.now.sets t) }
        ensures kept { kept_of (Some (set_in (option_copied result))) ≡ kept_of (slice_get self.now.sets t) }
        ensures keeps { keeps_of (Some (set_in (option_copied result))) ≡ keeps_of (slice_get self.now.sets t) }
    {
        match self.list.get(t as usize) {
            Some(Some(slot)) => Some(slot.get()),
            _ => None,
        }
    }

    /// The parked state of a task, if no worker holds it.
    pub fn rest(&self, t: u32) -> Option<&ParkedTask>
        ensures { option_copied result ≡ rest_at self.now.rests t }
    {
        match self.slot(t) {
            Some(slot) => match &slot.rest {
                Some(rest) => Some(rest),
                None => None,
            },
            None => None,
        }
    }

    /// The marking of the heap of a task, if that is being marked.
    pub fn marking(&self, t: u32) -> Option<&Marking>
        ensures { option_copied result ≡ marks_at self.now.marks t }
    {
        match self.slot(t) {
            Some(slot) => match &slot.marking {
                Some(marking) => Some(marking.get()),
                None => None,
            },
            None => None,
        }
    }

    /// The fields that are remembered for the heap of a task, in the order in which they were noted.
    pub fn sources(&self, t: u32) -> &[RefField]
        ensures sources { result.now ≡ sources_of (slice_get self.now.sets t) }
        ensures once { StandOnce (sources_of (slice_get self.now.sets t)) }
    {
        match self.slot(t) {
            Some(slot) => slot.set.sources(),
            None => &[],
        }
    }

    /// The overwritten references that are kept for it.
    pub fn kept(&self, t: u32) -> &[Addr]
        ensures { result.now ≡ kept_of (slice_get self.now.sets t) }
    {
        match self.slot(t) {
            Some(slot) => slot.set.kept(),
            None => &[],
        }
    }

    /// Whether overwritten references are kept for it.
    pub fn keeps(&self, t: u32) -> bool
        ensures { result ≡ keeps_of (slice_get self.now.sets t) }
    {
        match self.slot(t) {
            Some(slot) => slot.set.keeps(),
            None => false,
        }
    }

    /// Takes out the parked state of a task, which a worker is to hold. Its slot stays.
    pub fn take_rest(&mut self, t: u32) -> ParkedTask
        requires there { IsSome (rest_at self.old.rests t) }
        ensures rest { rest_at self.old.rests t ≡ Some result }
        ensures block { slice_get self.new.blocks t ≡ Some true }
        ensures task_slots { self.new ≡ record self.old { rests = slice_set self.old.rests t None } }
    {
        match &mut self.list[t as usize] {
            Some(slot) => match mem::replace(&mut slot.get_mut().rest, None) {
                Some(rest) => rest,
                None => unreachable!(),
            },
            None => unreachable!(),
        }
    }

    /// Makes a block for the slot of a task, unless there is one.
    pub fn make_block(&mut self, t: u32) -> Result<(), AllocError>
        requires made { t < length self.old.rests }
        ensures task_slots { self.new ≡ record self.old { blocks = self.new.blocks } }
        ensures block { OnOk result (slice_get self.new.blocks t ≡ Some true) }
    {
        if self.has_block(t) {
            return Ok(());
        }
        let block = slot_block(self.allocator())?;
        self.list[t as usize] = Some(block);
        Ok(())
    }

    /// Puts in the parked state of a task that no worker holds any more.
    pub fn put_rest(&mut self, t: u32, rest: ParkedTask)
        requires block { slice_get self.old.blocks t ≡ Some true }
        ensures { self.new ≡ record self.old { rests = slice_set self.old.rests t (Some rest) } }
    {
        match &mut self.list[t as usize] {
            Some(slot) => slot.get_mut().rest = Some(rest),
            None => unreachable!(),
        }
    }

    /// Reserves capacity for `count` more tasks.
    pub fn reserve(&mut self, count: usize) -> Result<(), AllocError>
        ensures task_slots { self.new ≡ record self.old { room = self.new.room } }
        ensures room { OnOk result (count ≤ self.new.room) }
    {
        self.list.reserve(count)
    }

    /// A block for the slot of a task that is to be made: one that a task left, or a new one.
    pub fn take_block(&mut self) -> Result<BoxedSlot<TaskSlot>, AllocError>
        ensures task_slots { self.new ≡ self.old }
        ensures block { IfOk result (λ slot. slot ≡ record { rest = None; set = bare_noted false; marking = None }) }
    {
        self.spare.take()
    }

    /// Adds the slot of one more task with its parked state, within the reserved capacity and with a block.
    pub fn push(&mut self, rest: ParkedTask, block: BoxedSlot<TaskSlot>)
        requires room { 0 < self.old.room }
        ensures rests { self.new.rests ≡ self.old.rests ++ Some rest ∷ [] }
        ensures sets { self.new.sets ≡ self.old.sets ++ bare_noted false ∷ [] }
        ensures marks { self.new.marks ≡ self.old.marks ++ None ∷ [] }
        ensures blocks { self.new.blocks ≡ self.old.blocks ++ true ∷ [] }
        ensures places { self.new.room ≡ self.old.room - 1 }
    {
        let mut slot = nothing(self.allocator());
        slot.rest = Some(rest);
        self.list.push_reserved(Some(block.put(slot)));
    }

    /// Takes out the whole slot of a task that joins: nothing of it is left. Its block is kept for another task, or
    /// freed.
    #[inline(always)]
    pub fn leave(&mut self, t: u32) -> TaskSlot
        requires made { t < length self.old.rests }
        ensures rest { result.rest ≡ rest_at self.old.rests t }
        ensures set { slice_get self.old.sets t ≡ Some result.set }
        ensures task_slots { self.new ≡ record self.old { rests = slice_set self.old.rests t None; sets = slice_set self.old.sets t (bare_noted false); marks = slice_set self.old.marks t None; blocks = slice_set self.old.blocks t false } }
    {
        match mem::replace(&mut self.list[t as usize], None) {
            Some(block) => self.spare.empty(block),
            None => nothing(self.allocator()),
        }
    }

    /// Takes out what is noted for the heap of a task that has a block, and leaves an empty set.
    pub fn take_set(&mut self, t: u32) -> SetOf
        requires block { slice_get self.old.blocks t ≡ Some true }
        ensures set { slice_get self.old.sets t ≡ Some result }
        ensures task_slots { self.new ≡ record self.old { sets = slice_set self.old.sets t (bare_noted false) } }
    {
        let empty = SetOf::new(self.allocator());
        match &mut self.list[t as usize] {
            Some(slot) => mem::replace(&mut slot.get_mut().set, empty),
            None => unreachable!(),
        }
    }

    /// Puts in what is noted for the heap of a task.
    pub fn put_set(&mut self, t: u32, set: SetOf)
        requires block { slice_get self.old.blocks t ≡ Some true }
        ensures { self.new ≡ record self.old { sets = slice_set self.old.sets t set } }
    {
        match &mut self.list[t as usize] {
            Some(slot) => slot.get_mut().set = set,
            None => unreachable!(),
        }
    }

    /// Whether a task has a block; without one nothing is noted for its heap.
    pub fn has_block(&self, t: u32) -> bool
        requires made { t < length self.now.rests }
        ensures block { slice_get self.now.blocks t ≡ Some result }
        ensures none { result ≡ false → slice_get self.now.sets t ≡ Some (bare_noted false) }
    {
        self.list[t as usize].is_some()
    }

    /// Sets whether the heap of a task keeps overwritten references from now on; it has none now.
    pub fn set_keeps(&mut self, t: u32, keeps: bool)
        requires block { slice_get self.old.blocks t ≡ Some true }
        ensures task_slots { self.new ≡ record self.old { sets = self.new.sets } }
        ensures many { length self.new.sets ≡ length self.old.sets }
        ensures at { content_at self.new.sets t ≡ option_map (keeping keeps) (content_at self.old.sets t) }
        ensures others { (u : ℕ) → u ≢ t → slice_get self.new.sets u ≡ slice_get self.old.sets u }
    {
        match &mut self.list[t as usize] {
            Some(slot) => slot.get_mut().set.set_keeps(keeps),
            None => unreachable!(),
        }
    }

    /// Puts in the marking of the heap of a task at rest.
    pub fn put_marking(&mut self, t: u32, marking: BoxedSlot<Marking>)
        requires there { IsSome (rest_at self.old.rests t) }
        ensures task_slots { self.new ≡ record self.old { marks = slice_set self.old.marks t (Some marking) } }
        ensures marking { marks_at self.new.marks t ≡ Some marking }
    {
        match &mut self.list[t as usize] {
            Some(slot) => slot.get_mut().marking = Some(marking),
            None => unreachable!(),
        }
    }

    /// Takes out the marking of the heap of a task at rest, if there is one.
    pub fn take_marking(&mut self, t: u32) -> Option<BoxedSlot<Marking>>
        requires there { IsSome (rest_at self.old.rests t) }
        ensures marking { result ≡ marks_at self.old.marks t }
        ensures task_slots { self.new ≡ record self.old { marks = slice_set self.old.marks t None } }
    {
        match &mut self.list[t as usize] {
            Some(slot) => mem::replace(&mut slot.get_mut().marking, None),
            None => unreachable!(),
        }
    }

    /// Reserves capacity for `chunks` more chunks in the heap of a task at rest.
    pub fn make_heap_room(&mut self, t: u32, chunks: u32) -> Result<(), AllocError>
        requires there { IsSome (rest_at self.old.rests t) }
        ensures task_slots { self.new ≡ record self.old { rests = self.new.rests } }
        ensures many { length self.new.rests ≡ length self.old.rests }
        ensures others { (u : ℕ) → u ≢ t → rest_at self.new.rests u ≡ rest_at self.old.rests u }
        ensures same { IsSameRest (rest_at self.old.rests t) (rest_at self.new.rests t) }
        ensures room { OnOk result (IfSome (rest_at self.new.rests t) (λ r. (chunks ≤ r.heap.slots) × (chunks ≤ r.heap.spare))) }
    {
        match &mut self.list[t as usize] {
            Some(slot) => match &mut slot.get_mut().rest {
                Some(rest) => rest.heap.make_room_before(chunks),
                None => unreachable!(),
            },
            None => unreachable!(),
        }
    }

    /// Reserves capacity for `sources` more remembered fields of a task that has a block.
    pub fn make_set_room(&mut self, t: u32, sources: u32) -> Result<(), AllocError>
        requires there { IsSome (rest_at self.old.rests t) }
        ensures task_slots { self.new ≡ record self.old { sets = self.new.sets } }
        ensures many { length self.new.sets ≡ length self.old.sets }
        ensures same { (u : ℕ) → content_at self.new.sets u ≡ content_at self.old.sets u }
        ensures room { OnOk result (IfSome (slice_get self.new.sets t) (λ s. (sources ≤ s.remembered.slots) × (sources ≤ s.remembered.spare))) }
    {
        match &mut self.list[t as usize] {
            Some(slot) => slot.get_mut().set.make_room(sources),
            None => unreachable!(),
        }
    }

    // A reference of an object in the heap of a task at rest.
    pub(crate) fn reference(&self, t: u32, object: Addr, field: u32) -> Option<Addr>
        requires field { field < length (refs_of_rest (rest_at self.now.rests t) object) }
        ensures value { slice_get (refs_of_rest (rest_at self.now.rests t) object) field ≡ Some result }
        ensures place { BeginsInFirstUnit result }
    {
        match self.rest(t) {
            Some(rest) => rest.heap.own_ref(object, field),
            None => unreachable!(),
        }
    }

    // Writes a reference of an object in the heap of a task at rest.
    pub(crate) fn set_reference(&mut self, t: u32, object: Addr, field: u32, value: Option<Addr>)
        requires field { field < length (refs_of_rest (rest_at self.old.rests t) object) }
        requires place { BeginsInFirstUnit value }
        ensures { (r : RestOf) → rest_at self.old.rests t ≡ Some r → self.new ≡ record self.old { rests = slice_set self.old.rests t (Some (record r { heap = with_ref_of r.heap object field value })) } }
    {
        match &mut self.list[t as usize] {
            Some(slot) => match &mut slot.get_mut().rest {
                Some(rest) => rest.heap.own_set_ref(object, field, value),
                None => unreachable!(),
            },
            None => unreachable!(),
        }
    }

    /// Writes a number of an object in the heap of a task at rest.
    pub fn set_number(&mut self, t: u32, object: Addr, field: u32, value: i64)
        requires there { IsSome (rest_at self.old.rests t) }
        requires field { IfSome (rest_at self.old.rests t) (λ r. field < length (object_of r.heap.chunks object).ints) }
        ensures { (r : RestOf) → rest_at self.old.rests t ≡ Some r → self.new ≡ record self.old { rests = slice_set self.old.rests t (Some (record r { heap = record r.heap { chunks = put_object r.heap.chunks object (cell_with_int (cell_of r.heap.chunks object) field value) } })) } }
    {
        match &mut self.list[t as usize] {
            Some(slot) => match &mut slot.get_mut().rest {
                Some(rest) => rest.heap.own_set_int(object, field, value),
                None => unreachable!(),
            },
            None => unreachable!(),
        }
    }

    // Notes a field that points down into the heap of a task that has a block, unless it is there already.
    fn note_in_block(&mut self, t: u32, source: RefField) -> Result<(), AllocError>
        requires block { slice_get self.old.blocks t ≡ Some true }
        ensures task_slots { self.new ≡ record self.old { sets = self.new.sets } }
        ensures many { length self.new.sets ≡ length self.old.sets }
        ensures ok { OnOk result ((u : ℕ) → content_at self.new.sets u ≡ option_map (with_source (Some t) source u) (content_at self.old.sets u)) }
        ensures err { OnErr result ((u : ℕ) → content_at self.new.sets u ≡ content_at self.old.sets u) }
        ensures kept { (h : ℕ) → IsRoomy self.old.sets h → IsRoomy self.new.sets h }
    {
        match &mut self.list[t as usize] {
            Some(slot) => slot.get_mut().set.note(source),
            None => unreachable!(),
        }
    }
}

/// The sets of the heaps.
impl HoldsSets for TaskSlots {
    ghost use Rattle.std.specs.Prelude.{length, refl};
    ghost use Rattle.write_barrier.specs.Stored.{content_at, IsRoomy};

    ghost task_count = { λ h. length h.rests };

    ghost set_count = { λ h. length h.sets };

    ghost content = { λ h t. content_at h.sets t };

    ghost has_place = { λ h t. IsRoomy h.sets t };

    // a set that gets its first source is put into a block
    ghost with_sets = { λ h w. record h { sets = w.sets; blocks = w.blocks } };

    fn reserve_kept(&mut self, heap: u32) -> Result<(), AllocError> {
        if !self.keeps(heap) {
            return Ok(());
        }
        match &mut self.list[heap as usize] {
            Some(slot) => slot.get_mut().set.reserve_kept(),
            None => unreachable!(),
        }
    }

    fn note(&mut self, heap: u32, source: RefField) -> Result<(), AllocError> {
        self.make_block(heap)?;
        self.note_in_block(heap, source)
    }

    fn keep(&mut self, heap: u32, reference: Addr) {
        if !self.keeps(heap) {
            return;
        }
        match &mut self.list[heap as usize] {
            Some(slot) => slot.get_mut().set.push_kept(reference),
            None => unreachable!(),
        }
    }

    ghost with_own_sets = { λ h. refl };

    ghost with_sets_twice = { λ a b c. refl };
}
