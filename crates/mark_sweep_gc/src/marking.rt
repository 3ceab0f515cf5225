// A marking: what it has found so far, and which of that is marked.

ghost use Rattle.std.specs.Prelude.{◌≡◌, ◌+◌, ◌-◌, ◌<◌, ◌≤◌, ◌^◌, ◌↔◌, [], List, All, Contains, IfOk, IsTrue, Some, length, drop, slice_index_or, take, true, vec_capacity};
ghost use Rattle.object_layout.specs.declared.word.Addr.{Addr};
ghost use Rattle.object_layout.specs.ChunkValue.{ChunkValue};
ghost use Rattle.object_layout.specs.Chunks.{object_count};
ghost use Rattle.object_layout.specs.Graph.{HeapIsClosed, HasObjectAt, IsSoundReference, RefersTo};
ghost use Rattle.mark_sweep_gc.specs.Snapshot.{IsSince, Fork};
ghost use Rattle.mark_sweep_gc.specs.MarkingValue.{has_address, marked_of, with_address, FindsMore, HasCapacityForAll, IsAllMarked, IsDone, IsMarking, IsOf};

use crate::room::MarkingRoom;
use leaf_heap::LeafHeap;
use object_layout::{Addr, Chunk};
use std::alloc::{AllocError, Global};
use std::collections::HashSet;
use std::marker::Model;
use std::mem;

/// The objects of a heap that were found so far. The first of them are marked: their references were
/// followed.
#[derive(Drop)]
pub struct Marking {
    found: Vec<Addr>,
    known: HashSet<Addr>,
    marked: usize,
    followed: usize,
    left: Vec<Chunk>,
}

impl Model for Marking {
    ghost use Rattle.std.specs.Prelude.{◌≡◌, ◌-◌, vec_capacity, vec_len};
    ghost use Rattle.std.specs.HashSet.{contains, spare};
    ghost use Rattle.object_layout.specs.declared.word.Addr.{Addr};
    ghost use Rattle.mark_sweep_gc.specs.MarkingValue.{has_address, same_address, MarkingValue};

    ghost Value = { MarkingValue };

    ghost view = { λ m. record { found = m.found.items; marked = m.marked; followed = m.followed; slots = vec_capacity m.found - vec_len m.found; spare = spare m.known; places = vec_capacity m.left } };

    ghost invariant = { λ m. (a : Addr) → contains same_address m.known a ≡ has_address m.found.items a };
}

impl Marking {
    /// A marking of a heap, which has found the roots, and marked nothing. It reserves capacity for every object of the
    /// heap, and for its chunks.
    pub fn begin(alloc: Global, heap: &LeafHeap, roots: &[Addr]) -> Result<Marking, AllocError>
        requires { All (HasObjectAt heap.now.chunks) roots.now }
        ensures none { IfOk result (λ m. m.marked ≡ 0) }
        ensures own { IfOk result (λ m. (kept : List Addr) → IsOf heap.now.chunks kept m) }
        ensures marking { IfOk result (λ m. (f : Fork) (kept : List Addr) → f.roots ≡ roots.now → ((a : Addr) → HasObjectAt f.heap a ↔ HasObjectAt heap.now.chunks a) → IsMarking f kept m) }
    {
        Marking::begin_in(MarkingRoom::new(alloc), heap, roots)
    }

    /// Like `begin`, with kept buffers. It allocates only if they have too little capacity for the objects of the heap
    /// or for its chunks; otherwise it is O(roots). If an allocation fails, the buffers are dropped.
    pub fn begin_in(
        room: MarkingRoom,
        heap: &LeafHeap,
        roots: &[Addr],
    ) -> Result<Marking, AllocError>
        requires { All (HasObjectAt heap.now.chunks) roots.now }
        ensures none { IfOk result (λ m. m.marked ≡ 0) }
        ensures own { IfOk result (λ m. (kept : List Addr) → IsOf heap.now.chunks kept m) }
        ensures marking { IfOk result (λ m. (f : Fork) (kept : List Addr) → f.roots ≡ roots.now → ((a : Addr) → HasObjectAt f.heap a ↔ HasObjectAt heap.now.chunks a) → IsMarking f kept m) }
    {
        let MarkingRoom { found, known, left } = room;
        let mut marking = Marking {
            found,
            known,
            marked: 0,
            followed: 0,
            left,
        };
        let places = places_for(heap)?;
        marking.found.reserve(places)?;
        marking.known.reserve(places)?;
        marking.left.reserve(heap.chunks().len())?;
        marking.visit_all(roots);
        Ok(marking)
    }

    /// Ends the marking, and keeps its buffers for the next. O(objects found). Buffers with capacity for more than
    /// 1,048,576 objects are dropped, and empty ones without capacity are kept.
    pub fn into_room(self) -> MarkingRoom
        ensures { result ≤ 2 ^ 20 }
    {
        let Marking {
            found,
            known,
            left,
            ..
        } = self;
        MarkingRoom::emptied(found, known, left)
    }

    /// Marks the next `n` unmarked objects, or all that are left, and returns how many. These are objects that the
    /// roots and the kept references lead to through the heap as it was at the fork. Linear in the references of the
    /// objects marked, and in what was kept since the last call.
    pub fn mark_objects(&mut self, heap: &LeafHeap, kept: &[Addr], n: u32) -> u32
        requires closed { HeapIsClosed heap.now.chunks }
        requires kept { All (HasObjectAt heap.now.chunks) kept.now }
        requires own { IsOf heap.now.chunks kept.now self.old }
        ensures own { IsOf heap.now.chunks kept.now self.new }
        ensures before { take self.old.marked self.new.found ≡ marked_of self.old }
        ensures count { self.new.marked ≡ self.old.marked + result }
        ensures most { result ≤ n }
        ensures marking { (f : Fork) → IsSince f kept.now heap.now.chunks → IsMarking f kept.now self.old → IsMarking f kept.now self.new }
        ensures left { (f : Fork) → IsSince f kept.now heap.now.chunks → IsMarking f kept.now self.old → result < n → IsAllMarked f kept.now self.new }
    {
        self.follow(kept);
        let mut count = 0;
        while count < n && self.marked < self.found.len() {
            self.mark_next(heap);
            count += 1;
        }
        count
    }

    /// Whether nothing of the snapshot is left to mark. Linear in what was kept since the last call that marks.
    pub fn ready(&self, kept: &[Addr]) -> bool
        requires { self.now.followed ≤ length kept.now }
        ensures ready { (f : Fork) (h : List ChunkValue) → All (HasObjectAt h) kept.now → IsOf h kept.now self.now → IsSince f kept.now h → IsMarking f kept.now self.now → (IsTrue result ↔ IsAllMarked f kept.now self.now) }
        ensures done { IsTrue result → IsDone self.now }
    {
        self.marked == self.found.len() && self.has_all(&kept[self.followed..])
    }

    /// How many objects are marked.
    pub fn marked(&self) -> usize
        ensures { result ≡ self.now.marked }
    {
        self.marked
    }

    // Whether an object is found.
    pub(crate) fn has(&self, object: Addr) -> bool
        ensures { result ≡ has_address self.now.found object }
    {
        self.known.contains(&object)
    }

    // Takes out the list for the remaining chunks.
    pub(crate) fn take_list(&mut self) -> Vec<Chunk>
        ensures empty { result.items ≡ [] }
        ensures room { vec_capacity result ≡ self.old.places }
        ensures kept { self.new ≡ record self.old { places = self.new.places } }
    {
        let none = Vec::new(*self.left.allocator());
        let mut left = mem::replace(&mut self.left, none);
        left.clear();
        left
    }

    // Whether all these objects are found.
    fn has_all(&self, objects: &[Addr]) -> bool
        ensures { IsTrue result ↔ All (λ a. has_address self.now.found a ≡ true) objects.now }
    {
        for object in objects {
            if !self.known.contains(object) {
                return false;
            }
        }
        true
    }

    // Finds what was kept since the last call.
    fn follow(&mut self, kept: &[Addr])
        requires own { (h : List ChunkValue) × All (HasObjectAt h) kept.now × IsOf h kept.now self.old }
        ensures own { (h : List ChunkValue) → All (HasObjectAt h) kept.now → IsOf h kept.now self.old → IsOf h kept.now self.new }
        ensures finds { FindsMore (Contains (drop self.old.followed kept.now)) (record self.old { followed = length kept.now }) self.new }
    {
        self.visit_all(&kept[self.followed..]);
        self.followed = kept.len();
    }

    // Marks the next object: finds what it refers to.
    fn mark_next(&mut self, heap: &LeafHeap)
        requires closed { HeapIsClosed heap.now.chunks }
        requires next { self.old.marked < length self.old.found }
        requires room { HasCapacityForAll heap.now.chunks self.old }
        ensures room { HasCapacityForAll heap.now.chunks self.new }
        ensures finds { (none : Addr) → FindsMore (RefersTo heap.now.chunks (slice_index_or self.old.found self.old.marked none)) (record self.old { marked = self.old.marked + 1 }) self.new }
    {
        let object = self.found[self.marked];
        self.visit_refs(heap, object);
        self.marked += 1;
    }

    // Adds an address to those found, unless it is there already.
    fn note(&mut self, address: Addr)
        requires slots { 0 < self.old.slots }
        requires spare { 0 < self.old.spare }
        ensures found { self.new.found ≡ with_address self.old.found address }
        ensures marked { self.new.marked ≡ self.old.marked }
        ensures followed { self.new.followed ≡ self.old.followed }
        ensures slots { length self.old.found + self.old.slots ≤ length self.new.found + self.new.slots }
        ensures spare { length self.old.found + self.old.spare ≤ length self.new.found + self.new.spare }
        ensures places { self.new.places ≡ self.old.places }
    {
        if !self.known.contains(&address) {
            let _ = self.known.insert(address);
            self.found.push_reserved(address);
        }
    }

    // Finds what a reference leads to, if it leads into the heap.
    fn visit(&mut self, heap: &LeafHeap, reference: Option<Addr>)
        requires sound { IsSoundReference heap.now.chunks reference }
        requires room { HasCapacityForAll heap.now.chunks self.old }
        ensures finds { FindsMore (λ a. HasObjectAt heap.now.chunks a × (reference ≡ Some a)) self.old self.new }
        ensures room { HasCapacityForAll heap.now.chunks self.new }
    {
        if let Some(address) = reference {
            if heap.owns(address) {
                self.note(address);
            }
        }
    }

    // Finds what the references of an object lead to.
    fn visit_refs(&mut self, heap: &LeafHeap, object: Addr)
        requires object { HasObjectAt heap.now.chunks object }
        requires closed { HeapIsClosed heap.now.chunks }
        requires room { HasCapacityForAll heap.now.chunks self.old }
        ensures finds { FindsMore (RefersTo heap.now.chunks object) self.old self.new }
        ensures room { HasCapacityForAll heap.now.chunks self.new }
    {
        for field in 0..heap.own_header(object).nrefs {
            let reference = heap.own_ref(object, field);
            self.visit(heap, reference);
        }
    }

    // Finds these objects.
    fn visit_all(&mut self, objects: &[Addr])
        requires room { (h : List ChunkValue) × All (HasObjectAt h) objects.now × HasCapacityForAll h self.old }
        ensures finds { FindsMore (Contains objects.now) self.old self.new }
        ensures room { (h : List ChunkValue) → All (HasObjectAt h) objects.now → HasCapacityForAll h self.old → HasCapacityForAll h self.new }
    {
        for &object in objects {
            self.note(object);
        }
    }
}

// One more than the number of objects in the heap; a saturated count is more than can be reserved.
fn places_for(heap: &LeafHeap) -> Result<usize, AllocError>
    ensures { IfOk result (λ n. n ≡ object_count heap.now.chunks + 1) }
{
    let objects = heap.objects();
    if objects == u64::MAX {
        return Err(AllocError);
    }
    Ok(objects as usize + 1)
}
