// Machines and accounts of heaps that tests make from tables.

use ledger_heaps::fresh;
use run_journal::{Frame, Heap, Listed, MachineState, Name, Object, Strand, Task, TaskStatus};
use std::alloc::Global;

/// A name in a table: the task and the count.
pub(crate) type Pair = (u32, u32);

pub(crate) fn name((task, count): Pair) -> Name {
    Name { task, count }
}

/// An object in a table: its references, and the number of its number fields.
pub(crate) type Fields = (&'static [Option<Pair>], usize);

/// A task of a table: its parent, what its one frame holds, and its objects.
#[derive(Clone, Copy)]
pub(crate) struct Row {
    pub(crate) parent: Option<u32>,
    pub(crate) register: Option<Pair>,
    pub(crate) objects: &'static [Fields],
}

fn references(alloc: Global, refs: &[Option<Pair>]) -> Option<Listed<Option<Name>>> {
    let mut list = Listed::new(alloc);
    for reference in refs {
        if list.push(reference.map(name)).is_err() {
            return None;
        }
    }
    Some(list)
}

fn zeros(alloc: Global, count: usize) -> Option<Listed<i64>> {
    let mut list = Listed::new(alloc);
    for _ in 0..count {
        if list.push(0).is_err() {
            return None;
        }
    }
    Some(list)
}

// An object of a task.
fn object(alloc: Global, task: u32, (refs, ints): Fields) -> Option<Object> {
    let refs = references(alloc, refs)?;
    let ints = zeros(alloc, ints)?;
    Some(Object {
        strand: Strand { task, joins: 0 },
        mutable: true,
        refs,
        ints,
    })
}

// Adds an object of a task; returns whether that succeeded.
fn add_object(alloc: Global, objects: &mut Listed<Object>, task: u32, fields: Fields) -> bool {
    match object(alloc, task, fields) {
        Some(object) => objects.push(object).is_ok(),
        None => false,
    }
}

fn objects(alloc: Global, task: u32, table: &[Fields]) -> Option<Listed<Object>> {
    let mut objects = Listed::new(alloc);
    for &fields in table {
        if !add_object(alloc, &mut objects, task, fields) {
            return None;
        }
    }
    Some(objects)
}

// A frame whose register `r3` holds an object, or nil.
fn frame(register: Option<Pair>) -> Frame {
    let mut refs = [None; 16];
    refs[3] = register.map(name);
    Frame {
        function: 0,
        next: 0,
        ints: [0; 16],
        refs,
    }
}

fn task(alloc: Global, row: Row) -> Task {
    Task {
        parent: row.parent,
        depth: if row.parent.is_some() { 1 } else { 0 },
        status: TaskStatus::Running,
        top: frame(row.register),
        below: Listed::new(alloc),
        joins: 0,
    }
}

// Adds the task of this number with its objects; returns whether that succeeded.
fn add_task(alloc: Global, machine: &mut MachineState, number: u32, row: Row) -> bool {
    match objects(alloc, number, row.objects) {
        Some(objects) => {
            machine.store.push(objects).is_ok() && machine.tasks.push(task(alloc, row)).is_ok()
        }
        None => false,
    }
}

// A machine without tasks.
fn empty_machine(alloc: Global) -> MachineState {
    MachineState {
        field_limit: 9_998,
        tasks: Listed::new(alloc),
        store: Listed::new(alloc),
        edges: Listed::new(alloc),
        outputs: Listed::new(alloc),
        end: None,
    }
}

/// The machine of these tasks.
pub(crate) fn machine_of(alloc: Global, rows: &[Row]) -> Option<MachineState> {
    let mut machine = empty_machine(alloc);
    for (number, row) in (0u32..).zip(rows) {
        if !add_task(alloc, &mut machine, number, *row) {
            return None;
        }
    }
    Some(machine)
}

/// Names of a task's objects.
pub(crate) fn names(alloc: Global, task: u32, counts: &[u32]) -> Option<Listed<Name>> {
    let mut names = Listed::new(alloc);
    for count in counts {
        if names.push(name((task, *count))).is_err() {
            return None;
        }
    }
    Some(names)
}

// Adds a list of a task's names; returns whether that succeeded.
fn add_list(alloc: Global, lists: &mut Listed<Listed<Name>>, task: u32, counts: &[u32]) -> bool {
    match names(alloc, task, counts) {
        Some(names) => lists.push(names).is_ok(),
        None => false,
    }
}

fn lists(alloc: Global, task: u32, table: &[&[u32]]) -> Option<Listed<Listed<Name>>> {
    let mut lists = Listed::new(alloc);
    for counts in table {
        if !add_list(alloc, &mut lists, task, counts) {
            return None;
        }
    }
    Some(lists)
}

/// The account of a heap with lists of a task's names, and large ones.
pub(crate) fn heap_of(alloc: Global, task: u32, chunks: &[&[u32]], large: &[u32]) -> Option<Heap> {
    let chunks = lists(alloc, task, chunks)?;
    let large = names(alloc, task, large)?;
    let mut heap = fresh(alloc);
    heap.chunks = chunks;
    heap.large = large;
    Some(heap)
}

/// Whether these are exactly the names of a table.
pub(crate) fn are(names: &[Name], expected: &[Pair]) -> bool {
    for (found, wanted) in names.iter().zip(expected) {
        if *found != name(*wanted) {
            return false;
        }
    }
    names.len() == expected.len()
}

/// Whether a heap has exactly these lists of names.
pub(crate) fn has_lists(heap: &Heap, expected: &[&[Pair]]) -> bool {
    for (found, wanted) in heap.chunks.as_slice().iter().zip(expected) {
        if !are(found.as_slice(), wanted) {
            return false;
        }
    }
    heap.chunks.len() == expected.len()
}
