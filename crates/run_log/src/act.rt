// What a step does, as an act of a log.

ghost use Rattle.std.specs.Prelude.{◌≡◌};
ghost use Rattle.hh_model.specs.Effect.{object_at};
ghost use Rattle.run_log.specs.Acts.{block_of, target_of, location, access, reference, read_act, write_act, swap_kind, field_count, act_of_deed};

use hh_model::{MachineState, Name};
use log_lines::{Access, AccessKind, Act, LogPlace, Reference};
use run_deltas::{Deed, Value};

/// The blocks of two tasks that follow each other are so far apart. A task makes no more objects than it takes steps,
/// which are at most 256 more than the fuel; the greatest fuel is this number.
const BLOCKS_OF_A_TASK: u64 = 1_000_000_000;

// The block of an object.
fn block_of(name: Name) -> u64
    ensures { result ≡ block_of name }
{
    name.task as u64 * BLOCKS_OF_A_TASK + name.count as u64 + 1
}

// The block of a reference, 0 for nil.
fn target_of(reference: Option<Name>) -> u64
    ensures { result ≡ target_of reference }
{
    match reference {
        None => 0,
        Some(name) => block_of(name),
    }
}

// The location of a field.
fn location(name: Name, field: usize) -> LogPlace
    ensures { result ≡ location name field }
{
    LogPlace {
        block: block_of(name),
        offset: field as u64,
        length: 1,
        runs: 1,
        apart: 1,
    }
}

// An access of a field.
fn access(kind: AccessKind, name: Name, field: usize, line: u32) -> Act
    ensures { result ≡ access kind name field line }
{
    Act::Access(Access {
        kind,
        place: location(name, field),
        site: Some(line as u64),
    })
}

// A field and the reference in it.
fn reference(name: Name, field: usize, target: Option<Name>, line: u32) -> Reference
    ensures { result ≡ reference name field target line }
{
    Reference {
        block: block_of(name),
        offset: field as u64,
        target: target_of(target),
        site: Some(line as u64),
    }
}

fn read_act(name: Name, field: usize, value: Value, line: u32) -> Act
    ensures { result ≡ read_act name field value line }
{
    match value {
        Value::Reference(target) => Act::Yield(reference(name, field, target, line)),
        Value::Number(_) => access(AccessKind::Read, name, field, line),
    }
}

fn write_act(name: Name, field: usize, value: Value, line: u32) -> Act
    ensures { result ≡ write_act name field value line }
{
    match value {
        Value::Reference(target) => Act::Store(reference(name, field, target, line)),
        Value::Number(_) => access(AccessKind::Write, name, field, line),
    }
}

fn swap_kind(swapped: bool) -> AccessKind
    ensures { result ≡ swap_kind swapped }
{
    if swapped {
        AccessKind::AtomicWrite
    } else {
        AccessKind::AtomicRead
    }
}

// How many fields an object has.
fn field_count(state: &MachineState, name: Name) -> u64
    ensures { result ≡ field_count (object_at state.now.store name) }
{
    match state.object(name) {
        None => 0,
        Some(object) => {
            let (refs, ints) = (object.refs.as_slice(), object.ints.as_slice());
            (refs.len() + ints.len()) as u64
        }
    }
}

/// The act of what a step does on a line, after which the state is this; None for what a log doesn't have.
pub(crate) fn act_of_deed(state: &MachineState, line: u32, deed: Deed) -> Option<Act>
    ensures { result ≡ act_of_deed state.now line deed }
{
    match deed {
        Deed::Allocates(name) => Some(Act::Birth {
            block: block_of(name),
            length: field_count(state, name),
        }),
        Deed::Reads(name, field, value) => Some(read_act(name, field, value, line)),
        Deed::Writes(name, field, value) => Some(write_act(name, field, value, line)),
        Deed::Swaps(name, field, _, swapped) => Some(access(swap_kind(swapped), name, field, line)),
        _ => None,
    }
}
