// Programs from texts, the root's part of each, and the result of its steps.

ghost use Rattle.std.specs.Prelude.{◌≡◌, ◌≤◌, [], IfSome, IsTrue, None};
ghost use Rattle.object_layout.specs.Cell.{chunk_words};
ghost use Rattle.hh_lang.specs.Form.{ProgramText};
ghost use Rattle.hh_model.specs.declared.data.MachineState.{MachineState};
ghost use Rattle.hh_model.specs.Step.{start};
ghost use Rattle.task_machine.specs.Fits.{FitsNow};
ghost use Rattle.task_machine.specs.Ready.{FitsSome};
ghost use Rattle.part_scenes.specs.Root.{first_frames, nowhere};

use hh_lang::Program;
use io_traits::EmptyGate;
use leaf_heap::{LeafHeap, View};
use object_layout::{Addr, Chunk};
use program_reader::read_program;
use std::alloc::Global;
use task_frames::Frames;
use task_machine::{Paused, Private, run_local};

const NIL: Option<Addr> = None;

/// A root before its first step: words until a collection, the most fields of an object, and the units of its chunk; 0
/// for none.
#[derive(Clone, Copy)]
pub struct Setup {
    pub leaf: u64,
    pub fields: u32,
    pub units: u32,
}

/// One chunk, and room for many words.
pub const AMPLE: Setup = Setup {
    leaf: 4096,
    fields: 1022,
    units: 1,
};

/// Why a part pauses, after how many steps since its last entry, and what i0 holds then.
pub type Pause = (Paused, u32, i64);

/// The program of a text.
pub fn program_of(alloc: Global, text: &str) -> Option<Program> {
    if text.len() > 10_000 {
        return None;
    }
    match read_program(alloc, text.as_bytes()) {
        Ok(read) => read.ok(),
        Err(_) => None,
    }
}

// The root before its first step, with these frames and without a chunk.
fn bare_root(alloc: Global, frames: Frames, setup: Setup) -> Private
    ensures fits { (p : ProgramText) → frames ≡ first_frames p → FitsNow p result (start p setup.fields) nowhere }
    ensures empty { result.heap.chunks ≡ [] }
    ensures idle { result.begun ≡ None }
{
    Private {
        task: 0,
        frames,
        heap: LeafHeap::new(alloc),
        view: View::none(),
        allocations: 0,
        leaf_limit: setup.leaf,
        field_limit: setup.fields,
        fresh: 0,
        begun: None,
    }
}

// Gives a part without chunks this empty one; returns whether that succeeded.
fn add_first_chunk(part: &mut Private, chunk: Chunk) -> bool
    requires number { chunk.number ≡ 7 }
    requires empty { chunk.cells ≡ [] }
    requires size { chunk_words ≤ chunk.size }
    requires first { part.old.heap.chunks ≡ [] }
    ensures fits { IsTrue result → (p : ProgramText) (m : MachineState) → FitsNow p part.old m nowhere → FitsNow p part.new m nowhere }
    ensures idle { part.new.begun ≡ part.old.begun }
{
    match part.heap.add(chunk) {
        Ok(()) => {}
        Err(_) => return false,
    }
    true
}

/// The root before its first step.
pub fn root_of(alloc: Global, program: &Program, setup: Setup) -> Option<Private>
    ensures fits { IfSome result (λ part. FitsSome program.now part) }
    ensures idle { IfSome result (λ part. part.begun ≡ None) }
{
    let frames = Frames::start(alloc, program.main(), &[0; 16], &[NIL; 16]).ok()?;
    let mut part = bare_root(alloc, frames, setup);
    if setup.units == 0 || setup.units > 100 {
        return Some(part);
    }
    let chunk = Chunk::new(alloc, 7, setup.units).ok()?;
    if add_first_chunk(&mut part, chunk) {
        Some(part)
    } else {
        None
    }
}

/// Takes a part's private steps within a budget; None if out of memory, or if a number exceeds what tests need.
pub fn pause(part: &mut Private, program: &Program, budget: u32) -> Option<Pause>
    requires fits { FitsSome program.now part.old }
    requires idle { part.old.begun ≡ None }
    ensures fits { FitsSome program.now part.new }
    ensures idle { part.new.begun ≡ None }
{
    if part.field_limit >= 1 << 20 || budget > 1000 {
        return None;
    }
    if part.fresh > 1000 || part.allocations > 1000 {
        return None;
    }
    match run_local(part, program, budget, &EmptyGate, 0) {
        Ok(why) => Some((why, part.fresh, part.frames.int(0))),
        Err(_) => None,
    }
}

// The same for the root of a program.
fn root_pause(alloc: Global, program: &Program, setup: Setup, budget: u32) -> Option<Pause> {
    match root_of(alloc, program, setup) {
        Some(mut part) => pause(&mut part, program, budget),
        None => None,
    }
}

/// The same for the root of a text.
pub fn pause_of(alloc: Global, text: &str, setup: Setup, budget: u32) -> Option<Pause> {
    match program_of(alloc, text) {
        Some(program) => root_pause(alloc, &program, setup, budget),
        None => None,
    }
}
