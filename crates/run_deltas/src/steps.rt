// What the steps of an entry change.

ghost use Rattle.std.specs.Prelude.{◌≡◌, ◌++◌, OnOk, IfOk};
ghost use Rattle.hh_model.specs.Effect.{object_at};
ghost use Rattle.hh_model.specs.Step.{step};
ghost use Rattle.run_deltas.specs.Steps.{born, swap, changed_by, with_act, unchanged, stepped, changes};

use crate::data::{Change, Changes, Deed, NewObject, StepAct, Value, Write};
use crate::deed::act_of;
use hh_lang::Program;
use hh_model::{Machine, MachineState, Name, Object, StepError};
use plain_vec::Listed;
use std::alloc::{AllocError, Global};

/// A machine takes at most so many steps.
const STEP_LIMIT: u32 = 1 << 30;

// A new object as it is now.
fn birth(alloc: Global, name: Name, object: &Object) -> Result<NewObject, AllocError>
    ensures { IfOk result (λ birth. birth ≡ record { name = name; mutable = object.now.mutable; refs = object.now.refs; ints = object.now.ints }) }
{
    let refs = object.refs.as_slice().to_vec(alloc)?;
    let ints = object.ints.as_slice().to_vec(alloc)?;
    Ok(NewObject {
        name,
        mutable: object.mutable,
        refs: Listed::from_vec(refs),
        ints: Listed::from_vec(ints),
    })
}

// Adds the object that a step makes.
fn add_birth(
    alloc: Global,
    all: &mut Listed<Change>,
    state: &MachineState,
    name: Name,
) -> Result<(), AllocError>
    ensures { OnOk result (all.new ≡ all.old ++ born name (object_at state.now.store name)) }
{
    match state.object(name) {
        None => Ok(()),
        Some(object) => {
            let birth = birth(alloc, name, object)?;
            all.push(Change::New(birth))
        }
    }
}

// Adds the field that a swap writes.
fn add_swap(
    all: &mut Listed<Change>,
    name: Name,
    field: usize,
    new: Option<Name>,
    swapped: bool,
) -> Result<(), AllocError>
    ensures { OnOk result (all.new ≡ all.old ++ swap name field new swapped) }
{
    if !swapped {
        return Ok(());
    }
    all.push(Change::Set(Write {
        name,
        field,
        value: Value::Reference(new),
    }))
}

// Adds what a step changes that led to a state.
fn add_deed(
    alloc: Global,
    all: &mut Listed<Change>,
    state: &MachineState,
    deed: Option<Deed>,
) -> Result<(), AllocError>
    ensures { OnOk result (all.new ≡ all.old ++ changed_by state.now deed) }
{
    match deed {
        Some(Deed::Allocates(name)) => add_birth(alloc, all, state, name),
        Some(Deed::Writes(name, field, value)) => all.push(Change::Set(Write {
            name,
            field,
            value,
        })),
        Some(Deed::Swaps(name, field, new, swapped)) => add_swap(all, name, field, new, swapped),
        Some(Deed::Freezes(name)) => all.push(Change::Froze(name)),
        Some(Deed::Prints(number)) => all.push(Change::Print(number)),
        _ => Ok(()),
    }
}

impl Changes {
    /// What no step changes.
    pub(crate) fn none(alloc: Global) -> Changes
        ensures { result ≡ unchanged }
    {
        Changes {
            last: None,
            all: Listed::new(alloc),
        }
    }

    // Adds a step that led to a state, if there was one.
    fn note(
        &mut self,
        alloc: Global,
        state: &MachineState,
        act: Option<StepAct>,
    ) -> Result<(), AllocError>
        ensures { OnOk result (self.new ≡ with_act state.now self.old act) }
    {
        match act {
            None => Ok(()),
            Some(act) => {
                let deed = act.deed;
                self.last = Some(act);
                add_deed(alloc, &mut self.all, state, deed)
            }
        }
    }
}

/// One step of a task, if it can take one.
pub fn take(machine: &mut Machine, t: u32) -> Result<(), AllocError>
    ensures program { machine.new.program ≡ machine.old.program }
    ensures state { OnOk result (machine.new.state ≡ step machine.old.program machine.old.state t) }
{
    if machine.steps() >= STEP_LIMIT {
        return Err(AllocError);
    }
    match machine.step(t) {
        Ok(()) => Ok(()),
        Err(StepError::Idle) => Ok(()),
        Err(StepError::NoMemory) => Err(AllocError),
    }
}

/// So many steps of a task, and what they change.
pub(crate) fn take_steps(
    alloc: Global,
    program: &Program,
    machine: &mut Machine,
    t: u32,
    count: u32,
) -> Result<Changes, AllocError>
    requires { machine.old.program ≡ program.now }
    ensures program { machine.new.program ≡ machine.old.program }
    ensures state { OnOk result (machine.new.state ≡ stepped program.now machine.old.state t count) }
    ensures changes { IfOk result (λ done. done ≡ changes program.now machine.old.state t count) }
{
    let mut done = Changes::none(alloc);
    for i in 0..count {
        let act = act_of(program, machine.state(), t)?;
        take(machine, t)?;
        done.note(alloc, machine.state(), act)?;
    }
    Ok(done)
}
