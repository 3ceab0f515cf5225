// What tasks hold: the roots from which their objects are reached.

ghost use Rattle.std.specs.Prelude.{◌≡◌, ◌∷◌, [], IfOk, OnOk};
ghost use Rattle.hh_model.specs.Names.{names_of_references, registers, task_names};
ghost use Rattle.run_ledger.specs.Reachable.{holds_name};
ghost use Rattle.run_deltas.specs.Roots.{with_root, with_roots, roots};

use hh_model::{Frame, Name, Task, TaskStatus};
use plain_vec::Listed;
use std::alloc::{AllocError, Global};

// Whether a name is among some.
fn holds_name(names: &[Name], name: Name) -> bool
    ensures { result ≡ holds_name names.now name }
{
    names.iter().any(|held| *held == name)
}

// Adds a name, unless it is there.
fn add_root(found: &mut Listed<Name>, name: Name) -> Result<(), AllocError>
    ensures { OnOk result (found.new ≡ with_root found.old name) }
{
    if holds_name(found.as_slice(), name) {
        return Ok(());
    }
    found.push(name)
}

// Adds the name in a reference, unless it is nil.
fn add_reference(found: &mut Listed<Name>, reference: Option<Name>) -> Result<(), AllocError>
    ensures { OnOk result (found.new ≡ with_roots found.old (names_of_references (reference ∷ []))) }
{
    match reference {
        None => Ok(()),
        Some(name) => add_root(found, name),
    }
}

// Adds the names in some references.
fn add_references(found: &mut Listed<Name>, refs: &[Option<Name>]) -> Result<(), AllocError>
    ensures { OnOk result (found.new ≡ with_roots found.old (names_of_references refs.now)) }
{
    for reference in refs {
        add_reference(found, *reference)?;
    }
    Ok(())
}

// Adds what the registers of some frames hold.
fn add_frames(found: &mut Listed<Name>, frames: &[Frame]) -> Result<(), AllocError>
    ensures { OnOk result (found.new ≡ with_roots found.old (registers frames.now)) }
{
    for frame in frames {
        add_references(found, &frame.refs)?;
    }
    Ok(())
}

// Adds what the registers of a task's frames hold.
fn add_registers(found: &mut Listed<Name>, task: &Task) -> Result<(), AllocError>
    ensures { OnOk result (found.new ≡ with_roots found.old (registers (task.now.top ∷ task.now.below))) }
{
    add_references(found, &task.top.refs)?;
    add_frames(found, task.below.as_slice())
}

// Adds what a task holds.
fn add_held(found: &mut Listed<Name>, task: &Task) -> Result<(), AllocError>
    ensures { OnOk result (found.new ≡ with_roots found.old (task_names task.now)) }
{
    match task.status {
        TaskStatus::Running => add_registers(found, task),
        TaskStatus::Waiting => add_registers(found, task),
        TaskStatus::Ended(_, result) => add_reference(found, result),
        TaskStatus::Joined => Ok(()),
    }
}

/// What a task holds, each name once.
pub(crate) fn roots(alloc: Global, task: &Task) -> Result<Listed<Name>, AllocError>
    ensures { IfOk result (λ names. names ≡ roots task.now) }
{
    let mut found = Listed::new(alloc);
    add_held(&mut found, task)?;
    Ok(found)
}
