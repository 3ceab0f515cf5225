// What a task's next step adds to a scan.

ghost use Rattle.std.specs.Prelude.{◌≡◌};
ghost use Rattle.race_report.specs.Few.{FieldsAreIndexable};
ghost use Rattle.race_report.specs.Sights.{swap_of, said_of, looked_of};

use crate::access::next_access;
use crate::data::{Field, FieldAccess, Sight};
use run_journal::{Instr, MachineState, Name, Program, Strand};

// All prints count as writes to this one field.
const PRINT_FIELD: Field = Field {
    name: Name { task: 0, count: 0 },
    is_number: false,
    index: 0,
};

// An access by `cas`, counted like any other.
fn swap_of(access: Option<FieldAccess>) -> Option<FieldAccess>
    ensures { result ≡ swap_of access }
{
    match access {
        None => None,
        Some(access) => {
            if access.swaps {
                Some(FieldAccess {
                    swaps: false,
                    ..access
                })
            } else {
                None
            }
        }
    }
}

// What the next step of a task prints.
fn said_of(program: &Program, state: &MachineState, t: u32) -> Option<FieldAccess>
    ensures { result ≡ said_of program.now state.now t }
{
    if !state.can_step(t) {
        return None;
    }
    let task = state.tasks.get(t as usize)?;
    let line = program.line(task.top.function, task.top.next)?;
    match line.instr {
        Instr::Out(_) => Some(FieldAccess {
            strand: Strand {
                task: t,
                joins: task.joins,
            },
            line: line.number,
            field: PRINT_FIELD,
            writes: true,
            swaps: false,
        }),
        _ => None,
    }
}

/// What a task's next step adds to a scan.
pub(crate) fn looked_of(
    sight: Sight,
    program: &Program,
    state: &MachineState,
    t: u32,
) -> Option<FieldAccess>
    requires { FieldsAreIndexable state.now.store }
    ensures { result ≡ looked_of sight program.now state.now t }
{
    match sight {
        Sight::Fields => next_access(program, state, t),
        Sight::Swaps => swap_of(next_access(program, state, t)),
        Sight::Prints => said_of(program, state, t),
    }
}
