// A copy of a program.

ghost use Rattle.std.specs.Prelude.{◌≡◌, IfOk};

use refinement_laws::{Fun, Listed, Program};
use std::alloc::{AllocError, Global};

fn copy_function(alloc: Global, function: &Fun) -> Result<Fun, AllocError>
    ensures { IfOk result (λ f. f ≡ function.now) }
{
    let name = function.name.as_slice().to_vec(alloc)?;
    let code = function.code.as_slice().to_vec(alloc)?;
    Ok(Fun {
        name: Listed::from_vec(name),
        code: Listed::from_vec(code),
    })
}

/// A copy of the program.
pub fn copy_program(alloc: Global, program: &Program) -> Result<Program, AllocError>
    ensures { IfOk result (λ p. p ≡ program.now) }
{
    program.form();
    let mut functions = Vec::new(alloc);
    let from = program.functions().as_slice();
    for i in 0..from.len() {
        let function = copy_function(alloc, &from[i])?;
        functions.push(function)?;
    }
    Ok(Program::new(Listed::from_vec(functions), program.main()))
}
