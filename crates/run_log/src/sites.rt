// The names of a program's lines.

ghost use Rattle.std.specs.Prelude.{◌≡◌, ◌++◌, OnOk};
ghost use Rattle.std.specs.List.{flat_map};
ghost use Rattle.run_log.specs.Sites.{accesses_field, name_line, site_line, function_sites, sites_of};

use hh_lang::{Fun, Instr, Line, Program};
use std::alloc::{AllocError, Global};

fn accesses_field(instr: Instr) -> bool
    ensures { result ≡ accesses_field instr }
{
    match instr {
        Instr::Getr(_, _, _) => true,
        Instr::Geti(_, _, _) => true,
        Instr::Putr(_, _, _) => true,
        Instr::Puti(_, _, _) => true,
        Instr::Cas(_, _, _, _, _) => true,
        _ => false,
    }
}

// Adds the name of a line.
fn add_name(
    alloc: Global,
    text: &mut Vec<u8>,
    function: &[u8],
    number: u32,
) -> Result<(), AllocError>
    ensures { OnOk result (text.new.items ≡ text.old.items ++ name_line function.now number) }
{
    let head = format!(in alloc; "@ {number} ")?;
    let tail = format!(in alloc; ":{number}\n")?;
    text.extend_from_slice(head.as_bytes())?;
    text.extend_from_slice(function)?;
    text.extend_from_slice(tail.as_bytes())
}

// Adds the name of a line if it accesses a field.
fn add_site(
    alloc: Global,
    text: &mut Vec<u8>,
    function: &[u8],
    line: &Line,
) -> Result<(), AllocError>
    ensures { OnOk result (text.new.items ≡ text.old.items ++ site_line function.now line.now) }
{
    if accesses_field(line.instr) {
        add_name(alloc, text, function, line.number)
    } else {
        Ok(())
    }
}

// Adds the names of the lines of a function.
fn add_function(alloc: Global, text: &mut Vec<u8>, function: &Fun) -> Result<(), AllocError>
    ensures { OnOk result (text.new.items ≡ text.old.items ++ function_sites function.now) }
{
    for line in function.code.as_slice() {
        add_site(alloc, text, function.name.as_slice(), line)?;
    }
    Ok(())
}

/// Adds the names of all lines that access a field.
pub(crate) fn add_sites(
    alloc: Global,
    text: &mut Vec<u8>,
    program: &Program,
) -> Result<(), AllocError>
    ensures { OnOk result (text.new.items ≡ text.old.items ++ sites_of program.now) }
{
    for function in program.functions().as_slice() {
        add_function(alloc, text, function)?;
    }
    Ok(())
}
