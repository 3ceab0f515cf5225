// The whole text of a made program.

ghost use Rattle.std.specs.Prelude.{◌≡◌, ◌++◌, ◌≤◌, ◌<◌, IfOk, OnOk};
ghost use Rattle.program_make.specs.Draws.{after_three};
ghost use Rattle.program_make.specs.Text.{function_text, first_functions, made_text, size_limit};

use crate::draws::draw;
use crate::text::{add_children, add_first_lines, add_last_lines, side_of};
use std::alloc::{AllocError, Global};

/// The most functions of a made program.
pub const SIZE_LIMIT: u32 = 1000;

// Each function adds less than this.
const AMOUNT_LIMIT: u32 = 1000;

// Draws the numbers of a function and adds its text.
fn add_function(
    alloc: Global,
    bytes: &mut Vec<u8>,
    value: &mut u32,
    size: u32,
    number: u32,
) -> Result<(), AllocError>
    requires { number < size_limit }
    ensures moved { value.new ≡ after_three value.old }
    ensures added { OnOk result (bytes.new.items ≡ bytes.old.items ++ function_text size number value.old) }
{
    let amount = draw(value, AMOUNT_LIMIT);
    let garbage = 1 + draw(value, 60);
    let rounds = 1 + draw(value, 40);
    add_first_lines(alloc, bytes, number, amount)?;
    add_children(alloc, bytes, size, number)?;
    add_last_lines(alloc, bytes, garbage, rounds, side_of(number))
}

// The functions of a program.
fn functions(alloc: Global, seed: u32, size: u32) -> Result<Vec<u8>, AllocError>
    requires { size ≤ size_limit }
    ensures { IfOk result (λ bytes. bytes.items ≡ first_functions seed size size) }
{
    let mut bytes = Vec::new(alloc);
    let mut value = seed;
    for number in 0..size {
        add_function(alloc, &mut bytes, &mut value, size, number)?;
    }
    Ok(bytes)
}

/// The text of the program of `size` functions that is generated from `seed`. Each function with children forks both,
/// and main prints the sum of what they add. Fails if out of memory.
pub fn make(alloc: Global, seed: u32, size: u32) -> Result<Vec<u8>, AllocError>
    requires some { 1 ≤ size }
    requires at_most { size ≤ size_limit }
    ensures { IfOk result (λ bytes. bytes.items ≡ made_text seed size) }
{
    let mut bytes = functions(alloc, seed, size)?;
    bytes.extend_from_slice(
        b"fn main\nset i2 2\nset i3 0\nnewm r0 i2 i3\nmovr r9 r0\ncall f0\nset i4 0\ngetr r4 r9 i4\ngeti i6 r4 i4\nout i6\nret\nend\n",
    )?;
    Ok(bytes)
}
