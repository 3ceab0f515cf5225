// The lines of a function.

ghost use Rattle.std.specs.Prelude.{◌≡◌, ◌++◌, ◌<◌, OnOk};
ghost use Rattle.program_make.specs.Text.{numbered, first_lines, par_line, children_lines, children_of, last_lines, side, size_limit};

use std::alloc::{AllocError, Global};

// Adds a line that ends with a number.
fn add_numbered(
    alloc: Global,
    bytes: &mut Vec<u8>,
    words: &[u8],
    number: u32,
) -> Result<(), AllocError>
    ensures { OnOk result (bytes.new.items ≡ bytes.old.items ++ numbered words.now number) }
{
    bytes.extend_from_slice(words)?;
    let line = format!(in alloc; "{number}\n")?;
    bytes.extend_from_slice(line.as_bytes())
}

/// The lines up to the function's amount.
pub(crate) fn add_first_lines(
    alloc: Global,
    bytes: &mut Vec<u8>,
    number: u32,
    amount: u32,
) -> Result<(), AllocError>
    ensures { OnOk result (bytes.new.items ≡ bytes.old.items ++ first_lines number amount) }
{
    add_numbered(alloc, bytes, b"fn f", number)?;
    bytes.extend_from_slice(b"movr r3 r0\nset i2 2\nset i3 0\nnewm r0 i2 i3\nmovr r2 r0\n")?;
    add_numbered(alloc, bytes, b"set i5 ", amount)
}

fn add_par_line(alloc: Global, bytes: &mut Vec<u8>, left: u32, right: u32) -> Result<(), AllocError>
    ensures { OnOk result (bytes.new.items ≡ bytes.old.items ++ par_line left right) }
{
    let line = format!(in alloc; "par f{left} f{right}\n")?;
    bytes.extend_from_slice(line.as_bytes())
}

fn add_children_lines(
    alloc: Global,
    bytes: &mut Vec<u8>,
    left: u32,
    right: u32,
) -> Result<(), AllocError>
    ensures { OnOk result (bytes.new.items ≡ bytes.old.items ++ children_lines left right) }
{
    add_par_line(alloc, bytes, left, right)?;
    bytes.extend_from_slice(
        b"set i4 0\ngetr r4 r2 i4\ngeti i6 r4 i4\nadd i5 i5 i6\nset i4 1\ngetr r4 r2 i4\nset i4 0\ngeti i6 r4 i4\nadd i5 i5 i6\n",
    )
}

/// The lines on the children, if the function has any.
pub(crate) fn add_children(
    alloc: Global,
    bytes: &mut Vec<u8>,
    size: u32,
    number: u32,
) -> Result<(), AllocError>
    requires { number < size_limit }
    ensures { OnOk result (bytes.new.items ≡ bytes.old.items ++ children_of size number) }
{
    if 2 * number + 2 < size {
        add_children_lines(alloc, bytes, 2 * number + 1, 2 * number + 2)
    } else {
        Ok(())
    }
}

/// The function's field in its parent's cell.
pub(crate) fn side_of(number: u32) -> u32
    ensures { result ≡ side number }
{
    if number == 0 {
        0
    } else if number % 2 == 0 {
        1
    } else {
        0
    }
}

/// The lines from the loop to the end of the function.
pub(crate) fn add_last_lines(
    alloc: Global,
    bytes: &mut Vec<u8>,
    size: u32,
    times: u32,
    side: u32,
) -> Result<(), AllocError>
    ensures { OnOk result (bytes.new.items ≡ bytes.old.items ++ last_lines size times side) }
{
    bytes.extend_from_slice(b"set i2 0\n")?;
    add_numbered(alloc, bytes, b"set i3 ", size)?;
    add_numbered(alloc, bytes, b"set i7 ", times)?;
    bytes.extend_from_slice(
        b"set i8 1\nlab a\nnewm r5 i2 i3\nputi r5 i2 i7\nsub i7 i7 i8\njz i7 b\njmp a\nlab b\n",
    )?;
    add_numbered(alloc, bytes, b"set i4 ", side)?;
    bytes.extend_from_slice(
        b"putr r3 i4 r5\nset i3 1\nnewm r6 i2 i3\nputi r6 i2 i5\nputr r3 i4 r6\ngetr r7 r3 i4\ngeti i0 r7 i2\nnil r0\nret\nend\n",
    )
}
