// All faults of a text.

ghost use Rattle.std.specs.Prelude.{◌≡◌, ◌≤◌, ◌++◌, [], length, OnOk, IfOk};
ghost use Rattle.text_lines.specs.Lines.{lines_of, most_bytes};
ghost use Rattle.program_reader.specs.Around.{outline_of};
ghost use Rattle.text_faults.specs.Faults.{walk_of, faults_of, faults_from};

use crate::fault::Fault;
use crate::parsed::parse;
use crate::walk::{BodyLabels, LinesAbove};
use plain_vec::Listed;
use program_reader::{NameTable, Outline};
use std::alloc::{AllocError, Global};
use text_lines::{behind, line_end};

// Before the first line.
fn new_walk<'a>(alloc: Global, outline: Outline<'a>) -> LinesAbove<'a>
    ensures { result ≡ walk_of outline.entry }
{
    LinesAbove {
        inside: false,
        begun: 0,
        orders: 0,
        outline,
        named: NameTable::new(alloc),
        labels: BodyLabels::new(alloc),
    }
}

// Adds the faults of all lines.
fn add_all<'a>(
    alloc: Global,
    walk: &mut LinesAbove<'a>,
    faults: &mut Listed<Fault>,
    text: &'a [u8],
) -> Result<(), AllocError>
    requires sized { length text.now ≤ most_bytes }
    requires start { walk.old ≡ walk_of (outline_of text.now) }
    ensures { OnOk result (faults.new ≡ faults.old ++ faults_of text.now) }
{
    let mut rest = text;
    let mut number: u32 = 1;
    loop {
        let end = line_end(rest);
        let last = end == rest.len();
        let parsed = parse(&rest[..end]);
        walk.add_faults(alloc, faults, number, last, &parsed)?;
        if last {
            return Ok(());
        }
        let below = behind(rest, end);
        walk.pass(alloc, number, &parsed, below)?;
        rest = below;
        number += 1;
    }
}

/// All faults of a text, in the order of its lines; the error is a failed allocation.
///
/// O(length of the text), and at most a hundred comparisons for each unknown name.
pub fn text_faults(alloc: Global, text: &[u8]) -> Result<Listed<Fault>, AllocError>
    requires { length text.now ≤ most_bytes }
    ensures { IfOk result (λ faults. faults ≡ faults_of text.now) }
{
    let mut outline = Outline::new(alloc);
    outline.add_lines(text)?;
    let mut walk = new_walk(alloc, outline);
    let mut faults = Listed::new(alloc);
    add_all(alloc, &mut walk, &mut faults, text)?;
    Ok(faults)
}
