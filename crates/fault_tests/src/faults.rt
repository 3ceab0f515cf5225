// All faults of texts, as they are shown; each cause once, each variant of `operand`, and texts with several. The first
// fault is the one that the reader of programs reports.

use fault_lines::{faults_json, faults_text};
use program_reader::read_program;
use std::alloc::{AllocError, Global};
use text_faults::{Fault, text_faults};
use text_lines::MOST_BYTES;

// A text, and how its faults are shown.
type Case = (&'static str, &'static str);

const OPERANDS: &[Case] = &[
    (
        "fn main\nset i0\nend\n",
        "line 2, column 7: expected a number from -9223372036854775808 to 9223372036854775807\n",
    ),
    (
        "fn main\nset i16 1\nend\n",
        "line 2, column 5: \"i16\": expected an int register i0 to i15\n",
    ),
    (
        "fn main\nmovr r0 i1\nend\n",
        "line 2, column 9: \"i1\": expected a reference register r0 to r15\n",
    ),
    (
        "fn main\nset i0 12x\nend\n",
        "line 2, column 8: \"12x\": expected a number from -9223372036854775808 to 9223372036854775807\n",
    ),
    (
        "fn main\npack r0 17 0\nend\n",
        "line 2, column 9: \"17\": expected a number from 0 to 16\n",
    ),
    (
        "fn main\nret i0\nend\n",
        "line 2, column 5: \"i0\": expected the end of the line\n",
    ),
    (
        "fn main\njmp 9a\nend\n",
        "line 2, column 5: \"9a\": expected a label of this function\n",
    ),
    (
        "fn main\ncall 9a\nend\n",
        "line 2, column 6: \"9a\": expected a function of this text\n",
    ),
    (
        "fn main\nlab a-b\nend\n",
        "line 2, column 5: \"a-b\": expected a name of 1 to 32 letters, digits or _, the first of them no digit\n",
    ),
];

const CAUSES: &[Case] = &[
    ("fn main\nend\n", ""),
    (
        "fn main\nad i0 i0 i0\nend\n",
        "line 2, column 1: \"ad\": expected an instruction, lab or end; did you mean \"add\"?\n",
    ),
    (
        "fn f\nfn main\nend\n",
        "line 2, column 1: \"fn\": expected end before it: a function is open\n",
    ),
    (
        "fn main\nret",
        "line 2, column 1: expected end behind it: a function is open\n",
    ),
    (
        "fn main\nend\nfn main\nend\n",
        "line 3, column 4: \"main\": expected another name: a function has this one on line 1\n",
    ),
    (
        "fn main\nlab a\nlab a\nend\n",
        "line 3, column 5: \"a\": expected another name: a label of this function has this one on line 2\n",
    ),
    (
        "fn main\ncall mian\nend\n",
        "line 2, column 6: \"mian\": expected a function of this text; did you mean \"main\"?\n",
    ),
    (
        "fn main\nlab loop\njmp lop\nend\n",
        "line 3, column 5: \"lop\": expected a label of this function; did you mean \"loop\"?\n",
    ),
    (
        "fn f\nend\n",
        "line 3, column 1: expected a function main in this text\n",
    ),
];

const SEVERAL: &[Case] = &[
    (
        "fun main\nend\n",
        "line 1, column 1: \"fun\": expected fn and a name: no function is open; did you mean \"fn\"?\nline 2, column 1: \"end\": expected fn and a name: no function is open\nline 3, column 1: expected a function main in this text\n",
    ),
    (
        "fn main\nset i0\n\tjmp  on # not there\nbad\nend\nfn f\npar f g\n",
        "line 2, column 7: expected a number from -9223372036854775808 to 9223372036854775807\nline 3, column 7: \"on\": expected a label of this function\nline 4, column 1: \"bad\": expected an instruction, lab or end\nline 7, column 7: \"g\": expected a function of this text\nline 8, column 1: expected end behind it: a function is open\n",
    ),
];

const VALUES: &[Case] = &[
    ("fn main\nend\n", "[]\n"),
    (
        "fn main\nad i0 i0 i0\nret 1\nend\n",
        "[{\"line\":2,\"column\":1,\"word\":\"ad\",\"cause\":\"word\",\"expected\":\"an instruction, lab or end\",\"near\":\"add\"},\n{\"line\":3,\"column\":5,\"word\":\"1\",\"cause\":\"operand\",\"expected\":\"the end of the line\"}]\n",
    ),
];

// Whether the reader of programs reports the first of these faults, or accepts the text if there is none.
fn is_first(alloc: Global, text: &[u8], faults: &[Fault]) -> Result<bool, AllocError> {
    if text.len() > MOST_BYTES {
        return Ok(false);
    }
    match read_program(alloc, text)? {
        Ok(_) => Ok(faults.is_empty()),
        Err(refused) => match faults.first() {
            None => Ok(false),
            Some(fault) => Ok(fault.line == refused.line && fault.wrong.cause() == refused.cause),
        },
    }
}

// Whether a text's faults are shown so.
fn is_shown(alloc: Global, case: Case, json: bool) -> Result<bool, AllocError> {
    let text = case.0.as_bytes();
    if text.len() > MOST_BYTES {
        return Ok(false);
    }
    let faults = text_faults(alloc, text)?;
    let first = is_first(alloc, text, faults.as_slice())?;
    let shown = if json {
        faults_json(alloc, faults.as_slice())?
    } else {
        faults_text(alloc, faults.as_slice())?
    };
    Ok(first && shown.as_slice() == case.1.as_bytes())
}

// The number of rows, from the first on, whose faults are shown so.
fn shown(alloc: Global, cases: &[Case], json: bool) -> usize {
    let mut count = 0;
    for (place, case) in cases.iter().enumerate() {
        match is_shown(alloc, *case, json) {
            Ok(true) => count = place + 1,
            _ => return place,
        }
    }
    count
}

#[test]
fn operands_are_told_apart(rt: HostRuntime) {
    assert_eq!(rt; shown(rt.alloc(), OPERANDS, false), OPERANDS.len());
}

#[test]
fn each_cause_is_shown(rt: HostRuntime) {
    assert_eq!(rt; shown(rt.alloc(), CAUSES, false), CAUSES.len());
}

#[test]
fn all_faults_are_shown(rt: HostRuntime) {
    assert_eq!(rt; shown(rt.alloc(), SEVERAL, false), SEVERAL.len());
}

#[test]
fn faults_are_json(rt: HostRuntime) {
    assert_eq!(rt; shown(rt.alloc(), VALUES, true), VALUES.len());
}
