// Texts with their first faults, and code that is a program or not.

use heap_image::MOST_BYTES;
use hh_lang::{Fun, Instr, IntReg, Line, Program, is_program};
use plain_vec::Listed;
use program_reader::read_program;
use std::alloc::{AllocError, Global};

// The line and the cause of a text's first fault; None if it has no fault.
fn fault_of(alloc: Global, text: &[u8]) -> Option<(u32, &'static str)> {
    if text.len() > MOST_BYTES {
        return Some((0, "long"));
    }
    match read_program(alloc, text) {
        Ok(Ok(_)) => None,
        Ok(Err(refused)) => Some((refused.line, refused.cause.text())),
        Err(_) => Some((0, "no memory")),
    }
}

// Texts with their first faults.
const CASES: &[(&[u8], Option<(u32, &str)>)] = &[
    (b"", Some((1, "nomain"))),
    (b"\xff", Some((1, "notutf8"))),
    (b"fn main", Some((1, "noend"))),
    (b"fn main\n", Some((2, "noend"))),
    (b"fn main\nset i16 1\nend", Some((2, "operand"))),
    (
        b"fn main\nset i0 9223372036854775808\nend",
        Some((2, "operand")),
    ),
    (b"fn main\npar main x\nend", Some((2, "noname"))),
    (
        b"fn main\njmp a\nend\nfn g\nlab a\nend",
        Some((2, "nolabel")),
    ),
    (b"fn main\nset i0 7\nout i0\nret\nend\nx", Some((6, "word"))),
    (b"fn main\nend\nfn main\nend", Some((3, "twonames"))),
    (b"fn main\nlab a\nlab b\nlab a\nend", Some((4, "twonames"))),
    (b"fn g\nend\n# \xff\n", Some((3, "notutf8"))),
    (b"fn g\nlab a\nend\n\n", Some((5, "nomain"))),
    (b"fn g\npfor x\nend", Some((2, "noname"))),
    (b"fn main\npack r0 -0 1\nend", Some((2, "operand"))),
    (b"fn main\nset i0 +1\nend", Some((2, "operand"))),
    (b"fn main\nset i01 1\nend", Some((2, "operand"))),
    (b"fn main\njz i0 9\nend", Some((2, "operand"))),
    (b"fn main\nmov i0 i1 i2\nend", Some((2, "operand"))),
    (
        b"fn abcdefghijklmnopqrstuvwxyz0123456\nend",
        Some((1, "operand")),
    ),
    // Which of two causes on a line comes first: bytes before words, words before operands.
    (b"x \xff", Some((1, "notutf8"))),
    (b"set i99", Some((1, "word"))),
    (b"end x", Some((1, "word"))),
    // Operands before an open function, and that before names.
    (b"fn main\nfn 9\nend", Some((2, "operand"))),
    (b"fn main\njmp a b", Some((2, "operand"))),
    (b"fn main\nfn main\nend", Some((2, "noend"))),
    (b"fn main\ncall x", Some((2, "noend"))),
    (b"fn main\nlab a\nlab a", Some((3, "noend"))),
    // A second name before a missing main.
    (b"fn g\nend\nfn g", Some((3, "noend"))),
    // A line `fn NAME` counts whatever other fault it has, and a label's range ends at any `end` or `fn`.
    (b"fn main\ncall g\nend\nfn g # \xff", Some((4, "notutf8"))),
    (b"fn main\njmp a\nend x\nlab a\nend", Some((2, "nolabel"))),
    (b"fn main\njmp a\nfn\nlab a\nend", Some((2, "nolabel"))),
    (b"fn main\njmp a\nlab a # \xff\nend", Some((3, "notutf8"))),
    (b"fn fn\nlab end\njmp end\nend\nfn main\ncall fn\nend", None),
];

#[test]
fn first_faults(rt: HostRuntime) {
    for (text, fault) in CASES {
        assert!(rt; fault_of(rt.alloc(), text) == *fault, "{:?}", text);
    }
}

// An instruction in a table; a register is `i0`.
#[derive(Clone, Copy)]
enum Step {
    Ret,
    Out,
    Jmp(u32),
    Jz(u32),
    Call(u32),
    Par(u32, u32),
}

fn instr_of(step: Step) -> Instr {
    match step {
        Step::Ret => Instr::Ret,
        Step::Out => Instr::Out(IntReg::new(0)),
        Step::Jmp(place) => Instr::Jmp(place),
        Step::Jz(place) => Instr::Jz(IntReg::new(0), place),
        Step::Call(function) => Instr::Call(function),
        Step::Par(left, right) => Instr::Par(left, right),
    }
}

// A list of this code, each instruction with line 1.
fn lines_of(alloc: Global, code: &[Step]) -> Result<Listed<Line>, AllocError> {
    let mut lines = Listed::new(alloc);
    for step in code {
        let line = Line {
            instr: instr_of(*step),
            number: 1,
        };
        if lines.push(line).is_err() {
            return Err(AllocError);
        }
    }
    Ok(lines)
}

// Adds a function with this code.
fn add_function(
    alloc: Global,
    functions: &mut Listed<Fun>,
    name: &[u8],
    code: &[Step],
) -> Result<(), AllocError> {
    let name = Listed::from_vec(name.to_vec(alloc)?);
    let code = lines_of(alloc, code)?;
    functions.push(Fun { name, code })
}

// A function that returns, and one with this code.
fn functions_of(alloc: Global, code: &[Step]) -> Result<Listed<Fun>, AllocError> {
    let mut functions = Listed::new(alloc);
    add_function(alloc, &mut functions, b"other", &[Step::Ret])?;
    add_function(alloc, &mut functions, b"main", code)?;
    Ok(functions)
}

// Whether these functions are a program, and whether a program can be made of them.
fn are_program(alloc: Global, code: &[Step], main: u32) -> Option<(bool, bool)> {
    match functions_of(alloc, code) {
        Ok(functions) => {
            let is = is_program(functions.as_slice(), main);
            Some((is, Program::try_new(functions, main).is_ok()))
        }
        Err(_) => None,
    }
}

// What main does, its code, the number of the function that is main, and whether that is a program.
const CODES: &[(&str, &[Step], u32, bool)] = &[
    ("returns", &[Step::Ret], 1, true),
    ("has another name", &[Step::Ret], 0, false),
    ("isn't there", &[Step::Ret], 2, false),
    ("has no code", &[], 1, false),
    ("runs over its end", &[Step::Out], 1, false),
    ("jumps", &[Step::Jmp(1), Step::Jz(0), Step::Ret], 1, true),
    ("jumps too far", &[Step::Jz(2), Step::Ret], 1, false),
    (
        "calls",
        &[Step::Call(1), Step::Par(0, 1), Step::Ret],
        1,
        true,
    ),
    (
        "calls what isn't there",
        &[Step::Par(2, 1), Step::Ret],
        1,
        false,
    ),
];

#[test]
fn programs_and_others(rt: HostRuntime) {
    for (what, code, main, is) in CODES {
        assert!(rt;
            are_program(rt.alloc(), code, *main) == Some((*is, *is)),
            "{what}"
        );
    }
}
