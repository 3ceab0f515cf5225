// How instructions are read: the line, the name and the operands, a register as its number.

use heap_image::MOST_BYTES;
use hh_lang::{Fun, Instr, IntReg, Operator, Program, RefReg};
use program_reader::read_program;
use std::alloc::Global;

fn name_of(operator: Operator) -> &'static str {
    match operator {
        Operator::Add => "add",
        Operator::Sub => "sub",
        Operator::Mul => "mul",
        Operator::Div => "div",
        Operator::Rem => "rem",
        Operator::Lt => "lt",
        Operator::Eq => "eq",
    }
}

// The number of a register, a number register or a reference register.
fn number(register: IntReg) -> i64 {
    register.index() as i64
}

fn reference(register: RefReg) -> i64 {
    register.index() as i64
}

// An instruction on numbers or on control flow.
fn number_parts(instr: &Instr) -> (&'static str, [i64; 5]) {
    match instr {
        Instr::Set(d, k) => ("set", [number(*d), *k, 0, 0, 0]),
        Instr::Mov(d, a) => ("mov", [number(*d), number(*a), 0, 0, 0]),
        Instr::Calc(op, d, a, b) => {
            let operands = [number(*d), number(*a), number(*b), 0, 0];
            (name_of(*op), operands)
        }
        Instr::Jmp(place) => ("jmp", [*place as i64, 0, 0, 0, 0]),
        Instr::Jz(a, place) => ("jz", [number(*a), *place as i64, 0, 0, 0]),
        Instr::Call(f) => ("call", [*f as i64, 0, 0, 0, 0]),
        Instr::Par(f, g) => ("par", [*f as i64, *g as i64, 0, 0, 0]),
        Instr::Out(a) => ("out", [number(*a), 0, 0, 0, 0]),
        _ => ("ret", [0; 5]),
    }
}

// An instruction on references, or one of the above.
fn reference_parts(instr: &Instr) -> (&'static str, [i64; 5]) {
    match instr {
        Instr::Movr(d, a) => ("movr", [reference(*d), reference(*a), 0, 0, 0]),
        Instr::Nil(d) => ("nil", [reference(*d), 0, 0, 0, 0]),
        Instr::Same(d, a, b) => ("same", [number(*d), reference(*a), reference(*b), 0, 0]),
        Instr::Newm(d, a, b) => ("newm", [reference(*d), number(*a), number(*b), 0, 0]),
        Instr::Pack(d, r, i) => {
            let (references, numbers) = (r.count() as i64, i.count() as i64);
            ("pack", [reference(*d), references, numbers, 0, 0])
        }
        Instr::Freeze(o) => ("freeze", [reference(*o), 0, 0, 0, 0]),
        Instr::Cntr(d, o) => ("cntr", [number(*d), reference(*o), 0, 0, 0]),
        Instr::Cnti(d, o) => ("cnti", [number(*d), reference(*o), 0, 0, 0]),
        _ => number_parts(instr),
    }
}

// An instruction on an object's field, or one of the above.
fn parts(instr: &Instr) -> (&'static str, [i64; 5]) {
    match instr {
        Instr::Getr(d, o, k) => ("getr", [reference(*d), reference(*o), number(*k), 0, 0]),
        Instr::Geti(d, o, k) => ("geti", [number(*d), reference(*o), number(*k), 0, 0]),
        Instr::Putr(o, k, v) => ("putr", [reference(*o), number(*k), reference(*v), 0, 0]),
        Instr::Puti(o, k, v) => ("puti", [reference(*o), number(*k), number(*v), 0, 0]),
        Instr::Cas(d, o, k, e, v) => {
            let (old, new) = (reference(*e), reference(*v));
            ("cas", [number(*d), reference(*o), number(*k), old, new])
        }
        _ => reference_parts(instr),
    }
}

// The line, the name and the operands, followed by zeros.
type Read = (u32, &'static str, [i64; 5]);

// Whether the code of a function is exactly this.
fn is_code(fun: &Fun, expected: &[Read]) -> bool {
    for (line, read) in fun.code.as_slice().iter().zip(expected) {
        let (name, operands) = parts(&line.instr);
        if (line.number, name, operands) != *read {
            return false;
        }
    }
    fun.code.len() == expected.len()
}

// The same for the function of a program; no code if there is no such function.
fn has_code(program: &Program, function: usize, expected: &[Read]) -> bool {
    match program.functions().get(function) {
        Some(fun) => is_code(fun, expected),
        None => expected.is_empty(),
    }
}

// The same, given the program.
fn is_read(alloc: Global, text: &[u8], function: usize, expected: &[Read]) -> bool {
    if text.len() > MOST_BYTES {
        return false;
    }
    match read_program(alloc, text) {
        Ok(Ok(program)) => has_code(&program, function, expected),
        _ => false,
    }
}

const EACH: &[u8] =
    b"# all of them\n\tfn  main # comment\nset i0 -9223372036854775808\nset i15 -0\nset i1 007\n\
mov i1 i2\nadd i3 i4 i5\nsub i6 i7 i8\nmul i9 i10 i11\ndiv i12 i13 i14\nrem i15 i0 i1\nlt i2 i3 i4\neq i5 i6 i7\n\
lab here\njmp there\njz i1 here\ncall g\npar main g\nout i9\n\nlab there\nmovr r1 r2\nnil r15\nsame i1 r2 r3\n\
newm r4 i5 i6\npack r7 16 0\ngetr r1 r2 i3\ngeti i4 r5 i6\nputr r7 i8 r9\nputi r10 i11 i12\ncntr i13 r14\n\
cnti i15 r0\nfreeze r3\ncas i1 r2 i3 r4 r5\nret\r\nend\nfn g\nend";

const EACH_READ: &[Read] = &[
    (3, "set", [0, i64::MIN, 0, 0, 0]),
    (4, "set", [15, 0, 0, 0, 0]),
    (5, "set", [1, 7, 0, 0, 0]),
    (6, "mov", [1, 2, 0, 0, 0]),
    (7, "add", [3, 4, 5, 0, 0]),
    (8, "sub", [6, 7, 8, 0, 0]),
    (9, "mul", [9, 10, 11, 0, 0]),
    (10, "div", [12, 13, 14, 0, 0]),
    (11, "rem", [15, 0, 1, 0, 0]),
    (12, "lt", [2, 3, 4, 0, 0]),
    (13, "eq", [5, 6, 7, 0, 0]),
    (15, "jmp", [16, 0, 0, 0, 0]),
    (16, "jz", [1, 11, 0, 0, 0]),
    (17, "call", [1, 0, 0, 0, 0]),
    (18, "par", [0, 1, 0, 0, 0]),
    (19, "out", [9, 0, 0, 0, 0]),
    (22, "movr", [1, 2, 0, 0, 0]),
    (23, "nil", [15, 0, 0, 0, 0]),
    (24, "same", [1, 2, 3, 0, 0]),
    (25, "newm", [4, 5, 6, 0, 0]),
    (26, "pack", [7, 16, 0, 0, 0]),
    (27, "getr", [1, 2, 3, 0, 0]),
    (28, "geti", [4, 5, 6, 0, 0]),
    (29, "putr", [7, 8, 9, 0, 0]),
    (30, "puti", [10, 11, 12, 0, 0]),
    (31, "cntr", [13, 14, 0, 0, 0]),
    (32, "cnti", [15, 0, 0, 0, 0]),
    (33, "freeze", [3, 0, 0, 0, 0]),
    (34, "cas", [1, 2, 3, 4, 5]),
    (35, "ret", [0; 5]),
    (36, "ret", [0; 5]),
];

#[test]
fn each_instruction(rt: HostRuntime) {
    assert!(rt; is_read(rt.alloc(), EACH, 0, EACH_READ));
}

const DOUBLES: &[u8] =
    b"fn dbl\nadd i0 i0 i0\nret\nend\nfn main\nset i0 0\nset i1 10\npfor dbl\nout i0\npfor dbl\nret\nend";

const MAIN: &[Read] = &[
    (6, "set", [0, 0, 0, 0, 0]),
    (7, "set", [1, 10, 0, 0, 0]),
    (8, "call", [2, 0, 0, 0, 0]),
    (9, "out", [0, 0, 0, 0, 0]),
    (10, "call", [2, 0, 0, 0, 0]),
    (11, "ret", [0; 5]),
    (12, "ret", [0; 5]),
];

const WHOLE: &[Read] = &[
    (8, "lt", [14, 0, 1, 0, 0]),
    (8, "jz", [14, 13, 0, 0, 0]),
    (8, "set", [13, 1, 0, 0, 0]),
    (8, "add", [14, 0, 13, 0, 0]),
    (8, "eq", [14, 14, 1, 0, 0]),
    (8, "jz", [14, 9, 0, 0, 0]),
    (8, "call", [0, 0, 0, 0, 0]),
    (8, "nil", [0, 0, 0, 0, 0]),
    (8, "ret", [0; 5]),
    (8, "par", [3, 4, 0, 0, 0]),
    (8, "add", [0, 0, 1, 0, 0]),
    (8, "nil", [0, 0, 0, 0, 0]),
    (8, "ret", [0; 5]),
    (8, "set", [0, 0, 0, 0, 0]),
    (8, "nil", [0, 0, 0, 0, 0]),
    (8, "ret", [0; 5]),
];

const LEFT: &[Read] = &[
    (8, "set", [13, 2, 0, 0, 0]),
    (8, "sub", [14, 1, 0, 0, 0]),
    (8, "div", [14, 14, 13, 0, 0]),
    (8, "add", [1, 0, 14, 0, 0]),
    (8, "call", [2, 0, 0, 0, 0]),
    (8, "ret", [0; 5]),
];

const RIGHT: &[Read] = &[
    (8, "set", [13, 2, 0, 0, 0]),
    (8, "sub", [14, 1, 0, 0, 0]),
    (8, "div", [14, 14, 13, 0, 0]),
    (8, "add", [0, 0, 14, 0, 0]),
    (8, "call", [2, 0, 0, 0, 0]),
    (8, "ret", [0; 5]),
];

// A loop becomes a call of three functions after the others: the whole, its left half and its right half.
const FUNCTIONS: &[(usize, &[Read])] = &[(1, MAIN), (2, WHOLE), (3, LEFT), (4, RIGHT), (5, &[])];

#[test]
fn functions_of_a_loop(rt: HostRuntime) {
    for (function, expected) in FUNCTIONS {
        assert!(rt;
            is_read(rt.alloc(), DOUBLES, *function, expected),
            "{function}"
        );
    }
}
