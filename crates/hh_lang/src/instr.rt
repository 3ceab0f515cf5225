// Registers and instructions.

ghost use Rattle.std.specs.Prelude.{◌≡◌, ◌<◌, ◌≤◌};

use std::marker::Model;

/// A number register, `i0` to `i15`.
#[derive(Clone, Copy)]
pub struct IntReg {
    index: u8,
}

impl Model for IntReg {
    ghost use Rattle.std.specs.Prelude.{ℕ, ◌<◌};

    ghost Value = { ℕ };

    ghost view = { λ r. r.index };

    ghost invariant = { λ r. r.index < 16 };

    ghost inverse = { λ n. record { index = n } };
}

/// A reference register, `r0` to `r15`.
#[derive(Clone, Copy)]
pub struct RefReg {
    index: u8,
}

impl Model for RefReg {
    ghost use Rattle.std.specs.Prelude.{ℕ, ◌<◌};

    ghost Value = { ℕ };

    ghost view = { λ r. r.index };

    ghost invariant = { λ r. r.index < 16 };

    ghost inverse = { λ n. record { index = n } };
}

/// How many registers of one kind a `pack` takes, the first ones: 0 to 16.
#[derive(Clone, Copy)]
pub struct FieldCount {
    count: u8,
}

impl Model for FieldCount {
    ghost use Rattle.std.specs.Prelude.{ℕ, ◌≤◌};

    ghost Value = { ℕ };

    ghost view = { λ c. c.count };

    ghost invariant = { λ c. c.count ≤ 16 };

    ghost inverse = { λ n. record { count = n } };
}

impl IntReg {
    pub fn new(index: u8) -> IntReg
        requires { index < 16 }
        ensures { result ≡ index }
    {
        IntReg { index }
    }

    /// Its number, 0 to 15.
    pub fn index(self) -> usize
        ensures value { result ≡ self }
        ensures below { result < 16 }
    {
        self.index as usize
    }
}

impl RefReg {
    pub fn new(index: u8) -> RefReg
        requires { index < 16 }
        ensures { result ≡ index }
    {
        RefReg { index }
    }

    /// Its number, 0 to 15.
    pub fn index(self) -> usize
        ensures value { result ≡ self }
        ensures below { result < 16 }
    {
        self.index as usize
    }
}

impl FieldCount {
    pub fn new(count: u8) -> FieldCount
        requires { count ≤ 16 }
        ensures { result ≡ count }
    {
        FieldCount { count }
    }

    pub fn count(self) -> usize
        ensures value { result ≡ self }
        ensures within { result ≤ 16 }
    {
        self.count as usize
    }
}

/// An operator on two numbers.
#[derive(Clone, Copy)]
pub enum Operator {
    Add,
    Sub,
    Mul,
    Div,
    Rem,
    Lt,
    Eq,
}

/// An instruction. The target register comes first; places in the code and functions are numbers from 0 on.
#[derive(Clone, Copy)]
pub enum Instr {
    Set(IntReg, i64),
    Mov(IntReg, IntReg),
    Movr(RefReg, RefReg),
    Nil(RefReg),
    Calc(Operator, IntReg, IntReg, IntReg),
    Same(IntReg, RefReg, RefReg),
    /// The place in the function's code to go on at.
    Jmp(u32),
    /// The register that is tested for 0, and the place.
    Jz(IntReg, u32),
    /// The registers with the counts of references and of numbers.
    Newm(RefReg, IntReg, IntReg),
    /// How many reference registers and number registers are copied.
    Pack(RefReg, FieldCount, FieldCount),
    /// The object's register and the register with the field's index; likewise for the next three.
    Getr(RefReg, RefReg, IntReg),
    Geti(IntReg, RefReg, IntReg),
    Putr(RefReg, IntReg, RefReg),
    Puti(RefReg, IntReg, IntReg),
    Cntr(IntReg, RefReg),
    Cnti(IntReg, RefReg),
    Freeze(RefReg),
    /// The object, the index, the expected reference and the new one.
    Cas(IntReg, RefReg, IntReg, RefReg, RefReg),
    Call(u32),
    /// The left child's function, and the right child's.
    Par(u32, u32),
    Ret,
    Out(IntReg),
}
