// Registers of a frame.

ghost use Rattle.std.specs.Prelude.{◌≡◌, ◌<◌, ◌+◌, ◌^◌};
ghost use Rattle.hh_model.specs.Effect.{int_in, ref_in, with_int, with_ref, onward};
ghost use Rattle.hh_model.specs.Names.{words_asked};
ghost use Rattle.hh_model.specs.Step.{entry_frame, result_of};

use crate::arithmetic::field_counts;
use crate::data::{Frame, Name};
use hh_lang::{Instr, IntReg, RefReg};

impl Frame {
    /// What a number register holds.
    pub fn int(&self, register: IntReg) -> i64
        ensures { result ≡ int_in self.now register }
    {
        self.ints[register.index()]
    }

    pub fn set_int(&mut self, register: IntReg, value: i64)
        ensures { self.new ≡ with_int self.old register value }
    {
        self.ints[register.index()] = value;
    }

    /// What a reference register holds; None is nil.
    pub fn reference(&self, register: RefReg) -> Option<Name>
        ensures { result ≡ ref_in self.now register }
    {
        self.refs[register.index()]
    }

    pub fn set_reference(&mut self, register: RefReg, value: Option<Name>)
        ensures { self.new ≡ with_ref self.old register value }
    {
        self.refs[register.index()] = value;
    }

    /// The words that an instruction allocates, if it allocates: two for the header and the name, and one for each
    /// field.
    pub fn asked(&self, field_limit: u32, instr: Instr) -> Option<usize>
        ensures { result ≡ words_asked field_limit self.now instr }
    {
        match instr {
            Instr::Newm(_, refs, ints) => {
                let (refs, ints) = field_counts(field_limit, self.int(refs), self.int(ints))?;
                Some(2 + refs + ints)
            }
            Instr::Pack(_, refs, ints) => Some(2 + refs.count() + ints.count()),
            _ => None,
        }
    }

    /// Goes on with the next instruction.
    pub fn advance(&mut self)
        requires { self.old.next + 1 < 2 ^ 32 }
        ensures { self.new ≡ onward self.old }
    {
        self.next += 1;
    }

    /// The first frame of a function that is called or forked with this frame's registers.
    pub fn entry(self, function: u32) -> Frame
        ensures { result ≡ entry_frame function self }
    {
        let mut frame = self;
        frame.function = function;
        frame.next = 0;
        frame
    }

    /// What it returns: its `i0` and `r0`.
    pub fn result(&self) -> (i64, Option<Name>)
        ensures { result ≡ result_of self.now }
    {
        (self.ints[0], self.refs[0])
    }

    /// Puts what another frame returned into the number register and the reference register of this number.
    pub fn take_result(&mut self, register: usize, handed_back: (i64, Option<Name>))
        requires { register < 16 }
        ensures { self.new ≡ with_ref (with_int self.old register handed_back.0) register handed_back.1 }
    {
        self.ints[register] = handed_back.0;
        self.refs[register] = handed_back.1;
    }
}
