// Steps that only calculate, one after the other, on the current frame.

ghost use Rattle.std.specs.Prelude.{◌≡◌, ◌≤◌, ◌<◌, ◌+◌, ◌^◌, true, false};
ghost use Rattle.hh_model.specs.Calculations.{calculates_next, is_calculation, Leads, Calculates};

use crate::arithmetic::{calculate, is_same};
use crate::data::Frame;
use hh_lang::{Instr, IntReg, Operator, Program};

impl Frame {
    // Sets a register by an operator and goes on with the next instruction, or leaves the frame unchanged if that
    // divides by 0.
    #[inline(always)]
    fn calc(&mut self, operator: Operator, target: IntReg, left: IntReg, right: IntReg) -> bool
        requires { self.old.next + 1 < 2 ^ 32 }
        ensures only { result ≡ is_calculation self.old (Instr.Calc operator target left right) }
        ensures makes { result ≡ true → Calculates (Instr.Calc operator target left right) self.old self.new }
        ensures stays { result ≡ false → self.new ≡ self.old }
        ensures function { self.new.function ≡ self.old.function }
    {
        match calculate(operator, self.int(left), self.int(right)) {
            Some(value) => {
                self.set_int(target, value);
                self.advance();
                true
            }
            None => false,
        }
    }

    /// Executes an instruction that only calculates, or leaves the frame unchanged.
    #[inline(always)]
    pub(crate) fn calculate(&mut self, instr: Instr) -> bool
        requires { self.old.next + 1 < 2 ^ 32 }
        ensures only { result ≡ is_calculation self.old instr }
        ensures makes { result ≡ true → Calculates instr self.old self.new }
        ensures stays { result ≡ false → self.new ≡ self.old }
        ensures function { self.new.function ≡ self.old.function }
    {
        match instr {
            Instr::Set(target, value) => self.set_int(target, value),
            Instr::Mov(target, source) => self.set_int(target, self.int(source)),
            Instr::Movr(target, source) => self.set_reference(target, self.reference(source)),
            Instr::Nil(target) => self.set_reference(target, None),
            Instr::Calc(operator, target, left, right) => {
                return self.calc(operator, target, left, right);
            }
            Instr::Same(target, left, right) => {
                let same = is_same(self.reference(left), self.reference(right));
                self.set_int(target, if same { 1 } else { 0 });
            }
            Instr::Jmp(to) => {
                self.next = to;
                return true;
            }
            Instr::Jz(tested, to) => {
                if self.int(tested) == 0 {
                    self.next = to;
                    return true;
                }
            }
            _ => return false,
        }
        self.advance();
        true
    }

    /// Calculates as long as the next instruction is a calculation, at most `most` times, and returns how many times.
    pub(crate) fn calculate_on(&mut self, program: &Program, most: u32) -> u32
        ensures most { result ≤ most }
        ensures leads { Leads program.now self.old result self.new }
        ensures all { result < most → calculates_next program.now self.new ≡ false }
    {
        program.form();
        let Some(function) = program.functions().get(self.function as usize) else {
            return 0;
        };
        for done in 0..most {
            let Some(line) = function.code.get(self.next as usize) else {
                return done;
            };
            if !self.calculate(line.instr) {
                return done;
            }
        }
        most
    }
}
