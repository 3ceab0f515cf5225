// Programs: functions with their code, in which every index is in range.

ghost use Rattle.std.specs.Prelude.{◌≡◌, ◌↔◌, IsOk, IfOk, IfErr};
ghost use Rattle.hh_lang.specs.Form.{IsProgram, line_at};

use crate::check::is_program;
use crate::instr::Instr;
use plain_vec::Listed;
use std::marker::Model;

/// An instruction, and the number of its line in the text, from 1.
#[derive(Clone, Copy)]
pub struct Line {
    pub instr: Instr,
    pub number: u32,
}

/// A function: its name in ASCII letters, digits and `_`, and its code.
pub struct Fun {
    pub name: Listed<u8>,
    pub code: Listed<Line>,
}

impl Drop for Fun {
    fn drop(self) {
        let Fun { name: _, code: _ } = self;
    }
}

/// A program: all indices are in range, all functions end with a return, and there is a `main`.
pub struct Program {
    functions: Listed<Fun>,
    main: u32,
}

impl Drop for Program {
    fn drop(self) {
        let Program {
            functions: _,
            main: _,
        } = self;
    }
}

impl Model for Program {
    ghost use Rattle.hh_lang.specs.Form.{ProgramText, IsProgram};

    ghost Value = { ProgramText };

    ghost view = { λ p. record { functions = p.functions; main = p.main } };

    ghost invariant = { λ p. IsProgram (record { functions = p.functions; main = p.main }) };
}

impl Program {
    /// The program of these functions, the one of this number being main.
    pub fn new(functions: Listed<Fun>, main: u32) -> Program
        requires { IsProgram (record { functions = functions; main = main }) }
        ensures { result ≡ record { functions = functions; main = main } }
    {
        Program { functions, main }
    }

    /// The program of these functions, the one of this number being main, or the functions back if they don't form one.
    pub fn try_new(functions: Listed<Fun>, main: u32) -> Result<Program, Listed<Fun>>
        ensures exact { IsOk result ↔ IsProgram (record { functions = functions; main = main }) }
        ensures ok { IfOk result (λ p. p ≡ record { functions = functions; main = main }) }
        ensures err { IfErr result (λ back. back ≡ functions) }
    {
        if is_program(functions.as_slice(), main) {
            Ok(Program::new(functions, main))
        } else {
            Err(functions)
        }
    }

    /// The number of the function `main`.
    pub fn main(&self) -> u32
        ensures { result ≡ self.now.main }
    {
        self.main
    }

    pub fn functions(&self) -> &Listed<Fun>
        ensures { result.now ≡ self.now.functions }
    {
        &self.functions
    }

    /// The line at a place of a function's code, if there is such a place.
    pub fn line(&self, function: u32, place: u32) -> Option<Line>
        ensures { result ≡ line_at self.now function place }
    {
        match self.functions.get(function as usize) {
            None => None,
            Some(fun) => fun.code.get(place as usize).copied(),
        }
    }

    /// Facts of its form, for callers that hold a program.
    pub fn form(&self)
        ensures { IsProgram self.now }
    {
        let _ = &self.functions;
    }
}
