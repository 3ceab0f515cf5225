// Programs of the register language: registers, instructions, functions and their numbers.
#![tactic(auto)]

mod check;
mod instr;
mod limits;
mod number;
mod program;

pub use check::is_program;
pub use instr::{FieldCount, Instr, IntReg, Operator, RefReg};
pub use limits::{DEPTH_LIMIT, FRAME_LIMIT, MOST_FIELDS, PROGRAM_LIMIT};
pub use number::{read_i64, read_u32};
pub use plain_vec::Listed;
pub use program::{Fun, Line, Program};
