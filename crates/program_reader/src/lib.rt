// Reads texts of the register language.
#![tactic(auto)]

// The whole text, why it is refused, and laws.
mod cause;
mod laws;
mod read;
mod reader;

// The meaning of a line.
mod head;
mod operands;
mod plain;
mod sense;

// What has names: functions, loops and labels.
mod labels;
mod loops;
mod names;
mod outline;

pub use cause::{Cause, TextFault};
pub use laws::{first_fault_is_first, loops_are_read};
pub use read::read_program;

// What other crates read of a text by the same rules.
pub use head::{Head, Verb, head_of};
pub use labels::{Labels, read_labels};
pub use names::{NameTable, is_name_word};
pub use operands::{read_field_count, read_int_register, read_ref_register};
pub use outline::note_if;
pub use reader::{FUNCTION_LIMIT, ORDER_LIMIT, begins_function, is_text, open_after};
pub use sense::{Outline, Sense};
