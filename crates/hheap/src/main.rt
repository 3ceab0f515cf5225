// The program `hheap`: answers its arguments in a thread of its own.
#![tactic(auto)]

use command_core::answer_process;
use std::process::ExitCode;
use std::thread::Builder;
use whole_call::{CallStatus, exit_code};

/// The bytes of stack of the thread in which a call is answered, which are reserved before the call begins.
const STACK_SIZE: usize = 1048576;

// Answers the call in a thread whose stack is already reserved; the stack of the first thread grows as it is used.
fn main(rt: HostRuntime) -> ExitCode {
    let thread = Builder::new().stack_size(STACK_SIZE);
    let status = match thread.spawn(&rt, move || answer_process(&rt)) {
        Err(_) => CallStatus::NoMemory,
        Ok(handle) => handle.join(&rt),
    };
    exit_code(status)
}
