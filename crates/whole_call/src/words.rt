// The command-line arguments and the exit status, as the operating system has them.

ghost use Rattle.std.specs.Prelude.{◌≡◌, IfOk, drop};
ghost use Rattle.std.specs.Process.{exit_status};
ghost use Rattle.std.specs.Vec.Iter.{into_iter_items};
ghost use Rattle.whole_call.specs.CallStatus.{code_of_status};

use crate::status::CallStatus;
use std::alloc::{AllocError, Global};
use std::env::Args;
use std::io::ErrorKind;
use std::process::ExitCode;
use std::rt::Env;
use std::{env, io};

// All arguments, in order.
fn gathered(alloc: Global, words: Args) -> Result<Vec<String>, AllocError>
    ensures { IfOk result (λ all. all.items ≡ into_iter_items words) }
{
    let mut all = Vec::new(alloc);
    let mut left = words;
    while let Some(word) = left.next() {
        all.push(word)?;
    }
    Ok(all)
}

// No arguments if one of them isn't UTF-8, since no command has such an argument; otherwise an allocation failed.
fn unread(alloc: Global, error: &io::Error) -> Result<Vec<String>, AllocError> {
    match error.kind() {
        ErrorKind::InvalidData => Ok(Vec::new(alloc)),
        _ => Err(AllocError),
    }
}

/// All command-line arguments, of which the first is the program's name; none if one of them isn't UTF-8, since no
/// command has such an argument.
pub fn words_of_call<R: Env + AllocGlobal>(rt: &R) -> Result<Vec<String>, AllocError> {
    match env::args(rt) {
        Ok(words) => gathered(rt.alloc(), words),
        Err(error) => unread(rt.alloc(), &error),
    }
}

/// The arguments after the program's name.
pub fn words_after_name(words: &[String]) -> &[String]
    ensures { result.now ≡ drop 1 words.now }
{
    match words {
        [] => &[],
        [_, rest @ ..] => rest,
    }
}

/// The exit status of a call.
pub fn exit_code(status: CallStatus) -> ExitCode
    ensures { exit_status result ≡ code_of_status status }
{
    ExitCode::from(status.code())
}
