// The words after `heaps`, as the parser of command lines expects them.

ghost use Rattle.std.specs.Prelude.{◌≡◌, IfOk, false};
ghost use Rattle.clap.specs.Words.{app_of, rule_of};
ghost use Rattle.command_line.specs.App.{file};
ghost use Rattle.view_arguments.specs.App.{option, bare_view, heaps_app};

use clap::{Arg, Command};
use command_line::with_argument;
use std::alloc::{AllocError, Global};

// A file's name, optional.
fn file<'w>(alloc: Global) -> Arg<'w>
    ensures rule { rule_of result ≡ file }
    ensures own { result.global ≡ false }
{
    Arg::new(alloc, "FILE")
}

// A text, optional.
fn option<'w>(alloc: Global, name: &'w str) -> Arg<'w>
    ensures rule { rule_of result ≡ option name.entry.now }
    ensures own { result.global ≡ false }
{
    Arg::new(alloc, name).long(name)
}

// The command without its arguments.
fn bare_view<'w>(alloc: Global) -> Command<'w>
    ensures { app_of result ≡ bare_view }
{
    Command::new(alloc, "heaps")
        .no_binary_name(true)
        .disable_help_flag(true)
        .disable_help_subcommand(true)
        .disable_version_flag(true)
}

/// The command with its arguments.
pub(crate) fn heaps_command<'w>(alloc: Global) -> Result<Command<'w>, AllocError>
    ensures { IfOk result (λ c. app_of c ≡ heaps_app) }
{
    let whole = with_argument(Ok(bare_view(alloc)), file(alloc));
    let whole = with_argument(whole, option(alloc, "path"));
    with_argument(whole, option(alloc, "limit"))
}
