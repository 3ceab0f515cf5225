// The command, as the parser of command lines expects it.

ghost use Rattle.std.specs.Prelude.{◌≡◌, IfOk, false};
ghost use Rattle.clap.specs.Words.{App, Rule, Shape, app_of, rule_of, with_rule, with_subcommand};
ghost use Rattle.command_line.specs.Adds.{SubcommandIsShaped};
ghost use Rattle.command_line.specs.App.{app, check, runner, limited, run, replay, model, races, image, make, verify, bare_app, file, number, option, flag, workers, fuel, chunks, leaf, inner};

use clap::builder::ValueParser;
use clap::{Arg, ArgAction, Command};
use program_make::SIZE_LIMIT;
use run_trace::{CHUNK_LIMIT, FUEL_LIMIT, WORDS_LIMIT, WORKER_LIMIT};
use std::alloc::{AllocError, Global};

// A file's name, optional.
fn file<'w>(alloc: Global) -> Arg<'w>
    ensures rule { rule_of result ≡ file }
    ensures own { result.global ≡ false }
{
    Arg::new(alloc, "FILE")
}

// A required number.
fn number<'w>(alloc: Global, id: &'w str, least: u64, most: u64) -> Arg<'w>
    ensures rule { rule_of result ≡ number id.entry.now least most }
    ensures own { result.global ≡ false }
{
    Arg::new(alloc, id)
        .required(true)
        .value_parser(ValueParser::unsigned(least, most))
}

// A number with a default.
fn option<'w>(alloc: Global, name: &'w str, least: u64, most: u64, default: &'w str) -> Arg<'w>
    ensures rule { rule_of result ≡ option name.entry.now least most default.entry.now }
    ensures own { result.global ≡ false }
{
    Arg::new(alloc, name)
        .long(name)
        .value_parser(ValueParser::unsigned(least, most))
        .default_value(default)
}

// The number of workers.
fn workers<'w>(alloc: Global) -> Arg<'w>
    ensures rule { rule_of result ≡ workers }
    ensures own { result.global ≡ false }
{
    option(alloc, "workers", 1, WORKER_LIMIT as u64, "1")
}

// The most steps.
fn fuel<'w>(alloc: Global) -> Arg<'w>
    ensures rule { rule_of result ≡ fuel }
    ensures own { result.global ≡ false }
{
    option(alloc, "fuel", 1, FUEL_LIMIT, "1000000")
}

// The most chunks.
fn chunks<'w>(alloc: Global) -> Arg<'w>
    ensures rule { rule_of result ≡ chunks }
    ensures own { result.global ≡ false }
{
    option(alloc, "chunks", 2, CHUNK_LIMIT as u64, "4096")
}

// The words from which on a leaf collection is due.
fn leaf<'w>(alloc: Global) -> Arg<'w>
    ensures rule { rule_of result ≡ leaf }
    ensures own { result.global ≡ false }
{
    option(alloc, "leaf", 16, WORDS_LIMIT as u64, "4096")
}

// The words from which on an inner collection is due.
fn inner<'w>(alloc: Global) -> Arg<'w>
    ensures rule { rule_of result ≡ inner }
    ensures own { result.global ≡ false }
{
    option(alloc, "inner", 16, WORDS_LIMIT as u64, "8192")
}

// A flag.
fn flag<'w>(alloc: Global, name: &'w str) -> Arg<'w>
    ensures rule { rule_of result ≡ flag name.entry.now }
    ensures own { result.global ≡ false }
{
    Arg::new(alloc, name).long(name).action(ArgAction::SetTrue)
}

/// Adds an argument to a command, if it was made.
pub fn with_argument<'w>(
    whole: Result<Command<'w>, AllocError>,
    argument: Arg<'w>,
) -> Result<Command<'w>, AllocError>
    requires { argument.global ≡ false }
    ensures { (a : App) (r : Rule) → IfOk whole.entry (λ c. app_of c ≡ a) → rule_of argument.entry ≡ r → IfOk result (λ c. app_of c ≡ with_rule a r) }
{
    whole?.arg(argument)
}

fn check<'w>(alloc: Global) -> Result<Command<'w>, AllocError>
    ensures { IfOk result (SubcommandIsShaped check) }
{
    Command::new(alloc, "check").arg(file(alloc))
}

// A command that runs a program.
fn runner<'w>(alloc: Global, name: &'w str) -> Result<Command<'w>, AllocError>
    ensures { IfOk result (SubcommandIsShaped (runner name.entry.now)) }
{
    let whole = with_argument(Ok(Command::new(alloc, name)), file(alloc));
    let whole = with_argument(whole, workers(alloc));
    let whole = with_argument(whole, fuel(alloc));
    let whole = with_argument(whole, chunks(alloc));
    let whole = with_argument(whole, leaf(alloc));
    let whole = with_argument(whole, inner(alloc));
    let whole = with_argument(whole, flag(alloc, "report"));
    with_argument(whole, flag(alloc, "trace"))
}

fn run<'w>(alloc: Global) -> Result<Command<'w>, AllocError>
    ensures { IfOk result (SubcommandIsShaped run) }
{
    runner(alloc, "run")
}

fn replay<'w>(alloc: Global) -> Result<Command<'w>, AllocError>
    ensures { IfOk result (SubcommandIsShaped replay) }
{
    runner(alloc, "replay")
}

fn model<'w>(alloc: Global) -> Result<Command<'w>, AllocError>
    ensures { IfOk result (SubcommandIsShaped model) }
{
    runner(alloc, "model")
}

// A command that reads a program with its trace, and only has limits.
fn limited<'w>(alloc: Global, name: &'w str) -> Result<Command<'w>, AllocError>
    ensures { IfOk result (SubcommandIsShaped (limited name.entry.now)) }
{
    let whole = with_argument(Ok(Command::new(alloc, name)), file(alloc));
    let whole = with_argument(whole, workers(alloc));
    let whole = with_argument(whole, fuel(alloc));
    let whole = with_argument(whole, chunks(alloc));
    let whole = with_argument(whole, leaf(alloc));
    with_argument(whole, inner(alloc))
}

fn races<'w>(alloc: Global) -> Result<Command<'w>, AllocError>
    ensures { IfOk result (SubcommandIsShaped races) }
{
    limited(alloc, "races")
}

fn image<'w>(alloc: Global) -> Result<Command<'w>, AllocError>
    ensures { IfOk result (SubcommandIsShaped image) }
{
    limited(alloc, "image")
}

fn make<'w>(alloc: Global) -> Result<Command<'w>, AllocError>
    ensures { IfOk result (SubcommandIsShaped make) }
{
    let whole = with_argument(
        Ok(Command::new(alloc, "make")),
        number(alloc, "SEED", 0, 4_294_967_295),
    );
    let whole = with_argument(whole, number(alloc, "SIZE", 1, SIZE_LIMIT as u64));
    with_argument(whole, flag(alloc, "run"))
}

fn verify<'w>(alloc: Global) -> Result<Command<'w>, AllocError>
    ensures { IfOk result (SubcommandIsShaped verify) }
{
    Command::new(alloc, "verify").arg(file(alloc))
}

// The command without its subcommands.
fn bare_app<'w>(alloc: Global) -> Command<'w>
    ensures { app_of result ≡ bare_app }
{
    Command::new(alloc, "hheap")
        .no_binary_name(true)
        .disable_help_flag(true)
        .disable_help_subcommand(true)
        .disable_version_flag(true)
        .subcommand_required(true)
}

// Adds a subcommand to a command, if both were made.
fn with_command<'w>(
    whole: Result<Command<'w>, AllocError>,
    part: Result<Command<'w>, AllocError>,
) -> Result<Command<'w>, AllocError>
    ensures { (a : App) (s : Shape) → IfOk whole.entry (λ c. app_of c ≡ a) → IfOk part.entry (SubcommandIsShaped s) → IfOk result (λ c. app_of c ≡ with_subcommand a s) }
{
    whole?.subcommand(part?)
}

/// The command with its subcommands.
pub(crate) fn command<'w>(alloc: Global) -> Result<Command<'w>, AllocError>
    ensures { IfOk result (λ c. app_of c ≡ app) }
{
    let whole = with_command(Ok(bare_app(alloc)), check(alloc));
    let whole = with_command(whole, run(alloc));
    let whole = with_command(whole, replay(alloc));
    let whole = with_command(whole, model(alloc));
    let whole = with_command(whole, races(alloc));
    let whole = with_command(whole, image(alloc));
    let whole = with_command(whole, make(alloc));
    with_command(whole, verify(alloc))
}
