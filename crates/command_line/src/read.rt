// Reads a command line.

ghost use Rattle.std.specs.Prelude.{◌≡◌, ◌≢◌, IfOk, None, map, is_some, option_and_then, string_bytes};
ghost use Rattle.clap.specs.Words.{found_of, rows_of, fault_of, subcommand_rows_of};
ghost use Rattle.clap.specs.Walk.{is_empty};
ghost use Rattle.command_line.specs.App.{app};
ghost use Rattle.command_line.specs.CommandLine.{HasSize, asked_command, command_line, file_in, flag_in, number_in, settings_in, options_in};
ghost use Rattle.command_line.specs.Values.{FitsCommand, FitsFound, HasFlag, ArgumentIsNumber, HasOptions, HasSettings};

use crate::command::command;
use crate::line::{CommandLine, FileName, Options};
use clap::ArgMatches;
use clap::error::ErrorKind;
use run_trace::{Settings, Version};
use std::alloc::{AllocError, Global};

// The number of an argument.
fn number(matches: &ArgMatches, id: &str) -> u32
    requires { ArgumentIsNumber id.now 0 4294967295 (rows_of (found_of matches.now)) }
    ensures { result ≡ number_in id.now (rows_of (found_of matches.now)) }
{
    matches.get_one::<u32>(id).unwrap_or(0)
}

// Whether a flag is set.
fn flag(matches: &ArgMatches, id: &str) -> bool
    requires { HasFlag id.now (rows_of (found_of matches.now)) }
    ensures { result ≡ flag_in id.now (rows_of (found_of matches.now)) }
{
    matches.get_flag(id)
}

fn file<'w>(matches: &ArgMatches<'w>) -> Option<FileName<'w>>
    ensures { result ≡ file_in (rows_of (found_of matches.now)) }
{
    match matches.get_str("FILE") {
        Some(text) => Some(FileName::new(text)),
        None => None,
    }
}

fn settings(matches: &ArgMatches) -> Settings
    requires { HasSettings (rows_of (found_of matches.now)) }
    ensures { result ≡ settings_in (rows_of (found_of matches.now)) }
{
    Settings::new(
        Version::Two,
        number(matches, "workers"),
        u64::from(number(matches, "fuel")),
        number(matches, "chunks"),
        number(matches, "leaf"),
        number(matches, "inner"),
    )
}

fn options(matches: &ArgMatches) -> Options
    requires { HasOptions (rows_of (found_of matches.now)) }
    ensures { result ≡ options_in (rows_of (found_of matches.now)) }
{
    Options {
        settings: settings(matches),
        report: flag(matches, "report"),
        trace: flag(matches, "trace"),
    }
}

// What a command asks for, by its name.
fn asked_command<'w>(name: &str, matches: &ArgMatches<'w>) -> Option<CommandLine<'w>>
    requires { FitsCommand name.now (rows_of (found_of matches.now)) }
    ensures { result ≡ asked_command name.now (rows_of (found_of matches.now)) }
{
    match name {
        "check" => Some(CommandLine::Check {
            file: file(matches),
        }),
        "run" => Some(CommandLine::Run {
            file: file(matches),
            options: options(matches),
        }),
        "replay" => Some(CommandLine::Replay {
            file: file(matches),
            options: options(matches),
        }),
        "model" => Some(CommandLine::Model {
            file: file(matches),
            options: options(matches),
        }),
        "races" => Some(CommandLine::Races {
            file: file(matches),
            settings: settings(matches),
        }),
        "image" => Some(CommandLine::Image {
            file: file(matches),
            settings: settings(matches),
        }),
        "make" => Some(CommandLine::Make {
            seed: number(matches, "SEED"),
            size: number(matches, "SIZE"),
            run: flag(matches, "run"),
        }),
        "verify" => Some(CommandLine::Verify {
            file: file(matches),
        }),
        _ => None,
    }
}

// What the command that was met asks for.
fn found<'w>(matches: &ArgMatches<'w>) -> Option<CommandLine<'w>>
    requires { FitsFound (subcommand_rows_of matches.now) }
    ensures { result ≡ option_and_then (λ p. asked_command p.0 p.1) (subcommand_rows_of matches.now) }
{
    match matches.subcommand() {
        Some((name, inner)) => asked_command(name, inner),
        None => None,
    }
}

/// The answer if the words ask for nothing, or memory has run out.
pub fn refused<T>(kind: ErrorKind) -> Result<Option<T>, AllocError>
    ensures { IfOk result (λ c. (c ≡ None) × (kind ≢ ErrorKind.OutOfMemory)) }
{
    match kind {
        ErrorKind::OutOfMemory => Err(AllocError),
        _ => Ok(None),
    }
}

/// What the words after the program's name ask for; None if they are no command line.
pub fn read_command_line<'w>(
    alloc: Global,
    words: &'w [String],
) -> Result<Option<CommandLine<'w>>, AllocError>
    ensures meaning { IfOk result (λ c. c ≡ command_line (map string_bytes words.now)) }
    ensures taken { IfOk result (λ c. is_some c ≡ is_empty (fault_of app (map string_bytes words.now))) }
    ensures size { IfOk result HasSize }
{
    match command(alloc)?.try_get_matches_from(words) {
        Ok(matches) => Ok(found(&matches)),
        Err(error) => refused(error.kind()),
    }
}
