// Command lines, valid or not, and what they ask for.

use command_line::{CommandLine, FileName, Options, read_command_line};
use heap_image::Settings;
use std::alloc::{AllocError, Global};

// What a command line asks for: the command, its file, its numbers and its flags.
type Meaning = (&'static str, Option<&'static str>, [u64; 5], [bool; 2]);

// The numbers and flags of a command if no word changes them, or if it has none.
const USUAL: [u64; 5] = [1, 1000000, 4096, 4096, 8192];

const NONE: [u64; 5] = [0; 5];

const OFF: [bool; 2] = [false; 2];

// Words, separated by bars, and what they ask for. The numbers are the workers, the steps, the chunks, and the words of
// a leaf and of an inner heap; or the seed and the size. The flags are those for a report and for a trace; or for a
// run. Zeros and `false` stand for what a command doesn't have.
const TAKEN: &[(&str, Meaning)] = &[
    ("check", ("check", None, NONE, OFF)),
    ("check|a.hh", ("check", Some("a.hh"), NONE, OFF)),
    ("check|help", ("check", Some("help"), NONE, OFF)),
    (
        "check|--|--workers",
        ("check", Some("--workers"), NONE, OFF),
    ),
    ("run", ("run", None, USUAL, OFF)),
    ("run|", ("run", Some(""), USUAL, OFF)),
    ("run|-", ("run", Some("-"), USUAL, OFF)),
    (
        "run|--workers|4|--report",
        ("run", None, [4, 1000000, 4096, 4096, 8192], [true, false]),
    ),
    (
        "replay|a.hh|--leaf=16",
        ("replay", Some("a.hh"), [1, 1000000, 4096, 16, 8192], OFF),
    ),
    ("make|1|1", ("make", None, [1, 1, 0, 0, 0], OFF)),
    ("make|0|1000", ("make", None, [0, 1000, 0, 0, 0], OFF)),
    (
        "make|4294967295|+007",
        ("make", None, [4294967295, 7, 0, 0, 0], OFF),
    ),
    (
        "make|1|1|--run",
        ("make", None, [1, 1, 0, 0, 0], [true, false]),
    ),
    (
        "make|--run|1|1",
        ("make", None, [1, 1, 0, 0, 0], [true, false]),
    ),
    ("model", ("model", None, USUAL, OFF)),
    (
        "model|a.hh|--report",
        ("model", Some("a.hh"), USUAL, [true, false]),
    ),
    (
        "model|--trace|a.hh",
        ("model", Some("a.hh"), USUAL, [false, true]),
    ),
    (
        "model|--workers=1|--fuel=1|--chunks=2|--leaf=16|--inner=16",
        ("model", None, [1, 1, 2, 16, 16], OFF),
    ),
    (
        "model|--workers|64|--fuel|1000000000|--chunks|65536|--leaf|1000000|--inner|1000000",
        (
            "model",
            None,
            [64, 1000000000, 65536, 1000000, 1000000],
            OFF,
        ),
    ),
    (
        "model|--workers|2|p|--leaf|32|--report|--trace",
        (
            "model",
            Some("p"),
            [2, 1000000, 4096, 32, 8192],
            [true, true],
        ),
    ),
    (
        "model|--inner|64",
        ("model", None, [1, 1000000, 4096, 4096, 64], OFF),
    ),
    (
        "model|--fuel|5",
        ("model", None, [1, 5, 4096, 4096, 8192], OFF),
    ),
    (
        "model|--chunks|3",
        ("model", None, [1, 1000000, 3, 4096, 8192], OFF),
    ),
    (
        "model|--workers|+5",
        ("model", None, [5, 1000000, 4096, 4096, 8192], OFF),
    ),
    (
        "model|--workers|007",
        ("model", None, [7, 1000000, 4096, 4096, 8192], OFF),
    ),
    ("model|--", ("model", None, USUAL, OFF)),
    ("model|--|--report", ("model", Some("--report"), USUAL, OFF)),
    ("model|--workers|1|", ("model", Some(""), USUAL, OFF)),
    ("races", ("races", None, USUAL, OFF)),
    (
        "races|--workers|2|p|--inner=16",
        ("races", Some("p"), [2, 1000000, 4096, 4096, 16], OFF),
    ),
    ("image", ("image", None, USUAL, OFF)),
    (
        "image|p|--leaf=16|--workers|2",
        ("image", Some("p"), [2, 1000000, 4096, 16, 8192], OFF),
    ),
    ("verify", ("verify", None, NONE, OFF)),
    ("verify|a.image", ("verify", Some("a.image"), NONE, OFF)),
];

// Words that are no command line.
const REFUSED: &[&str] = &[
    "",
    "walk",
    "help",
    "--help",
    "-h",
    "--version",
    "-V",
    "check|--help",
    "check|-h",
    "model|-V",
    "help|check",
    "Check",
    "chec",
    "check|a|b",
    "check|--report",
    "run|--workers|65",
    "run|--fuel|0",
    "--|check",
    "--report|model",
    "make",
    "make|1",
    "make|1|1|1",
    "make|1|0",
    "make|1|1001",
    "make|4294967296|1",
    "make|-1|1",
    "make|x|1",
    "make||1",
    "make|1|1|--report",
    "make|1|1|--run|--run",
    "replay|--workers|0",
    "run|--run",
    "model|--workers|0",
    "model|--workers|65",
    "model|--fuel|0",
    "model|--fuel|1000000001",
    "model|--chunks|1",
    "model|--chunks|65537",
    "model|--leaf|15",
    "model|--leaf|1000001",
    "model|--inner|15",
    "model|--inner|1000001",
    "model|--workers|-1",
    "model|--workers",
    "model|--workers|1|--workers|1",
    "model|--report|--report",
    "model|--report=true",
    "model|--rep",
    "model|-w|1",
    "races|--report",
    "races|--workers|65",
    "image|--trace",
    "image|a|b",
    "verify|a|b",
    "verify|--trace",
];

fn name<'w>(file: &Option<FileName<'w>>) -> Option<&'w str> {
    match file {
        Some(name) => Some(name.as_str()),
        None => None,
    }
}

fn limits(settings: Settings) -> [u64; 5] {
    [
        u64::from(settings.workers()),
        settings.fuel(),
        u64::from(settings.chunks()),
        u64::from(settings.leaf()),
        u64::from(settings.inner()),
    ]
}

fn switches(options: Options) -> [bool; 2] {
    [options.report, options.trace]
}

// The name of a command, and its file.
fn named<'w>(line: &CommandLine<'w>) -> (&'static str, Option<&'w str>) {
    match line {
        CommandLine::Check { file } => ("check", name(file)),
        CommandLine::Run { file, .. } => ("run", name(file)),
        CommandLine::Replay { file, .. } => ("replay", name(file)),
        CommandLine::Model { file, .. } => ("model", name(file)),
        CommandLine::Races { file, .. } => ("races", name(file)),
        CommandLine::Image { file, .. } => ("image", name(file)),
        CommandLine::Make { .. } => ("make", None),
        CommandLine::Verify { file } => ("verify", name(file)),
    }
}

// The numbers and the flags of a command.
fn values(line: &CommandLine) -> ([u64; 5], [bool; 2]) {
    match line {
        CommandLine::Run { options, .. }
        | CommandLine::Replay { options, .. }
        | CommandLine::Model { options, .. } => (limits(options.settings), switches(*options)),
        CommandLine::Races { settings, .. } | CommandLine::Image { settings, .. } => {
            (limits(*settings), OFF)
        }
        CommandLine::Make { seed, size, run } => {
            ([u64::from(*seed), u64::from(*size), 0, 0, 0], [*run, false])
        }
        _ => (NONE, OFF),
    }
}

fn means(line: &CommandLine, meaning: &Meaning) -> bool {
    let (command, file, numbers, switches) = meaning;
    named(line) == (*command, *file) && values(line) == (*numbers, *switches)
}

fn is_taken(alloc: Global, words: &[String], meaning: &Meaning) -> bool {
    match read_command_line(alloc, words) {
        Ok(Some(line)) => means(&line, meaning),
        _ => false,
    }
}

fn is_refused(alloc: Global, words: &[String]) -> bool {
    match read_command_line(alloc, words) {
        Ok(line) => line.is_none(),
        Err(_) => false,
    }
}

// Adds a word; returns whether that succeeded.
fn add_word(alloc: Global, words: &mut Vec<String>, word: &str) -> bool {
    match String::from_str(alloc, word) {
        Ok(word) => words.push(word).is_ok(),
        Err(_) => false,
    }
}

// The words between the bars.
fn words_of(alloc: Global, bars: &str) -> Result<Vec<String>, AllocError> {
    let mut words = Vec::new(alloc);
    for word in bars.split('|') {
        if !add_word(alloc, &mut words, word) {
            return Err(AllocError);
        }
    }
    Ok(words)
}

fn are_taken(alloc: Global, bars: &str, meaning: &Meaning) -> bool {
    match words_of(alloc, bars) {
        Ok(words) => is_taken(alloc, words.as_slice(), meaning),
        Err(_) => false,
    }
}

fn are_refused(alloc: Global, bars: &str) -> bool {
    match words_of(alloc, bars) {
        Ok(words) => is_refused(alloc, words.as_slice()),
        Err(_) => false,
    }
}

#[test]
fn words_that_are_taken(rt: HostRuntime) {
    for (words, meaning) in TAKEN {
        assert!(rt; are_taken(rt.alloc(), words, meaning), "{words}");
    }
}

#[test]
fn words_that_are_refused(rt: HostRuntime) {
    for words in REFUSED {
        assert!(rt; are_refused(rt.alloc(), words), "{words}");
    }
    assert!(rt; is_refused(rt.alloc(), &[]));
}
