// What follows from the contract of the top call.

ghost use Rattle.command_answers.specs.Headline.{RunsHoldTheHeadline};
ghost use Rattle.command_answers.specs.Laws.{ImagesAreVerified, ImagesHaveJustHeld, MadeAreAccepted, MadeAreRead, MadeAreRun, ModelWritesTheSame, NoFaultGivesAll, ProgramsAreRun, RacelessAreDisentangled, RecordedRunsAreAlike, TracesAreReplayed};
ghost use Rattle.command_answers.specs.CommandStatus.{StatusesOfEnds};

/// A command with its input, without a fault: all bytes and the status of its answer, or out of memory.
pub fn no_fault_gives_all()
    ensures { NoFaultGivesAll }
{}

/// `run` with a program, without a fault: the answer of a whole run, or out of memory.
pub fn programs_are_run()
    ensures { ProgramsAreRun }
{}

/// A made text is the text of its program, and within the limit.
pub fn made_are_read()
    ensures { MadeAreRead }
{}

/// `make` with its run, without a fault: the answer of a whole run of the text's program, or out of memory.
pub fn made_are_run()
    ensures { MadeAreRun }
{}

/// `make` never refuses its text, which is a program whatever the seed.
pub fn made_are_accepted()
    ensures { MadeAreAccepted }
{}

/// `replay` and `model` with a program and its trace, without a fault: an end of the run or a refused trace, or out of
/// memory.
pub fn traces_are_replayed()
    ensures { TracesAreReplayed }
{}

/// `verify` verifies what `image` writes of a whole run, unless it is too long.
pub fn images_are_verified()
    ensures { ImagesAreVerified }
{}

/// What `image` writes of a whole run has exactly the objects of heaps at rest, as they are in the machine's store.
pub fn images_have_just_held()
    ensures { ImagesHaveJustHeld }
{}

/// `model` writes what `replay` writes, with its status.
pub fn model_writes_the_same()
    ensures { ModelWritesTheSame }
{}

/// With the same options `replay` and `model` of a program's text followed by the trace of its run write what the run
/// wrote, with its status.
pub fn recorded_runs_are_alike()
    ensures { RecordedRunsAreAlike }
{}

/// A trace for which `races` reports no race is never one of an entangled run: `replay` never has that status.
pub fn raceless_are_disentangled()
    ensures { RacelessAreDisentangled }
{}

/// The exit status of a run is that of its end.
pub fn statuses_of_ends()
    ensures { StatusesOfEnds }
{}

/// The headline, for every whole run's answer: nothing reachable is freed, each read is stopped if and only if its
/// target doesn't happen before the reader, and the heaps at rest hold exactly the objects that are held.
pub fn runs_hold_the_headline()
    ensures { RunsHoldTheHeadline }
{}
