// The whole call.

ghost use Rattle.std.specs.Prelude.{◌≡◌, ◌≢◌, ◌⊎◌, map, option_map, Some, IfOk, IfErr, string_bytes};
ghost use Rattle.refusal_replies.specs.below.io_traits.{HasRisen};
ghost use Rattle.refusal_replies.specs.below.whole_call.{HasRead, HasTaken, ReadsNothing};
ghost use Rattle.view_arguments.specs.ViewLine.{view_arguments};
ghost use Rattle.view_core.specs.Views.{reads};
ghost use Rattle.view_core.specs.Call.{AnswersView};

use crate::views::show;
use heap_graph::MOST_BYTES;
use refusal_replies::{CallStatus, ReadError, Refusal, Sink, Source, give, read_up_to, refused};
use std::alloc::{AllocError, Global};
use view_arguments::{InputFile, ViewCall, read_view};

// The name of a file, if one is given.
fn name_of(file: &Option<InputFile>) -> Option<&str>
    ensures { option_map (λ s. s.now) result ≡ file.now }
{
    match file {
        None => None,
        Some(name) => Some(name.as_str()),
    }
}

// Reads the input of a view.
fn read_for<S: Source>(alloc: Global, source: &mut S, view: &ViewCall) -> Result<Vec<u8>, ReadError>
    ensures read { IfOk result (λ input. HasRead (reads (Some view.now)) (record { left = S.left source.old; named = S.named source.old; faults = S.faults source.old }) (record { left = S.left source.new; named = S.named source.new; faults = S.faults source.new }) input.items) }
    ensures untouched { reads (Some view.now) ≡ ReadsNothing → HasTaken (reads (Some view.now)) (record { left = S.left source.old; named = S.named source.old; faults = S.faults source.old }) (record { left = S.left source.new; named = S.named source.new; faults = S.faults source.new }) }
    ensures failed { IfErr result (λ e. e ≡ ReadError.Fault → (reads (Some view.now) ≢ ReadsNothing) × HasRisen (S.faults source.old) (S.faults source.new)) }
{
    match view {
        ViewCall::Usage => Ok(Vec::new(alloc)),
        ViewCall::Of { file, picture: _ } => read_up_to(alloc, source, MOST_BYTES, name_of(file)),
    }
}

// Reads the input of a view, and shows it.
fn answer<S: Source, K: Sink, E: Sink>(
    alloc: Global,
    view: &ViewCall,
    source: &mut S,
    out: &mut K,
    error: &mut E,
) -> CallStatus
    ensures { AnswersView (Some view.now) result (record { left = S.left source.old; named = S.named source.old; faults = S.faults source.old }) (record { left = S.left source.new; named = S.named source.new; faults = S.faults source.new }) (record { out = K.written out.old; error = E.written error.old }) (record { out = K.written out.new; error = E.written error.new }) (HasRisen (K.faults out.old) (K.faults out.new) ⊎ HasRisen (E.faults error.old) (E.faults error.new)) }
{
    match read_for(alloc, source, view) {
        Err(ReadError::Fault) => CallStatus::ReadFault,
        Err(ReadError::NoMemory) => CallStatus::NoMemory,
        Ok(input) => give(show(alloc, view, input.as_slice()), out, error),
    }
}

/// Answers a call: reads its input from the source, and writes a picture of it to standard output, or a refusal to
/// standard error.
///
/// `words` are those after the program's name. All bytes are built before the first is written.
pub fn view<S: Source, K: Sink, E: Sink>(
    alloc: Global,
    words: &[String],
    source: &mut S,
    out: &mut K,
    error: &mut E,
) -> CallStatus
    ensures { AnswersView (view_arguments (map string_bytes words.now)) result (record { left = S.left source.old; named = S.named source.old; faults = S.faults source.old }) (record { left = S.left source.new; named = S.named source.new; faults = S.faults source.new }) (record { out = K.written out.old; error = E.written error.old }) (record { out = K.written out.new; error = E.written error.new }) (HasRisen (K.faults out.old) (K.faults out.new) ⊎ HasRisen (E.faults error.old) (E.faults error.new)) }
{
    match read_view(alloc, words) {
        Err(AllocError) => CallStatus::NoMemory,
        Ok(None) => give(refused(alloc, Refusal::Words), out, error),
        Ok(Some(view)) => answer(alloc, &view, source, out, error),
    }
}
