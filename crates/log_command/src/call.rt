// The whole call.

ghost use Rattle.std.specs.Prelude.{◌⊎◌, map, string_bytes};
ghost use Rattle.io_traits.specs.Fault.{HasRisen};
ghost use Rattle.log_command.specs.Words.{Check, asked_of_log};
ghost use Rattle.log_command.specs.Call.{AnswersLog};

use crate::read::read_texts;
use crate::texts::{usage, words_refusal};
use io_traits::{Sink, Source};
use log_replies::show_log;
use log_request::{LogView, is_usage, read_request};
use read_write_all::ReadError;
use std::alloc::{AllocError, Global};
use whole_call::{CallStatus, give};

// Reads the files of a log, and writes what is to be said of it.
fn answer<S: Source, K: Sink, E: Sink>(
    alloc: Global,
    view: &LogView,
    names: &[String],
    source: &mut S,
    out: &mut K,
    error: &mut E,
) -> CallStatus
    ensures { AnswersLog (Check view.now (map string_bytes names.now)) result (record { left = S.left source.old; named = S.named source.old; faults = S.faults source.old }) (record { left = S.left source.new; named = S.named source.new; faults = S.faults source.new }) (record { out = K.written out.old; error = E.written error.old }) (record { out = K.written out.new; error = E.written error.new }) (HasRisen (K.faults out.old) (K.faults out.new) ⊎ HasRisen (E.faults error.old) (E.faults error.new)) }
{
    match read_texts(alloc, source, names) {
        Err(ReadError::Fault) => CallStatus::ReadFault,
        Err(ReadError::NoMemory) => CallStatus::NoMemory,
        Ok(texts) => give(show_log(alloc, names, texts.as_slice(), view), out, error),
    }
}

/// Answers a call: reads the files that the words name, and writes a report of their log to standard output, or its
/// refusal to standard error.
///
/// `words` are those after the program's name. All bytes are built before the first is written.
pub fn check<S: Source, K: Sink, E: Sink>(
    alloc: Global,
    words: &[String],
    source: &mut S,
    out: &mut K,
    error: &mut E,
) -> CallStatus
    ensures { AnswersLog (asked_of_log (map string_bytes words.now)) result (record { left = S.left source.old; named = S.named source.old; faults = S.faults source.old }) (record { left = S.left source.new; named = S.named source.new; faults = S.faults source.new }) (record { out = K.written out.old; error = E.written error.old }) (record { out = K.written out.new; error = E.written error.new }) (HasRisen (K.faults out.old) (K.faults out.new) ⊎ HasRisen (E.faults error.old) (E.faults error.new)) }
{
    if is_usage(words) {
        return give(usage(alloc), out, error);
    }
    match read_request(alloc, words) {
        Err(AllocError) => CallStatus::NoMemory,
        Ok(None) => give(words_refusal(alloc), out, error),
        Ok(Some((view, names))) => answer(alloc, &view, names, source, out, error),
    }
}
