// Where a reply is written.

ghost use Rattle.std.specs.Prelude.{◌≡◌, ◌≢◌, ◌⊎◌};
ghost use Rattle.io_traits.specs.Fault.{HasRisen};
ghost use Rattle.whole_call.specs.Streams.{DeliversReply, WritesReply, stream_of};

use crate::reply::Reply;
use crate::status::{AnswerStatus, CallStatus};
use io_traits::Sink;
use std::alloc::AllocError;

// Where something is written.
enum Stream {
    Out,
    Error,
}

fn stream_of(status: AnswerStatus) -> Stream
    ensures { result ≡ stream_of status }
{
    match status {
        AnswerStatus::Done => Stream::Out,
        AnswerStatus::Races => Stream::Out,
        AnswerStatus::CutOff => Stream::Out,
        _ => Stream::Error,
    }
}

// Writes a report to standard output, and a refusal to standard error.
fn deliver<K: Sink, E: Sink>(reply: &Reply, out: &mut K, error: &mut E) -> CallStatus
    ensures delivered { DeliversReply reply.now result (record { out = K.written out.old; error = E.written error.old }) (record { out = K.written out.new; error = E.written error.new }) }
    ensures fault { result ≡ CallStatus.WriteFault → HasRisen (K.faults out.old) (K.faults out.new) ⊎ HasRisen (E.faults error.old) (E.faults error.new) }
{
    match stream_of(reply.status) {
        Stream::Out => reply.write(out),
        Stream::Error => reply.write(error),
    }
}

/// Writes a reply if it could be made: a report to standard output, a refusal to standard error.
pub fn give<K: Sink, E: Sink>(
    found: Result<Reply, AllocError>,
    out: &mut K,
    error: &mut E,
) -> CallStatus
    ensures given { WritesReply found result (record { out = K.written out.old; error = E.written error.old }) (record { out = K.written out.new; error = E.written error.new }) }
    ensures read { result ≢ CallStatus.ReadFault }
    ensures fault { result ≡ CallStatus.WriteFault → HasRisen (K.faults out.old) (K.faults out.new) ⊎ HasRisen (E.faults error.old) (E.faults error.new) }
{
    match found {
        Ok(reply) => deliver(&reply, out, error),
        Err(AllocError) => CallStatus::NoMemory,
    }
}
