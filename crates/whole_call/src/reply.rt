// What to write, and how it is written.

ghost use Rattle.std.specs.Prelude.{◌≡◌, string_bytes};
ghost use Rattle.io_traits.specs.Fault.{HasRisen};
ghost use Rattle.whole_call.specs.Output.{Says, WroteReply};

use crate::status::{AnswerStatus, CallStatus};
use io_traits::{Failed, Sink};
use plain_vec::Listed;
use read_write_all::write_all;

/// What to write, with its status.
#[derive(Drop)]
pub struct Reply {
    pub status: AnswerStatus,
    pub bytes: Listed<u8>,
}

impl Reply {
    /// These bytes.
    pub fn of_bytes(status: AnswerStatus, bytes: Vec<u8>) -> Reply
        ensures { Says status bytes.items result }
    {
        Reply {
            status,
            bytes: Listed::from_vec(bytes),
        }
    }

    /// This text.
    pub fn of_text(status: AnswerStatus, text: String) -> Reply
        ensures { Says status (string_bytes text) result }
    {
        Reply::of_bytes(status, text.into_bytes())
    }

    /// Writes it to a sink, and returns how that ended.
    pub fn write<K: Sink>(&self, sink: &mut K) -> CallStatus
        ensures wrote { WroteReply self.now result (K.written sink.old) (K.written sink.new) }
        ensures fault { result ≡ CallStatus.WriteFault → HasRisen (K.faults sink.old) (K.faults sink.new) }
    {
        match write_all(sink, self.bytes.as_slice()) {
            Ok(()) => CallStatus::Answered(self.status),
            Err(Failed) => CallStatus::WriteFault,
        }
    }
}
