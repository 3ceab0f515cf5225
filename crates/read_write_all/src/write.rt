// All bytes to a sink.

ghost use Rattle.std.specs.Prelude.{◌≡◌, OnOk, OnErr};
ghost use Rattle.io_traits.specs.Fault.{HasRisen};
ghost use Rattle.io_traits.specs.Told.{with_more};
ghost use Rattle.read_write_all.specs.Bytes.{WroteSome};

use io_traits::{Failed, Sink};

/// Writes all bytes to a sink.
pub fn write_all<K: Sink>(sink: &mut K, bytes: &[u8]) -> Result<(), Failed>
    ensures all { OnOk result (K.written sink.new ≡ with_more (K.written sink.old) bytes.now) }
    ensures some { OnErr result (WroteSome (K.written sink.old) (K.written sink.new) bytes.now) }
    ensures failed { OnErr result (HasRisen (K.faults sink.old) (K.faults sink.new)) }
{
    let mut at = 0;
    while at < bytes.len() {
        at += sink.put(&bytes[at..])?;
    }
    Ok(())
}
