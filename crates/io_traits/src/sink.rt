// Where bytes go.

ghost use Rattle.std.specs.Prelude.{◌≡◌, ◌<◌, ◌≤◌, length, take, IfOk, OnErr, Option, ℕ, List};
ghost use Rattle.io_traits.specs.Fault.{HasRisen};
ghost use Rattle.io_traits.specs.Told.{with_more};

use crate::fault::Failed;

/// A sink of bytes.
pub trait Sink {
    // the bytes written so far, if the sink makes them known
    ghost written: { Self → Option (List ℕ) };

    // how many of its calls have failed so far
    ghost faults: { Self → ℕ };

    /// Accepts the first bytes of the piece, at least one, and returns how many.
    fn put(&mut self, bytes: &[u8]) -> Result<usize, Failed>
        requires { 0 < length bytes.now }
        ensures within { IfOk result (λ n. n ≤ length bytes.now) }
        ensures some { IfOk result (λ n. 0 < n) }
        ensures taken { IfOk result (λ n. written self.new ≡ with_more (written self.old) (take n bytes.now)) }
        ensures failed { OnErr result (HasRisen (faults self.old) (faults self.new)) }
        ensures kept { OnErr result (written self.new ≡ written self.old) }
        ensures never_falls { faults self.old ≤ faults self.new };
}
