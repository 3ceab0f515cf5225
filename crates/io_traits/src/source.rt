// Where bytes come from.

ghost use Rattle.std.specs.Prelude.{◌≡◌, ◌<◌, ◌≤◌, length, take, IfOk, OnOk, OnErr, Option, ℕ, List};
ghost use Rattle.io_traits.specs.Fault.{HasRisen};
ghost use Rattle.io_traits.specs.Told.{GivesBytes};

use crate::fault::Failed;

/// A source of bytes.
pub trait Source {
    // the bytes still to come, if the source makes them known
    ghost left: { Self → Option (List ℕ) };

    // the bytes of the file of each name, if the source makes them known; no call changes them
    ghost named: { Self → List ℕ → Option (List ℕ) };

    // how many of its calls have failed so far
    ghost faults: { Self → ℕ };

    /// From now on gives the bytes of the file of this name, from their beginning, in place of what was left.
    fn find(&mut self, name: &str) -> Result<(), Failed>
        ensures found { OnOk result (left self.new ≡ named self.old name.now) }
        ensures failed { OnErr result (HasRisen (faults self.old) (faults self.new)) }
        ensures kept { OnErr result (left self.new ≡ left self.old) }
        ensures names { (n : List ℕ) → named self.new n ≡ named self.old n }
        ensures never_falls { faults self.old ≤ faults self.new };

    /// Puts the next bytes at the front of the buffer and returns how many: 0 if and only if nothing is left.
    fn take(&mut self, buf: &mut [u8]) -> Result<usize, Failed>
        requires { 0 < length buf.old }
        ensures within { IfOk result (λ n. n ≤ length buf.new) }
        ensures given { IfOk result (λ n. GivesBytes (left self.old) (left self.new) (take n buf.new)) }
        ensures failed { OnErr result (HasRisen (faults self.old) (faults self.new)) }
        ensures kept { OnErr result (left self.new ≡ left self.old) }
        ensures names { (n : List ℕ) → named self.new n ≡ named self.old n }
        ensures never_falls { faults self.old ≤ faults self.new };
}
