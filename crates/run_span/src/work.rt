// The work of a run.

ghost use Rattle.std.specs.Prelude.{◌≡◌, ◌≤◌, ◌^◌, MatchOption, sum};

/// The sum of the weights of all strands, if it fits in 64 bits.
pub fn total_work(weights: &[u64]) -> Option<u64>
    ensures { MatchOption result (2 ^ 64 ≤ sum weights.now) (λ work. work ≡ sum weights.now) }
{
    let mut done: u64 = 0;
    for weight in weights {
        done = done.checked_add(*weight)?;
    }
    Some(done)
}
