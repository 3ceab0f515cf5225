// The causes that don't depend on an entry's kind.

ghost use Rattle.std.specs.Prelude.{◌≡◌};
ghost use Rattle.core_invariant.specs.Causes.{first_cause};

use refinement_laws::{Refused, RunEnd, Settings};

/// The causes that precede those of an entry's kind.
pub fn first_cause(
    end: Option<RunEnd>,
    steps: u64,
    settings: Settings,
    worker: u32,
    fuel: bool,
) -> Option<Refused>
    ensures { result ≡ first_cause end steps settings worker fuel }
{
    if end.is_some() {
        return Some(Refused::Over);
    }
    if steps >= settings.fuel() && !fuel {
        return Some(Refused::Spent(steps));
    }
    if worker < settings.workers() {
        None
    } else {
        Some(Refused::NoWorker)
    }
}
