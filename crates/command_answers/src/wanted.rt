// Out of memory while an answer is made.

use race_report::{Entry, Listed};
use shared_tree::Remains;
use std::alloc::AllocError;

/// When memory ran out.
#[derive(Drop)]
pub enum Wanted {
    /// Before a run began, or without a run.
    Before,
    /// During a run: its journal so far, moved out of what the workers shared.
    Amid(Listed<Entry>, Remains),
}

impl From<AllocError> for Wanted {
    ghost use Rattle.std.specs.Prelude.{◌≡◌};
    ghost use Rattle.command_answers.specs.declared.wanted.Wanted.TheVariants.{Before};

    ghost from_gives = { λ _ w. w ≡ Before };

    fn from(_: AllocError) -> Wanted {
        Wanted::Before
    }
}
