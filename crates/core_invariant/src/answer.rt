// Why a call made no entry.

use refinement_laws::{Private, Refused};
use std::alloc::AllocError;

/// Why a call made no entry.
#[derive(Clone, Copy)]
pub enum NotEntered {
    /// The entry is refused.
    Refuses(Refused),
    /// It isn't refused, but an allocation failed.
    NoMemory,
}

impl From<AllocError> for NotEntered {
    ghost use Rattle.std.specs.Prelude.{◌≡◌};
    ghost use Rattle.core_invariant.specs.declared.answer.NotEntered.TheVariants.{NoMemory};

    ghost from_gives = { λ _ e. e ≡ NoMemory };

    fn from(_: AllocError) -> NotEntered {
        NotEntered::NoMemory
    }
}

impl From<Refused> for NotEntered {
    ghost use Rattle.std.specs.Prelude.{◌≡◌};
    ghost use Rattle.core_invariant.specs.declared.answer.NotEntered.TheVariants.{Refuses};

    ghost from_gives = { λ cause e. e ≡ Refuses cause };

    fn from(cause: Refused) -> NotEntered {
        NotEntered::Refuses(cause)
    }
}

/// Why a part's steps weren't committed, and the part.
#[derive(Drop)]
pub struct NotRan {
    pub cause: NotEntered,
    pub part: Private,
}
