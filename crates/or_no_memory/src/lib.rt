//! Why a call has no result, if it refuses what it was given for one kind of reason.
#![tactic(auto)]

use std::alloc::AllocError;

/// Why a call has no result.
#[derive(Clone, Copy)]
pub enum OrNoMemory<E> {
    /// What it was given is refused, for this reason.
    Refused(E),
    /// Out of memory.
    NoMemory,
}

impl<E> From<AllocError> for OrNoMemory<E> {
    ghost use Rattle.std.specs.Prelude.{◌≡◌};
    ghost use Rattle.or_no_memory.specs.declared.OrNoMemory.TheVariants.{NoMemory};

    ghost from_gives = { λ _ e. e ≡ NoMemory };

    fn from(_: AllocError) -> OrNoMemory<E> {
        OrNoMemory::NoMemory
    }
}
