// Why heaps aren't told.

use std::alloc::AllocError;

/// Why nothing is told of a log's heaps.
#[derive(Clone, Copy)]
pub enum HeapsError {
    /// The log has 2^32 acts or more.
    TooLong,
    /// The words that tasks of one depth bear don't fit in 64 bits.
    TooManyWords,
    /// Out of memory.
    NoMemory,
}

impl From<AllocError> for HeapsError {
    ghost use Rattle.std.specs.Prelude.{◌≡◌};
    ghost use Rattle.log_heaps.specs.declared.error.HeapsError.TheVariants.{NoMemory};

    ghost from_gives = { λ _ e. e ≡ NoMemory };

    fn from(_: AllocError) -> HeapsError {
        HeapsError::NoMemory
    }
}
