// Why the races of a log aren't known.

use log_places::NumberError;
use std::alloc::AllocError;

/// Why the races of a log aren't known.
#[derive(Clone, Copy)]
pub enum RacesError {
    /// The locations that are accessed have more stretches than the limit.
    TooManyStretches,
    /// The log has over 2^32 acts, or its graph over 2^32 strands.
    TooLong,
    NoMemory,
}

impl From<AllocError> for RacesError {
    ghost use Rattle.std.specs.Prelude.{◌≡◌};
    ghost use Rattle.log_touches.specs.declared.numbers.RacesError.TheVariants.{NoMemory};

    ghost from_gives = { λ _ e. e ≡ NoMemory };

    fn from(_error: AllocError) -> RacesError {
        RacesError::NoMemory
    }
}

impl From<NumberError> for RacesError {
    ghost use Rattle.std.specs.Prelude.{◌≡◌};
    ghost use Rattle.log_touches.specs.Limits.{of_numbers};

    ghost from_gives = { λ e f. f ≡ of_numbers e };

    fn from(error: NumberError) -> RacesError {
        match error {
            NumberError::OverLimit => RacesError::TooManyStretches,
            NumberError::NoMemory => RacesError::NoMemory,
        }
    }
}
