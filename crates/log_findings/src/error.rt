// Why nothing is reported.

use log_births::FindError;
use log_heaps::HeapsError;
use log_races::RacesError;
use log_weights::CostError;
use std::alloc::AllocError;

/// Why nothing is reported of a log that has no fault.
#[derive(Clone, Copy)]
pub enum ReportError {
    /// It has 2^32 acts or more, or its graph has more than 2^32 strands.
    TooLong,
    /// The locations that are accessed have too many stretches.
    TooManyStretches,
    /// Its work doesn't fit in 64 bits.
    TooMuchWork,
    /// The words that tasks of one depth bear don't fit in 64 bits.
    TooManyWords,
    /// Out of memory.
    NoMemory,
}

impl From<AllocError> for ReportError {
    ghost use Rattle.std.specs.Prelude.{◌≡◌};
    ghost use Rattle.log_findings.specs.declared.error.ReportError.TheVariants.{NoMemory};

    ghost from_gives = { λ _ e. e ≡ NoMemory };

    fn from(_: AllocError) -> ReportError {
        ReportError::NoMemory
    }
}

impl From<RacesError> for ReportError {
    ghost use Rattle.std.specs.Prelude.{◌≡◌};
    ghost use Rattle.log_findings.specs.Errors.{of_races};

    ghost from_gives = { λ cause e. e ≡ of_races cause };

    fn from(cause: RacesError) -> ReportError {
        match cause {
            RacesError::TooLong => ReportError::TooLong,
            RacesError::TooManyStretches => ReportError::TooManyStretches,
            RacesError::NoMemory => ReportError::NoMemory,
        }
    }
}

impl From<FindError> for ReportError {
    ghost use Rattle.std.specs.Prelude.{◌≡◌};
    ghost use Rattle.log_findings.specs.Errors.{of_find};

    ghost from_gives = { λ cause e. e ≡ of_find cause };

    fn from(cause: FindError) -> ReportError {
        match cause {
            FindError::TooLong => ReportError::TooLong,
            FindError::NoMemory => ReportError::NoMemory,
        }
    }
}

impl From<CostError> for ReportError {
    ghost use Rattle.std.specs.Prelude.{◌≡◌};
    ghost use Rattle.log_findings.specs.Errors.{of_cost};

    ghost from_gives = { λ cause e. e ≡ of_cost cause };

    fn from(cause: CostError) -> ReportError {
        match cause {
            CostError::TooMuchWork => ReportError::TooMuchWork,
            CostError::NoMemory => ReportError::NoMemory,
        }
    }
}

impl From<HeapsError> for ReportError {
    ghost use Rattle.std.specs.Prelude.{◌≡◌};
    ghost use Rattle.log_findings.specs.Errors.{of_heaps};

    ghost from_gives = { λ cause e. e ≡ of_heaps cause };

    fn from(cause: HeapsError) -> ReportError {
        match cause {
            HeapsError::TooLong => ReportError::TooLong,
            HeapsError::TooManyWords => ReportError::TooManyWords,
            HeapsError::NoMemory => ReportError::NoMemory,
        }
    }
}
