// The unordered pairs of a run, and what they say about other schedules.

ghost use Rattle.std.specs.Prelude.{◌≡◌};
ghost use Rattle.schedule_report.specs.Schedules.{clash_count, verdict_of};

use race_report::{Listed, Race};

/// The pairs of a whole run that the graph leaves unordered.
#[derive(Drop)]
pub struct Clashes {
    /// The pair of each field that has a race, in the order of the fields.
    pub races: Listed<Race>,
    /// The pair of each field for which compare and swaps contend, in the order of the fields.
    pub swaps: Listed<Race>,
    /// The first pair of unordered prints, if there is one.
    pub prints: Listed<Race>,
}

/// What a whole run says about all schedules.
#[derive(Clone, Copy)]
pub enum Verdict {
    /// Every schedule has the same result.
    Agree,
    /// Every schedule has the same result, but prints may be in another order.
    AgreeButForPrints,
    /// This many fields have a race or compare and swaps that contend: schedules may differ.
    MayDiffer(u64),
}

impl Clashes {
    /// The number of fields that have a race, plus that of fields for which compare and swaps contend; saturates at the
    /// type's maximum.
    pub fn count(&self) -> u64
        ensures { result ≡ clash_count self.now }
    {
        (self.races.len() as u64).saturating_add(self.swaps.len() as u64)
    }

    /// What the run says about all schedules.
    pub fn verdict(&self) -> Verdict
        ensures { result ≡ verdict_of self.now }
    {
        let count = self.count();
        if count != 0 {
            return Verdict::MayDiffer(count);
        }
        if self.prints.len() == 0 {
            Verdict::Agree
        } else {
            Verdict::AgreeButForPrints
        }
    }
}
