// Lines that say what a strand does.

ghost use Rattle.std.specs.Prelude.{◌≡◌};
ghost use Rattle.act_lines.specs.ActLines.{site_of};

use log_form::LogPosition;
use log_lines::Act;

/// A line that says what a strand does.
#[derive(Clone, Copy)]
pub struct ActLine {
    /// Where it stands.
    pub at: LogPosition,
    pub act: Act,
}

/// The site of an act in the program's text, if it tells one.
pub fn site_of(act: Act) -> Option<u64>
    ensures { result ≡ site_of act }
{
    match act {
        Act::Access(access) => access.site,
        Act::Yield(reference) | Act::Store(reference) => reference.site,
        Act::Birth { .. }
        | Act::Release(_)
        | Act::Work(_)
        | Act::Spawn(_)
        | Act::Join(_)
        | Act::Finish => None,
    }
}
