// What a worker holds, and how an entry changes it.

ghost use Rattle.std.specs.Prelude.{◌≡◌, IfErr, IfOk, Some};
ghost use Rattle.journal_replay.specs.Applied.{copied_cause, idle_cause};

use legal_calls::{Moved, NotEntered, Private, Refused};

/// What a worker holds.
#[derive(Drop)]
pub(crate) enum OutPart {
    Nothing,
    Part(Private),
    /// A part that was copied when its leaf collection began, and the result of copying.
    Copied(Private, Moved),
}

/// The result of an entry of a worker: what the worker holds afterwards, and why the entry isn't made, if it isn't.
#[derive(Drop)]
pub(crate) struct Made {
    pub(crate) holding: OutPart,
    pub(crate) answer: Result<(), NotEntered>,
}

/// What a worker holds isn't what its entry is for.
#[derive(Drop)]
pub(crate) struct OtherPart {
    pub(crate) holding: OutPart,
    pub(crate) cause: Refused,
}

impl OtherPart {
    /// The entry is refused.
    pub(crate) fn made(self) -> Made
        ensures { result ≡ record { holding = self.holding; answer = Err (NotEntered.Refuses self.cause) } }
    {
        Made {
            holding: self.holding,
            answer: Err(NotEntered::Refuses(self.cause)),
        }
    }
}

/// The part of a task whose leaf collection hasn't begun.
pub(crate) fn idle_part(holding: OutPart, t: u32) -> Result<Private, OtherPart>
    ensures holding { IfOk result (λ p. holding ≡ OutPart.Part p) }
    ensures task { IfOk result (λ p. p.task ≡ t) }
    ensures back { IfErr result (λ e. e.holding ≡ holding) }
    ensures cause { IfErr result (λ e. idle_cause holding t ≡ Some e.cause) }
{
    match holding {
        OutPart::Nothing => Err(OtherPart {
            holding: OutPart::Nothing,
            cause: Refused::NotOut,
        }),
        OutPart::Part(part) => {
            if part.task == t {
                return Ok(part);
            }
            Err(OtherPart {
                holding: OutPart::Part(part),
                cause: Refused::NotOut,
            })
        }
        OutPart::Copied(part, moved) => {
            let cause = if part.task == t {
                Refused::Collecting
            } else {
                Refused::NotOut
            };
            Err(OtherPart {
                holding: OutPart::Copied(part, moved),
                cause,
            })
        }
    }
}

/// The part of a task that was copied when its leaf collection began, and the result of copying.
pub(crate) fn copied_part(holding: OutPart, t: u32) -> Result<(Private, Moved), OtherPart>
    ensures holding { IfOk result (λ r. holding ≡ OutPart.Copied r.0 r.1) }
    ensures task { IfOk result (λ r. r.0.task ≡ t) }
    ensures back { IfErr result (λ e. e.holding ≡ holding) }
    ensures cause { IfErr result (λ e. copied_cause holding t ≡ Some e.cause) }
{
    match holding {
        OutPart::Nothing => Err(OtherPart {
            holding: OutPart::Nothing,
            cause: Refused::NotOut,
        }),
        OutPart::Part(part) => {
            let cause = if part.task == t {
                Refused::NotCollecting
            } else {
                Refused::NotOut
            };
            Err(OtherPart {
                holding: OutPart::Part(part),
                cause,
            })
        }
        OutPart::Copied(part, moved) => {
            if part.task == t {
                return Ok((part, moved));
            }
            Err(OtherPart {
                holding: OutPart::Copied(part, moved),
                cause: Refused::NotOut,
            })
        }
    }
}
