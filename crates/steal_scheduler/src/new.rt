//! The hands of a number of workers.
ghost use Rattle.std.specs.Prelude.{◌≡◌, length, All, IfOk};
ghost use Rattle.steal_scheduler.specs.New.{IsNewOwner, StealFrom, AreTheftsOf};
ghost use Rattle.steal_scheduler.specs.Hands.{AreNewHands};

use crate::hand::Hand;
use crate::own_deque::OwnDeque;
use crate::rule::{Owner, Thief};
use crate::theft::Theft;
use std::alloc::{AllocError, Global};

// The initial slots of each deque.
const FIRST_SLOTS: usize = 64;

/// The deques of a number of workers. No value of this type exists.
pub struct Deques;

impl Deques {
    /// A hand for each worker, in order.
    pub fn new(alloc: Global, workers: u32) -> Result<Vec<Hand>, AllocError>
        ensures { IfOk result (λ hands. AreNewHands workers hands.items) }
    {
        let owners = owners(alloc, workers)?;
        let stealers = stealers(alloc, owners.as_slice())?;
        let mut hands = Vec::new(alloc);
        for own in owners {
            let thefts = thefts(alloc, stealers.as_slice())?;
            hands.push(Hand::new(alloc, own, thefts))?;
        }
        Ok(hands)
    }
}

// A new deque for each worker, from which its owner takes back the newest.
fn owners(alloc: Global, workers: u32) -> Result<Vec<Owner>, AllocError>
    ensures { IfOk result (λ os. (length os.items ≡ workers) × All IsNewOwner os.items) }
{
    let mut owners = Vec::new(alloc);
    for _ in 0..workers {
        owners.push(OwnDeque::new(alloc, FIRST_SLOTS)?)?;
    }
    Ok(owners)
}

// A stealer of each deque.
fn stealers(alloc: Global, owners: &[Owner]) -> Result<Vec<Thief>, AllocError>
    ensures { IfOk result (λ ss. StealFrom ss.items owners.now) }
{
    let mut stealers = Vec::new(alloc);
    for owner in owners.iter() {
        stealers.push(owner.stealer()?)?;
    }
    Ok(stealers)
}

// One hand's way to steal from each deque.
fn thefts(alloc: Global, stealers: &[Thief]) -> Result<Vec<Theft>, AllocError>
    ensures { IfOk result (λ ts. AreTheftsOf ts.items stealers.now) }
{
    let mut thefts = Vec::new(alloc);
    for stealer in stealers.iter() {
        thefts.push(Theft::new(stealer)?)?;
    }
    Ok(thefts)
}
