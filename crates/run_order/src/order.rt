// The order of a walked run's strands.

ghost use Rattle.std.specs.Prelude.{◌≡◌};
ghost use Rattle.run_order.specs.Order.{is_no_later, is_upto};

use log_walk::SerialWalk;
use race_cells::Strands;
use std::marker::Model;

/// The strands of a walked run by their serial numbers, and which of them happen before which.
#[derive(Drop)]
pub struct RunOrder<'w, 't> {
    walk: &'w SerialWalk<'t>,
    /// How many strands there are.
    count: usize,
}

impl<'w, 't> Model for RunOrder<'w, 't> {
    ghost use Rattle.std.specs.Prelude.{◌≡◌, length};
    ghost use Rattle.log_walk.specs.Value.{WalkValue, IsWalked};

    ghost Value = { WalkValue };

    ghost view = { λ order. order.walk.now };

    ghost invariant = { λ order. (order.count ≡ length order.walk.now.order) × IsWalked order.walk.now };
}

impl<'w, 't> RunOrder<'w, 't> {
    ghost use Rattle.std.specs.Prelude.{◌≡◌, ◌<◌, length, IfSome};
    ghost use Rattle.log_walk.specs.Value.{IsWalked};
    ghost use Rattle.run_order.specs.Order.{exit_of};

    /// The order of a walk's strands.
    pub fn new(walk: &'w SerialWalk<'t>) -> RunOrder<'w, 't>
        ensures value { result ≡ walk.entry.now }
        ensures walked { IsWalked walk.entry.now }
    {
        RunOrder {
            walk,
            count: walk.order().len(),
        }
    }

    // Where the way of a strand comes into the lowest common ancestor of its task and that of another one.
    fn exit(&self, u: u32, v: u32) -> Option<usize>
        ensures value { result ≡ exit_of self.now u v }
        ensures there { IfSome result (λ exit. exit < length self.now.order) }
    {
        let first = u as usize;
        let second = v as usize;
        if first < self.count && second < self.count {
            return Some(self.walk.exit(first, second));
        }
        None
    }
}

impl<'w, 't> Strands for RunOrder<'w, 't> {
    ghost use Rattle.run_order.specs.Order.{run_order};

    ghost order = { run_order };

    fn happens_before(&self, u: u32, v: u32) -> bool {
        is_upto(self.exit(u, v), v)
    }

    fn meeting(&self, u: u32, v: u32) -> u32 {
        match self.exit(u, v) {
            Some(exit) => self.walk.depth(exit),
            None => 0,
        }
    }

    fn leaves_first(&self, u: u32, v: u32) -> bool {
        is_no_later(self.exit(u, v), self.exit(v, u))
    }
}

// Whether there is a place, and it is no later than a strand's.
fn is_upto(exit: Option<usize>, strand: u32) -> bool
    ensures { result ≡ is_upto exit strand }
{
    match exit {
        Some(exit) => exit <= strand as usize,
        None => false,
    }
}

// Whether there are two places, and the first is no later.
fn is_no_later(exit: Option<usize>, other: Option<usize>) -> bool
    ensures { result ≡ is_no_later exit other }
{
    match (exit, other) {
        (Some(exit), Some(other)) => exit <= other,
        _ => false,
    }
}
