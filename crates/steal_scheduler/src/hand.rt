//! A worker's hand: its own deque, the list beside it, and its ways to steal.
ghost use Rattle.std.specs.Prelude.{◌≡◌, ◌⊎◌, ◌<◌, true, length, OnOk, IfErr, IfSome, IfNone, slice_get, Some};
ghost use Rattle.steal_scheduler.specs.Ends.{owner_view};

use crate::rule::{Owner, Puts, TakesBack};
use crate::theft::Theft;
use std::alloc::{AllocFailed, Global};
use std::sync::Wait;

/// A worker's hand, owned by one thread at a time.
#[derive(Drop)]
pub struct Hand {
    own: Owner,
    list: Vec<u32>,
    thefts: Vec<Theft>,
    ghost owner: { (owner_view own).owns ≡ true },
}

impl Hand {
    ghost use Rattle.steal_scheduler.specs.declared.theft.Theft.{Theft};
    ghost use Rattle.steal_scheduler.specs.Thefts.{vain_thefts, Stole, StoleNone};
    ghost use Rattle.steal_scheduler.specs.Hands.{empty_pops, thefts, SameHand, PutOnDeque, PutOnList, TookFromList, TookFromDeque, TookNone, KeepsOwn, ChangesAt, IsNewHand};
    ghost use Rattle.steal_scheduler.specs.New.{IsNewOwner};

    pub(crate) fn new(alloc: Global, own: Owner, thefts: Vec<Theft>) -> Hand
        requires { IsNewOwner own }
        ensures { IsNewHand (length thefts.items) result × (result.own ≡ own) × (result.thefts ≡ thefts) }
    {
        Hand {
            own,
            list: Vec::new(alloc),
            thefts,
        }
    }

    /// The number of workers, each of which can be a victim.
    pub fn workers(&self) -> usize
        ensures { result ≡ length (thefts self.now) }
    {
        self.thefts.len()
    }

    /// How many pops found the own deque empty.
    pub fn empty_pops(&self) -> u64
        ensures { result ≡ empty_pops self.now }
    {
        self.own.empty_pops()
    }

    /// How many thefts from the victim's deque found at most one task there.
    pub fn vain_thefts(&self, victim: u32) -> u64
        requires { victim < length (thefts self.now) }
        ensures { (t : Theft) → slice_get (thefts self.now) victim ≡ Some t → result ≡ vain_thefts t }
    {
        self.thefts[victim as usize].vain()
    }

    /// Puts a task on the own deque, or on the hand's list if that isn't empty or the deque refuses. If an allocation
    /// fails the task is returned, and the hand is unchanged.
    pub fn put(&mut self, task: u32) -> Result<(), AllocFailed<u32>>
        ensures same { SameHand self.old self.new }
        ensures counted { empty_pops self.new ≡ empty_pops self.old }
        ensures thefts { thefts self.new ≡ thefts self.old }
        ensures ok { OnOk result (PutOnDeque self.old self.new task ⊎ PutOnList self.old self.new task) }
        ensures err { IfErr result (λ e. (e.value ≡ task) × KeepsOwn self.old self.new) }
    {
        if !self.list.is_empty() {
            return self.list.push(task);
        }
        match self.own.push::<Puts>(task) {
            Ok(()) => Ok(()),
            Err(task) => self.list.push(task),
        }
    }

    /// Takes the newest task, from the list first. None only if the list is empty and the own deque was empty at some
    /// step of the call; then, and in no other call, the count of empty pops rises.
    pub fn next_own(&mut self) -> Option<u32>
        ensures same { SameHand self.old self.new }
        ensures thefts { thefts self.new ≡ thefts self.old }
        ensures some { IfSome result (λ x. TookFromList self.old self.new x ⊎ TookFromDeque self.old self.new x) }
        ensures counted { IfSome result (λ _. empty_pops self.new ≡ empty_pops self.old) }
        ensures none { IfNone result (TookNone self.old self.new) }
    {
        match self.list.pop() {
            Some(task) => Some(task),
            None => self.own.pop::<TakesBack>(),
        }
    }

    /// Takes the oldest task of the victim's deque. None only if that deque held at most one task at some step of the
    /// call; then, and in no other call, the count of vain thefts from that victim rises.
    pub fn steal_from<R: Wait>(&mut self, rt: &R, victim: u32) -> Option<u32>
        requires { victim < length (thefts self.old) }
        ensures same { SameHand self.old self.new }
        ensures own { KeepsOwn self.old self.new }
        ensures counted { empty_pops self.new ≡ empty_pops self.old }
        ensures some { IfSome result (λ x. ChangesAt (thefts self.old) (thefts self.new) victim (Stole x)) }
        ensures none { IfNone result (ChangesAt (thefts self.old) (thefts self.new) victim StoleNone) }
    {
        self.thefts[victim as usize].steal(rt)
    }
}
