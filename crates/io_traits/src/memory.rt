// Sources and sinks in memory, whose bytes contracts see, and which fail at chosen calls.

ghost use Rattle.std.specs.Prelude.{◌≡◌, ◌<◌, ◌≤◌, ◌↔◌, [], length, take, drop, min, List, ℕ, IfOk, OnOk, OnErr, IsErr, Contains, Some};
ghost use Rattle.saturating_counts.specs.Counts.{raised_by};
ghost use Rattle.io_traits.specs.Fault.{HasRisen};
ghost use Rattle.io_traits.specs.Told.{GivesBytes, with_more};

use crate::fault::{Failed, one_more};
use crate::sink::Sink;
use crate::source::Source;
use std::alloc::{AllocError, Global};
use std::marker::Model;

/// Bytes in memory as a source: those of standard input, and those of every named file.
#[derive(Drop)]
pub struct MemSource {
    bytes: Vec<u8>,
    named: Vec<u8>,
    is_found: bool,
    at: usize,
    most: usize,
    calls: u64,
    failing: Vec<u64>,
    faults: u64,
}

impl Model for MemSource {
    ghost use Rattle.std.specs.Prelude.{◌<◌, ◌≤◌, length, drop, if◌then◌else◌};
    ghost use Rattle.io_traits.specs.Memory.{MemSourceValue};

    ghost Value = { MemSourceValue };

    ghost view = { λ s. record { left = drop s.at (if s.is_found then s.named.items else s.bytes.items); named = s.named.items; most = s.most; calls = s.calls; failing = s.failing.items; faults = s.faults } };

    ghost invariant = { λ s. (s.at ≤ length (if s.is_found then s.named.items else s.bytes.items)) × (0 < s.most) };
}

/// Bytes in memory as a sink.
#[derive(Drop)]
pub struct MemSink {
    bytes: Vec<u8>,
    most: usize,
    calls: u64,
    failing: Vec<u64>,
    faults: u64,
}

impl Model for MemSink {
    ghost use Rattle.std.specs.Prelude.{◌<◌};
    ghost use Rattle.io_traits.specs.Memory.{MemSinkValue};

    ghost Value = { MemSinkValue };

    ghost view = { λ s. record { written = s.bytes.items; most = s.most; calls = s.calls; failing = s.failing.items; faults = s.faults } };

    ghost invariant = { λ s. 0 < s.most };
}

/// Copies the first bytes of one slice over the first ones of another.
pub(crate) fn copy_front(to: &mut [u8], from: &[u8], count: usize)
    requires room { count ≤ length to.old }
    requires there { count ≤ length from.now }
    ensures { take count to.new ≡ take count from.now }
{
    to[..count].copy_from_slice(&from[..count]);
}

impl MemSource {
    /// A source of these bytes; every named file has the bytes `named`. A call gives at most `most` bytes, and the
    /// calls with these numbers, counted from 1, fail.
    pub fn new(bytes: Vec<u8>, named: Vec<u8>, most: usize, failing: Vec<u64>) -> MemSource
        requires { 0 < most }
        ensures { result ≡ record { left = bytes.items; named = named.items; most = most; calls = 0; failing = failing.items; faults = 0 } }
    {
        MemSource {
            bytes,
            named,
            is_found: false,
            at: 0,
            most,
            calls: 0,
            failing,
            faults: 0,
        }
    }

    /// The bytes that are still to come.
    pub fn left(&self) -> &[u8]
        ensures { result.now ≡ self.now.left }
    {
        if self.is_found {
            &self.named[self.at..]
        } else {
            &self.bytes[self.at..]
        }
    }
}

impl Source for MemSource {
    ghost use Rattle.std.specs.Prelude.{Some};

    ghost left = { λ s. Some s.left };

    ghost named = { λ s _. Some s.named };

    ghost faults = { λ s. s.faults };

    fn find(&mut self, _name: &str) -> Result<(), Failed>
        ensures found { OnOk result (Some self.new.left ≡ Some self.old.named) }
        ensures failed { OnErr result (HasRisen self.old.faults self.new.faults) }
        ensures kept { OnErr result (Some self.new.left ≡ Some self.old.left) }
        ensures names { (n : List ℕ) → Some self.new.named ≡ Some self.old.named }
        ensures never_falls { self.old.faults ≤ self.new.faults }
        ensures fails { IsErr result ↔ Contains self.old.failing (raised_by self.old.calls 1) }
        ensures counted { self.new.calls ≡ raised_by self.old.calls 1 }
        ensures settings { (self.new.most ≡ self.old.most) × (self.new.failing ≡ self.old.failing) }
    {
        self.calls = one_more(self.calls);
        if self.failing.contains(&self.calls) {
            self.faults = one_more(self.faults);
            return Err(Failed);
        }
        self.is_found = true;
        self.at = 0;
        Ok(())
    }

    fn take(&mut self, buf: &mut [u8]) -> Result<usize, Failed>
        requires { 0 < length buf.old }
        ensures within { IfOk result (λ n. n ≤ length buf.new) }
        ensures given { IfOk result (λ n. GivesBytes (Some self.old.left) (Some self.new.left) (take n buf.new)) }
        ensures failed { OnErr result (HasRisen self.old.faults self.new.faults) }
        ensures kept { OnErr result (self.new.left ≡ self.old.left) }
        ensures names { (n : List ℕ) → Some self.new.named ≡ Some self.old.named }
        ensures never_falls { self.old.faults ≤ self.new.faults }
        ensures fails { IsErr result ↔ Contains self.old.failing (raised_by self.old.calls 1) }
        ensures amount { IfOk result (λ n. n ≡ min (length buf.new) (min self.old.most (length self.old.left))) }
        ensures counted { self.new.calls ≡ raised_by self.old.calls 1 }
        ensures settings { (self.new.most ≡ self.old.most) × (self.new.failing ≡ self.old.failing) }
    {
        self.calls = one_more(self.calls);
        if self.failing.contains(&self.calls) {
            self.faults = one_more(self.faults);
            return Err(Failed);
        }
        let left = self.left();
        let count = buf.len().min(self.most.min(left.len()));
        copy_front(buf, left, count);
        self.at += count;
        Ok(count)
    }
}

impl MemSink {
    /// An empty sink that accepts at most `most` bytes a call and fails at the calls with these numbers, counted from
    /// 1. A call also fails if memory for its bytes can't be allocated.
    pub fn new(alloc: Global, most: usize, failing: Vec<u64>) -> MemSink
        requires { 0 < most }
        ensures { result ≡ record { written = []; most = most; calls = 0; failing = failing.items; faults = 0 } }
    {
        MemSink {
            bytes: Vec::new(alloc),
            most,
            calls: 0,
            failing,
            faults: 0,
        }
    }

    /// The bytes written so far.
    pub fn written(&self) -> &[u8]
        ensures { result.now ≡ self.now.written }
    {
        self.bytes.as_slice()
    }
}

impl Sink for MemSink {
    ghost use Rattle.std.specs.Prelude.{Some};

    ghost written = { λ s. Some s.written };

    ghost faults = { λ s. s.faults };

    fn put(&mut self, bytes: &[u8]) -> Result<usize, Failed>
        requires { 0 < length bytes.now }
        ensures within { IfOk result (λ n. n ≤ length bytes.now) }
        ensures some { IfOk result (λ n. 0 < n) }
        ensures taken { IfOk result (λ n. Some self.new.written ≡ with_more (Some self.old.written) (take n bytes.now)) }
        ensures failed { OnErr result (HasRisen self.old.faults self.new.faults) }
        ensures kept { OnErr result (Some self.new.written ≡ Some self.old.written) }
        ensures never_falls { self.old.faults ≤ self.new.faults }
        ensures fails { Contains self.old.failing (raised_by self.old.calls 1) → IsErr result }
        ensures amount { IfOk result (λ n. n ≡ min self.old.most (length bytes.now)) }
        ensures counted { self.new.calls ≡ raised_by self.old.calls 1 }
        ensures settings { (self.new.most ≡ self.old.most) × (self.new.failing ≡ self.old.failing) }
    {
        self.calls = one_more(self.calls);
        if self.failing.contains(&self.calls) {
            self.faults = one_more(self.faults);
            return Err(Failed);
        }
        let count = self.most.min(bytes.len());
        match self.bytes.extend_from_slice(&bytes[..count]) {
            Ok(()) => Ok(count),
            Err(AllocError) => {
                self.faults = one_more(self.faults);
                Err(Failed)
            }
        }
    }
}
