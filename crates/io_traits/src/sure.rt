// A source and a sink that never fail: their fault count is always 0.

ghost use Rattle.std.specs.Prelude.{◌≡◌, ◌<◌, ◌≤◌, length, take, drop, min, List, ℕ, IfOk, OnOk, OnErr, Some, IsOk, Ok};
ghost use Rattle.io_traits.specs.Fault.{HasRisen};
ghost use Rattle.io_traits.specs.Told.{GivesBytes, untold, with_more};

use crate::fault::Failed;
use crate::memory::copy_front;
use crate::sink::Sink;
use crate::source::Source;
use std::marker::Model;

/// Bytes in memory as a source that never fails: those of standard input, and those of every named file.
#[derive(Drop)]
pub struct SureSource {
    bytes: Vec<u8>,
    named: Vec<u8>,
    is_found: bool,
    at: usize,
}

impl Model for SureSource {
    ghost use Rattle.std.specs.Prelude.{◌≤◌, length, drop, if◌then◌else◌};
    ghost use Rattle.io_traits.specs.Memory.{SureSourceValue};

    ghost Value = { SureSourceValue };

    ghost view = { λ s. record { left = drop s.at (if s.is_found then s.named.items else s.bytes.items); named = s.named.items } };

    ghost invariant = { λ s. s.at ≤ length (if s.is_found then s.named.items else s.bytes.items) };
}

/// A sink that accepts whatever it is given, and keeps none of it.
#[derive(Clone, Copy)]
pub struct SureSink;

impl SureSource {
    /// A source of these bytes; every named file has the bytes `named`.
    pub fn new(bytes: Vec<u8>, named: Vec<u8>) -> SureSource
        ensures { result ≡ record { left = bytes.items; named = named.items } }
    {
        SureSource {
            bytes,
            named,
            is_found: false,
            at: 0,
        }
    }

    /// The bytes that are still to come.
    pub fn left(&self) -> &[u8]
        ensures { result.now ≡ self.now.left }
    {
        if self.is_found {
            &self.named[self.at..]
        } else {
            &self.bytes[self.at..]
        }
    }
}

impl Source for SureSource {
    ghost use Rattle.std.specs.Prelude.{Some};

    ghost left = { λ s. Some s.left };

    ghost named = { λ s _. Some s.named };

    ghost faults = { λ _. 0 };

    fn find(&mut self, _name: &str) -> Result<(), Failed>
        ensures found { OnOk result (Some self.new.left ≡ Some self.old.named) }
        ensures failed { OnErr result (HasRisen 0 0) }
        ensures kept { OnErr result (Some self.new.left ≡ Some self.old.left) }
        ensures names { (n : List ℕ) → Some self.new.named ≡ Some self.old.named }
        ensures never_falls { 0 ≤ 0 }
        ensures finds { IsOk result }
    {
        self.is_found = true;
        self.at = 0;
        Ok(())
    }

    fn take(&mut self, buf: &mut [u8]) -> Result<usize, Failed>
        requires { 0 < length buf.old }
        ensures within { IfOk result (λ n. n ≤ length buf.new) }
        ensures given { IfOk result (λ n. GivesBytes (Some self.old.left) (Some self.new.left) (take n buf.new)) }
        ensures failed { OnErr result (HasRisen 0 0) }
        ensures kept { OnErr result (Some self.new.left ≡ Some self.old.left) }
        ensures names { (n : List ℕ) → Some self.new.named ≡ Some self.old.named }
        ensures never_falls { 0 ≤ 0 }
        ensures amount { result ≡ Ok (min (length buf.new) (length self.old.left)) }
    {
        let left = self.left();
        let count = buf.len().min(left.len());
        copy_front(buf, left, count);
        self.at += count;
        Ok(count)
    }
}

impl Sink for SureSink {
    ghost use Rattle.io_traits.specs.Told.{untold};

    ghost written = { λ _. untold };

    ghost faults = { λ _. 0 };

    fn put(&mut self, bytes: &[u8]) -> Result<usize, Failed>
        requires { 0 < length bytes.now }
        ensures within { IfOk result (λ n. n ≤ length bytes.now) }
        ensures some { IfOk result (λ n. 0 < n) }
        ensures taken { IfOk result (λ n. untold ≡ with_more untold (take n bytes.now)) }
        ensures failed { OnErr result (HasRisen 0 0) }
        ensures kept { OnErr result (untold ≡ untold) }
        ensures never_falls { 0 ≤ 0 }
        ensures takes { result ≡ Ok (length bytes.now) }
    {
        Ok(bytes.len())
    }
}
