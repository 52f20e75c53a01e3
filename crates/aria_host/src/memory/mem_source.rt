ghost use Rattle.std.specs.Prelude.{◌≡◌, ◌+◌, ◌-◌, ◌^◌, ◌<◌, ◌≤◌, ◌∷◌, ◌++◌, [], min, length, take, drop, IfOk, IfErr, OnOk, IsOk, IsErr, is_ok, if◌then◌else◌, true, false};
ghost use Rattle.aria_host.specs.Source.{Takes, TakesNone};
ghost use Rattle.aria_host.specs.MemSource.{left_of, read_will_fail, IsAtStart, SameSource};

use crate::{Fault, Source};
use std::alloc::{AllocError, Global};

/// Input in memory, for tests: the given bytes, and no faults but those that are planned.
#[derive(Drop)]
pub struct MemSource {
    bytes: Vec<u8>,
    at: usize,
    calls: u64,
    planned: Vec<u64>,
    taken: u128,
    faults: u64,
}

// Copies bytes from the front of one slice to the front of the other, as many as both have room for.
fn copy_front(from: &[u8], into: &mut [u8]) -> usize
    ensures count { result ≡ min (length from.now) (length into.old) }
    ensures copied { take result into.new ≡ take result from.now }
    ensures rest { drop result into.new ≡ drop result into.old }
{
    let n = from.len().min(into.len());
    into[..n].copy_from_slice(&from[..n]);
    n
}

impl MemSource {
    pub fn new(alloc: Global, bytes: &[u8]) -> Result<MemSource, AllocError>
        ensures { IfOk result (λ source. IsAtStart bytes.now source) }
    {
        Ok(MemSource {
            bytes: Vec::from_slice(alloc, bytes)?,
            at: 0,
            calls: 0,
            planned: Vec::new(alloc),
            taken: 0,
            faults: 0,
        })
    }

    /// Lets the `read` of that number fail, counted from 0.
    pub fn plan_fault(&mut self, call: u64) -> Result<(), AllocError>
        ensures planned { self.new.planned.items ≡ (if is_ok result then self.old.planned.items ++ call ∷ [] else self.old.planned.items) }
        ensures same { SameSource self.old self.new }
        ensures calls { self.new.calls ≡ self.old.calls }
    {
        self.planned.push(call)?;
        Ok(())
    }

    fn rest(&self) -> &[u8]
        ensures { result.now ≡ left_of self.now }
    {
        &self.bytes[self.at.min(self.bytes.len())..]
    }

    // Counts a read, and says whether it is planned to fail.
    fn fails(&mut self) -> bool
        ensures planned { result ≡ read_will_fail self.old }
        ensures calls { self.new.calls ≡ min (self.old.calls + 1) (2 ^ 64 - 1) }
        ensures same { SameSource self.old self.new }
        ensures plan { self.new.planned.items ≡ self.old.planned.items }
    {
        let fails = self.planned.contains(&self.calls);
        self.calls = self.calls.saturating_add(1);
        fails
    }
}

impl Source for MemSource {
    ghost tells = { true };

    ghost left = { left_of };

    ghost taken = { λ source. source.taken };

    ghost faults = { λ source. source.faults };

    fn read(&mut self, into: &mut [u8]) -> Result<usize, Fault>
        requires { 0 < length into.old }
        ensures ok { IfOk result (λ n. Takes true n into.new (left_of self.old) (left_of self.new) self.old.taken self.new.taken) }
        ensures err { IfErr result (λ fault. TakesNone fault (left_of self.old) (left_of self.new) self.old.taken self.new.taken self.old.faults self.new.faults) }
        ensures faults { self.old.faults ≤ self.new.faults }
        ensures calm { OnOk result (self.new.faults ≡ self.old.faults) }

        // It fails exactly where that is planned, and takes as much as the buffer holds.
        ensures planned { read_will_fail self.old ≡ true → IsErr result }
        ensures succeeds { read_will_fail self.old ≡ false → IsOk result }
        ensures whole { IfOk result (λ n. n ≡ min (length (left_of self.old)) (length into.old)) }
        ensures calls { self.new.calls ≡ min (self.old.calls + 1) (2 ^ 64 - 1) }
        ensures plan { self.new.planned.items ≡ self.old.planned.items }
    {
        if self.fails() {
            self.faults = self.faults.saturating_add(1);
            return Err(Fault::Input);
        }
        let n = copy_front(self.rest(), into);
        self.at += n;
        self.taken = self.taken.saturating_add(n as u128);
        Ok(n)
    }
}
