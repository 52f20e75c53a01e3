ghost use Rattle.std.specs.Prelude.{◌≡◌, ◌≤◌, [], false, length, take, IsTrue, IfOk, IfErr, IfSome, MatchOption, MatchResult, OnOk};
ghost use Rattle.aria_host.specs.Source.{Takes, TakesNone};
ghost use Rattle.aria_host.specs.System.{Gets, Tries};
ghost use Rattle.aria_host.specs.System.Call.{Took};

use crate::real::os::Os;
use crate::real::system::System;
use crate::{Fault, Source};
use std::io::ErrorKind;

/// Standard input. It tells no contents. A large buffer is filled by large reads.
#[derive(Drop)]
pub struct StdSource<S: System + Drop = Os> {
    system: S,
    taken: u128,
    faults: u64,
}

// One read of some bytes, or none at the end. A read that a signal interrupts is made again.
fn take_some<S: System>(system: &mut S, into: &mut [u8]) -> Option<usize>
    ensures within { IfSome result (λ n. n ≤ length into.new) }
    ensures calls { IsTrue S.tells → MatchOption result (Tries (S.calls system.old) (S.calls system.new)) (λ n. Gets (Took (take n into.new)) (S.calls system.old) (S.calls system.new)) }
{
    for _again in 0..u64::MAX {
        match system.take(into) {
            Ok(n) => return Some(n),
            Err(error) => {
                if error.kind() != ErrorKind::Interrupted {
                    return None;
                }
            }
        }
    }
    None
}

impl StdSource {
    pub fn new(rt: &HostRuntime) -> StdSource
        ensures taken { result.taken ≡ 0 }
        ensures faults { result.faults ≡ 0 }
    {
        StdSource {
            system: Os::new(rt),
            taken: 0,
            faults: 0,
        }
    }
}

impl<S: System + Drop> Source for StdSource<S> {
    ghost tells = { false };

    ghost left = { λ _. [] };

    ghost taken = { λ source. source.taken };

    ghost faults = { λ source. source.faults };

    fn read(&mut self, into: &mut [u8]) -> Result<usize, Fault>
        ensures ok { IfOk result (λ n. Takes false n into.new [] [] self.old.taken self.new.taken) }
        ensures err { IfErr result (λ fault. TakesNone fault [] [] self.old.taken self.new.taken self.old.faults self.new.faults) }
        ensures faults { self.old.faults ≤ self.new.faults }
        ensures calm { OnOk result (self.new.faults ≡ self.old.faults) }
        ensures calls { IsTrue S.tells → MatchResult result (λ n. Gets (Took (take n into.new)) (S.calls self.old.system) (S.calls self.new.system)) (λ _. Tries (S.calls self.old.system) (S.calls self.new.system)) }
    {
        match take_some(&mut self.system, into) {
            Some(n) => {
                self.taken = self.taken.saturating_add(n as u128);
                Ok(n)
            }
            None => {
                self.faults = self.faults.saturating_add(1);
                Err(Fault::Input)
            }
        }
    }
}
