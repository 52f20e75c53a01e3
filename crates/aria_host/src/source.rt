ghost use Rattle.std.specs.Prelude.{◌≡◌, ℕ, ◌<◌, ◌≤◌, List, Bool, length, IfOk, IfErr, OnOk};
ghost use Rattle.aria_host.specs.Source.{Takes, TakesNone};

use crate::Fault;

/// Input, read in pieces.
pub trait Source {
    /// Whether the clauses on the bytes that are left speak.
    ghost tells: { Bool };

    /// The bytes that are left.
    ghost left: { Self → List ℕ };

    /// How many bytes were taken, up to 2^128 - 1.
    ghost taken: { Self → ℕ };

    /// How often the input has failed, up to 2^64 - 1.
    ghost faults: { Self → ℕ };

    /// Takes bytes into the front of the buffer, and says how many; 0 is the end of the input.
    fn read(&mut self, into: &mut [u8]) -> Result<usize, Fault>
        requires { 0 < length into.old }
        ensures ok { IfOk result (λ n. Takes tells n into.new (left self.old) (left self.new) (taken self.old) (taken self.new)) }
        ensures err { IfErr result (λ fault. TakesNone fault (left self.old) (left self.new) (taken self.old) (taken self.new) (faults self.old) (faults self.new)) }
        ensures faults { faults self.old ≤ faults self.new }
        ensures calm { OnOk result (faults self.new ≡ faults self.old) };
}
