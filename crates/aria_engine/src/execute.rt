//! Executes lines.

ghost use Rattle.std.specs.Prelude.{◌≡◌, ◌∷◌, [], false, true, IfOk, IfErr, IfSome, IsErrOf, OnOk, OnErr, IsTrue, None, Some};
ghost use Rattle.aria_model.specs.Grammar.{is_blank_line};
ghost use Rattle.aria_engine.specs.Done.{Does, DoesPart};
ghost use Rattle.aria_engine.specs.Outcomes.{was_refused, was_blank};
ghost use Rattle.aria_engine.specs.Store.{tables_of, count_of, IsRunning, SameFaults, NoFewerFaults, HasCause};

use crate::complete::complete;
use crate::outcome::{Outcome, of_statement};
use crate::store::Store;
use aria_host::{Fault, Host};
use aria_model::Met;
use aria_page::List;
use std::alloc::Global;

// The fault that was answered.
fn fault_of(answer: &Result<Outcome, Fault>) -> Option<Fault>
    ensures ok { OnOk answer.now (result ≡ None) }
    ensures err { IfErr answer.now (λ fault. result ≡ Some fault) }
{
    match answer {
        Ok(_) => None,
        Err(fault) => Some(*fault),
    }
}

impl Store {
    // Executes a line, where no fault was answered before.
    fn turn<H: Host>(&mut self, alloc: Global, host: &mut H, line: &[u8]) -> Result<Outcome, Fault>
        requires running { IsTrue H.tells → IsRunning self.old (H.state host.old) }
        ensures done { IfOk result (λ outcome. Does H.tells (line.now ∷ []) self.old self.new false (was_refused outcome) (H.state host.old) (H.state host.new)) }
        ensures blank { IfOk result (λ outcome. was_blank outcome ≡ is_blank_line line.now) }
        ensures refused { IfOk result (λ outcome. was_refused outcome ≡ true → tables_of self.new ≡ tables_of self.old) }
        ensures running { OnOk result (IsTrue H.tells → IsRunning self.new (H.state host.new)) }
        ensures part { OnErr result (DoesPart H.tells (line.now ∷ []) self.old self.new (H.state host.old) (H.state host.new)) }
        ensures cause { IfErr result (λ fault. HasCause fault (H.state host.old) (H.state host.new)) }
        ensures kept { self.new.kept ≡ self.old.kept }
        ensures calm { OnOk result (SameFaults (H.state host.old) (H.state host.new)) }
        ensures later { NoFewerFaults (H.state host.old) (H.state host.new) }
    {
        match self.take(alloc, line) {
            Err(error) => Err(Fault::Memory(error)),
            Ok(None) => Ok(Outcome::Blank),
            Ok(Some(turn)) => {
                complete(
                    &mut self.log,
                    host,
                    line,
                    turn.changed,
                    self.text.as_slice(),
                )?;
                Ok(of_statement(turn.refused))
            }
        }
    }

    /// Executes a line and tells its rows and its reply on standard output, unless it is blank. Where it changes the
    /// tables, it is on the disk before anything is told. After a fault the statement may have been executed or not.
    pub fn execute<H: Host>(
        &mut self,
        alloc: Global,
        host: &mut H,
        line: &[u8],
    ) -> Result<Outcome, Fault>
        requires running { IsTrue H.tells → self.old.kept ≡ None → IsRunning self.old (H.state host.old) }
        ensures done { IfOk result (λ outcome. Does H.tells (line.now ∷ []) self.old self.new false (was_refused outcome) (H.state host.old) (H.state host.new)) }
        ensures blank { IfOk result (λ outcome. was_blank outcome ≡ is_blank_line line.now) }
        ensures refused { IfOk result (λ outcome. was_refused outcome ≡ true → tables_of self.new ≡ tables_of self.old) }
        ensures running { OnOk result (IsTrue H.tells → IsRunning self.new (H.state host.new)) }
        ensures part { self.old.kept ≡ None → OnErr result (DoesPart H.tells (line.now ∷ []) self.old self.new (H.state host.old) (H.state host.new)) }
        ensures cause { self.old.kept ≡ None → IfErr result (λ fault. HasCause fault (H.state host.old) (H.state host.new)) }
        ensures fresh { OnOk result (self.new.kept ≡ None) }
        ensures keeps { IfErr result (λ fault. self.new.kept ≡ Some fault) }
        ensures again { IfSome self.old.kept (λ fault. IsErrOf result fault) }
        ensures still { IfSome self.old.kept (λ fault. host.new ≡ host.old) }
        ensures calm { OnOk result (SameFaults (H.state host.old) (H.state host.new)) }
        ensures later { NoFewerFaults (H.state host.old) (H.state host.new) }
    {
        if let Some(fault) = self.kept {
            return Err(fault);
        }
        let answer = self.turn(alloc, host, line);
        self.kept = fault_of(&answer);
        answer
    }

    /// Ends a run: all is on the disk and told already, so nothing is done.
    pub fn finish(&self) -> Result<(), Fault>
        ensures again { IfErr result (λ fault. self.now.kept ≡ Some fault) }
        ensures fresh { OnOk result (self.now.kept ≡ None) }
    {
        match self.kept {
            Some(fault) => Err(fault),
            None => Ok(()),
        }
    }

    /// Hands out the exceptions that the statements since the last such call met, in their order. It also serves after a fault.
    pub fn take_met(&mut self, alloc: Global) -> List<Met>
        ensures met { result ≡ self.old.tally.met }
        ensures emptied { self.new.tally.met ≡ [] }
        ensures count { count_of self.new ≡ count_of self.old }
        ensures same { (tables_of self.new ≡ tables_of self.old) × (self.new.log ≡ self.old.log) × (self.new.kept ≡ self.old.kept) }
    {
        self.tally.take(alloc)
    }
}
