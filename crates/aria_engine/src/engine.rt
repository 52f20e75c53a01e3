//! A store that holds its host.

ghost use Rattle.std.specs.Prelude.{◌≡◌, ◌≤◌, ◌∷◌, [], false, true, IfOk, IfErr, IfSome, IsErrOf, MatchResult, OnOk, OnErr, IsTrue, None, Some};
ghost use Rattle.aria_host.specs.Folder.{page_count};
ghost use Rattle.aria_host.specs.State.{LeavesOnly};
ghost use Rattle.aria_journal.specs.Front.{end_of};
ghost use Rattle.aria_journal.specs.Log.{log_file, log_pages};
ghost use Rattle.aria_model.specs.Grammar.{is_blank_line};
ghost use Rattle.aria_model.specs.World.{World};
ghost use Rattle.aria_engine.specs.Done.{Does, DoesPart};
ghost use Rattle.aria_engine.specs.Holds.{Holds, EachHolds, AreLogAlone};
ghost use Rattle.aria_engine.specs.Opening.{ChangesLogAlone, Opens};
ghost use Rattle.aria_engine.specs.Outcomes.{was_refused, was_blank};
ghost use Rattle.aria_engine.specs.Store.{tables_of, count_of, pages_of, IsFresh, IsRunning, IsSilent, StillHolds, SameFaults, NoFewerFaults, HasOpenCause, HasCause};

use crate::outcome::Outcome;
use crate::store::Store;
use aria_host::{Fault, Host};
use aria_model::Met;
use aria_page::List;
use std::alloc::Global;

/// A store together with the host that it stands on.
#[derive(Drop)]
pub struct Engine<'a, H: Host> {
    host: &'a mut H,
    store: Store,
}

impl<'a, H: Host> Engine<'a, H> {
    /// Opens the store of the host's folder, and holds the host until `close` or `into_host` hands it back; where no
    /// store comes, the host is handed back beside the fault. `cache` (pages), `held` (replies held back) and `quiet`
    /// are parameters of later versions: today they are not looked at.
    pub fn open(
        alloc: Global,
        host: &'a mut H,
        cache: u32,
        held: u32,
        quiet: bool,
    ) -> Result<Engine<'a, H>, (Fault, &'a mut H)>
        requires cache { (64 ≤ cache) × (cache ≤ 65536) }
        requires held { held ≡ 1 }
        requires quiet { quiet ≡ false }
        ensures same_reference { MatchResult result (λ engine. engine.host.ghost_name ≡ host.entry.ghost_name) (λ lost. lost.1.ghost_name ≡ host.entry.ghost_name) }
        ensures fresh { IfOk result (λ engine. IsFresh engine.store) }
        ensures holds { IsTrue H.tells → IfOk result (λ engine. Holds (H.state host.old).folder (tables_of engine.store)) }
        ensures running { IsTrue H.tells → IfOk result (λ engine. IsRunning engine.store (H.state engine.host.now)) }
        ensures ends { IsTrue H.tells → IfOk result (λ engine. pages_of engine.store ≡ end_of (log_pages (H.state host.old).folder)) }
        ensures pages { IsTrue H.tells → IfOk result (λ engine. pages_of engine.store ≤ page_count log_file (H.state host.old).folder) }
        ensures moments { IsTrue H.tells → (world : World) → EachHolds (H.state host.old) world
            → MatchResult result (λ engine. LeavesOnly (H.state host.old) (H.state engine.host.now) (StillHolds world (H.state host.old).out))
            (λ lost. LeavesOnly (H.state host.old) (H.state lost.1.now) (StillHolds world (H.state host.old).out)) }
        ensures silent { IsTrue H.tells → MatchResult result (λ engine. IsSilent (H.state host.old) (H.state engine.host.now)) (λ lost. IsSilent (H.state host.old) (H.state lost.1.now)) }
        ensures each { IsTrue H.tells → (world : World) → EachHolds (H.state host.old) world
            → MatchResult result (λ engine. EachHolds (H.state engine.host.now) world) (λ lost. EachHolds (H.state lost.1.now) world) }
        ensures opens { IsTrue H.tells → MatchResult result (λ engine. Opens (H.state host.old) (H.state engine.host.now) true) (λ lost. Opens (H.state host.old) (H.state lost.1.now) false) }
        ensures others { IsTrue H.tells → MatchResult result (λ engine. ChangesLogAlone (H.state host.old) (H.state engine.host.now)) (λ lost. ChangesLogAlone (H.state host.old) (H.state lost.1.now)) }
        ensures alone { IsTrue H.tells → IfOk result (λ engine. AreLogAlone (H.state engine.host.now)) }
        ensures cause { IfErr result (λ lost. HasOpenCause H.tells lost.0 (H.state host.old) (H.state lost.1.now)) }
        ensures calm { IfOk result (λ engine. SameFaults (H.state host.old) (H.state engine.host.now)) }
        ensures later { MatchResult result (λ engine. NoFewerFaults (H.state host.old) (H.state engine.host.now)) (λ lost. NoFewerFaults (H.state host.old) (H.state lost.1.now)) }
    {
        let _ = (cache, held, quiet);
        match Store::open(alloc, host) {
            Err(fault) => Err((fault, host)),
            Ok(store) => Ok(Engine { host, store }),
        }
    }

    /// Executes a line and tells its rows and its reply on standard output, unless it is blank. Where it changes the
    /// tables, it is on the disk before anything is told. After a fault the statement may have been executed or not.
    pub fn execute(&mut self, alloc: Global, line: &[u8]) -> Result<Outcome, Fault>
        requires running { IsTrue H.tells → self.old.store.kept ≡ None → IsRunning self.old.store (H.state self.old.host.now) }
        ensures same_reference { self.new.host.ghost_name ≡ self.old.host.ghost_name }
        ensures done { IfOk result (λ outcome. Does H.tells (line.now ∷ []) self.old.store self.new.store false (was_refused outcome) (H.state self.old.host.now) (H.state self.new.host.now)) }
        ensures blank { IfOk result (λ outcome. was_blank outcome ≡ is_blank_line line.now) }
        ensures refused { IfOk result (λ outcome. was_refused outcome ≡ true → tables_of self.new.store ≡ tables_of self.old.store) }
        ensures running { OnOk result (IsTrue H.tells → IsRunning self.new.store (H.state self.new.host.now)) }
        ensures part { self.old.store.kept ≡ None → OnErr result (DoesPart H.tells (line.now ∷ []) self.old.store self.new.store (H.state self.old.host.now) (H.state self.new.host.now)) }
        ensures cause { self.old.store.kept ≡ None → IfErr result (λ fault. HasCause fault (H.state self.old.host.now) (H.state self.new.host.now)) }
        ensures fresh { OnOk result (self.new.store.kept ≡ None) }
        ensures keeps { IfErr result (λ fault. self.new.store.kept ≡ Some fault) }
        ensures again { IfSome self.old.store.kept (λ fault. IsErrOf result fault) }
        ensures still { IfSome self.old.store.kept (λ fault. self.new.host.now ≡ self.old.host.now) }
        ensures calm { OnOk result (SameFaults (H.state self.old.host.now) (H.state self.new.host.now)) }
        ensures later { NoFewerFaults (H.state self.old.host.now) (H.state self.new.host.now) }
    {
        self.store.execute(alloc, self.host, line)
    }

    /// Ends a run: all is on the disk and told already, so nothing is done.
    pub fn finish(&mut self, alloc: Global) -> Result<(), Fault>
        ensures same_reference { self.new.host.ghost_name ≡ self.old.host.ghost_name }
        ensures again { IfErr result (λ fault. self.old.store.kept ≡ Some fault) }
        ensures fresh { OnOk result (self.old.store.kept ≡ None) }
        ensures same { (self.new.store ≡ self.old.store) × (self.new.host.now ≡ self.old.host.now) }
    {
        let _ = alloc;
        self.store.finish()
    }

    /// Hands out the exceptions that the statements since the last such call met, in their order. It also serves after a fault.
    pub fn take_met(&mut self, alloc: Global) -> List<Met>
        ensures same_reference { self.new.host.ghost_name ≡ self.old.host.ghost_name }
        ensures met { result ≡ self.old.store.tally.met }
        ensures emptied { self.new.store.tally.met ≡ [] }
        ensures count { count_of self.new.store ≡ count_of self.old.store }
        ensures same { (tables_of self.new.store ≡ tables_of self.old.store) × (self.new.store.log ≡ self.old.store.log) × (self.new.store.kept ≡ self.old.store.kept) }
        ensures still { self.new.host.now ≡ self.old.host.now }
    {
        self.store.take_met(alloc)
    }

    /// Ends the run as `finish` does, and hands the host back as it is.
    pub fn close(self, alloc: Global) -> (Result<(), Fault>, &'a mut H)
        ensures same_reference { result.1.ghost_name ≡ self.entry.host.ghost_name }
        ensures again { IfErr result.0 (λ fault. self.entry.store.kept ≡ Some fault) }
        ensures fresh { OnOk result.0 (self.entry.store.kept ≡ None) }
        ensures still { result.1.now ≡ self.entry.host.now }
    {
        let _ = alloc;
        let Engine { host, store } = self;
        (store.finish(), host)
    }

    /// Hands the host back as it is.
    pub fn into_host(self) -> &'a mut H
        ensures same_reference { result.ghost_name ≡ self.entry.host.ghost_name }
        ensures still { result.now ≡ self.entry.host.now }
    {
        let Engine { host, store: _ } = self;
        host
    }
}

#[cfg(test)]
mod tests {
    use super::Engine;
    use aria_host::{Fault, FileName, Host, MemHost, Stream};
    use aria_page::{List, Page};
    use std::alloc::Global;
    use std::test::Fail;

    // Executes three lines.
    fn execute<H: Host>(
        alloc: Global,
        engine: &mut Engine<'_, H>,
        first: &[u8],
        second: &[u8],
        third: &[u8],
    ) -> Result<(), Fault>
        requires { IsTrue H.tells → engine.old.store.kept ≡ None → IsRunning engine.old.store (H.state engine.old.host.now) }
        ensures { engine.new.host.ghost_name ≡ engine.old.host.ghost_name }
    {
        engine.execute(alloc, first)?;
        engine.execute(alloc, second)?;
        engine.execute(alloc, third)?;
        Ok(())
    }

    // Executes three lines on an engine of its own, and hands the host back with what `close` answers.
    fn run<'a>(
        alloc: Global,
        host: &'a mut MemHost,
        first: &[u8],
        second: &[u8],
        third: &[u8],
    ) -> (Result<(), Fault>, &'a mut MemHost) {
        match Engine::open(alloc, host, 64, 1, false) {
            Err((fault, host)) => (Err(fault), host),
            Ok(mut engine) => {
                let _ = execute(alloc, &mut engine, first, second, third);
                engine.close(alloc)
            }
        }
    }

    #[test]
    fn the_host_goes_on_behind_an_engine(rt: HostRuntime) -> Result<(), Fail> {
        let alloc = rt.alloc();
        let mut own = MemHost::new(alloc);
        own.reserve(200, 200)?;
        let (answer, host) = run(
            alloc,
            &mut own,
            b"create t trans a:int b:int keys k(a)",
            b"insert t (2,20)(1,10)",
            b"select t k",
        );
        assert!(rt; answer.is_ok());
        assert_eq!(rt;
            host.told(Stream::Out),
            b"ok\nok 2\nrow 1,10\nrow 2,20\nok 2\n".as_slice()
        );
        host.crash(&List::new(alloc))?;
        host.reserve(200, 200)?;
        let (answer, host) = run(alloc, host, b"insert t (3,30)", b"", b"select t k");
        assert!(rt; answer.is_ok());
        assert_eq!(rt;
            host.told(Stream::Out),
            b"ok\nok 2\nrow 1,10\nrow 2,20\nok 2\nok 1\nrow 1,10\nrow 2,20\nrow 3,30\nok 3\n".as_slice()
        );
        host.plan_fault(host.calls())?;
        let (answer, host) = run(alloc, host, b"", b"", b"");
        assert!(rt; matches!(answer, Err(Fault::Disk)));
        host.set_page(&FileName::Log(2), 0, &Page::zero())?;
        let (answer, _) = run(alloc, host, b"", b"", b"");
        assert!(rt;
            matches!(
                answer,
                Err(Fault::NotOurs {
                    file: FileName::Log(2)
                })
            )
        );
        Ok(())
    }
}
