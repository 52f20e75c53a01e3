//! Groups of one entry are appended. Behind COMMIT nothing is pending.

ghost use Rattle.std.specs.Prelude.{◌≡◌, ◌+◌, ◌≤◌, ◌++◌, ◌∷◌, [], true, false, ℕ, List as Seq, length, Some, None, IsTrue, IsSome, IfSome, is_ok, OnOk, OnErr};
ghost use Rattle.aria_page.specs.declared.place.Part.{Part};
ghost use Rattle.aria_host.specs.Folder.{Folder};
ghost use Rattle.aria_record.specs.declared.record.Record.{Record as AnyRecord};
ghost use Rattle.aria_record.specs.declared.record.Record.TheVariants.{Commit};
ghost use Rattle.aria_record.specs.Groups.{is_alone};
ghost use Rattle.aria_record.specs.Logged.{Logged};
ghost use Rattle.aria_record.specs.Writing.{Writes, records_of, size_of};
ghost use Rattle.aria_log.specs.Log.{IsLog, IsRunning as IsLogRunning, LogKeeps, place};
ghost use Rattle.aria_log.specs.Causes.{HasAppendCause};
ghost use Rattle.aria_cache.specs.Calls.{fault_of};
ghost use Rattle.aria_recovery.specs.Tables.{file};
ghost use Rattle.aria_pager.specs.PageStore.{with_rest};
ghost use Rattle.aria_pager.specs.Pager.{IsPager, IsRunning, Standing};
ghost use Rattle.aria_pager.specs.Goes.{Stands};
ghost use Rattle.aria_pager.specs.Turns.{Turns, Turned, alone, with_commit, with_alone};
ghost use Rattle.aria_pager.specs.View.{IsTidy};
ghost use Rattle.aria_pager.specs.Committed.{HasLogCause, with_committed};

use crate::page_store::PageStore;
use crate::pager::fault_in;
use aria_host::{Fault, FileName, Host};

// A group of one entry, COMMIT: its length, the number of its entries, the entry's kind, and the length of its body.
const COMMIT: [u8; 10] = [0, 0, 0, 6, 1, 15, 0, 0, 0, 0];

impl PageStore {
    // Appends COMMIT to a log that was started.
    fn append_commit<H: Host>(&mut self, host: &mut H) -> Result<(), Fault>
        requires pager { IsTrue H.tells → IsRunning self.old (H.state host.old) }
        requires started { IsTrue H.tells → self.old.started ≡ true }
        requires idle { IsTrue H.tells → records_of self.old.writer ≡ [] }
        ensures turns { IsTrue H.tells → (base : ℕ) (start : Folder) (groups : Seq Logged) (forced : ℕ) → IsPager self.old (H.state host.old) base start groups forced
            → Turns self.old self.new (H.state host.old) (H.state host.new) base start groups forced (alone self.old Commit) (is_ok result) }
        ensures pending { OnOk result (self.new.pending.items ≡ []) }
        ensures failed { OnErr result (self.new.pending ≡ self.old.pending) }
        ensures files { IsTrue H.tells → (name : Seq ℕ) (part : Part) → (H.state host.new).folder (file name part) ≡ (H.state host.old).folder (file name part) }
        ensures rises { place self.old.log ≤ place self.new.log }
        ensures most { place self.new.log ≤ place self.old.log + 10 }
        ensures rest { self.new ≡ with_commit self.old self.new.log self.new.pending }
        ensures cause { HasAppendCause (place self.old.log + 10) self.old self.new host.old host.new (H.state host.old) (H.state host.new) result }
    {
        let _file = FileName::Control;
        self.log.append(host, &COMMIT)?;
        self.pending.clear();
        Ok(())
    }

    // Starts the log, and appends COMMIT.
    fn put_commit<H: Host>(&mut self, host: &mut H) -> Result<(), Fault>
        requires pager { IsTrue H.tells → IsRunning self.old (H.state host.old) }
        requires idle { IsTrue H.tells → records_of self.old.writer ≡ [] }
        ensures turns { IsTrue H.tells → (base : ℕ) (start : Folder) (groups : Seq Logged) (forced : ℕ) → IsPager self.old (H.state host.old) base start groups forced
            → Turns self.old self.new (H.state host.old) (H.state host.new) base start groups forced (alone self.old Commit) (is_ok result) }
        ensures pending { OnOk result (self.new.pending.items ≡ []) }
        ensures failed { OnErr result (self.new.pending ≡ self.old.pending) }
        ensures rises { place self.old.log ≤ place self.new.log }
        ensures most { place self.new.log ≤ place self.old.log + 10 }
        ensures rest { self.new ≡ with_committed self.old self.new.started self.new.log self.new.pending }
        ensures cause { HasLogCause (place self.old.log + 10) (H.state host.old) (H.state host.new) result }
    {
        let _file = FileName::Control;
        self.start(host)?;
        self.append_commit(host)
    }

    /// Appends COMMIT, where no group is open: nothing is pending then. It takes no memory, and brings nothing to the disk.
    pub fn commit<H: Host>(&mut self, host: &mut H) -> Result<(), Fault>
        requires tidy { IsTidy self.old }
        requires stands { IsTrue H.tells → Stands self.old (H.state host.old) }
        requires none { self.old.in_group ≡ false }
        ensures tidy { IsTidy self.new }
        ensures moves { IsTrue H.tells → (base : ℕ) (start : Folder) (groups : Seq Logged) (forced : ℕ) → Standing self.old (H.state host.old) base start groups forced
            → Turned self.old self.new (H.state host.old) (H.state host.new) base start groups forced (alone self.old Commit) (is_ok result) }
        ensures pending { OnOk result (self.new.pending.items ≡ []) }
        ensures failed { OnErr result (self.new.pending ≡ self.old.pending) }
        ensures rises { place self.old.log ≤ place self.new.log }
        ensures most { place self.new.log ≤ place self.old.log + 10 }
        ensures rest { self.new ≡ with_rest (with_committed self.old self.new.started self.new.log self.new.pending) self.old.in_group self.old.made self.old.lent self.new.kept }
        ensures keeps { self.new.kept ≡ fault_of result }
        ensures again { IfSome self.old.kept (λ kept. fault_of result ≡ Some kept) }
        ensures still { IsSome self.old.kept → (self.new ≡ self.old) × (host.new ≡ host.old) }
        ensures cause { self.old.kept ≡ None → HasLogCause (place self.old.log + 10) (H.state host.old) (H.state host.new) result }
    {
        let _file = FileName::Control;
        if let Some(fault) = self.kept {
            return Err(fault);
        }
        let answer = self.put_commit(host);
        self.kept = fault_in(&answer);
        answer
    }

    /// Appends the one entry of the writer, which stands alone in its group, and brings it to the disk. It leaves the pages
    /// in memory alone.
    pub(crate) fn append_alone<H: Host>(&mut self, host: &mut H) -> Result<(), Fault>
        requires log { IsTrue H.tells → IsLogRunning self.old.log (H.state host.old) }
        requires alone { (r : AnyRecord) × Writes self.old.writer (r ∷ []) × IsTrue (is_alone (r ∷ [])) }
        ensures log { IsTrue H.tells → (base : ℕ) (groups : Seq Logged) (forced : ℕ) (r : AnyRecord) → IsLog self.old.log (H.state host.old) base groups forced → Writes self.old.writer (r ∷ []) → IsTrue (is_alone (r ∷ []))
            → OnOk result (IsLog self.new.log (H.state host.new) base (groups ++ alone self.old r ∷ []) (length (groups ++ alone self.old r ∷ []))) }
        ensures keeps { IsTrue H.tells → (base : ℕ) (groups : Seq Logged) (forced : ℕ) (r : AnyRecord) → IsLog self.old.log (H.state host.old) base groups forced → Writes self.old.writer (r ∷ []) → IsTrue (is_alone (r ∷ []))
            → LogKeeps (H.state host.old) (H.state host.new) base (groups ++ alone self.old r ∷ []) forced }
        ensures later { OnOk result (place self.old.log + size_of self.old.writer ≤ place self.new.log) }
        ensures empty { OnOk result (Writes self.new.writer []) }
        ensures rest { self.new ≡ with_alone self.old self.new.log self.new.writer }
        ensures cause { HasAppendCause (place self.old.log + size_of self.old.writer) self.old.log self.new.log host.old host.new (H.state host.old) (H.state host.new) result }
    {
        let _file = FileName::Control;
        let group = self.writer.finish();
        self.log.append(host, group)?;
        self.writer.clear();
        self.log.force(host)
    }
}
