//! The open group ends, or the fault that is kept is answered.

ghost use Rattle.std.specs.Prelude.{◌≡◌, ◌≤◌, ◌+◌, ◌-◌, ◌++◌, ◌∷◌, [], false, reverse, ℕ, List as Seq, Option, Some, None, is_some, IsTrue, IsSome, IfSome, IfOk, OnOk, OnErr};
ghost use Rattle.aria_host.specs.declared.fault.Fault.{Fault as AnyFault};
ghost use Rattle.aria_record.specs.Logged.{lsn_at_place};
ghost use Rattle.aria_record.specs.Writing.{last_record, last_size, records_of, size_of};
ghost use Rattle.aria_log.specs.Log.{place};
ghost use Rattle.aria_cache.specs.Calls.{fault_of};
ghost use Rattle.aria_cache.specs.Ending.{newest, pending_after, EndFits, UndoesNewest};
ghost use Rattle.aria_pager.specs.PageStore.{name_at, with_writer, with_rest};
ghost use Rattle.aria_pager.specs.Grouping.{HasEndCause, with_ended};
ghost use Rattle.aria_pager.specs.Goes.{Stands, Stays, Ends};
ghost use Rattle.aria_pager.specs.Looks.{KeepsPages};
ghost use Rattle.aria_pager.specs.View.{IsTidy};

use crate::page_store::PageStore;
use crate::pager::fault_in;
use aria_host::{Fault, FileName, Host};
use aria_page::{Last, Lsn};

impl PageStore {
    /// Puts the open group into the log, with this record at its end, or answers the fault that is kept. No group is open
    /// then, whatever is answered.
    pub(crate) fn end_kept<H: Host>(
        &mut self,
        host: &mut H,
        slot: u32,
        last: &Last,
    ) -> Result<Lsn, Fault>
        requires tidy { IsTidy self.old }
        requires stands { IsTrue H.tells → Stands self.old (H.state host.old) }
        requires open { IsTrue (is_some (name_at self.old slot)) }
        requires fits { EndFits last.now }
        requires undoes { UndoesNewest last.now (reverse self.old.pending.items) }
        ensures tidy { IsTidy self.new }
        ensures stays { IsTrue H.tells → OnErr result (Stays self.old self.new (H.state host.old) (H.state host.new)) }
        ensures ends { IsTrue H.tells → OnOk result ((name : Seq ℕ) → name_at self.old slot ≡ Some name
            → Ends self.old self.new (H.state host.old) (H.state host.new) (record { at = place self.old.log; group = records_of self.old.writer ++ last_record name (newest (reverse self.old.pending.items)) last.now ∷ [] } ∷ [])) }
        ensures lsn { IfOk result (λ lsn. lsn ≡ lsn_at_place (place self.old.log)) }
        ensures rest { self.new ≡ with_rest (with_ended self.old self.new.log self.new.started self.new.frames self.new.writer self.new.pending) false self.old.made self.old.lent self.new.kept }
        ensures pages { IsTrue H.tells → KeepsPages self.old self.new (H.state host.old).folder (H.state host.new).folder }
        ensures entries { records_of self.new.writer ≡ [] }
        ensures pending { IfOk result (λ lsn. reverse self.new.pending.items ≡ pending_after lsn last.now (reverse self.old.pending.items)) }
        ensures pending_err { OnErr result (self.new.pending.items ≡ self.old.pending.items) }
        ensures rises { place self.old.log ≤ place self.new.log }
        ensures most { place self.new.log ≤ place self.old.log + (size_of self.old.writer - 5 + last_size last.now) }
        ensures keeps { self.new.kept ≡ fault_of result }
        ensures again { IfSome self.old.kept (λ kept. fault_of result ≡ Some kept) }
        ensures still { IsSome self.old.kept → (self.new ≡ with_rest (with_writer self.old self.new.writer) false self.old.made self.old.lent self.old.kept) × (host.new ≡ host.old) }
        ensures cause { self.old.kept ≡ None → HasEndCause (place self.old.log + (size_of self.old.writer - 5 + last_size last.now)) (H.state host.old) (H.state host.new) result }
    {
        let _file = FileName::Control;
        if let Some(fault) = self.kept {
            self.writer.clear();
            self.in_group = false;
            return Err(fault);
        }
        let answer = self.end(host, slot, last);
        self.writer.clear();
        self.in_group = false;
        self.kept = fault_in(&answer);
        answer
    }
}
