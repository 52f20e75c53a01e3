//! Pages are edited between calls with any answer: a fault is kept, and answered from then on.

ghost use Rattle.std.specs.Prelude.{◌≡◌, ◌+◌, ◌-◌, ◌<◌, ◌≤◌, ◌^◌, ◌++◌, ◌∷◌, [], IsTrue, IsSome, IfSome, All, Some, None, true, is_some, is_ok, length, unwrap_or, OnOk};
ghost use Rattle.aria_page.specs.Edit.{IsWithin};
ghost use Rattle.aria_page.specs.Change.{edit_of, edits_of};
ghost use Rattle.aria_record.specs.declared.record.Record.TheVariants.{Redo};
ghost use Rattle.aria_record.specs.Writing.{records_of, redo_size, size_of};
ghost use Rattle.aria_log.specs.Log.{log_pages};
ghost use Rattle.aria_cache.specs.Calls.{fault_of};
ghost use Rattle.aria_cache.specs.PageState.{table_file, with_count};
ghost use Rattle.aria_pager.specs.PageStore.{name_at, with_rest};
ghost use Rattle.aria_pager.specs.Goes.{Stands, Stays};
ghost use Rattle.aria_pager.specs.Shows.{ShowsEdits, HasLookCause};
ghost use Rattle.aria_pager.specs.Steps.{SameTables};
ghost use Rattle.aria_pager.specs.View.{IsTidy, page_counts};

use crate::page_store::PageStore;
use crate::pager::fault_in;
use aria_cache::PageId;
use aria_host::{Fault, FileName, Host};
use aria_page::{Change, RedoKind};
use std::alloc::Global;

impl PageStore {
    /// Edits a page, as part of the open group, or answers the fault that is kept.
    pub(crate) fn edit_kept<H: Host>(
        &mut self,
        alloc: Global,
        host: &mut H,
        at: PageId,
        why: RedoKind,
        edits: &[Change<'_>],
    ) -> Result<(), Fault>
        requires tidy { IsTidy self.old }
        requires stands { IsTrue H.tells → Stands self.old (H.state host.old) }
        requires open { IsTrue (is_some (name_at self.old at.slot)) }
        requires group { self.old.in_group ≡ true }
        requires low { at.page < 2 ^ 31 }
        requires some { 1 ≤ length edits.now }
        requires within { All (λ e. IsWithin (edit_of e)) edits.now }
        requires pins { length self.old.frames.pins.items < 48 }
        requires made { self.old.made + length edits.now ≤ 254 }
        ensures tidy { IsTidy self.new }
        ensures moves { IsTrue H.tells → Stays self.old self.new (H.state host.old) (H.state host.new) }
        ensures same { SameTables self.old (with_rest self.new self.new.in_group self.new.made self.new.lent self.old.kept) }
        ensures reach { log_pages self.new.log ≡ log_pages self.old.log }
        ensures entries { OnOk result (records_of self.new.writer ≡ records_of self.old.writer ++ Redo why (unwrap_or (name_at self.old at.slot) []) at.part at.page (edits_of edits.now) ∷ []) }
        ensures counts { OnOk result (page_counts self.new ≡ with_count (table_file (unwrap_or (name_at self.old at.slot) []) at.part) (at.page + 1) (page_counts self.old)) }
        ensures shows { IsTrue H.tells → OnOk result (ShowsEdits (table_file (unwrap_or (name_at self.old at.slot) []) at.part) at.page (edits_of edits.now) self.old self.new (H.state host.old).folder (H.state host.new).folder) }
        ensures touched { length self.new.frames.pins.items ≤ length self.old.frames.pins.items + 1 }
        ensures made { self.new.made ≤ self.old.made + length edits.now }
        ensures bytes { size_of self.new.writer - 5 ≤ size_of self.old.writer - 5 + redo_size (edits_of edits.now) }
        ensures keeps { self.new.kept ≡ fault_of result }
        ensures again { IfSome self.old.kept (λ kept. fault_of result ≡ Some kept) }
        ensures still { IsSome self.old.kept → (self.new ≡ self.old) × (host.new ≡ host.old) }
        ensures cause { self.old.kept ≡ None → HasLookCause H.tells (table_file (unwrap_or (name_at self.old at.slot) []) at.part) at.page self.old (H.state host.old) (H.state host.new) result }
    {
        let _file = FileName::Control;
        if let Some(fault) = self.kept {
            return Err(fault);
        }
        let answer = self.edit(alloc, host, at, why, edits);
        self.kept = fault_in(&answer);
        answer
    }
}
