//! The log is started, and the open group is put into it.

ghost use Rattle.std.specs.Prelude.{◌≡◌, ◌≤◌, ◌+◌, ◌-◌, ◌++◌, ◌∷◌, [], true, false, map, reverse, ℕ, List as Seq, All, Some, is_some, IsTrue, is_ok, IfOk, OnOk, OnErr};
ghost use Rattle.std.specs.Global.{Vec};
ghost use Rattle.std.specs.Vec.{vec_len, vec_capacity};
ghost use Rattle.aria_page.specs.Lsn.{IsLsn};
ghost use Rattle.aria_page.specs.declared.lsn.Lsn.{Lsn as Number};
ghost use Rattle.aria_host.specs.Calls.{HasDiskCause};
ghost use Rattle.aria_host.specs.Folder.{Folder, is_log};
ghost use Rattle.aria_host.specs.Moments.{SameBut};
ghost use Rattle.aria_record.specs.Groups.{is_group};
ghost use Rattle.aria_record.specs.Logged.{Logged, lsn_at_place};
ghost use Rattle.aria_record.specs.Writing.{IsWriting, Pushes, last_record, last_size, records_of, size_of};
ghost use Rattle.aria_cache.specs.Ending.{newest, pending_after, EndFits, UndoesNewest};
ghost use Rattle.aria_log.specs.Log.{place};
ghost use Rattle.aria_log.specs.Causes.{HasAppendCause};
ghost use Rattle.aria_recovery.specs.Pending.{pending_of};
ghost use Rattle.aria_pager.specs.PageStore.{name_at};
ghost use Rattle.aria_pager.specs.Grouping.{AreEdits, HasEndCause, SameBodies, with_last, with_ended};
ghost use Rattle.aria_pager.specs.Turns.{Turns};
ghost use Rattle.aria_pager.specs.Pager.{IsPager, IsRunning};
ghost use Rattle.aria_pager.specs.Steps.{IsQuiet, Steps, Appends, with_start, with_end};

use crate::page_store::PageStore;
use aria_host::{Fault, FileName, Host};
use aria_page::{Last, Lsn};
use std::alloc::AllocError;

impl PageStore {
    /// Makes the log ready to be appended to.
    pub(crate) fn start<H: Host>(&mut self, host: &mut H) -> Result<(), Fault>
        requires pager { IsTrue H.tells → IsRunning self.old (H.state host.old) }
        ensures steps { IsTrue H.tells → (base : ℕ) (start : Folder) (groups : Seq Logged) (forced : ℕ) → IsPager self.old (H.state host.old) base start groups forced
            → Steps self.old self.new (H.state host.old) (H.state host.new) base start groups forced (is_ok result) }
        ensures started { OnOk result (self.new.started ≡ true) }
        ensures rest { self.new ≡ with_start self.old self.new.started self.new.log }
        ensures calm { IsTrue H.tells → SameBut is_log (H.state host.old).folder (H.state host.new).folder }
        ensures place { place self.new.log ≡ place self.old.log }
        ensures cause { HasDiskCause (H.state host.old) (H.state host.new) result }
    {
        let _file = FileName::Control;
        if self.started {
            return Ok(());
        }
        self.log.start(host)?;
        self.started = true;
        Ok(())
    }

    // Puts the record that ends the open group into it, and makes room for what is pending then.
    fn push_last(&mut self, slot: u32, last: &Last) -> Result<(), AllocError>
        requires writing { IsWriting self.old.writer }
        requires undo { All IsLsn self.old.pending.items }
        requires open { IsTrue (is_some (name_at self.old slot)) }
        requires fits { EndFits last.now }
        requires undoes { UndoesNewest last.now (reverse self.old.pending.items) }
        ensures entry { OnOk result ((name : Seq ℕ) → name_at self.old slot ≡ Some name → Pushes self.old.writer self.new.writer (last_record name (newest (reverse self.old.pending.items)) last.now) (last_size last.now)) }
        ensures bytes { OnOk result (size_of self.new.writer + 5 ≤ size_of self.old.writer + last_size last.now) }
        ensures room { OnOk result (vec_len self.new.pending + 1 ≤ vec_capacity self.new.pending) }
        ensures pending { self.new.pending.items ≡ self.old.pending.items }
        ensures rest { self.new ≡ with_last self.old self.new.writer self.new.pending }
    {
        let Some(slot) = self.slot(slot) else {
            return Err(AllocError);
        };
        if self.writer.is_full() {
            return Err(AllocError);
        }
        self.pending.reserve(1)?;
        let prev = self.last_undo();
        self.writer.push_last(&slot.name, prev, last)
    }

    // What is pending after a group that was appended: one more, or without the newest where that was undone.
    fn pend(&mut self, lsn: Lsn, last: &Last)
        requires room { vec_len self.old.pending + 1 ≤ vec_capacity self.old.pending }
        ensures pending { reverse self.new.pending.items ≡ pending_after lsn last.now (reverse self.old.pending.items) }
        ensures rest { self.new ≡ with_last self.old self.old.writer self.new.pending }
    {
        if let Last::Clr { .. } = last {
            self.pending.pop();
            return;
        }
        let Ok(()) = self.pending.push(lsn) else {
            unreachable!();
        };
    }

    // Appends the open group, whose pages get its log sequence number.
    fn append<H: Host>(&mut self, host: &mut H) -> Result<Lsn, Fault>
        requires pager { IsTrue H.tells → IsRunning self.old (H.state host.old) }
        requires started { self.old.started ≡ true }
        requires writing { IsWriting self.old.writer }
        requires group { IsTrue (is_group (records_of self.old.writer)) }
        requires quiet { IsQuiet (records_of self.old.writer) }
        ensures appended { IsTrue H.tells → OnOk result ((base : ℕ) (start : Folder) (groups : Seq Logged) (forced : ℕ) → IsPager self.old (H.state host.old) base start groups forced
            → (pending : Vec Number) → pending.items ≡ reverse (map lsn_at_place (pending_of (groups ++ record { at = place self.old.log; group = records_of self.old.writer } ∷ [])))
            → Appends self.old (with_end self.new self.new.log self.new.frames self.new.writer pending) (H.state host.old) (H.state host.new) base start groups forced (records_of self.old.writer)) }
        ensures failed { IsTrue H.tells → OnErr result ((base : ℕ) (start : Folder) (groups : Seq Logged) (forced : ℕ) → IsPager self.old (H.state host.old) base start groups forced
            → Steps self.old self.new (H.state host.old) (H.state host.new) base start groups forced false) }
        ensures rest { self.new ≡ with_end self.old self.new.log self.new.frames self.new.writer self.old.pending }
        ensures calm { IsTrue H.tells → SameBut is_log (H.state host.old).folder (H.state host.new).folder }
        ensures alike { SameBodies self.old.frames self.new.frames }
        ensures rises { place self.old.log ≤ place self.new.log }
        ensures most { place self.new.log ≤ place self.old.log + size_of self.old.writer }
        ensures entries { OnOk result (records_of self.new.writer ≡ []) }
        ensures pins { OnOk result (self.new.frames.pins.items ≡ []) }
        ensures lsn { IfOk result (λ lsn. lsn ≡ lsn_at_place (place self.old.log)) }
        ensures cause { HasAppendCause (place self.old.log + size_of self.old.writer) self.old.log self.new.log host.old host.new (H.state host.old) (H.state host.new) result }
    {
        let _file = FileName::Control;
        self.writer.seal();
        let lsn = self.log.append(host, self.writer.as_slice())?;
        self.frames.stamp_pins(lsn);
        self.writer.clear();
        Ok(lsn)
    }

    /// Puts the open group into the log, with this record at its end, and gives its log sequence number. Nothing is forced.
    pub(crate) fn end<H: Host>(
        &mut self,
        host: &mut H,
        slot: u32,
        last: &Last,
    ) -> Result<Lsn, Fault>
        requires pager { IsTrue H.tells → IsRunning self.old (H.state host.old) }
        requires writing { IsWriting self.old.writer }
        requires edits { AreEdits (records_of self.old.writer) }
        requires undo { All IsLsn self.old.pending.items }
        requires open { IsTrue (is_some (name_at self.old slot)) }
        requires fits { EndFits last.now }
        requires undoes { UndoesNewest last.now (reverse self.old.pending.items) }
        ensures ended { IsTrue H.tells → OnOk result ((base : ℕ) (start : Folder) (groups : Seq Logged) (forced : ℕ) → IsPager self.old (H.state host.old) base start groups forced → (name : Seq ℕ) → name_at self.old slot ≡ Some name
            → Turns self.old self.new (H.state host.old) (H.state host.new) base start groups forced (record { at = place self.old.log; group = records_of self.old.writer ++ last_record name (newest (reverse self.old.pending.items)) last.now ∷ [] }) true) }
        ensures failed { IsTrue H.tells → OnErr result ((base : ℕ) (start : Folder) (groups : Seq Logged) (forced : ℕ) → IsPager self.old (H.state host.old) base start groups forced
            → Steps self.old self.new (H.state host.old) (H.state host.new) base start groups forced false) }
        ensures pending { IfOk result (λ lsn. reverse self.new.pending.items ≡ pending_after lsn last.now (reverse self.old.pending.items)) }
        ensures pending_err { OnErr result (self.new.pending.items ≡ self.old.pending.items) }
        ensures rest { self.new ≡ with_ended self.old self.new.log self.new.started self.new.frames self.new.writer self.new.pending }
        ensures calm { IsTrue H.tells → SameBut is_log (H.state host.old).folder (H.state host.new).folder }
        ensures alike { SameBodies self.old.frames self.new.frames }
        ensures rises { place self.old.log ≤ place self.new.log }
        ensures most { place self.new.log + 5 ≤ place self.old.log + size_of self.old.writer + last_size last.now }
        ensures entries { OnOk result (records_of self.new.writer ≡ []) }
        ensures pins { OnOk result (self.new.frames.pins.items ≡ []) }
        ensures lsn { IfOk result (λ lsn. lsn ≡ lsn_at_place (place self.old.log)) }
        ensures cause { HasEndCause (place self.old.log + (size_of self.old.writer - 5 + last_size last.now)) (H.state host.old) (H.state host.new) result }
    {
        let _file = FileName::Control;
        self.start(host)?;
        self.push_last(slot, last)?;
        let lsn = self.append(host)?;
        self.pend(lsn, last);
        Ok(lsn)
    }
}
