//! Pages are brought to their files, and files of tables to the disk.

ghost use Rattle.std.specs.Prelude.{◌≡◌, [], ℕ, List, IsTrue, IsSome, IfSome, Some, None, true, false, nat_eq, is_ok, OnOk};
ghost use Rattle.std.specs.List.{list_any};
ghost use Rattle.aria_page.specs.declared.place.Part.{Part as AnyPart};
ghost use Rattle.aria_host.specs.Calls.{HasDiskCause, HasDiskOrMemoryCause, Narrows};
ghost use Rattle.aria_host.specs.Folder.{Folder};
ghost use Rattle.aria_record.specs.Logged.{Logged};
ghost use Rattle.aria_log.specs.Log.{log_pages};
ghost use Rattle.aria_cache.specs.Calls.{fault_of};
ghost use Rattle.aria_cache.specs.Frames.{held, is_pinned};
ghost use Rattle.aria_recovery.specs.Tables.{file};
ghost use Rattle.aria_recovery.specs.Images.{SameNames};
ghost use Rattle.aria_recovery.specs.Frames.{Progress, is_dirty};
ghost use Rattle.aria_pager.specs.PageStore.{name_at, with_rest};
ghost use Rattle.aria_pager.specs.Pager.{IsPagerAt, IsRunningAt, Standing};
ghost use Rattle.aria_pager.specs.Goes.{Stands, Stays};
ghost use Rattle.aria_pager.specs.Steps.{SameWork, StepsAt, ForcesAt};
ghost use Rattle.aria_pager.specs.View.{IsTidy, page_bodies};
ghost use Rattle.aria_pager.specs.Committed.{Forced, Closes};

use crate::page_store::PageStore;
use crate::pager::fault_in;
use crate::slot::{Slot, file_of};
use aria_host::{Fault, FileName, Host};
use aria_page::{Name, Part};
use std::alloc::Global;

/// Brings both files of a table to the disk: each image has them as they read then.
pub(crate) fn sync_table<H: Host>(host: &mut H, name: &Name) -> Result<(), Fault>
    requires there { IsTrue H.tells → (part : AnyPart) → IsSome ((H.state host.old).folder (file name.now part)) }
    requires names { IsTrue H.tells → (c : Folder) → (H.state host.old).may_leave c → SameNames (H.state host.old).folder c }
    ensures narrows { IsTrue H.tells → Narrows (H.state host.old) (H.state host.new) }
    ensures durable { IsTrue H.tells → OnOk result ((c : Folder) → (H.state host.new).may_leave c → (part : AnyPart) → c (file name.now part) ≡ (H.state host.new).folder (file name.now part)) }
    ensures cause { HasDiskCause (H.state host.old) (H.state host.new) result }
{
    let keys = file_of(name, Part::Keys);
    let rows = file_of(name, Part::Rows);
    host.sync(&keys)?;
    host.sync(&rows)
}

// Brings both files of a slot's table to the disk, where the slot is used.
fn sync_slot<H: Host>(host: &mut H, slot: &Slot) -> Result<(), Fault>
    requires there { IsTrue H.tells → slot.now.used ≡ true → (part : AnyPart) → IsSome ((H.state host.old).folder (file slot.now.name part)) }
    requires names { IsTrue H.tells → (c : Folder) → (H.state host.old).may_leave c → SameNames (H.state host.old).folder c }
    ensures narrows { IsTrue H.tells → Narrows (H.state host.old) (H.state host.new) }
    ensures durable { IsTrue H.tells → OnOk result (slot.now.used ≡ true → (c : Folder) → (H.state host.new).may_leave c → (part : AnyPart) → c (file slot.now.name part) ≡ (H.state host.new).folder (file slot.now.name part)) }
    ensures cause { HasDiskCause (H.state host.old) (H.state host.new) result }
{
    if !slot.used {
        return Ok(());
    }
    sync_table(host, &slot.name)
}

impl PageStore {
    // Brings both files of each table that has a slot to the disk.
    fn sync_tables<H: Host>(&self, host: &mut H) -> Result<(), Fault>
        requires pager { IsTrue H.tells → IsRunningAt self.now (H.state host.old) }
        ensures steps { IsTrue H.tells → (redone : Progress) (base : ℕ) (start : Folder) (groups : List Logged) (forced : ℕ) → IsPagerAt self.now (H.state host.old) redone base start groups forced
            → StepsAt self.now self.now (H.state host.old) (H.state host.new) redone base start groups forced (is_ok result) }
        ensures durable { IsTrue H.tells → OnOk result ((c : Folder) → (H.state host.new).may_leave c → (n : ℕ) (name : List ℕ) → name_at self.now n ≡ Some name → (part : AnyPart) → c (file name part) ≡ (H.state host.new).folder (file name part)) }
        ensures cause { HasDiskCause (H.state host.old) (H.state host.new) result }
    {
        for slot in self.slots.as_slice() {
            sync_slot(host, slot)?;
        }
        Ok(())
    }

    // Brings these pages to their files, where the files may have others.
    fn write_pages<H: Host>(&mut self, host: &mut H, keys: &[u64]) -> Result<(), Fault>
        requires pager { IsTrue H.tells → IsRunningAt self.old (H.state host.old) }
        requires free { IsTrue H.tells → (k : ℕ) → is_pinned self.old.frames k ≡ false }
        ensures steps { IsTrue H.tells → (redone : Progress) (base : ℕ) (start : Folder) (groups : List Logged) (forced : ℕ) → IsPagerAt self.old (H.state host.old) redone base start groups forced
            → StepsAt self.old self.new (H.state host.old) (H.state host.new) redone base start groups forced (is_ok result) }
        ensures pins { self.new.frames.pins ≡ self.old.frames.pins }
        ensures clean { OnOk result ((k : ℕ) → list_any (nat_eq k) keys.now ≡ true → is_dirty (held self.new.frames) k ≡ false) }
        ensures fewer { (k : ℕ) → is_dirty (held self.new.frames) k ≡ true → is_dirty (held self.old.frames) k ≡ true }
        ensures reach { log_pages self.new.log ≡ log_pages self.old.log }
        ensures same { SameWork self.old self.new }
        ensures cause { HasDiskCause (H.state host.old) (H.state host.new) result }
    {
        for key in keys {
            self.write_back(host, *key)?;
        }
        Ok(())
    }

    // Brings all groups to the disk, then the dirty pages to their files, and these to the disk.
    fn write_files<H: Host>(&mut self, alloc: Global, host: &mut H) -> Result<(), Fault>
        requires pager { IsTrue H.tells → IsRunningAt self.old (H.state host.old) }
        requires free { IsTrue H.tells → (k : ℕ) → is_pinned self.old.frames k ≡ false }
        ensures forces { IsTrue H.tells → (redone : Progress) (base : ℕ) (start : Folder) (groups : List Logged) (forced : ℕ) → IsPagerAt self.old (H.state host.old) redone base start groups forced
            → ForcesAt self.old self.new (H.state host.old) (H.state host.new) redone base start groups forced (is_ok result) }
        ensures pins { self.new.frames.pins ≡ self.old.frames.pins }
        ensures clean { OnOk result ((k : ℕ) → is_dirty (held self.new.frames) k ≡ false) }
        ensures durable { IsTrue H.tells → OnOk result ((c : Folder) → (H.state host.new).may_leave c → (n : ℕ) (name : List ℕ) → name_at self.new n ≡ Some name → (part : AnyPart) → c (file name part) ≡ (H.state host.new).folder (file name part)) }
        ensures reach { log_pages self.new.log ≡ log_pages self.old.log }
        ensures same { SameWork self.old self.new }
        ensures cause { HasDiskOrMemoryCause (H.state host.old) (H.state host.new) result }
    {
        let keys = self.frames.dirty(alloc)?;
        self.force_all(host)?;
        self.write_pages(host, keys.as_slice())?;
        self.sync_tables(host)
    }

    /// Brings all groups to the disk, then the dirty pages to their files, and these to the disk: a crash from then on leaves
    /// the files of the tables that have a slot as they read.
    pub fn write_all<H: Host>(&mut self, alloc: Global, host: &mut H) -> Result<(), Fault>
        requires tidy { IsTidy self.old }
        requires stands { IsTrue H.tells → Stands self.old (H.state host.old) }
        requires none { self.old.in_group ≡ false }
        ensures tidy { IsTidy self.new }
        ensures moves { IsTrue H.tells → Stays self.old self.new (H.state host.old) (H.state host.new) }
        ensures forces { IsTrue H.tells → OnOk result ((base : ℕ) (start : Folder) (groups : List Logged) (forced : ℕ) → Standing self.old (H.state host.old) base start groups forced
            → Forced self.old self.new (H.state host.old) (H.state host.new) base start groups forced) }
        ensures clean { OnOk result ((k : ℕ) → is_dirty (held self.new.frames) k ≡ false) }
        ensures durable { IsTrue H.tells → OnOk result ((c : Folder) → (H.state host.new).may_leave c → (n : ℕ) (name : List ℕ) → name_at self.old n ≡ Some name → (part : AnyPart) → c (file name part) ≡ (H.state host.new).folder (file name part)) }
        ensures same { SameWork self.old (with_rest self.new self.new.in_group self.new.made self.new.lent self.old.kept) }
        ensures pins { self.new.frames.pins ≡ self.old.frames.pins }
        ensures reach { log_pages self.new.log ≡ log_pages self.old.log }
        ensures bodies { IsTrue H.tells → OnOk result (page_bodies self.new (H.state host.new).folder ≡ page_bodies self.old (H.state host.old).folder) }
        ensures keeps { self.new.kept ≡ fault_of result }
        ensures again { IfSome self.old.kept (λ kept. fault_of result ≡ Some kept) }
        ensures still { IsSome self.old.kept → (self.new ≡ self.old) × (host.new ≡ host.old) }
        ensures cause { self.old.kept ≡ None → HasDiskOrMemoryCause (H.state host.old) (H.state host.new) result }
    {
        let _file = FileName::Control;
        if let Some(fault) = self.kept {
            return Err(fault);
        }
        let answer = self.write_files(alloc, host);
        self.kept = fault_in(&answer);
        answer
    }

    /// Brings all to the disk, and lets the pages go. Nothing is appended to the log.
    pub fn close<H: Host>(self, alloc: Global, host: &mut H) -> Result<(), Fault>
        requires tidy { IsTidy self }
        requires stands { IsTrue H.tells → Stands self (H.state host.old) }
        requires none { self.in_group ≡ false }
        ensures closes { IsTrue H.tells → (base : ℕ) (start : Folder) (groups : List Logged) (forced : ℕ) → Standing self (H.state host.old) base start groups forced
            → Closes self (H.state host.old) (H.state host.new) base groups forced (is_ok result) }
        ensures durable { IsTrue H.tells → OnOk result ((c : Folder) → (H.state host.new).may_leave c → (n : ℕ) (name : List ℕ) → name_at self n ≡ Some name → (part : AnyPart) → c (file name part) ≡ (H.state host.new).folder (file name part)) }
        ensures again { IfSome self.kept (λ kept. fault_of result ≡ Some kept) }
        ensures still { IsSome self.kept → host.new ≡ host.old }
        ensures cause { self.kept ≡ None → HasDiskOrMemoryCause (H.state host.old) (H.state host.new) result }
    {
        let _file = FileName::Control;
        let mut store = self;
        store.write_all(alloc, host)
    }
}
