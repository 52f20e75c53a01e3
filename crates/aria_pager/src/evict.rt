//! Pages leave memory: one that was changed is written first, and behind the groups that changed it.

ghost use Rattle.std.specs.Prelude.{◌≡◌, ◌<◌, ◌≤◌, ◌+◌, ◌-◌, ◌*◌, ◌^◌, max, ℕ, List as Seq, IsTrue, None, Some, true, false, is_ok, length, slice_get, OnOk};
ghost use Rattle.aria_host.specs.Calls.{HasDiskCause, HasDiskOrMemoryCause};
ghost use Rattle.aria_host.specs.Folder.{Folder};
ghost use Rattle.aria_record.specs.Logged.{Logged};
ghost use Rattle.aria_cache.specs.Frames.{Held, held, is_pinned, count, room};
ghost use Rattle.aria_page.specs.Lsn.{lsn_number};
ghost use Rattle.aria_recovery.specs.Forced.{IsForced};
ghost use Rattle.aria_recovery.specs.Redo.{seen};
ghost use Rattle.aria_recovery.specs.Frames.{Progress, as_seen, is_dirty};
ghost use Rattle.aria_pager.specs.PageStore.{set_at};
ghost use Rattle.aria_pager.specs.Pager.{IsPagerAt, IsRunningAt, pages_in, with_pages};
ghost use Rattle.aria_pager.specs.Looks.{KeepsPages};
ghost use Rattle.aria_pager.specs.Redone.{KeepsLog};
ghost use Rattle.aria_pager.specs.Evicting.{ForcesFor};
ghost use Rattle.aria_pager.specs.Steps.{SameWork, StepsAt, ForcesAt};
ghost use Rattle.aria_pager.specs.Turns.{KeepsAside};
ghost use Rattle.aria_pager.specs.View.{IsTidy};
ghost use Rattle.aria_log.specs.Log.{log_pages, place};

use crate::page_store::PageStore;
use crate::slot::Slot;
use aria_cache::PageId;
use aria_host::{Fault, FileName, Host};
use aria_page::{List, Lsn, Page};
use std::alloc::AllocError;

// The same, of which a caller learns that it fits.
pub(crate) fn bounded(lsn: Lsn) -> Lsn
    ensures same { result ≡ lsn }
    ensures small { lsn.offset < 2 ^ 32 }
{
    lsn
}

// A page of the slot's table was written.
fn set_written(slots: &mut List<Slot>, at: PageId, slot: &Slot)
    requires there { at.slot < length slots.old }
    requires low { at.page < 2 ^ 31 }
    ensures { slots.new ≡ set_at slots.old at.slot (with_pages at.part (record { written = max (pages_in slot.now at.part).written (at.page + 1); pages = (pages_in slot.now at.part).pages }) slot.now) }
{
    let slot = slot.with_written(at.part, at.page);
    slots.overwrite(at.slot as usize, &[slot]);
}

impl PageStore {
    /// The slot of that number.
    pub(crate) fn slot(&self, n: u32) -> Option<Slot>
        ensures { result ≡ slice_get self.now.slots n }
    {
        match self.slots.as_slice().get(n as usize) {
            Some(slot) => Some(*slot),
            None => None,
        }
    }

    /// Brings all groups to the disk.
    pub(crate) fn force_all<H: Host>(&mut self, host: &mut H) -> Result<(), Fault>
        requires pager { IsTrue H.tells → IsRunningAt self.old (H.state host.old) }
        ensures forces { IsTrue H.tells → (redone : Progress) (base : ℕ) (start : Folder) (groups : Seq Logged) (forced : ℕ) → IsPagerAt self.old (H.state host.old) redone base start groups forced
            → ForcesAt self.old self.new (H.state host.old) (H.state host.new) redone base start groups forced (is_ok result) }
        ensures frames { self.new.frames ≡ self.old.frames }
        ensures reach { log_pages self.new.log ≡ log_pages self.old.log }
        ensures quiet { IsTrue H.tells → self.old.log.used ≡ 0 → OnOk result (KeepsLog self.old self.new (H.state host.old).folder (H.state host.new).folder) }
        ensures pages { IsTrue H.tells → IsTidy self.old → KeepsPages self.old self.new (H.state host.old).folder (H.state host.new).folder }
        ensures aside { IsTrue H.tells → KeepsAside (H.state host.old).folder (H.state host.new).folder }
        ensures same { SameWork self.old self.new }
        ensures cause { HasDiskCause (H.state host.old) (H.state host.new) result }
    {
        let _file = FileName::Control;
        if !self.started {
            return Ok(());
        }
        self.log.force(host)
    }

    // Brings all groups to the disk, where the one with that number isn't there.
    fn force_for<H: Host>(&mut self, host: &mut H, lsn: Lsn) -> Result<(), Fault>
        requires pager { IsTrue H.tells → IsRunningAt self.old (H.state host.old) }
        ensures forces { IsTrue H.tells → (redone : Progress) (base : ℕ) (start : Folder) (groups : Seq Logged) (forced : ℕ) → IsPagerAt self.old (H.state host.old) redone base start groups forced
            → ForcesFor self.old self.new (H.state host.old) (H.state host.new) redone base start groups forced (lsn_number lsn) (is_ok result) }
        ensures frames { self.new.frames ≡ self.old.frames }
        ensures low { place self.old.log ≤ 8176 * (2 ^ 34 - 1) }
        ensures reach { log_pages self.new.log ≡ log_pages self.old.log }
        ensures quiet { IsTrue H.tells → self.old.log.used ≡ 0 → OnOk result (KeepsLog self.old self.new (H.state host.old).folder (H.state host.new).folder) }
        ensures pages { IsTrue H.tells → IsTidy self.old → KeepsPages self.old self.new (H.state host.old).folder (H.state host.new).folder }
        ensures aside { IsTrue H.tells → KeepsAside (H.state host.old).folder (H.state host.new).folder }
        ensures same { SameWork self.old self.new }
        ensures cause { HasDiskCause (H.state host.old) (H.state host.new) result }
    {
        let _file = FileName::Control;
        if self.log.is_forced(host, lsn) {
            return Ok(());
        }
        self.force_all(host)
    }

    // Writes a page as it is held, where its own last group is on the disk.
    fn put<H: Host>(&mut self, host: &mut H, key: u64, page: &Page) -> Result<(), Fault>
        requires pager { IsTrue H.tells → (redone : Progress) × (base : ℕ) × (start : Folder) × (groups : Seq Logged) × (forced : ℕ) × (h : Held) × IsPagerAt self.old (H.state host.old) redone base start groups forced × (held self.old.frames key ≡ Some h) }
        ensures steps { IsTrue H.tells → (redone : Progress) (base : ℕ) (start : Folder) (groups : Seq Logged) (forced : ℕ) (h : Held) → IsPagerAt self.old (H.state host.old) redone base start groups forced
            → held self.old.frames key ≡ Some h → h.dirty ≡ true → is_pinned self.old.frames key ≡ false → seen page.now ≡ Some (as_seen h) → IsForced h.lsn groups forced
            → StepsAt self.old self.new (H.state host.old) (H.state host.new) redone base start groups forced (is_ok result) }
        ensures pins { self.new.frames.pins ≡ self.old.frames.pins }
        ensures fewer { (k : ℕ) → held self.old.frames k ≡ None → held self.new.frames k ≡ None }
        ensures clean { OnOk result (is_dirty (held self.new.frames) key ≡ false) }
        ensures dirty { (k : ℕ) → is_dirty (held self.new.frames) k ≡ true → is_dirty (held self.old.frames) k ≡ true }
        ensures reach { log_pages self.new.log ≡ log_pages self.old.log }
        ensures quiet { IsTrue H.tells → self.old.log.used ≡ 0 → OnOk result (KeepsLog self.old self.new (H.state host.old).folder (H.state host.new).folder) }
        ensures pages { IsTrue H.tells → IsTidy self.old → KeepsPages self.old self.new (H.state host.old).folder (H.state host.new).folder }
        ensures aside { IsTrue H.tells → KeepsAside (H.state host.old).folder (H.state host.new).folder }
        ensures same { SameWork self.old self.new }
        ensures cause { HasDiskCause (H.state host.old) (H.state host.new) result }
    {
        let at = PageId::of_key(key);
        let Some(slot) = self.slot(at.slot) else {
            self.frames.clean(key);
            return Ok(());
        };
        let file = slot.file(at.part);
        host.write_page(&file, at.page, page)?;
        set_written(&mut self.slots, at, &slot);
        self.frames.clean(key);
        Ok(())
    }

    /// Brings a page that isn't the open group's to its file, where the file may have another.
    pub(crate) fn write_back<H: Host>(&mut self, host: &mut H, key: u64) -> Result<(), Fault>
        requires pager { IsTrue H.tells → IsRunningAt self.old (H.state host.old) }
        requires free { IsTrue H.tells → is_pinned self.old.frames key ≡ false }
        ensures steps { IsTrue H.tells → (redone : Progress) (base : ℕ) (start : Folder) (groups : Seq Logged) (forced : ℕ) → IsPagerAt self.old (H.state host.old) redone base start groups forced
            → StepsAt self.old self.new (H.state host.old) (H.state host.new) redone base start groups forced (is_ok result) }
        ensures pins { self.new.frames.pins ≡ self.old.frames.pins }
        ensures fewer { (k : ℕ) → held self.old.frames k ≡ None → held self.new.frames k ≡ None }
        ensures clean { OnOk result (is_dirty (held self.new.frames) key ≡ false) }
        ensures dirty { (k : ℕ) → is_dirty (held self.new.frames) k ≡ true → is_dirty (held self.old.frames) k ≡ true }
        ensures reach { log_pages self.new.log ≡ log_pages self.old.log }
        ensures quiet { IsTrue H.tells → self.old.log.used ≡ 0 → OnOk result (KeepsLog self.old self.new (H.state host.old).folder (H.state host.new).folder) }
        ensures pages { IsTrue H.tells → IsTidy self.old → KeepsPages self.old self.new (H.state host.old).folder (H.state host.new).folder }
        ensures aside { IsTrue H.tells → KeepsAside (H.state host.old).folder (H.state host.new).folder }
        ensures same { SameWork self.old self.new }
        ensures cause { HasDiskCause (H.state host.old) (H.state host.new) result }
    {
        let Some(frame) = self.frames.peek(key) else {
            return Ok(());
        };
        if !frame.dirty {
            return Ok(());
        }
        let mut page: Page = *frame.page;
        let lsn = bounded(frame.lsn);
        page.seal(lsn);
        self.force_for(host, lsn)?;
        self.put(host, key, &page)
    }

    /// Takes a page that isn't the open group's out of memory. Where all are, that is want of memory.
    fn evict<H: Host>(&mut self, host: &mut H) -> Result<(), Fault>
        requires pager { IsTrue H.tells → IsRunningAt self.old (H.state host.old) }
        ensures steps { IsTrue H.tells → (redone : Progress) (base : ℕ) (start : Folder) (groups : Seq Logged) (forced : ℕ) → IsPagerAt self.old (H.state host.old) redone base start groups forced
            → StepsAt self.old self.new (H.state host.old) (H.state host.new) redone base start groups forced (is_ok result) }
        ensures pins { self.new.frames.pins ≡ self.old.frames.pins }
        ensures fewer { (k : ℕ) → held self.old.frames k ≡ None → held self.new.frames k ≡ None }
        ensures room { OnOk result (count self.new.frames < room self.new.frames) }
        ensures reach { log_pages self.new.log ≡ log_pages self.old.log }
        ensures quiet { IsTrue H.tells → self.old.log.used ≡ 0 → OnOk result (KeepsLog self.old self.new (H.state host.old).folder (H.state host.new).folder) }
        ensures pages { IsTrue H.tells → IsTidy self.old → KeepsPages self.old self.new (H.state host.old).folder (H.state host.new).folder }
        ensures aside { IsTrue H.tells → KeepsAside (H.state host.old).folder (H.state host.new).folder }
        ensures same { SameWork self.old self.new }
        ensures cause { HasDiskOrMemoryCause (H.state host.old) (H.state host.new) result }
    {
        let Some(key) = self.frames.choose() else {
            return Err(Fault::Memory(AllocError));
        };
        self.write_back(host, key)?;
        let _ = self.frames.count();
        if self.frames.remove(key).is_none() {
            return Err(Fault::Memory(AllocError));
        }
        Ok(())
    }

    /// Makes room for a page more.
    pub(crate) fn make_room<H: Host>(&mut self, host: &mut H) -> Result<(), Fault>
        requires pager { IsTrue H.tells → IsRunningAt self.old (H.state host.old) }
        ensures steps { IsTrue H.tells → (redone : Progress) (base : ℕ) (start : Folder) (groups : Seq Logged) (forced : ℕ) → IsPagerAt self.old (H.state host.old) redone base start groups forced
            → StepsAt self.old self.new (H.state host.old) (H.state host.new) redone base start groups forced (is_ok result) }
        ensures pins { self.new.frames.pins ≡ self.old.frames.pins }
        ensures fewer { (k : ℕ) → held self.old.frames k ≡ None → held self.new.frames k ≡ None }
        ensures room { OnOk result (count self.new.frames < room self.new.frames) }
        ensures reach { log_pages self.new.log ≡ log_pages self.old.log }
        ensures quiet { IsTrue H.tells → self.old.log.used ≡ 0 → OnOk result (KeepsLog self.old self.new (H.state host.old).folder (H.state host.new).folder) }
        ensures pages { IsTrue H.tells → IsTidy self.old → KeepsPages self.old self.new (H.state host.old).folder (H.state host.new).folder }
        ensures aside { IsTrue H.tells → KeepsAside (H.state host.old).folder (H.state host.new).folder }
        ensures same { SameWork self.old self.new }
        ensures cause { HasDiskOrMemoryCause (H.state host.old) (H.state host.new) result }
    {
        if self.frames.is_full() {
            return self.evict(host);
        }
        Ok(())
    }
}
