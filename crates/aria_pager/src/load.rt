//! Pages are brought into memory.

ghost use Rattle.std.specs.Prelude.{◌≡◌, ◌<◌, ◌^◌, ℕ, List, true, IsTrue, None, is_some, is_ok, IfOk, IfErr, OnOk, OnErr};
ghost use Rattle.aria_host.specs.Calls.{HasDiskCause, Unchanged};
ghost use Rattle.aria_host.specs.Folder.{Folder, IsFileName, page_count};
ghost use Rattle.aria_host.specs.Seen.{page_or_zero};
ghost use Rattle.aria_record.specs.Logged.{Logged};
ghost use Rattle.aria_cache.specs.Key.{key_of};
ghost use Rattle.aria_cache.specs.Frames.{held, front, shown, count, room};
ghost use Rattle.aria_pager.specs.PageStore.{name_at};
ghost use Rattle.aria_pager.specs.Pager.{IsPagerAt, IsRunningAt};
ghost use Rattle.aria_pager.specs.Looks.{KeepsPages};
ghost use Rattle.aria_pager.specs.Redone.{KeepsLog, is_log_damage};
ghost use Rattle.aria_pager.specs.Steps.{SameWork, StepsAt, IsRead, HasHoldCause, damaged_at};
ghost use Rattle.aria_pager.specs.Turns.{KeepsAside};
ghost use Rattle.aria_pager.specs.View.{IsTidy};
ghost use Rattle.aria_log.specs.Log.{log_pages};
ghost use Rattle.aria_recovery.specs.Frames.{Progress};

use crate::page_store::PageStore;
use aria_cache::{Frame, PageId};
use aria_host::{Fault, FileName, Host};
use aria_page::{Lsn, PAGE_BYTES, Page};
use std::alloc::{AllocError, Global};

// The log is damaged at this place.
pub(crate) fn log_damaged(at: Lsn) -> Fault
    ensures { result ≡ damaged_at at }
{
    Fault::LogDamaged {
        file: at.file,
        page: at.offset / PAGE_BYTES as u32,
    }
}

// The page of a file, or zeros past its end.
pub(crate) fn read_or_zero<H: Host>(
    host: &mut H,
    file: &FileName,
    written: u32,
    page: u32,
) -> Result<Page, Fault>
    requires form { IsFileName file.now }
    requires written { IsTrue H.tells → page_count file.now (H.state host.old).folder ≡ written }
    ensures same { IsTrue H.tells → Unchanged (H.state host.old) (H.state host.new) }
    ensures page { IsTrue H.tells → IfOk result (λ found. found ≡ page_or_zero page ((H.state host.old).folder file.now)) }
    ensures cause { HasDiskCause (H.state host.old) (H.state host.new) result }
{
    let mut found = Page::zero();
    if page >= written {
        return Ok(found);
    }
    host.read_page(file, page, &mut found)?;
    Ok(found)
}

impl PageStore {
    // The page as it is to be held. It is damaged where it isn't sound, and the log is where the page is ahead of it.
    fn read_frame<H: Host>(&self, alloc: Global, host: &mut H, at: PageId) -> Result<Frame, Fault>
        requires pager { IsTrue H.tells → IsRunningAt self.now (H.state host.old) }
        requires open { IsTrue (is_some (name_at self.now at.slot)) }
        requires low { at.page < 2 ^ 31 }
        requires absent { held self.now.frames (key_of at) ≡ None }
        ensures same { IsTrue H.tells → Unchanged (H.state host.old) (H.state host.new) }
        ensures read { IsTrue H.tells → IfOk result (λ frame. IsRead self.now (H.state host.old) (key_of at) (shown frame)) }
        ensures cause { HasHoldCause H.tells self.now (key_of at) (H.state host.old) (H.state host.new) result }
    {
        let Some(slot) = self.slot(at.slot) else {
            return Err(Fault::Memory(AllocError));
        };
        let file = slot.file(at.part);
        let page = read_or_zero(host, &file, slot.pages(at.part).written, at.page)?;
        if !page.is_sound() {
            return Err(Fault::PageDamaged {
                file,
                page: at.page,
            });
        }
        let lsn = page.lsn();
        let end = self.log.end();
        if !lsn.is_before(end) {
            return Err(log_damaged(end));
        }
        let held = Box::new(alloc, page)?;
        Ok(Frame {
            page: held,
            lsn,
            dirty: false,
        })
    }

    // Reads a page that isn't held, where there is room.
    fn fetch<H: Host>(&mut self, alloc: Global, host: &mut H, at: PageId) -> Result<(), Fault>
        requires pager { IsTrue H.tells → IsRunningAt self.old (H.state host.old) }
        requires open { IsTrue (is_some (name_at self.old at.slot)) }
        requires low { at.page < 2 ^ 31 }
        requires room { count self.old.frames < room self.old.frames }
        ensures steps { IsTrue H.tells → (redone : Progress) (base : ℕ) (start : Folder) (groups : List Logged) (forced : ℕ) → IsPagerAt self.old (H.state host.old) redone base start groups forced
            → StepsAt self.old self.new (H.state host.old) (H.state host.new) redone base start groups forced (is_ok result) }
        ensures pins { self.new.frames.pins ≡ self.old.frames.pins }
        ensures held { OnOk result (IsTrue (is_some (held self.new.frames (key_of at)))) }
        ensures front { OnOk result (front self.new.frames ≡ held self.new.frames (key_of at)) }
        ensures gone { OnErr result (held self.new.frames (key_of at) ≡ None) }
        ensures log { self.new.log ≡ self.old.log }
        ensures reach { log_pages self.new.log ≡ log_pages self.old.log }
        ensures quiet { IsTrue H.tells → self.old.log.used ≡ 0 → OnOk result (KeepsLog self.old self.new (H.state host.old).folder (H.state host.new).folder) }
        ensures pages { IsTrue H.tells → IsTidy self.old → KeepsPages self.old self.new (H.state host.old).folder (H.state host.new).folder }
        ensures aside { IsTrue H.tells → KeepsAside (H.state host.old).folder (H.state host.new).folder }
        ensures same { SameWork self.old self.new }
        ensures cause { HasHoldCause H.tells self.new (key_of at) (H.state host.old) (H.state host.new) result }
    {
        let _file = FileName::Control;
        let key = at.key();
        if self.frames.find(key) {
            return Ok(());
        }
        let frame = self.read_frame(alloc, host, at)?;
        self.frames.insert(key, frame)?;
        Ok(())
    }

    /// Brings a page into memory, as the one that was used last.
    pub(crate) fn hold<H: Host>(
        &mut self,
        alloc: Global,
        host: &mut H,
        at: PageId,
    ) -> Result<(), Fault>
        requires pager { IsTrue H.tells → IsRunningAt self.old (H.state host.old) }
        requires open { IsTrue (is_some (name_at self.old at.slot)) }
        requires low { at.page < 2 ^ 31 }
        ensures steps { IsTrue H.tells → (redone : Progress) (base : ℕ) (start : Folder) (groups : List Logged) (forced : ℕ) → IsPagerAt self.old (H.state host.old) redone base start groups forced
            → StepsAt self.old self.new (H.state host.old) (H.state host.new) redone base start groups forced (is_ok result) }
        ensures pins { self.new.frames.pins ≡ self.old.frames.pins }
        ensures held { OnOk result (IsTrue (is_some (held self.new.frames (key_of at)))) }
        ensures front { OnOk result (front self.new.frames ≡ held self.new.frames (key_of at)) }
        ensures gone { OnErr result (held self.new.frames (key_of at) ≡ None) }
        ensures reach { log_pages self.new.log ≡ log_pages self.old.log }
        ensures quiet { IsTrue H.tells → self.old.log.used ≡ 0 → OnOk result (KeepsLog self.old self.new (H.state host.old).folder (H.state host.new).folder) }
        ensures late { IsTrue H.tells → self.old.log.used ≡ 0 → IfErr result (λ fault. is_log_damage fault ≡ true → self.new.log ≡ self.old.log) }
        ensures pages { IsTrue H.tells → IsTidy self.old → KeepsPages self.old self.new (H.state host.old).folder (H.state host.new).folder }
        ensures aside { IsTrue H.tells → KeepsAside (H.state host.old).folder (H.state host.new).folder }
        ensures same { SameWork self.old self.new }
        ensures cause { HasHoldCause H.tells self.new (key_of at) (H.state host.old) (H.state host.new) result }
    {
        let _file = FileName::Control;
        if self.frames.find(at.key()) {
            return Ok(());
        }
        self.make_room(host)?;
        self.fetch(alloc, host, at)
    }
}
