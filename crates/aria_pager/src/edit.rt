//! Pages are edited, as part of the open group.

ghost use Rattle.std.specs.Prelude.{◌≡◌, ◌+◌, ◌<◌, ◌≤◌, ◌^◌, ◌++◌, ◌∷◌, [], max, if◌then◌else◌, ℕ, nat_eq, List as Seq, IsTrue, All, Some, is_some, is_ok, length, slice_get, unwrap_or, true, OnOk, OnErr};
ghost use Rattle.std.specs.Option.{option_map};
ghost use Rattle.std.specs.Map.{update};
ghost use Rattle.aria_page.specs.Edit.{IsWithin};
ghost use Rattle.aria_page.specs.Change.{edit_of, edits_of};
ghost use Rattle.aria_host.specs.Folder.{Folder};
ghost use Rattle.aria_record.specs.declared.record.Record.TheVariants.{Redo};
ghost use Rattle.aria_record.specs.Logged.{Logged};
ghost use Rattle.aria_record.specs.Writing.{Pushes, redo_size, size_of};
ghost use Rattle.aria_cache.specs.Key.{key_of};
ghost use Rattle.aria_cache.specs.PageState.{table_file, with_count};
ghost use Rattle.aria_log.specs.Log.{log_pages};
ghost use Rattle.aria_cache.specs.Frames.{held, is_pinned, edited_held};
ghost use Rattle.aria_pager.specs.declared.slot.Slot.{Slot as SlotValue};
ghost use Rattle.aria_pager.specs.PageStore.{name_at, set_at, sizes_at, sizes_after};
ghost use Rattle.aria_pager.specs.Pager.{IsPager, IsRunning, pages_in, with_pages};
ghost use Rattle.aria_pager.specs.Shows.{ShowsEdits, HasLookCause};
ghost use Rattle.aria_pager.specs.Steps.{SameTables, Adds, with_group};
ghost use Rattle.aria_pager.specs.View.{HasEdits, IsTidy, page_counts};

use crate::page_store::PageStore;
use crate::slot::Slot;
use aria_cache::PageId;
use aria_host::{Fault, FileName, Host};
use aria_page::{Change, List, RedoKind};
use std::alloc::{AllocError, Global};

// A page of the slot's table was edited.
fn set_edited(slots: &mut List<Slot>, at: PageId, slot: &Slot)
    requires there { at.slot < length slots.old }
    requires low { at.page < 2 ^ 31 }
    ensures { slots.new ≡ set_at slots.old at.slot (with_pages at.part (record { written = (pages_in slot.now at.part).written; pages = max (pages_in slot.now at.part).pages (at.page + 1) }) slot.now) }
{
    let slot = slot.with_edited(at.part, at.page);
    slots.overwrite(at.slot as usize, &[slot]);
}

impl PageStore {
    // Edits a page that is held.
    fn change(&mut self, at: PageId, why: RedoKind, edits: &[Change<'_>]) -> Result<(), AllocError>
        requires low { at.page < 2 ^ 31 }
        requires some { 1 ≤ length edits.now }
        requires within { All (λ e. IsWithin (edit_of e)) edits.now }
        requires pins { length self.old.frames.pins.items < 48 }
        requires made { self.old.made + length edits.now ≤ 254 }
        ensures held { OnOk result (held self.new.frames ≡ update nat_eq (held self.old.frames) (key_of at) (option_map (edited_held (edits_of edits.now)) (held self.old.frames (key_of at)))) }
        ensures pins { OnOk result (self.new.frames.pins.items ≡ (if is_pinned self.old.frames (key_of at) then self.old.frames.pins.items else self.old.frames.pins.items ++ key_of at ∷ [])) }
        ensures entry { OnOk result ((slot : SlotValue) → slice_get self.old.slots at.slot ≡ Some slot → Pushes self.old.writer self.new.writer (Redo why slot.name at.part at.page (edits_of edits.now)) (redo_size (edits_of edits.now))) }
        ensures slots { OnOk result ((slot : SlotValue) → slice_get self.old.slots at.slot ≡ Some slot
            → self.new.slots ≡ set_at self.old.slots at.slot (with_pages at.part (record { written = (pages_in slot at.part).written; pages = max (pages_in slot at.part).pages (at.page + 1) }) slot)) }
        ensures there { OnOk result (IsTrue (is_some (slice_get self.old.slots at.slot))) }
        ensures failed { OnErr result (self.new.slots ≡ self.old.slots) }
        ensures rest { self.new ≡ with_group self.old self.new.frames self.new.writer self.new.made self.new.slots }
        ensures bytes { size_of self.new.writer ≤ size_of self.old.writer + redo_size (edits_of edits.now) }
        ensures touched { length self.new.frames.pins.items ≤ length self.old.frames.pins.items + 1 }
        ensures made { self.new.made ≤ self.old.made + length edits.now }
        ensures edits { HasEdits self.old.writer → HasEdits self.new.writer }
    {
        let Some(slot) = self.slot(at.slot) else {
            return Err(AllocError);
        };
        if self.writer.is_full() {
            return Err(AllocError);
        }
        let Ok(()) = self
            .writer
            .push_redo(why, &slot.name, at.part, at.page, edits)
        else {
            self.writer.clear();
            return Err(AllocError);
        };
        set_edited(&mut self.slots, at, &slot);
        let key = at.key();
        self.frames.pin(key);
        self.frames.edit(key, edits);
        self.made += edits.len() as u32;
        Ok(())
    }

    /// Edits a page, as part of the open group.
    pub(crate) fn edit<H: Host>(
        &mut self,
        alloc: Global,
        host: &mut H,
        at: PageId,
        why: RedoKind,
        edits: &[Change<'_>],
    ) -> Result<(), Fault>
        requires pager { IsTrue H.tells → IsRunning self.old (H.state host.old) }
        requires open { IsTrue (is_some (name_at self.old at.slot)) }
        requires low { at.page < 2 ^ 31 }
        requires some { 1 ≤ length edits.now }
        requires within { All (λ e. IsWithin (edit_of e)) edits.now }
        requires pins { length self.old.frames.pins.items < 48 }
        requires made { self.old.made + length edits.now ≤ 254 }
        ensures adds { IsTrue H.tells → (base : ℕ) (start : Folder) (groups : Seq Logged) (forced : ℕ) → IsPager self.old (H.state host.old) base start groups forced
            → (name : Seq ℕ) → name_at self.old at.slot ≡ Some name
            → Adds self.old self.new (H.state host.old) (H.state host.new) base start groups forced (Redo why name at.part at.page (edits_of edits.now)) (is_ok result) }
        ensures entry { OnOk result (Pushes self.old.writer self.new.writer (Redo why (unwrap_or (name_at self.old at.slot) []) at.part at.page (edits_of edits.now)) (redo_size (edits_of edits.now))) }
        ensures tidy { IsTidy self.old → self.old.in_group ≡ true → IsTidy self.new }
        ensures counts { IsTidy self.old → self.old.in_group ≡ true → OnOk result (page_counts self.new ≡ with_count (table_file (unwrap_or (name_at self.old at.slot) []) at.part) (at.page + 1) (page_counts self.old)) }
        ensures shows { IsTrue H.tells → IsTidy self.old → self.old.in_group ≡ true
            → OnOk result (ShowsEdits (table_file (unwrap_or (name_at self.old at.slot) []) at.part) at.page (edits_of edits.now) self.old self.new (H.state host.old).folder (H.state host.new).folder) }
        ensures reach { log_pages self.new.log ≡ log_pages self.old.log }
        ensures same { SameTables self.old self.new }
        ensures sizes { OnOk result (sizes_at self.new ≡ sizes_after at (sizes_at self.old)) }
        ensures failed { OnErr result (sizes_at self.new ≡ sizes_at self.old) }
        ensures bytes { size_of self.new.writer ≤ size_of self.old.writer + redo_size (edits_of edits.now) }
        ensures touched { length self.new.frames.pins.items ≤ length self.old.frames.pins.items + 1 }
        ensures made { self.new.made ≤ self.old.made + length edits.now }
        ensures cause { IsTidy self.old → HasLookCause H.tells (table_file (unwrap_or (name_at self.old at.slot) []) at.part) at.page self.old (H.state host.old) (H.state host.new) result }
    {
        let _file = FileName::Control;
        self.hold(alloc, host, at)?;
        let _ = self.loaded();
        self.change(at, why, edits)?;
        Ok(())
    }
}
