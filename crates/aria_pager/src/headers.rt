//! The tables that have slots must begin with headers.

ghost use Rattle.std.specs.Prelude.{◌≡◌, [], All, IsTrue, None, Some, OnOk};
ghost use Rattle.aria_host.specs.Calls.{Unchanged};
ghost use Rattle.aria_record.specs.Writing.{records_of};
ghost use Rattle.aria_cache.specs.Frames.{held};
ghost use Rattle.aria_pager.specs.PageStore.{name_at};
ghost use Rattle.aria_pager.specs.Pager.{IsRunning};
ghost use Rattle.aria_pager.specs.View.{IsTidy};
ghost use Rattle.aria_pager.specs.Headers.{HasHeader, HaveHeaders, BeginsIn, first_key, HasHeaderCause};

use crate::load::read_or_zero;
use crate::page_store::PageStore;
use crate::slot::{Slot, file_of};
use crate::table::{check_first, check_header};
use aria_cache::PageId;
use aria_host::{Fault, FileName, Host};
use aria_page::{Name, Part};

impl PageStore {
    // The table of a slot must begin with a header in its file, where memory doesn't hold its first page.
    fn check_file<H: Host>(&self, host: &mut H, n: u32, name: &Name) -> Result<(), Fault>
        requires tidy { IsTidy self.now }
        requires pager { IsTrue H.tells → IsRunning self.now (H.state host.old) }
        requires empty { records_of self.now.writer ≡ [] }
        requires named { name_at self.now n ≡ Some name.now }
        requires absent { held self.now.frames (first_key n) ≡ None }
        ensures same { IsTrue H.tells → Unchanged (H.state host.old) (H.state host.new) }
        ensures header { IsTrue H.tells → OnOk result (HasHeader self.now (H.state host.old).folder name.now) }
        ensures cause { HasHeaderCause H.tells self.now (H.state host.old) (H.state host.new) result }
    {
        let _file = FileName::Control;
        let Some(slot) = self.slot(n) else {
            unreachable!();
        };
        let file = file_of(name, Part::Keys);
        let page = read_or_zero(host, &file, slot.keys.written, 0)?;
        check_first(&page, &file, self.log.end())
    }

    // The table of a slot must begin with a header. Its first page isn't brought into memory.
    fn check_slot<H: Host>(&self, host: &mut H, n: u32, name: &Name) -> Result<(), Fault>
        requires tidy { IsTidy self.now }
        requires pager { IsTrue H.tells → IsRunning self.now (H.state host.old) }
        requires empty { records_of self.now.writer ≡ [] }
        requires named { name_at self.now n ≡ Some name.now }
        ensures same { IsTrue H.tells → Unchanged (H.state host.old) (H.state host.new) }
        ensures header { IsTrue H.tells → OnOk result (HasHeader self.now (H.state host.old).folder name.now) }
        ensures cause { HasHeaderCause H.tells self.now (H.state host.old) (H.state host.new) result }
    {
        let _file = FileName::Control;
        let at = PageId {
            slot: n,
            part: Part::Keys,
            page: 0,
        };
        match self.frames.peek(at.key()) {
            Some(frame) => check_header(frame.page.body(), &file_of(name, Part::Keys)),
            None => self.check_file(host, n, name),
        }
    }

    // The table must begin with a header, if it has a slot.
    fn check_table<H: Host>(&self, host: &mut H, name: &Name) -> Result<(), Fault>
        requires tidy { IsTidy self.now }
        requires pager { IsTrue H.tells → IsRunning self.now (H.state host.old) }
        requires empty { records_of self.now.writer ≡ [] }
        ensures same { IsTrue H.tells → Unchanged (H.state host.old) (H.state host.new) }
        ensures header { IsTrue H.tells → OnOk result (BeginsIn self.now (H.state host.old).folder name.now) }
        ensures cause { HasHeaderCause H.tells self.now (H.state host.old) (H.state host.new) result }
    {
        let _file = FileName::Control;
        match self.slot_of_table(name) {
            Some(n) => self.check_slot(host, n, name),
            None => Ok(()),
        }
    }

    // The tables of these slots must.
    fn check_slots<H: Host>(&self, host: &mut H, slots: &[Slot]) -> Result<(), Fault>
        requires tidy { IsTidy self.now }
        requires pager { IsTrue H.tells → IsRunning self.now (H.state host.old) }
        requires empty { records_of self.now.writer ≡ [] }
        ensures same { IsTrue H.tells → Unchanged (H.state host.old) (H.state host.new) }
        ensures headers { IsTrue H.tells → OnOk result (All (λ slot. BeginsIn self.now (H.state host.old).folder slot.name) slots.now) }
        ensures cause { HasHeaderCause H.tells self.now (H.state host.old) (H.state host.new) result }
    {
        let _file = FileName::Control;
        for slot in slots {
            self.check_table(host, &slot.name)?;
        }
        Ok(())
    }

    /// Each table that has a slot must begin with a header. Nothing is changed.
    pub(crate) fn check_tables<H: Host>(&self, host: &mut H) -> Result<(), Fault>
        requires tidy { IsTidy self.now }
        requires pager { IsTrue H.tells → IsRunning self.now (H.state host.old) }
        requires empty { records_of self.now.writer ≡ [] }
        ensures same { IsTrue H.tells → Unchanged (H.state host.old) (H.state host.new) }
        ensures headers { IsTrue H.tells → OnOk result (HaveHeaders self.now (H.state host.old).folder) }
        ensures cause { HasHeaderCause H.tells self.now (H.state host.old) (H.state host.new) result }
    {
        self.check_slots(host, self.slots.as_slice())
    }
}
