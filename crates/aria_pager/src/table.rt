//! The tables by their names, and the slots that they get.

ghost use Rattle.std.specs.Prelude.{◌≡◌, ◌⊎◌, ◌<◌, ◌≤◌, ◌^◌, [], ℕ, List as Seq, Some, None, Ok, is_some, is_ok, IsTrue, IsSome, IfSome, IfOk, IfErr, OnOk, OnErr, nat_eq, true, false, slice_get, length, if◌then◌else◌};
ghost use Rattle.aria_page.specs.declared.page.TheConstants.{BODY_BYTES};
ghost use Rattle.aria_page.specs.declared.place.Part.TheVariants.{Keys, Rows};
ghost use Rattle.aria_page.specs.Lsn.{lsn_number};
ghost use Rattle.aria_page.specs.Page.{page_body};
ghost use Rattle.aria_host.specs.Calls.{Unchanged};
ghost use Rattle.aria_pager.specs.declared.page_store.PageStore.{PageStore as AnyStore};
ghost use Rattle.aria_value.specs.Named.{same_name};
ghost use Rattle.aria_host.specs.Folder.{Folder, page_count};
ghost use Rattle.aria_host.specs.Seen.{page_or_zero};
ghost use Rattle.aria_record.specs.Logged.{Logged};
ghost use Rattle.aria_record.specs.Writing.{records_of};
ghost use Rattle.aria_recovery.specs.Tables.{file, tables_of};
ghost use Rattle.aria_pager.specs.declared.slot.Slot.{Slot as SlotValue};
ghost use Rattle.aria_pager.specs.PageStore.{name_at, sizes_at, set_at, with_rest};
ghost use Rattle.aria_pager.specs.Pager.{IsPager, KnowsTables, known, next_number};
ghost use Rattle.aria_pager.specs.View.{IsTidy};
ghost use Rattle.aria_pager.specs.Filing.{with_tables};
ghost use Rattle.aria_pager.specs.Slotted.{given_slot, has_magic, IsHeaded, IsThere, OfFirst, HasTableCause, Gives, IsReserved, Opens};
ghost use Rattle.aria_pager.specs.Headers.{IsHeader, OfBody};
ghost use Rattle.aria_pager.specs.Goes.{Stands};
ghost use Rattle.aria_cache.specs.Calls.{fault_of};

use crate::evict::bounded;
use crate::load::{log_damaged, read_or_zero};
use crate::page_store::PageStore;
use crate::slot::{FilePages, Slot, file_of};
use aria_host::{Fault, FileName, Host};
use aria_page::{Lsn, Name, Page, PageKind, Part};
use std::alloc::AllocError;

// The slot of a table whose files have so many pages.
fn given_slot(name: &Name, keys: u32, rows: u32) -> Slot
    ensures { result ≡ given_slot name.now keys rows }
{
    Slot {
        name: *name,
        used: true,
        keys: FilePages::of(keys),
        rows: FilePages::of(rows),
    }
}

// Whether bytes 1 to 8 of a body are the magic of index files.
fn has_magic(body: &[u8]) -> bool
    requires { length body.now ≡ BODY_BYTES }
    ensures { result ≡ has_magic body.now }
{
    body[1..].starts_with(b"ARIAOWN1")
}

/// The body of the first page of an index file must be a header's, by its magic and its kind.
pub(crate) fn check_header(body: &[u8], file: &FileName) -> Result<(), Fault>
    requires { length body.now ≡ BODY_BYTES }
    ensures header { OnOk result (IsHeader body.now) }
    ensures cause { IfErr result (OfBody body.now file.now) }
{
    if !has_magic(body) {
        return Err(Fault::NotOurs { file: *file });
    }
    if body[0] != PageKind::Header.to_byte() {
        return Err(Fault::PageDamaged {
            file: *file,
            page: 0,
        });
    }
    Ok(())
}

/// The first page of an index file must be a header, by its magic and its kind, that isn't ahead of a log which ends here.
pub(crate) fn check_first(page: &Page, file: &FileName, end: Lsn) -> Result<(), Fault>
    ensures headed { OnOk result (IsHeaded (lsn_number end) page.now) }
    ensures len { OnOk result (length (page_body page.now) ≡ BODY_BYTES) }
    ensures cause { IfErr result (OfFirst true page.now file.now end) }
{
    let _file = FileName::Control;
    if !page.is_sound() {
        return Err(Fault::PageDamaged {
            file: *file,
            page: 0,
        });
    }
    check_header(page.body(), file)?;
    let lsn = page.lsn();
    if !lsn.is_before(end) {
        return Err(log_damaged(bounded(end)));
    }
    Ok(())
}

// How many pages a file of a table has, which must be there.
fn file_pages<H: Host>(host: &mut H, name: &Name, part: Part) -> Result<u32, Fault>
    ensures same { IsTrue H.tells → Unchanged (H.state host.old) (H.state host.new) }
    ensures there { IsTrue H.tells → IfOk result (IsThere name.now part (H.state host.new).folder) }
    ensures few { IfOk result (λ pages. pages ≤ 2 ^ 31) }
    ensures cause { (store : AnyStore) → HasTableCause H.tells store name.now (H.state host.old) (H.state host.new) result }
{
    let file = file_of(name, part);
    match host.look(&file)? {
        None => Err(Fault::FileMissing { file }),
        Some(extent) => Ok(extent.pages),
    }
}

// The fault that was answered in place of a slot.
fn fault_of_slot(answer: &Result<u32, Fault>) -> Option<Fault>
    ensures { result ≡ fault_of answer.now }
{
    match answer {
        Ok(_) => None,
        Err(fault) => Some(*fault),
    }
}

impl PageStore {
    /// There is a table of that name.
    pub fn has_table(&self, name: &Name) -> bool
        ensures known { result ≡ is_some (known self.now name.now) }
        ensures table { (folder : Folder) (groups : Seq Logged) → KnowsTables self.now folder groups → result ≡ is_some (tables_of folder groups name.now) }
    {
        self.tables.get(name).is_some()
    }

    // How many pages the files of a table have. Its index file must begin with a header.
    fn find_files<H: Host>(&self, host: &mut H, name: &Name) -> Result<(u32, u32), Fault>
        ensures same { IsTrue H.tells → Unchanged (H.state host.old) (H.state host.new) }
        ensures there { IsTrue H.tells → IfOk result (λ sizes. IsThere name.now Keys (H.state host.new).folder sizes.0 × IsThere name.now Rows (H.state host.new).folder sizes.1) }
        ensures few { IfOk result (λ sizes. (sizes.0 ≤ 2 ^ 31) × (sizes.1 ≤ 2 ^ 31)) }
        ensures headed { IsTrue H.tells → OnOk result (IsHeaded (next_number self.now) (page_or_zero 0 ((H.state host.new).folder (file name.now Keys)))) }
        ensures cause { HasTableCause H.tells self.now name.now (H.state host.old) (H.state host.new) result }
    {
        let _file = FileName::Control;
        let keys = file_pages(host, name, Part::Keys)?;
        let rows = file_pages(host, name, Part::Rows)?;
        let file = file_of(name, Part::Keys);
        let page = read_or_zero(host, &file, keys, 0)?;
        check_first(&page, &file, self.log.end())?;
        Ok((keys, rows))
    }

    // Lets a table be known by a slot, which stands for it from now on.
    fn take_slot(&mut self, n: u32, slot: Slot) -> Result<(), AllocError>
        requires there { IsTrue (is_some (slice_get self.old.slots n)) }
        ensures slots { OnOk result (self.new.slots ≡ set_at self.old.slots n slot) }
        ensures knows { OnOk result ((q : Seq ℕ) → known self.new q ≡ (if same_name slot.name q then Some (Some n) else known self.old q)) }
        ensures failed { OnErr result ((self.new.slots ≡ self.old.slots) × ((q : Seq ℕ) → known self.new q ≡ known self.old q)) }
        ensures rest { self.new ≡ with_tables self.old self.old.frames self.new.slots self.new.tables }
    {
        self.tables.insert(slot.name, Some(n))?;
        self.slots.overwrite(n as usize, &[slot]);
        Ok(())
    }

    // Gives a slot to a table that has none.
    fn open_table<H: Host>(&mut self, host: &mut H, name: &Name) -> Result<u32, Fault>
        requires none { (n : ℕ) → name_at self.old n ≡ Some name.now → ⊥ }
        ensures same { IsTrue H.tells → Unchanged (H.state host.old) (H.state host.new) }
        ensures pager { IsTrue H.tells → OnOk result ((base : ℕ) (start : Folder) (groups : Seq Logged) (forced : ℕ) → known self.old name.now ≡ Some None → records_of self.old.writer ≡ [] → IsPager self.old (H.state host.new) base start groups forced
            → IsPager self.new (H.state host.new) base start groups forced) }
        ensures gives { IfOk result (λ n. Gives name.now n self.old self.new) }
        ensures sizes { IsTrue H.tells → IfOk result (λ n. sizes_at self.new n ≡ Some (page_count (file name.now Keys) (H.state host.new).folder, page_count (file name.now Rows) (H.state host.new).folder)) }
        ensures headed { IsTrue H.tells → OnOk result (IsHeaded (next_number self.old) (page_or_zero 0 ((H.state host.new).folder (file name.now Keys)))) }
        ensures failed { OnErr result (IsReserved self.old self.new) }
        ensures tidy { IsTidy self.old → IsTidy self.new }
        ensures rest { self.new ≡ with_tables self.old self.old.frames self.new.slots self.new.tables }
        ensures cause { HasTableCause H.tells self.old name.now (H.state host.old) (H.state host.new) result }
    {
        let _file = FileName::Control;
        let (keys, rows) = self.find_files(host, name)?;
        let n = self.reserve(name)?;
        self.take_slot(n, given_slot(name, keys, rows))?;
        Ok(n)
    }

    // A slot stands for the table.
    fn stands_at(&self, n: u32, name: &Name) -> bool
        ensures on { IsTrue result → name_at self.now n ≡ Some name.now }
        ensures off { name_at self.now n ≡ Some name.now → IsTrue result }
    {
        match self.slot(n) {
            Some(slot) => slot.used && slot.name == *name,
            None => false,
        }
    }

    // The slot of the table, if it has one.
    pub(crate) fn slot_of_table(&self, name: &Name) -> Option<u32>
        ensures some { IfSome result (λ n. (known self.now name.now ≡ Some (Some n)) × (name_at self.now n ≡ Some name.now)) }
        ensures none { result ≡ None → (n : ℕ) → known self.now name.now ≡ Some (Some n) → name_at self.now n ≡ Some name.now → ⊥ }
    {
        match self.tables.get(name) {
            Some(Some(n)) => {
                if self.stands_at(*n, name) {
                    return Some(*n);
                }
                None
            }
            Some(None) => None,
            None => None,
        }
    }

    /// The slot of a table, where no group is open. One that has none gets one: both of its files must be there, and its index
    /// file must begin with a header. Nothing is changed in the folder.
    pub fn table<H: Host>(&mut self, host: &mut H, name: &Name) -> Result<u32, Fault>
        requires tidy { IsTidy self.old }
        requires stands { IsTrue H.tells → Stands self.old (H.state host.old) }
        requires idle { self.old.in_group ≡ false }
        requires known { IsTrue (is_some (known self.old name.now)) }
        ensures tidy { IsTidy self.new }
        ensures moves { IsTrue H.tells → Opens self.old self.new (H.state host.old) (H.state host.new) }
        ensures looks { IsTrue H.tells → Unchanged (H.state host.old) (H.state host.new) }
        ensures named { IfOk result (λ n. name_at self.new n ≡ Some name.now) }
        ensures had { self.old.kept ≡ None → (n : ℕ) → known self.old name.now ≡ Some (Some n) → name_at self.old n ≡ Some name.now → (result ≡ Ok n) × (self.new ≡ self.old) × (host.new ≡ host.old) }
        ensures gives { known self.old name.now ≡ Some None → IfOk result (λ n. Gives name.now n self.old self.new) }
        ensures sizes { IsTrue H.tells → known self.old name.now ≡ Some None → IfOk result (λ n. sizes_at self.new n ≡ Some (page_count (file name.now Keys) (H.state host.new).folder, page_count (file name.now Rows) (H.state host.new).folder)) }
        ensures headed { IsTrue H.tells → known self.old name.now ≡ Some None → OnOk result (IsHeaded (next_number self.old) (page_or_zero 0 ((H.state host.new).folder (file name.now Keys)))) }
        ensures failed { OnErr result (IsReserved self.old (with_rest self.new self.new.in_group self.new.made self.new.lent self.old.kept)) }
        ensures rest { self.new ≡ with_rest (with_tables self.old self.old.frames self.new.slots self.new.tables) self.old.in_group self.old.made self.old.lent self.new.kept }
        ensures keeps { self.new.kept ≡ fault_of result }
        ensures again { IfSome self.old.kept (λ kept. fault_of result ≡ Some kept) }
        ensures still { IsSome self.old.kept → (self.new ≡ self.old) × (host.new ≡ host.old) }
        ensures cause { self.old.kept ≡ None → HasTableCause H.tells self.old name.now (H.state host.old) (H.state host.new) result }
    {
        let _file = FileName::Control;
        if let Some(fault) = self.kept {
            return Err(fault);
        }
        if let Some(n) = self.slot_of_table(name) {
            return Ok(n);
        }
        let answer = self.open_table(host, name);
        self.kept = fault_of_slot(&answer);
        answer
    }
}
