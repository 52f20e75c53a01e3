//! The tables are entered in memory, before the groups of the log are made again.

ghost use Rattle.std.specs.Prelude.{◌≡◌, ◌⊎◌, ◌+◌, ◌-◌, ◌<◌, ◌≤◌, ◌^◌, ◌&&◌, ◌∷◌, ◌++◌, [], not, max, ℕ, List as Seq, All, IsTrue, true, false, None, Some, length, IfOk, IfErr, OnOk, if◌then◌else◌, alloc_error};
ghost use Rattle.std.specs.BTreeMap.{get};
ghost use Rattle.std.specs.Cmp.Lexicographic.{slice_cmp};
ghost use Rattle.std.specs.Ordering.{nat_cmp};
ghost use Rattle.aria_page.specs.Lsn.{IsLsn};
ghost use Rattle.aria_page.specs.declared.lsn.Lsn.{Lsn as Number};
ghost use Rattle.aria_page.specs.declared.place.Part.TheVariants.{Keys};
ghost use Rattle.aria_value.specs.Named.{same_name};
ghost use Rattle.aria_host.specs.Calls.{Unchanged};
ghost use Rattle.aria_host.specs.Folder.{Folder, same_file};
ghost use Rattle.aria_host.specs.declared.fault.Fault.TheVariants.{Memory, TooManyTables};
ghost use Rattle.aria_record.specs.Logged.{Logged, lsn_at_place};
ghost use Rattle.aria_record.specs.Writing.{records_of};
ghost use Rattle.aria_recovery.specs.Tables.{file};
ghost use Rattle.aria_recovery.specs.Analysed.{Has};
ghost use Rattle.aria_cache.specs.Frames.{held};
ghost use Rattle.aria_pager.specs.Pager.{known};
ghost use Rattle.aria_pager.specs.Headers.{AreToldOf};
ghost use Rattle.aria_pager.specs.View.{IsTidy};
ghost use Rattle.aria_pager.specs.Filing.{AreTidy, with_tables};
ghost use Rattle.aria_pager.specs.Settled.{IsSettled};
ghost use Rattle.aria_pager.specs.Redone.{BeginsRedo};
ghost use Rattle.aria_pager.specs.Entered.{was_dropped, needs_slot, reach_of, is_listed, has_slot, used_slot, AreLow, AreListed, HasPages, IsEntering, HasSlot, KeepSlots, HaveSlots, IsBlank, HasEntered, LacksFile, LacksOne, HasMany, AreMany, HasEnterCause};

use crate::page_store::PageStore;
use crate::slot::{FilePages, MAX_SLOTS, Slot, file_of};
use aria_cache::Frames;
use aria_host::{Fault, FileName, Host, MAX_PAGES};
use aria_log::Log;
use aria_page::{List, Lsn, Name, Page, Part};
use aria_record::GroupWriter;
use aria_recovery::{Analysis, Told};
use std::alloc::{AllocError, Global};
use std::collections::BTreeMap;
use std::num::NonZeroUsize;

// The fewest pages that there is room for in memory.
const FEWEST_PAGES: u32 = 64;

// The files of the log are numbered up to this.
const MAX_LOG: u32 = (1 << 24) - 1;

// Whether the groups dropped the table last.
fn was_dropped(analysis: &Analysis, name: &Name) -> bool
    ensures { (checkpoint : Number) (groups : Seq Logged) → Has checkpoint analysis.now groups → result ≡ was_dropped name.now groups }
{
    match analysis.told(name) {
        Told::Nothing => false,
        Told::Dropped => true,
        Told::Made(_) => false,
    }
}

// Whether the groups made the table last, or have records of its pages.
pub(crate) fn needs_slot(analysis: &Analysis, name: &Name) -> bool
    ensures { (checkpoint : Number) (groups : Seq Logged) → Has checkpoint analysis.now groups → result ≡ needs_slot name.now groups }
{
    let keys = analysis.reach(name, Part::Keys);
    let rows = analysis.reach(name, Part::Rows);
    match analysis.told(name) {
        Told::Nothing => 0 < keys.max(rows),
        Told::Dropped => false,
        Told::Made(_) => true,
    }
}

// A file that has so many pages, of which groups edit some below a number.
fn with_reach(written: u32, reach: u64) -> FilePages
    requires { written ≤ 2 ^ 31 }
    ensures written { result.written ≡ written }
    ensures pages { reach ≤ 2 ^ 31 → result.pages ≡ max written reach }
    ensures few { result.pages ≤ 2 ^ 31 }
{
    let pages = u64::from(written).max(reach).min(MAX_PAGES);
    FilePages {
        written,
        pages: pages as u32,
    }
}

// How many pages a table's file has, and how many it has after all groups.
fn look_pages<H: Host>(
    host: &mut H,
    analysis: &Analysis,
    name: &Name,
    part: Part,
) -> Result<FilePages, Fault>
    ensures pages { IsTrue H.tells → (checkpoint : Number) (groups : Seq Logged) → Has checkpoint analysis.now groups → reach_of name.now part groups ≤ 2 ^ 31 → IfOk result (HasPages (H.state host.old).folder groups name.now part) }
    ensures few { IfOk result (λ pages. pages.pages ≤ 2 ^ 31) }
    ensures missing { IsTrue H.tells → IfErr result (LacksFile (H.state host.old).folder (file name.now part)) }
    ensures many { (n : ℕ) → IfErr result (HasMany n) }
    ensures same { IsTrue H.tells → Unchanged (H.state host.old) (H.state host.new) }
    ensures cause { HasEnterCause H.tells (H.state host.old) (H.state host.new) result }
{
    let file = file_of(name, part);
    let Some(extent) = host.look(&file)? else {
        return Err(Fault::FileMissing { file });
    };
    Ok(with_reach(extent.pages, analysis.reach(name, part)))
}

// Lets a table be known whose index file this is, unless the groups dropped it.
fn note_file(
    tables: &mut BTreeMap<Name, Option<u32>>,
    found: &FileName,
    analysis: &Analysis,
) -> Result<(), AllocError>
    ensures { (checkpoint : Number) (groups : Seq Logged) → Has checkpoint analysis.now groups → OnOk result ((q : Seq ℕ) → get (slice_cmp nat_cmp) tables.new q ≡ (if same_file (file q Keys) found.now && not (was_dropped q groups) then Some None else get (slice_cmp nat_cmp) tables.old q)) }
{
    let FileName::Keys(name) = found else {
        return Ok(());
    };
    if was_dropped(analysis, name) {
        return Ok(());
    }
    tables.insert(*name, None)?;
    Ok(())
}

// Lets each table be known whose index file is among these, unless the groups dropped it.
fn note_files(
    tables: &mut BTreeMap<Name, Option<u32>>,
    files: &[FileName],
    analysis: &Analysis,
) -> Result<(), AllocError>
    ensures { (checkpoint : Number) (groups : Seq Logged) → Has checkpoint analysis.now groups → OnOk result ((q : Seq ℕ) → get (slice_cmp nat_cmp) tables.new q ≡ (if is_listed files.now groups q then Some None else get (slice_cmp nat_cmp) tables.old q)) }
{
    for found in files {
        note_file(tables, found, analysis)?;
    }
    Ok(())
}

// A log sequence number as one that can be stored.
fn storable(lsn: Lsn) -> Lsn
    ensures fits { IsLsn result }
    ensures same { IsLsn lsn → result ≡ lsn }
{
    Lsn {
        file: lsn.file.min(MAX_LOG),
        offset: lsn.offset,
    }
}

// A list of the log sequence numbers of groups.
fn copied(alloc: Global, numbers: &[Lsn]) -> Result<Vec<Lsn>, AllocError>
    ensures fits { IfOk result (λ copy. All IsLsn copy.items) }
    ensures same { All IsLsn numbers.now → IfOk result (λ copy. copy.items ≡ numbers.now) }
{
    let mut copy = Vec::new(alloc);
    for number in numbers {
        copy.push(storable(*number))?;
    }
    Ok(copy)
}

impl PageStore {
    // A pager over a log that was started, or was opened alone, which knows of no table. It has room for so many pages, but
    // for 64 at least.
    fn over(
        alloc: Global,
        log: Log,
        started: bool,
        pending: Vec<Lsn>,
        cache: u32,
    ) -> Result<PageStore, AllocError>
        ensures { IfOk result (IsBlank log started pending.items) }
    {
        let most = NonZeroUsize::new(cache.max(FEWEST_PAGES) as usize).unwrap_or(NonZeroUsize::MIN);
        let frames = Frames::new(alloc, most)?;
        let writer = GroupWriter::new(alloc)?;
        Ok(PageStore {
            log,
            started,
            frames,
            writer,
            in_group: false,
            made: 0,
            slots: List::new(alloc),
            tables: BTreeMap::new(alloc),
            pending,
            lent: 0,
            kept: None,
            blank: Page::zero(),
        })
    }

    // Whether a table has a slot.
    fn has_slot(&self, name: &Name) -> bool
        ensures { result ≡ has_slot (known self.now name.now) }
    {
        match self.tables.get(name) {
            Some(Some(_)) => true,
            Some(None) => false,
            None => false,
        }
    }

    // Puts a slot for a table behind the others.
    fn add_slot(&mut self, name: &Name, keys: FilePages, rows: FilePages) -> Result<(), Fault>
        ensures slots { OnOk result (self.new.slots ≡ self.old.slots ++ used_slot name.now keys rows ∷ []) }
        ensures knows { OnOk result ((q : Seq ℕ) → known self.new q ≡ (if same_name name.now q then Some (Some (length self.old.slots)) else known self.old q)) }
        ensures rest { self.new ≡ with_tables self.old self.old.frames self.new.slots self.new.tables }
        ensures cause { IfErr result (λ fault. (fault ≡ Memory alloc_error) ⊎ (fault ≡ TooManyTables) × (2 ^ 32 - 1 ≤ length self.old.slots)) }
    {
        let _file = FileName::Control;
        let n = self.slots.len();
        if n >= MAX_SLOTS {
            return Err(Fault::TooManyTables);
        }
        self.slots.push(Slot {
            name: *name,
            used: true,
            keys,
            rows,
        })?;
        self.tables.insert(*name, Some(n as u32))?;
        Ok(())
    }

    // Gives a slot to a table that needs one, unless it has one.
    fn give_slot<H: Host>(
        &mut self,
        host: &mut H,
        analysis: &Analysis,
        name: &Name,
    ) -> Result<(), Fault>
        ensures enters { IsTrue H.tells → (checkpoint : Number) (groups : Seq Logged) → Has checkpoint analysis.now groups → AreLow groups → records_of self.old.writer ≡ [] → IsEntering self.old (H.state host.old).folder groups → OnOk result (IsEntering self.new (H.state host.old).folder groups) }
        ensures given { (checkpoint : Number) (groups : Seq Logged) → Has checkpoint analysis.now groups → needs_slot name.now groups ≡ true → OnOk result (HasSlot self.new name.now) }
        ensures keeps { OnOk result (KeepSlots self.old self.new) }
        ensures told { (checkpoint : Number) (groups : Seq Logged) → Has checkpoint analysis.now groups → AreToldOf self.old groups → OnOk result (AreToldOf self.new groups) }
        ensures tidy { AreTidy self.old → OnOk result (AreTidy self.new) }
        ensures missing { IsTrue H.tells → (checkpoint : Number) (groups : Seq Logged) → Has checkpoint analysis.now groups → IfErr result (LacksOne groups (H.state host.old).folder) }
        ensures many { IfErr result (HasMany (length self.old.slots)) }
        ensures most { OnOk result (length self.new.slots ≤ length self.old.slots + 1) }
        ensures rest { self.new ≡ with_tables self.old self.old.frames self.new.slots self.new.tables }
        ensures same { IsTrue H.tells → Unchanged (H.state host.old) (H.state host.new) }
        ensures cause { HasEnterCause H.tells (H.state host.old) (H.state host.new) result }
    {
        let _file = FileName::Control;
        if !needs_slot(analysis, name) {
            return Ok(());
        }
        if self.has_slot(name) {
            return Ok(());
        }
        let keys = look_pages(host, analysis, name, Part::Keys)?;
        let rows = look_pages(host, analysis, name, Part::Rows)?;
        self.add_slot(name, keys, rows)
    }

    // Gives a slot to each of these tables that needs one.
    fn give_slots<H: Host>(
        &mut self,
        host: &mut H,
        analysis: &Analysis,
        names: &[Name],
    ) -> Result<(), Fault>
        ensures enters { IsTrue H.tells → (checkpoint : Number) (groups : Seq Logged) → Has checkpoint analysis.now groups → AreLow groups → records_of self.old.writer ≡ [] → IsEntering self.old (H.state host.old).folder groups
            → OnOk result (IsEntering self.new (H.state host.old).folder groups × HaveSlots self.new groups names.now) }
        ensures told { (checkpoint : Number) (groups : Seq Logged) → Has checkpoint analysis.now groups → AreToldOf self.old groups → OnOk result (AreToldOf self.new groups) }
        ensures tidy { AreTidy self.old → OnOk result (AreTidy self.new) }
        ensures missing { IsTrue H.tells → (checkpoint : Number) (groups : Seq Logged) → Has checkpoint analysis.now groups → IfErr result (LacksOne groups (H.state host.old).folder) }
        ensures many { IfErr result (HasMany (length self.old.slots + length names.now)) }
        ensures rest { self.new ≡ with_tables self.old self.old.frames self.new.slots self.new.tables }
        ensures same { IsTrue H.tells → Unchanged (H.state host.old) (H.state host.new) }
        ensures cause { HasEnterCause H.tells (H.state host.old) (H.state host.new) result }
    {
        let _file = FileName::Control;
        for name in names {
            self.give_slot(host, analysis, name)?;
        }
        Ok(())
    }
}

// Enters the tables in memory, over a log that was started, or was opened alone.
pub(crate) fn enter_tables<H: Host>(
    alloc: Global,
    host: &mut H,
    log: Log,
    started: bool,
    files: &[FileName],
    analysis: &Analysis,
    cache: u32,
) -> Result<PageStore, Fault>
    ensures entered { IsTrue H.tells → (checkpoint : Number) (groups : Seq Logged) → Has checkpoint analysis.now groups → AreLow groups → AreListed files.now (H.state host.old).folder groups → IfOk result (HasEntered log started (H.state host.old).folder groups) }
    ensures told { (checkpoint : Number) (groups : Seq Logged) → Has checkpoint analysis.now groups → IfOk result (λ store. AreToldOf store groups) }
    ensures none { IfOk result (λ store. (k : ℕ) → held store.frames k ≡ None) }
    ensures missing { IsTrue H.tells → (checkpoint : Number) (groups : Seq Logged) → Has checkpoint analysis.now groups → IfErr result (LacksOne groups (H.state host.old).folder) }
    ensures many { (checkpoint : Number) (groups : Seq Logged) → Has checkpoint analysis.now groups → IfErr result (AreMany groups) }
    ensures tidy { IfOk result IsTidy }
    ensures kept { IfOk result (λ store. store.kept ≡ None) }
    ensures in_group { IfOk result (λ store. store.in_group ≡ false) }
    ensures log { IfOk result (λ store. store.log ≡ log) }
    ensures same { IsTrue H.tells → Unchanged (H.state host.old) (H.state host.new) }
    ensures cause { HasEnterCause H.tells (H.state host.old) (H.state host.new) result }
{
    let _file = FileName::Control;
    let names = analysis.names()?;
    let pending = copied(alloc, analysis.pending())?;
    let mut store = PageStore::over(alloc, log, started, pending, cache)?;
    note_files(&mut store.tables, files, analysis)?;
    store.give_slots(host, analysis, names.as_slice())?;
    Ok(store)
}

/// Enters the tables in memory: each that the groups made, or of whose pages they have records, gets a slot, and each
/// other one whose index file is listed is known without one. No group is made again yet.
pub(crate) fn enter<H: Host>(
    alloc: Global,
    host: &mut H,
    log: Log,
    files: &[FileName],
    analysis: &Analysis,
    cache: u32,
) -> Result<PageStore, Fault>
    ensures begins { IsTrue H.tells → (checkpoint : Number) (base : ℕ) (start : Folder) (groups : Seq Logged) → IsSettled log (H.state host.old) base start groups → Has checkpoint analysis.now groups → AreLow groups → AreListed files.now (H.state host.old).folder groups
        → IfOk result (λ store. BeginsRedo store (H.state host.new) analysis.now (lsn_at_place base) base start groups (length groups)) }
    ensures told { (checkpoint : Number) (groups : Seq Logged) → Has checkpoint analysis.now groups → IfOk result (λ store. AreToldOf store groups) }
    ensures missing { IsTrue H.tells → (checkpoint : Number) (groups : Seq Logged) → Has checkpoint analysis.now groups → IfErr result (LacksOne groups (H.state host.old).folder) }
    ensures many { (checkpoint : Number) (groups : Seq Logged) → Has checkpoint analysis.now groups → IfErr result (AreMany groups) }
    ensures tidy { IfOk result IsTidy }
    ensures kept { IfOk result (λ store. store.kept ≡ None) }
    ensures in_group { IfOk result (λ store. store.in_group ≡ false) }
    ensures log { IfOk result (λ store. store.log ≡ log) }
    ensures same { IsTrue H.tells → Unchanged (H.state host.old) (H.state host.new) }
    ensures cause { HasEnterCause H.tells (H.state host.old) (H.state host.new) result }
{
    let _file = FileName::Control;
    enter_tables(alloc, host, log, true, files, analysis, cache)
}
