//! The number of rows in the header of an index file.

ghost use Rattle.std.specs.Prelude.{◌≡◌, ◌+◌, ◌-◌, ◌<◌, ◌≤◌, ◌^◌, ℕ, List, [], ◌∷◌, true, IsTrue, IfOk, OnOk, Some};
ghost use Rattle.aria_page.specs.Page.{page_body};
ghost use Rattle.aria_page.specs.Number.{number};
ghost use Rattle.aria_page.specs.declared.edit.Edit.TheVariants.{Set};
ghost use Rattle.aria_cache.specs.PageState.{with_count, with_edits};
ghost use Rattle.aria_cache.specs.Calls.{SameSlots, SameLog, FewerLate, StaysIn, fault_of, Answers, Loads, Spends, HasRoom};
ghost use Rattle.aria_cache.specs.Causes.{OfPage, HasPagesCause};
ghost use Rattle.aria_key.specs.Reading.{keys_file, OfTree};
ghost use Rattle.aria_key.specs.WayUp.{IsPresent};
ghost use Rattle.aria_table.specs.declared.layout.TheConstants.{ROWS_AT};
ghost use Rattle.aria_table.specs.Holds.{rows_in};
ghost use Rattle.aria_table.specs.Counting.{Counts};

use crate::layout::ROWS_AT;
use aria_cache::{OpenGroup, PageId, Pages};
use aria_host::{Fault, FileName};
use aria_page::{Change, Page, Part, RedoKind, bytes_from, u32_bytes, u32_of};
use std::alloc::Global;

// The number of rows that a header says.
fn rows_on(page: &Page) -> u32
    ensures { result ≡ rows_in (page_body page.now) }
{
    u32_of(bytes_from(page.body(), ROWS_AT))
}

// The number of rows of a table.
pub(crate) fn rows_of<P: Pages>(alloc: Global, pages: &mut P, slot: u32) -> Result<u32, Fault>
    requires stands { P.stands pages.old }
    requires open { IsTrue ((P.state pages.old).is_open slot) }
    ensures stands { P.stands pages.new }
    ensures moves { P.stays pages.old pages.new }
    ensures loads { Loads P.tells 1 (P.state pages.old) (P.state pages.new) }
    ensures some { OnOk result (0 < (P.state pages.old).counts (keys_file (P.state pages.old) slot)) }
    ensures rows { IsTrue P.tells → (header : List ℕ) → (P.state pages.old).bodies (keys_file (P.state pages.old) slot) 0 ≡ Some header → IfOk result (λ n. n ≡ rows_in header) }
    ensures answers { Answers (P.state pages.old) (P.state pages.new) (fault_of result) }
    ensures cause { HasPagesCause (OfTree P.tells P.logged (IsPresent (P.state pages.old) (keys_file (P.state pages.old) slot) 0) (keys_file (P.state pages.old) slot) (P.state pages.old) (P.state pages.new)) (P.state pages.old) (P.state pages.new) (fault_of result) }
{
    let file: FileName = pages.file(slot, Part::Keys);
    if pages.count(slot, Part::Keys) == 0 {
        return Err(pages.stop(Fault::PageDamaged { file, page: 0 }));
    }
    pages.load(
        alloc,
        PageId {
            slot,
            part: Part::Keys,
            page: 0,
        },
    )?;
    Ok(rows_on(pages.loaded()))
}

// Sets the number of rows.
fn set_rows<P: Pages>(
    alloc: Global,
    pages: &mut P,
    group: &mut OpenGroup,
    slot: u32,
    count: u32,
) -> Result<(), Fault>
    requires stands { P.stands pages.old }
    requires open { IsTrue ((P.state pages.old).is_open slot) }
    requires group { (P.state pages.old).in_group ≡ true }
    requires room { IsTrue P.logged → HasRoom 1 (P.state pages.old) }
    ensures stands { P.stands pages.new }
    ensures moves { P.stays pages.old pages.new }
    ensures slots { SameSlots (P.state pages.old) (P.state pages.new) }
    ensures log { SameLog (P.state pages.old) (P.state pages.new) }
    ensures in_group { (P.state pages.new).in_group ≡ true }
    ensures set { IsTrue P.tells → OnOk result ((P.state pages.new).bodies ≡ with_edits (keys_file (P.state pages.old) slot) 0 (Set ROWS_AT (number 4 count) ∷ []) (P.state pages.old).bodies) }
    ensures late { IsTrue P.tells → OnOk result (FewerLate (P.state pages.old) (P.state pages.new)) }
    ensures inside { IsTrue P.tells → OnOk result (StaysIn P.logged (keys_file (P.state pages.old) slot) (P.state pages.old) (P.state pages.new)) }
    ensures counts { OnOk result ((P.state pages.new).counts ≡ with_count (keys_file (P.state pages.old) slot) 1 (P.state pages.old).counts) }
    ensures spends { Spends 1 1 85 (P.state pages.old) (P.state pages.new) }
    ensures answers { Answers (P.state pages.old) (P.state pages.new) (fault_of result) }
    ensures cause { HasPagesCause (OfPage P.tells P.logged (keys_file (P.state pages.old) slot) 0 (P.state pages.old) (P.state pages.new)) (P.state pages.old) (P.state pages.new) (fault_of result) }
{
    let _file = FileName::Control;
    let bytes = u32_bytes(count);
    let edits = [Change::Set {
        at: ROWS_AT as u16,
        bytes: &bytes,
    }];
    pages.edit(
        alloc,
        group,
        PageId {
            slot,
            part: Part::Keys,
            page: 0,
        },
        RedoKind::State,
        &edits,
    )
}

// One more, where there is such a number.
fn one_more(count: u32) -> u32
    ensures { count + 1 < 2 ^ 32 → result ≡ count + 1 }
{
    if count == u32::MAX {
        return count;
    }
    count + 1
}

/// Adds one to the number of rows.
pub(crate) fn add_one<P: Pages>(
    alloc: Global,
    pages: &mut P,
    group: &mut OpenGroup,
    slot: u32,
) -> Result<(), Fault>
    requires stands { P.stands pages.old }
    requires open { IsTrue ((P.state pages.old).is_open slot) }
    requires group { (P.state pages.old).in_group ≡ true }
    requires room { IsTrue P.logged → HasRoom 1 (P.state pages.old) }
    ensures stands { P.stands pages.new }
    ensures moves { P.stays pages.old pages.new }
    ensures slots { SameSlots (P.state pages.old) (P.state pages.new) }
    ensures log { SameLog (P.state pages.old) (P.state pages.new) }
    ensures in_group { (P.state pages.new).in_group ≡ true }
    ensures adds { IsTrue P.tells → OnOk result (Counts (λ n. n + 1) (keys_file (P.state pages.old) slot) (P.state pages.old) (P.state pages.new)) }
    ensures late { IsTrue P.tells → OnOk result (FewerLate (P.state pages.old) (P.state pages.new)) }
    ensures inside { IsTrue P.tells → OnOk result (StaysIn P.logged (keys_file (P.state pages.old) slot) (P.state pages.old) (P.state pages.new)) }
    ensures counts { OnOk result ((P.state pages.new).counts ≡ (P.state pages.old).counts) }
    ensures spends { Spends 1 1 85 (P.state pages.old) (P.state pages.new) }
    ensures answers { Answers (P.state pages.old) (P.state pages.new) (fault_of result) }
    ensures cause { HasPagesCause (OfTree P.tells P.logged (IsPresent (P.state pages.old) (keys_file (P.state pages.old) slot) 0) (keys_file (P.state pages.old) slot) (P.state pages.old) (P.state pages.new)) (P.state pages.old) (P.state pages.new) (fault_of result) }
{
    let _file = FileName::Control;
    let count = rows_of(alloc, pages, slot)?;
    set_rows(alloc, pages, group, slot, one_more(count))
}

/// Takes one from the number of rows.
pub(crate) fn take_one<P: Pages>(
    alloc: Global,
    pages: &mut P,
    group: &mut OpenGroup,
    slot: u32,
) -> Result<(), Fault>
    requires stands { P.stands pages.old }
    requires open { IsTrue ((P.state pages.old).is_open slot) }
    requires group { (P.state pages.old).in_group ≡ true }
    requires room { IsTrue P.logged → HasRoom 1 (P.state pages.old) }
    ensures stands { P.stands pages.new }
    ensures moves { P.stays pages.old pages.new }
    ensures slots { SameSlots (P.state pages.old) (P.state pages.new) }
    ensures log { SameLog (P.state pages.old) (P.state pages.new) }
    ensures in_group { (P.state pages.new).in_group ≡ true }
    ensures takes { IsTrue P.tells → OnOk result (Counts (λ n. n - 1) (keys_file (P.state pages.old) slot) (P.state pages.old) (P.state pages.new)) }
    ensures late { IsTrue P.tells → OnOk result (FewerLate (P.state pages.old) (P.state pages.new)) }
    ensures inside { IsTrue P.tells → OnOk result (StaysIn P.logged (keys_file (P.state pages.old) slot) (P.state pages.old) (P.state pages.new)) }
    ensures counts { OnOk result ((P.state pages.new).counts ≡ (P.state pages.old).counts) }
    ensures spends { Spends 1 1 85 (P.state pages.old) (P.state pages.new) }
    ensures answers { Answers (P.state pages.old) (P.state pages.new) (fault_of result) }
    ensures cause { HasPagesCause (OfTree P.tells P.logged (IsPresent (P.state pages.old) (keys_file (P.state pages.old) slot) 0) (keys_file (P.state pages.old) slot) (P.state pages.old) (P.state pages.new)) (P.state pages.old) (P.state pages.new) (fault_of result) }
{
    let _file = FileName::Control;
    let count = rows_of(alloc, pages, slot)?;
    set_rows(alloc, pages, group, slot, count.saturating_sub(1))
}
