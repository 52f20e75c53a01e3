//! Rows that are taken from a data file.

ghost use Rattle.std.specs.Prelude.{◌≡◌, ◌+◌, ◌*◌, ◌^◌, ◌<◌, ◌≤◌, ℕ, Bool, List, Some, None, true, IsTrue, OnOk};
ghost use Rattle.aria_cache.specs.Calls.{fault_of, Answers, Spends, StaysIn, SameSlots, SameLog};
ghost use Rattle.aria_cache.specs.Causes.{HasPagesCause};
ghost use Rattle.aria_block.specs.Causes.{rows_file, KeepsSound};
ghost use Rattle.aria_block.specs.Pieces.{Pieces};
ghost use Rattle.aria_block.specs.DataFile.{HoldsData, on_page};
ghost use Rattle.aria_block.specs.Blob.{no_pieces};
ghost use Rattle.aria_block.specs.Reading.{HasBlob, OfPieces};
ghost use Rattle.aria_block.specs.Deleting.{HasPart, HasPages, HasTailAt, HasRowAt, without_at, without_pages, without_tail};
ghost use Rattle.aria_block.specs.HoldsRows.{HoldsRows, TakesRow};
ghost use Rattle.aria_block.specs.Reading.{FitsHead};
ghost use Rattle.aria_block.specs.Rows.{Rows as RowTable};

use crate::blob::free_page;
use crate::layout::{BLOBS_MAX, MAP_EVERY};
use crate::part_kind::PartKind;
use crate::placing::remove_part;
use aria_cache::{OpenGroup, Pages};
use aria_host::{Fault, FileName};
use aria_page::{Part, Place, Places};
use std::alloc::Global;

/// Pages are numbered below this.
const PAGES_MAX: u32 = 1 << 31;

/// Takes the part at a place, and sets the pattern of its page.
pub(crate) fn remove_at<P: Pages>(
    alloc: Global,
    pages: &mut P,
    group: &mut OpenGroup,
    slot: u32,
    page: u32,
    kind: PartKind,
    nth: u8,
) -> Result<(), Fault>
    requires stands { P.stands pages.old }
    requires open { IsTrue ((P.state pages.old).is_open slot) }
    requires group { (P.state pages.old).in_group ≡ true }
    requires room { IsTrue P.logged → ((P.state pages.old).touched + 1 < 48) × ((P.state pages.old).made + 4 ≤ 254) }
    ensures stands { P.stands pages.new }
    ensures moves { P.stays pages.old pages.new }
    ensures slots { SameSlots (P.state pages.old) (P.state pages.new) }
    ensures log { SameLog (P.state pages.old) (P.state pages.new) }
    ensures in_group { (P.state pages.new).in_group ≡ true }
    ensures spends { Spends 2 4 1201 (P.state pages.old) (P.state pages.new) }
    ensures holds { IsTrue P.tells → (pieces : Pieces) → HoldsData ((P.state pages.old).counts (rows_file (P.state pages.old) slot)) ((P.state pages.old).bodies (rows_file (P.state pages.old) slot)) pieces → HasPart kind (record { page = page; slot = nth }) pieces → OnOk result (HoldsData ((P.state pages.old).counts (rows_file (P.state pages.old) slot)) ((P.state pages.new).bodies (rows_file (P.state pages.old) slot)) (without_at (record { page = page; slot = nth }) pieces)) }
    ensures inside { IsTrue P.tells → OnOk result (StaysIn P.logged (rows_file (P.state pages.old) slot) (P.state pages.old) (P.state pages.new)) }
    ensures counts { OnOk result ((P.state pages.new).counts ≡ (P.state pages.old).counts) }
    ensures keeps { OnOk result (KeepsSound P.tells (rows_file (P.state pages.old) slot) (P.state pages.old) (P.state pages.new)) }
    ensures answers { Answers (P.state pages.old) (P.state pages.new) (fault_of result) }
    ensures cause { HasPagesCause (OfPieces P.tells P.logged (HasPart kind (record { page = page; slot = nth })) (rows_file (P.state pages.old) slot) (P.state pages.old) (P.state pages.new)) (P.state pages.old) (P.state pages.new) (fault_of result) }
{
    let file: FileName = pages.file(slot, Part::Rows);
    if page >= pages.count(slot, Part::Rows) {
        return Err(pages.stop(Fault::PageDamaged { file, page }));
    }
    if page % MAP_EVERY == 0 {
        return Err(pages.stop(Fault::PageDamaged { file, page }));
    }
    match remove_part(alloc, pages, group, slot, page, kind, nth) {
        Ok(true) => Ok(()),
        Ok(false) => Err(pages.stop(Fault::PageDamaged { file, page })),
        Err(fault) => Err(fault),
    }
}

/// Makes a blob page free, and sets its pattern.
pub(crate) fn free_at<P: Pages>(
    alloc: Global,
    pages: &mut P,
    group: &mut OpenGroup,
    slot: u32,
    page: u32,
) -> Result<(), Fault>
    requires stands { P.stands pages.old }
    requires open { IsTrue ((P.state pages.old).is_open slot) }
    requires group { (P.state pages.old).in_group ≡ true }
    requires room { IsTrue P.logged → ((P.state pages.old).touched + 1 < 48) × ((P.state pages.old).made + 2 ≤ 254) }
    ensures stands { P.stands pages.new }
    ensures moves { P.stays pages.old pages.new }
    ensures slots { SameSlots (P.state pages.old) (P.state pages.new) }
    ensures log { SameLog (P.state pages.old) (P.state pages.new) }
    ensures in_group { (P.state pages.new).in_group ≡ true }
    ensures spends { Spends 2 2 166 (P.state pages.old) (P.state pages.new) }
    ensures holds { IsTrue P.tells → (pieces : Pieces) → HoldsData ((P.state pages.old).counts (rows_file (P.state pages.old) slot)) ((P.state pages.old).bodies (rows_file (P.state pages.old) slot)) pieces → OnOk result (HoldsData ((P.state pages.old).counts (rows_file (P.state pages.old) slot)) ((P.state pages.new).bodies (rows_file (P.state pages.old) slot)) (on_page page no_pieces pieces)) }
    ensures inside { IsTrue P.tells → OnOk result (StaysIn P.logged (rows_file (P.state pages.old) slot) (P.state pages.old) (P.state pages.new)) }
    ensures counts { OnOk result ((P.state pages.new).counts ≡ (P.state pages.old).counts) }
    ensures keeps { OnOk result (KeepsSound P.tells (rows_file (P.state pages.old) slot) (P.state pages.old) (P.state pages.new)) }
    ensures answers { Answers (P.state pages.old) (P.state pages.new) (fault_of result) }
    ensures cause { HasPagesCause (OfPieces P.tells P.logged (HasBlob page) (rows_file (P.state pages.old) slot) (P.state pages.old) (P.state pages.new)) (P.state pages.old) (P.state pages.new) (fault_of result) }
{
    let file: FileName = pages.file(slot, Part::Rows);
    if page >= pages.count(slot, Part::Rows) {
        return Err(pages.stop(Fault::PageDamaged { file, page }));
    }
    if page % MAP_EVERY == 0 {
        return Err(pages.stop(Fault::PageDamaged { file, page }));
    }
    free_page(alloc, pages, group, slot, page)
}

// Makes so many pages free, from this one on, and sets their patterns.
fn free_all<P: Pages>(
    alloc: Global,
    pages: &mut P,
    group: &mut OpenGroup,
    slot: u32,
    first: u32,
    n: u32,
) -> Result<(), Fault>
    requires stands { P.stands pages.old }
    requires open { IsTrue ((P.state pages.old).is_open slot) }
    requires group { (P.state pages.old).in_group ≡ true }
    requires calm { (P.state pages.old).kept ≡ None }
    requires low { first + n < 2 ^ 32 }
    requires room { IsTrue P.logged → ((P.state pages.old).touched + 2 * n ≤ 48) × ((P.state pages.old).made + 2 * n ≤ 254) }
    ensures stands { P.stands pages.new }
    ensures moves { P.stays pages.old pages.new }
    ensures slots { SameSlots (P.state pages.old) (P.state pages.new) }
    ensures log { SameLog (P.state pages.old) (P.state pages.new) }
    ensures in_group { (P.state pages.new).in_group ≡ true }
    ensures spends { Spends (2 * n) (2 * n) (166 * n) (P.state pages.old) (P.state pages.new) }
    ensures holds { IsTrue P.tells → (pieces : Pieces) → HoldsData ((P.state pages.old).counts (rows_file (P.state pages.old) slot)) ((P.state pages.old).bodies (rows_file (P.state pages.old) slot)) pieces → OnOk result (HoldsData ((P.state pages.old).counts (rows_file (P.state pages.old) slot)) ((P.state pages.new).bodies (rows_file (P.state pages.old) slot)) (without_pages first n pieces)) }
    ensures inside { IsTrue P.tells → OnOk result (StaysIn P.logged (rows_file (P.state pages.old) slot) (P.state pages.old) (P.state pages.new)) }
    ensures counts { OnOk result ((P.state pages.new).counts ≡ (P.state pages.old).counts) }
    ensures keeps { OnOk result (KeepsSound P.tells (rows_file (P.state pages.old) slot) (P.state pages.old) (P.state pages.new)) }
    ensures answers { Answers (P.state pages.old) (P.state pages.new) (fault_of result) }
    ensures cause { HasPagesCause (OfPieces P.tells P.logged (HasPages first n) (rows_file (P.state pages.old) slot) (P.state pages.old) (P.state pages.new)) (P.state pages.old) (P.state pages.new) (fault_of result) }
{
    let _file = FileName::Control;
    if n == 0 {
        return Ok(());
    }
    free_at(alloc, pages, group, slot, first)?;
    free_all(alloc, pages, group, slot, first + 1, n - 1)
}

// Takes the tail of a row, if it has one.
fn remove_tail<P: Pages>(
    alloc: Global,
    pages: &mut P,
    group: &mut OpenGroup,
    slot: u32,
    tail: Option<Place>,
) -> Result<(), Fault>
    requires stands { P.stands pages.old }
    requires open { IsTrue ((P.state pages.old).is_open slot) }
    requires group { (P.state pages.old).in_group ≡ true }
    requires calm { (P.state pages.old).kept ≡ None }
    requires room { IsTrue P.logged → ((P.state pages.old).touched + 1 < 48) × ((P.state pages.old).made + 4 ≤ 254) }
    ensures stands { P.stands pages.new }
    ensures moves { P.stays pages.old pages.new }
    ensures slots { SameSlots (P.state pages.old) (P.state pages.new) }
    ensures log { SameLog (P.state pages.old) (P.state pages.new) }
    ensures in_group { (P.state pages.new).in_group ≡ true }
    ensures spends { Spends 2 4 1201 (P.state pages.old) (P.state pages.new) }
    ensures holds { IsTrue P.tells → (pieces : Pieces) → HoldsData ((P.state pages.old).counts (rows_file (P.state pages.old) slot)) ((P.state pages.old).bodies (rows_file (P.state pages.old) slot)) pieces → HasTailAt tail pieces → OnOk result (HoldsData ((P.state pages.old).counts (rows_file (P.state pages.old) slot)) ((P.state pages.new).bodies (rows_file (P.state pages.old) slot)) (without_tail tail pieces)) }
    ensures inside { IsTrue P.tells → OnOk result (StaysIn P.logged (rows_file (P.state pages.old) slot) (P.state pages.old) (P.state pages.new)) }
    ensures counts { OnOk result ((P.state pages.new).counts ≡ (P.state pages.old).counts) }
    ensures keeps { OnOk result (KeepsSound P.tells (rows_file (P.state pages.old) slot) (P.state pages.old) (P.state pages.new)) }
    ensures answers { Answers (P.state pages.old) (P.state pages.new) (fault_of result) }
    ensures cause { HasPagesCause (OfPieces P.tells P.logged (HasTailAt tail) (rows_file (P.state pages.old) slot) (P.state pages.old) (P.state pages.new)) (P.state pages.old) (P.state pages.new) (fault_of result) }
{
    let _file = FileName::Control;
    match tail {
        None => Ok(()),
        Some(at) => remove_at(alloc, pages, group, slot, at.page, PartKind::Tail, at.slot),
    }
}

/// Takes the row at these places from a data file: its head, its tail and its blob pages, each with its page's pattern.
pub fn delete_row<P: Pages>(
    alloc: Global,
    pages: &mut P,
    group: &mut OpenGroup,
    slot: u32,
    places: &Places,
) -> Result<(), Fault>
    requires stands { P.stands pages.old }
    requires open { IsTrue ((P.state pages.old).is_open slot) }
    requires group { (P.state pages.old).in_group ≡ true }
    requires empty { IsTrue P.logged → ((P.state pages.old).touched ≡ 0) × ((P.state pages.old).made ≡ 0) }
    ensures stands { P.stands pages.new }
    ensures moves { P.stays pages.old pages.new }
    ensures slots { SameSlots (P.state pages.old) (P.state pages.new) }
    ensures log { SameLog (P.state pages.old) (P.state pages.new) }
    ensures in_group { (P.state pages.new).in_group ≡ true }
    ensures spends { Spends 20 24 3730 (P.state pages.old) (P.state pages.new) }
    ensures rows { IsTrue P.tells → (is_row : List ℕ → Bool) (pieces : Pieces) (rows : RowTable) (row : List ℕ) → HoldsRows is_row ((P.state pages.old).counts (rows_file (P.state pages.old) slot)) ((P.state pages.old).bodies (rows_file (P.state pages.old) slot)) pieces rows
        → rows places.now.head.page places.now.head.slot ≡ Some (record { places = places.now; row = row }) → FitsHead (record { places = places.now; row = row })
        → OnOk result (TakesRow is_row places.now row ((P.state pages.old).counts (rows_file (P.state pages.old) slot)) ((P.state pages.new).bodies (rows_file (P.state pages.old) slot)) pieces rows) }
    ensures inside { IsTrue P.tells → OnOk result (StaysIn P.logged (rows_file (P.state pages.old) slot) (P.state pages.old) (P.state pages.new)) }
    ensures counts { OnOk result ((P.state pages.new).counts ≡ (P.state pages.old).counts) }
    ensures keeps { OnOk result (KeepsSound P.tells (rows_file (P.state pages.old) slot) (P.state pages.old) (P.state pages.new)) }
    ensures answers { Answers (P.state pages.old) (P.state pages.new) (fault_of result) }
    ensures cause { HasPagesCause (OfPieces P.tells P.logged (HasRowAt places.now) (rows_file (P.state pages.old) slot) (P.state pages.old) (P.state pages.new)) (P.state pages.old) (P.state pages.new) (fault_of result) }
{
    let file: FileName = pages.file(slot, Part::Rows);
    if places.blobs as u32 > BLOBS_MAX || places.blob >= PAGES_MAX {
        return Err(pages.stop(Fault::PageDamaged {
            file,
            page: places.head.page,
        }));
    }
    remove_at(
        alloc,
        pages,
        group,
        slot,
        places.head.page,
        PartKind::Head,
        places.head.slot,
    )?;
    remove_tail(alloc, pages, group, slot, places.tail)?;
    free_all(alloc, pages, group, slot, places.blob, places.blobs as u32)
}
