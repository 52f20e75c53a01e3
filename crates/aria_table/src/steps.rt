//! Steps of operations: each is one group of the log, whose record takes it back.

ghost use Rattle.std.specs.Prelude.{◌≡◌, ◌+◌, ◌/◌, ◌<◌, ◌≤◌, ◌^◌, ℕ, Bool, List, Some, true, false, None, IsTrue, IfOk, OnOk, OnErr, length};
ghost use Rattle.aria_page.specs.declared.group.Last.TheVariants.{RowInsert as PutsARow, RowDelete as TakesARow, KeyInsert as PutsAnEntry, KeyDelete as TakesAnEntry};
ghost use Rattle.aria_cache.specs.Calls.{SameSlots, SameLog, StaysIn, Loads, fault_of, Answers, Spends};
ghost use Rattle.aria_cache.specs.Causes.{HasPagesCause};
ghost use Rattle.aria_cache.specs.RowFaults.{row_fault_of, IsFull};
ghost use Rattle.aria_record.specs.Groups.{PlacesFit};
ghost use Rattle.aria_block.specs.declared.layout.TheConstants.{ROW_MAX};
ghost use Rattle.aria_block.specs.Causes.{rows_file};
ghost use Rattle.aria_block.specs.Finding.{Looks};
ghost use Rattle.aria_block.specs.Reading.{FitsHead};
ghost use Rattle.aria_block.specs.Storing.{TellsFull};
ghost use Rattle.aria_keypage.specs.declared.item.TheConstants.{ENTRY_MAX};
ghost use Rattle.aria_key.specs.Reading.{keys_file};
ghost use Rattle.aria_key.specs.Inserting.{TestsFull};
ghost use Rattle.std.specs.Map.{lookup, keys_of};
ghost use Rattle.std.specs.List.Sorted.{IsStrictlySortedBy};
ghost use Rattle.std.specs.Ordering.{nat_cmp};
ghost use Rattle.std.specs.Cmp.Lexicographic.{slice_cmp};
ghost use Rattle.aria_table.specs.Content.{Content, same_entry, put_row, take_row, put_entry, take_entry};
ghost use Rattle.aria_table.specs.Step.{HoldsContent, HasSomeContent, HasRowIn, LacksEntry, HasEntryIn, Applies, StepsTo, EndsOne, LeavesOthers, Unchanged, OfTable};

use crate::counting::{add_one, take_one};
use aria_block::{delete_row, insert_row};
use aria_cache::{OpenGroup, Pages, RowFault};
use aria_host::{Fault, FileName};
use aria_key::{insert, remove};
use aria_page::{Bytes, Last, Places};
use std::alloc::Global;

// Puts a row and counts it, as part of the group.
fn put_counted<P: Pages>(
    alloc: Global,
    pages: &mut P,
    group: &mut OpenGroup,
    slot: u32,
    row: &[u8],
) -> Result<Places, RowFault>
    requires stands { P.stands pages.old }
    requires open { IsTrue ((P.state pages.old).is_open slot) }
    requires group { (P.state pages.old).in_group ≡ true }
    requires few { length row.now ≤ ROW_MAX }
    requires empty { IsTrue P.logged → ((P.state pages.old).touched ≡ 0) × ((P.state pages.old).made ≡ 0) }
    ensures stands { P.stands pages.new }
    ensures moves { P.stays pages.old pages.new }
    ensures slots { SameSlots (P.state pages.old) (P.state pages.new) }
    ensures log { SameLog (P.state pages.old) (P.state pages.new) }
    ensures in_group { (P.state pages.new).in_group ≡ true }
    ensures spends { Spends 41 53 (length row.now + 10085) (P.state pages.old) (P.state pages.new) }
    ensures fits { IfOk result (λ places. PlacesFit places) }
    ensures content { IsTrue P.tells → (is_row : List ℕ → Bool) (keys : ℕ) (c : Content) → HoldsContent is_row keys slot (P.state pages.old) c → IsTrue (is_row row.now) → c.rows + 1 < 2 ^ 32
        → IfOk result (λ places. StepsTo is_row keys slot (PutsARow places) c (put_row places row.now c) (P.state pages.new)) }
    ensures full { TellsFull ((P.state pages.old).counts (rows_file (P.state pages.old) slot)) result }
    ensures still { IsFull ((P.state pages.old).counts (rows_file (P.state pages.old) slot)) → Looks P.tells (P.state pages.old) (P.state pages.new) }
    ensures others { OnOk result (LeavesOthers P.tells slot (P.state pages.old) (P.state pages.new)) }
    ensures applies { IsTrue P.tells → IsTrue P.logged → OnOk result (Applies (P.state pages.old) (P.state pages.new)) }
    ensures answers { Answers (P.state pages.old) (P.state pages.new) (row_fault_of result) }
    ensures cause { HasPagesCause (OfTable P.tells P.logged (HasSomeContent slot (P.state pages.old)) slot 0 (P.state pages.old) (P.state pages.new)) (P.state pages.old) (P.state pages.new) (row_fault_of result) }
{
    let _file = FileName::Control;
    let places = insert_row(alloc, pages, group, slot, row)?;
    add_one(alloc, pages, group, slot)?;
    Ok(places)
}

/// Puts a row and counts it, as a group of its own. Tells where its pieces stand.
pub(crate) fn put_row<P: Pages>(
    alloc: Global,
    pages: &mut P,
    slot: u32,
    row: &[u8],
) -> Result<Places, RowFault>
    requires stands { P.stands pages.old }
    requires open { IsTrue ((P.state pages.old).is_open slot) }
    requires none { (P.state pages.old).in_group ≡ false }
    requires few { length row.now ≤ ROW_MAX }
    ensures stands { P.stands pages.new }
    ensures moves { OnErr result (P.stays pages.old pages.new) }
    ensures ends { IfOk result (λ places. EndsOne P.tells P.logged P.ends P.state slot (PutsARow places) pages.old pages.new) }
    ensures slots { SameSlots (P.state pages.old) (P.state pages.new) }
    ensures none { (P.state pages.new).in_group ≡ false }
    ensures content { IsTrue P.tells → (is_row : List ℕ → Bool) (keys : ℕ) (c : Content) → HoldsContent is_row keys slot (P.state pages.old) c → IsTrue (is_row row.now) → c.rows + 1 < 2 ^ 32
        → IfOk result (λ places. StepsTo is_row keys slot (PutsARow places) c (put_row places row.now c) (P.state pages.new)) }
    ensures full { TellsFull ((P.state pages.old).counts (rows_file (P.state pages.old) slot)) result }
    ensures still { IsFull ((P.state pages.old).counts (rows_file (P.state pages.old) slot)) → Unchanged P.tells (P.state pages.old) (P.state pages.new) }
    ensures others { OnOk result (LeavesOthers P.tells slot (P.state pages.old) (P.state pages.new)) }
    ensures reach { (P.state pages.new).reach ≤ (P.state pages.old).reach + (length row.now + 10185) / 8176 + 2 }
    ensures answers { Answers (P.state pages.old) (P.state pages.new) (row_fault_of result) }
    ensures cause { HasPagesCause (OfTable P.tells P.logged (HasSomeContent slot (P.state pages.old)) slot (length row.now + 10185) (P.state pages.old) (P.state pages.new)) (P.state pages.old) (P.state pages.new) (row_fault_of result) }
{
    let _file = FileName::Control;
    let mut group = pages.group();
    match put_counted(alloc, pages, &mut group, slot, row) {
        Ok(places) => {
            pages.end(alloc, group, slot, &Last::RowInsert { places })?;
            Ok(places)
        }
        Err(why) => {
            pages.leave(group);
            Err(why)
        }
    }
}

// Takes a row and counts it, as part of the group.
pub(crate) fn take_counted<P: Pages>(
    alloc: Global,
    pages: &mut P,
    group: &mut OpenGroup,
    slot: u32,
    places: &Places,
) -> Result<(), Fault>
    requires stands { P.stands pages.old }
    requires open { IsTrue ((P.state pages.old).is_open slot) }
    requires group { (P.state pages.old).in_group ≡ true }
    requires empty { IsTrue P.logged → ((P.state pages.old).touched ≡ 0) × ((P.state pages.old).made ≡ 0) }
    ensures stands { P.stands pages.new }
    ensures moves { P.stays pages.old pages.new }
    ensures slots { SameSlots (P.state pages.old) (P.state pages.new) }
    ensures log { SameLog (P.state pages.old) (P.state pages.new) }
    ensures in_group { (P.state pages.new).in_group ≡ true }
    ensures spends { Spends 21 25 3815 (P.state pages.old) (P.state pages.new) }
    ensures content { IsTrue P.tells → (is_row : List ℕ → Bool) (keys : ℕ) (c : Content) (row : List ℕ) → HoldsContent is_row keys slot (P.state pages.old) c
        → c.kept places.now.head.page places.now.head.slot ≡ Some (record { places = places.now; row = row }) → FitsHead (record { places = places.now; row = row }) → c.rows < 2 ^ 32
        → OnOk result (HoldsContent is_row keys slot (P.state pages.new) (take_row places.now c)) }
    ensures counts { OnOk result ((P.state pages.new).counts ≡ (P.state pages.old).counts) }
    ensures others { OnOk result (LeavesOthers P.tells slot (P.state pages.old) (P.state pages.new)) }
    ensures applies { IsTrue P.tells → IsTrue P.logged → OnOk result (Applies (P.state pages.old) (P.state pages.new)) }
    ensures answers { Answers (P.state pages.old) (P.state pages.new) (fault_of result) }
    ensures cause { HasPagesCause (OfTable P.tells P.logged (HasRowIn places.now slot (P.state pages.old)) slot 0 (P.state pages.old) (P.state pages.new)) (P.state pages.old) (P.state pages.new) (fault_of result) }
{
    let _file = FileName::Control;
    delete_row(alloc, pages, group, slot, places)?;
    take_one(alloc, pages, group, slot)
}

/// Takes a row and counts it, as a group of its own.
pub(crate) fn take_row<P: Pages>(
    alloc: Global,
    pages: &mut P,
    slot: u32,
    places: Places,
    row: Bytes,
) -> Result<(), Fault>
    requires stands { P.stands pages.old }
    requires open { IsTrue ((P.state pages.old).is_open slot) }
    requires none { (P.state pages.old).in_group ≡ false }
    requires fits { IsTrue P.logged → FitsHead (record { places = places; row = row }) }
    ensures stands { P.stands pages.new }
    ensures moves { OnErr result (P.stays pages.old pages.new) }
    ensures ends { OnOk result (EndsOne P.tells P.logged P.ends P.state slot (TakesARow places row) pages.old pages.new) }
    ensures slots { SameSlots (P.state pages.old) (P.state pages.new) }
    ensures none { (P.state pages.new).in_group ≡ false }
    ensures content { IsTrue P.tells → (is_row : List ℕ → Bool) (keys : ℕ) (c : Content) → HoldsContent is_row keys slot (P.state pages.old) c
        → c.kept places.head.page places.head.slot ≡ Some (record { places = places; row = row }) → FitsHead (record { places = places; row = row }) → 1 ≤ c.rows → c.rows < 2 ^ 32
        → OnOk result (StepsTo is_row keys slot (TakesARow places row) c (take_row places c) (P.state pages.new)) }
    ensures counts { OnOk result ((P.state pages.new).counts ≡ (P.state pages.old).counts) }
    ensures others { OnOk result (LeavesOthers P.tells slot (P.state pages.old) (P.state pages.new)) }
    ensures reach { (P.state pages.new).reach ≤ (P.state pages.old).reach + (length row + 3915) / 8176 + 2 }
    ensures answers { Answers (P.state pages.old) (P.state pages.new) (fault_of result) }
    ensures cause { HasPagesCause (OfTable P.tells P.logged (HasRowIn places slot (P.state pages.old)) slot (length row + 3915) (P.state pages.old) (P.state pages.new)) (P.state pages.old) (P.state pages.new) (fault_of result) }
{
    let _file = FileName::Control;
    let mut group = pages.group();
    match take_counted(alloc, pages, &mut group, slot, &places) {
        Ok(()) => {
            pages.end(alloc, group, slot, &Last::RowDelete { places, row })?;
            Ok(())
        }
        Err(fault) => {
            pages.leave(group);
            Err(fault)
        }
    }
}

// Puts an entry of a key, as part of the group.
fn enter<P: Pages>(
    alloc: Global,
    pages: &mut P,
    group: &mut OpenGroup,
    slot: u32,
    key: u8,
    entry: &[u8],
    target: u64,
    tested: bool,
) -> Result<(), RowFault>
    requires stands { P.stands pages.old }
    requires open { IsTrue ((P.state pages.old).is_open slot) }
    requires group { (P.state pages.old).in_group ≡ true }
    requires key { key < 8 }
    requires entry { length entry.now ≤ ENTRY_MAX }
    requires target { target < 2 ^ 40 }
    requires empty { IsTrue P.logged → ((P.state pages.old).touched ≡ 0) × ((P.state pages.old).made ≡ 0) }
    ensures stands { P.stands pages.new }
    ensures moves { P.stays pages.old pages.new }
    ensures slots { SameSlots (P.state pages.old) (P.state pages.new) }
    ensures log { SameLog (P.state pages.old) (P.state pages.new) }
    ensures in_group { (P.state pages.new).in_group ≡ true }
    ensures spends { Spends 38 87 134016 (P.state pages.old) (P.state pages.new) }
    ensures content { IsTrue P.tells → (is_row : List ℕ → Bool) (keys : ℕ) (c : Content) → HoldsContent is_row keys slot (P.state pages.old) c → key < keys → lookup (same_entry entry.now) (c.walks key) ≡ None → length (c.walks key) < 2 ^ 24
        → OnOk result (HoldsContent is_row keys slot (P.state pages.new) (put_entry key entry.now target c)) }
    ensures full { TestsFull tested ((P.state pages.old).counts (keys_file (P.state pages.old) slot)) (Loads P.tells 1 (P.state pages.old) (P.state pages.new)) result }
    ensures others { OnOk result (LeavesOthers P.tells slot (P.state pages.old) (P.state pages.new)) }
    ensures applies { IsTrue P.tells → IsTrue P.logged → OnOk result (Applies (P.state pages.old) (P.state pages.new)) }
    ensures answers { Answers (P.state pages.old) (P.state pages.new) (row_fault_of result) }
    ensures cause { HasPagesCause (OfTable P.tells P.logged (LacksEntry key entry.now slot (P.state pages.old)) slot 0 (P.state pages.old) (P.state pages.new)) (P.state pages.old) (P.state pages.new) (row_fault_of result) }
{
    let _file = FileName::Control;
    insert(alloc, pages, group, slot, key, entry, target, tested)
}

/// Puts an entry of a key, as a group of its own. Where `tested` is false, an index file of 2^30 pages or more is answered as
/// full, and nothing was changed.
pub(crate) fn put_entry<P: Pages>(
    alloc: Global,
    pages: &mut P,
    slot: u32,
    key: u8,
    entry: Bytes,
    target: u64,
    tested: bool,
) -> Result<(), RowFault>
    requires stands { P.stands pages.old }
    requires open { IsTrue ((P.state pages.old).is_open slot) }
    requires none { (P.state pages.old).in_group ≡ false }
    requires key { key < 8 }
    requires entry { length entry ≤ ENTRY_MAX }
    requires target { target < 2 ^ 40 }
    ensures stands { P.stands pages.new }
    ensures moves { OnErr result (P.stays pages.old pages.new) }
    ensures ends { OnOk result (EndsOne P.tells P.logged P.ends P.state slot (PutsAnEntry key target entry) pages.old pages.new) }
    ensures slots { SameSlots (P.state pages.old) (P.state pages.new) }
    ensures none { (P.state pages.new).in_group ≡ false }
    ensures content { IsTrue P.tells → (is_row : List ℕ → Bool) (keys : ℕ) (c : Content) → HoldsContent is_row keys slot (P.state pages.old) c → key < keys → lookup (same_entry entry) (c.walks key) ≡ None → length (c.walks key) < 2 ^ 24
        → OnOk result (StepsTo is_row keys slot (PutsAnEntry key target entry) c (put_entry key entry target c) (P.state pages.new)) }
    ensures full { TestsFull tested ((P.state pages.old).counts (keys_file (P.state pages.old) slot)) (Unchanged P.tells (P.state pages.old) (P.state pages.new)) result }
    ensures others { OnOk result (LeavesOthers P.tells slot (P.state pages.old) (P.state pages.new)) }
    ensures reach { (P.state pages.new).reach ≤ (P.state pages.old).reach + (length entry + 134116) / 8176 + 2 }
    ensures answers { Answers (P.state pages.old) (P.state pages.new) (row_fault_of result) }
    ensures cause { HasPagesCause (OfTable P.tells P.logged (LacksEntry key entry slot (P.state pages.old)) slot (length entry + 134116) (P.state pages.old) (P.state pages.new)) (P.state pages.old) (P.state pages.new) (row_fault_of result) }
{
    let _file = FileName::Control;
    let mut group = pages.group();
    match enter(
        alloc,
        pages,
        &mut group,
        slot,
        key,
        entry.as_slice(),
        target,
        tested,
    ) {
        Ok(()) => {
            pages.end(alloc, group, slot, &Last::KeyInsert { key, target, entry })?;
            Ok(())
        }
        Err(why) => {
            pages.leave(group);
            Err(why)
        }
    }
}

// Takes an entry of a key, as part of the group.
pub(crate) fn withdraw<P: Pages>(
    alloc: Global,
    pages: &mut P,
    group: &mut OpenGroup,
    slot: u32,
    key: u8,
    entry: &[u8],
) -> Result<(), Fault>
    requires stands { P.stands pages.old }
    requires open { IsTrue ((P.state pages.old).is_open slot) }
    requires group { (P.state pages.old).in_group ≡ true }
    requires key { key < 8 }
    requires empty { IsTrue P.logged → ((P.state pages.old).touched ≡ 0) × ((P.state pages.old).made ≡ 0) }
    ensures stands { P.stands pages.new }
    ensures moves { P.stays pages.old pages.new }
    ensures slots { SameSlots (P.state pages.old) (P.state pages.new) }
    ensures log { SameLog (P.state pages.old) (P.state pages.new) }
    ensures in_group { (P.state pages.new).in_group ≡ true }
    ensures spends { Spends 39 120 211921 (P.state pages.old) (P.state pages.new) }
    ensures content { IsTrue P.tells → (is_row : List ℕ → Bool) (keys : ℕ) (c : Content) (target : ℕ) → HoldsContent is_row keys slot (P.state pages.old) c → key < keys → lookup (same_entry entry.now) (c.walks key) ≡ Some target → length (c.walks key) < 2 ^ 24
        → OnOk result (HoldsContent is_row keys slot (P.state pages.new) (take_entry key entry.now c)) }
    ensures others { OnOk result (LeavesOthers P.tells slot (P.state pages.old) (P.state pages.new)) }
    ensures applies { IsTrue P.tells → IsTrue P.logged → OnOk result (Applies (P.state pages.old) (P.state pages.new)) }
    ensures answers { Answers (P.state pages.old) (P.state pages.new) (fault_of result) }
    ensures cause { HasPagesCause (OfTable P.tells P.logged (HasEntryIn key entry.now slot (P.state pages.old)) slot 0 (P.state pages.old) (P.state pages.new)) (P.state pages.old) (P.state pages.new) (fault_of result) }
{
    let _file = FileName::Control;
    remove(alloc, pages, group, slot, key, entry)
}

/// Takes an entry of a key, as a group of its own. The entry led to the target.
pub(crate) fn take_entry<P: Pages>(
    alloc: Global,
    pages: &mut P,
    slot: u32,
    key: u8,
    entry: Bytes,
    target: u64,
) -> Result<(), Fault>
    requires stands { P.stands pages.old }
    requires open { IsTrue ((P.state pages.old).is_open slot) }
    requires none { (P.state pages.old).in_group ≡ false }
    requires key { key < 8 }
    requires entry { length entry ≤ ENTRY_MAX }
    requires target { target < 2 ^ 40 }
    ensures stands { P.stands pages.new }
    ensures moves { OnErr result (P.stays pages.old pages.new) }
    ensures ends { OnOk result (EndsOne P.tells P.logged P.ends P.state slot (TakesAnEntry key target entry) pages.old pages.new) }
    ensures slots { SameSlots (P.state pages.old) (P.state pages.new) }
    ensures none { (P.state pages.new).in_group ≡ false }
    ensures content { IsTrue P.tells → (is_row : List ℕ → Bool) (keys : ℕ) (c : Content) → HoldsContent is_row keys slot (P.state pages.old) c → key < keys → lookup (same_entry entry) (c.walks key) ≡ Some target → length (c.walks key) < 2 ^ 24
        → IsStrictlySortedBy (slice_cmp nat_cmp) (keys_of (c.walks key)) → OnOk result (StepsTo is_row keys slot (TakesAnEntry key target entry) c (take_entry key entry c) (P.state pages.new)) }
    ensures others { OnOk result (LeavesOthers P.tells slot (P.state pages.old) (P.state pages.new)) }
    ensures reach { (P.state pages.new).reach ≤ (P.state pages.old).reach + (length entry + 212021) / 8176 + 2 }
    ensures answers { Answers (P.state pages.old) (P.state pages.new) (fault_of result) }
    ensures cause { HasPagesCause (OfTable P.tells P.logged (HasEntryIn key entry slot (P.state pages.old)) slot (length entry + 212021) (P.state pages.old) (P.state pages.new)) (P.state pages.old) (P.state pages.new) (fault_of result) }
{
    let _file = FileName::Control;
    let mut group = pages.group();
    match withdraw(alloc, pages, &mut group, slot, key, entry.as_slice()) {
        Ok(()) => {
            pages.end(alloc, group, slot, &Last::KeyDelete { key, target, entry })?;
            Ok(())
        }
        Err(fault) => {
            pages.leave(group);
            Err(fault)
        }
    }
}
