//! Entries put into trees.

ghost use Rattle.std.specs.Prelude.{◌≡◌, ◌≢◌, ◌+◌, ◌<◌, ◌≤◌, ◌^◌, ℕ, List, [], ◌∷◌, length, true, false, None, Some, IsTrue, IfOk, OnOk};
ghost use Rattle.aria_keypage.specs.declared.item.TheConstants.{ENTRY_MAX};
ghost use Rattle.aria_keypage.specs.Item.{Item};
ghost use Rattle.aria_cache.specs.Calls.{SameSlots, SameLog, FewerLate, StaysIn, fault_of, Answers, Loads, Spends};
ghost use Rattle.aria_cache.specs.Causes.{HasPagesCause};
ghost use Rattle.aria_cache.specs.RowFaults.{row_fault_of};
ghost use Rattle.aria_key.specs.Tree.{Placed};
ghost use Rattle.aria_key.specs.Owned.{with_entry};
ghost use Rattle.aria_key.specs.IndexFile.{IsChain, HoldsTrees, with_walk};
ghost use Rattle.aria_key.specs.Taking.{AreApart, HasSpare, GrowsBy, GrowsTo};
ghost use Rattle.aria_key.specs.Ascent.{Regrown};
ghost use Rattle.aria_key.specs.Inserting.{IsAbsent, IsFew, IsOpenTo, CanAdd, IsReadyFor, IsInserted, CanChange, CanInsert, TestsFull, HeaderKept};
ghost use Rattle.aria_key.specs.Reading.{keys_file, OfTree};

use crate::descent::find;
use crate::head::{Head, is_same, read_head, write_head};
use crate::layout::FULL_PAGES;
use crate::place::place;
use crate::root::new_leaf;
use crate::settle::settle;
use crate::take::take_page;
use aria_cache::{OpenGroup, Pages, RowFault};
use aria_host::{Fault, FileName};
use aria_keypage::{ENTRY_MAX, Kind};
use aria_page::Part;
use std::alloc::Global;

/// The most levels above the leaves of a tree of fewer than 2^24 entries.
const STEPS_MAX: usize = 11;

// Takes a page for the first entry of a tree.
fn plant<P: Pages>(
    alloc: Global,
    pages: &mut P,
    group: &mut OpenGroup,
    slot: u32,
    key: u8,
    free: u32,
    entry: &[u8],
    target: u64,
) -> Result<Head, Fault>
    requires stands { P.stands pages.old }
    requires open { IsTrue ((P.state pages.old).is_open slot) }
    requires group { (P.state pages.old).in_group ≡ true }
    requires calm { (P.state pages.old).kept ≡ None }
    requires entry { length entry.now ≤ ENTRY_MAX }
    requires target { target < 2 ^ 40 }
    requires touched { IsTrue P.logged → (P.state pages.old).touched + 1 ≤ 48 }
    requires made { IsTrue P.logged → (P.state pages.old).made + 1 ≤ 254 }
    ensures stands { P.stands pages.new }
    ensures moves { P.stays pages.old pages.new }
    ensures slots { SameSlots (P.state pages.old) (P.state pages.new) }
    ensures log { SameLog (P.state pages.old) (P.state pages.new) }
    ensures in_group { (P.state pages.new).in_group ≡ true }
    ensures planted { IsTrue P.tells → (chain : List ℕ) → AreApart ((P.state pages.old).counts (keys_file (P.state pages.old) slot)) [] chain → IsChain ((P.state pages.old).bodies (keys_file (P.state pages.old) slot)) free chain
        → IfOk result (λ r. Regrown (keys_file (P.state pages.old) slot) (P.state pages.old).bodies (P.state pages.new).bodies ((P.state pages.old).counts (keys_file (P.state pages.old) slot)) ((P.state pages.new).counts (keys_file (P.state pages.old) slot)) key [] chain (record { entry = entry.now; to = target } ∷ []) r.root r.free) }
    ensures late { IsTrue P.tells → OnOk result (FewerLate (P.state pages.old) (P.state pages.new)) }
    ensures inside { IsTrue P.tells → OnOk result (StaysIn P.logged (keys_file (P.state pages.old) slot) (P.state pages.old) (P.state pages.new)) }
    ensures grows { IfOk result (λ r. GrowsBy (keys_file (P.state pages.old) slot) 1 free r.free (P.state pages.old) (P.state pages.new)) }
    ensures spends { Spends 1 1 8258 (P.state pages.old) (P.state pages.new) }
    ensures answers { Answers (P.state pages.old) (P.state pages.new) (fault_of result) }
    ensures cause { HasPagesCause (OfTree P.tells P.logged (HasSpare (P.state pages.old) (keys_file (P.state pages.old) slot) free) (keys_file (P.state pages.old) slot) (P.state pages.old) (P.state pages.new)) (P.state pages.old) (P.state pages.new) (fault_of result) }
{
    let _file = FileName::Control;
    let taken = take_page(alloc, pages, slot, free)?;
    new_leaf(alloc, pages, group, slot, taken.page, key, entry, target)?;
    Ok(Head {
        root: taken.page,
        free: taken.free,
    })
}

// Puts an entry into a tree that isn't empty. Gives its root and the first free page then.
fn graft<P: Pages>(
    alloc: Global,
    pages: &mut P,
    group: &mut OpenGroup,
    slot: u32,
    key: u8,
    head: Head,
    entry: &[u8],
    target: u64,
) -> Result<Head, Fault>
    requires stands { P.stands pages.old }
    requires open { IsTrue ((P.state pages.old).is_open slot) }
    requires group { (P.state pages.old).in_group ≡ true }
    requires some { head.root ≢ 0 }
    requires entry { length entry.now ≤ ENTRY_MAX }
    requires target { target < 2 ^ 40 }
    requires touched { IsTrue P.logged → (P.state pages.old).touched + 37 ≤ 48 }
    requires made { IsTrue P.logged → (P.state pages.old).made + 85 ≤ 254 }
    ensures stands { P.stands pages.new }
    ensures moves { P.stays pages.old pages.new }
    ensures slots { SameSlots (P.state pages.old) (P.state pages.new) }
    ensures log { SameLog (P.state pages.old) (P.state pages.new) }
    ensures in_group { (P.state pages.new).in_group ≡ true }
    ensures grafted { IsTrue P.tells → (levels : List (List Placed)) (chain : List ℕ) (walk : List Item)
        → IsOpenTo ((P.state pages.old).bodies (keys_file (P.state pages.old) slot)) ((P.state pages.old).counts (keys_file (P.state pages.old) slot)) key head.root head.free entry.now levels chain walk
        → IfOk result (λ r. Regrown (keys_file (P.state pages.old) slot) (P.state pages.old).bodies (P.state pages.new).bodies ((P.state pages.old).counts (keys_file (P.state pages.old) slot)) ((P.state pages.new).counts (keys_file (P.state pages.old) slot)) key levels chain (with_entry (record { entry = entry.now; to = target }) walk) r.root r.free) }
    ensures late { IsTrue P.tells → OnOk result (FewerLate (P.state pages.old) (P.state pages.new)) }
    ensures inside { IsTrue P.tells → OnOk result (StaysIn P.logged (keys_file (P.state pages.old) slot) (P.state pages.old) (P.state pages.new)) }
    ensures grows { IfOk result (λ r. GrowsBy (keys_file (P.state pages.old) slot) 13 head.free r.free (P.state pages.old) (P.state pages.new)) }
    ensures spends { Spends 37 85 133922 (P.state pages.old) (P.state pages.new) }
    ensures answers { Answers (P.state pages.old) (P.state pages.new) (fault_of result) }
    ensures cause { HasPagesCause (OfTree P.tells P.logged (CanAdd (P.state pages.old) (keys_file (P.state pages.old) slot) key head.root head.free entry.now) (keys_file (P.state pages.old) slot) (P.state pages.old) (P.state pages.new)) (P.state pages.old) (P.state pages.new) (fault_of result) }
{
    let file: FileName = pages.file(slot, Part::Keys);
    let found = find(alloc, pages, slot, head.root, entry)?;
    if found.same {
        return Err(pages.stop(Fault::PageDamaged {
            file,
            page: found.page,
        }));
    }
    if found.path.len() > STEPS_MAX {
        return Err(pages.stop(Fault::PageDamaged {
            file,
            page: found.page,
        }));
    }
    match place(
        alloc,
        pages,
        group,
        slot,
        found.page,
        Kind::Leaf,
        found.at,
        entry,
        target,
        head.free,
    )? {
        None => Ok(head),
        Some(divided) => settle(
            alloc,
            pages,
            group,
            slot,
            key,
            head.root,
            found.path,
            divided.between.as_slice(),
            divided.fresh,
            divided.free,
        ),
    }
}

// Puts an entry into a tree. Gives its root and the first free page then.
fn add<P: Pages>(
    alloc: Global,
    pages: &mut P,
    group: &mut OpenGroup,
    slot: u32,
    key: u8,
    head: Head,
    entry: &[u8],
    target: u64,
) -> Result<Head, Fault>
    requires stands { P.stands pages.old }
    requires open { IsTrue ((P.state pages.old).is_open slot) }
    requires group { (P.state pages.old).in_group ≡ true }
    requires calm { (P.state pages.old).kept ≡ None }
    requires entry { length entry.now ≤ ENTRY_MAX }
    requires target { target < 2 ^ 40 }
    requires touched { IsTrue P.logged → (P.state pages.old).touched + 37 ≤ 48 }
    requires made { IsTrue P.logged → (P.state pages.old).made + 85 ≤ 254 }
    ensures stands { P.stands pages.new }
    ensures moves { P.stays pages.old pages.new }
    ensures slots { SameSlots (P.state pages.old) (P.state pages.new) }
    ensures log { SameLog (P.state pages.old) (P.state pages.new) }
    ensures in_group { (P.state pages.new).in_group ≡ true }
    ensures added { IsTrue P.tells → (levels : List (List Placed)) (chain : List ℕ) (walk : List Item)
        → IsOpenTo ((P.state pages.old).bodies (keys_file (P.state pages.old) slot)) ((P.state pages.old).counts (keys_file (P.state pages.old) slot)) key head.root head.free entry.now levels chain walk
        → IfOk result (λ r. Regrown (keys_file (P.state pages.old) slot) (P.state pages.old).bodies (P.state pages.new).bodies ((P.state pages.old).counts (keys_file (P.state pages.old) slot)) ((P.state pages.new).counts (keys_file (P.state pages.old) slot)) key levels chain (with_entry (record { entry = entry.now; to = target }) walk) r.root r.free) }
    ensures late { IsTrue P.tells → OnOk result (FewerLate (P.state pages.old) (P.state pages.new)) }
    ensures inside { IsTrue P.tells → OnOk result (StaysIn P.logged (keys_file (P.state pages.old) slot) (P.state pages.old) (P.state pages.new)) }
    ensures grows { IfOk result (λ r. GrowsBy (keys_file (P.state pages.old) slot) 13 head.free r.free (P.state pages.old) (P.state pages.new)) }
    ensures spends { Spends 37 85 133922 (P.state pages.old) (P.state pages.new) }
    ensures answers { Answers (P.state pages.old) (P.state pages.new) (fault_of result) }
    ensures cause { HasPagesCause (OfTree P.tells P.logged (CanAdd (P.state pages.old) (keys_file (P.state pages.old) slot) key head.root head.free entry.now) (keys_file (P.state pages.old) slot) (P.state pages.old) (P.state pages.new)) (P.state pages.old) (P.state pages.new) (fault_of result) }
{
    let _file = FileName::Control;
    if head.root == 0 {
        return plant(alloc, pages, group, slot, key, head.free, entry, target);
    }
    graft(alloc, pages, group, slot, key, head, entry, target)
}

// Puts an entry into the tree of a key, and sets the numbers of the header that changed.
fn change<P: Pages>(
    alloc: Global,
    pages: &mut P,
    group: &mut OpenGroup,
    slot: u32,
    key: u8,
    head: Head,
    entry: &[u8],
    target: u64,
) -> Result<(), Fault>
    requires stands { P.stands pages.old }
    requires open { IsTrue ((P.state pages.old).is_open slot) }
    requires group { (P.state pages.old).in_group ≡ true }
    requires calm { (P.state pages.old).kept ≡ None }
    requires key { key < 8 }
    requires some { 0 < (P.state pages.old).counts (keys_file (P.state pages.old) slot) }
    requires entry { length entry.now ≤ ENTRY_MAX }
    requires target { target < 2 ^ 40 }
    requires touched { IsTrue P.logged → (P.state pages.old).touched + 38 ≤ 48 }
    requires made { IsTrue P.logged → (P.state pages.old).made + 87 ≤ 254 }
    ensures stands { P.stands pages.new }
    ensures moves { P.stays pages.old pages.new }
    ensures slots { SameSlots (P.state pages.old) (P.state pages.new) }
    ensures log { SameLog (P.state pages.old) (P.state pages.new) }
    ensures in_group { (P.state pages.new).in_group ≡ true }
    ensures inserted { IsTrue P.tells → (keys : ℕ) (walks : ℕ → List Item)
        → (r : IsReadyFor keys ((P.state pages.old).counts (keys_file (P.state pages.old) slot)) ((P.state pages.old).bodies (keys_file (P.state pages.old) slot)) walks key head.root head.free entry.now)
        → OnOk result (IsInserted keys ((P.state pages.old).counts (keys_file (P.state pages.old) slot)) ((P.state pages.new).counts (keys_file (P.state pages.old) slot)) ((P.state pages.new).bodies (keys_file (P.state pages.old) slot)) walks key (record { entry = entry.now; to = target }) r.held.header) }
    ensures late { IsTrue P.tells → OnOk result (FewerLate (P.state pages.old) (P.state pages.new)) }
    ensures inside { IsTrue P.tells → OnOk result (StaysIn P.logged (keys_file (P.state pages.old) slot) (P.state pages.old) (P.state pages.new)) }
    ensures grows { OnOk result (GrowsTo (keys_file (P.state pages.old) slot) (P.state pages.old) (P.state pages.new)) }
    ensures spends { Spends 38 87 134016 (P.state pages.old) (P.state pages.new) }
    ensures answers { Answers (P.state pages.old) (P.state pages.new) (fault_of result) }
    ensures cause { HasPagesCause (OfTree P.tells P.logged (CanChange (P.state pages.old) (keys_file (P.state pages.old) slot) key head.root head.free entry.now) (keys_file (P.state pages.old) slot) (P.state pages.old) (P.state pages.new)) (P.state pages.old) (P.state pages.new) (fault_of result) }
{
    let _file = FileName::Control;
    let grown = add(alloc, pages, group, slot, key, head, entry, target)?;
    if is_same(grown, head) {
        return Ok(());
    }
    write_head(alloc, pages, group, slot, key, grown.root, grown.free)
}

// Whether a file has too many pages, where that is still to be tested.
fn is_full(tested: bool, count: u32) -> bool
    ensures full { IsTrue result → (tested ≡ false) × (2 ^ 30 ≤ count) }
    ensures room { result ≡ false → tested ≡ false → count < 2 ^ 30 }
{
    !tested && count >= FULL_PAGES
}

/// Puts an entry into the tree of a key, as part of the group. Where `tested` is false, a file of 2^30 pages or more is
/// answered as full, and nothing was changed.
pub fn insert<P: Pages>(
    alloc: Global,
    pages: &mut P,
    group: &mut OpenGroup,
    slot: u32,
    key: u8,
    entry: &[u8],
    target: u64,
    tested: bool,
) -> Result<(), RowFault>
    requires stands { P.stands pages.old }
    requires open { IsTrue ((P.state pages.old).is_open slot) }
    requires group { (P.state pages.old).in_group ≡ true }
    requires key { key < 8 }
    requires entry { length entry.now ≤ ENTRY_MAX }
    requires target { target < 2 ^ 40 }
    requires touched { IsTrue P.logged → (P.state pages.old).touched ≡ 0 }
    requires made { IsTrue P.logged → (P.state pages.old).made ≡ 0 }
    ensures stands { P.stands pages.new }
    ensures moves { P.stays pages.old pages.new }
    ensures slots { SameSlots (P.state pages.old) (P.state pages.new) }
    ensures log { SameLog (P.state pages.old) (P.state pages.new) }
    ensures in_group { (P.state pages.new).in_group ≡ true }
    ensures trees { IsTrue P.tells → (keys : ℕ) (walks : ℕ → List Item) → key < keys → HoldsTrees keys ((P.state pages.old).counts (keys_file (P.state pages.old) slot)) ((P.state pages.old).bodies (keys_file (P.state pages.old) slot)) walks → IsAbsent entry.now (walks key) → IsFew (walks key)
        → OnOk result (HoldsTrees keys ((P.state pages.new).counts (keys_file (P.state pages.old) slot)) ((P.state pages.new).bodies (keys_file (P.state pages.old) slot)) (with_walk key (with_entry (record { entry = entry.now; to = target }) (walks key)) walks)) }
    ensures header { IsTrue P.tells → (keys : ℕ) (walks : ℕ → List Item) (header : List ℕ) → key < keys → HoldsTrees keys ((P.state pages.old).counts (keys_file (P.state pages.old) slot)) ((P.state pages.old).bodies (keys_file (P.state pages.old) slot)) walks → IsAbsent entry.now (walks key) → IsFew (walks key)
        → (P.state pages.old).bodies (keys_file (P.state pages.old) slot) 0 ≡ Some header → OnOk result (HeaderKept key ((P.state pages.old).counts (keys_file (P.state pages.old) slot)) ((P.state pages.new).counts (keys_file (P.state pages.old) slot)) header ((P.state pages.new).bodies (keys_file (P.state pages.old) slot))) }
    ensures late { IsTrue P.tells → OnOk result (FewerLate (P.state pages.old) (P.state pages.new)) }
    ensures inside { IsTrue P.tells → OnOk result (StaysIn P.logged (keys_file (P.state pages.old) slot) (P.state pages.old) (P.state pages.new)) }
    ensures grows { OnOk result (GrowsTo (keys_file (P.state pages.old) slot) (P.state pages.old) (P.state pages.new)) }
    ensures full { TestsFull tested ((P.state pages.old).counts (keys_file (P.state pages.old) slot)) (Loads P.tells 1 (P.state pages.old) (P.state pages.new)) result }
    ensures spends { Spends 38 87 134016 (P.state pages.old) (P.state pages.new) }
    ensures answers { Answers (P.state pages.old) (P.state pages.new) (row_fault_of result) }
    ensures cause { HasPagesCause (OfTree P.tells P.logged (CanInsert (P.state pages.old) (keys_file (P.state pages.old) slot) key entry.now) (keys_file (P.state pages.old) slot) (P.state pages.old) (P.state pages.new)) (P.state pages.old) (P.state pages.new) (row_fault_of result) }
{
    let _file = FileName::Control;
    let head = read_head(alloc, pages, slot, key)?;
    let count = pages.count(slot, Part::Keys);
    if is_full(tested, count) {
        return Err(RowFault::TableFull { pages: count });
    }
    match change(alloc, pages, group, slot, key, head, entry, target) {
        Ok(()) => Ok(()),
        Err(fault) => Err(RowFault::Fault(fault)),
    }
}
