//! Entries taken out of trees.

ghost use Rattle.std.specs.Prelude.{◌≡◌, ◌≢◌, ◌+◌, ◌*◌, ◌<◌, ◌≤◌, ◌^◌, ℕ, List, length, true, None, Some, IsTrue, IfOk, OnOk};
ghost use Rattle.aria_keypage.specs.Item.{Item};
ghost use Rattle.aria_cache.specs.Calls.{SameSlots, SameLog, FewerLate, StaysIn, fault_of, Answers, Spends};
ghost use Rattle.aria_cache.specs.Causes.{HasPagesCause};
ghost use Rattle.aria_key.specs.Path.{passed};
ghost use Rattle.aria_key.specs.Tree.{Placed, IsTree};
ghost use Rattle.aria_key.specs.Place.{IsFound};
ghost use Rattle.aria_key.specs.Owned.{without_entry};
ghost use Rattle.aria_key.specs.IndexFile.{IsChain, HoldsTrees, with_walk};
ghost use Rattle.aria_key.specs.Taking.{AreApart, GrowsTo};
ghost use Rattle.aria_key.specs.Inserting.{IsFew, HeaderKept};
ghost use Rattle.aria_key.specs.Thinning.{Reduced};
ghost use Rattle.aria_key.specs.Lifting.{Widens};
ghost use Rattle.aria_key.specs.Removing.{IsThere, HasEntry, CanWithdraw, CanPluck, IsReadyToLose, IsRemoved, CanLose, CanRemove};
ghost use Rattle.aria_key.specs.Reading.{keys_file, OfTree};

use crate::count::count_of;
use crate::descent::find;
use crate::head::{Head, is_same, read_head, write_head};
use crate::path::Path;
use crate::take_out::take_out;
use crate::thickening::{give_back, thicken};
use aria_cache::{OpenGroup, Pages};
use aria_host::{Fault, FileName};
use aria_keypage::Kind;
use aria_page::Part;
use std::alloc::Global;

/// The most levels above the leaves of a tree of fewer than 2^24 entries.
const STEPS_MAX: usize = 11;

// Takes the entry at a position out of the leaf to which this is the way. Gives the tree's root and the first free page then.
fn pluck<P: Pages>(
    alloc: Global,
    pages: &mut P,
    group: &mut OpenGroup,
    slot: u32,
    key: u8,
    root: u32,
    path: Path,
    page: u32,
    at: usize,
    free: u32,
) -> Result<Head, Fault>
    requires stands { P.stands pages.old }
    requires open { IsTrue ((P.state pages.old).is_open slot) }
    requires group { (P.state pages.old).in_group ≡ true }
    requires few { path.len ≤ 11 }
    requires len { path.len ≡ length (passed path) }
    requires touched { IsTrue P.logged → (P.state pages.old).touched + 38 ≤ 48 }
    requires made { IsTrue P.logged → (P.state pages.old).made + 118 ≤ 254 }
    ensures stands { P.stands pages.new }
    ensures moves { P.stays pages.old pages.new }
    ensures slots { SameSlots (P.state pages.old) (P.state pages.new) }
    ensures log { SameLog (P.state pages.old) (P.state pages.new) }
    ensures in_group { (P.state pages.new).in_group ≡ true }
    ensures plucked { IsTrue P.tells → (entry : List ℕ) (levels : List (List Placed)) (chain : List ℕ) (walk : List Item)
        → IsTree ((P.state pages.old).bodies (keys_file (P.state pages.old) slot)) ((P.state pages.old).counts (keys_file (P.state pages.old) slot)) key root levels walk → AreApart ((P.state pages.old).counts (keys_file (P.state pages.old) slot)) levels chain → IsChain ((P.state pages.old).bodies (keys_file (P.state pages.old) slot)) free chain
        → IsFound ((P.state pages.old).bodies (keys_file (P.state pages.old) slot)) ((P.state pages.old).counts (keys_file (P.state pages.old) slot)) key root entry levels walk page at true (passed path) → length levels < 16
        → IfOk result (λ r. Reduced (keys_file (P.state pages.old) slot) (P.state pages.old).bodies (P.state pages.new).bodies ((P.state pages.old).counts (keys_file (P.state pages.old) slot)) ((P.state pages.new).counts (keys_file (P.state pages.old) slot)) key levels chain (without_entry entry walk) r.root r.free) }
    ensures late { IsTrue P.tells → OnOk result (FewerLate (P.state pages.old) (P.state pages.new)) }
    ensures inside { IsTrue P.tells → OnOk result (StaysIn P.logged (keys_file (P.state pages.old) slot) (P.state pages.old) (P.state pages.new)) }
    ensures grows { IfOk result (λ r. Widens (keys_file (P.state pages.old) slot) 12 r.free (P.state pages.old) (P.state pages.new)) }
    ensures spends { Spends 38 118 211827 (P.state pages.old) (P.state pages.new) }
    ensures answers { Answers (P.state pages.old) (P.state pages.new) (fault_of result) }
    ensures cause { HasPagesCause (OfTree P.tells P.logged (CanPluck (P.state pages.old) (keys_file (P.state pages.old) slot) key root page at free (passed path)) (keys_file (P.state pages.old) slot) (P.state pages.old) (P.state pages.new)) (P.state pages.old) (P.state pages.new) (fault_of result) }
{
    let _file = FileName::Control;
    let count = count_of(alloc, pages, slot, page)?;
    if path.is_empty() && count == 1 {
        give_back(alloc, pages, group, slot, page, free)?;
        return Ok(Head {
            root: 0,
            free: page,
        });
    }
    take_out(alloc, pages, group, slot, page, Kind::Leaf, at)?;
    thicken(alloc, pages, group, slot, key, root, path, page, free)
}

// Takes an entry out of a tree. Gives its root and the first free page then.
fn withdraw<P: Pages>(
    alloc: Global,
    pages: &mut P,
    group: &mut OpenGroup,
    slot: u32,
    key: u8,
    head: Head,
    entry: &[u8],
) -> Result<Head, Fault>
    requires stands { P.stands pages.old }
    requires open { IsTrue ((P.state pages.old).is_open slot) }
    requires group { (P.state pages.old).in_group ≡ true }
    requires calm { (P.state pages.old).kept ≡ None }
    requires touched { IsTrue P.logged → (P.state pages.old).touched + 38 ≤ 48 }
    requires made { IsTrue P.logged → (P.state pages.old).made + 118 ≤ 254 }
    ensures stands { P.stands pages.new }
    ensures moves { P.stays pages.old pages.new }
    ensures slots { SameSlots (P.state pages.old) (P.state pages.new) }
    ensures log { SameLog (P.state pages.old) (P.state pages.new) }
    ensures in_group { (P.state pages.new).in_group ≡ true }
    ensures withdrawn { IsTrue P.tells → (levels : List (List Placed)) (chain : List ℕ) (walk : List Item)
        → HasEntry ((P.state pages.old).bodies (keys_file (P.state pages.old) slot)) ((P.state pages.old).counts (keys_file (P.state pages.old) slot)) key head.root head.free entry.now levels chain walk
        → IfOk result (λ r. Reduced (keys_file (P.state pages.old) slot) (P.state pages.old).bodies (P.state pages.new).bodies ((P.state pages.old).counts (keys_file (P.state pages.old) slot)) ((P.state pages.new).counts (keys_file (P.state pages.old) slot)) key levels chain (without_entry entry.now walk) r.root r.free) }
    ensures late { IsTrue P.tells → OnOk result (FewerLate (P.state pages.old) (P.state pages.new)) }
    ensures inside { IsTrue P.tells → OnOk result (StaysIn P.logged (keys_file (P.state pages.old) slot) (P.state pages.old) (P.state pages.new)) }
    ensures grows { IfOk result (λ r. Widens (keys_file (P.state pages.old) slot) 12 r.free (P.state pages.old) (P.state pages.new)) }
    ensures spends { Spends 38 118 211827 (P.state pages.old) (P.state pages.new) }
    ensures answers { Answers (P.state pages.old) (P.state pages.new) (fault_of result) }
    ensures cause { HasPagesCause (OfTree P.tells P.logged (CanWithdraw (P.state pages.old) (keys_file (P.state pages.old) slot) key head.root head.free entry.now) (keys_file (P.state pages.old) slot) (P.state pages.old) (P.state pages.new)) (P.state pages.old) (P.state pages.new) (fault_of result) }
{
    let file: FileName = pages.file(slot, Part::Keys);
    if head.root == 0 {
        return Err(pages.stop(Fault::PageDamaged { file, page: 0 }));
    }
    let found = find(alloc, pages, slot, head.root, entry)?;
    if !found.same {
        return Err(pages.stop(Fault::PageDamaged {
            file,
            page: found.page,
        }));
    }
    if found.path.len() > STEPS_MAX {
        return Err(pages.stop(Fault::PageDamaged {
            file,
            page: found.page,
        }));
    }
    pluck(
        alloc, pages, group, slot, key, head.root, found.path, found.page, found.at, head.free,
    )
}

// Takes an entry out of the tree of a key, and sets the numbers of the header that changed.
fn lose<P: Pages>(
    alloc: Global,
    pages: &mut P,
    group: &mut OpenGroup,
    slot: u32,
    key: u8,
    head: Head,
    entry: &[u8],
) -> Result<(), Fault>
    requires stands { P.stands pages.old }
    requires open { IsTrue ((P.state pages.old).is_open slot) }
    requires group { (P.state pages.old).in_group ≡ true }
    requires calm { (P.state pages.old).kept ≡ None }
    requires key { key < 8 }
    requires some { 0 < (P.state pages.old).counts (keys_file (P.state pages.old) slot) }
    requires touched { IsTrue P.logged → (P.state pages.old).touched + 39 ≤ 48 }
    requires made { IsTrue P.logged → (P.state pages.old).made + 120 ≤ 254 }
    ensures stands { P.stands pages.new }
    ensures moves { P.stays pages.old pages.new }
    ensures slots { SameSlots (P.state pages.old) (P.state pages.new) }
    ensures log { SameLog (P.state pages.old) (P.state pages.new) }
    ensures in_group { (P.state pages.new).in_group ≡ true }
    ensures removed { IsTrue P.tells → (keys : ℕ) (walks : ℕ → List Item) → (r : IsReadyToLose keys ((P.state pages.old).counts (keys_file (P.state pages.old) slot)) ((P.state pages.old).bodies (keys_file (P.state pages.old) slot)) walks key head.root head.free entry.now)
        → OnOk result (IsRemoved keys ((P.state pages.old).counts (keys_file (P.state pages.old) slot)) ((P.state pages.new).counts (keys_file (P.state pages.old) slot)) ((P.state pages.new).bodies (keys_file (P.state pages.old) slot)) walks key entry.now r.held.header) }
    ensures late { IsTrue P.tells → OnOk result (FewerLate (P.state pages.old) (P.state pages.new)) }
    ensures inside { IsTrue P.tells → OnOk result (StaysIn P.logged (keys_file (P.state pages.old) slot) (P.state pages.old) (P.state pages.new)) }
    ensures grows { OnOk result (GrowsTo (keys_file (P.state pages.old) slot) (P.state pages.old) (P.state pages.new)) }
    ensures spends { Spends 39 120 211921 (P.state pages.old) (P.state pages.new) }
    ensures answers { Answers (P.state pages.old) (P.state pages.new) (fault_of result) }
    ensures cause { HasPagesCause (OfTree P.tells P.logged (CanLose (P.state pages.old) (keys_file (P.state pages.old) slot) key head.root head.free entry.now) (keys_file (P.state pages.old) slot) (P.state pages.old) (P.state pages.new)) (P.state pages.old) (P.state pages.new) (fault_of result) }
{
    let _file = FileName::Control;
    let less = withdraw(alloc, pages, group, slot, key, head, entry)?;
    if is_same(less, head) {
        return Ok(());
    }
    write_head(alloc, pages, group, slot, key, less.root, less.free)
}

/// Takes an entry out of the tree of a key, as part of the group. Pages that the tree has no use for any more are free then.
pub fn remove<P: Pages>(
    alloc: Global,
    pages: &mut P,
    group: &mut OpenGroup,
    slot: u32,
    key: u8,
    entry: &[u8],
) -> Result<(), Fault>
    requires stands { P.stands pages.old }
    requires open { IsTrue ((P.state pages.old).is_open slot) }
    requires group { (P.state pages.old).in_group ≡ true }
    requires key { key < 8 }
    requires touched { IsTrue P.logged → (P.state pages.old).touched ≡ 0 }
    requires made { IsTrue P.logged → (P.state pages.old).made ≡ 0 }
    ensures stands { P.stands pages.new }
    ensures moves { P.stays pages.old pages.new }
    ensures slots { SameSlots (P.state pages.old) (P.state pages.new) }
    ensures log { SameLog (P.state pages.old) (P.state pages.new) }
    ensures in_group { (P.state pages.new).in_group ≡ true }
    ensures trees { IsTrue P.tells → (keys : ℕ) (walks : ℕ → List Item) → key < keys → HoldsTrees keys ((P.state pages.old).counts (keys_file (P.state pages.old) slot)) ((P.state pages.old).bodies (keys_file (P.state pages.old) slot)) walks → IsThere entry.now (walks key) → IsFew (walks key)
        → OnOk result (HoldsTrees keys ((P.state pages.new).counts (keys_file (P.state pages.old) slot)) ((P.state pages.new).bodies (keys_file (P.state pages.old) slot)) (with_walk key (without_entry entry.now (walks key)) walks)) }
    ensures header { IsTrue P.tells → (keys : ℕ) (walks : ℕ → List Item) (header : List ℕ) → key < keys → HoldsTrees keys ((P.state pages.old).counts (keys_file (P.state pages.old) slot)) ((P.state pages.old).bodies (keys_file (P.state pages.old) slot)) walks → IsThere entry.now (walks key) → IsFew (walks key)
        → (P.state pages.old).bodies (keys_file (P.state pages.old) slot) 0 ≡ Some header → OnOk result (HeaderKept key ((P.state pages.old).counts (keys_file (P.state pages.old) slot)) ((P.state pages.new).counts (keys_file (P.state pages.old) slot)) header ((P.state pages.new).bodies (keys_file (P.state pages.old) slot))) }
    ensures late { IsTrue P.tells → OnOk result (FewerLate (P.state pages.old) (P.state pages.new)) }
    ensures inside { IsTrue P.tells → OnOk result (StaysIn P.logged (keys_file (P.state pages.old) slot) (P.state pages.old) (P.state pages.new)) }
    ensures grows { OnOk result (GrowsTo (keys_file (P.state pages.old) slot) (P.state pages.old) (P.state pages.new)) }
    ensures spends { Spends 39 120 211921 (P.state pages.old) (P.state pages.new) }
    ensures answers { Answers (P.state pages.old) (P.state pages.new) (fault_of result) }
    ensures cause { HasPagesCause (OfTree P.tells P.logged (CanRemove (P.state pages.old) (keys_file (P.state pages.old) slot) key entry.now) (keys_file (P.state pages.old) slot) (P.state pages.old) (P.state pages.new)) (P.state pages.old) (P.state pages.new) (fault_of result) }
{
    let _file = FileName::Control;
    let head = read_head(alloc, pages, slot, key)?;
    lose(alloc, pages, group, slot, key, head, entry)
}
