//! Pages that are written whole: new roots.

ghost use Rattle.std.specs.Prelude.{◌≡◌, ◌+◌, ◌<◌, ◌≤◌, ◌^◌, ℕ, length, true, IsTrue, IsSome, OnOk};
ghost use Rattle.aria_page.specs.declared.page.TheConstants.{BODY_BYTES};
ghost use Rattle.aria_keypage.specs.declared.item.TheConstants.{ENTRY_MAX};
ghost use Rattle.aria_keypage.specs.Change.{IsBody, leaf_of_one, node_of_one};
ghost use Rattle.aria_keypage.specs.Content.{Content};
ghost use Rattle.aria_cache.specs.PageState.{with_count};
ghost use Rattle.aria_cache.specs.Calls.{SameSlots, SameLog, FewerLate, StaysIn, fault_of, Answers, Spends, HasRoom};
ghost use Rattle.aria_cache.specs.Causes.{OfPage, HasPagesCause};
ghost use Rattle.aria_key.specs.Held.{Rewritten};
ghost use Rattle.aria_key.specs.Reading.{keys_file};

use crate::editing::edit_page;
use aria_cache::{OpenGroup, Pages};
use aria_host::{Fault, FileName};
use aria_keypage::{root_leaf, root_node};
use aria_page::{Bytes, Change};
use std::alloc::{AllocError, Global};

// Writes a whole page of the index file.
fn write_body<P: Pages>(
    alloc: Global,
    pages: &mut P,
    group: &mut OpenGroup,
    slot: u32,
    page: u32,
    body: Bytes,
) -> Result<(), Fault>
    requires stands { P.stands pages.old }
    requires open { IsTrue ((P.state pages.old).is_open slot) }
    requires group { (P.state pages.old).in_group ≡ true }
    requires low { page < 2 ^ 31 }
    requires size { length body ≡ BODY_BYTES }
    requires room { IsTrue P.logged → HasRoom 1 (P.state pages.old) }
    ensures stands { P.stands pages.new }
    ensures moves { P.stays pages.old pages.new }
    ensures slots { SameSlots (P.state pages.old) (P.state pages.new) }
    ensures log { SameLog (P.state pages.old) (P.state pages.new) }
    ensures in_group { (P.state pages.new).in_group ≡ true }
    ensures written { IsTrue P.tells → (c : Content) → IsBody body c → IsSome ((P.state pages.old).bodies (keys_file (P.state pages.old) slot) page) → OnOk result (Rewritten (keys_file (P.state pages.old) slot) page c (P.state pages.old).bodies (P.state pages.new).bodies) }
    ensures late { IsTrue P.tells → OnOk result (FewerLate (P.state pages.old) (P.state pages.new)) }
    ensures inside { IsTrue P.tells → OnOk result (StaysIn P.logged (keys_file (P.state pages.old) slot) (P.state pages.old) (P.state pages.new)) }
    ensures counts { OnOk result ((P.state pages.new).counts ≡ with_count (keys_file (P.state pages.old) slot) (page + 1) (P.state pages.old).counts) }
    ensures spends { Spends 1 1 8258 (P.state pages.old) (P.state pages.new) }
    ensures answers { Answers (P.state pages.old) (P.state pages.new) (fault_of result) }
    ensures cause { HasPagesCause (OfPage P.tells P.logged (keys_file (P.state pages.old) slot) page (P.state pages.old) (P.state pages.new)) (P.state pages.old) (P.state pages.new) (fault_of result) }
{
    let _file = FileName::Control;
    let whole = [Change::Whole {
        body: body.as_slice(),
    }];
    edit_page(alloc, pages, group, slot, page, &whole)
}

// Makes a page a root that names two pages: the one that was the root, and one to its right.
pub(crate) fn new_root<P: Pages>(
    alloc: Global,
    pages: &mut P,
    group: &mut OpenGroup,
    slot: u32,
    page: u32,
    key: u8,
    root: u32,
    entry: &[u8],
    child: u32,
) -> Result<(), Fault>
    requires stands { P.stands pages.old }
    requires open { IsTrue ((P.state pages.old).is_open slot) }
    requires group { (P.state pages.old).in_group ≡ true }
    requires low { page < 2 ^ 31 }
    requires entry { length entry.now ≤ ENTRY_MAX }
    requires room { IsTrue P.logged → HasRoom 1 (P.state pages.old) }
    ensures stands { P.stands pages.new }
    ensures moves { P.stays pages.old pages.new }
    ensures slots { SameSlots (P.state pages.old) (P.state pages.new) }
    ensures log { SameLog (P.state pages.old) (P.state pages.new) }
    ensures in_group { (P.state pages.new).in_group ≡ true }
    ensures written { IsTrue P.tells → IsSome ((P.state pages.old).bodies (keys_file (P.state pages.old) slot) page)
        → OnOk result (Rewritten (keys_file (P.state pages.old) slot) page (node_of_one key root (record { entry = entry.now; to = child })) (P.state pages.old).bodies (P.state pages.new).bodies) }
    ensures late { IsTrue P.tells → OnOk result (FewerLate (P.state pages.old) (P.state pages.new)) }
    ensures inside { IsTrue P.tells → OnOk result (StaysIn P.logged (keys_file (P.state pages.old) slot) (P.state pages.old) (P.state pages.new)) }
    ensures counts { OnOk result ((P.state pages.new).counts ≡ with_count (keys_file (P.state pages.old) slot) (page + 1) (P.state pages.old).counts) }
    ensures spends { Spends 1 1 8258 (P.state pages.old) (P.state pages.new) }
    ensures answers { Answers (P.state pages.old) (P.state pages.new) (fault_of result) }
    ensures cause { HasPagesCause (OfPage P.tells P.logged (keys_file (P.state pages.old) slot) page (P.state pages.old) (P.state pages.new)) (P.state pages.old) (P.state pages.new) (fault_of result) }
{
    match root_node(alloc, key, root, entry, child) {
        Ok(body) => write_body(alloc, pages, group, slot, page, body),
        Err(AllocError) => Err(pages.stop(Fault::Memory(AllocError))),
    }
}

// Makes a page a root that is a leaf with one entry.
pub(crate) fn new_leaf<P: Pages>(
    alloc: Global,
    pages: &mut P,
    group: &mut OpenGroup,
    slot: u32,
    page: u32,
    key: u8,
    entry: &[u8],
    target: u64,
) -> Result<(), Fault>
    requires stands { P.stands pages.old }
    requires open { IsTrue ((P.state pages.old).is_open slot) }
    requires group { (P.state pages.old).in_group ≡ true }
    requires low { page < 2 ^ 31 }
    requires entry { length entry.now ≤ ENTRY_MAX }
    requires target { target < 2 ^ 40 }
    requires room { IsTrue P.logged → HasRoom 1 (P.state pages.old) }
    ensures stands { P.stands pages.new }
    ensures moves { P.stays pages.old pages.new }
    ensures slots { SameSlots (P.state pages.old) (P.state pages.new) }
    ensures log { SameLog (P.state pages.old) (P.state pages.new) }
    ensures in_group { (P.state pages.new).in_group ≡ true }
    ensures written { IsTrue P.tells → IsSome ((P.state pages.old).bodies (keys_file (P.state pages.old) slot) page)
        → OnOk result (Rewritten (keys_file (P.state pages.old) slot) page (leaf_of_one key (record { entry = entry.now; to = target })) (P.state pages.old).bodies (P.state pages.new).bodies) }
    ensures late { IsTrue P.tells → OnOk result (FewerLate (P.state pages.old) (P.state pages.new)) }
    ensures inside { IsTrue P.tells → OnOk result (StaysIn P.logged (keys_file (P.state pages.old) slot) (P.state pages.old) (P.state pages.new)) }
    ensures counts { OnOk result ((P.state pages.new).counts ≡ with_count (keys_file (P.state pages.old) slot) (page + 1) (P.state pages.old).counts) }
    ensures spends { Spends 1 1 8258 (P.state pages.old) (P.state pages.new) }
    ensures answers { Answers (P.state pages.old) (P.state pages.new) (fault_of result) }
    ensures cause { HasPagesCause (OfPage P.tells P.logged (keys_file (P.state pages.old) slot) page (P.state pages.old) (P.state pages.new)) (P.state pages.old) (P.state pages.new) (fault_of result) }
{
    match root_leaf(alloc, key, entry, target) {
        Ok(body) => write_body(alloc, pages, group, slot, page, body),
        Err(AllocError) => Err(pages.stop(Fault::Memory(AllocError))),
    }
}
