//! The numbers of trees in the header of an index file.

ghost use Rattle.std.specs.Prelude.{◌≡◌, ◌+◌, ◌<◌, ◌≤◌, ◌^◌, ℕ, List, Some, length, true, IsTrue, IfOk, OnOk};
ghost use Rattle.aria_page.specs.declared.page.TheConstants.{BODY_BYTES};
ghost use Rattle.aria_cache.specs.PageState.{with_count};
ghost use Rattle.aria_cache.specs.Calls.{SameSlots, SameLog, FewerLate, StaysIn, fault_of, Answers, Loads, Spends, HasRoom};
ghost use Rattle.aria_cache.specs.Causes.{OfPage, HasPagesCause};
ghost use Rattle.aria_key.specs.IndexFile.{root_in, free_in};
ghost use Rattle.aria_key.specs.Header.{HasHeader, SetsHeader};
ghost use Rattle.aria_key.specs.Reading.{keys_file, OfTree};

use crate::editing::edit_page;
use crate::layout::{FREE_AT, ROOTS_AT};
use aria_cache::{OpenGroup, PageId, Pages};
use aria_host::{Fault, FileName};
use aria_page::{Change, Part, bytes_from, u32_bytes, u32_of};
use std::alloc::Global;

// What a change of a tree needs of the header: the tree's root, 0 where it is empty, and the first free page, 0 for none.
#[derive(Clone, Copy)]
pub(crate) struct Head {
    pub root: u32,
    pub free: u32,
}

// Whether both are the same.
pub(crate) fn is_same(a: Head, b: Head) -> bool
    ensures { IsTrue result → (a.root ≡ b.root) × (a.free ≡ b.free) }
{
    a.root == b.root && a.free == b.free
}

// The two numbers in a body.
fn head_in(body: &[u8], key: u8) -> Head
    requires size { length body.now ≡ BODY_BYTES }
    requires key { key < 8 }
    ensures root { result.root ≡ root_in body.now key }
    ensures free { result.free ≡ free_in body.now }
{
    Head {
        root: u32_of(bytes_from(body, ROOTS_AT + 4 * key as usize)),
        free: u32_of(bytes_from(body, FREE_AT)),
    }
}

// The root of a key's tree and the first free page, as the header says.
pub(crate) fn read_head<P: Pages>(
    alloc: Global,
    pages: &mut P,
    slot: u32,
    key: u8,
) -> Result<Head, Fault>
    requires stands { P.stands pages.old }
    requires open { IsTrue ((P.state pages.old).is_open slot) }
    requires key { key < 8 }
    ensures stands { P.stands pages.new }
    ensures moves { P.stays pages.old pages.new }
    ensures loads { Loads P.tells 1 (P.state pages.old) (P.state pages.new) }
    ensures some { IfOk result (λ r. 0 < (P.state pages.old).counts (keys_file (P.state pages.old) slot)) }
    ensures head { IsTrue P.tells → (header : List ℕ) → (P.state pages.old).bodies (keys_file (P.state pages.old) slot) 0 ≡ Some header → IfOk result (λ r. (r.root ≡ root_in header key) × (r.free ≡ free_in header)) }
    ensures answers { Answers (P.state pages.old) (P.state pages.new) (fault_of result) }
    ensures cause { HasPagesCause (OfTree P.tells P.logged (HasHeader (P.state pages.old) (keys_file (P.state pages.old) slot)) (keys_file (P.state pages.old) slot) (P.state pages.old) (P.state pages.new)) (P.state pages.old) (P.state pages.new) (fault_of result) }
{
    let file: FileName = pages.file(slot, Part::Keys);
    if pages.count(slot, Part::Keys) == 0 {
        return Err(pages.stop(Fault::PageDamaged { file, page: 0 }));
    }
    pages.load(
        alloc,
        PageId {
            slot,
            part: Part::Keys,
            page: 0,
        },
    )?;
    Ok(head_in(pages.loaded().body(), key))
}

// Sets the root of a key's tree and the first free page in the header.
pub(crate) fn write_head<P: Pages>(
    alloc: Global,
    pages: &mut P,
    group: &mut OpenGroup,
    slot: u32,
    key: u8,
    root: u32,
    free: u32,
) -> Result<(), Fault>
    requires stands { P.stands pages.old }
    requires open { IsTrue ((P.state pages.old).is_open slot) }
    requires group { (P.state pages.old).in_group ≡ true }
    requires key { key < 8 }
    requires room { IsTrue P.logged → HasRoom 2 (P.state pages.old) }
    ensures stands { P.stands pages.new }
    ensures moves { P.stays pages.old pages.new }
    ensures slots { SameSlots (P.state pages.old) (P.state pages.new) }
    ensures log { SameLog (P.state pages.old) (P.state pages.new) }
    ensures in_group { (P.state pages.new).in_group ≡ true }
    ensures fits { (root < 2 ^ 32) × (free < 2 ^ 32) }
    ensures written { IsTrue P.tells → (header : List ℕ) → (P.state pages.old).bodies (keys_file (P.state pages.old) slot) 0 ≡ Some header
        → OnOk result (SetsHeader (keys_file (P.state pages.old) slot) key root free header (P.state pages.old).bodies (P.state pages.new).bodies) }
    ensures late { IsTrue P.tells → OnOk result (FewerLate (P.state pages.old) (P.state pages.new)) }
    ensures inside { IsTrue P.tells → OnOk result (StaysIn P.logged (keys_file (P.state pages.old) slot) (P.state pages.old) (P.state pages.new)) }
    ensures counts { OnOk result ((P.state pages.new).counts ≡ with_count (keys_file (P.state pages.old) slot) 1 (P.state pages.old).counts) }
    ensures spends { Spends 1 2 94 (P.state pages.old) (P.state pages.new) }
    ensures answers { Answers (P.state pages.old) (P.state pages.new) (fault_of result) }
    ensures cause { HasPagesCause (OfPage P.tells P.logged (keys_file (P.state pages.old) slot) 0 (P.state pages.old) (P.state pages.new)) (P.state pages.old) (P.state pages.new) (fault_of result) }
{
    let _file = FileName::Control;
    let first = u32_bytes(free);
    let top = u32_bytes(root);
    let edits = [
        Change::Set {
            at: FREE_AT as u16,
            bytes: &first,
        },
        Change::Set {
            at: ROOTS_AT as u16 + 4 * key as u16,
            bytes: &top,
        },
    ];
    edit_page(alloc, pages, group, slot, 0, &edits)
}
