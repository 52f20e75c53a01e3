//! Items of nodes that get other entries.

ghost use Rattle.std.specs.Prelude.{◌≡◌, ◌+◌, ◌<◌, ◌≤◌, ◌^◌, ℕ, List, length, true, None, IsTrue, IfOk, OnOk};
ghost use Rattle.aria_keypage.specs.declared.item.TheConstants.{ENTRY_MAX};
ghost use Rattle.aria_keypage.specs.declared.kind.Kind.TheVariants.{Node};
ghost use Rattle.aria_keypage.specs.Content.{Content};
ghost use Rattle.aria_keypage.specs.Change.{without_item};
ghost use Rattle.aria_cache.specs.PageState.{with_count};
ghost use Rattle.aria_cache.specs.Calls.{SameSlots, SameLog, FewerLate, StaysIn, fault_of, Answers, Spends};
ghost use Rattle.aria_cache.specs.Causes.{HasPagesCause};
ghost use Rattle.aria_key.specs.Held.{HasContent, IsPutInHalf};
ghost use Rattle.aria_key.specs.IndexFile.{IsChain, times_free};
ghost use Rattle.aria_key.specs.Taking.{IsTaken, IsSpare, GrowsBy};
ghost use Rattle.aria_key.specs.Ascent.{IsPlaced, free_after};
ghost use Rattle.aria_key.specs.Merging.{IsRenamable};
ghost use Rattle.aria_key.specs.Exchanging.{IsTight};
ghost use Rattle.aria_key.specs.Reading.{keys_file, OfTree};

use crate::editing::edit_page;
use crate::exchange::{all_edits, exchange_at};
use crate::place::{Divided, place_in_half};
use crate::take_out::take_out;
use aria_cache::{OpenGroup, Pages};
use aria_host::{Fault, FileName};
use aria_keypage::{ENTRY_MAX, Kind};
use aria_page::Part;
use std::alloc::Global;

// Takes the item from a position of a node, and puts another in its place, which there is no room for: into one of the
// two halves of the node.
fn rename_in_half<P: Pages>(
    alloc: Global,
    pages: &mut P,
    group: &mut OpenGroup,
    slot: u32,
    page: u32,
    at: usize,
    entry: &[u8],
    to: u32,
    free: u32,
) -> Result<Divided, Fault>
    requires stands { P.stands pages.old }
    requires open { IsTrue ((P.state pages.old).is_open slot) }
    requires group { (P.state pages.old).in_group ≡ true }
    requires entry { length entry.now ≤ ENTRY_MAX }
    requires touched { IsTrue P.logged → (P.state pages.old).touched + 4 ≤ 48 }
    requires made { IsTrue P.logged → (P.state pages.old).made + 10 ≤ 254 }
    ensures stands { P.stands pages.new }
    ensures moves { P.stays pages.old pages.new }
    ensures slots { SameSlots (P.state pages.old) (P.state pages.new) }
    ensures log { SameLog (P.state pages.old) (P.state pages.new) }
    ensures in_group { (P.state pages.new).in_group ≡ true }
    ensures put { IsTrue P.tells → (c : Content) (left : List ℕ) → HasContent ((P.state pages.old).bodies (keys_file (P.state pages.old) slot)) page c → c.kind ≡ Node → at < length c.items
        → IsChain ((P.state pages.old).bodies (keys_file (P.state pages.old) slot)) free left → page < (P.state pages.old).counts (keys_file (P.state pages.old) slot) → times_free page left ≡ 0
        → IfOk result (λ d. IsTaken ((P.state pages.old).bodies (keys_file (P.state pages.old) slot)) ((P.state pages.old).counts (keys_file (P.state pages.old) slot)) left d.fresh d.free
        × IsPutInHalf (keys_file (P.state pages.old) slot) page d.fresh (without_item c at) at (record { entry = entry.now; to = to }) d.between (P.state pages.old).bodies (P.state pages.new).bodies) }
    ensures late { IsTrue P.tells → OnOk result (FewerLate (P.state pages.old) (P.state pages.new)) }
    ensures inside { IsTrue P.tells → OnOk result (StaysIn P.logged (keys_file (P.state pages.old) slot) (P.state pages.old) (P.state pages.new)) }
    ensures spare { IfOk result (λ d. IsSpare ((P.state pages.old).counts (keys_file (P.state pages.old) slot)) free d.fresh d.free) }
    ensures counts { IfOk result (λ d. (P.state pages.new).counts ≡ with_count (keys_file (P.state pages.old) slot) (d.fresh + 1) (P.state pages.old).counts) }
    ensures spends { Spends 4 10 11579 (P.state pages.old) (P.state pages.new) }
    ensures answers { Answers (P.state pages.old) (P.state pages.new) (fault_of result) }
    ensures cause { HasPagesCause (OfTree P.tells P.logged (IsTight (P.state pages.old) (keys_file (P.state pages.old) slot) page at (record { entry = entry.now; to = to }) free) (keys_file (P.state pages.old) slot) (P.state pages.old) (P.state pages.new)) (P.state pages.old) (P.state pages.new) (fault_of result) }
{
    let _file = FileName::Control;
    take_out(alloc, pages, group, slot, page, Kind::Node, at)?;
    let divided = place_in_half(
        alloc,
        pages,
        group,
        slot,
        page,
        Kind::Node,
        at,
        entry,
        to as u64,
        free,
    )?;
    Ok(divided)
}

// Puts an item in the place of the one at a position of a node, which is divided where it has no room for it.
pub(crate) fn rename<P: Pages>(
    alloc: Global,
    pages: &mut P,
    group: &mut OpenGroup,
    slot: u32,
    page: u32,
    at: usize,
    entry: &[u8],
    to: u32,
    free: u32,
) -> Result<Option<Divided>, Fault>
    requires stands { P.stands pages.old }
    requires open { IsTrue ((P.state pages.old).is_open slot) }
    requires group { (P.state pages.old).in_group ≡ true }
    requires touched { IsTrue P.logged → (P.state pages.old).touched + 4 ≤ 48 }
    requires made { IsTrue P.logged → (P.state pages.old).made + 10 ≤ 254 }
    ensures stands { P.stands pages.new }
    ensures moves { P.stays pages.old pages.new }
    ensures slots { SameSlots (P.state pages.old) (P.state pages.new) }
    ensures log { SameLog (P.state pages.old) (P.state pages.new) }
    ensures in_group { (P.state pages.new).in_group ≡ true }
    ensures renamed { IsTrue P.tells → (c : Content) (left : List ℕ) → HasContent ((P.state pages.old).bodies (keys_file (P.state pages.old) slot)) page c → c.kind ≡ Node → at < length c.items
        → IsChain ((P.state pages.old).bodies (keys_file (P.state pages.old) slot)) free left → page < (P.state pages.old).counts (keys_file (P.state pages.old) slot) → times_free page left ≡ 0
        → IfOk result (λ r. IsPlaced (keys_file (P.state pages.old) slot) page (without_item c at) at (record { entry = entry.now; to = to }) ((P.state pages.old).counts (keys_file (P.state pages.old) slot)) ((P.state pages.new).counts (keys_file (P.state pages.old) slot)) left (P.state pages.old).bodies (P.state pages.new).bodies r) }
    ensures short { OnOk result (length entry.now ≤ ENTRY_MAX) }
    ensures late { IsTrue P.tells → OnOk result (FewerLate (P.state pages.old) (P.state pages.new)) }
    ensures inside { IsTrue P.tells → OnOk result (StaysIn P.logged (keys_file (P.state pages.old) slot) (P.state pages.old) (P.state pages.new)) }
    ensures grows { IfOk result (λ r. GrowsBy (keys_file (P.state pages.old) slot) 1 free (free_after free r) (P.state pages.old) (P.state pages.new)) }
    ensures spends { Spends 4 10 11579 (P.state pages.old) (P.state pages.new) }
    ensures few { IfOk result (λ r. r ≡ None → Spends 1 6 3146 (P.state pages.old) (P.state pages.new)) }
    ensures still { IfOk result (λ r. r ≡ None → (P.state pages.new).counts ≡ (P.state pages.old).counts) }
    ensures answers { Answers (P.state pages.old) (P.state pages.new) (fault_of result) }
    ensures cause { HasPagesCause (OfTree P.tells P.logged (IsRenamable (P.state pages.old) (keys_file (P.state pages.old) slot) page at entry.now free) (keys_file (P.state pages.old) slot) (P.state pages.old) (P.state pages.new)) (P.state pages.old) (P.state pages.new) (fault_of result) }
{
    let file: FileName = pages.file(slot, Part::Keys);
    if entry.len() > ENTRY_MAX {
        return Err(pages.stop(Fault::PageDamaged { file, page }));
    }
    match exchange_at(alloc, pages, slot, page, at, entry, to)? {
        Some(edits) => {
            edit_page(
                alloc,
                pages,
                group,
                slot,
                page,
                &all_edits(&edits.out, &edits.put),
            )?;
            Ok(None)
        }
        None => {
            let divided = rename_in_half(alloc, pages, group, slot, page, at, entry, to, free)?;
            Ok(Some(divided))
        }
    }
}
