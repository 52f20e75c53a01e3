//! Items put into pages, which are divided where they have no room.

ghost use Rattle.std.specs.Prelude.{◌≡◌, ◌+◌, ◌<◌, ◌≤◌, ◌^◌, ℕ, List, length, true, None, IsTrue, IfOk, OnOk};
ghost use Rattle.aria_keypage.specs.declared.item.TheConstants.{ENTRY_MAX};
ghost use Rattle.aria_keypage.specs.Content.{Content, width};
ghost use Rattle.aria_cache.specs.PageState.{with_count};
ghost use Rattle.aria_cache.specs.Calls.{SameSlots, SameLog, FewerLate, StaysIn, fault_of, Answers, Spends};
ghost use Rattle.aria_cache.specs.Causes.{HasPagesCause};
ghost use Rattle.aria_key.specs.Held.{HasContent, IsPutInHalf};
ghost use Rattle.aria_key.specs.IndexFile.{IsChain, times_free};
ghost use Rattle.aria_key.specs.Taking.{IsTaken, IsSpare, GrowsBy};
ghost use Rattle.aria_key.specs.Ascent.{IsPlaced, IsPlaceable, IsCramped, free_after};
ghost use Rattle.aria_key.specs.Reading.{keys_file, OfTree};

use crate::halving::put_in_half;
use crate::put::put;
use crate::take::take_page;
use aria_cache::{OpenGroup, Pages};
use aria_host::{Fault, FileName};
use aria_keypage::{ENTRY_MAX, Kind};
use aria_page::{Bytes, Part};
use std::alloc::Global;

// A page that was divided: the entry between its halves, the page that has the right one, and the first free page then,
// 0 for none.
#[derive(Drop)]
pub(crate) struct Divided {
    pub between: Bytes,
    pub fresh: u32,
    pub free: u32,
}

// Takes a page for the right half of one that has no room for an item, and puts the item into one of the two halves.
pub(crate) fn place_in_half<P: Pages>(
    alloc: Global,
    pages: &mut P,
    group: &mut OpenGroup,
    slot: u32,
    page: u32,
    kind: Kind,
    at: usize,
    entry: &[u8],
    to: u64,
    free: u32,
) -> Result<Divided, Fault>
    requires stands { P.stands pages.old }
    requires open { IsTrue ((P.state pages.old).is_open slot) }
    requires group { (P.state pages.old).in_group ≡ true }
    requires calm { (P.state pages.old).kept ≡ None }
    requires entry { length entry.now ≤ ENTRY_MAX }
    requires to { to < 256 ^ width kind }
    requires touched { IsTrue P.logged → (P.state pages.old).touched + 3 ≤ 48 }
    requires made { IsTrue P.logged → (P.state pages.old).made + 7 ≤ 254 }
    ensures stands { P.stands pages.new }
    ensures moves { P.stays pages.old pages.new }
    ensures slots { SameSlots (P.state pages.old) (P.state pages.new) }
    ensures log { SameLog (P.state pages.old) (P.state pages.new) }
    ensures in_group { (P.state pages.new).in_group ≡ true }
    ensures put { IsTrue P.tells → (c : Content) (left : List ℕ) → HasContent ((P.state pages.old).bodies (keys_file (P.state pages.old) slot)) page c → c.kind ≡ kind → at ≤ length c.items
        → IsChain ((P.state pages.old).bodies (keys_file (P.state pages.old) slot)) free left → page < (P.state pages.old).counts (keys_file (P.state pages.old) slot) → times_free page left ≡ 0
        → IfOk result (λ d. IsTaken ((P.state pages.old).bodies (keys_file (P.state pages.old) slot)) ((P.state pages.old).counts (keys_file (P.state pages.old) slot)) left d.fresh d.free
        × IsPutInHalf (keys_file (P.state pages.old) slot) page d.fresh c at (record { entry = entry.now; to = to }) d.between (P.state pages.old).bodies (P.state pages.new).bodies) }
    ensures late { IsTrue P.tells → OnOk result (FewerLate (P.state pages.old) (P.state pages.new)) }
    ensures inside { IsTrue P.tells → OnOk result (StaysIn P.logged (keys_file (P.state pages.old) slot) (P.state pages.old) (P.state pages.new)) }
    ensures spare { IfOk result (λ d. IsSpare ((P.state pages.old).counts (keys_file (P.state pages.old) slot)) free d.fresh d.free) }
    ensures counts { IfOk result (λ d. (P.state pages.new).counts ≡ with_count (keys_file (P.state pages.old) slot) (d.fresh + 1) (P.state pages.old).counts) }
    ensures spends { Spends 3 7 10472 (P.state pages.old) (P.state pages.new) }
    ensures answers { Answers (P.state pages.old) (P.state pages.new) (fault_of result) }
    ensures cause { HasPagesCause (OfTree P.tells P.logged (IsCramped (P.state pages.old) (keys_file (P.state pages.old) slot) page kind at (record { entry = entry.now; to = to }) free) (keys_file (P.state pages.old) slot) (P.state pages.old) (P.state pages.new)) (P.state pages.old) (P.state pages.new) (fault_of result) }
{
    let _file = FileName::Control;
    let taken = take_page(alloc, pages, slot, free)?;
    let between = put_in_half(
        alloc, pages, group, slot, page, taken.page, kind, at, entry, to,
    )?;
    Ok(Divided {
        between,
        fresh: taken.page,
        free: taken.free,
    })
}

// Puts an item at a position of a leaf or of a node, which is divided where it has no room for it.
pub(crate) fn place<P: Pages>(
    alloc: Global,
    pages: &mut P,
    group: &mut OpenGroup,
    slot: u32,
    page: u32,
    kind: Kind,
    at: usize,
    entry: &[u8],
    to: u64,
    free: u32,
) -> Result<Option<Divided>, Fault>
    requires stands { P.stands pages.old }
    requires open { IsTrue ((P.state pages.old).is_open slot) }
    requires group { (P.state pages.old).in_group ≡ true }
    requires to { to < 256 ^ width kind }
    requires touched { IsTrue P.logged → (P.state pages.old).touched + 3 ≤ 48 }
    requires made { IsTrue P.logged → (P.state pages.old).made + 7 ≤ 254 }
    ensures stands { P.stands pages.new }
    ensures moves { P.stays pages.old pages.new }
    ensures slots { SameSlots (P.state pages.old) (P.state pages.new) }
    ensures log { SameLog (P.state pages.old) (P.state pages.new) }
    ensures in_group { (P.state pages.new).in_group ≡ true }
    ensures placed { IsTrue P.tells → (c : Content) (left : List ℕ) → HasContent ((P.state pages.old).bodies (keys_file (P.state pages.old) slot)) page c → c.kind ≡ kind → at ≤ length c.items
        → IsChain ((P.state pages.old).bodies (keys_file (P.state pages.old) slot)) free left → page < (P.state pages.old).counts (keys_file (P.state pages.old) slot) → times_free page left ≡ 0
        → IfOk result (λ r. IsPlaced (keys_file (P.state pages.old) slot) page c at (record { entry = entry.now; to = to }) ((P.state pages.old).counts (keys_file (P.state pages.old) slot)) ((P.state pages.new).counts (keys_file (P.state pages.old) slot)) left (P.state pages.old).bodies (P.state pages.new).bodies r) }
    ensures short { OnOk result (length entry.now ≤ ENTRY_MAX) }
    ensures late { IsTrue P.tells → OnOk result (FewerLate (P.state pages.old) (P.state pages.new)) }
    ensures inside { IsTrue P.tells → OnOk result (StaysIn P.logged (keys_file (P.state pages.old) slot) (P.state pages.old) (P.state pages.new)) }
    ensures grows { IfOk result (λ r. GrowsBy (keys_file (P.state pages.old) slot) 1 free (free_after free r) (P.state pages.old) (P.state pages.new)) }
    ensures spends { Spends 3 7 10472 (P.state pages.old) (P.state pages.new) }
    ensures answers { Answers (P.state pages.old) (P.state pages.new) (fault_of result) }
    ensures cause { HasPagesCause (OfTree P.tells P.logged (IsPlaceable (P.state pages.old) (keys_file (P.state pages.old) slot) page kind at entry.now free) (keys_file (P.state pages.old) slot) (P.state pages.old) (P.state pages.new)) (P.state pages.old) (P.state pages.new) (fault_of result) }
{
    let file: FileName = pages.file(slot, Part::Keys);
    if entry.len() > ENTRY_MAX {
        return Err(pages.stop(Fault::PageDamaged { file, page }));
    }
    match put(alloc, pages, group, slot, page, kind, at, entry, to)? {
        true => Ok(None),
        false => {
            let divided = place_in_half(
                alloc, pages, group, slot, page, kind, at, entry, to, free,
            )?;
            Ok(Some(divided))
        }
    }
}
