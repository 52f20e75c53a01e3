//! The way back up: the page above takes the name of a page that was divided off, or is divided too.

ghost use Rattle.std.specs.Prelude.{◌≡◌, ◌+◌, ◌*◌, ◌<◌, ◌≤◌, ◌^◌, ℕ, List, [], length, true, None, IsTrue, IfOk, OnOk};
ghost use Rattle.aria_keypage.specs.Item.{Item};
ghost use Rattle.aria_cache.specs.PageState.{Bodies};
ghost use Rattle.aria_cache.specs.Calls.{SameSlots, SameLog, FewerLate, StaysIn, fault_of, Answers, Spends};
ghost use Rattle.aria_cache.specs.Causes.{HasPagesCause};
ghost use Rattle.aria_key.specs.Path.{passed};
ghost use Rattle.aria_key.specs.Tree.{Placed};
ghost use Rattle.aria_key.specs.Taking.{GrowsBy};
ghost use Rattle.aria_key.specs.Ascent.{Ascent, Regrown, CanAscend};
ghost use Rattle.aria_key.specs.Reading.{keys_file, OfTree};

use crate::head::Head;
use crate::path::Path;
use crate::place::place;
use crate::root::new_root;
use crate::take::take_page;
use aria_cache::{OpenGroup, Pages};
use aria_host::{Fault, FileName};
use aria_keypage::{ENTRY_MAX, Kind};
use aria_page::Part;
use std::alloc::Global;

// Takes a page for a new root, above the one that was the root and a page to its right.
fn raise<P: Pages>(
    alloc: Global,
    pages: &mut P,
    group: &mut OpenGroup,
    slot: u32,
    key: u8,
    root: u32,
    entry: &[u8],
    child: u32,
    free: u32,
) -> Result<Head, Fault>
    requires stands { P.stands pages.old }
    requires open { IsTrue ((P.state pages.old).is_open slot) }
    requires group { (P.state pages.old).in_group ≡ true }
    requires calm { (P.state pages.old).kept ≡ None }
    requires touched { IsTrue P.logged → (P.state pages.old).touched + 1 ≤ 48 }
    requires made { IsTrue P.logged → (P.state pages.old).made + 1 ≤ 254 }
    ensures stands { P.stands pages.new }
    ensures moves { P.stays pages.old pages.new }
    ensures slots { SameSlots (P.state pages.old) (P.state pages.new) }
    ensures log { SameLog (P.state pages.old) (P.state pages.new) }
    ensures in_group { (P.state pages.new).in_group ≡ true }
    ensures raised { IsTrue P.tells → (was : Bodies) (before : ℕ) (levels : List (List Placed)) (chain : List ℕ) (walk : List Item)
        → Ascent (keys_file (P.state pages.old) slot) was (P.state pages.old).bodies before ((P.state pages.old).counts (keys_file (P.state pages.old) slot)) key root levels chain walk [] (record { entry = entry.now; to = child }) free → length levels < 16
        → IfOk result (λ r. Regrown (keys_file (P.state pages.old) slot) was (P.state pages.new).bodies before ((P.state pages.new).counts (keys_file (P.state pages.old) slot)) key levels chain walk r.root r.free) }
    ensures late { IsTrue P.tells → OnOk result (FewerLate (P.state pages.old) (P.state pages.new)) }
    ensures inside { IsTrue P.tells → OnOk result (StaysIn P.logged (keys_file (P.state pages.old) slot) (P.state pages.old) (P.state pages.new)) }
    ensures grows { IfOk result (λ r. GrowsBy (keys_file (P.state pages.old) slot) 1 free r.free (P.state pages.old) (P.state pages.new)) }
    ensures spends { Spends 1 1 8258 (P.state pages.old) (P.state pages.new) }
    ensures answers { Answers (P.state pages.old) (P.state pages.new) (fault_of result) }
    ensures cause { HasPagesCause (OfTree P.tells P.logged (CanAscend (P.state pages.old) (keys_file (P.state pages.old) slot) key root [] (record { entry = entry.now; to = child }) free) (keys_file (P.state pages.old) slot) (P.state pages.old) (P.state pages.new)) (P.state pages.old) (P.state pages.new) (fault_of result) }
{
    let file: FileName = pages.file(slot, Part::Keys);
    if entry.len() > ENTRY_MAX {
        return Err(pages.stop(Fault::PageDamaged { file, page: root }));
    }
    let taken = take_page(alloc, pages, slot, free)?;
    new_root(
        alloc, pages, group, slot, taken.page, key, root, entry, child,
    )?;
    Ok(Head {
        root: taken.page,
        free: taken.free,
    })
}

// Names a page that was divided off in the levels above it. Gives the tree's root and the first free page then.
pub(crate) fn settle<P: Pages>(
    alloc: Global,
    pages: &mut P,
    group: &mut OpenGroup,
    slot: u32,
    key: u8,
    root: u32,
    path: Path,
    entry: &[u8],
    child: u32,
    free: u32,
) -> Result<Head, Fault>
    requires stands { P.stands pages.old }
    requires open { IsTrue ((P.state pages.old).is_open slot) }
    requires group { (P.state pages.old).in_group ≡ true }
    requires calm { (P.state pages.old).kept ≡ None }
    requires few { path.len ≤ 16 }
    requires touched { IsTrue P.logged → (P.state pages.old).touched + (3 * path.len + 1) ≤ 48 }
    requires made { IsTrue P.logged → (P.state pages.old).made + (7 * path.len + 1) ≤ 254 }
    ensures stands { P.stands pages.new }
    ensures moves { P.stays pages.old pages.new }
    ensures slots { SameSlots (P.state pages.old) (P.state pages.new) }
    ensures log { SameLog (P.state pages.old) (P.state pages.new) }
    ensures in_group { (P.state pages.new).in_group ≡ true }
    ensures settled { IsTrue P.tells → (was : Bodies) (before : ℕ) (levels : List (List Placed)) (chain : List ℕ) (walk : List Item)
        → Ascent (keys_file (P.state pages.old) slot) was (P.state pages.old).bodies before ((P.state pages.old).counts (keys_file (P.state pages.old) slot)) key root levels chain walk (passed path) (record { entry = entry.now; to = child }) free → length levels < 16
        → IfOk result (λ r. Regrown (keys_file (P.state pages.old) slot) was (P.state pages.new).bodies before ((P.state pages.new).counts (keys_file (P.state pages.old) slot)) key levels chain walk r.root r.free) }
    ensures late { IsTrue P.tells → OnOk result (FewerLate (P.state pages.old) (P.state pages.new)) }
    ensures inside { IsTrue P.tells → OnOk result (StaysIn P.logged (keys_file (P.state pages.old) slot) (P.state pages.old) (P.state pages.new)) }
    ensures grows { IfOk result (λ r. GrowsBy (keys_file (P.state pages.old) slot) (path.len + 1) free r.free (P.state pages.old) (P.state pages.new)) }
    ensures spends { Spends (3 * path.len + 1) (7 * path.len + 1) (10472 * path.len + 8258) (P.state pages.old) (P.state pages.new) }
    ensures answers { Answers (P.state pages.old) (P.state pages.new) (fault_of result) }
    ensures cause { HasPagesCause (OfTree P.tells P.logged (CanAscend (P.state pages.old) (keys_file (P.state pages.old) slot) key root (passed path) (record { entry = entry.now; to = child }) free) (keys_file (P.state pages.old) slot) (P.state pages.old) (P.state pages.new)) (P.state pages.old) (P.state pages.new) (fault_of result) }
{
    let _file = FileName::Control;
    let mut rest = path;
    match rest.pop() {
        None => raise(alloc, pages, group, slot, key, root, entry, child, free),
        Some(step) => {
            match place(
                alloc,
                pages,
                group,
                slot,
                step.page,
                Kind::Node,
                step.at,
                entry,
                child as u64,
                free,
            )? {
                None => Ok(Head { root, free }),
                Some(divided) => settle(
                    alloc,
                    pages,
                    group,
                    slot,
                    key,
                    root,
                    rest,
                    divided.between.as_slice(),
                    divided.fresh,
                    divided.free,
                ),
            }
        }
    }
}
