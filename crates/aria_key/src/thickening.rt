//! The way back up from a page that lost an item: one with too few item bytes takes over those of a page beside it, or
//! their items are divided anew.

ghost use Rattle.std.specs.Prelude.{◌≡◌, ◌⊎◌, ◌+◌, ◌*◌, ◌<◌, ◌≤◌, ◌^◌, ◌++◌, ◌&&◌, ℕ, List, [], ◌∷◌, length, true, false, None, IsTrue, IsSome, IfOk, OnOk};
ghost use Rattle.aria_keypage.specs.declared.kind.Kind.TheVariants.{Node};
ghost use Rattle.aria_keypage.specs.Item.{Item};
ghost use Rattle.aria_keypage.specs.Content.{Content};
ghost use Rattle.aria_cache.specs.PageState.{Bodies};
ghost use Rattle.aria_cache.specs.Calls.{SameSlots, SameLog, FewerLate, StaysIn, fault_of, Answers, Spends};
ghost use Rattle.aria_cache.specs.Causes.{HasPagesCause};
ghost use Rattle.aria_key.specs.declared.path.Passed.{Passed};
ghost use Rattle.aria_key.specs.Path.{passed, IsTop};
ghost use Rattle.aria_key.specs.Tree.{Placed};
ghost use Rattle.aria_key.specs.Held.{HasContent};
ghost use Rattle.aria_key.specs.Thinning.{Thinned, Reduced};
ghost use Rattle.aria_key.specs.Merging.{IsThin, IsFreed};
ghost use Rattle.aria_key.specs.Lifting.{IsPage, IsEmptied, CanEmpty, IsLifted, SpendsLift, SpendsEmpty, GrowsLift, CanLift, CanThicken, Widens};
ghost use Rattle.aria_key.specs.Reading.{keys_file, OfTree};

use crate::freeing::free_page;
use crate::head::Head;
use crate::merging::merge;
use crate::neighbours::neighbours;
use crate::path::{Passed, Path};
use crate::place::Divided;
use crate::renaming::rename;
use crate::settle::settle;
use crate::take_out::take_out;
use crate::weight::is_low_page;
use aria_cache::{OpenGroup, Pages};
use aria_host::{Fault, FileName};
use aria_keypage::Kind;
use aria_page::Part;
use std::alloc::Global;

// What a step up gives: the tree stands, with this root and first free page; or the node above lost an item, with this
// first free page; or that node was divided.
#[derive(Drop)]
pub(crate) enum Lift {
    Stands(Head),
    Thin(u32),
    Parted(Divided),
}

// Makes a page of the file a free one, which names the next.
pub(crate) fn give_back<P: Pages>(
    alloc: Global,
    pages: &mut P,
    group: &mut OpenGroup,
    slot: u32,
    page: u32,
    next: u32,
) -> Result<(), Fault>
    requires stands { P.stands pages.old }
    requires open { IsTrue ((P.state pages.old).is_open slot) }
    requires group { (P.state pages.old).in_group ≡ true }
    requires touched { IsTrue P.logged → (P.state pages.old).touched + 1 ≤ 48 }
    requires made { IsTrue P.logged → (P.state pages.old).made + 1 ≤ 254 }
    ensures stands { P.stands pages.new }
    ensures moves { P.stays pages.old pages.new }
    ensures slots { SameSlots (P.state pages.old) (P.state pages.new) }
    ensures log { SameLog (P.state pages.old) (P.state pages.new) }
    ensures in_group { (P.state pages.new).in_group ≡ true }
    ensures freed { IsTrue P.tells → IsSome ((P.state pages.old).bodies (keys_file (P.state pages.old) slot) page)
        → OnOk result (IsFreed (keys_file (P.state pages.old) slot) page next (P.state pages.old).bodies (P.state pages.new).bodies) }
    ensures late { IsTrue P.tells → OnOk result (FewerLate (P.state pages.old) (P.state pages.new)) }
    ensures inside { IsTrue P.tells → OnOk result (StaysIn P.logged (keys_file (P.state pages.old) slot) (P.state pages.old) (P.state pages.new)) }
    ensures counts { OnOk result ((P.state pages.new).counts ≡ (P.state pages.old).counts) }
    ensures spends { Spends 1 1 8258 (P.state pages.old) (P.state pages.new) }
    ensures answers { Answers (P.state pages.old) (P.state pages.new) (fault_of result) }
    ensures cause { HasPagesCause (OfTree P.tells P.logged (IsPage (P.state pages.old) (keys_file (P.state pages.old) slot) page) (keys_file (P.state pages.old) slot) (P.state pages.old) (P.state pages.new)) (P.state pages.old) (P.state pages.new) (fault_of result) }
{
    let file: FileName = pages.file(slot, Part::Keys);
    if page >= pages.count(slot, Part::Keys) {
        return Err(pages.stop(Fault::PageDamaged { file, page }));
    }
    free_page(alloc, pages, group, slot, page, next)?;
    Ok(())
}

// Makes the page to the right of one that took over its items a free one, and takes the item that named it from the node;
// or makes the node a free page too, if its last children became the root.
fn empty<P: Pages>(
    alloc: Global,
    pages: &mut P,
    group: &mut OpenGroup,
    slot: u32,
    node: u32,
    left: u32,
    right: u32,
    at: usize,
    last: bool,
    free: u32,
) -> Result<Lift, Fault>
    requires stands { P.stands pages.old }
    requires open { IsTrue ((P.state pages.old).is_open slot) }
    requires group { (P.state pages.old).in_group ≡ true }
    requires touched { IsTrue P.logged → (P.state pages.old).touched + 2 ≤ 48 }
    requires made { IsTrue P.logged → (P.state pages.old).made + 4 ≤ 254 }
    ensures stands { P.stands pages.new }
    ensures moves { P.stays pages.old pages.new }
    ensures slots { SameSlots (P.state pages.old) (P.state pages.new) }
    ensures log { SameLog (P.state pages.old) (P.state pages.new) }
    ensures in_group { (P.state pages.new).in_group ≡ true }
    ensures emptied { IsTrue P.tells → (c : Content) → HasContent ((P.state pages.old).bodies (keys_file (P.state pages.old) slot)) node c → c.kind ≡ Node → at < length c.items → IsSome ((P.state pages.old).bodies (keys_file (P.state pages.old) slot) right) → (right ≡ node → ⊥)
        → IfOk result (λ r. IsEmptied (keys_file (P.state pages.old) slot) node left right at c free last (P.state pages.old).bodies (P.state pages.new).bodies r) }
    ensures late { IsTrue P.tells → OnOk result (FewerLate (P.state pages.old) (P.state pages.new)) }
    ensures inside { IsTrue P.tells → OnOk result (StaysIn P.logged (keys_file (P.state pages.old) slot) (P.state pages.old) (P.state pages.new)) }
    ensures counts { OnOk result ((P.state pages.new).counts ≡ (P.state pages.old).counts) }
    ensures spends { Spends 2 4 16516 (P.state pages.old) (P.state pages.new) }
    ensures few { IfOk result (λ r. SpendsEmpty r (P.state pages.old) (P.state pages.new)) }
    ensures answers { Answers (P.state pages.old) (P.state pages.new) (fault_of result) }
    ensures cause { HasPagesCause (OfTree P.tells P.logged (CanEmpty (P.state pages.old) (keys_file (P.state pages.old) slot) node right at) (keys_file (P.state pages.old) slot) (P.state pages.old) (P.state pages.new)) (P.state pages.old) (P.state pages.new) (fault_of result) }
{
    let _file = FileName::Control;
    give_back(alloc, pages, group, slot, right, free)?;
    if last {
        give_back(alloc, pages, group, slot, node, right)?;
        return Ok(Lift::Stands(Head {
            root: left,
            free: node,
        }));
    }
    take_out(alloc, pages, group, slot, node, Kind::Node, at)?;
    Ok(Lift::Thin(right))
}

// Whether the root has no other children.
fn is_last(top: bool, alone: bool) -> bool
    ensures last { result ≡ (top && alone) }
{
    top && alone
}

// Merges a page that has too few item bytes with the one beside it, and changes the node above.
fn step_up<P: Pages>(
    alloc: Global,
    pages: &mut P,
    group: &mut OpenGroup,
    slot: u32,
    key: u8,
    root: u32,
    step: Passed,
    top: bool,
    page: u32,
    free: u32,
) -> Result<Lift, Fault>
    requires stands { P.stands pages.old }
    requires open { IsTrue ((P.state pages.old).is_open slot) }
    requires group { (P.state pages.old).in_group ≡ true }
    requires touched { IsTrue P.logged → (P.state pages.old).touched + 6 ≤ 48 }
    requires made { IsTrue P.logged → (P.state pages.old).made + 14 ≤ 254 }
    ensures stands { P.stands pages.new }
    ensures moves { P.stays pages.old pages.new }
    ensures slots { SameSlots (P.state pages.old) (P.state pages.new) }
    ensures log { SameLog (P.state pages.old) (P.state pages.new) }
    ensures in_group { (P.state pages.new).in_group ≡ true }
    ensures lifted { IsTrue P.tells → (was : Bodies) (before : ℕ) (levels : List (List Placed)) (chain : List ℕ) (walk : List Item) (path : List Passed)
        → Thinned (keys_file (P.state pages.old) slot) was (P.state pages.old).bodies before ((P.state pages.old).counts (keys_file (P.state pages.old) slot)) key root levels chain walk (path ++ step ∷ []) page free → length levels < 16
        → ((c : Content) → HasContent ((P.state pages.old).bodies (keys_file (P.state pages.old) slot)) page c → IsThin c) → IsTop top path
        → IfOk result (λ r. IsLifted (keys_file (P.state pages.old) slot) was (P.state pages.new).bodies before ((P.state pages.new).counts (keys_file (P.state pages.old) slot)) key root levels chain walk path step.page r) }
    ensures late { IsTrue P.tells → OnOk result (FewerLate (P.state pages.old) (P.state pages.new)) }
    ensures inside { IsTrue P.tells → OnOk result (StaysIn P.logged (keys_file (P.state pages.old) slot) (P.state pages.old) (P.state pages.new)) }
    ensures grows { IfOk result (λ r. GrowsLift (keys_file (P.state pages.old) slot) free r (P.state pages.old) (P.state pages.new)) }
    ensures spends { Spends 6 14 26052 (P.state pages.old) (P.state pages.new) }
    ensures few { IfOk result (λ r. SpendsLift r (P.state pages.old) (P.state pages.new)) }
    ensures answers { Answers (P.state pages.old) (P.state pages.new) (fault_of result) }
    ensures cause { HasPagesCause (OfTree P.tells P.logged (CanLift (P.state pages.old) (keys_file (P.state pages.old) slot) key root step top page free) (keys_file (P.state pages.old) slot) (P.state pages.old) (P.state pages.new)) (P.state pages.old) (P.state pages.new) (fault_of result) }
{
    let _file = FileName::Control;
    let _key = key;
    let _root = root;
    let _page = page;
    let near = neighbours(alloc, pages, slot, step.page, step.at)?;
    match merge(
        alloc,
        pages,
        group,
        slot,
        near.left,
        near.right,
        near.between.as_slice(),
    )? {
        None => empty(
            alloc,
            pages,
            group,
            slot,
            step.page,
            near.left,
            near.right,
            near.at,
            is_last(top, near.alone),
            free,
        ),
        Some(between) => {
            match rename(
                alloc,
                pages,
                group,
                slot,
                step.page,
                near.at,
                between.as_slice(),
                near.right,
                free,
            )? {
                None => Ok(Lift::Thin(free)),
                Some(divided) => Ok(Lift::Parted(divided)),
            }
        }
    }
}

// Goes back up from a page that lost an item, as long as pages have too few item bytes. Gives the tree's root and the first
// free page then.
pub(crate) fn thicken<P: Pages>(
    alloc: Global,
    pages: &mut P,
    group: &mut OpenGroup,
    slot: u32,
    key: u8,
    root: u32,
    path: Path,
    page: u32,
    free: u32,
) -> Result<Head, Fault>
    requires stands { P.stands pages.old }
    requires open { IsTrue ((P.state pages.old).is_open slot) }
    requires group { (P.state pages.old).in_group ≡ true }
    requires calm { (P.state pages.old).kept ≡ None }
    requires few { path.len ≤ 16 }
    requires touched { IsTrue P.logged → (P.state pages.old).touched + (3 * path.len + 4) ≤ 48 }
    requires made { IsTrue P.logged → (P.state pages.old).made + (10 * path.len + 5) ≤ 254 }
    ensures stands { P.stands pages.new }
    ensures moves { P.stays pages.old pages.new }
    ensures slots { SameSlots (P.state pages.old) (P.state pages.new) }
    ensures log { SameLog (P.state pages.old) (P.state pages.new) }
    ensures in_group { (P.state pages.new).in_group ≡ true }
    ensures thickened { IsTrue P.tells → (was : Bodies) (before : ℕ) (levels : List (List Placed)) (chain : List ℕ) (walk : List Item)
        → Thinned (keys_file (P.state pages.old) slot) was (P.state pages.old).bodies before ((P.state pages.old).counts (keys_file (P.state pages.old) slot)) key root levels chain walk (passed path) page free → length levels < 16
        → IfOk result (λ r. Reduced (keys_file (P.state pages.old) slot) was (P.state pages.new).bodies before ((P.state pages.new).counts (keys_file (P.state pages.old) slot)) key levels chain walk r.root r.free) }
    ensures late { IsTrue P.tells → OnOk result (FewerLate (P.state pages.old) (P.state pages.new)) }
    ensures inside { IsTrue P.tells → OnOk result (StaysIn P.logged (keys_file (P.state pages.old) slot) (P.state pages.old) (P.state pages.new)) }
    ensures grows { IfOk result (λ r. Widens (keys_file (P.state pages.old) slot) (path.len + 1) r.free (P.state pages.old) (P.state pages.new)) }
    ensures spends { Spends (3 * path.len + 4) (10 * path.len + 5) (17641 * path.len + 16669) (P.state pages.old) (P.state pages.new) }
    ensures answers { Answers (P.state pages.old) (P.state pages.new) (fault_of result) }
    ensures cause { HasPagesCause (OfTree P.tells P.logged (CanThicken (P.state pages.old) (keys_file (P.state pages.old) slot) key root (passed path) page free) (keys_file (P.state pages.old) slot) (P.state pages.old) (P.state pages.new)) (P.state pages.old) (P.state pages.new) (fault_of result) }
{
    let _file = FileName::Control;
    let mut rest = path;
    match rest.pop() {
        None => Ok(Head { root, free }),
        Some(step) => {
            if !is_low_page(alloc, pages, slot, page)? {
                return Ok(Head { root, free });
            }
            match step_up(
                alloc,
                pages,
                group,
                slot,
                key,
                root,
                step,
                rest.is_empty(),
                page,
                free,
            )? {
                Lift::Stands(head) => Ok(head),
                Lift::Thin(next) => thicken(
                    alloc, pages, group, slot, key, root, rest, step.page, next,
                ),
                Lift::Parted(divided) => settle(
                    alloc,
                    pages,
                    group,
                    slot,
                    key,
                    root,
                    rest,
                    divided.between.as_slice(),
                    divided.fresh,
                    divided.free,
                ),
            }
        }
    }
}
