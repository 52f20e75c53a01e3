//! Pages side by side that become one, or whose items are divided anew.

ghost use Rattle.std.specs.Prelude.{◌≡◌, ◌⊎◌, ◌↔◌, ◌+◌, ◌<◌, ◌≤◌, ◌^◌, length, true, None, Some, IsTrue, IsSome, IfOk, OnOk, IfSome};
ghost use Rattle.aria_page.specs.declared.page.TheConstants.{BODY_BYTES};
ghost use Rattle.aria_page.specs.Page.{page_body};
ghost use Rattle.aria_keypage.specs.declared.item.TheConstants.{ENTRY_MAX};
ghost use Rattle.aria_keypage.specs.Content.{Content, Spells, item_bytes};
ghost use Rattle.aria_keypage.specs.declared.key_page.TheConstants.{ITEM_BYTES_MAX};
ghost use Rattle.aria_keypage.specs.Merge.{joined};
ghost use Rattle.aria_keypage.specs.Split.{IsSplit};
ghost use Rattle.aria_cache.specs.Calls.{SameSlots, SameLog, FewerLate, StaysIn, fault_of, Answers, Loads, Spends};
ghost use Rattle.aria_cache.specs.Causes.{HasPagesCause};
ghost use Rattle.aria_key.specs.Held.{AreEdits, HasContent, IsDivided};
ghost use Rattle.aria_key.specs.Merging.{IsThin, IsMerger, IsMergerOf, IsSmallMerger, IsBeside, AreThere, IsMerged, AreMergeable};
ghost use Rattle.aria_key.specs.Reading.{keys_file, OfKeyPage, OfTree};
ghost use Rattle.aria_key.specs.WayUp.{IsPresent};

use crate::editing::edit_page;
use crate::offer::is_same;
use aria_cache::{OpenGroup, PageId, Pages};
use aria_host::{Fault, FileName};
use aria_keypage::{ENTRY_MAX, KeyPage, Patch, Split};
use aria_page::{Bytes, Change, Page, Part};
use std::alloc::{AllocError, Global};

// How two pages side by side are merged.
#[derive(Drop)]
pub(crate) enum Merger {
    // The edits that make the left one take over all items of the other.
    Join(Patch),
    // Their items divided anew.
    Share(Split),
}

// Whether one of two pages has too few item bytes.
fn is_one_thin(left: &KeyPage<'_>, right: &KeyPage<'_>) -> bool
    ensures { IsTrue result ↔ (IsThin left.now ⊎ IsThin right.now) }
{
    if left.is_low() {
        return true;
    }
    right.is_low()
}

// The items of two pages of a kind that don't fit in one, divided anew; none where neither has too few item bytes.
fn split_of<'a>(
    alloc: Global,
    left: &KeyPage<'a>,
    right: &KeyPage<'a>,
    between: &[u8],
) -> Result<Option<Merger>, AllocError>
    requires kinds { right.now.kind ≡ left.now.kind }
    requires between { length between.now ≤ ENTRY_MAX }
    requires many { ITEM_BYTES_MAX < length (item_bytes (joined left.now between.now right.now)) }
    ensures merger { IfOk result (λ r. IsMergerOf left.now right.now between.now r) }
    ensures small { IfOk result (λ r. IfSome r IsSmallMerger) }
{
    if !is_one_thin(left, right) {
        return Ok(None);
    }
    let split = left.share(alloc, right, between)?;
    Ok(Some(Merger::Share(split)))
}

// How a leaf or a node is merged with the one to its right.
fn merger_of<'a>(
    alloc: Global,
    left: &KeyPage<'a>,
    right: &KeyPage<'a>,
    between: &[u8],
) -> Result<Option<Merger>, AllocError>
    requires { length between.now ≤ ENTRY_MAX }
    ensures merger { IfOk result (λ r. IsMergerOf left.now right.now between.now r) }
    ensures small { IfOk result (λ r. IfSome r IsSmallMerger) }
{
    if !is_same(left.kind(), right.kind()) {
        return Ok(None);
    }
    if left.fits(right, between) {
        let edits = left.join(alloc, right, between)?;
        return Ok(Some(Merger::Join(edits)));
    }
    split_of(alloc, left, right, between)
}

// The same of pages.
fn merger_in(
    alloc: Global,
    left: &Page,
    right: &Page,
    between: &[u8],
) -> Result<Option<Merger>, AllocError>
    requires { length between.now ≤ ENTRY_MAX }
    ensures merger { (c d : Content) → Spells (page_body left.now) c → Spells (page_body right.now) d → IfOk result (λ r. IsMergerOf c d between.now r) }
    ensures small { IfOk result (λ r. IfSome r IsSmallMerger) }
{
    match KeyPage::view(left) {
        Some(page) => match KeyPage::view(right) {
            Some(other) => merger_of(alloc, &page, &other, between),
            None => Ok(None),
        },
        None => Ok(None),
    }
}

// A copy of a page of the index file.
fn copy_of<P: Pages>(alloc: Global, pages: &mut P, slot: u32, page: u32) -> Result<Page, Fault>
    requires stands { P.stands pages.old }
    requires open { IsTrue ((P.state pages.old).is_open slot) }
    ensures stands { P.stands pages.new }
    ensures moves { P.stays pages.old pages.new }
    ensures loads { Loads P.tells 1 (P.state pages.old) (P.state pages.new) }
    ensures low { IfOk result (λ p. page < (P.state pages.old).counts (keys_file (P.state pages.old) slot)) }
    ensures most { IfOk result (λ p. page < 2 ^ 31) }
    ensures copy { IsTrue P.tells → IfOk result (λ p. (P.state pages.old).bodies (keys_file (P.state pages.old) slot) page ≡ Some (page_body p)) }
    ensures answers { Answers (P.state pages.old) (P.state pages.new) (fault_of result) }
    ensures cause { HasPagesCause (OfTree P.tells P.logged (IsPresent (P.state pages.old) (keys_file (P.state pages.old) slot) page) (keys_file (P.state pages.old) slot) (P.state pages.old) (P.state pages.new)) (P.state pages.old) (P.state pages.new) (fault_of result) }
{
    let file: FileName = pages.file(slot, Part::Keys);
    if page >= pages.count(slot, Part::Keys) {
        return Err(pages.stop(Fault::PageDamaged { file, page }));
    }
    pages.load(
        alloc,
        PageId {
            slot,
            part: Part::Keys,
            page,
        },
    )?;
    Ok(*pages.loaded())
}

// How a page of the index file is merged with the one to its right, of which this is a copy.
fn merger_beside<P: Pages>(
    alloc: Global,
    pages: &mut P,
    slot: u32,
    page: u32,
    right: &Page,
    between: &[u8],
) -> Result<Merger, Fault>
    requires stands { P.stands pages.old }
    requires open { IsTrue ((P.state pages.old).is_open slot) }
    requires between { length between.now ≤ ENTRY_MAX }
    ensures stands { P.stands pages.new }
    ensures moves { P.stays pages.old pages.new }
    ensures loads { Loads P.tells 1 (P.state pages.old) (P.state pages.new) }
    ensures low { IfOk result (λ m. page < (P.state pages.old).counts (keys_file (P.state pages.old) slot)) }
    ensures most { IfOk result (λ m. page < 2 ^ 31) }
    ensures merger { IsTrue P.tells → (c d : Content) → HasContent ((P.state pages.old).bodies (keys_file (P.state pages.old) slot)) page c → Spells (page_body right.now) d → c.kind ≡ d.kind → IsThin c ⊎ IsThin d → IfOk result (λ m. IsMerger c d between.now m) }
    ensures small { IfOk result IsSmallMerger }
    ensures answers { Answers (P.state pages.old) (P.state pages.new) (fault_of result) }
    ensures cause { HasPagesCause (OfKeyPage P.tells P.logged (IsBeside (page_body right.now)) (keys_file (P.state pages.old) slot) page (P.state pages.old) (P.state pages.new)) (P.state pages.old) (P.state pages.new) (fault_of result) }
{
    let file: FileName = pages.file(slot, Part::Keys);
    if page >= pages.count(slot, Part::Keys) {
        return Err(pages.stop(Fault::PageDamaged { file, page }));
    }
    pages.load(
        alloc,
        PageId {
            slot,
            part: Part::Keys,
            page,
        },
    )?;
    match merger_in(alloc, pages.loaded(), right, between) {
        Ok(Some(merger)) => Ok(merger),
        Ok(None) => Err(pages.stop(Fault::PageDamaged { file, page })),
        Err(AllocError) => Err(pages.stop(Fault::Memory(AllocError))),
    }
}

// How two pages of the index file side by side are merged.
fn merger_at<P: Pages>(
    alloc: Global,
    pages: &mut P,
    slot: u32,
    left: u32,
    right: u32,
    between: &[u8],
) -> Result<Merger, Fault>
    requires stands { P.stands pages.old }
    requires open { IsTrue ((P.state pages.old).is_open slot) }
    requires between { length between.now ≤ ENTRY_MAX }
    ensures stands { P.stands pages.new }
    ensures moves { P.stays pages.old pages.new }
    ensures loads { Loads P.tells 2 (P.state pages.old) (P.state pages.new) }
    ensures low_left { IfOk result (λ m. left < (P.state pages.old).counts (keys_file (P.state pages.old) slot)) }
    ensures low_right { IfOk result (λ m. right < (P.state pages.old).counts (keys_file (P.state pages.old) slot)) }
    ensures most_left { IfOk result (λ m. left < 2 ^ 31) }
    ensures most_right { IfOk result (λ m. right < 2 ^ 31) }
    ensures merger { IsTrue P.tells → (c d : Content) → HasContent ((P.state pages.old).bodies (keys_file (P.state pages.old) slot)) left c → HasContent ((P.state pages.old).bodies (keys_file (P.state pages.old) slot)) right d → c.kind ≡ d.kind → IsThin c ⊎ IsThin d → IfOk result (λ m. IsMerger c d between.now m) }
    ensures small { IfOk result IsSmallMerger }
    ensures answers { Answers (P.state pages.old) (P.state pages.new) (fault_of result) }
    ensures cause { HasPagesCause (OfTree P.tells P.logged (AreMergeable (P.state pages.old) (keys_file (P.state pages.old) slot) left right between.now) (keys_file (P.state pages.old) slot) (P.state pages.old) (P.state pages.new)) (P.state pages.old) (P.state pages.new) (fault_of result) }
{
    let _file = FileName::Control;
    let other = copy_of(alloc, pages, slot, right)?;
    let found = merger_beside(alloc, pages, slot, left, &other, between)?;
    Ok(found)
}

// Writes the items of two pages of the index file that were divided anew. Gives the entry between the two.
fn write_split<P: Pages>(
    alloc: Global,
    pages: &mut P,
    group: &mut OpenGroup,
    slot: u32,
    left: u32,
    right: u32,
    split: Split,
) -> Result<Bytes, Fault>
    requires stands { P.stands pages.old }
    requires open { IsTrue ((P.state pages.old).is_open slot) }
    requires group { (P.state pages.old).in_group ≡ true }
    requires touched { IsTrue P.logged → (P.state pages.old).touched + 2 ≤ 48 }
    requires made { IsTrue P.logged → (P.state pages.old).made + 4 ≤ 254 }
    requires edits { AreEdits 3 6215 split.left }
    requires body { length split.right ≡ BODY_BYTES }
    requires low_left { left < (P.state pages.old).counts (keys_file (P.state pages.old) slot) }
    requires low_right { right < (P.state pages.old).counts (keys_file (P.state pages.old) slot) }
    requires most_left { left < 2 ^ 31 }
    requires most_right { right < 2 ^ 31 }
    ensures stands { P.stands pages.new }
    ensures moves { P.stays pages.old pages.new }
    ensures slots { SameSlots (P.state pages.old) (P.state pages.new) }
    ensures log { SameLog (P.state pages.old) (P.state pages.new) }
    ensures in_group { (P.state pages.new).in_group ≡ true }
    ensures written { IsTrue P.tells → (c all : Content) → HasContent ((P.state pages.old).bodies (keys_file (P.state pages.old) slot)) left c → IsSplit c all split.left split.right split.between → IsSome ((P.state pages.old).bodies (keys_file (P.state pages.old) slot) right) → (left ≡ right → ⊥)
        → IfOk result (λ entry. IsDivided (keys_file (P.state pages.old) slot) left right all entry (P.state pages.old).bodies (P.state pages.new).bodies) }
    ensures late { IsTrue P.tells → OnOk result (FewerLate (P.state pages.old) (P.state pages.new)) }
    ensures inside { IsTrue P.tells → OnOk result (StaysIn P.logged (keys_file (P.state pages.old) slot) (P.state pages.old) (P.state pages.new)) }
    ensures counts { OnOk result ((P.state pages.new).counts ≡ (P.state pages.old).counts) }
    ensures spends { Spends 2 4 14473 (P.state pages.old) (P.state pages.new) }
    ensures answers { Answers (P.state pages.old) (P.state pages.new) (fault_of result) }
    ensures cause { HasPagesCause (OfTree P.tells P.logged (AreThere (P.state pages.old) (keys_file (P.state pages.old) slot) left right) (keys_file (P.state pages.old) slot) (P.state pages.old) (P.state pages.new)) (P.state pages.old) (P.state pages.new) (fault_of result) }
{
    let _file = FileName::Control;
    let Split {
        left: edits,
        right: body,
        between,
    } = split;
    edit_page(alloc, pages, group, slot, left, &edits.edits())?;
    let whole = [Change::Whole {
        body: body.as_slice(),
    }];
    edit_page(alloc, pages, group, slot, right, &whole)?;
    Ok(between)
}

// Puts all items of a page into the one to its left, the other page staying as it is; where they don't fit, divides the
// items of both anew, and gives the entry between the two.
pub(crate) fn merge<P: Pages>(
    alloc: Global,
    pages: &mut P,
    group: &mut OpenGroup,
    slot: u32,
    left: u32,
    right: u32,
    between: &[u8],
) -> Result<Option<Bytes>, Fault>
    requires stands { P.stands pages.old }
    requires open { IsTrue ((P.state pages.old).is_open slot) }
    requires group { (P.state pages.old).in_group ≡ true }
    requires touched { IsTrue P.logged → (P.state pages.old).touched + 2 ≤ 48 }
    requires made { IsTrue P.logged → (P.state pages.old).made + 4 ≤ 254 }
    ensures stands { P.stands pages.new }
    ensures moves { P.stays pages.old pages.new }
    ensures slots { SameSlots (P.state pages.old) (P.state pages.new) }
    ensures log { SameLog (P.state pages.old) (P.state pages.new) }
    ensures in_group { (P.state pages.new).in_group ≡ true }
    ensures merged { IsTrue P.tells → (c d : Content) → HasContent ((P.state pages.old).bodies (keys_file (P.state pages.old) slot)) left c → HasContent ((P.state pages.old).bodies (keys_file (P.state pages.old) slot)) right d
        → c.kind ≡ d.kind → IsThin c ⊎ IsThin d → (left ≡ right → ⊥)
        → IfOk result (λ r. IsMerged (keys_file (P.state pages.old) slot) left right c d between.now (P.state pages.old).bodies (P.state pages.new).bodies r) }
    ensures late { IsTrue P.tells → OnOk result (FewerLate (P.state pages.old) (P.state pages.new)) }
    ensures inside { IsTrue P.tells → OnOk result (StaysIn P.logged (keys_file (P.state pages.old) slot) (P.state pages.old) (P.state pages.new)) }
    ensures counts { OnOk result ((P.state pages.new).counts ≡ (P.state pages.old).counts) }
    ensures spends { Spends 2 4 14473 (P.state pages.old) (P.state pages.new) }
    ensures few { IfOk result (λ r. r ≡ None → Spends 1 3 8276 (P.state pages.old) (P.state pages.new)) }
    ensures answers { Answers (P.state pages.old) (P.state pages.new) (fault_of result) }
    ensures cause { HasPagesCause (OfTree P.tells P.logged (AreMergeable (P.state pages.old) (keys_file (P.state pages.old) slot) left right between.now) (keys_file (P.state pages.old) slot) (P.state pages.old) (P.state pages.new)) (P.state pages.old) (P.state pages.new) (fault_of result) }
{
    let file: FileName = pages.file(slot, Part::Keys);
    if between.len() > ENTRY_MAX {
        return Err(pages.stop(Fault::PageDamaged { file, page: left }));
    }
    match merger_at(alloc, pages, slot, left, right, between)? {
        Merger::Join(edits) => {
            edit_page(alloc, pages, group, slot, left, &edits.edits())?;
            Ok(None)
        }
        Merger::Share(split) => {
            let entry = write_split(alloc, pages, group, slot, left, right, split)?;
            Ok(Some(entry))
        }
    }
}
