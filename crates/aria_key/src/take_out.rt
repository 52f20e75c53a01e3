//! Items taken from pages.

ghost use Rattle.std.specs.Prelude.{◌≡◌, ◌+◌, ◌<◌, ◌≤◌, ◌^◌, length, true, IsTrue, IfOk, OnOk, IfSome};
ghost use Rattle.aria_page.specs.Page.{page_body};
ghost use Rattle.aria_keypage.specs.Content.{Content, Spells};
ghost use Rattle.aria_keypage.specs.Change.{without_item, Changes};
ghost use Rattle.aria_cache.specs.Calls.{SameSlots, SameLog, FewerLate, StaysIn, fault_of, Answers, Loads, Spends, HasRoom};
ghost use Rattle.aria_cache.specs.Causes.{HasPagesCause};
ghost use Rattle.aria_key.specs.Held.{HasContent, Rewritten, AreEdits};
ghost use Rattle.aria_key.specs.Merging.{HasItem, IsRemoval};
ghost use Rattle.aria_key.specs.Reading.{keys_file, OfKeyPage};

use crate::editing::edit_page;
use crate::offer::is_same;
use aria_cache::{OpenGroup, PageId, Pages};
use aria_host::{Fault, FileName};
use aria_keypage::{KeyPage, Kind, Patch};
use aria_page::{Page, Part};
use std::alloc::{AllocError, Global};

// The edits that take an item from a position; none where there is none, or the kind is another.
fn removal_of(
    alloc: Global,
    page: &KeyPage<'_>,
    kind: Kind,
    at: usize,
) -> Result<Option<Patch>, AllocError>
    ensures removal { IfOk result (λ r. IsRemoval kind at page.now r) }
    ensures small { IfOk result (λ r. IfSome r (λ edits. AreEdits 3 1107 edits)) }
{
    if !is_same(page.kind(), kind) {
        return Ok(None);
    }
    if at >= page.count() {
        return Ok(None);
    }
    let edits = page.remove(alloc, at)?;
    Ok(Some(edits))
}

// The same of a page.
pub(crate) fn removal_in(
    alloc: Global,
    page: &Page,
    kind: Kind,
    at: usize,
) -> Result<Option<Patch>, AllocError>
    ensures removal { (c : Content) → Spells (page_body page.now) c → IfOk result (λ r. IsRemoval kind at c r) }
    ensures small { IfOk result (λ r. IfSome r (λ edits. AreEdits 3 1107 edits)) }
{
    match KeyPage::view(page) {
        Some(view) => removal_of(alloc, &view, kind, at),
        None => Ok(None),
    }
}

// The edits that take an item out of a page of the index file.
fn removal<P: Pages>(
    alloc: Global,
    pages: &mut P,
    slot: u32,
    page: u32,
    kind: Kind,
    at: usize,
) -> Result<Patch, Fault>
    requires stands { P.stands pages.old }
    requires open { IsTrue ((P.state pages.old).is_open slot) }
    ensures stands { P.stands pages.new }
    ensures moves { P.stays pages.old pages.new }
    ensures loads { Loads P.tells 1 (P.state pages.old) (P.state pages.new) }
    ensures low { IfOk result (λ edits. page < (P.state pages.old).counts (keys_file (P.state pages.old) slot)) }
    ensures most { IfOk result (λ edits. page < 2 ^ 31) }
    ensures removal { IsTrue P.tells → (c : Content) → HasContent ((P.state pages.old).bodies (keys_file (P.state pages.old) slot)) page c → c.kind ≡ kind → at < length c.items → IfOk result (λ edits. Changes edits c (without_item c at)) }
    ensures small { IfOk result (λ edits. AreEdits 3 1107 edits) }
    ensures answers { Answers (P.state pages.old) (P.state pages.new) (fault_of result) }
    ensures cause { HasPagesCause (OfKeyPage P.tells P.logged (HasItem kind at) (keys_file (P.state pages.old) slot) page (P.state pages.old) (P.state pages.new)) (P.state pages.old) (P.state pages.new) (fault_of result) }
{
    let file: FileName = pages.file(slot, Part::Keys);
    if page >= pages.count(slot, Part::Keys) {
        return Err(pages.stop(Fault::PageDamaged { file, page }));
    }
    pages.load(
        alloc,
        PageId {
            slot,
            part: Part::Keys,
            page,
        },
    )?;
    match removal_in(alloc, pages.loaded(), kind, at) {
        Ok(Some(edits)) => Ok(edits),
        Ok(None) => Err(pages.stop(Fault::PageDamaged { file, page })),
        Err(AllocError) => Err(pages.stop(Fault::Memory(AllocError))),
    }
}

// Takes the item from a position of a leaf or of a node.
pub(crate) fn take_out<P: Pages>(
    alloc: Global,
    pages: &mut P,
    group: &mut OpenGroup,
    slot: u32,
    page: u32,
    kind: Kind,
    at: usize,
) -> Result<(), Fault>
    requires stands { P.stands pages.old }
    requires open { IsTrue ((P.state pages.old).is_open slot) }
    requires group { (P.state pages.old).in_group ≡ true }
    requires room { IsTrue P.logged → HasRoom 3 (P.state pages.old) }
    ensures stands { P.stands pages.new }
    ensures moves { P.stays pages.old pages.new }
    ensures slots { SameSlots (P.state pages.old) (P.state pages.new) }
    ensures log { SameLog (P.state pages.old) (P.state pages.new) }
    ensures in_group { (P.state pages.new).in_group ≡ true }
    ensures taken { IsTrue P.tells → (c : Content) → HasContent ((P.state pages.old).bodies (keys_file (P.state pages.old) slot)) page c → c.kind ≡ kind → at < length c.items
        → OnOk result (Rewritten (keys_file (P.state pages.old) slot) page (without_item c at) (P.state pages.old).bodies (P.state pages.new).bodies) }
    ensures late { IsTrue P.tells → OnOk result (FewerLate (P.state pages.old) (P.state pages.new)) }
    ensures inside { IsTrue P.tells → OnOk result (StaysIn P.logged (keys_file (P.state pages.old) slot) (P.state pages.old) (P.state pages.new)) }
    ensures counts { OnOk result ((P.state pages.new).counts ≡ (P.state pages.old).counts) }
    ensures spends { Spends 1 3 1107 (P.state pages.old) (P.state pages.new) }
    ensures answers { Answers (P.state pages.old) (P.state pages.new) (fault_of result) }
    ensures cause { HasPagesCause (OfKeyPage P.tells P.logged (HasItem kind at) (keys_file (P.state pages.old) slot) page (P.state pages.old) (P.state pages.new)) (P.state pages.old) (P.state pages.new) (fault_of result) }
{
    let _file = FileName::Control;
    let edits = removal(alloc, pages, slot, page, kind, at)?;
    edit_page(alloc, pages, group, slot, page, &edits.edits())?;
    Ok(())
}
