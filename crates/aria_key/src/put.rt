//! Items put into pages that have room.

ghost use Rattle.std.specs.Prelude.{◌≡◌, ◌+◌, ◌<◌, ◌≤◌, ◌^◌, ℕ, Bool, length, true, false, IsTrue, IfOk, OnOk, IfSome};
ghost use Rattle.aria_keypage.specs.declared.item.TheConstants.{ENTRY_MAX};
ghost use Rattle.aria_keypage.specs.Content.{Content, width};
ghost use Rattle.aria_cache.specs.Calls.{SameSlots, SameLog, SameGroup, FewerLate, StaysIn, fault_of, Answers, Loads, Spends, HasRoom};
ghost use Rattle.aria_cache.specs.Causes.{HasPagesCause};
ghost use Rattle.aria_key.specs.Held.{HasContent, AreEdits, Takes, IsOffered, IsPut};
ghost use Rattle.aria_key.specs.Reading.{keys_file, OfKeyPage};

use crate::editing::edit_page;
use crate::offer::{Offer, offer_in};
use aria_cache::{OpenGroup, PageId, Pages};
use aria_host::{Fault, FileName};
use aria_keypage::{Kind, Patch};
use aria_page::Part;
use std::alloc::{AllocError, Global};

// The edits that put an item into a page of the index file; nothing where it has no room.
fn item_edits<P: Pages>(
    alloc: Global,
    pages: &mut P,
    slot: u32,
    page: u32,
    kind: Kind,
    at: usize,
    entry: &[u8],
    to: u64,
) -> Result<Option<Patch>, Fault>
    requires stands { P.stands pages.old }
    requires open { IsTrue ((P.state pages.old).is_open slot) }
    requires entry { length entry.now ≤ ENTRY_MAX }
    requires to { to < 256 ^ width kind }
    ensures stands { P.stands pages.new }
    ensures moves { P.stays pages.old pages.new }
    ensures loads { Loads P.tells 1 (P.state pages.old) (P.state pages.new) }
    ensures low { IfOk result (λ r. page < (P.state pages.old).counts (keys_file (P.state pages.old) slot)) }
    ensures most { IfOk result (λ r. page < 2 ^ 31) }
    ensures offered { IsTrue P.tells → (c : Content) → HasContent ((P.state pages.old).bodies (keys_file (P.state pages.old) slot)) page c → IfOk result (λ r. IsOffered c at (record { entry = entry.now; to = to }) r) }
    ensures small { IfOk result (λ r. IfSome r (λ edits. AreEdits 3 2115 edits)) }
    ensures some { IfOk result (λ r. IfSome r (λ edits. 1 ≤ length edits)) }
    ensures answers { Answers (P.state pages.old) (P.state pages.new) (fault_of result) }
    ensures cause { HasPagesCause (OfKeyPage P.tells P.logged (Takes kind at) (keys_file (P.state pages.old) slot) page (P.state pages.old) (P.state pages.new)) (P.state pages.old) (P.state pages.new) (fault_of result) }
{
    let file: FileName = pages.file(slot, Part::Keys);
    if page >= pages.count(slot, Part::Keys) {
        return Err(pages.stop(Fault::PageDamaged { file, page }));
    }
    pages.load(
        alloc,
        PageId {
            slot,
            part: Part::Keys,
            page,
        },
    )?;
    match offer_in(alloc, pages.loaded(), kind, at, entry, to) {
        Ok(Offer::Room(edits)) => Ok(Some(edits)),
        Ok(Offer::Full) => Ok(None),
        Ok(Offer::Other) => Err(pages.stop(Fault::PageDamaged { file, page })),
        Err(AllocError) => Err(pages.stop(Fault::Memory(AllocError))),
    }
}

// Puts an item at a position of a leaf or of a node; false where it has no room for it.
pub(crate) fn put<P: Pages>(
    alloc: Global,
    pages: &mut P,
    group: &mut OpenGroup,
    slot: u32,
    page: u32,
    kind: Kind,
    at: usize,
    entry: &[u8],
    to: u64,
) -> Result<bool, Fault>
    requires stands { P.stands pages.old }
    requires open { IsTrue ((P.state pages.old).is_open slot) }
    requires group { (P.state pages.old).in_group ≡ true }
    requires room { IsTrue P.logged → HasRoom 3 (P.state pages.old) }
    requires entry { length entry.now ≤ ENTRY_MAX }
    requires to { to < 256 ^ width kind }
    ensures stands { P.stands pages.new }
    ensures moves { P.stays pages.old pages.new }
    ensures slots { SameSlots (P.state pages.old) (P.state pages.new) }
    ensures log { SameLog (P.state pages.old) (P.state pages.new) }
    ensures in_group { (P.state pages.new).in_group ≡ true }
    ensures put { IsTrue P.tells → (c : Content) → HasContent ((P.state pages.old).bodies (keys_file (P.state pages.old) slot)) page c
        → IfOk result (λ done. IsPut (keys_file (P.state pages.old) slot) page c at (record { entry = entry.now; to = to }) (P.state pages.old).bodies (P.state pages.new).bodies done) }
    ensures late { IsTrue P.tells → OnOk result (FewerLate (P.state pages.old) (P.state pages.new)) }
    ensures inside { IsTrue P.tells → OnOk result (StaysIn P.logged (keys_file (P.state pages.old) slot) (P.state pages.old) (P.state pages.new)) }
    ensures counts { OnOk result ((P.state pages.new).counts ≡ (P.state pages.old).counts) }
    ensures full { IfOk result (λ done. done ≡ false → SameGroup (P.state pages.old) (P.state pages.new)) }
    ensures spends { Spends 1 3 2115 (P.state pages.old) (P.state pages.new) }
    ensures answers { Answers (P.state pages.old) (P.state pages.new) (fault_of result) }
    ensures cause { HasPagesCause (OfKeyPage P.tells P.logged (Takes kind at) (keys_file (P.state pages.old) slot) page (P.state pages.old) (P.state pages.new)) (P.state pages.old) (P.state pages.new) (fault_of result) }
{
    let _file = FileName::Control;
    match item_edits(alloc, pages, slot, page, kind, at, entry, to)? {
        Some(edits) => {
            edit_page(alloc, pages, group, slot, page, &edits.edits())?;
            Ok(true)
        }
        None => Ok(false),
    }
}
