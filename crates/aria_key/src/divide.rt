//! Pages in two.

ghost use Rattle.std.specs.Prelude.{◌≡◌, ◌+◌, ◌<◌, ◌≤◌, ◌^◌, ℕ, length, true, IsTrue, IsSome, IfOk, OnOk};
ghost use Rattle.aria_page.specs.declared.page.TheConstants.{BODY_BYTES};
ghost use Rattle.aria_keypage.specs.Content.{Content};
ghost use Rattle.aria_keypage.specs.Split.{IsSplit};
ghost use Rattle.aria_cache.specs.PageState.{with_count};
ghost use Rattle.aria_cache.specs.Calls.{SameSlots, SameLog, FewerLate, StaysIn, fault_of, Answers, Loads, Spends};
ghost use Rattle.aria_cache.specs.Causes.{HasPagesCause};
ghost use Rattle.aria_key.specs.Held.{HasContent, AreEdits, IsFull, IsDivided};
ghost use Rattle.aria_key.specs.Reading.{keys_file, OfKeyPage, OfTree, IsDivisible};

use crate::editing::edit_page;
use crate::halves::halves_in;
use aria_cache::{OpenGroup, PageId, Pages};
use aria_host::{Fault, FileName};
use aria_keypage::Split;
use aria_page::{Bytes, Change, Part};
use std::alloc::{AllocError, Global};

// The two halves of a page of the index file.
fn split_of<P: Pages>(alloc: Global, pages: &mut P, slot: u32, page: u32) -> Result<Split, Fault>
    requires stands { P.stands pages.old }
    requires open { IsTrue ((P.state pages.old).is_open slot) }
    ensures stands { P.stands pages.new }
    ensures moves { P.stays pages.old pages.new }
    ensures loads { Loads P.tells 1 (P.state pages.old) (P.state pages.new) }
    ensures low { IfOk result (λ s. page < (P.state pages.old).counts (keys_file (P.state pages.old) slot)) }
    ensures most { IfOk result (λ s. page < 2 ^ 31) }
    ensures split { IsTrue P.tells → (c : Content) → HasContent ((P.state pages.old).bodies (keys_file (P.state pages.old) slot)) page c → IfOk result (λ s. IsSplit c c s.left s.right s.between) }
    ensures small { IfOk result (λ s. AreEdits 3 99 s.left) }
    ensures some { IfOk result (λ s. 1 ≤ length s.left) }
    ensures right { IfOk result (λ s. length s.right ≡ BODY_BYTES) }
    ensures answers { Answers (P.state pages.old) (P.state pages.new) (fault_of result) }
    ensures cause { HasPagesCause (OfKeyPage P.tells P.logged IsFull (keys_file (P.state pages.old) slot) page (P.state pages.old) (P.state pages.new)) (P.state pages.old) (P.state pages.new) (fault_of result) }
{
    let file: FileName = pages.file(slot, Part::Keys);
    if page >= pages.count(slot, Part::Keys) {
        return Err(pages.stop(Fault::PageDamaged { file, page }));
    }
    pages.load(
        alloc,
        PageId {
            slot,
            part: Part::Keys,
            page,
        },
    )?;
    match halves_in(alloc, pages.loaded()) {
        Ok(Some(split)) => Ok(split),
        Ok(None) => Err(pages.stop(Fault::PageDamaged { file, page })),
        Err(AllocError) => Err(pages.stop(Fault::Memory(AllocError))),
    }
}

// Divides a page of the index file: a fresh one takes the right half. Gives the entry between the two.
pub(crate) fn divide<P: Pages>(
    alloc: Global,
    pages: &mut P,
    group: &mut OpenGroup,
    slot: u32,
    page: u32,
    fresh: u32,
) -> Result<Bytes, Fault>
    requires stands { P.stands pages.old }
    requires open { IsTrue ((P.state pages.old).is_open slot) }
    requires group { (P.state pages.old).in_group ≡ true }
    requires fresh { fresh < 2 ^ 31 }
    requires touched { IsTrue P.logged → (P.state pages.old).touched + 2 ≤ 48 }
    requires made { IsTrue P.logged → (P.state pages.old).made + 4 ≤ 254 }
    ensures stands { P.stands pages.new }
    ensures moves { P.stays pages.old pages.new }
    ensures slots { SameSlots (P.state pages.old) (P.state pages.new) }
    ensures log { SameLog (P.state pages.old) (P.state pages.new) }
    ensures in_group { (P.state pages.new).in_group ≡ true }
    ensures divided { IsTrue P.tells → (c : Content) → HasContent ((P.state pages.old).bodies (keys_file (P.state pages.old) slot)) page c
        → IsSome ((P.state pages.old).bodies (keys_file (P.state pages.old) slot) fresh) → (page ≡ fresh → ⊥)
        → IfOk result (λ between. IsDivided (keys_file (P.state pages.old) slot) page fresh c between (P.state pages.old).bodies (P.state pages.new).bodies) }
    ensures late { IsTrue P.tells → OnOk result (FewerLate (P.state pages.old) (P.state pages.new)) }
    ensures inside { IsTrue P.tells → OnOk result (StaysIn P.logged (keys_file (P.state pages.old) slot) (P.state pages.old) (P.state pages.new)) }
    ensures counts { OnOk result ((P.state pages.new).counts ≡ with_count (keys_file (P.state pages.old) slot) (fresh + 1) (P.state pages.old).counts) }
    ensures spends { Spends 2 4 8357 (P.state pages.old) (P.state pages.new) }
    ensures answers { Answers (P.state pages.old) (P.state pages.new) (fault_of result) }
    ensures cause { HasPagesCause (OfTree P.tells P.logged (IsDivisible (P.state pages.old) (keys_file (P.state pages.old) slot) page fresh) (keys_file (P.state pages.old) slot) (P.state pages.old) (P.state pages.new)) (P.state pages.old) (P.state pages.new) (fault_of result) }
{
    let _file = FileName::Control;
    let split = split_of(alloc, pages, slot, page)?;
    let Split {
        left,
        right,
        between,
    } = split;
    edit_page(alloc, pages, group, slot, page, &left.edits())?;
    let whole = [Change::Whole {
        body: right.as_slice(),
    }];
    edit_page(alloc, pages, group, slot, fresh, &whole)?;
    Ok(between)
}
