//! Pages that a tree doesn't need any more.

ghost use Rattle.std.specs.Prelude.{◌≡◌, ◌+◌, ◌<◌, ◌≤◌, ◌^◌, true, IsTrue, IsSome, IfOk, OnOk};
ghost use Rattle.aria_cache.specs.PageState.{with_count};
ghost use Rattle.aria_cache.specs.Calls.{SameSlots, SameLog, FewerLate, StaysIn, fault_of, Answers, Spends, HasRoom};
ghost use Rattle.aria_cache.specs.Causes.{OfPage, HasPagesCause};
ghost use Rattle.aria_key.specs.Merging.{IsFreeBody, IsFreed};
ghost use Rattle.aria_key.specs.Reading.{keys_file};

use crate::editing::edit_page;
use aria_cache::{OpenGroup, Pages};
use aria_host::{Fault, FileName};
use aria_page::{BODY_BYTES, Bytes, Change, PageKind, u32_bytes};
use std::alloc::{AllocError, Global};

// The body of a free page, which names the next one.
fn free_body(alloc: Global, next: u32) -> Result<Bytes, AllocError>
    ensures { IfOk result (λ body. IsFreeBody next body) }
{
    let mut body = Vec::new(alloc);
    body.push(PageKind::FreeIndex.to_byte())?;
    body.extend_from_slice(&u32_bytes(next))?;
    body.resize(BODY_BYTES, 0)?;
    Ok(Bytes::from_vec(body))
}

// Writes such a body.
fn write_free<P: Pages>(
    alloc: Global,
    pages: &mut P,
    group: &mut OpenGroup,
    slot: u32,
    page: u32,
    next: u32,
    body: Bytes,
) -> Result<(), Fault>
    requires stands { P.stands pages.old }
    requires open { IsTrue ((P.state pages.old).is_open slot) }
    requires group { (P.state pages.old).in_group ≡ true }
    requires low { page < 2 ^ 31 }
    requires body { IsFreeBody next body }
    requires room { IsTrue P.logged → HasRoom 1 (P.state pages.old) }
    ensures stands { P.stands pages.new }
    ensures moves { P.stays pages.old pages.new }
    ensures slots { SameSlots (P.state pages.old) (P.state pages.new) }
    ensures log { SameLog (P.state pages.old) (P.state pages.new) }
    ensures in_group { (P.state pages.new).in_group ≡ true }
    ensures freed { IsTrue P.tells → IsSome ((P.state pages.old).bodies (keys_file (P.state pages.old) slot) page)
        → OnOk result (IsFreed (keys_file (P.state pages.old) slot) page next (P.state pages.old).bodies (P.state pages.new).bodies) }
    ensures late { IsTrue P.tells → OnOk result (FewerLate (P.state pages.old) (P.state pages.new)) }
    ensures inside { IsTrue P.tells → OnOk result (StaysIn P.logged (keys_file (P.state pages.old) slot) (P.state pages.old) (P.state pages.new)) }
    ensures counts { OnOk result ((P.state pages.new).counts ≡ with_count (keys_file (P.state pages.old) slot) (page + 1) (P.state pages.old).counts) }
    ensures spends { Spends 1 1 8258 (P.state pages.old) (P.state pages.new) }
    ensures answers { Answers (P.state pages.old) (P.state pages.new) (fault_of result) }
    ensures cause { HasPagesCause (OfPage P.tells P.logged (keys_file (P.state pages.old) slot) page (P.state pages.old) (P.state pages.new)) (P.state pages.old) (P.state pages.new) (fault_of result) }
{
    let _file = FileName::Control;
    let _next = next;
    let whole = [Change::Whole {
        body: body.as_slice(),
    }];
    edit_page(alloc, pages, group, slot, page, &whole)
}

// Makes a page of the index file a free one, which names the next.
pub(crate) fn free_page<P: Pages>(
    alloc: Global,
    pages: &mut P,
    group: &mut OpenGroup,
    slot: u32,
    page: u32,
    next: u32,
) -> Result<(), Fault>
    requires stands { P.stands pages.old }
    requires open { IsTrue ((P.state pages.old).is_open slot) }
    requires group { (P.state pages.old).in_group ≡ true }
    requires low { page < 2 ^ 31 }
    requires room { IsTrue P.logged → HasRoom 1 (P.state pages.old) }
    ensures stands { P.stands pages.new }
    ensures moves { P.stays pages.old pages.new }
    ensures slots { SameSlots (P.state pages.old) (P.state pages.new) }
    ensures log { SameLog (P.state pages.old) (P.state pages.new) }
    ensures in_group { (P.state pages.new).in_group ≡ true }
    ensures freed { IsTrue P.tells → IsSome ((P.state pages.old).bodies (keys_file (P.state pages.old) slot) page)
        → OnOk result (IsFreed (keys_file (P.state pages.old) slot) page next (P.state pages.old).bodies (P.state pages.new).bodies) }
    ensures late { IsTrue P.tells → OnOk result (FewerLate (P.state pages.old) (P.state pages.new)) }
    ensures inside { IsTrue P.tells → OnOk result (StaysIn P.logged (keys_file (P.state pages.old) slot) (P.state pages.old) (P.state pages.new)) }
    ensures counts { OnOk result ((P.state pages.new).counts ≡ with_count (keys_file (P.state pages.old) slot) (page + 1) (P.state pages.old).counts) }
    ensures spends { Spends 1 1 8258 (P.state pages.old) (P.state pages.new) }
    ensures answers { Answers (P.state pages.old) (P.state pages.new) (fault_of result) }
    ensures cause { HasPagesCause (OfPage P.tells P.logged (keys_file (P.state pages.old) slot) page (P.state pages.old) (P.state pages.new)) (P.state pages.old) (P.state pages.new) (fault_of result) }
{
    match free_body(alloc, next) {
        Ok(body) => write_free(alloc, pages, group, slot, page, next, body),
        Err(AllocError) => Err(pages.stop(Fault::Memory(AllocError))),
    }
}
