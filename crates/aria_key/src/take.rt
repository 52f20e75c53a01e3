//! Pages that are taken for a tree: the first free one, or the one behind the file's end.

ghost use Rattle.std.specs.Prelude.{◌≡◌, ◌<◌, ◌≤◌, ◌^◌, ℕ, List, IsTrue, IsSome, IfOk, None, MatchOption, drop, slice_index, length};
ghost use Rattle.aria_page.specs.declared.page.TheConstants.{BODY_BYTES};
ghost use Rattle.aria_page.specs.declared.page_kind.PageKind.TheVariants.{FreeIndex};
ghost use Rattle.aria_page.specs.PageKind.{kind_byte};
ghost use Rattle.aria_page.specs.Number.{number_of};
ghost use Rattle.aria_cache.specs.Calls.{Loads, fault_of, Answers};
ghost use Rattle.aria_cache.specs.Causes.{HasPagesCause};
ghost use Rattle.aria_key.specs.IndexFile.{IsFree, IsChain};
ghost use Rattle.aria_key.specs.Taking.{IsTaken, IsSpare, IsFreePage, HasSpare};
ghost use Rattle.aria_key.specs.Reading.{keys_file, OfTree};

use crate::fresh::page_behind;
use aria_cache::{PageId, Pages};
use aria_host::{Fault, FileName};
use aria_page::{PageKind, Part, bytes_from, u32_of};
use std::alloc::Global;

// A page that was taken, and the first free one then, 0 for none.
#[derive(Clone, Copy)]
pub(crate) struct Taken {
    pub page: u32,
    pub free: u32,
}

// The page that a free page names; none where the body is that of another page.
fn next_in(body: &[u8]) -> Option<u32>
    requires { length body.now ≡ BODY_BYTES }
    ensures { MatchOption result (slice_index body.now 0 ≡ kind_byte FreeIndex → ⊥) (λ n. n ≡ number_of 4 (drop 1 body.now)) }
{
    if body[0] != PageKind::FreeIndex.to_byte() {
        return None;
    }
    Some(u32_of(bytes_from(body, 1)))
}

// The page that a free page of the index file names.
fn next_free<P: Pages>(alloc: Global, pages: &mut P, slot: u32, page: u32) -> Result<u32, Fault>
    requires stands { P.stands pages.old }
    requires open { IsTrue ((P.state pages.old).is_open slot) }
    ensures stands { P.stands pages.new }
    ensures moves { P.stays pages.old pages.new }
    ensures loads { Loads P.tells 1 (P.state pages.old) (P.state pages.new) }
    ensures low { IfOk result (λ n. page < (P.state pages.old).counts (keys_file (P.state pages.old) slot)) }
    ensures most { IfOk result (λ n. page < 2 ^ 31) }
    ensures some { IsTrue P.tells → IfOk result (λ n. IsSome ((P.state pages.old).bodies (keys_file (P.state pages.old) slot) page)) }
    ensures next { IsTrue P.tells → (next : ℕ) → IsFree ((P.state pages.old).bodies (keys_file (P.state pages.old) slot)) page next → IfOk result (λ n. n ≡ next) }
    ensures answers { Answers (P.state pages.old) (P.state pages.new) (fault_of result) }
    ensures cause { HasPagesCause (OfTree P.tells P.logged (IsFreePage (P.state pages.old) (keys_file (P.state pages.old) slot) page) (keys_file (P.state pages.old) slot) (P.state pages.old) (P.state pages.new)) (P.state pages.old) (P.state pages.new) (fault_of result) }
{
    let file: FileName = pages.file(slot, Part::Keys);
    if page >= pages.count(slot, Part::Keys) {
        return Err(pages.stop(Fault::PageDamaged { file, page }));
    }
    pages.load(
        alloc,
        PageId {
            slot,
            part: Part::Keys,
            page,
        },
    )?;
    match next_in(pages.loaded().body()) {
        Some(next) => Ok(next),
        None => Err(pages.stop(Fault::PageDamaged { file, page })),
    }
}

// Takes a page: the first free one, or where none is free the one behind the file's end.
pub(crate) fn take_page<P: Pages>(
    alloc: Global,
    pages: &mut P,
    slot: u32,
    free: u32,
) -> Result<Taken, Fault>
    requires stands { P.stands pages.old }
    requires open { IsTrue ((P.state pages.old).is_open slot) }
    requires calm { (P.state pages.old).kept ≡ None }
    ensures stands { P.stands pages.new }
    ensures moves { P.stays pages.old pages.new }
    ensures loads { Loads P.tells 1 (P.state pages.old) (P.state pages.new) }
    ensures most { IfOk result (λ r. r.page < 2 ^ 31) }
    ensures spare { IfOk result (λ r. IsSpare ((P.state pages.old).counts (keys_file (P.state pages.old) slot)) free r.page r.free) }
    ensures some { IsTrue P.tells → IfOk result (λ r. IsSome ((P.state pages.old).bodies (keys_file (P.state pages.old) slot) r.page)) }
    ensures taken { IsTrue P.tells → (left : List ℕ) → IsChain ((P.state pages.old).bodies (keys_file (P.state pages.old) slot)) free left
        → IfOk result (λ r. IsTaken ((P.state pages.old).bodies (keys_file (P.state pages.old) slot)) ((P.state pages.old).counts (keys_file (P.state pages.old) slot)) left r.page r.free) }
    ensures answers { Answers (P.state pages.old) (P.state pages.new) (fault_of result) }
    ensures cause { HasPagesCause (OfTree P.tells P.logged (HasSpare (P.state pages.old) (keys_file (P.state pages.old) slot) free) (keys_file (P.state pages.old) slot) (P.state pages.old) (P.state pages.new)) (P.state pages.old) (P.state pages.new) (fault_of result) }
{
    let _file = FileName::Control;
    if free == 0 {
        let page = page_behind(pages, slot)?;
        return Ok(Taken { page, free: 0 });
    }
    let next = next_free(alloc, pages, slot, free)?;
    Ok(Taken {
        page: free,
        free: next,
    })
}
