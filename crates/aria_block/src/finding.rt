ghost use Rattle.std.specs.Prelude.{◌≡◌, ◌≢◌, ◌+◌, ◌-◌, ◌%◌, ◌^◌, ◌<◌, ◌≤◌, ℕ, List, Some, true, IsTrue, IfOk, IfSome};
ghost use Rattle.aria_page.specs.Page.{page_body};
ghost use Rattle.aria_cache.specs.Calls.{fault_of, Answers};
ghost use Rattle.aria_cache.specs.Causes.{HasPagesCause};
ghost use Rattle.aria_block.specs.declared.layout.TheConstants.{MAP_EVERY};
ghost use Rattle.aria_block.specs.Causes.{rows_file, OfFile};
ghost use Rattle.aria_block.specs.DataFile.{map_of};
ghost use Rattle.aria_block.specs.Finding.{is_tail, FindsUnder, FindsPage, Looks};

use crate::layout::MAP_EVERY;
use crate::part_kind::PartKind;
use aria_bitmap::find_room;
use aria_cache::{PageId, Pages};
use aria_host::{Fault, FileName};
use aria_page::{Page, Part};
use std::alloc::Global;

impl PartKind {
    fn is_tail(self) -> bool
        ensures { result ≡ is_tail self }
    {
        match self {
            PartKind::Head => false,
            PartKind::Tail => true,
        }
    }
}

// The lowest page of the file under a bitmap page that it promises for a part of so many bytes.
fn promised(map: &Page, at: u32, count: u32, kind: PartKind, len: u16) -> Option<u32>
    requires at { at % MAP_EVERY ≡ 0 }
    requires low { at < count }
    requires high { count ≤ 2 ^ 31 }
    ensures { FindsUnder kind len count at (page_body map.now) result }
{
    let nth = find_room(map, kind.is_tail(), len)?;
    let page = at + 1 + nth;
    if page >= count {
        return None;
    }
    Some(page)
}

// The same, of the bitmap page with this number.
fn promised_at<P: Pages>(
    alloc: Global,
    pages: &mut P,
    slot: u32,
    at: u32,
    kind: PartKind,
    len: u16,
) -> Result<Option<u32>, Fault>
    requires stands { P.stands pages.old }
    requires open { IsTrue ((P.state pages.old).is_open slot) }
    requires at { at % MAP_EVERY ≡ 0 }
    requires below { at < (P.state pages.old).counts (rows_file (P.state pages.old) slot) }
    ensures stands { P.stands pages.new }
    ensures moves { P.stays pages.old pages.new }
    ensures looks { Looks P.tells (P.state pages.old) (P.state pages.new) }
    ensures found { IsTrue P.tells → IfOk result (λ r. (map : List ℕ) → (P.state pages.old).bodies (rows_file (P.state pages.old) slot) at ≡ Some map
        → FindsUnder kind len ((P.state pages.old).counts (rows_file (P.state pages.old) slot)) at map r) }
    ensures range { IfOk result (λ r. IfSome r (λ page. (page % MAP_EVERY ≢ 0) × (page < (P.state pages.old).counts (rows_file (P.state pages.old) slot)) × (map_of page ≡ at))) }
    ensures answers { Answers (P.state pages.old) (P.state pages.new) (fault_of result) }
    ensures cause { HasPagesCause (OfFile P.tells P.logged (rows_file (P.state pages.old) slot) (P.state pages.old) (P.state pages.new)) (P.state pages.old) (P.state pages.new) (fault_of result) }
{
    let _file = FileName::Control;
    let count = pages.count(slot, Part::Rows);
    pages.load(
        alloc,
        PageId {
            slot,
            part: Part::Rows,
            page: at,
        },
    )?;
    Ok(promised(pages.loaded(), at, count, kind, len))
}

/// A page of the file that its bitmap page promises for a part of so many bytes; `None` where no page of the file is
/// promised.
pub(crate) fn find_page<P: Pages>(
    alloc: Global,
    pages: &mut P,
    slot: u32,
    kind: PartKind,
    len: u16,
) -> Result<Option<u32>, Fault>
    requires stands { P.stands pages.old }
    requires open { IsTrue ((P.state pages.old).is_open slot) }
    requires some { 0 < (P.state pages.old).counts (rows_file (P.state pages.old) slot) }
    ensures stands { P.stands pages.new }
    ensures moves { P.stays pages.old pages.new }
    ensures looks { Looks P.tells (P.state pages.old) (P.state pages.new) }
    ensures found { IsTrue P.tells → IfOk result (λ r. FindsPage kind len ((P.state pages.old).counts (rows_file (P.state pages.old) slot)) ((P.state pages.old).bodies (rows_file (P.state pages.old) slot)) r) }
    ensures range { IfOk result (λ r. IfSome r (λ page. (page % MAP_EVERY ≢ 0) × (page < (P.state pages.old).counts (rows_file (P.state pages.old) slot)))) }
    ensures answers { Answers (P.state pages.old) (P.state pages.new) (fault_of result) }
    ensures cause { HasPagesCause (OfFile P.tells P.logged (rows_file (P.state pages.old) slot) (P.state pages.old) (P.state pages.new)) (P.state pages.old) (P.state pages.new) (fault_of result) }
{
    let _file = FileName::Control;
    let count = pages.count(slot, Part::Rows);
    let mut found = promised_at(alloc, pages, slot, 0, kind, len)?;
    let mut at = 0;
    while found.is_none() && at + MAP_EVERY < count {
        at += MAP_EVERY;
        found = promised_at(alloc, pages, slot, at, kind, len)?;
    }
    Ok(found)
}
