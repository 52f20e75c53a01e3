ghost use Rattle.std.specs.Prelude.{◌≡◌, ◌≢◌, ◌+◌, ◌-◌, ◌%◌, ◌^◌, ◌<◌, ◌≤◌, Some, true, IsTrue, IfOk, OnOk};
ghost use Rattle.aria_page.specs.declared.place.Part.TheVariants.{Rows};
ghost use Rattle.aria_page.specs.declared.group.RedoKind.TheVariants.{Bitmap};
ghost use Rattle.aria_page.specs.Page.{page_body, zero_page};
ghost use Rattle.aria_cache.specs.PageState.{with_count};
ghost use Rattle.aria_cache.specs.Calls.{fault_of, Answers, Edits, Spends, HasRoom, StaysIn, SameSlots, SameLog, Grows};
ghost use Rattle.aria_cache.specs.Causes.{HasPagesCause};
ghost use Rattle.aria_block.specs.declared.layout.TheConstants.{MAP_EVERY};
ghost use Rattle.aria_block.specs.Causes.{rows_file, OfFile, KeepsSound};
ghost use Rattle.aria_block.specs.Pieces.{Pieces};
ghost use Rattle.aria_block.specs.DataFile.{HoldsData};
ghost use Rattle.aria_block.specs.Growing.{new_kind, first_byte};

use crate::layout::MAP_EVERY;
use aria_cache::{OpenGroup, PageId, Pages};
use aria_host::{Fault, FileName};
use aria_page::{Change, PageKind, Part, RedoKind};
use std::alloc::Global;

// The first byte of a new page with this number.
fn kind_at(page: u32) -> u8
    ensures { result ≡ new_kind page }
{
    if page % MAP_EVERY == 0 {
        return PageKind::Bitmap.to_byte();
    }
    PageKind::FreeData.to_byte()
}

/// Makes the file one page longer: by a bitmap page where its number asks for one, else by a free page.
pub(crate) fn add_one<P: Pages>(
    alloc: Global,
    pages: &mut P,
    group: &mut OpenGroup,
    slot: u32,
    page: u32,
) -> Result<(), Fault>
    requires stands { P.stands pages.old }
    requires open { IsTrue ((P.state pages.old).is_open slot) }
    requires group { (P.state pages.old).in_group ≡ true }
    requires end { page ≡ (P.state pages.old).counts (rows_file (P.state pages.old) slot) }
    requires low { page < 2 ^ 31 }
    requires room { IsTrue P.logged → HasRoom 1 (P.state pages.old) }
    ensures stands { P.stands pages.new }
    ensures moves { P.stays pages.old pages.new }
    ensures slots { SameSlots (P.state pages.old) (P.state pages.new) }
    ensures log { SameLog (P.state pages.old) (P.state pages.new) }
    ensures in_group { (P.state pages.new).in_group ≡ true }
    ensures spends { Spends 1 1 82 (P.state pages.old) (P.state pages.new) }
    ensures edits { IsTrue P.tells → OnOk result (Edits P.logged Bitmap slot Rows page (first_byte page) (P.state pages.old) (P.state pages.new)) }
    ensures holds { IsTrue P.tells → (pieces : Pieces) → HoldsData ((P.state pages.old).counts (rows_file (P.state pages.old) slot)) ((P.state pages.old).bodies (rows_file (P.state pages.old) slot)) pieces
        → OnOk result (HoldsData ((P.state pages.new).counts (rows_file (P.state pages.old) slot)) ((P.state pages.new).bodies (rows_file (P.state pages.old) slot)) pieces) }
    ensures zeros { IsTrue P.tells → page % MAP_EVERY ≢ 0 → OnOk result ((P.state pages.new).bodies (rows_file (P.state pages.old) slot) page ≡ Some (page_body zero_page)) }
    ensures inside { IsTrue P.tells → OnOk result (StaysIn P.logged (rows_file (P.state pages.old) slot) (P.state pages.old) (P.state pages.new)) }
    ensures count { OnOk result ((P.state pages.new).counts (rows_file (P.state pages.old) slot) ≡ page + 1) }
    ensures counts { OnOk result ((P.state pages.new).counts ≡ with_count (rows_file (P.state pages.old) slot) (page + 1) (P.state pages.old).counts) }
    ensures grows { OnOk result (Grows (P.state pages.old) (P.state pages.new)) }
    ensures keeps { OnOk result (KeepsSound P.tells (rows_file (P.state pages.old) slot) (P.state pages.old) (P.state pages.new)) }
    ensures answers { Answers (P.state pages.old) (P.state pages.new) (fault_of result) }
    ensures cause { HasPagesCause (OfFile P.tells P.logged (rows_file (P.state pages.old) slot) (P.state pages.old) (P.state pages.new)) (P.state pages.old) (P.state pages.new) (fault_of result) }
{
    let _file = FileName::Control;
    let first = [kind_at(page)];
    pages.edit(
        alloc,
        group,
        PageId {
            slot,
            part: Part::Rows,
            page,
        },
        RedoKind::Bitmap,
        &[Change::Set {
            at: 0,
            bytes: &first,
        }],
    )
}

/// Makes the file longer by a free page, and by a bitmap page before it where the number asks for one. Tells the number of
/// the free page.
pub(crate) fn add_page<P: Pages>(
    alloc: Global,
    pages: &mut P,
    group: &mut OpenGroup,
    slot: u32,
) -> Result<u32, Fault>
    requires stands { P.stands pages.old }
    requires open { IsTrue ((P.state pages.old).is_open slot) }
    requires group { (P.state pages.old).in_group ≡ true }
    requires low { (P.state pages.old).counts (rows_file (P.state pages.old) slot) + 1 < 2 ^ 31 }
    requires room { IsTrue P.logged → ((P.state pages.old).touched + 1 < 48) × ((P.state pages.old).made + 2 ≤ 254) }
    ensures stands { P.stands pages.new }
    ensures moves { P.stays pages.old pages.new }
    ensures slots { SameSlots (P.state pages.old) (P.state pages.new) }
    ensures log { SameLog (P.state pages.old) (P.state pages.new) }
    ensures in_group { (P.state pages.new).in_group ≡ true }
    ensures spends { Spends 2 2 164 (P.state pages.old) (P.state pages.new) }
    ensures holds { IsTrue P.tells → (pieces : Pieces) → HoldsData ((P.state pages.old).counts (rows_file (P.state pages.old) slot)) ((P.state pages.old).bodies (rows_file (P.state pages.old) slot)) pieces
        → OnOk result (HoldsData ((P.state pages.new).counts (rows_file (P.state pages.old) slot)) ((P.state pages.new).bodies (rows_file (P.state pages.old) slot)) pieces) }
    ensures free { IsTrue P.tells → IfOk result (λ page. (P.state pages.new).bodies (rows_file (P.state pages.old) slot) page ≡ Some (page_body zero_page)) }
    ensures plain { IfOk result (λ page. page % MAP_EVERY ≢ 0) }
    ensures count { IfOk result (λ page. (P.state pages.new).counts (rows_file (P.state pages.old) slot) ≡ page + 1) }
    ensures next { IfOk result (λ page. page ≤ (P.state pages.old).counts (rows_file (P.state pages.old) slot) + 1) }
    ensures inside { IsTrue P.tells → OnOk result (StaysIn P.logged (rows_file (P.state pages.old) slot) (P.state pages.old) (P.state pages.new)) }
    ensures grows { OnOk result (Grows (P.state pages.old) (P.state pages.new)) }
    ensures keeps { OnOk result (KeepsSound P.tells (rows_file (P.state pages.old) slot) (P.state pages.old) (P.state pages.new)) }
    ensures answers { Answers (P.state pages.old) (P.state pages.new) (fault_of result) }
    ensures cause { HasPagesCause (OfFile P.tells P.logged (rows_file (P.state pages.old) slot) (P.state pages.old) (P.state pages.new)) (P.state pages.old) (P.state pages.new) (fault_of result) }
{
    let _file = FileName::Control;
    let count = pages.count(slot, Part::Rows);
    if count % MAP_EVERY != 0 {
        add_one(alloc, pages, group, slot, count)?;
        return Ok(count);
    }
    add_one(alloc, pages, group, slot, count)?;
    add_one(alloc, pages, group, slot, count + 1)?;
    Ok(count + 1)
}
