ghost use Rattle.std.specs.Prelude.{◌≡◌, ◌≢◌, ◌+◌, ◌-◌, ◌%◌, ◌^◌, ◌<◌, ◌≤◌, Some, None, true, IsTrue, IfOk, OnOk, length};
ghost use Rattle.aria_record.specs.Groups.{PlaceFits};
ghost use Rattle.aria_cache.specs.Calls.{fault_of, Answers, Spends, StaysIn, SameSlots, SameLog, Grows};
ghost use Rattle.aria_cache.specs.Causes.{HasPagesCause};
ghost use Rattle.aria_block.specs.declared.layout.TheConstants.{MAP_EVERY, PART_MAX};
ghost use Rattle.aria_block.specs.Causes.{rows_file, OfFile, OfRows, KeepsSound};
ghost use Rattle.aria_block.specs.Pieces.{Pieces};
ghost use Rattle.aria_block.specs.DataFile.{HoldsData};
ghost use Rattle.aria_block.specs.Puts.{PartKept};
ghost use Rattle.aria_block.specs.Finding.{HasPromise, GrowsLast};
ghost use Rattle.aria_block.specs.Runs.{GrowsForPart};

use crate::finding::find_page;
use crate::growing::add_page;
use crate::part_kind::PartKind;
use crate::placing::place_part;
use aria_cache::{OpenGroup, Pages};
use aria_host::{Fault, FileName};
use aria_page::{Part, Place};
use std::alloc::Global;

/// The page for a part of so many bytes: one of the file that its bitmap page promises, or else a new one.
pub(crate) fn page_for<P: Pages>(
    alloc: Global,
    pages: &mut P,
    group: &mut OpenGroup,
    slot: u32,
    kind: PartKind,
    len: u16,
) -> Result<u32, Fault>
    requires stands { P.stands pages.old }
    requires open { IsTrue ((P.state pages.old).is_open slot) }
    requires group { (P.state pages.old).in_group ≡ true }
    requires low { (P.state pages.old).counts (rows_file (P.state pages.old) slot) + 1 < 2 ^ 31 }
    requires room { IsTrue P.logged → ((P.state pages.old).touched + 1 < 48) × ((P.state pages.old).made + 2 ≤ 254) }
    ensures stands { P.stands pages.new }
    ensures moves { P.stays pages.old pages.new }
    ensures slots { SameSlots (P.state pages.old) (P.state pages.new) }
    ensures log { SameLog (P.state pages.old) (P.state pages.new) }
    ensures in_group { (P.state pages.new).in_group ≡ true }
    ensures spends { Spends 2 2 164 (P.state pages.old) (P.state pages.new) }
    ensures holds { IsTrue P.tells → (pieces : Pieces) → HoldsData ((P.state pages.old).counts (rows_file (P.state pages.old) slot)) ((P.state pages.old).bodies (rows_file (P.state pages.old) slot)) pieces
        → OnOk result (HoldsData ((P.state pages.new).counts (rows_file (P.state pages.old) slot)) ((P.state pages.new).bodies (rows_file (P.state pages.old) slot)) pieces) }
    ensures promise { IsTrue P.tells → (pieces : Pieces) → HoldsData ((P.state pages.old).counts (rows_file (P.state pages.old) slot)) ((P.state pages.old).bodies (rows_file (P.state pages.old) slot)) pieces
        → IfOk result (λ page. HasPromise kind len page ((P.state pages.new).bodies (rows_file (P.state pages.old) slot))) }
    ensures needed { IsTrue P.tells → OnOk result (GrowsForPart kind len (rows_file (P.state pages.old) slot) (P.state pages.old) (P.state pages.new)) }
    ensures last { IsTrue P.tells → IfOk result (λ page. GrowsLast kind len ((P.state pages.old).counts (rows_file (P.state pages.old) slot)) ((P.state pages.old).bodies (rows_file (P.state pages.old) slot)) page) }
    ensures plain { IfOk result (λ page. page % MAP_EVERY ≢ 0) }
    ensures below { IfOk result (λ page. page < (P.state pages.new).counts (rows_file (P.state pages.old) slot)) }
    ensures count { OnOk result ((P.state pages.new).counts (rows_file (P.state pages.old) slot) ≤ (P.state pages.old).counts (rows_file (P.state pages.old) slot) + 2) }
    ensures inside { IsTrue P.tells → OnOk result (StaysIn P.logged (rows_file (P.state pages.old) slot) (P.state pages.old) (P.state pages.new)) }
    ensures grows { OnOk result (Grows (P.state pages.old) (P.state pages.new)) }
    ensures keeps { OnOk result (KeepsSound P.tells (rows_file (P.state pages.old) slot) (P.state pages.old) (P.state pages.new)) }
    ensures answers { Answers (P.state pages.old) (P.state pages.new) (fault_of result) }
    ensures cause { HasPagesCause (OfFile P.tells P.logged (rows_file (P.state pages.old) slot) (P.state pages.old) (P.state pages.new)) (P.state pages.old) (P.state pages.new) (fault_of result) }
{
    let _file = FileName::Control;
    if pages.count(slot, Part::Rows) == 0 {
        return add_page(alloc, pages, group, slot);
    }
    if let Some(page) = find_page(alloc, pages, slot, kind, len)? {
        return Ok(page);
    }
    add_page(alloc, pages, group, slot)
}

/// Puts a part on a page that is promised for it, or else on a new one, and tells where it stands.
pub(crate) fn insert_part<P: Pages>(
    alloc: Global,
    pages: &mut P,
    group: &mut OpenGroup,
    slot: u32,
    kind: PartKind,
    bytes: &[u8],
) -> Result<Place, Fault>
    requires stands { P.stands pages.old }
    requires open { IsTrue ((P.state pages.old).is_open slot) }
    requires group { (P.state pages.old).in_group ≡ true }
    requires low { (P.state pages.old).counts (rows_file (P.state pages.old) slot) + 1 < 2 ^ 31 }
    requires some { 1 ≤ length bytes.now }
    requires few { length bytes.now ≤ PART_MAX }
    requires room { IsTrue P.logged → ((P.state pages.old).touched + 3 < 48) × ((P.state pages.old).made + 6 ≤ 254) }
    ensures stands { P.stands pages.new }
    ensures moves { P.stays pages.old pages.new }
    ensures slots { SameSlots (P.state pages.old) (P.state pages.new) }
    ensures log { SameLog (P.state pages.old) (P.state pages.new) }
    ensures in_group { (P.state pages.new).in_group ≡ true }
    ensures spends { Spends 4 6 (347 + length bytes.now) (P.state pages.old) (P.state pages.new) }
    ensures holds { IsTrue P.tells → (pieces : Pieces) → HoldsData ((P.state pages.old).counts (rows_file (P.state pages.old) slot)) ((P.state pages.old).bodies (rows_file (P.state pages.old) slot)) pieces
        → IfOk result (λ place. PartKept kind ((P.state pages.new).counts (rows_file (P.state pages.old) slot)) ((P.state pages.new).bodies (rows_file (P.state pages.old) slot)) place.page None place.slot bytes.now pieces) }
    ensures needed { IsTrue P.tells → OnOk result (GrowsForPart kind (length bytes.now) (rows_file (P.state pages.old) slot) (P.state pages.old) (P.state pages.new)) }
    ensures last { IsTrue P.tells → IfOk result (λ place. GrowsLast kind (length bytes.now) ((P.state pages.old).counts (rows_file (P.state pages.old) slot)) ((P.state pages.old).bodies (rows_file (P.state pages.old) slot)) place.page) }
    ensures count { OnOk result ((P.state pages.new).counts (rows_file (P.state pages.old) slot) ≤ (P.state pages.old).counts (rows_file (P.state pages.old) slot) + 2) }
    ensures fits { IfOk result (λ place. PlaceFits place × (0 < place.page)) }
    ensures inside { IsTrue P.tells → OnOk result (StaysIn P.logged (rows_file (P.state pages.old) slot) (P.state pages.old) (P.state pages.new)) }
    ensures grows { OnOk result (Grows (P.state pages.old) (P.state pages.new)) }
    ensures keeps { OnOk result (KeepsSound P.tells (rows_file (P.state pages.old) slot) (P.state pages.old) (P.state pages.new)) }
    ensures answers { Answers (P.state pages.old) (P.state pages.new) (fault_of result) }
    ensures cause { HasPagesCause (OfRows P.tells P.logged (rows_file (P.state pages.old) slot) (P.state pages.old) (P.state pages.new)) (P.state pages.old) (P.state pages.new) (fault_of result) }
{
    let page = page_for(alloc, pages, group, slot, kind, bytes.len() as u16)?;
    match place_part(alloc, pages, group, slot, page, kind, None, bytes)? {
        Some(nth) => Ok(Place { page, slot: nth }),
        None => {
            let file: FileName = pages.file(slot, Part::Rows);
            Err(pages.stop(Fault::PageDamaged { file, page }))
        }
    }
}
