ghost use Rattle.std.specs.Prelude.{◌≡◌, ◌+◌, ◌-◌, ◌^◌, ◌<◌, ◌≤◌, ℕ, Bool, List, Some, None, true, IsTrue, IfOk, OnOk, length};
ghost use Rattle.aria_record.specs.Groups.{PlaceFits, TailFits, PlacesFit};
ghost use Rattle.aria_cache.specs.Calls.{fault_of, Answers, Spends, StaysIn, SameSlots, SameLog, Grows};
ghost use Rattle.aria_cache.specs.Causes.{HasPagesCause};
ghost use Rattle.aria_cache.specs.RowFaults.{row_fault_of, IsFull};
ghost use Rattle.aria_block.specs.declared.layout.TheConstants.{ROW_MAX, WHOLE_MAX, HEAD_FIELDS};
ghost use Rattle.aria_block.specs.declared.part_kind.PartKind.TheVariants as part;
ghost use Rattle.aria_block.specs.Causes.{rows_file, OfRows, KeepsSound};
ghost use Rattle.aria_block.specs.Pieces.{Pieces, head_size, tail_size, blob_count};
ghost use Rattle.aria_block.specs.Rows.{Rows};
ghost use Rattle.aria_block.specs.DataFile.{HoldsData};
ghost use Rattle.aria_block.specs.HoldsRows.{HoldsRows, PutsRow};
ghost use Rattle.aria_block.specs.Finding.{Looks};
ghost use Rattle.aria_block.specs.Runs.{GrowsForPart};
ghost use Rattle.aria_block.specs.Storing.{TailPut, HeadPut, RowPut, TellsFull};

use crate::blob_run::insert_blobs;
use crate::inserting::insert_part;
use crate::layout::{FULL_PAGES, WHOLE_MAX};
use crate::part_kind::PartKind;
use crate::row_bytes::{blob_count, head_bytes, last_bytes};
use aria_cache::{OpenGroup, PageId, Pages, RowFault};
use aria_host::{Fault, FileName};
use aria_page::{Part, Place, Places};
use std::alloc::Global;

// Puts the tail of a row, if it has one, and tells where it stands.
#[tactic(auto, using(crate::proofs::Causing::rows_cause))]
fn insert_tail<P: Pages>(
    alloc: Global,
    pages: &mut P,
    group: &mut OpenGroup,
    slot: u32,
    row: &[u8],
) -> Result<Option<Place>, Fault>
    requires stands { P.stands pages.old }
    requires open { IsTrue ((P.state pages.old).is_open slot) }
    requires group { (P.state pages.old).in_group ≡ true }
    requires calm { (P.state pages.old).kept ≡ None }
    requires low { (P.state pages.old).counts (rows_file (P.state pages.old) slot) + 1 < 2 ^ 31 }
    requires room { IsTrue P.logged → ((P.state pages.old).touched + 3 < 48) × ((P.state pages.old).made + 6 ≤ 254) }
    ensures stands { P.stands pages.new }
    ensures moves { P.stays pages.old pages.new }
    ensures slots { SameSlots (P.state pages.old) (P.state pages.new) }
    ensures log { SameLog (P.state pages.old) (P.state pages.new) }
    ensures in_group { (P.state pages.new).in_group ≡ true }
    ensures spends { Spends 4 6 (347 + tail_size (length row.now)) (P.state pages.old) (P.state pages.new) }
    ensures holds { IsTrue P.tells → (pieces : Pieces) → HoldsData ((P.state pages.old).counts (rows_file (P.state pages.old) slot)) ((P.state pages.old).bodies (rows_file (P.state pages.old) slot)) pieces
        → IfOk result (λ tail. TailPut row.now tail ((P.state pages.new).counts (rows_file (P.state pages.old) slot)) ((P.state pages.new).bodies (rows_file (P.state pages.old) slot)) pieces) }
    ensures needed { IsTrue P.tells → OnOk result (GrowsForPart part.Tail (tail_size (length row.now)) (rows_file (P.state pages.old) slot) (P.state pages.old) (P.state pages.new)) }
    ensures none { tail_size (length row.now) ≡ 0 → OnOk result ((P.state pages.new).counts ≡ (P.state pages.old).counts) }
    ensures count { OnOk result ((P.state pages.new).counts (rows_file (P.state pages.old) slot) ≤ (P.state pages.old).counts (rows_file (P.state pages.old) slot) + 2) }
    ensures fits { IfOk result (λ tail. TailFits tail) }
    ensures inside { IsTrue P.tells → OnOk result (StaysIn P.logged (rows_file (P.state pages.old) slot) (P.state pages.old) (P.state pages.new)) }
    ensures grows { OnOk result (Grows (P.state pages.old) (P.state pages.new)) }
    ensures keeps { OnOk result (KeepsSound P.tells (rows_file (P.state pages.old) slot) (P.state pages.old) (P.state pages.new)) }
    ensures answers { Answers (P.state pages.old) (P.state pages.new) (fault_of result) }
    ensures cause { HasPagesCause (OfRows P.tells P.logged (rows_file (P.state pages.old) slot) (P.state pages.old) (P.state pages.new)) (P.state pages.old) (P.state pages.new) (fault_of result) }
{
    let _file = FileName::Control;
    let bytes = last_bytes(row);
    let len = bytes.len();
    if len == 0 {
        return Ok(None);
    }
    let place = insert_part(alloc, pages, group, slot, PartKind::Tail, bytes)?;
    Ok(Some(place))
}

// Puts the head of a row whose other pieces stand at these places, and tells where it stands.
fn insert_head<P: Pages>(
    alloc: Global,
    pages: &mut P,
    group: &mut OpenGroup,
    slot: u32,
    row: &[u8],
    tail: Option<Place>,
    blob: u32,
    blobs: u8,
) -> Result<Places, Fault>
    requires stands { P.stands pages.old }
    requires open { IsTrue ((P.state pages.old).is_open slot) }
    requires group { (P.state pages.old).in_group ≡ true }
    requires few { length row.now ≤ ROW_MAX }
    requires low { (P.state pages.old).counts (rows_file (P.state pages.old) slot) + 1 < 2 ^ 31 }
    requires room { IsTrue P.logged → ((P.state pages.old).touched + 3 < 48) × ((P.state pages.old).made + 6 ≤ 254) }
    ensures stands { P.stands pages.new }
    ensures moves { P.stays pages.old pages.new }
    ensures slots { SameSlots (P.state pages.old) (P.state pages.new) }
    ensures log { SameLog (P.state pages.old) (P.state pages.new) }
    ensures in_group { (P.state pages.new).in_group ≡ true }
    ensures spends { Spends 4 6 (361 + head_size (length row.now)) (P.state pages.old) (P.state pages.new) }
    ensures places { IfOk result (λ places. (places.tail ≡ tail) × (places.blob ≡ blob) × (places.blobs ≡ blobs)) }
    ensures holds { IsTrue P.tells → (pieces : Pieces) → HoldsData ((P.state pages.old).counts (rows_file (P.state pages.old) slot)) ((P.state pages.old).bodies (rows_file (P.state pages.old) slot)) pieces
        → IfOk result (λ places. HeadPut row.now places ((P.state pages.new).counts (rows_file (P.state pages.old) slot)) ((P.state pages.new).bodies (rows_file (P.state pages.old) slot)) pieces) }
    ensures needed { IsTrue P.tells → OnOk result (GrowsForPart part.Head (HEAD_FIELDS + head_size (length row.now)) (rows_file (P.state pages.old) slot) (P.state pages.old) (P.state pages.new)) }
    ensures count { OnOk result ((P.state pages.new).counts (rows_file (P.state pages.old) slot) ≤ (P.state pages.old).counts (rows_file (P.state pages.old) slot) + 2) }
    ensures fits { IfOk result (λ places. PlaceFits places.head) }
    ensures inside { IsTrue P.tells → OnOk result (StaysIn P.logged (rows_file (P.state pages.old) slot) (P.state pages.old) (P.state pages.new)) }
    ensures grows { OnOk result (Grows (P.state pages.old) (P.state pages.new)) }
    ensures keeps { OnOk result (KeepsSound P.tells (rows_file (P.state pages.old) slot) (P.state pages.old) (P.state pages.new)) }
    ensures answers { Answers (P.state pages.old) (P.state pages.new) (fault_of result) }
    ensures cause { HasPagesCause (OfRows P.tells P.logged (rows_file (P.state pages.old) slot) (P.state pages.old) (P.state pages.new)) (P.state pages.old) (P.state pages.new) (fault_of result) }
{
    let _file = FileName::Control;
    let bytes = head_bytes(row, tail, blob, blobs);
    let head = insert_part(alloc, pages, group, slot, PartKind::Head, bytes.as_slice())?;
    Ok(Places {
        head,
        tail,
        blob,
        blobs,
    })
}

// Puts the pieces of a row that is longer than a head, and tells where they stand.
fn insert_long<P: Pages>(
    alloc: Global,
    pages: &mut P,
    group: &mut OpenGroup,
    slot: u32,
    row: &[u8],
) -> Result<Places, Fault>
    requires stands { P.stands pages.old }
    requires open { IsTrue ((P.state pages.old).is_open slot) }
    requires group { (P.state pages.old).in_group ≡ true }
    requires long { WHOLE_MAX < length row.now }
    requires few { length row.now ≤ ROW_MAX }
    requires low { (P.state pages.old).counts (rows_file (P.state pages.old) slot) < 2 ^ 30 }
    requires room { IsTrue P.logged → ((P.state pages.old).touched ≡ 0) × ((P.state pages.old).made ≡ 0) }
    ensures stands { P.stands pages.new }
    ensures moves { P.stays pages.old pages.new }
    ensures slots { SameSlots (P.state pages.old) (P.state pages.new) }
    ensures log { SameLog (P.state pages.old) (P.state pages.new) }
    ensures in_group { (P.state pages.new).in_group ≡ true }
    ensures spends { Spends 40 52 (length row.now + 10000) (P.state pages.old) (P.state pages.new) }
    ensures put { IsTrue P.tells → (pieces : Pieces) → HoldsData ((P.state pages.old).counts (rows_file (P.state pages.old) slot)) ((P.state pages.old).bodies (rows_file (P.state pages.old) slot)) pieces
        → IfOk result (λ places. RowPut row.now places pieces (rows_file (P.state pages.old) slot) (P.state pages.old) (P.state pages.new)) }
    ensures count { OnOk result ((P.state pages.new).counts (rows_file (P.state pages.old) slot) ≤ (P.state pages.old).counts (rows_file (P.state pages.old) slot) + 20) }
    ensures fits { IfOk result (λ places. PlacesFit places) }
    ensures inside { IsTrue P.tells → OnOk result (StaysIn P.logged (rows_file (P.state pages.old) slot) (P.state pages.old) (P.state pages.new)) }
    ensures grows { OnOk result (Grows (P.state pages.old) (P.state pages.new)) }
    ensures keeps { OnOk result (KeepsSound P.tells (rows_file (P.state pages.old) slot) (P.state pages.old) (P.state pages.new)) }
    ensures answers { Answers (P.state pages.old) (P.state pages.new) (fault_of result) }
    ensures cause { HasPagesCause (OfRows P.tells P.logged (rows_file (P.state pages.old) slot) (P.state pages.old) (P.state pages.new)) (P.state pages.old) (P.state pages.new) (fault_of result) }
{
    let _file = FileName::Control;
    let blob = insert_blobs(alloc, pages, group, slot, row)?;
    let tail = insert_tail(alloc, pages, group, slot, row)?;
    let blobs = blob_count(row.len()) as u8;
    insert_head(alloc, pages, group, slot, row, tail, blob, blobs)
}

// Puts the pieces of a row, and tells where they stand.
fn insert_pieces<P: Pages>(
    alloc: Global,
    pages: &mut P,
    group: &mut OpenGroup,
    slot: u32,
    row: &[u8],
) -> Result<Places, Fault>
    requires stands { P.stands pages.old }
    requires open { IsTrue ((P.state pages.old).is_open slot) }
    requires group { (P.state pages.old).in_group ≡ true }
    requires few { length row.now ≤ ROW_MAX }
    requires low { (P.state pages.old).counts (rows_file (P.state pages.old) slot) < 2 ^ 30 }
    requires room { IsTrue P.logged → ((P.state pages.old).touched ≡ 0) × ((P.state pages.old).made ≡ 0) }
    ensures stands { P.stands pages.new }
    ensures moves { P.stays pages.old pages.new }
    ensures slots { SameSlots (P.state pages.old) (P.state pages.new) }
    ensures log { SameLog (P.state pages.old) (P.state pages.new) }
    ensures in_group { (P.state pages.new).in_group ≡ true }
    ensures spends { Spends 40 52 (length row.now + 10000) (P.state pages.old) (P.state pages.new) }
    ensures put { IsTrue P.tells → (pieces : Pieces) → HoldsData ((P.state pages.old).counts (rows_file (P.state pages.old) slot)) ((P.state pages.old).bodies (rows_file (P.state pages.old) slot)) pieces
        → IfOk result (λ places. RowPut row.now places pieces (rows_file (P.state pages.old) slot) (P.state pages.old) (P.state pages.new)) }
    ensures count { OnOk result ((P.state pages.new).counts (rows_file (P.state pages.old) slot) ≤ (P.state pages.old).counts (rows_file (P.state pages.old) slot) + 20) }
    ensures fits { IfOk result (λ places. PlacesFit places) }
    ensures inside { IsTrue P.tells → OnOk result (StaysIn P.logged (rows_file (P.state pages.old) slot) (P.state pages.old) (P.state pages.new)) }
    ensures grows { OnOk result (Grows (P.state pages.old) (P.state pages.new)) }
    ensures keeps { OnOk result (KeepsSound P.tells (rows_file (P.state pages.old) slot) (P.state pages.old) (P.state pages.new)) }
    ensures answers { Answers (P.state pages.old) (P.state pages.new) (fault_of result) }
    ensures cause { HasPagesCause (OfRows P.tells P.logged (rows_file (P.state pages.old) slot) (P.state pages.old) (P.state pages.new)) (P.state pages.old) (P.state pages.new) (fault_of result) }
{
    let _file = FileName::Control;
    if row.len() > WHOLE_MAX {
        return insert_long(alloc, pages, group, slot, row);
    }
    insert_head(alloc, pages, group, slot, row, None, 0, 0)
}

/// Puts a row into a data file, and tells where its pieces stand: the blob pages first, then the tail, then the head. The
/// pattern of each page is set at once. The file grows only where no bitmap page promises the room.
pub fn insert_row<P: Pages>(
    alloc: Global,
    pages: &mut P,
    group: &mut OpenGroup,
    slot: u32,
    row: &[u8],
) -> Result<Places, RowFault>
    requires stands { P.stands pages.old }
    requires open { IsTrue ((P.state pages.old).is_open slot) }
    requires group { (P.state pages.old).in_group ≡ true }
    requires few { length row.now ≤ ROW_MAX }
    requires empty { IsTrue P.logged → ((P.state pages.old).touched ≡ 0) × ((P.state pages.old).made ≡ 0) }
    ensures stands { P.stands pages.new }
    ensures moves { P.stays pages.old pages.new }
    ensures slots { SameSlots (P.state pages.old) (P.state pages.new) }
    ensures log { SameLog (P.state pages.old) (P.state pages.new) }
    ensures in_group { (P.state pages.new).in_group ≡ true }
    ensures spends { Spends 40 52 (length row.now + 10000) (P.state pages.old) (P.state pages.new) }
    ensures rows { IsTrue P.tells → (is_row : List ℕ → Bool) (pieces : Pieces) (rows : Rows) → HoldsRows is_row ((P.state pages.old).counts (rows_file (P.state pages.old) slot)) ((P.state pages.old).bodies (rows_file (P.state pages.old) slot)) pieces rows → IsTrue (is_row row.now)
        → IfOk result (λ places. PutsRow is_row places row.now ((P.state pages.new).counts (rows_file (P.state pages.old) slot)) ((P.state pages.new).bodies (rows_file (P.state pages.old) slot)) pieces rows) }
    ensures put { IsTrue P.tells → (pieces : Pieces) → HoldsData ((P.state pages.old).counts (rows_file (P.state pages.old) slot)) ((P.state pages.old).bodies (rows_file (P.state pages.old) slot)) pieces
        → IfOk result (λ places. RowPut row.now places pieces (rows_file (P.state pages.old) slot) (P.state pages.old) (P.state pages.new)) }
    ensures full { TellsFull ((P.state pages.old).counts (rows_file (P.state pages.old) slot)) result }
    ensures still { IsFull ((P.state pages.old).counts (rows_file (P.state pages.old) slot)) → Looks P.tells (P.state pages.old) (P.state pages.new) }
    ensures count { OnOk result ((P.state pages.new).counts (rows_file (P.state pages.old) slot) ≤ (P.state pages.old).counts (rows_file (P.state pages.old) slot) + 20) }
    ensures fits { IfOk result (λ places. PlacesFit places) }
    ensures inside { IsTrue P.tells → OnOk result (StaysIn P.logged (rows_file (P.state pages.old) slot) (P.state pages.old) (P.state pages.new)) }
    ensures grows { OnOk result (Grows (P.state pages.old) (P.state pages.new)) }
    ensures keeps { OnOk result (KeepsSound P.tells (rows_file (P.state pages.old) slot) (P.state pages.old) (P.state pages.new)) }
    ensures answers { Answers (P.state pages.old) (P.state pages.new) (row_fault_of result) }
    ensures cause { HasPagesCause (OfRows P.tells P.logged (rows_file (P.state pages.old) slot) (P.state pages.old) (P.state pages.new)) (P.state pages.old) (P.state pages.new) (row_fault_of result) }
{
    let _file = FileName::Control;
    let count = pages.count(slot, Part::Rows);
    if count >= FULL_PAGES {
        pages.load(
            alloc,
            PageId {
                slot,
                part: Part::Rows,
                page: 0,
            },
        )?;
        return Err(RowFault::TableFull { pages: count });
    }
    let places = insert_pieces(alloc, pages, group, slot, row)?;
    Ok(places)
}
