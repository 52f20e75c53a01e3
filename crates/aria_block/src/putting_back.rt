//! Rows that are put back at the places where they stood.

ghost use Rattle.std.specs.Prelude.{◌≡◌, ◌+◌, ◌*◌, ◌^◌, ◌<◌, ◌≤◌, ◌↔◌, ℕ, Bool, List, Some, None, true, IsTrue, IfSome, OnOk, is_some, nat_lt, length};
ghost use Rattle.aria_page.specs.declared.page.TheConstants.{BODY_BYTES};
ghost use Rattle.aria_cache.specs.Calls.{fault_of, Answers, Spends, StaysIn, SameSlots, SameLog};
ghost use Rattle.aria_cache.specs.Causes.{HasPagesCause};
ghost use Rattle.aria_block.specs.declared.layout.TheConstants.{ROW_MAX, WHOLE_MAX, HEAD_FIELDS};
ghost use Rattle.aria_block.specs.declared.part_kind.PartKind.TheVariants as part;
ghost use Rattle.aria_block.specs.Causes.{rows_file, KeepsSound};
ghost use Rattle.aria_block.specs.Pieces.{Pieces, head_size, tail_size, blob_count};
ghost use Rattle.aria_block.specs.PartPage.{part_piece};
ghost use Rattle.aria_block.specs.DataFile.{HoldsData};
ghost use Rattle.aria_block.specs.Storing.{with_one, BlobsPut, TailPut, HeadPut};
ghost use Rattle.aria_block.specs.Runs.{AreFree};
ghost use Rattle.aria_block.specs.Reading.{OfPieces};
ghost use Rattle.aria_block.specs.PuttingBack.{TakesPartAt, IsRun, MayStand, CanPutBack, RowBack};
ghost use Rattle.aria_block.specs.Rows.{Rows};
ghost use Rattle.aria_block.specs.HoldsRows.{HoldsRows, PutsRow};

use crate::blob_run::place_blobs;
use crate::layout::{MAP_EVERY, WHOLE_MAX};
use crate::part_kind::PartKind;
use crate::placing::place_part;
use crate::row_bytes::{blob_count, head_bytes, last_bytes, tail_size};
use crate::run::run_is_free;
use aria_cache::{OpenGroup, Pages};
use aria_host::{Fault, FileName};
use aria_page::{Part, Place, Places};
use std::alloc::Global;

// Whether these are pages of the file, all under one bitmap page.
fn is_run(first: u32, n: u8, count: u32) -> bool
    ensures { IsTrue result ↔ IsRun first n count }
{
    let nth = first % MAP_EVERY;
    if nth == 0 {
        return false;
    }
    if nth + n as u32 > MAP_EVERY {
        return false;
    }
    if n as u32 > count {
        return false;
    }
    first <= count - n as u32
}

// Whether these may be the places of a row of this length.
fn may_stand(places: &Places, len: usize, count: u32) -> bool
    requires { len ≤ ROW_MAX }
    ensures { IsTrue result ↔ MayStand places.now len count }
{
    if places.tail.is_some() != (tail_size(len) > 0) {
        return false;
    }
    if places.blobs as u32 != blob_count(len) {
        return false;
    }
    if places.blobs == 0 {
        return true;
    }
    is_run(places.blob, places.blobs, count)
}

/// Puts a part at a place where one stood, and sets the pattern of its page.
pub(crate) fn put_part_back<P: Pages>(
    alloc: Global,
    pages: &mut P,
    group: &mut OpenGroup,
    slot: u32,
    page: u32,
    kind: PartKind,
    nth: u8,
    bytes: &[u8],
) -> Result<(), Fault>
    requires stands { P.stands pages.old }
    requires open { IsTrue ((P.state pages.old).is_open slot) }
    requires group { (P.state pages.old).in_group ≡ true }
    requires few { length bytes.now ≤ BODY_BYTES }
    requires room { IsTrue P.logged → ((P.state pages.old).touched + 1 < 48) × ((P.state pages.old).made + 4 ≤ 254) }
    ensures stands { P.stands pages.new }
    ensures moves { P.stays pages.old pages.new }
    ensures slots { SameSlots (P.state pages.old) (P.state pages.new) }
    ensures log { SameLog (P.state pages.old) (P.state pages.new) }
    ensures in_group { (P.state pages.new).in_group ≡ true }
    ensures spends { Spends 2 4 (1203 + length bytes.now) (P.state pages.old) (P.state pages.new) }
    ensures holds { IsTrue P.tells → (pieces : Pieces) → HoldsData ((P.state pages.old).counts (rows_file (P.state pages.old) slot)) ((P.state pages.old).bodies (rows_file (P.state pages.old) slot)) pieces
        → OnOk result (HoldsData ((P.state pages.old).counts (rows_file (P.state pages.old) slot)) ((P.state pages.new).bodies (rows_file (P.state pages.old) slot)) (with_one (record { page = page; slot = nth }) (part_piece kind bytes.now) pieces)) }
    ensures free { IsTrue P.tells → (pieces : Pieces) → HoldsData ((P.state pages.old).counts (rows_file (P.state pages.old) slot)) ((P.state pages.old).bodies (rows_file (P.state pages.old) slot)) pieces → OnOk result (pieces page nth ≡ None) }
    ensures inside { IsTrue P.tells → OnOk result (StaysIn P.logged (rows_file (P.state pages.old) slot) (P.state pages.old) (P.state pages.new)) }
    ensures counts { OnOk result ((P.state pages.new).counts ≡ (P.state pages.old).counts) }
    ensures keeps { OnOk result (KeepsSound P.tells (rows_file (P.state pages.old) slot) (P.state pages.old) (P.state pages.new)) }
    ensures answers { Answers (P.state pages.old) (P.state pages.new) (fault_of result) }
    ensures cause { HasPagesCause (OfPieces P.tells P.logged (λ pieces. TakesPartAt kind (record { page = page; slot = nth }) (length bytes.now) ((P.state pages.old).counts (rows_file (P.state pages.old) slot)) ((P.state pages.old).bodies (rows_file (P.state pages.old) slot))) (rows_file (P.state pages.old) slot) (P.state pages.old) (P.state pages.new)) (P.state pages.old) (P.state pages.new) (fault_of result) }
{
    let file: FileName = pages.file(slot, Part::Rows);
    if page >= pages.count(slot, Part::Rows) {
        return Err(pages.stop(Fault::PageDamaged { file, page }));
    }
    if page % MAP_EVERY == 0 {
        return Err(pages.stop(Fault::PageDamaged { file, page }));
    }
    match place_part(alloc, pages, group, slot, page, kind, Some(nth), bytes) {
        Ok(Some(_)) => Ok(()),
        Ok(None) => Err(pages.stop(Fault::PageDamaged { file, page })),
        Err(fault) => Err(fault),
    }
}

/// Puts the tail of a row back at its place, if it has one.
pub(crate) fn put_tail_back<P: Pages>(
    alloc: Global,
    pages: &mut P,
    group: &mut OpenGroup,
    slot: u32,
    row: &[u8],
    tail: Option<Place>,
) -> Result<(), Fault>
    requires stands { P.stands pages.old }
    requires open { IsTrue ((P.state pages.old).is_open slot) }
    requires group { (P.state pages.old).in_group ≡ true }
    requires calm { (P.state pages.old).kept ≡ None }
    requires asked { is_some tail ≡ nat_lt 0 (tail_size (length row.now)) }
    requires room { IsTrue P.logged → ((P.state pages.old).touched + 1 < 48) × ((P.state pages.old).made + 4 ≤ 254) }
    ensures stands { P.stands pages.new }
    ensures moves { P.stays pages.old pages.new }
    ensures slots { SameSlots (P.state pages.old) (P.state pages.new) }
    ensures log { SameLog (P.state pages.old) (P.state pages.new) }
    ensures in_group { (P.state pages.new).in_group ≡ true }
    ensures spends { Spends 2 4 (1203 + tail_size (length row.now)) (P.state pages.old) (P.state pages.new) }
    ensures holds { IsTrue P.tells → (pieces : Pieces) → HoldsData ((P.state pages.old).counts (rows_file (P.state pages.old) slot)) ((P.state pages.old).bodies (rows_file (P.state pages.old) slot)) pieces
        → OnOk result (TailPut row.now tail ((P.state pages.old).counts (rows_file (P.state pages.old) slot)) ((P.state pages.new).bodies (rows_file (P.state pages.old) slot)) pieces) }
    ensures inside { IsTrue P.tells → OnOk result (StaysIn P.logged (rows_file (P.state pages.old) slot) (P.state pages.old) (P.state pages.new)) }
    ensures counts { OnOk result ((P.state pages.new).counts ≡ (P.state pages.old).counts) }
    ensures keeps { OnOk result (KeepsSound P.tells (rows_file (P.state pages.old) slot) (P.state pages.old) (P.state pages.new)) }
    ensures answers { Answers (P.state pages.old) (P.state pages.new) (fault_of result) }
    ensures cause { HasPagesCause (OfPieces P.tells P.logged (λ pieces. IfSome tail (λ place. TakesPartAt part.Tail place (tail_size (length row.now)) ((P.state pages.old).counts (rows_file (P.state pages.old) slot)) ((P.state pages.old).bodies (rows_file (P.state pages.old) slot)))) (rows_file (P.state pages.old) slot) (P.state pages.old) (P.state pages.new)) (P.state pages.old) (P.state pages.new) (fault_of result) }
{
    let _file = FileName::Control;
    let Some(place) = tail else {
        return Ok(());
    };
    let bytes = last_bytes(row);
    put_part_back(
        alloc,
        pages,
        group,
        slot,
        place.page,
        PartKind::Tail,
        place.slot,
        bytes,
    )
}

/// Puts the head of a row back at its place; the row's other pieces are at these places.
pub(crate) fn put_head_back<P: Pages>(
    alloc: Global,
    pages: &mut P,
    group: &mut OpenGroup,
    slot: u32,
    row: &[u8],
    places: &Places,
) -> Result<(), Fault>
    requires stands { P.stands pages.old }
    requires open { IsTrue ((P.state pages.old).is_open slot) }
    requires group { (P.state pages.old).in_group ≡ true }
    requires few { length row.now ≤ ROW_MAX }
    requires room { IsTrue P.logged → ((P.state pages.old).touched + 1 < 48) × ((P.state pages.old).made + 4 ≤ 254) }
    ensures stands { P.stands pages.new }
    ensures moves { P.stays pages.old pages.new }
    ensures slots { SameSlots (P.state pages.old) (P.state pages.new) }
    ensures log { SameLog (P.state pages.old) (P.state pages.new) }
    ensures in_group { (P.state pages.new).in_group ≡ true }
    ensures spends { Spends 2 4 (1217 + head_size (length row.now)) (P.state pages.old) (P.state pages.new) }
    ensures holds { IsTrue P.tells → (pieces : Pieces) → HoldsData ((P.state pages.old).counts (rows_file (P.state pages.old) slot)) ((P.state pages.old).bodies (rows_file (P.state pages.old) slot)) pieces
        → OnOk result (HeadPut row.now places.now ((P.state pages.old).counts (rows_file (P.state pages.old) slot)) ((P.state pages.new).bodies (rows_file (P.state pages.old) slot)) pieces) }
    ensures inside { IsTrue P.tells → OnOk result (StaysIn P.logged (rows_file (P.state pages.old) slot) (P.state pages.old) (P.state pages.new)) }
    ensures counts { OnOk result ((P.state pages.new).counts ≡ (P.state pages.old).counts) }
    ensures keeps { OnOk result (KeepsSound P.tells (rows_file (P.state pages.old) slot) (P.state pages.old) (P.state pages.new)) }
    ensures answers { Answers (P.state pages.old) (P.state pages.new) (fault_of result) }
    ensures cause { HasPagesCause (OfPieces P.tells P.logged (λ pieces. TakesPartAt part.Head places.now.head (HEAD_FIELDS + head_size (length row.now)) ((P.state pages.old).counts (rows_file (P.state pages.old) slot)) ((P.state pages.old).bodies (rows_file (P.state pages.old) slot))) (rows_file (P.state pages.old) slot) (P.state pages.old) (P.state pages.new)) (P.state pages.old) (P.state pages.new) (fault_of result) }
{
    let _file = FileName::Control;
    let bytes = head_bytes(row, places.tail, places.blob, places.blobs);
    put_part_back(
        alloc,
        pages,
        group,
        slot,
        places.head.page,
        PartKind::Head,
        places.head.slot,
        bytes.as_slice(),
    )
}

// Puts the row bytes of a long row that go on blob pages back on their pages.
fn put_blobs_back<P: Pages>(
    alloc: Global,
    pages: &mut P,
    group: &mut OpenGroup,
    slot: u32,
    row: &[u8],
    first: u32,
) -> Result<(), Fault>
    requires stands { P.stands pages.old }
    requires open { IsTrue ((P.state pages.old).is_open slot) }
    requires group { (P.state pages.old).in_group ≡ true }
    requires long { WHOLE_MAX < length row.now }
    requires few { length row.now ≤ ROW_MAX }
    requires run { IsRun first (blob_count (length row.now)) ((P.state pages.old).counts (rows_file (P.state pages.old) slot)) }
    requires low { (P.state pages.old).counts (rows_file (P.state pages.old) slot) ≤ 2 ^ 31 }
    requires room { IsTrue P.logged → ((P.state pages.old).touched + 15 < 48) × ((P.state pages.old).made + 24 ≤ 254) }
    ensures stands { P.stands pages.new }
    ensures moves { P.stays pages.old pages.new }
    ensures slots { SameSlots (P.state pages.old) (P.state pages.new) }
    ensures log { SameLog (P.state pages.old) (P.state pages.new) }
    ensures in_group { (P.state pages.new).in_group ≡ true }
    ensures spends { Spends 16 24 (8351 * blob_count (length row.now)) (P.state pages.old) (P.state pages.new) }
    ensures holds { IsTrue P.tells → (pieces : Pieces) → HoldsData ((P.state pages.old).counts (rows_file (P.state pages.old) slot)) ((P.state pages.old).bodies (rows_file (P.state pages.old) slot)) pieces
        → OnOk result (BlobsPut row.now first ((P.state pages.old).counts (rows_file (P.state pages.old) slot)) ((P.state pages.new).bodies (rows_file (P.state pages.old) slot)) pieces) }
    ensures inside { IsTrue P.tells → OnOk result (StaysIn P.logged (rows_file (P.state pages.old) slot) (P.state pages.old) (P.state pages.new)) }
    ensures counts { OnOk result ((P.state pages.new).counts ≡ (P.state pages.old).counts) }
    ensures keeps { OnOk result (KeepsSound P.tells (rows_file (P.state pages.old) slot) (P.state pages.old) (P.state pages.new)) }
    ensures answers { Answers (P.state pages.old) (P.state pages.new) (fault_of result) }
    ensures cause { HasPagesCause (OfPieces P.tells P.logged (AreFree (blob_count (length row.now)) first) (rows_file (P.state pages.old) slot) (P.state pages.old) (P.state pages.new)) (P.state pages.old) (P.state pages.new) (fault_of result) }
{
    let file: FileName = pages.file(slot, Part::Rows);
    if !run_is_free(alloc, pages, slot, first, blob_count(row.len()))? {
        return Err(pages.stop(Fault::PageDamaged { file, page: first }));
    }
    place_blobs(alloc, pages, group, slot, first, row)
}

// Puts the pieces of a row that is longer than a head back at their places.
fn put_long_back<P: Pages>(
    alloc: Global,
    pages: &mut P,
    group: &mut OpenGroup,
    slot: u32,
    row: &[u8],
    places: &Places,
) -> Result<(), Fault>
    requires stands { P.stands pages.old }
    requires open { IsTrue ((P.state pages.old).is_open slot) }
    requires group { (P.state pages.old).in_group ≡ true }
    requires long { WHOLE_MAX < length row.now }
    requires few { length row.now ≤ ROW_MAX }
    requires may { MayStand places.now (length row.now) ((P.state pages.old).counts (rows_file (P.state pages.old) slot)) }
    requires low { (P.state pages.old).counts (rows_file (P.state pages.old) slot) ≤ 2 ^ 31 }
    requires room { IsTrue P.logged → ((P.state pages.old).touched ≡ 0) × ((P.state pages.old).made ≡ 0) }
    ensures stands { P.stands pages.new }
    ensures moves { P.stays pages.old pages.new }
    ensures slots { SameSlots (P.state pages.old) (P.state pages.new) }
    ensures log { SameLog (P.state pages.old) (P.state pages.new) }
    ensures in_group { (P.state pages.new).in_group ≡ true }
    ensures spends { Spends 20 32 (length row.now + 8200) (P.state pages.old) (P.state pages.new) }
    ensures put { IsTrue P.tells → (pieces : Pieces) → HoldsData ((P.state pages.old).counts (rows_file (P.state pages.old) slot)) ((P.state pages.old).bodies (rows_file (P.state pages.old) slot)) pieces
        → OnOk result (RowBack row.now places.now ((P.state pages.old).counts (rows_file (P.state pages.old) slot)) ((P.state pages.new).bodies (rows_file (P.state pages.old) slot)) pieces) }
    ensures inside { IsTrue P.tells → OnOk result (StaysIn P.logged (rows_file (P.state pages.old) slot) (P.state pages.old) (P.state pages.new)) }
    ensures counts { OnOk result ((P.state pages.new).counts ≡ (P.state pages.old).counts) }
    ensures keeps { OnOk result (KeepsSound P.tells (rows_file (P.state pages.old) slot) (P.state pages.old) (P.state pages.new)) }
    ensures answers { Answers (P.state pages.old) (P.state pages.new) (fault_of result) }
    ensures cause { HasPagesCause (OfPieces P.tells P.logged (CanPutBack row.now places.now ((P.state pages.old).counts (rows_file (P.state pages.old) slot))) (rows_file (P.state pages.old) slot) (P.state pages.old) (P.state pages.new)) (P.state pages.old) (P.state pages.new) (fault_of result) }
{
    let _file = FileName::Control;
    put_blobs_back(alloc, pages, group, slot, row, places.blob)?;
    put_tail_back(alloc, pages, group, slot, row, places.tail)?;
    put_head_back(alloc, pages, group, slot, row, places)
}

/// Puts a row back at the places where it stood: the blob pages first, then the tail, then the head. The pattern of each
/// page is set at once. The file stays as long as it is.
pub fn put_back<P: Pages>(
    alloc: Global,
    pages: &mut P,
    group: &mut OpenGroup,
    slot: u32,
    row: &[u8],
    places: &Places,
) -> Result<(), Fault>
    requires stands { P.stands pages.old }
    requires open { IsTrue ((P.state pages.old).is_open slot) }
    requires group { (P.state pages.old).in_group ≡ true }
    requires few { length row.now ≤ ROW_MAX }
    requires empty { IsTrue P.logged → ((P.state pages.old).touched ≡ 0) × ((P.state pages.old).made ≡ 0) }
    ensures stands { P.stands pages.new }
    ensures moves { P.stays pages.old pages.new }
    ensures slots { SameSlots (P.state pages.old) (P.state pages.new) }
    ensures log { SameLog (P.state pages.old) (P.state pages.new) }
    ensures in_group { (P.state pages.new).in_group ≡ true }
    ensures spends { Spends 20 32 (length row.now + 8200) (P.state pages.old) (P.state pages.new) }
    ensures rows { IsTrue P.tells → (is_row : List ℕ → Bool) (pieces : Pieces) (rows : Rows) → HoldsRows is_row ((P.state pages.old).counts (rows_file (P.state pages.old) slot)) ((P.state pages.old).bodies (rows_file (P.state pages.old) slot)) pieces rows → IsTrue (is_row row.now)
        → OnOk result (PutsRow is_row places.now row.now ((P.state pages.old).counts (rows_file (P.state pages.old) slot)) ((P.state pages.new).bodies (rows_file (P.state pages.old) slot)) pieces rows) }
    ensures put { IsTrue P.tells → (pieces : Pieces) → HoldsData ((P.state pages.old).counts (rows_file (P.state pages.old) slot)) ((P.state pages.old).bodies (rows_file (P.state pages.old) slot)) pieces
        → OnOk result (RowBack row.now places.now ((P.state pages.old).counts (rows_file (P.state pages.old) slot)) ((P.state pages.new).bodies (rows_file (P.state pages.old) slot)) pieces) }
    ensures inside { IsTrue P.tells → OnOk result (StaysIn P.logged (rows_file (P.state pages.old) slot) (P.state pages.old) (P.state pages.new)) }
    ensures counts { OnOk result ((P.state pages.new).counts ≡ (P.state pages.old).counts) }
    ensures keeps { OnOk result (KeepsSound P.tells (rows_file (P.state pages.old) slot) (P.state pages.old) (P.state pages.new)) }
    ensures answers { Answers (P.state pages.old) (P.state pages.new) (fault_of result) }
    ensures cause { HasPagesCause (OfPieces P.tells P.logged (CanPutBack row.now places.now ((P.state pages.old).counts (rows_file (P.state pages.old) slot))) (rows_file (P.state pages.old) slot) (P.state pages.old) (P.state pages.new)) (P.state pages.old) (P.state pages.new) (fault_of result) }
{
    let file: FileName = pages.file(slot, Part::Rows);
    let count = pages.count(slot, Part::Rows);
    if !may_stand(places, row.len(), count) {
        return Err(pages.stop(Fault::PageDamaged {
            file,
            page: places.head.page,
        }));
    }
    if row.len() > WHOLE_MAX {
        return put_long_back(alloc, pages, group, slot, row, places);
    }
    put_head_back(alloc, pages, group, slot, row, places)
}
