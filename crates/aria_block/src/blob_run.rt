ghost use Rattle.std.specs.Prelude.{◌≡◌, ◌+◌, ◌-◌, ◌*◌, ◌^◌, ◌<◌, ◌≤◌, true, IsTrue, IfOk, OnOk, length};
ghost use Rattle.aria_cache.specs.Calls.{fault_of, Answers, Spends, StaysIn, SameSlots, SameLog, Grows};
ghost use Rattle.aria_cache.specs.Causes.{HasPagesCause};
ghost use Rattle.aria_block.specs.declared.layout.TheConstants.{ROW_MAX, WHOLE_MAX};
ghost use Rattle.aria_block.specs.Causes.{rows_file, OfFile, KeepsSound};
ghost use Rattle.aria_block.specs.Pieces.{Pieces, blob_count};
ghost use Rattle.aria_block.specs.DataFile.{HoldsData};
ghost use Rattle.aria_block.specs.Runs.{IsUnderOne, AreFree, GrowsForRun};
ghost use Rattle.aria_block.specs.Storing.{with_blobs, BlobsPut};

use crate::blob::place_blob;
use crate::lengthening::run_for;
use crate::row_bytes::{blob_bytes, blob_count};
use aria_cache::{OpenGroup, Pages};
use aria_host::{Fault, FileName};
use std::alloc::Global;

/// Makes the pages from this one on the blob pages of a row.
pub(crate) fn place_blobs<P: Pages>(
    alloc: Global,
    pages: &mut P,
    group: &mut OpenGroup,
    slot: u32,
    first: u32,
    row: &[u8],
) -> Result<(), Fault>
    requires stands { P.stands pages.old }
    requires open { IsTrue ((P.state pages.old).is_open slot) }
    requires group { (P.state pages.old).in_group ≡ true }
    requires long { WHOLE_MAX < length row.now }
    requires few { length row.now ≤ ROW_MAX }
    requires under { IsUnderOne (blob_count (length row.now)) first }
    requires below { first + blob_count (length row.now) ≤ (P.state pages.old).counts (rows_file (P.state pages.old) slot) }
    requires low { first + blob_count (length row.now) ≤ 2 ^ 31 }
    requires room { IsTrue P.logged → ((P.state pages.old).touched + 15 < 48) × ((P.state pages.old).made + 24 ≤ 254) }
    ensures stands { P.stands pages.new }
    ensures moves { P.stays pages.old pages.new }
    ensures slots { SameSlots (P.state pages.old) (P.state pages.new) }
    ensures log { SameLog (P.state pages.old) (P.state pages.new) }
    ensures in_group { (P.state pages.new).in_group ≡ true }
    ensures spends { Spends 16 24 (8351 * blob_count (length row.now)) (P.state pages.old) (P.state pages.new) }
    ensures holds { IsTrue P.tells → (pieces : Pieces) → HoldsData ((P.state pages.old).counts (rows_file (P.state pages.old) slot)) ((P.state pages.old).bodies (rows_file (P.state pages.old) slot)) pieces → AreFree (blob_count (length row.now)) first pieces
        → OnOk result (HoldsData ((P.state pages.old).counts (rows_file (P.state pages.old) slot)) ((P.state pages.new).bodies (rows_file (P.state pages.old) slot)) (with_blobs first (blob_count (length row.now)) row.now pieces)) }
    ensures inside { IsTrue P.tells → OnOk result (StaysIn P.logged (rows_file (P.state pages.old) slot) (P.state pages.old) (P.state pages.new)) }
    ensures counts { OnOk result ((P.state pages.new).counts ≡ (P.state pages.old).counts) }
    ensures keeps { OnOk result (KeepsSound P.tells (rows_file (P.state pages.old) slot) (P.state pages.old) (P.state pages.new)) }
    ensures answers { Answers (P.state pages.old) (P.state pages.new) (fault_of result) }
    ensures cause { HasPagesCause (OfFile P.tells P.logged (rows_file (P.state pages.old) slot) (P.state pages.old) (P.state pages.new)) (P.state pages.old) (P.state pages.new) (fault_of result) }
{
    let _file = FileName::Control;
    let n = blob_count(row.len());
    place_blob(alloc, pages, group, slot, first, blob_bytes(row, 0))?;
    let mut nth = 1;
    while nth < n {
        place_blob(alloc, pages, group, slot, first + nth, blob_bytes(row, nth))?;
        nth += 1;
    }
    Ok(())
}

/// Puts the row bytes of a long row that go on blob pages on such pages, and tells the first of them.
pub(crate) fn insert_blobs<P: Pages>(
    alloc: Global,
    pages: &mut P,
    group: &mut OpenGroup,
    slot: u32,
    row: &[u8],
) -> Result<u32, Fault>
    requires stands { P.stands pages.old }
    requires open { IsTrue ((P.state pages.old).is_open slot) }
    requires group { (P.state pages.old).in_group ≡ true }
    requires long { WHOLE_MAX < length row.now }
    requires few { length row.now ≤ ROW_MAX }
    requires low { (P.state pages.old).counts (rows_file (P.state pages.old) slot) < 2 ^ 31 - 32 }
    requires room { IsTrue P.logged → ((P.state pages.old).touched + 31 < 48) × ((P.state pages.old).made + 40 ≤ 254) }
    ensures stands { P.stands pages.new }
    ensures moves { P.stays pages.old pages.new }
    ensures slots { SameSlots (P.state pages.old) (P.state pages.new) }
    ensures log { SameLog (P.state pages.old) (P.state pages.new) }
    ensures in_group { (P.state pages.new).in_group ≡ true }
    ensures spends { Spends 32 40 (1312 + 8351 * blob_count (length row.now)) (P.state pages.old) (P.state pages.new) }
    ensures holds { IsTrue P.tells → (pieces : Pieces) → HoldsData ((P.state pages.old).counts (rows_file (P.state pages.old) slot)) ((P.state pages.old).bodies (rows_file (P.state pages.old) slot)) pieces
        → IfOk result (λ first. BlobsPut row.now first ((P.state pages.new).counts (rows_file (P.state pages.old) slot)) ((P.state pages.new).bodies (rows_file (P.state pages.old) slot)) pieces) }
    ensures needed { IsTrue P.tells → OnOk result (GrowsForRun (blob_count (length row.now)) (rows_file (P.state pages.old) slot) (P.state pages.old) (P.state pages.new)) }
    ensures count { OnOk result ((P.state pages.new).counts (rows_file (P.state pages.old) slot) ≤ (P.state pages.old).counts (rows_file (P.state pages.old) slot) + 16) }
    ensures fits { IfOk result (λ first. first < 2 ^ 31) }
    ensures inside { IsTrue P.tells → OnOk result (StaysIn P.logged (rows_file (P.state pages.old) slot) (P.state pages.old) (P.state pages.new)) }
    ensures grows { OnOk result (Grows (P.state pages.old) (P.state pages.new)) }
    ensures keeps { OnOk result (KeepsSound P.tells (rows_file (P.state pages.old) slot) (P.state pages.old) (P.state pages.new)) }
    ensures answers { Answers (P.state pages.old) (P.state pages.new) (fault_of result) }
    ensures cause { HasPagesCause (OfFile P.tells P.logged (rows_file (P.state pages.old) slot) (P.state pages.old) (P.state pages.new)) (P.state pages.old) (P.state pages.new) (fault_of result) }
{
    let _file = FileName::Control;
    let first = run_for(alloc, pages, group, slot, blob_count(row.len()))?;
    place_blobs(alloc, pages, group, slot, first, row)?;
    Ok(first)
}
