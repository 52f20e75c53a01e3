//! Rows that are read.

ghost use Rattle.std.specs.Prelude.{◌≡◌, ◌+◌, ◌-◌, ◌^◌, ◌<◌, ◌≤◌, ◌++◌, [], ◌∷◌, ℕ, Bool, List, Some, None, IsTrue, IfOk, OnOk, length, take};
ghost use Rattle.aria_cache.specs.Calls.{fault_of, Answers, Loads};
ghost use Rattle.aria_cache.specs.Causes.{HasPagesCause};
ghost use Rattle.aria_block.specs.declared.layout.TheConstants.{BLOB_ROW};
ghost use Rattle.aria_block.specs.Causes.{rows_file};
ghost use Rattle.aria_block.specs.Pieces.{Pieces, Tail as TailPiece, Blob as BlobPiece, head_size, tail_size};
ghost use Rattle.aria_block.specs.DataFile.{HoldsData};
ghost use Rattle.aria_block.specs.Rows.{Rows as RowTable};
ghost use Rattle.aria_block.specs.HoldsRows.{HoldsRows};
ghost use Rattle.aria_block.specs.Reading.{ReadsHead, HasHead, HasTail, HasBlob, HasBlobs, HasAllBlobs, IsSized, HasRest, HasAllRest, HasRow, ReadsRow, OfPieces};

use crate::head_fields::HeadFields;
use crate::reading::{copy_blob, copy_head, copy_tail};
use crate::row_sizes::{blob_size, tail_size};
use aria_cache::{PageId, Pages};
use aria_host::{Fault, FileName};
use aria_page::{Bytes, Part, Place, Places};
use std::alloc::{AllocError, Global};

// Adds the row bytes of a head, and tells what it says of its row.
fn read_head<P: Pages>(
    alloc: Global,
    pages: &mut P,
    slot: u32,
    page: u32,
    nth: u8,
    out: &mut Bytes,
) -> Result<HeadFields, Fault>
    requires stands { P.stands pages.old }
    requires open { IsTrue ((P.state pages.old).is_open slot) }
    ensures stands { P.stands pages.new }
    ensures moves { P.stays pages.old pages.new }
    ensures loads { Loads P.tells 1 (P.state pages.old) (P.state pages.new) }
    ensures head { IsTrue P.tells → (pieces : Pieces) → HoldsData ((P.state pages.old).counts (rows_file (P.state pages.old) slot)) ((P.state pages.old).bodies (rows_file (P.state pages.old) slot)) pieces → IfOk result (λ h. ReadsHead pieces (record { page = page; slot = nth }) h out.old out.new) }
    ensures sized { IfOk result (λ h. IsSized h) }
    ensures answers { Answers (P.state pages.old) (P.state pages.new) (fault_of result) }
    ensures cause { HasPagesCause (OfPieces P.tells P.logged (HasHead (record { page = page; slot = nth })) (rows_file (P.state pages.old) slot) (P.state pages.old) (P.state pages.new)) (P.state pages.old) (P.state pages.new) (fault_of result) }
{
    let file: FileName = pages.file(slot, Part::Rows);
    if page >= pages.count(slot, Part::Rows) {
        return Err(pages.stop(Fault::PageDamaged { file, page }));
    }
    pages.load(
        alloc,
        PageId {
            slot,
            part: Part::Rows,
            page,
        },
    )?;
    match copy_head(pages.loaded(), nth, out) {
        Ok(Some(head)) => Ok(head),
        Ok(None) => Err(pages.stop(Fault::PageDamaged { file, page })),
        Err(AllocError) => Err(pages.stop(Fault::Memory(AllocError))),
    }
}

// Adds so many row bytes of a blob page.
fn read_blob<P: Pages>(
    alloc: Global,
    pages: &mut P,
    slot: u32,
    page: u32,
    len: usize,
    out: &mut Bytes,
) -> Result<(), Fault>
    requires stands { P.stands pages.old }
    requires open { IsTrue ((P.state pages.old).is_open slot) }
    requires few { len ≤ BLOB_ROW }
    ensures stands { P.stands pages.new }
    ensures moves { P.stays pages.old pages.new }
    ensures loads { Loads P.tells 1 (P.state pages.old) (P.state pages.new) }
    ensures blob { IsTrue P.tells → (pieces : Pieces) (bytes : List ℕ) → HoldsData ((P.state pages.old).counts (rows_file (P.state pages.old) slot)) ((P.state pages.old).bodies (rows_file (P.state pages.old) slot)) pieces → pieces page 0 ≡ Some (BlobPiece bytes) → length bytes ≡ len → OnOk result (out.new ≡ out.old ++ bytes) }
    ensures answers { Answers (P.state pages.old) (P.state pages.new) (fault_of result) }
    ensures cause { HasPagesCause (OfPieces P.tells P.logged (HasBlob page) (rows_file (P.state pages.old) slot) (P.state pages.old) (P.state pages.new)) (P.state pages.old) (P.state pages.new) (fault_of result) }
{
    let file: FileName = pages.file(slot, Part::Rows);
    if page >= pages.count(slot, Part::Rows) {
        return Err(pages.stop(Fault::PageDamaged { file, page }));
    }
    pages.load(
        alloc,
        PageId {
            slot,
            part: Part::Rows,
            page,
        },
    )?;
    match copy_blob(pages.loaded(), len, out) {
        Ok(true) => Ok(()),
        Ok(false) => Err(pages.stop(Fault::PageDamaged { file, page })),
        Err(AllocError) => Err(pages.stop(Fault::Memory(AllocError))),
    }
}

// Adds a tail of so many bytes.
fn read_tail<P: Pages>(
    alloc: Global,
    pages: &mut P,
    slot: u32,
    page: u32,
    nth: u8,
    len: usize,
    out: &mut Bytes,
) -> Result<(), Fault>
    requires stands { P.stands pages.old }
    requires open { IsTrue ((P.state pages.old).is_open slot) }
    ensures stands { P.stands pages.new }
    ensures moves { P.stays pages.old pages.new }
    ensures loads { Loads P.tells 1 (P.state pages.old) (P.state pages.new) }
    ensures tail { IsTrue P.tells → (pieces : Pieces) (bytes : List ℕ) → HoldsData ((P.state pages.old).counts (rows_file (P.state pages.old) slot)) ((P.state pages.old).bodies (rows_file (P.state pages.old) slot)) pieces → pieces page nth ≡ Some (TailPiece bytes) → length bytes ≡ len → OnOk result (out.new ≡ out.old ++ bytes) }
    ensures answers { Answers (P.state pages.old) (P.state pages.new) (fault_of result) }
    ensures cause { HasPagesCause (OfPieces P.tells P.logged (HasTail (record { page = page; slot = nth }) len) (rows_file (P.state pages.old) slot) (P.state pages.old) (P.state pages.new)) (P.state pages.old) (P.state pages.new) (fault_of result) }
{
    let file: FileName = pages.file(slot, Part::Rows);
    if page >= pages.count(slot, Part::Rows) {
        return Err(pages.stop(Fault::PageDamaged { file, page }));
    }
    pages.load(
        alloc,
        PageId {
            slot,
            part: Part::Rows,
            page,
        },
    )?;
    match copy_tail(pages.loaded(), nth, len, out) {
        Ok(true) => Ok(()),
        Ok(false) => Err(pages.stop(Fault::PageDamaged { file, page })),
        Err(AllocError) => Err(pages.stop(Fault::Memory(AllocError))),
    }
}

// Adds the row bytes of all blob pages, where those of the head stand.
fn read_blobs<P: Pages>(
    alloc: Global,
    pages: &mut P,
    slot: u32,
    head: &HeadFields,
    out: &mut Bytes,
) -> Result<(), Fault>
    requires stands { P.stands pages.old }
    requires open { IsTrue ((P.state pages.old).is_open slot) }
    requires calm { (P.state pages.old).kept ≡ None }
    requires sized { IsSized head.now }
    ensures stands { P.stands pages.new }
    ensures moves { P.stays pages.old pages.new }
    ensures loads { Loads P.tells 9 (P.state pages.old) (P.state pages.new) }
    ensures blobs { IsTrue P.tells → (pieces : Pieces) (row : List ℕ) → HoldsData ((P.state pages.old).counts (rows_file (P.state pages.old) slot)) ((P.state pages.old).bodies (rows_file (P.state pages.old) slot)) pieces → HasBlobs head.now row pieces → out.old ≡ take (head_size (length row)) row → OnOk result (out.new ≡ take (length row - tail_size (length row)) row) }
    ensures answers { Answers (P.state pages.old) (P.state pages.new) (fault_of result) }
    ensures cause { HasPagesCause (OfPieces P.tells P.logged (HasAllBlobs head.now) (rows_file (P.state pages.old) slot) (P.state pages.old) (P.state pages.new)) (P.state pages.old) (P.state pages.new) (fault_of result) }
{
    let _file = FileName::Control;
    let len = head.len as usize;
    for k in 0..head.blobs {
        let page = head.blob.saturating_add(k as u32);
        read_blob(alloc, pages, slot, page, blob_size(len, k), out)?;
    }
    Ok(())
}

// Adds the row bytes that the head doesn't have.
fn read_rest<P: Pages>(
    alloc: Global,
    pages: &mut P,
    slot: u32,
    head: &HeadFields,
    out: &mut Bytes,
) -> Result<(), Fault>
    requires stands { P.stands pages.old }
    requires open { IsTrue ((P.state pages.old).is_open slot) }
    requires calm { (P.state pages.old).kept ≡ None }
    requires sized { IsSized head.now }
    ensures stands { P.stands pages.new }
    ensures moves { P.stays pages.old pages.new }
    ensures loads { Loads P.tells 10 (P.state pages.old) (P.state pages.new) }
    ensures rest { IsTrue P.tells → (pieces : Pieces) (row : List ℕ) → HoldsData ((P.state pages.old).counts (rows_file (P.state pages.old) slot)) ((P.state pages.old).bodies (rows_file (P.state pages.old) slot)) pieces → HasRest head.now row pieces → out.old ≡ take (head_size (length row)) row → OnOk result (out.new ≡ row) }
    ensures answers { Answers (P.state pages.old) (P.state pages.new) (fault_of result) }
    ensures cause { HasPagesCause (OfPieces P.tells P.logged (HasAllRest head.now) (rows_file (P.state pages.old) slot) (P.state pages.old) (P.state pages.new)) (P.state pages.old) (P.state pages.new) (fault_of result) }
{
    let _file = FileName::Control;
    read_blobs(alloc, pages, slot, head, out)?;
    match head.tail {
        None => Ok(()),
        Some(place) => read_tail(
            alloc,
            pages,
            slot,
            place.page,
            place.slot,
            tail_size(head.len as usize),
            out,
        ),
    }
}

/// Reads the row that has its head there: `out` holds its bytes then, and nothing more. Tells the row's places.
pub fn read_row<P: Pages>(
    alloc: Global,
    pages: &mut P,
    slot: u32,
    head: Place,
    out: &mut Bytes,
) -> Result<Places, Fault>
    requires stands { P.stands pages.old }
    requires open { IsTrue ((P.state pages.old).is_open slot) }
    ensures stands { P.stands pages.new }
    ensures moves { P.stays pages.old pages.new }
    ensures loads { Loads P.tells 20 (P.state pages.old) (P.state pages.new) }
    ensures row { IsTrue P.tells → (is_row : List ℕ → Bool) (pieces : Pieces) (rows : RowTable) → HoldsRows is_row ((P.state pages.old).counts (rows_file (P.state pages.old) slot)) ((P.state pages.old).bodies (rows_file (P.state pages.old) slot)) pieces rows → IfOk result (λ places. ReadsRow (rows head.page head.slot) places out.new) }
    ensures answers { Answers (P.state pages.old) (P.state pages.new) (fault_of result) }
    ensures cause { HasPagesCause (OfPieces P.tells P.logged (HasRow head) (rows_file (P.state pages.old) slot) (P.state pages.old) (P.state pages.new)) (P.state pages.old) (P.state pages.new) (fault_of result) }
{
    let _file = FileName::Control;
    out.clear();
    let fields = read_head(alloc, pages, slot, head.page, head.slot, out)?;
    read_rest(alloc, pages, slot, &fields, out)?;
    Ok(Places {
        head,
        tail: fields.tail,
        blob: fields.blob,
        blobs: fields.blobs,
    })
}
