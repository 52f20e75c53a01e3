ghost use Rattle.std.specs.Prelude.{◌≡◌, ℕ, ◌+◌, ◌^◌, ◌<◌, ◌≤◌, ◌⊎◌, ◌↔◌, ◌++◌, List as Seq, [], length, drop, All, IsTrue, is_some, IfOk, OnOk};
ghost use Rattle.aria_page.specs.Change.{edit_of, edits_of};
ghost use Rattle.aria_page.specs.Edit.{IsWithin};
ghost use Rattle.aria_page.specs.Lsn.{IsLsn};
ghost use Rattle.aria_page.specs.Number.{number};
ghost use Rattle.aria_value.specs.Reading.{read_definition};
ghost use Rattle.aria_record.specs.declared.record.Record.{Record as AnyRecord};
ghost use Rattle.aria_record.specs.Groups.{is_group, IsGroup};
ghost use Rattle.aria_record.specs.Spelled.{group_bytes};
ghost use Rattle.aria_record.specs.Writing.{last_record, LastFits, redo_size, last_size, Writes, IsWriting, records_of, size_of, Pushes};

use crate::entry_codec::{
    push_commit_entry, push_create_entry, push_drop_entry, push_last_entry, push_redo_entry,
};
use crate::record_codec::set_length;
use aria_page::{Bytes, Change, Last, List, Lsn, Name, Part, RedoKind};
use std::alloc::{AllocError, Global};

// 4 bytes for the length of a group, and 1 byte for the number of its entries.
const HEAD_BYTES: usize = 5;

/// A group in the making, as its bytes. It is used again for one group after another, and keeps its memory.
///
/// After an `Err` it can only be cleared.
#[derive(Debug, Drop)]
pub struct GroupWriter {
    // The places of the length and of the number of entries, and the entries; or nothing yet.
    bytes: Bytes,
    count: u8,
}

// Makes the places in front where there are none.
fn make_head(out: &mut Bytes) -> Result<(), AllocError>
    ensures place { OnOk result (5 ≤ length out.new) }
    ensures same { OnOk result (drop 5 out.new ≡ drop 5 out.old) }
{
    if out.len() < HEAD_BYTES {
        out.clear();
        out.extend_from_slice(&[0; HEAD_BYTES])?;
    }
    Ok(())
}

// Puts the length and the number of entries into their places.
fn fill_head(bytes: &mut Bytes, count: u8)
    requires place { 5 ≤ length bytes.old }
    requires size { length bytes.old < 2 ^ 32 }
    ensures { bytes.new ≡ number 4 (1 + length (drop 5 bytes.old)) ++ (number 1 count ++ drop 5 bytes.old) }
{
    bytes.overwrite(4, &[count]);
    set_length(bytes, 0);
}

impl GroupWriter {
    pub fn new(alloc: Global) -> Result<GroupWriter, AllocError>
        ensures { IfOk result (λ writer. Writes writer []) }
    {
        let mut bytes = List::new(alloc);
        make_head(&mut bytes)?;
        Ok(GroupWriter { bytes, count: 0 })
    }

    /// Begins a new group without entries.
    pub fn clear(&mut self)
        ensures writes { Writes self.new [] }
        ensures bytes { size_of self.new ≡ 5 }
    {
        self.bytes.clear();
        self.count = 0;
    }

    /// How many bytes the group has so far.
    pub fn len(&self) -> usize
        ensures size { result ≡ size_of self.now }
        ensures spelled { (records : Seq AnyRecord) → Writes self.now records → result ≡ length (group_bytes records) }
    {
        if self.bytes.len() < HEAD_BYTES {
            return HEAD_BYTES;
        }
        self.bytes.len()
    }

    pub fn is_empty(&self) -> bool
        ensures { (records : Seq AnyRecord) → Writes self.now records → IsTrue result ↔ (records ≡ []) }
    {
        self.count == 0
    }

    /// Whether there is no place for one more entry.
    pub fn is_full(&self) -> bool
        ensures { IsTrue result ↔ (255 ≤ self.now.count) }
    {
        self.count == u8::MAX
    }

    /// Adds edits of a page of a table.
    pub fn push_redo(
        &mut self,
        kind: RedoKind,
        table: &Name,
        part: Part,
        page: u32,
        edits: &[Change<'_>],
    ) -> Result<(), AllocError>
        requires room { self.old.count < 255 }
        requires page { page < 2 ^ 31 }
        requires some { 1 ≤ length edits.now }
        requires few { length edits.now < 256 }
        requires within { All (λ e. IsWithin (edit_of e)) edits.now }
        ensures { OnOk result (Pushes self.old self.new (AnyRecord.Redo kind table.now part page (edits_of edits.now)) (redo_size (edits_of edits.now))) }
    {
        make_head(&mut self.bytes)?;
        push_redo_entry(&mut self.bytes, kind, table, part, page, edits)?;
        self.count += 1;
        Ok(())
    }

    /// Adds what ends a group of edits. `prev` is the undo record before this one.
    pub fn push_last(&mut self, table: &Name, prev: Lsn, last: &Last) -> Result<(), AllocError>
        requires room { self.old.count < 255 }
        requires prev { IsLsn prev }
        requires last { LastFits last.now }
        ensures { OnOk result (Pushes self.old self.new (last_record table.now prev last.now) (last_size last.now)) }
    {
        make_head(&mut self.bytes)?;
        push_last_entry(&mut self.bytes, table, prev, last)?;
        self.count += 1;
        Ok(())
    }

    /// Adds that a statement was done.
    pub fn push_commit(&mut self) -> Result<(), AllocError>
        requires { self.old.count < 255 }
        ensures { OnOk result (Pushes self.old self.new AnyRecord.Commit 5) }
    {
        make_head(&mut self.bytes)?;
        push_commit_entry(&mut self.bytes)?;
        self.count += 1;
        Ok(())
    }

    /// Adds that a table of the format, 1 or 2, was made; `definition` is its stored definition.
    pub fn push_create(
        &mut self,
        table: &Name,
        plain: bool,
        definition: &[u8],
        format: u8,
    ) -> Result<(), AllocError>
        requires room { self.old.count < 255 }
        requires known { (format ≡ 1) ⊎ (format ≡ 2) }
        requires spelled { IsTrue (is_some (read_definition definition.now)) }
        requires size { length definition.now ≤ 2 ^ 20 }
        ensures { OnOk result (Pushes self.old self.new (AnyRecord.CreateTable table.now plain definition.now format) (71 + length definition.now)) }
    {
        make_head(&mut self.bytes)?;
        push_create_entry(&mut self.bytes, table, plain, definition, format)?;
        self.count += 1;
        Ok(())
    }

    /// Adds that a table was dropped.
    pub fn push_drop(&mut self, table: &Name) -> Result<(), AllocError>
        requires { self.old.count < 255 }
        ensures { OnOk result (Pushes self.old self.new (AnyRecord.DropTable table.now) 70) }
    {
        make_head(&mut self.bytes)?;
        push_drop_entry(&mut self.bytes, table)?;
        self.count += 1;
        Ok(())
    }

    /// Puts the length and the number of entries in front. More entries may be added afterwards.
    pub fn seal(&mut self)
        ensures sealed { (records : Seq AnyRecord) → Writes self.old records → IsTrue (is_group records) → self.new.bytes ≡ group_bytes records }
        ensures group { (records : Seq AnyRecord) → Writes self.old records → IsTrue (is_group records) → IsGroup records }
        ensures same { (records : Seq AnyRecord) → Writes self.old records → Writes self.new records }
    {
        let count = self.count;
        let size = self.bytes.len();
        if size < HEAD_BYTES {
            return;
        }
        if size > u32::MAX as usize {
            return;
        }
        fill_head(&mut self.bytes, count);
    }

    /// The bytes of the group that was sealed.
    pub fn as_slice(&self) -> &[u8]
        ensures { result.now ≡ self.now.bytes }
    {
        self.bytes.as_slice()
    }

    /// The bytes of the group.
    pub fn finish(&mut self) -> &[u8]
        ensures spelled { (records : Seq AnyRecord) → Writes self.old records → IsTrue (is_group records) → result.now ≡ group_bytes records }
        ensures group { (records : Seq AnyRecord) → Writes self.old records → IsTrue (is_group records) → IsGroup records }
        ensures size { (records : Seq AnyRecord) → Writes self.old records → IsTrue (is_group records) → length result.now ≡ size_of self.old }
    {
        self.seal();
        self.bytes.as_slice()
    }
}
