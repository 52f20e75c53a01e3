//! Records as they are stored: a byte for the kind, the length of the body, and the body.

ghost use Rattle.std.specs.Prelude.{◌≡◌, ◌+◌, ◌^◌, ◌<◌, ◌≤◌, ◌⊎◌, ◌++◌, length, take, drop, All, IfOk, OnOk, is_some};
ghost use Rattle.std.specs.List.{flat_map};
ghost use Rattle.aria_page.specs.Edit.{IsWithin};
ghost use Rattle.aria_page.specs.Field.{Gives};
ghost use Rattle.aria_page.specs.Items.{list_bytes};
ghost use Rattle.aria_page.specs.Lsn.{lsn_bytes};
ghost use Rattle.aria_page.specs.Number.{number};
ghost use Rattle.aria_page.specs.Text.{name_bytes};
ghost use Rattle.aria_value.specs.Reading.{read_definition};
ghost use Rattle.aria_record.specs.Groups.{BodyFits};
ghost use Rattle.aria_record.specs.RecordKind.{kind_byte};
ghost use Rattle.aria_record.specs.Spelled.{part_bytes, edit_bytes, dirty_bytes, table_number, row_head, key_head, body_bytes, record_bytes};
ghost use Rattle.aria_record.specs.Reading.{read_dirty, read_dirties, read_redo, read_row_insert, read_row_delete, read_key_insert, read_key_delete, read_clr_end, read_commit, read_checkpoint, read_table_head, read_create, read_drop, read_repair, read_kind, read_body, read_record};

use crate::edit_codec::{edits_at, push_all_edits};
use crate::field_codec::{
    key_head_at, page_at, part_at, push_key_head, push_part, push_row_head, row_head_at, table_at,
    table_number,
};
use crate::record::{Dirty, Record};
use crate::record_kind::RecordKind;
use aria_page::{
    Bytes, Edit, List, Lsn, Name, Part, Places, RedoKind, Stored, counted_u32_at, items_at, lsn_at,
    name_at, push_items, push_lsn, push_name, push_u8, push_u32, u8_at, u32_at, u32_bytes,
};
use aria_value::decode_definition;
use std::alloc::{AllocError, Global};

// ---- bodies, written

fn push_page(out: &mut Bytes, part: Part, page: u32) -> Result<(), AllocError>
    ensures { OnOk result (out.new ≡ out.old ++ (part_bytes part ++ number 4 page)) }
{
    push_part(out, part)?;
    push_u32(out, page)
}

// The page that edits are made to.
pub(crate) fn push_redo_head(
    out: &mut Bytes,
    table: &Name,
    part: Part,
    page: u32,
) -> Result<(), AllocError>
    ensures { OnOk result (out.new ≡ out.old ++ (name_bytes table.now ++ (part_bytes part ++ number 4 page))) }
{
    push_name(out, table)?;
    push_page(out, part, page)
}

fn push_redo(
    out: &mut Bytes,
    table: &Name,
    part: Part,
    page: u32,
    edits: &[Edit],
) -> Result<(), AllocError>
    requires few { length edits.now < 256 }
    requires within { All IsWithin edits.now }
    ensures { OnOk result (out.new ≡ out.old ++ (name_bytes table.now ++ (part_bytes part ++ (number 4 page ++ list_bytes edit_bytes edits.now)))) }
{
    push_redo_head(out, table, part, page)?;
    push_all_edits(out, edits)
}

// A row that was put or taken, behind its table and its places.
pub(crate) fn push_row(
    out: &mut Bytes,
    table: &Name,
    prev: Lsn,
    places: Places,
    row: &[u8],
) -> Result<(), AllocError>
    ensures { OnOk result (out.new ≡ out.old ++ (row_head table.now prev places ++ row.now)) }
{
    push_row_head(out, table, prev, places)?;
    out.extend_from_slice(row)
}

pub(crate) fn push_key(
    out: &mut Bytes,
    table: &Name,
    prev: Lsn,
    key: u8,
    target: u64,
    entry: &[u8],
) -> Result<(), AllocError>
    ensures { OnOk result (out.new ≡ out.old ++ (key_head table.now prev key target ++ entry.now)) }
{
    push_key_head(out, table, prev, key, target)?;
    out.extend_from_slice(entry)
}

fn push_two(out: &mut Bytes, undone: Lsn, next: Lsn) -> Result<(), AllocError>
    ensures { OnOk result (out.new ≡ out.old ++ (lsn_bytes undone ++ lsn_bytes next)) }
{
    push_lsn(out, undone)?;
    push_lsn(out, next)
}

pub(crate) fn push_clr(
    out: &mut Bytes,
    table: &Name,
    undone: Lsn,
    next: Lsn,
) -> Result<(), AllocError>
    ensures { OnOk result (out.new ≡ out.old ++ (name_bytes table.now ++ (lsn_bytes undone ++ lsn_bytes next))) }
{
    push_name(out, table)?;
    push_two(out, undone, next)
}

fn push_page_since(out: &mut Bytes, page: u32, since: Lsn) -> Result<(), AllocError>
    ensures { OnOk result (out.new ≡ out.old ++ (number 4 page ++ lsn_bytes since)) }
{
    push_u32(out, page)?;
    push_lsn(out, since)
}

fn push_part_since(out: &mut Bytes, part: Part, page: u32, since: Lsn) -> Result<(), AllocError>
    ensures { OnOk result (out.new ≡ out.old ++ (part_bytes part ++ (number 4 page ++ lsn_bytes since))) }
{
    push_part(out, part)?;
    push_page_since(out, page, since)
}

impl Stored for Dirty {
    ghost use Rattle.aria_record.specs.Spelled.{dirty_bytes};
    ghost use Rattle.aria_record.specs.Reading.{read_dirty};

    ghost spelled = { dirty_bytes };

    ghost fits = { λ dirty. Unit {0} };

    ghost holds = { λ dirty. Unit {0} };

    ghost reads = { read_dirty };

    fn write(&self, out: &mut Bytes) -> Result<(), AllocError> {
        push_name(out, &self.table)?;
        push_part_since(out, self.part, self.page, self.since)
    }

    #[tactic(auto, unfolding(crate::specs::Reading::read_dirty, crate::specs::Reading::read_as, crate::specs::Reading::read_both))]
    fn read(_alloc: Global, bytes: &[u8]) -> Result<Option<(Dirty, &[u8])>, AllocError> {
        Ok(dirty_at(bytes))
    }
}

#[tactic(auto, unfolding(crate::specs::Reading::read_dirty, crate::specs::Reading::read_as, crate::specs::Reading::read_both))]
fn dirty_at(bytes: &[u8]) -> Option<(Dirty, &[u8])>
    ensures { Gives (λ x. (x.0, x.1.now)) result (read_dirty bytes.now) }
{
    match name_at(bytes) {
        None => None,
        Some((table, rest)) => {
            let (part, rest) = part_at(rest)?;
            let (page, rest) = page_at(rest)?;
            let (since, rest) = lsn_at(rest)?;
            let dirty = Dirty {
                table,
                part,
                page,
                since,
            };
            Some((dirty, rest))
        }
    }
}

fn push_all_dirties(out: &mut Bytes, dirty: &[Dirty]) -> Result<(), AllocError>
    requires { length dirty.now < 2 ^ 32 }
    ensures { OnOk result (out.new ≡ out.old ++ (number 4 (length dirty.now) ++ flat_map dirty_bytes dirty.now)) }
{
    push_u32(out, dirty.len() as u32)?;
    push_items(out, dirty)
}

fn push_checkpoint(out: &mut Bytes, redo: Lsn, dirty: &[Dirty]) -> Result<(), AllocError>
    requires { length dirty.now < 2 ^ 32 }
    ensures { OnOk result (out.new ≡ out.old ++ (lsn_bytes redo ++ (number 4 (length dirty.now) ++ flat_map dirty_bytes dirty.now))) }
{
    push_lsn(out, redo)?;
    push_all_dirties(out, dirty)
}

fn push_table(out: &mut Bytes, table: &Name, byte: u8) -> Result<(), AllocError>
    ensures { OnOk result (out.new ≡ out.old ++ (name_bytes table.now ++ number 1 byte)) }
{
    push_name(out, table)?;
    push_u8(out, byte)
}

pub(crate) fn push_create(
    out: &mut Bytes,
    table: &Name,
    plain: bool,
    definition: &[u8],
    format: u8,
) -> Result<(), AllocError>
    requires { (format ≡ 1) ⊎ (format ≡ 2) }
    ensures { OnOk result (out.new ≡ out.old ++ ((name_bytes table.now ++ number 1 (table_number plain format)) ++ definition.now)) }
{
    push_table(out, table, table_number(plain, format))?;
    out.extend_from_slice(definition)
}

fn push_body(out: &mut Bytes, entry: &Record) -> Result<(), AllocError>
    requires { BodyFits entry.now }
    ensures { OnOk result (out.new ≡ out.old ++ body_bytes entry.now) }
{
    match entry {
        Record::Redo {
            table,
            part,
            page,
            edits,
            ..
        } => push_redo(out, table, *part, *page, edits.as_slice()),
        Record::UndoRowInsert {
            table,
            prev,
            places,
        } => push_row_head(out, table, *prev, *places),
        Record::UndoRowDelete {
            table,
            prev,
            places,
            row,
        } => push_row(out, table, *prev, *places, row.as_slice()),
        Record::UndoKeyInsert {
            table,
            prev,
            key,
            target,
            entry,
        } => push_key(out, table, *prev, *key, *target, entry.as_slice()),
        Record::UndoKeyDelete {
            table,
            prev,
            key,
            target,
            entry,
        } => push_key(out, table, *prev, *key, *target, entry.as_slice()),
        Record::ClrEnd {
            table,
            undone,
            next,
        } => push_clr(out, table, *undone, *next),
        Record::Commit => Ok(()),
        Record::Checkpoint { redo, dirty } => push_checkpoint(out, *redo, dirty.as_slice()),
        Record::CreateTable {
            table,
            plain,
            definition,
            format,
        } => push_create(out, table, *plain, definition.as_slice(), *format),
        Record::DropTable { table } => push_name(out, table),
        Record::RepairTable { table } => push_name(out, table),
    }
}

// Puts the number of the bytes behind a place of 4 bytes into it.
pub(crate) fn set_length(out: &mut Bytes, at: usize)
    requires place { at + 4 ≤ length out.old }
    requires fits { length (drop (at + 4) out.old) < 2 ^ 32 }
    ensures { out.new ≡ take at out.old ++ (number 4 (length (drop (at + 4) out.old)) ++ drop (at + 4) out.old) }
{
    let count = out.len() - at - 4;
    out.overwrite(at, &u32_bytes(count as u32));
}

// Begins an entry: the byte of its kind, and a place of 4 bytes for its body's length. Says where the place is.
pub(crate) fn begin_entry(out: &mut Bytes, kind: RecordKind) -> Result<usize, AllocError>
    ensures place { IfOk result (λ at. at ≡ length (out.old ++ number 1 (kind_byte kind))) }
    ensures begun { OnOk result (out.new ≡ (out.old ++ number 1 (kind_byte kind)) ++ number 4 0) }
{
    push_u8(out, kind.to_byte())?;
    let at = out.len();
    push_u32(out, 0)?;
    Ok(at)
}

// ---- bodies, read

#[tactic(auto, unfolding(crate::specs::Reading::read_redo, crate::specs::Reading::read_redo_parts, crate::specs::Reading::read_whole, crate::specs::Reading::read_both))]
fn redo(alloc: Global, kind: RedoKind, body: &[u8]) -> Result<Option<Record>, AllocError>
    ensures { IfOk result (λ r. r ≡ read_redo kind body.now) }
{
    let Some((table, rest)) = name_at(body) else {
        return Ok(None);
    };
    let Some((part, rest)) = part_at(rest) else {
        return Ok(None);
    };
    let Some((page, rest)) = page_at(rest) else {
        return Ok(None);
    };
    match edits_at(alloc, rest)? {
        None => Ok(None),
        Some((edits, rest)) => {
            if !rest.is_empty() {
                return Ok(None);
            }
            Ok(Some(Record::Redo {
                kind,
                table,
                part,
                page,
                edits,
            }))
        }
    }
}

#[tactic(auto, unfolding(crate::specs::Reading::read_row_insert, crate::specs::Reading::read_whole))]
fn row_insert(body: &[u8]) -> Option<Record>
    ensures { result ≡ read_row_insert body.now }
{
    match row_head_at(body) {
        None => None,
        Some(((table, prev, places), rest)) => {
            if !rest.is_empty() {
                return None;
            }
            Some(Record::UndoRowInsert {
                table,
                prev,
                places,
            })
        }
    }
}

#[tactic(auto, unfolding(crate::specs::Reading::read_row_delete))]
fn row_delete(alloc: Global, body: &[u8]) -> Result<Option<Record>, AllocError>
    ensures { IfOk result (λ r. r ≡ read_row_delete body.now) }
{
    match row_head_at(body) {
        None => Ok(None),
        Some(((table, prev, places), rest)) => {
            let row = List::from_slice(alloc, rest)?;
            Ok(Some(Record::UndoRowDelete {
                table,
                prev,
                places,
                row,
            }))
        }
    }
}

#[tactic(auto, unfolding(crate::specs::Reading::read_key_insert))]
fn key_insert(alloc: Global, body: &[u8]) -> Result<Option<Record>, AllocError>
    ensures { IfOk result (λ r. r ≡ read_key_insert body.now) }
{
    match key_head_at(body) {
        None => Ok(None),
        Some(((table, prev, key, target), rest)) => {
            let entry = List::from_slice(alloc, rest)?;
            Ok(Some(Record::UndoKeyInsert {
                table,
                prev,
                key,
                target,
                entry,
            }))
        }
    }
}

#[tactic(auto, unfolding(crate::specs::Reading::read_key_delete))]
fn key_delete(alloc: Global, body: &[u8]) -> Result<Option<Record>, AllocError>
    ensures { IfOk result (λ r. r ≡ read_key_delete body.now) }
{
    match key_head_at(body) {
        None => Ok(None),
        Some(((table, prev, key, target), rest)) => {
            let entry = List::from_slice(alloc, rest)?;
            Ok(Some(Record::UndoKeyDelete {
                table,
                prev,
                key,
                target,
                entry,
            }))
        }
    }
}

#[tactic(auto, unfolding(crate::specs::Reading::read_clr_end, crate::specs::Reading::read_clr_parts, crate::specs::Reading::read_whole, crate::specs::Reading::read_both))]
fn clr_end(body: &[u8]) -> Option<Record>
    ensures { result ≡ read_clr_end body.now }
{
    match name_at(body) {
        None => None,
        Some((table, rest)) => {
            let (undone, rest) = lsn_at(rest)?;
            let (next, rest) = lsn_at(rest)?;
            if !rest.is_empty() {
                return None;
            }
            Some(Record::ClrEnd {
                table,
                undone,
                next,
            })
        }
    }
}

#[tactic(auto, unfolding(crate::specs::Reading::read_commit))]
fn commit(body: &[u8]) -> Option<Record>
    ensures { result ≡ read_commit body.now }
{
    if body.is_empty() {
        Some(Record::Commit)
    } else {
        None
    }
}

// Changed pages behind 4 bytes with their number, and the bytes after them.
#[tactic(auto, unfolding(crate::specs::Reading::read_dirties))]
fn dirties_at(alloc: Global, bytes: &[u8]) -> Result<Option<(List<Dirty>, &[u8])>, AllocError>
    ensures { IfOk result (λ r. Gives (λ x. (x.0, x.1.now)) r (read_dirties bytes.now)) }
{
    match u32_at(bytes) {
        None => Ok(None),
        Some((count, rest)) => items_at::<Dirty>(alloc, count as usize, rest),
    }
}

#[tactic(auto, unfolding(crate::specs::Reading::read_checkpoint, crate::specs::Reading::read_checkpoint_parts, crate::specs::Reading::read_whole, crate::specs::Reading::read_both))]
fn checkpoint(alloc: Global, body: &[u8]) -> Result<Option<Record>, AllocError>
    ensures { IfOk result (λ r. r ≡ read_checkpoint body.now) }
{
    let Some((redo, rest)) = lsn_at(body) else {
        return Ok(None);
    };
    match dirties_at(alloc, rest)? {
        None => Ok(None),
        Some((dirty, rest)) => {
            if !rest.is_empty() {
                return Ok(None);
            }
            Ok(Some(Record::Checkpoint { redo, dirty }))
        }
    }
}

// The table, whether it is plain, and its format.
#[tactic(auto, unfolding(crate::specs::Reading::read_table_head, crate::specs::Reading::read_both))]
fn table_head_at(body: &[u8]) -> Option<((Name, bool, u8), &[u8])>
    ensures { Gives (λ x. ((x.0.0, (x.0.1, x.0.2)), x.1.now)) result (read_table_head body.now) }
{
    match name_at(body) {
        None => None,
        Some((table, rest)) => {
            let ((plain, format), rest) = table_at(rest)?;
            Some(((table, plain, format), rest))
        }
    }
}

// Whether the bytes spell a definition.
fn is_definition(alloc: Global, bytes: &[u8]) -> Result<bool, AllocError>
    ensures { IfOk result (λ b. b ≡ is_some (read_definition bytes.now)) }
{
    Ok(decode_definition(alloc, bytes)?.is_some())
}

#[tactic(auto, unfolding(crate::specs::Reading::read_create))]
fn create(alloc: Global, body: &[u8]) -> Result<Option<Record>, AllocError>
    ensures { IfOk result (λ r. r ≡ read_create body.now) }
{
    match table_head_at(body) {
        None => Ok(None),
        Some(((table, plain, format), rest)) => {
            if !is_definition(alloc, rest)? {
                return Ok(None);
            }
            let definition = List::from_slice(alloc, rest)?;
            Ok(Some(Record::CreateTable {
                table,
                plain,
                definition,
                format,
            }))
        }
    }
}

#[tactic(auto, unfolding(crate::specs::Reading::read_drop, crate::specs::Reading::read_whole))]
fn drop_table(body: &[u8]) -> Option<Record>
    ensures { result ≡ read_drop body.now }
{
    match name_at(body) {
        None => None,
        Some((table, rest)) => {
            if !rest.is_empty() {
                return None;
            }
            Some(Record::DropTable { table })
        }
    }
}

#[tactic(auto, unfolding(crate::specs::Reading::read_repair, crate::specs::Reading::read_whole))]
fn repair_table(body: &[u8]) -> Option<Record>
    ensures { result ≡ read_repair body.now }
{
    match name_at(body) {
        None => None,
        Some((table, rest)) => {
            if !rest.is_empty() {
                return None;
            }
            Some(Record::RepairTable { table })
        }
    }
}

// The record of a kind that a body spells.
fn record_of(alloc: Global, kind: RecordKind, body: &[u8]) -> Result<Option<Record>, AllocError>
    ensures { IfOk result (λ r. r ≡ read_kind kind body.now) }
{
    match kind {
        RecordKind::Redo(kind) => redo(alloc, kind, body),
        RecordKind::RowInsert => Ok(row_insert(body)),
        RecordKind::RowDelete => row_delete(alloc, body),
        RecordKind::KeyInsert => key_insert(alloc, body),
        RecordKind::KeyDelete => key_delete(alloc, body),
        RecordKind::ClrEnd => Ok(clr_end(body)),
        RecordKind::Commit => Ok(commit(body)),
        RecordKind::Checkpoint => checkpoint(alloc, body),
        RecordKind::CreateTable => create(alloc, body),
        RecordKind::DropTable => Ok(drop_table(body)),
        RecordKind::RepairTable => Ok(repair_table(body)),
    }
}

// The record that a body spells behind the byte of its kind.
#[tactic(auto, unfolding(crate::specs::Reading::read_body))]
fn body_of(alloc: Global, byte: u8, body: &[u8]) -> Result<Option<Record>, AllocError>
    ensures { IfOk result (λ r. r ≡ read_body byte body.now) }
{
    match RecordKind::from_byte(byte) {
        None => Ok(None),
        Some(kind) => record_of(alloc, kind, body),
    }
}

impl Stored for Record {
    ghost use Rattle.aria_record.specs.Groups.{RecordFits};
    ghost use Rattle.aria_record.specs.Spelled.{record_bytes};
    ghost use Rattle.aria_record.specs.Reading.{read_record};

    ghost spelled = { record_bytes };

    ghost fits = { RecordFits };

    ghost holds = { λ r. Unit {0} };

    ghost reads = { read_record };

    fn write(&self, out: &mut Bytes) -> Result<(), AllocError> {
        let at = begin_entry(out, self.kind())?;
        push_body(out, self)?;
        set_length(out, at);
        Ok(())
    }

    #[tactic(auto, unfolding(crate::specs::Reading::read_record))]
    fn read(alloc: Global, bytes: &[u8]) -> Result<Option<(Record, &[u8])>, AllocError> {
        match u8_at(bytes) {
            None => Ok(None),
            Some((kind, rest)) => match counted_u32_at(rest) {
                None => Ok(None),
                Some((body, after)) => match body_of(alloc, kind, body)? {
                    None => Ok(None),
                    Some(record) => Ok(Some((record, after))),
                },
            },
        }
    }
}
