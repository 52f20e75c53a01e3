//! The lines that are told (docs/TOOLS.md).

ghost use Rattle.std.specs.Prelude.{◌≡◌, ◌++◌, codes, OnOk};
ghost use Rattle.std.specs.String.{string_bytes};
ghost use Rattle.aria_page.specs.Lsn.{lsn_text};
ghost use Rattle.aria_readlog.specs.Line.{redo_name, kind_name, part_name, redo_text, row_text, key_text, clr_text, checkpoint_text, table_text, details, record_line, group_lines, rest_line, last_line};

use aria_page::{Lsn, Name, Part, Place, RedoKind};
use aria_record::{Record, RecordKind};
use std::alloc::AllocError;
use std::fmt::Write;
use std::str;

fn redo_name(kind: RedoKind) -> &'static str
    ensures { result.now ≡ redo_name kind }
{
    match kind {
        RedoKind::InsertRowHead => "REDO_INSERT_ROW_HEAD",
        RedoKind::InsertRowTail => "REDO_INSERT_ROW_TAIL",
        RedoKind::InsertRowBlobs => "REDO_INSERT_ROW_BLOBS",
        RedoKind::PurgeRowHead => "REDO_PURGE_ROW_HEAD",
        RedoKind::PurgeRowTail => "REDO_PURGE_ROW_TAIL",
        RedoKind::FreeBlocks => "REDO_FREE_BLOCKS",
        RedoKind::Index => "REDO_INDEX",
        RedoKind::IndexNewPage => "REDO_INDEX_NEW_PAGE",
        RedoKind::IndexFreePage => "REDO_INDEX_FREE_PAGE",
        RedoKind::Bitmap => "REDO_BITMAP",
        RedoKind::State => "REDO_STATE",
    }
}

fn kind_name(kind: RecordKind) -> &'static str
    ensures { result.now ≡ kind_name kind }
{
    match kind {
        RecordKind::Redo(kind) => redo_name(kind),
        RecordKind::RowInsert => "UNDO_ROW_INSERT",
        RecordKind::RowDelete => "UNDO_ROW_DELETE",
        RecordKind::KeyInsert => "UNDO_KEY_INSERT",
        RecordKind::KeyDelete => "UNDO_KEY_DELETE",
        RecordKind::ClrEnd => "CLR_END",
        RecordKind::Commit => "COMMIT",
        RecordKind::Checkpoint => "CHECKPOINT",
        RecordKind::CreateTable => "REDO_CREATE_TABLE",
        RecordKind::DropTable => "REDO_DROP_TABLE",
        RecordKind::RepairTable => "REDO_REPAIR_TABLE",
    }
}

fn part_name(part: Part) -> &'static str
    ensures { result.now ≡ part_name part }
{
    match part {
        Part::Keys => "index",
        Part::Rows => "data",
    }
}

// A name as text: its bytes are letters, digits and _.
fn word(name: &Name) -> &str
    ensures { result.now ≡ name.now }
{
    let Ok(word) = str::from_utf8(name.as_slice()) else {
        unreachable!();
    };
    word
}

fn push_redo(
    out: &mut String,
    table: &Name,
    part: Part,
    page: u32,
    edits: usize,
) -> Result<(), AllocError>
    ensures { OnOk result (string_bytes out.new ≡ string_bytes out.old ++ redo_text table.now part page edits) }
{
    let table = word(table);
    let part = part_name(part);
    write!(out, " {table} part {part} page {page} edits {edits}")
}

fn push_row(out: &mut String, table: &Name, prev: Lsn, head: Place) -> Result<(), AllocError>
    ensures { OnOk result (string_bytes out.new ≡ string_bytes out.old ++ row_text table.now prev head) }
{
    let table = word(table);
    let Place { page, slot } = head;
    write!(out, " {table} prev {prev} place {page} {slot}")
}

fn push_key(out: &mut String, table: &Name, prev: Lsn, key: u8) -> Result<(), AllocError>
    ensures { OnOk result (string_bytes out.new ≡ string_bytes out.old ++ key_text table.now prev key) }
{
    let table = word(table);
    write!(out, " {table} key {key} prev {prev}")
}

fn push_clr(out: &mut String, table: &Name, undone: Lsn, next: Lsn) -> Result<(), AllocError>
    ensures { OnOk result (string_bytes out.new ≡ string_bytes out.old ++ clr_text table.now undone next) }
{
    let table = word(table);
    write!(out, " {table} undone {undone} next {next}")
}

fn push_checkpoint(out: &mut String, redo: Lsn, dirty: usize) -> Result<(), AllocError>
    ensures { OnOk result (string_bytes out.new ≡ string_bytes out.old ++ checkpoint_text redo dirty) }
{
    write!(out, " redo {redo} dirty {dirty}")
}

fn push_table(out: &mut String, table: &Name) -> Result<(), AllocError>
    ensures { OnOk result (string_bytes out.new ≡ string_bytes out.old ++ table_text table.now) }
{
    let table = word(table);
    write!(out, " {table}")
}

// What is told of a record behind its kind.
fn push_details(out: &mut String, entry: &Record) -> Result<(), AllocError>
    ensures { OnOk result (string_bytes out.new ≡ string_bytes out.old ++ details entry.now) }
{
    match entry {
        Record::Redo {
            table,
            part,
            page,
            edits,
            ..
        } => push_redo(out, table, *part, *page, edits.len()),
        Record::UndoRowInsert {
            table,
            prev,
            places,
        } => push_row(out, table, *prev, places.head),
        Record::UndoRowDelete {
            table,
            prev,
            places,
            ..
        } => push_row(out, table, *prev, places.head),
        Record::UndoKeyInsert {
            table,
            prev,
            key,
            ..
        } => push_key(out, table, *prev, *key),
        Record::UndoKeyDelete {
            table,
            prev,
            key,
            ..
        } => push_key(out, table, *prev, *key),
        Record::ClrEnd {
            table,
            undone,
            next,
        } => push_clr(out, table, *undone, *next),
        Record::Commit => Ok(()),
        Record::Checkpoint { redo, dirty } => push_checkpoint(out, *redo, dirty.len()),
        Record::CreateTable { table, .. } => push_table(out, table),
        Record::DropTable { table } => push_table(out, table),
        Record::RepairTable { table } => push_table(out, table),
    }
}

// The group's number and the record's kind.
fn push_kind(out: &mut String, lsn: Lsn, kind: RecordKind) -> Result<(), AllocError>
    ensures { OnOk result (string_bytes out.new ≡ string_bytes out.old ++ (lsn_text lsn ++ (codes " " ++ kind_name kind))) }
{
    let kind = kind_name(kind);
    write!(out, "{lsn} {kind}")
}

// Adds the line of a record.
#[tactic(auto, unfolding(crate::specs::Line::record_line))]
fn push_record(out: &mut String, lsn: Lsn, entry: &Record) -> Result<(), AllocError>
    ensures { OnOk result (string_bytes out.new ≡ string_bytes out.old ++ record_line lsn entry.now) }
{
    push_kind(out, lsn, entry.kind())?;
    push_details(out, entry)?;
    out.push('\n')
}

/// Adds a line for each record of a group. After an `Err` what `out` holds is not to be told.
pub(crate) fn push_group(out: &mut String, lsn: Lsn, group: &[Record]) -> Result<(), AllocError>
    ensures { OnOk result (string_bytes out.new ≡ string_bytes out.old ++ group_lines lsn group.now) }
{
    for entry in group {
        push_record(out, lsn, entry)?;
    }
    Ok(())
}

/// Adds the line of a void rest of so many bytes.
#[tactic(auto, unfolding(crate::specs::Line::rest_line))]
pub(crate) fn push_rest(out: &mut String, lsn: Lsn, bytes: u64) -> Result<(), AllocError>
    ensures { OnOk result (string_bytes out.new ≡ string_bytes out.old ++ rest_line lsn bytes) }
{
    writeln!(out, "{lsn} INCOMPLETE_GROUP {bytes}")
}

/// Adds the last line.
#[tactic(auto, unfolding(crate::specs::Line::last_line))]
pub(crate) fn push_last(out: &mut String, groups: u64, rests: u64) -> Result<(), AllocError>
    ensures { OnOk result (string_bytes out.new ≡ string_bytes out.old ++ last_line groups rests) }
{
    writeln!(out, "groups {groups} incomplete {rests}")
}
