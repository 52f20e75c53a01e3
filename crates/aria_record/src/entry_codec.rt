//! Entries of groups written from what they are made of, without a `Record`.

ghost use Rattle.std.specs.Prelude.{◌≡◌, ℕ, ◌+◌, ◌^◌, ◌<◌, ◌≤◌, ◌⊎◌, ◌++◌, List as Seq, length, All, IsTrue, is_some, OnOk};
ghost use Rattle.aria_page.specs.declared.lsn.Lsn.{Lsn as AnyLsn};
ghost use Rattle.aria_page.specs.Change.{edit_of, edits_of};
ghost use Rattle.aria_page.specs.Edit.{IsWithin};
ghost use Rattle.aria_page.specs.Items.{list_bytes};
ghost use Rattle.aria_page.specs.Lsn.{IsLsn};
ghost use Rattle.aria_page.specs.Number.{number};
ghost use Rattle.aria_page.specs.Text.{name_bytes};
ghost use Rattle.aria_value.specs.Reading.{read_definition};
ghost use Rattle.aria_record.specs.declared.record.Record.{Record as AnyRecord};
ghost use Rattle.aria_record.specs.RecordKind.{kind_of};
ghost use Rattle.aria_record.specs.Spelled.{part_bytes, edit_bytes, body_bytes};
ghost use Rattle.aria_record.specs.Writing.{last_record, LastFits, redo_size, last_size, Adds};

use crate::edit_codec::push_all_changes;
use crate::field_codec::push_row_head;
use crate::record_codec::{
    begin_entry, push_clr, push_create, push_key, push_redo_head, push_row, set_length,
};
use crate::record_kind::RecordKind;
use aria_page::{Bytes, Change, Last, Lsn, Name, Part, RedoKind, push_name};
use std::alloc::AllocError;

fn push_redo_body(
    out: &mut Bytes,
    table: &Name,
    part: Part,
    page: u32,
    edits: &[Change<'_>],
) -> Result<(), AllocError>
    requires few { length edits.now < 256 }
    requires within { All (λ e. IsWithin (edit_of e)) edits.now }
    ensures { OnOk result (out.new ≡ out.old ++ (name_bytes table.now ++ (part_bytes part ++ (number 4 page ++ list_bytes edit_bytes (edits_of edits.now))))) }
{
    push_redo_head(out, table, part, page)?;
    push_all_changes(out, edits)
}

// Edits of a page.
pub(crate) fn push_redo_entry(
    out: &mut Bytes,
    kind: RedoKind,
    table: &Name,
    part: Part,
    page: u32,
    edits: &[Change<'_>],
) -> Result<(), AllocError>
    requires page { page < 2 ^ 31 }
    requires some { 1 ≤ length edits.now }
    requires few { length edits.now < 256 }
    requires within { All (λ e. IsWithin (edit_of e)) edits.now }
    ensures { OnOk result (Adds out.old out.new (AnyRecord.Redo kind table.now part page (edits_of edits.now)) (redo_size (edits_of edits.now))) }
{
    let _word = table.as_slice();
    let at = begin_entry(out, RecordKind::Redo(kind))?;
    push_redo_body(out, table, part, page, edits)?;
    set_length(out, at);
    Ok(())
}

fn last_kind(last: &Last) -> RecordKind
    ensures { (table : Seq ℕ) (prev : AnyLsn) → result ≡ kind_of (last_record table prev last.now) }
{
    match last {
        Last::RowInsert { .. } => RecordKind::RowInsert,
        Last::RowDelete { .. } => RecordKind::RowDelete,
        Last::KeyInsert { .. } => RecordKind::KeyInsert,
        Last::KeyDelete { .. } => RecordKind::KeyDelete,
        Last::Clr { .. } => RecordKind::ClrEnd,
    }
}

fn push_last_body(out: &mut Bytes, table: &Name, prev: Lsn, last: &Last) -> Result<(), AllocError>
    ensures { OnOk result (out.new ≡ out.old ++ body_bytes (last_record table.now prev last.now)) }
{
    match last {
        Last::RowInsert { places } => push_row_head(out, table, prev, *places),
        Last::RowDelete { places, row } => push_row(out, table, prev, *places, row.as_slice()),
        Last::KeyInsert { key, target, entry } => {
            push_key(out, table, prev, *key, *target, entry.as_slice())
        }
        Last::KeyDelete { key, target, entry } => {
            push_key(out, table, prev, *key, *target, entry.as_slice())
        }
        Last::Clr { undone, next } => push_clr(out, table, *undone, *next),
    }
}

// What ends a group of edits.
pub(crate) fn push_last_entry(
    out: &mut Bytes,
    table: &Name,
    prev: Lsn,
    last: &Last,
) -> Result<(), AllocError>
    requires prev { IsLsn prev }
    requires last { LastFits last.now }
    ensures { OnOk result (Adds out.old out.new (last_record table.now prev last.now) (last_size last.now)) }
{
    let _word = table.as_slice();
    let at = begin_entry(out, last_kind(last))?;
    push_last_body(out, table, prev, last)?;
    set_length(out, at);
    Ok(())
}

// A statement that was done.
pub(crate) fn push_commit_entry(out: &mut Bytes) -> Result<(), AllocError>
    ensures { OnOk result (Adds out.old out.new AnyRecord.Commit 5) }
{
    let at = begin_entry(out, RecordKind::Commit)?;
    set_length(out, at);
    Ok(())
}

// A table that was made.
pub(crate) fn push_create_entry(
    out: &mut Bytes,
    table: &Name,
    plain: bool,
    definition: &[u8],
    format: u8,
) -> Result<(), AllocError>
    requires known { (format ≡ 1) ⊎ (format ≡ 2) }
    requires spelled { IsTrue (is_some (read_definition definition.now)) }
    requires size { length definition.now ≤ 2 ^ 20 }
    ensures { OnOk result (Adds out.old out.new (AnyRecord.CreateTable table.now plain definition.now format) (71 + length definition.now)) }
{
    let _word = table.as_slice();
    let at = begin_entry(out, RecordKind::CreateTable)?;
    push_create(out, table, plain, definition, format)?;
    set_length(out, at);
    Ok(())
}

// A table that was dropped.
pub(crate) fn push_drop_entry(out: &mut Bytes, table: &Name) -> Result<(), AllocError>
    ensures { OnOk result (Adds out.old out.new (AnyRecord.DropTable table.now) 70) }
{
    let _word = table.as_slice();
    let at = begin_entry(out, RecordKind::DropTable)?;
    push_name(out, table)?;
    set_length(out, at);
    Ok(())
}
