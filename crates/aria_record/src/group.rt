//! Groups of records, and which lists of records are one.

ghost use Rattle.std.specs.Prelude.{◌≡◌};
ghost use Rattle.aria_record.specs.Groups.{is_redo, is_last, is_edited, is_alone, is_group};

use crate::record::Record;
use aria_page::List;

/// What the log has as one step.
pub type Group = List<Record>;

fn is_redo(entry: &Record) -> bool
    ensures { result ≡ is_redo entry.now }
{
    matches!(entry, Record::Redo { .. })
}

fn is_last(entry: &Record) -> bool
    ensures { result ≡ is_last entry.now }
{
    matches!(
        entry,
        Record::UndoRowInsert { .. }
            | Record::UndoRowDelete { .. }
            | Record::UndoKeyInsert { .. }
            | Record::UndoKeyDelete { .. }
            | Record::ClrEnd { .. }
    )
}

// Edits, and one entry that ends them.
fn is_edited(records: &[Record]) -> bool
    ensures { result ≡ is_edited records.now }
{
    for (i, record) in records.iter().enumerate() {
        if records.len() - i == 1 {
            return is_last(record);
        }
        if !is_redo(record) {
            return false;
        }
    }
    false
}

// One entry that stands alone.
fn is_alone(records: &[Record]) -> bool
    ensures { result ≡ is_alone records.now }
{
    match records {
        [record] => !is_redo(record) && !is_last(record),
        _ => false,
    }
}

pub(crate) fn is_group(records: &[Record]) -> bool
    ensures { result ≡ is_group records.now }
{
    is_edited(records) || is_alone(records)
}
