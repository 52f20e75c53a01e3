//! What a group is in the chain of undo records.

ghost use Rattle.std.specs.Prelude.{◌≡◌};
ghost use Rattle.aria_recovery.specs.Pending.{link_in, link_of};

use aria_page::Lsn;
use aria_record::Record;

/// What a group is in the chain of undo records.
#[derive(Clone, Copy)]
pub(crate) enum Link {
    /// It can be undone, and this is the undo record before it.
    Undo(Lsn),
    /// It has undone the first of these, and the second is to be undone next.
    Undone(Lsn, Lsn),
    /// It ends a statement.
    Ends,
    /// None of these.
    Loose,
}

fn link_in(entry: &Record) -> Link
    ensures { result ≡ link_in entry.now }
{
    match entry {
        Record::UndoRowInsert { prev, .. } => Link::Undo(*prev),
        Record::UndoRowDelete { prev, .. } => Link::Undo(*prev),
        Record::UndoKeyInsert { prev, .. } => Link::Undo(*prev),
        Record::UndoKeyDelete { prev, .. } => Link::Undo(*prev),
        Record::ClrEnd { undone, next, .. } => Link::Undone(*undone, *next),
        Record::Commit => Link::Ends,
        _ => Link::Loose,
    }
}

/// A group is what its last record is.
pub(crate) fn link_of(records: &[Record]) -> Link
    ensures { result ≡ link_of records.now }
{
    match records.last() {
        Some(entry) => link_in(entry),
        None => Link::Loose,
    }
}
