//! What a group of the log that changes a table is made of: redo entries, and one last entry.

use crate::list::Bytes;
use crate::lsn::Lsn;
use crate::place::Places;

/// Why a page was changed, for readers of the log. It doesn't decide what is changed: the edits do.
///
/// The numbers are those that the kinds have in the log.
#[derive(Clone, Copy, Debug, PartialEq, Eq)]
pub enum RedoKind {
    InsertRowHead = 1,
    InsertRowTail = 2,
    InsertRowBlobs = 3,
    PurgeRowHead = 4,
    PurgeRowTail = 5,
    FreeBlocks = 6,
    Index = 7,
    IndexNewPage = 8,
    IndexFreePage = 9,
    Bitmap = 20,
    State = 21,
}

/// What ends a group of edits: how they are undone, or what they have undone.
#[derive(Debug, Drop)]
pub enum Last {
    /// A row was put at these places.
    RowInsert { places: Places },
    /// A row was taken from these places; `row` is the stored row.
    RowDelete { places: Places, row: Bytes },
    /// An entry of a key, counted from 0, was put with this target.
    KeyInsert { key: u8, target: u64, entry: Bytes },
    /// An entry of a key, counted from 0, was taken with this target.
    KeyDelete { key: u8, target: u64, entry: Bytes },
    /// The record at `undone` was undone; the next to be undone is at `next`.
    Clr { undone: Lsn, next: Lsn },
}
