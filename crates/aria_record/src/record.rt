ghost use Rattle.std.specs.Prelude.{◌≡◌};
ghost use Rattle.aria_record.specs.RecordKind.{kind_of};

use crate::record_kind::RecordKind;
use aria_page::{Bytes, Edit, List, Lsn, Name, Part, Places, RedoKind};

/// A page that was changed and isn't written yet, and the first log entry that changed it since it was.
#[derive(Clone, Copy, Debug)]
pub struct Dirty {
    pub table: Name,
    pub part: Part,
    pub page: u32,
    pub since: Lsn,
}

/// An entry of a group.
#[derive(Debug, Drop)]
pub enum Record {
    /// Edits of a page of a table.
    Redo {
        kind: RedoKind,
        table: Name,
        part: Part,
        page: u32,
        edits: List<Edit>,
    },
    /// A row was put at these places. `prev` is the undo record before this one.
    UndoRowInsert {
        table: Name,
        prev: Lsn,
        places: Places,
    },
    /// A row was taken from these places; `row` is what was kept of it.
    UndoRowDelete {
        table: Name,
        prev: Lsn,
        places: Places,
        row: Bytes,
    },
    /// An entry of a key, counted from 0, was put with this target.
    UndoKeyInsert {
        table: Name,
        prev: Lsn,
        key: u8,
        target: u64,
        entry: Bytes,
    },
    /// An entry of a key, counted from 0, was taken with this target.
    UndoKeyDelete {
        table: Name,
        prev: Lsn,
        key: u8,
        target: u64,
        entry: Bytes,
    },
    /// The record at `undone` was undone; the next to be undone is at `next`.
    ClrEnd {
        table: Name,
        undone: Lsn,
        next: Lsn,
    },
    /// A statement was done.
    Commit,
    /// Redo may start at `redo`, and these pages weren't written then.
    Checkpoint {
        redo: Lsn,
        dirty: List<Dirty>,
    },
    /// A table of the format, 1 or 2, was made; `definition` is its stored definition.
    CreateTable {
        table: Name,
        plain: bool,
        definition: Bytes,
        format: u8,
    },
    DropTable {
        table: Name,
    },
    RepairTable {
        table: Name,
    },
}

impl Record {
    pub fn kind(&self) -> RecordKind
        ensures { result ≡ kind_of self.now }
    {
        match self {
            Record::Redo { kind, .. } => RecordKind::Redo(*kind),
            Record::UndoRowInsert { .. } => RecordKind::RowInsert,
            Record::UndoRowDelete { .. } => RecordKind::RowDelete,
            Record::UndoKeyInsert { .. } => RecordKind::KeyInsert,
            Record::UndoKeyDelete { .. } => RecordKind::KeyDelete,
            Record::ClrEnd { .. } => RecordKind::ClrEnd,
            Record::Commit => RecordKind::Commit,
            Record::Checkpoint { .. } => RecordKind::Checkpoint,
            Record::CreateTable { .. } => RecordKind::CreateTable,
            Record::DropTable { .. } => RecordKind::DropTable,
            Record::RepairTable { .. } => RecordKind::RepairTable,
        }
    }
}
