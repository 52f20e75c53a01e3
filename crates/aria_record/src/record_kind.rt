ghost use Rattle.std.specs.Prelude.{◌≡◌, IfSome, Some};
ghost use Rattle.aria_record.specs.declared.record_kind.RecordKind.{RecordKind as AnyKind};
ghost use Rattle.aria_record.specs.RecordKind.{redo_byte, kind_byte, kind_with};

use aria_page::RedoKind;

/// What a record is: the byte that it begins with says so (docs/FORMATS.md, "Groups").
#[derive(Clone, Copy, Debug, PartialEq, Eq)]
pub enum RecordKind {
    Redo(RedoKind),
    RowInsert,
    RowDelete,
    KeyInsert,
    KeyDelete,
    ClrEnd,
    Commit,
    Checkpoint,
    CreateTable,
    DropTable,
    RepairTable,
}

fn redo_byte(kind: RedoKind) -> u8
    ensures { result ≡ redo_byte kind }
{
    match kind {
        RedoKind::InsertRowHead => 1,
        RedoKind::InsertRowTail => 2,
        RedoKind::InsertRowBlobs => 3,
        RedoKind::PurgeRowHead => 4,
        RedoKind::PurgeRowTail => 5,
        RedoKind::FreeBlocks => 6,
        RedoKind::Index => 7,
        RedoKind::IndexNewPage => 8,
        RedoKind::IndexFreePage => 9,
        RedoKind::Bitmap => 20,
        RedoKind::State => 21,
    }
}

fn kind_with(byte: u8) -> Option<RecordKind>
    ensures { result ≡ kind_with byte }
{
    match byte {
        1 => Some(RecordKind::Redo(RedoKind::InsertRowHead)),
        2 => Some(RecordKind::Redo(RedoKind::InsertRowTail)),
        3 => Some(RecordKind::Redo(RedoKind::InsertRowBlobs)),
        4 => Some(RecordKind::Redo(RedoKind::PurgeRowHead)),
        5 => Some(RecordKind::Redo(RedoKind::PurgeRowTail)),
        6 => Some(RecordKind::Redo(RedoKind::FreeBlocks)),
        7 => Some(RecordKind::Redo(RedoKind::Index)),
        8 => Some(RecordKind::Redo(RedoKind::IndexNewPage)),
        9 => Some(RecordKind::Redo(RedoKind::IndexFreePage)),
        10 => Some(RecordKind::RowInsert),
        11 => Some(RecordKind::RowDelete),
        12 => Some(RecordKind::KeyInsert),
        13 => Some(RecordKind::KeyDelete),
        14 => Some(RecordKind::ClrEnd),
        15 => Some(RecordKind::Commit),
        16 => Some(RecordKind::Checkpoint),
        17 => Some(RecordKind::CreateTable),
        18 => Some(RecordKind::DropTable),
        19 => Some(RecordKind::RepairTable),
        20 => Some(RecordKind::Redo(RedoKind::Bitmap)),
        21 => Some(RecordKind::Redo(RedoKind::State)),
        _ => None,
    }
}

impl RecordKind {
    /// The byte that stands for the kind.
    pub fn to_byte(self) -> u8
        ensures { result ≡ kind_byte self }
    {
        match self {
            RecordKind::Redo(kind) => redo_byte(kind),
            RecordKind::RowInsert => 10,
            RecordKind::RowDelete => 11,
            RecordKind::KeyInsert => 12,
            RecordKind::KeyDelete => 13,
            RecordKind::ClrEnd => 14,
            RecordKind::Commit => 15,
            RecordKind::Checkpoint => 16,
            RecordKind::CreateTable => 17,
            RecordKind::DropTable => 18,
            RecordKind::RepairTable => 19,
        }
    }

    /// The kind that the byte stands for; `None` where it stands for none.
    pub fn from_byte(byte: u8) -> Option<RecordKind>
        ensures read { result ≡ kind_with byte }
        ensures found { IfSome result (λ kind. byte ≡ kind_byte kind) }
        ensures only { (kind : AnyKind) → byte ≡ kind_byte kind → result ≡ Some kind }
    {
        kind_with(byte)
    }
}
