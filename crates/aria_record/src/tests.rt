//! Groups of the log, byte by byte.

ghost use Rattle.std.specs.Prelude.{◌<◌};
ghost use Rattle.aria_page.specs.Lsn.{IsLsn};
ghost use Rattle.aria_record.specs.Writing.{LastFits};

use super::*;
use aria_page::{BODY_BYTES, Change, Edit, Last, List, Lsn, Name, Part, Place, Places, RedoKind};
use aria_value::decode_definition;
use std::alloc::{AllocError, Global};

const COMMIT: [u8; 10] = *b"\0\0\0\x06\x01\x0F\0\0\0\0";

// Byte 19 of the header of t is set to 9, for a record at file 1 and offset 16 that was undone.
const CLEARED: [u8; 45] =
    *b"\0\0\0\x29\x02\x07\0\0\0\x0E\x01t\0\0\0\0\x05\x01\0\0\x13\0\x01\x09\x0E\0\0\0\x10\x01t\0\0\x01\0\0\0\x10\0\0\0\0\0\0\0";

fn spells_a_group(alloc: Global, bytes: &[u8]) -> Result<bool, AllocError> {
    Ok(decode_group(alloc, bytes)?.is_some())
}

// Whether the bytes are read as a group that takes so many of them, and are what is written of it.
fn is_read_again(alloc: Global, bytes: &[u8], size: usize) -> Result<bool, AllocError> {
    match decode_group(alloc, bytes)? {
        None => Ok(false),
        Some((group, n)) => {
            let again = encode_group(alloc, &group)?;
            Ok(n == size && bytes.starts_with(again.as_slice()) && again.len() == size)
        }
    }
}

#[test]
fn a_statement_that_was_done(rt: HostRuntime) -> Result<(), AllocError> {
    let alloc = rt.alloc();
    assert!(rt; is_read_again(alloc, &COMMIT, 10)?);
    assert!(rt; is_read_again(alloc, b"\0\0\0\x06\x01\x0F\0\0\0\0\0\0", 10)?);
    assert!(rt; !spells_a_group(alloc, &COMMIT[..9])?);
    assert!(rt; !spells_a_group(alloc, b"")?);
    Ok(())
}

fn is_cleared(records: &[Record]) -> bool {
    match records {
        [
            Record::Redo {
                kind,
                part,
                page,
                edits,
                ..
            },
            Record::ClrEnd { undone, next, .. },
        ] => {
            *kind == RedoKind::Index
                && *part == Part::Keys
                && *page == 5
                && edits.len() == 1
                && undone.file == 1
                && undone.offset == 16
                && next.file == 0
        }
        _ => false,
    }
}

#[test]
fn edits_of_a_page_and_what_they_undo(rt: HostRuntime) -> Result<(), AllocError> {
    let alloc = rt.alloc();
    match decode_group(alloc, &CLEARED)? {
        None => assert!(rt; false),
        Some((group, n)) => {
            assert_eq!(rt; n, 45);
            assert!(rt; is_cleared(group.as_slice()));
        }
    }
    assert!(rt; is_read_again(alloc, &CLEARED, 45)?);
    Ok(())
}

#[test]
fn each_kind_of_entry_is_read_again(rt: HostRuntime) -> Result<(), AllocError> {
    let alloc = rt.alloc();
    for (bytes, size) in [
        // a row put in: head at page 1, a tail at page 2, and three blob pages from page 3 on
        (
            b"\0\0\0\x1E\x01\x0A\0\0\0\x18\x01t\0\0\x01\0\0\0\x10\0\0\0\x01\x02\0\0\0\x02\x01\0\0\0\x03\x03".as_slice(),
            34,
        ),
        // a row of two bytes taken out
        (
            b"\0\0\0\x20\x01\x0B\0\0\0\x1A\x01t\0\0\x01\0\0\0\x10\0\0\0\x01\x02\0\0\0\0\0\0\0\0\0\0ab".as_slice(),
            36,
        ),
        // an entry put into key 7 and one taken out
        (
            b"\0\0\0\x16\x01\x0C\0\0\0\x10\x01t\0\0\x01\0\0\0\x10\x07\xFF\0\0\x01\x02a".as_slice(),
            26,
        ),
        (
            b"\0\0\0\x15\x01\x0D\0\0\0\x0F\x01t\0\0\0\0\0\0\0\0\0\0\0\x01\x02".as_slice(),
            25,
        ),
        // a checkpoint with a changed page
        (
            b"\0\0\0\x1F\x01\x10\0\0\0\x19\0\0\x01\0\0\0\x10\0\0\0\x01\x01t\x01\0\0\0\x05\0\0\x01\0\0\0\x20".as_slice(),
            35,
        ),
        // tables made, dropped and repaired
        (
            b"\0\0\0\x2B\x01\x11\0\0\0\x25\x01t\x03\x02\x02id\0\0\0\0\0\x04name\x01\0\0\0\x14\x02\x02k1\x01\0\x02k2\x01\x01\x01\0\0\0".as_slice(),
            47,
        ),
        (b"\0\0\0\x08\x01\x12\0\0\0\x02\x01t".as_slice(), 12),
        (b"\0\0\0\x08\x01\x13\0\0\0\x02\x01t".as_slice(), 12),
    ] {
        assert!(rt; is_read_again(alloc, bytes, size)?);
    }
    Ok(())
}

// The group of CLEARED with another byte.
fn with_byte(at: usize, byte: u8) -> [u8; 45] {
    let mut bytes = CLEARED;
    if at < bytes.len() {
        bytes[at] = byte;
    }
    bytes
}

#[test]
fn bytes_that_spell_a_group_and_others(rt: HostRuntime) -> Result<(), AllocError> {
    let alloc = rt.alloc();
    for (at, byte, is_good) in [
        // the length, and the number of entries
        (3, 0x28, false),
        (3, 0x2A, false),
        (4, 1, false),
        (4, 3, false),
        // kinds of edits, and others
        (5, 21, true),
        (5, 9, true),
        (5, 10, false),
        (5, 0, false),
        (5, 22, false),
        // a body that is too short and too long
        (9, 0x0D, false),
        (9, 0x0F, false),
        // a name, a file, a page and a number of edits
        (11, b'1', false),
        (12, 1, true),
        (12, 2, false),
        (13, 0x7F, true),
        (13, 0x80, false),
        (17, 0, false),
        (17, 2, false),
        // the kind of an edit, and its place
        (18, 1, false),
        (18, 3, false),
        (19, 0x1F, true),
        (19, 0x20, false),
        // the entry at the end
        (24, 15, false),
        (24, 18, false),
        (24, 7, false),
    ] {
        assert_eq!(rt; spells_a_group(alloc, &with_byte(at, byte))?, is_good);
    }
    Ok(())
}

#[test]
fn groups_of_the_wrong_shape_or_with_numbers_too_large(rt: HostRuntime) -> Result<(), AllocError> {
    let alloc = rt.alloc();
    for bytes in [
        // no entry, and two that stand alone
        b"\0\0\0\x01\0".as_slice(),
        b"\0\0\0\x0B\x02\x0F\0\0\0\0\x0F\0\0\0\0".as_slice(),
        // key 8
        b"\0\0\0\x15\x01\x0D\0\0\0\x0F\x01t\0\0\0\0\0\0\0\x08\0\0\0\x01\x02".as_slice(),
        // no tail in slot 1, and no blob pages from page 3 on
        b"\0\0\0\x1E\x01\x0A\0\0\0\x18\x01t\0\0\x01\0\0\0\x10\0\0\0\x01\x02\0\0\0\0\x01\0\0\0\x03\x03".as_slice(),
        b"\0\0\0\x1E\x01\x0A\0\0\0\x18\x01t\0\0\x01\0\0\0\x10\0\0\0\x01\x02\0\0\0\x02\x01\0\0\0\x03\0".as_slice(),
        // a table of format 3, and one whose definition ends early
        b"\0\0\0\x2B\x01\x11\0\0\0\x25\x01t\x04\x02\x02id\0\0\0\0\0\x04name\x01\0\0\0\x14\x02\x02k1\x01\0\x02k2\x01\x01\x01\0\0\0".as_slice(),
        b"\0\0\0\x2A\x01\x11\0\0\0\x24\x01t\x03\x02\x02id\0\0\0\0\0\x04name\x01\0\0\0\x14\x02\x02k1\x01\0\x02k2\x01\x01\x01\0\0".as_slice(),
    ] {
        assert!(rt; !spells_a_group(alloc, bytes)?);
    }
    Ok(())
}

// The group of CLEARED.
fn write_cleared(writer: &mut GroupWriter, table: &Name) -> Result<(), AllocError>
    requires { writer.old.count < 200 }
{
    let edits = [Change::Set {
        at: 19,
        bytes: b"\x09".as_slice(),
    }];
    writer.push_redo(RedoKind::Index, table, Part::Keys, 5, &edits)?;
    let last = Last::Clr {
        undone: Lsn {
            file: 1,
            offset: 16,
        },
        next: Lsn { file: 0, offset: 0 },
    };
    writer.push_last(table, Lsn { file: 0, offset: 0 }, &last)
}

// A whole body and a shift of bytes, and then the group of CLEARED.
fn write_edits(
    writer: &mut GroupWriter,
    table: &Name,
    body: &[u8; BODY_BYTES],
) -> Result<(), AllocError>
    requires { writer.old.count < 100 }
{
    let edits = [
        Change::Whole {
            body: body.as_slice(),
        },
        Change::Shift {
            at: 1,
            len: 2,
            to: 3,
        },
    ];
    writer.push_redo(RedoKind::InsertRowHead, table, Part::Rows, 7, &edits)?;
    write_cleared(writer, table)
}

#[test]
fn a_group_of_edits_put_together(rt: HostRuntime) -> Result<(), AllocError> {
    let alloc = rt.alloc();
    let Some(table) = Name::read(b"t") else {
        return Ok(());
    };
    let mut writer = GroupWriter::new(alloc)?;
    write_edits(&mut writer, &table, &[7; BODY_BYTES])?;
    let size = writer.len();
    assert_eq!(rt; size, 8247);
    assert!(rt; is_read_again(alloc, writer.finish(), size)?);
    Ok(())
}

#[test]
fn groups_put_together_one_after_another(rt: HostRuntime) -> Result<(), AllocError> {
    let alloc = rt.alloc();
    let Some(table) = Name::read(b"t") else {
        return Ok(());
    };
    let mut writer = GroupWriter::new(alloc)?;
    assert!(rt; writer.is_empty());
    write_cleared(&mut writer, &table)?;
    assert_eq!(rt; writer.len(), 45);
    assert_eq!(rt; writer.finish(), CLEARED.as_slice());
    writer.clear();
    assert!(rt; writer.is_empty());
    writer.push_commit()?;
    assert_eq!(rt; writer.finish(), COMMIT.as_slice());
    writer.clear();
    writer.push_drop(&table)?;
    assert_eq!(rt;
        writer.finish(),
        b"\0\0\0\x08\x01\x12\0\0\0\x02\x01t".as_slice()
    );
    Ok(())
}

// Whether a table that is made with this definition is written so.
fn writes_table(
    writer: &mut GroupWriter,
    alloc: Global,
    table: &Name,
    definition: &[u8],
    bytes: &[u8],
) -> Result<bool, AllocError> {
    if definition.len() > 100 {
        return Ok(false);
    }
    match decode_definition(alloc, definition)? {
        None => Ok(false),
        Some(_) => {
            writer.clear();
            writer.push_create(table, true, definition, 2)?;
            Ok(writer.finish() == bytes)
        }
    }
}

// Whether what ends a group is written so.
fn writes_last(
    writer: &mut GroupWriter,
    table: &Name,
    prev: Lsn,
    last: &Last,
    bytes: &[u8],
) -> Result<bool, AllocError>
    requires prev { IsLsn prev }
    requires last { LastFits last.now }
{
    writer.clear();
    writer.push_last(table, prev, last)?;
    Ok(writer.finish() == bytes)
}

// Whether a row put in with a tail and three blob pages, and one of two bytes taken out, are written as they are read.
fn writes_rows(writer: &mut GroupWriter, alloc: Global, table: &Name) -> Result<bool, AllocError> {
    let head = Place { page: 1, slot: 2 };
    let prev = Lsn {
        file: 1,
        offset: 16,
    };
    let put = Last::RowInsert {
        places: Places {
            head,
            tail: Some(Place { page: 2, slot: 1 }),
            blob: 3,
            blobs: 3,
        },
    };
    let bytes =
        b"\0\0\0\x1E\x01\x0A\0\0\0\x18\x01t\0\0\x01\0\0\0\x10\0\0\0\x01\x02\0\0\0\x02\x01\0\0\0\x03\x03".as_slice();
    let one = writes_last(writer, table, prev, &put, bytes)?;
    let taken = Last::RowDelete {
        places: Places {
            head,
            tail: None,
            blob: 0,
            blobs: 0,
        },
        row: List::from_slice(alloc, b"ab")?,
    };
    let bytes =
        b"\0\0\0\x20\x01\x0B\0\0\0\x1A\x01t\0\0\x01\0\0\0\x10\0\0\0\x01\x02\0\0\0\0\0\0\0\0\0\0ab".as_slice();
    Ok(one && writes_last(writer, table, prev, &taken, bytes)?)
}

// Whether an entry put into key 7, and one taken out of key 0, are written as they are read.
fn writes_keys(writer: &mut GroupWriter, alloc: Global, table: &Name) -> Result<bool, AllocError> {
    let put = Last::KeyInsert {
        key: 7,
        target: 0xFF_0000_0102,
        entry: List::from_slice(alloc, b"a")?,
    };
    let prev = Lsn {
        file: 1,
        offset: 16,
    };
    let bytes =
        b"\0\0\0\x16\x01\x0C\0\0\0\x10\x01t\0\0\x01\0\0\0\x10\x07\xFF\0\0\x01\x02a".as_slice();
    let one = writes_last(writer, table, prev, &put, bytes)?;
    let taken = Last::KeyDelete {
        key: 0,
        target: 0x102,
        entry: List::new(alloc),
    };
    let bytes = b"\0\0\0\x15\x01\x0D\0\0\0\x0F\x01t\0\0\0\0\0\0\0\0\0\0\0\x01\x02".as_slice();
    Ok(one && writes_last(writer, table, Lsn { file: 0, offset: 0 }, &taken, bytes)?)
}

#[test]
fn each_kind_of_entry_is_written(rt: HostRuntime) -> Result<(), AllocError> {
    let alloc = rt.alloc();
    let Some(table) = Name::read(b"t") else {
        return Ok(());
    };
    let mut writer = GroupWriter::new(alloc)?;
    assert!(rt; writes_rows(&mut writer, alloc, &table)?);
    assert!(rt; writes_keys(&mut writer, alloc, &table)?);
    let definition =
        b"\x02\x02id\0\0\0\0\0\x04name\x01\0\0\0\x14\x02\x02k1\x01\0\x02k2\x01\x01\x01\0\0\0".as_slice();
    let bytes =
        b"\0\0\0\x2B\x01\x11\0\0\0\x25\x01t\x03\x02\x02id\0\0\0\0\0\x04name\x01\0\0\0\x14\x02\x02k1\x01\0\x02k2\x01\x01\x01\0\0\0".as_slice();
    assert!(rt; writes_table(&mut writer, alloc, &table, definition, bytes)?);
    Ok(())
}

// Whether the edits are those of CLEARED.
fn are_cleared_edits(edits: Edits<'_>) -> bool {
    match edits.split_first() {
        None => false,
        Some((edit, others)) => match edit {
            Change::Set { at, bytes } => {
                at == 19 && bytes == b"\x09".as_slice() && others.split_first().is_none()
            }
            _ => false,
        },
    }
}

// The kind of an entry, if it is as in CLEARED.
fn cleared_kind(entry: &Entry<'_>) -> Option<RecordKind> {
    match entry {
        Entry::Redo {
            kind,
            table,
            part,
            page,
            edits,
        } => {
            let is_place = table.as_slice() == b"t".as_slice() && *part == Part::Keys && *page == 5;
            if is_place && are_cleared_edits(*edits) {
                Some(RecordKind::Redo(*kind))
            } else {
                None
            }
        }
        Entry::Other { kind, body } => { if body.len() == 16 { Some(*kind) } else { None } }
    }
}

fn are_cleared(entries: Entries<'_>) -> bool {
    match entries.split_first() {
        None => false,
        Some((first, others)) => match others.split_first() {
            None => false,
            Some((second, others)) => {
                cleared_kind(&first) == Some(RecordKind::Redo(RedoKind::Index))
                    && cleared_kind(&second) == Some(RecordKind::ClrEnd)
                    && others.split_first().is_none()
            }
        },
    }
}

#[test]
fn entries_as_they_lie(rt: HostRuntime) {
    assert!(rt; Entries::of(&CLEARED[..44]).is_none());
    match Entries::of(&CLEARED) {
        None => assert!(rt; false),
        Some(entries) => assert!(rt; are_cleared(entries)),
    }
}
