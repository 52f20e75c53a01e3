//! Small logs, group by group.

use super::*;
use aria_page::{Bytes, Edit, List, Lsn, Name, Part, RedoKind};
use aria_record::{Group, Record};
use std::alloc::{AllocError, Global};

const NONE: Lsn = Lsn { file: 0, offset: 0 };

// The log sequence number of a group at this place in the first page of the first file.
fn at(offset: u32) -> Lsn {
    Lsn { file: 1, offset }
}

fn table() -> Option<Name> {
    Name::read(b"t")
}

fn alone(alloc: Global, entry: Record) -> Result<Group, AllocError> {
    let mut group = List::new(alloc);
    group.push(entry)?;
    Ok(group)
}

fn create(alloc: Global, name: Name) -> Result<Group, AllocError> {
    alone(
        alloc,
        Record::CreateTable {
            table: name,
            plain: false,
            definition: Bytes::new(alloc),
            format: 1,
        },
    )
}

fn drop_table(alloc: Global, name: Name) -> Result<Group, AllocError> {
    alone(alloc, Record::DropTable { table: name })
}

fn commit(alloc: Global) -> Result<Group, AllocError> {
    alone(alloc, Record::Commit)
}

fn edit(alloc: Global, name: Name, page: u32) -> Result<Record, AllocError> {
    let mut edits = List::new(alloc);
    edits.push(Edit::Set {
        at: 0,
        bytes: Bytes::from_slice(alloc, b"x")?,
    })?;
    Ok(Record::Redo {
        kind: RedoKind::Index,
        table: name,
        part: Part::Rows,
        page,
        edits,
    })
}

// A page of the data file is edited; this is undone behind the undo record `prev`.
fn put(alloc: Global, name: Name, page: u32, prev: Lsn) -> Result<Group, AllocError> {
    let mut group = alone(alloc, edit(alloc, name, page)?)?;
    group.push(Record::UndoKeyInsert {
        table: name,
        prev,
        key: 0,
        target: 0,
        entry: Bytes::new(alloc),
    })?;
    Ok(group)
}

// The record at `undone` is undone.
fn clear(alloc: Global, name: Name, undone: Lsn, next: Lsn) -> Result<Group, AllocError> {
    alone(
        alloc,
        Record::ClrEnd {
            table: name,
            undone,
            next,
        },
    )
}

// Made, edited, dropped and made again: edits of before count for nothing.
#[test]
fn a_table_made_again(rt: HostRuntime) -> Result<(), AllocError> {
    let alloc = rt.alloc();
    let mut found = Analysis::new(alloc, NONE);
    match table() {
        None => assert!(rt; false),
        Some(name) => {
            assert!(rt; found.told(&name) == Told::Nothing);
            assert!(rt; found.last_file_group(&name).is_none());
            found.add(at(16), &create(alloc, name)?)?;
            found.add(at(40), &put(alloc, name, 3, NONE)?)?;
            found.add(at(80), &put(alloc, name, 5, at(40))?)?;
            found.add(at(120), &put(alloc, name, 3, at(80))?)?;
            assert!(rt; found.told(&name) == Told::Made(at(16)));
            assert!(rt; found.last_edit(&name, Part::Rows, 3) == Some(at(120)));
            assert!(rt; found.last_edit(&name, Part::Rows, 5) == Some(at(80)));
            assert!(rt; found.last_edit(&name, Part::Keys, 3).is_none());
            assert_eq!(rt; found.reach(&name, Part::Rows), 6);
            assert_eq!(rt; found.reach(&name, Part::Keys), 0);
            found.add(at(160), &drop_table(alloc, name)?)?;
            assert!(rt; found.told(&name) == Told::Dropped);
            assert!(rt; found.last_edit(&name, Part::Rows, 3).is_none());
            found.add(at(200), &create(alloc, name)?)?;
            found.add(at(240), &put(alloc, name, 1, at(120))?)?;
            assert!(rt; found.last_file_group(&name) == Some(at(200)));
            assert!(rt; found.last_edit(&name, Part::Rows, 5).is_none());
            assert_eq!(rt; found.reach(&name, Part::Rows), 2);
            assert_eq!(rt; found.names()?.len(), 1);
            assert!(rt; found.unchained().is_none());
        }
    }
    Ok(())
}

// COMMIT empties what is pending, and CLR_END takes the newest away.
#[test]
fn what_is_pending(rt: HostRuntime) -> Result<(), AllocError> {
    let alloc = rt.alloc();
    let mut found = Analysis::new(alloc, NONE);
    match table() {
        None => assert!(rt; false),
        Some(name) => {
            found.add(at(16), &put(alloc, name, 1, NONE)?)?;
            found.add(at(40), &put(alloc, name, 2, at(16))?)?;
            assert!(rt; found.pending() == [at(16), at(40)].as_slice());
            found.add(at(80), &clear(alloc, name, at(40), at(16))?)?;
            assert!(rt; found.pending() == [at(16)].as_slice());
            found.add(at(120), &commit(alloc)?)?;
            assert!(rt; found.pending().is_empty());
            found.add(at(160), &put(alloc, name, 1, NONE)?)?;
            assert!(rt; found.unchained().is_none());
        }
    }
    Ok(())
}

// An undo record names one that isn't pending: the chain fails there, and the first failure is told.
#[test]
fn a_chain_that_fails(rt: HostRuntime) -> Result<(), AllocError> {
    let alloc = rt.alloc();
    let mut found = Analysis::new(alloc, NONE);
    let mut later = Analysis::new(alloc, at(80));
    match table() {
        None => assert!(rt; false),
        Some(name) => {
            let first = put(alloc, name, 1, NONE)?;
            let second = put(alloc, name, 1, NONE)?;
            let third = clear(alloc, name, at(16), NONE)?;
            found.add(at(16), &first)?;
            found.add(at(80), &second)?;
            found.add(at(120), &third)?;
            assert!(rt; found.unchained() == Some(at(80)));
            later.add(at(16), &first)?;
            later.add(at(80), &second)?;
            assert!(rt; later.unchained().is_none());
            later.add(at(120), &third)?;
            assert!(rt; later.unchained() == Some(at(120)));
        }
    }
    Ok(())
}
