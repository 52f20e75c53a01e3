//! What is told of folders that were made by hand (docs/FORMATS.md has their bytes).

ghost use Rattle.std.specs.Prelude.{◌≤◌, length, IfOk};
ghost use Rattle.aria_host.specs.MemHost.{mem_state};
ghost use Rattle.aria_log.specs.Log.{HasNoLog, IsRunning};
ghost use Rattle.aria_log.specs.Spelling.{IsSpelled};

use crate::display;
use aria_host::{Fault, FileName, MemHost, Stream};
use aria_log::Log;
use aria_page::{Bytes, List, Lsn, Page};
use aria_record::{Group, Record, encode_group};
use std::alloc::{AllocError, Global};
use std::test::Fail;

const CONTROL: FileName = FileName::Control;

const LOG: FileName = FileName::Log(1);

const COMMIT: &[u8] = b"\0\0\0\x06\x01\x0F\0\0\0\0";

/// Room for what any test here tells.
const TOLD_BYTES: u64 = 1 << 16;

// An empty folder.
fn empty_folder(alloc: Global) -> Result<MemHost, AllocError>
    ensures { IfOk result (λ host. HasNoLog (mem_state host)) }
{
    let mut host = MemHost::new(alloc);
    host.reserve(100, TOLD_BYTES)?;
    Ok(host)
}

// The control file without a checkpoint: redo starts at the start of the log.
fn put_control(host: &mut MemHost) -> Result<(), AllocError> {
    let mut page = Page::zero();
    page.put(4, b"ARIAOWN1");
    page.sum();
    host.set_page(&CONTROL, 0, &page)
}

// A page of log file 1, with so many used bytes.
fn log_page(page: u8, begins: u8, body: &[u8]) -> Page
    requires { length body.now ≤ 8176 }
{
    let mut made = Page::zero();
    let used = body.len() as u16;
    made.put(4, &[0, 0, 1, 0, 0, 0, page, 10, begins, 0]);
    made.put(14, &used.to_be_bytes());
    made.put(16, body);
    made.sum();
    made
}

// A folder with a control file and these used bytes in the first page of its log.
fn folder_with(alloc: Global, body: &[u8]) -> Result<MemHost, AllocError>
    requires { length body.now ≤ 8176 }
{
    let mut host = empty_folder(alloc)?;
    put_control(&mut host)?;
    host.set_page(&LOG, 0, &log_page(0, 1, body))?;
    Ok(host)
}

// Whether all is told of a folder, and this is what is told.
fn tells(alloc: Global, host: &mut MemHost, text: &[u8]) -> bool {
    let answer = display(alloc, host, None, None, false);
    matches!(answer, Ok(())) && host.told(Stream::Out) == text
}

// The same, of what stands between two numbers.
fn tells_between(
    alloc: Global,
    host: &mut MemHost,
    from: Option<Lsn>,
    to: Option<Lsn>,
    silent: bool,
    text: &[u8],
) -> bool {
    let answer = display(alloc, host, from, to, silent);
    matches!(answer, Ok(())) && host.told(Stream::Out) == text
}

// The bytes of the group that is one COMMIT.
fn commit(alloc: Global) -> Result<Bytes, AllocError>
    ensures { IfOk result IsSpelled }
{
    let mut group: Group = List::new(alloc);
    group.push(Record::Commit)?;
    let bytes = encode_group(alloc, &group)?;
    Ok(bytes)
}

// Starts the log of a folder that has none.
fn begin(host: &mut MemHost) -> Result<Log, Fault>
    requires { HasNoLog (mem_state host.old) }
    ensures { IfOk result (λ log. IsRunning log (mem_state host.new)) }
{
    let _file = LOG;
    let mut log = Log::fresh(host);
    log.start(host)?;
    Ok(log)
}

// Forces one COMMIT.
fn commit_one(alloc: Global, log: &mut Log, host: &mut MemHost) -> Result<(), Fault>
    requires { IsRunning log.old (mem_state host.old) }
{
    let _file = LOG;
    let group = commit(alloc)?;
    log.append(host, group.as_slice())?;
    log.force(host)
}

// A folder with a control file and a log of one COMMIT.
fn folder_of_one(alloc: Global) -> Result<MemHost, Fault> {
    let _file = LOG;
    let mut host = empty_folder(alloc)?;
    let mut log = begin(&mut host)?;
    commit_one(alloc, &mut log, &mut host)?;
    put_control(&mut host)?;
    Ok(host)
}

#[test]
fn a_group_and_a_rest_that_a_crash_left(rt: HostRuntime) -> Result<(), Fail> {
    let alloc = rt.alloc();
    let mut host = folder_of_one(alloc)?;
    assert!(rt;
        tells(
            alloc,
            &mut host,
            b"(1,0x10) COMMIT\ngroups 1 incomplete 0\n"
        )
    );
    let mut host = folder_of_one(alloc)?;
    host.set_page(&LOG, 1, &log_page(1, 1, &COMMIT[..9]))?;
    assert!(rt;
        tells(
            alloc,
            &mut host,
            b"(1,0x10) COMMIT\n(1,0x2010) INCOMPLETE_GROUP 9\ngroups 1 incomplete 1\n"
        )
    );
    Ok(())
}

// The example of docs/TOOLS.md: a row that was inserted, the statement's end, and what a crash left of a further run.
#[test]
fn an_insert_as_the_manual_shows_it(rt: HostRuntime) -> Result<(), Fail> {
    let alloc = rt.alloc();
    let mut host = folder_with(
        alloc,
        b"\0\0\0\x45\x02\x01\0\0\0\x22\x01t\x01\0\0\0\x01\x02\0\0\x10\0\x0Ctwelve bytes\0\x1F\x40\0\x04four\x0A\0\0\0\x18\x01t\0\0\0\0\0\0\0\0\0\0\x01\0\0\0\0\0\0\0\0\0\0\0\0\0\0\x06\x01\x0F\0\0\0\0",
    )?;
    host.set_page(&LOG, 1, &log_page(1, 1, &COMMIT[..9]))?;
    assert!(rt;
        tells(
            alloc,
            &mut host,
            b"(1,0x10) REDO_INSERT_ROW_HEAD t part data page 1 edits 2\n(1,0x10) UNDO_ROW_INSERT t prev (0,0x0) place 1 0\n(1,0x59) COMMIT\n(1,0x2010) INCOMPLETE_GROUP 9\ngroups 2 incomplete 1\n"
        )
    );
    Ok(())
}

// Whether one group is told so, behind its number.
fn is_told(alloc: Global, group: &[u8], line: &[u8]) -> Result<bool, AllocError>
    requires { length group.now ≤ 8176 }
{
    let mut text = Bytes::from_slice(alloc, b"(1,0x10) ")?;
    text.extend_from_slice(line)?;
    text.extend_from_slice(b"\ngroups 1 incomplete 0\n")?;
    let mut host = folder_with(alloc, group)?;
    Ok(tells(alloc, &mut host, text.as_slice()))
}

#[test]
fn a_line_of_each_kind(rt: HostRuntime) -> Result<(), Fail> {
    let alloc = rt.alloc();
    for (group, line) in [
        (COMMIT, b"COMMIT".as_slice()),
        (
            b"\0\0\0\x1E\x01\x0A\0\0\0\x18\x01t\0\0\x01\0\0\0\x10\0\0\0\x01\x02\0\0\0\x02\x01\0\0\0\x03\x03".as_slice(),
            b"UNDO_ROW_INSERT t prev (1,0x10) place 1 2".as_slice(),
        ),
        (
            b"\0\0\0\x20\x01\x0B\0\0\0\x1A\x01t\0\0\x01\0\0\0\x10\0\0\0\x01\x02\0\0\0\0\0\0\0\0\0\0ab".as_slice(),
            b"UNDO_ROW_DELETE t prev (1,0x10) place 1 2".as_slice(),
        ),
        (
            b"\0\0\0\x16\x01\x0C\0\0\0\x10\x01t\0\0\x01\0\0\0\x10\x07\xFF\0\0\x01\x02a".as_slice(),
            b"UNDO_KEY_INSERT t key 7 prev (1,0x10)".as_slice(),
        ),
        (
            b"\0\0\0\x15\x01\x0D\0\0\0\x0F\x01t\0\0\0\0\0\0\0\0\0\0\0\x01\x02".as_slice(),
            b"UNDO_KEY_DELETE t key 0 prev (0,0x0)".as_slice(),
        ),
        (
            b"\0\0\0\x1F\x01\x10\0\0\0\x19\0\0\x01\0\0\0\x10\0\0\0\x01\x01t\x01\0\0\0\x05\0\0\x01\0\0\0\x20".as_slice(),
            b"CHECKPOINT redo (1,0x10) dirty 1".as_slice(),
        ),
        (
            b"\0\0\0\x2B\x01\x11\0\0\0\x25\x01t\x03\x02\x02id\0\0\0\0\0\x04name\x01\0\0\0\x14\x02\x02k1\x01\0\x02k2\x01\x01\x01\0\0\0".as_slice(),
            b"REDO_CREATE_TABLE t".as_slice(),
        ),
        (
            b"\0\0\0\x08\x01\x12\0\0\0\x02\x01t".as_slice(),
            b"REDO_DROP_TABLE t".as_slice(),
        ),
        (
            b"\0\0\0\x08\x01\x13\0\0\0\x02\x01t".as_slice(),
            b"REDO_REPAIR_TABLE t".as_slice(),
        ),
    ] {
        assert!(rt; is_told(alloc, group, line)?);
    }
    Ok(())
}

// A group of one edit of page 5 of a file of t, and the record that was undone by it.
const CLEARED: [u8; 45] =
    *b"\0\0\0\x29\x02\x07\0\0\0\x0E\x01t\0\0\0\0\x05\x01\0\0\x13\0\x01\x09\x0E\0\0\0\x10\x01t\0\0\x01\0\0\0\x10\0\0\0\0\0\0\0";

// Whether edits of this kind, of this file, are told so.
fn is_edit_told(alloc: Global, kind: u8, file: u8, line: &[u8]) -> Result<bool, AllocError> {
    let mut group = CLEARED;
    group[5] = kind;
    group[12] = file;
    let mut lines = Bytes::from_slice(alloc, line)?;
    lines.extend_from_slice(b" page 5 edits 1\n(1,0x10) CLR_END t undone (1,0x10) next (0,0x0)")?;
    is_told(alloc, &group, lines.as_slice())
}

#[test]
fn a_line_of_each_kind_of_edits(rt: HostRuntime) -> Result<(), Fail> {
    let alloc = rt.alloc();
    for (kind, file, line) in [
        (1, 1, b"REDO_INSERT_ROW_HEAD t part data".as_slice()),
        (2, 1, b"REDO_INSERT_ROW_TAIL t part data".as_slice()),
        (3, 1, b"REDO_INSERT_ROW_BLOBS t part data".as_slice()),
        (4, 1, b"REDO_PURGE_ROW_HEAD t part data".as_slice()),
        (5, 1, b"REDO_PURGE_ROW_TAIL t part data".as_slice()),
        (6, 1, b"REDO_FREE_BLOCKS t part data".as_slice()),
        (7, 0, b"REDO_INDEX t part index".as_slice()),
        (8, 0, b"REDO_INDEX_NEW_PAGE t part index".as_slice()),
        (9, 0, b"REDO_INDEX_FREE_PAGE t part index".as_slice()),
        (20, 1, b"REDO_BITMAP t part data".as_slice()),
        (21, 0, b"REDO_STATE t part index".as_slice()),
    ] {
        assert!(rt; is_edit_told(alloc, kind, file, line)?);
    }
    Ok(())
}

// The log sequence number of a byte of log file 1.
fn at(offset: u32) -> Option<Lsn> {
    Some(Lsn { file: 1, offset })
}

// Two groups in a run, and a rest behind them: the first stands at 0x10, the second at 0x1a, the rest at 0x24.
fn two_and_a_rest(alloc: Global) -> Result<MemHost, AllocError> {
    folder_with(
        alloc,
        b"\0\0\0\x06\x01\x0F\0\0\0\0\0\0\0\x06\x01\x0F\0\0\0\0\0\0",
    )
}

#[test]
fn what_stands_between_two_numbers(rt: HostRuntime) -> Result<(), Fail> {
    let alloc = rt.alloc();
    for (from, to, silent, text) in [
        (
            None,
            None,
            false,
            b"(1,0x10) COMMIT\n(1,0x1a) COMMIT\n(1,0x24) INCOMPLETE_GROUP 2\ngroups 2 incomplete 1\n".as_slice(),
        ),
        (None, None, true, b"groups 2 incomplete 1\n".as_slice()),
        (
            at(0x1A),
            None,
            false,
            b"(1,0x1a) COMMIT\n(1,0x24) INCOMPLETE_GROUP 2\ngroups 1 incomplete 1\n".as_slice(),
        ),
        (
            at(0x1B),
            None,
            false,
            b"(1,0x24) INCOMPLETE_GROUP 2\ngroups 0 incomplete 1\n".as_slice(),
        ),
        (
            None,
            at(0x1A),
            false,
            b"(1,0x10) COMMIT\n(1,0x1a) COMMIT\ngroups 2 incomplete 0\n".as_slice(),
        ),
        (
            at(0x11),
            at(0x23),
            true,
            b"groups 1 incomplete 0\n".as_slice(),
        ),
        (
            None,
            Some(Lsn {
                file: 0,
                offset: 99,
            }),
            false,
            b"groups 0 incomplete 0\n".as_slice(),
        ),
    ] {
        let mut host = two_and_a_rest(alloc)?;
        assert!(rt; tells_between(alloc, &mut host, from, to, silent, text));
    }
    Ok(())
}

// How a folder is answered that isn't sound, and what is told of it.
#[test]
fn folders_that_are_not_sound(rt: HostRuntime) -> Result<(), Fail> {
    let alloc = rt.alloc();
    // A log without a control file, as the journal is.
    let mut host = empty_folder(alloc)?;
    host.set_page(&LOG, 0, &log_page(0, 1, COMMIT))?;
    assert!(rt;
        matches!(
            display(alloc, &mut host, None, None, false),
            Err(Fault::FileMissing {
                file: FileName::Control
            })
        )
    );
    assert!(rt; host.told(Stream::Out).is_empty());
    // A file between two others.
    let mut host = folder_with(alloc, COMMIT)?;
    host.set_page(&FileName::Log(3), 0, &Page::zero())?;
    assert!(rt;
        matches!(
            display(alloc, &mut host, None, None, false),
            Err(Fault::FileMissing {
                file: FileName::Log(2)
            })
        )
    );
    assert!(rt; host.told(Stream::Out).is_empty());
    // A run behind the log's end.
    let mut host = folder_with(alloc, COMMIT)?;
    host.set_page(&LOG, 2, &log_page(2, 1, COMMIT))?;
    assert!(rt;
        matches!(
            display(alloc, &mut host, None, None, false),
            Err(Fault::LogDamaged { file: 1, page: 1 })
        )
    );
    assert!(rt; host.told(Stream::Out) == b"(1,0x10) COMMIT\n".as_slice());
    Ok(())
}

#[test]
fn a_folder_without_a_log_and_one_whose_first_page_goes_on(rt: HostRuntime) -> Result<(), Fail> {
    let alloc = rt.alloc();
    let mut host = empty_folder(alloc)?;
    assert!(rt; tells(alloc, &mut host, b"groups 0 incomplete 0\n"));
    let mut host = empty_folder(alloc)?;
    put_control(&mut host)?;
    host.set_page(&LOG, 0, &log_page(0, 0, COMMIT))?;
    host.set_page(&LOG, 1, &log_page(1, 1, COMMIT))?;
    assert!(rt;
        tells(
            alloc,
            &mut host,
            b"(1,0x2010) COMMIT\ngroups 1 incomplete 0\n"
        )
    );
    Ok(())
}
