ghost use Rattle.std.specs.Prelude.{OnOk};
ghost use Rattle.aria_host.specs.MemHost.{mem_state};
ghost use Rattle.aria_log.specs.Log.{IsRunning};

use super::{append_all, begin_before, commit, commit_all, force_all, room_for};
use crate::Log;
use aria_host::{Fault, FileName, MemHost};
use std::alloc::Global;
use std::test::Fail;

/// The last file that a log may have.
const LAST: u32 = 16777215;

// Whether a page of the log begins a run, and how many bytes of it are used; `None` where there is no such page.
fn head(host: &MemHost, file: u32, page: u32) -> Option<(u8, u8, u8)> {
    let page = host.page(&FileName::Log(file), page)?;
    let bytes = page.bytes();
    Some((bytes[12], bytes[14], bytes[15]))
}

// A host whose log was begun before page 1023 of file 1, where so many groups were forced in one run.
fn run_at_end(alloc: Global, commits: u32) -> Result<MemHost, Fault> {
    let _file = FileName::Log(1);
    let mut host = room_for(alloc)?;
    let mut log = begin_before(alloc, &mut host, 1, 1023)?;
    commit_all(alloc, &mut log, &mut host, commits)?;
    Ok(host)
}

// A COMMIT takes 10 bytes, so 817 of them fit on a page, and the 818th crosses its end.
#[test]
fn a_run_crosses_the_end_of_a_file(rt: HostRuntime) -> Result<(), Fail> {
    let _file = FileName::Log(1);
    let alloc = rt.alloc();
    let host = run_at_end(alloc, 817)?;
    assert_eq!(rt; head(&host, 1, 1023), Some((1, 0x1f, 0xea)));
    assert_eq!(rt; head(&host, 2, 0), None);
    let host = run_at_end(alloc, 818)?;
    assert_eq!(rt; head(&host, 1, 1023), Some((1, 0x1f, 0xf0)));
    assert_eq!(rt; head(&host, 2, 0), Some((0, 0, 4)));
    let host = run_at_end(alloc, 1636)?;
    assert_eq!(rt; head(&host, 2, 0), Some((0, 0x1f, 0xf0)));
    assert_eq!(rt; head(&host, 2, 1), Some((0, 0, 8)));
    Ok(())
}

// Each force closes a page, so the second one writes the first page of the second file.
#[test]
fn a_log_goes_on_in_the_next_file(rt: HostRuntime) -> Result<(), Fail> {
    let alloc = rt.alloc();
    let mut host = room_for(alloc)?;
    let mut log = begin_before(alloc, &mut host, 1, 1023)?;
    commit_all(alloc, &mut log, &mut host, 1)?;
    assert!(rt; host.page(&FileName::Log(2), 0).is_none());
    assert_eq!(rt; log.end().file, 2);
    assert_eq!(rt; log.end().offset, 16);
    commit_all(alloc, &mut log, &mut host, 1)?;
    let page = host.page(&FileName::Log(2), 0).ok_or("no page")?;
    let front = [
        0xB0, 0x81, 0x73, 0xD3, 0, 0, 2, 0, 0, 0, 0, 10, 1, 0, 0, 10, 0, 0, 0, 6, 1, 15, 0, 0, 0, 0,
    ];
    assert!(rt; page.bytes().starts_with(&front));
    Ok(())
}

// Whether the log has no room for one COMMIT more.
fn is_spent(alloc: Global, log: &mut Log, host: &mut MemHost) -> Result<bool, Fault>
    requires { IsRunning log.old (mem_state host.old) }
    ensures { OnOk result (IsRunning log.new (mem_state host.new)) }
{
    let _file = FileName::Log(LAST);
    let group = commit(alloc)?;
    match log.append(host, group.as_slice()) {
        Ok(_) => Ok(false),
        Err(Fault::LogSpent { file }) => Ok(file == LAST),
        Err(fault) => Err(fault),
    }
}

// The last page of the last file is never used, so page 1022 is filled, and then no group fits.
#[test]
fn a_log_is_spent_before_its_last_page(rt: HostRuntime) -> Result<(), Fail> {
    let _file = FileName::Log(1);
    let alloc = rt.alloc();
    let mut host = room_for(alloc)?;
    let mut log = begin_before(alloc, &mut host, LAST, 1022)?;
    commit_all(alloc, &mut log, &mut host, 1)?;
    assert!(rt; is_spent(alloc, &mut log, &mut host)?);
    assert_eq!(rt; head(&host, LAST, 1022), Some((1, 0, 10)));
    let mut host = room_for(alloc)?;
    let mut log = begin_before(alloc, &mut host, LAST, 1021)?;
    force_all(alloc, &mut log, &mut host, 1)?;
    append_all(alloc, &mut log, &mut host, 817)?;
    assert!(rt; is_spent(alloc, &mut log, &mut host)?);
    commit_all(alloc, &mut log, &mut host, 0)?;
    assert_eq!(rt; head(&host, LAST, 1022), Some((1, 0x1f, 0xea)));
    assert_eq!(rt; head(&host, LAST, 1023), None);
    assert!(rt; is_spent(alloc, &mut log, &mut host)?);
    Ok(())
}
