ghost use Rattle.std.specs.Prelude.{◌<◌, ◌-◌, ◌^◌};

use super::commit;
use crate::Log;
use crate::log_page::FILE_PAGES;
use aria_host::{DirHost, Fault, FileName, Host};
use aria_page::Page;
use std::alloc::Global;
use std::fs;
use std::test::Fail;

// Appends a group and forces it, so many times.
fn force_each(alloc: Global, log: &mut Log, host: &mut DirHost, times: u32) -> Result<(), Fault> {
    let _file = FileName::Log(1);
    let group = commit(alloc)?;
    for _nth in 0..times {
        log.append(host, group.as_slice())?;
        log.force(host)?;
    }
    Ok(())
}

// The log as it is opened where it ends before this page of this file, its last one.
fn opened(file: u32, page: u64) -> Log
    requires file { file < 2 ^ 24 - 1 }
    requires page { page < 1024 }
{
    let number = u64::from(file) * FILE_PAGES + page;
    Log {
        page: Page::zero(),
        number,
        first: number,
        used: 0,
        there: false,
        made: number,
        written: 0,
        last: file,
    }
}

// How many pages a file of the log has.
fn pages(host: &mut DirHost, file: u32) -> Result<u32, Fault>
    requires { file < 2 ^ 24 }
{
    match host.look(&FileName::Log(file))? {
        Some(extent) => Ok(extent.pages),
        None => Ok(0),
    }
}

// Four forces leave four pages, and four of zeros behind them.
#[test]
fn a_start_keeps_the_room_ahead(rt: HostRuntime) -> Result<(), Fail> {
    let alloc = rt.alloc();
    let mut host = DirHost::new(&rt);
    let mut log = opened(1, 0);
    log.start(&mut host)?;
    force_each(alloc, &mut log, &mut host, 4)?;
    assert_eq!(rt; pages(&mut host, 1)?, 8);
    let mut log = opened(1, 4);
    log.start(&mut host)?;
    assert_eq!(rt; pages(&mut host, 1)?, 8);
    force_each(alloc, &mut log, &mut host, 3)?;
    assert_eq!(rt; pages(&mut host, 1)?, 8);
    force_each(alloc, &mut log, &mut host, 1)?;
    assert_eq!(rt; pages(&mut host, 1)?, 12);
    fs::remove_file(&rt, "aria_log.00000001")?;
    Ok(())
}

// A page of zeros and one that isn't stand behind the end.
#[test]
fn a_start_cuts_what_is_not_room(rt: HostRuntime) -> Result<(), Fail> {
    let alloc = rt.alloc();
    let mut host = DirHost::new(&rt);
    let mut log = opened(2, 0);
    log.start(&mut host)?;
    force_each(alloc, &mut log, &mut host, 4)?;
    let mut page = Page::zero();
    page.put(8191, &[1]);
    host.write_page(&FileName::Log(2), 7, &page)?;
    let mut log = opened(2, 4);
    log.start(&mut host)?;
    assert_eq!(rt; pages(&mut host, 2)?, 4);
    fs::remove_file(&rt, "aria_log.00000002")?;
    Ok(())
}
