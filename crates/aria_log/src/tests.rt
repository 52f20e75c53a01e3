ghost use Rattle.std.specs.Prelude.{◌≡◌, false, IfOk, OnOk, ℕ, List as Seq, ◌<◌, ◌≤◌, ◌^◌};
ghost use Rattle.aria_page.specs.Lsn.{IsLsn};
ghost use Rattle.aria_host.specs.MemHost.{mem_state};
ghost use Rattle.aria_record.specs.Logged.{Logged};
ghost use Rattle.aria_log.specs.Log.{HasNoLog, IsOpened, IsRunning};
ghost use Rattle.aria_log.specs.Finding.{means_none};
ghost use Rattle.aria_log.specs.Spelling.{IsSpelled};

mod boundary;
mod crashes;
mod faults;
mod finding;
mod purging;
mod rooms;
mod walking;

use crate::Log;
use crate::log_page::BODY_AT;
use aria_host::{Fault, FileName, MemHost};
use aria_page::{Bytes, List, Lsn, PAGE_BYTES, Page};
use aria_record::{Group, Record, encode_group};
use std::alloc::{AllocError, Global};
use std::test::Fail;

// An empty folder.
fn empty_folder(alloc: Global) -> Result<MemHost, AllocError>
    ensures { IfOk result (λ host. HasNoLog (mem_state host)) }
{
    let mut host = MemHost::new(alloc);
    host.reserve(100, 0)?;
    Ok(host)
}

// A host with room for some calls, of which none fails.
fn room_for(alloc: Global) -> Result<MemHost, AllocError> {
    let mut host = MemHost::new(alloc);
    host.reserve(100, 0)?;
    Ok(host)
}

// A host whose call of this number fails.
fn failing_host(alloc: Global, fails: u64) -> Result<MemHost, AllocError> {
    let mut host = room_for(alloc)?;
    host.plan_fault(fails)?;
    Ok(host)
}

// Opens the log from the first byte of a page on.
fn open_at(alloc: Global, host: &mut MemHost, file: u32, page: u32) -> Result<Log, Fault>
    requires file { file < 2 ^ 24 }
    requires page { page < 1024 }
    ensures { IfOk result (λ log. (base : ℕ) × (groups : Seq Logged) × IsOpened log (mem_state host.new) base groups log.last) }
{
    let _file = FileName::Log(1);
    let log = Log::open(alloc, host, first_byte(file, page))?;
    Ok(log)
}

// Starts a log that was opened.
fn start(log: &mut Log, host: &mut MemHost) -> Result<(), Fault>
    requires { (base : ℕ) × (groups : Seq Logged) × IsOpened log.old (mem_state host.old) base groups log.old.last }
    ensures { OnOk result (IsRunning log.new (mem_state host.new)) }
{
    let _file = FileName::Log(1);
    log.start(host)?;
    Ok(())
}

// Starts the log of a folder in which it ends before this page of a file: only zeros stand there.
fn begin_before(alloc: Global, host: &mut MemHost, file: u32, page: u32) -> Result<Log, Fault>
    requires file { file < 2 ^ 24 }
    requires some { 1 ≤ page }
    requires page { page < 1024 }
    ensures { IfOk result (λ log. IsRunning log (mem_state host.new)) }
{
    host.set_page(&FileName::Log(file), page - 1, &Page::zero())?;
    let mut log = open_at(alloc, host, file, page)?;
    start(&mut log, host)?;
    Ok(log)
}

// The place of the first byte of a page's body.
fn first_byte(file: u32, page: u32) -> Lsn
    requires file { file < 2 ^ 24 }
    requires page { page < 1024 }
    ensures form { IsLsn result }
    ensures given { means_none result ≡ false }
{
    Lsn {
        file,
        offset: page * PAGE_BYTES as u32 + BODY_AT as u32,
    }
}

// The bytes of the group that is one COMMIT: ten of them (docs/FORMATS.md, "Groups").
fn commit(alloc: Global) -> Result<Bytes, AllocError>
    ensures { IfOk result IsSpelled }
{
    let mut group: Group = List::new(alloc);
    group.push(Record::Commit)?;
    let bytes = encode_group(alloc, &group)?;
    Ok(bytes)
}

// Starts the log of a folder that has none.
fn begin(host: &mut MemHost) -> Result<Log, Fault>
    requires { HasNoLog (mem_state host.old) }
    ensures { IfOk result (λ log. IsRunning log (mem_state host.new)) }
{
    let _file = FileName::Log(1);
    let mut log = Log::fresh(host);
    log.start(host)?;
    Ok(log)
}

// Appends COMMIT so many times.
fn append_all(alloc: Global, log: &mut Log, host: &mut MemHost, times: u32) -> Result<(), Fault>
    requires { IsRunning log.old (mem_state host.old) }
    ensures { OnOk result (IsRunning log.new (mem_state host.new)) }
{
    let _file = FileName::Log(1);
    let group = commit(alloc)?;
    for _nth in 0..times {
        log.append(host, group.as_slice())?;
    }
    Ok(())
}

// Appends COMMIT so many times, and forces them.
fn commit_all(alloc: Global, log: &mut Log, host: &mut MemHost, times: u32) -> Result<(), Fault>
    requires { IsRunning log.old (mem_state host.old) }
    ensures { OnOk result (IsRunning log.new (mem_state host.new)) }
{
    let _file = FileName::Log(1);
    append_all(alloc, log, host, times)?;
    log.force(host)?;
    Ok(())
}

// Appends COMMIT and forces it, so many times.
fn force_all(alloc: Global, log: &mut Log, host: &mut MemHost, times: u32) -> Result<(), Fault>
    requires { IsRunning log.old (mem_state host.old) }
    ensures { OnOk result (IsRunning log.new (mem_state host.new)) }
{
    let _file = FileName::Log(1);
    for _nth in 0..times {
        commit_all(alloc, log, host, 1)?;
    }
    Ok(())
}

// One COMMIT, forced in a folder without a log (docs/FORMATS.md).
#[test]
fn a_group_is_spelled_on_its_page(rt: HostRuntime) -> Result<(), Fail> {
    let alloc = rt.alloc();
    let mut host = empty_folder(alloc)?;
    let mut log = begin(&mut host)?;
    commit_all(alloc, &mut log, &mut host, 1)?;
    let page = host.page(&FileName::Log(1), 0).ok_or("no page")?;
    let front = [
        0xEA, 0xA9, 0xCB, 0x6D, 0, 0, 1, 0, 0, 0, 0, 10, 1, 0, 0, 10, 0, 0, 0, 6, 1, 15, 0, 0, 0, 0,
    ];
    assert!(rt; page.bytes().starts_with(&front));
    assert!(rt; page.bytes()[26..].iter().all(|byte| *byte == 0));
    Ok(())
}

// Whether the page is there and holds zeros.
fn is_blank(host: &MemHost, page: u32) -> bool
    requires { page < 2 ^ 31 }
{
    match host.page(&FileName::Log(1), page) {
        Some(page) => page.bytes().iter().all(|byte| *byte == 0),
        None => false,
    }
}

// Where the page that a force writes is its file's last, as many pages of zeros follow as were written so far.
#[test]
fn a_force_makes_room_ahead(rt: HostRuntime) -> Result<(), Fail> {
    let alloc = rt.alloc();
    let mut host = empty_folder(alloc)?;
    let mut log = begin(&mut host)?;
    assert!(rt; host.page(&FileName::Log(1), 0).is_none());
    commit_all(alloc, &mut log, &mut host, 1)?;
    assert!(rt; !is_blank(&host, 0) && is_blank(&host, 1));
    assert!(rt; host.page(&FileName::Log(1), 2).is_none());
    commit_all(alloc, &mut log, &mut host, 1)?;
    assert!(rt; !is_blank(&host, 1) && is_blank(&host, 2) && is_blank(&host, 3));
    assert!(rt; host.page(&FileName::Log(1), 4).is_none());
    force_all(alloc, &mut log, &mut host, 2)?;
    assert!(rt; !is_blank(&host, 3) && is_blank(&host, 7));
    assert!(rt; host.page(&FileName::Log(1), 8).is_none());
    Ok(())
}
