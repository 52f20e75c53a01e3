//! Logs that are found and opened, in folders that a table spells.

ghost use Rattle.std.specs.Prelude.{◌<◌, ◌^◌, IfOk};
ghost use Rattle.aria_page.specs.Lsn.{IsLsn};
ghost use Rattle.aria_host.specs.MemHost.{mem_state};
ghost use Rattle.aria_log.specs.Log.{IsRunning};

use super::{commit, commit_all, is_blank};
use crate::Log;
use crate::log_page::{BODY_BYTES, FILE_PAGES, seal};
use aria_host::{Fault, FileName, MemHost};
use aria_page::{Lsn, Page};
use std::alloc::{AllocError, Global};
use std::test::Fail;

// A page of the log that begins a run or goes on with one, and is full or has ten used bytes.
fn sealed(number: u64, begins: bool, full: bool) -> Page
    requires { number < 2 ^ 34 }
{
    let mut page = Page::zero();
    let used = if full { BODY_BYTES as u16 } else { 10 };
    seal(&mut page, number, begins, used);
    page
}

// That page, of which a byte was lost.
fn torn(number: u64) -> Page
    requires { number < 2 ^ 34 }
{
    let mut page = sealed(number, true, true);
    page.put(12, &[0]);
    page
}

// The page of that kind: it begins a run (`b`) or goes on with one (`c`), is torn (`t`), or holds zeros. A page of a capital
// letter is full.
fn page_of(kind: &str, number: u64) -> Page
    requires { number < 2 ^ 34 }
{
    match kind {
        "b" => sealed(number, true, false),
        "B" => sealed(number, true, true),
        "c" => sealed(number, false, false),
        "C" => sealed(number, false, true),
        "t" => torn(number),
        _ => Page::zero(),
    }
}

// The two numbers with a comma between them.
fn two_of(text: &str) -> Option<(u32, u32)> {
    let (first, second) = text.split_once(',')?;
    let first = first.parse::<u32>().ok()?;
    let second = second.parse::<u32>().ok()?;
    Some((first, second))
}

// Puts the page of that kind into a file of the log.
fn put(host: &mut MemHost, kind: &str, file: u32, page: u32) -> Result<(), AllocError> {
    if file >= 1 << 24 || page >= 1 << 20 {
        return Ok(());
    }
    let number = (u64::from(file) * FILE_PAGES + u64::from(page)) % (1 << 34);
    host.set_page(&FileName::Log(file), page, &page_of(kind, number))
}

// The folder with these pages: their kinds, and the numbers of the file and of the page in it.
fn folder(alloc: Global, pages: &str) -> Result<MemHost, AllocError> {
    let mut host = MemHost::new(alloc);
    for word in pages.split(' ') {
        if let Some((kind, place)) = word.split_once(':') {
            if let Some((file, page)) = two_of(place) {
                put(&mut host, kind, file, page)?;
            }
        }
    }
    Ok(host)
}

// What a fault says of the log.
fn fault_text(alloc: Global, fault: &Fault) -> Result<String, AllocError> {
    match fault {
        Fault::FileMissing {
            file: FileName::Log(file),
        } => format!(in alloc; "missing {file}"),
        Fault::LogDamaged { file, page } => format!(in alloc; "damaged at {file},{page}"),
        _ => String::from_str(alloc, "another fault"),
    }
}

// Where the log that is found ends, and its damage.
fn found_text(alloc: Global, host: &mut MemHost, from: Lsn) -> Result<String, AllocError>
    requires { IsLsn from }
{
    match Log::find(alloc, host, from) {
        Ok(found) => {
            let end = found.log.end();
            match found.damage {
                None => format!(in alloc; "{end}"),
                Some(damage) => {
                    format!(in alloc; "{end} damaged at {},{}", damage.file, damage.page)
                }
            }
        }
        Err(fault) => fault_text(alloc, &fault),
    }
}

// Where the log that is opened ends.
fn opened_text(alloc: Global, host: &mut MemHost, from: Lsn) -> Result<String, AllocError>
    requires { IsLsn from }
{
    match Log::open(alloc, host, from) {
        Ok(log) => format!(in alloc; "{}", log.end()),
        Err(fault) => fault_text(alloc, &fault),
    }
}

// Whether the log of that folder is found so, and is opened with the same answer, but without a log that is damaged.
fn is_so(alloc: Global, pages: &str, from: &str, want: &str) -> Result<bool, AllocError> {
    let mut host = folder(alloc, pages)?;
    let Some((file, offset)) = two_of(from) else {
        return Ok(false);
    };
    if file >= 1 << 24 {
        return Ok(false);
    }
    let from = Lsn { file, offset };
    let found = found_text(alloc, &mut host, from)?;
    let opened = opened_text(alloc, &mut host, from)?;
    Ok(found.as_bytes() == want.as_bytes() && want.as_bytes().ends_with(opened.as_bytes()))
}

// The first row of a table that is not so: pages, the log sequence number to begin at, and what is found.
fn first_wrong(alloc: Global, table: &str) -> Result<String, AllocError> {
    for row in table.lines() {
        let mut right = false;
        if let Some((pages, rest)) = row.split_once(" from ") {
            if let Some((from, want)) = rest.split_once(" => ") {
                right = is_so(alloc, pages, from, want)?;
            }
        }
        if !right {
            return String::from_str(alloc, row);
        }
    }
    Ok(String::new(alloc))
}

#[test]
fn logs_are_found(rt: HostRuntime) -> Result<(), Fail> {
    let wrong = first_wrong(
        rt.alloc(),
        "- from 0,0 => (1,0x10)
b:1,0 from 0,0 => (1,0x2010)
b:1,0 z:1,1 z:1,2 from 0,0 => (1,0x2010)
b:1,0 t:1,1 z:1,2 from 0,0 => (1,0x2010)
B:1,0 t:1,1 c:1,2 from 0,0 => (1,0x2010)
b:1,0 c:1,1 from 0,0 => (1,0x2010)
B:1,0 C:1,1 c:1,2 b:1,3 from 0,0 => (1,0x8010)
B:1,0 C:1,1 c:1,2 b:1,3 from 1,8216 => (1,0x8010)
C:1,5 c:1,6 from 1,40976 => (1,0xe010)
b:1,0 from 1,25 => (1,0x2010)
b:1,0 from 1,8208 => (1,0x2010)
B:1,1023 c:2,0 b:2,1 z:2,2 from 1,8380432 => (2,0x4010)
b:1,1023 from 1,8380432 => (2,0x10)
b:2,0 from 2,16 => (2,0x2010)
b:1,0 b:1,3 b:2,0 from 2,16 => (2,0x2010)
- from 1,16 => missing 1
b:1,0 from 2,16 => missing 2
b:2,0 from 0,0 => missing 1
b:0,0 from 0,0 => missing 1
b:1,0 b:3,0 from 0,0 => missing 2
b:1,0 b:3,0 b:5,0 from 1,15 => missing 2
b:1,0 from 1,15 => damaged at 1,0
b:1,0 from 1,8388624 => damaged at 1,1024
b:1,0 from 1,26 => (1,0x10) damaged at 1,0
b:1,0 z:1,1 from 1,8209 => (1,0x2010) damaged at 1,1
b:1,0 z:1,1024 from 0,0 => (1,0x2010) damaged at 1,1024
b:1,0 z:2,1024 from 0,0 => (1,0x2010) damaged at 2,1024
b:1,0 b:1,2 from 0,0 => (1,0x2010) damaged at 1,1
b:1,0 t:1,1 B:1,2 c:1,3 from 0,0 => (1,0x2010) damaged at 1,1
b:1,0 b:2,7 from 0,0 => (1,0x2010) damaged at 1,1
b:16777215,1022 B:16777215,1023 from 16777215,8372240 => (16777215,0x7fe010)",
    )?;
    assert_eq!(rt; wrong.as_bytes(), "".as_bytes());
    Ok(())
}

// Opens the log of a folder and starts it.
fn begin_again(alloc: Global, host: &mut MemHost) -> Result<Log, Fault>
    ensures { IfOk result (λ log. IsRunning log (mem_state host.new)) }
{
    let _file = FileName::Log(1);
    let mut log = Log::open(alloc, host, Lsn { file: 0, offset: 0 })?;
    log.start(host)?;
    Ok(log)
}

// The log goes on behind what was forced, and what wasn't is lost.
#[test]
fn a_log_goes_on_where_it_was_forced(rt: HostRuntime) -> Result<(), Fail> {
    let _file = FileName::Log(1);
    let alloc = rt.alloc();
    let mut host = MemHost::new(alloc);
    let mut log = begin_again(alloc, &mut host)?;
    commit_all(alloc, &mut log, &mut host, 3)?;
    let end = log.end();
    let group = commit(alloc)?;
    log.append(&mut host, group.as_slice())?;
    let mut log = begin_again(alloc, &mut host)?;
    assert!(rt; log.end() == end);
    assert!(rt; is_blank(&host, 1));
    commit_all(alloc, &mut log, &mut host, 1)?;
    let log = begin_again(alloc, &mut host)?;
    assert_eq!(rt; log.end().offset, 0x4010);
    Ok(())
}

// Whether the disk fails as a log of one page is opened, where that call of the host fails.
fn fails_at(alloc: Global, call: u64) -> Result<bool, AllocError> {
    let mut host = folder(alloc, "b:1,0")?;
    host.plan_fault(call)?;
    let from = Lsn { file: 0, offset: 0 };
    Ok(matches!(Log::open(alloc, &mut host, from), Err(Fault::Disk)))
}

// The calls are: the names, a look, the page, a look, and the sync.
#[test]
fn a_fault_of_the_disk_is_answered(rt: HostRuntime) -> Result<(), Fail> {
    for call in 0..5 {
        assert!(rt; fails_at(rt.alloc(), call)?);
    }
    assert!(rt; !fails_at(rt.alloc(), 5)?);
    Ok(())
}
