use super::{CREATE_AND_INSERT, Ran, roomy_host, run_on, run_over};
use aria_host::{FileName, MemHost, MemSource, Stream};
use aria_page::Page;
use std::alloc::{AllocError, Global};
use std::test::Fail;

// The page of a control file that names a checkpoint in file 2 and redo in file 1 (docs/FORMATS.md, "The control file").
fn control_page() -> Page {
    let mut page = Page::zero();
    page.put(4, b"ARIAOWN1");
    page.put(12, &[0, 0, 2, 0, 0, 0x20, 0x10, 0, 0, 1, 0, 0, 0, 0x10]);
    page.sum();
    page
}

// The page of this number in file 1 that has a run of one COMMIT (docs/FORMATS.md, "The log's pages").
fn commit_page(number: u8) -> Page {
    let mut page = Page::zero();
    page.put(4, &[0, 0, 1, 0, 0, 0, number, 10, 1, 0, 0, 10]);
    page.put(16, &[0, 0, 0, 6, 1, 15]);
    page.sum();
    page
}

// A folder with a control file, and in the log COMMIT.
fn log_folder(alloc: Global) -> Result<MemHost, AllocError> {
    let mut host = roomy_host(alloc)?;
    host.set_page(&FileName::Control, 0, &control_page())?;
    host.set_page(&FileName::Log(1), 0, &commit_page(0))?;
    Ok(host)
}

// Carries out `read_log` with these options, over an input that it doesn't take.
fn read(alloc: Global, options: &str, host: MemHost) -> Result<Ran, AllocError> {
    let input = MemSource::new(alloc, b"frob\n")?;
    if options == "silent" {
        run_over(alloc, &["read_log", "-d", "-s"], host, input)
    } else {
        run_over(alloc, &["read_log", "-d"], host, input)
    }
}

// Whether the command ended with this status, and told this.
fn ended(ran: &Ran, status: u8, out: &str, err: &str) -> bool {
    ran.status == status
        && ran.host.told(Stream::Out) == out.as_bytes()
        && ran.host.told(Stream::Err) == err.as_bytes()
}

#[test]
fn an_empty_folder_has_an_empty_log(rt: HostRuntime) -> Result<(), Fail> {
    let ran = read(rt.alloc(), "display", roomy_host(rt.alloc())?)?;
    assert!(rt; ended(&ran, 0, "groups 0 incomplete 0\n", ""));
    Ok(())
}

#[test]
fn a_commit_is_told(rt: HostRuntime) -> Result<(), Fail> {
    let alloc = rt.alloc();
    let ran = read(alloc, "display", log_folder(alloc)?)?;
    assert!(rt; ended(&ran, 0, "(1,0x10) COMMIT\ngroups 1 incomplete 0\n", ""));
    let silent = read(alloc, "silent", log_folder(alloc)?)?;
    assert!(rt; ended(&silent, 0, "groups 1 incomplete 0\n", ""));
    Ok(())
}

#[test]
fn a_journal_is_no_log(rt: HostRuntime) -> Result<(), Fail> {
    let alloc = rt.alloc();
    let mut journal = roomy_host(alloc)?;
    run_on(alloc, &mut journal, CREATE_AND_INSERT)?;
    let page = journal.page(&FileName::Log(1), 0).ok_or("no page")?;
    let mut host = roomy_host(alloc)?;
    host.set_page(&FileName::Log(1), 0, page)?;
    let ran = read(alloc, "display", host)?;
    assert!(rt; ended(&ran, 5, "", "aria: missing aria_log_control\n"));
    Ok(())
}

// A page behind the log's end begins a run.
#[test]
fn a_damaged_log_is_told_up_to_its_end(rt: HostRuntime) -> Result<(), Fail> {
    let alloc = rt.alloc();
    let mut host = log_folder(alloc)?;
    host.set_page(&FileName::Log(1), 2, &commit_page(2))?;
    let ran = read(alloc, "display", host)?;
    let line = "aria: damaged log aria_log.00000001 page 1\n";
    assert!(rt; ended(&ran, 5, "(1,0x10) COMMIT\n", line));
    Ok(())
}

#[test]
fn a_fault_stops_the_telling(rt: HostRuntime) -> Result<(), Fail> {
    let alloc = rt.alloc();
    let mut host = log_folder(alloc)?;
    host.plan_fault(0)?;
    let ran = read(alloc, "display", host)?;
    assert!(rt; ended(&ran, 4, "", "aria: disk fault\n"));
    Ok(())
}
