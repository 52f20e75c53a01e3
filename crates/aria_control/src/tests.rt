ghost use Rattle.std.specs.Prelude.{◌<◌, IfSome};
ghost use Rattle.aria_host.specs.Folder.{IsFileName};

use crate::{Control, Found, read, write};
use aria_host::{DirHost, Fate, Fault, FileName, Host, MemHost};
use aria_page::{List, Lsn, Page};
use std::alloc::Global;
use std::fs;
use std::test::Fail;

const CONTROL: FileName = FileName::Control;

const LOG: FileName = FileName::Log(1);

// Redo starts at the first group of file 1.
fn control(file: u32, offset: u32) -> Control {
    Control {
        checkpoint: Lsn { file, offset },
        redo: Lsn {
            file: 1,
            offset: 16,
        },
    }
}

// The page of a checkpoint in file 2 at 0x2010, byte by byte (docs/FORMATS.md).
fn spelled() -> Page {
    let front = [
        0x67, 0x65, 0x01, 0x31, b'A', b'R', b'I', b'A', b'O', b'W', b'N', b'1', 0, 0, 2, 0, 0,
        0x20, 0x10, 0, 0, 1, 0, 0, 0, 0x10,
    ];
    let mut page = Page::zero();
    page.put(0, &front);
    page
}

// That page with another byte at a place.
fn with_byte(at: usize, byte: u8) -> Page
    requires { at < 8192 }
{
    let mut page = spelled();
    page.put(at, &[byte]);
    page
}

fn summed(page: &Page) -> Page {
    let mut page = *page;
    page.sum();
    page
}

// What is found where the control file has these pages, beside another file or none.
fn found(
    alloc: Global,
    first: Option<&Page>,
    second: Option<&Page>,
    other: Option<FileName>,
) -> Result<Found, Fault>
    requires { IfSome other IsFileName }
{
    let mut host = MemHost::new(alloc);
    if let Some(page) = first {
        host.set_page(&CONTROL, 0, page)?;
    }
    if let Some(page) = second {
        host.set_page(&CONTROL, 1, page)?;
    }
    if let Some(file) = other {
        host.set_page(&file, 0, &Page::zero())?;
    }
    read(alloc, &mut host)
}

// What is found where the control file is empty, beside another file or none.
fn found_empty(alloc: Global, other: Option<FileName>) -> Result<Found, Fault>
    requires { IfSome other IsFileName }
{
    let mut host = MemHost::new(alloc);
    host.reserve(1, 0)?;
    host.set_page(&CONTROL, 0, &Page::zero())?;
    host.cut(&CONTROL, 0)?;
    if let Some(file) = other {
        host.set_page(&file, 0, &Page::zero())?;
    }
    read(alloc, &mut host)
}

// What is found where the control file is a page of zeros, beside another file or none.
fn found_blank(alloc: Global, other: Option<FileName>) -> Result<Found, Fault>
    requires { IfSome other IsFileName }
{
    let zeros = Page::zero();
    found(alloc, Some(&zeros), None, other)
}

// What is found where the control file is two pages of zeros.
fn found_two_blank(alloc: Global) -> Result<Found, Fault> {
    let zeros = Page::zero();
    let more = Page::zero();
    found(alloc, Some(&zeros), Some(&more), None)
}

fn is_fresh(read: &Result<Found, Fault>) -> bool {
    matches!(read, Ok(Found::Fresh))
}

fn is_kept(read: &Result<Found, Fault>, file: u32, offset: u32) -> bool {
    match read {
        Ok(found) => *found == Found::Kept(control(file, offset)),
        Err(_) => false,
    }
}

fn is_missing(read: &Result<Found, Fault>) -> bool {
    matches!(
        read,
        Err(Fault::FileMissing {
            file: FileName::Control
        })
    )
}

fn is_not_ours(read: &Result<Found, Fault>) -> bool {
    matches!(
        read,
        Err(Fault::NotOurs {
            file: FileName::Control
        })
    )
}

#[test]
fn a_blank_control_file_is_fresh_or_missing(rt: HostRuntime) {
    let alloc = rt.alloc();
    assert!(rt; is_fresh(&found(alloc, None, None, None)));
    assert!(rt; is_missing(&found(alloc, None, None, Some(LOG))));
    assert!(rt; is_fresh(&found_empty(alloc, None)));
    assert!(rt; is_missing(&found_empty(alloc, Some(LOG))));
    assert!(rt; is_fresh(&found_blank(alloc, None)));
    assert!(rt; is_missing(&found_blank(alloc, Some(LOG))));
    assert!(rt; is_not_ours(&found_two_blank(alloc)));
}

#[test]
fn a_page_is_kept_or_foreign_or_damaged(rt: HostRuntime) {
    let alloc = rt.alloc();
    let page = spelled();
    let zeros = Page::zero();
    assert!(rt; is_kept(&found(alloc, Some(&page), None, None), 2, 0x2010));
    assert!(rt; is_kept(&found(alloc, Some(&page), None, Some(LOG)), 2, 0x2010));
    assert!(rt;
        is_kept(
            &found(alloc, Some(&page), Some(&zeros), Some(LOG)),
            2,
            0x2010
        )
    );
    // The first byte of the magic; a byte of the zeros; the same with its checksum set.
    let other = with_byte(4, b'a');
    let broken = with_byte(30, 1);
    assert!(rt; is_not_ours(&found(alloc, Some(&other), None, Some(LOG))));
    assert!(rt; is_not_ours(&found(alloc, Some(&summed(&other)), None, Some(LOG))));
    assert!(rt;
        matches!(
            found(alloc, Some(&broken), None, Some(LOG)),
            Err(Fault::ControlDamaged)
        )
    );
    assert!(rt;
        is_kept(
            &found(alloc, Some(&summed(&broken)), None, Some(LOG)),
            2,
            0x2010
        )
    );
}

// Writes two controls on a page of zeros, where the host's call of that number fails.
fn write_both(
    alloc: Global,
    first: &Control,
    second: &Control,
    fails: u64,
) -> Result<MemHost, Fault> {
    let mut host = MemHost::new(alloc);
    host.reserve(4, 0)?;
    host.set_page(&CONTROL, 0, &Page::zero())?;
    host.plan_fault(fails)?;
    write(&mut host, first)?;
    let _ = write(&mut host, second);
    Ok(host)
}

// What is found after both were written, and a crash that keeps or loses a write that isn't synced.
fn survives(alloc: Global, fails: u64, keeps: bool) -> Result<Found, Fault> {
    let mut host = write_both(alloc, &control(1, 16), &control(2, 0x2010), fails)?;
    let mut fates = List::new(alloc);
    fates.push(if keeps { Fate::Kept } else { Fate::Lost })?;
    host.crash(&fates)?;
    read(alloc, &mut host)
}

// The first is written by the calls 0 and 1, the second by 2 and 3.
#[test]
fn a_crash_leaves_the_page_as_it_was_or_the_new_one(rt: HostRuntime) -> Result<(), Fail> {
    let alloc = rt.alloc();
    assert!(rt; is_kept(&survives(alloc, 2, true), 1, 16));
    assert!(rt; is_kept(&survives(alloc, 3, false), 1, 16));
    assert!(rt; is_kept(&survives(alloc, 3, true), 2, 0x2010));
    assert!(rt; is_kept(&survives(alloc, 4, false), 2, 0x2010));
    let host = write_both(alloc, &control(1, 16), &control(2, 0x2010), 4)?;
    let page = host.page(&CONTROL, 0).ok_or("no page")?;
    assert!(rt; page.bytes() == spelled().bytes());
    Ok(())
}

// Whether the file ends within a page, and what is there isn't ours.
fn is_odd(alloc: Global, host: &mut DirHost, file: &FileName) -> Result<bool, Fault>
    requires { IsFileName file.now }
{
    let odd = match host.look(file)? {
        Some(extent) => extent.odd,
        None => false,
    };
    Ok(odd && is_not_ours(&read(alloc, host)))
}

// The length of a real file may be no multiple of a page's.
#[test]
fn a_file_that_ends_within_a_page_is_not_ours(rt: HostRuntime) -> Result<(), Fail> {
    let mut host = DirHost::new(&rt);
    fs::write(&rt, "aria_log_control", "ARIAOWN1")?;
    assert!(rt; is_odd(rt.alloc(), &mut host, &CONTROL)?);
    fs::remove_file(&rt, "aria_log_control")?;
    Ok(())
}
