ghost use Rattle.std.specs.Prelude.{IfOk};
ghost use Rattle.aria_host.specs.MemHost.{mem_state};
ghost use Rattle.aria_pager.specs.Usable.{IsUsable};

use super::crashes::{fill, front};
use super::{close, crash_all, create, drop_table, force, look, open, put, table_name};
use crate::PageStore;
use aria_host::{Fault, FileName, MemHost};
use aria_page::{List, Lsn, Name, Page};
use std::alloc::Global;
use std::test::Fail;

fn is_disk<T: Drop>(answer: Result<T, Fault>) -> bool {
    matches!(answer, Err(Fault::Disk))
}

// Opens the folder, makes the table, and fills pages 1 to 64, whose groups are brought to the disk.
pub(super) fn start(
    alloc: Global,
    host: &mut MemHost,
    name: &Name,
) -> Result<(PageStore, List<Lsn>), Fault>
    ensures { IfOk result (λ started. IsUsable started.0 (mem_state host.new)) }
{
    let _file = FileName::Control;
    let mut store = open(alloc, host)?;
    let numbers = fill(alloc, &mut store, host, name, 64)?;
    force(&mut store, host)?;
    Ok((store, numbers))
}

// Page 65 takes the place of page 1, which is written first. That call alone is planned to fail.
#[test]
fn a_failed_write_is_answered_again(rt: HostRuntime) -> Result<(), Fail> {
    let _file = FileName::Control;
    let alloc = rt.alloc();
    let name = table_name()?;
    let mut first = MemHost::new(alloc);
    start(alloc, &mut first, &name)?;
    let failing = first.calls();
    let mut host = MemHost::new(alloc);
    host.plan_fault(failing)?;
    let (mut store, numbers) = start(alloc, &mut host, &name)?;
    assert_eq!(rt; host.calls(), failing);
    assert!(rt; is_disk(put(alloc, &mut store, &mut host, &name, 65, b"#")));
    let calls = host.calls();
    assert_eq!(rt; calls, failing.wrapping_add(1));
    assert!(rt; is_disk(put(alloc, &mut store, &mut host, &name, 64, b"#")));
    assert!(rt; is_disk(look(alloc, &mut store, &mut host, &name, 64, b"#")));
    assert!(rt; is_disk(force(&mut store, &mut host)));
    assert!(rt; is_disk(drop_table(&mut store, &mut host, &name)));
    assert!(rt; is_disk(close(alloc, store, &mut host)));
    assert_eq!(rt; host.calls(), calls);
    crash_all(alloc, &mut host, b'k')?;
    let mut store = open(alloc, &mut host)?;
    let found = front(alloc, &mut store, &mut host, &name, numbers.as_slice())?;
    assert_eq!(rt; found, Some(64));
    Ok(())
}

// A folder with a table that has page 1, as it was closed.
pub(super) fn closed(alloc: Global, name: &Name) -> Result<MemHost, Fault> {
    let _file = FileName::Control;
    let mut host = MemHost::new(alloc);
    let mut store = open(alloc, &mut host)?;
    create(alloc, &mut store, &mut host, name)?;
    put(alloc, &mut store, &mut host, name, 1, b"a")?;
    close(alloc, store, &mut host)?;
    Ok(host)
}

// Whether the answer is that this page of the data file is damaged.
fn is_damaged<T: Drop>(answer: Result<T, Fault>, name: &Name, page: u32) -> bool {
    let rows = FileName::Rows(*name);
    matches!(&answer, Err(Fault::PageDamaged { file, page: n }) if file.is_same(&rows) && *n == page)
}

// A page whose last byte was flipped, as the program never wrote it.
fn unsound() -> Page {
    let mut page = Page::zero();
    page.put(8191, &[1]);
    page
}

// Page 2 is no group's; page 1 is one's, so the opening reads it.
#[test]
fn a_damaged_page_is_named(rt: HostRuntime) -> Result<(), Fail> {
    let _file = FileName::Control;
    let alloc = rt.alloc();
    let name = table_name()?;
    let rows = FileName::Rows(name);
    let mut host = closed(alloc, &name)?;
    host.set_page(&rows, 2, &unsound())?;
    let mut store = open(alloc, &mut host)?;
    assert!(rt; look(alloc, &mut store, &mut host, &name, 1, b"a")?.is_some());
    assert!(rt; is_damaged(look(alloc, &mut store, &mut host, &name, 2, b"a"), &name, 2));
    assert!(rt; is_damaged(look(alloc, &mut store, &mut host, &name, 1, b"a"), &name, 2));
    host.set_page(&rows, 1, &unsound())?;
    assert!(rt; is_damaged(open(alloc, &mut host), &name, 1));
    Ok(())
}
