use super::crashes::{fill, front};
use super::faults::closed;
use super::{close, crash_all, force, look, open, slot_of, table_name};
use aria_host::{Fault, FileName, MemHost};
use aria_page::{List, Lsn, Name, Page};
use std::alloc::Global;
use std::test::Fail;

// Whether the answer is that the table's index file isn't ours.
fn is_foreign<T: Drop>(answer: Result<T, Fault>, name: &Name) -> bool {
    let keys = FileName::Keys(*name);
    matches!(&answer, Err(Fault::NotOurs { file }) if file.is_same(&keys))
}

// Whether it is that the index file's first page is damaged.
fn is_damaged<T: Drop>(answer: Result<T, Fault>, name: &Name) -> bool {
    let keys = FileName::Keys(*name);
    matches!(&answer, Err(Fault::PageDamaged { file, page: 0 }) if file.is_same(&keys))
}

// Whether it is that the log is damaged at its end, which is page 2 of its first file.
fn is_ahead<T: Drop>(answer: Result<T, Fault>) -> bool {
    matches!(&answer, Err(Fault::LogDamaged { file: 1, page: 2 }))
}

// The first page of a file, or zeros.
fn first_page(host: &MemHost, file: &FileName) -> Page {
    match host.page(file, 0) {
        Some(page) => *page,
        None => Page::zero(),
    }
}

// The page with another magic.
fn foreign(page: &Page) -> Page {
    let mut page = *page;
    page.put(12, b"other   ");
    page.sum();
    page
}

// The page with the kind of a bitmap page.
fn of_another_kind(page: &Page) -> Page {
    let mut page = *page;
    page.put(11, &[2]);
    page.sum();
    page
}

// The page with another last byte, and the checksum that it had.
fn unsound(page: &Page) -> Page {
    let mut page = *page;
    page.put(8191, &[1]);
    page
}

// The page as of a group that the log hasn't come to.
fn ahead(page: &Page) -> Page {
    let mut page = *page;
    page.seal(Lsn {
        file: 1,
        offset: 81936,
    });
    page
}

#[test]
fn a_header_of_which_the_groups_tell(rt: HostRuntime) -> Result<(), Fail> {
    let _file = FileName::Control;
    let alloc = rt.alloc();
    let name = table_name()?;
    let keys = FileName::Keys(name);
    let mut host = closed(alloc, &name)?;
    let header = first_page(&host, &keys);
    host.set_page(&keys, 0, &foreign(&header))?;
    assert!(rt; is_foreign(open(alloc, &mut host), &name));
    host.set_page(&keys, 0, &of_another_kind(&header))?;
    assert!(rt; is_damaged(open(alloc, &mut host), &name));
    host.set_page(&keys, 0, &unsound(&header))?;
    assert!(rt; is_damaged(open(alloc, &mut host), &name));
    host.set_page(&keys, 0, &ahead(&header))?;
    assert!(rt; is_ahead(open(alloc, &mut host)));
    host.set_page(&keys, 0, &header)?;
    open(alloc, &mut host)?;
    Ok(())
}

// The files of a table that is known by its index file alone, which begins with this page.
fn listed(alloc: Global, name: &Name, first: &Page) -> Result<MemHost, Fault> {
    let _file = FileName::Control;
    let mut host = MemHost::new(alloc);
    let store = open(alloc, &mut host)?;
    close(alloc, store, &mut host)?;
    host.set_page(&FileName::Keys(*name), 0, first)?;
    host.set_page(&FileName::Rows(*name), 0, &Page::zero())?;
    Ok(host)
}

#[test]
fn a_header_of_which_no_group_tells(rt: HostRuntime) -> Result<(), Fail> {
    let _file = FileName::Control;
    let alloc = rt.alloc();
    let name = table_name()?;
    let mut host = listed(alloc, &name, &Page::zero())?;
    let mut store = open(alloc, &mut host)?;
    assert!(rt; is_foreign(slot_of(&mut store, &mut host, &name), &name));
    assert!(rt; is_foreign(slot_of(&mut store, &mut host, &name), &name));
    Ok(())
}

// Page 1 is a group's, so the opening reads it; page 2 is no group's.
#[test]
fn a_page_ahead_of_the_log(rt: HostRuntime) -> Result<(), Fail> {
    let _file = FileName::Control;
    let alloc = rt.alloc();
    let name = table_name()?;
    let rows = FileName::Rows(name);
    let mut host = closed(alloc, &name)?;
    host.set_page(&rows, 2, &ahead(&Page::zero()))?;
    let mut store = open(alloc, &mut host)?;
    assert!(rt; look(alloc, &mut store, &mut host, &name, 1, b"a")?.is_some());
    assert!(rt; is_ahead(look(alloc, &mut store, &mut host, &name, 2, b"a")));
    host.set_page(&rows, 1, &ahead(&Page::zero()))?;
    assert!(rt; is_ahead(open(alloc, &mut host)));
    Ok(())
}

// Fills pages 1 to 70. The first ones leave memory, and the file gets longer, but no page of them is synced. So a crash loses
// them all.
fn shorten(alloc: Global, host: &mut MemHost, name: &Name) -> Result<List<Lsn>, Fault> {
    let _file = FileName::Control;
    let mut store = open(alloc, host)?;
    let numbers = fill(alloc, &mut store, host, name, 70)?;
    force(&mut store, host)?;
    if host.page(&FileName::Rows(*name), 1).is_none() {
        return Err(Fault::Input);
    }
    crash_all(alloc, host, b'l')?;
    Ok(numbers)
}

#[test]
fn pages_that_a_file_lacks_are_made_again(rt: HostRuntime) -> Result<(), Fail> {
    let _file = FileName::Control;
    let alloc = rt.alloc();
    let name = table_name()?;
    let rows = FileName::Rows(name);
    let mut host = MemHost::new(alloc);
    let numbers = shorten(alloc, &mut host, &name)?;
    assert!(rt; host.page(&rows, 1).is_none());
    let mut store = open(alloc, &mut host)?;
    let found = front(alloc, &mut store, &mut host, &name, numbers.as_slice())?;
    assert_eq!(rt; found, Some(70));
    close(alloc, store, &mut host)?;
    assert!(rt; host.page(&rows, 70).is_some());
    Ok(())
}
