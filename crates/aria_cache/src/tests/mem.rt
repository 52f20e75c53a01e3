ghost use Rattle.std.specs.Prelude.{◌≡◌, ◌<◌, ◌≤◌, ◌^◌, false, IsTrue, IfOk};
ghost use Rattle.aria_cache.specs.Causes.{IsFound};
ghost use Rattle.aria_cache.specs.MemPages.{MemStands};

use super::putting::{byte_at, set_byte};
use crate::{MemPages, PageId, Pages};
use aria_host::{Fault, FileName};
use aria_page::{Last, Lsn, Part};
use std::alloc::{AllocError, Global};
use std::test::*;

const NONE: Lsn = Lsn { file: 0, offset: 0 };

const UNDONE: Last = Last::Clr {
    undone: NONE,
    next: NONE,
};

// The byte at a place of a page that is there.
fn byte_of<P: Pages>(
    alloc: Global,
    pages: &mut P,
    at: PageId,
    place: u16,
) -> Result<Option<u8>, Fault>
    requires stands { P.stands pages.old }
    requires open { IsTrue ((P.state pages.old).is_open at.slot) }
    requires place { place < 8181 }
    ensures stands { P.stands pages.new }
{
    let _file = FileName::Control;
    if at.page >= pages.count(at.slot, at.part) {
        return Ok(None);
    }
    Ok(Some(byte_at(alloc, pages, at, place)?))
}

// Puts two bytes into a page and one into another.
fn put_three(alloc: Global, pages: &mut MemPages, one: PageId, other: PageId) -> Result<Lsn, Fault>
    requires stands { MemStands pages.old }
    requires none { pages.old.in_group ≡ false }
    requires low_one { one.page < 2 ^ 31 }
    requires low_other { other.page < 2 ^ 31 }
    ensures stands { MemStands pages.new }
{
    let _file = FileName::Control;
    set_byte(alloc, pages, one, 7, 1, &UNDONE)?;
    set_byte(alloc, pages, one, 8, 2, &UNDONE)?;
    set_byte(alloc, pages, other, 7, 3, &UNDONE)
}

// The byte of a page in memory.
fn read(alloc: Global, pages: &mut MemPages, at: PageId, place: u16) -> Result<Option<u8>, Fault>
    requires stands { MemStands pages.old }
    requires place { place < 8181 }
    ensures stands { MemStands pages.new }
{
    byte_of(alloc, pages, at, place)
}

#[test]
fn edits_are_found_again(rt: HostRuntime) -> Result<(), Fail> {
    let alloc = rt.alloc();
    let mut pages = MemPages::new(alloc);
    let keys = PageId {
        slot: 3,
        part: Part::Keys,
        page: 2,
    };
    let rows = PageId {
        slot: 3,
        part: Part::Rows,
        page: 0,
    };
    assert_eq!(rt; put_three(alloc, &mut pages, keys, rows)?, NONE);
    assert_eq!(rt; read(alloc, &mut pages, keys, 7)?, Some(1));
    assert_eq!(rt; read(alloc, &mut pages, keys, 8)?, Some(2));
    assert_eq!(rt; read(alloc, &mut pages, rows, 7)?, Some(3));
    assert_eq!(rt; read(alloc, &mut pages, rows, 8)?, Some(0));
    assert_eq!(rt; count(&pages, 3, Part::Keys), 3);
    assert_eq!(rt; count(&pages, 3, Part::Rows), 1);
    assert_eq!(rt; count(&pages, 4, Part::Keys), 0);
    assert!(rt; pages.file(12, Part::Rows).text(alloc)?.as_slice() == b"m12.MAD".as_slice());
    Ok(())
}

fn count(pages: &MemPages, slot: u32, part: Part) -> u32
    requires { MemStands pages.now }
{
    pages.count(slot, part)
}

// Pages in memory, with so many in slot 0's data file.
fn with_rows(alloc: Global, count: u32) -> Result<MemPages, AllocError>
    requires { count ≤ 2 ^ 31 }
    ensures { IfOk result MemStands }
{
    let mut pages = MemPages::new(alloc);
    pages.set_count(alloc, 0, Part::Rows, count)?;
    Ok(pages)
}

fn stop(pages: &mut MemPages, why: Fault) -> Fault
    requires stands { MemStands pages.old }
    requires found { IsFound why }
    ensures stands { MemStands pages.new }
{
    pages.stop(why)
}

// The first byte of the body of a page of slot 0's data file.
fn first_of(alloc: Global, pages: &mut MemPages, number: u32) -> Result<Option<u8>, Fault>
    requires stands { MemStands pages.old }
    ensures stands { MemStands pages.new }
{
    let at = PageId {
        slot: 0,
        part: Part::Rows,
        page: number,
    };
    read(alloc, pages, at, 0)
}

#[test]
fn pages_that_were_set_are_blank(rt: HostRuntime) -> Result<(), Fail> {
    let alloc = rt.alloc();
    let mut pages = with_rows(alloc, 21_810)?;
    assert_eq!(rt; count(&pages, 0, Part::Rows), 21_810);
    assert_eq!(rt; first_of(alloc, &mut pages, 0)?, Some(2));
    assert_eq!(rt; first_of(alloc, &mut pages, 1)?, Some(0));
    assert_eq!(rt; first_of(alloc, &mut pages, 21_808)?, Some(0));
    assert_eq!(rt; first_of(alloc, &mut pages, 21_809)?, Some(2));
    assert_eq!(rt; first_of(alloc, &mut pages, 21_810)?, None);
    Ok(())
}

#[test]
fn a_fault_that_is_kept_is_answered_again(rt: HostRuntime) -> Result<(), Fail> {
    let alloc = rt.alloc();
    let mut pages = with_rows(alloc, 1)?;
    let file = FileName::Control;
    let first = stop(&mut pages, Fault::PageDamaged { file, page: 5 });
    assert!(rt; matches!(first, Fault::PageDamaged { page: 5, .. }));
    let second = stop(&mut pages, Fault::Memory(AllocError));
    assert!(rt; matches!(second, Fault::PageDamaged { page: 5, .. }));
    let read = first_of(alloc, &mut pages, 0);
    assert!(rt; matches!(read, Err(Fault::PageDamaged { .. })));
    Ok(())
}
