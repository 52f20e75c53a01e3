ghost use Rattle.std.specs.Prelude.{◌≤◌, OnOk, length};
ghost use Rattle.aria_host.specs.MemHost.{mem_state};
ghost use Rattle.aria_pager.specs.Usable.{IsUsable};

use super::{crash, crash_all, create, force, look, open, put, table_name};
use crate::PageStore;
use aria_host::{Fault, FileName, MemHost};
use aria_page::{List, Lsn, Name, Page};
use std::alloc::Global;
use std::test::Fail;

// The 8 bytes that the group of this number writes.
pub(super) fn text(nth: u32) -> [u8; 8] {
    let [a, b, c, d] = nth.to_be_bytes();
    [b'#', a, b, c, d, b'#', b'#', b'#']
}

// Makes the table and appends so many groups; each writes 8 bytes into another page, from page 1 on. Gives the groups' numbers.
pub(super) fn fill(
    alloc: Global,
    store: &mut PageStore,
    host: &mut MemHost,
    name: &Name,
    count: u32,
) -> Result<List<Lsn>, Fault>
    requires usable { IsUsable store.old (mem_state host.old) }
    requires few { count ≤ 200 }
    ensures { OnOk result (IsUsable store.new (mem_state host.new)) }
{
    let _file = FileName::Control;
    create(alloc, store, host, name)?;
    let mut numbers = List::new(alloc);
    for nth in 0..count {
        let lsn = put(alloc, store, host, name, nth + 1, &text(nth))?;
        numbers.push(lsn)?;
    }
    Ok(numbers)
}

// How many pages from page 1 on have the bytes and the number of their group. None behind them has one of them.
pub(super) fn front(
    alloc: Global,
    store: &mut PageStore,
    host: &mut MemHost,
    name: &Name,
    numbers: &[Lsn],
) -> Result<Option<u32>, Fault>
    requires { IsUsable store.old (mem_state host.old) }
    ensures { OnOk result (IsUsable store.new (mem_state host.new)) }
{
    let _file = FileName::Control;
    let mut count: u32 = 0;
    let mut over = false;
    for nth in 0..200u32 {
        let found = look(alloc, store, host, name, nth + 1, &text(nth))?;
        let has = matches!(found, Some((true, lsn)) if numbers.get(nth as usize) == Some(&lsn));
        let blank = matches!(found, None | Some((false, Lsn { file: 0, offset: 0 })));
        if !has && !blank || has && over {
            return Ok(None);
        }
        if has {
            count = count.wrapping_add(1);
        }
        over = !has;
    }
    Ok(Some(count))
}

// How many of the groups are found after they were appended, and forced or not, and a crash.
fn survive(alloc: Global, forces: bool, letter: u8) -> Result<Option<u32>, Fault> {
    let _file = FileName::Control;
    let name = table_name()?;
    let mut host = MemHost::new(alloc);
    let mut store = open(alloc, &mut host)?;
    let numbers = fill(alloc, &mut store, &mut host, &name, 200)?;
    if forces {
        force(&mut store, &mut host)?;
    }
    crash_all(alloc, &mut host, letter)?;
    let mut store = open(alloc, &mut host)?;
    front(alloc, &mut store, &mut host, &name, numbers.as_slice())
}

#[test]
fn groups_that_were_forced_are_found(rt: HostRuntime) -> Result<(), Fail> {
    let _file = FileName::Control;
    let alloc = rt.alloc();
    assert_eq!(rt; survive(alloc, true, b'l')?, Some(200));
    assert_eq!(rt; survive(alloc, true, b'k')?, Some(200));
    assert_eq!(rt; survive(alloc, true, b't')?, Some(200));
    Ok(())
}

// With 64 pages in memory each group from the 65th on takes a page out. All groups before it are brought to the disk by those
// that take out the pages 1, 65 and 129, whose own groups aren't there yet: by the 65th, the 129th and the 193rd.
#[test]
fn a_front_of_the_others_is_found(rt: HostRuntime) -> Result<(), Fail> {
    let _file = FileName::Control;
    let alloc = rt.alloc();
    assert_eq!(rt; survive(alloc, false, b'k')?, Some(192));
    assert_eq!(rt; survive(alloc, false, b'l')?, Some(192));
    Ok(())
}

// A page whose body begins with a text, and goes on with zeros.
fn titled(text: &[u8; 4]) -> Page {
    let mut page = Page::zero();
    page.put(11, text);
    page
}

// The first 8100 bytes of a body.
pub(super) fn most(body: &[u8]) -> &[u8]
    ensures { length result.now ≤ length body.now }
{
    match body.get(..8100) {
        Some(front) => front,
        None => body,
    }
}

// Which of two groups are found that weren't forced before a crash with these fates.
fn found_of_two(alloc: Global, fates: &str) -> Result<(bool, bool), Fault> {
    let _file = FileName::Control;
    let name = table_name()?;
    let mut host = MemHost::new(alloc);
    let mut store = open(alloc, &mut host)?;
    create(alloc, &mut store, &mut host, &name)?;
    let one = titled(b"one ");
    let two = titled(b"two ");
    put(alloc, &mut store, &mut host, &name, 1, most(one.body()))?;
    put(alloc, &mut store, &mut host, &name, 2, two.body())?;
    crash(alloc, &mut host, fates)?;
    let mut store = open(alloc, &mut host)?;
    let first = look(alloc, &mut store, &mut host, &name, 1, b"one ")?;
    let second = look(alloc, &mut store, &mut host, &name, 2, b"two ")?;
    Ok((
        matches!(first, Some((true, _))),
        matches!(second, Some((true, _))),
    ))
}

// The groups have 8152 and 8233 bytes, and a page of the log takes 8176 of them. So two pages are written, of which the first
// has the first group whole, and the last 33 bytes of the second group never reach the disk.
#[test]
fn an_incomplete_group_is_not_found(rt: HostRuntime) -> Result<(), Fail> {
    let _file = FileName::Control;
    let alloc = rt.alloc();
    assert_eq!(rt; found_of_two(alloc, "kk")?, (true, false));
    assert_eq!(rt; found_of_two(alloc, "kl")?, (true, false));
    assert_eq!(rt; found_of_two(alloc, "kt")?, (true, false));
    assert_eq!(rt; found_of_two(alloc, "lk")?, (false, false));
    assert_eq!(rt; found_of_two(alloc, "tk")?, (false, false));
    assert_eq!(rt; found_of_two(alloc, "ll")?, (false, false));
    Ok(())
}
