ghost use Rattle.std.specs.Prelude.{◌<◌, ◌≤◌, ◌^◌, OnOk};
ghost use Rattle.aria_host.specs.MemHost.{mem_state};
ghost use Rattle.aria_pager.specs.Usable.{IsUsable};

use super::crashes::{most, text};
use super::faults::start;
use super::{crash_in_turn, force, look, open, put, table_name};
use crate::PageStore;
use aria_host::{Fault, FileName, MemHost};
use aria_page::{Lsn, Name, Page};
use std::alloc::Global;
use std::test::Fail;

/// Fates of the unsynced writes, which they have in turn: kept, lost or torn.
const FATES: [&str; 6] = ["k", "l", "t", "kl", "lk", "ktl"];

// How many calls it makes of the host to put a row on this page.
fn calls(
    alloc: Global,
    store: &mut PageStore,
    host: &mut MemHost,
    name: &Name,
    page: u32,
) -> Result<u64, Fault>
    requires usable { IsUsable store.old (mem_state host.old) }
    requires page { page < 2 ^ 31 }
    ensures { OnOk result (IsUsable store.new (mem_state host.new)) }
{
    let _file = FileName::Control;
    let before = host.calls();
    put(alloc, store, host, name, page, b"#")?;
    Ok(host.calls().wrapping_sub(before))
}

// The most and the fewest calls that a row on one of the pages 65 to 128 takes.
fn range(
    alloc: Global,
    store: &mut PageStore,
    host: &mut MemHost,
    name: &Name,
) -> Result<(u64, u64), Fault>
    requires { IsUsable store.old (mem_state host.old) }
    ensures { OnOk result (IsUsable store.new (mem_state host.new)) }
{
    let _file = FileName::Control;
    let mut least = u64::MAX;
    let mut most = 0;
    for nth in 0..64u32 {
        let count = calls(alloc, store, host, name, nth + 65)?;
        least = least.min(count);
        most = most.max(count);
    }
    Ok((least, most))
}

// The groups of pages 1 to 64 are on the disk. So each of the next 64 writes one page of the table, and calls the host for
// nothing else; then it is the turn of page 65, whose group isn't there.
#[test]
fn a_page_whose_group_is_forced_is_written_alone(rt: HostRuntime) -> Result<(), Fail> {
    let _file = FileName::Control;
    let alloc = rt.alloc();
    let name = table_name()?;
    let mut host = MemHost::new(alloc);
    let (mut store, _numbers) = start(alloc, &mut host, &name)?;
    let (least, most) = range(alloc, &mut store, &mut host, &name)?;
    assert_eq!(rt; least, 1);
    assert_eq!(rt; most, 1);
    assert!(rt; calls(alloc, &mut store, &mut host, &name, 129)? > 1);
    Ok(())
}

// A page whose body begins with the text of the group of this number, and goes on with zeros.
fn titled(nth: u32) -> Page {
    let mut page = Page::zero();
    page.put(11, &text(nth));
    page
}

// Puts a row that fills a page of the log. The group's number stands in it.
fn put_long(
    alloc: Global,
    store: &mut PageStore,
    host: &mut MemHost,
    name: &Name,
    page: u32,
    nth: u32,
) -> Result<Lsn, Fault>
    requires usable { IsUsable store.old (mem_state host.old) }
    requires low { page < 2 ^ 31 }
    ensures { IsUsable store.new (mem_state host.new) }
{
    let _file = FileName::Control;
    let row = titled(nth);
    put(alloc, store, host, name, page, most(row.body()))
}

// Puts rows on so many pages, from page 66 on. Each group fills a page of the log, and takes a page out of memory.
fn put_more(
    alloc: Global,
    store: &mut PageStore,
    host: &mut MemHost,
    name: &Name,
    count: u32,
) -> Result<(), Fault>
    requires usable { IsUsable store.old (mem_state host.old) }
    requires few { count ≤ 64 }
    ensures { OnOk result (IsUsable store.new (mem_state host.new)) }
{
    let _file = FileName::Control;
    for nth in 0..count {
        put_long(alloc, store, host, name, nth + 66, nth + 65)?;
    }
    Ok(())
}

// Whether pages 2 to 64 have the bytes and the numbers of their groups.
fn have_others(
    alloc: Global,
    store: &mut PageStore,
    host: &mut MemHost,
    name: &Name,
    numbers: &[Lsn],
) -> Result<bool, Fault>
    requires { IsUsable store.old (mem_state host.old) }
    ensures { OnOk result (IsUsable store.new (mem_state host.new)) }
{
    let _file = FileName::Control;
    let mut all = true;
    for nth in 1..64u32 {
        let found = look(alloc, store, host, name, nth + 1, &text(nth))?;
        all &= matches!(found, Some((true, lsn)) if numbers.get(nth as usize) == Some(&lsn));
    }
    Ok(all)
}

// Whether a page has the bytes and the number of this group.
fn has_group(
    alloc: Global,
    store: &mut PageStore,
    host: &mut MemHost,
    name: &Name,
    page: u32,
    nth: u32,
    number: Option<&Lsn>,
) -> Result<bool, Fault>
    requires { IsUsable store.old (mem_state host.old) }
    ensures { OnOk result (IsUsable store.new (mem_state host.new)) }
{
    let _file = FileName::Control;
    let found = look(alloc, store, host, name, page, &text(nth))?;
    Ok(matches!(found, Some((true, lsn)) if number == Some(&lsn)))
}

// Brings all groups to the disk, or not.
fn force_if(store: &mut PageStore, host: &mut MemHost, forces: bool) -> Result<(), Fault>
    requires { IsUsable store.old (mem_state host.old) }
    ensures { OnOk result (IsUsable store.new (mem_state host.new)) }
{
    let _file = FileName::Control;
    if !forces {
        return Ok(());
    }
    force(store, host)
}

// Page 65 takes the place of page 1, which is written, and not synced. A group touches page 1 again, and is forced or not; then
// come so many others, and a crash. Whether page 1 has that group then, or else the forced one before it; `None` if it has
// neither, or if another page lacks its forced group.
fn touch_again(alloc: Global, forces: bool, count: u32, fates: &str) -> Result<Option<bool>, Fault>
    requires { count ≤ 64 }
{
    let _file = FileName::Control;
    let name = table_name()?;
    let mut host = MemHost::new(alloc);
    let (mut store, numbers) = start(alloc, &mut host, &name)?;
    put(alloc, &mut store, &mut host, &name, 65, b"#")?;
    let again = put_long(alloc, &mut store, &mut host, &name, 1, 64)?;
    force_if(&mut store, &mut host, forces)?;
    put_more(alloc, &mut store, &mut host, &name, count)?;
    crash_in_turn(alloc, &mut host, fates)?;
    let mut store = open(alloc, &mut host)?;
    let others = have_others(alloc, &mut store, &mut host, &name, numbers.as_slice())?;
    let first = numbers.as_slice().first();
    let old = has_group(alloc, &mut store, &mut host, &name, 1, 0, first)?;
    let new = has_group(alloc, &mut store, &mut host, &name, 1, 64, Some(&again))?;
    if !others || old == new {
        return Ok(None);
    }
    Ok(Some(new))
}

// Whether page 1 has the same group with each of the fates, and whether it has one of the two.
fn groups_found(alloc: Global, forces: bool, count: u32) -> Result<(Option<bool>, bool), Fault>
    requires { count ≤ 64 }
{
    let _file = FileName::Control;
    let first = touch_again(alloc, forces, count, "k")?;
    let mut same = true;
    let mut all = true;
    for fates in FATES {
        let found = touch_again(alloc, forces, count, fates)?;
        same &= found == first;
        all &= found.is_some();
    }
    Ok((if same { first } else { None }, all))
}

#[test]
fn a_page_that_was_written_is_found_as_it_was(rt: HostRuntime) -> Result<(), Fail> {
    let _file = FileName::Control;
    let alloc = rt.alloc();
    assert_eq!(rt; groups_found(alloc, false, 0)?, (Some(false), true));
    Ok(())
}

#[test]
fn a_forced_group_of_a_page_that_was_written_is_found(rt: HostRuntime) -> Result<(), Fail> {
    let _file = FileName::Control;
    let alloc = rt.alloc();
    assert_eq!(rt; groups_found(alloc, true, 0)?, (Some(true), true));
    Ok(())
}

// The group that touches page 1 again lies in a page of the log that was written by the next one, and not synced.
#[test]
fn a_page_that_was_written_has_the_group_or_the_one_before(rt: HostRuntime) -> Result<(), Fail> {
    let _file = FileName::Control;
    let alloc = rt.alloc();
    assert_eq!(rt; groups_found(alloc, false, 1)?, (None, true));
    Ok(())
}

// Page 1 leaves memory once more, when page 65 has brought all groups to the disk.
#[test]
fn a_page_that_was_written_may_be_written_again(rt: HostRuntime) -> Result<(), Fail> {
    let _file = FileName::Control;
    let alloc = rt.alloc();
    assert_eq!(rt; groups_found(alloc, false, 64)?, (Some(true), true));
    Ok(())
}

// Whether a crash leaves a front of four groups, each of which takes a page out of memory whose own group is forced; and all
// forced groups.
fn leaves_front(alloc: Global, fates: &str) -> Result<bool, Fault> {
    let _file = FileName::Control;
    let name = table_name()?;
    let mut host = MemHost::new(alloc);
    let (mut store, numbers) = start(alloc, &mut host, &name)?;
    let one = put_long(alloc, &mut store, &mut host, &name, 65, 70)?;
    let two = put_long(alloc, &mut store, &mut host, &name, 1, 71)?;
    let three = put_long(alloc, &mut store, &mut host, &name, 66, 72)?;
    let four = put_long(alloc, &mut store, &mut host, &name, 67, 73)?;
    crash_in_turn(alloc, &mut host, fates)?;
    let mut store = open(alloc, &mut host)?;
    let others = have_others(alloc, &mut store, &mut host, &name, numbers.as_slice())?;
    let first = has_group(alloc, &mut store, &mut host, &name, 65, 70, Some(&one))?;
    let second = has_group(alloc, &mut store, &mut host, &name, 1, 71, Some(&two))?;
    let third = has_group(alloc, &mut store, &mut host, &name, 66, 72, Some(&three))?;
    let fourth = has_group(alloc, &mut store, &mut host, &name, 67, 73, Some(&four))?;
    Ok(others && (first || !second) && (second || !third) && (third || !fourth))
}

fn leave_fronts(alloc: Global) -> Result<bool, Fault> {
    let _file = FileName::Control;
    let mut all = true;
    for fates in FATES {
        all &= leaves_front(alloc, fates)?;
    }
    Ok(all)
}

#[test]
fn a_front_is_found_behind_pages_that_were_written(rt: HostRuntime) -> Result<(), Fail> {
    let _file = FileName::Control;
    let alloc = rt.alloc();
    assert!(rt; leave_fronts(alloc)?);
    Ok(())
}
