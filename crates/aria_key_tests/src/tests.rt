ghost use Rattle.std.specs.Prelude.{◌≡◌, ◌≤◌, ◌<◌, ◌^◌, true, false, length, IfSome, IfOk};
ghost use Rattle.aria_keypage.specs.declared.item.TheConstants.{ENTRY_MAX};
ghost use Rattle.aria_cache.specs.MemPages.{MemStands};
ghost use Rattle.aria_key_tests.specs.declared.tests.TheConstants.{NUMBERS};

use aria_cache::{MemPages, OpenGroup, PageId, Pages};
use aria_host::{Fault, FileName};
use aria_key::{insert, next, remove, seek};
use aria_page::{Change, Last, Lsn, Part, RedoKind, u32_bytes};
use std::alloc::Global;
use std::test::*;

// Ends a group.
fn end(alloc: Global, pages: &mut MemPages, group: OpenGroup) -> bool
    requires stands { MemStands pages.old }
    requires group { pages.old.in_group ≡ true }
    ensures stands { MemStands pages.new }
    ensures none { pages.new.in_group ≡ false }
{
    let none = Lsn { file: 0, offset: 0 };
    pages
        .end(
            alloc,
            group,
            0,
            &Last::Clr {
                undone: none,
                next: none,
            },
        )
        .is_ok()
}

// Makes the header of an index file without entries.
fn begin(alloc: Global, pages: &mut MemPages) -> bool
    requires stands { MemStands pages.old }
    requires none { pages.old.in_group ≡ false }
    ensures stands { MemStands pages.new }
    ensures none { pages.new.in_group ≡ false }
{
    let at = PageId {
        slot: 0,
        part: Part::Keys,
        page: 0,
    };
    let mut group = pages.group();
    let done = pages
        .edit(
            alloc,
            &mut group,
            at,
            RedoKind::State,
            &[Change::Set {
                at: 0,
                bytes: b"\x01",
            }],
        )
        .is_ok();
    end(alloc, pages, group) && done
}

// An entry of so many bytes that begins with a number.
fn entry_of(alloc: Global, n: u32, len: usize) -> Option<Vec<u8>>
    requires least { 4 ≤ len }
    requires most { len ≤ ENTRY_MAX }
    ensures { IfSome result (λ e. length e.items ≤ ENTRY_MAX) }
{
    let Ok(mut entry) = vec![in alloc; 0u8; len] else {
        return None;
    };
    let number = u32_bytes(n);
    entry[0] = number[0];
    entry[1] = number[1];
    entry[2] = number[2];
    entry[3] = number[3];
    Some(entry)
}

// Puts the entry of a number, which leads to that number.
fn put(alloc: Global, pages: &mut MemPages, n: u32, len: usize) -> bool
    requires stands { MemStands pages.old }
    requires none { pages.old.in_group ≡ false }
    requires least { 4 ≤ len }
    requires most { len ≤ ENTRY_MAX }
    ensures stands { MemStands pages.new }
    ensures none { pages.new.in_group ≡ false }
{
    let Some(entry) = entry_of(alloc, n, len) else {
        return false;
    };
    let mut group = pages.group();
    let done = insert(
        alloc,
        pages,
        &mut group,
        0,
        0,
        entry.as_slice(),
        n as u64,
        false,
    )
    .is_ok();
    end(alloc, pages, group) && done
}

// Takes the entry of a number.
fn take(alloc: Global, pages: &mut MemPages, n: u32, len: usize) -> bool
    requires stands { MemStands pages.old }
    requires none { pages.old.in_group ≡ false }
    requires least { 4 ≤ len }
    requires most { len ≤ ENTRY_MAX }
    ensures stands { MemStands pages.new }
    ensures none { pages.new.in_group ≡ false }
{
    let Some(entry) = entry_of(alloc, n, len) else {
        return false;
    };
    let mut group = pages.group();
    let done = remove(alloc, pages, &mut group, 0, 0, entry.as_slice()).is_ok();
    end(alloc, pages, group) && done
}

// Puts the entries of the numbers below this one, each seventh one after the other.
fn put_all(alloc: Global, pages: &mut MemPages, n: u32) -> bool
    requires stands { MemStands pages.old }
    requires none { pages.old.in_group ≡ false }
    requires some { 0 < n }
    requires few { n ≤ 3000 }
    ensures stands { MemStands pages.new }
    ensures none { pages.new.in_group ≡ false }
{
    for i in 0..n {
        if !put(alloc, pages, i * 7 % n, 900) {
            return false;
        }
    }
    true
}

// Takes the entries of the even numbers, so many of them.
fn take_even(alloc: Global, pages: &mut MemPages, n: u32) -> bool
    requires stands { MemStands pages.old }
    requires none { pages.old.in_group ≡ false }
    requires few { n ≤ 3000 }
    ensures stands { MemStands pages.new }
    ensures none { pages.new.in_group ≡ false }
{
    for i in 0..n {
        if !take(alloc, pages, 2 * i, 900) {
            return false;
        }
    }
    true
}

// Whether a walk from the start gives the entries of so many numbers, this far apart and from this one on, and no more.
fn walks(alloc: Global, pages: &mut MemPages, first: u32, apart: u32, n: u32) -> bool
    requires stands { MemStands pages.old }
    requires none { pages.old.in_group ≡ false }
    requires first { first ≤ 3000 }
    requires apart { apart ≤ 3000 }
    requires few { n ≤ 3000 }
    ensures stands { MemStands pages.new }
    ensures none { pages.new.in_group ≡ false }
{
    let Ok(mut cursor) = seek(alloc, pages, 0, 0, b"") else {
        return false;
    };
    for i in 0..n {
        match next(alloc, pages, &mut cursor) {
            Ok(true) => {}
            _ => return false,
        }
        if cursor.target() != (first + apart * i) as u64 {
            return false;
        }
    }
    match next(alloc, pages, &mut cursor) {
        Ok(more) => !more,
        Err(_) => false,
    }
}

// The number of pages of the index file.
fn page_count(pages: &MemPages) -> u32
    requires stands { MemStands pages.now }
{
    pages.count(0, Part::Keys)
}

#[test]
fn every_second_entry_is_taken(rt: HostRuntime) -> Result<(), Fail> {
    let alloc = rt.alloc();
    let mut pages = MemPages::new(alloc);
    assert!(rt; begin(alloc, &mut pages));
    assert!(rt; put_all(alloc, &mut pages, 3_000));
    assert!(rt; walks(alloc, &mut pages, 0, 1, 3_000));
    let most = page_count(&pages);
    assert!(rt; take_even(alloc, &mut pages, 1_500));
    assert!(rt; walks(alloc, &mut pages, 1, 2, 1_500));
    assert!(rt; page_count(&pages) == most);
    Ok(())
}

#[test]
fn the_last_entry_is_taken(rt: HostRuntime) -> Result<(), Fail> {
    let alloc = rt.alloc();
    let mut pages = MemPages::new(alloc);
    assert!(rt; begin(alloc, &mut pages));
    assert!(rt; put(alloc, &mut pages, 5, 900));
    assert!(rt; take(alloc, &mut pages, 5, 900));
    assert!(rt; walks(alloc, &mut pages, 0, 1, 0));
    assert!(rt; put(alloc, &mut pages, 5, 900));
    assert!(rt; page_count(&pages) == 2);
    Ok(())
}

// How many numbers the random test has.
const NUMBERS: usize = 2_000;

// How long the entry of a number is.
fn len_of(n: u32) -> usize
    ensures least { 4 ≤ result }
    ensures most { result ≤ ENTRY_MAX }
{
    4 + (n % 997) as usize
}

// Takes the entry of a number if it is there, and puts it if it isn't.
fn turn(alloc: Global, pages: &mut MemPages, there: &mut Vec<bool>, n: u32) -> bool
    requires stands { MemStands pages.old }
    requires none { pages.old.in_group ≡ false }
    requires numbers { length there.old.items ≡ NUMBERS }
    requires low { n < NUMBERS }
    ensures stands { MemStands pages.new }
    ensures none { pages.new.in_group ≡ false }
    ensures numbers { length there.new.items ≡ NUMBERS }
{
    let at = n as usize;
    if there[at] {
        there[at] = false;
        return take(alloc, pages, n, len_of(n));
    }
    there[at] = true;
    put(alloc, pages, n, len_of(n))
}

// The next random number.
fn random(x: u32) -> u32 {
    x.wrapping_mul(1_664_525).wrapping_add(1_013_904_223)
}

// Turns a thousand random numbers. Gives the last random number; none where a call failed.
fn turn_many(alloc: Global, pages: &mut MemPages, there: &mut Vec<bool>, seed: u32) -> Option<u32>
    requires stands { MemStands pages.old }
    requires none { pages.old.in_group ≡ false }
    requires numbers { length there.old.items ≡ NUMBERS }
    ensures stands { MemStands pages.new }
    ensures none { pages.new.in_group ≡ false }
    ensures numbers { length there.new.items ≡ NUMBERS }
{
    let mut x = seed;
    for _i in 0..1_000u32 {
        x = random(x);
        if !turn(alloc, pages, there, (x >> 8) % NUMBERS as u32) {
            return None;
        }
    }
    Some(x)
}

// Whether a walk gives exactly the numbers that are there.
fn are_there(alloc: Global, pages: &mut MemPages, there: &[bool]) -> bool
    requires stands { MemStands pages.old }
    requires none { pages.old.in_group ≡ false }
    ensures stands { MemStands pages.new }
    ensures none { pages.new.in_group ≡ false }
{
    let Ok(mut cursor) = seek(alloc, pages, 0, 0, b"") else {
        return false;
    };
    for n in 0..there.len() {
        if there[n] {
            match next(alloc, pages, &mut cursor) {
                Ok(true) => {}
                _ => return false,
            }
            if cursor.target() != n as u64 {
                return false;
            }
        }
    }
    match next(alloc, pages, &mut cursor) {
        Ok(more) => !more,
        Err(_) => false,
    }
}

// Turns random numbers, so many thousands, and walks the tree behind each thousand.
fn turn_all(alloc: Global, pages: &mut MemPages, there: &mut Vec<bool>, thousands: u32) -> bool
    requires stands { MemStands pages.old }
    requires none { pages.old.in_group ≡ false }
    requires numbers { length there.old.items ≡ NUMBERS }
    ensures stands { MemStands pages.new }
    ensures none { pages.new.in_group ≡ false }
{
    let mut x = 12_345u32;
    for _k in 0..thousands {
        match turn_many(alloc, pages, there, x) {
            None => return false,
            Some(y) => x = y,
        }
        if !are_there(alloc, pages, there.as_slice()) {
            return false;
        }
    }
    true
}

#[test]
fn random_entries_come_and_go(rt: HostRuntime) -> Result<(), Fail> {
    let alloc = rt.alloc();
    let mut pages = MemPages::new(alloc);
    assert!(rt; begin(alloc, &mut pages));
    let Ok(mut there) = vec![in alloc; false; NUMBERS] else {
        return Ok(());
    };
    assert!(rt; turn_all(alloc, &mut pages, &mut there, 100));
    Ok(())
}
