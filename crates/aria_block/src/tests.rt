ghost use Rattle.std.specs.Prelude.{◌≡◌, ◌≤◌, true, false, length};
ghost use Rattle.aria_block.specs.declared.layout.TheConstants.{ROW_MAX};
ghost use Rattle.aria_cache.specs.MemPages.{MemStands};

use crate::deleting::delete_row;
use crate::putting_back::put_back;
use crate::row_reading::read_row;
use crate::storing::insert_row;
use aria_bitmap::entry;
use aria_cache::{MemPages, OpenGroup, PageId, Pages, RowFault};
use aria_host::{Fault, FileName};
use aria_page::{Bytes, Part, Place, Places};
use std::alloc::Global;
use std::test::*;

/// How a row is stored: the bytes of its head, those of its tail, and its blob pages.
#[derive(Clone, Copy, Debug, PartialEq, Eq)]
struct Shape {
    head: u32,
    tail: u32,
    blobs: u8,
}

// Puts a row.
fn put(alloc: Global, pages: &mut MemPages, row: &[u8]) -> Result<Places, RowFault>
    requires stands { MemStands pages.old }
    requires none { pages.old.in_group ≡ false }
    requires few { length row.now ≤ ROW_MAX }
    ensures stands { MemStands pages.new }
{
    let _file = FileName::Control;
    let mut group = pages.group();
    let answer = insert_row(alloc, pages, &mut group, 0, row);
    group.spend();
    answer
}

// The length of the part at a place.
fn part_len(alloc: Global, pages: &mut MemPages, place: Place) -> Result<u32, Fault>
    requires stands { MemStands pages.old }
    ensures stands { MemStands pages.new }
{
    let _file = FileName::Control;
    if place.page >= pages.count(0, Part::Rows) || place.slot == 255 {
        return Ok(0);
    }
    pages.load(
        alloc,
        PageId {
            slot: 0,
            part: Part::Rows,
            page: place.page,
        },
    )?;
    Ok(entry(pages.loaded().body(), place.slot) % 65536)
}

// How a row of so many bytes is stored; `None` after a fault.
fn shape_of(alloc: Global, len: usize) -> Option<Shape>
    requires { len ≤ ROW_MAX }
{
    let Ok(row) = vec![in alloc; 7u8; len] else {
        return None;
    };
    let mut pages = MemPages::new(alloc);
    let Ok(places) = put(alloc, &mut pages, row.as_slice()) else {
        return None;
    };
    let Ok(head) = part_len(alloc, &mut pages, places.head) else {
        return None;
    };
    let tail = match places.tail {
        None => 0,
        Some(place) => match part_len(alloc, &mut pages, place) {
            Err(_) => return None,
            Ok(tail) => tail,
        },
    };
    Some(Shape {
        head,
        tail,
        blobs: places.blobs,
    })
}

#[test]
fn rows_are_divided(rt: HostRuntime) -> Result<(), Fail> {
    let alloc = rt.alloc();
    assert!(rt;
        shape_of(alloc, 5_986)
            == Some(Shape {
                head: 6_000,
                tail: 0,
                blobs: 0
            })
    );
    assert!(rt;
        shape_of(alloc, 5_987)
            == Some(Shape {
                head: 2_000,
                tail: 0,
                blobs: 1
            })
    );
    assert!(rt;
        shape_of(alloc, 14_166)
            == Some(Shape {
                head: 2_000,
                tail: 4_000,
                blobs: 1
            })
    );
    Ok(())
}

// Puts a row, takes it, and puts it back where it stood.
fn put_again(
    alloc: Global,
    pages: &mut MemPages,
    group: &mut OpenGroup,
    row: &[u8],
) -> Result<Places, RowFault>
    requires stands { MemStands pages.old }
    requires group { pages.old.in_group ≡ true }
    requires few { length row.now ≤ ROW_MAX }
    ensures stands { MemStands pages.new }
{
    let _file = FileName::Control;
    let places = insert_row(alloc, pages, group, 0, row)?;
    delete_row(alloc, pages, group, 0, &places)?;
    put_back(alloc, pages, group, 0, row, &places)?;
    Ok(places)
}

// Whether a row of so many bytes, put again, is read where it stood.
fn comes_back(alloc: Global, len: usize) -> bool
    requires { len ≤ ROW_MAX }
{
    let Ok(row) = vec![in alloc; 7u8; len] else {
        return false;
    };
    let mut pages = MemPages::new(alloc);
    let mut group = pages.group();
    let answer = put_again(alloc, &mut pages, &mut group, row.as_slice());
    group.spend();
    let Ok(places) = answer else {
        return false;
    };
    let mut out = Bytes::new(alloc);
    let Ok(found) = read_row(alloc, &mut pages, 0, places.head, &mut out) else {
        return false;
    };
    found == places && out.as_slice() == row.as_slice()
}

#[test]
fn rows_are_put_back(rt: HostRuntime) -> Result<(), Fail> {
    let alloc = rt.alloc();
    assert!(rt; comes_back(alloc, 2_000));
    assert!(rt; comes_back(alloc, 40_000));
    Ok(())
}
