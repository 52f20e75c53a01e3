use crate::{Frame, Frames, PageId};
use aria_page::{Change, Edit, List, Lsn, Page, Part};
use std::alloc::{AllocError, Global};
use std::num::NonZeroUsize;
use std::test::*;

const NONE: Lsn = Lsn { file: 0, offset: 0 };

// Holds a page of zeros more, if it isn't held and there is room.
fn hold(alloc: Global, frames: &mut Frames, key: u64) -> Result<bool, AllocError> {
    if frames.is_full() || frames.peek(key).is_some() {
        return Ok(false);
    }
    let frame = Frame {
        page: Box::new(alloc, Page::zero())?,
        lsn: NONE,
        dirty: false,
    };
    frames.insert(key, frame)?;
    Ok(true)
}

// The first byte of the body of a page that is held, and whether it is dirty.
fn first_of(frames: &Frames, key: u64) -> Option<(u8, bool)> {
    let frame = frames.peek(key)?;
    Some((frame.page.body()[0], frame.dirty))
}

#[test]
fn the_page_used_longest_ago_goes_first(rt: HostRuntime) -> Result<(), AllocError> {
    let most = NonZeroUsize::new(3).unwrap_or(NonZeroUsize::MIN);
    let mut frames = Frames::new(rt.alloc(), most)?;
    for key in 1..5u64 {
        let held = hold(rt.alloc(), &mut frames, key)?;
        assert_eq!(rt; held, key < 4);
    }
    assert_eq!(rt; frames.count(), 3);
    assert_eq!(rt; frames.victim(), Some(1));
    assert!(rt; frames.find(1));
    assert!(rt; !frames.find(4));
    assert_eq!(rt; frames.victim(), Some(2));
    assert_eq!(rt; frames.choose(), Some(2));
    frames.unpin_all();
    frames.pin(2);
    assert_eq!(rt; frames.victim(), Some(3));
    assert!(rt; frames.remove(3).is_some());
    assert_eq!(rt; frames.count(), 2);
    assert_eq!(rt; frames.victim(), Some(1));
    Ok(())
}

#[test]
fn a_clean_page_goes_before_a_dirty_one(rt: HostRuntime) -> Result<(), AllocError> {
    let mut frames = Frames::new(
        rt.alloc(),
        NonZeroUsize::new(3).unwrap_or(NonZeroUsize::MIN),
    )?;
    hold(rt.alloc(), &mut frames, 1)?;
    hold(rt.alloc(), &mut frames, 2)?;
    let lsn = Lsn {
        file: 1,
        offset: 16,
    };
    frames.edit(1, &[Change::Set { at: 0, bytes: b"a" }]);
    assert_eq!(rt; first_of(&frames, 1), Some((b'a', true)));
    assert!(rt; frames.find(2));
    assert_eq!(rt; frames.victim(), Some(1));
    assert_eq!(rt; frames.choose(), Some(2));
    frames.unpin_all();
    frames.pin(1);
    frames.stamp_pins(lsn);
    assert!(rt; matches!(frames.peek(1), Some(frame) if frame.lsn == lsn));
    frames.clean(1);
    assert_eq!(rt; first_of(&frames, 1), Some((b'a', false)));
    let mut edits = List::new(rt.alloc());
    edits.push(Edit::Shift {
        at: 0,
        len: 1,
        to: 1,
    })?;
    frames.redo(2, lsn, edits.as_slice());
    assert_eq!(rt; first_of(&frames, 2), Some((0, true)));
    Ok(())
}

#[test]
fn a_page_has_a_number(rt: HostRuntime) {
    let rows = PageId {
        slot: 7,
        part: Part::Rows,
        page: 5,
    };
    assert_eq!(rt; rows.key(), 0x7_8000_0005);
    let again = PageId::of_key(0x7_8000_0005);
    assert_eq!(rt; (again.slot, again.part, again.page), (7, Part::Rows, 5));
}

#[test]
fn the_pages_of_a_slot_go_and_the_others_stay_in_order(rt: HostRuntime) -> Result<(), AllocError> {
    let mut frames = Frames::new(
        rt.alloc(),
        NonZeroUsize::new(9).unwrap_or(NonZeroUsize::MIN),
    )?;
    for key in [
        0x1_0000_0002,
        0x2_8000_0001,
        0x1_8000_0000,
        0x3_0000_0000,
        0x2_0000_0004u64,
    ] {
        hold(rt.alloc(), &mut frames, key)?;
    }
    for key in [0x3_0000_0000, 0x1_8000_0000, 0x1_0000_0002u64] {
        frames.edit(key, &[Change::Set { at: 0, bytes: b"a" }]);
    }
    let dirty = frames.dirty(rt.alloc())?;
    let three = [0x1_0000_0002, 0x1_8000_0000, 0x3_0000_0000u64];
    assert_eq!(rt; dirty.as_slice(), three.as_slice());
    frames.remove_slot(1);
    assert_eq!(rt; frames.count(), 3);
    let dirty = frames.dirty(rt.alloc())?;
    assert_eq!(rt; dirty.as_slice(), [0x3_0000_0000u64].as_slice());
    assert_eq!(rt; frames.victim(), Some(0x2_8000_0001));
    frames.remove_slot(2);
    assert_eq!(rt; frames.victim(), Some(0x3_0000_0000));
    frames.remove_slot(4);
    assert_eq!(rt; frames.count(), 1);
    Ok(())
}
