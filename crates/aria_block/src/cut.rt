ghost use Rattle.std.specs.Prelude.{◌≡◌, true, ◌+◌, ◌*◌, ◌/◌, ◌<◌, length, take};
ghost use Rattle.aria_page.specs.declared.page.TheConstants.{BODY_BYTES};
ghost use Rattle.aria_block.specs.declared.layout.TheConstants.{ENTRY_BYTES};
ghost use Rattle.aria_block.specs.Cut.{moved, left_entry, left_directory, IsLeft, Lies, Cuts};

use crate::layout::{ENTRY_BYTES, PARTS_AT};
use crate::part_kind::PartKind;
use aria_bitmap::entry;
use aria_page::{BODY_BYTES, u16_of, u32_bytes};

/// What has to be known of a page to take a part from it: where it lies, where all parts end, and the directory that is
/// left, the entry of the highest slot first.
#[derive(Drop)]
pub struct Cut {
    pub at: u16,
    pub len: u16,
    pub end: u16,
    pub left: u8,
    pub entries: [u8; 1020],
}

// A directory entry once a part of so many bytes from a place on is gone.
fn moved(entry: u32, at: u16, len: u16) -> u32
    ensures { result ≡ moved at len entry }
{
    if entry / 65536 > at as u32 {
        return entry.saturating_sub(65536 * len as u32);
    }
    entry
}

// The number of directory entries up to the last one that is used, without that of a slot.
fn entries_left(body: &[u8], entries: u8, nth: u8) -> u8
    requires { length body.now ≡ BODY_BYTES }
    ensures { IsLeft body.now entries nth result }
{
    let mut left = entries;
    while left > 0 {
        if left - 1 != nth && entry(body, left - 1) != 0 {
            return left;
        }
        left -= 1;
    }
    0
}

// The entry that a slot has then.
fn left_entry(body: &[u8], nth: u8, at: u16, len: u16, slot: u8) -> u32
    requires { length body.now ≡ BODY_BYTES }
    ensures { result ≡ left_entry body.now nth at len slot }
{
    if slot == nth {
        return 0;
    }
    moved(entry(body, slot), at, len)
}

// The directory that is left.
fn directory(body: &[u8], nth: u8, at: u16, len: u16, left: u8) -> [u8; 1020]
    requires { length body.now ≡ BODY_BYTES }
    ensures { take (ENTRY_BYTES * left) result ≡ left_directory body.now nth at len left }
{
    let mut bytes = [0; 1020];
    let mut slot = left;
    let mut to = 0;
    while slot > 0 {
        slot -= 1;
        bytes[to..to + 4].copy_from_slice(&u32_bytes(left_entry(body, nth, at, len, slot)));
        to += 4;
    }
    bytes
}

// Whether a part can lie there.
pub(crate) fn lies(at: u16, len: u16, end: u16, entries: u8) -> bool
    ensures yes { result ≡ true → Lies at len end entries }
    ensures no { Lies at len end entries → result ≡ true }
{
    at >= PARTS_AT
        && at as usize + len as usize <= end as usize
        && end as usize + ENTRY_BYTES as usize * entries as usize <= BODY_BYTES
}

/// What has to be known to take the part in a slot from a page; `None` where the slot has no such part.
pub fn cut_of(body: &[u8], kind: PartKind, nth: u8) -> Option<Cut>
    requires { length body.now ≡ BODY_BYTES }
    ensures { Cuts kind nth body.now result }
{
    let entries = body[1];
    if body[0] != kind.to_byte() {
        return None;
    }
    if nth >= entries {
        return None;
    }
    let here = entry(body, nth);
    let at = (here / 65536) as u16;
    let len = (here % 65536) as u16;
    let end = u16_of(&body[2..]);
    if !lies(at, len, end, entries) {
        return None;
    }
    let left = entries_left(body, entries, nth);
    Some(Cut {
        at,
        len,
        end,
        left,
        entries: directory(body, nth, at, len, left),
    })
}
