ghost use Rattle.std.specs.Prelude.{◌≡◌, ◌+◌, ◌*◌, ◌<◌, max, length};
ghost use Rattle.aria_page.specs.declared.page.TheConstants.{BODY_BYTES};
ghost use Rattle.aria_block.specs.declared.layout.TheConstants.{ENTRY_BYTES, MAX_ENTRIES};
ghost use Rattle.aria_block.specs.Spot.{IsLowest, IsSpace, FindsSpot, SpotAt, SpotFor, Fits};

use crate::layout::{ENTRY_BYTES, MAX_ENTRIES, PARTS_AT};
use crate::part_kind::PartKind;
use aria_bitmap::entry;
use aria_page::{BODY_BYTES, PageKind, u16_of};

/// The directory entries of a page and the end of its parts.
#[derive(Clone, Copy)]
pub struct Space {
    pub entries: u8,
    pub end: u16,
}

/// Where one more part goes on a page: its slot, the number of directory entries before and then, and its first byte.
#[derive(Clone, Copy)]
pub struct Spot {
    pub slot: u8,
    pub before: u8,
    pub entries: u8,
    pub end: u16,
}

// The space of a page that is free or has such parts; `None` for another page.
fn space_of(body: &[u8], kind: PartKind) -> Option<Space>
    requires { length body.now ≡ BODY_BYTES }
    ensures { IsSpace kind body.now result }
{
    let first = body[0];
    if first == PageKind::FreeData.to_byte() {
        return Some(Space {
            entries: 0,
            end: PARTS_AT,
        });
    }
    if first != kind.to_byte() {
        return None;
    }
    Some(Space {
        entries: body[1],
        end: u16_of(&body[2..]),
    })
}

// The lowest slot without a part.
fn lowest(body: &[u8], entries: u8) -> u8
    requires { length body.now ≡ BODY_BYTES }
    ensures { IsLowest body.now entries result }
{
    for nth in 0..entries {
        if entry(body, nth) == 0 {
            return nth;
        }
    }
    entries
}

// That slot, if there is room for it and for so many bytes.
fn fit(space: Space, slot: u8, len: u16) -> Option<Spot>
    ensures { Fits space slot len result }
{
    if slot == MAX_ENTRIES {
        return None;
    }
    let entries = space.entries.max(slot + 1);
    if space.end as usize + len as usize + ENTRY_BYTES as usize * entries as usize > BODY_BYTES {
        return None;
    }
    Some(Spot {
        slot,
        before: space.entries,
        entries,
        end: space.end,
    })
}

// The lowest slot for one more part of so many bytes; `None` where the page has no room for it.
fn find_spot(body: &[u8], kind: PartKind, len: u16) -> Option<Spot>
    requires { length body.now ≡ BODY_BYTES }
    ensures { FindsSpot kind len body.now result }
{
    let space = space_of(body, kind)?;
    fit(space, lowest(body, space.entries), len)
}

// That slot for one more part of so many bytes; `None` where it is taken or the page has no room.
fn spot_at(body: &[u8], kind: PartKind, slot: u8, len: u16) -> Option<Spot>
    requires { length body.now ≡ BODY_BYTES }
    ensures { SpotAt kind slot len body.now result }
{
    let space = space_of(body, kind)?;
    if slot < space.entries && entry(body, slot) != 0 {
        return None;
    }
    fit(space, slot, len)
}

/// The lowest slot, or else the one that is given, for one more part of so many bytes; `None` where the page has no room
/// for it or the slot is taken.
pub fn spot_for(body: &[u8], kind: PartKind, nth: Option<u8>, len: u16) -> Option<Spot>
    requires { length body.now ≡ BODY_BYTES }
    ensures { SpotFor kind nth len body.now result }
{
    match nth {
        None => find_spot(body, kind, len),
        Some(slot) => spot_at(body, kind, slot, len),
    }
}
