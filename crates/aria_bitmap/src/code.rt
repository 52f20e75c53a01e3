ghost use Rattle.std.specs.Prelude.{◌≡◌, ◌<◌, length};
ghost use Rattle.aria_page.specs.Page.{page_body};
ghost use Rattle.aria_bitmap.specs.Code.{entry, all_used, room, head_code, tail_code, code};

use crate::group::CODES;
use aria_page::{BODY_BYTES, Page, u16_of, u32_of};

/// The kind of a free page: the first byte of its body.
const FREE_PAGE: u8 = 0;

/// The kind of a head page.
const HEAD_PAGE: u8 = 3;

/// The kind of a tail page.
const TAIL_PAGE: u8 = 4;

/// The least room of a head page with code 1, in bytes.
pub const ROOM_OF_1: u16 = 6000;

/// The least room of a head page with code 2, in bytes.
pub const ROOM_OF_2: u16 = 4000;

/// The least room of a head page with code 3, in bytes.
pub const ROOM_OF_3: u16 = 2000;

/// The least room of a tail page with code 5, in bytes.
pub const ROOM_OF_5: u16 = 4000;

/// The least room of a tail page with code 6, in bytes.
pub const ROOM_OF_6: u16 = 1000;

/// The size of an entry of a page's directory, in bytes.
const ENTRY_BYTES: usize = 4;

/// The most entries of a directory.
const MAX_ENTRIES: u8 = 255;

/// The directory entry of a head or tail page with this number, from 0: zero where it is unused.
#[tactic(auto, unfolding(crate::specs::Code::entry))]
pub fn entry(body: &[u8], nth: u8) -> u32
    requires { length body.now ≡ BODY_BYTES }
    ensures { result ≡ entry body.now nth }
{
    u32_of(&body[BODY_BYTES - ENTRY_BYTES * (nth as usize + 1)..])
}

// Whether the first entries of the directory, as many as are told, are all used.
fn all_used(body: &[u8], entries: u8) -> bool
    requires { length body.now ≡ BODY_BYTES }
    ensures { result ≡ all_used body.now entries }
{
    for nth in 0..entries {
        if entry(body, nth) == 0 {
            return false;
        }
    }
    true
}

// The room of a head or tail page.
#[tactic(auto, unfolding(crate::specs::Code::room))]
fn room(body: &[u8]) -> usize
    requires { length body.now ≡ BODY_BYTES }
    ensures { result ≡ room body.now }
{
    let entries = body[1];
    let end = u16_of(&body[2..]) as usize;
    let taken = end + ENTRY_BYTES * entries as usize;
    if !all_used(body, entries) {
        return BODY_BYTES.saturating_sub(taken);
    }
    if entries == MAX_ENTRIES {
        return 0;
    }
    BODY_BYTES.saturating_sub(taken + ENTRY_BYTES)
}

fn head_code(room: usize) -> u8
    ensures { result ≡ head_code room }
{
    if room >= ROOM_OF_1 as usize {
        1
    } else if room >= ROOM_OF_2 as usize {
        2
    } else if room >= ROOM_OF_3 as usize {
        3
    } else {
        4
    }
}

fn tail_code(room: usize) -> u8
    ensures { result ≡ tail_code room }
{
    if room >= ROOM_OF_5 as usize {
        5
    } else if room >= ROOM_OF_6 as usize {
        6
    } else {
        7
    }
}

/// The code of a page, by its kind and its room.
#[tactic(auto, unfolding(crate::specs::Code::code))]
pub fn code_of(page: &Page) -> u8
    ensures value { result ≡ code (page_body page.now) }
    ensures fits { result < CODES }
{
    let body = page.body();
    match body[0] {
        FREE_PAGE => 0,
        HEAD_PAGE => head_code(room(body)),
        TAIL_PAGE => tail_code(room(body)),
        _ => 7,
    }
}
