//! Reads the pages of the log and the frames in them.

ghost use Rattle.std.specs.Prelude.{◌≡◌, ◌≤◌, ◌<◌, ◌+◌, ◌*◌, ◌/◌, ◌^◌, ◌++◌, ◌↔◌, ◌&&◌, if◌then◌else◌, nat_le, None, length, map, IsTrue, OnOk, IfSome, List};
ghost use Rattle.aria_page.specs.Field.{Gives};
ghost use Rattle.aria_page.specs.Text.{bytes_at};
ghost use Rattle.aria_journal.specs.Frames.{frame_at, frames_in};
ghost use Rattle.aria_journal.specs.LogPage.{IsLogPage, read_log_page};
ghost use Rattle.aria_journal.specs.Places.{EndsBefore, pages_from};

use crate::frame::MAX_FRAME_BYTES;
use crate::log_page::{BEGINS_AT, USED_AT, seal};
use crate::opened::Frame;
use aria_page::{
    Bytes, LOG_BODY_AT, LOG_BODY_BYTES, List, Page, bytes_at, same_bytes, u16_of, u32_at,
};
use std::alloc::{AllocError, Global};

// Whether the page is the one that these bytes are written as.
fn is_page_of(page: &Page, number: u32, begins: bool, bytes: &[u8]) -> bool
    requires some { 1 ≤ length bytes.now }
    requires fits { length bytes.now ≤ 8176 }
    ensures { IsTrue result ↔ IsLogPage number begins bytes.now page.now }
{
    let mut again = Page::zero();
    again.put(LOG_BODY_AT, bytes);
    seal(&mut again, number, begins, bytes.len() as u16);
    same_bytes(again.bytes(), page.bytes())
}

/// Whether a valid page of this number begins a run, and its used bytes; `None` where it isn't valid.
pub(crate) fn read_page_of(number: u32, page: &Page) -> Option<(bool, &[u8])>
    ensures read { Gives (λ x. (x.0, x.1.now)) result (read_log_page number page.now) }
    ensures fits { IfSome result (λ x. length x.1.now ≤ 8176) }
{
    let bytes = page.bytes();
    let used = u16_of(&bytes[USED_AT..]) as usize;
    if 1 <= used && used <= LOG_BODY_BYTES {
        let begins = bytes[BEGINS_AT] == 1;
        let body = &bytes[LOG_BODY_AT..LOG_BODY_AT + used];
        if is_page_of(page, number, begins, body) {
            return Some((begins, body));
        }
    }
    None
}

// The bytes of a frame of that length, and those behind it; `None` where no frame has it or the bytes run out.
fn frame_of(len: u32, rest: &[u8]) -> Option<(&[u8], &[u8])>
    ensures { Gives (λ x. (x.0.now, x.1.now)) result (if nat_le 1 len && nat_le len 1048576 then bytes_at len rest.now else None) }
{
    let len = len as usize;
    if 1 <= len && len <= MAX_FRAME_BYTES {
        bytes_at(rest, len)
    } else {
        None
    }
}

// The frame that stands in front, and the bytes behind it; `None` where no whole frame does.
#[tactic(auto, unfolding(crate::specs::Frames::frame_at))]
fn frame_at(bytes: &[u8]) -> Option<(&[u8], &[u8])>
    ensures { Gives (λ x. (x.0.now, x.1.now)) result (frame_at bytes.now) }
{
    let (len, rest) = u32_at(bytes)?;
    frame_of(len, rest)
}

// The page of this byte of a run whose first page has that number.
fn page_of(first: u32, byte: usize) -> u32
    requires within { 8176 * first + byte < 8176 * 2 ^ 32 }
    ensures { result ≡ first + byte / 8176 }
{
    first + (byte / LOG_BODY_BYTES) as u32
}

/// Adds all whole frames in front of these bytes of a run, with the pages in which they begin. The run's first page has
/// number `first`.
pub(crate) fn push_frames(
    alloc: Global,
    frames: &mut List<Frame>,
    first: u32,
    bytes: &[u8],
) -> Result<(), AllocError>
    requires within { EndsBefore first bytes.now (2 ^ 32) }
    ensures frames { OnOk result (map (λ f. f.bytes) frames.new ≡ map (λ f. f.bytes) frames.old ++ frames_in bytes.now) }
    ensures starts { OnOk result (map (λ f. f.page) frames.new ≡ map (λ f. f.page) frames.old ++ pages_from first 0 (frames_in bytes.now)) }
{
    let mut rest = bytes;
    while let Some((frame, behind)) = frame_at(rest) {
        let page = page_of(first, bytes.len() - rest.len());
        let frame = Bytes::from_slice(alloc, frame)?;
        frames.push(Frame { bytes: frame, page })?;
        rest = behind;
    }
    Ok(())
}
