//! What lies on a page of a data file.

ghost use Rattle.std.specs.Prelude.{◌≡◌, ◌+◌, ◌≤◌, IfOk, length};
ghost use Rattle.aria_page.specs.declared.page.TheConstants.{BODY_BYTES};
ghost use Rattle.aria_page.specs.Page.{page_body};
ghost use Rattle.aria_block.specs.declared.layout.TheConstants.{BLOB_ROW};
ghost use Rattle.aria_block.specs.PartPage.{window};
ghost use Rattle.aria_block.specs.Reading.{PartAt, CopiesHead, CopiesTail, CopiesBlob};

use crate::cut::lies;
use crate::head_fields::{HeadFields, head_in};
use crate::layout::HEAD_FIELDS;
use crate::part_kind::PartKind;
use aria_bitmap::entry;
use aria_page::{Bytes, Page, PageKind, bytes_from, u16_of};
use std::alloc::AllocError;

/// Where the part in a slot lies on a page: its first byte and its length; `None` where the slot has no such part.
pub fn part_at(body: &[u8], kind: PartKind, nth: u8) -> Option<(usize, usize)>
    requires { length body.now ≡ BODY_BYTES }
    ensures { PartAt kind nth body.now result }
{
    let entries = body[1];
    if body[0] != kind.to_byte() {
        return None;
    }
    if nth >= entries {
        return None;
    }
    let here = entry(body, nth);
    let at = (here / 65536) as u16;
    let len = (here % 65536) as u16;
    let end = u16_of(&body[2..]);
    if !lies(at, len, end, entries) {
        return None;
    }
    Some((at as usize, len as usize))
}

// The bytes of a part.
fn part_bytes(body: &[u8], at: usize, len: usize) -> &[u8]
    requires { at + len ≤ length body.now }
    ensures { result.now ≡ window at len body.now }
{
    &body[at..at + len]
}

/// Adds the row bytes of the head in a slot, and tells what it says of its row; `None` where the slot has no head.
pub fn copy_head(page: &Page, nth: u8, out: &mut Bytes) -> Result<Option<HeadFields>, AllocError>
    ensures { IfOk result (λ r. CopiesHead nth (page_body page.now) out.old out.new r) }
{
    let body = page.body();
    let Some((at, len)) = part_at(body, PartKind::Head, nth) else {
        return Ok(None);
    };
    let bytes = part_bytes(body, at, len);
    let Some(head) = head_in(bytes) else {
        return Ok(None);
    };
    out.extend_from_slice(bytes_from(bytes, HEAD_FIELDS))?;
    Ok(Some(head))
}

/// Adds the tail in a slot; `false` where the slot has no tail of so many bytes.
pub fn copy_tail(page: &Page, nth: u8, len: usize, out: &mut Bytes) -> Result<bool, AllocError>
    ensures { IfOk result (λ r. CopiesTail nth len (page_body page.now) out.old out.new r) }
{
    let body = page.body();
    let Some((at, size)) = part_at(body, PartKind::Tail, nth) else {
        return Ok(false);
    };
    if size != len {
        return Ok(false);
    }
    out.extend_from_slice(part_bytes(body, at, size))?;
    Ok(true)
}

/// Adds so many row bytes of a blob page; `false` where it is another page.
pub fn copy_blob(page: &Page, len: usize, out: &mut Bytes) -> Result<bool, AllocError>
    requires { len ≤ BLOB_ROW }
    ensures { IfOk result (λ r. CopiesBlob len (page_body page.now) out.old out.new r) }
{
    let body = page.body();
    if body[0] != PageKind::Blob.to_byte() {
        return Ok(false);
    }
    out.extend_from_slice(part_bytes(body, 1, len))?;
    Ok(true)
}
