ghost use Rattle.std.specs.Prelude.{◌≡◌, ◌↔◌, IsOk, OnOk, OnErr, IsTrue};
ghost use Rattle.aria_page.specs.Page.{page_body, with_body};
ghost use Rattle.aria_page.specs.Edit.{IsWithin, edited};

use crate::list::Bytes;
use crate::page::{BODY_AT, BODY_BYTES, Page};

/// A change of a page's body. Places and lengths are in bytes, and count from the body's first byte.
#[derive(Debug, Drop)]
pub enum Edit {
    /// Puts these bytes in the place of as many from `at` on.
    Set { at: u16, bytes: Bytes },
    /// Copies the `len` bytes from `at` on, as they stand, to the place `to`.
    Shift { at: u16, len: u16, to: u16 },
    /// Puts a whole body in the place of the old one.
    Whole { body: Bytes },
}

/// Why an edit could not be made.
#[derive(Clone, Copy, Debug, PartialEq, Eq)]
pub enum EditFault {
    /// It reads or writes outside of the body, or puts a body of another size.
    OutOfPage,
}

fn is_within(edit: &Edit) -> bool
    ensures { IsTrue result ↔ IsWithin edit.now }
{
    match edit {
        Edit::Set { at, bytes } => {
            bytes.len() <= BODY_BYTES && *at as usize + bytes.len() <= BODY_BYTES
        }
        Edit::Shift { at, len, to } => {
            *at as usize + *len as usize <= BODY_BYTES && *to as usize + *len as usize <= BODY_BYTES
        }
        Edit::Whole { body } => body.len() == BODY_BYTES,
    }
}

/// Makes the edit. The checksum and the log sequence number stay as they were.
pub fn apply(edit: &Edit, page: &mut Page) -> Result<(), EditFault>
    ensures within { IsOk result ↔ IsWithin edit.now }
    ensures ok { OnOk result (page.new ≡ with_body (edited edit.now (page_body page.old)) page.old) }
    ensures err { OnErr result (page.new ≡ page.old) }
{
    if !is_within(edit) {
        return Err(EditFault::OutOfPage);
    }
    match edit {
        Edit::Set { at, bytes } => page.put(BODY_AT + *at as usize, bytes.as_slice()),
        Edit::Shift { at, len, to } => page.copy_within(
            BODY_AT + *at as usize,
            *len as usize,
            BODY_AT + *to as usize,
        ),
        Edit::Whole { body } => page.put(BODY_AT, body.as_slice()),
    }
    Ok(())
}
