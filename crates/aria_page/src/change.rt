ghost use Rattle.std.specs.Prelude.{◌≡◌, All};
ghost use Rattle.aria_page.specs.Edit.{IsWithin, edited, all_edited};
ghost use Rattle.aria_page.specs.Page.{page_body, with_body};
ghost use Rattle.aria_page.specs.Change.{edit_of, edits_of};

use crate::page::{BODY_AT, Page};

/// An edit of a page's body whose bytes are lent. Places and lengths are in bytes, and count from the body's first byte.
#[derive(Clone, Copy)]
pub enum Change<'a> {
    /// Puts these bytes in the place of as many from `at` on.
    Set { at: u16, bytes: &'a [u8] },
    /// Copies the `len` bytes from `at` on, as they stand, to the place `to`.
    Shift { at: u16, len: u16, to: u16 },
    /// Puts a whole body in the place of the old one.
    Whole { body: &'a [u8] },
}

impl Change<'_> {
    /// Makes the edit. The checksum and the log sequence number stay as they were.
    #[tactic(auto, unfolding(crate::specs::Edit::edited))]
    pub fn apply(self, page: &mut Page)
        requires { IsWithin (edit_of self) }
        ensures page { page.new ≡ with_body (edited (edit_of self.entry) (page_body page.old)) page.old }
        ensures body { page_body page.new ≡ edited (edit_of self.entry) (page_body page.old) }
    {
        match self {
            Change::Set { at, bytes } => page.put(BODY_AT + at as usize, bytes),
            Change::Shift { at, len, to } => {
                page.copy_within(BODY_AT + at as usize, len as usize, BODY_AT + to as usize)
            }
            Change::Whole { body } => page.put(BODY_AT, body),
        }
    }
}

/// Makes the edits, one after another.
pub fn apply_all(edits: &[Change<'_>], page: &mut Page)
    requires { All (λ e. IsWithin (edit_of e)) edits.now }
    ensures body { page_body page.new ≡ all_edited (edits_of edits.now) (page_body page.old) }
{
    for edit in edits {
        edit.apply(page);
    }
}
