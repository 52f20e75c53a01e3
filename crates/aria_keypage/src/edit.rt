//! The edits of every change of a page.

ghost use Rattle.std.specs.Prelude.{◌≡◌, ◌+◌, ◌≤◌, length, All};
ghost use Rattle.aria_page.specs.Change.{edit_of, edits_of};
ghost use Rattle.aria_page.specs.Edit.{IsWithin};
ghost use Rattle.aria_keypage.specs.declared.key_page.TheConstants.{ITEM_BYTES_MAX};
ghost use Rattle.aria_keypage.specs.Change.{patch};

use crate::key_page::{ITEMS_AT, SIZE_AT};
use aria_page::{Change, u16_bytes};
use std::marker::Model;

/// Item bytes that are put in the place of others, as edits of the page. Contracts see the list of its edits.
#[derive(Debug, Drop)]
pub struct Patch {
    before: usize,
    old: usize,
    behind: usize,
    bytes: Vec<u8>,
    size: [u8; 2],
}

impl Model for Patch {
    ghost use Rattle.std.specs.Prelude.{List};
    ghost use Rattle.aria_page.specs.declared.edit.Edit.{Edit};

    ghost Value = { List Edit };

    ghost use Rattle.aria_keypage.specs.Change.{IsPatch, patch};

    ghost view = { λ p. patch p.before p.old p.behind p.bytes.items };

    ghost invariant = { λ p. IsPatch p.before p.old p.behind p.bytes.items p.size };
}

impl Patch {
    /// The edits, with their bytes lent.
    pub fn edits(&self) -> [Change<'_>; 3]
        ensures edits { edits_of result ≡ self.now }
        ensures count { length result ≡ 3 }
        ensures within { All (λ e. IsWithin (edit_of e)) result }
    {
        let len = self.bytes.len();
        [
            Change::Shift {
                at: (ITEMS_AT + self.before + self.old) as u16,
                len: self.behind as u16,
                to: (ITEMS_AT + self.before + len) as u16,
            },
            Change::Set {
                at: (ITEMS_AT + self.before) as u16,
                bytes: self.bytes.as_slice(),
            },
            Change::Set {
                at: SIZE_AT as u16,
                bytes: &self.size,
            },
        ]
    }
}

// Puts item bytes in the place of others, after so many of them and before so many.
pub(crate) fn patch_of(before: usize, old: usize, behind: usize, bytes: Vec<u8>) -> Patch
    requires old { before + old + behind ≤ ITEM_BYTES_MAX }
    requires new { before + length bytes.items + behind ≤ ITEM_BYTES_MAX }
    ensures { result ≡ patch before old behind bytes.items }
{
    let size = u16_bytes((before + bytes.len() + behind) as u16);
    Patch {
        before,
        old,
        behind,
        bytes,
        size,
    }
}
