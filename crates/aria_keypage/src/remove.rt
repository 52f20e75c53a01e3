//! An item taken from a page.

ghost use Rattle.std.specs.Prelude.{◌≡◌, ◌+◌, ◌<◌, ◌≤◌, length, IfOk};
ghost use Rattle.std.specs.List.{sum_by};
ghost use Rattle.aria_page.specs.Edit.{edit_bytes};
ghost use Rattle.aria_keypage.specs.Change.{Changes, without_item, removed_bytes};

use crate::edit::{Patch, patch_of};
use crate::item::{entry_behind, stored_at};
use crate::key_page::KeyPage;
use std::alloc::{AllocError, Global};

impl<'a> KeyPage<'a> {
    /// The edits that take the item from a position. They bring at most 1010 bytes: the item behind it, which then
    /// shares other bytes, and two of the number of item bytes.
    pub fn remove(&self, alloc: Global, at: usize) -> Result<Patch, AllocError>
        requires { at < length self.now.items }
        ensures page { IfOk result (λ edits. Changes edits self.now (without_item self.now at)) }
        ensures few { IfOk result (λ edits. length edits ≤ 3) }
        ensures bytes { IfOk result (λ edits. sum_by edit_bytes edits ≡ removed_bytes self.now at) }
        ensures most { IfOk result (λ edits. sum_by edit_bytes edits ≤ 1010) }
    {
        let size = self.size();
        let (before, rest) = self.walk_to(alloc, at)?;
        let Some((item, left)) = stored_at(rest, self.kind.width()) else {
            unreachable!();
        };
        let removed = entry_behind(alloc, before.as_slice(), &item)?;
        let mut bytes = Vec::new(alloc);
        let behind = self.push_next(
            alloc,
            at + 1,
            removed.as_slice(),
            left,
            before.as_slice(),
            &mut bytes,
        )?;
        let old = rest.len() - behind.len();
        Ok(patch_of(size - rest.len(), old, behind.len(), bytes))
    }
}
