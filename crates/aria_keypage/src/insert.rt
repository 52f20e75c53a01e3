//! An item put into a page.

ghost use Rattle.std.specs.Prelude.{◌≡◌, ℕ, ◌+◌, ◌<◌, ◌≤◌, ◌^◌, ◌++◌, List, length, drop, IsTrue, ◌↔◌, IfOk, IfSome, MatchOption};
ghost use Rattle.std.specs.List.{sum_by};
ghost use Rattle.aria_page.specs.Edit.{edit_bytes};
ghost use Rattle.aria_keypage.specs.declared.item.TheConstants.{ENTRY_MAX};
ghost use Rattle.aria_keypage.specs.declared.key_page.TheConstants.{ITEM_BYTES_MAX};
ghost use Rattle.aria_keypage.specs.Item.{entry_before};
ghost use Rattle.aria_keypage.specs.Packed.{IsLeft};
ghost use Rattle.aria_keypage.specs.Pieces.{first_packed, rest_packed};
ghost use Rattle.aria_keypage.specs.Content.{width, item_bytes};
ghost use Rattle.aria_keypage.specs.Change.{Changes, with_item, inserted_bytes};

use crate::edit::{Patch, patch_of};
use crate::entry::capped;
use crate::find::{against, common_at};
use crate::item::{entry_behind, push_item, push_stored, stored_at};
use crate::key_page::{ITEM_BYTES_MAX, KeyPage};
use std::alloc::{AllocError, Global};

impl<'a> KeyPage<'a> {
    // Adds the item at a position, where there is one, behind another entry than the one before it, and gives
    // what is left after it.
    pub(crate) fn push_next<'b>(
        &self,
        alloc: Global,
        at: usize,
        before: &[u8],
        rest: &'b [u8],
        entry: &[u8],
        out: &mut Vec<u8>,
    ) -> Result<&'b [u8], AllocError>
        requires before { before.now ≡ entry_before self.now.items at }
        requires rest { IsLeft (width self.now.kind) self.now.items at rest.now }
        ensures bytes { IfOk result (λ _. out.new.items ≡ out.old.items ++ first_packed (width self.now.kind) entry.now (drop at self.now.items)) }
        ensures behind { IfOk result (λ behind. behind.now ≡ rest_packed (width self.now.kind) (drop at self.now.items)) }
    {
        let Some((item, behind)) = stored_at(rest, self.kind.width()) else {
            return Ok(rest);
        };
        let next = entry_behind(alloc, before, &item)?;
        push_stored(out, entry, next.as_slice(), item.to)?;
        Ok(behind)
    }

    // The number of item bytes of the page with one more item at a position.
    fn grown(&self, at: usize, entry: &[u8]) -> usize
        requires at { at ≤ length self.now.items }
        requires entry { length entry.now ≤ ENTRY_MAX }
        ensures { (to : ℕ) → result ≡ length (item_bytes (with_item self.now at (record { entry = entry.now; to = to }))) }
    {
        let width = self.kind.width();
        let (common, rest) = common_at(self.items, width, at, entry);
        let whole = self.size() + 3 + width + entry.len();
        let Some((item, _)) = stored_at(rest, width) else {
            return whole - capped(common);
        };
        let (same, _) = against(common, &item, entry);
        whole + item.shared as usize - capped(common) - capped(same)
    }

    /// Whether the page has room for one more item, with this entry, at a position.
    pub fn has_room(&self, at: usize, entry: &[u8]) -> bool
        requires at { at ≤ length self.now.items }
        requires entry { length entry.now ≤ ENTRY_MAX }
        ensures { (to : ℕ) → (IsTrue result ↔ (length (item_bytes (with_item self.now at (record { entry = entry.now; to = to }))) ≤ ITEM_BYTES_MAX)) }
    {
        self.grown(at, entry) <= ITEM_BYTES_MAX
    }

    /// The edits that put an item at a position, or `None` where the page has no room for it. They bring at most 2018
    /// bytes: the item and the one behind it, which then shares other bytes, and two of their number.
    pub fn insert(
        &self,
        alloc: Global,
        at: usize,
        entry: &[u8],
        target: u64,
    ) -> Result<Option<Patch>, AllocError>
        requires at { at ≤ length self.now.items }
        requires entry { length entry.now ≤ ENTRY_MAX }
        requires target { target < 256 ^ width self.now.kind }
        ensures page { IfOk result (λ r. MatchOption r (ITEM_BYTES_MAX < length (item_bytes (with_item self.now at (record { entry = entry.now; to = target })))) (λ edits. Changes edits self.now (with_item self.now at (record { entry = entry.now; to = target })))) }
        ensures few { IfOk result (λ r. IfSome r (λ edits. length edits ≤ 3)) }
        ensures bytes { IfOk result (λ r. IfSome r (λ edits. sum_by edit_bytes edits ≡ inserted_bytes self.now at (record { entry = entry.now; to = target }))) }
        ensures most { IfOk result (λ r. IfSome r (λ edits. sum_by edit_bytes edits ≤ 2018)) }
    {
        let (before, rest) = self.walk_to(alloc, at)?;
        let mut bytes = Vec::new(alloc);
        push_item(&mut bytes, self.kind, before.as_slice(), entry, target)?;
        let behind = self.push_next(alloc, at, before.as_slice(), rest, entry, &mut bytes)?;
        let front = self.size() - rest.len();
        if front + bytes.len() + behind.len() > ITEM_BYTES_MAX {
            return Ok(None);
        }
        Ok(Some(patch_of(front, rest.len() - behind.len(), behind.len(), bytes)))
    }
}
