//! Two pages side by side made into one.

ghost use Rattle.std.specs.Prelude.{◌≡◌, ℕ, ◌+◌, ◌≤◌, ◌++◌, List, length, IfOk, IsTrue, ◌↔◌};
ghost use Rattle.std.specs.List.{sum_by};
ghost use Rattle.aria_page.specs.Edit.{edit_bytes};
ghost use Rattle.aria_keypage.specs.declared.item.TheConstants.{ENTRY_MAX};
ghost use Rattle.aria_keypage.specs.declared.key_page.TheConstants.{ITEM_BYTES_MAX};
ghost use Rattle.aria_keypage.specs.Item.{item_at, entry_before};
ghost use Rattle.aria_keypage.specs.Packed.{shared, packed};
ghost use Rattle.aria_keypage.specs.Content.{width, item_bytes, IsContent};
ghost use Rattle.aria_keypage.specs.Change.{Changes};
ghost use Rattle.aria_keypage.specs.Merge.{taken_over, joined};

use crate::edit::{Patch, patch_of};
use crate::entry::{capped, shared_of};
use crate::find::common_at;
use crate::item::{push_item, stored_at};
use crate::key_page::{ITEM_BYTES_MAX, KeyPage};
use crate::kind::Kind;
use std::alloc::{AllocError, Global};

impl<'a> KeyPage<'a> {
    // Adds all items behind an entry.
    fn push_all(&self, alloc: Global, entry: &[u8], out: &mut Vec<u8>) -> Result<(), AllocError>
        ensures { IfOk result (λ _. out.new.items ≡ out.old.items ++ packed (width self.now.kind) entry.now self.now.items) }
    {
        let behind = self.push_next(alloc, 0, b"", self.items, entry, out)?;
        out.extend_from_slice(behind)?;
        Ok(())
    }

    // Adds what the page takes over from the one to its right, behind an entry.
    pub(crate) fn push_over(
        &self,
        alloc: Global,
        before: &[u8],
        between: &[u8],
        out: &mut Vec<u8>,
    ) -> Result<(), AllocError>
        requires { length between.now ≤ ENTRY_MAX }
        ensures bytes { IfOk result (λ _. out.new.items ≡ out.old.items ++ packed (width self.now.kind) before.now (taken_over self.now.kind between.now self.now.first self.now.items)) }
        ensures content { IsContent self.now }
    {
        match self.kind {
            Kind::Leaf => self.push_all(alloc, before, out),
            Kind::Node => {
                push_item(out, Kind::Node, before, between, self.first as u64)?;
                self.push_all(alloc, between, out)
            }
        }
    }

    // How many items the page to the left takes over.
    pub(crate) fn count_over(&self) -> usize
        ensures { (between : List ℕ) → result ≡ length (taken_over self.now.kind between self.now.first self.now.items) }
    {
        match self.kind {
            Kind::Leaf => self.count,
            Kind::Node => self.count + 1,
        }
    }

    // The first entry; nothing where there is no item.
    fn first_entry(&self) -> &'a [u8]
        ensures { result.now ≡ (item_at self.now.items 0).entry }
    {
        let Some((item, _)) = stored_at(self.items, self.kind.width()) else {
            return b"";
        };
        item.rest
    }

    // How many leading bytes an entry behind the last one takes from that.
    fn shared_behind(&self, entry: &[u8]) -> usize
        ensures { result ≡ shared (entry_before self.now.items (length self.now.items)) entry.now }
    {
        let (common, _) = common_at(self.items, self.kind.width(), self.count, entry);
        capped(common)
    }

    // The number of item bytes of the page with all items of the one to its right.
    fn joined_size(&self, right: &KeyPage<'a>, between: &[u8]) -> usize
        requires kinds { right.now.kind ≡ self.now.kind }
        requires between { length between.now ≤ ENTRY_MAX }
        ensures { result ≡ length (item_bytes (joined self.now between.now right.now)) }
    {
        let both = self.size() + right.size();
        let first = right.first_entry();
        match self.kind {
            Kind::Leaf => both - self.shared_behind(first),
            Kind::Node => {
                let whole = both + 3 + between.len() - self.shared_behind(between);
                whole - shared_of(between, first) as usize
            }
        }
    }

    /// Whether all items of the page and of the one to its right fit in one page. Between nodes an entry comes down.
    pub fn fits(&self, right: &KeyPage<'a>, between: &[u8]) -> bool
        requires kinds { right.now.kind ≡ self.now.kind }
        requires between { length between.now ≤ ENTRY_MAX }
        ensures { IsTrue result ↔ (length (item_bytes (joined self.now between.now right.now)) ≤ ITEM_BYTES_MAX) }
    {
        self.joined_size(right, between) <= ITEM_BYTES_MAX
    }

    /// The edits that make the page into one with all items of the one to its right. They bring what it takes over,
    /// and two bytes of the number of item bytes.
    pub fn join(
        &self,
        alloc: Global,
        right: &KeyPage<'a>,
        between: &[u8],
    ) -> Result<Patch, AllocError>
        requires kinds { right.now.kind ≡ self.now.kind }
        requires between { length between.now ≤ ENTRY_MAX }
        requires room { length (item_bytes (joined self.now between.now right.now)) ≤ ITEM_BYTES_MAX }
        ensures page { IfOk result (λ edits. Changes edits self.now (joined self.now between.now right.now)) }
        ensures few { IfOk result (λ edits. length edits ≤ 3) }
        ensures bytes { IfOk result (λ edits. sum_by edit_bytes edits + length (item_bytes self.now) ≡ 2 + length (item_bytes (joined self.now between.now right.now))) }
        ensures most { IfOk result (λ edits. sum_by edit_bytes edits ≤ 8179) }
    {
        let size = self.size();
        let (before, _) = self.walk_to(alloc, self.count)?;
        let mut bytes = Vec::new(alloc);
        right.push_over(alloc, before.as_slice(), between, &mut bytes)?;
        Ok(patch_of(size, 0, 0, bytes))
    }
}
