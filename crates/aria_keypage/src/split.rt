//! A page divided in two, and two pages divided anew.

ghost use Rattle.std.specs.Prelude.{◌≡◌, ℕ, ◌+◌, ◌-◌, ◌*◌, ◌<◌, ◌≤◌, ◌++◌, ◌⊎◌, min, [], List, length, take, drop, IfOk};
ghost use Rattle.std.specs.List.{AllByRecursion, sum_by};
ghost use Rattle.aria_page.specs.Edit.{edit_bytes};
ghost use Rattle.aria_keypage.specs.declared.item.TheConstants.{ENTRY_MAX};
ghost use Rattle.aria_keypage.specs.declared.key_page.TheConstants.{ITEM_BYTES_MAX, ITEM_BYTES_LOW};
ghost use Rattle.aria_keypage.specs.declared.kind.Kind.TheVariants.{Node};
ghost use Rattle.aria_keypage.specs.Item.{Item, IsItem, item_at};
ghost use Rattle.aria_keypage.specs.Packed.{packed, ArePacked, IsLeft};
ghost use Rattle.aria_keypage.specs.Content.{Content, width, first_bytes, item_bytes, IsContent};
ghost use Rattle.aria_keypage.specs.Change.{Changes, IsBody};
ghost use Rattle.aria_keypage.specs.Reading.{content_of};
ghost use Rattle.aria_keypage.specs.Split.{holding, right_half, AreItems, IsMiddle, IsSplit};
ghost use Rattle.aria_keypage.specs.Merge.{joined};

use crate::edit::{Patch, patch_of};
use crate::item::{push_stored, stored_at};
use crate::key_page::KeyPage;
use crate::kind::Kind;
use crate::root::whole_body;
use crate::walk::walk_to;
use aria_page::Bytes;
use std::alloc::{AllocError, Global};

/// Items divided between a page and the one to its right.
#[derive(Drop)]
pub struct Split {
    /// The edits of the page.
    pub left: Patch,
    /// The whole body of the page to its right.
    pub right: Bytes,
    /// The entry between the two: the first one of a right leaf, or the one that goes up from a node.
    pub between: Bytes,
}

fn lower(a: usize, b: usize) -> usize
    ensures { result ≡ min a b }
{
    if a < b { a } else { b }
}

// The bytes from a position on and before another.
fn part(bytes: &[u8], from: usize, to: usize) -> &[u8]
    requires order { from ≤ to }
    requires within { to ≤ length bytes.now }
    ensures { result.now ≡ drop from (take to bytes.now) }
{
    &bytes[from..to]
}

// The position nearest to half of the item bytes, the lower one of two, and what is left from there on.
fn middle<'b>(items: &'b [u8], kind: Kind, count: usize, size: usize) -> (usize, &'b [u8])
    requires items { AreItems kind items.now count }
    requires most { length items.now ≤ 12000 }
    ensures middle { (c : Content) → c.kind ≡ kind → ArePacked (width kind) c.items items.now → count ≡ length c.items → size ≡ length (item_bytes c) → IsMiddle c result.0 }
    ensures left { (c : Content) → c.kind ≡ kind → ArePacked (width kind) c.items items.now → count ≡ length c.items → IsLeft (width kind) c.items result.0 result.1.now }
{
    let width = kind.width();
    let mut rest = items;
    for at in 0..count {
        let Some((_, behind)) = stored_at(rest, width) else {
            return (at, rest);
        };
        if rest.len() + behind.len() <= size {
            return (at, rest);
        }
        rest = behind;
    }
    (count, rest)
}

// Adds the items from a position on, the first of which has this entry, behind no other.
fn push_rest(out: &mut Vec<u8>, kind: Kind, entry: &[u8], rest: &[u8]) -> Result<(), AllocError>
    requires { length entry.now ≤ ENTRY_MAX }
    ensures { (xs : List Item) → (at : ℕ) → AllByRecursion (IsItem (width kind)) xs → IsLeft (width kind) xs at rest.now → (at < length xs → entry.now ≡ (item_at xs at).entry) → IfOk result (λ _. out.new.items ≡ out.old.items ++ packed (width kind) [] (drop at xs)) }
{
    let Some((item, behind)) = stored_at(rest, kind.width()) else {
        return Ok(());
    };
    push_stored(out, b"", entry, item.to)?;
    out.extend_from_slice(behind)?;
    Ok(())
}

// Adds the item bytes of a node whose first child is that of the item at a position, and whose items are those behind it.
fn push_node(
    alloc: Global,
    items: &[u8],
    count: usize,
    at: usize,
    rest: &[u8],
    out: &mut Vec<u8>,
) -> Result<(), AllocError>
    requires items { AreItems Node items.now count }
    requires at { at < count }
    requires left { IsLeft 4 (content_of Node 0 0 items.now).items at rest.now }
    ensures { (key first : ℕ) → IfOk result (λ _. out.new.items ≡ out.old.items ++ item_bytes (right_half (content_of Node key first items.now) at)) }
{
    let Some((item, behind)) = stored_at(rest, 4) else {
        return Ok(());
    };
    out.extend_from_slice(item.to)?;
    if at + 1 == count {
        return Ok(());
    }
    let (entry, _) = walk_to(alloc, items, 4, at + 2)?;
    push_rest(out, Kind::Node, entry.as_slice(), behind)
}

impl<'a> KeyPage<'a> {
    // The edits that leave so many bytes of packed items in the page, which begin as its own do.
    fn shorten(&self, alloc: Global, items: &[u8], size: usize) -> Result<Patch, AllocError>
        requires begin { (behind : List ℕ) × (items.now ≡ packed (width self.now.kind) [] self.now.items ++ behind) }
        requires size { size ≤ length items.now }
        requires room { size ≤ 8173 }
        ensures page { (d : Content) → IsContent d → d.kind ≡ self.now.kind → d.key ≡ self.now.key → d.first ≡ self.now.first → packed (width d.kind) [] d.items ≡ take size items.now → IfOk result (λ edits. Changes edits self.now d) }
        ensures few { IfOk result (λ edits. length edits ≤ 3) }
        ensures bytes { IfOk result (λ edits. sum_by edit_bytes edits ≡ 2 + (size - length (packed (width self.now.kind) [] self.now.items))) }
    {
        let first = self.first_size();
        let len = self.items.len();
        let same = lower(size, len);
        let bytes = Vec::from_slice(alloc, part(items, same, size))?;
        Ok(patch_of(first + same, len - same, 0, bytes))
    }

    // The body of the page to the right, which has the items from a position on.
    fn right_body(
        &self,
        alloc: Global,
        items: &[u8],
        count: usize,
        at: usize,
        rest: &[u8],
        entry: &[u8],
    ) -> Result<Bytes, AllocError>
        requires items { AreItems self.now.kind items.now count }
        requires at { at < count }
        requires left { IsLeft (width self.now.kind) (holding self.now items.now).items at rest.now }
        requires entry { entry.now ≡ (item_at (holding self.now items.now).items at).entry }
        requires room { length (item_bytes (right_half (holding self.now items.now) at)) ≤ ITEM_BYTES_MAX }
        ensures { IfOk result (λ body. IsBody body (right_half (holding self.now items.now) at)) }
    {
        let mut bytes = Vec::new(alloc);
        match self.kind {
            Kind::Leaf => {
                push_rest(&mut bytes, Kind::Leaf, entry, rest)?;
                whole_body(alloc, Kind::Leaf, self.key, bytes.as_slice())
            }
            Kind::Node => {
                push_node(alloc, items, count, at, rest, &mut bytes)?;
                whole_body(alloc, Kind::Node, self.key, bytes.as_slice())
            }
        }
    }

    // Divides packed items, which begin as those of the page do.
    fn divide(&self, alloc: Global, items: &[u8], count: usize) -> Result<Split, AllocError>
        requires items { AreItems self.now.kind items.now count }
        requires begin { (behind : List ℕ) × (items.now ≡ packed (width self.now.kind) [] self.now.items ++ behind) }
        requires least { ITEM_BYTES_LOW ≤ length (item_bytes (holding self.now items.now)) }
        requires most { length (item_bytes (holding self.now items.now)) ≤ 12000 }
        ensures split { IfOk result (λ s. IsSplit self.now (holding self.now items.now) s.left s.right s.between) }
        ensures few { IfOk result (λ s. length s.left ≤ 3) }
        ensures bytes { IfOk result (λ s. 2 * sum_by edit_bytes s.left ≤ 4 + (length (item_bytes (holding self.now items.now)) + 1008 - 2 * length (item_bytes self.now))) }
    {
        let size = self.first_size() + items.len();
        let (at, rest) = middle(items, self.kind, count, size);
        let (between, _) = walk_to(alloc, items, self.kind.width(), at + 1)?;
        let right = self.right_body(alloc, items, count, at, rest, between.as_slice())?;
        let left = self.shorten(alloc, items, items.len() - rest.len())?;
        Ok(Split {
            left,
            right,
            between: Bytes::from_vec(between),
        })
    }

    /// Divides the items in the middle of their bytes. The edits bring 2 bytes.
    pub fn split(&self, alloc: Global) -> Result<Split, AllocError>
        requires { ITEM_BYTES_LOW ≤ length (item_bytes self.now) }
        ensures split { IfOk result (λ s. IsSplit self.now self.now s.left s.right s.between) }
        ensures few { IfOk result (λ s. length s.left ≤ 3) }
        ensures bytes { IfOk result (λ s. sum_by edit_bytes s.left ≤ 2) }
    {
        self.divide(alloc, self.items, self.count)
    }

    /// Divides the items of the page and of the one to its right anew, in the middle of their bytes together. The
    /// edits bring at most 6118 bytes.
    pub fn share(
        &self,
        alloc: Global,
        right: &KeyPage<'a>,
        between: &[u8],
    ) -> Result<Split, AllocError>
        requires kinds { right.now.kind ≡ self.now.kind }
        requires between { length between.now ≤ ENTRY_MAX }
        requires many { ITEM_BYTES_MAX < length (item_bytes (joined self.now between.now right.now)) }
        requires low { (length (item_bytes self.now) < ITEM_BYTES_LOW) ⊎ (length (item_bytes right.now) < ITEM_BYTES_LOW) }
        ensures split { IfOk result (λ s. IsSplit self.now (joined self.now between.now right.now) s.left s.right s.between) }
        ensures few { IfOk result (λ s. length s.left ≤ 3) }
        ensures bytes { IfOk result (λ s. sum_by edit_bytes s.left ≤ 6118) }
    {
        let (before, _) = self.walk_to(alloc, self.count)?;
        let mut items = Vec::from_slice(alloc, self.items)?;
        right.push_over(alloc, before.as_slice(), between, &mut items)?;
        let count = self.count + right.count_over();
        self.divide(alloc, items.as_slice(), count)
    }
}
