//! The view of a page that is a leaf or a node.

ghost use Rattle.std.specs.Prelude.{◌≡◌, ◌+◌, ◌<◌, ◌≤◌, ◌^◌, ◌++◌, List, length, IsTrue, ◌↔◌, IfSome, IfNone, IfOk};
ghost use Rattle.aria_page.specs.Field.{Gives};
ghost use Rattle.aria_page.specs.Page.{page_body};
ghost use Rattle.aria_page.specs.declared.page.TheConstants.{BODY_BYTES};
ghost use Rattle.aria_keypage.specs.declared.key_page.TheConstants.{ITEM_BYTES_MAX, ITEM_BYTES_LOW};
ghost use Rattle.aria_keypage.specs.declared.kind.Kind.TheVariants.{Node};
ghost use Rattle.aria_keypage.specs.Item.{Item, item_at, entry_before, IsPosition};
ghost use Rattle.aria_keypage.specs.Packed.{ArePacked, IsLeft};
ghost use Rattle.aria_keypage.specs.Content.{Content, width, first_bytes, item_bytes, IsFirst, IsContent, Spells};
ghost use Rattle.aria_keypage.specs.Child.{child_at};
ghost use Rattle.aria_keypage.specs.Reading.{head_at, IsPageOf};

use crate::find::find_in;
use crate::item::target_of;
use crate::kind::Kind;
use crate::walk::{count_items, skip, walk_to};
use aria_page::{Bytes, Page, bytes_at, u8_at, u16_at, u32_at};
use std::alloc::{AllocError, Global};
use std::marker::Model;

/// Where a body counts its item bytes.
pub(crate) const SIZE_AT: usize = 2;

/// Where the item bytes begin in a body.
pub(crate) const ITEMS_AT: usize = 4;

/// The most item bytes of a page: a body without what stands before them.
pub const ITEM_BYTES_MAX: usize = 8177;

/// The fewest item bytes of a page that isn't a root, a quarter of a body.
pub const ITEM_BYTES_LOW: usize = 2045;

/// A leaf or a node of a key's tree, seen in its page.
#[derive(Drop)]
pub struct KeyPage<'a> {
    pub(crate) kind: Kind,
    pub(crate) key: u8,
    pub(crate) first: u32,
    pub(crate) items: &'a [u8],
    pub(crate) count: usize,
}

impl<'a> Model for KeyPage<'a> {
    ghost use Rattle.aria_keypage.specs.Content.{Content};

    ghost Value = { Content };

    ghost use Rattle.aria_keypage.specs.Reading.{content_of, IsRead};

    ghost view = { λ p. content_of p.kind p.key p.first p.items.now };

    ghost invariant = { λ p. IsRead p.kind p.key p.first p.items.now p.count };
}

// The kind, the key and the item bytes of a body.
#[tactic(auto, unfolding(crate::specs::Reading::head_at))]
fn head_at(body: &[u8]) -> Option<(u8, u8, &[u8])>
    ensures { Gives (λ x. (x.0, x.1, x.2.now)) result (head_at body.now) }
{
    let (byte, bytes) = u8_at(body)?;
    let (key, bytes) = u8_at(bytes)?;
    let (size, bytes) = u16_at(bytes)?;
    let (bytes, _) = bytes_at(bytes, size as usize)?;
    Some((byte, key, bytes))
}

// The page of packed items.
fn of_items<'a>(kind: Kind, key: u8, first: u32, items: &'a [u8]) -> Option<KeyPage<'a>>
    requires first { IsFirst kind first }
    requires size { length (first_bytes kind first) + length items.now ≤ ITEM_BYTES_MAX }
    ensures found { IfSome result (λ p. IsPageOf kind key (first_bytes kind first ++ items.now) p) }
    ensures none { IfNone result ((xs : List Item) → ArePacked (width kind) xs items.now → ⊥) }
{
    let count = count_items(items, kind.width())?;
    Some(KeyPage {
        kind,
        key,
        first,
        items,
        count,
    })
}

// The page of a node's item bytes.
fn of_node<'a>(key: u8, bytes: &'a [u8]) -> Option<KeyPage<'a>>
    requires { length bytes.now ≤ ITEM_BYTES_MAX }
    ensures found { IfSome result (λ p. IsPageOf Node key bytes.now p) }
    ensures none { IfNone result ((c : Content) → IsContent c → c.kind ≡ Node → item_bytes c ≡ bytes.now → ⊥) }
{
    let (first, items) = u32_at(bytes)?;
    of_items(Kind::Node, key, first, items)
}

// The page of item bytes.
fn of_bytes<'a>(kind: Kind, key: u8, bytes: &'a [u8]) -> Option<KeyPage<'a>>
    requires { length bytes.now ≤ ITEM_BYTES_MAX }
    ensures found { IfSome result (λ p. IsPageOf kind key bytes.now p) }
    ensures none { IfNone result ((c : Content) → IsContent c → c.kind ≡ kind → item_bytes c ≡ bytes.now → ⊥) }
{
    match kind {
        Kind::Leaf => of_items(Kind::Leaf, key, 0, bytes),
        Kind::Node => of_node(key, bytes),
    }
}

// The page of a body.
fn of_body<'a>(body: &'a [u8]) -> Option<KeyPage<'a>>
    requires { length body.now ≡ BODY_BYTES }
    ensures found { IfSome result (λ p. Spells body.now p) }
    ensures none { IfNone result ((c : Content) → Spells body.now c → ⊥) }
{
    let (byte, key, bytes) = head_at(body)?;
    let kind = Kind::of_byte(byte)?;
    of_bytes(kind, key, bytes)
}

impl<'a> KeyPage<'a> {
    /// The leaf or the node that a page holds; `None` exactly where it holds neither.
    pub fn view(page: &'a Page) -> Option<KeyPage<'a>>
        ensures found { IfSome result (λ p. Spells (page_body page.now) p) }
        ensures none { IfNone result ((c : Content) → Spells (page_body page.now) c → ⊥) }
    {
        of_body(page.body())
    }

    /// The number of items.
    pub fn count(&self) -> usize
        ensures count { result ≡ length self.now.items }
        ensures content { IsContent self.now }
    {
        self.count
    }

    /// Whether it is a leaf or a node.
    pub fn kind(&self) -> Kind
        ensures { result ≡ self.now.kind }
    {
        self.kind
    }

    /// The child before the first item of a node.
    pub fn first_child(&self) -> u32
        requires { self.now.kind ≡ Node }
        ensures { result ≡ self.now.first }
    {
        self.first
    }

    // The number of bytes of a node's first child.
    pub(crate) fn first_size(&self) -> usize
        ensures { result ≡ length (first_bytes self.now.kind self.now.first) }
    {
        match self.kind {
            Kind::Leaf => 0,
            Kind::Node => 4,
        }
    }

    /// The number of item bytes.
    pub fn size(&self) -> usize
        ensures size { result ≡ length (item_bytes self.now) }
        ensures content { IsContent self.now }
        ensures count { length self.now.items ≤ ITEM_BYTES_MAX }
    {
        match self.kind {
            Kind::Leaf => self.items.len(),
            Kind::Node => 4 + self.items.len(),
        }
    }

    /// Whether the page is less than a quarter full, so that only a root may be so.
    pub fn is_low(&self) -> bool
        ensures { IsTrue result ↔ (length (item_bytes self.now) < ITEM_BYTES_LOW) }
    {
        self.size() < ITEM_BYTES_LOW
    }

    // The entry before a position, and what is left of the items from the position on.
    pub(crate) fn walk_to(
        &self,
        alloc: Global,
        at: usize,
    ) -> Result<(Vec<u8>, &'a [u8]), AllocError>
        requires { at ≤ length self.now.items }
        ensures entry { IfOk result (λ r. r.0.items ≡ entry_before self.now.items at) }
        ensures left { IfOk result (λ r. IsLeft (width self.now.kind) self.now.items at r.1.now) }
    {
        walk_to(alloc, self.items, self.kind.width(), at)
    }

    /// The entry at a position.
    pub fn entry_at(&self, alloc: Global, at: usize) -> Result<Bytes, AllocError>
        requires { at < length self.now.items }
        ensures { IfOk result (λ entry. entry ≡ (item_at self.now.items at).entry) }
    {
        let (entry, _) = walk_to(alloc, self.items, self.kind.width(), at + 1)?;
        Ok(Bytes::from_vec(entry))
    }

    /// The target at a position of a leaf, or the child there of a node.
    pub fn target_at(&self, at: usize) -> u64
        requires { at < length self.now.items }
        ensures target { result ≡ (item_at self.now.items at).to }
        ensures fits { result < 256 ^ width self.now.kind }
    {
        target_of(self.kind, skip(self.items, self.kind.width(), at))
    }

    /// The child at a position of a node, from left to right: position 0 is that of the first child.
    pub fn child_at(&self, at: usize) -> u32
        requires kind { self.now.kind ≡ Node }
        requires at { at ≤ length self.now.items }
        ensures { result ≡ child_at self.now at }
    {
        if at == 0 {
            return self.first;
        }
        self.target_at(at - 1) as u32
    }

    /// The position of the first entry that isn't below the given one, and whether they are the same.
    pub fn find(&self, entry: &[u8]) -> (usize, bool)
        ensures position { IsPosition entry.now self.now.items result.0 result.1 }
        ensures within { result.0 ≤ length self.now.items }
    {
        find_in(self.items, self.kind.width(), self.count, entry)
    }
}
