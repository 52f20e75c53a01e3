//! A leaf's items, read one after another.

ghost use Rattle.std.specs.Prelude.{◌≡◌, ℕ, ◌<◌, ◌≤◌, [], length, IfOk};
ghost use Rattle.aria_page.specs.Page.{page_body};
ghost use Rattle.aria_keypage.specs.declared.kind.Kind.TheVariants.{Leaf};
ghost use Rattle.aria_keypage.specs.Content.{Content, Spells};
ghost use Rattle.aria_keypage.specs.LeafReading.{last_read, IsBefore, Reads};

use crate::item::{number_in, stored_at};
use crate::key_page::{ITEMS_AT, KeyPage};
use crate::kind::Kind;
use aria_page::{Bytes, Page, bytes_from};
use std::alloc::{AllocError, Global};

/// A reader of a leaf's items: the byte of the page's body where the next one begins, and the entry of the one before it.
#[derive(Debug, Drop)]
pub struct LeafReader {
    byte: usize,
    entry: Vec<u8>,
}

impl LeafReader {
    /// A reader of no leaf.
    pub fn new(alloc: Global) -> LeafReader
        ensures { last_read result ≡ [] }
    {
        LeafReader {
            byte: 0,
            entry: Vec::new(alloc),
        }
    }

    /// The entry of the item that was read last.
    pub fn entry(&self) -> &[u8]
        ensures { result.now ≡ last_read self.now }
    {
        self.entry.as_slice()
    }

    /// The same, without a copy.
    pub fn into_entry(self) -> Bytes
        ensures { result ≡ last_read self }
    {
        let LeafReader { byte: _, entry } = self;
        Bytes::from_vec(entry)
    }

    /// Reads the next item of a leaf that has one more, and goes behind it: gives its target. `None` where the bytes run
    /// out. Only the entry may take memory, where it is longer than all that were read before.
    pub fn read(&mut self, page: &Page) -> Result<Option<u64>, AllocError>
        ensures { (c : Content) → (at : ℕ) → Spells (page_body page.now) c → c.kind ≡ Leaf → at < length c.items → IsBefore c at self.old → IfOk result (λ r. Reads c at r self.new) }
    {
        let body = page.body();
        if self.byte > body.len() {
            return Ok(None);
        }
        let Some((item, behind)) = stored_at(bytes_from(body, self.byte), 5) else {
            return Ok(None);
        };
        self.entry.truncate(item.shared as usize);
        self.entry.extend_from_slice(item.rest)?;
        self.byte = body.len().saturating_sub(behind.len());
        Ok(Some(number_in(Kind::Leaf, item.to)))
    }
}

impl<'a> KeyPage<'a> {
    /// A reader before the item at a position of a leaf.
    pub fn reader_at(&self, alloc: Global, at: usize) -> Result<LeafReader, AllocError>
        requires kind { self.now.kind ≡ Leaf }
        requires at { at ≤ length self.now.items }
        ensures { IfOk result (λ r. IsBefore self.now at r) }
    {
        let size = self.size();
        let (entry, rest) = self.walk_to(alloc, at)?;
        Ok(LeafReader {
            byte: ITEMS_AT + (size - rest.len()),
            entry,
        })
    }
}
