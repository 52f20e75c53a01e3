//! Cursors: a tree's entries one after another, in their order.

ghost use Rattle.std.specs.Prelude.{◌≡◌, ℕ, ◌<◌, List, IsTrue, IfOk};
ghost use Rattle.aria_keypage.specs.Item.{Item};
ghost use Rattle.aria_keypage.specs.LeafReading.{last_read};
ghost use Rattle.aria_cache.specs.Calls.{fault_of, Answers, Loads};
ghost use Rattle.aria_cache.specs.Causes.{HasPagesCause};
ghost use Rattle.aria_key.specs.Rest.{from};
ghost use Rattle.aria_key.specs.IndexFile.{HoldsTrees};
ghost use Rattle.aria_key.specs.Reading.{keys_file, OfTree};
ghost use Rattle.aria_key.specs.Ahead.{IsAhead, HasAhead, IsNext, HasNext, IsReady, GoesOn, IsSpent, IsSet, HasKey};

use crate::entering::enter;
use crate::fetching::fetch;
use crate::rooting::root_of;
use aria_cache::Pages;
use aria_host::{Fault, FileName};
use aria_keypage::LeafReader;
use aria_page::{Bytes, Part};
use std::alloc::{AllocError, Global};

/// A place among the entries of a tree, between two of them. It has the entry that was read last, grown in place. It
/// knows its leaf and where the next one begins, so that a step within a leaf reads one item.
#[derive(Drop)]
pub struct Cursor {
    pub(crate) slot: u32,
    pub(crate) root: u32,
    pub(crate) page: u32,
    pub(crate) left: usize,
    pub(crate) reader: LeafReader,
    pub(crate) target: u64,
    pub(crate) next: Option<Bytes>,
}

impl Cursor {
    /// The entry that was read last.
    pub fn entry(&self) -> &[u8]
        ensures { result.now ≡ last_read self.now.reader }
    {
        self.reader.entry()
    }

    /// Its target.
    pub fn target(&self) -> u64
        ensures { result ≡ self.now.target }
    {
        self.target
    }

    /// The entry that was read last, without a copy.
    pub fn into_entry(self) -> Bytes
        ensures { result ≡ last_read self.reader }
    {
        let Cursor {
            slot: _,
            root: _,
            page: _,
            left: _,
            reader,
            target: _,
            next: _,
        } = self;
        reader.into_entry()
    }
}

// Reads the next item of the cursor's leaf.
fn read_item<P: Pages>(alloc: Global, pages: &mut P, cursor: &mut Cursor) -> Result<(), Fault>
    requires stands { P.stands pages.old }
    requires open { IsTrue ((P.state pages.old).is_open cursor.old.slot) }
    requires some { 0 < cursor.old.left }
    ensures stands { P.stands pages.new }
    ensures moves { P.stays pages.old pages.new }
    ensures loads { Loads P.tells 1 (P.state pages.old) (P.state pages.new) }
    ensures slot { cursor.new.slot ≡ cursor.old.slot }
    ensures next { IsTrue P.tells → (rest : List Item) → IsReady (P.state pages.old) cursor.old rest → IfOk result (λ _. HasNext (P.state pages.new) rest cursor.new) }
    ensures answers { Answers (P.state pages.old) (P.state pages.new) (fault_of result) }
    ensures cause { HasPagesCause (OfTree P.tells P.logged (IsSet (P.state pages.old) cursor.old) (keys_file (P.state pages.old) cursor.old.slot) (P.state pages.old) (P.state pages.new)) (P.state pages.old) (P.state pages.new) (fault_of result) }
{
    let file: FileName = pages.file(cursor.slot, Part::Keys);
    let page = cursor.page;
    fetch(alloc, pages, cursor.slot, page)?;
    match cursor.reader.read(pages.loaded()) {
        Ok(Some(target)) => {
            cursor.target = target;
            cursor.left -= 1;
            Ok(())
        }
        Ok(None) => Err(pages.stop(Fault::PageDamaged { file, page })),
        Err(AllocError) => Err(pages.stop(Fault::Memory(AllocError))),
    }
}

// Brings a cursor that has read its leaf to the next one; `false` where there is none.
fn go_on<P: Pages>(alloc: Global, pages: &mut P, cursor: &mut Cursor) -> Result<bool, Fault>
    requires stands { P.stands pages.old }
    requires open { IsTrue ((P.state pages.old).is_open cursor.old.slot) }
    ensures stands { P.stands pages.new }
    ensures moves { P.stays pages.old pages.new }
    ensures loads { Loads P.tells 33 (P.state pages.old) (P.state pages.new) }
    ensures slot { cursor.new.slot ≡ cursor.old.slot }
    ensures some { IfOk result (λ on. IsTrue on → 0 < cursor.new.left) }
    ensures on { IsTrue P.tells → (rest : List Item) → cursor.old.left ≡ 0 → IsAhead (P.state pages.old) cursor.old rest → IfOk result (λ on. GoesOn (P.state pages.new) rest cursor.new on) }
    ensures answers { Answers (P.state pages.old) (P.state pages.new) (fault_of result) }
    ensures cause { HasPagesCause (OfTree P.tells P.logged (IsSpent (P.state pages.old) cursor.old) (keys_file (P.state pages.old) cursor.old.slot) (P.state pages.old) (P.state pages.new)) (P.state pages.old) (P.state pages.new) (fault_of result) }
{
    let file: FileName = pages.file(cursor.slot, Part::Keys);
    match &cursor.next {
        None => {
            fetch(alloc, pages, cursor.slot, cursor.page)?;
            Ok(false)
        }
        Some(low) => {
            let on = enter(alloc, pages, cursor.slot, cursor.root, low.as_slice())?;
            if on.left == 0 {
                return Err(pages.stop(Fault::PageDamaged {
                    file,
                    page: on.page,
                }));
            }
            *cursor = on;
            Ok(true)
        }
    }
}

// Reads the first entry of the leaf behind a cursor's; `false` where there is none.
fn next_leaf<P: Pages>(alloc: Global, pages: &mut P, cursor: &mut Cursor) -> Result<bool, Fault>
    requires stands { P.stands pages.old }
    requires open { IsTrue ((P.state pages.old).is_open cursor.old.slot) }
    ensures stands { P.stands pages.new }
    ensures moves { P.stays pages.old pages.new }
    ensures loads { Loads P.tells 34 (P.state pages.old) (P.state pages.new) }
    ensures slot { cursor.new.slot ≡ cursor.old.slot }
    ensures next { IsTrue P.tells → (rest : List Item) → cursor.old.left ≡ 0 → IsAhead (P.state pages.old) cursor.old rest → IfOk result (λ more. IsNext (P.state pages.new) rest cursor.new more) }
    ensures answers { Answers (P.state pages.old) (P.state pages.new) (fault_of result) }
    ensures cause { HasPagesCause (OfTree P.tells P.logged (IsSpent (P.state pages.old) cursor.old) (keys_file (P.state pages.old) cursor.old.slot) (P.state pages.old) (P.state pages.new)) (P.state pages.old) (P.state pages.new) (fault_of result) }
{
    let _file = FileName::Control;
    let on = go_on(alloc, pages, cursor)?;
    if !on {
        return Ok(false);
    }
    read_item(alloc, pages, cursor)?;
    Ok(true)
}

/// Reads the next entry of a cursor's tree; `false` where there is none.
pub fn next<P: Pages>(alloc: Global, pages: &mut P, cursor: &mut Cursor) -> Result<bool, Fault>
    requires stands { P.stands pages.old }
    requires open { IsTrue ((P.state pages.old).is_open cursor.old.slot) }
    ensures stands { P.stands pages.new }
    ensures moves { P.stays pages.old pages.new }
    ensures loads { Loads P.tells 40 (P.state pages.old) (P.state pages.new) }
    ensures slot { cursor.new.slot ≡ cursor.old.slot }
    ensures next { IsTrue P.tells → (rest : List Item) → IsAhead (P.state pages.old) cursor.old rest → IfOk result (λ more. IsNext (P.state pages.new) rest cursor.new more) }
    ensures answers { Answers (P.state pages.old) (P.state pages.new) (fault_of result) }
    ensures cause { HasPagesCause (OfTree P.tells P.logged (HasAhead (P.state pages.old) cursor.old) (keys_file (P.state pages.old) cursor.old.slot) (P.state pages.old) (P.state pages.new)) (P.state pages.old) (P.state pages.new) (fault_of result) }
{
    let _file = FileName::Control;
    if cursor.left == 0 {
        return next_leaf(alloc, pages, cursor);
    }
    read_item(alloc, pages, cursor)?;
    Ok(true)
}

/// A cursor before the first entry of a key's tree that isn't below a given one.
pub fn seek<P: Pages>(
    alloc: Global,
    pages: &mut P,
    slot: u32,
    key: u8,
    entry: &[u8],
) -> Result<Cursor, Fault>
    requires stands { P.stands pages.old }
    requires open { IsTrue ((P.state pages.old).is_open slot) }
    ensures stands { P.stands pages.new }
    ensures moves { P.stays pages.old pages.new }
    ensures loads { Loads P.tells 40 (P.state pages.old) (P.state pages.new) }
    ensures slot { IfOk result (λ c. c.slot ≡ slot) }
    ensures ahead { IsTrue P.tells → (keys : ℕ) → (walks : ℕ → List Item)
        → HoldsTrees keys ((P.state pages.old).counts (keys_file (P.state pages.old) slot)) ((P.state pages.old).bodies (keys_file (P.state pages.old) slot)) walks → key < keys
        → IfOk result (λ c. IsAhead (P.state pages.new) c (from entry.now (walks key))) }
    ensures answers { Answers (P.state pages.old) (P.state pages.new) (fault_of result) }
    ensures cause { HasPagesCause (OfTree P.tells P.logged (HasKey (P.state pages.old) (keys_file (P.state pages.old) slot) key) (keys_file (P.state pages.old) slot) (P.state pages.old) (P.state pages.new)) (P.state pages.old) (P.state pages.new) (fault_of result) }
{
    let _file = FileName::Control;
    let root = root_of(alloc, pages, slot, key)?;
    if root == 0 {
        return Ok(Cursor {
            slot,
            root,
            page: 0,
            left: 0,
            reader: LeafReader::new(alloc),
            target: 0,
            next: None,
        });
    }
    let cursor = enter(alloc, pages, slot, root, entry)?;
    Ok(cursor)
}
