//! How a cursor comes to a leaf.

ghost use Rattle.std.specs.Prelude.{◌≡◌, ℕ, List, IsTrue, IfOk};
ghost use Rattle.aria_page.specs.Page.{page_body};
ghost use Rattle.aria_keypage.specs.declared.kind.Kind.TheVariants.{Leaf};
ghost use Rattle.aria_keypage.specs.Item.{Item};
ghost use Rattle.aria_keypage.specs.Content.{Content, Spells};
ghost use Rattle.aria_cache.specs.Calls.{fault_of, Answers, Loads};
ghost use Rattle.aria_cache.specs.Causes.{HasPagesCause};
ghost use Rattle.aria_key.specs.Held.{HasContent, Takes};
ghost use Rattle.aria_key.specs.Tree.{Placed, IsTree};
ghost use Rattle.aria_key.specs.Reading.{keys_file, OfKeyPage, OfTree, HasRoot};
ghost use Rattle.aria_key.specs.Ahead.{HasEntered, IsEntered, HasSought};

use crate::cursor::Cursor;
use crate::descent::find;
use crate::way_up::next_low;
use aria_cache::{PageId, Pages};
use aria_host::{Fault, FileName};
use aria_keypage::{KeyPage, Kind, LeafReader};
use aria_page::{Page, Part};
use std::alloc::{AllocError, Global};

// A reader before an item of a leaf, and how many items there are from it on.
#[derive(Drop)]
pub(crate) struct Entered {
    pub left: usize,
    pub reader: LeafReader,
}

// The leaf before the item at a position; none where it is a node, or has fewer items.
fn entered_of(alloc: Global, page: &KeyPage<'_>, at: usize) -> Result<Option<Entered>, AllocError>
    ensures { IfOk result (λ r. IsEntered page.now at r) }
{
    let count = page.count();
    if at > count {
        return Ok(None);
    }
    match page.kind() {
        Kind::Leaf => {
            let reader = page.reader_at(alloc, at)?;
            Ok(Some(Entered {
                left: count - at,
                reader,
            }))
        }
        Kind::Node => Ok(None),
    }
}

// The same of a page; nothing where it is no key page.
fn entered_on(alloc: Global, page: &Page, at: usize) -> Result<Option<Entered>, AllocError>
    ensures { (c : Content) → Spells (page_body page.now) c → IfOk result (λ r. IsEntered c at r) }
{
    match KeyPage::view(page) {
        Some(view) => entered_of(alloc, &view, at),
        None => Ok(None),
    }
}

// The same of a page of the index file.
fn enter_leaf<P: Pages>(
    alloc: Global,
    pages: &mut P,
    slot: u32,
    page: u32,
    at: usize,
) -> Result<Entered, Fault>
    requires stands { P.stands pages.old }
    requires open { IsTrue ((P.state pages.old).is_open slot) }
    ensures stands { P.stands pages.new }
    ensures moves { P.stays pages.old pages.new }
    ensures loads { Loads P.tells 1 (P.state pages.old) (P.state pages.new) }
    ensures entered { IsTrue P.tells → (c : Content) → HasContent ((P.state pages.old).bodies (keys_file (P.state pages.old) slot)) page c → IfOk result (λ e. HasEntered c at e) }
    ensures answers { Answers (P.state pages.old) (P.state pages.new) (fault_of result) }
    ensures cause { HasPagesCause (OfKeyPage P.tells P.logged (Takes Leaf at) (keys_file (P.state pages.old) slot) page (P.state pages.old) (P.state pages.new)) (P.state pages.old) (P.state pages.new) (fault_of result) }
{
    let file: FileName = pages.file(slot, Part::Keys);
    if page >= pages.count(slot, Part::Keys) {
        return Err(pages.stop(Fault::PageDamaged { file, page }));
    }
    pages.load(
        alloc,
        PageId {
            slot,
            part: Part::Keys,
            page,
        },
    )?;
    match entered_on(alloc, pages.loaded(), at) {
        Ok(Some(entered)) => Ok(entered),
        Ok(None) => Err(pages.stop(Fault::PageDamaged { file, page })),
        Err(AllocError) => Err(pages.stop(Fault::Memory(AllocError))),
    }
}

// A cursor before the first entry of a tree that isn't below a given one.
pub(crate) fn enter<P: Pages>(
    alloc: Global,
    pages: &mut P,
    slot: u32,
    root: u32,
    entry: &[u8],
) -> Result<Cursor, Fault>
    requires stands { P.stands pages.old }
    requires open { IsTrue ((P.state pages.old).is_open slot) }
    ensures stands { P.stands pages.new }
    ensures moves { P.stays pages.old pages.new }
    ensures loads { Loads P.tells 33 (P.state pages.old) (P.state pages.new) }
    ensures slot { IfOk result (λ c. c.slot ≡ slot) }
    ensures sought { IsTrue P.tells → (key : ℕ) → (levels : List (List Placed)) → (walk : List Item)
        → IsTree ((P.state pages.old).bodies (keys_file (P.state pages.old) slot)) ((P.state pages.old).counts (keys_file (P.state pages.old) slot)) key root levels walk
        → IfOk result (λ c. HasSought ((P.state pages.old).bodies (keys_file (P.state pages.old) slot)) ((P.state pages.old).counts (keys_file (P.state pages.old) slot)) key root entry.now levels walk c) }
    ensures answers { Answers (P.state pages.old) (P.state pages.new) (fault_of result) }
    ensures cause { HasPagesCause (OfTree P.tells P.logged (HasRoot (P.state pages.old) (keys_file (P.state pages.old) slot) root) (keys_file (P.state pages.old) slot) (P.state pages.old) (P.state pages.new)) (P.state pages.old) (P.state pages.new) (fault_of result) }
{
    let _file = FileName::Control;
    let found = find(alloc, pages, slot, root, entry)?;
    let next = next_low(alloc, pages, slot, found.path)?;
    let entered = enter_leaf(alloc, pages, slot, found.page, found.at)?;
    let Entered { left, reader } = entered;
    Ok(Cursor {
        slot,
        root,
        page: found.page,
        left,
        reader,
        target: 0,
        next,
    })
}
