//! Pages side by side.

ghost use Rattle.std.specs.Prelude.{◌≡◌, ◌<◌, ◌≤◌, length, IsTrue, IfOk};
ghost use Rattle.aria_page.specs.Page.{page_body};
ghost use Rattle.aria_keypage.specs.declared.kind.Kind.TheVariants.{Node};
ghost use Rattle.aria_keypage.specs.Content.{Content, Spells};
ghost use Rattle.aria_cache.specs.Calls.{fault_of, Answers, Loads};
ghost use Rattle.aria_cache.specs.Causes.{HasPagesCause};
ghost use Rattle.aria_key.specs.Held.{HasContent};
ghost use Rattle.aria_key.specs.Merging.{HasPair, pair_at, AreNeighbours, IsPairOf};
ghost use Rattle.aria_key.specs.Reading.{keys_file, OfKeyPage};

use aria_cache::{PageId, Pages};
use aria_host::{Fault, FileName};
use aria_keypage::{KeyPage, Kind};
use aria_page::{Bytes, Page, Part};
use std::alloc::{AllocError, Global};

// Two pages side by side, the position of the item of the node above that names the right one, its entry, and whether it
// is the only item of the node.
#[derive(Drop)]
pub(crate) struct Pair {
    pub left: u32,
    pub right: u32,
    pub at: usize,
    pub between: Bytes,
    pub alone: bool,
}

// The position of the item between a child and the one beside it.
fn pair_at(at: usize) -> usize
    ensures { result ≡ pair_at at }
{
    if 0 < at {
        return at - 1;
    }
    0
}

// A child of a node with items, and the one beside it.
fn pair_of_node(alloc: Global, page: &KeyPage<'_>, at: usize) -> Result<Pair, AllocError>
    requires node { page.now.kind ≡ Node }
    requires some { 0 < length page.now.items }
    requires within { at ≤ length page.now.items }
    ensures { IfOk result (λ r. AreNeighbours page.now at r) }
{
    let near = pair_at(at);
    let between = page.entry_at(alloc, near)?;
    Ok(Pair {
        left: page.child_at(near),
        right: page.child_at(near + 1),
        at: near,
        between,
        alone: page.count() == 1,
    })
}

// The same, where it is such a node.
fn pair_of(alloc: Global, page: &KeyPage<'_>, at: usize) -> Result<Option<Pair>, AllocError>
    ensures { IfOk result (λ r. IsPairOf at page.now r) }
{
    match page.kind() {
        Kind::Leaf => Ok(None),
        Kind::Node => {
            if page.count() == 0 {
                return Ok(None);
            }
            if at > page.count() {
                return Ok(None);
            }
            let pair = pair_of_node(alloc, page, at)?;
            Ok(Some(pair))
        }
    }
}

// The same of a page.
fn pair_in(alloc: Global, page: &Page, at: usize) -> Result<Option<Pair>, AllocError>
    ensures { (c : Content) → Spells (page_body page.now) c → IfOk result (λ r. IsPairOf at c r) }
{
    match KeyPage::view(page) {
        Some(view) => pair_of(alloc, &view, at),
        None => Ok(None),
    }
}

// The child at a position of a node, from left to right, and the one to its left; or to the right of the first one.
pub(crate) fn neighbours<P: Pages>(
    alloc: Global,
    pages: &mut P,
    slot: u32,
    page: u32,
    at: usize,
) -> Result<Pair, Fault>
    requires stands { P.stands pages.old }
    requires open { IsTrue ((P.state pages.old).is_open slot) }
    ensures stands { P.stands pages.new }
    ensures moves { P.stays pages.old pages.new }
    ensures loads { Loads P.tells 1 (P.state pages.old) (P.state pages.new) }
    ensures found { IsTrue P.tells → (c : Content) → HasContent ((P.state pages.old).bodies (keys_file (P.state pages.old) slot)) page c → c.kind ≡ Node → 0 < length c.items → at ≤ length c.items → IfOk result (λ r. AreNeighbours c at r) }
    ensures answers { Answers (P.state pages.old) (P.state pages.new) (fault_of result) }
    ensures cause { HasPagesCause (OfKeyPage P.tells P.logged (HasPair at) (keys_file (P.state pages.old) slot) page (P.state pages.old) (P.state pages.new)) (P.state pages.old) (P.state pages.new) (fault_of result) }
{
    let file: FileName = pages.file(slot, Part::Keys);
    if page >= pages.count(slot, Part::Keys) {
        return Err(pages.stop(Fault::PageDamaged { file, page }));
    }
    pages.load(
        alloc,
        PageId {
            slot,
            part: Part::Keys,
            page,
        },
    )?;
    match pair_in(alloc, pages.loaded(), at) {
        Ok(Some(pair)) => Ok(pair),
        Ok(None) => Err(pages.stop(Fault::PageDamaged { file, page })),
        Err(AllocError) => Err(pages.stop(Fault::Memory(AllocError))),
    }
}
