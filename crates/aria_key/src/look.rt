//! A search in one page.

ghost use Rattle.std.specs.Prelude.{◌≡◌, ◌≤◌, length, ⊤, IsTrue, IfOk};
ghost use Rattle.aria_keypage.specs.Item.{IsPosition};
ghost use Rattle.aria_keypage.specs.Content.{Content};
ghost use Rattle.aria_cache.specs.Calls.{Loads, fault_of, Answers};
ghost use Rattle.aria_cache.specs.Causes.{HasPagesCause};
ghost use Rattle.aria_key.specs.Held.{HasContent};
ghost use Rattle.aria_key.specs.Place.{child_index};
ghost use Rattle.aria_key.specs.Reading.{keys_file, IsLooked, OfKeyPage};

use aria_cache::{PageId, Pages};
use aria_host::{Fault, FileName};
use aria_keypage::{KeyPage, Kind};
use aria_page::Part;
use std::alloc::Global;

// What a search finds in a page: where the entry stands or belongs, and in a node the child to go on with.
#[derive(Clone, Copy)]
pub(crate) struct Looked {
    pub kind: Kind,
    pub at: usize,
    pub same: bool,
    pub next: usize,
    pub child: u32,
}

// Which child of a node has the bounds in which an entry lies that stands or belongs at this position.
fn next_index(page: &KeyPage<'_>, entry: &[u8], at: usize, same: bool) -> usize
    requires { IsPosition entry.now page.now.items at same }
    ensures index { result ≡ child_index at same }
    ensures within { result ≤ length page.now.items }
{
    let _count = page.count();
    if same {
        return at + 1;
    }
    at
}

// Looks for an entry.
fn search(page: &KeyPage<'_>, entry: &[u8]) -> Looked
    ensures { IsLooked entry.now page.now result }
{
    let (at, same) = page.find(entry);
    match page.kind() {
        Kind::Leaf => Looked {
            kind: Kind::Leaf,
            at,
            same,
            next: 0,
            child: 0,
        },
        Kind::Node => {
            let next = next_index(page, entry, at, same);
            Looked {
                kind: Kind::Node,
                at,
                same,
                next,
                child: page.child_at(next),
            }
        }
    }
}

// Looks for an entry in a page of the index file.
#[tactic(auto, using(crate::proofs::Reading::page_cause))]
pub(crate) fn look<P: Pages>(
    alloc: Global,
    pages: &mut P,
    slot: u32,
    page: u32,
    entry: &[u8],
) -> Result<Looked, Fault>
    requires stands { P.stands pages.old }
    requires open { IsTrue ((P.state pages.old).is_open slot) }
    ensures stands { P.stands pages.new }
    ensures moves { P.stays pages.old pages.new }
    ensures loads { Loads P.tells 1 (P.state pages.old) (P.state pages.new) }
    ensures looked { IsTrue P.tells → (c : Content) → HasContent ((P.state pages.old).bodies (keys_file (P.state pages.old) slot)) page c → IfOk result (λ r. IsLooked entry.now c r) }
    ensures answers { Answers (P.state pages.old) (P.state pages.new) (fault_of result) }
    ensures cause { HasPagesCause (OfKeyPage P.tells P.logged (λ c. ⊤) (keys_file (P.state pages.old) slot) page (P.state pages.old) (P.state pages.new)) (P.state pages.old) (P.state pages.new) (fault_of result) }
{
    let file: FileName = pages.file(slot, Part::Keys);
    if page >= pages.count(slot, Part::Keys) {
        return Err(pages.stop(Fault::PageDamaged { file, page }));
    }
    pages.load(
        alloc,
        PageId {
            slot,
            part: Part::Keys,
            page,
        },
    )?;
    match KeyPage::view(pages.loaded()) {
        Some(view) => Ok(search(&view, entry)),
        None => Err(pages.stop(Fault::PageDamaged { file, page })),
    }
}
