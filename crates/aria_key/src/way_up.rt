//! The way back up from a leaf, to where the next one begins.

ghost use Rattle.std.specs.Prelude.{◌≡◌, ⊤, ℕ, List, Option, Some, None, IsTrue, IfOk};
ghost use Rattle.aria_page.specs.Page.{page_body};
ghost use Rattle.aria_keypage.specs.Content.{Content, Spells};
ghost use Rattle.aria_cache.specs.Calls.{fault_of, Answers, Loads};
ghost use Rattle.aria_cache.specs.Causes.{HasPagesCause};
ghost use Rattle.aria_key.specs.Path.{passed};
ghost use Rattle.aria_key.specs.Held.{HasContent};
ghost use Rattle.aria_key.specs.Cursor.{entry_in, IsWayTo};
ghost use Rattle.aria_key.specs.Reading.{keys_file, OfKeyPage, OfTree};
ghost use Rattle.aria_key.specs.WayUp.{HasWay};

use crate::path::{MAX_LEVELS, Path};
use aria_cache::{PageId, Pages};
use aria_host::{Fault, FileName};
use aria_keypage::KeyPage;
use aria_page::{Bytes, Page, Part};
use std::alloc::{AllocError, Global};

// The entry of the item at a position; none behind the last one.
fn entry_of(alloc: Global, page: &KeyPage<'_>, at: usize) -> Result<Option<Bytes>, AllocError>
    ensures { IfOk result (λ r. r ≡ entry_in page.now.items at) }
{
    if at >= page.count() {
        return Ok(None);
    }
    let entry = page.entry_at(alloc, at)?;
    Ok(Some(entry))
}

// The same of a page; nothing where it is no key page.
fn entry_on(alloc: Global, page: &Page, at: usize) -> Result<Option<Option<Bytes>>, AllocError>
    ensures { (c : Content) → Spells (page_body page.now) c → IfOk result (λ r. r ≡ Some (entry_in c.items at)) }
{
    match KeyPage::view(page) {
        Some(view) => {
            let entry = entry_of(alloc, &view, at)?;
            Ok(Some(entry))
        }
        None => Ok(None),
    }
}

// The same of a page of the index file.
fn entry_at<P: Pages>(
    alloc: Global,
    pages: &mut P,
    slot: u32,
    page: u32,
    at: usize,
) -> Result<Option<Bytes>, Fault>
    requires stands { P.stands pages.old }
    requires open { IsTrue ((P.state pages.old).is_open slot) }
    ensures stands { P.stands pages.new }
    ensures moves { P.stays pages.old pages.new }
    ensures loads { Loads P.tells 1 (P.state pages.old) (P.state pages.new) }
    ensures entry { IsTrue P.tells → (c : Content) → HasContent ((P.state pages.old).bodies (keys_file (P.state pages.old) slot)) page c → IfOk result (λ r. r ≡ entry_in c.items at) }
    ensures answers { Answers (P.state pages.old) (P.state pages.new) (fault_of result) }
    ensures cause { HasPagesCause (OfKeyPage P.tells P.logged (λ c. ⊤) (keys_file (P.state pages.old) slot) page (P.state pages.old) (P.state pages.new)) (P.state pages.old) (P.state pages.new) (fault_of result) }
{
    let file: FileName = pages.file(slot, Part::Keys);
    if page >= pages.count(slot, Part::Keys) {
        return Err(pages.stop(Fault::PageDamaged { file, page }));
    }
    pages.load(
        alloc,
        PageId {
            slot,
            part: Part::Keys,
            page,
        },
    )?;
    match entry_on(alloc, pages.loaded(), at) {
        Ok(Some(entry)) => Ok(entry),
        Ok(None) => Err(pages.stop(Fault::PageDamaged { file, page })),
        Err(AllocError) => Err(pages.stop(Fault::Memory(AllocError))),
    }
}

// Where the page begins that stands behind the one that this is the way to; none behind the last one.
pub(crate) fn next_low<P: Pages>(
    alloc: Global,
    pages: &mut P,
    slot: u32,
    path: Path,
) -> Result<Option<Bytes>, Fault>
    requires stands { P.stands pages.old }
    requires open { IsTrue ((P.state pages.old).is_open slot) }
    requires calm { (P.state pages.old).kept ≡ None }
    ensures stands { P.stands pages.new }
    ensures moves { P.stays pages.old pages.new }
    ensures loads { Loads P.tells 16 (P.state pages.old) (P.state pages.new) }
    ensures next { IsTrue P.tells → (next : Option (List ℕ)) → IsWayTo ((P.state pages.old).bodies (keys_file (P.state pages.old) slot)) ((P.state pages.old).counts (keys_file (P.state pages.old) slot)) (passed path) next → IfOk result (λ r. r ≡ next) }
    ensures answers { Answers (P.state pages.old) (P.state pages.new) (fault_of result) }
    ensures cause { HasPagesCause (OfTree P.tells P.logged (HasWay (P.state pages.old) (keys_file (P.state pages.old) slot) (passed path)) (keys_file (P.state pages.old) slot) (P.state pages.old) (P.state pages.new)) (P.state pages.old) (P.state pages.new) (fault_of result) }
{
    let _file = FileName::Control;
    let mut way = path;
    for _level in 0..MAX_LEVELS {
        match way.up() {
            None => return Ok(None),
            Some(step) => {
                let found = entry_at(alloc, pages, slot, step.page, step.at)?;
                match found {
                    Some(entry) => return Ok(Some(entry)),
                    None => {}
                }
            }
        }
    }
    Ok(None)
}
