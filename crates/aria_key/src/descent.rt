//! The way from the root down to a leaf.

ghost use Rattle.std.specs.Prelude.{◌≡◌, ℕ, List, length, IsTrue, IfOk};
ghost use Rattle.aria_keypage.specs.Item.{Item};
ghost use Rattle.aria_cache.specs.Calls.{Loads, fault_of, Answers};
ghost use Rattle.aria_cache.specs.Causes.{HasPagesCause};
ghost use Rattle.aria_key.specs.Path.{passed};
ghost use Rattle.aria_key.specs.Tree.{Placed, IsTree};
ghost use Rattle.aria_key.specs.Place.{IsFound};
ghost use Rattle.aria_key.specs.Reading.{keys_file, OfTree, HasRoot};

use crate::look::look;
use crate::path::{MAX_LEVELS, Passed, Path};
use aria_cache::Pages;
use aria_host::{Fault, FileName};
use aria_keypage::Kind;
use aria_page::Part;
use std::alloc::Global;

/// Where an entry stands or belongs: a position in a leaf, and the way to it.
#[derive(Clone, Copy)]
pub struct Found {
    pub page: u32,
    pub at: usize,
    pub same: bool,
    pub path: Path,
}

/// Looks for an entry in a tree that isn't empty, from its root down.
pub fn find<P: Pages>(
    alloc: Global,
    pages: &mut P,
    slot: u32,
    root: u32,
    entry: &[u8],
) -> Result<Found, Fault>
    requires stands { P.stands pages.old }
    requires open { IsTrue ((P.state pages.old).is_open slot) }
    ensures stands { P.stands pages.new }
    ensures moves { P.stays pages.old pages.new }
    ensures loads { Loads P.tells 16 (P.state pages.old) (P.state pages.new) }
    ensures found { IsTrue P.tells → (key : ℕ) → (levels : List (List Placed)) → (walk : List Item)
        → IsTree ((P.state pages.old).bodies (keys_file (P.state pages.old) slot)) ((P.state pages.old).counts (keys_file (P.state pages.old) slot)) key root levels walk
        → IfOk result (λ r. IsFound ((P.state pages.old).bodies (keys_file (P.state pages.old) slot)) ((P.state pages.old).counts (keys_file (P.state pages.old) slot)) key root entry.now levels walk r.page r.at r.same (passed r.path)) }
    ensures len { IfOk result (λ r. r.path.len ≡ length (passed r.path)) }
    ensures answers { Answers (P.state pages.old) (P.state pages.new) (fault_of result) }
    ensures cause { HasPagesCause (OfTree P.tells P.logged (HasRoot (P.state pages.old) (keys_file (P.state pages.old) slot) root) (keys_file (P.state pages.old) slot) (P.state pages.old) (P.state pages.new)) (P.state pages.old) (P.state pages.new) (fault_of result) }
{
    let file: FileName = pages.file(slot, Part::Keys);
    let mut path = Path::new();
    let mut page = root;
    for _level in 0..MAX_LEVELS {
        let looked = look(alloc, pages, slot, page, entry)?;
        match looked.kind {
            Kind::Leaf => {
                return Ok(Found {
                    page,
                    at: looked.at,
                    same: looked.same,
                    path,
                });
            }
            Kind::Node => {
                path.push(Passed {
                    page,
                    at: looked.next,
                });
                page = looked.child;
            }
        }
    }
    Err(pages.stop(Fault::PageDamaged { file, page }))
}
