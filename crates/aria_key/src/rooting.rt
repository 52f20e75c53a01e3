//! The roots of the keys' trees, in the header of an index file.

ghost use Rattle.std.specs.Prelude.{◌≡◌, ℕ, List, IsTrue, IfOk, Some};
ghost use Rattle.aria_page.specs.Page.{page_body};
ghost use Rattle.aria_cache.specs.Calls.{fault_of, Answers, Loads};
ghost use Rattle.aria_cache.specs.Causes.{HasPagesCause};
ghost use Rattle.aria_key.specs.IndexFile.{root_in};
ghost use Rattle.aria_key.specs.Reading.{keys_file, OfTree};
ghost use Rattle.aria_key.specs.WayUp.{IsPresent};

use crate::fetching::fetch;
use crate::layout::ROOTS_AT;
use aria_cache::Pages;
use aria_host::{Fault, FileName};
use aria_page::{Page, bytes_from, u32_of};
use std::alloc::Global;

// The root of a key's tree that a header says.
fn root_in(page: &Page, key: u8) -> u32
    ensures { result ≡ root_in (page_body page.now) key }
{
    u32_of(bytes_from(page.body(), ROOTS_AT + 4 * key as usize))
}

// The root of a key's tree; 0 where it is empty.
pub(crate) fn root_of<P: Pages>(
    alloc: Global,
    pages: &mut P,
    slot: u32,
    key: u8,
) -> Result<u32, Fault>
    requires stands { P.stands pages.old }
    requires open { IsTrue ((P.state pages.old).is_open slot) }
    ensures stands { P.stands pages.new }
    ensures moves { P.stays pages.old pages.new }
    ensures loads { Loads P.tells 1 (P.state pages.old) (P.state pages.new) }
    ensures root { IsTrue P.tells → (header : List ℕ) → (P.state pages.old).bodies (keys_file (P.state pages.old) slot) 0 ≡ Some header → IfOk result (λ n. n ≡ root_in header key) }
    ensures answers { Answers (P.state pages.old) (P.state pages.new) (fault_of result) }
    ensures cause { HasPagesCause (OfTree P.tells P.logged (IsPresent (P.state pages.old) (keys_file (P.state pages.old) slot) 0) (keys_file (P.state pages.old) slot) (P.state pages.old) (P.state pages.new)) (P.state pages.old) (P.state pages.new) (fault_of result) }
{
    let _file = FileName::Control;
    fetch(alloc, pages, slot, 0)?;
    Ok(root_in(pages.loaded(), key))
}
