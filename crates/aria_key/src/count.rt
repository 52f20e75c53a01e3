//! How many items a page has.

ghost use Rattle.std.specs.Prelude.{◌≡◌, ⊤, length, IsTrue, IfOk};
ghost use Rattle.aria_keypage.specs.Content.{Content};
ghost use Rattle.aria_cache.specs.Calls.{fault_of, Answers, Loads};
ghost use Rattle.aria_cache.specs.Causes.{HasPagesCause};
ghost use Rattle.aria_key.specs.Held.{HasContent};
ghost use Rattle.aria_key.specs.Reading.{keys_file, OfKeyPage};

use aria_cache::{PageId, Pages};
use aria_host::{Fault, FileName};
use aria_keypage::KeyPage;
use aria_page::Part;
use std::alloc::Global;

// The number of items of a page of the index file.
pub(crate) fn count_of<P: Pages>(
    alloc: Global,
    pages: &mut P,
    slot: u32,
    page: u32,
) -> Result<usize, Fault>
    requires stands { P.stands pages.old }
    requires open { IsTrue ((P.state pages.old).is_open slot) }
    ensures stands { P.stands pages.new }
    ensures moves { P.stays pages.old pages.new }
    ensures loads { Loads P.tells 1 (P.state pages.old) (P.state pages.new) }
    ensures count { IsTrue P.tells → (c : Content) → HasContent ((P.state pages.old).bodies (keys_file (P.state pages.old) slot)) page c → IfOk result (λ n. n ≡ length c.items) }
    ensures answers { Answers (P.state pages.old) (P.state pages.new) (fault_of result) }
    ensures cause { HasPagesCause (OfKeyPage P.tells P.logged (λ c. ⊤) (keys_file (P.state pages.old) slot) page (P.state pages.old) (P.state pages.new)) (P.state pages.old) (P.state pages.new) (fault_of result) }
{
    let file: FileName = pages.file(slot, Part::Keys);
    if page >= pages.count(slot, Part::Keys) {
        return Err(pages.stop(Fault::PageDamaged { file, page }));
    }
    pages.load(
        alloc,
        PageId {
            slot,
            part: Part::Keys,
            page,
        },
    )?;
    match KeyPage::view(pages.loaded()) {
        Some(view) => Ok(view.count()),
        None => Err(pages.stop(Fault::PageDamaged { file, page })),
    }
}
