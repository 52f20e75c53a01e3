//! Whether pages have too few item bytes.

ghost use Rattle.std.specs.Prelude.{◌≡◌, ⊤, IsTrue, IfOk};
ghost use Rattle.aria_keypage.specs.Content.{Content};
ghost use Rattle.aria_cache.specs.Calls.{fault_of, Answers, Loads};
ghost use Rattle.aria_cache.specs.Causes.{HasPagesCause};
ghost use Rattle.aria_key.specs.Held.{HasContent};
ghost use Rattle.aria_key.specs.Merging.{IsWeighed};
ghost use Rattle.aria_key.specs.Reading.{keys_file, OfKeyPage};

use aria_cache::{PageId, Pages};
use aria_host::{Fault, FileName};
use aria_keypage::KeyPage;
use aria_page::Part;
use std::alloc::Global;

// Whether a leaf or a node has too few item bytes.
fn is_thin(page: &KeyPage<'_>) -> bool
    ensures { IsWeighed page.now result }
{
    if page.is_low() {
        return true;
    }
    false
}

// Whether a page of the index file is less than a quarter full.
pub(crate) fn is_low_page<P: Pages>(
    alloc: Global,
    pages: &mut P,
    slot: u32,
    page: u32,
) -> Result<bool, Fault>
    requires stands { P.stands pages.old }
    requires open { IsTrue ((P.state pages.old).is_open slot) }
    ensures stands { P.stands pages.new }
    ensures moves { P.stays pages.old pages.new }
    ensures loads { Loads P.tells 1 (P.state pages.old) (P.state pages.new) }
    ensures low { IsTrue P.tells → (c : Content) → HasContent ((P.state pages.old).bodies (keys_file (P.state pages.old) slot)) page c → IfOk result (λ b. IsWeighed c b) }
    ensures answers { Answers (P.state pages.old) (P.state pages.new) (fault_of result) }
    ensures cause { HasPagesCause (OfKeyPage P.tells P.logged (λ c. ⊤) (keys_file (P.state pages.old) slot) page (P.state pages.old) (P.state pages.new)) (P.state pages.old) (P.state pages.new) (fault_of result) }
{
    let file: FileName = pages.file(slot, Part::Keys);
    if page >= pages.count(slot, Part::Keys) {
        return Err(pages.stop(Fault::PageDamaged { file, page }));
    }
    pages.load(
        alloc,
        PageId {
            slot,
            part: Part::Keys,
            page,
        },
    )?;
    match KeyPage::view(pages.loaded()) {
        Some(view) => Ok(is_thin(&view)),
        None => Err(pages.stop(Fault::PageDamaged { file, page })),
    }
}
