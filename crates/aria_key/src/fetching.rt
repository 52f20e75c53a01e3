//! Pages brought into memory.

ghost use Rattle.std.specs.Prelude.{◌≡◌, ℕ, IsTrue, OnOk, Some};
ghost use Rattle.aria_cache.specs.Calls.{fault_of, Answers, Loads};
ghost use Rattle.aria_cache.specs.Causes.{HasPagesCause};
ghost use Rattle.aria_key.specs.Reading.{keys_file, OfTree};
ghost use Rattle.aria_key.specs.WayUp.{IsPresent};

use aria_cache::{PageId, Pages};
use aria_host::{Fault, FileName};
use aria_page::Part;
use std::alloc::Global;

// Brings a page of the index file into memory.
pub(crate) fn fetch<P: Pages>(
    alloc: Global,
    pages: &mut P,
    slot: u32,
    page: u32,
) -> Result<(), Fault>
    requires stands { P.stands pages.old }
    requires open { IsTrue ((P.state pages.old).is_open slot) }
    ensures stands { P.stands pages.new }
    ensures moves { P.stays pages.old pages.new }
    ensures loads { Loads P.tells 1 (P.state pages.old) (P.state pages.new) }
    ensures loaded { IsTrue P.tells → OnOk result ((P.state pages.old).bodies (keys_file (P.state pages.old) slot) page ≡ Some (P.state pages.new).loaded) }
    ensures answers { Answers (P.state pages.old) (P.state pages.new) (fault_of result) }
    ensures cause { HasPagesCause (OfTree P.tells P.logged (IsPresent (P.state pages.old) (keys_file (P.state pages.old) slot) page) (keys_file (P.state pages.old) slot) (P.state pages.old) (P.state pages.new)) (P.state pages.old) (P.state pages.new) (fault_of result) }
{
    let file: FileName = pages.file(slot, Part::Keys);
    if page >= pages.count(slot, Part::Keys) {
        return Err(pages.stop(Fault::PageDamaged { file, page }));
    }
    pages.load(
        alloc,
        PageId {
            slot,
            part: Part::Keys,
            page,
        },
    )
}
