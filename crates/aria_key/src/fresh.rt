//! Pages that no tree has yet.

ghost use Rattle.std.specs.Prelude.{◌≡◌, ◌<◌, ◌^◌, IsTrue, IsSome, IfOk, None};
ghost use Rattle.aria_cache.specs.Calls.{Rests, SameGroup, fault_of, Answers};
ghost use Rattle.aria_cache.specs.Causes.{HasPagesCause};
ghost use Rattle.aria_key.specs.Reading.{keys_file, OfFullFile};

use aria_cache::Pages;
use aria_host::{Fault, FileName};
use aria_page::Part;

/// Pages are numbered below this.
const PAGES_MAX: u32 = 1 << 31;

// The number of the page behind the end of the index file.
pub(crate) fn page_behind<P: Pages>(pages: &mut P, slot: u32) -> Result<u32, Fault>
    requires stands { P.stands pages.old }
    requires open { IsTrue ((P.state pages.old).is_open slot) }
    requires calm { (P.state pages.old).kept ≡ None }
    ensures stands { P.stands pages.new }
    ensures moves { P.stays pages.old pages.new }
    ensures rests { Rests (P.state pages.old) (P.state pages.new) }
    ensures group { SameGroup (P.state pages.old) (P.state pages.new) }
    ensures page { IfOk result (λ n. n ≡ (P.state pages.old).counts (keys_file (P.state pages.old) slot)) }
    ensures low { IfOk result (λ n. n < 2 ^ 31) }
    ensures some { IsTrue P.tells → IfOk result (λ n. IsSome ((P.state pages.old).bodies (keys_file (P.state pages.old) slot) n)) }
    ensures answers { Answers (P.state pages.old) (P.state pages.new) (fault_of result) }
    ensures cause { HasPagesCause (OfFullFile (keys_file (P.state pages.old) slot) (P.state pages.old)) (P.state pages.old) (P.state pages.new) (fault_of result) }
{
    let file: FileName = pages.file(slot, Part::Keys);
    let page = pages.count(slot, Part::Keys);
    if page >= PAGES_MAX {
        return Err(pages.stop(Fault::PageDamaged { file, page: 0 }));
    }
    Ok(page)
}
