ghost use Rattle.std.specs.Prelude.{◌≡◌, ◌≢◌, ◌-◌, ◌%◌, ◌^◌, ◌<◌, true, IsTrue, OnOk};
ghost use Rattle.aria_cache.specs.Calls.{fault_of, Answers, Spends, HasRoom, StaysIn, SameSlots, SameLog};
ghost use Rattle.aria_cache.specs.Causes.{HasPagesCause};
ghost use Rattle.aria_block.specs.declared.layout.TheConstants.{MAP_EVERY};
ghost use Rattle.aria_block.specs.Causes.{rows_file, OfFile, KeepsSound};
ghost use Rattle.aria_block.specs.Puts.{SetsCode};

use crate::layout::MAP_EVERY;
use aria_bitmap::{code_of, set_bytes};
use aria_cache::{OpenGroup, PageId, Pages};
use aria_host::{Fault, FileName};
use aria_page::{Change, Part, RedoKind};
use std::alloc::Global;

/// Sets the pattern of a page to its code.
pub(crate) fn set_code<P: Pages>(
    alloc: Global,
    pages: &mut P,
    group: &mut OpenGroup,
    slot: u32,
    page: u32,
) -> Result<(), Fault>
    requires stands { P.stands pages.old }
    requires open { IsTrue ((P.state pages.old).is_open slot) }
    requires group { (P.state pages.old).in_group ≡ true }
    requires below { page < (P.state pages.old).counts (rows_file (P.state pages.old) slot) }
    requires low { page < 2 ^ 31 }
    requires plain { page % MAP_EVERY ≢ 0 }
    requires room { IsTrue P.logged → HasRoom 1 (P.state pages.old) }
    ensures stands { P.stands pages.new }
    ensures moves { P.stays pages.old pages.new }
    ensures slots { SameSlots (P.state pages.old) (P.state pages.new) }
    ensures log { SameLog (P.state pages.old) (P.state pages.new) }
    ensures in_group { (P.state pages.new).in_group ≡ true }
    ensures spends { Spends 1 1 84 (P.state pages.old) (P.state pages.new) }
    ensures sets { IsTrue P.tells → OnOk result (SetsCode (rows_file (P.state pages.old) slot) page (P.state pages.old) (P.state pages.new)) }
    ensures inside { IsTrue P.tells → OnOk result (StaysIn P.logged (rows_file (P.state pages.old) slot) (P.state pages.old) (P.state pages.new)) }
    ensures counts { OnOk result ((P.state pages.new).counts ≡ (P.state pages.old).counts) }
    ensures keeps { OnOk result (KeepsSound P.tells (rows_file (P.state pages.old) slot) (P.state pages.old) (P.state pages.new)) }
    ensures answers { Answers (P.state pages.old) (P.state pages.new) (fault_of result) }
    ensures cause { HasPagesCause (OfFile P.tells P.logged (rows_file (P.state pages.old) slot) (P.state pages.old) (P.state pages.new)) (P.state pages.old) (P.state pages.new) (fault_of result) }
{
    let _file = FileName::Control;
    let nth = page % MAP_EVERY;
    let map = page - nth;
    pages.load(
        alloc,
        PageId {
            slot,
            part: Part::Rows,
            page,
        },
    )?;
    let code = code_of(pages.loaded());
    let at = PageId {
        slot,
        part: Part::Rows,
        page: map,
    };
    pages.load(alloc, at)?;
    let put = set_bytes(pages.loaded(), nth - 1, code);
    pages.edit(
        alloc,
        group,
        at,
        RedoKind::Bitmap,
        &[Change::Set {
            at: put.at,
            bytes: &put.bytes,
        }],
    )
}
