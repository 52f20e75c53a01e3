//! Edits that a key page gave, made in its page.

ghost use Rattle.std.specs.Prelude.{◌≡◌, ◌+◌, ◌<◌, ◌≤◌, ◌^◌, length, true, IsTrue, OnOk, All};
ghost use Rattle.aria_page.specs.Edit.{IsWithin};
ghost use Rattle.aria_page.specs.Change.{edit_of, edits_of};
ghost use Rattle.aria_page.specs.declared.group.RedoKind.TheVariants.{Index};
ghost use Rattle.aria_page.specs.declared.place.Part.TheVariants.{Keys};
ghost use Rattle.aria_record.specs.Writing.{redo_size};
ghost use Rattle.aria_cache.specs.PageState.{with_count};
ghost use Rattle.aria_cache.specs.Calls.{SameSlots, SameLog, StaysIn, fault_of, Answers, Spends, HasRoom, Edits};
ghost use Rattle.aria_cache.specs.Causes.{OfPage, HasPagesCause};
ghost use Rattle.aria_key.specs.Reading.{keys_file};

use aria_cache::{OpenGroup, PageId, Pages};
use aria_host::{Fault, FileName};
use aria_page::{Change, Part, RedoKind};
use std::alloc::Global;

// Makes the edits in a page of the index file, as part of the group.
pub(crate) fn edit_page<P: Pages>(
    alloc: Global,
    pages: &mut P,
    group: &mut OpenGroup,
    slot: u32,
    page: u32,
    edits: &[Change<'_>],
) -> Result<(), Fault>
    requires stands { P.stands pages.old }
    requires open { IsTrue ((P.state pages.old).is_open slot) }
    requires group { (P.state pages.old).in_group ≡ true }
    requires low { page < 2 ^ 31 }
    requires some { 1 ≤ length edits.now }
    requires within { All (λ e. IsWithin (edit_of e)) edits.now }
    requires room { IsTrue P.logged → HasRoom (length edits.now) (P.state pages.old) }
    ensures stands { P.stands pages.new }
    ensures moves { P.stays pages.old pages.new }
    ensures slots { SameSlots (P.state pages.old) (P.state pages.new) }
    ensures log { SameLog (P.state pages.old) (P.state pages.new) }
    ensures lent { (P.state pages.new).lent ≡ (P.state pages.old).lent }
    ensures in_group { (P.state pages.new).in_group ≡ true }
    ensures edited { OnOk result ((P.state pages.new).edited ≡ true) }
    ensures edits { IsTrue P.tells → OnOk result (Edits P.logged Index slot Keys page (edits_of edits.now) (P.state pages.old) (P.state pages.new)) }
    ensures inside { IsTrue P.tells → OnOk result (StaysIn P.logged (keys_file (P.state pages.old) slot) (P.state pages.old) (P.state pages.new)) }
    ensures counts { OnOk result ((P.state pages.new).counts ≡ with_count (keys_file (P.state pages.old) slot) (page + 1) (P.state pages.old).counts) }
    ensures spends { Spends 1 (length edits.now) (redo_size (edits_of edits.now)) (P.state pages.old) (P.state pages.new) }
    ensures answers { Answers (P.state pages.old) (P.state pages.new) (fault_of result) }
    ensures cause { HasPagesCause (OfPage P.tells P.logged (keys_file (P.state pages.old) slot) page (P.state pages.old) (P.state pages.new)) (P.state pages.old) (P.state pages.new) (fault_of result) }
{
    let _file = FileName::Control;
    pages.edit(
        alloc,
        group,
        PageId {
            slot,
            part: Part::Keys,
            page,
        },
        RedoKind::Index,
        edits,
    )
}
